//! Worked examples.

ghost use Rattle.std.specs.Prelude.{◌≡◌, ◌≤◌, ◌^◌, [], ◌∷◌, ◌++◌};
ghost use Rattle.symmetric_matrix.specs.StartVectors.{start_list};
ghost use Rattle.symmetric_matrix.specs.Symmetric.{FitsInt};

use exact_lp::{Exchanges, Indices, PlaceOp, Placed, Weights, place};
use std::alloc::Global;
use std::process::Abort;
use symmetric_matrix::{IntKind, IntVector, SymInt, VectorList, start_vectors};

#[tactic(auto, using(crate::proofs::PlaceExamples::two_vector))]
fn two(alloc: Global, first: u64, second: u64) -> IntVector
    requires first { first ≤ 2 ^ 62 }
    requires second { second ≤ 2 ^ 62 }
    ensures { result ≡ first ∷ second ∷ [] }
{
    IntVector::from_slice(alloc, &[first, second])
}

// (0,1), (1,0), (1,1)
fn three_vectors(rt: &impl Abort, alloc: Global) -> VectorList
    ensures { result ≡ start_list 2 }
{
    start_vectors(alloc, 2).expect(rt, "memory")
}

#[tactic(auto, using(crate::proofs::PlaceExamples::fourth_follows))]
fn four_vectors(rt: &impl Abort, alloc: Global) -> VectorList
    ensures { result ≡ start_list 2 ++ (2 ∷ 1 ∷ []) ∷ [] }
{
    let mut list = three_vectors(rt, alloc);
    list.push(&two(alloc, 2, 1)).expect(rt, "memory");
    list
}

#[tactic(auto, using(symmetric_matrix::proofs::SmallLower::lower_of_two))]
fn matrix(rt: &impl Abort, alloc: Global, first: i128, second: i128, third: i128) -> SymInt
    requires first { FitsInt first }
    requires second { FitsInt second }
    requires third { FitsInt third }
    ensures { result.size ≡ 2 }
{
    SymInt::from_lower(alloc, 2, &[first, second, third]).expect(rt, "memory")
}

#[tactic(auto, using(crate::proofs::PlaceExamples::one_entry))]
fn single(rt: &impl Abort, alloc: Global, entry: i128) -> SymInt
    requires { FitsInt entry }
    ensures { result.size ≡ 1 }
{
    SymInt::from_lower(alloc, 1, &[entry]).expect(rt, "memory")
}

fn name_of(kind: IntKind) -> &'static str {
    match kind {
        IntKind::Mul => "mul",
        IntKind::Add => "add",
    }
}

fn shown_steps(rt: &impl Abort, alloc: Global, steps: &Exchanges) -> String {
    let mut text = String::new(alloc);
    for k in 0..steps.len() {
        let step = steps.at(k);
        text.push_str(&format!(in alloc; " step {} for {}", step.entering, step.leaving).expect(
            rt, "memory",
        )).expect(rt, "memory");
    }
    text
}

fn shown_weights(rt: &impl Abort, alloc: Global, weights: &Weights) -> String {
    let mut text = String::new(alloc);
    for k in 0..weights.len() {
        let weight = weights.at(k);
        text.push_str(&format!(in alloc; " {}/{}", weight.num(), weight.den()).expect(rt, "memory"))
            .expect(rt, "memory");
    }
    text
}

fn shown_zeros(rt: &impl Abort, alloc: Global, zeros: &Indices) -> String {
    let mut text = String::new(alloc);
    for k in 0..zeros.len() {
        text.push_str(&format!(in alloc; " {}", zeros.at(k)).expect(rt, "memory"))
            .expect(rt, "memory");
    }
    text
}

fn shown_op(rt: &impl Abort, alloc: Global, op: &PlaceOp) -> String {
    match op {
        PlaceOp::Tableau(entry) => format!(in alloc;
            "{} {} {} at {} {}",
            name_of(entry.op.kind),
            entry.op.left,
            entry.op.right,
            entry.row,
            entry.column
        ),
        PlaceOp::Weight { vector, op } => format!(in alloc;
            "{} {} {} in weight {}",
            name_of(op.kind),
            op.left,
            op.right,
            vector
        ),
    }
    .expect(rt, "memory")
}

fn shown(rt: &impl Abort, alloc: Global, placed: &Placed) -> String {
    match placed {
        Placed::Inside { weights, steps } => format!(in alloc;
            "inside{}{}",
            shown_weights(rt, alloc, weights),
            shown_steps(rt, alloc, steps)
        ),
        Placed::Outside {
            zeros,
            leaving,
            steps,
        } => format!(in alloc;
            "outside leaving {leaving} zeros{}{}",
            shown_zeros(rt, alloc, zeros),
            shown_steps(rt, alloc, steps)
        ),
        Placed::Pivots { steps } => format!(in alloc; "pivots{}", shown_steps(rt, alloc, steps)),
        Placed::Wide { op, steps } => format!(in alloc;
            "wide {}{}",
            shown_op(rt, alloc, op),
            shown_steps(rt, alloc, steps)
        ),
        Placed::OutOfMemory => format!(in alloc; "memory"),
    }
    .expect(rt, "memory")
}

#[tactic(auto, using(crate::proofs::PlaceExamples::four_lengths, crate::proofs::PerfectExamples::four_perfect))]
#[test]
fn a_step_or_its_refusal(rt: HostRuntime) {
    let alloc = rt.alloc();
    let vectors = four_vectors(&rt, alloc);
    let s = matrix(&rt, alloc, 6, 3, 2);
    let made = shown(&rt, alloc, &place(alloc, &vectors, &s, 1, 1));
    assert!(&rt; made.as_str() == "inside 1/3 1/3 1/3 4/3 step 3 for 2");
    let refused = shown(&rt, alloc, &place(alloc, &vectors, &s, 1, 0));
    assert!(&rt; refused.as_str() == "pivots");
}

#[tactic(auto, using(crate::proofs::PlaceExamples::three_lengths, crate::proofs::PerfectExamples::three_perfect))]
#[test]
fn outside_and_inside_with_no_step(rt: HostRuntime) {
    let alloc = rt.alloc();
    let vectors = three_vectors(&rt, alloc);
    let far = matrix(&rt, alloc, 6, 3, 2);
    let outside = shown(&rt, alloc, &place(alloc, &vectors, &far, 1, 0));
    assert!(&rt; outside.as_str() == "outside leaving 0 zeros 1 2");
    let near = matrix(&rt, alloc, 2, 1, 2);
    let inside = shown(&rt, alloc, &place(alloc, &vectors, &near, 2, 0));
    assert!(&rt; inside.as_str() == "inside 1/2 1/2 1/2");
}

#[tactic(auto, using(crate::proofs::PlaceExamples::one_lengths, crate::proofs::PerfectExamples::one_perfect))]
#[test]
fn zero_over_one_row(rt: HostRuntime) {
    let alloc = rt.alloc();
    let vectors = start_vectors(alloc, 1).expect(&rt, "memory");
    let s = single(&rt, alloc, 0);
    let text = shown(&rt, alloc, &place(alloc, &vectors, &s, 1, 0));
    assert!(&rt; text.as_str() == "inside 0/1");
}

// The third vector's exchange subtracts -1 from the greatest whole number.
#[tactic(auto, using(crate::proofs::PlaceExamples::three_lengths, crate::proofs::PerfectExamples::three_perfect))]
#[test]
fn the_first_operation_of_the_tableau_that_does_not_fit(rt: HostRuntime) {
    let alloc = rt.alloc();
    let vectors = three_vectors(&rt, alloc);
    let s = matrix(&rt, alloc, i128::MAX, -1, 0);
    let wide = shown(&rt, alloc, &place(alloc, &vectors, &s, 1, 0));
    assert!(&rt; wide.as_str() == "wide add 170141183460469231731687303715884105727 1 at 1 7");
}

#[tactic(auto, using(crate::proofs::PlaceExamples::double_vector, crate::proofs::PlaceExamples::double_follows))]
fn double(rt: &impl Abort, alloc: Global) -> VectorList
    ensures { result ≡ (2 ∷ []) ∷ [] }
{
    let mut list = VectorList::new(alloc);
    list.push(&IntVector::from_slice(alloc, &[2]))
        .expect(rt, "memory");
    list
}

// A quarter over the greatest whole number.
#[tactic(auto, using(crate::proofs::PlaceExamples::double_lengths, crate::proofs::PerfectExamples::double_perfect))]
#[test]
fn a_weight_that_does_not_fit(rt: HostRuntime) {
    let alloc = rt.alloc();
    let vectors = double(&rt, alloc);
    let s = single(&rt, alloc, 1);
    let wide = shown(&rt, alloc, &place(alloc, &vectors, &s, i128::MAX, 0));
    assert!(&rt; wide.as_str() == "wide mul 4 170141183460469231731687303715884105727 in weight 0");
}

// A third over the greatest whole number, after a step.
#[tactic(auto, using(crate::proofs::PlaceExamples::four_lengths, crate::proofs::PerfectExamples::four_perfect))]
#[test]
fn a_weight_that_does_not_fit_after_a_step(rt: HostRuntime) {
    let alloc = rt.alloc();
    let vectors = four_vectors(&rt, alloc);
    let s = matrix(&rt, alloc, 6, 3, 2);
    let wide = shown(&rt, alloc, &place(alloc, &vectors, &s, i128::MAX, 1));
    assert!(&rt;
        wide.as_str()
            == "wide mul 3 170141183460469231731687303715884105727 in weight 0 step 3 for 2"
    );
}
