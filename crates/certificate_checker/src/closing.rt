//! Whether a leaf is closed.

ghost use Rattle.std.specs.Prelude.{◌≡◌, ◌≤◌, ◌<◌, ◌-ℤ◌, neg_ℤ, pos, int_le, cond, ◌&&◌, [], ◌∷◌, Some, None, OnOk, IfOk, IfErr};
ghost use Rattle.exact_forms.specs.Slacks.{slack, shortfall};
ghost use Rattle.unimodular_cone.specs.Cones.{gram};
ghost use Rattle.symmetric_matrix.specs.Owed.{answer, first_owed};
ghost use Rattle.symmetric_matrix.specs.Operations.{is_owed, add_op};
ghost use Rattle.certificate_checker.specs.Loops.{steps};
ghost use Rattle.certificate_checker.specs.Rows.{numbers, at, flipped, AreFirst, AgreeBelow};
ghost use Rattle.certificate_checker.specs.Dots.{rows_times};
ghost use Rattle.certificate_checker.specs.Leaves.{column_ops, generator_ops, slack_ops, leaf_ops, is_closed};

use crate::dots::times;
use symmetric_matrix::{IntOp, int_add};

/// The Gram matrix of the first n generators, a column for each of them, or the first operation that does not fit.
fn gram_columns(n: usize, w: &[[i128; 8]; 8], v: &[[i128; 8]; 8]) -> Result<[[i128; 8]; 8], IntOp>
    requires { n ≤ 8 }
    ensures fits { OnOk result (first_owed is_owed (steps (generator_ops n (at w.now) (at v.now)) n) ≡ None) }
    ensures value { IfOk result (λ columns. AgreeBelow n (flipped columns) (gram n (at w.now) (at v.now))) }
    ensures wide { IfErr result (λ op. first_owed is_owed (steps (generator_ops n (at w.now) (at v.now)) n) ≡ Some op) }
{
    let mut columns = [[0; 8]; 8];
    for b in 0..n {
        columns[b] = gram_column(n, w, v, &v[b])?;
    }
    Ok(columns)
}

/// The products of the generators with one of them.
fn gram_column(
    n: usize,
    w: &[[i128; 8]; 8],
    v: &[[i128; 8]; 8],
    b: &[i128; 8],
) -> Result<[i128; 8], IntOp>
    requires { n ≤ 8 }
    ensures fits { OnOk result (first_owed is_owed (column_ops n (at w.now) (at v.now) (numbers b.now)) ≡ None) }
    ensures value { IfOk result
        (λ column. AreFirst n column (rows_times n (at v.now) (rows_times n (at w.now) (numbers b.now)))) }
    ensures wide { IfErr result (λ op. first_owed is_owed (column_ops n (at w.now) (at v.now) (numbers b.now))
        ≡ Some op) }
{
    let image = times(n, w, b)?;
    times(n, v, &image)
}

/// What is added to a slack for a Gram entry.
pub fn lesser_of_zero(z: i128) -> i128
    ensures { result ≡ neg_ℤ (shortfall z) }
{
    if z < 0 { z } else { 0 }
}

/// What is left of a slack after one more Gram entry, its own one left out.
fn lessened(left: i128, own: bool, beside: i128) -> Result<i128, IntOp>
    ensures { result
        ≡ answer is_owed (cond own [] (add_op left (neg_ℤ (shortfall beside)) ∷ []))
        (left -ℤ cond own (pos 0) (shortfall beside)) }
{
    if own {
        Ok(left)
    } else {
        int_add(left, lesser_of_zero(beside))
    }
}

/// The slack of a generator, which counts from 0.
fn slack(n: usize, columns: &[[i128; 8]; 8], a: usize) -> Result<i128, IntOp>
    requires few { n ≤ 8 }
    requires range { a < n }
    ensures fits { OnOk result (first_owed is_owed (slack_ops n (flipped columns.now) a) ≡ None) }
    ensures value { IfOk result (λ z. z ≡ slack n (flipped columns.now) a) }
    ensures wide { IfErr result (λ op. first_owed is_owed (slack_ops n (flipped columns.now) a) ≡ Some op) }
{
    let mut left = columns[a][a];
    for c in 0..n {
        left = lessened(left, c == a, columns[c][a])?;
    }
    Ok(left)
}

/// Whether it was closed, and this slack is not negative.
fn still_closed(closed: bool, slack: i128) -> bool
    ensures { result ≡ (closed && int_le (pos 0) slack) }
{
    closed && slack >= 0
}

/// Whether no slack is negative.
fn has_no_negative(n: usize, columns: &[[i128; 8]; 8]) -> Result<bool, IntOp>
    requires { n ≤ 8 }
    ensures fits { OnOk result (first_owed is_owed (steps (slack_ops n (flipped columns.now)) n) ≡ None) }
    ensures value { IfOk result (λ closed. closed ≡ is_closed n (flipped columns.now)) }
    ensures wide { IfErr result (λ op. first_owed is_owed (steps (slack_ops n (flipped columns.now)) n) ≡ Some op) }
{
    let mut closed = true;
    for a in 0..n {
        closed = still_closed(closed, slack(n, columns, a)?);
    }
    Ok(closed)
}

/// Whether the cone of the first n generators is closed at 0, or the first operation that does not fit.
pub fn is_closed(n: usize, w: &[[i128; 8]; 8], v: &[[i128; 8]; 8]) -> Result<bool, IntOp>
    requires { n ≤ 8 }
    ensures fits { OnOk result (first_owed is_owed (leaf_ops n (at w.now) (at v.now)) ≡ None) }
    ensures value { IfOk result (λ closed. closed ≡ is_closed n (gram n (at w.now) (at v.now))) }
    ensures wide { IfErr result (λ op. first_owed is_owed (leaf_ops n (at w.now) (at v.now)) ≡ Some op) }
{
    let columns = gram_columns(n, w, v)?;
    has_no_negative(n, &columns)
}
