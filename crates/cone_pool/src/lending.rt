//! Passes on all deques are handed out, and come back.

ghost use Rattle.std.specs.Prelude.{◌≡◌, [], length, map, IfOk, OnOk};
ghost use Rattle.cone_pool.specs.Crews.{lot_of, rest_of_member, core_of_lot, AreHanded, AreLent, total_taken, total_put};
ghost use Rattle.cone_pool.specs.Lots.{lot_with_one_out, token_on, lot_deque, absorbed_all, deque_of};
ghost use Rattle.cone_pool.specs.Parts.{deques_of};
ghost use Rattle.unimodular_cone.specs.Paths.{Path};

use crate::member::Member;
use crate::rule::Thief;
use crate::token::Token;
use std::alloc::{AllocError, Global};

/// A pass on each worker's deque, for one of them.
pub(crate) fn passes(alloc: Global, members: &mut [Member]) -> Result<Vec<Token>, AllocError>
    ensures lots { IfOk result (λ tokens. map lot_of members.new ≡ map lot_with_one_out (map lot_of members.old)) }
    ensures rest { IfOk result (λ tokens. map rest_of_member members.new ≡ map rest_of_member members.old) }
    ensures tokens { IfOk result (λ tokens. tokens.items ≡ map token_on (map lot_of members.old)) }
{
    let mut tokens = Vec::new(alloc);
    for k in 0..members.len() {
        tokens.push(members[k].lot.fork())?;
    }
    Ok(tokens)
}

/// The passes of one worker come back, one on each deque, the last one first.
pub(crate) fn give_back(members: &mut [Member], tokens: Vec<Token>)
    requires { map deque_of tokens.items ≡ map lot_deque (map lot_of members.old) }
    ensures lots { map lot_of members.new ≡ absorbed_all tokens.items (map lot_of members.old) }
    ensures rest { map rest_of_member members.new ≡ map rest_of_member members.old }
{
    let mut rest = tokens;
    while let Some(token) = rest.pop() {
        members[rest.len()].lot.absorb(token);
    }
}

/// Each worker gets a pass on each deque.
pub(crate) fn hand_out(alloc: Global, members: &mut [Member]) -> Result<(), AllocError>
    requires { AreHanded [] 0 0 (map lot_of members.old) }
    ensures lots { OnOk result
        (AreHanded (map token_on (map lot_of members.old)) (length members.old) (length members.old)
        (map lot_of members.new)) }
    ensures rest { OnOk result (map rest_of_member members.new ≡ map rest_of_member members.old) }
    ensures cores { OnOk result (map core_of_lot (map lot_of members.new) ≡ map core_of_lot (map lot_of members.old)) }
{
    for w in 0..members.len() {
        let tokens = passes(alloc, members)?;
        members[w].lot.hold(tokens);
    }
    Ok(())
}

/// What the workers steal from, in the order of their passes.
pub(crate) fn thieves(alloc: Global, members: &[Member]) -> Result<Vec<Thief>, AllocError>
    ensures { IfOk result (λ thieves. deques_of thieves.items ≡ map lot_deque (map lot_of members.now)) }
{
    let mut thieves = Vec::new(alloc);
    for k in 0..members.len() {
        thieves.push(members[k].lot.thief()?)?;
    }
    Ok(thieves)
}

/// All passes come back.
pub(crate) fn take_back(alloc: Global, members: &mut [Member])
    requires { AreLent (map lot_deque (map lot_of members.old)) 0 (length members.old) (map lot_of members.old) }
    ensures lots { AreLent (map lot_deque (map lot_of members.old)) (length members.old) 0 (map lot_of members.new) }
    ensures rest { map rest_of_member members.new ≡ map rest_of_member members.old }
    ensures taken { (p : Path) → total_taken p (map lot_of members.new) ≡ total_taken p (map lot_of members.old) }
    ensures put { (p : Path) → total_put p (map lot_of members.new) ≡ total_put p (map lot_of members.old) }
{
    for w in 0..members.len() {
        let tokens = members[w].lot.release(alloc);
        give_back(members, tokens);
    }
}
