//! The text of a factorization.
//!
//! A call that is refused for want of memory may have written a part.

ghost use Rattle.std.specs.Prelude.{◌≡◌, ◌++◌, OnOk};
ghost use Rattle.cone_tree_certificate.specs.declared.verdict.Verdict.TheVariants.{Factors};
ghost use Rattle.cone_tree_certificate.specs.VerdictText.{IsNarrowTerm, IsWhole};
ghost use Rattle.cpfactor_lines.specs.Texts.{factored_text, term_line, factorization_text};

use crate::line::{Word, push_line, push_line_of};
use fraction128::{Term, Terms};
use std::alloc::AllocError;

/// Appends the line of a term. Its numbers are as small as a verdict's have to be.
pub fn push_term(into: &mut Vec<u8>, term: &Term) -> Result<(), AllocError>
    ensures line { OnOk result (into.new.items ≡ into.old.items ++ term_line term.now) }
    ensures narrow { IsNarrowTerm term.now }
{
    let weight = Word::Fraction {
        num: term.weight.num(),
        den: term.weight.den(),
    };
    push_line_of(into, &[weight], term.vector.as_slice())
}

/// Appends the line that counts the terms of a matrix of n rows.
fn push_factored(into: &mut Vec<u8>, n: u8, count: usize) -> Result<(), AllocError>
    ensures { OnOk result (into.new.items ≡ into.old.items ++ factored_text n count) }
{
    let words = [
        Word::Text(b"factored"),
        Word::Whole(u64::from(n)),
        Word::Whole(count as u64),
    ];
    push_line(into, &words)
}

/// Appends the text of a factorization of a matrix of n rows: the line that counts its terms, and the line of each. It
/// is refused for want of memory alone.
pub fn push_factorization(into: &mut Vec<u8>, n: u8, terms: &Terms) -> Result<(), AllocError>
    ensures text { OnOk result (into.new.items ≡ into.old.items ++ factorization_text n terms.now) }
    ensures whole { OnOk result (IsWhole (Factors n terms.now)) }
{
    push_factored(into, n, terms.len())?;
    for k in 0..terms.len() {
        push_term(into, terms.at(k))?;
    }
    Ok(())
}
