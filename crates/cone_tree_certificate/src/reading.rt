//! Reading the text of a verdict.

ghost use Rattle.std.specs.Prelude.{◌≡◌, ℕ, ◌≤◌, length, IfOk, Err};
ghost use Rattle.cone_tree_certificate.specs.Sizes.{IsSize};
ghost use Rattle.cone_tree_certificate.specs.ProofText.{ProofText, ProofFault, factors_of, verdict_of};
ghost use Rattle.cone_tree_certificate.specs.VerdictText.{IsCheckable, IsWritable};
ghost use Rattle.cone_tree_certificate.specs.Reading.{ReadsTo};
ghost use Rattle.cone_tree_certificate.specs.declared.fault.VerdictKind.{VerdictKind};
ghost use Rattle.cone_tree_certificate.specs.declared.fault.VerdictFail.TheVariants.{Fault};

use crate::fault::VerdictFail;
use crate::header::Header;
use crate::lines::{end_of_lines, next_header, terms_in};
use crate::separator::separator_in;
use crate::verdict::Verdict;
use std::alloc::Global;
use text_lines::content::ContentLines;

/// The factorization that the lines after the header write.
fn factors_in(alloc: Global, lines: ContentLines, n: u8, count: u64) -> Result<Verdict, VerdictFail>
    requires { IsSize n }
    ensures { ReadsTo (λ v. v) result (factors_of n count lines.entry.end lines.entry.lines) }
{
    let mut lines = lines;
    let terms = terms_in(alloc, &mut lines, n, count)?;
    end_of_lines(&mut lines)?;
    Ok(Verdict::Factors { n, terms })
}

/// The verdict that the bytes are a text of, or their first fault.
fn verdict_in(alloc: Global, bytes: &[u8]) -> Result<Verdict, VerdictFail>
    requires { length bytes.now ≤ 67108864 }
    ensures { ReadsTo (λ v. v) result (verdict_of bytes.now) }
{
    let mut lines = ContentLines::of(bytes);
    let header = next_header(&mut lines)?;
    match header {
        Header::OfFactors(n, count) => factors_in(alloc, lines, n, count),
        Header::OfSeparator(n) => separator_in(alloc, lines, n),
    }
}

/// The verdict that the bytes are a text of, at most 67,108,864 of them, or their first fault.
///
/// A factorization is the line `factored n k` and k lines, each a fraction and n coordinates of at most 2^62. A separation is the
/// line `separated n`, the n rows of a symmetric W, the line `value q`, the line `tree k` and k lines, each `leaf` or `split i j`
/// with 1 ≤ i < j ≤ n. n is from 1 to 6, and no number of a fraction or of W is over 2^127 - 1. No further content line follows.
/// A text without fault is read, or memory is wanting.
pub fn read_verdict(alloc: Global, bytes: &[u8]) -> Result<Verdict, VerdictFail>
    requires { length bytes.now ≤ 67108864 }
    ensures ok { IfOk result (λ v. ProofText bytes.now v) }
    ensures writable { IfOk result (λ v. IsWritable v) }
    ensures checkable { IfOk result (λ v. IsCheckable v) }
    ensures fault { (kind : VerdictKind) → (line : ℕ) → result ≡ Err (Fault (record { kind = kind; line = line }))
        → ProofFault bytes.now kind line }
{
    verdict_in(alloc, bytes)
}
