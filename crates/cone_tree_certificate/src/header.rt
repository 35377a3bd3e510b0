//! The header of a verdict's text.

ghost use Rattle.std.specs.Prelude.{◌≡◌, ◌≤◌, IfOk};
ghost use Rattle.text_lines.specs.Lines.{words};
ghost use Rattle.cone_tree_certificate.specs.Sizes.{IsSized};
ghost use Rattle.cone_tree_certificate.specs.Words.{dimension_of, separation_header, factorization_header, verdict_header};

use crate::fault::VerdictKind;
use crate::word::count;
use text_lines::numbers::whole_number;
use text_lines::words::Words;

/// What the first content line says of the lines after it.
#[derive(Clone, Copy)]
pub enum Header {
    /// A factorization of so many terms, with vectors of n coordinates.
    OfFactors(u8, u64),
    /// A separation by a matrix of n rows.
    OfSeparator(u8),
}

/// How many coordinates or rows there are, from 1 to 6.
#[tactic(auto, unfolding(crate::specs::Words::dimension_of))]
fn dimension(word: &[u8]) -> Result<u8, VerdictKind>
    ensures value { result ≡ dimension_of word.now }
    ensures some { IfOk result (λ n. 1 ≤ n) }
    ensures few { IfOk result (λ n. n ≤ 6) }
{
    match whole_number(word) {
        Some(size @ 1..=6) => Ok(size as u8),
        _ => Err(VerdictKind::BadDimension),
    }
}

fn separation(name: &[u8], size: &[u8]) -> Result<Header, VerdictKind>
    ensures value { result ≡ separation_header name.now size.now }
    ensures sized { IfOk result IsSized }
{
    if name != b"separated".as_slice() {
        return Err(VerdictKind::NoHeader);
    }
    match dimension(size) {
        Ok(n) => Ok(Header::OfSeparator(n)),
        Err(kind) => Err(kind),
    }
}

fn factorization(name: &[u8], size: &[u8], terms: &[u8]) -> Result<Header, VerdictKind>
    ensures value { result ≡ factorization_header name.now size.now terms.now }
    ensures sized { IfOk result IsSized }
{
    if name != b"factored".as_slice() {
        return Err(VerdictKind::NoHeader);
    }
    match (dimension(size), count(terms)) {
        (Ok(n), Ok(terms)) => Ok(Header::OfFactors(n, terms)),
        (Err(kind), _) => Err(kind),
        (Ok(_), Err(kind)) => Err(kind),
    }
}

/// What the words of a line say as the header.
#[tactic(auto, unfolding(crate::specs::Words::verdict_header))]
pub fn header_in(line: &[u8]) -> Result<Header, VerdictKind>
    ensures value { result ≡ verdict_header (words line.now) }
    ensures sized { IfOk result IsSized }
{
    let mut words = Words::of(line);
    match (words.next(), words.next(), words.next(), words.next()) {
        (Some(name), Some(size), None, _) => separation(name, size),
        (Some(name), Some(size), Some(count), None) => factorization(name, size, count),
        _ => Err(VerdictKind::NoHeader),
    }
}
