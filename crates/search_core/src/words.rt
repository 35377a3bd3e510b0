//! The word that workers share, and the codes of cones.
//!
//! A word from 0 to 255 says that a low generator was found at that depth; a word w of at least 256 says that the bound is
//! w - 256.

ghost use Rattle.std.specs.Prelude.{◌≡◌, ◌≤◌, ◌<◌, ◌-◌, ◌^◌, ◌↔◌, IsTrue, nat_abs, pos};
ghost use Rattle.symmetric_matrix.specs.Symmetric.{entry};
ghost use Rattle.unimodular_cone.specs.Tree.{IsLowValue};
ghost use Rattle.unimodular_cone.specs.Answer.{BoundFits, IsLeastDiagonal};
ghost use Rattle.search_core.specs.Fair.{start_of, start_word, code_of, bound_under};
ghost use Rattle.search_core.specs.Judging.{shown_code, IsStartable};

use symmetric_matrix::SymInt;
use unimodular_cone::{ConeRead, Mode, least_value};

/// Whether a value is low: below 0 (Sign), or at most 0 (Least).
pub(crate) fn is_low_value(mode: Mode, value: i128) -> bool
    ensures { IsTrue result ↔ IsLowValue mode value }
{
    match mode {
        Mode::Sign => value < 0,
        Mode::Least => value <= 0,
    }
}

/// The least diagonal entry.
pub fn least_diagonal(q: &SymInt) -> i128
    ensures { IsLeastDiagonal q.now.size (entry q.now) result }
{
    let n = q.n();
    let mut least = q.get(1, 1);
    for k in 1..n {
        let value = q.get(k + 1, k + 1);
        if value < least {
            least = value;
        }
    }
    least
}

/// The start word of a matrix whose least diagonal entry is this.
fn start_of_least(mode: Mode, least: i128) -> u64
    requires { IsStartable mode least }
    ensures { result ≡ start_of mode least }
{
    match mode {
        Mode::Sign => 256,
        Mode::Least => 256 + least.max(1) as u64,
    }
}

/// The word before any cone is judged: 256 (Sign), or 256 plus the least diagonal entry, or 257 where that is at most 0
/// (Least).
pub fn start_word(mode: Mode, q: &SymInt) -> u64
    requires { BoundFits mode q.now.size (entry q.now) }
    ensures { result ≡ start_word mode q.now.size (entry q.now) }
{
    start_of_least(mode, least_diagonal(q))
}

/// The code of a cone of this depth whose least value is this.
pub(crate) fn code_at(mode: Mode, depth: u8, least: i128) -> u64
    ensures { result ≡ code_of mode depth least }
{
    if is_low_value(mode, least) {
        return u64::from(depth);
    }
    match mode {
        Mode::Sign => 256,
        Mode::Least if least >= 1 << 64 => u64::MAX,
        Mode::Least => (least as u64).saturating_add(256),
    }
}

/// The code of a cone: its depth if a generator is low; else 256 (Sign), or 256 plus the least value, at most 2^64 - 1
/// (Least).
pub fn code<C: ConeRead>(mode: Mode, c: &C) -> u64
    ensures { result ≡ shown_code mode (C.cone c.now) }
{
    code_at(mode, c.path().len(), least_value(c))
}

/// The bound that a word stands for: 0 (Sign), or the word less 256, and at least 1 (Least).
pub fn bound_under(mode: Mode, word: u64) -> u64
    ensures { pos result ≡ bound_under mode word }
{
    match mode {
        Mode::Sign => 0,
        Mode::Least => word.saturating_sub(256).max(1),
    }
}
