//! The root of a small matrix, with numbers that were worked out by hand, and a set of keys.

use crate::{Fate, Judged, KeySet, Mode, code, judge, judgement};
use std::test::Fail;
use symmetric_matrix::SymInt;
use unimodular_cone::{Path, root};

#[test]
fn fate_of_a_root(rt: HostRuntime) -> Result<(), Fail> {
    // The form is 2 x^2 - 6 x y + 6 y^2. The slack of the first generator is 2 - 3, and the child that has their sum has 2 - 6 + 6
    // in its place.
    let q = SymInt::from_lower(rt.alloc(), 2, &[2, -3, 6])?;
    let cone = root(&q)?;
    let word = code(Mode::Least, &cone);
    assert_eq!(rt; word, 258);
    assert_eq!(rt; code(Mode::Sign, &cone), 256);
    let fate = Fate::Split { i: 1, j: 2, word };
    assert_eq!(rt; judge(Mode::Least, &cone, 200, word), fate);
    let path = Path::root();
    let least = 2;
    let expected = Judged { path, fate, least };
    assert_eq!(rt; judgement(Mode::Least, &cone, 200, word), expected);
    Ok(())
}

#[test]
fn key_put_twice(rt: HostRuntime) -> Result<(), Fail> {
    // The keys have the same first six numbers, and so the same place in the table.
    let key = [1, 2, 3, 4, 5, 6, 7, 8];
    let other = [1, 2, 3, 4, 5, 6, 8, 7];
    let mut found = KeySet::new(rt.alloc());
    found.insert(&key)?;
    found.insert(&key)?;
    assert_eq!(rt; found.len(), 1);
    found.insert(&other)?;
    found.insert(&key)?;
    assert_eq!(rt; found.len(), 2);
    Ok(())
}
