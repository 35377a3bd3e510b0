use crate::{coordinate_of, next_number, sample_matrix};
use fraction128::Fraction;
use matrix_text::RatMatrix;
use std::test::Fail;

#[test]
fn the_recurrence_begins_so(rt: HostRuntime) {
    let first = next_number(0);
    assert_eq!(rt; first, 1442695040888963407);
    assert_eq!(rt; coordinate_of(first), 2);
    let second = next_number(first);
    assert_eq!(rt; second, 1876011003808476466);
    assert_eq!(rt; coordinate_of(second), 0);
}

fn entry_at(a: &RatMatrix, row: u8, column: u8) -> Option<Fraction> {
    if row == 0 || column == 0 || row > a.n() || column > a.n() {
        return None;
    }
    Some(a.entry(row, column))
}

/// From 0 the coordinates are 2, 0, 1 and 1: the vectors are (2, 0) and (1, 1).
const TWO_VECTORS: [(u8, u8, i128); 4] = [(1, 1, 5), (1, 2, 1), (2, 1, 1), (2, 2, 1)];

#[test]
fn two_vectors_are_summed(rt: HostRuntime) -> Result<(), Fail> {
    let a = sample_matrix(rt.alloc(), 2, 2, 0)?;
    assert_eq!(rt; a.n(), 2);
    for (row, column, entry) in TWO_VECTORS {
        assert_eq!(rt; entry_at(&a, row, column), Some(Fraction::new(entry, 1)));
    }
    Ok(())
}
