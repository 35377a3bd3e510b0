//! Matrices as rows of eight numbers.

ghost use Rattle.std.specs.Prelude.{◌≡◌, ◌≤◌, ◌<◌};
ghost use Rattle.exact_forms.specs.Forms.{IsSymmetric};
ghost use Rattle.symmetric_matrix.specs.Symmetric.{entry};
ghost use Rattle.unimodular_cone.specs.Cones.{unit_vectors};
ghost use Rattle.certificate_checker.specs.Rows.{at, AreFirst, AgreeBelow};

use symmetric_matrix::SymInt;

/// A row of a matrix, which counts from 0.
fn row_of(w: &SymInt, i: u8) -> [i128; 8]
    requires { i < w.now.size }
    ensures { AreFirst w.now.size result (entry w.now i) }
{
    let n = w.n();
    let mut row = [0; 8];
    for j in 0..n {
        row[usize::from(j)] = w.get(i + 1, j + 1);
    }
    row
}

/// The rows of a matrix.
pub fn rows_of(w: &SymInt) -> [[i128; 8]; 8]
    ensures rows { AgreeBelow w.now.size (at result) (entry w.now) }
    ensures symmetric { IsSymmetric w.now.size (at result) }
{
    let n = w.n();
    let mut rows = [[0; 8]; 8];
    for i in 0..n {
        rows[usize::from(i)] = row_of(w, i);
    }
    rows
}

/// A unit vector.
fn unit_row(k: usize) -> [i64; 8]
    requires { k < 8 }
    ensures { AreFirst 8 result (unit_vectors k) }
{
    let mut row = [0; 8];
    row[k] = 1;
    row
}

/// The unit vectors.
pub fn unit_rows() -> [[i64; 8]; 8]
    ensures { AgreeBelow 8 (at result) unit_vectors }
{
    let mut rows = [[0; 8]; 8];
    for k in 0..8 {
        rows[k] = unit_row(k);
    }
    rows
}
