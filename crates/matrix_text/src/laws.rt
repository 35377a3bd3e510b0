//! Laws of the texts.

ghost use Rattle.std.specs.Prelude.{List, ℕ};
ghost use Rattle.matrix_text.specs.RationalMatrix.{RationalMatrix, IsRationalMatrix};
ghost use Rattle.matrix_text.specs.Matrix.{MatrixText, HasOneReading};
ghost use Rattle.matrix_text.specs.Canonical.{matrix_text, IsShortMatrix};

/// Bytes are the text of one matrix, or have one first fault, and not both.
pub fn text_or_fault()
    ensures { (bytes : List ℕ) → HasOneReading bytes }
{}

/// The written form of a matrix is a text of that matrix.
pub fn written_is_read()
    ensures { (a : RationalMatrix) → IsRationalMatrix a → IsShortMatrix a → MatrixText (matrix_text a) a }
{}
