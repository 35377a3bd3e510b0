//! Symmetric matrices and vectors of whole numbers of 128 bits, with exact answers.
#![tactic(auto)]

mod combining;
mod divisor;
mod forms;
mod matrix;
mod operation;
mod start;
mod vector;
mod vector_list;

pub use combining::Fail;
pub use divisor::gcd;
pub use forms::add_product;
pub use matrix::{SymInt, combine};
pub use operation::{IntKind, IntOp, int_add, int_mul};
pub use start::{
    start_matrix, start_matrix_is_perfect, start_minimum, start_vectors,
    start_weights_are_coordinates,
};
pub use vector::IntVector;
pub use vector_list::VectorList;
