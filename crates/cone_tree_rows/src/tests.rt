//! The tree of 6 -3 / -3 2, as it was worked out by hand.

use cone_tree_certificate::{TreeLine, build_tree};
use search_core::{Searcher, Sign};
use serial_search::SerialSearcher;
use std::alloc::{AllocError, Global};
use symmetric_matrix::SymInt;

/// The lines of the tree that proves a matrix copositive, where a search to depth 60 finds that it is.
fn tree_of(alloc: Global, w: &SymInt) -> Result<Vec<TreeLine>, AllocError> {
    let mut lines = Vec::new(alloc);
    let Sign::Copositive = SerialSearcher::new(alloc).sign(w, 60) else {
        return Ok(lines);
    };
    let tree = build_tree(alloc, w, 60)?;
    for k in 0..tree.len() {
        lines.push(*tree.at(k))?;
    }
    Ok(lines)
}

#[test]
fn a_split_and_two_leaves(rt: HostRuntime) -> Result<(), AllocError> {
    let w = SymInt::from_lower(rt.alloc(), 2, &[6, -3, 2])?;
    let lines = tree_of(rt.alloc(), &w)?;
    assert_eq!(&rt;
        lines.as_slice(),
        [
            TreeLine::Split { i: 1, j: 2 },
            TreeLine::Leaf,
            TreeLine::Leaf
        ]
        .as_slice()
    );
    Ok(())
}
