//! Laws of cone trees and of the texts of verdicts. Each call does nothing: its contract is the law.

ghost use Rattle.cone_tree_certificate.specs.Theorems.{TreesProve, PairTreesProve, OnePairTree, OneVerdict, WrittenIsRead};

/// A matrix that a tree proves copositive is copositive.
pub fn trees_prove()
    ensures { TreesProve }
{}

/// The tree whose nodes are split at the pair, and whose leaves are exactly the closed cones, proves.
pub fn pair_trees_prove()
    ensures { PairTreesProve }
{}

/// There is at most one such tree.
pub fn one_pair_tree()
    ensures { OnePairTree }
{}

/// Bytes are the text of one verdict, or have one first fault, and not both.
pub fn text_or_fault()
    ensures { OneVerdict }
{}

/// The written form of a verdict is a text of that verdict, also behind lines that are skipped.
pub fn written_is_read()
    ensures { WrittenIsRead }
{}
