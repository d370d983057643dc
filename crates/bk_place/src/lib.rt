//! The tree of a book, as it is printed: a line a node, and further lines for an element's base URI and its attributes (of
//! this project). The nodes are those of `bk_info`; how they came is not asked here. The output takes memory, and each level
//! of the tree some stack.
#![tactic(auto)]

mod tree;
mod value;

pub use tree::print;
