//! A text of a file with a new value: the bytes that come in its place. XML 1.0 (Fifth Edition), sections 2.4, 2.11, 3.1
//! and 4.6. The item is given by its path in the file's tree. How a value is written is `xt_escape`'s, where an item
//! stands `xt_tree`'s; which tree the edit gives is `text_edited` of `ed_spec`. Whether an edit may be made is not asked
//! here. The patch takes memory of the size of the value.
#![tactic(auto)]

mod laws;
mod text;

pub use laws::{no_other_value_reads_as_text, one_text_changes, pieces_tell_the_tree};
pub use text::{is_text_at, text_patch};
