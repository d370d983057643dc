//! Laws of edits, over the definitions of `ed_spec` alone: what an accepted edit of a text makes of the nodes that a file
//! gives, that the document opens afterwards, that an edit has one outcome, that other files and other bytes stay, and that a
//! session has one reply. Each is the clause of a function that does nothing. No edit is made here.
#![tactic(auto)]

mod laws;

pub use laws::{
    an_edit_has_an_outcome, an_edited_document_opens, edit_changes_the_node, one_outcome,
    one_reply, other_bytes_stay, other_files_stay, places_have_nodes, steps_are_local,
};
