//! The type of an edit, for those who read one and those who make one; what it means is in `specs/`. What an edit makes of
//! a book, and when it is refused, is said by `ed_spec`. It reads no script, and makes no edit.
#![tactic(auto)]

mod edit;

pub use edit::Edit;
