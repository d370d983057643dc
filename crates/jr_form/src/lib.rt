//! The journal of a save as bytes: which files are written, with what, and which are removed.
//!
//! The format is this project's own (`specs/Journal.antt`): each list of items has one spelling, and no bytes spell
//! two lists. Names are those of `bk_name`. Where the journal stands, and when it counts, is not said here (`jr_burst`).
//! Sizes count bytes. `write_journal` and `read_journal` take memory, `are_writable` none.
#![tactic(auto)]

mod condition;
mod item;
mod limits;
mod reading;
mod writing;

pub use condition::are_writable;
pub use item::Item;
pub use reading::read_journal;
pub use writing::{one_reading, write_journal};
