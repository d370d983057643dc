//! A session over a book of one file: its root is recovered and opened, edited, and saved by a burst.
//!
//! What an edit does is said by `ed_spec`, which document opens by `bk_spec`, how files are saved by `jr_burst`. After an
//! edit the file is read anew, and its nodes are made only when they are asked for. Which line of a script asks for what is
//! not asked here (`bk_script`), nor what is told (`book_cli`).
#![tactic(auto)]

mod burst;
mod edit;
mod kept;
mod opening;
mod place;
mod range;
mod refusal;

pub use kept::Session;
pub use opening::{StartFault, start};
pub use refusal::{EditFault, Refusal};
