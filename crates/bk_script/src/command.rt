//! What a line asks for.

use ed_edit::Edit;

/// A command that is built.
#[derive(Debug, Drop)]
pub enum Command {
    /// An edit.
    Edit(Edit),
    /// Save: `burst`.
    Burst,
}
