//! Edits.

use xt_table::{Seq, Txt};

/// An edit of the printed tree. A place is its numbers, from 1: which child each step takes.
#[derive(Debug, Drop)]
pub enum Edit {
    /// The characters of the text at the place from `from` to `to`, counted from 0, become `value`: `text /1/1 0 2 "a"`.
    Text {
        place: Seq<u32>,
        from: u32,
        to: u32,
        value: Txt,
    },
}
