//! The lossless tree of a file, by places: where each tag and each leaf stands in the file's bytes, the item at a path and
//! its span, and bytes put in place of bytes. Spans are bytes of the file from 0, half open. A tree is kept as a flat list of
//! entries; which items they are is `specs/Levels.antt`. What a tree means is `specs/Meaning.antt`, where its parts have to
//! stand `specs/Places.antt`, and what a span is good for `specs/Spans.antt`. Whether the bytes read so is not asked here
//! (`xt_read`). Reading a tree takes no memory.
#![tactic(auto)]

mod attrs;
mod building;
mod entry;
mod patch;
mod path;
mod row;
mod source;
mod tape;

pub use attrs::Attrs;
pub use building::{Building, Leaf};
pub use patch::{Patch, splice};
pub use path::{item_at, span_at};
pub use row::{Head, Item, Row};
pub use source::{Src, Tag};
pub use tape::Tape;
