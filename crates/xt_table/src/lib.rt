//! Lists and texts for the fields of public types: contracts see a list, and no allocator or capacity.
//! `Seq` and `Txt` are made of a `Vec` or a `String` and give it back, without taking memory. `SharedText` and `Shared` have
//! several owners, which contracts do not see.
#![tactic(auto)]

mod seq;
mod shared;
mod shared_text;
mod txt;

pub use seq::Seq;
pub use shared::Shared;
pub use shared_text::SharedText;
pub use txt::Txt;
