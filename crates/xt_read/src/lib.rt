//! From the bytes of one file to its lossless tree, as a document, as an external parsed entity or as a text, or its first
//! fault; and whether a document gives content by itself. XML 1.0 (Fifth Edition), sections 2.1, 2.2, 2.5 to 2.8, 3, 3.1,
//! 4.1 and 4.3.1 to 4.3.3. Offsets are bytes of the file, from 0. The tokens are `xt_lex`'s; here is which of them may stand
//! behind which: nesting, names of end-tags, two attributes of one name, levels, what stands at the top. Names are not
//! resolved, and no value is made. Above, only `IsReading`, `IsFirstFault`, `HasContent` and the places of the marks are used.
//! The items take memory; nothing else does but the attributes of one tag, and their names where there are many.
#![tactic(auto)]

mod advance;
mod bytes;
mod content;
mod document;
mod front;
mod items;
mod laws;
mod names;
mod reader;
mod stage;
mod tags;
mod text;
mod unread;

pub use content::has_content;
pub use document::{read_document, read_entity, read_text};
pub use laws::{
    a_reading_or_a_fault, content_or_none, longest_tokens, no_fault, one_fault, one_reading,
};
pub use unread::Unread;
