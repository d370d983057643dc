//! From bytes to tokens: UTF-8, characters, names, the longest token at a place of a text, the attributes of a tag, the
//! character that a reference stands for, and what a declaration declares. XML 1.0 (Fifth Edition), 2.2 to 2.9, 3.1, 4.1,
//! 4.2.2, 4.3.1, 4.3.3 and 4.6; Namespaces in XML 1.0, 3, 4 and 7. Offsets are bytes of the text, from 0, half open.
//! Nothing here takes memory.
//!
//! Here no token is judged by what stands before it: nesting, names of end-tags and two attributes of one name are the
//! reader's. A token's value is not read either. What a token is, is said by `xt_spec`.
#![tactic(auto)]

mod attribute;
mod chars;
mod data;
mod declaration;
mod doctype;
mod front;
mod laws;
mod markup;
mod names;
mod reference;
mod steps;
mod tag;
mod text;
mod token;

pub use attribute::{AttrSrc, next_attribute};
pub use chars::is_char;
pub use data::chars_len;
pub use declaration::{Declaration, read_declaration};
pub use laws::{a_token_or_none, one_subset};
pub use names::{is_name, is_ncname, is_qname, name_at};
pub use reference::referenced_char;
pub use steps::Steps;
pub use text::{NotUtf8, text_of};
pub use token::{Kind, LexFault, Span, Token, next_token};
