//! What the spelled parts of a file stand for: the values of texts and of attributes, the text of a comment, the target and
//! data of a processing instruction; and which names are meant: the namespaces in scope, and expanded names. XML 1.0 (Fifth
//! Edition), sections 2.5, 2.6, 2.11, 3.3.3, 4.1 and 4.6; Namespaces in XML 1.0, sections 2, 3, 5 and 6. Whether a text is
//! spelled right is not asked here (`xt_read`).
#![tactic(auto)]

mod attribute;
mod cuts;
mod expanded;
mod laws;
mod lines;
mod markup;
mod named;
mod reference;
mod scope;
mod text;
mod tokens;

pub use attribute::attribute_value;
pub use expanded::{Expanded, NameFault, expand_name, is_declaration, prefix_of};
pub use laws::{one_attribute_value, one_content, one_text_value, void_is_empty};
pub use markup::{PiParts, comment_text, pi_parts};
pub use named::NamedText;
pub use scope::{Scope, ScopeFault, scope_of};
pub use text::text_value;
