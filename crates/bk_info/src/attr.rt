//! Attributes of nodes. Namespace declarations are not among them.
use crate::name::NodeName;
use xt_table::{SharedText, Txt};

/// How an attribute came.
#[derive(Clone, Copy, Debug, PartialEq, Eq)]
pub enum How {
    /// It is written in the tag.
    Written,
    /// It is declared as a default.
    Default,
    /// Inclusion made it.
    Fixup,
}

/// An attribute of an element.
#[derive(Debug, Drop)]
pub struct Attr {
    /// The name as written, a QName.
    pub qname: SharedText,
    pub name: NodeName,
    /// The normalized value.
    pub value: Txt,
    /// Whether it is of type ID.
    pub is_id: bool,
    pub how: How,
}
