//! Nodes.
use crate::address::Address;
use crate::attr::Attr;
use crate::context::Context;
use crate::name::NodeName;
use sqlite_items::Items;
use xt_table::{Seq, SharedText, Txt};

/// A node of the tree. The context of an element is the one of what it holds, and its base URI and language are its own.
#[derive(Debug, Drop)]
pub enum Node {
    /// An element with its children.
    Elem {
        name: NodeName,
        attrs: Seq<Attr>,
        context: Context,
        kids: Items<Node>,
        address: Address,
    },
    /// A text piece.
    Text {
        value: Txt,
        address: Address,
    },
    /// A comment.
    Comment {
        value: Txt,
        address: Address,
    },
    /// A processing instruction.
    Pi {
        target: SharedText,
        value: Txt,
        address: Address,
    },
}
