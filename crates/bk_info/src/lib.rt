//! The nodes of a book, as the product keeps them: elements with their attributes, texts, comments and processing
//! instructions, with the file that each came from, its base URI and its language (XML Information Set, sections 2.2 to 2.7);
//! why a book does not open; and the records of what was asked for and read. What many nodes have in common is kept once and
//! shared: names, contexts and origins.
//! Contracts see plain values (`bk_spec::Node`). No file is read here (`ent_doc`).
#![tactic(auto)]

mod address;
mod attr;
mod book;
mod context;
mod fault;
mod name;
mod node;
mod origin;
mod plain;
mod reference;

pub use address::{Address, Siblings, Via};
pub use attr::{Attr, How};
pub use book::{Asked, AskedAs, Reading, Tree};
pub use context::Context;
pub use fault::{BookFault, IncludeKind};
pub use name::NodeName;
pub use node::Node;
pub use origin::{Origin, Role};
pub use plain::{Plain, PlainAttr, infoset};
pub use reference::Reference;
