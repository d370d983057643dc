//! What is kept of a book beside its faults: the files that were asked for and read, and its tree.
use crate::node::Node;
use crate::origin::Role;
use bk_name::Name;
use sqlite_items::Items;
use xt_tree::Tape;

/// As what a file is asked for: in one of the roles of nodes, or for its declarations.
#[derive(Clone, Copy, Debug, PartialEq, Eq)]
pub enum AskedAs {
    /// As a document.
    Document,
    /// As an external parsed entity.
    Entity,
    /// As a text that is no XML.
    Text,
    /// As a DTD: an external subset, or a parameter entity. It gives no nodes.
    Dtd,
}

/// A file that was looked up, there or not.
#[derive(Debug, Drop)]
pub struct Asked {
    pub name: Name,
    pub role: AskedAs,
}

/// The syntax items of a file that was read in a role.
#[derive(Debug, Drop)]
pub struct Reading {
    pub name: Name,
    pub role: Role,
    pub items: Tape,
}

/// The tree of a book: the nodes of its root, with what is shown in the place of references and inclusions.
#[derive(Debug, Drop)]
pub struct Tree {
    pub nodes: Items<Node>,
}
