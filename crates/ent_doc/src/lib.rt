//! One document: from the bytes of a file to its nodes, or its first fault. Names are expanded, bases joined, values
//! normalized (Namespaces in XML 1.0; XML Base; XML 1.0 (Fifth Edition), sections 2.11, 2.12 and 3.3.3).
//! So far of documents that need no declaration, and of one file. What a reading is, is for `xt_read`.
#![tactic(auto)]

mod around;
mod attribute;
mod distinct;
mod document;
mod element;
mod fault;
mod guess;
mod inclusion;
mod laws;
mod leaf;
mod names;
mod opening;
mod source;
mod tag;
mod tree;
mod work;

pub use document::document_nodes;
pub use fault::OpenFault;
pub use laws::{
    a_document_opens_once, a_document_opens_or_has_a_fault, an_open_document_has_no_fault,
    one_document_fault,
};
pub use opening::{Opened, open_document};
