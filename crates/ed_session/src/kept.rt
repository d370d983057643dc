//! What a session keeps.
ghost use Rattle.std.specs.Prelude.{◌≡◌, ℕ, List, [], Some, None, IfOk, length};
ghost use Rattle.bk_spec.specs.NodePaths.{node_paths};
ghost use Rattle.bk_spec.specs.Opening.{IsOpen};
ghost use Rattle.xt_tree.specs.Meaning.{items_in};
ghost use Rattle.xt_tree.specs.Places.{marks_of, AreInPlace};
ghost use Rattle.bk_info.specs.Nodes.{nodes_in};
ghost use Rattle.bk_info.specs.Paths.{paths_in};
ghost use Rattle.bk_info.specs.Vias.{HaveVia};
ghost use Rattle.ed_session.specs.Kept.{Opens};

use bk_info::Node;
use bk_name::Name;
use ent_doc::{OpenFault, Opened, document_nodes};
use sqlite_items::Items;
use std::alloc::{AllocError, Global};
use std::marker::Model;
use xt_lex::text_of;
use xt_tree::{Row, Tape};

/// The root of a book that is open: its bytes as edited, the items that they read as, and its bytes as last saved.
///
/// Contracts see its name and both bytes (`Kept`).
#[derive(Drop)]
pub struct Session {
    pub(crate) root: Name,
    pub(crate) bytes: Vec<u8>,
    pub(crate) items: Tape,
    /// The nodes that the items give, where no edit came since they were made.
    pub(crate) nodes: Option<Items<Node>>,
    /// The bytes last saved, where an edit came since.
    pub(crate) saved: Option<Vec<u8>>,
}

impl Model for Session {
    ghost use Rattle.ed_session.specs.Kept.{Kept, kept, IsOpenRoot};

    ghost Value = { Kept };

    ghost view = { λ s. kept s.root s.bytes.items s.saved };

    ghost invariant = { λ s. IsOpenRoot s.root s.bytes.items s.items s.nodes s.saved };
}

/// The nodes of a document that opens: it has no fault, so want of memory is the one error.
fn nodes_again(
    alloc: Global,
    root: &Name,
    bytes: &[u8],
    items: &Row<'_>,
) -> Result<Items<Node>, AllocError>
    requires opens { Opens root.now bytes.now (items_in bytes.now items.now) }
    requires place { AreInPlace bytes.now 0 (marks_of items.now) (length bytes.now) }
    ensures value { IfOk result (λ nodes. IsOpen root.now bytes.now (items_in bytes.now items.now) (nodes_in nodes)) }
    ensures paths { IfOk result (λ nodes. paths_in nodes ≡ node_paths [] 0 (items_in bytes.now items.now)) }
    ensures via { IfOk result (HaveVia []) }
{
    let Ok(text) = text_of(bytes) else {
        unreachable!();
    };
    match document_nodes(alloc, root, text, items) {
        Ok(nodes) => Ok(nodes),
        Err(OpenFault::NoMemory) => Err(AllocError),
        Err(OpenFault::Book(_)) => unreachable!(),
    }
}

impl Session {
    /// The name of the root.
    pub fn root(&self) -> &Name
        ensures value { result.now ≡ self.now.root }
    {
        &self.root
    }

    /// The bytes of the root as edited.
    pub fn bytes(&self) -> &[u8]
        ensures value { result.now ≡ self.now.bytes }
    {
        self.bytes.as_slice()
    }

    /// The items that they read as.
    pub fn items(&self) -> Row<'_>
        ensures opens { Opens self.now.root self.now.bytes (items_in self.now.bytes result) }
        ensures place { AreInPlace self.now.bytes 0 (marks_of result) (length self.now.bytes) }
    {
        self.items.items()
    }

    /// The items and the nodes of the bytes as edited, each node with the path of its item, and through no reference. The
    /// nodes are made anew where an edit came since the start. The one error is want of memory.
    pub fn into_opened(self) -> Result<Opened, AllocError>
        ensures value { IfOk result (λ opened. IsOpen self.root self.bytes (items_in self.bytes opened.items) (nodes_in opened.nodes)) }
        ensures paths { IfOk result (λ opened. paths_in opened.nodes ≡ node_paths [] 0 (items_in self.bytes opened.items)) }
        ensures via { IfOk result (λ opened. HaveVia [] opened.nodes) }
    {
        let alloc = *self.bytes.allocator();
        let Session {
            root,
            bytes,
            items: tape,
            nodes,
            saved: _,
        } = self;
        match nodes {
            Some(nodes) => Ok(Opened { items: tape, nodes }),
            None => {
                let nodes = nodes_again(alloc, &root, bytes.as_slice(), &tape.items())?;
                Ok(Opened { items: tape, nodes })
            }
        }
    }
}
