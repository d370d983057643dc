//! The nodes of the items of a document.
ghost use Rattle.std.specs.Prelude.{◌≡◌, [], IfOk, IfErr, IfSome, length, Ok};
ghost use Rattle.xt_spec.specs.Content.{Content, HasContent};
ghost use Rattle.xt_spec.specs.Reading.{document, IsReading};
ghost use Rattle.bk_spec.specs.DocumentNodes.{nodes_of};
ghost use Rattle.bk_spec.specs.Opening.{top_context};
ghost use Rattle.xt_tree.specs.Meaning.{items_in};
ghost use Rattle.xt_tree.specs.Places.{marks_of, AreInPlace};
ghost use Rattle.bk_spec.specs.NodePaths.{node_paths};
ghost use Rattle.bk_info.specs.Nodes.{nodes_in};
ghost use Rattle.bk_info.specs.Paths.{paths_in};
ghost use Rattle.bk_info.specs.Vias.{HaveVia};
ghost use Rattle.ent_doc.specs.Faults.{IsNodesFault};
ghost use Rattle.ent_doc.specs.Opening.{open_fault};

use crate::fault::OpenFault;
use crate::source::Source;
use crate::tree::nodes_of;
use crate::work::Work;
use bk_info::{Context, Node, Origin, Role, Siblings, Via};
use bk_name::{BadBase, Base, Name, uri_of};
use sqlite_items::Items;
use std::alloc::{AllocError, Global};
use xt_table::SharedText;
use xt_tree::Row;
use xt_value::Scope;

/// The base that is assumed.
const BOOK_BASE: &str = "file:///book/";

/// What a document of this file begins with. The one error is want of memory.
fn top(alloc: Global, file: &Name) -> Result<Context, AllocError>
    ensures value { IfOk result (λ context. context ≡ top_context file.now) }
{
    let base = match Base::read(alloc, BOOK_BASE) {
        Ok(base) => base,
        Err(BadBase::NoMemory) => return Err(AllocError),
        Err(BadBase::BadBase) => unreachable!(),
    };
    let scope = Scope::new(alloc)?;
    let uri = uri_of(alloc, &base, file)?;
    Context::new(alloc, scope, uri, SharedText::from_str(alloc, "")?)
}

/// The nodes that the items of a document give, each with the path of its item and no references through which it came, or its
/// first fault in document order.
///
/// Nothing is said of items that have no content by themselves, as those with a DOCTYPE.
pub fn document_nodes(
    alloc: Global,
    file: &Name,
    text: &str,
    items: &Row<'_>,
) -> Result<Items<Node>, OpenFault>
    requires reading { IsReading document text.now (items_in text.now items.now) }
    requires place { AreInPlace text.now 0 (marks_of items.now) (length text.now) }
    ensures value { IfOk result (λ nodes. (content : Content) → HasContent (items_in text.now items.now) content → nodes_of file.now (top_context file.now) 0 content ≡ Ok (nodes_in nodes)) }
    ensures paths { IfOk result (λ nodes. (content : Content) → HasContent (items_in text.now items.now) content → paths_in nodes ≡ node_paths [] 0 (items_in text.now items.now)) }
    ensures via { IfOk result (HaveVia []) }
    ensures fault { IfErr result (λ e. IfSome (open_fault e) (IsNodesFault file.now (items_in text.now items.now))) }
{
    let source = Source { file, text };
    let context = top(alloc, file)?;
    let origin = Origin::file(alloc, file.share()?, Role::Document)?;
    let siblings = Siblings::top(alloc, origin, Via::none())?;
    let mut work = Work::new(alloc)?;
    nodes_of(alloc, &source, &mut work, &context, &siblings, items)
}
