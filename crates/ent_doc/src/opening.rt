//! A document that is opened: it is read, and its nodes are made.
ghost use Rattle.std.specs.Prelude.{◌≡◌, ◌≤◌, ◌+◌, [], Some, IfOk, IfErr, IfSome, length};
ghost use Rattle.std.specs.Str.{IsUtf8};
ghost use Rattle.xt_spec.specs.Limit.{most_file_bytes};
ghost use Rattle.xt_spec.specs.Reading.{document, IsReading};
ghost use Rattle.bk_spec.specs.Opening.{IsOpen, IsUnopened};
ghost use Rattle.xt_tree.specs.Meaning.{items_in};
ghost use Rattle.xt_tree.specs.Places.{marks_of, AreInPlace};
ghost use Rattle.bk_spec.specs.NodePaths.{node_paths};
ghost use Rattle.bk_info.specs.Nodes.{nodes_in};
ghost use Rattle.bk_info.specs.Paths.{paths_in};
ghost use Rattle.bk_info.specs.Vias.{HaveVia};
ghost use Rattle.bk_spec.specs.FirstFault.{IsDocumentFault};
ghost use Rattle.ent_doc.specs.Opening.{open_fault, IsReadingFault};

use crate::document::document_nodes;
use crate::fault::OpenFault;
use crate::inclusion::has_inclusion;
use bk_info::{BookFault, Node};
use bk_name::Name;
use sqlite_items::Items;
use std::alloc::{AllocError, Global};
use std::sync::ledger::Ledger;
use xt_lex::{Steps, text_of};
use xt_read::{Unread, has_content, read_document};
use xt_tree::{Row, Tape};

/// A document: its syntax items, and its nodes.
#[derive(Debug, Drop)]
pub struct Opened {
    pub items: Tape,
    pub nodes: Items<Node>,
}

/// The fault of a file that has no reading.
fn fault_of(file: &Name, unread: Unread) -> Result<BookFault, AllocError>
    ensures value { IfOk result (IsReadingFault file.now unread) }
{
    let file = file.share()?;
    match unread {
        Unread::NotUtf8 { .. } | Unread::Encoding => Ok(BookFault::Encoding { file }),
        Unread::NotWellFormed { .. } => Ok(BookFault::NotWellFormed { file }),
        Unread::TooDeep => Ok(BookFault::TooDeep { file }),
        Unread::NoMemory => Err(AllocError),
    }
}

/// The bytes of a reading, as text.
fn as_text(bytes: &[u8]) -> &str
    requires utf8 { IsUtf8 bytes.now }
    ensures value { result.now ≡ bytes.now }
{
    match text_of(bytes) {
        Ok(text) => text,
        Err(_) => unreachable!(),
    }
}

/// What is not built yet.
fn not_yet(file: &Name) -> Result<OpenFault, AllocError>
    ensures value { IfOk result (λ e. e ≡ OpenFault.Book (BookFault.NotYet file.now)) }
{
    Ok(OpenFault::Book(BookFault::NotYet {
        file: file.share()?,
    }))
}

/// The nodes of items that were read.
fn opened_nodes(
    alloc: Global,
    file: &Name,
    text: &str,
    items: &Row<'_>,
) -> Result<Items<Node>, OpenFault>
    requires size { length text.now ≤ most_file_bytes }
    requires reading { IsReading document text.now (items_in text.now items.now) }
    requires place { AreInPlace text.now 0 (marks_of items.now) (length text.now) }
    ensures value { IfOk result (λ nodes. IsOpen file.now text.now (items_in text.now items.now) (nodes_in nodes)) }
    ensures paths { IfOk result (λ nodes. paths_in nodes ≡ node_paths [] 0 (items_in text.now items.now)) }
    ensures via { IfOk result (HaveVia []) }
    ensures fault { IfErr result (λ e. IfSome (open_fault e) (IsUnopened file.now (items_in text.now items.now))) }
{
    if !has_content(text, items) {
        return Err(not_yet(file)?);
    }
    let nodes = document_nodes(alloc, file, text, items)?;
    if has_inclusion(nodes.as_slice()) {
        return Err(not_yet(file)?);
    }
    Ok(nodes)
}

/// Opens the document of these bytes, or answers its first fault. A step is counted for each byte.
pub fn open_document<L: Ledger>(
    alloc: Global,
    file: &Name,
    bytes: &[u8],
    steps: &mut Steps<L>,
) -> Result<Opened, OpenFault>
    requires fits { length bytes.now ≤ most_file_bytes }
    ensures value { IfOk result (λ opened. IsOpen file.now bytes.now (items_in bytes.now opened.items) (nodes_in opened.nodes)) }
    ensures place { IfOk result (λ opened. AreInPlace bytes.now 0 (marks_of opened.items) (length bytes.now)) }
    ensures paths { IfOk result (λ opened. paths_in opened.nodes ≡ node_paths [] 0 (items_in bytes.now opened.items)) }
    ensures via { IfOk result (λ opened. HaveVia [] opened.nodes) }
    ensures fault { IfErr result (λ e. IfSome (open_fault e) (IsDocumentFault file.now bytes.now)) }
    ensures count { steps.new ≡ steps.old + length bytes.now }
{
    match read_document(alloc, bytes, steps) {
        Ok(tape) => {
            let nodes = opened_nodes(alloc, file, as_text(bytes), &tape.items())?;
            Ok(Opened { items: tape, nodes })
        }
        Err(unread) => Err(OpenFault::Book(fault_of(file, unread)?)),
    }
}
