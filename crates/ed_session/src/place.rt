//! From a place of the printed tree to the path of its item. No item is empty, so no more of them stand side by side than a
//! file may have bytes.
ghost use Rattle.std.specs.Prelude.{◌≡◌, ◌<◌, ◌≤◌, ◌^◌, ℕ, List, [], Some, None, length, map, IfOk, MatchOption};
ghost use Rattle.xt_spec.specs.Limit.{most_file_bytes};
ghost use Rattle.xt_spec.specs.Text as of_text;
ghost use Rattle.ed_spec.specs.Place as spec;
ghost use Rattle.xt_tree.specs.Meaning.{at_span, item_of, items_in};
ghost use Rattle.xt_tree.specs.Items.{item_in};
ghost use Rattle.ed_session.specs.Items.{gives_node_item, IsChild, IsNarrow};

use crate::opening::MOST_BYTES;
use std::alloc::{AllocError, Global};
use xt_lex::Span;
use xt_tree::{Item, Row};

/// A CDATA section that holds nothing.
const EMPTY_SECTION: &[u8] = b"<![CDATA[]]>";

/// The bytes at a span, as far as there are any.
pub(crate) fn bytes_at(bytes: &[u8], span: Span) -> &[u8]
    ensures value { result.now ≡ at_span bytes.now span }
{
    let to = (span.to as usize).min(bytes.len());
    let from = (span.from as usize).min(to);
    &bytes[from..to]
}

/// Whether a text is of empty CDATA sections alone.
fn is_void(text: &[u8]) -> bool
    ensures value { result ≡ of_text.is_void text.now }
{
    let mut rest = text;
    while let Some(behind) = rest.strip_prefix(EMPTY_SECTION) {
        rest = behind;
    }
    rest.is_empty()
}

/// Whether an item gives a node of its own.
fn gives_node(bytes: &[u8], item: &Item<'_>) -> bool
    ensures value { result ≡ gives_node_item (item_of bytes.now (item_in item.now)) }
{
    match item {
        Item::Elem { .. } => true,
        Item::Text(span) => !is_void(bytes_at(bytes, *span)),
        Item::Ref(_) => false,
        Item::Comment(_) => true,
        Item::Pi(_) => true,
        Item::Gap(_) => false,
    }
}

/// An item of a row that gives a node: its index from 0, and what it holds.
#[derive(Drop)]
struct Child<'a> {
    index: u32,
    items: Row<'a>,
}

/// The item of a row that gives the node of this number, from 1, where there is one.
fn find_child<'a>(bytes: &[u8], level: &Row<'a>, number: u32) -> Option<Child<'a>>
    requires few { length level.now ≤ most_file_bytes }
    ensures value { MatchOption result (spec.index_of (items_in bytes.now level.now) number ≡ None) (λ child. IsChild bytes.now level.now number child.index child.items) }
{
    let mut wanted = number;
    let mut index = 0_u32;
    let mut left = level.again();
    while let Some((item, rest)) = left.split() {
        if gives_node(bytes, &item) {
            if wanted <= 1 {
                return if wanted == 1 {
                    let items = item.kids();
                    Some(Child { index, items })
                } else {
                    None
                };
            }
            wanted -= 1;
        }
        index += 1;
        left = rest;
    }
    None
}

/// The path of the item that gives the node at a place, where there is one.
pub(crate) fn path_of(
    alloc: Global,
    bytes: &[u8],
    items: &Row<'_>,
    place: &[u32],
) -> Result<Option<Vec<u32>>, AllocError>
    requires few { IsNarrow most_file_bytes (items_in bytes.now items.now) }
    ensures value { IfOk result (λ found. MatchOption found (spec.path_of (items_in bytes.now items.now) place.now ≡ None) (λ path. spec.path_of (items_in bytes.now items.now) place.now ≡ Some path.items)) }
{
    if place.is_empty() {
        return Ok(None);
    }
    let mut path = Vec::new(alloc);
    let mut level = items.again();
    for number in place {
        match find_child(bytes, &level, *number) {
            Some(child) => {
                path.push(child.index)?;
                level = child.items;
            }
            None => return Ok(None),
        }
    }
    Ok(Some(path))
}
