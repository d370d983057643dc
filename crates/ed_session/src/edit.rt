//! One edit of the root: the tests that refuse it, in their order, and the bytes with it.
ghost use Rattle.std.specs.Prelude.{◌≡◌, ◌≤◌, ◌+◌, ◌^◌, ℕ, List, Some, true, false, length, IfOk, IfErr, OnOk, OnErr, MatchOption, string_bytes};
ghost use Rattle.std.specs.List.{list_all};
ghost use Rattle.std.specs.Str.{chars};
ghost use Rattle.xt_spec.specs.Limit.{most_file_bytes};
ghost use Rattle.xt_spec.specs.Char as spec;
ghost use Rattle.xt_spec.specs.Tree.{Items as SyntaxItems, leaf_item, text_item};
ghost use Rattle.xt_spec.specs.Text.{IsTextItem, HasTextValue};
ghost use Rattle.xt_spec.specs.Paths.{item_at};
ghost use Rattle.ed_spec.specs.Edit.{IsAt, is_text, range_replaced, text_edit};
ghost use Rattle.xt_tree.specs.Meaning.{at_span, item_of, items_in};
ghost use Rattle.xt_tree.specs.Items.{item_in};
ghost use Rattle.xt_tree.specs.Places.{marks_of, AreInPlace};
ghost use Rattle.xt_tree.specs.Patches.{patched};
ghost use Rattle.ed_session.specs.Items.{IsNarrow};
ghost use Rattle.ed_session.specs.Kept.{Opens};
ghost use Rattle.ed_edit.specs.View.{edit_of};
ghost use Rattle.ed_session.specs.Edits.{IsNoTextAt, IsNoText, IsNoValue, IsTooLarge, IsNewText, IsRefusal, IsEditOf, IsRefusedIn, IsEdited, CountsBytes};

use crate::kept::Session;
use crate::opening::MOST_BYTES;
use crate::place::{bytes_at, path_of};
use crate::range::replace_range;
use crate::refusal::{EditFault, Refusal};
use ed_edit::Edit;
use ed_text::text_patch;
use std::alloc::{AllocError, Global};
use std::mem;
use std::sync::ledger::Ledger;
use xt_lex::{Span, Steps, is_char};
use xt_read::{Unread, read_document};
use xt_tree::{Item, Patch, Row, Tape, item_at, splice};
use xt_value::text_value;

/// A text item: its path and its span.
#[derive(Drop)]
struct TextAt {
    path: Vec<u32>,
    span: Span,
}

/// The span of a text item.
fn text_span(item: &Item<'_>) -> Option<Span>
    ensures value { (bytes : List ℕ) → MatchOption result (is_text (item_of bytes (item_in item.now)) ≡ false) (λ span. item_of bytes (item_in item.now) ≡ leaf_item text_item (at_span bytes span)) }
{
    match item {
        Item::Text(span) => Some(*span),
        _ => None,
    }
}

/// The span of the text item at a path.
fn text_span_at(items: &Row<'_>, path: &[u32]) -> Result<Span, Refusal>
    ensures value { IfOk result (λ span. (bytes : List ℕ) → item_at (items_in bytes items.now) path.now ≡ Some (leaf_item text_item (at_span bytes span))) }
    ensures fault { IfErr result (λ e. (bytes : List ℕ) → IsNoTextAt (items_in bytes items.now) path.now e) }
{
    match item_at(items, path) {
        Some(item) => match text_span(&item) {
            Some(span) => Ok(span),
            None => Err(Refusal::WrongKind),
        },
        None => Err(Refusal::NoSuchPlace),
    }
}

/// The text item at a place.
fn find_text(
    alloc: Global,
    bytes: &[u8],
    items: &Row<'_>,
    place: &[u32],
) -> Result<TextAt, EditFault>
    requires few { IsNarrow most_file_bytes (items_in bytes.now items.now) }
    ensures value { IfOk result (λ t. IsAt (items_in bytes.now items.now) place.now t.path.items (leaf_item text_item (at_span bytes.now t.span))) }
    ensures fault { IfErr result (IsNoText (items_in bytes.now items.now) place.now) }
{
    match path_of(alloc, bytes, items, place)? {
        Some(path) => match text_span_at(items, path.as_slice()) {
            Ok(span) => Ok(TextAt { path, span }),
            Err(refusal) => Err(EditFault::Refused(refusal)),
        },
        None => Err(EditFault::Refused(Refusal::NoSuchPlace)),
    }
}

/// The value of a text item, whose bytes are UTF-8: want of memory is the one error.
fn value_of(alloc: Global, text: &[u8]) -> Result<String, AllocError>
    requires item { IsTextItem text.now }
    ensures value { IfOk result (λ value. HasTextValue text.now (string_bytes value)) }
{
    match std::str::from_utf8(text) {
        Ok(text) => text_value(alloc, text, false),
        Err(_) => unreachable!(),
    }
}

fn are_chars(text: &str) -> bool
    ensures value { result ≡ list_all spec.is_char (chars text.now) }
{
    text.chars().all(|c| is_char(c))
}

/// The value of a text with others in the place of a range of its characters.
fn new_value(alloc: Global, old: &str, from: u32, to: u32, new: &str) -> Result<String, EditFault>
    ensures value { IfOk result (λ out. (from ≤ to) × (to ≤ length (chars old.now)) × (list_all spec.is_char (chars new.now) ≡ true) × (chars (string_bytes out) ≡ range_replaced (chars old.now) from to (chars new.now))) }
    ensures fault { IfErr result (IsNoValue (chars old.now) from to (chars new.now)) }
{
    match replace_range(alloc, old, from, to, new)? {
        Some(out) => {
            if are_chars(new) {
                Ok(out)
            } else {
                Err(EditFault::Refused(Refusal::BadText))
            }
        }
        None => Err(EditFault::Refused(Refusal::BadRange)),
    }
}

/// The bytes with a patch in them.
fn with_patch(alloc: Global, bytes: &[u8], patch: &Patch) -> Result<Vec<u8>, EditFault>
    requires order { patch.now.from ≤ patch.now.to }
    requires within { patch.now.to ≤ length bytes.now }
    ensures value { IfOk result (λ out. (out.items ≡ patched bytes.now patch.now) × (length out.items ≤ most_file_bytes)) }
    ensures fault { IfErr result (IsTooLarge (patched bytes.now patch.now)) }
{
    let left = bytes.len() - (patch.to - patch.from) as usize;
    if left.saturating_add(patch.new.len()) > MOST_BYTES {
        return Err(EditFault::Refused(Refusal::TooLarge));
    }
    let mut out = Vec::from_slice(alloc, bytes)?;
    splice(&mut out, patch)?;
    Ok(out)
}

/// The items of a document that opens: it has a reading, so want of memory is the one error.
fn read_again<L: Ledger>(
    alloc: Global,
    bytes: &[u8],
    steps: &mut Steps<L>,
) -> Result<Tape, AllocError>
    requires fits { length bytes.now ≤ most_file_bytes }
    requires opens { (root : List ℕ) × (items : SyntaxItems) × Opens root bytes.now items }
    ensures value { IfOk result (λ is. (root : List ℕ) (items : SyntaxItems) → Opens root bytes.now items → Opens root bytes.now (items_in bytes.now is)) }
    ensures place { IfOk result (λ items. AreInPlace bytes.now 0 (marks_of items) (length bytes.now)) }
    ensures count { steps.new ≡ steps.old + length bytes.now }
{
    match read_document(alloc, bytes, steps) {
        Ok(tape) => Ok(tape),
        Err(unread) => match unread {
            Unread::NoMemory => Err(AllocError),
            _ => unreachable!(),
        },
    }
}

/// A text with a new value: its path, and the value.
#[derive(Drop)]
struct NewText {
    path: Vec<u32>,
    value: String,
}

/// The text at a place, with the characters from one place to another giving way to others.
fn new_text(
    alloc: Global,
    bytes: &[u8],
    items: &Row<'_>,
    at: &[u32],
    from: u32,
    to: u32,
    new: &str,
) -> Result<NewText, EditFault>
    requires current { (root : List ℕ) × Opens root bytes.now (items_in bytes.now items.now) }
    ensures value { IfOk result (λ t. IsNewText (items_in bytes.now items.now) at.now from to (chars new.now) t.path.items (chars (string_bytes t.value))) }
    ensures fault { IfErr result (IsRefusal (items_in bytes.now items.now) (text_edit at.now from to (chars new.now))) }
{
    let found = match find_text(alloc, bytes, items, at) {
        Ok(found) => found,
        Err(e) => return Err(e),
    };
    let old = value_of(alloc, bytes_at(bytes, found.span))?;
    match new_value(alloc, old.as_str(), from, to, new) {
        Ok(value) => Ok(NewText {
            path: found.path,
            value,
        }),
        Err(e) => Err(e),
    }
}

/// The bytes of a document with the text at a place edited.
fn edited(
    alloc: Global,
    bytes: &[u8],
    items: &Row<'_>,
    at: &[u32],
    from: u32,
    to: u32,
    new: &str,
) -> Result<Vec<u8>, EditFault>
    requires current { (root : List ℕ) × Opens root bytes.now (items_in bytes.now items.now) }
    requires place { AreInPlace bytes.now 0 (marks_of items.now) (length bytes.now) }
    ensures value { IfOk result (λ out. (root : List ℕ) → Opens root bytes.now (items_in bytes.now items.now) → IsEditOf root (items_in bytes.now items.now) (text_edit at.now from to (chars new.now)) out.items) }
    ensures fits { IfOk result (λ out. length out.items ≤ most_file_bytes) }
    ensures fault { IfErr result (IsRefusal (items_in bytes.now items.now) (text_edit at.now from to (chars new.now))) }
{
    let text = match new_text(alloc, bytes, items, at, from, to, new) {
        Ok(text) => text,
        Err(e) => return Err(e),
    };
    let patch = text_patch(
        alloc,
        bytes,
        items,
        text.path.as_slice(),
        text.value.as_str(),
        false,
    )?;
    with_patch(alloc, bytes, &patch)
}

/// The bytes of a document with an edit.
fn edited_by(
    alloc: Global,
    bytes: &[u8],
    items: &Row<'_>,
    edit: &Edit,
) -> Result<Vec<u8>, EditFault>
    requires current { (root : List ℕ) × Opens root bytes.now (items_in bytes.now items.now) }
    requires place { AreInPlace bytes.now 0 (marks_of items.now) (length bytes.now) }
    ensures value { IfOk result (λ out. (root : List ℕ) → Opens root bytes.now (items_in bytes.now items.now) → IsEditOf root (items_in bytes.now items.now) (edit_of edit.now) out.items) }
    ensures fits { IfOk result (λ out. length out.items ≤ most_file_bytes) }
    ensures fault { IfErr result (IsRefusal (items_in bytes.now items.now) (edit_of edit.now)) }
{
    match edit {
        Edit::Text {
            place,
            from,
            to,
            value,
        } => edited(
            alloc,
            bytes,
            items,
            place.as_slice(),
            *from,
            *to,
            value.as_str(),
        ),
    }
}

impl Session {
    /// The root has these bytes, which read so; what is saved stays. Its nodes aren't made.
    fn replace(&mut self, bytes: Vec<u8>, items: Tape)
        requires current { Opens self.old.root bytes.items (items_in bytes.items items) }
        requires place { AreInPlace bytes.items 0 (marks_of items) (length bytes.items) }
        ensures value { self.new ≡ record { root = self.old.root; bytes = bytes.items; saved = self.old.saved } }
    {
        let old = mem::replace(&mut self.bytes, bytes);
        self.items = items;
        self.nodes = None;
        if self.saved.is_none() {
            self.saved = Some(old);
        }
    }

    /// Makes an edit, where no test refuses it.
    ///
    /// After an error the session is as before. A step is counted for each byte that is read again; none for an edit that is
    /// refused.
    pub fn edit<L: Ledger>(&mut self, edit: &Edit, steps: &mut Steps<L>) -> Result<(), EditFault>
        ensures value { OnOk result (IsEdited (edit_of edit.now) self.old self.new) }
        ensures fault { IfErr result (IsRefusedIn self.old.root self.old.bytes (edit_of edit.now)) }
        ensures same { OnErr result (self.new ≡ self.old) }
        ensures count { (steps.old ≤ steps.new) × (steps.new ≤ steps.old + most_file_bytes) }
        ensures exact { CountsBytes (edit_of edit.now) self.old self.new result steps.old steps.new }
    {
        let alloc = *self.bytes.allocator();
        let bytes = edited_by(alloc, self.bytes.as_slice(), &self.items.items(), edit)?;
        let tape = read_again(alloc, bytes.as_slice(), steps)?;
        self.replace(bytes, tape);
        Ok(())
    }
}
