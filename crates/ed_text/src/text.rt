//! The patch of a text.

ghost use Rattle.std.specs.Prelude.{◌≡◌, ◌≢◌, List, [], Bool, false, true, Some, length, IfOk, IsTrue, ◌↔◌, ℕ};
ghost use Rattle.std.specs.List.{list_all};
ghost use Rattle.std.specs.Str.{chars};
ghost use Rattle.xt_spec.specs.Char.{is_char};
ghost use Rattle.xt_spec.specs.Tree.{Items, source_text, leaf_item, text_item};
ghost use Rattle.xt_spec.specs.Text.{HasTextValue};
ghost use Rattle.xt_spec.specs.Reading.{document, plain_text, IsReading};
ghost use Rattle.xt_spec.specs.Content.{Content, HasContent};
ghost use Rattle.xt_spec.specs.Paths.{item_at};
ghost use Rattle.ed_spec.specs.TextEdit.{text_items, text_edited};
ghost use Rattle.xt_tree.specs.Meaning.{item_of, items_in};
ghost use Rattle.xt_tree.specs.Items.{item_in};
ghost use Rattle.xt_tree.specs.Patches.{patched};
ghost use Rattle.xt_tree.specs.Places.{marks_of, AreInPlace};
ghost use Rattle.xt_tree.specs.Spans.{Stands};
ghost use Rattle.ed_text.specs.ByteOrderMark.{AddsNoByteOrderMark};
ghost use Rattle.ed_text.specs.TextPlace.{IsText, IsTextAt};
ghost use Rattle.ed_text.specs.EditedContent.{content_edited};

use std::alloc::{AllocError, Global};
use xt_escape::escape_text;
use xt_tree::{Item, Patch, Row, item_at, span_at};

fn is_text(item: &Item<'_>) -> bool
    ensures value { (bytes : List ℕ) → IsTrue result ↔ IsText (item_of bytes (item_in item.now)) }
{
    match item {
        Item::Text(_) => true,
        Item::Elem { .. } => false,
        Item::Ref(_) => false,
        Item::Comment(_) => false,
        Item::Pi(_) => false,
        Item::Gap(_) => false,
    }
}

/// Whether a text item is at the path.
pub fn is_text_at(items: &Row<'_>, path: &[u32]) -> bool
    ensures value { (bytes : List ℕ) → IsTrue result ↔ IsTextAt (items_in bytes items.now) path.now }
{
    match item_at(items, path) {
        Some(item) => is_text(&item),
        None => false,
    }
}

/// The bytes that stand for a value.
fn text_bytes(alloc: Global, value: &str, plain: bool) -> Result<Vec<u8>, AllocError>
    ensures value { IfOk result (λ new. new.items ≡ source_text (text_items plain (chars value.now))) }
{
    if plain {
        return Vec::from_slice(alloc, value.as_bytes());
    }
    let text = escape_text(alloc, value)?;
    Ok(text.into_bytes())
}

/// What comes in place of the text item at the path, so that its value is this one; nothing, where the value is empty.
///
/// In a file that is read as text (`plain`) the value is written as it is, else escaped: with the value `a<b`, the text of
/// `<p>x</p>` at `[0, 0]` gives `a&lt;b` in place of the byte at 3. As it is, a value that begins with U+FEFF would be read as
/// a byte order mark in front of the file, and only behind another one as text (`AddsNoByteOrderMark`).
pub fn text_patch(
    alloc: Global,
    file: &[u8],
    items: &Row<'_>,
    path: &[u32],
    value: &str,
    plain: bool,
) -> Result<Patch, AllocError>
    requires place { AreInPlace file.now 0 (marks_of items.now) (length file.now) }
    requires present { IsTextAt (items_in file.now items.now) path.now }
    ensures place { IfOk result (λ patch. Stands file.now (items_in file.now items.now) path.now patch.from patch.to) }
    ensures exact { IfOk result (λ patch. patch.new.items ≡ source_text (text_items plain (chars value.now))) }
    ensures value { IfOk result (λ patch. patched file.now patch ≡ source_text (text_edited plain (items_in file.now items.now) path.now (chars value.now))) }
    ensures reads { plain ≡ false → list_all is_char (chars value.now) ≡ true → IsReading document file.now (items_in file.now items.now) → IfOk result (λ patch. IsReading document (patched file.now patch) (text_edited false (items_in file.now items.now) path.now (chars value.now))) }
    ensures reads_as_text { plain ≡ true → list_all is_char (chars value.now) ≡ true → AddsNoByteOrderMark file.now value.now → IsReading plain_text file.now (items_in file.now items.now) → IfOk result (λ patch. IsReading plain_text (patched file.now patch) (text_edited true (items_in file.now items.now) path.now (chars value.now))) }
    ensures keeps { plain ≡ false → list_all is_char (chars value.now) ≡ true → IsReading document file.now (items_in file.now items.now) → IfOk result (λ patch. (content : Content) (others : Items) → HasContent (items_in file.now items.now) content → IsReading document (patched file.now patch) others → HasContent others (content_edited (items_in file.now items.now) path.now value.now content)) }
    ensures reads_back { plain ≡ false → list_all is_char (chars value.now) ≡ true → value.now ≢ [] → IfOk result (λ patch. (item_at (text_edited false (items_in file.now items.now) path.now (chars value.now)) path.now ≡ Some (leaf_item text_item patch.new.items)) × HasTextValue patch.new.items value.now) }
{
    let span = span_at(items, path).unwrap();
    let new = text_bytes(alloc, value, plain)?;
    Ok(Patch {
        from: span.from,
        to: span.to,
        new,
    })
}
