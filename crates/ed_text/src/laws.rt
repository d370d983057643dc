//! Laws of edits, each a clause of a function that does nothing.

ghost use Rattle.std.specs.Prelude.{◌≡◌, List, ℕ, Some, true, IsUtf8};
ghost use Rattle.std.specs.List.{list_all};
ghost use Rattle.std.specs.Str.{chars};
ghost use Rattle.xt_spec.specs.Char.{is_char};
ghost use Rattle.xt_spec.specs.Tree.{Items, leaf_item, text_item};
ghost use Rattle.xt_spec.specs.Paths.{item_at};
ghost use Rattle.xt_spec.specs.Reading.{plain_text, IsReading};
ghost use Rattle.ed_spec.specs.TextEdit.{text_edited};
ghost use Rattle.ed_text.specs.ByteOrderMark.{AddsNoByteOrderMark};
ghost use Rattle.ed_text.specs.Pieces.{pieces_of, ChangesOneText};
ghost use Rattle.ed_text.specs.TextPlace.{IsTextAt};

/// An edit of a text changes this text alone: every other tag and leaf is as before, in the same order.
pub fn one_text_changes()
    ensures law { (items : Items) (path text : List ℕ) → item_at items path ≡ Some (leaf_item text_item text) → ChangesOneText items path text }
{}

/// A file that is read as a text reads as its edited tree with no other value than one that adds no byte order mark and whose
/// characters are Chars.
pub fn no_other_value_reads_as_text()
    ensures law { (file bytes : List ℕ) (items : Items) (path value : List ℕ) → IsUtf8 value → IsReading plain_text file items → IsTextAt items path → IsReading plain_text bytes (text_edited true items path (chars value)) → AddsNoByteOrderMark file value }
    ensures value { (file bytes : List ℕ) (items : Items) (path value : List ℕ) → IsUtf8 value → IsReading plain_text file items → IsTextAt items path → IsReading plain_text bytes (text_edited true items path (chars value)) → list_all is_char (chars value) ≡ true }
{}

/// A tree is told by its tags and leaves.
pub fn pieces_tell_the_tree()
    ensures law { (a b : Items) → pieces_of a ≡ pieces_of b → a ≡ b }
{}
