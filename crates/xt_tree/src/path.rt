//! The item at a path. A path is a list of indices from 0: the first is that of an item among those at the top of a file,
//! each further one that of an item in the content of the element before.

ghost use Rattle.std.specs.Prelude.{◌≡◌, List, ℕ, length, is_some, IfSome, option_map};
ghost use Rattle.xt_spec.specs.Paths.{item_at};
ghost use Rattle.xt_tree.specs.Meaning.{item_of, items_in};
ghost use Rattle.xt_tree.specs.Places.{marks_of, AreInPlace};
ghost use Rattle.xt_tree.specs.Spans.{IsClosed, IsItemAt, IsItemSpan};
ghost use Rattle.xt_tree.specs.Items.{item_in};

use crate::row::{Item, Row};
use xt_lex::Span;

/// The item at the path, where there is one.
///
/// In `<a>x<b/></a>` the path `[0, 1]` is that of `<b/>`. An empty path is that of none.
pub fn item_at<'a>(items: &Row<'a>, path: &[u32]) -> Option<Item<'a>>
    ensures value { (bytes : List ℕ) → option_map (item_of bytes) (option_map item_in result) ≡ item_at (items_in bytes items.now) path.now }
    ensures place { (bytes : List ℕ) → AreInPlace bytes 0 (marks_of items.now) (length bytes) → IfSome (option_map item_in result) (IsItemAt bytes items.now path.now) }
{
    let [first, rest @ ..] = path else {
        return None;
    };
    let Some(mut item) = items.nth(*first as usize) else {
        return None;
    };
    for index in rest {
        match item.kids().nth(*index as usize) {
            Some(kid) => item = kid,
            None => return None,
        }
    }
    Some(item)
}

/// The span of the item at the path, where there is one: that of a leaf, or from the start-tag of an element to its end.
pub fn span_at(items: &Row<'_>, path: &[u32]) -> Option<Span>
    ensures none { (bytes : List ℕ) → is_some result ≡ is_some (item_at (items_in bytes items.now) path.now) }
    ensures place { (bytes : List ℕ) → AreInPlace bytes 0 (marks_of items.now) (length bytes) → IfSome (item_at (items_in bytes items.now) path.now) IsClosed → IfSome result (IsItemSpan bytes (items_in bytes items.now) path.now) }
{
    match item_at(items, path) {
        Some(item) => Some(item.span()),
        None => None,
    }
}
