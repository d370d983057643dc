//! Syntax items side by side. Who reads a tree goes from one to the next by `Row::split`; how a file's items are kept is
//! hidden behind it.
ghost use Rattle.std.specs.Prelude.{◌≡◌, ◌<◌, ◌≤◌, [], ◌∷◌, List, ℕ, MatchOption, option_map, length, drop, nat_eq, false};
ghost use Rattle.std.specs.List.{slice_get};
ghost use Rattle.xt_tree.specs.declared.entry.Entry.TheVariants as entry;
ghost use Rattle.xt_tree.specs.Levels.{levels, tag_at, begins_attr, AreSized};
ghost use Rattle.xt_tree.specs.Meaning.{item_of};
ghost use Rattle.xt_tree.specs.Places.{marks_in, AreInPlace};
ghost use Rattle.xt_tree.specs.Spans.{kids_of, IsClosed};
ghost use Rattle.xt_tree.specs.Items.{head_in, item_in};

use crate::attrs::{Attrs, attrs_at};
use crate::entry::Entry;
use std::marker::Model;
use xt_lex::Span;

/// Items side by side, from one of them on.
#[derive(Debug, Drop)]
pub struct Row<'a> {
    entries: &'a [Entry],
}

impl<'a> Model for Row<'a> {
    ghost use Rattle.std.specs.Prelude.{List};
    ghost use Rattle.xt_tree.specs.declared.source.Src.{Src};

    ghost Value = { List Src };

    ghost use Rattle.xt_tree.specs.contracts.source.Src as e;
    ghost use Rattle.std.specs.Coded.{codes};

    ghost coded = { Prim.hlevel (codes, e.the_row.coded) };

    ghost use Rattle.xt_tree.specs.Levels.{levels, AreSized};

    ghost view = { λ s. (levels s.entries.now).inner.items };

    ghost invariant = { λ s. AreSized s.entries.now };
}

/// A start-tag, or an empty-element tag: its name, its attributes, and the whole.
#[derive(Debug, Drop)]
pub struct Head<'a> {
    pub name: Span,
    pub attrs: Attrs<'a>,
    pub span: Span,
    pub empty: bool,
}

/// A syntax item.
#[derive(Debug, Drop)]
pub enum Item<'a> {
    /// An element: its tag, what it holds, and its end-tag where it has one.
    Elem {
        head: Head<'a>,
        kids: Row<'a>,
        tail: Option<Span>,
    },
    /// A maximal run of character data and of references that stand for a character.
    Text(Span),
    /// A reference to an entity that isn't predefined.
    Ref(Span),
    Comment(Span),
    Pi(Span),
    /// What stands at the top of a document beside comments, processing instructions and the element.
    Gap(Span),
}

/// The entries behind so many.
fn behind(entries: &[Entry], count: u32) -> &[Entry]
    requires within { count ≤ length entries.now }
    ensures value { result.now ≡ drop count entries.now }
{
    &entries[count as usize..]
}

/// No items.
fn no_items<'a>() -> Row<'a>
    ensures value { result ≡ [] }
{
    Row { entries: &[] }
}

/// The items from the first of these entries on.
pub(crate) fn row_at<'a>(entries: &'a [Entry]) -> Row<'a>
    requires sized { AreSized entries.now }
    ensures value { result ≡ (levels entries.now).inner.items }
{
    Row { entries }
}

/// Whether an attribute stands first.
fn begins_attr(entries: &[Entry]) -> bool
    ensures { result ≡ begins_attr entries.now }
{
    matches!(entries.split_first(), Some((Entry::Attr { .. }, _)))
}

/// The entries behind the attributes.
fn past_attrs(entries: &[Entry]) -> &[Entry]
    requires sized { AreSized entries.now }
    ensures value { (levels result.now).inner ≡ (levels entries.now).inner }
    ensures sized { AreSized result.now }
    ensures past { begins_attr result.now ≡ false }
{
    let mut rest = entries;
    while begins_attr(rest) {
        rest = &rest[1..];
    }
    rest
}

/// The tag of an element.
fn head_at<'a>(from: u32, to: u32, name_to: u32, empty: bool, entries: &'a [Entry]) -> Head<'a>
    requires fits { from < to }
    ensures value { head_in result ≡ tag_at from to name_to (levels entries.now).attrs empty }
{
    Head {
        name: Span {
            from: from + 1,
            to: name_to,
        },
        attrs: attrs_at(name_to, entries),
        span: Span { from, to },
        empty,
    }
}

/// An element, and what stands behind it.
fn elem_at<'a>(
    from: u32,
    to: u32,
    name_to: u32,
    inside: u32,
    inner: &'a [Entry],
) -> (Item<'a>, Row<'a>)
    requires sized { AreSized (entry.Elem from to name_to inside ∷ inner.now) }
    ensures value { (levels (entry.Elem from to name_to inside ∷ inner.now)).inner.items ≡ item_in result.0 ∷ result.1 }
{
    let Some((end, rest)) = behind(inner, inside).split_first() else {
        unreachable!();
    };
    let Entry::End {
        from: end_from,
        to: end_to,
    } = *end
    else {
        unreachable!();
    };
    let tail = Some(Span {
        from: end_from,
        to: end_to,
    });
    let head = head_at(from, to, name_to, false, inner);
    let kids = row_at(inner);
    (Item::Elem { head, kids, tail }, row_at(rest))
}

/// An element that is its tag alone, and what stands behind it.
fn empty_at<'a>(
    from: u32,
    to: u32,
    name_to: u32,
    attrs: u32,
    inner: &'a [Entry],
) -> (Item<'a>, Row<'a>)
    requires sized { AreSized (entry.Empty from to name_to attrs ∷ inner.now) }
    ensures value { (levels (entry.Empty from to name_to attrs ∷ inner.now)).inner.items ≡ item_in result.0 ∷ result.1 }
{
    let head = head_at(from, to, name_to, true, inner);
    let kids = no_items();
    let rest = row_at(behind(inner, attrs));
    (
        Item::Elem {
            head,
            kids,
            tail: None,
        },
        rest,
    )
}

impl<'a> Row<'a> {
    fn entries(&self) -> &'a [Entry]
        ensures value { self.now ≡ (levels result.now).inner.items }
        ensures sized { AreSized result.now }
        ensures past { begins_attr result.now ≡ false }
    {
        past_attrs(self.entries)
    }

    /// The same items.
    pub fn again(&self) -> Row<'a>
        ensures value { result ≡ self.now }
    {
        row_at(self.entries())
    }

    /// Whether there are none.
    pub fn is_empty(&self) -> bool
        ensures value { result ≡ nat_eq (length self.now) 0 }
    {
        self.split().is_none()
    }

    /// The first, and those behind it.
    pub fn split(&self) -> Option<(Item<'a>, Row<'a>)>
        ensures value { MatchOption result (self.now ≡ []) (λ found. self.now ≡ item_in found.0 ∷ found.1) }
    {
        let entries = self.entries();
        let Some((first, inner)) = entries.split_first() else {
            return None;
        };
        match *first {
            Entry::Elem {
                from,
                to,
                name_to,
                inside,
            } => Some(elem_at(from, to, name_to, inside, inner)),
            Entry::Empty {
                from,
                to,
                name_to,
                attrs,
            } => Some(empty_at(from, to, name_to, attrs, inner)),
            Entry::Text { from, to } => Some((Item::Text(Span { from, to }), row_at(inner))),
            Entry::Ref { from, to } => Some((Item::Ref(Span { from, to }), row_at(inner))),
            Entry::Comment { from, to } => {
                Some((Item::Comment(Span { from, to }), row_at(inner)))
            }
            Entry::Pi { from, to } => Some((Item::Pi(Span { from, to }), row_at(inner))),
            Entry::Gap { from, to } => Some((Item::Gap(Span { from, to }), row_at(inner))),
            Entry::End { .. } => None,
            Entry::Attr { .. } => None,
        }
    }

    /// The item of this index, from 0, where there is one. The time is that of the items in front of it.
    pub fn nth(&self, index: usize) -> Option<Item<'a>>
        ensures value { option_map item_in result ≡ slice_get self.now index }
    {
        let mut left = self.again();
        let mut more = index;
        while let Some((item, rest)) = left.split() {
            if more == 0 {
                return Some(item);
            }
            more -= 1;
            left = rest;
        }
        None
    }
}

impl<'a> Item<'a> {
    /// The items that an element holds; a leaf holds none.
    pub fn kids(&self) -> Row<'a>
        ensures value { result ≡ kids_of (item_in self.now) }
    {
        match self {
            Item::Elem { kids, .. } => kids.again(),
            Item::Text(_) => no_items(),
            Item::Ref(_) => no_items(),
            Item::Comment(_) => no_items(),
            Item::Pi(_) => no_items(),
            Item::Gap(_) => no_items(),
        }
    }

    /// The whole span: that of a leaf, or from the start-tag of an element to its end.
    pub fn span(&self) -> Span
        ensures place { (bytes : List ℕ) (from to : ℕ) → AreInPlace bytes from (marks_in (item_in self.now)) to → IsClosed (item_of bytes (item_in self.now)) → (result.from ≡ from) × (result.to ≡ to) }
    {
        match self {
            Item::Elem { head, tail, .. } => match tail {
                Some(tail) => Span {
                    from: head.span.from,
                    to: tail.to,
                },
                None => head.span,
            },
            Item::Text(span) => *span,
            Item::Ref(span) => *span,
            Item::Comment(span) => *span,
            Item::Pi(span) => *span,
            Item::Gap(span) => *span,
        }
    }
}
