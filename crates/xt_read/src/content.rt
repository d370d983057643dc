//! Whether the items of a document give content by themselves: no DOCTYPE, and each reference stands for a character.

ghost use Rattle.std.specs.Prelude.{◌≡◌, ◌<◌, ◌≤◌, ◌+◌, ◌^◌, ◌↔◌, ℕ, List, IsTrue, length, codes, MatchOption};
ghost use Rattle.std.specs.List.{prefix_len, AllByRecursion};
ghost use Rattle.xt_spec.specs.Content.{Content, HasContent};
ghost use Rattle.xt_spec.specs.Markup.{begins};
ghost use Rattle.xt_spec.specs.Reading.{document, IsReading};
ghost use Rattle.xt_spec.specs.Tag.{Attribute, IsAttValue};
ghost use Rattle.xt_spec.specs.Tree.{nil, before};
ghost use Rattle.xt_scan.specs.Step.{take_while, drop_while};
ghost use Rattle.xt_tree.specs.Meaning.{at_span, item_of, items_in};
ghost use Rattle.xt_tree.specs.Items.{head_in, item_in};
ghost use Rattle.xt_tree.specs.Places.{IsTagAt, AreInPlace, marks_in, marks_of};
ghost use Rattle.xt_read.specs.References.{LacksByte, is_other, IsUpToSemicolon, AreSingles, HasParts, BeginsReference, HasNoParts, IsPastReference, IsUnquoted};
ghost use Rattle.xt_read.specs.ContentTest.{HasValue, StandsIn, StandAll, AreSpelled, ArePlaced, GiveContent};

use crate::bytes::bytes_at;
use memchr::memchr;
use xt_lex::{AttrSrc, Span, referenced_char};
use xt_tree::{Attrs, Head, Item, Row};

/// How many bytes stand before the first such byte.
fn len_before(byte: u8, bytes: &[u8]) -> usize
    ensures { result ≡ prefix_len (is_other byte) bytes.now }
{
    memchr(byte, bytes).unwrap_or(bytes.len())
}

/// The text before the first such byte, an ASCII one, and from it on.
fn split_before(byte: u8, text: &str) -> (&str, &str)
    requires { byte < 128 }
    ensures value { result.0.now ≡ take_while (is_other byte) text.now }
    ensures rest { result.1.now ≡ drop_while (is_other byte) text.now }
{
    text.split_at(len_before(byte, text.as_bytes()))
}

/// The text up to its first `;`, and what follows.
fn up_to_semicolon(text: &str) -> Option<(&str, &str)>
    ensures { MatchOption result (LacksByte 0x3B text.now) (λ x. IsUpToSemicolon text.now x.0.now x.1.now) }
{
    let (front, rest) = split_before(b';', text);
    if rest.is_empty() {
        None
    } else {
        Some(text.split_at(front.len() + 1))
    }
}

/// What follows a reference at the front and the characters behind it, where it stands for a character.
fn past_reference(text: &str) -> Option<&str>
    requires begins { BeginsReference text.now }
    ensures { MatchOption result (HasNoParts text.now) (λ rest. IsPastReference text.now rest.now) }
{
    match up_to_semicolon(text) {
        None => None,
        Some((reference, behind)) => match referenced_char(reference) {
            None => None,
            Some(_) => {
                let (_, rest) = split_before(b'&', behind);
                Some(rest)
            }
        },
    }
}

/// Whether each reference of a value, given without its quotes, stands for a character.
fn stands_for_characters(text: &str) -> bool
    ensures { (q : ℕ) (singles : List (List ℕ)) → AreSingles q singles text.now → (IsTrue result ↔ HasParts q text.now) }
{
    let (_, from_first) = split_before(b'&', text);
    let mut rest = from_first;
    while !rest.is_empty() {
        match past_reference(rest) {
            Some(next) => rest = next,
            None => return false,
        }
    }
    true
}

/// The value at a span, without its quotes.
fn unquoted(text: &str, span: Span) -> &str
    requires quoted { IsAttValue (at_span text.now span) }
    requires within { span.to ≤ length text.now }
    ensures { IsUnquoted (at_span text.now span) result.now }
{
    &text[span.from as usize + 1..span.to as usize - 1]
}

/// Whether an attribute has a value by itself: each reference in it stands for a character.
fn attribute_has_value(text: &str, attr: AttrSrc) -> bool
    requires stands { (a : Attribute) × StandsIn text.now attr a }
    ensures { (a : Attribute) → StandsIn text.now attr a → (IsTrue result ↔ HasValue a) }
{
    stands_for_characters(unquoted(text, attr.value))
}

/// Whether each attribute has a value by itself.
fn attributes_have_values(text: &str, attrs: &Attrs<'_>) -> bool
    requires stand { (all : List Attribute) × StandAll text.now attrs.now all }
    ensures { (all : List Attribute) → StandAll text.now attrs.now all → (IsTrue result ↔ AllByRecursion HasValue all) }
{
    let mut left = attrs.again();
    while let Some((attr, rest)) = left.split() {
        if !attribute_has_value(text, attr) {
            return false;
        }
        left = rest;
    }
    true
}

/// Whether each attribute of a tag has a value by itself.
fn tag_has_values(text: &str, head: &Head<'_>) -> bool
    requires tag { IsTagAt text.now head.now.span.from (head_in head.now) }
    ensures { (is : IsTagAt text.now head.now.span.from (head_in head.now)) → (IsTrue result ↔ AllByRecursion HasValue is.tag.attributes) }
{
    attributes_have_values(text, &head.attrs)
}

/// Whether what stands at the top of a document is its DOCTYPE.
fn is_doctype(gap: &[u8]) -> bool
    ensures { result ≡ begins (codes "<!DOCTYPE") gap.now }
{
    gap.starts_with(b"<!DOCTYPE")
}

/// Whether the items give content by themselves.
#[cycle(content)]
fn items_have_content(items: &Row<'_>, text: &str) -> bool
    requires place { ArePlaced text.now (marks_of items.now) }
    requires spelled { AreSpelled (items_in text.now items.now) }
    ensures { IsTrue result ↔ GiveContent (items_in text.now items.now) }
{
    let mut left = items.again();
    while let Some((item, rest)) = left.split() {
        if !item_has_content(&item, text) {
            return false;
        }
        left = rest;
    }
    true
}

#[cycle(content)]
fn item_has_content(item: &Item<'_>, text: &str) -> bool
    requires place { ArePlaced text.now (marks_in (item_in item.now)) }
    requires spelled { AreSpelled (before (item_of text.now (item_in item.now)) nil) }
    ensures { IsTrue result ↔ GiveContent (before (item_of text.now (item_in item.now)) nil) }
{
    match item {
        Item::Elem { head, kids, .. } => {
            if !tag_has_values(text, head) {
                return false;
            }
            items_have_content(kids, text)
        }
        Item::Gap(span) => !is_doctype(bytes_at(text.as_bytes(), *span)),
        Item::Ref(_) => false,
        Item::Text(_) => true,
        Item::Comment(_) => true,
        Item::Pi(_) => true,
    }
}

/// Whether a document that was read gives content by itself, without declarations: it has no DOCTYPE, and each of its
/// references stands for a character.
///
/// True of `<a n="&lt;">&#65;</a>`; false of `<!DOCTYPE a><a/>`, of `<a>&e;</a>` and of `<a n="&e;"/>`.
pub fn has_content(text: &str, items: &Row<'_>) -> bool
    requires reading { IsReading document text.now (items_in text.now items.now) }
    requires place { AreInPlace text.now 0 (marks_of items.now) (length text.now) }
    ensures value { IsTrue result ↔ ((content : Content) × HasContent (items_in text.now items.now) content) }
{
    items_have_content(items, text)
}
