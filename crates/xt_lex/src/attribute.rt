//! Attributes of a tag.

ghost use Rattle.std.specs.Prelude.{not, ◌==◌, ◌≡◌, ◌<◌, ◌≤◌, ◌+◌, ◌-◌, ◌^◌, ◌++◌, ℕ, List, length, drop, option_map, IfSome};
ghost use Rattle.std.specs.List.{prefix_len, list_all};
ghost use Rattle.std.specs.Option.{option_copied, IfNone};
ghost use Rattle.std.specs.Str.{chars, IsCharBoundary};
ghost use Rattle.xt_lex.specs.Fast.{is_attr_byte};
ghost use Rattle.xt_lex.specs.Scan.{drop_while, take_while, is_value, is_attr_char, references_stand, after_value, after_quoted, is_no_ampersand};
ghost use Rattle.xt_lex.specs.Tag.{attribute, attribute_rests, parts_before};
ghost use Rattle.xt_scan.specs.Front.{rest_of};
ghost use Rattle.xt_lex.specs.Place.{IsAttributeAt, NoAttributeAt};

use crate::chars::{is_char, is_sound_byte};
use crate::front::{after, after_equals, after_space, q_name};
use crate::reference::reference;
use crate::token::Span;
use memchr::memchr;
use xt_scan::after_blank;

/// Where an attribute of a tag stands.
///
/// ```text
///  <p  n = "v">
///    --------    whole, with the white space before the name
///      -         name
///          ---   value, with its quotes
/// ```
#[derive(Clone, Copy, Debug, PartialEq, Eq)]
pub struct AttrSrc {
    pub name: Span,
    pub value: Span,
    pub whole: Span,
}

fn no_ampersand_len(bytes: &[u8]) -> usize
    ensures { result ≡ prefix_len is_no_ampersand bytes.now }
{
    memchr(b'&', bytes).unwrap_or(bytes.len())
}

/// The text from its first `&` on.
fn at_ampersand(text: &str) -> &str
    ensures { result.now ≡ drop_while is_no_ampersand text.now }
{
    &text[no_ampersand_len(text.as_bytes())..]
}

/// Whether each `&` begins a reference.
fn references_stand(text: &str) -> bool
    ensures { result ≡ references_stand text.now }
{
    let mut rest = at_ampersand(text);
    while !rest.is_empty() {
        match reference(rest) {
            Some((_, next)) => rest = at_ampersand(next),
            None => return false,
        }
    }
    true
}

/// A fast test, which most values pass. It has no early end, so that many bytes are tested at a time.
fn are_attr_bytes(bytes: &[u8]) -> bool
    ensures { result ≡ list_all is_attr_byte bytes.now }
{
    let mut sound = true;
    for b in bytes {
        sound &= is_sound_byte(*b) & (*b != b'<');
    }
    sound
}

fn has_attr_chars(text: &str) -> bool
    ensures { result ≡ list_all is_attr_char (chars text.now) }
{
    text.chars().all(|c| is_char(c) && c != '<')
}

/// Whether the characters are Chars, and none is `<`.
fn are_attr_chars(text: &str) -> bool
    ensures { result ≡ list_all is_attr_char (chars text.now) }
{
    are_attr_bytes(text.as_bytes()) || has_attr_chars(text)
}

/// Whether it may stand between quotes, but for the quotes.
fn is_value(text: &str) -> bool
    ensures { result ≡ is_value text.now }
{
    are_attr_chars(text) && references_stand(text)
}

fn value_len(quote: u8, bytes: &[u8]) -> usize
    ensures { result ≡ prefix_len (λ b. not (b == quote)) bytes.now }
{
    memchr(quote, bytes).unwrap_or(bytes.len())
}

/// The front without the quote, and what follows it.
pub(crate) fn split_value(quote: u8, text: &str) -> (&str, &str)
    requires { quote < 128 }
    ensures value { result.0.now ≡ take_while (λ b. not (b == quote)) text.now }
    ensures rest { result.1.now ≡ drop_while (λ b. not (b == quote)) text.now }
{
    text.split_at(value_len(quote, text.as_bytes()))
}

/// What follows a value and its second quote.
fn after_value(quote: u8, text: &str) -> Option<&str>
    requires { quote < 128 }
    ensures { option_copied result ≡ after_value quote text.now }
{
    let (value, rest) = split_value(quote, text);
    if is_value(value) {
        after(quote as char, rest)
    } else {
        None
    }
}

/// What follows a value in quotes.
fn after_quoted(text: &str) -> Option<&str>
    ensures { option_copied result ≡ after_quoted text.now }
{
    match after('"', text) {
        Some(rest) => after_value(b'"', rest),
        None => match after('\'', text) {
            Some(rest) => after_value(b'\'', rest),
            None => None,
        },
    }
}

/// What follows the white space, the name, the Eq and the value of an attribute.
#[tactic(auto, unfolding(crate::specs::Tag::attribute_rests, crate::specs::Tag::attribute, crate::specs::Tag::att_value))]
fn attribute_rests(text: &str) -> Option<(&str, &str, &str, &str)>
    ensures rests { option_map (λ x. (x.0.now, x.1.now, x.2.now, x.3.now)) result ≡ attribute_rests text.now }
    ensures form { option_map (λ x. (parts_before text.now (x.0.now, x.1.now, x.2.now, x.3.now), x.3.now)) result ≡ attribute.read text.now }
{
    let name = after_space(text)?;
    let (_, behind_name) = q_name(name)?;
    let value = after_equals(behind_name)?;
    let rest = after_quoted(value)?;
    Some((name, behind_name, value, rest))
}

/// What follows an attribute and the white space before it.
pub(crate) fn after_attribute(text: &str) -> Option<&str>
    ensures { option_copied result ≡ rest_of (attribute.read text.now) }
{
    let (_, _, _, rest) = attribute_rests(text)?;
    Some(rest)
}

/// The span of a part that begins before `from` and ends before `to`, both behind `at` in a text.
fn span_between(at: usize, text: &str, from: &str, to: &str) -> Span
    requires from { length from.now ≤ length text.now }
    requires to { length to.now ≤ length text.now }
    requires fits { at + length text.now < 2 ^ 32 }
    ensures from { result.from ≡ at + (length text.now - length from.now) }
    ensures to { result.to ≡ at + (length text.now - length to.now) }
{
    Span {
        from: (at + (text.len() - from.len())) as u32,
        to: (at + (text.len() - to.len())) as u32,
    }
}

/// The attribute, with the white space before it, that stands at this place.
pub fn next_attribute(text: &str, at: usize) -> Option<AttrSrc>
    requires within { at ≤ length text.now }
    requires boundary { IsCharBoundary text.now at }
    requires fits { length text.now < 2 ^ 32 }

    ensures only { IfSome result (λ s. IsAttributeAt text.now at s) }
    ensures on { IfSome result (λ s. (at < s.whole.to) × (s.whole.to ≤ length text.now)) }
    ensures cut { IfSome result (λ s. IsCharBoundary text.now s.whole.to) }
    ensures name_cut { IfSome result (λ s. IsCharBoundary text.now s.name.from × IsCharBoundary text.now s.name.to) }
    ensures value_cut { IfSome result (λ s. IsCharBoundary text.now s.value.from × IsCharBoundary text.now s.value.to) }
    ensures none { IfNone result (NoAttributeAt text.now at) }
{
    let text = &text[at..];
    match attribute_rests(text) {
        Some((name, behind_name, value, rest)) => Some(AttrSrc {
            name: span_between(at, text, name, behind_name),
            value: span_between(at, text, value, rest),
            whole: span_between(at, text, text, rest),
        }),
        None => None,
    }
}
