//! Where a part of a text ends. What ends one is ASCII.
ghost use Rattle.std.specs.Prelude.{◌≡◌, ◌≢◌, ◌<◌, ◌≤◌, List, ℕ, [], ◌∷◌, ◌++◌, length, true, codes, option_map, Some, IfSome, MatchOption};
ghost use Rattle.std.specs.List.{position_or_len, prefix_len};
ghost use Rattle.memchr.specs.Find.{is_byte, is_byte2, is_byte3};
ghost use Rattle.xt_lex.specs.Scan.{cut};
ghost use Rattle.xt_scan.specs.Step.{drop_while};
ghost use Rattle.xt_spec.specs.Char.{is_space};
ghost use Rattle.xt_spec.specs.Markup.{IsSectionOf};
ghost use Rattle.std.specs.Option.{option_copied};
ghost use Rattle.xt_value.specs.Tokens.{is_blank};
ghost use Rattle.xt_value.specs.Parts.{is_ampersand, is_break, is_cr, is_mark, is_semicolon, lacks_all, IsCut};

use memchr::{memchr, memchr2, memchr3, memmem};

/// The place of the first such byte, or the length.
fn place_of(b: u8, text: &str) -> usize
    ensures value { result ≡ position_or_len (is_byte b) text.now }
{
    memchr(b, text.as_bytes()).unwrap_or(text.len())
}

/// The place of the first of both bytes, or the length.
fn place_of_either(a: u8, b: u8, text: &str) -> usize
    ensures value { result ≡ position_or_len (is_byte2 a b) text.now }
{
    memchr2(a, b, text.as_bytes()).unwrap_or(text.len())
}

/// The place of the first of three bytes, or the length.
fn place_of_three(a: u8, b: u8, c: u8, text: &str) -> usize
    ensures value { result ≡ position_or_len (is_byte3 a b c) text.now }
{
    memchr3(a, b, c, text.as_bytes()).unwrap_or(text.len())
}

/// A text cut before its first CR.
pub(crate) fn split_line(text: &str) -> (&str, &str)
    ensures value { IsCut is_cr text.now result.0.now result.1.now }
{
    text.split_at(place_of(b'\r', text))
}

/// A text cut before its first white space but spaces.
pub(crate) fn split_break(text: &str) -> (&str, &str)
    ensures value { IsCut is_break text.now result.0.now result.1.now }
{
    text.split_at(place_of_three(b'\t', b'\n', b'\r', text))
}

/// A text cut before its first space.
pub(crate) fn split_blank(text: &str) -> (&str, &str)
    ensures value { IsCut is_blank text.now result.0.now result.1.now }
{
    text.split_at(place_of(b' ', text))
}

fn is_space(b: u8) -> bool
    ensures value { result ≡ is_space b }
{
    matches!(b, b' ' | b'\t' | b'\r' | b'\n')
}

/// The place of the first white space, or the length.
fn place_of_space(bytes: &[u8]) -> usize
    ensures value { result ≡ position_or_len is_space bytes.now }
{
    bytes.iter().take_while(|b| !is_space(**b)).count()
}

/// A text cut before its first white space.
pub(crate) fn split_space(text: &str) -> (&str, &str)
    ensures value { IsCut is_space text.now result.0.now result.1.now }
{
    text.split_at(place_of_space(text.as_bytes()))
}

fn space_len(bytes: &[u8]) -> usize
    ensures value { result ≡ prefix_len is_space bytes.now }
{
    bytes.iter().take_while(|b| is_space(**b)).count()
}

/// What follows white space in front, of which there may be none.
pub(crate) fn behind_space(text: &str) -> &str
    ensures value { result.now ≡ drop_while is_space text.now }
{
    &text[space_len(text.as_bytes())..]
}

/// A text cut before its first `&`.
pub(crate) fn split_characters(text: &str) -> (&str, &str)
    ensures value { IsCut is_ampersand text.now result.0.now result.1.now }
{
    text.split_at(place_of(b'&', text))
}

/// A text cut before its first `&` or `<`.
pub(crate) fn split_data(text: &str) -> (&str, &str)
    ensures value { IsCut is_mark text.now result.0.now result.1.now }
{
    text.split_at(place_of_either(b'&', b'<', text))
}

/// A text cut behind its first `;`.
pub(crate) fn split_reference(text: &str) -> (&str, &str)
    ensures value { (front rest : List ℕ) → lacks_all is_semicolon front ≡ true → text.now ≡ front ++ 0x3B ∷ rest → (result.0.now ≡ front ++ 0x3B ∷ []) × (result.1.now ≡ rest) }
    ensures shorter { text.now ≢ [] → length result.1.now < length text.now }
{
    match memchr(b';', text.as_bytes()) {
        Some(at) => text.split_at(at + 1),
        None => (text, ""),
    }
}

/// What follows the ASCII character at the front; nothing where none stands there.
pub(crate) fn behind_ascii(text: &str) -> &str
    ensures value { (b : ℕ) (behind : List ℕ) → text.now ≡ b ∷ behind → b < 128 → result.now ≡ behind }
    ensures none { text.now ≡ [] → result.now ≡ [] }
    ensures shorter { text.now ≢ [] → length result.now < length text.now }
{
    match text.as_bytes() {
        [first, ..] if first.is_ascii() => &text[1..],
        _ => "",
    }
}

/// What stands between the two, where they stand at the ends.
pub(crate) fn between<'a>(text: &'a str, front: &str, end: &str) -> Option<&'a str>
    ensures value { (inner : List ℕ) → text.now ≡ front.now ++ (inner ++ end.now) → option_copied result ≡ Some inner }
    ensures only { IfSome result (λ inner. text.now ≡ front.now ++ (inner.now ++ end.now)) }
{
    text.strip_prefix(front)?.strip_suffix(end)
}

/// What stands before the first `]]>`, and what follows it.
fn split_close(text: &str) -> Option<(&str, &str)>
    ensures value { option_map (λ x. (x.0.now, x.1.now)) result ≡ cut (codes "]]>") text.now }
    ensures shorter { IfSome result (λ x. length x.1.now ≤ length text.now) }
{
    match memmem::find(text.as_bytes(), b"]]>") {
        Some(at) => Some((&text[..at], &text[at + 3..])),
        None => None,
    }
}

/// The characters of the CDATA section at the front, and what follows it.
pub(crate) fn split_section(text: &str) -> Option<(&str, &str)>
    ensures value { (section inner behind : List ℕ) → IsSectionOf section inner → text.now ≡ section ++ behind → MatchOption result ⊥ (λ x. (x.0.now ≡ inner) × (x.1.now ≡ behind)) }
    ensures shorter { IfSome result (λ x. length x.1.now < length text.now) }
{
    split_close(text.strip_prefix("<![CDATA[")?)
}
