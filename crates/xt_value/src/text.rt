//! The value of a text item, from left to right: what stands before the first `&` or `<`, or the reference or the CDATA
//! section at the front.
ghost use Rattle.std.specs.Prelude.{◌≡◌, ◌≢◌, ◌<◌, List, ℕ, [], ◌∷◌, ◌++◌, false, length, IfOk, OnOk, string_bytes};
ghost use Rattle.xt_spec.specs.Text.{IsTextItem, HasValueIn, characters_in};
ghost use Rattle.xt_value.specs.Parts.{is_mark, Adds, PutsData, PutsSection};

use crate::cuts::{split_data, split_section};
use crate::lines::put_lines;
use crate::reference::put_reference;
use std::alloc::{AllocError, Global};

/// Characters of a replacement text (`inner`) as they are, those of a file with their line ends as read.
fn put_characters(out: &mut String, text: &str, inner: bool) -> Result<(), AllocError>
    ensures value { OnOk result (string_bytes out.new ≡ string_bytes out.old ++ characters_in inner text.now) }
{
    if inner {
        return out.push_str(text);
    }
    put_lines(out, text)
}

/// The characters of the CDATA section at the front; what follows it.
fn put_section<'a>(out: &mut String, text: &'a str, inner: bool) -> Result<&'a str, AllocError>
    ensures value { IfOk result (λ rest. PutsSection inner text.now rest.now (string_bytes out.old) (string_bytes out.new)) }
    ensures shorter { text.now ≢ [] → IfOk result (λ rest. length rest.now < length text.now) }
{
    match split_section(text) {
        Some((characters, rest)) => {
            put_characters(out, characters, inner)?;
            Ok(rest)
        }
        None => Ok(""),
    }
}

/// The characters before the first reference or CDATA section; what follows them.
fn put_data<'a>(out: &mut String, text: &'a str, inner: bool) -> Result<&'a str, AllocError>
    ensures value { IfOk result (λ rest. PutsData inner text.now rest.now (string_bytes out.old) (string_bytes out.new)) }
    ensures shorter { (b : ℕ) (behind : List ℕ) → text.now ≡ b ∷ behind → is_mark b ≡ false → IfOk result (λ rest. length rest.now < length text.now) }
{
    let (data, rest) = split_data(text);
    put_characters(out, data, inner)?;
    Ok(rest)
}

/// The part at the front; what follows it.
fn put_part<'a>(out: &mut String, text: &'a str, inner: bool) -> Result<&'a str, AllocError>
    ensures value { IfOk result (λ rest. Adds (HasValueIn inner) text.now rest.now (string_bytes out.old) (string_bytes out.new)) }
    ensures shorter { text.now ≢ [] → IfOk result (λ rest. length rest.now < length text.now) }
{
    match text.as_bytes() {
        [b'&', ..] => put_reference(out, text),
        [b'<', ..] => put_section(out, text, inner),
        [_, ..] => put_data(out, text, inner),
        [] => Ok(text),
    }
}

/// The value of a text item: in a file `a&lt;b<![CDATA[<]]>` and CR LF have the value `a<b<` and LF. In a replacement text
/// (`inner`) line ends stay as they are, since they were read where the entity is declared: there the value ends in CR LF.
///
/// The text is as written. Nothing is said of a text that is no item.
pub fn text_value(alloc: Global, text: &str, inner: bool) -> Result<String, AllocError>
    ensures value { IsTextItem text.now → IfOk result (λ value. HasValueIn inner text.now (string_bytes value)) }
    ensures exact { IfOk result (λ value. (other : List ℕ) → HasValueIn inner text.now other → other ≡ string_bytes value) }
{
    let mut out = String::with_capacity(alloc, text.len())?;
    let mut rest = text;
    while !rest.is_empty() {
        rest = put_part(&mut out, rest, inner)?;
    }
    Ok(out)
}
