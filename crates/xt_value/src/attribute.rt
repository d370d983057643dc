//! The value of an attribute, from left to right: what stands before the first `&`, or the reference at the front.
ghost use Rattle.std.specs.Prelude.{◌≡◌, ◌≢◌, ◌<◌, List, ℕ, [], ◌∷◌, ◌++◌, false, length, IfOk, string_bytes};
ghost use Rattle.xt_spec.specs.Tag.{IsQuote};
ghost use Rattle.xt_spec.specs.Value.{HasAttributeValue};
ghost use Rattle.xt_spec.specs.Content.{typed};
ghost use Rattle.xt_value.specs.Parts.{is_ampersand, Adds, HasRawValue, PutsCharacters};

use crate::cuts::{between, split_characters};
use crate::lines::put_spaced;
use crate::reference::put_reference;
use crate::tokens::tokenized;
use std::alloc::{AllocError, Global};

/// What stands between the quotes.
fn unquoted(quoted: &str) -> &str
    ensures value { (q : ℕ) (raw : List ℕ) → IsQuote q → quoted.now ≡ (q ∷ raw) ++ q ∷ [] → result.now ≡ raw }
{
    match between(quoted, "\"", "\"") {
        Some(raw) => raw,
        None => between(quoted, "'", "'").unwrap_or(""),
    }
}

/// The characters before the first reference; what follows them.
fn put_characters<'a>(out: &mut String, text: &'a str) -> Result<&'a str, AllocError>
    ensures value { IfOk result (λ rest. PutsCharacters text.now rest.now (string_bytes out.old) (string_bytes out.new)) }
    ensures shorter { (b : ℕ) (behind : List ℕ) → text.now ≡ b ∷ behind → is_ampersand b ≡ false → IfOk result (λ rest. length rest.now < length text.now) }
{
    let (characters, rest) = split_characters(text);
    put_spaced(out, characters)?;
    Ok(rest)
}

/// The part at the front; what follows it.
fn put_part<'a>(out: &mut String, text: &'a str) -> Result<&'a str, AllocError>
    ensures value { IfOk result (λ rest. (q : ℕ) → Adds (HasRawValue q) text.now rest.now (string_bytes out.old) (string_bytes out.new)) }
    ensures shorter { text.now ≢ [] → IfOk result (λ rest. length rest.now < length text.now) }
{
    match text.as_bytes() {
        [b'&', ..] => put_reference(out, text),
        [_, ..] => put_characters(out, text),
        [] => Ok(text),
    }
}

/// The value of what stands between the quotes.
fn raw_value(alloc: Global, raw: &str) -> Result<String, AllocError>
    ensures exact { IfOk result (λ out. (q : ℕ) (value : List ℕ) → HasRawValue q raw.now value → value ≡ string_bytes out) }
{
    let mut out = String::with_capacity(alloc, raw.len())?;
    let mut rest = raw;
    while !rest.is_empty() {
        rest = put_part(&mut out, rest)?;
    }
    Ok(out)
}

/// The value of an attribute of a file, by its name and its raw text with the quotes: `" a&lt;b "` has the value ` a<b `, but
/// `a<b` where the name is `xml:id`.
///
/// Nothing is said of a text that has no value, as one with a reference that stands for no character.
pub fn attribute_value(alloc: Global, name: &str, quoted: &str) -> Result<String, AllocError>
    ensures exact { IfOk result (λ value. (other : List ℕ) → HasAttributeValue quoted.now other → typed name.now other ≡ string_bytes value) }
{
    let value = raw_value(alloc, unquoted(quoted))?;
    if name == "xml:id" {
        tokenized(alloc, value.as_str())
    } else {
        Ok(value)
    }
}
