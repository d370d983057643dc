//! Characters of a file as an application sees them. XML 1.0 (Fifth Edition), sections 2.11 and 3.3.3.
ghost use Rattle.std.specs.Prelude.{◌≡◌, ◌≢◌, ◌<◌, List, ℕ, [], ◌∷◌, ◌++◌, length, map, true, IfOk, OnOk, string_bytes};
ghost use Rattle.xt_spec.specs.LineEnds.{lines_read};
ghost use Rattle.xt_spec.specs.Value.{spaced};
ghost use Rattle.xt_value.specs.Parts.{broken, is_break};

use crate::cuts::{behind_ascii, split_break, split_line};
use std::alloc::{AllocError, Global};

/// What follows the CR, LF or tab at the front: CR LF goes as one.
fn behind_break(text: &str) -> &str
    ensures value { (b : ℕ) (behind : List ℕ) → text.now ≡ b ∷ behind → is_break b ≡ true → lines_read text.now ≡ broken b ∷ lines_read result.now }
    ensures shorter { text.now ≢ [] → length result.now < length text.now }
{
    match text.strip_prefix("\r\n") {
        Some(rest) => rest,
        None => behind_ascii(text),
    }
}

/// The characters before the first CR, and an LF for the line end that it begins; what follows.
fn put_line<'a>(out: &mut String, text: &'a str) -> Result<&'a str, AllocError>
    ensures value { IfOk result (λ rest. string_bytes out.old ++ lines_read text.now ≡ string_bytes out.new ++ lines_read rest.now) }
    ensures shorter { text.now ≢ [] → IfOk result (λ rest. length rest.now < length text.now) }
{
    let (line, rest) = split_line(text);
    out.push_str(line)?;
    if rest.is_empty() {
        return Ok(rest);
    }
    out.push('\n')?;
    Ok(behind_break(rest))
}

/// Characters, with their line ends as read.
pub(crate) fn put_lines(out: &mut String, text: &str) -> Result<(), AllocError>
    ensures value { OnOk result (string_bytes out.new ≡ string_bytes out.old ++ lines_read text.now) }
{
    let mut rest = text;
    while !rest.is_empty() {
        rest = put_line(out, rest)?;
    }
    Ok(())
}

/// The characters before the first white space but spaces, and a space for that; what follows.
fn put_word<'a>(out: &mut String, text: &'a str) -> Result<&'a str, AllocError>
    ensures value { IfOk result (λ rest. string_bytes out.old ++ map spaced (lines_read text.now) ≡ string_bytes out.new ++ map spaced (lines_read rest.now)) }
    ensures shorter { text.now ≢ [] → IfOk result (λ rest. length rest.now < length text.now) }
{
    let (word, rest) = split_break(text);
    out.push_str(word)?;
    if rest.is_empty() {
        return Ok(rest);
    }
    out.push(' ')?;
    Ok(behind_break(rest))
}

/// Characters, with a space for each line end and each other white space.
pub(crate) fn put_spaced(out: &mut String, text: &str) -> Result<(), AllocError>
    ensures value { OnOk result (string_bytes out.new ≡ string_bytes out.old ++ map spaced (lines_read text.now)) }
{
    let mut rest = text;
    while !rest.is_empty() {
        rest = put_word(out, rest)?;
    }
    Ok(())
}

/// The characters as read.
pub(crate) fn read_lines(alloc: Global, text: &str) -> Result<String, AllocError>
    ensures value { IfOk result (λ out. string_bytes out ≡ lines_read text.now) }
{
    let mut out = String::with_capacity(alloc, text.len())?;
    put_lines(&mut out, text)?;
    Ok(out)
}
