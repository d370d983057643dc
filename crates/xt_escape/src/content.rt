//! Text of content. A run of characters that stand for themselves is added whole.

ghost use Rattle.std.specs.Prelude.{◌≡◌, ◌≢◌, ◌<◌, ◌≤◌, ◌==◌, List, [], ◌++◌, length, false, true, not, OnOk, IfOk, string_bytes, encode_utf8_all};
ghost use Rattle.std.specs.List.{list_all, prefix_len};
ghost use Rattle.std.specs.Str.{chars, IsUtf8};
ghost use Rattle.xt_spec.specs.Char.{is_char};
ghost use Rattle.xt_spec.specs.Text.{IsTextItem, HasTextValue};
ghost use Rattle.xt_spec.specs.Escape.{escape_char, escape_from, escape_text};
ghost use Rattle.xt_escape.specs.Kept.{is_kept_byte, inner_text};

use std::alloc::{AllocError, Global};

fn is_kept_byte(b: u8) -> bool
    ensures value { result ≡ is_kept_byte b }
{
    !matches!(b, b'&' | b'<' | b'>' | b'\r' | 0xEF)
}

/// How many bytes at the front are kept.
fn kept_len(bytes: &[u8]) -> usize
    ensures value { result ≡ prefix_len is_kept_byte bytes.now }
    ensures fits { result ≤ length bytes.now }
{
    bytes.iter().take_while(|b| is_kept_byte(**b)).count()
}

/// The text cut before its first byte that may not be kept.
fn split_kept(text: &str) -> (&str, &str)
    ensures value { inner_text text.now ≡ result.0.now ++ inner_text result.1.now }
    ensures keeps { IsUtf8 result.1.now }
    ensures fits { length result.1.now ≤ length text.now }
{
    text.split_at(kept_len(text.as_bytes()))
}

fn put_char(out: &mut String, c: char) -> Result<(), AllocError>
    ensures value { OnOk result (string_bytes out.new ≡ string_bytes out.old ++ encode_utf8_all (escape_char c)) }
{
    match c {
        '&' => out.push_str("&amp;"),
        '<' => out.push_str("&lt;"),
        '>' => out.push_str("&gt;"),
        '\r' => out.push_str("&#13;"),
        '\u{FEFF}' => out.push_str("&#65279;"),
        _ => out.push(c),
    }
}

/// The kept bytes at the front, and the character behind them; what follows it.
fn put_run<'a>(out: &mut String, text: &'a str) -> Result<&'a str, AllocError>
    ensures value { IfOk result (λ rest. string_bytes out.old ++ inner_text text.now ≡ string_bytes out.new ++ inner_text rest.now) }
    ensures shorter { text.now ≢ [] → IfOk result (λ rest. length rest.now < length text.now) }
{
    let (run, rest) = split_kept(text);
    out.push_str(run)?;
    let mut chars = rest.chars();
    match chars.next() {
        None => Ok(rest),
        Some(c) => {
            put_char(out, c)?;
            Ok(chars.as_str())
        }
    }
}

/// What neither begins nor ends the text.
fn put_inner(out: &mut String, text: &str) -> Result<(), AllocError>
    ensures value { OnOk result (string_bytes out.new ≡ string_bytes out.old ++ inner_text text.now) }
{
    let mut rest = text;
    while !rest.is_empty() {
        rest = put_run(out, rest)?;
    }
    Ok(())
}

/// What is written for an LF in front, and what follows it.
fn split_front(text: &str) -> (&str, &str)
    ensures value { encode_utf8_all (escape_text (chars text.now)) ≡ result.0.now ++ encode_utf8_all (escape_from false (chars result.1.now)) }
{
    match text.strip_prefix('\n') {
        Some(rest) => ("&#10;", rest),
        None => ("", text),
    }
}

/// What stands before a `]` at the end, and what is written for it.
fn split_end(text: &str) -> (&str, &str)
    ensures value { encode_utf8_all (escape_from false (chars text.now)) ≡ inner_text result.0.now ++ result.1.now }
{
    match text.strip_suffix(']') {
        Some(inner) => (inner, "&#93;"),
        None => (text, ""),
    }
}

/// The text as it is written in content, so that it reads back as itself: `a<]` gives `a&lt;&#93;`.
pub fn escape_text(alloc: Global, text: &str) -> Result<String, AllocError>
    ensures value { IfOk result (λ out. string_bytes out ≡ encode_utf8_all (escape_text (chars text.now))) }
    ensures law { text.now ≢ [] → list_all is_char (chars text.now) ≡ true → IfOk result (λ out. IsTextItem (string_bytes out)) }
    ensures reads_back { list_all is_char (chars text.now) ≡ true → IfOk result (λ out. HasTextValue (string_bytes out) text.now) }
    ensures keeps { IfOk result (λ out. list_all (λ b. not (b == 0xD)) (string_bytes out) ≡ true) }
{
    let (front, rest) = split_front(text);
    let (inner, end) = split_end(rest);
    let mut out = String::with_capacity(alloc, text.len())?;
    out.push_str(front)?;
    put_inner(&mut out, inner)?;
    out.push_str(end)?;
    Ok(out)
}
