//! Character data.

ghost use Rattle.std.specs.Prelude.{◌≡◌};
ghost use Rattle.std.specs.List.{list_all};
ghost use Rattle.xt_lex.specs.Fast.{is_sound_byte, is_data_byte};
ghost use Rattle.xt_lex.specs.Scan.{are_chars};
ghost use Rattle.xt_lex.specs.Data.{AreFirstChars, IsFirstDelimiter, IsFirstClose, IsFirstData};

use crate::chars::{is_char, is_sound_byte};
use memchr::{memchr2, memmem};

/// A fast test, which most text passes. It has no early end, so that many bytes are tested at a time.
fn are_sound_bytes(bytes: &[u8]) -> bool
    ensures { result ≡ list_all is_sound_byte bytes.now }
{
    let mut sound = true;
    for b in bytes {
        sound &= is_sound_byte(*b);
    }
    sound
}

fn has_chars(text: &str) -> bool
    ensures { result ≡ are_chars text.now }
{
    text.chars().all(is_char)
}

/// Whether the characters are Chars.
pub(crate) fn are_chars(text: &str) -> bool
    ensures { result ≡ are_chars text.now }
{
    are_sound_bytes(text.as_bytes()) || has_chars(text)
}

fn found_chars_len(text: &str) -> usize
    ensures { AreFirstChars text.now result }
{
    match text.find(|c: char| !is_char(c)) {
        Some(n) => n,
        None => text.len(),
    }
}

/// How many bytes stand before the first character that is no Char: all, where each is one. XML 1.0 (Fifth Edition), 2.2.
pub fn chars_len(text: &str) -> usize
    ensures value { AreFirstChars text.now result }
{
    if are_sound_bytes(text.as_bytes()) {
        text.len()
    } else {
        found_chars_len(text)
    }
}

/// How many bytes stand before the first `<` or `&`.
fn delimiter_at(bytes: &[u8]) -> usize
    ensures { IsFirstDelimiter bytes.now result }
{
    memchr2(b'<', b'&', bytes).unwrap_or(bytes.len())
}

/// How many bytes stand before the first `]]>`.
fn close_at(bytes: &[u8]) -> usize
    ensures { IsFirstClose bytes.now result }
{
    memmem::find(bytes, b"]]>").unwrap_or(bytes.len())
}

/// A fast test, which most character data passes. It has no early end, so that many bytes are tested at a time.
fn are_data_bytes(bytes: &[u8]) -> bool
    ensures { result ≡ list_all is_data_byte bytes.now }
{
    let mut sound = true;
    for b in bytes {
        sound &= is_sound_byte(*b) & (*b != b']');
    }
    sound
}

/// How many bytes at the front are character data.
pub(crate) fn data_len(text: &str) -> usize
    ensures { IsFirstData text.now result }
{
    let front = &text[..delimiter_at(text.as_bytes())];
    if are_data_bytes(front.as_bytes()) {
        return front.len();
    }
    let end = close_at(front.as_bytes());
    chars_len(&front[..end])
}
