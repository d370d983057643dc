//! The words of the command line.
ghost use Rattle.std.specs.Prelude.{◌≡◌, true, false, None, Some, map, IfOk, MatchOption, string_bytes, nat_eq};
ghost use Rattle.std.specs.List.{list_all, starts_with};
ghost use Rattle.book_cli.specs.Words as spec;

use bk_name::{BadName, Name};
use std::alloc::{AllocError, Global};

fn is_word_byte(b: u8) -> bool
    ensures value { result ≡ spec.is_word_byte b }
{
    b.is_ascii_alphanumeric() || matches!(b, b'-' | b'.' | b'_' | b'~')
}

fn are_word_bytes(word: &[u8]) -> bool
    ensures value { result ≡ list_all spec.is_word_byte word.now }
{
    word.iter().all(|b| is_word_byte(*b))
}

fn begins(word: &[u8], front: &[u8]) -> bool
    ensures value { result ≡ starts_with nat_eq word.now front.now }
{
    word.starts_with(front)
}

/// The name that one word gives, where it gives one.
fn named(alloc: Global, word: &[u8]) -> Result<Option<Name>, AllocError>
    ensures value { IfOk result (λ root. MatchOption root (spec.is_root word.now ≡ false) (λ name. (spec.is_root word.now ≡ true) × (name ≡ word.now))) }
{
    if !are_word_bytes(word) || begins(word, b"-") {
        return Ok(None);
    }
    match Name::read(alloc, word) {
        Ok(name) => Ok(Some(name)),
        Err(BadName::BadName) => Ok(None),
        Err(BadName::NoMemory) => Err(AllocError),
    }
}

/// The root that the words name, where they have a reading.
pub(crate) fn root_of(alloc: Global, words: &[String]) -> Result<Option<Name>, AllocError>
    ensures value { IfOk result (λ root. MatchOption root (spec.root_of (map string_bytes words.now) ≡ None) (λ name. spec.root_of (map string_bytes words.now) ≡ Some name)) }
{
    match words {
        [word] => named(alloc, word.as_str().as_bytes()),
        [] => Ok(None),
        [_, _, ..] => Ok(None),
    }
}
