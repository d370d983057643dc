//! Ranges of characters of a text, counted from 0.
ghost use Rattle.std.specs.Prelude.{◌≡◌, ◌⊎◌, ◌<◌, ◌≤◌, ◌∷◌, ◌++◌, ℕ, List, [], length, take, drop, IfOk, MatchOption, string_bytes, encode_utf8};
ghost use Rattle.std.specs.Str.{chars, IsUtf8};
ghost use Rattle.ed_spec.specs.Edit.{range_replaced};
ghost use Rattle.ed_session.specs.Ranges.{IsCut};

use std::alloc::{AllocError, Global};

/// A text without its first character.
fn behind_char(text: &str) -> Option<&str>
    ensures value { MatchOption result (text.now ≡ []) (λ rest. (c : ℕ) × (chars text.now ≡ c ∷ chars rest.now) × (text.now ≡ encode_utf8 c ++ rest.now) × IsUtf8 (encode_utf8 c) × IsUtf8 rest.now) }
{
    let mut chars = text.chars();
    match chars.next() {
        Some(_) => Some(chars.as_str()),
        None => None,
    }
}

/// What follows so many characters, where there are as many.
fn behind_chars(text: &str, count: u32) -> Option<&str>
    ensures value { MatchOption result (length (chars text.now) < count) (λ rest. IsCut text.now count rest.now) }
{
    let mut rest = text;
    let mut passed = 0;
    while passed < count {
        rest = behind_char(rest)?;
        passed += 1;
    }
    Some(rest)
}

/// The text with others in the place of a range of its characters; `None` where the range doesn't lie in it.
pub(crate) fn replace_range(
    alloc: Global,
    text: &str,
    from: u32,
    to: u32,
    new: &str,
) -> Result<Option<String>, AllocError>
    ensures value { IfOk result (λ found. MatchOption found ((to < from) ⊎ (length (chars text.now) < to)) (λ out. (from ≤ to) × (to ≤ length (chars text.now)) × (chars (string_bytes out) ≡ range_replaced (chars text.now) from to (chars new.now)))) }
{
    if to < from {
        return Ok(None);
    }
    match (behind_chars(text, from), behind_chars(text, to)) {
        (Some(rest), Some(end)) => {
            let (front, _) = text.split_at(text.len() - rest.len());
            let mut out = String::with_capacity(alloc, text.len())?;
            out.push_str(front)?;
            out.push_str(new)?;
            out.push_str(end)?;
            Ok(Some(out))
        }
        _ => Ok(None),
    }
}
