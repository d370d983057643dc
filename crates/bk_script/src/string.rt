//! Strings between quotes.

ghost use Rattle.std.specs.Prelude.{◌≡◌, ◌<◌, ◌≤◌, ◌++◌, IfOk, IsErrOf, None, length, option_map, string_bytes};
ghost use Rattle.xt_spec.specs.Reference as spec;
ghost use Rattle.xt_spec.specs.Reference.{number_behind};
ghost use Rattle.bk_script.specs.Reading.{Gives, scalar_of, code_point_at, escape_by, escape_at, IsPushed, string_body_at, string_at};
ghost use Rattle.bk_script.specs.declared.stop.Stop.TheVariants.{NoReading};

use crate::front::{after, ascii_at, split_hexadecimal, split_plain};
use crate::stop::Stop;
use std::alloc::Global;

fn digit_value(b: u8) -> u32
    ensures value { result ≡ spec.digit_value b }
    ensures small { result < 256 }
{
    let code = u32::from(b);
    if 0x61 <= code {
        code - 0x57
    } else if 0x41 <= code {
        code - 0x37
    } else {
        code.saturating_sub(0x30)
    }
}

/// The number that at most six digits spell.
fn hexadecimal_value(digits: &[u8]) -> u32
    requires few { length digits.now ≤ 6 }
    ensures { result ≡ number_behind 16 0 digits.now }
{
    let mut n = 0;
    for digit in digits {
        n = n * 16 + digit_value(*digit);
    }
    n
}

/// The scalar value that one to six digits spell.
fn scalar_of(digits: &[u8]) -> Option<char>
    ensures { result ≡ scalar_of digits.now }
{
    if digits.is_empty() || digits.len() > 6 {
        return None;
    }
    char::from_u32(hexadecimal_value(digits))
}

/// The character of a code point in braces, and what follows it.
#[tactic(auto, unfolding(crate::specs::Reading::code_point_at))]
fn code_point_at(text: &str) -> Option<(char, &str)>
    ensures { option_map (λ x. (x.0, x.1.now)) result ≡ code_point_at text.now }
{
    let (digits, rest) = split_hexadecimal(after('{', text)?);
    let c = scalar_of(digits.as_bytes())?;
    let rest = after('}', rest)?;
    Some((c, rest))
}

/// The character that a letter behind a backslash, or a code point behind it, stands for, and what follows.
fn escape_by(letter: u8, rest: &str) -> Option<(char, &str)>
    ensures { option_map (λ x. (x.0, x.1.now)) result ≡ escape_by letter rest.now }
{
    match letter {
        b'"' => Some(('"', rest)),
        b'\\' => Some(('\\', rest)),
        b'n' => Some(('\n', rest)),
        b't' => Some(('\t', rest)),
        b'r' => Some(('\r', rest)),
        b'u' => code_point_at(rest),
        _ => None,
    }
}

/// The character that stands behind a backslash, and what follows.
#[tactic(auto, unfolding(crate::specs::Reading::escape_at))]
fn escape_at(text: &str) -> Option<(char, &str)>
    ensures { option_map (λ x. (x.0, x.1.now)) result ≡ escape_at text.now }
{
    let (letter, rest) = ascii_at(text)?;
    escape_by(letter, rest)
}

/// The value of an escape is appended, and of the bytes behind it that stand for themselves; the rest is answered.
fn push_escape<'a>(value: &mut String, text: &'a str) -> Result<&'a str, Stop>
    ensures value { IfOk result (λ rest. IsPushed (string_bytes value.old) text.now (string_bytes value.new) rest.now) }
    ensures none { IsErrOf result NoReading → escape_at text.now ≡ None }
{
    let Some((c, rest)) = escape_at(text) else {
        return Err(Stop::NoReading);
    };
    let (plain, rest) = split_plain(rest);
    if value.push(c).is_err() || value.push_str(plain).is_err() {
        return Err(Stop::NoMemory);
    }
    Ok(rest)
}

/// Behind the first quote: the value of the string, and what follows its second quote.
fn string_body(alloc: Global, text: &str) -> Result<(String, &str), Stop>
    ensures { Gives (λ x. (string_bytes x.0, x.1.now)) result (string_body_at text.now) }
{
    let (plain, mut rest) = split_plain(text);
    let Ok(mut value) = String::from_str(alloc, plain) else {
        return Err(Stop::NoMemory);
    };
    while let Some(escape) = after('\\', rest) {
        rest = push_escape(&mut value, escape)?;
    }
    match after('"', rest) {
        Some(rest) => Ok((value, rest)),
        None => Err(Stop::NoReading),
    }
}

/// The value of the string at the front, and what follows its second quote.
#[tactic(auto, unfolding(crate::specs::Reading::string_at))]
pub(crate) fn string_at(alloc: Global, text: &str) -> Result<(String, &str), Stop>
    ensures { Gives (λ x. (string_bytes x.0, x.1.now)) result (string_at text.now) }
{
    match after('"', text) {
        Some(body) => string_body(alloc, body),
        None => Err(Stop::NoReading),
    }
}
