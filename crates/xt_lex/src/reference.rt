//! References.

ghost use Rattle.std.specs.Prelude.{◌≡◌, ◌<◌, ◌≤◌, ◌+◌, ◌*◌, ℕ, min, option_map, MatchOption};
ghost use Rattle.std.specs.List.{prefix_len};
ghost use Rattle.xt_spec.specs.Reference as spec;
ghost use Rattle.xt_spec.specs.Reference.{is_decimal_digit, is_hexadecimal_digit, number_behind, StandsFor};
ghost use Rattle.xt_lex.specs.Scan.{take_while, drop_while, named, after_number, after_char_ref, numbered, reference};
ghost use Rattle.xt_lex.specs.Kinds.{kind_of};

use crate::chars::is_char;
use crate::front::{after, after_ncname};
use crate::token::Kind;

/// The first number that no character has.
const PAST_CHARS: u32 = 0x11_0000;

fn is_decimal_digit(b: u8) -> bool
    ensures { result ≡ spec.is_decimal_digit b }
{
    matches!(b, b'0'..=b'9')
}

fn is_hexadecimal_digit(b: u8) -> bool
    ensures { result ≡ spec.is_hexadecimal_digit b }
{
    matches!(b, b'0'..=b'9' | b'A'..=b'F' | b'a'..=b'f')
}

fn digit_value(b: u8) -> u32
    ensures value { result ≡ spec.digit_value b }
    ensures small { result < 256 }
{
    let code = u32::from(b);
    if 0x61 <= code {
        code - 0x57
    } else if 0x41 <= code {
        code - 0x37
    } else {
        code.saturating_sub(0x30)
    }
}

/// The number that the digits spell in the base, or `PAST_CHARS` for a greater one.
fn number(base: u32, digits: &[u8]) -> u32
    requires some { 0 < base }
    requires small { base ≤ 16 }
    ensures { result ≡ min (number_behind base 0 digits.now) 0x11_0000 }
{
    let mut n = 0;
    for digit in digits {
        n = (n * base + digit_value(*digit)).min(PAST_CHARS);
    }
    n
}

/// The Char whose number the digits spell in the base.
fn named(base: u32, digits: &str) -> Option<char>
    requires some { 0 < base }
    requires small { base ≤ 16 }
    ensures { result ≡ named base digits.now }
{
    let c = char::from_u32(number(base, digits.as_bytes()))?;
    if is_char(c) { Some(c) } else { None }
}

fn decimal_len(bytes: &[u8]) -> usize
    ensures { result ≡ prefix_len is_decimal_digit bytes.now }
{
    bytes.iter().take_while(|b| is_decimal_digit(**b)).count()
}

fn hexadecimal_len(bytes: &[u8]) -> usize
    ensures { result ≡ prefix_len is_hexadecimal_digit bytes.now }
{
    bytes
        .iter()
        .take_while(|b| is_hexadecimal_digit(**b))
        .count()
}

fn split_decimal(text: &str) -> (&str, &str)
    ensures digits { result.0.now ≡ take_while is_decimal_digit text.now }
    ensures rest { result.1.now ≡ drop_while is_decimal_digit text.now }
{
    text.split_at(decimal_len(text.as_bytes()))
}

fn split_hexadecimal(text: &str) -> (&str, &str)
    ensures digits { result.0.now ≡ take_while is_hexadecimal_digit text.now }
    ensures rest { result.1.now ≡ drop_while is_hexadecimal_digit text.now }
{
    text.split_at(hexadecimal_len(text.as_bytes()))
}

/// The Char that decimal digits name, and what follows the `;` behind them.
#[tactic(auto, unfolding(crate::specs::Scan::after_number))]
fn after_decimal(text: &str) -> Option<(char, &str)>
    ensures { option_map (λ x. (x.0, x.1.now)) result ≡ after_number 10 is_decimal_digit text.now }
{
    let (digits, rest) = split_decimal(text);
    let c = named(10, digits)?;
    let rest = after(';', rest)?;
    Some((c, rest))
}

/// The Char that hexadecimal digits name, and what follows the `;` behind them.
#[tactic(auto, unfolding(crate::specs::Scan::after_number))]
fn after_hexadecimal(text: &str) -> Option<(char, &str)>
    ensures { option_map (λ x. (x.0, x.1.now)) result ≡ after_number 16 is_hexadecimal_digit text.now }
{
    let (digits, rest) = split_hexadecimal(text);
    let c = named(16, digits)?;
    let rest = after(';', rest)?;
    Some((c, rest))
}

/// Behind `&#`: the Char of the reference, and what follows it.
#[tactic(auto, unfolding(crate::specs::Scan::after_char_ref))]
fn after_char_ref(text: &str) -> Option<(char, &str)>
    ensures { option_map (λ x. (x.0, x.1.now)) result ≡ after_char_ref text.now }
{
    match after('x', text) {
        Some(rest) => after_hexadecimal(rest),
        None => after_decimal(text),
    }
}

/// The kind of the reference at the front, and what follows it.
#[tactic(auto, unfolding(crate::specs::Scan::reference))]
pub(crate) fn reference(text: &str) -> Option<(Kind, &str)>
    ensures { option_map (λ x. (kind_of x.0, x.1.now)) result ≡ reference text.now }
{
    let rest = after('&', text)?;
    match after('#', rest) {
        Some(rest) => {
            let (_, rest) = after_char_ref(rest)?;
            Some((Kind::CharRef, rest))
        }
        None => {
            let rest = after_ncname(rest)?;
            let rest = after(';', rest)?;
            Some((Kind::EntRef, rest))
        }
    }
}

/// The Char of a character reference that is the whole text.
#[tactic(auto, unfolding(crate::specs::Scan::numbered))]
fn numbered_char(text: &str) -> Option<char>
    ensures { result ≡ numbered text.now }
{
    let rest = after('&', text)?;
    let rest = after('#', rest)?;
    let (c, rest) = after_char_ref(rest)?;
    if rest.is_empty() { Some(c) } else { None }
}

/// The character that the whole text, a reference, stands for: `&#38;`, `&#x26;` and `&amp;` stand for `&`.
pub fn referenced_char(reference: &str) -> Option<char>
    ensures { MatchOption result ((c : ℕ) → ¬ StandsFor reference.now c) (λ c. StandsFor reference.now c) }
{
    match reference {
        "&lt;" => Some('<'),
        "&gt;" => Some('>'),
        "&amp;" => Some('&'),
        "&apos;" => Some('\''),
        "&quot;" => Some('"'),
        _ => numbered_char(reference),
    }
}
