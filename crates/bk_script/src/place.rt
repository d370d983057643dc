//! Places of the printed tree.

ghost use Rattle.std.specs.Prelude.{◌≡◌, Some, option_map};
ghost use Rattle.std.specs.Option.{option_copied};
ghost use Rattle.xt_spec.specs.Reference.{is_decimal_digit};
ghost use Rattle.xt_scan.specs.Step.{take_while, drop_while};
ghost use Rattle.xt_lex.specs.Scan.{after};
ghost use Rattle.bk_script.specs.Reading.{Gives, step_at, parts_of, place_of};

use crate::number::{decimal_len, number_of};
use crate::stop::Stop;
use std::alloc::Global;
use xt_table::Seq;

/// The digits at the front, and what follows them.
fn split_digits(bytes: &[u8]) -> (&[u8], &[u8])
    ensures digits { result.0.now ≡ take_while is_decimal_digit bytes.now }
    ensures rest { result.1.now ≡ drop_while is_decimal_digit bytes.now }
{
    bytes.split_at(decimal_len(bytes))
}

fn after_slash(bytes: &[u8]) -> Option<&[u8]>
    ensures value { option_copied result ≡ after 0x2F bytes.now }
{
    match bytes {
        [b'/', rest @ ..] => Some(rest),
        _ => None,
    }
}

/// The number of the step at the front, and what follows it.
#[tactic(auto, unfolding(crate::specs::Reading::step_at))]
fn step(text: &[u8]) -> Option<(u32, &[u8])>
    ensures value { option_map (λ x. (x.0, x.1.now)) result ≡ step_at text.now }
{
    let (digits, rest) = split_digits(after_slash(text)?);
    let n = number_of(digits)?;
    if n == 0 { None } else { Some((n, rest)) }
}

/// The numbers of the steps at the front, and what follows them.
fn steps(alloc: Global, text: &[u8]) -> Result<(Vec<u32>, &[u8]), Stop>
    ensures value { Gives (λ x. (x.0.items, x.1.now)) result (Some (parts_of step_at text.now)) }
{
    let mut numbers = Vec::new(alloc);
    let mut rest = text;
    while let Some((n, after)) = step(rest) {
        if numbers.push(n).is_err() {
            return Err(Stop::NoMemory);
        }
        rest = after;
    }
    Ok((numbers, rest))
}

/// The numbers of the place that the word is.
#[tactic(auto, unfolding(crate::specs::Reading::place_of))]
pub(crate) fn place_of(alloc: Global, word: &[u8]) -> Result<Seq<u32>, Stop>
    ensures value { Gives (λ p. p) result (place_of word.now) }
{
    let (numbers, rest) = steps(alloc, word)?;
    if numbers.is_empty() || !rest.is_empty() {
        return Err(Stop::NoReading);
    }
    Ok(Seq::from_vec(numbers))
}
