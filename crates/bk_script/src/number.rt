//! Numbers in decimal digits.

ghost use Rattle.std.specs.Prelude.{◌≡◌};
ghost use Rattle.std.specs.List.{prefix_len};
ghost use Rattle.xt_spec.specs.Reference as spec;
ghost use Rattle.xt_spec.specs.Reference.{is_decimal_digit};
ghost use Rattle.bk_script.specs.Reading.{number_with, number_from, number_of};

const MAX_NUMBER: u64 = 4_294_967_295;

fn is_decimal_digit(b: u8) -> bool
    ensures { result ≡ spec.is_decimal_digit b }
{
    matches!(b, b'0'..=b'9')
}

/// How many digits stand at the front.
pub(crate) fn decimal_len(bytes: &[u8]) -> usize
    ensures { result ≡ prefix_len is_decimal_digit bytes.now }
{
    bytes.iter().take_while(|b| is_decimal_digit(**b)).count()
}

/// The number behind n and one more digit.
fn with_digit(n: u32, b: u8) -> Option<u32>
    ensures { result ≡ number_with n b }
{
    if !is_decimal_digit(b) {
        return None;
    }
    let more = u64::from(n) * 10 + u64::from(b - b'0');
    if more <= MAX_NUMBER {
        Some(more as u32)
    } else {
        None
    }
}

/// The number that digits spell, zeros at the front among them.
fn digits_value(digits: &[u8]) -> Option<u32>
    ensures { result ≡ number_from 0 digits.now }
{
    let mut n = 0;
    for digit in digits {
        n = with_digit(n, *digit)?;
    }
    Some(n)
}

/// The number that the word is: `0`, or digits without a leading zero.
pub(crate) fn number_of(word: &[u8]) -> Option<u32>
    ensures { result ≡ number_of word.now }
{
    match word {
        [] => None,
        [b'0', _, ..] => None,
        _ => digits_value(word),
    }
}
