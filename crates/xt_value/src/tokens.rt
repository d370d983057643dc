//! Values of types other than CDATA. XML 1.0 (Fifth Edition), section 3.3.3.
ghost use Rattle.std.specs.Prelude.{◌≡◌, ◌≢◌, ◌<◌, [], length, IfOk, OnOk, string_bytes};
ghost use Rattle.xt_spec.specs.Value as spec;
ghost use Rattle.xt_value.specs.Tokens.{tokens, with_token, with_tokens};

use crate::cuts::{behind_ascii, split_blank};
use std::alloc::{AllocError, Global};

/// The word, behind a space where others stand before it. An empty one counts nothing.
fn put_token(out: &mut String, word: &str) -> Result<(), AllocError>
    ensures value { OnOk result (string_bytes out.new ≡ with_token (string_bytes out.old) word.now) }
{
    if word.is_empty() {
        return Ok(());
    }
    if !out.is_empty() {
        out.push_str(" ")?;
    }
    out.push_str(word)
}

/// The word before the first space; what follows that.
fn put_next<'a>(out: &mut String, text: &'a str) -> Result<&'a str, AllocError>
    ensures value { IfOk result (λ rest. with_tokens (string_bytes out.old) (tokens text.now) ≡ with_tokens (string_bytes out.new) (tokens rest.now)) }
    ensures shorter { text.now ≢ [] → IfOk result (λ rest. length rest.now < length text.now) }
{
    let (word, rest) = split_blank(text);
    put_token(out, word)?;
    Ok(behind_ascii(rest))
}

/// The value without the spaces in front and at the end, and with one for several in a row.
pub(crate) fn tokenized(alloc: Global, value: &str) -> Result<String, AllocError>
    ensures value { IfOk result (λ out. string_bytes out ≡ spec.tokenized value.now) }
{
    let mut out = String::with_capacity(alloc, value.len())?;
    let mut rest = value;
    while !rest.is_empty() {
        rest = put_next(&mut out, rest)?;
    }
    Ok(out)
}
