ghost use Rattle.std.specs.Prelude.{◌≢◌, ◌<◌, [], length, IfOk, string_bytes};
ghost use Rattle.xt_value.specs.Parts.{PutsReference};

use crate::cuts::split_reference;
use std::alloc::AllocError;
use xt_lex::referenced_char;

/// The character that the reference at the front stands for; what follows it. Nothing is put where it stands for none.
pub(crate) fn put_reference<'a>(out: &mut String, text: &'a str) -> Result<&'a str, AllocError>
    ensures value { IfOk result (λ rest. PutsReference text.now rest.now (string_bytes out.old) (string_bytes out.new)) }
    ensures shorter { text.now ≢ [] → IfOk result (λ rest. length rest.now < length text.now) }
{
    let (reference, rest) = split_reference(text);
    match referenced_char(reference) {
        Some(c) => {
            out.push(c)?;
            Ok(rest)
        }
        None => Ok(rest),
    }
}
