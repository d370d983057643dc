//! A value, printed between quotes. Values are the bytes of UTF-8.
ghost use Rattle.std.specs.Prelude.{◌≡◌, ◌≢◌, ◌<◌, ◌≤◌, List, ℕ, [], ◌∷◌, ◌++◌, length, true, OnOk, IfOk};
ghost use Rattle.std.specs.List.{list_all, flat_map, prefix_len};
ghost use Rattle.bk_spec.specs.Print.{quoted_byte};
ghost use Rattle.bk_place.specs.Printing.{is_unescaped, escaped};

use std::alloc::AllocError;

/// How many bytes are tested at a time.
const BLOCK: usize = 16;

/// Adds bytes at the end.
pub(crate) fn put(out: &mut Vec<u8>, bytes: &[u8]) -> Result<(), AllocError>
    ensures value { OnOk result (out.new.items ≡ out.old.items ++ bytes.now) }
{
    out.extend_from_slice(bytes)
}

fn is_unescaped(b: u8) -> bool
    ensures value { result ≡ is_unescaped b }
{
    (b != b'"') & (b != b'\\') & (b != b'\n') & (b != b'\t') & (b != b'\r')
}

/// Whether each byte prints as itself. It has no early end, so that many bytes are tested at a time.
fn are_unescaped(bytes: &[u8]) -> bool
    ensures value { result ≡ list_all is_unescaped bytes.now }
{
    let mut plain = true;
    for b in bytes {
        plain &= is_unescaped(*b);
    }
    plain
}

/// How many bytes at the front print as themselves, one by one.
fn few_unescaped_len(bytes: &[u8]) -> usize
    ensures value { result ≡ prefix_len is_unescaped bytes.now }
    ensures fits { result ≤ length bytes.now }
{
    bytes.iter().take_while(|b| is_unescaped(**b)).count()
}

/// How many bytes at the front print as themselves.
fn unescaped_len(bytes: &[u8]) -> usize
    ensures value { result ≡ prefix_len is_unescaped bytes.now }
    ensures fits { result ≤ length bytes.now }
{
    let mut len = 0;
    while bytes.len() - len >= BLOCK && are_unescaped(&bytes[len..len + BLOCK]) {
        len += BLOCK;
    }
    len + few_unescaped_len(&bytes[len..])
}

/// The bytes cut before the first one to be escaped.
fn split_unescaped(bytes: &[u8]) -> (&[u8], &[u8])
    ensures value { result.0.now ++ result.1.now ≡ bytes.now }
    ensures plain { list_all is_unescaped result.0.now ≡ true }
{
    bytes.split_at(unescaped_len(bytes))
}

fn put_byte(out: &mut Vec<u8>, b: u8) -> Result<(), AllocError>
    ensures value { OnOk result (out.new.items ≡ out.old.items ++ quoted_byte b) }
{
    match b {
        b'"' => put(out, b"\\\""),
        b'\\' => put(out, b"\\\\"),
        b'\n' => put(out, b"\\n"),
        b'\t' => put(out, b"\\t"),
        b'\r' => put(out, b"\\r"),
        b => put(out, &[b]),
    }
}

/// The bytes before the first one to be escaped, and that one; what follows it.
fn put_run<'a>(out: &mut Vec<u8>, bytes: &'a [u8]) -> Result<&'a [u8], AllocError>
    ensures value { IfOk result (λ rest. out.old.items ++ escaped bytes.now ≡ out.new.items ++ escaped rest.now) }
    ensures shorter { bytes.now ≢ [] → IfOk result (λ rest. length rest.now < length bytes.now) }
{
    let (run, rest) = split_unescaped(bytes);
    put(out, run)?;
    match rest {
        [] => Ok(rest),
        [first, rest @ ..] => {
            put_byte(out, *first)?;
            Ok(rest)
        }
    }
}

/// A value between its quotes. A run of bytes that need no escape is added whole.
pub(crate) fn put_value(out: &mut Vec<u8>, value: &[u8]) -> Result<(), AllocError>
    ensures value { OnOk result (out.new.items ≡ out.old.items ++ escaped value.now) }
{
    let mut rest = value;
    while !rest.is_empty() {
        rest = put_run(out, rest)?;
    }
    Ok(())
}
