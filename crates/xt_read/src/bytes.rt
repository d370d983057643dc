ghost use Rattle.std.specs.Prelude.{◌≡◌, bytes_eq};
ghost use Rattle.std.specs.List.{list_all};
ghost use Rattle.xt_spec.specs.Char.{is_space};
ghost use Rattle.xt_tree.specs.Meaning.{at_span};

use xt_lex::Span;

/// The bytes at a span, as far as there are any.
pub(crate) fn bytes_at(bytes: &[u8], span: Span) -> &[u8]
    ensures { result.now ≡ at_span bytes.now span }
{
    let from = bytes.len().min(span.from as usize);
    let rest = &bytes[from..];
    let len = span.to.saturating_sub(span.from) as usize;
    &rest[..rest.len().min(len)]
}

pub(crate) fn is_same(a: &[u8], b: &[u8]) -> bool
    ensures { result ≡ bytes_eq a.now b.now }
{
    a == b
}

fn is_space(b: u8) -> bool
    ensures { result ≡ is_space b }
{
    matches!(b, b' ' | b'\t' | b'\r' | b'\n')
}

/// Whether there is white space alone.
pub(crate) fn is_blank(bytes: &[u8]) -> bool
    ensures { result ≡ list_all is_space bytes.now }
{
    bytes.iter().all(|b| is_space(*b))
}
