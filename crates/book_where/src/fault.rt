//! The first fault of a document's bytes.
ghost use Rattle.std.specs.Prelude.{◌≡◌, ◌<◌, ◌^◌, drop, length, IfOk};
ghost use Rattle.book_where.specs.Fault.{begun, begun_by_angle, IsFound};

use std::alloc::{AllocError, Global};
use std::sync::ledger::Ledger;
use xt_lex::Steps;
use xt_read::{Unread, read_document};

/// Which rule is broken first, told by what stands at the place.
#[derive(Clone, Copy, Debug, PartialEq, Eq)]
pub enum Rule {
    NotUtf8,
    /// Another encoding than UTF-8 is declared.
    Encoding,
    /// An element would begin at level 129.
    TooDeep,
    /// The file ends.
    End,
    EndTag,
    /// `<`, and no end-tag.
    Markup,
    /// `&`.
    Reference,
    /// `]`: a text would hold `]]>`.
    Bracket,
    Characters,
}

/// A fault: its place in bytes of the file from 0, where it has one, and the rule.
#[derive(Clone, Copy, Debug, PartialEq, Eq)]
pub struct Found {
    pub at: Option<usize>,
    pub rule: Rule,
}

/// What begins the rest of a document.
fn begun(rest: &[u8]) -> Rule
    ensures value { result ≡ begun rest.now }
{
    match rest {
        [] => Rule::End,
        [b'<', b'/', ..] => Rule::EndTag,
        [b'<', ..] => Rule::Markup,
        [b'&', ..] => Rule::Reference,
        [b']', ..] => Rule::Bracket,
        _ => Rule::Characters,
    }
}

/// The bytes from a place on; none behind the end.
fn rest_from(bytes: &[u8], at: usize) -> &[u8]
    ensures value { result.now ≡ drop at bytes.now }
{
    &bytes[at.min(bytes.len())..]
}

/// The first fault of a document's bytes, or none where they are read.
pub fn first_fault<L: Ledger>(
    alloc: Global,
    bytes: &[u8],
    steps: &mut Steps<L>,
) -> Result<Option<Found>, AllocError>
    requires fits { length bytes.now < 2 ^ 32 }
    ensures value { IfOk result (IsFound bytes.now) }
{
    let (at, rule) = match read_document(alloc, bytes, steps) {
        Ok(_) => return Ok(None),
        Err(Unread::NotUtf8 { at }) => (Some(at), Rule::NotUtf8),
        Err(Unread::Encoding) => (Some(0), Rule::Encoding),
        Err(Unread::NotWellFormed { at }) => (Some(at), begun(rest_from(bytes, at))),
        Err(Unread::TooDeep) => (None, Rule::TooDeep),
        Err(Unread::NoMemory) => return Err(AllocError),
    };
    Ok(Some(Found { at, rule }))
}
