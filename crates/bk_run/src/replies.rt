//! The lines that are told: replies to commands, and faults.
ghost use Rattle.std.specs.Prelude.{◌≡◌, ◌++◌, IfOk, codes};
ghost use Rattle.std.specs.Fmt.{decimal};
ghost use Rattle.ed_spec.specs.Session.{saved_files};
ghost use Rattle.ed_session.specs.Edits.{refusal_of};
ghost use Rattle.bk_run.specs.Replies.{refusal_name, reply_text, is_refusal, reply_of};

use ed_session::Refusal;
use itoa::Buffer;
use std::alloc::{AllocError, Global};

/// What is told of a command.
#[derive(Clone, Copy, Debug, PartialEq, Eq)]
pub(crate) enum Reply {
    Done,
    Refused(Refusal),
    Saved(u32),
}

fn name_of(refusal: Refusal) -> &'static [u8]
    ensures value { result.now ≡ refusal_name (refusal_of refusal) }
{
    match refusal {
        Refusal::NoSuchPlace => b"NoSuchPlace",
        Refusal::WrongKind => b"WrongKind",
        Refusal::BadRange => b"BadRange",
        Refusal::BadText => b"BadText",
        Refusal::TooLarge => b"TooLarge",
    }
}

/// A front, a text and LF.
pub fn line(alloc: Global, front: &[u8], text: &[u8]) -> Result<Vec<u8>, AllocError>
    ensures value { IfOk result (λ line. line.items ≡ front.now ++ text.now ++ codes "\n") }
{
    let mut line = Vec::from_slice(alloc, front)?;
    line.extend_from_slice(text)?;
    line.push(b'\n')?;
    Ok(line)
}

/// A front, a number in decimal digits and LF.
pub fn numbered(alloc: Global, front: &[u8], number: u32) -> Result<Vec<u8>, AllocError>
    ensures value { IfOk result (λ line. line.items ≡ front.now ++ decimal number ++ codes "\n") }
{
    let mut buffer = Buffer::new();
    line(alloc, front, buffer.format(number).as_bytes())
}

impl Reply {
    pub(crate) fn is_refused(self) -> bool
        ensures value { result ≡ is_refusal (reply_of self) }
    {
        matches!(self, Reply::Refused(_))
    }

    /// The line that is told.
    pub(crate) fn text(self, alloc: Global) -> Result<Vec<u8>, AllocError>
        ensures value { IfOk result (λ text. text.items ≡ reply_text (reply_of self)) }
    {
        match self {
            Reply::Done => Vec::from_slice(alloc, b"ok\n"),
            Reply::Refused(refusal) => line(alloc, b"refused ", name_of(refusal)),
            Reply::Saved(count) => numbered(alloc, b"burst ", count),
        }
    }
}
