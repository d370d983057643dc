//! The items of a text, read token by token.

ghost use Rattle.std.specs.Prelude.{◌≡◌, ◌<◌, ◌≤◌, ◌^◌, [], length, drop, IfOk, IfErr, IfSome};
ghost use Rattle.std.specs.Str.{IsCharBoundary};
ghost use Rattle.xt_tree.specs.Built.{IsSound};
ghost use Rattle.xt_tree.specs.Meaning.{items_in};
ghost use Rattle.xt_tree.specs.Places.{marks_of, AreInPlace};
ghost use Rattle.xt_read.specs.Progress.{body_of, state_of, all_marks};
ghost use Rattle.xt_read.specs.Run.{begin, Passes, IsRead};
ghost use Rattle.xt_read.specs.Faults.{reading_fault, IsBodyFault};

use crate::reader::Reader;
use crate::stage::Body;
use crate::unread::Unread;
use std::alloc::Global;
use xt_tree::Tape;

/// Reads the text to its end, from the place where its body begins.
fn read_tokens(alloc: Global, text: &str, from: usize, body: Body) -> Result<Reader, Unread>
    requires within { from ≤ length text.now }
    requires boundary { IsCharBoundary text.now from }
    requires fits { length text.now < 2 ^ 32 }
    ensures value { IfOk result (λ reader. Passes (begin (body_of body)) (drop from text.now) (state_of text.now reader) []) }
    ensures place { IfOk result (λ reader. AreInPlace text.now from (all_marks reader) (length text.now)) }
    ensures sound { IfOk result (λ reader. IsSound reader.tape) }
    ensures fault { IfErr result (λ e. IfSome (reading_fault e) (IsBodyFault (body_of body) text.now from)) }
{
    let mut reader = Reader::new(alloc, body);
    let mut at = from;
    while at < text.len() {
        match reader.advances(alloc, text, at) {
            Ok(to) => at = to,
            Err(unread) => return Err(unread),
        }
    }
    Ok(reader)
}

/// The items of a body, from the place where it begins.
pub(crate) fn read_body(alloc: Global, text: &str, from: usize, body: Body) -> Result<Tape, Unread>
    requires within { from ≤ length text.now }
    requires boundary { IsCharBoundary text.now from }
    requires fits { length text.now < 2 ^ 32 }
    ensures value { IfOk result (λ items. IsRead (body_of body) (drop from text.now) (items_in text.now items)) }
    ensures place { IfOk result (λ items. AreInPlace text.now from (marks_of items) (length text.now)) }
    ensures fault { IfErr result (λ e. IfSome (reading_fault e) (IsBodyFault (body_of body) text.now from)) }
{
    let mut reader = match read_tokens(alloc, text, from, body) {
        Ok(reader) => reader,
        Err(unread) => return Err(unread),
    };
    if !reader.is_whole() {
        return Err(Unread::NotWellFormed { at: text.len() });
    }
    match reader.settle() {
        Ok(()) => Ok(reader.into_tape()),
        Err(_) => Err(Unread::NoMemory),
    }
}
