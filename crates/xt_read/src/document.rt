//! Documents, external parsed entities and texts: the items of a file in its role, or its first fault.

ghost use Rattle.std.specs.Prelude.{◌≡◌, ◌<◌, ◌+◌, ◌^◌, length, IfOk, IfErr, IfSome};
ghost use Rattle.xt_spec.specs.Tree.{source_text};
ghost use Rattle.xt_spec.specs.Reading.{document, entity, plain_text, IsOrdered, IsReading};
ghost use Rattle.xt_spec.specs.FirstFault.{IsFirstFault};
ghost use Rattle.xt_tree.specs.Meaning.{items_in};
ghost use Rattle.xt_tree.specs.Places.{marks_of, AreInPlace};
ghost use Rattle.xt_read.specs.Front.{role_of, markup_role_of};
ghost use Rattle.xt_read.specs.Faults.{reading_fault, IsMarkupFault, IsTextFault};

use crate::front::{FileRole, MarkupRole, read_front};
use crate::items::read_body;
use crate::text::read_one_text;
use crate::unread::Unread;
use std::alloc::Global;
use std::sync::ledger::Ledger;
use xt_lex::{NotUtf8, Steps, text_of};
use xt_tree::Tape;

/// Counts each byte.
pub(crate) fn count<L: Ledger>(bytes: &[u8], steps: &mut Steps<L>)
    ensures { steps.new ≡ steps.old + length bytes.now }
{
    for _b in bytes {
        steps.tick();
    }
}

/// The items of a text of markup in its role.
fn read_markup(alloc: Global, text: &str, role: MarkupRole) -> Result<Tape, Unread>
    requires fits { length text.now < 2 ^ 32 }
    ensures value { IfOk result (λ items. IsOrdered (markup_role_of role) (items_in text.now items) × (source_text (items_in text.now items) ≡ text.now)) }
    ensures place { IfOk result (λ items. AreInPlace text.now 0 (marks_of items) (length text.now)) }
    ensures fault { IfErr result (λ e. IfSome (reading_fault e) (IsMarkupFault role text.now)) }
{
    let front = match read_front(text, role) {
        Ok(front) => front,
        Err(unread) => return Err(unread),
    };
    let mut tape = match read_body(alloc, text, front.to, role.body()) {
        Ok(tape) => tape,
        Err(unread) => return Err(unread),
    };
    match front.put_before(&mut tape) {
        Ok(()) => Ok(tape),
        Err(_) => Err(Unread::NoMemory),
    }
}

/// The items of a text in its role.
fn read_text_as(alloc: Global, text: &str, role: FileRole) -> Result<Tape, Unread>
    requires fits { length text.now < 2 ^ 32 }
    ensures value { IfOk result (λ items. IsOrdered (role_of role) (items_in text.now items) × (source_text (items_in text.now items) ≡ text.now)) }
    ensures place { IfOk result (λ items. AreInPlace text.now 0 (marks_of items) (length text.now)) }
    ensures fault { IfErr result (λ e. IfSome (reading_fault e) (IsTextFault role text.now)) }
{
    match role {
        FileRole::Document => read_markup(alloc, text, MarkupRole::Document),
        FileRole::Entity => read_markup(alloc, text, MarkupRole::Entity),
        FileRole::Text => read_one_text(alloc, text),
    }
}

/// The items of a file in its role.
fn read_as(alloc: Global, bytes: &[u8], role: FileRole) -> Result<Tape, Unread>
    requires fits { length bytes.now < 2 ^ 32 }
    ensures value { IfOk result (λ items. IsReading (role_of role) bytes.now (items_in bytes.now items)) }
    ensures place { IfOk result (λ items. AreInPlace bytes.now 0 (marks_of items) (length bytes.now)) }
    ensures fault { IfErr result (λ e. IfSome (reading_fault e) (IsFirstFault (role_of role) bytes.now)) }
{
    match text_of(bytes) {
        Ok(text) => read_text_as(alloc, text, role),
        Err(NotUtf8 { at }) => Err(Unread::NotUtf8 { at }),
    }
}

/// The items of a document, with their places in its bytes, or its first fault.
///
/// Each byte counts one step, whatever the answer; want of memory may come before any other.
pub fn read_document<L: Ledger>(
    alloc: Global,
    bytes: &[u8],
    steps: &mut Steps<L>,
) -> Result<Tape, Unread>
    requires fits { length bytes.now < 2 ^ 32 }
    ensures value { IfOk result (λ items. IsReading document bytes.now (items_in bytes.now items)) }
    ensures place { IfOk result (λ items. AreInPlace bytes.now 0 (marks_of items) (length bytes.now)) }
    ensures fault { IfErr result (λ e. IfSome (reading_fault e) (IsFirstFault document bytes.now)) }
    ensures count { steps.new ≡ steps.old + length bytes.now }
{
    count(bytes, steps);
    read_as(alloc, bytes, FileRole::Document)
}

/// The items of an external parsed entity, with their places in its bytes, or its first fault.
///
/// Each byte counts one step, whatever the answer; want of memory may come before any other.
pub fn read_entity<L: Ledger>(
    alloc: Global,
    bytes: &[u8],
    steps: &mut Steps<L>,
) -> Result<Tape, Unread>
    requires fits { length bytes.now < 2 ^ 32 }
    ensures value { IfOk result (λ items. IsReading entity bytes.now (items_in bytes.now items)) }
    ensures place { IfOk result (λ items. AreInPlace bytes.now 0 (marks_of items) (length bytes.now)) }
    ensures fault { IfErr result (λ e. IfSome (reading_fault e) (IsFirstFault entity bytes.now)) }
    ensures count { steps.new ≡ steps.old + length bytes.now }
{
    count(bytes, steps);
    read_as(alloc, bytes, FileRole::Entity)
}

/// The items of a file that is included as a text, with their places in its bytes, or its first fault: a byte order mark,
/// where it begins with one, and behind it one text of all that follows.
///
/// Each byte counts one step, whatever the answer; want of memory may come before any other.
pub fn read_text<L: Ledger>(
    alloc: Global,
    bytes: &[u8],
    steps: &mut Steps<L>,
) -> Result<Tape, Unread>
    requires fits { length bytes.now < 2 ^ 32 }
    ensures value { IfOk result (λ items. IsReading plain_text bytes.now (items_in bytes.now items)) }
    ensures place { IfOk result (λ items. AreInPlace bytes.now 0 (marks_of items) (length bytes.now)) }
    ensures fault { IfErr result (λ e. IfSome (reading_fault e) (IsFirstFault plain_text bytes.now)) }
    ensures count { steps.new ≡ steps.old + length bytes.now }
{
    count(bytes, steps);
    read_as(alloc, bytes, FileRole::Text)
}
