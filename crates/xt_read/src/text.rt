//! A file that is included as a text: characters alone, behind a byte order mark.

ghost use Rattle.std.specs.Prelude.{◌≡◌, ◌<◌, ◌≤◌, ◌^◌, ℕ, List, length, IfOk, IfErr, IfSome};
ghost use Rattle.xt_spec.specs.Tree.{source_text};
ghost use Rattle.xt_spec.specs.Reading.{plain_text, IsOrdered};
ghost use Rattle.xt_tree.specs.Meaning.{items_in};
ghost use Rattle.xt_tree.specs.Places.{marks_of, AreInPlace};
ghost use Rattle.xt_read.specs.FrontSteps.{text_src, one_text_items, one_text_marks};
ghost use Rattle.xt_read.specs.Faults.{reading_fault, IsPlainFault};

use crate::front::{begin_with_mark, mark_len};
use crate::unread::Unread;
use std::alloc::{AllocError, Global};
use xt_lex::{Span, chars_len};
use xt_tree::{Building, Leaf, Tape};

/// The text from one place to another, where there is any.
fn text_between(alloc: Global, from: u32, to: u32) -> Result<Tape, AllocError>
    ensures value { IfOk result (λ tape. tape ≡ text_src from to) }
{
    let mut building = Building::new(alloc);
    if from != to {
        building.adds_leaf(Leaf::Text, Span { from, to })?;
    }
    Ok(building.into_tape())
}

/// The gap of a byte order mark of so many bytes, and the text from there to the end.
fn one_text_items(alloc: Global, mark: usize, len: usize) -> Result<Tape, AllocError>
    requires order { mark ≤ len }
    requires fits { len < 2 ^ 32 }
    ensures value { (text : List ℕ) → IfOk result (λ items. items_in text items ≡ one_text_items text mark len) }
    ensures place { IfOk result (λ items. marks_of items ≡ one_text_marks mark len) }
{
    let mut tape = text_between(alloc, mark as u32, len as u32)?;
    begin_with_mark(&mut tape, mark as u32)?;
    Ok(tape)
}

/// The items of a text that is read as one text.
pub(crate) fn read_one_text(alloc: Global, text: &str) -> Result<Tape, Unread>
    requires fits { length text.now < 2 ^ 32 }
    ensures value { IfOk result (λ items. IsOrdered plain_text (items_in text.now items) × (source_text (items_in text.now items) ≡ text.now)) }
    ensures place { IfOk result (λ items. AreInPlace text.now 0 (marks_of items) (length text.now)) }
    ensures fault { IfErr result (λ e. IfSome (reading_fault e) (IsPlainFault text.now)) }
{
    let mark = mark_len(text);
    let at = mark + chars_len(&text[mark..]);
    if at != text.len() {
        return Err(Unread::NotWellFormed { at });
    }
    match one_text_items(alloc, mark, at) {
        Ok(items) => Ok(items),
        Err(_) => Err(Unread::NoMemory),
    }
}
