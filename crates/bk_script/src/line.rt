//! Lines.

ghost use Rattle.std.specs.Prelude.{◌≡◌, option_map};
ghost use Rattle.std.specs.List.{list_all};
ghost use Rattle.bk_script.specs.Reading.{Gives, is_passed_over, number_of, last_string_at, text_at, command_at, line_of};
ghost use Rattle.bk_script.specs.View.{edit_command, command_of};
ghost use Rattle.bk_script.specs.Word as words;

use crate::command::Command;
use crate::front::{after_blanks, next_word};
use crate::number::number_of;
use crate::place::place_of;
use crate::stop::Stop;
use crate::string::string_at;
use ed_edit::Edit;
use std::alloc::Global;
use xt_lex::text_of;
use xt_table::Txt;

fn is_blank(text: &str) -> bool
    ensures { result ≡ list_all words.is_blank text.now }
{
    text.as_bytes().iter().all(|b| *b == b' ')
}

/// The N that the word is.
fn number(word: &[u8]) -> Result<u32, Stop>
    ensures { Gives (λ n. n) result (number_of word.now) }
{
    match number_of(word) {
        Some(n) => Ok(n),
        None => Err(Stop::NoReading),
    }
}

/// The STRING that the rest of a line is, with spaces round it.
#[tactic(auto, unfolding(crate::specs::Reading::last_string_at))]
fn last_string(alloc: Global, text: &str) -> Result<Txt, Stop>
    ensures { Gives (λ t. t) result (last_string_at text.now) }
{
    let (value, rest) = string_at(alloc, after_blanks(text))?;
    if is_blank(rest) {
        Ok(Txt::from_string(value))
    } else {
        Err(Stop::NoReading)
    }
}

/// What stands behind `text`: PLACE N N STRING.
#[tactic(auto, unfolding(crate::specs::Reading::text_at))]
fn text_at(alloc: Global, text: &str) -> Result<Edit, Stop>
    ensures { Gives edit_command result (text_at text.now) }
{
    let (place, rest) = next_word(text);
    let (from, rest) = next_word(rest);
    let (to, rest) = next_word(rest);
    let place = place_of(alloc, place)?;
    let from = number(from)?;
    let to = number(to)?;
    let value = last_string(alloc, rest)?;
    Ok(Edit::Text {
        place,
        from,
        to,
        value,
    })
}

/// The command that the line is.
#[tactic(auto, unfolding(crate::specs::Reading::command_at))]
fn command_at(alloc: Global, text: &str) -> Result<Command, Stop>
    ensures { Gives command_of result (command_at text.now) }
{
    let (word, rest) = next_word(text);
    if word == b"text".as_slice() {
        return Ok(Command::Edit(text_at(alloc, rest)?));
    }
    if word == b"burst".as_slice() && is_blank(rest) {
        return Ok(Command::Burst);
    }
    Err(Stop::NoReading)
}

/// Whether nothing, or a comment, stands behind the first spaces.
fn is_passed_over(text: &str) -> bool
    ensures { result ≡ is_passed_over text.now }
{
    matches!(text.as_bytes(), [] | [b'#', ..])
}

/// What the line counts, where it has a reading.
#[tactic(auto, unfolding(crate::specs::Reading::line_of))]
pub(crate) fn line_of(alloc: Global, line: &[u8]) -> Result<Option<Command>, Stop>
    ensures { Gives (option_map command_of) result (line_of line.now) }
{
    let Ok(text) = text_of(line) else {
        return Err(Stop::NoReading);
    };
    if is_passed_over(after_blanks(text)) {
        return Ok(None);
    }
    let command = command_at(alloc, text)?;
    Ok(Some(command))
}
