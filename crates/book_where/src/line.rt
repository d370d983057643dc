//! What is told of a fault.
ghost use Rattle.std.specs.Prelude.{◌≡◌, ◌++◌, take, OnOk};
ghost use Rattle.std.specs.Fmt.{decimal};
ghost use Rattle.book_where.specs.Line.{rule_text, place_text, found_line};

use crate::fault::{Found, Rule};
use crate::position::position_behind;
use itoa::Buffer;
use std::alloc::AllocError;

fn text_of(rule: Rule) -> &'static [u8]
    ensures value { result.now ≡ rule_text rule }
{
    match rule {
        Rule::NotUtf8 => b"the bytes from here on are no UTF-8",
        Rule::Encoding => b"another encoding than UTF-8 is declared",
        Rule::TooDeep => b"more than 128 elements stand in one another",
        Rule::End =>
            b"the file ends here, too early: an element, a tag or other markup is not ended",
        Rule::EndTag => b"this end-tag does not end the element that is open here",
        Rule::Markup => b"no tag or other markup that may stand here begins with this <",
        Rule::Reference => b"no reference that may stand here begins with this &",
        Rule::Bracket => b"]]> may not stand in a text",
        Rule::Characters => b"the text that begins here may not stand here",
    }
}

fn put_number(line: &mut Vec<u8>, number: usize) -> Result<(), AllocError>
    ensures value { OnOk result (line.new.items ≡ line.old.items ++ decimal number) }
{
    let mut buffer = Buffer::new();
    line.extend_from_slice(buffer.format(number).as_bytes())
}

/// The line and column of a place, each behind a colon.
fn put_place(line: &mut Vec<u8>, bytes: &[u8], at: Option<usize>) -> Result<(), AllocError>
    ensures value { OnOk result (line.new.items ≡ line.old.items ++ place_text bytes.now at) }
{
    let Some(at) = at else {
        return Ok(());
    };
    let position = position_behind(&bytes[..at.min(bytes.len())]);
    line.extend_from_slice(b":")?;
    put_number(line, position.line)?;
    line.extend_from_slice(b":")?;
    put_number(line, position.column)
}

/// Adds the line of a fault.
pub fn put_found(
    line: &mut Vec<u8>,
    file: &str,
    bytes: &[u8],
    found: Found,
) -> Result<(), AllocError>
    ensures value { OnOk result (line.new.items ≡ line.old.items ++ found_line file.now bytes.now found) }
{
    line.extend_from_slice(file.as_bytes())?;
    put_place(line, bytes, found.at)?;
    line.extend_from_slice(b": ")?;
    line.extend_from_slice(text_of(found.rule))?;
    line.extend_from_slice(b"\n")
}
