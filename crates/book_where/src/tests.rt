//! Positions, and the lines of faults, worked out by hand.
ghost use Rattle.std.specs.Prelude.{◌≡◌, ◌<◌, ◌^◌, length};

use crate::fault::first_fault;
use crate::line::put_found;
use crate::position::{Position, position_behind};
use std::alloc::{AllocError, Global};
use std::marker::Brand;
use std::sync::ledger::{Blank, Ledger};
use std::test::Fail;
use xt_lex::Steps;

#[test]
fn positions_count_characters_and_each_line_end_once(rt: HostRuntime) {
    for (text, line, column) in [
        ("", 1, 1),
        ("ab", 1, 3),
        ("a\n", 2, 1),
        ("a\r\n", 2, 1),
        ("a\r", 2, 1),
        ("a\r\r\n\nb", 4, 2),
        ("\u{FEFF}é€😀", 1, 5),
        ("é\n\u{301}", 2, 2),
    ] {
        assert_eq!(rt;
            position_behind(text.as_bytes()),
            Position { line, column },
            "at {text}"
        );
    }
}

/// What is told of a document.
fn told_over<L: Ledger>(alloc: Global, bytes: &[u8], blank: Blank) -> Result<Vec<u8>, AllocError>
    requires name { blank.name ≡ L.name }
    requires parts { blank.parts ≡ L.parts }
    requires some { L.parts ≡ 1 }
    requires fits { length bytes.now < 2 ^ 32 }
{
    let mut line = Vec::new(alloc);
    let mut steps = Steps::<L>::new(blank);
    if let Some(found) = first_fault(alloc, bytes, &mut steps)? {
        put_found(&mut line, "a.xml", bytes, found)?;
    }
    Ok(line)
}

fn told(alloc: Global, text: &str) -> Result<Vec<u8>, AllocError>
    requires fits { length text.now < 2 ^ 32 }
{
    let blank = Blank::new(1);
    told_over::<Brand>(alloc, text.as_bytes(), blank)
}

#[test]
fn faults_are_told_with_place_and_rule(rt: HostRuntime) -> Result<(), Fail> {
    let alloc = rt.alloc();
    for (text, line) in [
        ("<a/>\n", ""),
        (
            "",
            "a.xml:1:1: the file ends here, too early: an element, a tag or other markup is not ended\n",
        ),
        (
            "<a>\n<b></a>",
            "a.xml:2:4: this end-tag does not end the element that is open here\n",
        ),
        (
            "<a>é & b</a>",
            "a.xml:1:6: no reference that may stand here begins with this &\n",
        ),
        ("<a>]]></a>", "a.xml:1:4: ]]> may not stand in a text\n"),
        (
            "<a/>\r\n<b/>",
            "a.xml:2:1: no tag or other markup that may stand here begins with this <\n",
        ),
        (
            "<a/>\rtext",
            "a.xml:1:5: the text that begins here may not stand here\n",
        ),
        (
            "<?xml version='1.0' encoding='latin-1'?><a/>",
            "a.xml:1:1: another encoding than UTF-8 is declared\n",
        ),
    ] {
        if text.len() < 1000 {
            assert_eq!(rt; told(alloc, text)?.as_slice(), line.as_bytes(), "at {text}");
        }
    }
    Ok(())
}
