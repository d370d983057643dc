//! Edits of small files, from bytes to bytes.
ghost use Rattle.std.specs.Prelude.{◌≡◌, ◌^◌, ◌<◌, length, IfOk};
ghost use Rattle.xt_tree.specs.Meaning.{items_in};
ghost use Rattle.xt_tree.specs.Places.{marks_of, AreInPlace};
ghost use Rattle.ed_text.specs.TextPlace.{IsTextAt};

use ed_text::{is_text_at, text_patch};
use std::alloc::Global;
use std::marker::Brand;
use std::sync::ledger::{Blank, Ledger};
use std::test::Fail;
use xt_lex::Steps;
use xt_read::{read_document, read_text};
use xt_tree::{Row, splice};

/// The file with this value at the path; as it is, where no text is there.
fn with_text(
    alloc: Global,
    file: &[u8],
    items: &Row<'_>,
    path: &[u32],
    value: &str,
    plain: bool,
) -> Result<Vec<u8>, Fail>
    requires place { AreInPlace file.now 0 (marks_of items.now) (length file.now) }
{
    let mut bytes = Vec::from_slice(alloc, file)?;
    if is_text_at(items, path) {
        let patch = text_patch(alloc, file, items, path, value, plain)?;
        splice(&mut bytes, &patch)?;
    }
    Ok(bytes)
}

fn edited_over<L: Ledger>(
    alloc: Global,
    file: &[u8],
    path: &[u32],
    value: &String,
    blank: Blank,
) -> Result<Vec<u8>, Fail>
    requires fits { length file.now < 2 ^ 32 }
    requires name { blank.name ≡ L.name }
    requires parts { blank.parts ≡ L.parts }
    requires some { L.parts ≡ 1 }
{
    let mut steps = Steps::<L>::new(blank);
    let tape = read_document(alloc, file, &mut steps)?;
    with_text(alloc, file, &tape.items(), path, value.as_str(), false)
}

/// The document with this value at the path.
fn edited(alloc: Global, file: &str, path: &[u32], value: &str) -> Result<Vec<u8>, Fail>
    requires fits { length file.now < 2 ^ 32 }
{
    let value = String::from_str(alloc, value)?;
    let blank = Blank::new(1);
    edited_over::<Brand>(alloc, file.as_bytes(), path, &value, blank)
}

#[test]
fn a_text_has_a_new_value(rt: HostRuntime) -> Result<(), Fail> {
    let file = "<a>x<b/>y&amp;z</a>";
    for (path, value, after) in [
        ([0, 0].as_slice(), "new", "<a>new<b/>y&amp;z</a>"),
        (
            [0, 2].as_slice(),
            "a<b & c]",
            "<a>x<b/>a&lt;b &amp; c&#93;</a>",
        ),
        ([0, 2].as_slice(), "\n\n]é", "<a>x<b/>&#10;\n]é</a>"),
        ([0, 0].as_slice(), "", "<a><b/>y&amp;z</a>"),
        ([0, 2].as_slice(), "", "<a>x<b/></a>"),
        ([0, 1].as_slice(), "new", file),
        ([0].as_slice(), "new", file),
        ([0, 3].as_slice(), "new", file),
    ] {
        let bytes = edited(rt.alloc(), file, path, value)?;
        assert_eq!(rt; bytes.as_slice(), after.as_bytes(), "at {path:?} {value}");
    }
    Ok(())
}

#[test]
fn a_whole_document_has_a_new_value(rt: HostRuntime) -> Result<(), Fail> {
    let file =
        "\u{FEFF}<?xml version='1.0'?>\r\n<!DOCTYPE a>\r\n<a>x<![CDATA[<y>]]>&#13;\r\nz<?p q?>w<!--c--></a>\r\n";
    for (path, value, after) in [
        (
            [5, 0].as_slice(),
            "a\r\nb",
            "\u{FEFF}<?xml version='1.0'?>\r\n<!DOCTYPE a>\r\n<a>a&#13;\nb<?p q?>w<!--c--></a>\r\n",
        ),
        (
            [5, 2].as_slice(),
            "",
            "\u{FEFF}<?xml version='1.0'?>\r\n<!DOCTYPE a>\r\n<a>x<![CDATA[<y>]]>&#13;\r\nz<?p q?><!--c--></a>\r\n",
        ),
        ([5, 3].as_slice(), "new", file),
        ([2].as_slice(), "new", file),
    ] {
        let bytes = edited(rt.alloc(), file, path, value)?;
        assert_eq!(rt; bytes.as_slice(), after.as_bytes(), "at {path:?} {value}");
    }
    Ok(())
}

#[test]
fn a_file_of_text_has_its_value_as_it_is(rt: HostRuntime) -> Result<(), Fail> {
    for value in ["a&b", "", "]"] {
        let bytes = text_file(rt.alloc(), b"a<b", &[0], value)?;
        assert_eq!(rt; bytes.as_slice(), value.as_bytes());
    }
    Ok(())
}

/// The most bytes of a file that is read as a text here.
const MOST_BYTES: usize = 1_000;

fn text_file_over<L: Ledger>(
    alloc: Global,
    file: &[u8],
    path: &[u32],
    value: &String,
    blank: Blank,
) -> Result<Vec<u8>, Fail>
    requires name { blank.name ≡ L.name }
    requires parts { blank.parts ≡ L.parts }
    requires some { L.parts ≡ 1 }
{
    let mut steps = Steps::<L>::new(blank);
    if file.len() > MOST_BYTES {
        return Ok(Vec::new(alloc));
    }
    let tape = read_text(alloc, file, &mut steps)?;
    with_text(alloc, file, &tape.items(), path, value.as_str(), true)
}

/// The file that is read as a text, with this value at the path.
fn text_file(alloc: Global, file: &[u8], path: &[u32], value: &str) -> Result<Vec<u8>, Fail> {
    let value = String::from_str(alloc, value)?;
    let blank = Blank::new(1);
    text_file_over::<Brand>(alloc, file, path, &value, blank)
}

fn has_text_over<L: Ledger>(
    alloc: Global,
    file: &[u8],
    path: &[u32],
    blank: Blank,
) -> Result<bool, Fail>
    requires name { blank.name ≡ L.name }
    requires parts { blank.parts ≡ L.parts }
    requires some { L.parts ≡ 1 }
{
    let mut steps = Steps::<L>::new(blank);
    if file.len() > MOST_BYTES {
        return Ok(false);
    }
    let tape = read_text(alloc, file, &mut steps)?;
    Ok(is_text_at(&tape.items(), path))
}

/// Whether the file, read as a text, has one at the path.
fn has_text(alloc: Global, file: &[u8], path: &[u32]) -> Result<bool, Fail> {
    let blank = Blank::new(1);
    has_text_over::<Brand>(alloc, file, path, blank)
}

#[test]
fn a_file_of_text_keeps_its_byte_order_mark(rt: HostRuntime) -> Result<(), Fail> {
    let alloc = rt.alloc();
    for (file, path, value, after, stays) in [
        ("\u{FEFF}a<b", [1].as_slice(), "a&b", "\u{FEFF}a&b", true),
        (
            "\u{FEFF}x",
            [1].as_slice(),
            "\u{FEFF}y",
            "\u{FEFF}\u{FEFF}y",
            true,
        ),
        ("\u{FEFF}x", [1].as_slice(), "", "\u{FEFF}", false),
        ("\u{FEFF}x", [0].as_slice(), "y", "\u{FEFF}x", false),
        ("x", [0].as_slice(), "y\u{FEFF}", "y\u{FEFF}", true),
        ("x", [0].as_slice(), "\u{FEFF}y", "\u{FEFF}y", false),
    ] {
        let bytes = text_file(alloc, file.as_bytes(), path, value)?;
        assert_eq!(rt; bytes.as_slice(), after.as_bytes(), "at {path:?} {value}");
        assert_eq!(rt;
            has_text(alloc, bytes.as_slice(), path)?,
            stays,
            "at {path:?} {value}"
        );
    }
    Ok(())
}
