//! Tables of files: the items that each reads as, with their spans, or its fault, by XML's own rules and beside the contracts.
//!
//! An item is its kind and its span, in bytes from 0; an element is its tag, what it holds, and its end-tag.

ghost use Rattle.std.specs.Prelude.{◌≡◌};

use std::alloc::Global;
use std::marker::Brand;
use std::sync::ledger::{Blank, Ledger};
use std::test::Fail;
use xt_lex::{Span, Steps, text_of};
use xt_read::{Unread, has_content, read_document, read_entity, read_text};
use xt_tree::{Item, Row, Tape};

/// The most bytes of a file here.
const MOST_BYTES: usize = 10_000;

fn add_span(alloc: Global, out: &mut String, kind: &str, span: Span) -> Result<(), Fail> {
    let Span { from, to } = span;
    out.push_str(kind)?;
    out.push_str(format!(in alloc; " {from} {to};")?.as_str())?;
    Ok(())
}

#[cycle(listing)]
fn add_items(alloc: Global, out: &mut String, items: &Row<'_>) -> Result<(), Fail> {
    let mut left = items.again();
    while let Some((item, rest)) = left.split() {
        add_item(alloc, out, &item)?;
        left = rest;
    }
    Ok(())
}

#[cycle(listing)]
fn add_item(alloc: Global, out: &mut String, item: &Item<'_>) -> Result<(), Fail> {
    match item {
        Item::Elem { head, kids, tail } => {
            let kind = if head.empty { "empty" } else { "start" };
            add_span(alloc, out, kind, head.span)?;
            add_items(alloc, out, kids)?;
            match tail {
                Some(span) => add_span(alloc, out, "end", *span),
                None => Ok(()),
            }
        }
        Item::Text(span) => add_span(alloc, out, "text", *span),
        Item::Ref(span) => add_span(alloc, out, "ref", *span),
        Item::Comment(span) => add_span(alloc, out, "comment", *span),
        Item::Pi(span) => add_span(alloc, out, "pi", *span),
        Item::Gap(span) => add_span(alloc, out, "gap", *span),
    }
}

/// The items, or the fault.
fn told(alloc: Global, answer: Result<Tape, Unread>) -> Result<String, Fail> {
    let mut out = String::new(alloc);
    match answer {
        Ok(tape) => add_items(alloc, &mut out, &tape.items())?,
        Err(Unread::NotUtf8 { at }) => {
            out.push_str(format!(in alloc; "not utf8 {at}")?.as_str())?;
        }
        Err(Unread::Encoding) => out.push_str("encoding")?,
        Err(Unread::NotWellFormed { at }) => {
            out.push_str(format!(in alloc; "not well-formed {at}")?.as_str())?;
        }
        Err(Unread::TooDeep) => out.push_str("too deep")?,
        Err(Unread::NoMemory) => out.push_str("no memory")?,
    }
    Ok(out)
}

fn document_over<L: Ledger>(alloc: Global, bytes: &[u8], blank: Blank) -> Result<String, Fail>
    requires name { blank.name ≡ L.name }
    requires parts { blank.parts ≡ L.parts }
    requires some { L.parts ≡ 1 }
{
    let mut steps = Steps::<L>::new(blank);
    if bytes.len() > MOST_BYTES {
        return Ok(String::new(alloc));
    }
    told(alloc, read_document(alloc, bytes, &mut steps))
}

/// What the bytes read as, as a document.
fn document(alloc: Global, bytes: &[u8]) -> Result<String, Fail> {
    let blank = Blank::new(1);
    document_over::<Brand>(alloc, bytes, blank)
}

fn entity_over<L: Ledger>(alloc: Global, bytes: &[u8], blank: Blank) -> Result<String, Fail>
    requires name { blank.name ≡ L.name }
    requires parts { blank.parts ≡ L.parts }
    requires some { L.parts ≡ 1 }
{
    let mut steps = Steps::<L>::new(blank);
    if bytes.len() > MOST_BYTES {
        return Ok(String::new(alloc));
    }
    told(alloc, read_entity(alloc, bytes, &mut steps))
}

/// What the bytes read as, as an external parsed entity.
fn entity(alloc: Global, bytes: &[u8]) -> Result<String, Fail> {
    let blank = Blank::new(1);
    entity_over::<Brand>(alloc, bytes, blank)
}

fn plain_text_over<L: Ledger>(alloc: Global, bytes: &[u8], blank: Blank) -> Result<String, Fail>
    requires name { blank.name ≡ L.name }
    requires parts { blank.parts ≡ L.parts }
    requires some { L.parts ≡ 1 }
{
    let mut steps = Steps::<L>::new(blank);
    if bytes.len() > MOST_BYTES {
        return Ok(String::new(alloc));
    }
    told(alloc, read_text(alloc, bytes, &mut steps))
}

/// What the bytes read as, as a text.
fn plain_text(alloc: Global, bytes: &[u8]) -> Result<String, Fail> {
    let blank = Blank::new(1);
    plain_text_over::<Brand>(alloc, bytes, blank)
}

fn content_over<L: Ledger>(alloc: Global, bytes: &[u8], blank: Blank) -> Result<Option<bool>, Fail>
    requires name { blank.name ≡ L.name }
    requires parts { blank.parts ≡ L.parts }
    requires some { L.parts ≡ 1 }
{
    let mut steps = Steps::<L>::new(blank);
    if bytes.len() > MOST_BYTES {
        return Ok(None);
    }
    let Ok(tape) = read_document(alloc, bytes, &mut steps) else {
        return Ok(None);
    };
    match text_of(bytes) {
        Ok(text) => Ok(Some(has_content(text, &tape.items()))),
        Err(_) => Ok(None),
    }
}

/// Whether the bytes give content by themselves; none where they are no document.
fn content(alloc: Global, bytes: &[u8]) -> Result<Option<bool>, Fail> {
    let blank = Blank::new(1);
    content_over::<Brand>(alloc, bytes, blank)
}

#[test]
fn documents_have_these_items(rt: HostRuntime) -> Result<(), Fail> {
    let alloc = rt.alloc();
    for (text, items) in [
        ("<a/>", "empty 0 4;"),
        (
            " <a>x</a>\n",
            "gap 0 1;start 1 4;text 4 5;end 5 9;gap 9 10;",
        ),
        ("<a b='1' c=\"2\"/>", "empty 0 16;"),
        (
            "<a><b><c/></b></a>",
            "start 0 3;start 3 6;empty 6 10;end 10 14;end 14 18;",
        ),
        ("\u{FEFF}<a/>", "gap 0 3;empty 3 7;"),
        ("<?xml version=\"1.0\"?><a/>", "gap 0 21;empty 21 25;"),
        (
            "\u{FEFF}<?xml version='1.0' encoding='utf-8'?>\n<!--c--><?p d?><!DOCTYPE a><a/>",
            "gap 0 3;gap 3 41;gap 41 42;comment 42 50;pi 50 57;gap 57 69;empty 69 73;",
        ),
        ("<!DOCTYPE a> <a/>", "gap 0 12;gap 12 13;empty 13 17;"),
        (
            "<a/><!--c--> <?p?>",
            "empty 0 4;comment 4 12;gap 12 13;pi 13 18;",
        ),
        (
            "<a>x<![CDATA[<]]>&lt;&#65;y</a>",
            "start 0 3;text 3 27;end 27 31;",
        ),
        (
            "<a>x&e;y</a>",
            "start 0 3;text 3 4;ref 4 7;text 7 8;end 8 12;",
        ),
        (
            "<a>x<!--c-->y</a>",
            "start 0 3;text 3 4;comment 4 12;text 12 13;end 13 17;",
        ),
        ("<a>\u{FEFF}</a>", "start 0 3;text 3 6;end 6 10;"),
    ] {
        assert_eq!(rt;
            document(alloc, text.as_bytes())?.as_str(),
            items,
            "at {text}"
        );
    }
    Ok(())
}

#[test]
fn entities_have_these_items(rt: HostRuntime) -> Result<(), Fail> {
    let alloc = rt.alloc();
    for (text, items) in [
        ("", ""),
        ("x<a/>y", "text 0 1;empty 1 5;text 5 6;"),
        ("<a/><b/>", "empty 0 4;empty 4 8;"),
        ("<?xml encoding='UTF-8'?>x", "gap 0 24;text 24 25;"),
        (
            "<?xml version='1.0' encoding='UTF-8'?><a/>",
            "gap 0 38;empty 38 42;",
        ),
        ("\u{FEFF} x", "gap 0 3;text 3 5;"),
        ("\u{FEFF}\u{FEFF}", "gap 0 3;text 3 6;"),
        ("&e;", "ref 0 3;"),
        ("<!--c--><?p?>", "comment 0 8;pi 8 13;"),
    ] {
        assert_eq!(rt;
            entity(alloc, text.as_bytes())?.as_str(),
            items,
            "at {text}"
        );
    }
    Ok(())
}

#[test]
fn prologs_have_these_faults(rt: HostRuntime) -> Result<(), Fail> {
    let alloc = rt.alloc();
    for (text, fault) in [
        ("", "not well-formed 0"),
        (" ", "not well-formed 1"),
        ("<!--c", "not well-formed 0"),
        (" <?xml version='1.0'?><a/>", "not well-formed 1"),
        ("<!--c--><?xml version='1.0'?><a/>", "not well-formed 8"),
        ("<?xml encoding='UTF-8'?><a/>", "not well-formed 0"),
        ("<?xml encoding='ISO-8859-1'?><a/>", "not well-formed 0"),
        (
            "<?xml version='1.0' encoding='ISO-8859-1'?><a/>",
            "encoding",
        ),
        (
            "\u{FEFF}<?xml version='1.0' encoding='ISO-8859-1'?>x",
            "encoding",
        ),
        ("<?xml version='1.0' encoding=''?><a/>", "not well-formed 0"),
        ("<?XML version='1.0'?><a/>", "not well-formed 0"),
        ("\u{FEFF}\u{FEFF}<a/>", "not well-formed 3"),
        (" \u{FEFF}<a/>", "not well-formed 0"),
        ("<!DOCTYPE a><!DOCTYPE a><a/>", "not well-formed 12"),
        ("<!DOCTYPE a>", "not well-formed 12"),
    ] {
        assert_eq!(rt;
            document(alloc, text.as_bytes())?.as_str(),
            fault,
            "at {text}"
        );
    }
    Ok(())
}

#[test]
fn documents_have_these_faults(rt: HostRuntime) -> Result<(), Fail> {
    let alloc = rt.alloc();
    for (text, fault) in [
        ("<a>", "not well-formed 3"),
        ("</a>", "not well-formed 0"),
        ("<a></b>", "not well-formed 3"),
        ("<a></a></a>", "not well-formed 7"),
        ("<a/><b/>", "not well-formed 4"),
        ("x<a/>", "not well-formed 0"),
        ("<a/> x", "not well-formed 4"),
        ("<a/>\u{FEFF}", "not well-formed 4"),
        ("<![CDATA[x]]><a/>", "not well-formed 0"),
        ("&#32;<a/>", "not well-formed 0"),
        ("<a/>&e;", "not well-formed 4"),
        ("<a/><!DOCTYPE a>", "not well-formed 4"),
        ("<a><!DOCTYPE a></a>", "not well-formed 3"),
        ("<a><?xml version='1.0'?></a>", "not well-formed 3"),
        ("<a/><?xml version='1.0'?>", "not well-formed 4"),
        ("<a>]]></a>", "not well-formed 3"),
        ("<a>x]]></a>", "not well-formed 4"),
        ("<a>&amp</a>", "not well-formed 3"),
        ("<a>\u{1}</a>", "not well-formed 3"),
        ("<a>x\u{ffff}</a>", "not well-formed 4"),
        ("<a><!--c</a>", "not well-formed 3"),
        ("<a b='<'/>", "not well-formed 0"),
        ("<a b='1' b='2'/>", "not well-formed 0"),
        ("<a><b c='' d='' c=''></b></a>", "not well-formed 3"),
        (
            "<a b='' c='' d='' e='' f='' g='' h='' i='' j='' k='' l='' m='' n='' o='' p='' q='' r='' b=''/>",
            "not well-formed 0",
        ),
    ] {
        assert_eq!(rt;
            document(alloc, text.as_bytes())?.as_str(),
            fault,
            "at {text}"
        );
    }
    Ok(())
}

#[test]
fn entities_have_these_faults(rt: HostRuntime) -> Result<(), Fail> {
    let alloc = rt.alloc();
    for (text, fault) in [
        ("</a>", "not well-formed 0"),
        ("x<a>", "not well-formed 4"),
        ("<a></b>", "not well-formed 3"),
        ("]]>", "not well-formed 0"),
        ("\u{FEFF}]]>", "not well-formed 3"),
        ("<!DOCTYPE a>", "not well-formed 0"),
        ("<?xml version='1.0'?>", "not well-formed 0"),
        (
            "<?xml version='1.0' encoding='UTF-8' standalone='yes'?>",
            "not well-formed 0",
        ),
        (
            "<?xml version='1.0' encoding='ISO-8859-1' standalone='yes'?>",
            "not well-formed 0",
        ),
        ("<?xml encoding='ISO-8859-1'?>", "encoding"),
        ("x<?xml encoding='UTF-8'?>", "not well-formed 1"),
    ] {
        assert_eq!(rt;
            entity(alloc, text.as_bytes())?.as_str(),
            fault,
            "at {text}"
        );
    }
    Ok(())
}

#[test]
fn texts_have_one_item_or_this_fault(rt: HostRuntime) -> Result<(), Fail> {
    let alloc = rt.alloc();
    for (text, answer) in [
        ("", ""),
        ("\u{FEFF}", "gap 0 3;"),
        ("a<b>&c;\r\n]]>", "text 0 12;"),
        ("\u{FEFF} x", "gap 0 3;text 3 5;"),
        ("\u{FEFF}\u{FEFF}x", "gap 0 3;text 3 7;"),
        ("x\u{FEFF}y", "text 0 5;"),
        ("<?xml version='1.0' encoding='ISO-8859-1'?>", "text 0 43;"),
        ("\t\u{7F}\u{85}\u{D7FF}\u{E000}\u{10FFFF}", "text 0 14;"),
        ("\u{FFFD}\u{FF01}\u{1FFFE}", "text 0 10;"),
        ("\0", "not well-formed 0"),
        ("<\u{B}", "not well-formed 1"),
        ("x\u{FFFE}", "not well-formed 1"),
        ("\u{FEFF}\u{FFFF}", "not well-formed 3"),
        ("\u{FEFF}x\u{1}", "not well-formed 4"),
        ("\u{E9}\u{1F}z\0", "not well-formed 2"),
        (
            "\u{D7FF}\u{10000}\u{FFFD}\u{FFFF}\u{8}",
            "not well-formed 10",
        ),
    ] {
        assert_eq!(rt;
            plain_text(alloc, text.as_bytes())?.as_str(),
            answer,
            "at {text}"
        );
    }
    Ok(())
}

#[test]
fn bytes_that_are_no_utf8_come_first(rt: HostRuntime) -> Result<(), Fail> {
    let alloc = rt.alloc();
    for (bytes, fault) in [
        (b"<a>\xFF</a>".as_slice(), "not utf8 3"),
        (b"\xC3".as_slice(), "not utf8 0"),
        (b"\xEF\xBB<a/>".as_slice(), "not utf8 0"),
        (b"x\xED\xA0\x80".as_slice(), "not utf8 1"),
        (b"\0\xFF".as_slice(), "not utf8 1"),
        (
            b"<?xml version='1.0' encoding='ISO-8859-1'?>\xE9".as_slice(),
            "not utf8 43",
        ),
    ] {
        assert_eq!(rt; document(alloc, bytes)?.as_str(), fault);
        assert_eq!(rt; entity(alloc, bytes)?.as_str(), fault);
        assert_eq!(rt; plain_text(alloc, bytes)?.as_str(), fault);
    }
    Ok(())
}

/// The first bytes, so many of them.
fn cut(bytes: &[u8], len: usize) -> &[u8] {
    if len <= bytes.len() {
        &bytes[..len]
    } else {
        bytes
    }
}

#[test]
fn a_document_that_is_cut_ends_too_early(rt: HostRuntime) -> Result<(), Fail> {
    let alloc = rt.alloc();
    let text = "\u{FEFF}<?xml version='1.0'?><!--c--><?p?><!DOCTYPE a><a>x<![CDATA[]]></a>\n";
    for (from, to, fault) in [
        (0, 1, "not well-formed 0"),
        (1, 3, "not utf8 0"),
        (3, 24, "not well-formed 3"),
        (24, 32, "not well-formed 24"),
        (32, 37, "not well-formed 32"),
        (37, 49, "not well-formed 37"),
        (49, 52, "not well-formed 49"),
        (52, 53, "not well-formed 52"),
        (53, 65, "not well-formed 53"),
        (65, 69, "not well-formed 65"),
        (
            69,
            70,
            "gap 0 3;gap 3 24;comment 24 32;pi 32 37;gap 37 49;start 49 52;text 52 65;end 65 69;",
        ),
        (
            70,
            71,
            "gap 0 3;gap 3 24;comment 24 32;pi 32 37;gap 37 49;start 49 52;text 52 65;end 65 69;gap 69 70;",
        ),
    ] {
        for len in from..to {
            let bytes = cut(text.as_bytes(), len);
            assert_eq!(rt; document(alloc, bytes)?.as_str(), fault, "at {len}");
        }
    }
    Ok(())
}

/// So many elements, one in the other, round a text.
fn nested(alloc: Global, levels: usize, inner: &str) -> Result<String, Fail> {
    let mut out = String::new(alloc);
    for _ in 0..levels {
        out.push_str("<a>")?;
    }
    out.push_str(inner)?;
    for _ in 0..levels {
        out.push_str("</a>")?;
    }
    Ok(out)
}

/// The fault, or nothing where items were read.
fn fault_alone(told: &str) -> &str {
    if told.starts_with("start ") { "" } else { told }
}

#[test]
fn elements_nest_to_level_128(rt: HostRuntime) -> Result<(), Fail> {
    let alloc = rt.alloc();
    for (levels, inner, fault) in [
        (127, "<b/>", ""),
        (128, "x", ""),
        (128, "<b/>", "too deep"),
        (129, "", "too deep"),
        (129, "]]>", "too deep"),
        (128, "]]><b/>", "not well-formed 384"),
        (128, "<b c='' c=''/>", "too deep"),
        (128, "</b>", "not well-formed 384"),
    ] {
        let text = nested(alloc, levels, inner)?;
        let file = document(alloc, text.as_bytes())?;
        assert_eq!(rt; fault_alone(file.as_str()), fault, "at {levels} {inner}");
        let file = entity(alloc, text.as_bytes())?;
        assert_eq!(rt; fault_alone(file.as_str()), fault, "at {levels} {inner}");
    }
    Ok(())
}

#[test]
fn documents_give_content_by_themselves(rt: HostRuntime) -> Result<(), Fail> {
    let alloc = rt.alloc();
    for (text, gives) in [
        ("<a/>", true),
        ("\n<a>x</a>\n", true),
        ("<a>&amp;&#65;&#x1F600;</a>", true),
        ("<a n=\"&lt;\" m='&quot;&#10;x&apos;'/>", true),
        ("<a><b n='1'/><b n=''>]]<![CDATA[&e;<]]></b></a>", true),
        ("<a><!--&e;--><?p &e;?><?p?><?p   x?></a>", true),
        (
            "\u{FEFF}<?xml version='1.0'?><!--<!DOCTYPE a>--><a/> <?p?>",
            true,
        ),
        ("<p:a xmlns:p='u:1' q:n=''>\r\n</p:a>", true),
        ("<a>&e;</a>", false),
        ("<a><b>x&lt;&lt;y&lte;</b></a>", false),
        ("<a n=\"&e;\"/>", false),
        ("<a n='' m='&lt;&e;'/>", false),
        ("<a><b/><c n='&amp;x&amp;' m='&AMP;'></c></a>", false),
        ("<!DOCTYPE a><a/>", false),
        ("<!DOCTYPE a []><a/>", false),
        (
            "\u{FEFF}<?xml version='1.0'?><!--c-->\n<!DOCTYPE a SYSTEM 'u:1'><a/>",
            false,
        ),
    ] {
        assert_eq!(rt; content(alloc, text.as_bytes())?, Some(gives), "at {text}");
    }
    for text in ["<a n='&#0;'/>", "<a>&amp</a>", "x"] {
        assert_eq!(rt; content(alloc, text.as_bytes())?, None, "at {text}");
    }
    Ok(())
}
