use super::{Case, Want, check, over};
use std::alloc::Global;
use std::process::Abort;
use std::test::Fail;

/// Tags and elements that are none.
const TAGS: &[&str] = &[
    "<a>",
    "<a",
    "<a></a",
    "</a>",
    "<a></b>",
    "<a></a b=''>",
    "<a></1>",
    "<1/>",
    "< a/>",
    "<a/ >",
    "<a:b:c/>",
    "<a b='1' b='2'/>",
    "<a b='1'c='2'/>",
    "<a b/>",
    "<a b=1/>",
    "<a ='1'/>",
    "<a b='1/>",
    "<a b='<'/>",
    "<a b='&'/>",
    "<a b='\u{1}'/>",
];

/// References and characters that are none.
const CHARACTERS: &[&str] = &[
    "<a>]]></a>",
    "<a>\u{1}</a>",
    "<a>\u{FFFE}</a>",
    "<a>&;</a>",
    "<a>&amp</a>",
    "<a>& amp;</a>",
    "<a>&a:b;</a>",
    "<a>&#;</a>",
    "<a>&#x;</a>",
    "<a>&#X41;</a>",
    "<a>&#38</a>",
    "<a>&#0;</a>",
    "<a>&#xD800;</a>",
    "<a>&#x110000;</a>",
];

/// CDATA sections, comments and processing instructions that are none, or where they may not stand.
const MARKUP: &[&str] = &[
    "<a><![CDATA[x</a>",
    "<a><![cdata[]]></a>",
    "<a><![CDATA[\u{1}]]></a>",
    "<![CDATA[]]><a/>",
    "<a><!--c--->\n</a>",
    "<a><!--a--b--></a>",
    "<a><!--x</a>",
    "<a><!--></a>",
    "<a><!--\u{1}--></a>",
    "<a><?p</a>",
    "<a><?a:b?></a>",
    "<a><? a?></a>",
    "<a><?a?b?></a>",
    "<a><?XmL a?></a>",
    "<a><?p \u{1}?></a>",
];

/// DOCTYPE declarations that are none, or where they may not stand.
const DOCTYPES: &[&str] = &[
    "<!DOCTYPE a",
    "<!DOCTYPE><a/>",
    "<!doctype a><a/>",
    "<!DOCTYPE a [><a/>",
    "<!DOCTYPE a SYSTEM><a/>",
    "<!DOCTYPE a PUBLIC 'p'><a/>",
    "<!DOCTYPE a PUBLIC '{' 's'><a/>",
    "<!DOCTYPE a><!DOCTYPE a><a/>",
    "<a/><!DOCTYPE a>",
    "<a><!DOCTYPE a></a>",
];

/// XML declarations that are none, or where they may not stand.
const DECLARATIONS: &[&str] = &[
    "<?xml?><a/>",
    "<?xml version='2.0'?><a/>",
    "<?xml version='1.'?><a/>",
    "<?xml version='1.0\"?><a/>",
    "<?XML version='1.0'?><a/>",
    "<?xml encoding='utf-8'?><a/>",
    "<?xml encoding='utf-8' version='1.0'?><a/>",
    "<?xml version='1.0'encoding='utf-8'?><a/>",
    "<?xml version='1.0' encoding=''?><a/>",
    "<?xml version='1.0' encoding='8-x'?><a/>",
    "<?xml version='1.0' standalone='maybe'?><a/>",
    "<?xml version='1.0' standalone='yes' encoding='utf-8'?><a/>",
    " <?xml version='1.0'?><a/>",
    "<!--c--><?xml version='1.0'?><a/>",
    "<?xml version='1.0'?><?xml version='1.0'?><a/>",
    "<a><?xml version='1.0'?></a>",
];

/// What may not stand at the top of a document, and documents without an element.
const TOPS: &[&str] = &[
    "",
    " ",
    "a",
    "<!--c-->",
    "<?xml version='1.0'?>",
    "x<a/>",
    "<a/>x",
    "<a/><b/>",
    "&amp;<a/>",
    "<a/>&x;",
    "<a/>&#32;",
    " \u{FEFF}<a/>",
    "\u{FEFF}\u{FEFF}<a/>",
    "<a/>\u{FEFF}",
];

/// Bytes that are no UTF-8, and documents that declare another encoding, whatever follows.
const ENCODINGS: &[&[u8]] = &[
    b"<a>\xFF</a>",
    b"<a>\xC3</a>",
    b"<a>\xC0\x80</a>",
    b"<a>\xED\xA0\x80</a>",
    b"<a>\xF4\x90\x80\x80</a>",
    b"<a/>\xE2\x82",
    b"\xEF\xBB<a/>",
    b"\xFF\xFE<\0a\0/\0>\0",
    b"\xFE\xFF\0<\0a\0/\0>",
    b"<?xml version=\"1.0\" encoding=\"ISO-8859-1\"?><a/>",
    b"<?xml version='1.0' encoding='UTF-16'?><a/>",
    b"<?xml version='1.0' encoding='utf8'?><a/>",
    b"<?xml version='1.0' encoding='US-ASCII'?><a",
    b"\xEF\xBB\xBF<?xml version='1.0' encoding='latin1'?><a/>",
];

/// Documents that read, and what is told of why they do not open.
const CLOSED: &[(&[u8], &str)] = &[
    (b"<a>&x;</a>", "fault NotYet book.xml\n"),
    (b"<a b='&x;'/>", "fault NotYet book.xml\n"),
    (b"<!DOCTYPE a><a/>", "fault NotYet book.xml\n"),
    (
        b"<!DOCTYPE a [<!ENTITY x 'y'>]><p:a>&x;</p:a>",
        "fault NotYet book.xml\n",
    ),
    (b"<p:a><b>&x;</b></p:a>", "fault NotYet book.xml\n"),
    (b"<p:a/>", "fault Unbound book.xml p\n"),
    (b"<a p:n='1'/>", "fault Unbound book.xml p\n"),
    (b"<p:a q:n='1'/>", "fault Unbound book.xml p\n"),
    (b"<xmlns:a/>", "fault Unbound book.xml xmlns\n"),
    (
        b"<a><b xmlns:p='u:1'/><p:c/></a>",
        "fault Unbound book.xml p\n",
    ),
    (b"<a xmlns:p=\"\"/>", "fault BadNamespace book.xml\n"),
    (b"<q:a xmlns:p=\"\"/>", "fault BadNamespace book.xml\n"),
    (b"<a xmlns:xml='u:1'/>", "fault BadNamespace book.xml\n"),
    (
        b"<a xmlns='http://www.w3.org/XML/1998/namespace'/>",
        "fault BadNamespace book.xml\n",
    ),
    (
        b"<a xmlns:p='http://www.w3.org/2000/xmlns/'/>",
        "fault BadNamespace book.xml\n",
    ),
    (b"<a xmlns:xmlns='u:1'/>", "fault BadNamespace book.xml\n"),
    (
        b"<a xmlns:p=\"u:1\" xmlns:q=\"u:1\" p:n=\"\" q:n=\"\"/>",
        "fault DuplicateAttribute book.xml\n",
    ),
    (
        b"<a xml:base=\"http://[\"></a>",
        "fault BadReference book.xml\n",
    ),
    (
        b"<a><b xml:base='http://['/><p:c/></a>",
        "fault BadReference book.xml\n",
    ),
    (
        b"<a xmlns:xi='http://www.w3.org/2001/XInclude'><xi:include href='b.xml'/></a>",
        "fault NotYet book.xml\n",
    ),
    (
        b"<a xmlns:xi='http://www.w3.org/2001/XInclude'><xi:include href='b.xml'/><p:c/></a>",
        "fault Unbound book.xml p\n",
    ),
    (
        b"<a xmlns:p='http://www.w3.org/XML/1998/namespace'/>",
        "fault BadNamespace book.xml\n",
    ),
    (
        b"<a xmlns='http://www.w3.org/2000/xmlns/'/>",
        "fault BadNamespace book.xml\n",
    ),
    (
        b"<a xmlns:xmlns='http://www.w3.org/2000/xmlns/'/>",
        "fault BadNamespace book.xml\n",
    ),
    (b"<a xmlns:xml=''/>", "fault BadNamespace book.xml\n"),
    (
        b"<a><b xmlns:p='u:1' xmlns:q='u:1' p:n='' q:n=''/></a>",
        "fault DuplicateAttribute book.xml\n",
    ),
];

/// A document with something of each kind; its element ends at byte 110.
const WHOLE: &str =
    "\u{FEFF}<?xml version='1.0'?>\r\n<!--é--><p:a xmlns:p='u:1' p:n='&lt;&#x3e;'>x&amp;中<![CDATA[<]]><b/><?q r?></p:a>\n<?z?>";

/// What is told of a document that is no well-formed one.
const NOT_WELL_FORMED: &str = "fault NotWellFormed book.xml\n";

/// What is told of bytes that are no UTF-8, and of another encoding.
const ENCODING: &str = "fault Encoding book.xml\n";

/// What is told of it where it opens, but for its last line.
const OPENED: &str =
    "comment \"é\" in book.xml\nelement {u:1}a in book.xml\n  base file:///book/book.xml\n  attribute {u:1}n=\"<>\"\n  text \"x&中<\" in book.xml\n  element b in book.xml\n  pi q \"r\" in book.xml\n";

/// A run over a file that does not open: this line is told, and the commands are not carried out.
fn check_closed(
    rt: &impl Abort,
    alloc: Global,
    document: Option<&[u8]>,
    line: &str,
    at: &str,
) -> Result<(), Fail> {
    let case = Case {
        root: document,
        ..over("", "burst")
    };
    let want = Want {
        status: 3,
        told: &[line],
        calls: 4,
        root: case.root,
    };
    check(rt, alloc, &case, &want, at)
}

/// Each of these documents is no well-formed one.
fn check_broken(rt: &impl Abort, alloc: Global, documents: &[&str]) -> Result<(), Fail> {
    for document in documents {
        check_closed(
            rt,
            alloc,
            Some(document.as_bytes()),
            NOT_WELL_FORMED,
            document,
        )?;
    }
    Ok(())
}

#[test]
fn a_file_that_is_not_well_formed_is_told_so(rt: HostRuntime) -> Result<(), Fail> {
    let alloc = rt.alloc();
    check_broken(&rt, alloc, TAGS)?;
    check_broken(&rt, alloc, CHARACTERS)?;
    check_broken(&rt, alloc, MARKUP)?;
    check_broken(&rt, alloc, DOCTYPES)?;
    check_broken(&rt, alloc, DECLARATIONS)?;
    check_broken(&rt, alloc, TOPS)
}

#[test]
fn a_file_of_another_encoding_is_told_so(rt: HostRuntime) -> Result<(), Fail> {
    for document in ENCODINGS {
        check_closed(&rt, rt.alloc(), Some(document), ENCODING, "no UTF-8")?;
    }
    Ok(())
}

#[test]
fn a_file_that_does_not_open_is_told_with_its_first_fault(rt: HostRuntime) -> Result<(), Fail> {
    for (document, line) in CLOSED {
        check_closed(&rt, rt.alloc(), Some(document), line, line)?;
    }
    Ok(())
}

/// Each length of the document from the first to before the second.
fn check_lengths(
    rt: &impl Abort,
    alloc: Global,
    from: usize,
    to: usize,
    line: &str,
) -> Result<(), Fail> {
    for len in from..to {
        check_closed(rt, alloc, WHOLE.as_bytes().get(..len), line, "a front")?;
    }
    Ok(())
}

#[test]
fn a_document_that_is_cut_is_told_with_its_first_fault(rt: HostRuntime) -> Result<(), Fail> {
    for (from, to, line) in [
        (0, 1, NOT_WELL_FORMED),
        (1, 3, ENCODING),
        (3, 31, NOT_WELL_FORMED),
        (31, 32, ENCODING),
        (32, 78, NOT_WELL_FORMED),
        (78, 80, ENCODING),
        (80, 110, NOT_WELL_FORMED),
        (112, 116, NOT_WELL_FORMED),
    ] {
        check_lengths(&rt, rt.alloc(), from, to, line)?;
    }
    Ok(())
}

#[test]
fn a_document_that_is_cut_behind_its_element_opens(rt: HostRuntime) -> Result<(), Fail> {
    for (len, last) in [(110, ""), (111, ""), (116, "pi z \"\" in book.xml\n")] {
        let case = Case {
            root: WHOLE.as_bytes().get(..len),
            ..over("", "")
        };
        let want = Want {
            status: 0,
            told: &[OPENED, last],
            calls: 4,
            root: case.root,
        };
        check(&rt, rt.alloc(), &case, &want, last)?;
    }
    Ok(())
}
