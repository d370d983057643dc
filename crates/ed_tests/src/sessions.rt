//! Sessions over a disk in memory: how they begin, what an edit makes of the bytes, what a burst writes.
ghost use Rattle.std.specs.Prelude.{◌≡◌};

use bk_desk::{Desk, DeskErr, DeskName, MemDesk};
use bk_info::{BookFault, Node};
use bk_name::Name;
use bk_script::{Command, read_script};
use ed_edit::Edit;
use ed_session::{EditFault, Refusal, Session, StartFault, start};
use jr_burst::is_closed;
use jr_form::{Item, are_writable, write_journal};
use std::alloc::{AllocError, Global};
use std::marker::Brand;
use std::sync::ledger::{Blank, Ledger};
use std::test::Fail;
use xt_lex::Steps;
use xt_table::Seq;

const ROOT: &[u8] = b"book.xml";

fn book(alloc: Global) -> Result<DeskName, Fail> {
    Ok(DeskName::Book(Name::read(alloc, ROOT)?))
}

/// A desk with the root, where there is one; the calls of these numbers fail.
fn desk_with(alloc: Global, root: Option<&[u8]>, fails: &[u64]) -> Result<MemDesk, Fail> {
    let mut files = Vec::new(alloc);
    if let Some(bytes) = root {
        files.push((book(alloc)?, Vec::from_slice(alloc, bytes)?))?;
    }
    Ok(MemDesk::new(alloc, files, Vec::from_slice(alloc, fails)?)?)
}

fn start_over<L: Ledger>(
    alloc: Global,
    desk: &mut MemDesk,
    root: &Name,
    blank: Blank,
) -> Result<Session, StartFault>
    requires name { blank.name ≡ L.name }
    requires parts { blank.parts ≡ L.parts }
    requires some { L.parts ≡ 1 }
{
    let mut steps = Steps::<L>::new(blank);
    start(alloc, desk, root, &mut steps)
}

fn start_on(alloc: Global, desk: &mut MemDesk, root: &Name) -> Result<Session, StartFault> {
    let blank = Blank::new(1);
    start_over::<Brand>(alloc, desk, root, blank)
}

/// What a start on this desk answers. Want of memory is handed on.
fn started(alloc: Global, desk: &mut MemDesk) -> Result<Result<Session, StartFault>, Fail> {
    let root = Name::read(alloc, ROOT)?;
    match start_on(alloc, desk, &root) {
        Err(StartFault::NoMemory) => Err(Fail::from(AllocError)),
        answer => Ok(answer),
    }
}

fn edit_over<L: Ledger>(session: &mut Session, edit: &Edit, blank: Blank) -> Result<(), EditFault>
    requires name { blank.name ≡ L.name }
    requires parts { blank.parts ≡ L.parts }
    requires some { L.parts ≡ 1 }
{
    let mut steps = Steps::<L>::new(blank);
    session.edit(edit, &mut steps)
}

fn edit_once(session: &mut Session, edit: &Edit) -> Result<(), EditFault> {
    let blank = Blank::new(1);
    edit_over::<Brand>(session, edit, blank)
}

/// Makes the edits of a script, of which the last answers. Want of memory is handed on.
fn edit(alloc: Global, session: &mut Session, script: &str) -> Result<Option<Refusal>, Fail> {
    let mut last = None;
    for command in &read_script(alloc, script.as_bytes())? {
        if let Command::Edit(asked) = command {
            last = match edit_once(session, asked) {
                Ok(()) => None,
                Err(EditFault::Refused(refusal)) => Some(refusal),
                Err(EditFault::NoMemory) => return Err(Fail::from(AllocError)),
            };
        }
    }
    Ok(last)
}

/// A burst on a closed gate. It answers how many files were written.
fn burst(session: &mut Session, desk: &mut MemDesk) -> Result<Result<u32, DeskErr>, Fail> {
    match is_closed(desk) {
        Ok(true) => Ok(session.burst(desk)),
        Ok(false) => Err(Fail::from(AllocError)),
        Err(e) => Ok(Err(e)),
    }
}

/// The last answer to a script of edits of this root, and the bytes afterwards.
#[derive(Drop)]
struct Edited {
    answer: Option<Refusal>,
    bytes: Vec<u8>,
}

fn edits(alloc: Global, root: &[u8], script: &str) -> Result<Edited, Fail> {
    let mut desk = desk_with(alloc, Some(root), &[])?;
    let mut session = started(alloc, &mut desk)??;
    let answer = edit(alloc, &mut session, script)?;
    Ok(Edited {
        answer,
        bytes: Vec::from_slice(alloc, session.bytes())?,
    })
}

/// The name of a fault of a document of one file, and the file that it tells of.
fn fault_of(fault: &BookFault) -> (&'static str, &str) {
    match fault {
        BookFault::Missing { file } => ("Missing", file.as_str()),
        BookFault::TooLarge { file } => ("TooLarge", file.as_str()),
        BookFault::Encoding { file } => ("Encoding", file.as_str()),
        BookFault::NotWellFormed { file } => ("NotWellFormed", file.as_str()),
        BookFault::TooDeep { file } => ("TooDeep", file.as_str()),
        BookFault::NotYet { file } => ("NotYet", file.as_str()),
        BookFault::BadNamespace { file } => ("BadNamespace", file.as_str()),
        BookFault::Unbound { file, .. } => ("Unbound", file.as_str()),
        BookFault::DuplicateAttribute { file } => ("DuplicateAttribute", file.as_str()),
        BookFault::BadReference { file } => ("BadReference", file.as_str()),
        _ => ("another", ""),
    }
}

/// Why there is no session; empty where there is one.
fn cause_of(answer: &Result<Session, StartFault>) -> &'static str {
    match answer {
        Ok(_) => "",
        Err(StartFault::Desk) => "desk",
        Err(StartFault::Journal) => "journal",
        Err(StartFault::NoMemory) => "memory",
        Err(StartFault::Book(fault)) => fault_of(fault).0,
    }
}

/// How many nodes stand at the top, and in the element among them.
fn counted(nodes: &[Node]) -> (usize, usize) {
    let mut held = 0;
    for node in nodes {
        if let Node::Elem { kids, .. } = node {
            held = kids.as_slice().len();
        }
    }
    (nodes.len(), held)
}

// The nodes after a script are those of the bytes then.
#[test]
fn a_whole_document_opens(rt: HostRuntime) -> Result<(), Fail> {
    let alloc = rt.alloc();
    for (root, script, at_top, held) in [
        ("<a>x</a>", "", 1, 1),
        ("<a/>", "", 1, 0),
        (
            "\u{FEFF}<?xml version='1.0' encoding=\"utf-8\"?>\r\n<!--c-->\r\n<?p i?><a>x</a>\r\n<?q?>\r\n",
            "",
            4,
            1,
        ),
        (
            "<n:a xmlns:n='urn:n' xml:base='b/' xml:lang='en'>x<![CDATA[<]]>\r\n<n:b/><!--c-->&#13;</n:a>",
            "",
            1,
            4,
        ),
        ("<a><![CDATA[]]><b/><![CDATA[]]><![CDATA[]]></a>", "", 1, 1),
        ("<a>x<b/>y</a>", "text /1/3 0 1 \"z\"", 1, 3),
        ("<a>x<b/>y</a>", "text /1/3 0 1 \"\"", 1, 2),
    ] {
        let mut desk = desk_with(alloc, Some(root.as_bytes()), &[])?;
        let mut session = started(alloc, &mut desk)??;
        assert_eq!(rt; session.bytes(), root.as_bytes());
        edit(alloc, &mut session, script)?;
        let opened = session.into_opened()?;
        assert_eq!(rt;
            counted(opened.nodes.as_slice()),
            (at_top, held),
            "at {root}"
        );
    }
    Ok(())
}

#[test]
fn a_book_that_does_not_open_has_its_first_fault(rt: HostRuntime) -> Result<(), Fail> {
    let alloc = rt.alloc();
    for (root, want) in [
        (None, "Missing"),
        (Some(b"".as_slice()), "NotWellFormed"),
        (Some(b"<a>".as_slice()), "NotWellFormed"),
        (Some(b"<a>\xFF</a>".as_slice()), "Encoding"),
        (
            Some(b"<?xml version='1.0' encoding='latin1'?><a/>".as_slice()),
            "Encoding",
        ),
        (Some(b"<!DOCTYPE a><a/>".as_slice()), "NotYet"),
        (Some(b"<a>&e;</a>".as_slice()), "NotYet"),
        (
            Some(b"<a><i xmlns='http://www.w3.org/2001/XInclude'/></a>".as_slice()),
            "NotYet",
        ),
        (Some(b"<a xmlns:p=''/>".as_slice()), "BadNamespace"),
        (Some(b"<a><p:b/></a>".as_slice()), "Unbound"),
        (
            Some(b"<a xmlns:p='u' xmlns:q='u' p:x='' q:x=''/>".as_slice()),
            "DuplicateAttribute",
        ),
        (Some(b"<a xml:base='http://['/>".as_slice()), "BadReference"),
    ] {
        let mut desk = desk_with(alloc, root, &[])?;
        let answer = started(alloc, &mut desk)?;
        assert_eq!(rt; cause_of(&answer), want, "at {root:?}");
        if let Err(StartFault::Book(fault)) = &answer {
            assert_eq!(rt; fault_of(fault).1.as_bytes(), ROOT);
        }
        assert_eq!(rt; desk.calls(), 3, "at {root:?}");
    }
    Ok(())
}

// An element at level 129, and a file of 4,194,305 bytes.
#[test]
fn a_root_is_not_too_deep_and_not_too_long(rt: HostRuntime) -> Result<(), Fail> {
    let alloc = rt.alloc();
    for (front, count, want) in [
        ("<a>", 129, "TooDeep"),
        ("<a>", 128, "NotWellFormed"),
        (" ", 4_194_305, "TooLarge"),
        (" ", 4_194_304, "NotWellFormed"),
    ] {
        let root = front.repeat(alloc, count)?;
        let mut desk = desk_with(alloc, Some(root.as_bytes()), &[])?;
        assert_eq!(rt;
            cause_of(&started(alloc, &mut desk)?),
            want,
            "{front} {count}"
        );
    }
    Ok(())
}

#[test]
fn a_disk_that_fails_gives_no_session(rt: HostRuntime) -> Result<(), Fail> {
    let alloc = rt.alloc();
    for call in [1, 3] {
        let mut desk = desk_with(alloc, Some(b"<a>x</a>"), &[call])?;
        assert_eq!(rt; cause_of(&started(alloc, &mut desk)?), "desk");
        assert_eq!(rt; desk.calls(), call);
    }
    Ok(())
}

/// A desk with an open gate, and this journal.
fn stopped(alloc: Global, journal: &[u8]) -> Result<MemDesk, Fail> {
    let mut desk = desk_with(alloc, Some(b"<a>old</a>"), &[])?;
    desk.write_file(&DeskName::Journal, journal)?;
    desk.write_file(&DeskName::Gate, b"OPEN")?;
    Ok(desk)
}

#[test]
fn a_book_is_recovered_before_it_opens(rt: HostRuntime) -> Result<(), Fail> {
    let alloc = rt.alloc();
    let mut items = Vec::new(alloc);
    items.push(Item {
        name: Name::read(alloc, ROOT)?,
        bytes: Some(Seq::from_vec(Vec::from_slice(alloc, b"<a>new</a>")?)),
    })?;
    assert!(rt; are_writable(&items));
    let journal = write_journal(alloc, &items)?;
    let mut desk = stopped(alloc, &journal)?;
    let session = started(alloc, &mut desk)??;
    assert_eq!(rt; session.bytes(), b"<a>new</a>".as_slice());
    assert_eq!(rt; desk.file(&book(alloc)?), Some(b"<a>new</a>".as_slice()));

    let mut damaged = stopped(alloc, b"BKBURST1")?;
    let answer = started(alloc, &mut damaged)?;
    assert_eq!(rt; cause_of(&answer), "journal");
    assert_eq!(rt; damaged.file(&book(alloc)?), Some(b"<a>old</a>".as_slice()));
    assert_eq!(rt; damaged.file(&DeskName::Gate), Some(b"OPEN".as_slice()));
    Ok(())
}

// Every other byte stays; a text that is edited is written anew, and a place counts nodes of the tree as it is then.
#[test]
fn an_edit_changes_the_bytes_of_its_text_alone(rt: HostRuntime) -> Result<(), Fail> {
    for (root, script, after) in [
        ("<a>x</a>", "text /1/1 0 1 \"new\"", "<a>new</a>"),
        (
            "\n <a b='1'  c = \"&lt;2\" >x&#38;y<i/>p&#113;r</a >\n",
            "text /1/3 1 2 \"Q\"",
            "\n <a b='1'  c = \"&lt;2\" >x&#38;y<i/>pQr</a >\n",
        ),
        (
            "<a>x<b/>y&#38;z</a>",
            "text /1/3 0 1 \"<\"",
            "<a>x<b/>&lt;&amp;z</a>",
        ),
        (
            "<a>x<b>yz</b></a>",
            "text /1/2/1 1 1 \"-\"",
            "<a>x<b>y-z</b></a>",
        ),
        ("<a>é€😀z</a>", "text /1/1 1 3 \"-\"", "<a>é-z</a>"),
        ("<a>x</a>", "text /1/1 1 1 \"]\"", "<a>x&#93;</a>"),
        ("<a>x]</a>", "text /1/1 2 2 \"y\"", "<a>x]y</a>"),
        ("<a>x</a>", "text /1/1 0 0 \"\\n\"", "<a>&#10;x</a>"),
        ("<a>x</a>", "text /1/1 1 1 \"\\n\\r\"", "<a>x\n&#13;</a>"),
        (
            "<a>x<![CDATA[<]]>y<b/>x<![CDATA[<]]></a>",
            "text /1/3 0 1 \"\"",
            "<a>x<![CDATA[<]]>y<b/>&lt;</a>",
        ),
        (
            "<a>x\r\ny<b/>x\r\ny</a>\r\n",
            "text /1/3 0 1 \"X\"",
            "<a>x\r\ny<b/>X\ny</a>\r\n",
        ),
        (
            "\u{FEFF}<?xml version='1.0'?>\r\n<!-- é --><a\r\n b='&lt;\r\n'><![CDATA[x]]>\r\n<?p i?>t<!--c--></a >\r\n<?q?>",
            "text /2/3 0 1 \"T\"",
            "\u{FEFF}<?xml version='1.0'?>\r\n<!-- é --><a\r\n b='&lt;\r\n'><![CDATA[x]]>\r\n<?p i?>T<!--c--></a >\r\n<?q?>",
        ),
        (
            "<a><![CDATA[]]><b/>x<c/><![CDATA[]]></a>",
            "text /1/2 0 1 \"y\"",
            "<a><![CDATA[]]><b/>y<c/><![CDATA[]]></a>",
        ),
        ("<a>x<b/>y</a>", "text /1/1 0 1 \"\"", "<a><b/>y</a>"),
        (
            "<a>x<b/>y</a>",
            "text /1/1 0 1 \"\"\ntext /1/2 0 1 \"z\"",
            "<a><b/>z</a>",
        ),
    ] {
        let edited = edits(rt.alloc(), root.as_bytes(), script)?;
        assert_eq!(rt; edited.answer, None, "at {script}");
        assert_eq!(rt; edited.bytes.as_slice(), after.as_bytes(), "at {script}");
    }
    Ok(())
}

// Where two tests hold, the first one counts.
#[test]
fn an_edit_is_refused_by_the_first_test_that_holds(rt: HostRuntime) -> Result<(), Fail> {
    let root = "<!--c--><a>xyz<b/><![CDATA[]]><?p?></a>";
    for (script, want) in [
        ("text /3 0 0 \"\"", Some(Refusal::NoSuchPlace)),
        ("text /2/4 5 0 \"\\u{0}\"", Some(Refusal::NoSuchPlace)),
        ("text /2/1/1 0 0 \"\"", Some(Refusal::NoSuchPlace)),
        ("text /2 5 0 \"\\u{0}\"", Some(Refusal::WrongKind)),
        ("text /2/2 0 0 \"\"", Some(Refusal::WrongKind)),
        ("text /2/3 0 0 \"\"", Some(Refusal::WrongKind)),
        ("text /1 0 0 \"\"", Some(Refusal::WrongKind)),
        ("text /2/1 2 1 \"\\u{0}\"", Some(Refusal::BadRange)),
        ("text /2/1 0 4 \"\\u{0}\"", Some(Refusal::BadRange)),
        ("text /2/1 0 3 \"\\u{0}\"", Some(Refusal::BadText)),
        ("text /2/1 3 3 \"x\\u{FFFE}\"", Some(Refusal::BadText)),
        ("text /2/1 3 3 \"\"", None),
    ] {
        let edited = edits(rt.alloc(), root.as_bytes(), script)?;
        assert_eq!(rt; edited.answer, want, "at {script}");
        assert_eq!(rt; edited.bytes.as_slice(), root.as_bytes(), "at {script}");
    }
    Ok(())
}

// A start makes 3 calls, the look at the gate 2, and a burst that writes 8.
#[test]
fn a_burst_writes_the_root_where_it_differs(rt: HostRuntime) -> Result<(), Fail> {
    let alloc = rt.alloc();
    let mut desk = desk_with(alloc, Some(b"<a>old</a>"), &[])?;
    let mut session = started(alloc, &mut desk)??;
    for (script, want, file, calls) in [
        ("", 0, "<a>old</a>", 5),
        ("text /1/1 0 3 \"new\"", 1, "<a>new</a>", 15),
        ("", 0, "<a>new</a>", 17),
        (
            "text /1/1 0 1 \"x\"\ntext /1/1 0 1 \"n\"",
            0,
            "<a>new</a>",
            19,
        ),
        (
            "text /1/1 0 1 \"x\"\ntext /1/1 0 9 \"n\"",
            1,
            "<a>xew</a>",
            29,
        ),
    ] {
        edit(alloc, &mut session, script)?;
        assert_eq!(rt; burst(&mut session, &mut desk)?, Ok(want), "at {script}");
        assert_eq!(rt;
            desk.file(&book(alloc)?),
            Some(file.as_bytes()),
            "at {script}"
        );
        assert_eq!(rt; desk.calls(), calls, "at {script}");
    }
    Ok(())
}

#[test]
fn what_a_burst_did_not_save_is_saved_by_the_next(rt: HostRuntime) -> Result<(), Fail> {
    let alloc = rt.alloc();
    for call in [6, 7, 8, 13] {
        let mut desk = desk_with(alloc, Some(b"<a>old</a>"), &[call])?;
        let mut session = started(alloc, &mut desk)??;
        edit(alloc, &mut session, "text /1/1 0 3 \"new\"")?;
        assert_eq!(rt;
            burst(&mut session, &mut desk)?,
            Err(DeskErr::Failed),
            "call {call}"
        );
        assert_eq!(rt; burst(&mut session, &mut desk)?, Ok(1), "call {call}");
        assert_eq!(rt; desk.file(&book(alloc)?), Some(b"<a>new</a>".as_slice()));
        assert_eq!(rt; burst(&mut session, &mut desk)?, Ok(0), "call {call}");
    }
    Ok(())
}
