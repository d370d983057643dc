//! What a run finds of an earlier one: the journal of a save, and the commit marker.
use super::{Case, HEAD, Want, book_file, check, copy, opened_again, over, ran};
use bk_desk::{DeskName, MemDesk};
use std::test::Fail;

/// A save of c.xml with the bytes `<c>new</c>`: 34 bytes.
const JOURNAL: &[u8] = b"BKBURST1\x00\x00\x00\x01\x01\x00\x05c.xml\x00\x00\x00\x0A<c>new</c>";

/// Files that are no journal.
const DAMAGED: &[&[u8]] = &[
    b"",
    b"BKBURST1",
    b"BKBURST1\x00\x00\x00\x00",
    b"BKBURST1\x00\x00\x00\x01\x01\x00\x05c.xml\x00\x00\x00\x0A<c>new</c",
    b"BKBURST1\x00\x00\x00\x01\x01\x00\x05c.xml\x00\x00\x00\x0A<c>new</c>\n",
    b"BKBURST1\x00\x00\x00\x02\x01\x00\x05c.xml\x00\x00\x00\x0A<c>new</c>",
    b"BKBURST2\x00\x00\x00\x01\x01\x00\x05c.xml\x00\x00\x00\x0A<c>new</c>",
    b"BKBURST1\x00\x00\x00\x01\x02\x00\x05c.xml\x00\x00\x00\x0A<c>new</c>",
    b"BKBURST1\x00\x00\x00\x01\x01\x00\x05../ml\x00\x00\x00\x0A<c>new</c>",
    b"BKBURST1\x00\x00\x00\x02\x00\x00\x01b\x00\x00\x01a",
    b"BKBURST1\x00\x00\x00\x02\x00\x00\x01a\x00\x00\x01a",
];

// Calls: sync, read the marker, read the journal, tell. A journal that is absent is damaged too.
#[test]
fn a_damaged_journal_under_an_open_marker_is_a_fault(rt: HostRuntime) -> Result<(), Fail> {
    let alloc = rt.alloc();
    let absent = Case {
        gate: Some(b"OPEN"),
        ..over("<a>hi</a>", "burst")
    };
    let want = Want {
        status: 8,
        told: &["fault journal\n"],
        calls: 4,
        root: absent.root,
    };
    check(&rt, alloc, &absent, &want, "no journal")?;
    for journal in DAMAGED {
        let case = Case {
            journal: Some(*journal),
            ..absent
        };
        check(&rt, alloc, &case, &want, "a journal")?;
        let desk = ran(alloc, &case)?.desk;
        assert!(rt; desk.file(&DeskName::Journal) == case.journal);
        assert!(rt; desk.file(&DeskName::Gate) == case.gate);
    }
    Ok(())
}

#[test]
fn a_marker_that_is_not_open_is_ignored(rt: HostRuntime) -> Result<(), Fail> {
    let alloc = rt.alloc();
    for gate in ["", "OPE", "OPEN\n", "OPENED", "open", " OPEN"] {
        for journal in [JOURNAL, b"BKBURST1".as_slice()] {
            let case = Case {
                journal: Some(journal),
                gate: Some(gate.as_bytes()),
                ..over("<a>hi</a>", "")
            };
            let want = Want {
                status: 0,
                told: &[HEAD, "  text \"hi\" in book.xml\n"],
                calls: 4,
                root: case.root,
            };
            check(&rt, alloc, &case, &want, gate)?;
        }
    }
    Ok(())
}

/// A journal that removes a.xml, writes book.xml with the bytes `<a>n</a>`, and makes d/e.xml with none.
const SEVERAL: &[u8] =
    b"BKBURST1\x00\x00\x00\x03\x00\x00\x05a.xml\x01\x00\x08book.xml\x00\x00\x00\x08<a>n</a>\x01\x00\x07d/e.xml\x00\x00\x00\x00";

// Calls: sync, read the marker, read the journal, remove, write, write, sync, remove the marker, sync; then the book opens.
#[test]
fn a_journal_of_several_files_is_carried_out(rt: HostRuntime) -> Result<(), Fail> {
    let alloc = rt.alloc();
    let mut files = Vec::new(alloc);
    for (name, bytes) in [
        ("a.xml", "gone"),
        ("book.xml", "<a>o</a>"),
        ("z.xml", "stays"),
    ] {
        files.push((book_file(alloc, name)?, copy(alloc, bytes.as_bytes())?))?;
    }
    files.push((DeskName::Journal, copy(alloc, SEVERAL)?))?;
    files.push((DeskName::Gate, copy(alloc, b"OPEN")?))?;
    let mut desk = MemDesk::new(alloc, files, Vec::new(alloc))?;
    assert_eq!(rt; opened_again(alloc, &mut desk)?, 0);
    let tree = super::joined(alloc, &[HEAD, "  text \"n\" in book.xml\n"])?;
    assert!(rt; desk.told() == tree.as_slice());
    assert_eq!(rt; desk.calls(), 11);
    for (name, bytes) in [
        ("a.xml", None),
        ("book.xml", Some(b"<a>n</a>".as_slice())),
        ("d/e.xml", Some(b"".as_slice())),
        ("z.xml", Some(b"stays".as_slice())),
    ] {
        let file = book_file(alloc, name)?;
        assert!(rt; desk.file(&file) == bytes, "at {name}");
    }
    assert!(rt; desk.file(&DeskName::Gate).is_none());
    assert!(rt; desk.file(&DeskName::Journal) == Some(SEVERAL));
    Ok(())
}

// The book is recovered before its root opens, also where the root is made, is removed, or is left no document.
#[test]
fn the_root_is_the_recovered_one(rt: HostRuntime) -> Result<(), Fail> {
    let alloc = rt.alloc();
    let made = b"BKBURST1\x00\x00\x00\x01\x01\x00\x08book.xml\x00\x00\x00\x04<a/>".as_slice();
    let removed = b"BKBURST1\x00\x00\x00\x01\x00\x00\x08book.xml".as_slice();
    let spoiled = b"BKBURST1\x00\x00\x00\x01\x01\x00\x08book.xml\x00\x00\x00\x01<".as_slice();
    for (root, journal, status, told, after) in [
        (None, made, 0, HEAD, Some(b"<a/>".as_slice())),
        (
            Some(b"<a/>".as_slice()),
            removed,
            3,
            "fault Missing book.xml\n",
            None,
        ),
        (
            Some(b"<a/>".as_slice()),
            spoiled,
            3,
            "fault NotWellFormed book.xml\n",
            Some(b"<".as_slice()),
        ),
    ] {
        let case = Case {
            root,
            journal: Some(journal),
            gate: Some(b"OPEN"),
            ..over("", "")
        };
        let want = Want {
            status,
            told: &[told],
            calls: 9,
            root: after,
        };
        check(&rt, alloc, &case, &want, told)?;
    }
    Ok(())
}
