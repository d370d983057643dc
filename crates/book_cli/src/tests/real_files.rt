//! Files of the current folder.
use super::{book_file, joined, run_words};
use crate::real::RealDesk;
use bk_desk::{Desk, DeskErr, DeskName, Got, StdSource};
use std::fs::File;
use std::io;
use std::test::Fail;

/// Whether a read gives these bytes.
pub(super) fn reads<D: Desk>(
    desk: &mut D,
    name: &DeskName,
    cap: usize,
    bytes: &[u8],
) -> Result<bool, DeskErr> {
    match desk.read(name, cap)? {
        Got::Bytes(found) => Ok(found.as_slice() == bytes),
        Got::Absent => Ok(false),
        Got::Longer => Ok(false),
    }
}

#[test]
fn real_files_are_written_and_read_back(rt: HostRuntime) -> Result<(), Fail> {
    let alloc = rt.alloc();
    let mut desk = RealDesk::new(&rt, io::writer(&rt), alloc);
    let file = book_file(alloc, "real-desk-test/one/a.xml")?;
    let folder = book_file(alloc, "real-desk-test/one")?;
    let below = book_file(alloc, "real-desk-test/one/a.xml/b.xml")?;
    desk.write_file(&file, b"<a/>")?;
    desk.sync()?;
    assert!(rt; reads(&mut desk, &file, 4, b"<a/>")?);
    assert!(rt; matches!(desk.read(&file, 3)?, Got::Longer));
    assert!(rt; matches!(desk.read(&folder, 4)?, Got::Absent));
    assert!(rt; matches!(desk.read(&below, 4)?, Got::Absent));
    desk.remove(&below)?;
    desk.remove(&folder)?;
    assert!(rt; desk.write_file(&folder, b"x").is_err() && desk.write_file(&below, b"x").is_err());
    desk.remove(&file)?;
    desk.remove(&file)?;
    desk.sync()?;
    assert!(rt; matches!(desk.read(&file, 4)?, Got::Absent));
    Ok(())
}

/// A run on a file of the current folder, whose script is another one, and what it told.
fn told_of(rt: &HostRuntime, word: &str, script: &str) -> Result<(u8, Vec<u8>), Fail> {
    let alloc = rt.alloc();
    let mut told = Vec::new(alloc);
    let mut desk = RealDesk::new(rt, &mut told, alloc);
    let mut source = StdSource::new(File::open(rt, script)?);
    let status = run_words(alloc, &[word], &mut source, &mut desk)?;
    drop(desk);
    Ok((status, told))
}

// A second run finds what the first one saved, and no open marker. The desk beside them syncs, and locks, only at the end.
#[test]
fn a_run_saves_a_real_file(rt: HostRuntime) -> Result<(), Fail> {
    let alloc = rt.alloc();
    let word = "real-run-test.xml";
    let file = book_file(alloc, word)?;
    let commands = book_file(alloc, "real-run-test.txt")?;
    let mut desk = RealDesk::new(&rt, io::writer(&rt), alloc);
    desk.write_file(&file, b"<a>old</a>")?;
    let tree =
        "element a in real-run-test.xml\n  base file:///book/real-run-test.xml\n  text \"new\" in real-run-test.xml\n";
    for (script, replies) in [
        ("text /1/1 0 3 \"new\"\nburst\n", "ok\nburst 1\n"),
        ("burst\n", "burst 0\n"),
        ("", ""),
    ] {
        desk.write_file(&commands, script.as_bytes())?;
        let (status, told) = told_of(&rt, word, "real-run-test.txt")?;
        assert_eq!(rt; status, 0, "at {script}");
        assert!(rt; told == joined(alloc, &[replies, tree])?, "at {script}");
        assert!(rt; reads(&mut desk, &file, 10, b"<a>new</a>")?, "at {script}");
        assert!(rt;
            matches!(desk.read(&DeskName::Gate, 4)?, Got::Absent),
            "at {script}"
        );
    }
    desk.remove(&file)?;
    desk.remove(&commands)?;
    desk.remove(&DeskName::Journal)?;
    desk.sync()?;
    Ok(())
}

// A folder can be opened, and a read of it fails.
#[test]
fn a_script_that_cannot_be_read_is_told(rt: HostRuntime) -> Result<(), Fail> {
    let (status, told) = told_of(&rt, "book.xml", ".")?;
    assert_eq!(rt; status, 5);
    assert!(rt; told.as_slice() == b"fault source\n".as_slice());
    Ok(())
}
