use bk_desk::{Desk, DeskErr, DeskName, Failed, Got, Left, MemDesk, MemSource, Source, StdSource};
use bk_name::Name;
use std::alloc::Global;
use std::io::{self, ErrorKind, Read};
use std::test::Fail;
use xt_table::Seq;

fn copy(alloc: Global, text: &[u8]) -> Result<Vec<u8>, Fail> {
    Ok(Vec::from_slice(alloc, text)?)
}

fn book(alloc: Global, text: &[u8]) -> Result<DeskName, Fail> {
    Ok(DeskName::Book(Name::read(alloc, text)?))
}

// A desk with a.xml, twice, and b.xml. The calls listed fail.
fn two_files(alloc: Global, fails: &[u64]) -> Result<MemDesk, Fail> {
    let mut files = Vec::new(alloc);
    files.push((book(alloc, b"a.xml")?, copy(alloc, b"first")?))?;
    files.push((book(alloc, b"b.xml")?, copy(alloc, b"b")?))?;
    files.push((book(alloc, b"a.xml")?, copy(alloc, b"a")?))?;
    Ok(MemDesk::new(alloc, files, Vec::from_slice(alloc, fails)?)?)
}

fn text_of(got: &Got) -> &[u8] {
    match got {
        Got::Absent => b"absent",
        Got::Bytes(bytes) => bytes.as_slice(),
        Got::Longer => b"longer",
    }
}

#[test]
fn each_call_does_its_work_or_fails_where_listed(rt: HostRuntime) -> Result<(), Fail> {
    let alloc = rt.alloc();
    let (a, b) = (book(alloc, b"a.xml")?, book(alloc, b"b.xml")?);
    let mut desk = two_files(alloc, &[3, 6, 8, 10, 12])?;
    for (call, cap, want) in [(1, 1, b"a" as &[u8]), (2, 0, b"longer" as &[u8])] {
        let got = desk.read(&a, cap)?;
        assert_eq!(rt; text_of(&got), want, "at call {call}");
    }
    assert!(rt; desk.read(&a, 9).is_err());
    assert_eq!(rt; desk.write_file(&a, b"new"), Ok(()));
    assert_eq!(rt; desk.remove(&b), Ok(()));
    assert_eq!(rt; desk.write_file(&a, b"newer"), Err(DeskErr::Failed));
    assert_eq!(rt; desk.tell(b"one"), Ok(()));
    assert_eq!(rt; desk.tell(b"two"), Err(DeskErr::Failed));
    assert_eq!(rt; desk.sync(), Ok(()));
    assert_eq!(rt; desk.sync(), Err(DeskErr::Failed));
    assert_eq!(rt; desk.remove(&b), Ok(()));
    assert_eq!(rt; desk.remove(&a), Err(DeskErr::Failed));
    assert_eq!(rt; desk.calls(), 12);
    assert_eq!(rt; desk.told(), b"one" as &[u8]);
    assert_eq!(rt; desk.file(&a), Some(b"new" as &[u8]));
    assert_eq!(rt; desk.file(&b), None);
    assert_eq!(rt; desk.file(&DeskName::Gate), None);
    assert!(rt; a.share()?.is_same(&a) && !a.is_same(&b) && !a.is_same(&DeskName::Journal));
    Ok(())
}

// a.xml is synced as `1`, and then written as `2` and, in a call that fails, as `3`; b.xml is left alone.
#[test]
fn a_stop_leaves_what_is_said(rt: HostRuntime) -> Result<(), Fail> {
    let alloc = rt.alloc();
    let a = book(alloc, b"a.xml")?;
    let mut desk = two_files(alloc, &[4])?;
    desk.write_file(&a, b"1")?;
    desk.sync()?;
    desk.write_file(&a, b"2")?;
    assert_eq!(rt; desk.write_file(&a, b"3"), Err(DeskErr::Failed));
    let other = Left::Bytes(Seq::from_vec(copy(alloc, b"x")?));
    for (calls, left, want) in [
        (0, &Left::New, Some(b"a" as &[u8])),
        (1, &Left::Old, Some(b"a" as &[u8])),
        (1, &Left::New, Some(b"1" as &[u8])),
        (1, &Left::Absent, None),
        (2, &Left::Absent, Some(b"1" as &[u8])),
        (3, &Left::Old, Some(b"1" as &[u8])),
        (3, &Left::New, Some(b"2" as &[u8])),
        (4, &Left::New, Some(b"3" as &[u8])),
        (4, &other, Some(b"x" as &[u8])),
    ] {
        if calls <= desk.calls() {
            let stopped = desk.after_stop(calls, left)?;
            assert_eq!(rt; stopped.file(&a), want, "after {calls} calls");
            assert_eq!(rt; stopped.file(&book(alloc, b"b.xml")?), Some(b"b" as &[u8]));
            assert_eq!(rt; stopped.calls(), 0);
        }
    }
    Ok(())
}

#[test]
fn a_source_gives_pieces_and_fails_where_listed(rt: HostRuntime) -> Result<(), Fail> {
    let alloc = rt.alloc();
    let mut source = MemSource::new(copy(alloc, b"abcde")?, 3, Vec::from_slice(alloc, &[2])?);
    let mut buffer = [0; 4];
    assert_eq!(rt; source.read(&mut buffer), Ok(3));
    assert_eq!(rt; &buffer, b"abc\0");
    assert_eq!(rt; source.read(&mut buffer), Err(Failed));
    assert_eq!(rt; source.read(&mut []), Ok(0));
    assert_eq!(rt; source.read(&mut buffer), Ok(2));
    assert_eq!(rt; &buffer, b"dec\0");
    assert_eq!(rt; source.read(&mut buffer), Ok(0));
    Ok(())
}

// A reader that is interrupted once, then gives a byte, and then fails.
#[derive(Drop)]
struct Unsteady {
    reads: u8,
}

impl Read for Unsteady {
    fn read(&mut self, buffer: &mut [u8]) -> io::Result<usize> {
        self.reads = self.reads.saturating_add(1);
        match buffer {
            [first, ..] if self.reads == 2 => {
                *first = b'x';
                Ok(1)
            }
            _ if self.reads == 1 => Err(ErrorKind::Interrupted.into()),
            _ => Err(ErrorKind::Other.into()),
        }
    }
}

#[test]
fn a_reader_of_std_is_read_again_after_a_signal(rt: HostRuntime) {
    let mut buffer = [0; 2];
    let mut source = StdSource::new(Unsteady { reads: 0 });
    assert_eq!(rt; source.read(&mut buffer), Ok(1));
    assert_eq!(rt; &buffer, b"x\0");
    assert_eq!(rt; source.read(&mut buffer), Err(Failed));
}
