use bk_desk::{Desk, DeskErr, DeskName, Left, MemDesk};
use bk_name::Name;
use jr_burst::{RecoverFault, commit, is_closed, plan, recover};
use jr_form::{Item, are_writable, write_journal};
use std::alloc::Global;
use std::process::Abort;
use std::test::Fail;
use xt_table::Seq;

// A file of the book before a save, and after it; none is a file that isn't there.
struct Case {
    name: &'static [u8],
    old: Option<&'static [u8]>,
    new: Option<&'static [u8]>,
}

// One file is written anew, beside one that stays.
const ONE: &[Case] = &[
    Case {
        name: b"a.xml",
        old: Some(b"stays"),
        new: Some(b"stays"),
    },
    Case {
        name: b"c.xml",
        old: Some(b"<c>old</c>"),
        new: Some(b"<c>new</c>"),
    },
];

// One is written anew, one is removed, one is made.
const THREE: &[Case] = &[
    Case {
        name: b"a.xml",
        old: Some(b"old a"),
        new: Some(b"new a"),
    },
    Case {
        name: b"b.xml",
        old: Some(b"old b"),
        new: None,
    },
    Case {
        name: b"d/e.xml",
        old: None,
        new: Some(b""),
    },
];

fn copy(alloc: Global, bytes: &[u8]) -> Result<Vec<u8>, Fail> {
    Ok(Vec::from_slice(alloc, bytes)?)
}

fn book(alloc: Global, name: &[u8]) -> Result<DeskName, Fail> {
    Ok(DeskName::Book(Name::read(alloc, name)?))
}

// A desk with the old files. The calls listed fail.
fn start(alloc: Global, cases: &[Case], fails: &[u64]) -> Result<MemDesk, Fail> {
    let mut files = Vec::new(alloc);
    for case in cases {
        if let Some(bytes) = case.old {
            files.push((book(alloc, case.name)?, copy(alloc, bytes)?))?;
        }
    }
    Ok(MemDesk::new(alloc, files, Vec::from_slice(alloc, fails)?)?)
}

fn items(alloc: Global, cases: &[Case]) -> Result<Vec<Item>, Fail> {
    let mut items = Vec::new(alloc);
    for case in cases {
        if case.old != case.new {
            let bytes = match case.new {
                Some(bytes) => Some(Seq::from_vec(copy(alloc, bytes)?)),
                None => None,
            };
            let name = Name::read(alloc, case.name)?;
            items.push(Item { name, bytes })?;
        }
    }
    Ok(items)
}

// Saves the new files, after a sync and a look at the gate.
fn save(alloc: Global, desk: &mut MemDesk, cases: &[Case]) -> Result<Result<(), DeskErr>, Fail> {
    let items = items(alloc, cases)?;
    if !are_writable(&items) {
        return Ok(Err(DeskErr::NoMemory));
    }
    let plan = plan(alloc, items)?;
    match is_closed(desk) {
        Ok(true) => Ok(commit(desk, &plan)),
        Ok(false) => Ok(Err(DeskErr::NoMemory)),
        Err(e) => Ok(Err(e)),
    }
}

// Whether all files are the old ones, or the new ones.
fn holds(alloc: Global, desk: &MemDesk, cases: &[Case], is_new: bool) -> Result<bool, Fail> {
    for case in cases {
        let want = if is_new { case.new } else { case.old };
        if desk.file(&book(alloc, case.name)?) != want {
            return Ok(false);
        }
    }
    Ok(desk.told().is_empty())
}

fn lefts(alloc: Global) -> Result<Vec<Left>, Fail> {
    let mut lefts = Vec::new(alloc);
    lefts.push(Left::Absent)?;
    lefts.push(Left::Old)?;
    lefts.push(Left::New)?;
    lefts.push(Left::Bytes(Seq::from_vec(copy(alloc, b"x")?)))?;
    lefts.push(Left::Bytes(Seq::from_vec(copy(alloc, b"OPEN")?)))?;
    Ok(lefts)
}

// Stops a desk after each of its calls with each `Left`, recovers, and stops the recovery in the same way.
// The files are the old ones before the gate is open on the disk, and the new ones from then on.
fn stop_everywhere(
    rt: &impl Abort,
    alloc: Global,
    desk: &MemDesk,
    cases: &[Case],
    opens_at: u64,
) -> Result<(), Fail> {
    let lefts = lefts(alloc)?;
    for calls in 0..=desk.calls() {
        for left in &lefts {
            if calls <= desk.calls() {
                let mut stopped = desk.after_stop(calls, left)?;
                let gate = stopped.file(&DeskName::Gate);
                let is_new = calls > opens_at || gate == Some(b"OPEN" as &[u8]);
                assert_eq!(rt; recover(alloc, &mut stopped), Ok(()), "after {calls} calls");
                assert!(rt;
                    holds(alloc, &stopped, cases, is_new)?,
                    "after {calls} calls"
                );
                stop_again(rt, alloc, &stopped, cases, is_new)?;
            }
        }
    }
    Ok(())
}

fn stop_again(
    rt: &impl Abort,
    alloc: Global,
    recovered: &MemDesk,
    cases: &[Case],
    is_new: bool,
) -> Result<(), Fail> {
    let lefts = lefts(alloc)?;
    for calls in 0..=recovered.calls() {
        for left in &lefts {
            if calls <= recovered.calls() {
                let mut stopped = recovered.after_stop(calls, left)?;
                assert_eq!(rt; recover(alloc, &mut stopped), Ok(()), "again after {calls}");
                assert!(rt;
                    holds(alloc, &stopped, cases, is_new)?,
                    "again after {calls}"
                );
            }
        }
    }
    Ok(())
}

// The gate is written by call 5: sync, read the gate, journal, sync, gate, sync, files, sync, gate away, sync.
#[test]
fn each_stop_recovers_old_or_new(rt: HostRuntime) -> Result<(), Fail> {
    let alloc = rt.alloc();
    for (cases, calls) in [(ONE, 10), (THREE, 12)] {
        let mut desk = start(alloc, cases, &[])?;
        assert_eq!(rt; save(alloc, &mut desk, cases)?, Ok(()));
        assert_eq!(rt; desk.calls(), calls);
        assert!(rt; holds(alloc, &desk, cases, true)?);
        assert_eq!(rt; desk.file(&DeskName::Gate), None);
        stop_everywhere(&rt, alloc, &desk, cases, 5)?;
    }
    Ok(())
}

// Recovers until the listed call has failed: each recovery fails exactly where it makes that call.
fn recover_through(
    rt: &impl Abort,
    alloc: Global,
    desk: &mut MemDesk,
    listed: u64,
) -> Result<(), Fail> {
    for _ in 0..6 {
        let before = desk.calls();
        let answer = recover(alloc, desk);
        let is_hit = before < listed && listed <= desk.calls();
        let want = if is_hit {
            Err(RecoverFault::Desk)
        } else {
            Ok(())
        };
        assert_eq!(rt;
            answer,
            want,
            "calls {before} to {}, listed {listed}",
            desk.calls()
        );
    }
    Ok(())
}

// The call `number` fails, and one `more` behind it, in a recovery.
#[test]
fn each_fault_is_answered_and_recovered(rt: HostRuntime) -> Result<(), Fail> {
    let alloc = rt.alloc();
    for number in 1..=12 {
        for more in 1..=10 {
            let mut desk = start(alloc, THREE, &[number, number + more])?;
            assert_eq!(rt;
                save(alloc, &mut desk, THREE)?,
                Err(DeskErr::Failed),
                "call {number}"
            );
            assert_eq!(rt; desk.calls(), number);
            let gate = desk.file(&DeskName::Gate);
            let is_new = number > 10 || gate == Some(b"OPEN" as &[u8]);
            recover_through(&rt, alloc, &mut desk, number + more)?;
            assert!(rt;
                holds(alloc, &desk, THREE, is_new)?,
                "calls {number} and {more}"
            );
        }
    }
    Ok(())
}

// A gate that holds anything but `OPEN` is closed; under an open one the journal is read, or is damaged.
#[test]
fn a_gate_is_open_where_it_holds_open(rt: HostRuntime) -> Result<(), Fail> {
    let alloc = rt.alloc();
    let items = items(alloc, ONE)?;
    assert!(rt; are_writable(&items));
    let journal = write_journal(alloc, &items)?;
    let cut = journal.as_slice().get(..20).unwrap_or(&[]);
    let damaged = Err(RecoverFault::Journal);
    for (gate, bytes, want, is_new) in [
        (b"OPEN" as &[u8], journal.as_slice(), Ok(()), true),
        (b"OPEN" as &[u8], cut, damaged, false),
        (b"OPEN" as &[u8], b"" as &[u8], damaged, false),
        (b"OPEN " as &[u8], journal.as_slice(), Ok(()), false),
        (b"OPE" as &[u8], journal.as_slice(), Ok(()), false),
        (b"open" as &[u8], cut, Ok(()), false),
        (b"" as &[u8], journal.as_slice(), Ok(()), false),
    ] {
        let mut desk = start(alloc, ONE, &[])?;
        desk.write_file(&DeskName::Gate, gate)?;
        desk.write_file(&DeskName::Journal, bytes)?;
        assert_eq!(rt; recover(alloc, &mut desk), want);
        assert!(rt; holds(alloc, &desk, ONE, is_new)?);
        assert_eq!(rt; desk.file(&DeskName::Journal), Some(bytes));
        let left = if is_new { None } else { Some(gate) };
        assert_eq!(rt; desk.file(&DeskName::Gate), left);
    }
    Ok(())
}
