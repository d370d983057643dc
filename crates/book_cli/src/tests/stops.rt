//! A run that is stopped after each of its calls of the disk, and a second run over what is left.
use super::{Case, HEAD, Outcome, Want, book_file, check, copy, joined, opened_again, over, ran};
use bk_desk::{DeskName, Left, MemDesk};
use std::alloc::Global;
use std::process::Abort;
use std::test::Fail;
use xt_table::Seq;

const OLD: &str = "<a>a</a>";

const MIDDLE: &str = "<a>y</a>";

const NEW: &str = "<a>z</a>";

const ONE_SAVE: &str = "text /1/1 0 1 \"z\"\nburst\n";

const TWO_SAVES: &str = "text /1/1 0 1 \"y\"\nburst\ntext /1/1 0 1 \"z\"\nburst\n";

/// The journal of a save of book.xml with the bytes `<a>z</a>`.
const JOURNAL: &[u8] = b"BKBURST1\x00\x00\x00\x01\x01\x00\x08book.xml\x00\x00\x00\x08<a>z</a>";

/// From this number of calls on a stop leaves this root, where the commit marker is left closed and where it is left open.
#[derive(Clone, Copy)]
struct Stage {
    from: u64,
    closed: &'static str,
    open: &'static str,
}

/// The calls: 1 sync, 2 read the marker, 3 read book.xml, 4 tell, 5 write the journal, 6 sync, 7 write the marker, 8 sync,
/// 9 write book.xml, 10 sync, 11 remove the marker, 12 sync, 13 tell, 14 tell the tree.
const ONE: &[Stage] = &[
    Stage {
        from: 0,
        closed: OLD,
        open: OLD,
    },
    Stage {
        from: 7,
        closed: OLD,
        open: NEW,
    },
    Stage {
        from: 8,
        closed: NEW,
        open: NEW,
    },
];

/// As before up to call 13; then 14 tell, 15 write the journal, 16 sync, 17 write the marker, 18 sync, 19 write book.xml,
/// 20 sync, 21 remove the marker, 22 sync, 23 tell, 24 tell the tree.
const TWO: &[Stage] = &[
    Stage {
        from: 0,
        closed: OLD,
        open: OLD,
    },
    Stage {
        from: 7,
        closed: OLD,
        open: MIDDLE,
    },
    Stage {
        from: 8,
        closed: MIDDLE,
        open: MIDDLE,
    },
    Stage {
        from: 17,
        closed: MIDDLE,
        open: NEW,
    },
    Stage {
        from: 18,
        closed: NEW,
        open: NEW,
    },
];

/// What stands under each name after so many calls, where a file that is pending is left as `?`.
#[derive(Clone, Copy)]
struct Standing {
    calls: u64,
    journal: Option<&'static [u8]>,
    gate: Option<&'static [u8]>,
    root: &'static str,
}

const STANDING: &[Standing] = &[
    Standing {
        calls: 4,
        journal: None,
        gate: None,
        root: OLD,
    },
    Standing {
        calls: 5,
        journal: Some(b"?"),
        gate: None,
        root: OLD,
    },
    Standing {
        calls: 6,
        journal: Some(JOURNAL),
        gate: None,
        root: OLD,
    },
    Standing {
        calls: 7,
        journal: Some(JOURNAL),
        gate: Some(b"?"),
        root: OLD,
    },
    Standing {
        calls: 8,
        journal: Some(JOURNAL),
        gate: Some(b"OPEN"),
        root: OLD,
    },
    Standing {
        calls: 9,
        journal: Some(JOURNAL),
        gate: Some(b"OPEN"),
        root: "?",
    },
    Standing {
        calls: 10,
        journal: Some(JOURNAL),
        gate: Some(b"OPEN"),
        root: NEW,
    },
    Standing {
        calls: 11,
        journal: Some(JOURNAL),
        gate: Some(b"?"),
        root: NEW,
    },
    Standing {
        calls: 12,
        journal: Some(JOURNAL),
        gate: None,
        root: NEW,
    },
    Standing {
        calls: 14,
        journal: Some(JOURNAL),
        gate: None,
        root: NEW,
    },
];

fn lefts(alloc: Global) -> Result<Vec<Left>, Fail> {
    let mut lefts = Vec::new(alloc);
    lefts.push(Left::Absent)?;
    lefts.push(Left::Old)?;
    lefts.push(Left::New)?;
    for bytes in ["", "?", "OPE", "OPEN", OLD, NEW] {
        lefts.push(Left::Bytes(Seq::from_vec(copy(alloc, bytes.as_bytes())?)))?;
    }
    Ok(lefts)
}

/// The root that a stop after so many calls leaves.
fn root_left(stages: &[Stage], calls: u64, is_open: bool) -> &'static str {
    let mut root = "";
    for stage in stages {
        if stage.from <= calls {
            root = if is_open { stage.open } else { stage.closed };
        }
    }
    root
}

fn tree_of(alloc: Global, root: &str) -> Result<Vec<u8>, Fail> {
    let text = match root {
        OLD => "  text \"a\" in book.xml\n",
        MIDDLE => "  text \"y\" in book.xml\n",
        NEW => "  text \"z\" in book.xml\n",
        _ => "",
    };
    joined(alloc, &[HEAD, text])
}

fn has(desk: &MemDesk, name: &DeskName, bytes: &[u8]) -> bool {
    match desk.file(name) {
        Some(found) => found == bytes,
        None => false,
    }
}

/// A run without a command over what was left: it ends well, tells the tree of this root, and leaves it and no open marker.
fn opens(
    rt: &impl Abort,
    alloc: Global,
    stopped: &mut MemDesk,
    root: &str,
    calls: u64,
) -> Result<(), Fail> {
    let status = opened_again(alloc, stopped)?;
    let tree = tree_of(alloc, root)?;
    let file = book_file(alloc, "book.xml")?;
    assert_eq!(rt; status, 0, "after {calls} calls");
    assert!(rt; stopped.told() == tree.as_slice(), "after {calls} calls");
    assert!(rt; has(stopped, &file, root.as_bytes()), "after {calls} calls");
    assert!(rt;
        !has(stopped, &DeskName::Gate, b"OPEN"),
        "after {calls} calls"
    );
    Ok(())
}

/// Stops a run after each of its calls in each way, and opens the book over what is left.
fn opens_after_each_stop(
    rt: &impl Abort,
    alloc: Global,
    desk: &MemDesk,
    root: &str,
    lefts: &[Left],
) -> Result<(), Fail> {
    for calls in 0..=desk.calls() {
        for left in lefts {
            if calls <= desk.calls() {
                let mut stopped = desk.after_stop(calls, left)?;
                opens(rt, alloc, &mut stopped, root, calls)?;
            }
        }
    }
    Ok(())
}

/// Stops a run after each of its calls in each way, and opens the book over what is left; stops that run too.
fn check_stops(
    rt: &impl Abort,
    alloc: Global,
    desk: &MemDesk,
    stages: &[Stage],
) -> Result<(), Fail> {
    let lefts = lefts(alloc)?;
    for calls in 0..=desk.calls() {
        for left in &lefts {
            if calls <= desk.calls() {
                let mut stopped = desk.after_stop(calls, left)?;
                let is_open = has(&stopped, &DeskName::Gate, b"OPEN");
                let root = root_left(stages, calls, is_open);
                opens(rt, alloc, &mut stopped, root, calls)?;
                opens_after_each_stop(rt, alloc, &stopped, root, &lefts)?;
            }
        }
    }
    Ok(())
}

#[test]
fn a_save_makes_eight_calls(rt: HostRuntime) -> Result<(), Fail> {
    let alloc = rt.alloc();
    let case = over(OLD, ONE_SAVE);
    let want = Want {
        status: 0,
        told: &["ok\nburst 1\n", HEAD, "  text \"z\" in book.xml\n"],
        calls: 14,
        root: Some(NEW.as_bytes()),
    };
    check(&rt, alloc, &case, &want, ONE_SAVE)?;
    let Outcome { desk, .. } = ran(alloc, &case)?;
    let file = book_file(alloc, "book.xml")?;
    let unknown = Left::Bytes(Seq::from_vec(copy(alloc, b"?")?));
    for Standing {
        calls,
        journal,
        gate,
        root,
    } in STANDING {
        assert!(rt; *calls <= desk.calls());
        let stopped = desk.after_stop(*calls, &unknown)?;
        assert!(rt;
            stopped.file(&DeskName::Journal) == *journal,
            "after {calls} calls"
        );
        assert!(rt;
            stopped.file(&DeskName::Gate) == *gate,
            "after {calls} calls"
        );
        assert!(rt;
            stopped.file(&file) == Some(root.as_bytes()),
            "after {calls} calls"
        );
    }
    Ok(())
}

/// What a run had told where the call of this number fails, and the root then.
const TOLD: &[(u64, &str, &str)] = &[
    (1, "", OLD),
    (2, "", OLD),
    (3, "", OLD),
    (4, "", OLD),
    (5, "ok\n", OLD),
    (6, "ok\n", OLD),
    (7, "ok\n", OLD),
    (8, "ok\n", OLD),
    (9, "ok\n", OLD),
    (10, "ok\n", NEW),
    (11, "ok\n", NEW),
    (12, "ok\n", NEW),
    (13, "ok\n", NEW),
    (14, "ok\nburst 1\n", NEW),
];

fn check_told(
    rt: &impl Abort,
    alloc: Global,
    calls: u64,
    told: &'static str,
    root: &'static str,
) -> Result<(), Fail> {
    let case = Case {
        lost_calls: &[calls],
        ..over(OLD, ONE_SAVE)
    };
    let want = Want {
        status: 6,
        told: &[told],
        calls,
        root: Some(root.as_bytes()),
    };
    check(rt, alloc, &case, &want, told)
}

// Each reply comes when the save is durable, and not before.
#[test]
fn a_reply_is_told_after_its_command(rt: HostRuntime) -> Result<(), Fail> {
    for (calls, told, root) in TOLD {
        check_told(&rt, rt.alloc(), *calls, told, root)?;
    }
    Ok(())
}

#[test]
fn each_stop_leaves_the_old_file_or_the_new(rt: HostRuntime) -> Result<(), Fail> {
    let alloc = rt.alloc();
    let once = ran(alloc, &over(OLD, ONE_SAVE))?;
    assert_eq!(rt; once.desk.calls(), 14);
    check_stops(&rt, alloc, &once.desk, ONE)
}

#[test]
fn each_stop_in_two_saves_leaves_one_of_them(rt: HostRuntime) -> Result<(), Fail> {
    let alloc = rt.alloc();
    let twice = ran(alloc, &over(OLD, TWO_SAVES))?;
    assert_eq!(rt; twice.desk.calls(), 24);
    check_stops(&rt, alloc, &twice.desk, TWO)
}
