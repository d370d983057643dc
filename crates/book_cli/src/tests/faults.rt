//! Each call of the disk failing in turn.
use super::{Case, HEAD, Want, book_file, check, opened_again, over, ran};
use bk_desk::DeskName;
use std::alloc::Global;
use std::process::Abort;
use std::test::Fail;

/// A run whose call of this number fails: it ends at once with status 6, what it told is a front of the whole output,
/// and a further run over the same disk finds one of these roots.
fn check_fault(
    rt: &impl Abort,
    alloc: Global,
    case: &Case,
    told: &[u8],
    call: u64,
    roots: &[&[u8]],
) -> Result<(), Fail> {
    let lost_calls = &[call];
    let mut outcome = ran(
        alloc,
        &Case {
            lost_calls,
            ..*case
        },
    )?;
    assert_eq!(rt; outcome.status, 6, "call {call}");
    assert_eq!(rt; outcome.desk.calls(), call);
    assert!(rt; told.starts_with(outcome.desk.told()), "call {call}");
    assert!(rt; outcome.desk.told().len() < told.len(), "call {call}");
    assert_eq!(rt; opened_again(alloc, &mut outcome.desk)?, 0, "call {call}");
    let file = book_file(alloc, "book.xml")?;
    let mut is_one = false;
    for root in roots {
        is_one = is_one || outcome.desk.file(&file) == Some(*root);
    }
    assert!(rt; is_one, "call {call}");
    assert!(rt; outcome.desk.file(&DeskName::Gate).is_none(), "call {call}");
    Ok(())
}

// Edits, a refusal, a save, a save of nothing, and another save.
#[test]
fn a_run_ends_where_a_call_fails(rt: HostRuntime) -> Result<(), Fail> {
    let alloc = rt.alloc();
    let script =
        "text /1/1 0 1 \"y\"\ntext /1 0 0 \"\"\nburst\nburst\ntext /1/1 0 1 \"z\"\nburst\n";
    let told = [
        "ok\nrefused WrongKind\nburst 1\nburst 0\nok\nburst 1\n",
        HEAD,
        "  text \"z\" in book.xml\n",
    ];
    let case = over("<a>x</a>", script);
    let want = Want {
        status: 1,
        told: &told,
        calls: 26,
        root: Some(b"<a>z</a>"),
    };
    check(&rt, alloc, &case, &want, script)?;
    let whole = super::joined(alloc, &told)?;
    for call in 1..=26 {
        let roots: &[&[u8]] = if call < 14 {
            &[b"<a>x</a>", b"<a>y</a>"]
        } else if call < 25 {
            &[b"<a>y</a>", b"<a>z</a>"]
        } else {
            &[b"<a>z</a>"]
        };
        check_fault(&rt, alloc, &case, &whole, call, roots)?;
    }
    Ok(())
}

/// A journal that writes book.xml with the bytes `<a>n</a>`.
const JOURNAL: &[u8] = b"BKBURST1\x00\x00\x00\x01\x01\x00\x08book.xml\x00\x00\x00\x08<a>n</a>";

// The book is recovered by the first seven calls, or by the next run.
#[test]
fn a_recovery_that_fails_is_made_by_the_next_run(rt: HostRuntime) -> Result<(), Fail> {
    let alloc = rt.alloc();
    let case = Case {
        journal: Some(JOURNAL),
        gate: Some(b"OPEN"),
        ..over("<a>o</a>", "")
    };
    let told = [HEAD, "  text \"n\" in book.xml\n"];
    let want = Want {
        status: 0,
        told: &told,
        calls: 9,
        root: Some(b"<a>n</a>"),
    };
    check(&rt, alloc, &case, &want, "no fault")?;
    let whole = super::joined(alloc, &told)?;
    for call in 1..=9 {
        check_fault(&rt, alloc, &case, &whole, call, &[b"<a>n</a>"])?;
    }
    Ok(())
}

// The line of a fault is told by the last call.
#[test]
fn a_line_that_cannot_be_told_ends_the_run(rt: HostRuntime) -> Result<(), Fail> {
    let plain = over("<a>x</a>", "");
    for (case, call) in [
        (
            Case {
                words: &[],
                ..plain
            },
            1,
        ),
        (
            Case {
                script: b"undo",
                ..plain
            },
            1,
        ),
        (
            Case {
                lost_reads: &[1],
                ..plain
            },
            1,
        ),
        (
            Case {
                root: None,
                ..plain
            },
            4,
        ),
        (
            Case {
                root: Some(b"<a>"),
                ..plain
            },
            4,
        ),
        (
            Case {
                gate: Some(b"OPEN"),
                ..plain
            },
            4,
        ),
    ] {
        let lost = Case {
            lost_calls: &[call],
            ..case
        };
        let want = Want {
            status: 6,
            told: &[],
            calls: call,
            root: case.root,
        };
        check(&rt, rt.alloc(), &lost, &want, "a line")?;
    }
    Ok(())
}
