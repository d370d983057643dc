//! Scripts that are carried out over a disk in memory.
ghost use Rattle.std.specs.Prelude.{◌≡◌};

use bk_desk::{DeskName, MemDesk};
use bk_name::Name;
use bk_run::{Stop, tell_replies};
use bk_script::read_script;
use ed_session::start;
use std::alloc::{AllocError, Global};
use std::marker::Brand;
use std::sync::ledger::{Blank, Ledger};
use std::test::Fail;
use xt_lex::Steps;

// A script, the calls of the disk that fail, what is told, whether a command was refused, and the file afterwards.
struct Case {
    script: &'static [u8],
    fails: &'static [u64],
    told: &'static [u8],
    answer: Result<bool, Stop>,
    file: &'static [u8],
}

// The start makes three calls: a sync, and two reads.
const CASES: &[Case] = &[
    Case {
        script: b"burst\n",
        fails: &[],
        told: b"burst 0\n",
        answer: Ok(false),
        file: b"<a>old</a>",
    },
    Case {
        script: b"text /1/1 0 3 \"new\"\nburst\nburst\n",
        fails: &[],
        told: b"ok\nburst 1\nburst 0\n",
        answer: Ok(false),
        file: b"<a>new</a>",
    },
    Case {
        script: b"text /1 0 0 \"x\"\ntext /1/2 0 0 \"x\"\ntext /1/1 2 4 \"x\"\ntext /1/1 0 0 \"x\"\n",
        fails: &[],
        told: b"refused WrongKind\nrefused NoSuchPlace\nrefused BadRange\nok\n",
        answer: Ok(true),
        file: b"<a>old</a>",
    },
    Case {
        script: b"text /1/1 0 3 \"new\"\nburst\nburst\n",
        fails: &[5],
        told: b"ok\n",
        answer: Err(Stop::Fault),
        file: b"<a>old</a>",
    },
];

fn carried_out<L: Ledger>(alloc: Global, case: &Case, blank: Blank) -> Result<bool, Fail>
    requires name { blank.name ≡ L.name }
    requires parts { blank.parts ≡ L.parts }
    requires some { L.parts ≡ 1 }
{
    let Ok(root) = Name::read(alloc, b"a.xml") else {
        return Err(Fail::from(AllocError));
    };
    let file = DeskName::Book(root.share()?);
    let mut files = Vec::new(alloc);
    files.push((file.share()?, Vec::from_slice(alloc, b"<a>old</a>")?))?;
    let mut desk = MemDesk::new(alloc, files, Vec::from_slice(alloc, case.fails)?)?;
    let mut steps = Steps::<L>::new(blank);
    let Ok(commands) = read_script(alloc, case.script) else {
        return Err(Fail::from(AllocError));
    };
    let Ok(mut session) = start(alloc, &mut desk, &root, &mut steps) else {
        return Err(Fail::from(AllocError));
    };
    let answer = tell_replies(alloc, &mut session, &commands, &mut desk, &mut steps);
    if answer == Err(Stop::NoMemory) {
        return Err(Fail::from(AllocError));
    }
    Ok(answer == case.answer && desk.told() == case.told && desk.file(&file) == Some(case.file))
}

fn is_carried_out(alloc: Global, case: &Case) -> Result<bool, Fail> {
    let blank = Blank::new(1);
    carried_out::<Brand>(alloc, case, blank)
}

#[test]
fn scripts_are_carried_out(rt: HostRuntime) -> Result<(), Fail> {
    let alloc = rt.alloc();
    for case in CASES {
        assert!(rt; is_carried_out(alloc, case)?);
    }
    Ok(())
}
