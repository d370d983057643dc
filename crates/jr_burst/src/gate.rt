// The commit marker: a file that holds `OPEN` or doesn't.
ghost use Rattle.std.specs.Prelude.{◌≡◌, ◌≤◌, IsTrue, not, IfOk, OnOk, IsErrOf};
ghost use Rattle.bk_desk.specs.declared.desk_name.DeskName.TheVariants.{Gate};
ghost use Rattle.bk_desk.specs.Disk.{IsCrashState, Syncs, NothingPending};
ghost use Rattle.bk_desk.specs.CrashPoints.{AtEachCrash, Elapses};
ghost use Rattle.bk_desk.specs.Cause.{HasCause, StaysFaultless};
ghost use Rattle.jr_burst.specs.SavedFiles.{is_open_gate};
ghost use Rattle.jr_burst.specs.Commit.{IsClosed};
ghost use Rattle.jr_burst.specs.Recover.{got_is_open};

use bk_desk::{Desk, DeskErr, DeskName, Got};

/// What an open gate holds.
pub(crate) const OPEN: [u8; 4] = *b"OPEN";

fn is_open(got: &Got) -> bool
    ensures value { result ≡ got_is_open got.now }
{
    match got {
        Got::Bytes(bytes) => {
            let text: &[u8] = &OPEN;
            bytes.as_slice() == text
        }
        Got::Absent => false,
        Got::Longer => false,
    }
}

/// Whether the gate reads as open.
pub(crate) fn read_gate<D: Desk>(desk: &mut D) -> Result<bool, DeskErr>
    ensures value { IsTrue D.tells → IfOk result (λ answer. answer ≡ is_open_gate ((D.standing desk.old).files Gate)) }
    ensures same { IsTrue D.tells → D.standing desk.new ≡ D.standing desk.old }
    ensures crash { IsTrue D.tells → Elapses (D.time desk.old) (D.time desk.new) (D.was desk.old) (D.was desk.new) (IsCrashState (D.standing desk.old)) }
    ensures no_fault { StaysFaultless D.faultless D.faults desk.old desk.new }
    ensures cause_desk { HasCause (D.faults desk.old) (D.faults desk.new) (IsErrOf result DeskErr.Failed) }
    ensures cause_memory { HasCause (D.refused desk.old) (D.refused desk.new) (IsErrOf result DeskErr.NoMemory) }
{
    let got = desk.read(&DeskName::Gate, 5)?;
    Ok(is_open(&got))
}

/// Makes all durable, and answers whether the gate is closed. Where it is, `commit` may be called.
pub fn is_closed<D: Desk>(desk: &mut D) -> Result<bool, DeskErr>
    ensures value { IsTrue D.tells → IfOk result (λ answer. answer ≡ not (is_open_gate ((D.standing desk.old).files Gate))) }
    ensures keeps { IsTrue D.tells → IfOk result (λ answer. IsTrue answer → IsClosed (D.standing desk.new)) }
    ensures durable { IsTrue D.tells → OnOk result (NothingPending (D.standing desk.new)) }
    ensures same { IsTrue D.tells → Syncs (D.standing desk.old) (D.standing desk.new) }
    ensures crash { IsTrue D.tells → AtEachCrash D.time D.was desk.old desk.new (IsCrashState (D.standing desk.old)) }
    ensures no_fault { StaysFaultless D.faultless D.faults desk.old desk.new }
    ensures cause_desk { HasCause (D.faults desk.old) (D.faults desk.new) (IsErrOf result DeskErr.Failed) }
    ensures cause_memory { HasCause (D.refused desk.old) (D.refused desk.new) (IsErrOf result DeskErr.NoMemory) }
{
    desk.sync()?;
    let is_open = read_gate(desk)?;
    Ok(!is_open)
}
