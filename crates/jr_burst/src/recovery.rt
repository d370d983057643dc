ghost use Rattle.std.specs.Prelude.{◌≡◌, ◌≤◌, List, ℕ, Some, None, IsTrue, false, IfOk, OnOk, IsErrOf};
ghost use Rattle.std.specs.Option.{option_map};
ghost use Rattle.bk_desk.specs.declared.desk_name.DeskName.TheVariants.{Journal, Gate};
ghost use Rattle.bk_desk.specs.Disk.{IsCrashState, Syncs, NothingPending};
ghost use Rattle.bk_desk.specs.CrashPoints.{AtEachCrash, Elapses};
ghost use Rattle.bk_desk.specs.Cause.{HasCause, StaysFaultless};
ghost use Rattle.jr_burst.specs.SavedFiles.{is_open_gate, items_in, recovered_files};
ghost use Rattle.jr_burst.specs.Commit.{HasOpenJournal};
ghost use Rattle.jr_burst.specs.Recover.{items_got, fault_of, IsRecovered, IsStartOrRecovered, IsOnlySynced, HasOpenGate};

use crate::atomic_commit::{carry_out, close_gate};
use crate::gate::read_gate;
use crate::make::steps_of;
use crate::step::Step;
use bk_desk::{Desk, DeskErr, DeskName, Got};
use jr_form::{Item, read_journal};
use std::alloc::{AllocError, Global};
use thiserror::Error;

/// Why the files were not brought to what they stand for.
#[derive(Clone, Copy, Debug, PartialEq, Eq, Drop, Error)]
pub enum RecoverFault {
    /// The disk failed: its count of faults rose in this call.
    #[error("the disk failed")]
    Desk,
    /// The gate is open and the journal has no reading, as a cut one. Nothing was written.
    #[error("the journal is damaged")]
    Journal,
    /// Memory was wanting, here or on the desk.
    #[error("out of memory")]
    NoMemory,
}

impl From<DeskErr> for RecoverFault {
    ghost from_gives = { λ e fault. fault ≡ fault_of e };

    fn from(e: DeskErr) -> Self {
        match e {
            DeskErr::Failed => RecoverFault::Desk,
            DeskErr::NoMemory => RecoverFault::NoMemory,
        }
    }
}

fn items_of(alloc: Global, got: &Got) -> Result<Option<Vec<Item>>, AllocError>
    ensures value { IfOk result (λ found. option_map (λ v. v.items) found ≡ items_got got.now) }
{
    match got {
        Got::Bytes(bytes) => read_journal(alloc, bytes.as_slice()),
        Got::Absent => Ok(None),
        Got::Longer => Ok(None),
    }
}

/// The items of the journal, where it has a reading.
pub(crate) fn read_items<D: Desk>(
    alloc: Global,
    desk: &mut D,
) -> Result<Option<Vec<Item>>, RecoverFault>
    ensures value { IsTrue D.tells → IfOk result (λ found. option_map (λ v. v.items) found ≡ items_in ((D.standing desk.old).files Journal)) }
    ensures same { IsTrue D.tells → D.standing desk.new ≡ D.standing desk.old }
    ensures crash { IsTrue D.tells → Elapses (D.time desk.old) (D.time desk.new) (D.was desk.old) (D.was desk.new) (IsCrashState (D.standing desk.old)) }
    ensures fault { IsErrOf result RecoverFault.Journal → ⊥ }
    ensures no_fault { StaysFaultless D.faultless D.faults desk.old desk.new }
    ensures cause_desk { HasCause (D.faults desk.old) (D.faults desk.new) (IsErrOf result RecoverFault.Desk) }
{
    let got = desk.read(&DeskName::Journal, 68450316)?;
    match items_of(alloc, &got) {
        Ok(found) => Ok(found),
        Err(_) => Err(RecoverFault::NoMemory),
    }
}

/// Carries out these items of the journal under an open gate, and closes it.
fn redo_steps<D: Desk>(desk: &mut D, steps: &[Step]) -> Result<(), DeskErr>
    requires current { IsTrue D.tells → HasOpenJournal steps.now (D.standing desk.old) }
    ensures durable { IsTrue D.tells → OnOk result (IsRecovered (D.standing desk.old) (D.standing desk.new)) }
    ensures crash { IsTrue D.tells → AtEachCrash D.time D.was desk.old desk.new (IsStartOrRecovered (D.standing desk.old)) }
    ensures no_fault { StaysFaultless D.faultless D.faults desk.old desk.new }
    ensures cause_desk { HasCause (D.faults desk.old) (D.faults desk.new) (IsErrOf result DeskErr.Failed) }
    ensures cause_memory { HasCause (D.refused desk.old) (D.refused desk.new) (IsErrOf result DeskErr.NoMemory) }
{
    carry_out(desk, steps)?;
    close_gate(desk)
}

/// Reads the journal under an open gate, carries it out, and closes the gate.
fn redo<D: Desk>(alloc: Global, desk: &mut D) -> Result<(), RecoverFault>
    requires current { IsTrue D.tells → HasOpenGate (D.standing desk.old) }
    ensures durable { IsTrue D.tells → OnOk result (IsRecovered (D.standing desk.old) (D.standing desk.new)) }
    ensures fault { IsTrue D.tells → IsErrOf result RecoverFault.Journal → recovered_files (D.standing desk.old).files ≡ None }
    ensures same { IsTrue D.tells → IsErrOf result RecoverFault.Journal → D.standing desk.new ≡ D.standing desk.old }
    ensures none { IsTrue D.tells → recovered_files (D.standing desk.old).files ≡ None → D.standing desk.new ≡ D.standing desk.old }
    ensures crash { IsTrue D.tells → AtEachCrash D.time D.was desk.old desk.new (IsStartOrRecovered (D.standing desk.old)) }
    ensures no_fault { StaysFaultless D.faultless D.faults desk.old desk.new }
    ensures cause_desk { HasCause (D.faults desk.old) (D.faults desk.new) (IsErrOf result RecoverFault.Desk) }
{
    match read_items(alloc, desk)? {
        None => Err(RecoverFault::Journal),
        Some(items) => match steps_of(alloc, items) {
            Ok(steps) => Ok(redo_steps(desk, &steps)?),
            Err(_) => Err(RecoverFault::NoMemory),
        },
    }
}

/// Brings the files to what they stand for after a stop. It may be stopped at any point itself.
/// Where the gate is closed it writes nothing: a journal beside it is left as it is.
pub fn recover<D: Desk>(alloc: Global, desk: &mut D) -> Result<(), RecoverFault>
    ensures durable { IsTrue D.tells → OnOk result (IsRecovered (D.standing desk.old) (D.standing desk.new)) }
    ensures fault { IsTrue D.tells → IsErrOf result RecoverFault.Journal → recovered_files (D.standing desk.old).files ≡ None }
    ensures same { IsTrue D.tells → IsErrOf result RecoverFault.Journal → IsOnlySynced (D.standing desk.old) (D.standing desk.new) }
    ensures others { IsTrue D.tells → is_open_gate ((D.standing desk.old).files Gate) ≡ false → Syncs (D.standing desk.old) (D.standing desk.new) }
    // A damaged journal: nothing is written, whatever the answer.
    ensures none { IsTrue D.tells → recovered_files (D.standing desk.old).files ≡ None → Syncs (D.standing desk.old) (D.standing desk.new) }
    ensures crash { IsTrue D.tells → AtEachCrash D.time D.was desk.old desk.new (IsStartOrRecovered (D.standing desk.old)) }
    ensures no_fault { StaysFaultless D.faultless D.faults desk.old desk.new }
    ensures cause_desk { HasCause (D.faults desk.old) (D.faults desk.new) (IsErrOf result RecoverFault.Desk) }
{
    desk.sync()?;
    if read_gate(desk)? {
        redo(alloc, desk)
    } else {
        Ok(())
    }
}
