ghost use Rattle.std.specs.Prelude.{◌≡◌, ◌≤◌, ◌⊎◌, [], List, ℕ, Some, None, IsTrue, OnOk, IsErrOf};
ghost use Rattle.bk_desk.specs.declared.desk_name.DeskName.TheVariants.{Journal, Gate};
ghost use Rattle.bk_desk.specs.CrashPoints.{AtEachCrash};
ghost use Rattle.bk_desk.specs.Cause.{HasCause, StaysFaultless};
ghost use Rattle.jr_burst.specs.SavedFiles.{overlaid, book_files, is_open_gate, items_in};
ghost use Rattle.jr_burst.specs.Commit.{IsOldOrNew, RecoversTo, HasOpenJournal, IsClosed, IsCarriedOut, Leaves};

use crate::gate::OPEN;
use crate::planned::Plan;
use crate::step::Step;
use bk_desk::{Desk, DeskErr, DeskName};

/// Writes the journal, makes it durable, and opens the gate.
pub(crate) fn open_gate<D: Desk>(desk: &mut D, plan: &Plan) -> Result<(), DeskErr>
    requires current { IsTrue D.tells → IsClosed (D.standing desk.old) }
    ensures value { IsTrue D.tells → OnOk result (HasOpenJournal plan.now (D.standing desk.new)) }
    ensures durable { IsTrue D.tells → OnOk result (Leaves (book_files (D.standing desk.old).files) (D.standing desk.old) (D.standing desk.new)) }
    ensures crash { IsTrue D.tells → AtEachCrash D.time D.was desk.old desk.new (IsOldOrNew (D.standing desk.old) plan.now) }
    ensures no_fault { StaysFaultless D.faultless D.faults desk.old desk.new }
    ensures cause_desk { HasCause (D.faults desk.old) (D.faults desk.new) (IsErrOf result DeskErr.Failed) }
    ensures cause_memory { HasCause (D.refused desk.old) (D.refused desk.new) (IsErrOf result DeskErr.NoMemory) }
{
    desk.write_file(&DeskName::Journal, &plan.journal)?;
    desk.sync()?;
    desk.write_file(&DeskName::Gate, &OPEN)?;
    desk.sync()
}

/// Writes and removes the files of a journal under an open gate.
pub(crate) fn carry_out<D: Desk>(desk: &mut D, steps: &[Step]) -> Result<(), DeskErr>
    requires current { IsTrue D.tells → HasOpenJournal steps.now (D.standing desk.old) }
    ensures value { IsTrue D.tells → OnOk result (IsCarriedOut (D.standing desk.new)) }
    ensures durable { IsTrue D.tells → OnOk result (Leaves (overlaid steps.now (book_files (D.standing desk.old).files)) (D.standing desk.old) (D.standing desk.new)) }
    ensures crash { IsTrue D.tells → AtEachCrash D.time D.was desk.old desk.new (RecoversTo (overlaid steps.now (book_files (D.standing desk.old).files)) (D.standing desk.old) steps.now) }
    ensures no_fault { StaysFaultless D.faultless D.faults desk.old desk.new }
    ensures cause_desk { HasCause (D.faults desk.old) (D.faults desk.new) (IsErrOf result DeskErr.Failed) }
    ensures cause_memory { HasCause (D.refused desk.old) (D.refused desk.new) (IsErrOf result DeskErr.NoMemory) }
{
    for step in steps {
        step.perform(desk)?;
    }
    desk.sync()
}

/// Closes the gate after the files are written.
pub(crate) fn close_gate<D: Desk>(desk: &mut D) -> Result<(), DeskErr>
    requires current { IsTrue D.tells → IsCarriedOut (D.standing desk.old) }
    ensures value { IsTrue D.tells → OnOk result ((D.standing desk.new).files Gate ≡ None) }
    ensures durable { IsTrue D.tells → OnOk result (Leaves (book_files (D.standing desk.old).files) (D.standing desk.old) (D.standing desk.new)) }
    ensures crash { IsTrue D.tells → AtEachCrash D.time D.was desk.old desk.new (RecoversTo (book_files (D.standing desk.old).files) (D.standing desk.old) []) }
    ensures no_fault { StaysFaultless D.faultless D.faults desk.old desk.new }
    ensures cause_desk { HasCause (D.faults desk.old) (D.faults desk.new) (IsErrOf result DeskErr.Failed) }
    ensures cause_memory { HasCause (D.refused desk.old) (D.refused desk.new) (IsErrOf result DeskErr.NoMemory) }
{
    desk.remove(&DeskName::Gate)?;
    desk.sync()
}

/// Writes and removes the files of the plan. After a stop at any point they are all as before or all as planned.
/// It takes no memory of its own: an error is the desk's. After one, `recover` brings the files to either.
pub fn commit<D: Desk>(desk: &mut D, plan: &Plan) -> Result<(), DeskErr>
    // Its test is `is_closed`.
    requires current { IsTrue D.tells → IsClosed (D.standing desk.old) }
    ensures value { IsTrue D.tells → OnOk result ((D.standing desk.new).files Gate ≡ None) }
    ensures durable { IsTrue D.tells → OnOk result (Leaves (overlaid plan.now (book_files (D.standing desk.old).files)) (D.standing desk.old) (D.standing desk.new)) }
    ensures crash { IsTrue D.tells → AtEachCrash D.time D.was desk.old desk.new (IsOldOrNew (D.standing desk.old) plan.now) }
    ensures no_fault { StaysFaultless D.faultless D.faults desk.old desk.new }
    ensures cause_desk { HasCause (D.faults desk.old) (D.faults desk.new) (IsErrOf result DeskErr.Failed) }
    ensures cause_memory { HasCause (D.refused desk.old) (D.refused desk.new) (IsErrOf result DeskErr.NoMemory) }
{
    open_gate(desk, plan)?;
    carry_out(desk, &plan.steps)?;
    close_gate(desk)
}
