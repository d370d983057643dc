//! A command is carried out over a session and a disk.
ghost use Rattle.std.specs.Prelude.{◌≡◌, ◌≤◌, ◌+◌, IsTrue, IfOk, OnOk, IsOk, IsErrOf};
ghost use Rattle.xt_spec.specs.Limit.{most_file_bytes};
ghost use Rattle.bk_desk.specs.Disk.{DiskState};
ghost use Rattle.bk_desk.specs.CrashPoints.{AtEachCrash};
ghost use Rattle.bk_desk.specs.Cause.{HasCause, StaysFaultless};
ghost use Rattle.jr_burst.specs.Commit.{IsClosed};
ghost use Rattle.ed_edit.specs.View.{edit_of};
ghost use Rattle.ed_session.specs.Burst.{MayCrashInBurst};
ghost use Rattle.ed_spec.specs.Session as model;
ghost use Rattle.ed_session.specs.Start.{TakesSteps};
ghost use Rattle.bk_run.specs.Replies.{reply_of};
ghost use Rattle.bk_run.specs.Counts.{steps_of};
ghost use Rattle.bk_run.specs.Doing.{asked_of, Stands, IsDone, MayCrashIn};

use crate::replies::Reply;
use crate::stop::Stop;
use bk_desk::{Desk, DeskErr};
use bk_script::Command;
use ed_edit::Edit;
use ed_session::{EditFault, Session};
use std::sync::ledger::Ledger;
use xt_lex::Steps;

/// Makes an edit, or says why not. The disk is not touched.
fn make_edit<L: Ledger>(
    session: &mut Session,
    edit: &Edit,
    steps: &mut Steps<L>,
) -> Result<Reply, Stop>
    ensures value { (s : model.Session) (disk : DiskState) → Stands session.old disk s → IfOk result (λ reply. IsDone session.old.root s (model.edit (edit_of edit.now)) (reply_of reply) session.new disk) }
    ensures fault { IsErrOf result Stop.Fault → ⊥ }
    ensures count { (steps.old ≤ steps.new) × (steps.new ≤ steps.old + most_file_bytes) }
    ensures exact { (s next : model.Session) (reply : model.Reply) (disk : DiskState) → Stands session.old disk s → model.Does session.old.root s (model.edit (edit_of edit.now)) reply next
        → TakesSteps (IsOk result) (steps_of session.old.root (model.edit (edit_of edit.now)) (record { reply = reply; session = next })) steps.old steps.new }
{
    match session.edit(edit, steps) {
        Ok(()) => Ok(Reply::Done),
        Err(EditFault::Refused(refusal)) => Ok(Reply::Refused(refusal)),
        Err(EditFault::NoMemory) => Err(Stop::NoMemory),
    }
}

/// Saves the root, where it differs from what was saved.
fn save<D: Desk>(session: &mut Session, desk: &mut D) -> Result<Reply, Stop>
    requires current { IsTrue D.tells → IsClosed (D.standing desk.old) }
    ensures value { IsTrue D.tells → (s : model.Session) → Stands session.old (D.standing desk.old) s → IfOk result (λ reply. IsDone session.old.root s model.burst (reply_of reply) session.new (D.standing desk.new)) }
    ensures keeps { IsTrue D.tells → OnOk result (IsClosed (D.standing desk.new)) }
    ensures crash { IsTrue D.tells → AtEachCrash D.time D.was desk.old desk.new (MayCrashInBurst session.old (D.standing desk.old)) }
    ensures no_fault { StaysFaultless D.faultless D.faults desk.old desk.new }
    ensures cause_desk { HasCause (D.faults desk.old) (D.faults desk.new) (IsErrOf result Stop.Fault) }
{
    match session.burst(desk) {
        Ok(count) => Ok(Reply::Saved(count)),
        Err(DeskErr::Failed) => Err(Stop::Fault),
        Err(DeskErr::NoMemory) => Err(Stop::NoMemory),
    }
}

/// Carries out a command: what is to be told of it. An edit leaves the disk as it is.
pub(crate) fn perform<D: Desk, L: Ledger>(
    session: &mut Session,
    command: &Command,
    desk: &mut D,
    steps: &mut Steps<L>,
) -> Result<Reply, Stop>
    requires current { IsTrue D.tells → IsClosed (D.standing desk.old) }
    ensures value { IsTrue D.tells → (s : model.Session) → Stands session.old (D.standing desk.old) s → IfOk result (λ reply. IsDone session.old.root s (asked_of command.now) (reply_of reply) session.new (D.standing desk.new)) }
    ensures keeps { IsTrue D.tells → OnOk result (IsClosed (D.standing desk.new)) }
    ensures same { IsTrue D.tells → (D.standing desk.new).told ≡ (D.standing desk.old).told }
    ensures crash { IsTrue D.tells → AtEachCrash D.time D.was desk.old desk.new (MayCrashIn command.now session.old (D.standing desk.old)) }
    ensures no_fault { StaysFaultless D.faultless D.faults desk.old desk.new }
    ensures cause_desk { HasCause (D.faults desk.old) (D.faults desk.new) (IsErrOf result Stop.Fault) }
    ensures count { (steps.old ≤ steps.new) × (steps.new ≤ steps.old + most_file_bytes) }
    ensures exact { IsTrue D.tells → (s next : model.Session) (reply : model.Reply) → Stands session.old (D.standing desk.old) s → model.Does session.old.root s (asked_of command.now) reply next
        → TakesSteps (IsOk result) (steps_of session.old.root (asked_of command.now) (record { reply = reply; session = next })) steps.old steps.new }
{
    match command {
        Command::Edit(edit) => make_edit(session, edit, steps),
        Command::Burst => save(session, desk),
    }
}
