//! Commands are carried out one after the other, and the reply to each is told.
ghost use Rattle.std.specs.Prelude.{◌≡◌, ◌≤◌, ◌+◌, ◌*◌, ◌++◌, ℕ, List, IsTrue, IfOk, OnOk, IsOk, IsErrOf, take, map, length};
ghost use Rattle.xt_spec.specs.Limit.{most_file_bytes};
ghost use Rattle.bk_desk.specs.Disk.{Tells, TellsPrefix, WhileTelling};
ghost use Rattle.bk_desk.specs.CrashPoints.{AtEachCrash};
ghost use Rattle.bk_desk.specs.Cause.{HasCause, StaysFaultless};
ghost use Rattle.jr_burst.specs.Commit.{IsClosed};
ghost use Rattle.bk_script.specs.View.{command_of};
ghost use Rattle.ed_spec.specs.Session as model;
ghost use Rattle.ed_session.specs.Start.{TakesSteps};
ghost use Rattle.bk_run.specs.Replies.{reply_of, reply_text, replies_text, AreCommandsOf};
ghost use Rattle.bk_run.specs.Counts.{steps_of, all_steps};
ghost use Rattle.bk_run.specs.Stops.{IsOfOneBurst};
ghost use Rattle.bk_run.specs.Doing.{asked_of, Stands};
ghost use Rattle.bk_run.specs.Telling.{IsTold, AreTold, MayStop};

use crate::doing::perform;
use crate::replies::Reply;
use crate::stop::Stop;
use bk_desk::Desk;
use bk_script::Command;
use ed_session::Session;
use std::alloc::Global;
use std::sync::ledger::Ledger;
use xt_lex::Steps;

fn tell_reply<D: Desk>(alloc: Global, reply: Reply, desk: &mut D) -> Result<(), Stop>
    ensures output { IsTrue D.tells → OnOk result (Tells (reply_text (reply_of reply)) (D.standing desk.old) (D.standing desk.new)) }
    ensures prefix { IsTrue D.tells → TellsPrefix (reply_text (reply_of reply)) (D.standing desk.old) (D.standing desk.new) }
    ensures crash { IsTrue D.tells → AtEachCrash D.time D.was desk.old desk.new (WhileTelling (reply_text (reply_of reply)) (D.standing desk.old)) }
    ensures no_fault { StaysFaultless D.faultless D.faults desk.old desk.new }
    ensures cause_desk { HasCause (D.faults desk.old) (D.faults desk.new) (IsErrOf result Stop.Fault) }
{
    let text = reply.text(alloc)?;
    desk.tell(text.as_slice())?;
    Ok(())
}

/// Carries out a command, and tells its reply: whether it was refused.
fn answer<D: Desk, L: Ledger>(
    alloc: Global,
    session: &mut Session,
    command: &Command,
    desk: &mut D,
    steps: &mut Steps<L>,
) -> Result<bool, Stop>
    requires current { IsTrue D.tells → IsClosed (D.standing desk.old) }
    ensures value { IsTrue D.tells → (s : model.Session) → Stands session.old (D.standing desk.old) s
        → IfOk result (λ refused. IsTold session.old.root s (asked_of command.now) session.new (D.standing desk.old) (D.standing desk.new) refused) }
    ensures keeps { IsTrue D.tells → OnOk result (IsClosed (D.standing desk.new)) }
    ensures prefix { IsTrue D.tells → (s next : model.Session) (reply : model.Reply) → Stands session.old (D.standing desk.old) s → model.Does session.old.root s (asked_of command.now) reply next
        → (count : ℕ) × ((D.standing desk.new).told ≡ (D.standing desk.old).told ++ take count (reply_text reply)) }
    ensures crash { IsTrue D.tells → (s next : model.Session) (reply : model.Reply) → Stands session.old (D.standing desk.old) s → model.Does session.old.root s (asked_of command.now) reply next
        → AtEachCrash D.time D.was desk.old desk.new (MayStop (D.standing desk.old) s.saved next.saved reply) }
    ensures no_fault { StaysFaultless D.faultless D.faults desk.old desk.new }
    ensures cause_desk { HasCause (D.faults desk.old) (D.faults desk.new) (IsErrOf result Stop.Fault) }
    ensures count { (steps.old ≤ steps.new) × (steps.new ≤ steps.old + most_file_bytes) }
    ensures exact { IsTrue D.tells → (s next : model.Session) (reply : model.Reply) → Stands session.old (D.standing desk.old) s → model.Does session.old.root s (asked_of command.now) reply next
        → TakesSteps (IsOk result) (steps_of session.old.root (asked_of command.now) (record { reply = reply; session = next })) steps.old steps.new }
{
    let reply = perform(session, command, desk, steps)?;
    tell_reply(alloc, reply, desk)?;
    Ok(reply.is_refused())
}

/// Carries out commands, the first of them first, and tells the reply to each: whether some command was refused.
///
/// It ends early where the disk, the output or memory fails: what was told is then a front of the replies. A crash at any
/// point leaves one save's files, and at least as many saves as were told.
pub fn tell_replies<D: Desk, L: Ledger>(
    alloc: Global,
    session: &mut Session,
    commands: &[Command],
    desk: &mut D,
    steps: &mut Steps<L>,
) -> Result<bool, Stop>
    // So it stands after `ed_session`'s `start`.
    requires current { IsTrue D.tells → IsClosed (D.standing desk.old) }
    ensures value { IsTrue D.tells → (s : model.Session) (asked : List model.Command) → Stands session.old (D.standing desk.old) s → AreCommandsOf (map command_of commands.now) asked
        → IfOk result (λ refused. AreTold session.old.root s asked session.new (D.standing desk.old) (D.standing desk.new) refused) }
    ensures prefix { IsTrue D.tells → (s last : model.Session) (asked : List model.Command) (replies : List model.Step) → Stands session.old (D.standing desk.old) s
        → AreCommandsOf (map command_of commands.now) asked → model.DoesAll session.old.root s asked replies last
        → (count : ℕ) × ((D.standing desk.new).told ≡ (D.standing desk.old).told ++ take count (replies_text replies)) }
    ensures crash { IsTrue D.tells → (s last : model.Session) (asked : List model.Command) (replies : List model.Step) (more : List ℕ) → Stands session.old (D.standing desk.old) s
        → AreCommandsOf (map command_of commands.now) asked → model.DoesAll session.old.root s asked replies last
        → AtEachCrash D.time D.was desk.old desk.new (IsOfOneBurst (D.standing desk.old) s.saved replies more) }
    ensures no_fault { StaysFaultless D.faultless D.faults desk.old desk.new }
    ensures cause_desk { HasCause (D.faults desk.old) (D.faults desk.new) (IsErrOf result Stop.Fault) }
    ensures count { (steps.old ≤ steps.new) × (steps.new ≤ steps.old + length commands.now * most_file_bytes) }
    ensures exact { IsTrue D.tells → (s last : model.Session) (asked : List model.Command) (replies : List model.Step) → Stands session.old (D.standing desk.old) s
        → AreCommandsOf (map command_of commands.now) asked → model.DoesAll session.old.root s asked replies last
        → TakesSteps (IsOk result) (all_steps session.old.root asked replies) steps.old steps.new }
{
    let mut refused = false;
    for command in commands {
        let one = answer(alloc, session, command, desk, steps)?;
        refused = refused || one;
    }
    Ok(refused)
}
