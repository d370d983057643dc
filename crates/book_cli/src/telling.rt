//! A text is told, and the exit status that comes with it is the answer.
ghost use Rattle.std.specs.Prelude.{◌≡◌, ◌≢◌, ◌⊎◌, ℕ, List, Some, IsTrue, IfOk, option_map};
ghost use Rattle.bk_desk.specs.CrashPoints.{AtEachCrash};
ghost use Rattle.bk_desk.specs.Cause.{HasCause, StaysFaultless};
ghost use Rattle.bk_script.specs.View.{script_fault};
ghost use Rattle.book_cli.specs.Output.{script_fault_line};
ghost use Rattle.book_cli.specs.Leaves.{KeepsFiles};
ghost use Rattle.book_cli.specs.Ends.{IsToldWith};

use bk_desk::{Desk, DeskErr};
use bk_run::numbered;
use bk_script::ScriptFault;
use std::alloc::{AllocError, Global};

/// The answer where the disk or the output failed.
pub(crate) const FAULT: u8 = 6;

/// The answer where memory was wanting.
pub(crate) const NO_MEMORY: u8 = 7;

/// Tells a whole text, and gives the status that comes with it.
pub(crate) fn tell<D: Desk>(desk: &mut D, text: &[u8], status: u8) -> u8
    requires fits { status ≢ 6 }
    ensures value { (result ≡ status) ⊎ ((result ≡ 6) ⊎ (result ≡ 7)) }
    ensures output { IsTrue D.tells → IsToldWith status text.now (D.standing desk.old) (D.standing desk.new) (AtEachCrash D.time D.was desk.old desk.new) result }
    ensures no_fault { StaysFaultless D.faultless D.faults desk.old desk.new }
    ensures cause_desk { HasCause (D.faults desk.old) (D.faults desk.new) (result ≡ 6) }
{
    match desk.tell(text) {
        Ok(()) => status,
        Err(DeskErr::Failed) => FAULT,
        Err(DeskErr::NoMemory) => NO_MEMORY,
    }
}

/// The line of a script's fault; want of memory has none.
fn script_line(alloc: Global, fault: ScriptFault) -> Result<Vec<u8>, AllocError>
    ensures value { IfOk result (λ line. option_map script_fault_line (script_fault fault) ≡ Some line.items) }
{
    match fault {
        ScriptFault::Long => Vec::from_slice(alloc, b"fault script long\n"),
        ScriptFault::BadLine { number } => numbered(alloc, b"fault script line ", number),
        ScriptFault::Many => Vec::from_slice(alloc, b"fault script commands\n"),
        ScriptFault::NoMemory => Err(AllocError),
    }
}

/// Tells why a script has no commands.
pub(crate) fn tell_script_fault<D: Desk>(alloc: Global, fault: ScriptFault, desk: &mut D) -> u8
    ensures value { (result ≡ 4) ⊎ ((result ≡ 6) ⊎ (result ≡ 7)) }
    ensures same { fault ≡ ScriptFault.NoMemory → (result ≡ 7) × (desk.new ≡ desk.old) }
    ensures others { IsTrue D.tells → KeepsFiles (D.standing desk.old) (D.standing desk.new) }
    ensures output { IsTrue D.tells → (text : List ℕ) → option_map script_fault_line (script_fault fault) ≡ Some text → IsToldWith 4 text (D.standing desk.old) (D.standing desk.new) (AtEachCrash D.time D.was desk.old desk.new) result }
    ensures no_fault { StaysFaultless D.faultless D.faults desk.old desk.new }
    ensures cause_desk { HasCause (D.faults desk.old) (D.faults desk.new) (result ≡ 6) }
{
    match script_line(alloc, fault) {
        Ok(text) => tell(desk, &text, 4),
        Err(_) => NO_MEMORY,
    }
}
