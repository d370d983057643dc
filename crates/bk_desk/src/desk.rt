ghost use Rattle.std.specs.Prelude.{◌≡◌, ◌≤◌, ℕ, Bool, IsTrue, IfOk, OnOk, IsErrOf, Some, None};
ghost use Rattle.bk_desk.specs.Disk.{DiskState, CrashState, IsCrashState, WhileWriting, WhileTelling, IsWrite, Syncs, NothingPending, Tells, TellsPrefix, got_of, FitsCap};
ghost use Rattle.bk_desk.specs.CrashPoints.{Elapses};
ghost use Rattle.bk_desk.specs.Cause.{HasCause, StaysFaultless};

use crate::DeskName;
use thiserror::Error;
use xt_table::Seq;

/// What a read gives.
#[derive(Debug, Drop)]
pub enum Got {
    /// There is no such file.
    Absent,
    /// The bytes of the file.
    Bytes(Seq<u8>),
    /// The file is longer than the cap.
    Longer,
}

/// Why a call of a desk did not do its work.
#[derive(Clone, Copy, Debug, PartialEq, Eq, Drop, Error)]
pub enum DeskErr {
    /// The disk or the output failed: the count of faults rose in this call.
    #[error("the disk or the output failed")]
    Failed,
    /// The count of refused memory rose in this call.
    #[error("out of memory")]
    NoMemory,
}

/// Files and output. They stand in one trait so that one clock orders them.
///
/// Where it tells its contents, a crash at any point leaves what the ghost member `was` says.
pub trait Desk {
    /// Whether it tells what it holds. A desk over real files doesn't.
    ghost tells: { Bool };

    /// Its files, which of them are pending, and what was told.
    ghost standing: { Self → DiskState };

    /// The clock: it doesn't fall.
    ghost time: { Self → ℕ };

    /// What a crash may have left at any point since that time, in a call or between two.
    ghost was: { Self → ℕ → CrashState → Type 0 };

    /// How often the disk or the output failed. It stands still at 2 ^ 64 - 1.
    ghost faults: { Self → ℕ };

    /// That no later call can fail for want of a disk or an output. A desk over real files is never known to be so.
    ghost faultless: { Self → Type 0 };

    /// How often memory was refused. It stands still at 2 ^ 64 - 1.
    ghost refused: { Self → ℕ };

    /// The file, where it has at most `cap` bytes, else `Longer`. Nothing changes.
    fn read(&mut self, name: &DeskName, cap: usize) -> Result<Got, DeskErr>
        ensures fits { IfOk result (FitsCap cap) }
        ensures value { IsTrue tells → IfOk result (λ got. got ≡ got_of ((standing self.old).files name.now) cap) }
        ensures same { IsTrue tells → standing self.new ≡ standing self.old }
        ensures crash { IsTrue tells → Elapses (time self.old) (time self.new) (was self.old) (was self.new) (IsCrashState (standing self.old)) }
        ensures no_fault { StaysFaultless faultless faults self.old self.new }
        ensures cause_desk { HasCause (faults self.old) (faults self.new) (IsErrOf result DeskErr.Failed) }
        ensures cause_memory { HasCause (refused self.old) (refused self.new) (IsErrOf result DeskErr.NoMemory) };

    /// Afterwards a read gives these bytes. After `Failed` it may give anything.
    fn write_file(&mut self, name: &DeskName, bytes: &[u8]) -> Result<(), DeskErr>
        ensures value { IsTrue tells → IsWrite name.now (Some bytes.now) (standing self.old) (standing self.new) result }
        ensures crash { IsTrue tells → Elapses (time self.old) (time self.new) (was self.old) (was self.new) (WhileWriting name.now (standing self.old)) }
        ensures no_fault { StaysFaultless faultless faults self.old self.new }
        ensures cause_desk { HasCause (faults self.old) (faults self.new) (IsErrOf result DeskErr.Failed) }
        ensures cause_memory { HasCause (refused self.old) (refused self.new) (IsErrOf result DeskErr.NoMemory) };

    /// Afterwards a read gives `Absent`. It is no fault where there was no such file.
    fn remove(&mut self, name: &DeskName) -> Result<(), DeskErr>
        ensures value { IsTrue tells → IsWrite name.now None (standing self.old) (standing self.new) result }
        ensures crash { IsTrue tells → Elapses (time self.old) (time self.new) (was self.old) (was self.new) (WhileWriting name.now (standing self.old)) }
        ensures no_fault { StaysFaultless faultless faults self.old self.new }
        ensures cause_desk { HasCause (faults self.old) (faults self.new) (IsErrOf result DeskErr.Failed) }
        ensures cause_memory { HasCause (refused self.old) (refused self.new) (IsErrOf result DeskErr.NoMemory) };

    /// Afterwards nothing is pending, and a crash leaves what reads give.
    fn sync(&mut self) -> Result<(), DeskErr>
        ensures durable { IsTrue tells → OnOk result (NothingPending (standing self.new)) }
        ensures same { IsTrue tells → Syncs (standing self.old) (standing self.new) }
        ensures crash { IsTrue tells → Elapses (time self.old) (time self.new) (was self.old) (was self.new) (IsCrashState (standing self.old)) }
        ensures no_fault { StaysFaultless faultless faults self.old self.new }
        ensures cause_desk { HasCause (faults self.old) (faults self.new) (IsErrOf result DeskErr.Failed) }
        ensures cause_memory { HasCause (refused self.old) (refused self.new) (IsErrOf result DeskErr.NoMemory) };

    /// The bytes are added to what was told. After an error a prefix of them is.
    fn tell(&mut self, bytes: &[u8]) -> Result<(), DeskErr>
        ensures output { IsTrue tells → OnOk result (Tells bytes.now (standing self.old) (standing self.new)) }
        ensures same { IsTrue tells → TellsPrefix bytes.now (standing self.old) (standing self.new) }
        ensures crash { IsTrue tells → Elapses (time self.old) (time self.new) (was self.old) (was self.new) (WhileTelling bytes.now (standing self.old)) }
        ensures no_fault { StaysFaultless faultless faults self.old self.new }
        ensures cause_desk { HasCause (faults self.old) (faults self.new) (IsErrOf result DeskErr.Failed) }
        ensures cause_memory { HasCause (refused self.old) (refused self.new) (IsErrOf result DeskErr.NoMemory) };

    /// A crash now is one since any earlier time.
    ghost counts_now: { (desk : Self) (t : ℕ) (crash : CrashState) → IsTrue tells → t ≤ time desk → IsCrashState (standing desk) crash → was desk t crash };

    /// Since now there is no other.
    ghost only_now: { (desk : Self) (crash : CrashState) → IsTrue tells → was desk (time desk) crash → IsCrashState (standing desk) crash };
}
