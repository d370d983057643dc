ghost use Rattle.std.specs.Prelude.{◌≡◌, ◌≤◌, ℕ, List, Option, length, IfOk, OnErr, IsErr};
ghost use Rattle.bk_desk.specs.Source.{TakesFront};
ghost use Rattle.bk_desk.specs.Cause.{HasCause};

use thiserror::Error;

/// A read of a source failed: its count of faults rose in this call.
#[derive(Clone, Copy, Debug, PartialEq, Eq, Drop, Error)]
#[error("the input failed")]
pub struct Failed;

/// Bytes that are read from the front to their end, as those of a script.
pub trait Source {
    /// What is left, where it is told.
    ghost left: { Self → Option (List ℕ) };

    /// How often a read failed. It stands still at 2 ^ 64 - 1.
    ghost faults: { Self → ℕ };

    /// The front of what is left, into the front of the buffer: how many bytes it is.
    /// It is 0 into a buffer that isn't empty exactly at the end. After an error what is left is as before.
    fn read(&mut self, buffer: &mut [u8]) -> Result<usize, Failed>
        ensures fits { IfOk result (λ count. count ≤ length buffer.new) }
        ensures value { IfOk result (λ count. TakesFront (left self.old) (left self.new) buffer.new count) }
        ensures same { OnErr result (left self.new ≡ left self.old) }
        ensures cause { HasCause (faults self.old) (faults self.new) (IsErr result) };
}
