//! The bytes of a script, from a source to its end.
ghost use Rattle.std.specs.Prelude.{◌≡◌, ◌≤◌, ◌<◌, ◌+◌, ◌++◌, ℕ, List, [], Some, true, false, length, take, IfOk, IsErrOf};
ghost use Rattle.xt_spec.specs.Limit.{most_script_bytes};
ghost use Rattle.bk_desk.specs.Cause.{HasCause};
ghost use Rattle.bk_run.specs.Input.{IsMore, IsInput};

use bk_desk::Source;
use std::alloc::{AllocError, Global};

/// The most bytes that a script may have, the limit `most_script_bytes`.
const MOST_SCRIPT_BYTES: usize = 1_048_576;

/// How many bytes are asked for at once.
const PIECE: usize = 4096;

/// Why there are no bytes.
#[derive(Clone, Copy, Debug, PartialEq, Eq)]
pub enum InputFault {
    /// The source failed: its count of faults rose in this call.
    Source,
    NoMemory,
}

impl From<AllocError> for InputFault {
    ghost use Rattle.std.specs.Prelude.{◌≡◌};
    ghost use Rattle.bk_run.specs.declared.input.InputFault.TheVariants.{NoMemory};

    ghost from_gives = { λ _ fault. fault ≡ NoMemory };

    fn from(_e: AllocError) -> Self {
        InputFault::NoMemory
    }
}

/// The front of what is left, into a buffer of so many bytes at most; how many they are.
fn read_piece<S: Source>(source: &mut S, buffer: &mut [u8]) -> Result<usize, InputFault>
    requires piece { 1 ≤ length buffer.old }
    ensures fits { IfOk result (λ count. count ≤ length buffer.new) }
    ensures value { (left : List ℕ) → S.left source.old ≡ Some left → IfOk result (λ count. IsMore left (S.left source.new) (take count buffer.new)) }
    ensures cause { HasCause (S.faults source.old) (S.faults source.new) (IsErrOf result InputFault.Source) }
{
    match source.read(buffer) {
        Ok(count) => Ok(count),
        Err(_) => Err(InputFault::Source),
    }
}

/// Adds the next bytes; whether there were any.
fn read_more<S: Source>(source: &mut S, bytes: &mut Vec<u8>) -> Result<bool, InputFault>
    requires room { length bytes.old.items < most_script_bytes + 1 }
    ensures value { (left : List ℕ) → S.left source.old ≡ Some left → IfOk result (λ more. (front : List ℕ) × IsMore left (S.left source.new) front × (bytes.new.items ≡ bytes.old.items ++ front)) }
    ensures some { IfOk result (λ more. (more ≡ true → length bytes.old.items < length bytes.new.items) × (more ≡ false → bytes.new.items ≡ bytes.old.items)) }
    ensures fits { length bytes.new.items ≤ most_script_bytes + 1 }
    ensures cause { HasCause (S.faults source.old) (S.faults source.new) (IsErrOf result InputFault.Source) }
{
    let mut buffer = [0; PIECE];
    let room = (MOST_SCRIPT_BYTES + 1 - bytes.len()).min(PIECE);
    let count = read_piece(source, &mut buffer[..room])?;
    bytes.extend_from_slice(&buffer[..count])?;
    Ok(count != 0)
}

/// The bytes that a source has left, to its end, or one more than a script may have.
pub fn read_input<S: Source>(alloc: Global, source: &mut S) -> Result<Vec<u8>, InputFault>
    ensures value { (left : List ℕ) → S.left source.old ≡ Some left → IfOk result (λ bytes. IsInput (most_script_bytes + 1) left (S.left source.new) bytes.items) }
    ensures cause { HasCause (S.faults source.old) (S.faults source.new) (IsErrOf result InputFault.Source) }
{
    let mut bytes = Vec::new(alloc);
    let mut more = true;
    while more && bytes.len() < MOST_SCRIPT_BYTES + 1 {
        more = read_more(source, &mut bytes)?;
    }
    Ok(bytes)
}
