//! Bytes in place of bytes of a file.

ghost use Rattle.std.specs.Prelude.{◌≡◌, ◌≤◌, length, OnOk, OnErr};
ghost use Rattle.xt_tree.specs.Patches.{patched};

use std::alloc::AllocError;

/// What comes in place of the bytes from one place to another, which are bytes of the file from 0, half open.
#[derive(Debug, Drop)]
pub struct Patch {
    pub from: u32,
    pub to: u32,
    pub new: Vec<u8>,
}

/// Puts the new bytes in their place.
pub fn splice(bytes: &mut Vec<u8>, patch: &Patch) -> Result<(), AllocError>
    requires order { patch.now.from ≤ patch.now.to }
    requires within { patch.now.to ≤ length bytes.old.items }
    ensures value { OnOk result (bytes.new.items ≡ patched bytes.old.items patch.now) }
    ensures same { OnErr result (bytes.new.items ≡ bytes.old.items) }
{
    let new = Vec::from_slice(*bytes.allocator(), patch.new.as_slice())?;
    bytes.splice(patch.from as usize..patch.to as usize, new)?;
    Ok(())
}
