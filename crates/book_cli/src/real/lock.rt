//! One run at a time in a folder.
ghost use Rattle.std.specs.Prelude.{◌≡◌, ◌⊎◌, ◌↔◌, Some, IsTrue};
ghost use Rattle.std.specs.IoError.{error_kind, raw_os_error};
ghost use Rattle.book_cli.specs.declared.real.lock.TheConstants.{NO_LOCKS};

use std::fs::{File, Files};
use std::io::{self, ErrorKind};

/// `ENOLCK`: the file system keeps no locks, or has no room for one.
const NO_LOCKS: i32 = 37;

/// Whether a lock failed since there are none here.
fn has_no_locks(error: &io::Error) -> bool
    ensures exact { IsTrue result ↔ (error_kind error.now ≡ ErrorKind.Unsupported) ⊎ (raw_os_error error.now ≡ Some NO_LOCKS) }
{
    error.kind() == ErrorKind::Unsupported || error.raw_os_error() == Some(NO_LOCKS)
}

/// The current folder, locked as long as it is open. Waits while another run holds the lock.
/// Where the file system has no locks, the folder alone.
pub(super) fn locked_folder<R: Files<File = File>>(files: &R) -> io::Result<File> {
    let folder = File::open(files, ".")?;
    match folder.lock() {
        Ok(()) => Ok(folder),
        Err(error) => {
            if has_no_locks(&error) {
                return Ok(folder);
            }
            Err(error)
        }
    }
}
