//! A file that is whole to everyone: what is written stands beside it first, and takes its name when it is on the disk.
ghost use Rattle.std.specs.Prelude.{◌≡◌, ◌⊎◌, ◌↔◌, false, IsTrue, IfOk, IsErr, bit_and, string_bytes};
ghost use Rattle.std.specs.IoError.{error_kind};
ghost use Rattle.std.specs.Fs.{metadata_mode};
ghost use Rattle.bk_name.specs.FileName.{is_file_name};
ghost use Rattle.book_cli.specs.RealFiles.{new_in, new_below};

use super::{is_absence, write_whole};
use std::alloc::{AllocError, Global};
use std::fs::{self, File, Files, Metadata, OpenFile, OpenOptions};
use std::io::{self, ErrorKind, Write};
use std::os::unix::fs::{MetadataExt, OpenOptionsExt};

/// What the name of a new file begins with. No name of a book's file has such a part.
const NEW: &str = ".burst-new-";

/// How a file was written.
#[derive(Clone, Copy, Debug, PartialEq, Eq)]
pub(super) enum Way {
    /// A new file, which is on the disk, took its name.
    Replaced,
    /// The file that was there, or a new one under its own name, was written.
    InPlace,
}

/// What stands at a path.
#[derive(Drop)]
enum Old {
    Absent,
    /// A file of this name alone.
    Single(Metadata),
    /// A symbolic link.
    Link,
    /// A folder, a device, or a file of several names.
    Other,
}

/// Fails where nobody has leave to write a file: not by way of its folder either, nor as root.
pub(super) fn check_writable(found: &Metadata) -> io::Result<()>
    ensures exact { IsErr result ↔ (bit_and (metadata_mode found.now) 0o222 ≡ 0) }
{
    if found.permissions().readonly() {
        return Err(io::Error::from(ErrorKind::PermissionDenied));
    }
    Ok(())
}

/// Whether a folder does not take a new file, or a new file not this name.
fn is_refusal(error: &io::Error) -> bool
    ensures exact { IsTrue result ↔ (error_kind error.now ≡ ErrorKind.PermissionDenied) ⊎ ((error_kind error.now ≡ ErrorKind.ReadOnlyFilesystem) ⊎ ((error_kind error.now ≡ ErrorKind.InvalidFilename)
        ⊎ ((error_kind error.now ≡ ErrorKind.ResourceBusy) ⊎ ((error_kind error.now ≡ ErrorKind.CrossesDevices) ⊎ (error_kind error.now ≡ ErrorKind.Unsupported))))) }
{
    matches!(
        error.kind(),
        ErrorKind::PermissionDenied
            | ErrorKind::ReadOnlyFilesystem
            | ErrorKind::InvalidFilename
            | ErrorKind::ResourceBusy
            | ErrorKind::CrossesDevices
            | ErrorKind::Unsupported
    )
}

/// The path of the new file beside a file of the current folder.
#[tactic(auto, using(crate::proofs::NewNameLemmas::new_in_is_no_name))]
fn new_in(alloc: Global, last: &str) -> Result<String, AllocError>
    ensures value { IfOk result (λ path. string_bytes path ≡ new_in last.now) }
    ensures none { IfOk result (λ path. is_file_name (string_bytes path) ≡ false) }
{
    let mut path = String::from_str(alloc, NEW)?;
    path.push_str(last)?;
    Ok(path)
}

/// The path of the new file beside a file of another folder.
#[tactic(auto, using(crate::proofs::NewNameLemmas::new_below_is_no_name))]
fn new_below(alloc: Global, folder: &str, last: &str) -> Result<String, AllocError>
    ensures value { IfOk result (λ path. string_bytes path ≡ new_below folder.now last.now) }
    ensures none { IfOk result (λ path. is_file_name (string_bytes path) ≡ false) }
{
    let new = new_in(alloc, last)?;
    let mut path = String::from_str(alloc, folder)?;
    path.push_str("/")?;
    path.push_str(new.as_str())?;
    Ok(path)
}

/// The path of the new file beside a file: no book has a file of this name.
fn beside(alloc: Global, path: &str) -> Result<String, AllocError>
    ensures none { IfOk result (λ path. is_file_name (string_bytes path) ≡ false) }
{
    match path.rsplit_once('/') {
        Some((folder, last)) => new_below(alloc, folder, last),
        None => new_in(alloc, path),
    }
}

fn old_of(found: Metadata) -> io::Result<Old> {
    if found.is_symlink() {
        return Ok(Old::Link);
    }
    if !found.is_file() {
        return Ok(Old::Other);
    }
    check_writable(&found)?;
    if found.nlink() == 1 {
        return Ok(Old::Single(found));
    }
    Ok(Old::Other)
}

fn old_at<R: Files>(files: &R, path: &str) -> io::Result<Old> {
    match fs::symlink_metadata(files, path) {
        Ok(found) => old_of(found),
        Err(error) => {
            if error.kind() == ErrorKind::NotFound {
                return Ok(Old::Absent);
            }
            Err(error)
        }
    }
}

/// Opens a new file. One of this name that an earlier run left is removed.
fn create_new<R: Files>(files: &R, path: &str, is_private: bool) -> io::Result<R::File> {
    let mut options = OpenOptions::new();
    options.write(true).create_new(true);
    if is_private {
        options.mode(0o600);
    }
    match options.open(files, path) {
        Ok(file) => Ok(file),
        Err(error) => {
            if error.kind() == ErrorKind::AlreadyExists {
                fs::remove_file(files, path)?;
                return options.open(files, path);
            }
            Err(error)
        }
    }
}

/// Gives a new file the mode of an old one. Answers whether it is of the same owner and group, and has the mode.
fn takes_after<F: OpenFile>(file: &F, old: &Metadata) -> io::Result<bool> {
    let made = file.metadata()?;
    if made.uid() != old.uid() || made.gid() != old.gid() {
        return Ok(false);
    }
    if made.mode() == old.mode() {
        return Ok(true);
    }
    match file.set_permissions(old.permissions()) {
        Ok(()) => Ok(true),
        Err(error) => {
            if is_refusal(&error) {
                return Ok(false);
            }
            Err(error)
        }
    }
}

/// Writes and syncs a new file that is to replace an old one. False, and nothing is written, where it can't be like the old one.
fn fill<F: Write + OpenFile + Drop>(
    mut file: F,
    bytes: &[u8],
    old: Option<&Metadata>,
) -> io::Result<bool> {
    if let Some(old) = old {
        if !takes_after(&file, old)? {
            return Ok(false);
        }
    }
    write_whole(&mut file, bytes)?;
    file.sync_all()?;
    Ok(true)
}

/// Fills a new file, and gives it the name. False where it can't have it.
fn settle<R: Files>(
    files: &R,
    file: R::File,
    new: &str,
    path: &str,
    bytes: &[u8],
    old: Option<&Metadata>,
) -> io::Result<bool> {
    if !fill(file, bytes, old)? {
        return Ok(false);
    }
    match fs::rename(files, new, path) {
        Ok(()) => Ok(true),
        Err(error) => {
            if is_refusal(&error) {
                return Ok(false);
            }
            Err(error)
        }
    }
}

/// Writes the file that is there, or makes it: while that lasts, others may see it cut.
pub(super) fn write_in_place<R: Files>(files: &R, path: &str, bytes: &[u8]) -> io::Result<Way> {
    let mut file = File::create(files, path)?;
    write_whole(&mut file, bytes)?;
    Ok(Way::InPlace)
}

/// Removes a file, where it is there.
pub(super) fn remove_if_there<R: Files>(files: &R, path: &str) -> io::Result<()> {
    match fs::remove_file(files, path) {
        Ok(()) => Ok(()),
        Err(error) => {
            if is_absence(&error) {
                return Ok(());
            }
            Err(error)
        }
    }
}

/// Writes a new file beside a path, and gives it its name; in place, where that can't be.
fn replace<R: Files>(
    files: &R,
    alloc: Global,
    path: &str,
    bytes: &[u8],
    old: Option<&Metadata>,
) -> io::Result<Way> {
    let new = beside(alloc, path)?;
    let file = match create_new(files, new.as_str(), old.is_some()) {
        Ok(file) => file,
        Err(error) => {
            if is_refusal(&error) {
                return write_in_place(files, path, bytes);
            }
            return Err(error);
        }
    };
    match settle(files, file, new.as_str(), path, bytes, old) {
        Ok(true) => Ok(Way::Replaced),
        Ok(false) => {
            fs::remove_file(files, new.as_str())?;
            write_in_place(files, path, bytes)
        }
        Err(error) => {
            // The first error counts; what is left is found by the next run.
            let _ = fs::remove_file(files, new.as_str());
            Err(error)
        }
    }
}

/// Makes the entries of a path's folder durable.
fn sync_folder_of<R: Files>(files: &R, path: &str) -> io::Result<()> {
    match path.rsplit_once('/') {
        Some(("", _)) => File::open(files, "/")?.sync_all(),
        Some((folder, _)) => File::open(files, folder)?.sync_all(),
        None => File::open(files, ".")?.sync_all(),
    }
}

/// Replaces the file that a symbolic link leads to, in its own folder.
fn replace_target<R: Files>(
    files: &R,
    alloc: Global,
    target: &str,
    bytes: &[u8],
) -> io::Result<Way> {
    if let Old::Single(old) = old_at(files, target)? {
        let way = replace(files, alloc, target, bytes, Some(&old))?;
        if way == Way::Replaced {
            sync_folder_of(files, target)?;
        }
        return Ok(way);
    }
    write_in_place(files, target, bytes)
}

/// Writes the file that a symbolic link leads to. Where it leads nowhere, or to a name that is no text, in place.
fn write_through<R: Files>(files: &R, alloc: Global, path: &str, bytes: &[u8]) -> io::Result<Way> {
    match files.canonicalize(alloc, path) {
        Ok(target) => replace_target(files, alloc, target.into_string().as_str(), bytes),
        Err(error) => {
            if error.kind() == ErrorKind::OutOfMemory {
                return Err(error);
            }
            write_in_place(files, path, bytes)
        }
    }
}

/// Writes a file of the book, whose folder is there.
pub(super) fn write_book_file<R: Files>(
    files: &R,
    alloc: Global,
    path: &str,
    bytes: &[u8],
) -> io::Result<Way> {
    match old_at(files, path)? {
        Old::Absent => replace(files, alloc, path, bytes, None),
        Old::Single(old) => replace(files, alloc, path, bytes, Some(&old)),
        Old::Link => write_through(files, alloc, path, bytes),
        Old::Other => {
            remove_if_there(files, beside(alloc, path)?.as_str())?;
            write_in_place(files, path, bytes)
        }
    }
}

/// Removes a file of the book, where it is there. One that nobody may write stays, and that is a fault.
pub(super) fn remove_book_file<R: Files>(files: &R, path: &str) -> io::Result<()> {
    if let Ok(found) = fs::symlink_metadata(files, path) {
        if found.is_file() {
            check_writable(&found)?;
        }
    }
    remove_if_there(files, path)
}
