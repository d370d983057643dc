//! What a save can't write is found before its marker: each file is opened, and each folder that needs a new one is tried.
ghost use Rattle.std.specs.Prelude.{◌≡◌, IfOk, IfErr};
ghost use Rattle.std.specs.IoError.{error_kind};
ghost use Rattle.jr_form.specs.Reading.{reading};
ghost use Rattle.book_cli.specs.RealFiles.{items_read};

use super::replace::{check_writable, remove_if_there};
use super::{JOURNAL, is_absence, read_up_to};
use jr_form::{Item, read_journal};
use std::alloc::Global;
use std::fs::{self, File, Files, Metadata, OpenOptions};
use std::io::{self, ErrorKind};

/// The name of a file that tries whether a folder takes a new one. That in the current folder stands as long as others may.
const TRIAL: &str = ".burst-new";

/// The items of a journal; none where it has no reading. Want of memory is the one error.
pub(super) fn items_of(alloc: Global, journal: &[u8]) -> io::Result<Vec<Item>>
    ensures value { IfOk result (λ items. items.items ≡ items_read (reading journal.now)) }
    ensures fault { IfErr result (λ e. error_kind e ≡ ErrorKind.OutOfMemory) }
{
    match read_journal(alloc, journal)? {
        Some(items) => Ok(items),
        None => Ok(Vec::new(alloc)),
    }
}

/// Whether a file that is there may be written or removed.
fn check_found<R: Files>(
    files: &R,
    path: &str,
    found: &Metadata,
    is_written: bool,
) -> io::Result<()> {
    if found.is_dir() && is_written {
        return Err(io::Error::from(ErrorKind::IsADirectory));
    }
    if found.is_file() {
        check_writable(found)?;
        if is_written {
            OpenOptions::new().write(true).open(files, path)?;
        }
    }
    Ok(())
}

/// Tests the file of an item. Answers whether its folder has to gain or lose an entry.
fn check_item<R: Files>(files: &R, item: &Item) -> io::Result<bool> {
    let is_written = item.bytes.is_some();
    match fs::metadata(files, item.name.as_str()) {
        Ok(found) => {
            check_found(files, item.name.as_str(), &found, is_written)?;
            Ok(!is_written && !found.is_dir())
        }
        Err(error) => {
            if is_absence(&error) {
                return Ok(is_written);
            }
            Err(error)
        }
    }
}

/// Tests the files of these items. Answers the paths of those whose folder has to gain or lose an entry.
pub(super) fn check_files<'a, R: Files>(
    files: &R,
    alloc: Global,
    items: &'a [Item],
) -> io::Result<Vec<&'a str>> {
    let mut moved = Vec::new(alloc);
    for item in items {
        if check_item(files, item)? {
            moved.push(item.name.as_str())?;
        }
    }
    Ok(moved)
}

/// The path of a trial in a folder.
fn trial_in(alloc: Global, folder: &str) -> io::Result<String> {
    let mut path = String::from_str(alloc, folder)?;
    path.push_str("/")?;
    path.push_str(TRIAL)?;
    Ok(path)
}

/// Makes a trial. One that a power cut left is removed before.
fn make_trial<R: Files>(files: &R, path: &str) -> io::Result<()> {
    remove_if_there(files, path)?;
    File::create_new(files, path)?;
    Ok(())
}

fn try_path<R: Files>(files: &R, path: &str) -> io::Result<()> {
    make_trial(files, path)?;
    fs::remove_file(files, path)
}

/// Tries the lowest folder of a path that is there.
fn try_above<R: Files>(files: &R, alloc: Global, path: &str) -> io::Result<()> {
    for at in (0..path.len()).rev() {
        if path.as_bytes()[at] == b'/' {
            match try_path(files, trial_in(alloc, &path[..at])?.as_str()) {
                Ok(()) => return Ok(()),
                Err(error) => {
                    if error.kind() != ErrorKind::NotFound {
                        return Err(error);
                    }
                }
            }
        }
    }
    Ok(())
}

fn try_each<R: Files>(files: &R, alloc: Global, paths: &[&str]) -> io::Result<()> {
    for path in paths {
        try_above(files, alloc, path)?;
    }
    Ok(())
}

/// Tries the folders of these paths, whose names the journal has.
pub(super) fn try_folders<R: Files>(files: &R, alloc: Global, paths: &[&str]) -> io::Result<()> {
    if paths.is_empty() {
        return Ok(());
    }
    make_trial(files, TRIAL)?;
    let answer = try_each(files, alloc, paths);
    fs::remove_file(files, TRIAL)?;
    answer
}

fn remove_above<R: Files>(files: &R, alloc: Global, path: &str) -> io::Result<()> {
    for at in 0..path.len() {
        if path.as_bytes()[at] == b'/' {
            remove_if_there(files, trial_in(alloc, &path[..at])?.as_str())?;
        }
    }
    Ok(())
}

/// The bytes of the journal that is there; none where there is no journal.
fn kept_journal<R: Files>(files: &R, alloc: Global) -> io::Result<Vec<u8>> {
    match File::open(files, JOURNAL) {
        Ok(file) => read_up_to(alloc, file, 68_450_317),
        Err(error) => {
            if is_absence(&error) {
                return Ok(Vec::new(alloc));
            }
            Err(error)
        }
    }
}

/// Removes the trials that a run left which was stopped among them.
pub(super) fn remove_trials<R: Files>(files: &R, alloc: Global) -> io::Result<()> {
    if !fs::exists(files, TRIAL)? {
        return Ok(());
    }
    let journal = kept_journal(files, alloc)?;
    let items = items_of(alloc, &journal)?;
    for item in &items {
        remove_above(files, alloc, item.name.as_str())?;
    }
    remove_if_there(files, TRIAL)
}
