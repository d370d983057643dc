//! The current folder and an output.
ghost use Rattle.std.specs.Prelude.{◌≡◌, ◌≢◌, ◌⊎◌, ◌↔◌, ◌++◌, ◌<◌, [], ◌∷◌, length, map, true, false, IsTrue, IfOk, OnOk, OnErr, IsOk, IsSome, IsErrOf};
ghost use Rattle.std.specs.IoError.{error_kind};
ghost use Rattle.std.specs.Io.KnownBytes.{Appends};
ghost use Rattle.bk_desk.specs.declared.desk_name.DeskName.TheVariants.{Journal, Gate};
ghost use Rattle.bk_desk.specs.Cause.{Rose, HasCause};
ghost use Rattle.bk_desk.specs.Disk.{FitsCap};
ghost use Rattle.book_cli.specs.RealFiles.{path_of, folder_at, above, paths_to_sync, IsFrontOf};

mod lock;
mod probe;
mod replace;

use bk_desk::{Desk, DeskErr, DeskName, Got};
use lock::locked_folder;
use probe::{check_files, items_of, remove_trials, try_folders};
use replace::{Way, remove_book_file, remove_if_there, write_book_file, write_in_place};
use std::alloc::{AllocError, Global};
use std::fs::{self, File, Files, OpenFile};
use std::io::{self, ErrorKind, Read, Write};
use xt_table::Seq;

/// The path of the journal, from the folder.
const JOURNAL: &str = ".burst-journal";

/// The path of the commit marker, from the folder.
const GATE: &str = ".burst-gate";

/// Files under the current folder, and an output. It tells nothing of what they hold.
///
/// A folder, and a name below a file, reads as absent. What is written, and what is removed, is durable after the next
/// `sync` that succeeds, with each folder from its own up to the current one. The first `sync` waits until no other run
/// holds the folder, and locks it until the desk is dropped; it also makes durable what an earlier run may have left: the
/// two control files, and their folder. A file of the book is replaced by a new one, where that can be. The write of a
/// journal fails where a file that it names can't be written.
#[derive(Drop)]
pub(crate) struct RealDesk<R: Files<File = File> + Drop, W: Write + Drop> {
    files: R,
    out: W,
    alloc: Global,
    /// The current folder, which the first sync locks for the rest of the run.
    folder: Option<File>,
    /// What was written or removed since the last sync.
    unsynced: Vec<DeskName>,
    /// Those of them whose own bytes are not on the disk yet.
    in_place: Vec<DeskName>,
    has_synced: bool,
    faults: u64,
    refused: u64,
}

/// The path of a file, from the folder.
fn path_of(name: &DeskName) -> &str
    ensures value { result.now ≡ path_of name.now }
{
    match name {
        DeskName::Book(name) => name.as_str(),
        DeskName::Journal => JOURNAL,
        DeskName::Gate => GATE,
    }
}

/// Whether there is no such file: nothing of this name, a folder, or a name below a file.
fn is_absence(error: &io::Error) -> bool
    ensures exact { IsTrue result ↔ (error_kind error.now ≡ ErrorKind.NotFound) ⊎ ((error_kind error.now ≡ ErrorKind.NotADirectory) ⊎ (error_kind error.now ≡ ErrorKind.IsADirectory)) }
{
    matches!(
        error.kind(),
        ErrorKind::NotFound | ErrorKind::NotADirectory | ErrorKind::IsADirectory
    )
}

/// The bytes of a file, up to this many.
fn read_up_to<F: Read + Drop>(alloc: Global, file: F, most: usize) -> io::Result<Vec<u8>>
    ensures value { IfOk result (λ bytes. IsFrontOf (F.remaining file) most bytes.items) }
{
    let mut bytes = Vec::new(alloc);
    let mut front = file.take(most as u64);
    front.read_to_end(&mut bytes)?;
    Ok(bytes)
}

/// Writes all the bytes, and flushes them.
fn write_whole<W: Write>(out: &mut W, bytes: &[u8]) -> io::Result<()>
    ensures value { OnOk result (Appends (W.contents out.old) (W.contents out.new) bytes.now) }
{
    out.write_all(bytes)?;
    out.flush()
}

/// Makes a file or a folder durable, where it is there.
fn sync_one<R: Files>(files: &R, path: &str) -> io::Result<()> {
    match File::open(files, path) {
        Ok(file) => file.sync_all(),
        Err(error) => {
            if is_absence(&error) {
                return Ok(());
            }
            Err(error)
        }
    }
}

/// Adds the folder that ends before a place of a path, where a `/` stands there.
fn add_folder<'a>(paths: &mut Vec<&'a str>, path: &'a str, at: usize) -> Result<(), AllocError>
    requires within { at < length path.now }
    ensures value { OnOk result (map (λ p. p.now) paths.new.items ≡ map (λ p. p.now) paths.old.items ++ folder_at path.now at) }
{
    if path.as_bytes()[at] == b'/' {
        paths.push(&path[..at])?;
    }
    Ok(())
}

/// Adds each folder from that of a path up to the current one.
fn add_folders<'a>(paths: &mut Vec<&'a str>, path: &'a str) -> Result<(), AllocError>
    ensures value { OnOk result (map (λ p. p.now) paths.new.items ≡ map (λ p. p.now) paths.old.items ++ above path.now) }
{
    for at in 0..path.len() {
        add_folder(paths, path, at)?;
    }
    paths.push(".")?;
    Ok(())
}

/// Makes each file and folder durable, once where its path is there more often.
fn sync_each<R: Files>(files: &R, mut paths: Vec<&str>) -> io::Result<()> {
    paths.sort_unstable();
    paths.dedup();
    for path in &paths {
        sync_one(files, path)?;
    }
    Ok(())
}

impl<R: Files<File = File> + Drop, W: Write + Drop> RealDesk<R, W> {
    pub(crate) fn new(files: R, out: W, alloc: Global) -> Self
        ensures value { (result.unsynced.items ≡ []) × ((result.in_place.items ≡ []) × (result.has_synced ≡ false)) }
    {
        RealDesk {
            files,
            out,
            alloc,
            folder: None,
            unsynced: Vec::new(alloc),
            in_place: Vec::new(alloc),
            has_synced: false,
            faults: 0,
            refused: 0,
        }
    }

    /// Counts an error under its kind.
    fn counted(&mut self, error: io::Error) -> DeskErr
        ensures cause_desk { HasCause self.old.faults self.new.faults (result ≡ DeskErr.Failed) }
        ensures cause_memory { HasCause self.old.refused self.new.refused (result ≡ DeskErr.NoMemory) }
        ensures none { error_kind error ≡ ErrorKind.OutOfMemory → result ≡ DeskErr.NoMemory }
        ensures fault { error_kind error ≢ ErrorKind.OutOfMemory → result ≡ DeskErr.Failed }
        ensures others { (self.new.unsynced ≡ self.old.unsynced) × ((self.new.in_place ≡ self.old.in_place) × (self.new.has_synced ≡ self.old.has_synced)) }
        ensures same { self.new.out ≡ self.old.out }
    {
        if error.kind() == ErrorKind::OutOfMemory {
            self.refused = self.refused.saturating_add(1);
            return DeskErr::NoMemory;
        }
        self.faults = self.faults.saturating_add(1);
        DeskErr::Failed
    }

    fn put(&mut self, name: &DeskName, bytes: &[u8]) -> io::Result<()>
        ensures value { OnOk result (self.new.unsynced.items ≡ self.old.unsynced.items ++ name.now ∷ []) }
        // A file of the book that was replaced is left out.
        ensures found { OnOk result ((self.new.in_place.items ≡ self.old.in_place.items ++ name.now ∷ []) ⊎ (self.new.in_place.items ≡ self.old.in_place.items)) }
        ensures exact { (name.now ≡ Journal) ⊎ (name.now ≡ Gate) → OnOk result (self.new.in_place.items ≡ self.old.in_place.items ++ name.now ∷ []) }
        ensures others { (self.new.has_synced ≡ self.old.has_synced) × (self.new.out ≡ self.old.out) }
        ensures same { (self.new.faults ≡ self.old.faults) × (self.new.refused ≡ self.old.refused) }
    {
        self.unsynced.push(name.share()?)?;
        self.in_place.push(name.share()?)?;
        match name {
            DeskName::Book(file) => {
                if self.write_book(file.as_str(), bytes)? == Way::Replaced {
                    self.in_place.pop();
                }
                Ok(())
            }
            DeskName::Journal => self.write_journal(bytes),
            DeskName::Gate => {
                write_in_place(&self.files, GATE, bytes)?;
                Ok(())
            }
        }
    }

    fn write_book(&self, path: &str, bytes: &[u8]) -> io::Result<Way> {
        if let Some((folder, _)) = path.rsplit_once('/') {
            fs::create_dir_all(&self.files, folder)?;
        }
        write_book_file(&self.files, self.alloc, path, bytes)
    }

    /// Writes the journal of a save, after a test of what it is to write.
    fn write_journal(&self, bytes: &[u8]) -> io::Result<()> {
        let items = items_of(self.alloc, bytes)?;
        let moved = check_files(&self.files, self.alloc, &items)?;
        write_in_place(&self.files, JOURNAL, bytes)?;
        try_folders(&self.files, self.alloc, &moved)
    }

    /// A removal of what isn't there is no fault, and changes nothing.
    fn take(&mut self, name: &DeskName) -> io::Result<()>
        ensures value { OnOk result (self.new.unsynced.items ≡ self.old.unsynced.items ++ name.now ∷ []) }
        ensures others { (self.new.has_synced ≡ self.old.has_synced) × (self.new.out ≡ self.old.out) }
        ensures same { (self.new.faults ≡ self.old.faults) × (self.new.refused ≡ self.old.refused) }
    {
        self.unsynced.push(name.share()?)?;
        match name {
            DeskName::Book(file) => remove_book_file(&self.files, file.as_str()),
            DeskName::Journal => remove_if_there(&self.files, JOURNAL),
            DeskName::Gate => remove_if_there(&self.files, GATE),
        }
    }

    /// The paths of what is to be made durable, with each folder above.
    fn paths(&self) -> Result<Vec<&str>, AllocError>
        ensures value { IfOk result (λ paths. map (λ p. p.now) paths.items ≡ paths_to_sync self.now.has_synced self.now.in_place.items self.now.unsynced.items) }
    {
        let mut paths = Vec::new(self.alloc);
        if !self.has_synced {
            paths.push(JOURNAL)?;
            paths.push(GATE)?;
            paths.push(".")?;
        }
        for name in &self.in_place {
            paths.push(path_of(name))?;
        }
        for name in &self.unsynced {
            add_folders(&mut paths, path_of(name))?;
        }
        Ok(paths)
    }

    /// Before all else of a run on the disk: the lock, and no trial of an earlier run.
    fn begin(&mut self) -> io::Result<()>
        ensures value { OnOk result (IsSome self.new.folder) }
        ensures exact { IsSome self.old.folder → IsOk result × (self.new ≡ self.old) }
        ensures others { (self.new.unsynced ≡ self.old.unsynced) × ((self.new.in_place ≡ self.old.in_place) × (self.new.has_synced ≡ self.old.has_synced)) }
        ensures same { (self.new.faults ≡ self.old.faults) × (self.new.refused ≡ self.old.refused) }
    {
        if self.folder.is_none() {
            self.folder = Some(locked_folder(&self.files)?);
            remove_trials(&self.files, self.alloc)?;
        }
        Ok(())
    }

    fn sync_all(&mut self) -> io::Result<()>
        ensures value { OnOk result ((self.new.unsynced.items ≡ []) × ((self.new.in_place.items ≡ []) × (self.new.has_synced ≡ true))) }
        ensures others { OnErr result ((self.new.unsynced ≡ self.old.unsynced) × ((self.new.in_place ≡ self.old.in_place) × (self.new.has_synced ≡ self.old.has_synced))) }
        ensures same { (self.new.faults ≡ self.old.faults) × (self.new.refused ≡ self.old.refused) }
    {
        self.begin()?;
        sync_each(&self.files, self.paths()?)?;
        self.unsynced.clear();
        self.in_place.clear();
        self.has_synced = true;
        Ok(())
    }

    fn bytes_of(&self, name: &DeskName, most: usize) -> io::Result<Vec<u8>> {
        let file = File::open(&self.files, path_of(name))?;
        read_up_to(self.alloc, file, most)
    }
}

impl<R: Files<File = File> + Drop, W: Write + Drop> Desk for RealDesk<R, W> {
    ghost use Rattle.std.specs.Prelude.{false};
    ghost use Rattle.book_cli.specs.Silent.{nothing, Never, silent};

    ghost tells = { false };

    ghost standing = { λ d. nothing };

    ghost time = { λ d. 0 };

    ghost was = { λ d t crash. Never t crash };

    ghost faults = { λ d. d.faults };

    ghost faultless = { λ d. ⊥ };

    ghost refused = { λ d. d.refused };

    ghost counts_now = { λ d t crash h le is. silent h };

    ghost only_now = { λ d crash h was. silent h };

    fn read(&mut self, name: &DeskName, cap: usize) -> Result<Got, DeskErr>
        ensures fits { IfOk result (FitsCap cap) }
        ensures others { (self.new.unsynced ≡ self.old.unsynced) × (self.new.has_synced ≡ self.old.has_synced) }
        ensures same { self.new.out ≡ self.old.out }
        ensures cause_desk { HasCause self.old.faults self.new.faults (IsErrOf result DeskErr.Failed) }
        ensures cause_memory { HasCause self.old.refused self.new.refused (IsErrOf result DeskErr.NoMemory) }
    {
        match self.bytes_of(name, cap.saturating_add(1)) {
            Ok(bytes) => {
                if bytes.len() > cap {
                    return Ok(Got::Longer);
                }
                Ok(Got::Bytes(Seq::from_vec(bytes)))
            }
            Err(error) => {
                if is_absence(&error) {
                    return Ok(Got::Absent);
                }
                Err(self.counted(error))
            }
        }
    }

    fn write_file(&mut self, name: &DeskName, bytes: &[u8]) -> Result<(), DeskErr>
        ensures value { OnOk result (self.new.unsynced.items ≡ self.old.unsynced.items ++ name.now ∷ []) }
        ensures others { (self.new.has_synced ≡ self.old.has_synced) × (self.new.out ≡ self.old.out) }
        ensures cause_desk { HasCause self.old.faults self.new.faults (IsErrOf result DeskErr.Failed) }
        ensures cause_memory { HasCause self.old.refused self.new.refused (IsErrOf result DeskErr.NoMemory) }
    {
        match self.put(name, bytes) {
            Ok(()) => Ok(()),
            Err(error) => Err(self.counted(error)),
        }
    }

    fn remove(&mut self, name: &DeskName) -> Result<(), DeskErr>
        ensures value { OnOk result (self.new.unsynced.items ≡ self.old.unsynced.items ++ name.now ∷ []) }
        ensures others { (self.new.has_synced ≡ self.old.has_synced) × (self.new.out ≡ self.old.out) }
        ensures cause_desk { HasCause self.old.faults self.new.faults (IsErrOf result DeskErr.Failed) }
        ensures cause_memory { HasCause self.old.refused self.new.refused (IsErrOf result DeskErr.NoMemory) }
    {
        match self.take(name) {
            Ok(()) => Ok(()),
            Err(error) => Err(self.counted(error)),
        }
    }

    fn sync(&mut self) -> Result<(), DeskErr>
        ensures durable { OnOk result ((self.new.unsynced.items ≡ []) × ((self.new.in_place.items ≡ []) × (self.new.has_synced ≡ true))) }
        ensures same { OnErr result ((self.new.unsynced ≡ self.old.unsynced) × ((self.new.in_place ≡ self.old.in_place) × (self.new.has_synced ≡ self.old.has_synced))) }
        ensures cause_desk { HasCause self.old.faults self.new.faults (IsErrOf result DeskErr.Failed) }
        ensures cause_memory { HasCause self.old.refused self.new.refused (IsErrOf result DeskErr.NoMemory) }
    {
        match self.sync_all() {
            Ok(()) => Ok(()),
            Err(error) => Err(self.counted(error)),
        }
    }

    fn tell(&mut self, bytes: &[u8]) -> Result<(), DeskErr>
        ensures output { OnOk result (Appends (W.contents self.old.out) (W.contents self.new.out) bytes.now) }
        ensures others { (self.new.unsynced ≡ self.old.unsynced) × (self.new.has_synced ≡ self.old.has_synced) }
        ensures cause_desk { HasCause self.old.faults self.new.faults (IsErrOf result DeskErr.Failed) }
        ensures cause_memory { HasCause self.old.refused self.new.refused (IsErrOf result DeskErr.NoMemory) }
    {
        match write_whole(&mut self.out, bytes) {
            Ok(()) => Ok(()),
            Err(error) => Err(self.counted(error)),
        }
    }
}
