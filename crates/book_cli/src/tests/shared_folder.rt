//! A folder that others use too: its lock, files that stay whole, and files that may not be written.
use super::book_file;
use super::real_files::reads;
use crate::real::RealDesk;
use bk_desk::{Desk, DeskName};
use jr_form::{Item, are_writable, write_journal};
use std::alloc::Global;
use std::fs::{self, File, Permissions, TryLockError};
use std::io;
use std::os::unix::fs::{MetadataExt, PermissionsExt, symlink};
use std::test::Fail;
use xt_table::Seq;

// Another handle of the folder finds it locked from the first sync on.
#[test]
fn a_sync_locks_the_folder(rt: HostRuntime) -> Result<(), Fail> {
    let alloc = rt.alloc();
    let mut desk = RealDesk::new(&rt, io::writer(&rt), alloc);
    let other = File::open(&rt, ".")?;
    assert!(rt; other.try_lock().is_ok());
    other.unlock()?;
    desk.sync()?;
    assert!(rt; matches!(other.try_lock(), Err(TryLockError::WouldBlock)));
    drop(desk);
    assert!(rt; other.try_lock().is_ok());
    Ok(())
}

// What an earlier run left beside the file is gone. The link leads to the file with the hard link away from it.
#[test]
fn a_written_file_keeps_its_mode_and_its_links(rt: HostRuntime) -> Result<(), Fail> {
    let alloc = rt.alloc();
    let mut desk = RealDesk::new(&rt, io::writer(&rt), alloc);
    let file = book_file(alloc, "kept-test/a.xml")?;
    let link = book_file(alloc, "kept-test/b.xml")?;
    desk.write_file(&file, b"old")?;
    fs::set_permissions(&rt, "kept-test/a.xml", Permissions::from_mode(0o640))?;
    symlink(&rt, "a.xml", "kept-test/b.xml")?;
    fs::write(&rt, "kept-test/.burst-new-a.xml", b"left")?;
    for (name, bytes) in [(&file, b"one"), (&link, b"two")] {
        let before = fs::metadata(&rt, "kept-test/a.xml")?;
        desk.write_file(name, bytes)?;
        let after = fs::metadata(&rt, "kept-test/a.xml")?;
        assert!(rt; reads(&mut desk, &file, 3, bytes)?);
        assert!(rt; before.ino() != after.ino() && after.mode() & 0o777 == 0o640);
    }
    fs::hard_link(&rt, "kept-test/a.xml", "kept-test/c.xml")?;
    desk.write_file(&link, b"all")?;
    assert!(rt; reads(&mut desk, &book_file(alloc, "kept-test/c.xml")?, 3, b"all")?);
    assert!(rt; fs::symlink_metadata(&rt, "kept-test/b.xml")?.is_symlink());
    assert!(rt; !fs::exists(&rt, "kept-test/.burst-new-a.xml")?);
    fs::remove_dir_all(&rt, "kept-test")?;
    Ok(())
}

/// The journal of a save that writes one file.
fn journal_of(alloc: Global, name: &str) -> Result<Vec<u8>, Fail> {
    let mut items = Vec::new(alloc);
    if let DeskName::Book(name) = book_file(alloc, name)? {
        let bytes = Some(Seq::from_vec(Vec::from_slice(alloc, b"new")?));
        items.push(Item { name, bytes })?;
    }
    if !are_writable(&items) {
        return Ok(Vec::new(alloc));
    }
    Ok(write_journal(alloc, &items)?)
}

// A file that is read-only, a folder, a name below a file, and names that may be written; what a stop left of a trial is gone.
#[test]
fn a_journal_that_cannot_be_carried_out_is_not_written(rt: HostRuntime) -> Result<(), Fail> {
    let alloc = rt.alloc();
    let mut desk = RealDesk::new(&rt, io::writer(&rt), alloc);
    let file = book_file(alloc, "probe-test/a.xml")?;
    desk.write_file(&file, b"old")?;
    fs::set_permissions(&rt, "probe-test/a.xml", Permissions::from_mode(0o444))?;
    for name in ["probe-test/a.xml", "probe-test", "probe-test/a.xml/b.xml"] {
        let journal = journal_of(alloc, name)?;
        assert!(rt;
            desk.write_file(&DeskName::Journal, &journal).is_err(),
            "at {name}"
        );
    }
    assert!(rt; desk.write_file(&file, b"new").is_err() && desk.remove(&file).is_err());
    assert!(rt; reads(&mut desk, &file, 3, b"old")?);
    fs::set_permissions(&rt, "probe-test/a.xml", Permissions::from_mode(0o644))?;
    for name in ["probe-test/a.xml", "probe-test/d/b.xml"] {
        desk.write_file(&DeskName::Journal, &journal_of(alloc, name)?)?;
    }
    fs::write(&rt, "probe-test/.burst-new", b"")?;
    fs::write(&rt, ".burst-new", b"")?;
    desk.sync()?;
    assert!(rt; !fs::exists(&rt, "probe-test/.burst-new")? && !fs::exists(&rt, ".burst-new")?);
    fs::remove_dir_all(&rt, "probe-test")?;
    desk.remove(&DeskName::Journal)?;
    Ok(())
}
