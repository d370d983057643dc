// What a stop leaves of a desk in memory.
ghost use Rattle.std.specs.Prelude.{◌≡◌, ◌++◌, ◌||◌, if◌then◌else◌, Bool, List, None, IfOk, OnOk};
ghost use Rattle.std.specs.Option.{option_map};
ghost use Rattle.bk_desk.specs.Calls.{pending_after, after, opening};
ghost use Rattle.bk_desk.specs.Left.{is_sync, synced_files, wanted_after, wanted_file, left_image, entry_of, is_named, is_put, is_written};
ghost use Rattle.bk_desk.specs.Covers.{Covers};
ghost use Rattle.bk_desk.specs.declared.desk_name.DeskName.{DeskName};
ghost use Rattle.bk_desk.specs.declared.log.Entry.{Entry};

use crate::DeskName;
use crate::log::{Call, Entry};
use crate::mem_desk::{file_now, first_file, next_file};
use std::alloc::{AllocError, Global};
use xt_table::Seq;

/// What every pending file becomes at a stop.
#[derive(Debug, Drop)]
pub enum Left {
    /// Nothing is left of it.
    Absent,
    /// The file at the last sync that worked, or else at the start.
    Old,
    /// What its last write or removal, failed or not, was to leave.
    New,
    /// These bytes.
    Bytes(Seq<u8>),
}

fn next_pending(call: &Call, name: &DeskName, pending: bool) -> bool
    ensures value { result ≡ pending_after call.now name.now pending }
{
    match call {
        Call::Put(other, _, _) => other.is_same(name) || pending,
        Call::Sync(is_done) => !is_done && pending,
        _ => pending,
    }
}

fn is_pending(calls: &[Call], name: &DeskName) -> bool
    ensures value { (entries : List Entry) → result ≡ (after (opening entries) calls.now).pending name.now }
{
    let mut pending = false;
    for call in calls {
        pending = next_pending(call, name, pending);
    }
    pending
}

// The file at the last sync that worked, where it was `file` after this call and `synced` before it.
fn next_synced<'a>(
    call: &Call,
    file: Option<&'a [u8]>,
    synced: Option<&'a [u8]>,
) -> Option<&'a [u8]>
    ensures value { option_map (λ bytes. bytes.now) result ≡ (if is_sync call.now then option_map (λ bytes. bytes.now) file.entry else option_map (λ bytes. bytes.now) synced.entry) }
{
    match call {
        Call::Sync(true) => file,
        _ => synced,
    }
}

// The file under this name at the last sync that worked, or else at the start.
fn synced_file<'a>(start: &'a [Entry], calls: &'a [Call], name: &DeskName) -> Option<&'a [u8]>
    ensures value { option_map (λ bytes. bytes.now) result ≡ synced_files (opening start.now) (opening start.now).files calls.now name.now }
{
    let mut file = first_file(start, name);
    let mut synced = first_file(start, name);
    for call in calls {
        file = next_file(call, name, file);
        synced = next_synced(call, file, synced);
    }
    synced
}

// What a call is to leave of the file, or else what an earlier one was to.
fn next_wanted<'a>(call: &'a Call, name: &DeskName, file: Option<&'a [u8]>) -> Option<&'a [u8]>
    ensures value { option_map (λ bytes. bytes.now) result ≡ wanted_after call.now name.now (option_map (λ bytes. bytes.now) file.entry) }
{
    match call {
        Call::Put(other, bytes, _) if other.is_same(name) => match bytes {
            Some(bytes) => Some(bytes.as_slice()),
            None => None,
        },
        _ => file,
    }
}

fn last_wanted<'a>(calls: &'a [Call], name: &DeskName) -> Option<&'a [u8]>
    ensures value { option_map (λ bytes. bytes.now) result ≡ wanted_file calls.now name.now None }
{
    let mut file: Option<&'a [u8]> = None;
    for call in calls {
        file = next_wanted(call, name, file);
    }
    file
}

// The file under this name after a stop.
fn file_left<'a>(
    start: &'a [Entry],
    calls: &'a [Call],
    left: &'a Left,
    name: &DeskName,
) -> Option<&'a [u8]>
    ensures value { option_map (λ bytes. bytes.now) result ≡ left_image start.now calls.now left.now name.now }
{
    if !is_pending(calls, name) {
        return file_now(start, calls, name);
    }
    match left {
        Left::Absent => None,
        Left::Old => synced_file(start, calls, name),
        Left::New => last_wanted(calls, name),
        Left::Bytes(bytes) => Some(bytes.as_slice()),
    }
}

// Adds the file under this name, where one is left.
fn add_left(
    alloc: Global,
    entries: &mut Vec<Entry>,
    name: &DeskName,
    file: Option<&[u8]>,
) -> Result<(), AllocError>
    ensures value { OnOk result (entries.new.items ≡ entries.old.items ++ entry_of name.now (option_map (λ bytes. bytes.now) file.entry)) }
{
    match file {
        None => Ok(()),
        Some(bytes) => {
            let bytes = Seq::from_vec(Vec::from_slice(alloc, bytes)?);
            let name = name.share()?;
            Ok(entries.push(Entry { name, bytes })?)
        }
    }
}

// What is left of the files of the start.
fn left_of_start(
    alloc: Global,
    start: &[Entry],
    calls: &[Call],
    left: &Left,
) -> Result<Vec<Entry>, AllocError>
    ensures value { IfOk result (λ entries. Covers (left_image start.now calls.now left.now) (is_named start.now) entries.items) }
{
    let mut entries = Vec::new(alloc);
    for entry in start {
        let file = file_left(start, calls, left, &entry.name);
        add_left(alloc, &mut entries, &entry.name, file)?;
    }
    Ok(entries)
}

// What is left of the files that a call wrote.
fn add_left_of_call(
    alloc: Global,
    entries: &mut Vec<Entry>,
    start: &[Entry],
    calls: &[Call],
    left: &Left,
    call: &Call,
) -> Result<(), AllocError>
    ensures value { OnOk result ((seen : DeskName → Bool) → Covers (left_image start.now calls.now left.now) seen entries.old.items
        → Covers (left_image start.now calls.now left.now) (λ name. seen name || is_put call.now name) entries.new.items) }
{
    match call {
        Call::Put(name, _, _) => {
            let file = file_left(start, calls, left, name);
            add_left(alloc, entries, name, file)
        }
        _ => Ok(()),
    }
}

/// What is left of all files.
pub(crate) fn left_of_all(
    alloc: Global,
    start: &[Entry],
    calls: &[Call],
    left: &Left,
) -> Result<Vec<Entry>, AllocError>
    ensures value { IfOk result (λ entries. Covers (left_image start.now calls.now left.now) (λ name. is_named start.now name || is_written calls.now name) entries.items) }
{
    let mut entries = left_of_start(alloc, start, calls, left)?;
    for call in calls {
        add_left_of_call(alloc, &mut entries, start, calls, left, call)?;
    }
    Ok(entries)
}
