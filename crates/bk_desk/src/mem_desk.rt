// A desk in memory keeps a record of all calls, and what stands on it is what they leave.
ghost use Rattle.std.specs.Prelude.{◌≡◌, ◌≤◌, ◌+◌, ◌++◌, ◌∷◌, [], List, ℕ, length, map, IsTrue, true, IfOk, OnOk, OnErr, IsOkAnd, Some, None, Ok, Err, if◌then◌else◌};
ghost use Rattle.std.specs.Option.{option_map};
ghost use Rattle.bk_desk.specs.Disk.{got_of};
ghost use Rattle.bk_desk.specs.DeskNames.{same_name};
ghost use Rattle.bk_desk.specs.Calls.{file_after, file_in, after, opening};

use crate::log::{Call, Entry, Log};
use crate::stop::left_of_all;
use crate::{Desk, DeskErr, DeskName, Got, Left};
use std::alloc::{AllocError, Global};
use xt_table::Seq;

/// Files and output in memory, with a record of all calls. The calls whose numbers are listed fail.
#[derive(Debug, Drop)]
pub struct MemDesk {
    alloc: Global,
    log: Log,
    fails: Vec<u64>,
    refused: u64,
}

// The file under this name before the first call.
pub(crate) fn first_file<'a>(start: &'a [Entry], name: &DeskName) -> Option<&'a [u8]>
    ensures value { option_map (λ bytes. bytes.now) result ≡ file_in start.now name.now None }
{
    let mut found: Option<&'a [u8]> = None;
    for entry in start {
        if entry.name.is_same(name) {
            found = Some(entry.bytes.as_slice());
        }
    }
    found
}

// The file under this name after a call, where it was this one before.
pub(crate) fn next_file<'a>(
    call: &'a Call,
    name: &DeskName,
    file: Option<&'a [u8]>,
) -> Option<&'a [u8]>
    ensures value { option_map (λ bytes. bytes.now) result ≡ file_after call.now name.now (option_map (λ bytes. bytes.now) file.entry) }
{
    match call {
        Call::Put(other, bytes, true) if other.is_same(name) => match bytes {
            Some(bytes) => Some(bytes.as_slice()),
            None => None,
        },
        _ => file,
    }
}

// The file under this name after these calls.
pub(crate) fn file_now<'a>(
    start: &'a [Entry],
    calls: &'a [Call],
    name: &DeskName,
) -> Option<&'a [u8]>
    ensures value { option_map (λ bytes. bytes.now) result ≡ (after (opening start.now) calls.now).files name.now }
{
    let mut file = first_file(start, name);
    for call in calls {
        file = next_file(call, name, file);
    }
    file
}

fn got(alloc: Global, file: Option<&[u8]>, cap: usize) -> Result<Got, AllocError>
    ensures value { IfOk result (λ got. got ≡ got_of (option_map (λ bytes. bytes.now) file.entry) cap) }
{
    match file {
        None => Ok(Got::Absent),
        Some(bytes) => {
            if bytes.len() <= cap {
                Ok(Got::Bytes(Seq::from_vec(Vec::from_slice(alloc, bytes)?)))
            } else {
                Ok(Got::Longer)
            }
        }
    }
}

fn put_call(
    alloc: Global,
    name: &DeskName,
    bytes: Option<&[u8]>,
    is_done: bool,
) -> Result<Call, AllocError>
    ensures value { IfOk result (λ call. call ≡ Call.Put name.now (option_map (λ bytes. bytes.now) bytes.entry) is_done) }
{
    let copy = match bytes {
        Some(bytes) => Some(Seq::from_vec(Vec::from_slice(alloc, bytes)?)),
        None => None,
    };
    Ok(Call::Put(name.share()?, copy, is_done))
}

fn tell_call(alloc: Global, bytes: &[u8], is_done: bool) -> Result<Call, AllocError>
    ensures value { IfOk result (λ call. call ≡ Call.Tell bytes.now is_done) }
{
    Ok(Call::Tell(Seq::from_vec(Vec::from_slice(alloc, bytes)?), is_done))
}

fn done(is_done: bool) -> Result<(), DeskErr>
    ensures value { result ≡ (if is_done then Ok record {} else Err DeskErr.Failed) }
{
    if is_done {
        Ok(())
    } else {
        Err(DeskErr::Failed)
    }
}

fn entries_of(alloc: Global, files: Vec<(DeskName, Vec<u8>)>) -> Result<Vec<Entry>, AllocError>
    ensures value { IfOk result (λ entries. entries.items ≡ map (λ file. record { name = file.0; bytes = file.1.items }) files.items) }
{
    let mut entries = Vec::new(alloc);
    for (name, bytes) in files {
        entries.push(Entry {
            name,
            bytes: Seq::from_vec(bytes),
        })?;
    }
    Ok(entries)
}

impl MemDesk {
    ghost use Rattle.std.specs.Prelude.{◌≡◌, ◌≤◌, ◌+◌, ◌++◌, ◌∷◌, [], length, map, not, IfOk, OnOk, OnErr, IsOkAnd, IsErrOf, Some};
    ghost use Rattle.std.specs.Option.{option_map};
    ghost use Rattle.bk_desk.specs.Disk.{IsCrashImage, IsWrite, WhileWriting};
    ghost use Rattle.bk_desk.specs.CrashPoints.{Elapses};
    ghost use Rattle.bk_desk.specs.Cause.{Rose, HasCause, StaysFaultless};
    ghost use Rattle.bk_desk.specs.Calls.{opening};
    ghost use Rattle.bk_desk.specs.Mem.{mem_standing, mem_standing_after, mem_calls, mem_fails, mem_faults, mem_faultless, mem_was, is_listed, IsNew, IsCounted};
    ghost use Rattle.bk_desk.specs.Left.{restarted};
    ghost use Rattle.bk_desk.specs.MemLeft.{mem_left_image};

    /// A desk with these files, nothing pending and nothing told. Of two files of one name the last counts.
    /// The calls numbered in `fails`, from 1, fail. The one error is want of memory.
    pub fn new(
        alloc: Global,
        files: Vec<(DeskName, Vec<u8>)>,
        fails: Vec<u64>,
    ) -> Result<MemDesk, AllocError>
        ensures value { IfOk result (IsNew (opening (map (λ file. record { name = file.0; bytes = file.1.items }) files.items)) fails.items) }
    {
        let start = entries_of(alloc, files)?;
        Ok(MemDesk {
            alloc,
            log: Log::new(alloc, start),
            fails,
            refused: 0,
        })
    }

    /// The file of this name, where there is one.
    pub fn file(&self, name: &DeskName) -> Option<&[u8]>
        ensures value { option_map (λ bytes. bytes.now) result ≡ (mem_standing self.now).files name.now }
    {
        file_now(&self.log.start, &self.log.calls, name)
    }

    /// The bytes told.
    pub fn told(&self) -> &[u8]
        ensures value { result.now ≡ (mem_standing self.now).told }
    {
        &self.log.told
    }

    /// How many calls were made. One that found no memory isn't counted.
    pub fn calls(&self) -> u64
        ensures value { result ≡ mem_calls self.now }
    {
        self.log.calls.len() as u64
    }

    /// A desk with what a crash leaves after so many calls, where every pending file becomes what `left` says:
    /// nothing pending, nothing told, no call to fail, and no call made yet. The one error is want of memory.
    pub fn after_stop(&self, calls: u64, left: &Left) -> Result<MemDesk, AllocError>
        requires count { calls ≤ mem_calls self.now }
        ensures value { IfOk result (IsNew (restarted (mem_left_image self.now calls left.now)) []) }
        ensures crash { IsCrashImage (mem_standing_after self.now calls) (mem_left_image self.now calls left.now) }
    {
        let start = left_of_all(
            self.alloc,
            &self.log.start,
            &self.log.calls[..calls as usize],
            left,
        )?;
        Ok(MemDesk {
            alloc: self.alloc,
            log: Log::new(self.alloc, start),
            fails: Vec::new(self.alloc),
            refused: 0,
        })
    }

    // Whether the next call is to do its work.
    fn is_next_done(&self) -> bool
        ensures value { result ≡ not (is_listed (mem_fails self.now) (mem_calls self.now + 1)) }
    {
        let number = self.log.calls.len() as u64 + 1;
        !self.fails.as_slice().contains(&number)
    }

    // The answer where memory was wanting, which is counted.
    fn refuse(&mut self) -> DeskErr
        ensures value { result ≡ DeskErr.NoMemory }
        ensures same { (self.new.log ≡ self.old.log) × (self.new.fails.items ≡ self.old.fails.items) }
        ensures cause_memory { HasCause self.old.refused self.new.refused (DeskErr.NoMemory ≡ result) }
    {
        self.refused = self.refused.saturating_add(1);
        DeskErr::NoMemory
    }

    // The call in the record, where memory was found for both.
    fn record(&mut self, call: Result<Call, AllocError>) -> Result<(), DeskErr>
        ensures value { OnOk result (IsOkAnd call (λ added. self.new.log.calls.items ≡ self.old.log.calls.items ++ added ∷ [])) }
        ensures same { OnErr result (self.new.log.calls.items ≡ self.old.log.calls.items) }
        ensures others { (self.new.log.start.items ≡ self.old.log.start.items) × (self.new.fails.items ≡ self.old.fails.items) }
        ensures fault { IsErrOf result DeskErr.Failed → ⊥ }
        ensures cause_memory { (OnOk result (self.new.refused ≡ self.old.refused)) × (HasCause self.old.refused self.new.refused (IsErrOf result DeskErr.NoMemory)) }
    {
        let added = match call {
            Ok(call) => self.log.add(call),
            Err(e) => Err(e),
        };
        match added {
            Ok(()) => Ok(()),
            Err(_) => Err(self.refuse()),
        }
    }

    fn put(&mut self, name: &DeskName, bytes: Option<&[u8]>) -> Result<(), DeskErr>
        ensures value { IsWrite name.now (option_map (λ bytes. bytes.now) bytes.entry) (mem_standing self.old) (mem_standing self.new) result }
        ensures crash { Elapses (mem_calls self.old) (mem_calls self.new) (mem_was self.old) (mem_was self.new) (WhileWriting name.now (mem_standing self.old)) }
        ensures fault { IsCounted self.old self.new result }
        ensures no_fault { StaysFaultless mem_faultless mem_faults self.old self.new }
        ensures cause_desk { HasCause (mem_faults self.old) (mem_faults self.new) (IsErrOf result DeskErr.Failed) }
        ensures cause_memory { HasCause self.old.refused self.new.refused (IsErrOf result DeskErr.NoMemory) }
    {
        let is_done = self.is_next_done();
        let call = put_call(self.alloc, name, bytes, is_done);
        self.record(call)?;
        done(is_done)
    }
}

impl Desk for MemDesk {
    ghost use Rattle.std.specs.Prelude.{◌≡◌, IsTrue, true, length, IfOk, OnOk, IsErrOf, Some, None};
    ghost use Rattle.bk_desk.specs.Disk.{IsCrashState, WhileWriting, WhileTelling, IsWrite, Syncs, NothingPending, Tells, TellsPrefix, got_of, FitsCap};
    ghost use Rattle.bk_desk.specs.CrashPoints.{Elapses};
    ghost use Rattle.bk_desk.specs.Cause.{HasCause, StaysFaultless};
    ghost use Rattle.bk_desk.specs.Mem.{mem_standing, mem_calls, mem_faults, mem_faultless, mem_refused, mem_was, mem_counts_now, mem_only_now, IsCounted};

    ghost tells = { true };

    ghost standing = { mem_standing };

    ghost time = { mem_calls };

    ghost was = { mem_was };

    ghost faults = { mem_faults };

    ghost faultless = { mem_faultless };

    ghost refused = { mem_refused };

    ghost counts_now = { λ d t crash _ le is. mem_counts_now d.log.start.items d.log.calls.items t crash le is };

    ghost only_now = { λ d crash _ was. mem_only_now d.log.start.items d.log.calls.items crash was };

    fn read(&mut self, name: &DeskName, cap: usize) -> Result<Got, DeskErr>
        ensures fits { IfOk result (FitsCap cap) }
        ensures value { IsTrue true → IfOk result (λ got. got ≡ got_of ((mem_standing self.old).files name.now) cap) }
        ensures same { IsTrue true → (mem_standing self.new) ≡ (mem_standing self.old) }
        ensures crash { IsTrue true → Elapses (mem_calls self.old) (mem_calls self.new) (mem_was self.old) (mem_was self.new) (IsCrashState (mem_standing self.old)) }
        ensures no_fault { StaysFaultless mem_faultless mem_faults self.old self.new }
        ensures cause_desk { HasCause (mem_faults self.old) (mem_faults self.new) (IsErrOf result DeskErr.Failed) }
        ensures cause_memory { HasCause (mem_refused self.old) (mem_refused self.new) (IsErrOf result DeskErr.NoMemory) }
        ensures fault { IsCounted self.old self.new result }
    {
        let is_done = self.is_next_done();
        match got(self.alloc, self.file(name), cap) {
            Ok(found) => {
                self.record(Ok(Call::Read(is_done)))?;
                if is_done {
                    Ok(found)
                } else {
                    Err(DeskErr::Failed)
                }
            }
            Err(_) => Err(self.refuse()),
        }
    }

    fn write_file(&mut self, name: &DeskName, bytes: &[u8]) -> Result<(), DeskErr>
        ensures value { IsTrue true → IsWrite name.now (Some bytes.now) (mem_standing self.old) (mem_standing self.new) result }
        ensures crash { IsTrue true → Elapses (mem_calls self.old) (mem_calls self.new) (mem_was self.old) (mem_was self.new) (WhileWriting name.now (mem_standing self.old)) }
        ensures no_fault { StaysFaultless mem_faultless mem_faults self.old self.new }
        ensures cause_desk { HasCause (mem_faults self.old) (mem_faults self.new) (IsErrOf result DeskErr.Failed) }
        ensures cause_memory { HasCause (mem_refused self.old) (mem_refused self.new) (IsErrOf result DeskErr.NoMemory) }
        ensures fault { IsCounted self.old self.new result }
    {
        self.put(name, Some(bytes))
    }

    fn remove(&mut self, name: &DeskName) -> Result<(), DeskErr>
        ensures value { IsTrue true → IsWrite name.now None (mem_standing self.old) (mem_standing self.new) result }
        ensures crash { IsTrue true → Elapses (mem_calls self.old) (mem_calls self.new) (mem_was self.old) (mem_was self.new) (WhileWriting name.now (mem_standing self.old)) }
        ensures no_fault { StaysFaultless mem_faultless mem_faults self.old self.new }
        ensures cause_desk { HasCause (mem_faults self.old) (mem_faults self.new) (IsErrOf result DeskErr.Failed) }
        ensures cause_memory { HasCause (mem_refused self.old) (mem_refused self.new) (IsErrOf result DeskErr.NoMemory) }
        ensures fault { IsCounted self.old self.new result }
    {
        self.put(name, None)
    }

    fn sync(&mut self) -> Result<(), DeskErr>
        ensures durable { IsTrue true → OnOk result (NothingPending (mem_standing self.new)) }
        ensures same { IsTrue true → Syncs (mem_standing self.old) (mem_standing self.new) }
        ensures crash { IsTrue true → Elapses (mem_calls self.old) (mem_calls self.new) (mem_was self.old) (mem_was self.new) (IsCrashState (mem_standing self.old)) }
        ensures no_fault { StaysFaultless mem_faultless mem_faults self.old self.new }
        ensures cause_desk { HasCause (mem_faults self.old) (mem_faults self.new) (IsErrOf result DeskErr.Failed) }
        ensures cause_memory { HasCause (mem_refused self.old) (mem_refused self.new) (IsErrOf result DeskErr.NoMemory) }
        ensures fault { IsCounted self.old self.new result }
    {
        let is_done = self.is_next_done();
        self.record(Ok(Call::Sync(is_done)))?;
        done(is_done)
    }

    fn tell(&mut self, bytes: &[u8]) -> Result<(), DeskErr>
        ensures output { IsTrue true → OnOk result (Tells bytes.now (mem_standing self.old) (mem_standing self.new)) }
        ensures same { IsTrue true → TellsPrefix bytes.now (mem_standing self.old) (mem_standing self.new) }
        ensures crash { IsTrue true → Elapses (mem_calls self.old) (mem_calls self.new) (mem_was self.old) (mem_was self.new) (WhileTelling bytes.now (mem_standing self.old)) }
        ensures no_fault { StaysFaultless mem_faultless mem_faults self.old self.new }
        ensures cause_desk { HasCause (mem_faults self.old) (mem_faults self.new) (IsErrOf result DeskErr.Failed) }
        ensures cause_memory { HasCause (mem_refused self.old) (mem_refused self.new) (IsErrOf result DeskErr.NoMemory) }
        ensures fault { IsCounted self.old self.new result }
    {
        let is_done = self.is_next_done();
        let call = tell_call(self.alloc, bytes, is_done);
        self.record(call)?;
        done(is_done)
    }
}
