ghost use Rattle.std.specs.Prelude.{◌≡◌, ◌++◌, ◌∷◌, [], OnOk, OnErr};
ghost use Rattle.bk_desk.specs.Calls.{told_after, told_by};

use crate::DeskName;
use std::alloc::{AllocError, Global};
use xt_table::Seq;

/// A call of a desk in memory, and whether it did its work.
#[derive(Debug, Drop)]
pub(crate) enum Call {
    Read(bool),
    /// A write, or a removal where there are no bytes.
    Put(DeskName, Option<Seq<u8>>, bool),
    Sync(bool),
    Tell(Seq<u8>, bool),
}

/// A file that stood on the desk before the first call.
#[derive(Debug, Drop)]
pub(crate) struct Entry {
    pub(crate) name: DeskName,
    pub(crate) bytes: Seq<u8>,
}

/// The files before the first call, all calls so far, and the bytes that they told.
#[derive(Debug, Drop)]
pub(crate) struct Log {
    pub(crate) start: Vec<Entry>,
    pub(crate) calls: Vec<Call>,
    pub(crate) told: Vec<u8>,
    ghost told_is: { told.items ≡ told_by calls.items [] },
}

// What the call told, behind what was told before. After an error all is as before.
fn tell_more(told: &mut Vec<u8>, call: &Call) -> Result<(), AllocError>
    ensures value { OnOk result (told.new.items ≡ told_after call.now told.old.items) }
    ensures same { OnErr result (told.new.items ≡ told.old.items) }
{
    match call {
        Call::Tell(bytes, true) => told.extend_from_slice(bytes.as_slice()),
        _ => Ok(()),
    }
}

impl Log {
    /// These files, and no call.
    pub(crate) fn new(alloc: Global, start: Vec<Entry>) -> Log
        ensures value { result.start.items ≡ start.items }
        ensures count { result.calls.items ≡ [] }
    {
        Log {
            start,
            calls: Vec::new(alloc),
            told: Vec::new(alloc),
        }
    }

    /// One call more, and what it told. After an error all is as before.
    pub(crate) fn add(&mut self, call: Call) -> Result<(), AllocError>
        ensures value { OnOk result (self.new.calls.items ≡ self.old.calls.items ++ call ∷ []) }
        ensures same { OnErr result (self.new.calls.items ≡ self.old.calls.items) }
        ensures others { self.new.start.items ≡ self.old.start.items }
    {
        let len = self.told.len();
        tell_more(&mut self.told, &call)?;
        match self.calls.push(call) {
            Ok(()) => Ok(()),
            Err(_) => {
                self.told.truncate(len);
                Err(AllocError)
            }
        }
    }
}
