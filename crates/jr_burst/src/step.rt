ghost use Rattle.std.specs.Prelude.{◌≡◌, IsTrue, IsErrOf};
ghost use Rattle.bk_desk.specs.declared.desk_name.DeskName.TheVariants.{Book};
ghost use Rattle.bk_desk.specs.Disk.{IsWrite, WhileWriting};
ghost use Rattle.bk_desk.specs.CrashPoints.{Elapses};
ghost use Rattle.bk_desk.specs.Cause.{HasCause, StaysFaultless};

use bk_desk::{Desk, DeskErr, DeskName};
use jr_form::Item;
use std::marker::Model;
use xt_table::Seq;

/// An item with the name that the desk knows its file by.
#[derive(Drop)]
pub struct Step {
    file: DeskName,
    bytes: Option<Seq<u8>>,
}

impl Model for Step {
    ghost use Rattle.jr_form.specs.declared.item.Item.{Item};

    ghost Value = { Item };

    ghost use Rattle.jr_burst.specs.Step.{item_of, IsBook};

    ghost view = { item_of };

    ghost invariant = { IsBook };
}

impl Step {
    pub fn new(item: Item) -> Step
        ensures value { result ≡ item }
    {
        let Item { name, bytes } = item;
        Step {
            file: DeskName::Book(name),
            bytes,
        }
    }

    /// Writes or removes the file.
    pub fn perform<D: Desk>(&self, desk: &mut D) -> Result<(), DeskErr>
        ensures value { IsTrue D.tells → IsWrite (Book self.now.name) self.now.bytes (D.standing desk.old) (D.standing desk.new) result }
        ensures crash { IsTrue D.tells → Elapses (D.time desk.old) (D.time desk.new) (D.was desk.old) (D.was desk.new) (WhileWriting (Book self.now.name) (D.standing desk.old)) }
        ensures no_fault { StaysFaultless D.faultless D.faults desk.old desk.new }
        ensures cause_desk { HasCause (D.faults desk.old) (D.faults desk.new) (IsErrOf result DeskErr.Failed) }
        ensures cause_memory { HasCause (D.refused desk.old) (D.refused desk.new) (IsErrOf result DeskErr.NoMemory) }
    {
        match &self.bytes {
            Some(bytes) => desk.write_file(&self.file, bytes.as_slice()),
            None => desk.remove(&self.file),
        }
    }
}
