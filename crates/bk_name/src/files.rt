//! The files of a book, as far as they are known: a finite map from names to entries.
ghost use Rattle.std.specs.Prelude.{◌≡◌, Some, IsSome, OnOk, OnErr};
ghost use Rattle.std.specs.FinMap as book;
ghost use Rattle.bk_name.specs.Files.{found_by};

use crate::Name;
use std::alloc::{AllocError, Global};
use std::collections::BTreeMap;
use std::marker::Model;
use std::mem;

/// The bytes of a file.
#[derive(Debug, Drop)]
pub struct Bytes {
    items: Vec<u8>,
}

impl Model for Bytes {
    ghost use Rattle.std.specs.Prelude.{List, ℕ};

    ghost Value = { List ℕ };

    ghost view = { λ b. b.items.items };
}

impl Bytes {
    /// The bytes of the `Vec`; no memory is taken.
    pub fn from_vec(items: Vec<u8>) -> Bytes
        ensures value { result ≡ items.items }
    {
        Bytes { items }
    }

    /// The `Vec` of the bytes; no memory is taken.
    pub fn into_vec(self) -> Vec<u8>
        ensures value { result.items ≡ self }
    {
        let Bytes { items } = self;
        items
    }

    /// The bytes in their order.
    pub fn as_slice(&self) -> &[u8]
        ensures value { result.now ≡ self.now }
    {
        self.items.as_slice()
    }
}

/// What a file holds, or that it isn't there.
#[derive(Debug, Drop)]
pub enum Entry {
    /// The file is there, with these bytes.
    Bytes(Bytes),
    /// The file was looked up, and isn't there.
    Absent,
}

/// What is known of a file.
#[derive(Debug, Drop)]
pub enum Look<'a> {
    /// The file is there, with these bytes.
    Known(&'a [u8]),
    /// The file was looked up, and isn't there.
    Absent,
    /// The file wasn't looked up yet.
    Need,
}

/// The files that were looked up, there or not.
#[derive(Drop)]
pub struct Files {
    map: BTreeMap<Name, Entry>,
}

impl Model for Files {
    ghost use Rattle.std.specs.FinMap as book;
    ghost use Rattle.std.specs.Prelude.{List, ℕ};
    ghost use Rattle.std.specs.Ordering.{nat_cmp};
    ghost use Rattle.std.specs.Cmp.Lexicographic.{slice_cmp};
    ghost use Rattle.bk_name.specs.declared.files.Entry.{Entry};
    ghost use Rattle.bk_name.specs.contracts.files.Entry as entry_contract;
    ghost use Rattle.std.specs.Coded.{coded_list, coded_ℕ};

    ghost Value = { book.FinMap (slice_cmp nat_cmp) Entry };

    ghost coded = { book.code (coded_list coded_ℕ) entry_contract.the_row.coded };

    ghost view = { λ f. book.from_entries f.map.entries };
}

impl Files {
    /// No file is known yet. No memory is taken.
    pub fn new(alloc: Global) -> Files
        ensures value { result ≡ book.empty }
    {
        Files {
            map: BTreeMap::new(alloc),
        }
    }

    /// What is known of the file. No memory is taken.
    pub fn look(&self, name: &Name) -> Look<'_>
        ensures value { found_by result ≡ book.get self.now name.now }
    {
        match self.map.get(name) {
            Some(Entry::Bytes(bytes)) => Look::Known(bytes.as_slice()),
            Some(Entry::Absent) => Look::Absent,
            None => Look::Need,
        }
    }

    /// Puts what the file holds, also in the place of what was known of it.
    /// The one error is want of memory; the entry is then dropped.
    pub fn put(&mut self, name: Name, entry: Entry) -> Result<(), AllocError>
        ensures value { OnOk result (self.new ≡ book.insert self.old name entry) }
        ensures same { OnErr result (self.new ≡ self.old) }
    {
        self.map.insert(name, entry)?;
        Ok(())
    }

    /// Puts the entry in the place of the one that is there, which is handed back. No memory is taken.
    pub fn swap(&mut self, name: &Name, entry: Entry) -> Entry
        requires present { IsSome (book.get self.old name.now) }
        ensures value { book.get self.old name.now ≡ Some result }
        ensures stored { self.new ≡ book.insert self.old name.now entry }
    {
        match self.map.get_mut(name) {
            Some(place) => mem::replace(place, entry),
            None => unreachable!(),
        }
    }
}
