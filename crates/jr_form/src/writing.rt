ghost use Rattle.std.specs.Prelude.{◌≡◌, ◌≤◌, ◌++◌, List, ℕ, length, IfOk, OnOk, Some};
ghost use Rattle.xt_spec.specs.Limit.{most_file_bytes};
ghost use Rattle.jr_form.specs.declared.item.Item.{Item};
ghost use Rattle.jr_form.specs.Journal.{entry, content, FileFits, IsNamed, AreWritable, IsJournal};
ghost use Rattle.jr_form.specs.Reading.{reading};

use crate::Item;
use crate::limits::MARK;
use std::alloc::{AllocError, Global};

fn put_file(out: &mut Vec<u8>, file: &[u8]) -> Result<(), AllocError>
    requires fits { length file.now ≤ most_file_bytes }
    ensures value { OnOk result (out.new.items ≡ out.old.items ++ content (Some file.now)) }
{
    let len = file.len() as u32;
    out.extend_from_slice(&len.to_be_bytes())?;
    out.extend_from_slice(file)
}

fn put_item(out: &mut Vec<u8>, item: &Item) -> Result<(), AllocError>
    requires fits { FileFits item.now }
    ensures value { OnOk result (out.new.items ≡ out.old.items ++ entry item.now) }
    ensures keeps { IsNamed item.now }
{
    let kind: u8 = if item.bytes.is_some() { 1 } else { 0 };
    let name = item.name.as_str().as_bytes();
    let len = name.len() as u16;
    out.extend_from_slice(&[kind])?;
    out.extend_from_slice(&len.to_be_bytes())?;
    out.extend_from_slice(name)?;
    match &item.bytes {
        Some(bytes) => put_file(out, bytes.as_slice()),
        None => Ok(()),
    }
}

/// The one spelling of the items, which is read again as they are. The one error is want of memory.
pub fn write_journal(alloc: Global, items: &[Item]) -> Result<Vec<u8>, AllocError>
    requires fits { AreWritable items.now }
    ensures value { IfOk result (λ bytes. IsJournal items.now bytes.items) }
    ensures exact { IfOk result (λ bytes. reading bytes.items ≡ Some items.now) }
{
    let mut out = Vec::from_slice(alloc, MARK)?;
    let count = items.len() as u32;
    out.extend_from_slice(&count.to_be_bytes())?;
    for item in items {
        put_item(&mut out, item)?;
    }
    Ok(out)
}

/// The journals are those that have a reading, and no bytes are the journal of two lists of items.
pub fn one_reading()
    ensures reads { (items : List Item) (bytes : List ℕ) → IsJournal items bytes → reading bytes ≡ Some items }
    ensures one { (a b : List Item) (bytes : List ℕ) → IsJournal a bytes → IsJournal b bytes → a ≡ b }
{}
