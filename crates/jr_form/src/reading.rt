ghost use Rattle.std.specs.Prelude.{◌≡◌, ◌≤◌, ◌<◌, [], List, ℕ, length, IfOk, IfSome, IfNone};
ghost use Rattle.std.specs.Int.{w16, w32};
ghost use Rattle.std.specs.Option.{option_map};
ghost use Rattle.jr_form.specs.declared.item.Item.{Item};
ghost use Rattle.jr_form.specs.Journal.{comes_after, IsJournal, last_name};
ghost use Rattle.jr_form.specs.Reading.{Gives, bytes_at, number_at, name_at, file_at, item_at, items_at, mark_at, reading};

use crate::Item;
use crate::limits::{MARK, MAX_FILE, MAX_ITEMS, MAX_JOURNAL};
use bk_name::{BadName, Name};
use std::alloc::{AllocError, Global};
use xt_table::Seq;

// Why nothing was read.
#[derive(Drop)]
pub(crate) enum Stop {
    NoReading,
    NoMemory,
}

fn bytes_of(n: usize, bytes: &[u8]) -> Result<(&[u8], &[u8]), Stop>
    ensures value { Gives (λ x. (x.0.now, x.1.now)) result (bytes_at n bytes.now) }
{
    if bytes.len() < n {
        return Err(Stop::NoReading);
    }
    Ok(bytes.split_at(n))
}

fn u16_of(bytes: &[u8]) -> Result<(u16, &[u8]), Stop>
    ensures value { Gives (λ x. (x.0, x.1.now)) result (number_at w16 bytes.now) }
{
    if bytes.len() < 2 {
        return Err(Stop::NoReading);
    }
    let (front, rest) = bytes.split_at(2);
    Ok((u16::from_be_bytes([front[0], front[1]]), rest))
}

fn u32_of(bytes: &[u8]) -> Result<(u32, &[u8]), Stop>
    ensures value { Gives (λ x. (x.0, x.1.now)) result (number_at w32 bytes.now) }
{
    if bytes.len() < 4 {
        return Err(Stop::NoReading);
    }
    let (front, rest) = bytes.split_at(4);
    let number = u32::from_be_bytes([front[0], front[1], front[2], front[3]]);
    Ok((number, rest))
}

#[tactic(auto, unfolding(crate::specs::Reading::name_at))]
fn name_of(alloc: Global, bytes: &[u8]) -> Result<(Name, &[u8]), Stop>
    ensures value { Gives (λ x. (x.0, x.1.now)) result (name_at bytes.now) }
{
    let (len, rest) = u16_of(bytes)?;
    let (text, rest) = bytes_of(len as usize, rest)?;
    match Name::read(alloc, text) {
        Ok(name) => Ok((name, rest)),
        Err(BadName::BadName) => Err(Stop::NoReading),
        Err(BadName::NoMemory) => Err(Stop::NoMemory),
    }
}

#[tactic(auto, unfolding(crate::specs::Reading::file_at))]
fn file_of(alloc: Global, bytes: &[u8]) -> Result<(Seq<u8>, &[u8]), Stop>
    ensures value { Gives (λ x. (x.0, x.1.now)) result (file_at bytes.now) }
{
    let (len, rest) = u32_of(bytes)?;
    if len as usize > MAX_FILE {
        return Err(Stop::NoReading);
    }
    let (text, rest) = bytes_of(len as usize, rest)?;
    match Vec::from_slice(alloc, text) {
        Ok(text) => Ok((Seq::from_vec(text), rest)),
        Err(_) => Err(Stop::NoMemory),
    }
}

#[tactic(auto, unfolding(crate::specs::Reading::item_at))]
fn item_of(alloc: Global, bytes: &[u8]) -> Result<(Item, &[u8]), Stop>
    ensures value { Gives (λ x. (x.0, x.1.now)) result (item_at bytes.now) }
{
    match bytes {
        [0, rest @ ..] => {
            let (name, rest) = name_of(alloc, rest)?;
            Ok((Item { name, bytes: None }, rest))
        }
        [1, rest @ ..] => {
            let (name, rest) = name_of(alloc, rest)?;
            let (bytes, rest) = file_of(alloc, rest)?;
            let bytes = Some(bytes);
            Ok((Item { name, bytes }, rest))
        }
        _ => Err(Stop::NoReading),
    }
}

// Whether the name stands behind that of the last item.
fn is_next(items: &[Item], name: &Name) -> bool
    ensures value { result ≡ comes_after (last_name items.now) name.now }
{
    match items {
        [.., last] => last.name < *name,
        [] => true,
    }
}

fn items_of(alloc: Global, count: u32, bytes: &[u8]) -> Result<(Vec<Item>, &[u8]), Stop>
    ensures value { Gives (λ x. (x.0.items, x.1.now)) result (items_at count None bytes.now) }
{
    let mut items = Vec::new(alloc);
    let mut rest = bytes;
    for _ in 0..count {
        let (item, after) = item_of(alloc, rest)?;
        if !is_next(&items, &item.name) {
            return Err(Stop::NoReading);
        }
        if items.push(item).is_err() {
            return Err(Stop::NoMemory);
        }
        rest = after;
    }
    Ok((items, rest))
}

#[tactic(auto, unfolding(crate::specs::Reading::mark_at))]
fn mark_of(bytes: &[u8]) -> Result<(&[u8], &[u8]), Stop>
    ensures value { Gives (λ x. (x.0.now, x.1.now)) result (mark_at bytes.now) }
{
    let (front, rest) = bytes_of(MARK.len(), bytes)?;
    if front == MARK {
        Ok((front, rest))
    } else {
        Err(Stop::NoReading)
    }
}

#[tactic(auto, unfolding(crate::specs::Reading::reading))]
fn all(alloc: Global, bytes: &[u8]) -> Result<Vec<Item>, Stop>
    ensures value { Gives (λ v. v.items) result (reading bytes.now) }
{
    if bytes.len() > MAX_JOURNAL {
        return Err(Stop::NoReading);
    }
    let (_, rest) = mark_of(bytes)?;
    let (count, rest) = u32_of(rest)?;
    if count < 1 || count > MAX_ITEMS {
        return Err(Stop::NoReading);
    }
    let (items, rest) = items_of(alloc, count, rest)?;
    if rest.is_empty() {
        Ok(items)
    } else {
        Err(Stop::NoReading)
    }
}

/// The items of a journal. `None` exactly where the bytes are no journal. The one error is want of memory.
pub fn read_journal(alloc: Global, bytes: &[u8]) -> Result<Option<Vec<Item>>, AllocError>
    ensures exact { IfOk result (λ found. reading bytes.now ≡ option_map (λ v. v.items) found) }
    // What is read is spelled so.
    ensures found { IfOk result (λ found. IfSome found (λ v. IsJournal v.items bytes.now)) }
    // What is spelled so is read.
    ensures only { IfOk result (λ found. IfNone found ((items : List Item) → IsJournal items bytes.now → ⊥)) }
{
    match all(alloc, bytes) {
        Ok(items) => Ok(Some(items)),
        Err(Stop::NoReading) => Ok(None),
        Err(Stop::NoMemory) => Err(AllocError),
    }
}
