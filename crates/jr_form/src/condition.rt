// The test of what a save may hold.
ghost use Rattle.std.specs.Prelude.{◌≡◌, ◌↔◌, None, IsTrue};
ghost use Rattle.std.specs.Option.{option_map};
ghost use Rattle.jr_form.specs.Journal.{comes_after, file_size, AreWritable};
ghost use Rattle.jr_form.specs.Condition.{ascends, files_fit, is_met};

use crate::Item;
use crate::limits::{MAX_FILE, MAX_FILES, MAX_ITEMS};
use bk_name::Name;

fn is_behind(name: &Name, before: Option<&Name>) -> bool
    ensures value { result ≡ comes_after (option_map (λ name. name.now) before.entry) name.now }
{
    match before {
        Some(before) => *before < *name,
        None => true,
    }
}

fn ascend(items: &[Item]) -> bool
    ensures value { result ≡ ascends None items.now }
{
    let mut before = None;
    for item in items {
        if !is_behind(&item.name, before) {
            return false;
        }
        before = Some(&item.name);
    }
    true
}

fn size(item: &Item) -> usize
    ensures value { result ≡ file_size item.now.bytes }
{
    match &item.bytes {
        Some(bytes) => bytes.len(),
        None => 0,
    }
}

// Whether each file fits, and all together into so much room.
fn files_fit(items: &[Item], room: usize) -> bool
    ensures value { result ≡ files_fit room items.now }
{
    let mut left = room;
    for item in items {
        let size = size(item);
        if size > MAX_FILE || size > left {
            return false;
        }
        left -= size;
    }
    true
}

fn is_met(items: &[Item]) -> bool
    ensures value { result ≡ is_met items.now }
{
    !items.is_empty()
        && items.len() <= MAX_ITEMS as usize
        && ascend(items)
        && files_fit(items, MAX_FILES)
}

/// Whether the items can be written as a journal: 1 to 5,120 of them, in strictly ascending byte order of names,
/// no file of more than 4,194,304 bytes, and all files together of at most 67,108,864.
pub fn are_writable(items: &[Item]) -> bool
    ensures exact { IsTrue result ↔ AreWritable items.now }
{
    is_met(items)
}
