//! Entries that are appended, one token after the other.
ghost use Rattle.std.specs.Prelude.{◌≡◌, ◌<◌, ◌+◌, ◌++◌, ◌^◌, List, [], ◌∷◌, length, map, Some, None, true, false, OnOk, IfOk};
ghost use Rattle.xt_tree.specs.declared.source.Src.TheVariants as src;
ghost use Rattle.xt_tree.specs.Rows.{IsShaped, attr_entry};
ghost use Rattle.xt_tree.specs.Leaves.{leaf_entry, leaf_item};
ghost use Rattle.xt_tree.specs.Built.{built, IsSound, with_item, with_tag, IsOpen, closed, innermost};

use crate::entry::Entry;
use crate::source::Tag;
use crate::tape::{Tape, tape_of};
use std::alloc::{AllocError, Global};
use xt_lex::{AttrSrc, Span};

/// What an item is that holds no others.
#[derive(Clone, Copy, Debug, PartialEq, Eq)]
pub enum Leaf {
    Text,
    Ref,
    Comment,
    Pi,
    Gap,
}

impl Leaf {
    /// Its entry.
    fn entry(self, span: Span) -> Entry
        ensures value { result ≡ leaf_entry self span }
    {
        let Span { from, to } = span;
        match self {
            Leaf::Text => Entry::Text { from, to },
            Leaf::Ref => Entry::Ref { from, to },
            Leaf::Comment => Entry::Comment { from, to },
            Leaf::Pi => Entry::Pi { from, to },
            Leaf::Gap => Entry::Gap { from, to },
        }
    }
}

/// The entries so far, and where the tags of the elements that are open stand, the innermost last.
#[derive(Debug, Drop)]
pub struct Building {
    entries: Vec<Entry>,
    opened: Vec<u32>,
}

/// A count that an entry has room for. A file has fewer bytes than that, and so fewer entries; where there are more, memory
/// is wanting.
fn count_of(len: usize) -> Result<u32, AllocError>
    ensures value { IfOk result (λ count. count ≡ len) }
{
    match u32::try_from(len) {
        Ok(count) => Ok(count),
        Err(_) => Err(AllocError),
    }
}

/// The attributes of a tag.
fn put_attrs(entries: &mut Vec<Entry>, attrs: &[AttrSrc]) -> Result<(), AllocError>
    ensures value { OnOk result (entries.new.items ≡ entries.old.items ++ map attr_entry attrs.now) }
{
    for attr in attrs {
        entries.push(Entry::Attr {
            at: attr.name.from,
            name_to: attr.name.to,
            from: attr.value.from,
            to: attr.value.to,
        })?;
    }
    Ok(())
}

/// Where the name of a tag stands.
fn name_at(from: u32, to: u32, name_to: u32) -> Span
    requires order { from < to }
    ensures value { result ≡ record { from = from + 1; to = name_to } }
{
    Span {
        from: from + 1,
        to: name_to,
    }
}

impl Building {
    pub fn new(alloc: Global) -> Building
        ensures sound { IsSound result }
        ensures value { built result ≡ record { opened = []; items = [] } }
    {
        Building {
            entries: Vec::new(alloc),
            opened: Vec::new(alloc),
        }
    }

    /// How many elements are open.
    pub fn depth(&self) -> usize
        requires sound { IsSound self.now }
        ensures value { result ≡ length (built self.now).opened }
    {
        self.opened.len()
    }

    /// An element begins.
    pub fn opens(&mut self, head: &Tag) -> Result<(), AllocError>
        requires shaped { IsShaped head.now }
        requires start { head.now.empty ≡ false }
        requires sound { IsSound self.old }
        ensures value { OnOk result (IsSound self.new × (built self.new ≡ with_tag (built self.old) head.now)) }
    {
        let at = count_of(self.entries.len())?;
        self.opened.push(at)?;
        self.entries.push(Entry::Elem {
            from: head.span.from,
            to: head.span.to,
            name_to: head.name.to,
            inside: 0,
        })?;
        put_attrs(&mut self.entries, head.attrs.as_slice())
    }

    /// An element is its tag alone.
    pub fn adds_empty(&mut self, head: &Tag) -> Result<(), AllocError>
        requires shaped { IsShaped head.now }
        requires empty { head.now.empty ≡ true }
        requires sound { IsSound self.old }
        ensures value { OnOk result (IsSound self.new × (built self.new ≡ with_item (built self.old) (src.Elem None head.now []))) }
    {
        let attrs = count_of(head.attrs.as_slice().len())?;
        self.entries.push(Entry::Empty {
            from: head.span.from,
            to: head.span.to,
            name_to: head.name.to,
            attrs,
        })?;
        put_attrs(&mut self.entries, head.attrs.as_slice())
    }

    /// The innermost element ends.
    pub fn closes(&mut self, span: Span) -> Result<(), AllocError>
        requires some { IsOpen (built self.old).opened }
        requires sound { IsSound self.old }
        ensures value { OnOk result (IsSound self.new × (built self.new ≡ closed span (built self.old))) }
    {
        let Some(at) = self.opened.pop() else {
            unreachable!();
        };
        let Entry::Elem {
            from,
            to,
            name_to,
            ..
        } = self.entries[at as usize]
        else {
            unreachable!();
        };
        let inside = count_of(self.entries.len() - at as usize - 1)?;
        self.entries[at as usize] = Entry::Elem {
            from,
            to,
            name_to,
            inside,
        };
        self.entries.push(Entry::End {
            from: span.from,
            to: span.to,
        })?;
        Ok(())
    }

    /// An item that holds no others.
    pub fn adds_leaf(&mut self, leaf: Leaf, span: Span) -> Result<(), AllocError>
        requires sound { IsSound self.old }
        ensures value { OnOk result (IsSound self.new × (built self.new ≡ with_item (built self.old) (leaf_item leaf span))) }
    {
        self.entries.push(leaf.entry(span))?;
        Ok(())
    }

    /// The name of the innermost element that is open.
    pub fn innermost(&self) -> Option<Span>
        requires sound { IsSound self.now }
        ensures value { result ≡ innermost (built self.now).opened }
    {
        let Some(at) = self.opened.last() else {
            return None;
        };
        let Entry::Elem {
            from,
            to,
            name_to,
            ..
        } = self.entries[*at as usize]
        else {
            unreachable!();
        };
        Some(name_at(from, to, name_to))
    }

    /// All that was built, where nothing is open.
    pub fn into_tape(self) -> Tape
        requires whole { (built self).opened ≡ [] }
        requires sound { IsSound self }
        ensures value { result ≡ (built self).items }
    {
        let Building { entries, .. } = self;
        tape_of(entries)
    }
}
