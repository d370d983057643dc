//! The items of a file, as they are kept.
ghost use Rattle.std.specs.Prelude.{◌≡◌, ◌∷◌, List, OnOk, OnErr};
ghost use Rattle.xt_tree.specs.declared.source.Src.TheVariants as src;
ghost use Rattle.xt_tree.specs.Levels.{levels, AreSized};

use crate::entry::Entry;
use crate::row::{Row, row_at};
use std::alloc::AllocError;
use std::marker::Model;
use xt_lex::Span;

/// The items of a file, kept as one flat list of entries. Contracts see the items as a list.
#[derive(Debug, Drop)]
pub struct Tape {
    entries: Vec<Entry>,
}

impl Model for Tape {
    ghost use Rattle.std.specs.Prelude.{List};
    ghost use Rattle.xt_tree.specs.declared.source.Src.{Src};

    ghost Value = { List Src };

    ghost use Rattle.xt_tree.specs.contracts.source.Src as e;
    ghost use Rattle.std.specs.Coded.{codes};

    ghost coded = { Prim.hlevel (codes, e.the_row.coded) };

    ghost use Rattle.xt_tree.specs.Levels.{levels, AreSized};

    ghost view = { λ t. (levels t.entries.items).inner.items };

    ghost invariant = { λ t. AreSized t.entries.items };
}

impl Tape {
    /// The items, one after the other.
    pub fn items(&self) -> Row<'_>
        ensures value { result ≡ self.now }
    {
        row_at(self.entries.as_slice())
    }

    /// A gap in front of all.
    pub fn begins_with_gap(&mut self, span: Span) -> Result<(), AllocError>
        ensures value { OnOk result (self.new ≡ src.Gap span ∷ self.old) }
    {
        self.entries.insert(
            0,
            Entry::Gap {
                from: span.from,
                to: span.to,
            },
        )?;
        Ok(())
    }
}

/// The entries as the items that they are.
pub(crate) fn tape_of(entries: Vec<Entry>) -> Tape
    requires sized { AreSized entries.items }
    ensures value { result ≡ (levels entries.items).inner.items }
{
    Tape { entries }
}
