//! How far the nodes of a document are made.
ghost use Rattle.std.specs.Prelude.{◌≡◌, suc, OnOk, IfOk, IfErr, Result};
ghost use Rattle.bk_spec.specs.Node.{Nodes};
ghost use Rattle.bk_spec.specs.Fault.{Fault};
ghost use Rattle.bk_spec.specs.DocumentNodes.{with_room};
ghost use Rattle.ent_doc.specs.Opening.{open_fault};
ghost use Rattle.ent_doc.specs.Steps.{Fails};

use crate::fault::OpenFault;
use crate::names::Names;
use crate::source::Source;
use std::alloc::{AllocError, Global};

/// How many nodes a document has at most.
const MOST: u32 = 1_000_000;

/// How many nodes there are so far, and the names that they have.
#[derive(Drop)]
pub(crate) struct Work {
    pub(crate) count: u32,
    pub(crate) names: Names,
}

impl Work {
    /// No nodes yet. The one error is want of memory.
    pub(crate) fn new(alloc: Global) -> Result<Work, AllocError>
        ensures count { IfOk result (λ work. work.count ≡ 0) }
    {
        Ok(Work {
            count: 0,
            names: Names::new(alloc)?,
        })
    }

    /// Counts one node more, where there is room for it.
    pub(crate) fn count_one(&mut self, source: &Source<'_>) -> Result<(), OpenFault>
        ensures count { OnOk result (self.new.count ≡ suc self.old.count) }
        ensures room { OnOk result ((others : Result Nodes Fault) → with_room source.now.file.now self.old.count others ≡ others) }
        ensures fault { IfErr result (λ fault. (others : Result Nodes Fault) → Fails (with_room source.now.file.now self.old.count others) (open_fault fault)) }
    {
        if self.count >= MOST {
            return Err(OpenFault::Book(source.too_large()?));
        }
        self.count += 1;
        Ok(())
    }
}
