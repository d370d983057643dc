ghost use Rattle.std.specs.Prelude.{◌≡◌, IfOk};
ghost use Rattle.jr_form.specs.Journal.{AreWritable};

use crate::planned::Plan;
use crate::step::Step;
use jr_form::{Item, write_journal};
use std::alloc::{AllocError, Global};

pub(crate) fn steps_of(alloc: Global, items: Vec<Item>) -> Result<Vec<Step>, AllocError>
    ensures value { IfOk result (λ steps. steps.items ≡ items.items) }
{
    let mut steps = Vec::new(alloc);
    for item in items {
        steps.push(Step::new(item))?;
    }
    Ok(steps)
}

/// What it takes to write and remove these files as one: their journal, and their names as the desk knows them.
/// It takes all the memory that `commit` needs. `are_writable` of `jr_form` is the test of its condition.
pub fn plan(alloc: Global, items: Vec<Item>) -> Result<Plan, AllocError>
    requires fits { AreWritable items.items }
    ensures value { IfOk result (λ plan. plan ≡ items.items) }
{
    let journal = write_journal(alloc, items.as_slice())?;
    let steps = steps_of(alloc, items)?;
    Ok(Plan { steps, journal })
}
