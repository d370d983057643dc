//! Saving the root, where it differs from what was saved.
ghost use Rattle.std.specs.Prelude.{◌≡◌, ◌≢◌, ◌≤◌, ◌∷◌, [], ℕ, List, true, false, IsTrue, IfOk, OnErr, IsErrOf, length};
ghost use Rattle.xt_spec.specs.Limit.{most_file_bytes};
ghost use Rattle.bk_desk.specs.declared.desk_name.DeskName.TheVariants.{Book};
ghost use Rattle.bk_desk.specs.CrashPoints.{AtEachCrash};
ghost use Rattle.bk_desk.specs.Cause.{HasCause, StaysFaultless};
ghost use Rattle.jr_burst.specs.Commit.{IsClosed};
ghost use Rattle.ed_session.specs.Burst.{item_of, IsSaved, IsBurst, MayCrashInBurst};

use crate::kept::Session;
use bk_desk::{Desk, DeskErr};
use bk_name::Name;
use jr_burst::{Plan, commit, plan};
use jr_form::Item;
use std::alloc::{AllocError, Global};
use xt_table::Seq;

/// What it takes to save a root of these bytes.
fn plan_of(alloc: Global, root: &Name, bytes: &[u8]) -> Result<Plan, AllocError>
    requires fits { length bytes.now ≤ most_file_bytes }
    ensures value { IfOk result (λ plan. plan ≡ item_of root.now bytes.now ∷ []) }
{
    let item = Item {
        name: root.share()?,
        bytes: Some(Seq::from_vec(Vec::from_slice(alloc, bytes)?)),
    };
    let mut items = Vec::new(alloc);
    items.push(item)?;
    plan(alloc, items)
}

fn are_same(a: &[u8], b: &[u8]) -> bool
    ensures value { (result ≡ true → a.now ≡ b.now) × (result ≡ false → a.now ≢ b.now) }
{
    a == b
}

impl Session {
    /// Whether the root has the bytes that were last saved.
    fn is_saved(&self) -> bool
        ensures value { (result ≡ true → self.now.bytes ≡ self.now.saved) × (result ≡ false → self.now.bytes ≢ self.now.saved) }
    {
        match &self.saved {
            Some(saved) => are_same(self.bytes.as_slice(), saved.as_slice()),
            None => true,
        }
    }

    /// Saves the root, where it differs from what was saved: it answers how many files were written, 0 or 1.
    ///
    /// After an error the session is as before, and a crash, now or in the call, leaves the root saved or as it was.
    pub fn burst<D: Desk>(&mut self, desk: &mut D) -> Result<u32, DeskErr>
        requires current { IsTrue D.tells → IsClosed (D.standing desk.old) }
        ensures value { IfOk result (λ count. IsSaved self.old self.new count) }
        ensures durable { IsTrue D.tells → IfOk result (λ count. IsBurst self.old (D.standing desk.old) (D.standing desk.new) count) }
        ensures same { OnErr result (self.new ≡ self.old) }
        // Where nothing differs the answer is 0, and no call of the desk is made.
        ensures fault { OnErr result (self.old.bytes ≢ self.old.saved) }
        ensures others { self.old.bytes ≡ self.old.saved → desk.new ≡ desk.old }
        ensures crash { IsTrue D.tells → AtEachCrash D.time D.was desk.old desk.new (MayCrashInBurst self.old (D.standing desk.old)) }
        ensures no_fault { StaysFaultless D.faultless D.faults desk.old desk.new }
        ensures cause_desk { HasCause (D.faults desk.old) (D.faults desk.new) (IsErrOf result DeskErr.Failed) }
    {
        if self.is_saved() {
            self.saved = None;
            return Ok(0);
        }
        let alloc = *self.bytes.allocator();
        let plan = match plan_of(alloc, &self.root, self.bytes.as_slice()) {
            Ok(plan) => plan,
            Err(_) => return Err(DeskErr::NoMemory),
        };
        commit(desk, &plan)?;
        self.saved = None;
        Ok(1)
    }
}
