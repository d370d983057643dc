//! How a session begins: the book is recovered, its root is read, and opens.
ghost use Rattle.std.specs.Prelude.{◌≡◌, ◌≤◌, ◌+◌, ℕ, List, Option, None, length, IsTrue, IfOk, IfErr, IfSome, IsErrOf};
ghost use Rattle.xt_spec.specs.Limit.{most_file_bytes};
ghost use Rattle.xt_spec.specs.Tree.{Items as SyntaxItems};
ghost use Rattle.bk_desk.specs.declared.desk_name.DeskName.TheVariants.{Book};
ghost use Rattle.bk_desk.specs.Disk.{FitsCap, Syncs, got_of};
ghost use Rattle.bk_desk.specs.CrashPoints.{AtEachCrash};
ghost use Rattle.bk_desk.specs.Cause.{HasCause, StaysFaultless};
ghost use Rattle.jr_burst.specs.SavedFiles.{recovered_files};
ghost use Rattle.jr_burst.specs.Recover.{IsRecovered, IsStartOrRecovered, IsOnlySynced};
ghost use Rattle.ed_session.specs.Kept.{Kept, Opens};
ghost use Rattle.ed_session.specs.Start.{IsOver, start_cause, IsNoOpening, IsNoRoot, IsStarted, FailsBy, size_of_got, recovered_steps, TakesSteps, HasRead};

use crate::kept::Session;
use bk_desk::{Desk, DeskErr, DeskName, Got};
use bk_info::BookFault;
use bk_name::Name;
use ent_doc::{OpenFault, Opened, open_document};
use jr_burst::{RecoverFault, recover};
use std::alloc::{AllocError, Global};
use std::sync::ledger::Ledger;
use thiserror::Error;
use xt_lex::Steps;

/// The most bytes that a file may have.
pub(crate) const MOST_BYTES: usize = 4_194_304;

/// Why a book did not open.
#[derive(Debug, Drop, Error)]
pub enum StartFault {
    /// The disk failed: its count of faults rose in this call.
    #[error("the disk failed")]
    Desk,
    /// The gate is open and the journal has no reading. Nothing was written.
    #[error("the journal is damaged")]
    Journal,
    /// The root is not there, is too long, or has this first fault.
    #[error("the root does not open")]
    Book(BookFault),
    /// Memory was wanting.
    #[error("out of memory")]
    NoMemory,
}

impl From<RecoverFault> for StartFault {
    ghost use Rattle.ed_session.specs.Start.{start_of_recover};

    ghost from_gives = { λ e fault. fault ≡ start_of_recover e };

    fn from(e: RecoverFault) -> Self {
        match e {
            RecoverFault::Desk => StartFault::Desk,
            RecoverFault::Journal => StartFault::Journal,
            RecoverFault::NoMemory => StartFault::NoMemory,
        }
    }
}

impl From<AllocError> for StartFault {
    ghost use Rattle.ed_session.specs.declared.opening.StartFault.TheVariants.{NoMemory};

    ghost from_gives = { λ _ fault. fault ≡ NoMemory };

    fn from(_e: AllocError) -> Self {
        StartFault::NoMemory
    }
}

impl From<DeskErr> for StartFault {
    ghost use Rattle.ed_session.specs.Start.{start_of_desk};

    ghost from_gives = { λ e fault. fault ≡ start_of_desk e };

    fn from(e: DeskErr) -> Self {
        match e {
            DeskErr::Failed => StartFault::Desk,
            DeskErr::NoMemory => StartFault::NoMemory,
        }
    }
}

impl From<OpenFault> for StartFault {
    ghost use Rattle.ed_session.specs.Start.{start_of_open};

    ghost from_gives = { λ e fault. fault ≡ start_of_open e };

    fn from(e: OpenFault) -> Self {
        match e {
            OpenFault::Book(fault) => StartFault::Book(fault),
            OpenFault::NoMemory => StartFault::NoMemory,
        }
    }
}

/// The session over a root of these bytes.
fn opened<L: Ledger>(
    alloc: Global,
    root: Name,
    bytes: Vec<u8>,
    steps: &mut Steps<L>,
) -> Result<Session, StartFault>
    requires fits { length bytes.items ≤ most_file_bytes }
    ensures value { IfOk result (λ s. s ≡ record { root = root; bytes = bytes.items; saved = bytes.items }) }
    ensures opens { IfOk result (λ s. (items : SyntaxItems) × Opens root bytes.items items) }
    ensures fault { IfErr result (λ e. IfSome (start_cause e) (IsNoOpening root bytes.items)) }
    ensures count { steps.new ≡ steps.old + length bytes.items }
{
    let Opened { items, nodes } = open_document(alloc, &root, bytes.as_slice(), steps)?;
    Ok(Session {
        root,
        bytes,
        items,
        nodes: Some(nodes),
        saved: None,
    })
}

/// The session over what a read of the root gave.
fn opened_by<L: Ledger>(
    alloc: Global,
    root: &Name,
    got: Got,
    steps: &mut Steps<L>,
) -> Result<Session, StartFault>
    requires fits { FitsCap most_file_bytes got }
    ensures value { IfOk result (λ s. (found : Option (List ℕ)) → got ≡ got_of found most_file_bytes → IsOver root.now found s) }
    ensures fault { IfErr result (λ e. (found : Option (List ℕ)) → got ≡ got_of found most_file_bytes → IfSome (start_cause e) (IsNoRoot root.now found)) }
    ensures only { ¬ IsErrOf result StartFault.Desk × ¬ IsErrOf result StartFault.Journal }
    ensures count { steps.new ≤ steps.old + most_file_bytes }
    ensures exact { (steps.old ≤ steps.new) × TakesSteps (¬ IsErrOf result StartFault.NoMemory) (size_of_got got) steps.old steps.new }
{
    match got {
        Got::Absent => Err(StartFault::Book(BookFault::Missing {
            file: root.share()?,
        })),
        Got::Longer => Err(StartFault::Book(BookFault::TooLarge {
            file: root.share()?,
        })),
        Got::Bytes(bytes) => opened(alloc, root.share()?, bytes.into_vec(), steps),
    }
}

/// Recovers the book, and opens its root.
pub fn start<D: Desk, L: Ledger>(
    alloc: Global,
    desk: &mut D,
    root: &Name,
    steps: &mut Steps<L>,
) -> Result<Session, StartFault>
    ensures value { IsTrue D.tells → IfOk result (IsStarted root.now (D.standing desk.old) (D.standing desk.new)) }
    ensures fault { IsTrue D.tells → IfErr result (λ e. IfSome (start_cause e) (FailsBy root.now (D.standing desk.old) (D.standing desk.new))) }
    // A damaged journal: nothing is written, whatever the answer.
    ensures none { IsTrue D.tells → recovered_files (D.standing desk.old).files ≡ None → Syncs (D.standing desk.old) (D.standing desk.new) }
    ensures crash { IsTrue D.tells → AtEachCrash D.time D.was desk.old desk.new (IsStartOrRecovered (D.standing desk.old)) }
    ensures no_fault { StaysFaultless D.faultless D.faults desk.old desk.new }
    ensures cause_desk { HasCause (D.faults desk.old) (D.faults desk.new) (IsErrOf result StartFault.Desk) }
    ensures count { (steps.old ≤ steps.new) × (steps.new ≤ steps.old + most_file_bytes) }
    ensures exact { IsTrue D.tells → TakesSteps (HasRead result) (recovered_steps root.now (recovered_files (D.standing desk.old).files)) steps.old steps.new }
{
    recover(alloc, desk)?;
    let got = desk.read(&DeskName::Book(root.share()?), MOST_BYTES)?;
    opened_by(alloc, root, got, steps)
}
