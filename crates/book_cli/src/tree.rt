//! The tree of a book's root, as it is told behind the replies.
ghost use Rattle.std.specs.Prelude.{◌≡◌, ◌⊎◌, ◌++◌, ℕ, List, Some, IsTrue, IfOk, if◌then◌else◌};
ghost use Rattle.bk_desk.specs.CrashPoints.{AtEachCrash};
ghost use Rattle.bk_desk.specs.Cause.{HasCause, StaysFaultless};
ghost use Rattle.ed_spec.specs.Book.{Book};
ghost use Rattle.book_cli.specs.Output.{IsTree};
ghost use Rattle.book_cli.specs.Ends.{IsToldWith};

use crate::telling::{NO_MEMORY, tell};
use bk_desk::Desk;
use bk_place::print;
use ed_session::Session;
use std::alloc::{AllocError, Global};
use std::mem;

/// The tree of the root as it was edited.
fn tree_of(alloc: Global, session: Session) -> Result<Vec<u8>, AllocError>
    ensures value { IfOk result (λ text. (book : Book) → book session.root ≡ Some session.bytes → IsTree session.root book text.items) }
{
    let opened = session.into_opened()?;
    let text = print(alloc, opened.nodes.as_slice())?;
    // The process ends soon. To take its many items and nodes apart first takes a good part of its time.
    mem::forget(opened);
    Ok(text)
}

/// 1 where a command was refused.
fn status_of(refused: bool) -> u8
    ensures value { result ≡ (if refused then 1 else 0) }
{
    if refused { 1 } else { 0 }
}

/// Tells the tree of a root, and gives the status of a run whose commands were carried out.
pub(crate) fn tell_tree<D: Desk>(alloc: Global, session: Session, refused: bool, desk: &mut D) -> u8
    ensures value { (result ≡ 0) ⊎ ((result ≡ 1) ⊎ ((result ≡ 6) ⊎ (result ≡ 7))) }
    ensures output { IsTrue D.tells → (book : Book) (tree : List ℕ) → book session.root ≡ Some session.bytes → IsTree session.root book tree
        → IsToldWith (if refused then 1 else 0) tree (D.standing desk.old) (D.standing desk.new) (AtEachCrash D.time D.was desk.old desk.new) result }
    ensures no_fault { StaysFaultless D.faultless D.faults desk.old desk.new }
    ensures cause_desk { HasCause (D.faults desk.old) (D.faults desk.new) (result ≡ 6) }
{
    match tree_of(alloc, session) {
        Ok(text) => tell(desk, &text, status_of(refused)),
        Err(_) => NO_MEMORY,
    }
}
