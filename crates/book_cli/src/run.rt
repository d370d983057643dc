//! The run of the program, over any disk and any script.
ghost use Rattle.std.specs.Prelude.{◌≡◌, ◌≢◌, ◌⊎◌, ◌≤◌, ◌+◌, ◌*◌, ◌++◌, ℕ, List, [], length, map, Option, Some, None, IsTrue, string_bytes};
ghost use Rattle.xt_spec.specs.Limit.{most_file_bytes, most_script_bytes};
ghost use Rattle.bk_desk.specs.Disk.{DiskState};
ghost use Rattle.bk_desk.specs.CrashPoints.{AtEachCrash};
ghost use Rattle.bk_desk.specs.Cause.{Rose, HasCause, StaysFaultless};
ghost use Rattle.jr_burst.specs.Commit.{IsClosed};
ghost use Rattle.bk_script.specs.View.{command_of};
ghost use Rattle.jr_burst.specs.SavedFiles.{book_files};
ghost use Rattle.ed_spec.specs.Session as model;
ghost use Rattle.ed_session.specs.Start.{IsStarted, TakesSteps};
ghost use Rattle.bk_run.specs.Replies.{AreCommandsOf};
ghost use Rattle.bk_run.specs.Counts.{all_steps};
ghost use Rattle.bk_script.specs.Script.{IsScript};
ghost use Rattle.book_cli.specs.Words.{root_of};
ghost use Rattle.book_cli.specs.Output.{is_book_status, is_script_status, is_exit_status, is_answer, IsOutput, WritesOutput};
ghost use Rattle.bk_run.specs.Input.{IsInput};
ghost use Rattle.book_cli.specs.Leaves.{RecoveredBook, recovers_book, MayCrashIn, KeepsFiles, IsBookSaved, TakesRunSteps};
ghost use Rattle.book_cli.specs.Ends.{IsSessionRun, IsRunOver, IsSourceFault, EndsBy, EndsEarly, IsLocalRun};

use crate::fault::tell_fault;
use crate::telling::{FAULT, NO_MEMORY, tell, tell_script_fault};
use crate::tree::tell_tree;
use crate::words::root_of as named_root;
use bk_desk::{Desk, Source};
use bk_name::Name;
use bk_run::{InputFault, Stop, read_input, tell_replies};
use bk_script::{Command, read_script};
use ed_session::{Session, StartFault, start};
use std::alloc::Global;
use std::sync::ledger::Ledger;
use xt_lex::Steps;

const USAGE: &[u8] = b"usage: bookedit [--base URI] ROOT [CATALOG]...\n";

const SOURCE_LINE: &[u8] = b"fault source\n";

const JOURNAL_LINE: &[u8] = b"fault journal\n";

/// Carries out the commands over a session, and tells their replies and the tree.
fn run_session<D: Desk, L: Ledger>(
    alloc: Global,
    mut session: Session,
    commands: &[Command],
    desk: &mut D,
    steps: &mut Steps<L>,
) -> u8
    requires current { IsTrue D.tells → IsClosed (D.standing desk.old) }
    ensures value { (result ≡ 0) ⊎ ((result ≡ 1) ⊎ ((result ≡ 6) ⊎ (result ≡ 7))) }
    ensures output { IsTrue D.tells → (start : DiskState) → IsStarted session.root start (D.standing desk.old) session
        → IsSessionRun session.root (map command_of commands.now) (D.standing desk.old) (D.standing desk.new) (AtEachCrash D.time D.was desk.old desk.new) result }
    ensures no_fault { StaysFaultless D.faultless D.faults desk.old desk.new }
    ensures cause_desk { HasCause (D.faults desk.old) (D.faults desk.new) (result ≡ 6) }
    ensures count { (steps.old ≤ steps.new) × (steps.new ≤ steps.old + length commands.now * most_file_bytes) }
    ensures exact { IsTrue D.tells → (start : DiskState) (asked : List model.Command) (replies : List model.Step) (last : model.Session) → IsStarted session.root start (D.standing desk.old) session
        → AreCommandsOf (map command_of commands.now) asked → model.DoesAll session.root (model.opened session.root (book_files (D.standing desk.old).files)) asked replies last
        → TakesSteps (IsTrue (recovers_book result)) (all_steps session.root asked replies) steps.old steps.new }
{
    match tell_replies(alloc, &mut session, commands, desk, steps) {
        Ok(refused) => tell_tree(alloc, session, refused, desk),
        Err(Stop::Fault) => FAULT,
        Err(Stop::NoMemory) => NO_MEMORY,
    }
}

/// Recovers the book and opens its root, and carries out the commands.
fn run_book<D: Desk, L: Ledger>(
    alloc: Global,
    root: &Name,
    commands: &[Command],
    desk: &mut D,
    steps: &mut Steps<L>,
) -> u8
    ensures value { IsTrue (is_book_status result) ⊎ ((result ≡ 6) ⊎ (result ≡ 7)) }
    ensures output { IsTrue D.tells → (bytes : List ℕ) → IsScript bytes (map command_of commands.now)
        → IsRunOver (Some root.now) bytes (D.standing desk.old) (D.standing desk.new) (AtEachCrash D.time D.was desk.old desk.new) result }
    ensures no_fault { StaysFaultless D.faultless D.faults desk.old desk.new }
    ensures cause_desk { HasCause (D.faults desk.old) (D.faults desk.new) (result ≡ 6) }
    ensures count { steps.old ≤ steps.new }
    ensures exact { IsTrue D.tells → (bytes : List ℕ) → IsScript bytes (map command_of commands.now) → TakesRunSteps (Some root.now) bytes (D.standing desk.old).files result steps.old steps.new }
{
    match start(alloc, desk, root, steps) {
        Ok(session) => run_session(alloc, session, commands, desk, steps),
        Err(StartFault::Desk) => FAULT,
        Err(StartFault::Journal) => tell(desk, JOURNAL_LINE, 8),
        Err(StartFault::Book(fault)) => tell_fault(alloc, &fault, desk),
        Err(StartFault::NoMemory) => NO_MEMORY,
    }
}

/// Reads the bytes of a script, and runs its commands over the book with this root.
fn run_script<D: Desk, L: Ledger>(
    alloc: Global,
    root: &Name,
    bytes: &[u8],
    desk: &mut D,
    steps: &mut Steps<L>,
) -> u8
    ensures value { IsTrue (is_script_status result) ⊎ ((result ≡ 6) ⊎ (result ≡ 7)) }
    ensures only { IsTrue (is_book_status result) → length bytes.now ≤ most_script_bytes }
    ensures output { IsTrue D.tells → (left : List ℕ) (after : Option (List ℕ)) → IsInput (most_script_bytes + 1) left after bytes.now
        → IsRunOver (Some root.now) left (D.standing desk.old) (D.standing desk.new) (AtEachCrash D.time D.was desk.old desk.new) result }
    ensures same { IsTrue D.tells → result ≡ 4 → KeepsFiles (D.standing desk.old) (D.standing desk.new) }
    ensures no_fault { StaysFaultless D.faultless D.faults desk.old desk.new }
    ensures cause_desk { HasCause (D.faults desk.old) (D.faults desk.new) (result ≡ 6) }
    ensures count { steps.old ≤ steps.new }
    ensures exact { IsTrue D.tells → (left : List ℕ) (after : Option (List ℕ)) → IsInput (most_script_bytes + 1) left after bytes.now → TakesRunSteps (Some root.now) left (D.standing desk.old).files result steps.old steps.new }
{
    match read_script(alloc, bytes) {
        Ok(commands) => run_book(alloc, root, &commands, desk, steps),
        Err(fault) => tell_script_fault(alloc, fault, desk),
    }
}

/// Reads the script to its end, and runs it over the book with this root.
fn run_root<D: Desk, S: Source, L: Ledger>(
    alloc: Global,
    root: &Name,
    script: &mut S,
    desk: &mut D,
    steps: &mut Steps<L>,
) -> u8
    ensures value { IsTrue (is_script_status result) ⊎ ((result ≡ 5) ⊎ ((result ≡ 6) ⊎ (result ≡ 7))) }
    ensures output { IsTrue D.tells → (left : List ℕ) → S.left script.old ≡ Some left
        → EndsBy (Some root.now) left (Rose (S.faults script.old) (S.faults script.new)) (D.standing desk.old) (D.standing desk.new) (AtEachCrash D.time D.was desk.old desk.new) result }
    ensures fault { IsTrue D.tells → result ≡ 5 → IsSourceFault (Some root.now) (Rose (S.faults script.old) (S.faults script.new)) (D.standing desk.old) (D.standing desk.new) (AtEachCrash D.time D.was desk.old desk.new) result }
    ensures none { (left : List ℕ) → S.left script.old ≡ Some left → IsTrue (is_book_status result) → S.left script.new ≡ Some [] }
    ensures same { IsTrue D.tells → (result ≡ 4) ⊎ (result ≡ 5) → KeepsFiles (D.standing desk.old) (D.standing desk.new) }
    ensures no_fault { StaysFaultless D.faultless D.faults desk.old desk.new }
    ensures cause_desk { HasCause (D.faults desk.old) (D.faults desk.new) (result ≡ 6) }
    ensures cause { HasCause (S.faults script.old) (S.faults script.new) (result ≡ 5) }
    ensures count { steps.old ≤ steps.new }
    ensures exact { IsTrue D.tells → (left : List ℕ) → S.left script.old ≡ Some left → TakesRunSteps (Some root.now) left (D.standing desk.old).files result steps.old steps.new }
{
    match read_input(alloc, script) {
        Ok(bytes) => run_script(alloc, root, &bytes, desk, steps),
        Err(InputFault::Source) => tell(desk, SOURCE_LINE, 5),
        Err(InputFault::NoMemory) => NO_MEMORY,
    }
}

/// The run, where the words have a reading or not.
fn run_words<D: Desk, S: Source, L: Ledger>(
    alloc: Global,
    words: &[String],
    script: &mut S,
    desk: &mut D,
    steps: &mut Steps<L>,
) -> u8
    ensures value { IsTrue (is_answer result) }
    ensures output { IsTrue D.tells → (left : List ℕ) → S.left script.old ≡ Some left
        → EndsBy (root_of (map string_bytes words.now)) left (Rose (S.faults script.old) (S.faults script.new)) (D.standing desk.old) (D.standing desk.new) (AtEachCrash D.time D.was desk.old desk.new) result }
    ensures fault { IsTrue D.tells → result ≡ 5 → IsSourceFault (root_of (map string_bytes words.now)) (Rose (S.faults script.old) (S.faults script.new)) (D.standing desk.old) (D.standing desk.new) (AtEachCrash D.time D.was desk.old desk.new) result }
    ensures none { (left : List ℕ) → S.left script.old ≡ Some left → IsTrue (is_book_status result) → S.left script.new ≡ Some [] }
    ensures keeps { root_of (map string_bytes words.now) ≡ None → script.new ≡ script.old }
    ensures same { IsTrue D.tells → (result ≡ 2) ⊎ ((result ≡ 4) ⊎ (result ≡ 5)) → KeepsFiles (D.standing desk.old) (D.standing desk.new) }
    ensures no_fault { StaysFaultless D.faultless D.faults desk.old desk.new }
    ensures cause_desk { HasCause (D.faults desk.old) (D.faults desk.new) (result ≡ 6) }
    ensures cause { HasCause (S.faults script.old) (S.faults script.new) (result ≡ 5) }
    ensures count { steps.old ≤ steps.new }
    ensures exact { IsTrue D.tells → (left : List ℕ) → S.left script.old ≡ Some left → TakesRunSteps (root_of (map string_bytes words.now)) left (D.standing desk.old).files result steps.old steps.new }
{
    match named_root(alloc, words) {
        Ok(Some(root)) => run_root(alloc, &root, script, desk, steps),
        Ok(None) => tell(desk, USAGE, 2),
        Err(_) => NO_MEMORY,
    }
}

/// Carries out a script over the book whose root the words name: tells the reply to each command and then the tree, or the one
/// line that says why not. The order is: the words; the script to its end, and its lines; the recovery of the book; its root; the
/// commands, each reply before the next command; the tree.
///
/// The answer is the exit status: 0, or 1 where a command was refused; 2 for words without a reading, 3 for a root that does
/// not open, 4 for a script without a reading, 8 for a damaged journal; 5 where the source of the script
/// failed, 6 where the disk or the output did, 7 where memory was wanting. Where no count of faults rose it is the status of the
/// definition, or 7.
pub fn run<D: Desk, S: Source, L: Ledger>(
    alloc: Global,
    words: &[String],
    script: &mut S,
    desk: &mut D,
    steps: &mut Steps<L>,
) -> u8
    ensures value { IsTrue (is_answer result) }
    // With 0, 1, 2, 3, 4 or 8 exactly the output was told, and the answer is its status.
    ensures output { IsTrue D.tells → (left : List ℕ) → S.left script.old ≡ Some left → IsTrue (is_exit_status result)
        → WritesOutput (IsOutput (map string_bytes words.now) left (D.standing desk.old).files) result (D.standing desk.old).told (D.standing desk.new).told }
    // With 5 exactly the line of the source was told; what a crash leaves of such a run.
    ensures fault { IsTrue D.tells → result ≡ 5
        → IsSourceFault (root_of (map string_bytes words.now)) (Rose (S.faults script.old) (S.faults script.new)) (D.standing desk.old) (D.standing desk.new) (AtEachCrash D.time D.was desk.old desk.new) result }
    // With 6 or 7 a front of the output, or of the line of the source; what a crash leaves of either.
    ensures prefix { IsTrue D.tells → (left : List ℕ) → S.left script.old ≡ Some left → (result ≡ 6) ⊎ (result ≡ 7)
        → EndsEarly (root_of (map string_bytes words.now)) left (Rose (S.faults script.old) (S.faults script.new)) (D.standing desk.old) (D.standing desk.new) (AtEachCrash D.time D.was desk.old desk.new) result }
    // Where no count of faults rose it is the status of the definition, with the whole output, or 7.
    ensures only { IsTrue D.tells → (left : List ℕ) → S.left script.old ≡ Some left
        → (Rose (D.faults desk.old) (D.faults desk.new) → ⊥) → (Rose (S.faults script.old) (S.faults script.new) → ⊥)
        → (status : ℕ) (text : List ℕ) → IsOutput (map string_bytes words.now) left (D.standing desk.old).files status text
        → ((result ≡ status) × ((D.standing desk.new).told ≡ (D.standing desk.old).told ++ text)) ⊎ (result ≡ 7) }
    ensures crash { IsTrue D.tells → (left : List ℕ) → S.left script.old ≡ Some left → IsTrue (is_exit_status result)
        → AtEachCrash D.time D.was desk.old desk.new (MayCrashIn (root_of (map string_bytes words.now)) left (D.standing desk.old)) }
    // After 0, 1 and 3.
    ensures durable { IsTrue D.tells → (left : List ℕ) → S.left script.old ≡ Some left → IsTrue (recovers_book result)
        → IsBookSaved (root_of (map string_bytes words.now)) left (D.standing desk.old) (D.standing desk.new) result }
    ensures same { IsTrue D.tells → (result ≡ 2) ⊎ ((result ≡ 4) ⊎ (result ≡ 5)) → KeepsFiles (D.standing desk.old) (D.standing desk.new) }
    // Where no book is recovered: after 8 too.
    ensures others { IsTrue D.tells → (left : List ℕ) → S.left script.old ≡ Some left
        → (RecoveredBook (root_of (map string_bytes words.now)) left (D.standing desk.old).files → ⊥) → (D.standing desk.new).files ≡ (D.standing desk.old).files }
    ensures no_fault { StaysFaultless D.faultless D.faults desk.old desk.new }
    ensures cause_desk { HasCause (D.faults desk.old) (D.faults desk.new) (result ≡ 6) }
    ensures cause { HasCause (S.faults script.old) (S.faults script.new) (result ≡ 5) }
    // After 0, 1, 3 and 8 nothing of the script is left.
    ensures none { (left : List ℕ) → S.left script.old ≡ Some left → IsTrue (is_book_status result) → S.left script.new ≡ Some [] }
    ensures keeps { root_of (map string_bytes words.now) ≡ None → script.new ≡ script.old }
    // After 0, 1 and 3: each edit that this run accepted leads from a book that opens to a book that opens, gives the text at
    // its place the new value and leaves all other nodes, the bytes around that text's item and all other files (`ed_laws`).
    ensures law { IsTrue D.tells → (left : List ℕ) → S.left script.old ≡ Some left → IsTrue (recovers_book result)
        → IsLocalRun (root_of (map string_bytes words.now)) left (D.standing desk.old) (D.standing desk.new) result }
    // With 6 or 7, where anything was told and the source did not fail.
    ensures law_prefix { IsTrue D.tells → (left : List ℕ) → S.left script.old ≡ Some left → RecoveredBook (root_of (map string_bytes words.now)) left (D.standing desk.old).files
        → (result ≡ 6) ⊎ (result ≡ 7) → (Rose (S.faults script.old) (S.faults script.new) → ⊥)
        → ((D.standing desk.new).told ≡ (D.standing desk.old).told) ⊎ IsLocalRun (root_of (map string_bytes words.now)) left (D.standing desk.old) (D.standing desk.new) result }
    ensures count { steps.old ≤ steps.new }
    ensures exact { IsTrue D.tells → (left : List ℕ) → S.left script.old ≡ Some left
        → TakesRunSteps (root_of (map string_bytes words.now)) left (D.standing desk.old).files result steps.old steps.new }
{
    run_words(alloc, words, script, desk, steps)
}
