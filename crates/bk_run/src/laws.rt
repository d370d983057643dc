//! Laws of runs, each a clause of a function that does nothing.
ghost use Rattle.std.specs.Prelude.{◌≡◌, ◌++◌, ℕ, List, Some, map};
ghost use Rattle.bk_desk.specs.Disk.{DiskState, CrashState};
ghost use Rattle.jr_burst.specs.SavedFiles.{book_files, recovered_files};
ghost use Rattle.jr_burst.specs.Commit.{IsClosed};
ghost use Rattle.ed_session.specs.Kept.{Kept};
ghost use Rattle.ed_session.specs.Start.{IsStarted};
ghost use Rattle.bk_script.specs.declared.command.Command.{Command};
ghost use Rattle.bk_script.specs.View.{command_of};
ghost use Rattle.bk_run.specs.Doing.{asked_of, Stands};
ghost use Rattle.xt_spec.specs.Tree.{Items};
ghost use Rattle.ed_spec.specs.Book.{Book, Opens};
ghost use Rattle.ed_spec.specs.Session as model;
ghost use Rattle.bk_run.specs.Replies.{AreCommandsOf, replies_text};
ghost use Rattle.bk_run.specs.Stops.{saved_after, IsOfOneBurst};
ghost use Rattle.bk_run.specs.Runs.{HasOpenBooks};

/// A session that was started stands over its disk, where the gate is closed, with nothing done, and its root opens.
pub fn start_stands()
    ensures law { (root : List ℕ) (old now : DiskState) (k : Kept) → IsStarted root old now k → Stands k now (model.opened root (book_files now.files)) }
    ensures value { (root : List ℕ) (old now : DiskState) (k : Kept) → IsStarted root old now k → (items : Items) × Opens root (book_files now.files) k.bytes items }
    ensures keeps { (root : List ℕ) (old now : DiskState) (k : Kept) → IsStarted root old now k → IsClosed now }
{}

/// Each command that is built asks something of the session, and one thing.
pub fn commands_ask()
    ensures law { (commands : List Command) → AreCommandsOf (map command_of commands) (map asked_of commands) }
    ensures value { (commands : List Command) (asked : List model.Command) → AreCommandsOf (map command_of commands) asked → asked ≡ map asked_of commands }
{}

/// Where the root opens, commands have replies, and the books of the session afterwards open too: `value` says so of a
/// session in which nothing was done.
pub fn steps_exist()
    ensures law { (root : List ℕ) (s : model.Session) (commands : List model.Command) → HasOpenBooks root s
        → (steps : List model.Step) × (last : model.Session) × model.DoesAll root s commands steps last × HasOpenBooks root last }
    ensures value { (root bytes : List ℕ) (book : Book) (items : Items) (commands : List model.Command) → Opens root book bytes items
        → (steps : List model.Step) × (last : model.Session) × model.DoesAll root (model.opened root book) commands steps last × HasOpenBooks root last }
{}

/// Where all replies were told, the files recovered are those last saved.
pub fn told_is_saved()
    ensures law { (start : DiskState) (first : Book) (steps : List model.Step) (more : List ℕ) (crash : CrashState) → IsOfOneBurst start first steps more crash
        → crash.told ≡ start.told ++ replies_text steps → recovered_files crash.image ≡ Some (saved_after first steps) }
{}
