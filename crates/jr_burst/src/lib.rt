//! A save: several files of a book are written and removed as one, and a stop at any point leaves all or none.
//!
//! `plan` makes the journal of a save, `commit` carries it out over a `Desk`, and `recover` mends what a stop left:
//! journal, sync, gate, sync, files, sync, gate away, sync. The gate is open exactly where its file holds the four
//! bytes `OPEN`; the files that a disk stands for are its book files, overlaid by the journal where the gate is open.
//! The format of the journal is not said here (`jr_form`), nor which files a save has (the crates above).
//! Above, the clauses `durable` and `crash` of `commit` and `recover` are used. `commit` takes no memory of its own;
//! `plan` and `recover` take some.
#![tactic(auto)]

mod atomic_commit;
mod gate;
mod make;
mod planned;
mod recovery;
mod step;

pub use atomic_commit::commit;
pub use gate::is_closed;
pub use make::plan;
pub use planned::Plan;
pub use recovery::{RecoverFault, recover};
