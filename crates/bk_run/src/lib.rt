//! The commands of a script over a session, and what is told of them: a script's bytes are read from a source, each command
//! is carried out, and its reply is told before the next one is begun.
//!
//! What a command does to a book is `ed_spec`'s `Does`; how files are saved is `jr_burst`'s. Which lines are commands is
//! not asked here (`bk_script`), nor how a book opens (`ed_session`).
#![tactic(auto)]

mod doing;
mod input;
mod laws;
mod replies;
mod stop;
mod telling;

pub use input::{InputFault, read_input};
pub use laws::{commands_ask, start_stands, steps_exist, told_is_saved};
pub use replies::{line, numbered};
pub use stop::Stop;
pub use telling::tell_replies;
