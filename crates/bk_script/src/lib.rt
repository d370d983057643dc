//! Edit scripts: what a script asks for, line by line, or its first fault. The grammar is `specs/`.
//! Offsets are bytes; lines count from 1. A command that isn't built has no reading.
#![tactic(auto)]

mod command;
mod front;
mod laws;
mod line;
mod number;
mod place;
mod script;
mod stop;
mod string;

pub use command::Command;
pub use laws::{one_command, one_fault, one_script, one_value};
pub use script::{ScriptFault, read_script};
