//! The outside: files and output (`Desk`), and the script's bytes (`Source`).
//!
//! A trait's model says what its calls give, what was told, and what a crash at any point may leave. The rules are
//! this project's own: whole files are written, removed and synced; a file written or removed since the last sync
//! may be absent or hold any bytes after a crash, and every other file is as it was.
//! `MemDesk` and `MemSource` keep all in memory, and fail where they are told to; `StdSource` reads a reader of std.
//! The files of a real folder are not read here (`book_cli`). Sizes count bytes.
//! Calls of `MemDesk` take memory where their answer has `NoMemory`; `file`, `told`, `calls` and `MemSource` take none.
#![tactic(auto)]

mod desk;
mod desk_name;
mod log;
mod mem_desk;
mod mem_source;
mod source;
mod std_source;
mod stop;

pub use desk::{Desk, DeskErr, Got};
pub use desk_name::DeskName;
pub use mem_desk::MemDesk;
pub use mem_source::MemSource;
pub use source::{Failed, Source};
pub use std_source::StdSource;
pub use stop::Left;
