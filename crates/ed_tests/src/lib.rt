//! Cases for documents that open, sessions over a disk in memory, and what a run of commands tells, over the public calls of
//! their crates. They stand in one crate, since a crate with tests is proved twice.
#![tactic(auto)]

#[cfg(test)]
mod documents;
#[cfg(test)]
mod replies;
#[cfg(test)]
mod sessions;
