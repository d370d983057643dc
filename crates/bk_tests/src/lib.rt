//! Cases for names and URIs, disks and inputs in memory, nodes, scripts and saves, over the public calls of their crates. They
//! stand in one crate, since a crate with tests is proved twice.
#![tactic(auto)]

#[cfg(test)]
mod disks;
#[cfg(test)]
mod journals;
#[cfg(test)]
mod nodes;
#[cfg(test)]
mod saves;
#[cfg(test)]
mod scripts;
#[cfg(test)]
mod uris_and_names;
