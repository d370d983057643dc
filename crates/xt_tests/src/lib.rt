//! Tables of cases for the crates that read, write and edit text, over their public calls: what each answers, by XML's own
//! rules and beside the contracts. They stand in one crate, since a crate with tests is proved twice.
#![tactic(auto)]

#[cfg(test)]
mod escapes;
#[cfg(test)]
mod readings;
#[cfg(test)]
mod steps;
#[cfg(test)]
mod text_edits;
#[cfg(test)]
mod tokens;
#[cfg(test)]
mod trees;
#[cfg(test)]
mod values;
