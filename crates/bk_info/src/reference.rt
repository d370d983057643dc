//! References to entities and inclusions, through which nodes come.
use crate::origin::Origin;
use xt_table::Seq;

/// A reference to an entity, or an inclusion: what it came from, and the path of its item. It has no references of its own:
/// where it came through others, they stand before it in the list.
#[derive(Debug, Drop)]
pub struct Reference {
    pub origin: Origin,
    pub path: Seq<u32>,
}
