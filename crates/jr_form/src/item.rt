use bk_name::Name;
use xt_table::Seq;

/// What a save does with one file: it writes it, or removes it where there are no bytes.
#[derive(Debug, Drop)]
pub struct Item {
    pub name: Name,
    pub bytes: Option<Seq<u8>>,
}
