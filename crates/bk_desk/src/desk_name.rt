ghost use Rattle.std.specs.Prelude.{◌≡◌, IfOk};
ghost use Rattle.bk_desk.specs.DeskNames.{same_name};

use bk_name::Name;
use std::alloc::AllocError;

/// A file of the desk: one of the book, or one of the two control files.
#[derive(Debug, Drop)]
pub enum DeskName {
    /// A file of the book.
    Book(Name),
    /// `.burst-journal`: what a save writes and removes.
    Journal,
    /// `.burst-gate`: the commit marker.
    Gate,
}

impl DeskName {
    /// Whether two names are the same.
    pub fn is_same(&self, other: &DeskName) -> bool
        ensures value { result ≡ same_name self.now other.now }
    {
        match (self, other) {
            (DeskName::Book(a), DeskName::Book(b)) => a == b,
            (DeskName::Journal, DeskName::Journal) => true,
            (DeskName::Gate, DeskName::Gate) => true,
            _ => false,
        }
    }

    /// One more owner of the same name. The one error is a full count of owners.
    pub fn share(&self) -> Result<DeskName, AllocError>
        ensures value { IfOk result (λ name. name ≡ self.now) }
    {
        match self {
            DeskName::Book(name) => Ok(DeskName::Book(name.share()?)),
            DeskName::Journal => Ok(DeskName::Journal),
            DeskName::Gate => Ok(DeskName::Gate),
        }
    }
}
