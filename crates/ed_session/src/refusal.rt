//! Why an edit is not made.
use std::alloc::AllocError;
use thiserror::Error;

/// The first test that an edit does not pass, in this order.
#[derive(Clone, Copy, Debug, PartialEq, Eq, Drop, Error)]
pub enum Refusal {
    /// The place names no node.
    #[error("NoSuchPlace")]
    NoSuchPlace,
    /// The node is no text.
    #[error("WrongKind")]
    WrongKind,
    /// The range does not lie in the text.
    #[error("BadRange")]
    BadRange,
    /// The new text has a character that no document may hold.
    #[error("BadText")]
    BadText,
    /// The file would have more than 4,194,304 bytes.
    #[error("TooLarge")]
    TooLarge,
}

/// Why an edit is not made. The session is then as before.
#[derive(Clone, Copy, Debug, PartialEq, Eq, Drop, Error)]
pub enum EditFault {
    #[error("refused")]
    Refused(Refusal),
    /// Memory was wanting.
    #[error("out of memory")]
    NoMemory,
}

impl From<AllocError> for EditFault {
    ghost use Rattle.std.specs.Prelude.{◌≡◌};
    ghost use Rattle.ed_session.specs.declared.refusal.EditFault.TheVariants.{NoMemory};

    ghost from_gives = { λ _ fault. fault ≡ NoMemory };

    fn from(_e: AllocError) -> Self {
        EditFault::NoMemory
    }
}

impl From<Refusal> for EditFault {
    ghost use Rattle.std.specs.Prelude.{◌≡◌};
    ghost use Rattle.ed_session.specs.declared.refusal.EditFault.TheVariants.{Refused};

    ghost from_gives = { λ refusal fault. fault ≡ Refused refusal };

    fn from(refusal: Refusal) -> Self {
        EditFault::Refused(refusal)
    }
}
