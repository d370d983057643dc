ghost use Rattle.std.specs.Prelude.{◌≡◌};

use bk_info::BookFault;
use std::alloc::AllocError;

/// Why there are no nodes.
#[derive(Debug, Drop)]
pub enum OpenFault {
    /// The document has a fault.
    Book(BookFault),
    /// Memory was wanting.
    NoMemory,
}

impl From<AllocError> for OpenFault {
    ghost use Rattle.ent_doc.specs.declared.fault.OpenFault.TheVariants.{NoMemory};

    ghost from_gives = { λ _ fault. fault ≡ NoMemory };

    fn from(_e: AllocError) -> Self {
        OpenFault::NoMemory
    }
}
