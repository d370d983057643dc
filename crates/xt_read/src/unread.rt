ghost use Rattle.std.specs.Prelude.{◌≡◌};
ghost use Rattle.xt_read.specs.Faults.{fault_at};

use std::alloc::{AllocError, AllocFailed, Global};

/// Why a file isn't read: its first fault. Places are bytes of the file, from 0.
///
/// The bytes are UTF-8, then a declaration names no other encoding, then tokens are taken from left to right. A file that is
/// read as a text has neither declaration nor tokens: it holds characters, and `Encoding` and `TooDeep` don't come.
#[derive(Clone, Copy, Debug, PartialEq, Eq)]
pub enum Unread {
    /// The bytes aren't UTF-8: so many of them are.
    NotUtf8 { at: usize },
    /// A declaration in front names another encoding, as `<?xml version="1.0" encoding="latin-1"?><a/>`.
    Encoding,
    /// At this place no token stands, or one that may not, as the first `]]>` of `<a>]]></a>`; or the file ends too early.
    /// In a text: the first character that no document may hold.
    NotWellFormed { at: usize },
    /// A tag would begin an element at level 129.
    TooDeep,
    NoMemory,
}

impl From<AllocError> for Unread {
    ghost use Rattle.std.specs.Prelude.{◌≡◌};
    ghost use Rattle.xt_read.specs.declared.unread.Unread.TheVariants.{NoMemory};

    ghost from_gives = { λ _ e. e ≡ NoMemory };

    fn from(_: AllocError) -> Self {
        Unread::NoMemory
    }
}

/// Why a reader doesn't go on with a token.
#[derive(Clone, Copy, Debug, PartialEq, Eq)]
pub(crate) enum Halt {
    /// The token may not stand here.
    Misplaced,
    /// A tag would begin an element at level 129.
    TooDeep,
    NoMemory,
}

impl Halt {
    /// The fault of a file that isn't read on from this place.
    pub(crate) fn at(self, at: usize) -> Unread
        ensures { result ≡ fault_at self at }
    {
        match self {
            Halt::Misplaced => Unread::NotWellFormed { at },
            Halt::TooDeep => Unread::TooDeep,
            Halt::NoMemory => Unread::NoMemory,
        }
    }
}

impl From<AllocError> for Halt {
    ghost use Rattle.std.specs.Prelude.{◌≡◌};
    ghost use Rattle.xt_read.specs.declared.unread.Halt.TheVariants.{NoMemory};

    ghost from_gives = { λ _ e. e ≡ NoMemory };

    fn from(_: AllocError) -> Self {
        Halt::NoMemory
    }
}

impl<T: Drop> From<AllocFailed<T>> for Halt {
    ghost use Rattle.std.specs.Prelude.{◌≡◌};
    ghost use Rattle.xt_read.specs.declared.unread.Halt.TheVariants.{NoMemory};

    ghost from_gives = { λ _ e. e ≡ NoMemory };

    fn from(_: AllocFailed<T>) -> Self {
        Halt::NoMemory
    }
}
