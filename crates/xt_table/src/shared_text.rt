ghost use Rattle.std.specs.Prelude.{◌≡◌, length, IfOk, string_bytes};

use std::alloc::{AllocError, Global};
use std::marker::Model;
use std::rc::RcStr;

/// A text with several owners, which contracts see as the list of its bytes: a million nodes have few names.
///
/// It serves texts with several owners; one with a single owner costs less as a `Txt`.
#[derive(Debug, Drop)]
pub struct SharedText {
    text: RcStr,
}

impl Model for SharedText {
    ghost use Rattle.std.specs.Prelude.{List, ℕ};
    ghost use Rattle.std.specs.Rc.{rc_str_bytes};

    ghost Value = { List ℕ };

    ghost view = { λ t. rc_str_bytes t.text };
}

impl SharedText {
    /// The text of the `String`, whose bytes are not copied. The one error is want of memory.
    pub fn from_string(text: String) -> Result<SharedText, AllocError>
        ensures value { IfOk result (λ shared. shared ≡ string_bytes text) }
    {
        Ok(SharedText {
            text: RcStr::from_string(text)?,
        })
    }

    /// A copy of the text. The one error is want of memory.
    pub fn from_str(alloc: Global, text: &str) -> Result<SharedText, AllocError>
        ensures value { IfOk result (λ shared. shared ≡ text.now) }
    {
        Ok(SharedText {
            text: RcStr::from_str(alloc, text)?,
        })
    }

    /// One more owner of the same text. The one error is a full count of owners.
    pub fn share(&self) -> Result<SharedText, AllocError>
        ensures value { IfOk result (λ shared. shared ≡ self.now) }
    {
        Ok(SharedText {
            text: self.text.clone()?,
        })
    }

    /// The text.
    pub fn as_str(&self) -> &str
        ensures value { result.now ≡ self.now }
    {
        self.text.as_str()
    }

    /// How many bytes the text has.
    pub fn len(&self) -> usize
        ensures value { result ≡ length self.now }
    {
        self.text.len()
    }
}
