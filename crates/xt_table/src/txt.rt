ghost use Rattle.std.specs.Prelude.{◌≡◌, length, IfOk, string_bytes, IsUtf8};

use std::alloc::{AllocError, Global};
use std::marker::Model;

/// A `String` that contracts see as the list of its bytes.
#[derive(Debug, Drop)]
pub struct Txt {
    text: String,
}

impl Model for Txt {
    ghost use Rattle.std.specs.Prelude.{List, ℕ, string_bytes};

    ghost Value = { List ℕ };

    ghost view = { λ t. string_bytes t.text };
}

impl Txt {
    /// The text of the `String`; no memory is taken.
    pub fn from_string(text: String) -> Txt
        ensures value { result ≡ string_bytes text }
    {
        Txt { text }
    }

    /// A copy of the text. The one error is want of memory.
    pub fn from_str(alloc: Global, text: &str) -> Result<Txt, AllocError>
        ensures value { IfOk result (λ copy. copy ≡ text.now) }
    {
        let text = String::from_str(alloc, text)?;
        Ok(Txt { text })
    }

    /// The `String` of the text; no memory is taken.
    pub fn into_string(self) -> String
        ensures value { string_bytes result ≡ self }
    {
        let Txt { text } = self;
        text
    }

    /// The text.
    pub fn as_str(&self) -> &str
        ensures value { result.now ≡ self.now }
    {
        self.text.as_str()
    }

    /// How many bytes the text has.
    pub fn len(&self) -> usize
        ensures value { result ≡ length self.now }
    {
        self.text.as_str().len()
    }
}
