//! Laws of readings and of first faults, each a clause of a function that does nothing.

ghost use Rattle.std.specs.Prelude.{◌≡◌, ◌⊎◌, ◌↔◌, List, ℕ};
ghost use Rattle.xt_spec.specs.Tree.{Items, source_text};
ghost use Rattle.xt_spec.specs.Reading.{Role, document, IsReading};
ghost use Rattle.xt_spec.specs.Content.{Content, HasContent};
ghost use Rattle.xt_spec.specs.FirstFault.{ReadingFault, IsFirstFault};
ghost use Rattle.xt_read.specs.Run.{Body, IsBody, IsRead};

/// In each role a text has at most one reading.
pub fn one_reading()
    ensures law { (role : Role) (bytes : List ℕ) (a b : Items) → IsReading role bytes a → IsReading role bytes b → a ≡ b }
{}

/// The top of a document, and content, is what the longest tokens from left to right give, and nothing else is.
pub fn longest_tokens()
    ensures law { (body : Body) (text : List ℕ) (items : Items) → (IsBody body items × (source_text items ≡ text) ↔ IsRead body text items) }
{}

/// A file that has a reading in a role has no fault in it.
pub fn no_fault()
    ensures law { (role : Role) (bytes : List ℕ) (items : Items) (fault : ReadingFault) → IsReading role bytes items → ¬ IsFirstFault role bytes fault }
{}

/// In each role a file has at most one first fault.
pub fn one_fault()
    ensures law { (role : Role) (bytes : List ℕ) (a b : ReadingFault) → IsFirstFault role bytes a → IsFirstFault role bytes b → a ≡ b }
{}

/// In each role a file has a reading or a first fault.
pub fn a_reading_or_a_fault()
    ensures law { (role : Role) (bytes : List ℕ) → ((items : Items) × IsReading role bytes items) ⊎ ((fault : ReadingFault) × IsFirstFault role bytes fault) }
{}

/// A document that is read gives content by itself, or gives none.
pub fn content_or_none()
    ensures law { (bytes : List ℕ) (items : Items) → IsReading document bytes items → ((content : Content) × HasContent items content) ⊎ ¬ ((content : Content) × HasContent items content) }
{}
