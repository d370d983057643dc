//! Laws of tokens, each a clause of a function that does nothing.

ghost use Rattle.std.specs.Prelude.{◌≡◌, ◌⊎◌, List, ℕ, ◌++◌, codes, IsUtf8};
ghost use Rattle.xt_spec.specs.Token.{TokenKind, IsLongestFront, NoFront};
ghost use Rattle.xt_spec.specs.Doctype.{IsSubset};

/// The subset of a DOCTYPE declaration has at most one end.
pub fn one_subset()
    ensures law { (text : List ℕ) (a b r s : List ℕ) → IsSubset a → IsSubset b → text ≡ a ++ codes "]" ++ r → text ≡ b ++ codes "]" ++ s → a ≡ b }
{}

/// At the front of a text a token stands, one that is the longest and the only kind, or none does.
pub fn a_token_or_none()
    ensures law { (text : List ℕ) → IsUtf8 text → ((kind : TokenKind) × (n : ℕ) × IsLongestFront text kind n) ⊎ NoFront text }
{}
