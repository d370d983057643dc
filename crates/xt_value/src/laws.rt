//! Laws of values and content, each a clause of a function that does nothing.
ghost use Rattle.std.specs.Prelude.{◌≡◌, ◌↔◌, List, ℕ, [], Bool, true};
ghost use Rattle.xt_spec.specs.Tree.{Items};
ghost use Rattle.xt_spec.specs.Text.{HasValueIn, HasTextValue, is_void};
ghost use Rattle.xt_spec.specs.Value.{HasAttributeValue};
ghost use Rattle.xt_spec.specs.Content.{Content, HasContent};

/// A text item has at most one value, in a file and in a replacement text.
pub fn one_text_value()
    ensures law { (inner : Bool) (text a b : List ℕ) → HasValueIn inner text a → HasValueIn inner text b → a ≡ b }
{}

/// An attribute has at most one value.
pub fn one_attribute_value()
    ensures law { (quoted a b : List ℕ) → HasAttributeValue quoted a → HasAttributeValue quoted b → a ≡ b }
{}

/// Items give at most one content.
pub fn one_content()
    ensures law { (items : Items) (a b : Content) → HasContent items a → HasContent items b → a ≡ b }
{}

/// A text item has an empty value exactly where it is of empty CDATA sections alone.
pub fn void_is_empty()
    ensures law { (text value : List ℕ) → HasTextValue text value → (is_void text ≡ true) ↔ (value ≡ []) }
{}
