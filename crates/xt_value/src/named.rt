ghost use Rattle.std.specs.Prelude.{◌≡◌, string_bytes};

use std::marker::Model;

/// An attribute of a tag: its name as written, and its value.
#[derive(Drop)]
pub struct NamedText<'a> {
    name: &'a str,
    value: String,
}

impl<'a> Model for NamedText<'a> {
    ghost use Rattle.std.specs.Prelude.{string_bytes};
    ghost use Rattle.xt_spec.specs.Namespace.{NamedValue};

    ghost Value = { NamedValue };

    ghost view = { λ a. record { name = a.name.now; value = string_bytes a.value } };
}

impl<'a> NamedText<'a> {
    /// The attribute of this name and value; no memory is taken.
    pub fn new(name: &'a str, value: String) -> NamedText<'a>
        ensures value { result ≡ record { name = name.now; value = string_bytes value } }
    {
        NamedText { name, value }
    }

    /// The name as written, a QName.
    pub fn name(&self) -> &'a str
        ensures value { result.now ≡ self.now.name }
    {
        self.name
    }

    /// The value.
    pub fn value(&self) -> &str
        ensures value { result.now ≡ self.now.value }
    {
        self.value.as_str()
    }

    /// The `String` of the value; no memory is taken.
    pub fn into_value(self) -> String
        ensures value { string_bytes result ≡ self.entry.value }
    {
        let NamedText { name: _, value } = self;
        value
    }
}
