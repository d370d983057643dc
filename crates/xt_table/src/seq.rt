ghost use Rattle.std.specs.Prelude.{◌≡◌, length};
ghost use Rattle.std.specs.Option.{option_copied};

use std::alloc::Global;
use std::marker::Model;

/// A `Vec` that contracts see as the list of its items.
#[derive(Debug, Drop)]
pub struct Seq<T> {
    items: Vec<T>,
}

impl<T> Model for Seq<T> {
    ghost use Rattle.std.specs.Prelude.{List};

    ghost Value = { List T };

    ghost view = { λ s. s.items.items };
}

impl<T> Seq<T> {
    /// The items of the `Vec`; no memory is taken.
    pub fn from_vec(items: Vec<T>) -> Seq<T>
        ensures value { result ≡ items.items }
    {
        Seq { items }
    }

    /// The `Vec` of the items; no memory is taken.
    pub fn into_vec(self) -> Vec<T>
        ensures value { result.items ≡ self }
    {
        let Seq { items } = self;
        items
    }

    /// The items in their order.
    pub fn as_slice(&self) -> &[T]
        ensures value { result.now ≡ self.now }
    {
        self.items.as_slice()
    }

    /// How many items there are.
    pub fn len(&self) -> usize
        ensures value { result ≡ length self.now }
    {
        self.items.len()
    }
}
