//! Items that are lent.
ghost use Rattle.std.specs.Prelude.{◌≡◌};

use std::marker::Model;

/// Items one after another, lent. Contracts see them as a list.
#[derive(Drop)]
pub struct Items<'a, T> {
    items: &'a [T],
}

impl<'a, T> Model for Items<'a, T> {
    ghost use Rattle.std.specs.Prelude.{List};

    ghost Value = { List T };

    ghost view = { λ a. a.items.now };
}

impl<'a, T> Items<'a, T> {
    /// These items.
    pub fn new(items: &'a [T]) -> Items<'a, T>
        ensures { result ≡ items.entry.now }
    {
        Items { items }
    }

    /// The items.
    pub fn all(&self) -> &'a [T]
        ensures { result.now ≡ self.now }
    {
        self.items
    }
}
