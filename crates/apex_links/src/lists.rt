//! The numbers of lists.
ghost use Rattle.std.specs.Prelude.{◌≡◌, ◌<◌, ◌^◌};

use std::marker::Model;

/// A list of a set, by its number counted from 0.
#[derive(Clone, Copy)]
pub struct ListId {
    number: u16,
}

impl Model for ListId {
    ghost use Rattle.std.specs.Prelude.{ℕ};

    ghost Value = { ℕ };

    ghost view = { λ l. l.number };

    ghost inverse = { λ n. record { number = n } };
}

impl ListId {
    /// The list of this number, counted from 0.
    pub fn at(number: u16) -> ListId
        ensures { result ≡ number }
    {
        ListId { number }
    }

    /// The list's number, counted from 0.
    pub fn place(self) -> usize
        ensures value { result ≡ self }
        ensures range { result < 2 ^ 16 }
    {
        usize::from(self.number)
    }
}
