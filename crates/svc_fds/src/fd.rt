ghost use Rattle.std.specs.Prelude.{◌≡◌};

use std::marker::Model;

/// An open descriptor. It has to be spent: it can't be dropped. Contracts see it as its number.
#[derive(Debug)]
pub struct Fd {
    number: u64,
}

impl Model for Fd {
    ghost use Rattle.std.specs.Prelude.{ℕ};

    ghost Value = { ℕ };

    ghost view = { λ fd. fd.number };
}

impl Fd {
    /// The descriptor of this number, which the caller answers for.
    pub fn new(number: u64) -> Self
        ensures { result ≡ number }
    {
        Fd { number }
    }

    /// Its number.
    pub fn number(&self) -> u64
        ensures { result ≡ self.now }
    {
        self.number
    }

    /// Spends it, and answers the number that is to be closed.
    pub fn close(self) -> u64
        ensures { result ≡ self }
    {
        let Fd { number } = self;
        number
    }
}
