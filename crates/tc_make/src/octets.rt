//! Octets on the heap.

use std::marker::Model;

/// A `Vec` of octets. Contracts see only the octets, so that a line is plain data in a clause.
#[derive(Debug, Drop)]
pub struct Octets {
    items: Vec<u8>,
}

impl Model for Octets {
    ghost use Rattle.std.specs.Prelude.{ℕ, List};

    ghost Value = { List ℕ };

    ghost view = { λ o. o.items.items };
}

impl Octets {
    ghost use Rattle.std.specs.Prelude.{◌≡◌};

    /// Returns the octets in order.
    pub fn as_slice(&self) -> &[u8]
        ensures { result.now ≡ self.now }
    {
        self.items.as_slice()
    }
}

impl From<Vec<u8>> for Octets {
    ghost use Rattle.std.specs.Prelude.{◌≡◌};

    ghost from_gives = { λ v o. o ≡ v.items };

    fn from(items: Vec<u8>) -> Octets {
        Octets { items }
    }
}
