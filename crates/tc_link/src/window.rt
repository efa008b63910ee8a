//! The sliding window of FARM-1.

ghost use Rattle.std.specs.Prelude.{◌≡◌, ℕ, IfSome, IsSome, ◌↔◌};
ghost use Rattle.tc_link.specs.Window.{IsWidth, place_of};

use std::marker::Model;

/// The position of an N(S) in the window, relative to V(R).
#[derive(Clone, Copy, Debug, PartialEq, Eq)]
pub enum Place {
    Expected,
    Ahead,
    Behind,
    Outside,
}

/// A sliding window of width W, which is even and from 2 to 254.
///
/// The positive and the negative part of the window are each W / 2 wide. In contracts, the value of a window is its
/// width.
#[derive(Clone, Copy, Debug)]
pub struct Window {
    width: u8,
}

impl Model for Window {
    ghost Value = { ℕ };

    ghost view = { λ w. w.width };

    ghost inverse = { λ n. record { width = n } };

    ghost invariant = { λ w. IsWidth w.width };
}

impl Window {
    /// Creates a window. Returns `None` unless the width is even and from 2 to 254.
    pub fn new(width: u8) -> Option<Window>
        ensures variant { IsSome result ↔ IsWidth width }
        ensures width { IfSome result (λ window. window ≡ width) }
    {
        if width >= 2 && width <= 254 && width % 2 == 0 {
            Some(Window { width })
        } else {
            None
        }
    }

    /// Returns the position of N(S) in the window, relative to V(R).
    pub fn place(&self, vr: u8, ns: u8) -> Place
        ensures place { result ≡ place_of self.now vr ns }
        ensures width { IsWidth self.now }
    {
        let half = self.width / 2;
        let distance = ns.wrapping_sub(vr);
        if distance == 0 {
            Place::Expected
        } else if distance < half {
            Place::Ahead
        } else if distance.wrapping_neg() <= half {
            Place::Behind
        } else {
            Place::Outside
        }
    }
}
