//! A link: the place of the next node, or none, in 32 bits.
ghost use Rattle.std.specs.Prelude.{◌≡◌, ◌<◌, ◌-◌, ◌^◌, Some, None};

use std::marker::Model;

/// The place of the next node, or none, in 32 bits. A contract sees an option.
#[derive(Clone, Copy)]
pub struct Link {
    /// The place, or the greatest `u32` for 'no place'.
    place: u32,
}

// The value that contracts see of this type (`view`), and what is true of its fields between calls (`invariant`).
// `inverse` makes the fields from such a value, and `inverse_ok` proves this.
impl Model for Link {
    ghost use Rattle.std.specs.Prelude.{Option, ℕ, ◌<◌, ◌^◌};
    ghost use Rattle.node_list.specs.inside.Words.{link_in, word_of};
    ghost use Rattle.node_list.specs.laws.Words.{link_back};

    ghost Value = { Option ℕ };

    ghost view = { λ l. link_in l.place };

    ghost invariant = { λ l. l.place < 2 ^ 32 };

    ghost inverse = { λ o. record { place = word_of o } };

    ghost inverse_ok = { λ a h. link_back a h };
}

impl Link {
    /// Returns a link to no place.
    pub fn none() -> Link
        ensures { result ≡ None }
    {
        Link { place: u32::MAX }
    }

    /// Returns a link to `place`. The greatest `u32` encodes 'no place', so a place is less.
    pub fn to(place: usize) -> Link
        requires { place < 2 ^ 32 - 1 }
        ensures { result ≡ Some place }
    {
        Link {
            place: place as u32,
        }
    }

    /// Returns the place of the next node, or `None` if the link leads to no place.
    pub fn get(self) -> Option<usize>
        ensures { result ≡ self }
    {
        if self.place == u32::MAX {
            None
        } else {
            Some(self.place as usize)
        }
    }
}
