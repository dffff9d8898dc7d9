//! One hint: the place of the first item of an interval of split keys, *empty* if the interval has no item, or *unknown*.
ghost use Rattle.std.specs.Prelude.{◌≡◌, ◌⊎◌, Some, None};

use std::marker::Model;

/// A hint about the first item of an interval, in a word of 32 bits. The greatest number is unknown, and the greatest
/// but one is empty. Any other number is the place of the item.
#[derive(Clone, Copy)]
pub struct Hint {
    word: u32,
}

// The value that contracts see of this type (`view`), and what is true of its fields between calls (`invariant`).
// `inverse` goes back from such a value to the fields. `inverse_ok` proves that `inverse` undoes `view`.
impl Model for Hint {
    ghost use Rattle.std.specs.Prelude.{Option, ℕ, ◌<◌, ◌^◌};

    ghost Value = { Option (Option ℕ) };

    ghost use Rattle.bucket_table.specs.inside.HintWord.{hint_of, word_of, hint_back};

    ghost view = { λ h. hint_of h.word };

    ghost invariant = { λ h. h.word < 2 ^ 32 };

    ghost inverse = { λ o. record { word = word_of o } };

    ghost inverse_ok = { λ a h. hint_back a h };
}

impl Hint {
    /// Returns the unknown hint.
    pub fn unknown() -> Hint
        ensures { result ≡ None }
    {
        Hint { word: u32::MAX }
    }

    /// Returns the hint of an empty interval.
    pub fn empty() -> Hint
        ensures { result ≡ Some None }
    {
        Hint { word: u32::MAX - 1 }
    }

    /// Returns the hint of a place. If the place does not fit in the word, returns the unknown hint.
    pub fn at(place: usize) -> Hint
        ensures { (result ≡ None) ⊎ (result ≡ Some (Some place)) }
    {
        // 4294967294 is `u32::MAX - 1`, the word of the empty hint.
        if place < 4294967294 {
            Hint { word: place as u32 }
        } else {
            Hint::unknown()
        }
    }

    /// Returns the hint as an option: `None` is unknown, and `Some(None)` is empty.
    pub fn get(self) -> Option<Option<usize>>
        ensures { result ≡ self }
    {
        if self.word == u32::MAX {
            None
        } else if self.word == u32::MAX - 1 {
            Some(None)
        } else {
            Some(Some(self.word as usize))
        }
    }
}
