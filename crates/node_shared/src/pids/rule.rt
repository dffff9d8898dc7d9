//! The rule of the atomic word that hands out process numbers, and its two atomic steps: a seat is split off, a number
//! is drawn. A seat is a token of this word. The word has the next number to be drawn.
use atomic_table::{Play, Split, TableRule};

/// What one seat knows: how many seats can be split off it, or which number it drew, if any. No value of this type
/// exists at run time.
pub enum View {
    /// The seat that was made with the atomic word. This number of seats can still be split off it.
    Opening(u64),
    /// A seat that has not drawn a number yet.
    Undrawn,
    /// A seat that drew this number.
    Drawn(u64),
}

/// The rule of the word, which holds after each atomic step. The numbers that seats drew are distinct, and they are all
/// numbers below the word. The word plus how many numbers can still be drawn is a fixed total of at most 4,096. The
/// parameter `u64` is this total.
pub struct Numbers;

impl TableRule<(), View, u64> for Numbers {
    ghost use Rattle.node_shared.specs.Numbers.{HoldsNumbers};
    ghost use Rattle.node_shared.specs.inside.Seats.{opening_view};

    ghost holds = { HoldsNumbers };

    ghost first = { opening_view };
}

/// A seat is split off the opening seat. The word stays, the new seat has no number, and one seat fewer can be split
/// off.
pub struct SplitsOff;

impl Split<View> for SplitsOff {
    ghost use Rattle.node_shared.specs.inside.Seats.{one_fewer, undrawn_view};

    ghost left = { one_fewer };

    ghost right = { λ _. undrawn_view };
}

/// A number is drawn: the word is incremented, and the seat gets its previous value.
pub struct Draws;

impl Play<(), View> for Draws {
    ghost use Rattle.node_shared.specs.inside.Seats.{DrawsNumber};

    ghost then = { DrawsNumber };
}
