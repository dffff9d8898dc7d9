//! Integers, and positions in tuples.
ghost use Rattle.std.specs.Prelude.{◌≡◌};
ghost use Rattle.ets_term.specs.Encoding.{integer_bytes as bytes_of};

/// An integer of a term: 128 bits, from -2^127 to 2^127-1.
pub type Integer = i128;

/// A position in a tuple, counted from 1. It may be past the end of every tuple.
pub type Position = u128;

/// The number of bytes in an integer.
pub(crate) const INTEGER_BYTES: usize = 16;

/// Returns the 16 bytes of an integer in two's complement, the high byte first.
pub(crate) fn integer_bytes(n: Integer) -> [u8; INTEGER_BYTES]
    ensures { result ≡ bytes_of n }
{
    n.to_be_bytes()
}
