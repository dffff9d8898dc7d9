//! The forms of a packed term.
use crate::packed::Packed;
use ets_term::{Atom, Integer};

/// The greatest number of bytes that a packed term has in place.
pub(crate) const MAX_INLINE: usize = 14;

/// A term: a tag of one byte, and at most 15 bytes.
#[cycle(packed)]
#[derive(Drop)]
pub(crate) enum Form {
    /// An integer of 64 bits.
    Small(i64),
    /// A wider integer.
    Wide(Box<Integer>),
    /// An atom of at most `MAX_INLINE` characters: the first `len` of `bytes`.
    Name { len: u8, bytes: [u8; MAX_INLINE] },
    /// A longer atom.
    Atom(Box<Atom>),
    /// The process with this number.
    Pid(u32),
    /// The table identifier with this number.
    Tid(u32),
    /// A tuple of two elements.
    Pair(Box<[Packed; 2]>),
    /// A tuple of three elements.
    Triple(Box<[Packed; 3]>),
    /// Any other tuple.
    Tuple(Box<Vec<Packed>>),
    /// A proper list.
    List(Box<Vec<Packed>>),
    /// A binary of at most `MAX_INLINE` bytes: the first `len` of `bytes`.
    Short { len: u8, bytes: [u8; MAX_INLINE] },
    /// A longer binary.
    Binary(Box<Vec<u8>>),
}
