//! The header of a node in memory, in 8 bytes: the split key without its last bit, and one word with the link and a tag.
//! The tag says whether the place is free, which means that it has no node.
ghost use Rattle.std.specs.Prelude.{◌≡◌, ◌<◌, ◌≤◌, ◌+◌, ◌*◌, ◌%◌, true, false};
ghost use Rattle.node_list.specs.inside.PackedHeader.{next_in, is_free, place_number, Fits};

use crate::header::NodeHeader;
use crate::link::Link;

/// The place number that encodes 'no place': the greatest number of 31 bits. A place in a header has 31 bits, since the
/// tag takes the other bit of the word.
const NO_PLACE: usize = 2147483647;

/// A header as it is stored: the split key without its last bit, and a word that is twice the place of the next node,
/// plus 1 for a free place.
#[derive(Clone, Copy)]
pub struct PackedHeader {
    /// The split key of a node without its last bit; 0 for a free place.
    reversed: u32,
    /// Twice the place of the next node, or of the next free place, plus the tag.
    word: u32,
}

impl PackedHeader {
    /// Packs the header of a node. `reversed` is its split key without the last bit.
    #[inline(always)]
    pub fn new(reversed: u32, next: Link) -> PackedHeader
        requires { Fits next }
        ensures key { result.reversed ≡ reversed }
        ensures next { next_in result ≡ next }
        ensures live { is_free result ≡ false }
    {
        PackedHeader {
            reversed,
            word: 2 * place_word(next),
        }
    }

    /// Packs the header of a free place: its link leads to the next free place.
    #[inline(always)]
    pub fn free(next: Link) -> PackedHeader
        requires { Fits next }
        ensures next { next_in result ≡ next }
        ensures free { is_free result ≡ true }
    {
        PackedHeader {
            reversed: 0,
            word: 2 * place_word(next) + 1,
        }
    }

    /// Returns the split key and the link, unpacked. `last_bit` is the last bit of the split key: 1 for an item, 0 for a
    /// dummy.
    #[inline(always)]
    pub fn header(self, last_bit: u64) -> NodeHeader
        requires { last_bit < 2 }
        ensures key { result.split_key ≡ 2 * self.reversed + last_bit }
        ensures next { result.next ≡ next_in self }
        ensures fits { Fits result.next }
    {
        NodeHeader {
            split_key: 2 * u64::from(self.reversed) + last_bit,
            next: self.next(),
        }
    }

    /// Returns the link: to the next node, or of a free place, to the next free place.
    #[inline(always)]
    pub fn next(self) -> Link
        ensures next { result ≡ next_in self }
        ensures fits { Fits result }
    {
        let place = (self.word / 2) as usize;
        if place == NO_PLACE {
            Link::none()
        } else {
            Link::to(place)
        }
    }

    /// Checks whether the place is free.
    #[inline(always)]
    pub fn is_free(self) -> bool
        ensures { result ≡ is_free self }
    {
        self.word % 2 == 1
    }

    /// Returns the same header of a node with another link.
    #[inline(always)]
    pub fn with_next(self, next: Link) -> PackedHeader
        requires { Fits next }
        ensures key { result.reversed ≡ self.reversed }
        ensures next { next_in result ≡ next }
        ensures live { is_free result ≡ false }
    {
        PackedHeader::new(self.reversed, next)
    }
}

/// Returns the place of a link as a number of 31 bits: `NO_PLACE` for the link to no place.
#[inline(always)]
fn place_word(next: Link) -> u32
    requires { Fits next }
    ensures { result ≡ place_number next }
{
    match next.get() {
        Some(place) => place as u32,
        None => NO_PLACE as u32,
    }
}
