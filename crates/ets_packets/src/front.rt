//! The packet, or the part of one, that the buffered bytes begin with.
ghost use Rattle.std.specs.Prelude.{◌≡◌};
ghost use Rattle.ets_packets.specs.inside.Buffer.{IsFront};

use crate::number::number_at;

/// What the buffered bytes begin with.
#[derive(Clone, Copy)]
pub(crate) enum Front {
    /// A part of a packet, or nothing.
    Incomplete,
    /// The length of a body that is too long.
    TooLong(usize),
    /// A whole packet, whose body has this length.
    Packet(usize),
}

/// Returns what the bytes begin with: a packet, a part of one, or the length of a body that has over `most` bytes.
pub(crate) fn first_packet(bytes: &[u8], most: u32) -> Front
    ensures { IsFront most bytes.now result }
{
    // The first four bytes are the length of the body.
    if bytes.len() < 4 {
        return Front::Incomplete;
    }
    let number = number_at(bytes, 0);
    let len = number as usize;
    if number > most {
        return Front::TooLong(len);
    }
    if bytes.len() - 4 < len {
        return Front::Incomplete;
    }
    Front::Packet(len)
}
