//! Reads fields: unsigned numbers, with the high byte first, and pieces of a known length.
ghost use Rattle.std.specs.Prelude.{◌≡◌, ◌+◌, ◌*◌, ◌≤◌, ◌<◌, ◌^◌, length, IfOk};
ghost use Rattle.external_term.specs.Faults.{ReturnsOrMemory};
ghost use Rattle.external_term.specs.Fields.{big16, big32, width_bytes, number_at as read_number, piece_at as read_piece};

use crate::fault::ExternalFault;

/// The width of an unsigned number: its number of bytes.
#[derive(Clone, Copy)]
pub(crate) enum Width {
    One,
    Two,
    Four,
}

impl Width {
    /// Returns the number of bytes.
    #[inline(always)]
    pub(crate) fn size(self) -> usize
        ensures { result ≡ width_bytes self }
    {
        match self {
            Width::One => 1,
            Width::Two => 2,
            Width::Four => 4,
        }
    }
}

/// Returns the two bytes at the offset as a number. The high byte comes first.
#[inline(always)]
fn number16(bytes: &[u8], at: usize) -> usize
    requires { at + 2 ≤ length bytes.now }
    ensures value { result ≡ big16 bytes.now at }
    ensures small { result < 2 ^ 16 }
{
    bytes[at] as usize * 256 + bytes[at + 1] as usize
}

/// Returns the four bytes at the offset as a number. The high byte comes first.
#[inline(always)]
pub(crate) fn number32(bytes: &[u8], at: usize) -> usize
    requires { at + 4 ≤ length bytes.now }
    ensures value { result ≡ big32 bytes.now at }
    ensures small { result < 2 ^ 32 }
{
    number16(bytes, at) * 65536 + number16(bytes, at + 2)
}

/// Reads an unsigned number of this width, and returns it with the offset after it. Returns `Truncated` if fewer bytes
/// are left.
#[inline(always)]
pub(crate) fn number_at(
    bytes: &[u8],
    at: usize,
    width: Width,
) -> Result<(usize, usize), ExternalFault>
    requires { at ≤ length bytes.now }
    ensures within { IfOk result (λ x. x.1 ≤ length bytes.now) }
    ensures small { IfOk result (λ x. x.0 < 256 ^ width_bytes width) }
    ensures reads { ReturnsOrMemory (read_number width bytes.now at) result }
{
    if bytes.len() - at < width.size() {
        return Err(ExternalFault::Truncated(at));
    }
    match width {
        Width::One => Ok((bytes[at] as usize, at + 1)),
        Width::Two => Ok((number16(bytes, at), at + 2)),
        Width::Four => Ok((number32(bytes, at), at + 4)),
    }
}

/// Checks that there are `n` bytes at the offset. Returns the offset where they begin and the offset after them, or
/// `Truncated` if fewer bytes are left.
pub(crate) fn piece_at(bytes: &[u8], at: usize, n: usize) -> Result<(usize, usize), ExternalFault>
    requires { at ≤ length bytes.now }
    ensures within { IfOk result (λ x. (x.0 + n ≡ x.1) × (x.1 ≤ length bytes.now)) }
    ensures reads { ReturnsOrMemory (read_piece n bytes.now at) result }
{
    if bytes.len() - at < n {
        return Err(ExternalFault::Truncated(at));
    }
    Ok((at, at + n))
}
