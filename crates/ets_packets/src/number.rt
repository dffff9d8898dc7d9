//! Numbers of four bytes, the high byte first.
ghost use Rattle.std.specs.Prelude.{◌≡◌, ◌+◌, ◌/◌, ◌%◌, ◌≤◌, length, slice_range};
ghost use Rattle.ets_packets.specs.Packets.{big4, number_at};

/// Returns the number that the four bytes at the offset encode.
pub(crate) fn number_at(bytes: &[u8], at: usize) -> u32
    requires { at + 4 ≤ length bytes.now }
    ensures value { result ≡ number_at bytes.now at }
    ensures bytes { slice_range bytes.now at (at + 4) ≡ big4 result }
{
    let high = bytes[at] as u32 * 0x100_0000 + bytes[at + 1] as u32 * 0x1_0000;
    high + bytes[at + 2] as u32 * 0x100 + bytes[at + 3] as u32
}

/// Returns the four bytes of a number.
pub(crate) fn bytes_of(n: u32) -> [u8; 4]
    ensures { result ≡ big4 n }
{
    [
        byte_of(n, 0x100_0000),
        byte_of(n, 0x1_0000),
        byte_of(n, 0x100),
        byte_of(n, 1),
    ]
}

/// Returns the byte of a number whose place value is `unit`, a power of 256.
fn byte_of(n: u32, unit: u32) -> u8
    requires { 1 ≤ unit }
    ensures { result ≡ n / unit % 256 }
{
    (n / unit % 256) as u8
}
