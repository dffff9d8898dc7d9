//! A shuffled order of numbers.
ghost use Rattle.std.specs.Prelude.{◌≤◌, ◌<◌, ◌^◌};

/// Returns how many indices an order needs that has each number below `count`: the least power of two that is not less
/// than `count`. A caller skips the numbers that are not below `count`.
pub fn order_len(count: u64) -> u64
    requires { count ≤ 2 ^ 63 }
    ensures all { count ≤ result }
    ensures some { 0 < result }
{
    count.next_power_of_two()
}

/// Returns the number at index `i` of the order of this seed. Each seed has its own multipliers, so that items are not
/// searched for in the order of their insertion. If `mask` is one less than a power of two, each number up to `mask`
/// occurs once among the indices up to it. Each line maps these numbers one to one. Its parts do: the multiplications
/// by odd numbers, and each exclusive or of a number with its shift. The multipliers are arbitrary odd numbers; an odd
/// number stays odd after an exclusive or with an even one.
pub fn shuffled_number(i: u64, seed: u64, mask: u64) -> u64 {
    let odd = seed.wrapping_mul(0xD6E8_FEB8_6659_FD92) | 1;
    let a = i.wrapping_mul(odd) & mask;
    let b = (a ^ (a >> 9)).wrapping_mul(0x85EB_CA6B ^ seed.wrapping_mul(0x2C1B_3C6C)) & mask;
    let c = (b ^ (b >> 7)).wrapping_mul(odd ^ 0x9E37_79B8) & mask;
    let d = (c ^ (c >> 11)).wrapping_mul(0xC2B2_AE35 ^ seed.wrapping_mul(0x1656_67B0)) & mask;
    d ^ (d >> 8)
}
