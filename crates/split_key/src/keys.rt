//! Split keys, which sort the list that all buckets share: a number with its 32 bits reversed, and one last bit. An
//! item (a key with its objects) has its hash, then 1. A dummy (the first node of a bucket) has its bucket, then 0.
ghost use Rattle.std.specs.Prelude.{◌≡◌};
ghost use Rattle.split_key.specs.Keys.{rev, key_of_item, key_of_dummy};

/// Returns the 32 bits of `number` in reverse order.
pub fn rev32(number: u32) -> u32
    ensures { result ≡ rev 32 number }
{
    number.reverse_bits()
}

/// Returns the split key of an item with this hash: the reversed bits of the hash, then the bit 1. It is an odd number
/// below 2^33.
pub fn item_key(hash: u32) -> u64
    ensures { result ≡ key_of_item hash }
{
    2 * u64::from(rev32(hash)) + 1
}

/// Returns the split key of a bucket's dummy: the reversed bits of the bucket, then the bit 0. It is an even number
/// below 2^33.
pub fn dummy_key(bucket: u32) -> u64
    ensures { result ≡ key_of_dummy bucket }
{
    2 * u64::from(rev32(bucket))
}
