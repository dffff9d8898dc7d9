//! The laws of split keys. Each law is the contract of a function with an empty body.

ghost use Rattle.std.specs.Prelude.{◌≡◌, ℕ, ◌+◌, ◌*◌, ◌/◌, ◌%◌, ◌^◌, ◌<◌, ◌≤◌, ◌⊎◌, ◌↔◌};
ghost use Rattle.split_key.specs.Keys.{rev, key_of_item, key_of_dummy, IsPowerOfTwo, IsInBucket, IsWithoutTopBit};

/// Reversing the bits of a number twice gives the number again.
pub fn reversal_undoes_itself(number: u32)
    ensures { rev 32 (rev 32 number) ≡ number }
{}

/// The items of a bucket, one of `size`, are those whose split keys are in one interval. The interval begins at the
/// dummy's split key.
pub fn bucket_is_interval(hash: u32, bucket: u32, size: u32)
    requires size { IsPowerOfTwo size }
    requires bucket { bucket < size }
    ensures { (hash % size ≡ bucket) ↔ IsInBucket (key_of_item hash) bucket size }
{}

/// A doubling cuts the interval of a bucket in two: the bucket keeps the first half, and the second half begins
/// at the dummy of the new bucket, `bucket + size`. There are 2^33 split keys, so an interval has 2^33 / `size`.
pub fn doubling_cuts_in_two(bucket: u32, size: u32)
    requires size { IsPowerOfTwo size }
    requires bucket { bucket < size }
    ensures halves { 2 ^ 33 / size ≡ 2 * (2 ^ 33 / (2 * size)) }
    ensures middle { key_of_dummy (bucket + size) ≡ key_of_dummy bucket + 2 ^ 33 / (2 * size) }
{}

/// A doubling from `size` buckets leaves an item in its bucket, or assigns it to the new bucket `bucket + size`.
pub fn doubling_splits_bucket(hash: u32, bucket: u32, size: u32)
    requires { bucket < size }
    ensures { (hash % size ≡ bucket) ↔ ((hash % (2 * size) ≡ bucket) ⊎ (hash % (2 * size) ≡ bucket + size)) }
{}

/// The parent of a bucket has a smaller number, and the parent's dummy comes before the bucket's dummy.
pub fn parent_comes_before(bucket: u32, parent: u32)
    requires { IsWithoutTopBit bucket parent }
    ensures below { parent < bucket }
    ensures before { key_of_dummy parent < key_of_dummy bucket }
{}
