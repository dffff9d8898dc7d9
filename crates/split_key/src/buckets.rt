//! The bucket of a hash (its low bits), and the parent of a bucket: the bucket that a doubling split to create it.
ghost use Rattle.std.specs.Prelude.{◌≡◌, ◌%◌, ◌<◌};
ghost use Rattle.split_key.specs.Keys.{IsPowerOfTwo, IsWithoutTopBit};

/// Returns the bucket of a hash, if there are `size` buckets. `size` is a power of two, so the mask `size - 1` keeps
/// the low bits of the hash.
pub fn bucket_of(hash: u32, size: u32) -> u32
    requires { IsPowerOfTwo size }
    ensures { result ≡ hash % size }
{
    hash & (size - 1)
}

/// Returns the parent of a bucket: the bucket that the doubling which created `bucket` split in two. Its number is
/// `bucket` without the highest set bit. Bucket 0 has no parent, so `bucket` must not be 0.
pub fn parent(bucket: u32) -> u32
    requires { 0 < bucket }
    ensures below { result < bucket }
    ensures top { IsWithoutTopBit bucket result }
{
    // The index of the highest set bit.
    let top = 31 - bucket.leading_zeros();
    bucket - (1 << top)
}
