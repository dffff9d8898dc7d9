//! The results of the two steps of growth: to double the number of buckets, and to make one bucket ready. A bucket is
//! ready if its dummy, the first node of the bucket, is in the list.

/// The greatest number of buckets of `SplitRows`, 2^20.
pub const MAX_BUCKETS: usize = 1_048_576;

/// The result of `Rows::grow`: the number of buckets was doubled, or it is already the greatest.
#[derive(Clone, Copy, PartialEq, Eq)]
pub enum Growth {
    /// The number of buckets is doubled.
    Grown,
    /// The number of buckets is already the greatest that these rows allow. Nothing has changed.
    AtMost,
}

/// The result of `Rows::ready`.
#[derive(Clone, Copy, PartialEq, Eq)]
pub enum Readying {
    /// The bucket is ready now, and was not before.
    Ready,
    /// The bucket was ready before. Nothing has changed.
    AlreadyReady,
    /// No bucket has this number. Nothing has changed.
    NotABucket,
}
