//! The doubling of buckets, and the readying of buckets, which inserts their dummy nodes. The answers of `grow` and
//! `ready`, and the buckets that are then ready, are compared with the expected ones.
use super::checks::{Check, plain_rows_pass, split_rows_pass};
use super::*;

/// Returns whether `ready` gives this answer, and the bucket is then ready. If the answer is that the bucket does not
/// exist, it must not be ready.
pub(super) fn ready_gives<R: Rows>(
    rows: &mut R,
    bucket: u32,
    answer: Readying,
) -> Result<bool, AllocError> {
    let readying = rows.ready(bucket)?;
    let bucket_exists = answer != Readying::NotABucket;
    Ok(readying == answer && rows.is_ready(bucket) == bucket_exists)
}

/// Calls `grow` a number of times, and returns whether it gives this answer each time.
pub(super) fn each_doubling_gives<R: Rows>(
    rows: &mut R,
    times: usize,
    answer: Growth,
) -> Result<bool, AllocError> {
    let mut all_right = true;
    for _ in 0..times {
        all_right = rows.grow()? == answer && all_right;
    }
    Ok(all_right)
}

/// Returns whether `ready` gives these answers for these buckets, in order.
fn each_ready_gives<R: Rows>(rows: &mut R, wanted: &[(u32, Readying)]) -> Result<bool, AllocError> {
    let mut all_right = true;
    for (bucket, answer) in wanted {
        all_right = ready_gives(rows, *bucket, *answer)? && all_right;
    }
    Ok(all_right)
}

/// The greatest number of buckets that split rows can have.
const MAX_BUCKETS: u32 = 1_048_576;

/// The number of doublings from 2 buckets to `MAX_BUCKETS`.
const DOUBLINGS: usize = 19;

/// Returns whether rows double from 2 buckets to `MAX_BUCKETS`, and two more calls of `grow` then change nothing.
pub(super) fn doubles_to_most_buckets<R: Rows>(rows: &mut R) -> Result<bool, AllocError> {
    let starts_with_two = rows.buckets() == 2;
    let grown = each_doubling_gives(rows, DOUBLINGS, Growth::Grown)?;
    let stopped = each_doubling_gives(rows, 2, Growth::AtMost)?;
    Ok(starts_with_two && grown && stopped && rows.buckets() == MAX_BUCKETS)
}

#[test]
fn two_buckets_double_nineteen_times(rt: HostRuntime) {
    assert!(rt; split_rows_pass(rt.alloc(), AllSame, Check::DoubleToMost) == Ok(true));
}

/// Buckets, each with the answer of `ready` when there are `MAX_BUCKETS` buckets.
const READY_ANSWERS: [(u32, Readying); 5] = [
    (MAX_BUCKETS, Readying::NotABucket),
    (0, Readying::AlreadyReady),
    (3, Readying::Ready),
    (3, Readying::AlreadyReady),
    (MAX_BUCKETS - 1, Readying::Ready),
];

/// Returns whether `ready` gives these answers, while bucket 1 stays the first unready bucket.
fn readies_past_first<R: Rows>(
    rows: &mut R,
    wanted: &[(u32, Readying)],
) -> Result<bool, AllocError> {
    let unready_before = rows.first_unready();
    let readied = each_ready_gives(rows, wanted)?;
    Ok(readied && unready_before == Some(1) && rows.first_unready() == Some(1))
}

/// Doubles rows to `MAX_BUCKETS`, and returns whether `ready` then gives `READY_ANSWERS`.
pub(super) fn readies_among_most_buckets<R: Rows>(rows: &mut R) -> Result<bool, AllocError> {
    let grown = each_doubling_gives(rows, DOUBLINGS, Growth::Grown)?;
    let readied = readies_past_first(rows, &READY_ANSWERS)?;
    Ok(grown && readied)
}

#[test]
fn ready_distinguishes_ready_and_missing_buckets(rt: HostRuntime) {
    assert!(rt; split_rows_pass(rt.alloc(), AllSame, Check::ReadyAmongMostBuckets) == Ok(true));
}

/// Buckets, each with the answer of `ready` in plain rows, which have one bucket.
const ONE_BUCKET: [(u32, Readying); 2] = [(0, Readying::AlreadyReady), (1, Readying::NotABucket)];

/// Returns whether rows have one bucket, which is ready, and do not grow.
pub(super) fn has_one_ready_bucket<R: Rows>(rows: &mut R) -> Result<bool, AllocError> {
    let readied = each_ready_gives(rows, &ONE_BUCKET)?;
    let grown = each_doubling_gives(rows, 1, Growth::AtMost)?;
    Ok(readied && grown && rows.buckets() == 1 && rows.first_unready() == None)
}

#[test]
fn plain_rows_have_one_bucket(rt: HostRuntime) {
    assert!(rt; plain_rows_pass(rt.alloc(), Check::HaveOneBucket) == Ok(true));
}

/// The number of doublings from 2 buckets to 131,072.
const DOUBLINGS_TO_MANY: usize = 16;

/// Some of 131,072 buckets, in the order in which they are made ready. All but 1 are at the start or the end of a
/// segment of the directory. A segment has 32,768 buckets.
const READIED: [u32; 6] = [65_536, 1, 131_071, 32_768, 65_535, 32_767];

/// Some buckets that stay unready: 2 is the first unready bucket, 32,769 follows a bucket of `READIED`, and 98,304
/// starts the last segment.
const UNREADIED: [u32; 3] = [2, 32_769, 98_304];

/// Returns whether none of these buckets is ready.
fn none_is_ready<R: Rows>(rows: &R, buckets: &[u32]) -> bool {
    for bucket in buckets {
        if rows.is_ready(*bucket) {
            return false;
        }
    }
    true
}

/// Returns whether the first `count` buckets of `READIED` are ready, and its other buckets are not.
fn first_are_ready<R: Rows>(rows: &R, count: usize) -> bool {
    for (index, bucket) in READIED.iter().enumerate() {
        if rows.is_ready(*bucket) != (index < count) {
            return false;
        }
    }
    true
}

/// Returns whether bucket 0 and the first `count` of `READIED` are ready, and no other bucket of `READIED` or
/// `UNREADIED` is.
fn only_first_are_ready<R: Rows>(rows: &R, count: usize) -> bool {
    rows.is_ready(0) && first_are_ready(rows, count) && none_is_ready(rows, &UNREADIED)
}

/// Makes the buckets of `READIED` ready in order. Returns whether `is_ready` is right after each.
fn readies_in_order<R: Rows>(rows: &mut R) -> Result<bool, AllocError> {
    let mut count = 0usize;
    let mut all_right = only_first_are_ready(rows, count);
    for bucket in &READIED {
        all_right = ready_gives(rows, *bucket, Readying::Ready)? && all_right;
        count = count.wrapping_add(1);
        all_right = only_first_are_ready(rows, count) && all_right;
    }
    Ok(all_right)
}

/// Returns whether rows have this number of buckets, those of `READIED` are ready, and 2 is the first unready bucket.
fn are_all_ready<R: Rows>(rows: &R, buckets: u32) -> bool {
    rows.buckets() == buckets
        && only_first_are_ready(rows, READIED.len())
        && rows.first_unready() == Some(2)
}

/// Makes the buckets of `READIED` ready among 131,072. Returns whether `is_ready` is right then, and after one more
/// doubling.
pub(super) fn keeps_ready_buckets<R: Rows>(rows: &mut R) -> Result<bool, AllocError> {
    let grown = each_doubling_gives(rows, DOUBLINGS_TO_MANY, Growth::Grown)?;
    let readied = readies_in_order(rows)?;
    let are_ready = are_all_ready(rows, 131_072);
    let grown_again = each_doubling_gives(rows, 1, Growth::Grown)?;
    Ok(grown && readied && are_ready && grown_again && are_all_ready(rows, 262_144))
}

#[test]
fn a_doubling_keeps_ready_buckets(rt: HostRuntime) {
    assert!(rt; split_rows_pass(rt.alloc(), Fnv, Check::KeepReadyBuckets) == Ok(true));
}
