//! Searches in split rows at random moments of growth. Each finds exactly the inserted keys, and in a ready bucket of n
//! keys visits at most n + 2 nodes.
// The integers below `slots` are inserted as keys. A slot is one key with its objects, so `slots` counts keys, not
// buckets.
use super::*;

/// The number of moments of growth at which keys are searched for, for each of four hashers.
const MOMENTS: usize = 1_000;

/// The number of searches at each moment. In all there are more than a million.
const SEARCHES: usize = 334;

/// Returns the bucket of a key: its hash modulo the number of buckets, which is a power of two.
fn bucket_of<H: KeyHash + Copy + Drop>(hasher: H, number: u32, buckets: u32) -> u32 {
    let key = Term::Int(Integer::from(number));
    let bucket = hasher.hash32(&key).checked_rem(buckets).unwrap_or(0);
    drop(key);
    bucket
}

/// Adds one to the count of a bucket.
fn count_in(counts: &mut [u64], bucket: u32) {
    if let Some(count) = counts.get_mut(bucket as usize) {
        *count = count.wrapping_add(1);
    }
}

/// Returns a vector of `count` zeros.
fn zeros(alloc: Global, count: usize) -> Result<Vec<u64>, AllocError> {
    let mut zeros: Vec<u64> = Vec::new(alloc);
    match zeros.resize(count, 0) {
        Ok(()) => Ok(zeros),
        Err(_) => {
            drop(zeros);
            Err(AllocError)
        }
    }
}

/// Adds to the count of each bucket the number of its slots, if the keys are the integers below `slots`.
fn count_slots<H: KeyHash + Copy + Drop>(counts: &mut [u64], hasher: H, buckets: u32, slots: u32) {
    for number in 0..slots {
        count_in(counts, bucket_of(hasher, number, buckets));
    }
}

/// The most nodes other than those of its keys that a search in a ready bucket visits: the dummy at the bucket's start,
/// and the node after the bucket.
const MAX_EXTRA_VISITS: u64 = 2;

/// Returns the most nodes that a search in a ready bucket may visit, from the number of keys in each bucket.
fn max_visits(counts: &[u64], bucket: u32) -> u64 {
    // `counts` has each bucket, so the default of 0 is not used.
    counts
        .get(bucket as usize)
        .copied()
        .unwrap_or(0)
        .wrapping_add(MAX_EXTRA_VISITS)
}

/// Searches for a key. Returns whether it is found exactly if it is below `slots`. A search that finds its key must
/// visit a node, and a search in a ready bucket of n keys at most n + `MAX_EXTRA_VISITS` nodes.
fn search_is_right<H: KeyHash + Copy + Drop>(
    rows: &SplitRows<H>,
    hasher: H,
    counts: &[u64],
    slots: u32,
    key_number: u32,
) -> bool {
    let mut visited = Steps::new();
    let found = is_found(rows, key_number, &mut visited);
    let bucket = bucket_of(hasher, key_number, rows.buckets());
    let visits_few_nodes = visited.count() <= max_visits(counts, bucket) || !rows.is_ready(bucket);
    found == (key_number < slots) && visits_few_nodes && (visited.count() >= 1 || !found)
}

/// Searches for random keys, about half of them missing, and returns whether each search is right.
fn searches_are_right<H: KeyHash + Copy + Drop>(
    rows: &SplitRows<H>,
    hasher: H,
    counts: &[u64],
    slots: u32,
    draws: &mut Draws,
) -> bool {
    let mut all_right = true;
    for _ in 0..SEARCHES {
        // `max`, because `random_below` requires a bound above 0.
        let number = draws.random_below(slots.wrapping_mul(2).max(1));
        all_right = search_is_right(rows, hasher, counts, slots, number) && all_right;
    }
    all_right
}

/// `insert_some_and_grow` inserts fewer keys than this number.
const PAST_NEW_KEYS: u32 = 20;

/// Inserts the next few keys, up to `max_slots` in all, doubles the buckets sometimes, and makes some buckets ready.
/// `slots` is how many keys there are before. Returns how many keys there are then.
fn insert_some_and_grow<R: Rows>(
    rows: &mut R,
    alloc: Global,
    slots: u32,
    max_slots: u32,
    draws: &mut Draws,
) -> Result<u32, AllocError> {
    let new_total = slots
        .saturating_add(draws.random_below(PAST_NEW_KEYS))
        .min(max_slots);
    insert_range(rows, alloc, slots, new_total)?;
    grow_and_ready_some(rows, draws)?;
    Ok(new_total)
}

/// Counts the keys of each bucket, and returns whether searches at this moment of growth are right.
fn searches_are_right_now<H: KeyHash + Copy + Drop>(
    rows: &SplitRows<H>,
    alloc: Global,
    hasher: H,
    slots: u32,
    draws: &mut Draws,
) -> Result<bool, AllocError> {
    let buckets = rows.buckets();
    let mut counts = zeros(alloc, buckets as usize)?;
    count_slots(counts.as_mut_slice(), hasher, buckets, slots);
    let right = searches_are_right(rows, hasher, counts.as_slice(), slots, draws);
    drop(counts);
    Ok(right)
}

/// Inserts up to `max_slots` keys, and returns whether the searches at each moment of growth are right.
fn searches_are_right_as_rows_grow<H: KeyHash + Copy + Drop>(
    rows: &mut SplitRows<H>,
    alloc: Global,
    hasher: H,
    max_slots: u32,
) -> Result<bool, AllocError> {
    let mut draws = Draws::new();
    let mut slots = 0;
    let mut all_right = true;
    for _ in 0..MOMENTS {
        slots = insert_some_and_grow(rows, alloc, slots, max_slots, &mut draws)?;
        all_right = searches_are_right_now(rows, alloc, hasher, slots, &mut draws)? && all_right;
    }
    Ok(all_right)
}

/// Returns whether searches in new split rows with this hasher are right as the rows grow to `max_slots` slots.
fn searches_are_right_as_new_rows_grow<H: KeyHash + Copy + Drop>(
    alloc: Global,
    hasher: H,
    max_slots: u32,
) -> Result<bool, AllocError> {
    let mut rows = SplitRows::new(alloc, hasher)?;
    let right = searches_are_right_as_rows_grow(&mut rows, alloc, hasher, max_slots);
    drop(rows);
    right
}

/// Searches rows with the usual hasher.
#[test]
fn searches_by_fnv_are_right(rt: HostRuntime) {
    assert!(rt; searches_are_right_as_new_rows_grow(rt.alloc(), Fnv, 10_000) == Ok(true));
}

/// Searches rows in which each odd bucket is empty.
#[test]
fn searches_by_even_hashes_are_right(rt: HostRuntime) {
    assert!(rt; searches_are_right_as_new_rows_grow(rt.alloc(), Even, 10_000) == Ok(true));
}

/// Searches rows in which all keys share the bucket 0. The keys are few because a search may visit all of them.
#[test]
fn searches_by_one_hash_are_right(rt: HostRuntime) {
    assert!(rt; searches_are_right_as_new_rows_grow(rt.alloc(), AllSame, 50) == Ok(true));
}

/// Searches rows in which all keys share the last bucket. The keys are few because a search may visit all of them.
#[test]
fn searches_by_the_greatest_hash_alone_are_right(rt: HostRuntime) {
    assert!(rt; searches_are_right_as_new_rows_grow(rt.alloc(), Greatest, 8) == Ok(true));
}
