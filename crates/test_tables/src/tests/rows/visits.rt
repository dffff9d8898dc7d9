//! The number of list nodes that searches visit, in split rows whose keys in each bucket are known. In a ready bucket
//! of n keys it must be at most n + 2, and in one test the least possible.
use super::growth::{each_doubling_gives, ready_gives};
use super::*;

/// Returns how many nodes a search for a key visits.
fn count_visited<H: KeyHash + Copy + Drop>(rows: &SplitRows<H>, key: Term) -> u64 {
    let mut visited = Steps::new();
    let _found = rows.get_counted(&key, &mut visited);
    drop(key);
    visited.count()
}

/// Puts a slot without objects whose key is the process of a number.
fn put_slot_of_process<R: Rows>(
    rows: &mut R,
    alloc: Global,
    number: u32,
) -> Result<(), AllocError> {
    let key = Term::Pid(number);
    match rows.entry(&key) {
        SlotEntry::Vacant(hash) => {
            rows.put_at(hash, &key, Chain::new(alloc))?;
            drop(key);
            Ok(())
        }
        SlotEntry::Occupied(_) => {
            drop(key);
            Ok(())
        }
    }
}

/// The number of buckets after two doublings, and of keys. A key is a process, and its hash is the number of the
/// process, so each bucket has one key.
const BUCKETS: u32 = 8;

/// The searches are for the processes below this number, one for each of the 4 intervals of each bucket. Those from
/// `BUCKETS` on are missing.
const SEARCHED_PROCESSES: u32 = 32;

/// The most nodes that a search in a ready bucket of one key visits: the dummy at the bucket's start, the key, and the
/// node after the bucket.
const MAX_VISITS: u64 = 3;

/// Makes each bucket ready, and puts its key.
fn ready_and_put_each<R: Rows>(rows: &mut R, alloc: Global) -> Result<(), AllocError> {
    for number in 0..BUCKETS {
        rows.ready(number)?;
        put_slot_of_process(rows, alloc, number)?;
    }
    Ok(())
}

/// Returns whether each search visits at most `MAX_VISITS` nodes.
fn each_search_is_short(rows: &SplitRows<PidNumber>) -> bool {
    let mut all_short = true;
    for number in 0..SEARCHED_PROCESSES {
        all_short = count_visited(rows, Term::Pid(number)) <= MAX_VISITS && all_short;
    }
    all_short
}

/// Puts one key into each of eight ready buckets. Returns whether each search is then short.
fn searches_are_short(rows: &mut SplitRows<PidNumber>, alloc: Global) -> Result<bool, AllocError> {
    let grown = each_doubling_gives(rows, 2, Growth::Grown)?;
    ready_and_put_each(rows, alloc)?;
    Ok(grown && each_search_is_short(rows))
}

/// Returns whether searches are short in new split rows that get eight ready buckets.
fn searches_in_new_rows_are_short(alloc: Global) -> Result<bool, AllocError> {
    let mut rows = SplitRows::new(alloc, PidNumber)?;
    let short = searches_are_short(&mut rows, alloc);
    drop(rows);
    short
}

#[test]
fn searches_in_ready_buckets_visit_few_nodes(rt: HostRuntime) {
    assert!(rt; searches_in_new_rows_are_short(rt.alloc()) == Ok(true));
}

/// Puts the key of each bucket.
fn put_each<R: Rows>(rows: &mut R, alloc: Global) -> Result<(), AllocError> {
    for number in 0..BUCKETS {
        put_slot_of_process(rows, alloc, number)?;
    }
    Ok(())
}

/// The number of buckets after one doubling. Each has four intervals, and no two of the keys below 16 have one interval.
const BUCKETS_DOUBLED_ONCE: u32 = 4;

/// Makes each bucket but the first ready. Returns whether each becomes ready.
fn each_becomes_ready<R: Rows>(rows: &mut R) -> Result<bool, AllocError> {
    let mut all_ready = true;
    for bucket in 1..BUCKETS_DOUBLED_ONCE {
        all_ready = ready_gives(rows, bucket, Readying::Ready)? && all_ready;
    }
    Ok(all_ready)
}

/// Returns whether each search visits the fewest nodes: one for a key that is the first of its interval, and none for a
/// missing key, whose interval is empty.
fn each_search_visits_fewest_nodes(rows: &SplitRows<PidNumber>) -> bool {
    let mut all_exact = true;
    for number in 0..4 * BUCKETS_DOUBLED_ONCE {
        let fewest = u64::from(number < BUCKETS);
        all_exact = count_visited(rows, Term::Pid(number)) == fewest && all_exact;
    }
    all_exact
}

/// Puts eight keys, doubles two buckets to four, and makes them ready. Returns whether each search then visits the
/// fewest nodes, as it does if the readying of a bucket splits the hints of its intervals and of its parent's.
fn hints_are_set(rows: &mut SplitRows<PidNumber>, alloc: Global) -> Result<bool, AllocError> {
    put_each(rows, alloc)?;
    let grown = each_doubling_gives(rows, 1, Growth::Grown)?;
    let readied = each_becomes_ready(rows)?;
    Ok(grown && readied && each_search_visits_fewest_nodes(rows))
}

/// Returns whether the readying of buckets splits the hints of new split rows.
fn hints_of_new_rows_are_set(alloc: Global) -> Result<bool, AllocError> {
    let mut rows = SplitRows::new(alloc, PidNumber)?;
    let are_set = hints_are_set(&mut rows, alloc);
    drop(rows);
    are_set
}

#[test]
fn readying_splits_hints(rt: HostRuntime) {
    assert!(rt; hints_of_new_rows_are_set(rt.alloc()) == Ok(true));
}

/// The number of keys that all have the same hash.
const SAME_HASH_KEYS: u32 = 1_000;

/// The most nodes that a search among these keys visits: the dummy, the keys, and the node after the bucket.
const MAX_SAME_HASH_VISITS: u64 = 1_002;

/// Returns whether each search for one of these keys visits at most `MAX_SAME_HASH_VISITS` nodes.
fn each_search_is_bounded(rows: &SplitRows<AllSame>) -> bool {
    let mut all_bounded = true;
    for number in 0..SAME_HASH_KEYS {
        let visited = count_visited(rows, Term::Int(Integer::from(number)));
        all_bounded = visited <= MAX_SAME_HASH_VISITS && all_bounded;
    }
    all_bounded
}

/// Inserts keys of one hash. Returns whether a search for a missing key visits all of them, and no search visits more
/// than `MAX_SAME_HASH_VISITS` nodes.
fn same_hash_searches_are_bounded(
    rows: &mut SplitRows<AllSame>,
    alloc: Global,
) -> Result<bool, AllocError> {
    insert_range(rows, alloc, 0, SAME_HASH_KEYS)?;
    let visited_by_miss = count_visited(rows, Term::Int(Integer::from(SAME_HASH_KEYS)));
    let missed_all = SAME_HASH_KEYS as u64 <= visited_by_miss;
    Ok(missed_all && visited_by_miss <= MAX_SAME_HASH_VISITS && each_search_is_bounded(rows))
}

/// Returns whether searches are bounded in new split rows with one hash for all keys.
fn same_hash_searches_in_new_rows_are_bounded(alloc: Global) -> Result<bool, AllocError> {
    let mut rows = SplitRows::new(alloc, AllSame)?;
    let bounded = same_hash_searches_are_bounded(&mut rows, alloc);
    drop(rows);
    bounded
}

#[test]
fn searches_among_keys_of_one_hash_are_bounded(rt: HostRuntime) {
    assert!(rt; same_hash_searches_in_new_rows_are_bounded(rt.alloc()) == Ok(true));
}
