//! Traversals of a fixed table, while other processes insert and delete, and the buckets double. A traversal is exact
//! if it visits no key twice, each stable key once, and only keys with objects.
// A key is stable if it has objects at the start and after each step.
use self::expectation::Expectation;
use self::steps::run_other_steps;
use super::*;

// What a traversal must visit.
mod expectation;
// Steps of other processes.
mod steps;

/// The process that fixes the table first, and releases it last.
const FIRST_PID: u32 = 7;

/// Another process that fixes the table, and releases it first.
const SECOND_PID: u32 = 8;

/// The keys of most traversals: the numbers below 4,000.
const KEYS: Keys = Keys(4000);

/// The start of the pseudo-random sequence. Any number is allowed.
const FIRST_SEED: u64 = 20251122;

/// Returns the first key of a traversal if `last` is None, else the key after `last`. The result None is the end.
/// `Badarg` also means a key that is not a number of 32 bits, which no test inserts.
fn first_or_next<R: Rows>(table: &Walked<R>, last: Option<u32>) -> Result<Option<u32>, Badarg> {
    let found = match last {
        None => table.first(),
        Some(key) => key_after(table, Integer::from(key))?,
    };
    let Some(key) = found else {
        return Ok(None);
    };
    let number = key.as_integer().ok_or(Badarg)?;
    match u32::try_from(number) {
        Ok(key) => Ok(Some(key)),
        Err(_) => Err(Badarg),
    }
}

/// Traverses a table, with steps of other processes after each key. Returns the number of visited keys, or None if a
/// call fails, or a visited key has no objects or was visited before.
fn traverse<R: Rows>(
    alloc: Global,
    table: &mut Walked<R>,
    expectation: &mut Expectation,
) -> Option<u32> {
    let mut seed = FIRST_SEED;
    let mut last = None;
    for count in 0..=expectation.keys {
        let found = first_or_next(table, last).ok()?;
        let Some(key) = found else {
            return Some(count);
        };
        if !expectation.mark_visited(key) {
            return None;
        }
        seed = run_other_steps(alloc, table, expectation, seed)?;
        last = found;
    }
    // This cannot happen: a traversal of more than all keys visits one of them twice.
    None
}

/// Returns whether each key has as many objects as it should: one for each bit of its values.
fn has_expected_objects<R: Rows>(table: &Walked<R>, expectation: &Expectation) -> bool {
    for key in 0..expectation.keys {
        if count_of(table, Integer::from(key)) != expectation.values_of(key).count_ones() as usize {
            return false;
        }
    }
    true
}

/// Releases both fixes. Returns whether the tombstones stay until the last release, and are then removed. `present` is
/// the number of keys with objects.
fn removes_tombstones<R: Rows>(table: &mut Walked<R>, present: usize) -> bool {
    let has_tombstones = table.slots() > present;
    table.release(SECOND_PID);
    let keeps_tombstones = table.is_fixed() && table.slots() > present;
    table.release(FIRST_PID);
    has_tombstones && keeps_tombstones && !table.is_fixed() && table.slots() == present
}

/// Inserts the keys below `keys`, each with the value 1. Returns whether all calls succeeded.
fn insert_keys<R: Rows>(alloc: Global, table: &mut Walked<R>, keys: u32) -> bool {
    for key in 0..keys {
        if !insert(alloc, table, Integer::from(key), 1) {
            return false;
        }
    }
    true
}

/// Returns whether a traversal of `count` keys visited each stable key. At least a twentieth of the keys must be
/// stable, and `count` at least half of all, so that the check is not about few keys only.
fn visits_stable_keys(expectation: &Expectation, count: u32) -> bool {
    expectation.has_visited_stable()
        && expectation.count_stable() >= expectation.keys as usize / 20
        && count >= expectation.keys / 2
}

/// Fixes a table for two processes. Returns whether a traversal is exact, all keys then have their objects, and the
/// last release removes the tombstones.
fn traverses_fixed_exactly<R: Rows>(
    alloc: Global,
    table: &mut Walked<R>,
    expectation: &mut Expectation,
) -> Option<bool> {
    let fixed = table.fix(FIRST_PID).is_ok() && table.fix(SECOND_PID).is_ok();
    let count = traverse(alloc, table, expectation)?;
    Some(
        fixed
            && visits_stable_keys(expectation, count)
            && has_expected_objects(table, expectation)
            && removes_tombstones(table, expectation.count_present()),
    )
}

/// Inserts half of the keys into a new table. Returns whether a traversal of the table is exact.
pub(super) fn traverses_exactly<R: Rows>(
    alloc: Global,
    table: &mut Walked<R>,
    keys: u32,
) -> Option<bool> {
    let filled = insert_keys(alloc, table, keys / 2);
    let mut expectation = Expectation::new(alloc, keys)?;
    let is_exact = traverses_fixed_exactly(alloc, table, &mut expectation);
    drop(expectation);
    Some(filled && is_exact?)
}

/// A traversal that passes even if the buckets never double, as those of plain rows.
const WALK: Check = Check::Traversal(KEYS, BucketsAbove(0));

/// A traversal during which the buckets double to more than 1,000.
const GROWING_WALK: Check = Check::Traversal(KEYS, BucketsAbove(1000));

/// A traversal of fewer keys, during which the buckets double to more than 50.
const SHORT_GROWING_WALK: Check = Check::Traversal(Keys(800), BucketsAbove(50));

#[test]
fn traversals_of_plain_rows_are_exact(rt: HostRuntime) {
    assert!(rt; plain_rows_pass(rt.alloc(), Kind::Bag, WALK) == Some(true));
}

#[test]
fn traversals_of_split_rows_are_exact(rt: HostRuntime) {
    assert!(rt; split_rows_pass(rt.alloc(), Kind::Set, GROWING_WALK) == Some(true));
    assert!(rt; split_rows_pass(rt.alloc(), Kind::Bag, GROWING_WALK) == Some(true));
}

#[test]
fn traversals_of_one_bucket_are_exact(rt: HostRuntime) {
    assert!(rt; one_bucket_passes(rt.alloc(), Kind::Bag, SHORT_GROWING_WALK) == Some(true));
}
