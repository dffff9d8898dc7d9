//! Calls on rows that take no memory. The tests mark where these calls begin and end, and `.ci/refusals` refuses each
//! allocation between the marks.
use super::checks::{Check, plain_rows_pass, split_rows_pass};
use super::*;

/// More bytes than any machine has, so that an allocation of them is refused. For `.ci/refusals` such an allocation
/// marks the start or the end of a part that takes no memory.
const MARK: usize = 1 << 60;

/// Marks the start or the end of a part that takes no memory. Returns whether the allocation is refused, as it must be.
fn mark(alloc: Global) -> bool {
    Vec::<u8>::with_capacity(alloc, MARK).is_err()
}

/// The keys are the integers from 1 that are below this number.
const PAST_KEYS: u32 = 5;

/// Inserts the keys 1 to 4, each with itself as its object. Then doubles the buckets and makes bucket 1 ready.
fn fill_with_keys<R: Rows>(rows: &mut R, alloc: Global) -> Result<(), AllocError> {
    for key in 1..PAST_KEYS {
        let key = Integer::from(key);
        insert(rows, alloc, key, key)?;
    }
    rows.grow()?;
    rows.ready(1)?;
    Ok(())
}

/// Returns the integer that is the first object of a slot, or 0.
fn first_integer_of_slot(slot: Option<(KeyRef<'_>, &[Object])>) -> Integer {
    match slot {
        Some((_key, objects)) => number_of(objects.first()),
        None => 0,
    }
}

/// Returns the integer that an object is, or 0.
fn number_of(object: Option<&Object>) -> Integer {
    match object {
        Some(object) => object.as_integer().unwrap_or(0),
        None => 0,
    }
}

/// Returns the sum of the objects of all slots, found by `first_at` and by `next_at` of each key.
fn sum_of_objects<R: Rows>(rows: &R) -> Integer {
    let mut total = first_integer_of_slot(rows.first_at());
    for key in 1..PAST_KEYS {
        let key = Term::Int(Integer::from(key));
        if let Some(slot) = rows.next_at(&key) {
            total = total.wrapping_add(first_integer_of_slot(slot));
        }
        drop(key);
    }
    total
}

/// What `run_free_calls` observes.
#[derive(Clone, Copy, PartialEq, Eq)]
struct Observed {
    /// The sum of all objects before the calls.
    sum: Integer,
    /// The state of key 1 before its object is replaced.
    before_replace: KeyState,
    /// The sum of all objects after the replacement.
    sum_replaced: Integer,
    /// The state of key 2 before it is removed.
    before_removal: KeyState,
    /// The sum of all objects after the removal.
    sum_removed: Integer,
    /// The number of slots after `clear` and `purge`.
    slots_left: usize,
}

/// Makes calls that take no memory: replaces the object of key 1 by 10, and removes key 2. Then `clear(true)` makes
/// tombstones of the other slots, and `purge` removes them.
fn run_free_calls<R: Rows>(rows: &mut R, alloc: Global) -> Observed {
    let sum = sum_of_objects(rows);
    let before_replace = replace(rows, 1, Chain::one(alloc, object_of(10)));
    let sum_replaced = sum_of_objects(rows);
    let before_removal = remove(rows, 2);
    let sum_removed = sum_of_objects(rows);
    rows.clear(true);
    rows.purge();
    Observed {
        sum,
        before_replace,
        sum_replaced,
        before_removal,
        sum_removed,
        slots_left: rows.len(),
    }
}

/// Runs `run_free_calls` between two marks, and returns whether the calls have the right results.
pub(super) fn calls_take_no_memory<R: Rows>(
    rows: &mut R,
    alloc: Global,
) -> Result<bool, AllocError> {
    fill_with_keys(rows, alloc)?;
    let start_marked = mark(alloc);
    let observed = run_free_calls(rows, alloc);
    let end_marked = mark(alloc);
    let wanted = Observed {
        sum: 1 + 2 + 3 + 4,
        before_replace: KeyState::Object(1),
        sum_replaced: 10 + 2 + 3 + 4,
        before_removal: KeyState::Object(2),
        sum_removed: 10 + 3 + 4,
        slots_left: 0,
    };
    Ok(start_marked && end_marked && observed == wanted)
}

#[test]
fn reads_replacements_and_removals_take_no_memory(rt: HostRuntime) {
    assert!(rt; plain_rows_pass(rt.alloc(), Check::TakeNoMemory) == Ok(true));
    assert!(rt; split_rows_pass(rt.alloc(), Fnv, Check::TakeNoMemory) == Ok(true));
}

/// Returns whether counted searches between two marks find key 3, miss key 9, and count a visited node.
fn counted_searches_are_right(rows: &SplitRows<Fnv>, alloc: Global) -> bool {
    let mut visited = Steps::new();
    let start_marked = mark(alloc);
    let found = is_found(rows, 3, &mut visited);
    let missed = !is_found(rows, 9, &mut visited);
    let end_marked = mark(alloc);
    start_marked && found && missed && end_marked && visited.count() > 0
}

/// Inserts the keys 1 to 4, and returns whether counted searches between two marks are right.
fn filled_rows_are_searched(rows: &mut SplitRows<Fnv>, alloc: Global) -> Result<bool, AllocError> {
    fill_with_keys(rows, alloc)?;
    Ok(counted_searches_are_right(rows, alloc))
}

/// Returns whether counted searches in new split rows are right between two marks.
fn split_searches_take_no_memory(alloc: Global) -> Result<bool, AllocError> {
    let mut rows = SplitRows::new(alloc, Fnv)?;
    let searched = filled_rows_are_searched(&mut rows, alloc);
    drop(rows);
    searched
}

#[test]
fn counted_searches_take_no_memory(rt: HostRuntime) {
    assert!(rt; split_searches_take_no_memory(rt.alloc()) == Ok(true));
}
