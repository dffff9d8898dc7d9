//! Calls of a fixed table that take no memory: a traversal, a deletion and releases. `.ci/refusals` refuses each
//! allocation between two marks, and the calls must still have their results.
use super::*;

/// A number of bytes that no machine has, so that each request is refused. For `.ci/refusals`, such a request marks the
/// start or the end of a part that takes no memory.
const MARK: usize = 1 << 60;

/// Requests `MARK` bytes. Returns whether the request was refused.
fn request_mark(alloc: Global) -> bool {
    Vec::<u8>::with_capacity(alloc, MARK).is_err()
}

/// Traverses by `first_lookup` and `next_lookup`, which return a key with its objects. Returns the number of keys and
/// the number of their objects. There are at most as many keys as slots, which bounds the loop.
fn count_traversed<R: Rows>(table: &Walked<R>) -> (usize, usize) {
    let mut keys = 0usize;
    let mut objects = 0usize;
    let mut found = table.first_lookup();
    for _ in 0..table.slots() {
        let Some((key, key_objects)) = found else {
            break
        };
        keys = keys.wrapping_add(1);
        objects = objects.wrapping_add(key_objects.len());
        // The keys are integers, so this term takes no memory.
        let last = Term::Int(key.as_integer().unwrap_or(0));
        found = table.next_lookup(&last).unwrap_or(None);
        drop(last);
    }
    (keys, objects)
}

/// Returns whether a table is fixed and has this number of slots.
fn is_fixed_with_slots<R: Rows>(table: &Walked<R>, slots: usize) -> bool {
    table.is_fixed() && table.slots() == slots
}

/// Returns whether a traversal skips a deleted key, and its tombstone is removed when both processes have released
/// their fixes. The table is that of `insert_and_fix`.
fn traverses_and_releases<R: Rows>(table: &mut Walked<R>) -> bool {
    let visits_three = count_traversed(table) == (3, 3);
    delete(table, 2);
    let skips_deleted = count_traversed(table) == (2, 2);
    let has_tombstone = is_fixed_with_slots(table, 3);
    table.release_all(0);
    let still_has_tombstone = is_fixed_with_slots(table, 3);
    table.release_all(1);
    let has_no_tombstone = !table.is_fixed() && table.slots() == 2;
    visits_three && skips_deleted && has_tombstone && still_has_tombstone && has_no_tombstone
}

/// Inserts the keys 1 to 3. Fixes the table twice for process 0 and once for process 1. Returns whether all calls
/// succeed.
fn insert_and_fix<R: Rows>(alloc: Global, table: &mut Walked<R>) -> bool {
    insert(alloc, table, 1, 1)
        && insert(alloc, table, 2, 2)
        && insert(alloc, table, 3, 3)
        && table.fix(0).is_ok()
        && table.fix(0).is_ok()
        && table.fix(1).is_ok()
}

/// Returns whether a traversal and the releases succeed between two marks. Before the marks, key 3 is deleted and
/// inserted again, so that a tombstone gets an object.
pub(super) fn takes_no_memory<R: Rows>(alloc: Global, table: &mut Walked<R>) -> bool {
    let filled = insert_and_fix(alloc, table);
    delete(table, 3);
    let refilled = insert(alloc, table, 3, 3);
    let has_start_mark = request_mark(alloc);
    let holds = traverses_and_releases(table);
    let has_end_mark = request_mark(alloc);
    filled && refilled && has_start_mark && holds && has_end_mark
}

#[test]
fn traversals_and_releases_take_no_memory(rt: HostRuntime) {
    assert_eq!(rt;
        plain_rows_pass(rt.alloc(), Kind::Bag, Check::TakesNoMemory),
        Some(true)
    );
    assert_eq!(rt;
        split_rows_pass(rt.alloc(), Kind::Set, Check::TakesNoMemory),
        Some(true)
    );
}
