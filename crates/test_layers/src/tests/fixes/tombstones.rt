//! Tombstones: what deleted keys leave in a fixed table, call by call. A row of a test is a call, the expected answer
//! of `first` or `next`, or the expected numbers of slots and objects.
use self::Row::{
    Delete, FirstIs, FirstIsEnd, Fix, Insert, IsFixed, IsNotFixed, NextIs, NextIsBadarg, NextIsEnd,
    Release, ReleaseAll,
};
use super::*;

/// How many slots a table has, tombstones included.
#[derive(Clone, Copy)]
pub(super) struct Slots(usize);

/// How many objects a table has.
#[derive(Clone, Copy)]
pub(super) struct Objects(usize);

/// One row of a test: a call, the wanted answer of a call, or what the table must have.
#[derive(Clone, Copy)]
pub(super) enum Row {
    /// Inserts an object.
    Insert(Object),
    /// Deletes all objects of a key.
    Delete(Key),
    /// Fixes the table for a process.
    Fix(Pid),
    /// Gives one fix of the process back.
    Release(Pid),
    /// Releases all fixes of the process.
    ReleaseAll(Pid),
    /// `first` returns this key.
    FirstIs(Key),
    /// `first` returns `'$end_of_table'`.
    FirstIsEnd,
    /// `next` of the left key returns the right key.
    NextIs(Key, Key),
    /// `next` of the key returns `'$end_of_table'`.
    NextIsEnd(Key),
    /// `next` of the key is badarg.
    NextIsBadarg(Key),
    /// The table is fixed, and has these numbers of slots and objects.
    IsFixed(Slots, Objects),
    /// The table is not fixed, and has these numbers of slots and objects.
    IsNotFixed(Slots, Objects),
}

/// Returns whether `next` of a key returns the wanted key. A wanted key of None is the end of the table.
fn has_next<R: Rows>(table: &Walked<R>, key: Integer, wanted: Option<Integer>) -> bool {
    match key_after(table, key) {
        Ok(found) => is_key(found, wanted),
        Err(Badarg) => false,
    }
}

/// Returns whether a table has these numbers of slots and objects.
fn has_sizes<R: Rows>(table: &Walked<R>, slots: Slots, objects: Objects) -> bool {
    table.slots() == slots.0 && table.size() == objects.0
}

/// Makes the call of a row that deletes or releases. For other rows it does nothing.
fn make_call<R: Rows>(table: &mut Walked<R>, row: Row) {
    match row {
        Row::Delete(key) => delete(table, key.0),
        Row::Release(pid) => table.release(pid.0),
        Row::ReleaseAll(pid) => table.release_all(pid.0),
        _ => {}
    }
}

/// Returns whether a table is as a row expects. Rows that delete or release expect nothing.
fn expectation_holds<R: Rows>(table: &Walked<R>, row: Row) -> bool {
    match row {
        Row::FirstIs(key) => is_key(table.first(), Some(key.0)),
        Row::FirstIsEnd => is_key(table.first(), None),
        Row::NextIs(key, next) => has_next(table, key.0, Some(next.0)),
        Row::NextIsEnd(key) => has_next(table, key.0, None),
        Row::NextIsBadarg(key) => key_after(table, key.0).is_err(),
        Row::IsFixed(slots, objects) => table.is_fixed() && has_sizes(table, slots, objects),
        Row::IsNotFixed(slots, objects) => !table.is_fixed() && has_sizes(table, slots, objects),
        _ => true,
    }
}

/// Makes the call of a row, or checks what the row expects. Returns whether this succeeds.
fn row_holds<R: Rows>(alloc: Global, table: &mut Walked<R>, row: Row) -> bool {
    match row {
        Row::Insert(object) => insert(alloc, table, object.0, object.1),
        Row::Fix(pid) => table.fix(pid.0).is_ok(),
        _ => {
            make_call(table, row);
            expectation_holds(table, row)
        }
    }
}

/// Returns whether all rows hold, one after the other.
pub(super) fn all_rows_hold<R: Rows>(alloc: Global, table: &mut Walked<R>, rows: &[Row]) -> bool {
    for row in rows {
        if !row_holds(alloc, table, *row) {
            return false;
        }
    }
    true
}

/// Returns whether all rows hold on a set over plain rows, and on a set over split rows with one hash for all keys.
fn hold_on_both_tables(alloc: Global, rows: &'static [Row]) -> Option<bool> {
    let check = Check::Tombstones(rows);
    Some(plain_rows_pass(alloc, Kind::Set, check)? && one_bucket_passes(alloc, Kind::Set, check)?)
}

/// Deletes key 1 from a fixed table, and inserts it again.
const DELETED_KEY_KEEPS_ITS_PLACE: [Row; 11] = [
    Insert(Object(1, 1)),
    Insert(Object(2, 1)),
    Fix(Pid(7)),
    Delete(Key(1)),
    IsFixed(Slots(2), Objects(1)),
    FirstIs(Key(2)),
    NextIs(Key(1), Key(2)),
    Insert(Object(1, 2)),
    FirstIs(Key(1)),
    NextIs(Key(1), Key(2)),
    NextIsEnd(Key(2)),
];

/// Checks that a traversal goes on from a deleted key, and that a new object of the key has the old place.
#[test]
fn a_deleted_key_keeps_its_place(rt: HostRuntime) {
    assert!(rt; hold_on_both_tables(rt.alloc(), &DELETED_KEY_KEEPS_ITS_PLACE) == Some(true));
}

/// Deletes key 2 while two processes fix the table, and releases the fixes one by one. Process 8 has one fix, so its
/// second release changes nothing.
const LAST_RELEASE_REMOVES_TOMBSTONES: [Row; 18] = [
    Insert(Object(1, 1)),
    Insert(Object(2, 1)),
    Insert(Object(3, 1)),
    Fix(Pid(7)),
    Fix(Pid(8)),
    Fix(Pid(7)),
    Delete(Key(2)),
    Release(Pid(8)),
    IsFixed(Slots(3), Objects(2)),
    Release(Pid(7)),
    IsFixed(Slots(3), Objects(2)),
    NextIs(Key(2), Key(3)),
    Release(Pid(8)),
    IsFixed(Slots(3), Objects(2)),
    Release(Pid(7)),
    IsNotFixed(Slots(2), Objects(2)),
    NextIsBadarg(Key(2)),
    NextIs(Key(1), Key(3)),
];

/// Checks that a tombstone stays until the last of the fixes of two processes is released.
#[test]
fn last_release_removes_tombstones(rt: HostRuntime) {
    assert!(rt; hold_on_both_tables(rt.alloc(), &LAST_RELEASE_REMOVES_TOMBSTONES) == Some(true));
}

/// Releases all fixes of three processes. Process 9 has no fix.
const ALL_FIXES_OF_A_PROCESS_END: [Row; 12] = [
    Insert(Object(1, 1)),
    Fix(Pid(7)),
    Fix(Pid(7)),
    Fix(Pid(8)),
    Delete(Key(1)),
    ReleaseAll(Pid(7)),
    IsFixed(Slots(1), Objects(0)),
    ReleaseAll(Pid(7)),
    ReleaseAll(Pid(9)),
    IsFixed(Slots(1), Objects(0)),
    ReleaseAll(Pid(8)),
    IsNotFixed(Slots(0), Objects(0)),
];

/// Checks that `release_all` ends all fixes of a process, and no fix of another.
#[test]
fn release_all_ends_all_fixes_of_a_process(rt: HostRuntime) {
    assert!(rt; hold_on_both_tables(rt.alloc(), &ALL_FIXES_OF_A_PROCESS_END) == Some(true));
}

/// Makes calls on a table without fixes: first empty, then with two keys.
const TABLE_WITHOUT_FIXES: [Row; 16] = [
    FirstIsEnd,
    NextIsBadarg(Key(1)),
    Release(Pid(7)),
    ReleaseAll(Pid(7)),
    IsNotFixed(Slots(0), Objects(0)),
    Insert(Object(1, 1)),
    Insert(Object(2, 1)),
    Release(Pid(7)),
    IsNotFixed(Slots(2), Objects(2)),
    Delete(Key(2)),
    IsNotFixed(Slots(1), Objects(1)),
    NextIsBadarg(Key(2)),
    Insert(Object(2, 2)),
    FirstIs(Key(1)),
    NextIs(Key(1), Key(2)),
    NextIsEnd(Key(2)),
];

/// Checks that a table without fixes keeps no tombstone, and a release of it changes nothing.
#[test]
fn a_table_without_fixes_keeps_no_tombstones(rt: HostRuntime) {
    assert!(rt; hold_on_both_tables(rt.alloc(), &TABLE_WITHOUT_FIXES) == Some(true));
}
