//! Calls on 5,000 keys of a table with fixes, while the buckets double, and fixes by 5,000 processes. Each must have
//! the answer of the rules of `ets`.
use super::answers::Expected::{Done, NotDone, Objects};
use super::answers::Step::{DeleteObject, InsertNew, Take};
use super::answers::{count_objects, has_wanted_answer, second_element};
use super::*;

/// How many keys the test inserts. `grow` runs once for each key. Over split rows this is enough to reach `MAX_BUCKETS`
/// buckets, all of them ready.
const KEYS: u32 = 5_000;

/// How many processes fix a table at the same time.
const PROCESSES: u32 = 5_000;

/// Returns whether the table has an object of a key.
fn is_member<R: Rows>(table: &Walked<R>, key: Integer) -> bool {
    let key = Term::Int(key);
    let is_member = table.member(&key);
    drop(key);
    is_member
}

/// Returns whether `lookup_element`, `member` and `lookup` find the one object of a key, whose second element is 2.
fn reads_object<R: Rows>(table: &Walked<R>, key: Integer) -> bool {
    second_element(table, key) == 2 && is_member(table, key) && count_of(table, key) == 1
}

/// Returns whether `insert_new` inserts `{Key,2}` once, and inserts nothing the second time.
fn inserts_as_new<R: Rows>(alloc: Global, table: &mut Walked<R>, key: Integer) -> bool {
    has_wanted_answer(alloc, table, InsertNew(Object(key, 2)), Done)
        && has_wanted_answer(alloc, table, InsertNew(Object(key, 2)), NotDone)
}

/// Returns whether `delete_object` deletes `{Key,1}`, the only object of its key.
fn deletes_object<R: Rows>(alloc: Global, table: &mut Walked<R>, key: Integer) -> bool {
    has_wanted_answer(alloc, table, DeleteObject(Object(key, 1)), Done) && !is_member(table, key)
}

/// Returns whether each call on one new key succeeds: insertions, reads, and both ways to delete the object. At the end
/// the key has the object `{Key,3}`.
fn calls_on_key_succeed<R: Rows>(alloc: Global, table: &mut Walked<R>, key: Integer) -> bool {
    inserts_as_new(alloc, table, key)
        && reads_object(table, key)
        && has_wanted_answer(alloc, table, Take(Key(key)), Objects(1))
        && insert(alloc, table, key, 1)
        && deletes_object(alloc, table, key)
        && insert(alloc, table, key, 3)
}

/// Returns whether the calls on each key below `keys` succeed. Grows the table after each key.
fn calls_on_keys_succeed<R: Rows>(alloc: Global, table: &mut Walked<R>, keys: u32) -> bool {
    for key in 0..keys {
        if !calls_on_key_succeed(alloc, table, Integer::from(key)) || !grow(table) {
            return false;
        }
    }
    true
}

/// Returns whether each process below `processes` can fix the table.
fn all_fix<R: Rows>(table: &mut Walked<R>, processes: u32) -> bool {
    for pid in 0..processes {
        if table.fix(pid).is_err() {
            return false;
        }
    }
    true
}

/// Releases the table for each process below `processes`. Returns whether it was fixed before each release.
fn all_release<R: Rows>(table: &mut Walked<R>, processes: u32) -> bool {
    for pid in 0..processes {
        if !table.is_fixed() {
            return false;
        }
        table.release(pid);
    }
    true
}

/// Returns whether each process below `processes` can fix the table, and the table is fixed until all have released it.
fn fixes_and_releases<R: Rows>(table: &mut Walked<R>, processes: u32) -> bool {
    all_fix(table, processes) && all_release(table, processes) && !table.is_fixed()
}

/// Returns whether a table lists `keys` objects, and is empty after `delete_all`.
fn lists_and_clears<R: Rows>(table: &mut Walked<R>, keys: u32) -> bool {
    let lists_all = count_objects(table) == Integer::from(keys) && table.size() == keys as usize;
    table.delete_all();
    lists_all && table.size() == 0 && table.slots() == 0
}

/// Returns whether the calls on keys, the fixes, and the calls on the whole table succeed.
pub(super) fn all_calls_succeed<R: Rows>(alloc: Global, table: &mut Walked<R>) -> bool {
    calls_on_keys_succeed(alloc, table, KEYS)
        && fixes_and_releases(table, PROCESSES)
        && lists_and_clears(table, KEYS)
}

/// Checks each call over plain rows and over split rows.
#[test]
fn calls_succeed(rt: HostRuntime) {
    assert!(rt; plain_rows_pass(rt.alloc(), Kind::Set, Check::AllCalls) == Some(true));
    assert!(rt; split_rows_pass(rt.alloc(), Kind::Set, Check::AllCalls) == Some(true));
}
