//! How many objects a deletion by a pattern or a match specification tests. It tests those of its bound key, which
//! every matching object has, or all if it binds no key.
// The table has the objects `{Key,0}` for the keys 1 to 1,000.
use super::Key;
use super::searches::{Found, MISSING, Tested, both_find, select_by_keys};
use super::terms::{pattern_of_key, spec_of_keys};
use bucket_table::Rows;
use ets_term::Integer;
use std::alloc::Global;
use table_ops::{Looks, Table};

/// How many objects a call deletes.
#[derive(Clone, Copy, PartialEq, Eq)]
struct Deleted(usize);

/// How many slots the table then has.
#[derive(Clone, Copy, PartialEq, Eq)]
struct Slots(usize);

/// How many objects the table then has.
#[derive(Clone, Copy, PartialEq, Eq)]
struct Objects(usize);

/// Deletes by a match specification with a clause for each key, and leaves no tombstones (`false`). Returns how many
/// objects it deletes, leaves and tests. `None` means out of memory.
fn delete_by_keys<R: Rows>(
    alloc: Global,
    table: &mut Table<R>,
    keys: &[Integer],
) -> Option<(Deleted, Objects, Tested)> {
    let spec = spec_of_keys(alloc, keys)?;
    let mut looks = Looks::new();
    let deleted = table.select_delete_counted(&spec, false, &mut looks);
    drop(spec);
    Some((
        Deleted(deleted.ok()?),
        Objects(table.size()),
        Tested(looks.count()),
    ))
}

/// Deletes by the pattern of a key, and leaves a tombstone (`true`). Returns how many slots and objects it leaves, and
/// how many objects it tests. `None` means out of memory.
fn delete_by_pattern<R: Rows>(
    alloc: Global,
    table: &mut Table<R>,
    key: Key,
) -> Option<(Slots, Objects, Tested)> {
    let pattern = pattern_of_key(alloc, key.0)?;
    let mut looks = Looks::new();
    let outcome = table.match_delete_counted(&pattern, true, &mut looks);
    drop(pattern);
    outcome.ok()?;
    Some((
        Slots(table.slots()),
        Objects(table.size()),
        Tested(looks.count()),
    ))
}

/// Columns: the keys of the clauses, and how many objects are then deleted, left and tested. Clauses of one key test
/// its objects, and clauses of different keys all objects. The second row deletes the object of key 7, so the third
/// deletes only that of key 8.
const DELETIONS: [(&[Integer], Deleted, Objects, Tested); 3] = [
    (&[MISSING], Deleted(0), Objects(1_000), Tested(0)),
    (&[7], Deleted(1), Objects(999), Tested(1)),
    (&[7, 8], Deleted(1), Objects(998), Tested(999)),
];

/// Returns whether deletions by the clauses of keys delete, leave and test as many objects as they must.
fn deletions_by_keys_are_right<R: Rows>(
    alloc: Global,
    table: &mut Table<R>,
    wanted: &[(&[Integer], Deleted, Objects, Tested)],
) -> bool {
    for (keys, deleted, objects, tested) in wanted {
        if delete_by_keys(alloc, table, keys) != Some((*deleted, *objects, *tested)) {
            return false;
        }
    }
    true
}

/// Columns: the key of a pattern, and how many objects a deletion by the pattern tests. After each deletion 998 slots
/// and 997 objects remain. The first row makes a tombstone of the slot of key 9, so the second finds no object to test.
const PATTERN_DELETIONS: [(Key, Tested); 3] = [
    (Key(9), Tested(1)),
    (Key(9), Tested(0)),
    (Key(MISSING), Tested(0)),
];

/// Returns whether deletions by the patterns of keys leave and test as many objects as they must.
fn deletions_by_patterns_are_right<R: Rows>(
    alloc: Global,
    table: &mut Table<R>,
    wanted: &[(Key, Tested)],
) -> bool {
    for (key, tested) in wanted {
        let expected = Some((Slots(998), Objects(997), *tested));
        if delete_by_pattern(alloc, table, *key) != expected {
            return false;
        }
    }
    true
}

/// Returns whether deletions by one bound key test its objects, and deletions by different keys all objects. At the end
/// each of two searches by two keys must test all 997 objects that are left.
pub fn deletions_are_right<R: Rows>(alloc: Global, table: &mut Table<R>) -> bool {
    deletions_by_keys_are_right(alloc, table, &DELETIONS)
        && deletions_by_patterns_are_right(alloc, table, &PATTERN_DELETIONS)
        && select_by_keys(alloc, table, &[10, 11]) == both_find(Found(2), Tested(1_994))
}
