//! Which terms are objects: tables with other keyposes, values of the greatest depth, and the key `'$end_of_table'`,
//! which no object has.
use super::Emptied::{LeaveTombstone, RemoveSlot};
use super::Step::{
    CountObjects, CountSlots, Delete, DeleteObject, Insert, InsertDeep, InsertNew, InsertNewDeep,
    InsertTriple, Lookup, LookupElement, Take, UpdateCounter, UpdateCounterFrom, UpdateElement,
};
use super::answers::Answer::{
    self, Badarg, False, Int, ListOfLength, Objects, Slots, SystemLimit, True, Values,
};
use super::checks::{Check, plain_table_passes, split_table_passes};
use super::single_calls::{count_of, try_insert, try_insert_new};
use super::terms::{Part, atom, tuple_of};
use super::updates::{increment_of_counter, second_element_value};
use super::{
    Depth, EmptyTable, Incr, Key, Keypos, MaxObjects, Object, Pos, Scenario, Start, Step, Triple,
    Value, first_mismatch,
};
use bucket_table::Rows;
use ets_term::{Fnv, Term};
use std::alloc::Global;
use std::process::Abort;
use std::slice;
use table_ops::{Kind, Table};

/// Steps on a set whose keypos is 2. Updates are refused: `UpdateElement` writes the second element, which is the key,
/// and the counter would be the third element, which a pair lacks.
const KEY_IS_SECOND: [(Step, Answer); 15] = [
    (Insert(Object(1, 7)), True),
    (Insert(Object(2, 7)), True),
    (Insert(Object(2, 8)), True),
    (CountObjects, Objects(2)),
    (LookupElement(Key(7), Pos(1)), Int(2)),
    (LookupElement(Key(8), Pos(2)), Int(8)),
    (LookupElement(Key(1), Pos(1)), Badarg),
    (InsertNew(Object(3, 7)), False),
    (InsertNew(Object(3, 9)), True),
    (UpdateElement(Key(7), Value(5)), Badarg),
    (UpdateCounter(Key(7), Incr(1)), Badarg),
    (DeleteObject(Object(1, 7), RemoveSlot), Objects(3)),
    (DeleteObject(Object(2, 7), RemoveSlot), Objects(2)),
    (Take(Key(8), RemoveSlot), Values(&[8])),
    (CountObjects, Objects(1)),
];

/// Steps on a bag whose keypos is 3. A pair is not an object of it, because it has no key. A bag has no counters, and
/// does not insert an object a second time.
const KEY_IS_THIRD: [(Step, Answer); 14] = [
    (Insert(Object(1, 2)), Badarg),
    (InsertNew(Object(1, 2)), Badarg),
    (InsertTriple(Triple(1, 2, 7)), True),
    (InsertTriple(Triple(4, 5, 7)), True),
    (InsertTriple(Triple(4, 5, 8)), True),
    (Lookup(Key(7)), Values(&[2, 5])),
    (Lookup(Key(4)), Values(&[])),
    (LookupElement(Key(7), Pos(1)), ListOfLength(2)),
    (LookupElement(Key(8), Pos(4)), Badarg),
    (DeleteObject(Object(1, 2), RemoveSlot), Badarg),
    (UpdateCounterFrom(Key(9), Incr(1), Start(1)), Badarg),
    (Delete(Key(7), RemoveSlot), Objects(1)),
    (InsertTriple(Triple(4, 5, 8)), True),
    (CountObjects, Objects(1)),
];

/// Steps with the deepest values that a table stores, and with values one deeper. The set has at most two objects.
/// An object is one level deeper than its value, and at most 128 deep.
const DEEPEST_OBJECTS: [(Step, Answer); 14] = [
    (InsertDeep(Key(7), Depth(127)), True),
    (InsertDeep(Key(8), Depth(128)), SystemLimit),
    (InsertDeep(Key(7), Depth(128)), SystemLimit),
    (InsertNewDeep(Key(8), Depth(128)), SystemLimit),
    (InsertNewDeep(Key(7), Depth(128)), False),
    (InsertNewDeep(Key(8), Depth(127)), True),
    (InsertNewDeep(Key(9), Depth(127)), SystemLimit),
    (LookupElement(Key(7), Pos(1)), Int(7)),
    (LookupElement(Key(8), Pos(2)), ListOfLength(1)),
    (CountObjects, Objects(2)),
    (Delete(Key(7), LeaveTombstone), Objects(1)),
    (InsertNewDeep(Key(7), Depth(128)), SystemLimit),
    (InsertNewDeep(Key(7), Depth(127)), True),
    (CountSlots, Slots(2)),
];

/// Each table with its steps.
const SCENARIOS: [Scenario; 3] = [
    (Kind::Set, Keypos(2), MaxObjects(10), &KEY_IS_SECOND),
    (Kind::Bag, Keypos(3), MaxObjects(10), &KEY_IS_THIRD),
    (Kind::Set, Keypos(1), MaxObjects(2), &DEEPEST_OBJECTS),
];

#[test]
fn objects_obey_keypos_and_depth_limit(rt: HostRuntime) {
    assert_eq!(rt; first_mismatch(rt.alloc(), &SCENARIOS), None);
}

/// Builds `{'$end_of_table',1}`, which is not an object, because `'$end_of_table'` is not a key. `None` means out of
/// memory.
pub fn object_under_end_of_table(alloc: Global) -> Option<Term> {
    tuple_of(alloc, &[Part::Atom("$end_of_table"), Part::Int(1)])
}

/// Returns whether `insert` and `insert_new` refuse an object whose key is `'$end_of_table'`.
fn refuses_to_insert<R: Rows>(table: &mut Table<R>, object: &Term) -> bool {
    try_insert(table, slice::from_ref(object)) == Badarg.code()
        && try_insert_new(table, slice::from_ref(object)) == Badarg.code()
}

/// Returns whether `update_counter` is refused for the key `'$end_of_table'`, with a default object and without. `None`
/// means out of memory.
fn refuses_to_update_counter<R: Rows>(
    alloc: Global,
    table: &mut Table<R>,
    end: &Term,
    object: &Term,
) -> Option<bool> {
    // The increment 1 of a counter, read for the keypos 1.
    let ops = increment_of_counter(alloc, 1, 1)?;
    let refusal = table.update_counter(end, &ops, None).err();
    let refusal_with_default = table.update_counter(end, &ops, Some(object)).err();
    drop(ops);
    Some(refusal.is_some() && refusal_with_default.is_some())
}

/// Returns whether `update_element` finds no object with the key `'$end_of_table'`. `None` means out of memory.
fn updates_no_element<R: Rows>(alloc: Global, table: &mut Table<R>, end: &Term) -> Option<bool> {
    // Any value would do.
    let specs = second_element_value(alloc, 5)?;
    let updated = table.update_element(end, &specs, None);
    drop(specs);
    Some(updated == Ok(false))
}

/// Returns whether `take` and deletions find nothing under the key `'$end_of_table'`. The two deletions would leave a
/// tombstone (`true`) if they found an object.
fn deletes_nothing<R: Rows>(table: &mut Table<R>, end: &Term, object: &Term) -> bool {
    let taken = count_of(table.take(end, false).ok());
    table.delete_key(end, true);
    let deleted = table.delete_object(object, true);
    taken == Some(0) && deleted.is_err() && table.slots() == 0
}

/// Returns whether lookups find nothing under the key `'$end_of_table'`.
fn reads_nothing<R: Rows>(table: &Table<R>, end: &Term) -> bool {
    let refusal = table.lookup_element(end, 1).err();
    refusal.is_some() && table.lookup(end).is_empty() && !table.member(end)
}

/// Returns whether no call finds or changes anything under the key `'$end_of_table'`. `None` means out of memory.
fn refuses_end_of_table<R: Rows>(
    alloc: Global,
    table: &mut Table<R>,
    end: &Term,
    object: &Term,
) -> Option<bool> {
    Some(
        refuses_to_insert(table, object)
            && refuses_to_update_counter(alloc, table, end, object)?
            && updates_no_element(alloc, table, end)?
            && deletes_nothing(table, end, object)
            && reads_nothing(table, end),
    )
}

/// Builds `{'$end_of_table',1}`, and returns whether no call finds or changes anything under its key. `None` means out
/// of memory.
fn nothing_is_under_end_of_table<R: Rows>(
    alloc: Global,
    table: &mut Table<R>,
    end: &Term,
) -> Option<bool> {
    let object = object_under_end_of_table(alloc)?;
    let is_refused = refuses_end_of_table(alloc, table, end, &object);
    drop(object);
    is_refused
}

/// Builds the key `'$end_of_table'`, and returns whether no call finds or changes anything under this key. `None` means
/// out of memory.
pub fn end_of_table_is_not_a_key<R: Rows>(alloc: Global, table: &mut Table<R>) -> Option<bool> {
    let end = atom(alloc, "$end_of_table")?;
    let is_no_key = nothing_is_under_end_of_table(alloc, table, &end);
    drop(end);
    is_no_key
}

#[test]
fn no_object_has_the_key_end_of_table(rt: HostRuntime) {
    let set = EmptyTable(Kind::Set, Keypos(1), MaxObjects(10));
    assert!(rt; plain_table_passes(rt.alloc(), set, Check::RefuseEndOfTable) == Some(true));
    assert!(rt; split_table_passes(rt.alloc(), Fnv, set, Check::RefuseEndOfTable) == Some(true));
}
