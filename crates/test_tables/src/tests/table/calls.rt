//! Each call of a table, and each refusal: steps in order on one table, each with its expected answer.
use super::Emptied::{LeaveTombstone, RemoveSlot};
use super::Step::{
    CountObjects, CountSlots, Delete, DeleteAll, DeleteObject, Insert, InsertInteger, InsertNew,
    InsertTwo, Lookup, LookupElement, Match, MatchDelete, Purge, SelectBelow, SelectDeleteBelow,
    Take, UpdateCounter, UpdateCounterFrom, UpdateElement,
};
use super::answers::Answer::{
    self, Badarg, Deleted, False, Int, ListOfLength, Matched, Objects, OneValue, Selected, Slots,
    SystemLimit, True, Values,
};
use super::{
    Incr, Key, Keypos, MaxObjects, Object, Pos, Scenario, Start, Step, Value, first_mismatch,
};
use ets_term::Integer;
use std::process::Abort;
use table_ops::Kind;

/// Steps on a set: an object replaces that of its key.
const SETS: [(Step, Answer); 26] = [
    (Insert(Object(7, 1)), True),
    (Insert(Object(7, 2)), True),
    (Lookup(Key(7)), Values(&[2])),
    (InsertNew(Object(7, 3)), False),
    (InsertNew(Object(8, 3)), True),
    (InsertInteger(7), Badarg),
    (LookupElement(Key(7), Pos(2)), Int(2)),
    (LookupElement(Key(7), Pos(3)), Badarg),
    (LookupElement(Key(9), Pos(1)), Badarg),
    (CountObjects, Objects(2)),
    (Take(Key(7), LeaveTombstone), Values(&[2])),
    (Take(Key(7), RemoveSlot), Values(&[])),
    (CountSlots, Slots(2)),
    (InsertNew(Object(7, 4)), True),
    (Lookup(Key(7)), Values(&[4])),
    (Delete(Key(7), RemoveSlot), Objects(1)),
    (DeleteObject(Object(8, 4), RemoveSlot), Objects(1)),
    (DeleteObject(Object(8, 3), LeaveTombstone), Objects(0)),
    (CountSlots, Slots(1)),
    (Purge, Slots(0)),
    (InsertTwo(Object(1, 1), Object(2, 2)), True),
    (DeleteAll(LeaveTombstone), Slots(2)),
    (Purge, Slots(0)),
    (InsertTwo(Object(1, 1), Object(1, 2)), True),
    (Lookup(Key(1)), Values(&[2])),
    (DeleteAll(RemoveSlot), Slots(0)),
];

/// Steps on a bag: a key has different objects, in the order of their insertion. Updates are refused.
const BAGS: [(Step, Answer); 12] = [
    (Insert(Object(7, 1)), True),
    (Insert(Object(7, 2)), True),
    (Insert(Object(7, 1)), True),
    (Lookup(Key(7)), Values(&[1, 2])),
    (LookupElement(Key(7), Pos(2)), ListOfLength(2)),
    (UpdateCounter(Key(7), Incr(1)), Badarg),
    (UpdateCounterFrom(Key(9), Incr(1), Start(1)), Badarg),
    (UpdateElement(Key(7), Value(1)), Badarg),
    (DeleteObject(Object(7, 1), RemoveSlot), Objects(1)),
    (Insert(Object(7, 1)), True),
    (Take(Key(7), RemoveSlot), Values(&[2, 1])),
    (CountSlots, Slots(0)),
];

/// Steps on a duplicate bag: a key has equal objects too. Updates are refused.
const DUPLICATE_BAGS: [(Step, Answer); 14] = [
    (InsertTwo(Object(7, 1), Object(7, 2)), True),
    (Insert(Object(7, 1)), True),
    (Lookup(Key(7)), Values(&[1, 2, 1])),
    (CountObjects, Objects(3)),
    (UpdateCounter(Key(7), Incr(1)), Badarg),
    (DeleteObject(Object(7, 1), RemoveSlot), Objects(1)),
    (Lookup(Key(7)), Values(&[2])),
    (InsertTwo(Object(7, 5), Object(7, 6)), True),
    (InsertTwo(Object(7, 5), Object(7, 7)), True),
    (SelectDeleteBelow(6, LeaveTombstone), Deleted(3)),
    (Lookup(Key(7)), Values(&[6, 7])),
    (MatchDelete(Key(7), LeaveTombstone), Objects(0)),
    (CountSlots, Slots(1)),
    (Purge, Slots(0)),
];

/// Steps on a set of at most three objects. Those that would exceed the limit are refused with `system_limit`. A
/// tombstone does not count as an object.
const LIMITS: [(Step, Answer); 15] = [
    (InsertTwo(Object(1, 1), Object(2, 1)), True),
    (InsertTwo(Object(3, 1), Object(4, 1)), SystemLimit),
    (CountObjects, Objects(2)),
    (InsertTwo(Object(3, 1), Object(1, 2)), True),
    (Insert(Object(4, 1)), SystemLimit),
    (InsertNew(Object(4, 1)), SystemLimit),
    (InsertNew(Object(1, 1)), False),
    (UpdateCounterFrom(Key(4), Incr(1), Start(1)), SystemLimit),
    (UpdateCounterFrom(Key(1), Incr(1), Start(1)), Int(3)),
    (Insert(Object(3, 9)), True),
    (Delete(Key(1), LeaveTombstone), Objects(2)),
    (UpdateCounterFrom(Key(4), Incr(1), Start(1)), Int(2)),
    (Insert(Object(1, 1)), SystemLimit),
    (Lookup(Key(4)), Values(&[2])),
    (CountSlots, Slots(4)),
];

/// Steps that update counters and elements of a set.
const UPDATES: [(Step, Answer); 16] = [
    (Insert(Object(7, 5)), True),
    (UpdateCounter(Key(7), Incr(3)), Int(8)),
    (Lookup(Key(7)), Values(&[8])),
    (UpdateCounter(Key(8), Incr(3)), Badarg),
    (UpdateCounterFrom(Key(8), Incr(3), Start(4)), Int(7)),
    (UpdateCounterFrom(Key(8), Incr(1), Start(4)), Int(8)),
    (UpdateElement(Key(8), Value(2)), True),
    (UpdateElement(Key(9), Value(2)), False),
    (Lookup(Key(8)), Values(&[2])),
    (CountObjects, Objects(2)),
    (Insert(Object(7, Integer::MAX)), True),
    (UpdateCounter(Key(7), Incr(1)), SystemLimit),
    (Lookup(Key(7)), OneValue(Integer::MAX)),
    (Delete(Key(7), LeaveTombstone), Objects(1)),
    (UpdateCounterFrom(Key(7), Incr(1), Start(0)), Int(1)),
    (CountSlots, Slots(2)),
];

/// Steps that search and delete by a pattern or a match specification, in a set. The keys 7 to 10 have the values 1 to
/// 4.
const QUERIES: [(Step, Answer); 16] = [
    (Match(Key(7)), Matched(0)),
    (InsertTwo(Object(7, 1), Object(8, 2)), True),
    (InsertTwo(Object(9, 3), Object(10, 4)), True),
    (Match(Key(7)), Matched(1)),
    (Match(Key(11)), Matched(0)),
    (SelectBelow(3), Selected(2)),
    (SelectDeleteBelow(3, LeaveTombstone), Deleted(2)),
    (CountSlots, Slots(4)),
    (SelectBelow(9), Selected(2)),
    (MatchDelete(Key(7), LeaveTombstone), Objects(2)),
    (MatchDelete(Key(9), RemoveSlot), Objects(1)),
    (CountSlots, Slots(3)),
    (Lookup(Key(10)), Values(&[4])),
    (SelectDeleteBelow(9, RemoveSlot), Deleted(1)),
    (CountSlots, Slots(2)),
    (Purge, Slots(0)),
];

/// Each table with its steps.
const SCENARIOS: [Scenario; 6] = [
    (Kind::Set, Keypos(1), MaxObjects(10), &SETS),
    (Kind::Bag, Keypos(1), MaxObjects(10), &BAGS),
    (
        Kind::DuplicateBag,
        Keypos(1),
        MaxObjects(10),
        &DUPLICATE_BAGS,
    ),
    (Kind::Set, Keypos(1), MaxObjects(3), &LIMITS),
    (Kind::Set, Keypos(1), MaxObjects(10), &UPDATES),
    (Kind::Set, Keypos(1), MaxObjects(10), &QUERIES),
];

#[test]
fn calls_answer_and_refuse(rt: HostRuntime) {
    assert_eq!(rt; first_mismatch(rt.alloc(), &SCENARIOS), None);
}
