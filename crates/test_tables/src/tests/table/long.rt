//! Long runs of steps. Pseudo-random steps have the same answers over plain rows and over split rows, and a table that
//! grows to 10,000 objects has the expected answers.
use super::Emptied::{LeaveTombstone, RemoveSlot};
use super::Step::{
    CountObjects, CountSlots, Delete, DeleteObject, Grow, Insert, InsertNew, InsertTwo,
    LookupElement, Match, MatchDelete, SelectBelow, SelectDeleteBelow, Take, UpdateCounter,
    UpdateCounterFrom, UpdateElement,
};
use super::answers::Answer::{
    Deleted, False, Int, Matched, Objects, OneValue, Selected, Slots, True,
};
use super::checks::{Check, plain_table_passes, split_table_passes};
use super::{
    EmptyTable, Incr, Key, Keypos, MaxObjects, Object, Pos, Start, Step, Value, answer_code,
    plain_table, step_has_answer, steps_have_answers,
};
use bucket_table::Rows;
use ets_term::{AllSame, Fnv, Integer};
use std::alloc::Global;
use std::process::Abort;
use table_ops::{Kind, Table};

/// The number of steps on two tables whose answers are compared.
const CALLS: u32 = 10_000;

/// The number of objects of a table that grows object by object.
const OBJECTS: u32 = 10_000;

/// More objects than any table here has.
const MAX_OBJECTS: MaxObjects = MaxObjects(1_000_000);

/// The factor of Knuth's multiplicative hash: a prime near 2^32 divided by the golden ratio. It spreads consecutive
/// numbers.
const SPREAD: u32 = 2_654_435_761;

/// The steps use the keys below this number.
const KEYS: Integer = 97;

/// The steps use the values below this number.
const VALUES: Integer = 10;

/// Returns the step on one key that a number chooses. The five highest bits of the spread number choose the kind of the
/// step, the 16 highest its key, and the 24 highest its value. In the first 16 of each 64 numbers, deletions leave
/// tombstones.
fn step_on_key_at(number: u32) -> Step {
    let spread = number.wrapping_mul(SPREAD);
    let key = (spread >> 16) as Integer % KEYS;
    let value = (spread >> 8) as Integer % VALUES;
    let emptied = if number % 64 < 16 {
        LeaveTombstone
    } else {
        RemoveSlot
    };
    match spread >> 27 {
        0 | 1 | 2 | 3 | 4 | 5 | 6 | 7 => Step::Insert(Object(key, value)),
        8 | 9 => Step::InsertTwo(Object(key, value), Object(value, key)),
        10 | 11 => Step::InsertNew(Object(key, value)),
        12 | 13 => Step::Delete(Key(key), emptied),
        14 => Step::Take(Key(key), emptied),
        15 => Step::DeleteObject(Object(key, value), emptied),
        16 | 17 => Step::UpdateCounter(Key(key), Incr(value)),
        18 | 19 => Step::UpdateCounterFrom(Key(key), Incr(value), Start(value)),
        20 => Step::UpdateElement(Key(key), Value(value)),
        21 => Step::Match(Key(key)),
        22 => Step::LookupElement(Key(key), Pos(2)),
        23 => Step::MatchDelete(Key(key), emptied),
        24 => Step::CountObjects,
        25 => Step::CountSlots,
        26 => Step::Grow,
        _ => Step::Lookup(Key(key)),
    }
}

/// Returns the step that a number chooses: for four of each 1024 numbers a step on the whole table, and else the step
/// of `step_on_key_at`. The four are rare because they take long, and far apart so that the table fills between them.
/// Each second deletion of objects leaves tombstones. 7 and 3 do not divide 1024, so that the bounds of the values
/// differ.
fn step_at(number: u32) -> Step {
    match number % 1024 {
        0 => Step::AllObjects,
        256 => Step::SelectBelow((number % 7) as Integer),
        512 => {
            let emptied = if number % 2048 < 1024 {
                LeaveTombstone
            } else {
                RemoveSlot
            };
            Step::SelectDeleteBelow((number % 3) as Integer, emptied)
        }
        700 => Step::Purge,
        _ => step_on_key_at(number),
    }
}

/// Runs the same steps on two tables, and returns whether each has the same answer in both.
fn tables_answer_alike<A: Rows, B: Rows>(
    alloc: Global,
    first: &mut Table<A>,
    second: &mut Table<B>,
    steps: u32,
) -> bool {
    for number in 0..steps {
        let step = step_at(number);
        if answer_code(alloc, first, step) != answer_code(alloc, second, step) {
            return false;
        }
    }
    true
}

/// Returns whether a table answers `CALLS` steps as a table over plain rows does.
pub fn answers_as_plain_table<B: Rows>(alloc: Global, second: &mut Table<B>) -> bool {
    let mut first = plain_table(alloc, EmptyTable(second.kind(), Keypos(1), MAX_OBJECTS));
    let alike = tables_answer_alike(alloc, &mut first, second, CALLS);
    drop(first);
    alike
}

/// Returns whether tables of this kind over split rows answer as over plain rows, also if all keys share a hash.
fn all_rows_answer_alike(alloc: Global, kind: Kind) -> bool {
    let empty = EmptyTable(kind, Keypos(1), MAX_OBJECTS);
    split_table_passes(alloc, Fnv, empty, Check::AnswerAsPlainTable) == Some(true)
        && split_table_passes(alloc, AllSame, empty, Check::AnswerAsPlainTable) == Some(true)
}

#[test]
fn sets_answer_alike(rt: HostRuntime) {
    assert!(rt; all_rows_answer_alike(rt.alloc(), Kind::Set));
}

#[test]
fn bags_answer_alike(rt: HostRuntime) {
    assert!(rt; all_rows_answer_alike(rt.alloc(), Kind::Bag));
}

#[test]
fn duplicate_bags_answer_alike(rt: HostRuntime) {
    assert!(rt; all_rows_answer_alike(rt.alloc(), Kind::DuplicateBag));
}

/// One of this number of insertions is followed by a `Grow`. So the buckets double far more often than they fill.
const GROW_PERIOD: u32 = 8;

/// Inserts an object, and returns whether a table then answers as it must. To keep the test fast, it runs
/// `each_call_answers` only if the key is a power of two.
fn answers_at<R: Rows>(alloc: Global, table: &mut Table<R>, key: u32) -> bool {
    let number = key as Integer;
    step_has_answer(alloc, table, Insert(Object(number, 1)), True)
        && step_has_answer(alloc, table, CountObjects, Objects(number.wrapping_add(1)))
        && (key % GROW_PERIOD != 0 || step_has_answer(alloc, table, Grow, True))
        && (!key.is_power_of_two() || each_call_answers(alloc, table, number))
}

/// Inserts objects one by one, and deletes all at the end. Returns whether a table answers as it must.
pub fn answers_as_it_grows<R: Rows>(alloc: Global, table: &mut Table<R>) -> bool {
    for key in 0..OBJECTS {
        if !answers_at(alloc, table, key) {
            return false;
        }
    }
    // All values are 1, so this step deletes all objects.
    step_has_answer(
        alloc,
        table,
        SelectDeleteBelow(2, RemoveSlot),
        Deleted(OBJECTS as Integer),
    )
}

/// Returns whether each call answers as it must on a table of the keys 0 to `last`, each with the value 1. At the end
/// the table has the same objects.
fn each_call_answers<R: Rows>(alloc: Global, table: &mut Table<R>, last: Integer) -> bool {
    let count = last.wrapping_add(1);
    let rows = [
        (SelectBelow(2), Selected(count)),
        (SelectBelow(1), Selected(0)),
        (UpdateCounter(Key(last), Incr(4)), Int(5)),
        (UpdateElement(Key(last), Value(1)), True),
        (Match(Key(last)), Matched(1)),
        (LookupElement(Key(last), Pos(2)), Int(1)),
        (InsertNew(Object(last, 2)), False),
        (Take(Key(last), LeaveTombstone), OneValue(1)),
        (InsertNew(Object(last, 1)), True),
        (DeleteObject(Object(last, 1), LeaveTombstone), Objects(last)),
        (UpdateCounterFrom(Key(last), Incr(0), Start(1)), Int(1)),
        (Delete(Key(last), RemoveSlot), Objects(last)),
        (InsertTwo(Object(last, 2), Object(last, 1)), True),
        (MatchDelete(Key(last), RemoveSlot), Objects(last)),
        (Insert(Object(last, 1)), True),
        (CountSlots, Slots(count)),
    ];
    steps_have_answers(alloc, table, &rows)
}

#[test]
fn a_table_answers_as_it_fills_and_empties(rt: HostRuntime) {
    let set = EmptyTable(Kind::Set, Keypos(1), MAX_OBJECTS);
    assert!(rt; plain_table_passes(rt.alloc(), set, Check::AnswerAsItGrows) == Some(true));
    assert!(rt; split_table_passes(rt.alloc(), Fnv, set, Check::AnswerAsItGrows) == Some(true));
}
