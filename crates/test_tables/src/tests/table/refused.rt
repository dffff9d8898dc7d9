//! Steps on a table that run out of memory: `.ci/refusals` runs these tests with each allocation refused in turn. The
//! count of objects that searches test, their *looks*, must never fall then.
// A step that is refused memory must change nothing, and must have the answer of ample memory when it is run again. If
// the refused allocation is one of the test itself, the test makes it again.
use super::Emptied::{LeaveTombstone, RemoveSlot};
use super::Step::{
    CountSlots, DeleteAll, DeleteObject, Grow, Insert, InsertDeep, InsertNew, InsertNewDeep,
    InsertTwo, Lookup, LookupElement, Match, MatchDelete, Purge, SelectBelow, SelectDeleteBelow,
    Take, UpdateCounter, UpdateCounterFrom, UpdateElement,
};
use super::answers::Answer::{
    self, Deleted, False, Int, ListOfLength, Matched, Objects, Selected, Slots, True, Values,
};
use super::checks::{Check, plain_table_passes, split_table_passes};
use super::single_calls::{count_of, hash_of_objects};
use super::terms::{pattern_of_key, spec_below};
use super::{
    Depth, EmptyTable, Incr, Key, Keypos, MaxObjects, OUT_OF_MEMORY, Object, Pos, Start, Step,
    Value, answer_code,
};
use bucket_table::Rows;
use ets_term::{AllSame, Fnv, Integer};
use match_spec::{Pattern, Spec};
use std::alloc::Global;
use std::process::Abort;
use table_ops::{Kind, Looks, Table};

/// Steps on a set, each with its answer when memory suffices.
const SET_STEPS: [(Step, Answer); 26] = [
    (InsertTwo(Object(1, 1), Object(2, 2)), True),
    (InsertTwo(Object(3, 3), Object(1, 4)), True),
    (InsertNew(Object(1, 5)), False),
    (InsertNew(Object(4, 5)), True),
    (InsertDeep(Key(5), Depth(3)), True),
    (InsertNewDeep(Key(6), Depth(3)), True),
    (Grow, True),
    (Grow, True),
    (Insert(Object(7, 6)), True),
    (Insert(Object(7, 7)), True),
    (Lookup(Key(7)), Values(&[7])),
    (LookupElement(Key(7), Pos(2)), Int(7)),
    (UpdateCounter(Key(7), Incr(1)), Int(8)),
    (UpdateCounterFrom(Key(8), Incr(1), Start(1)), Int(2)),
    (UpdateElement(Key(8), Value(3)), True),
    (Match(Key(8)), Matched(1)),
    (SelectBelow(9), Selected(6)),
    (Take(Key(8), LeaveTombstone), Values(&[3])),
    (UpdateCounterFrom(Key(8), Incr(1), Start(4)), Int(5)),
    (MatchDelete(Key(8), LeaveTombstone), Objects(7)),
    (SelectDeleteBelow(4, LeaveTombstone), Deleted(2)),
    (CountSlots, Slots(8)),
    (Insert(Object(8, 9)), True),
    (DeleteObject(Object(8, 9), RemoveSlot), Objects(5)),
    (Purge, Slots(5)),
    (DeleteAll(RemoveSlot), Slots(0)),
];

/// Steps on a bag, each with its answer when memory suffices.
const BAG_STEPS: [(Step, Answer); 10] = [
    (InsertTwo(Object(1, 1), Object(1, 2)), True),
    (InsertTwo(Object(1, 1), Object(1, 3)), True),
    (Insert(Object(1, 4)), True),
    (InsertNew(Object(2, 5)), True),
    (LookupElement(Key(1), Pos(2)), ListOfLength(4)),
    (Match(Key(1)), Matched(4)),
    (SelectDeleteBelow(3, RemoveSlot), Deleted(2)),
    (Lookup(Key(1)), Values(&[3, 4])),
    (Take(Key(1), RemoveSlot), Values(&[3, 4])),
    (Lookup(Key(2)), Values(&[5])),
];

/// Returns a hash of the objects of a table, and how many objects and slots it has. `None` means that memory ran out
/// twice.
fn state_of_table<R: Rows>(table: &Table<R>) -> Option<(Integer, usize, usize)> {
    let objects = hash_of_objects(table).or_else(|| hash_of_objects(table))?;
    Some((objects, table.size(), table.slots()))
}

/// Runs a step, and returns whether it has its answer. If the step is refused memory, it must change nothing, and is
/// run a second time.
fn answers_with_retry<R: Rows>(
    alloc: Global,
    table: &mut Table<R>,
    step: Step,
    wanted: Answer,
) -> bool {
    let before = state_of_table(table);
    let first = answer_code(alloc, table, step);
    if first != OUT_OF_MEMORY {
        return first == wanted.code();
    }
    state_of_table(table) == before && answer_code(alloc, table, step) == wanted.code()
}

/// Runs steps in order, and a step a second time if it is refused memory. Returns whether each has its answer.
pub fn steps_have_answers_with_retry<R: Rows>(
    alloc: Global,
    table: &mut Table<R>,
    steps: &[(Step, Answer)],
) -> bool {
    for (step, wanted) in steps {
        if !answers_with_retry(alloc, table, *step, *wanted) {
            return false;
        }
    }
    true
}

/// A set of at most nine objects.
const SET: EmptyTable = EmptyTable(Kind::Set, Keypos(1), MaxObjects(9));

/// A bag of at most nine objects.
const BAG: EmptyTable = EmptyTable(Kind::Bag, Keypos(1), MaxObjects(9));

#[test]
fn refused_steps_on_plain_rows_answer_when_repeated(rt: HostRuntime) {
    let alloc = rt.alloc();
    assert!(rt; plain_table_passes(alloc, SET, Check::AnswerWithRetry(&SET_STEPS)) == Some(true));
    assert!(rt; plain_table_passes(alloc, BAG, Check::AnswerWithRetry(&BAG_STEPS)) == Some(true));
}

#[test]
fn refused_steps_on_split_rows_answer_when_repeated(rt: HostRuntime) {
    let alloc = rt.alloc();
    let set_steps = Check::AnswerWithRetry(&SET_STEPS);
    let bag_steps = Check::AnswerWithRetry(&BAG_STEPS);
    assert!(rt; split_table_passes(alloc, Fnv, SET, set_steps) == Some(true));
    assert!(rt; split_table_passes(alloc, AllSame, BAG, bag_steps) == Some(true));
}

/// Runs the six searches that count tested objects, of which the last two delete and leave no tombstones (`false`).
/// Returns whether none of them lowers the count, also when memory runs out.
fn searches_never_lower_looks<R: Rows>(
    table: &mut Table<R>,
    pattern: &Pattern,
    spec: &Spec,
    looks: &mut Looks,
) -> bool {
    // `start` is the count before the searches, and the others are the counts after each search.
    let start = looks.count();
    let _ = count_of(table.matches_counted(pattern, looks).ok());
    let first = looks.count();
    let _ = count_of(table.match_objects_counted(pattern, looks).ok());
    let second = looks.count();
    let _ = count_of(table.select_counted(spec, looks).ok());
    let third = looks.count();
    let _ = table.select_count_counted(spec, looks);
    let fourth = looks.count();
    let _ = table.match_delete_counted(pattern, false, looks);
    let fifth = looks.count();
    let _ = table.select_delete_counted(spec, false, looks);
    let first_three = start <= first && first <= second && second <= third;
    first_three && third <= fourth && fourth <= fifth && fifth <= looks.count()
}

/// Runs searches by a pattern, and by the match specification that chooses the objects whose second element is less
/// than `limit`. Returns whether no search lowers the count of tested objects. `None` means that memory ran out while
/// the match specification was built.
fn looks_never_fall_for_pattern<R: Rows>(
    alloc: Global,
    table: &mut Table<R>,
    pattern: &Pattern,
    limit: Integer,
) -> Option<bool> {
    let spec = spec_below(alloc, limit)?;
    let mut looks = Looks::new();
    // A search before the others, so that the count does not start at 0.
    let _ = count_of(table.matches_counted(pattern, &mut looks).ok());
    let never_falls = searches_never_lower_looks(table, pattern, &spec, &mut looks);
    drop(spec);
    Some(never_falls)
}

/// Runs searches by the pattern of a key, and by the match specification that chooses the objects whose second element
/// is less than the key. Returns whether no search lowers the count of tested objects. `None` means that memory ran out
/// while the pattern or the match specification was built.
fn looks_never_fall_for_key<R: Rows>(
    alloc: Global,
    table: &mut Table<R>,
    key: Integer,
) -> Option<bool> {
    let pattern = pattern_of_key(alloc, key)?;
    let never_falls = looks_never_fall_for_pattern(alloc, table, &pattern, key);
    drop(pattern);
    never_falls
}

/// Inserts four objects into a table, or fewer if memory runs out. Returns whether no search lowers the count of tested
/// objects. If memory runs out when the test builds its pattern or match specification, searches nothing and returns
/// `true`.
pub fn looks_never_fall<R: Rows>(alloc: Global, table: &mut Table<R>) -> bool {
    for key in 1..5u32 {
        let key = Integer::from(key);
        let _ = answer_code(alloc, table, Insert(Object(key, key)));
    }
    looks_never_fall_for_key(alloc, table, 4).unwrap_or(true)
}

#[test]
fn looks_never_fall_when_memory_runs_out(rt: HostRuntime) {
    assert!(rt; plain_table_passes(rt.alloc(), SET, Check::NeverLowerLooks) == Some(true));
}
