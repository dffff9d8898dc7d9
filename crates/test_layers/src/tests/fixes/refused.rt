//! Calls of a table with fixes that run out of memory. `.ci/refusals` runs these tests with each allocation refused in
//! turn.
// A call that ran out of memory must change nothing: no key, no order, no fix. Its retry must have the answer that it
// has with enough memory.
use super::answers::Expected::{Done, IsFixed, IsNotFixed, NotDone, Objects, Refused};
use super::answers::Step::{
    AllObjects, Delete, DeleteObject, Fix, Grow, Insert, InsertNew, LookupSecond, Ready, Release,
    Take,
};
use super::answers::{OUT_OF_MEMORY, answer_code, has_wanted_answer, integer_or_zero};
use super::*;

/// The factor of the digest of the previous keys: a prime, so that another order gives another digest.
const KEY_FACTOR: Integer = 1_000_003;

/// A number greater than the number of objects of any key in these tests, so that `Key * COUNT_LIMIT + Count` is
/// unique.
const COUNT_LIMIT: Integer = 16;

/// Returns a digest with a key and the number of its objects added.
fn mix_key<R: Rows>(table: &Walked<R>, digest: Integer, key: &Term) -> Integer {
    let number = integer_or_zero(key);
    let objects = table.lookup(key).len() as Integer;
    digest
        .wrapping_mul(KEY_FACTOR)
        .wrapping_add(number.wrapping_mul(COUNT_LIMIT).wrapping_add(objects))
}

/// Returns a digest of all keys of a traversal, in their order, with their numbers of objects. There are at most as
/// many keys as slots, which bounds the loop.
fn traversal_digest<R: Rows>(table: &Walked<R>) -> Integer {
    let mut digest = 1;
    let mut found = table.first();
    for _ in 0..table.slots() {
        let Some(found_key) = found else { break };
        let key = Term::Int(found_key.as_integer().unwrap_or(0));
        digest = mix_key(table, digest, &key);
        found = table.next(&key).unwrap_or(None);
        drop(key);
    }
    digest
}

/// Returns what a caller can see of a table: a digest of its keys in order, its number of objects, its number of
/// buckets, and whether it is fixed.
fn visible_state<R: Rows>(table: &Walked<R>) -> (Integer, usize, u32, bool) {
    (
        traversal_digest(table),
        table.size(),
        table.buckets(),
        table.is_fixed(),
    )
}

/// Returns whether a call has the wanted answer. If it is refused memory, it must change nothing, and its retry must
/// have the wanted answer.
fn has_wanted_answer_with_retry<R: Rows>(
    alloc: Global,
    table: &mut Walked<R>,
    step: Step,
    wanted: Expected,
) -> bool {
    let before = visible_state(table);
    let first = answer_code(alloc, table, step);
    if first != OUT_OF_MEMORY {
        return first == wanted.code();
    }
    visible_state(table) == before && has_wanted_answer(alloc, table, step, wanted)
}

/// Returns whether each call has the wanted answer. Retries a call once if memory is refused.
pub(super) fn have_wanted_answers_with_retry<R: Rows>(
    alloc: Global,
    table: &mut Walked<R>,
    steps: &[(Step, Expected)],
) -> bool {
    for (step, wanted) in steps {
        if !has_wanted_answer_with_retry(alloc, table, *step, *wanted) {
            return false;
        }
    }
    true
}

/// Each row is a call on a bag, and its answer: from the first insertion to calls after the last release. An object has
/// a key and a value.
const BAG_CALLS: [(Step, Expected); 24] = [
    (Insert(Object(1, 1)), Done),
    (Insert(Object(1, 2)), Done),
    (Insert(Object(2, 3)), Done),
    (Fix(Pid(0)), Done),
    (Fix(Pid(0)), Done),
    (Fix(Pid(1)), Done),
    (Delete(Key(2)), Done),
    (Insert(Object(3, 4)), Done),
    (Insert(Object(2, 5)), Done),
    (InsertNew(Object(4, 6)), Done),
    (InsertNew(Object(4, 7)), NotDone),
    (Insert(Object(5, 8)), Done),
    (Insert(Object(6, 9)), Done),
    (Take(Key(1)), Objects(2)),
    (LookupSecond(Key(7)), Refused),
    (AllObjects, Objects(5)),
    (DeleteObject(Object(3, 4)), Done),
    (Release(Pid(0)), IsFixed),
    (Fix(Pid(2)), Done),
    (Release(Pid(0)), IsFixed),
    (Release(Pid(1)), IsFixed),
    (Release(Pid(2)), IsNotFixed),
    (Insert(Object(3, 1)), Done),
    (AllObjects, Objects(5)),
];

/// Each row is a step on a fixed table with two buckets, and its answer. The buckets double twice.
const GROWTH_CALLS: [(Step, Expected); 8] = [
    (Fix(Pid(0)), Done),
    (Ready, Done),
    (Grow, Done),
    (Ready, Done),
    (Insert(Object(7, 1)), Done),
    (Ready, Done),
    (Grow, Done),
    (Ready, Done),
];

#[test]
fn a_retried_call_over_plain_rows_has_the_expected_answer(rt: HostRuntime) {
    assert_eq!(rt;
        plain_rows_pass(rt.alloc(), Kind::Bag, Check::Refusals(&BAG_CALLS, &[])),
        Some(true)
    );
}

/// Builds a table with one hash for all keys. Retries once if memory is refused.
fn one_bucket_table_with_retry(alloc: Global, kind: Kind) -> Option<Walked<SplitRows<AllSame>>> {
    match one_bucket_table(alloc, kind) {
        Some(table) => Some(table),
        None => one_bucket_table(alloc, kind),
    }
}

/// Returns whether `BAG_CALLS` and then `GROWTH_CALLS` have their answers on a bag over split rows.
fn are_answered_over_split_rows(alloc: Global) -> Option<bool> {
    let table = one_bucket_table_with_retry(alloc, Kind::Bag)?;
    table_passes_then_drop(alloc, table, Check::Refusals(&BAG_CALLS, &GROWTH_CALLS))
}

#[test]
fn a_retried_call_over_split_rows_has_the_expected_answer(rt: HostRuntime) {
    assert_eq!(rt; are_answered_over_split_rows(rt.alloc()), Some(true));
}
