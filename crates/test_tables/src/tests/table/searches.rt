//! How many objects a search tests, as `Looks` counts them. It tests those of its bound key, which every matching
//! object has, or all if it binds no key.
// The objects are `{Key,0}` for the keys 1 to 1,000.
use super::checks::{Check, plain_table_passes, split_table_passes};
use super::deletions::deletions_are_right;
use super::single_calls::{count_matches, count_of, insert, insert_all};
use super::terms::{pattern_of_key, pattern_of_value, spec_of_keys, tuple, tuples};
use super::{EmptyTable, Keypos, MaxObjects};
use bucket_table::Rows;
use ets_term::{Fnv, Integer, Term};
use match_spec::{Pattern, Spec};
use std::alloc::Global;
use std::process::Abort;
use table_ops::{Kind, Looks, Table};

/// How many objects a call finds.
#[derive(Clone, Copy, PartialEq, Eq)]
pub struct Found(pub usize);

/// How many objects the calls of a search test in all.
#[derive(Clone, Copy, PartialEq, Eq)]
pub struct Tested(pub u64);

/// A key that no object has.
pub const MISSING: Integer = 2_000;

/// How many objects each of two calls finds, and how many both test in all. `None` means out of memory.
pub type Search = Option<(Found, Found, Tested)>;

/// Returns the result of two calls that find this many objects each.
pub fn both_find(found: Found, tested: Tested) -> Search {
    Some((found, found, tested))
}

/// Inserts the objects `{Key,0}` of the keys 1 to 1,000. `None` means out of memory.
fn fill_with_keys<R: Rows>(alloc: Global, table: &mut Table<R>) -> Option<()> {
    for key in 1..1_001u32 {
        insert(table, tuple(alloc, &[Integer::from(key), 0]))?;
    }
    Some(())
}

/// Searches by `select` and `select_count` with a match specification.
fn select_by_spec<R: Rows>(table: &Table<R>, spec: &Spec) -> Search {
    let mut looks = Looks::new();
    let results = count_of(table.select_counted(spec, &mut looks).ok())?;
    let count = table.select_count_counted(spec, &mut looks).ok()?;
    Some((Found(results), Found(count), Tested(looks.count())))
}

/// Searches by a match specification with a clause for each key.
pub fn select_by_keys<R: Rows>(alloc: Global, table: &Table<R>, keys: &[Integer]) -> Search {
    let spec = spec_of_keys(alloc, keys)?;
    let found = select_by_spec(table, &spec);
    drop(spec);
    found
}

/// Searches by `match` and `match_object` with a pattern, if it was compiled, and drops the pattern.
fn match_by_pattern<R: Rows>(table: &Table<R>, compiled: Option<Pattern>) -> Search {
    let pattern = compiled?;
    let found = count_matches(table, &pattern);
    drop(pattern);
    let (bindings, objects, looks) = found?;
    Some((Found(bindings), Found(objects), Tested(looks)))
}

/// What a pattern binds of a pair: `{Key,'$1'}` or `{'$1',Value}`.
#[derive(Clone, Copy)]
enum Bound {
    Key(Integer),
    Value(Integer),
}

/// Searches by `match` and `match_object` with a pattern that binds a key or a value.
fn match_bound<R: Rows>(alloc: Global, table: &Table<R>, bound: Bound) -> Search {
    let compiled = match bound {
        Bound::Key(key) => pattern_of_key(alloc, key),
        Bound::Value(value) => pattern_of_value(alloc, value),
    };
    match_by_pattern(table, compiled)
}

/// Columns: what a pattern binds, how many objects each of two calls finds, and how many both test. With a bound key
/// they test the objects of the key, else all.
const MATCHES: [(Bound, Found, Tested); 4] = [
    (Bound::Key(7), Found(1), Tested(2)),
    (Bound::Key(MISSING), Found(0), Tested(0)),
    (Bound::Value(7), Found(0), Tested(2_000)),
    (Bound::Value(0), Found(1_000), Tested(2_000)),
];

/// Returns whether each pattern finds and tests as many objects as it must.
fn matches_are_right<R: Rows>(
    alloc: Global,
    table: &Table<R>,
    wanted: &[(Bound, Found, Tested)],
) -> bool {
    for (bound, found, tested) in wanted {
        if match_bound(alloc, table, *bound) != both_find(*found, *tested) {
            return false;
        }
    }
    true
}

/// Returns whether the answer of `match`, a list of bindings, is `[[0]]`.
fn is_one_zero(bindings: &[Term]) -> bool {
    match bindings {
        [Term::List(bound)] => matches!(bound.as_slice(), [Term::Int(0)]),
        _ => false,
    }
}

/// Returns whether `match` of `{7,'$1'}` answers `[[0]]`. `None` means out of memory.
fn answers_bindings<R: Rows>(alloc: Global, table: &Table<R>) -> Option<bool> {
    let pattern = pattern_of_key(alloc, 7)?;
    let found = table.matches(&pattern);
    drop(pattern);
    let bindings = found.ok()?;
    let same = is_one_zero(bindings.as_slice());
    drop(bindings);
    Some(same)
}

/// Columns: the keys of the clauses, how many objects each of two calls finds, and how many both test. Clauses of one
/// key test its objects, and clauses of different keys all objects.
const SELECTIONS: [(&[Integer], Found, Tested); 5] = [
    (&[7], Found(1), Tested(2)),
    (&[7, 7], Found(1), Tested(2)),
    (&[7, 8], Found(2), Tested(2_000)),
    (&[MISSING], Found(0), Tested(0)),
    (&[MISSING, 7], Found(1), Tested(2_000)),
];

/// Returns whether searches by the clauses of keys find and test as many objects as they must.
fn selects_are_right<R: Rows>(
    alloc: Global,
    table: &Table<R>,
    wanted: &[(&[Integer], Found, Tested)],
) -> bool {
    for (keys, found, tested) in wanted {
        if select_by_keys(alloc, table, keys) != both_find(*found, *tested) {
            return false;
        }
    }
    true
}

/// The objects `{Key,0}` of the key 7, three times, and of its neighbours 6 and 8.
const SEVEN_THRICE: [[Integer; 2]; 5] = [[6, 0], [7, 0], [7, 0], [7, 0], [8, 0]];

/// Returns whether a search tests each of three objects under one key of a duplicate bag. A search is two calls, so it
/// tests each object twice. A search by two keys tests all five objects. `None` means out of memory.
pub fn tests_each_of_three<R: Rows>(alloc: Global, table: &mut Table<R>) -> Option<bool> {
    insert_all(table, tuples(alloc, &SEVEN_THRICE))?;
    let one_right = match_bound(alloc, table, Bound::Key(7)) == both_find(Found(3), Tested(6));
    let two_right = select_by_keys(alloc, table, &[7, 6]) == both_find(Found(4), Tested(10));
    Some(one_right && two_right)
}

/// Fills a set, and returns whether each search and each deletion finds and tests as many objects as it must. `None`
/// means out of memory.
pub fn searches_are_right<R: Rows>(alloc: Global, table: &mut Table<R>) -> Option<bool> {
    fill_with_keys(alloc, table)?;
    let bindings_right = answers_bindings(alloc, table)?;
    let matches_right = matches_are_right(alloc, table, &MATCHES);
    let selects_right = selects_are_right(alloc, table, &SELECTIONS);
    Some(bindings_right && matches_right && selects_right && deletions_are_right(alloc, table))
}

/// Searches and deletes in sets by keys.
#[test]
fn a_search_by_a_bound_key_tests_only_its_objects(rt: HostRuntime) {
    let set = EmptyTable(Kind::Set, Keypos(1), MaxObjects(1_000));
    assert!(rt; plain_table_passes(rt.alloc(), set, Check::SearchByKeys) == Some(true));
    assert!(rt; split_table_passes(rt.alloc(), Fnv, set, Check::SearchByKeys) == Some(true));
}

/// Searches duplicate bags by a key with three objects.
#[test]
fn a_search_of_a_bag_tests_each_object_of_its_key(rt: HostRuntime) {
    let bag = EmptyTable(Kind::DuplicateBag, Keypos(1), MaxObjects(10));
    assert!(rt; plain_table_passes(rt.alloc(), bag, Check::TestEachOfThree) == Some(true));
    assert!(rt; split_table_passes(rt.alloc(), Fnv, bag, Check::TestEachOfThree) == Some(true));
}
