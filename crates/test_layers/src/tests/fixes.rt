//! Tests of a `Walked`, a table with fixes (`safe_fixtable`): its calls, its tombstones and its traversals. Most run
//! over plain rows and over split rows.
// Expected answers are from the rules of `ets`. `None` means out of memory, unless a comment says otherwise.
use self::answers::{Expected, Step, try_insert};
use super::keep_if_some;
use bucket_table::{KeyRef, PlainRows, Rows, SplitRows};
use ets_term::{AllSame, Fnv, Integer, Items, Term};
use fixed_walk::{Badarg, Walked};
use std::alloc::Global;
use std::process::Abort;
use table_ops::{Kind, Table};

// Calls as data, and their answers as numbers.
mod answers;
// Each call on many keys.
mod calls;
// Calls that take no memory.
mod free;
// Calls that run out of memory.
mod refused;
// Deleted keys of a fixed table.
mod tombstones;
// Traversals among changes by other processes.
mod walks;

/// The most objects that a table may have: more than any test inserts.
const MAX_OBJECTS: u32 = 1_000_000;

/// The number of buckets from which on `grow` no longer doubles them: about the number of keys of the largest tests.
const MAX_BUCKETS: u32 = 4096;

/// Builds a table over plain rows, with keypos 1: all slots are in one bucket, in the order of insertion.
fn plain_table(alloc: Global, kind: Kind) -> Walked<PlainRows> {
    let table = Table::new(alloc, PlainRows::new(alloc), kind, 1, MAX_OBJECTS);
    Walked::new(alloc, table)
}

/// Builds a table over split rows, with keypos 1 and one hash for all keys. Its slots are in the order of insertion,
/// until the place of a removed slot is used again.
fn one_bucket_table(alloc: Global, kind: Kind) -> Option<Walked<SplitRows<AllSame>>> {
    let table = Table::new(
        alloc,
        SplitRows::new(alloc, AllSame).ok()?,
        kind,
        1,
        MAX_OBJECTS,
    );
    Some(Walked::new(alloc, table))
}

/// Builds a table over split rows, with keypos 1 and keys hashed by FNV-1a.
fn split_table(alloc: Global, kind: Kind) -> Option<Walked<SplitRows<Fnv>>> {
    let table = Table::new(
        alloc,
        SplitRows::new(alloc, Fnv).ok()?,
        kind,
        1,
        MAX_OBJECTS,
    );
    Some(Walked::new(alloc, table))
}

/// The object `{Key,Value}` of a call.
#[derive(Clone, Copy)]
struct Object(Integer, Integer);

/// The key that a call names.
#[derive(Clone, Copy)]
struct Key(Integer);

/// The process that makes a call.
#[derive(Clone, Copy)]
struct Pid(u32);

/// Builds the object `{Key,Value}`.
fn build_object(alloc: Global, key: Integer, value: Integer) -> Option<Term> {
    let mut items = Items::new(alloc);
    Some(Term::Tuple(keep_if_some(push_key_and_value(&mut items, key, value), items)?))
}

/// Pushes the two elements of an object.
fn push_key_and_value(items: &mut Items<Term>, key: Integer, value: Integer) -> Option<()> {
    items.push(Term::Int(key)).ok()?;
    items.push(Term::Int(value)).ok()
}

/// Inserts the object `{Key,Value}`. Returns whether the object was built and the call succeeded.
fn insert<R: Rows>(alloc: Global, table: &mut Walked<R>, key: Integer, value: Integer) -> bool {
    try_insert(table, build_object(alloc, key, value)) == Expected::Done.code()
}

/// Deletes all objects of a key.
fn delete<R: Rows>(table: &mut Walked<R>, key: Integer) {
    let key = Term::Int(key);
    table.delete_key(&key);
    drop(key);
}

/// Returns how many objects the key has.
fn count_of<R: Rows>(table: &Walked<R>, key: Integer) -> usize {
    let key = Term::Int(key);
    let count = table.lookup(&key).len();
    drop(key);
    count
}

/// Returns the key after this one in a traversal, or None at the end of the table. `Badarg` means that the key has no
/// slot.
fn key_after<R: Rows>(table: &Walked<R>, key: Integer) -> Result<Option<KeyRef<'_>>, Badarg> {
    let key = Term::Int(key);
    let found = table.next(&key);
    drop(key);
    found
}

/// Returns whether a traversal found the wanted key. A wanted key of None is the end of the table.
fn is_key(found: Option<KeyRef<'_>>, wanted: Option<Integer>) -> bool {
    match (found, wanted) {
        (Some(key), Some(number)) => key.as_integer() == Some(number),
        (None, None) => true,
        _ => false,
    }
}

/// Makes the first unready bucket ready. If all are ready, doubles the buckets unless there are `MAX_BUCKETS`. Returns
/// whether memory sufficed.
fn grow<R: Rows>(table: &mut Walked<R>) -> bool {
    match table.first_unready() {
        Some(bucket) => table.ready(bucket).is_ok(),
        None => table.buckets() >= MAX_BUCKETS || table.grow().is_ok(),
    }
}

/// What a test checks on a new table.
#[derive(Clone, Copy)]
enum Check {
    /// Each call on many keys, while the buckets double.
    AllCalls,
    /// A traversal and releases, which take no memory.
    TakesNoMemory,
    /// Calls that may be refused memory, with their answers. The second list is of calls on the table that the first
    /// list leaves.
    Refusals(&'static [(Step, Expected)], &'static [(Step, Expected)]),
    /// Calls on a table with tombstones, and what they answer and leave.
    Tombstones(&'static [tombstones::Row]),
    /// A traversal while other processes insert and delete these keys and grow the table. The table must then have more
    /// buckets than this number.
    Traversal(Keys, BucketsAbove),
}

/// The number of keys of a traversal. The keys are the numbers below it. The lower half of the keys has objects at the
/// start.
#[derive(Clone, Copy)]
struct Keys(u32);

/// A number of buckets: after a traversal the table must have more.
#[derive(Clone, Copy)]
struct BucketsAbove(u32);

/// Returns whether a new table passes a check. None means out of memory, or a traversal that fails.
fn table_passes<R: Rows>(alloc: Global, table: &mut Walked<R>, check: Check) -> Option<bool> {
    match check {
        Check::AllCalls => Some(calls::all_calls_succeed(alloc, table)),
        Check::TakesNoMemory => Some(free::takes_no_memory(alloc, table)),
        Check::Refusals(first, second) => Some(
            refused::have_wanted_answers_with_retry(alloc, table, first)
                && refused::have_wanted_answers_with_retry(alloc, table, second),
        ),
        Check::Tombstones(rows) => Some(tombstones::all_rows_hold(alloc, table, rows)),
        Check::Traversal(keys, buckets) => {
            let is_exact = walks::traverses_exactly(alloc, table, keys.0)?;
            Some(is_exact && table.buckets() > buckets.0)
        }
    }
}

/// Returns whether a new table passes a check, and drops it.
fn table_passes_then_drop<R: Rows>(alloc: Global, table: Walked<R>, check: Check) -> Option<bool> {
    let mut table = table;
    let passed = table_passes(alloc, &mut table, check);
    drop(table);
    passed
}

/// Returns whether a table over plain rows passes a check.
fn plain_rows_pass(alloc: Global, kind: Kind, check: Check) -> Option<bool> {
    table_passes_then_drop(alloc, plain_table(alloc, kind), check)
}

/// Returns whether a table over split rows, with keys hashed by FNV-1a, passes a check.
fn split_rows_pass(alloc: Global, kind: Kind, check: Check) -> Option<bool> {
    table_passes_then_drop(alloc, split_table(alloc, kind)?, check)
}

/// Returns whether a table over split rows, with one hash for all keys, passes a check.
fn one_bucket_passes(alloc: Global, kind: Kind, check: Check) -> Option<bool> {
    table_passes_then_drop(alloc, one_bucket_table(alloc, kind)?, check)
}
