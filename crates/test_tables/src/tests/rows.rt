//! Tests of rows: calls succeed at every size, which no contract promises, and searches in ready buckets visit few
//! nodes. Plain rows have one bucket; the buckets of split rows double, and each is ready once its dummy node is in the
//! list.
ghost use Rattle.std.specs.Prelude.{◌≡◌, ◌<◌, [], IfOk};

use bucket_table::{Growth, KeyRef, PlainRows, Readying, Rows, SlotEntry, SplitRows};
use ets_term::{AllSame, Fnv, Integer, KeyHash, Term};
use node_list::{Chain, Steps};
use packed_term::Object;
use std::alloc::{AllocError, Global};
use std::process::Abort;

// `calls`, `sweeps` and `traversals` compare random calls with a plain list. `several` puts three slots at once, and
// `sizes` many. `growth` doubles buckets and makes them ready. `searches` and `visits` count the nodes that searches
// visit. `free` has calls that take no memory, and `refused` calls that run out of it. `checks` creates the rows for
// most of these, with hashers of `hashes`.
mod calls;
mod checks;
mod free;
mod growth;
mod hashes;
mod refused;
mod searches;
mod several;
mod sizes;
mod sweeps;
mod traversals;
mod visits;

use self::hashes::{Even, Greatest, PidNumber};

/// The first state of the generator `Draws`. Any number would do.
const SEED: u64 = 20_261_122;

/// The multiplier of Knuth's linear congruential generator, MMIX.
const MULTIPLIER: u64 = 6_364_136_223_846_793_005;

/// The increment of the same generator.
const INCREMENT: u64 = 1_442_695_040_888_963_407;

/// Pseudo-random numbers, the same in each run.
#[derive(Drop)]
struct Draws {
    state: u64,
}

impl Draws {
    /// Starts the generator at the seed.
    fn new() -> Draws {
        Draws { state: SEED }
    }

    /// Advances the generator, and returns a number below the bound.
    fn random_below(&mut self, bound: u32) -> u32
        requires { 0 < bound }
    {
        self.state = self.state.wrapping_mul(MULTIPLIER).wrapping_add(INCREMENT);
        // The low bits of such a generator repeat soon, so the high ones are used.
        ((self.state >> 33) % (bound as u64)) as u32
    }
}

/// Creates split rows. Tries a second time if memory runs out, because `.ci/refusals` refuses one allocation in each
/// run.
pub fn new_rows_with_retry<H: KeyHash + Copy + Drop>(
    alloc: Global,
    hasher: H,
) -> Result<SplitRows<H>, AllocError>
    ensures { IfOk result (λ rows. rows.slots ≡ []) }
{
    match SplitRows::new(alloc, hasher) {
        Ok(rows) => Ok(rows),
        Err(_) => SplitRows::new(alloc, hasher),
    }
}

/// What rows have under a key: no slot, a tombstone, or a slot whose only object is this integer.
#[derive(Clone, Copy, PartialEq, Eq)]
enum KeyState {
    Nothing,
    Tombstone,
    Object(Integer),
}

/// Returns the state of a slot with these objects: the first object, which is an integer here, or a tombstone if there
/// is no object.
fn state_of_objects(objects: &[Object]) -> KeyState {
    match objects.first() {
        Some(object) => KeyState::Object(object.as_integer().unwrap_or(0)),
        None => KeyState::Tombstone,
    }
}

/// Returns the object that is an integer. The integers of these tests fit 64 bits; a greater one becomes 0.
fn object_of(number: Integer) -> Object {
    match i64::try_from(number) {
        Ok(number) => Object::from(number),
        Err(_) => Object::default(),
    }
}

/// Returns what rows have under a key.
fn state_at<R: Rows>(rows: &R, key: Integer) -> KeyState {
    let term = Term::Int(key);
    let state = match rows.get(&term) {
        Some(objects) => state_of_objects(objects),
        None => KeyState::Nothing,
    };
    drop(term);
    state
}

/// Returns the state of a key whose slot had these objects before a change. `None` means that the key had no slot.
fn state_before(objects: Option<Chain>) -> KeyState {
    match objects {
        Some(objects) => {
            let state = state_of_objects(objects.as_slice());
            drop(objects);
            state
        }
        None => KeyState::Nothing,
    }
}

/// Inserts or replaces the object of a key. Returns the state of the key before.
fn insert<R: Rows>(
    rows: &mut R,
    alloc: Global,
    key: Integer,
    value: Integer,
) -> Result<KeyState, AllocError> {
    let term = Term::Int(key);
    let objects = Chain::one(alloc, object_of(value));
    match rows.entry(&term) {
        SlotEntry::Vacant(hash) => {
            rows.put_at(hash, &term, objects)?;
            drop(term);
            Ok(KeyState::Nothing)
        }
        SlotEntry::Occupied(place) => {
            drop(term);
            Ok(state_before(Some(rows.replace_at(place, objects))))
        }
    }
}

/// Inserts the keys `first..end`, each with the object 1.
fn insert_range<R: Rows>(
    rows: &mut R,
    alloc: Global,
    first: u32,
    end: u32,
) -> Result<(), AllocError> {
    for number in first..end {
        insert(rows, alloc, Integer::from(number), 1)?;
    }
    Ok(())
}

/// Replaces the objects of a key's slot, if it has one. Returns the state of the key before.
fn replace<R: Rows>(rows: &mut R, key: Integer, objects: Chain) -> KeyState {
    let term = Term::Int(key);
    let old_objects = rows.replace(&term, objects);
    drop(term);
    state_before(old_objects)
}

/// Removes the slot of a key, if it has one. Returns the state of the key before.
fn remove<R: Rows>(rows: &mut R, key: Integer) -> KeyState {
    let term = Term::Int(key);
    let objects = rows.remove(&term);
    drop(term);
    state_before(objects)
}

/// Returns whether each key below `past_keys` has an object equal to the key.
fn each_has_its_number<R: Rows>(rows: &R, past_keys: u32) -> bool {
    let mut all_right = true;
    for key in 0..past_keys {
        let key = Integer::from(key);
        all_right = state_at(rows, key) == KeyState::Object(key) && all_right;
    }
    all_right
}

/// Returns whether an integer is a key of the rows. Adds the number of nodes that the search visits to the counter
/// `visited`.
fn is_found<H: KeyHash + Copy + Drop>(
    rows: &SplitRows<H>,
    number: u32,
    visited: &mut Steps,
) -> bool {
    let key = Term::Int(Integer::from(number));
    let found = rows.get_counted(&key, visited).is_some();
    drop(key);
    found
}

/// `grow_sometimes` does not double this many buckets or more, so that the tests are fast.
const ENOUGH_BUCKETS: u32 = 4096;

/// `grow_sometimes` doubles the buckets once in about this number of calls.
const DOUBLING_PERIOD: u32 = 50;

/// The bound of the random number of buckets that `grow_and_ready_some` makes ready.
const PAST_READIED: u32 = 20;

/// Doubles the buckets once in about `DOUBLING_PERIOD` calls, if there are fewer than `ENOUGH_BUCKETS`.
fn grow_sometimes<R: Rows>(rows: &mut R, draws: &mut Draws) -> Result<(), AllocError> {
    if rows.buckets() < ENOUGH_BUCKETS && draws.random_below(DOUBLING_PERIOD) == 0 {
        rows.grow()?;
    }
    Ok(())
}

/// Makes a random bucket ready.
fn ready_random_bucket<R: Rows>(rows: &mut R, draws: &mut Draws) -> Result<Readying, AllocError> {
    // `max`, because `random_below` requires a bound above 0.
    let bucket = draws.random_below(rows.buckets().max(1));
    rows.ready(bucket)
}

/// Doubles the buckets sometimes, and makes some random ones ready.
fn grow_and_ready_some<R: Rows>(rows: &mut R, draws: &mut Draws) -> Result<(), AllocError> {
    grow_sometimes(rows, draws)?;
    for _ in 0..draws.random_below(PAST_READIED) {
        ready_random_bucket(rows, draws)?;
    }
    Ok(())
}
