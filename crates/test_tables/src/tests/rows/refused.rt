//! Calls on rows that run out of memory. `.ci/refusals` runs these tests with each allocation refused in turn.
// A call that ran out of memory must have changed nothing, and must succeed when it is made again.
use super::checks::{Check, plain_rows_pass, split_rows_pass};
use super::growth::{each_doubling_gives, ready_gives};
use super::several::{put_three, three_keys};
use super::*;

/// The number of times that three slots are put, the buckets are doubled, and one bucket is made ready.
const TIMES: u32 = 8;

/// The keys whose states are hashed are below this number. The last two are never inserted.
const KEYS: u32 = 27;

/// A prime, so that the order of the numbers changes the hash.
const PRIME: u64 = 1_000_003;

/// Returns the hash of a list of numbers from the hash of all but the last, and the last.
fn add_to_hash(hash: u64, number: u64) -> u64 {
    hash.wrapping_mul(PRIME).wrapping_add(number)
}

/// Returns a code of a slot: its first object plus 2, or 1 for a tombstone. The code of a missing slot is 0.
fn code_of_objects(objects: &[Object]) -> u64 {
    match objects.first() {
        Some(object) => {
            let value = object.as_integer().unwrap_or(0);
            u64::try_from(value).unwrap_or(u64::MAX).wrapping_add(2)
        }
        None => 1,
    }
}

/// Returns a hash of the objects of a key and of the slot after it. The code of that slot is 1 if the key has the last
/// slot, and 0 if the key has no slot.
fn hash_at_key<R: Rows>(rows: &R, key: Integer) -> u64 {
    let term = Term::Int(key);
    let code = match rows.get(&term) {
        Some(objects) => code_of_objects(objects),
        None => 0,
    };
    let next_code = match rows.next_at(&term) {
        Some(Some((_key, objects))) => code_of_objects(objects),
        Some(None) => 1,
        None => 0,
    };
    drop(term);
    add_to_hash(code, next_code)
}

/// Returns a hash of what a caller can read of rows: the objects of each key, their order, and the ready buckets.
fn hash_of_rows<R: Rows>(rows: &R) -> u64 {
    let mut hash = rows.len() as u64;
    for key in 0..KEYS {
        hash = add_to_hash(hash, hash_at_key(rows, Integer::from(key)));
    }
    for bucket in 0..rows.buckets() {
        hash = add_to_hash(hash, u64::from(rows.is_ready(bucket)));
    }
    hash
}

/// A call that takes memory.
#[derive(Clone, Copy)]
enum Call {
    /// Inserts new slots with the keys 3n, 3n + 1 and 3n + 2, by one call of `put`.
    PutThree(u32),
    /// Doubles the buckets.
    Grow,
    /// Makes a bucket ready.
    Ready(u32),
    /// Inserts a new key.
    Insert(Integer),
}

/// Makes a call. Returns whether its result is the expected one, or an error if memory runs out.
fn run_call<R: Rows>(rows: &mut R, alloc: Global, call: Call) -> Result<bool, AllocError> {
    match call {
        Call::PutThree(number) => put_three(rows, alloc, three_keys(number)),
        Call::Grow => each_doubling_gives(rows, 1, Growth::Grown),
        Call::Ready(bucket) => ready_gives(rows, bucket, Readying::Ready),
        Call::Insert(key) => Ok(insert(rows, alloc, key, key)? == KeyState::Nothing),
    }
}

/// Makes a call, and repeats it if memory runs out. Returns whether its result is the expected one, and it changed
/// nothing when memory ran out.
fn runs_with_retry<R: Rows>(rows: &mut R, alloc: Global, call: Call) -> Result<bool, AllocError> {
    let before = hash_of_rows(rows);
    match run_call(rows, alloc, call) {
        Ok(as_expected) => Ok(as_expected),
        Err(_) => {
            let unchanged = hash_of_rows(rows) == before;
            let as_expected = run_call(rows, alloc, call)?;
            Ok(unchanged && as_expected)
        }
    }
}

/// Puts the three slots of a number, doubles the buckets, and makes the first unready bucket ready. Repeats calls that
/// run out of memory. Returns whether each call has the expected result.
fn grows_with_retry<R: Rows>(rows: &mut R, alloc: Global, number: u32) -> Result<bool, AllocError> {
    let put = runs_with_retry(rows, alloc, Call::PutThree(number))?;
    let grown = runs_with_retry(rows, alloc, Call::Grow)?;
    // After a doubling some bucket is not ready, so 0 is never used.
    let bucket = rows.first_unready().unwrap_or(0);
    let readied = runs_with_retry(rows, alloc, Call::Ready(bucket))?;
    Ok(put && grown && readied)
}

/// Runs `grows_with_retry` for each of `TIMES` numbers, and returns whether it succeeds each time.
fn all_grow_with_retry<R: Rows>(rows: &mut R, alloc: Global) -> Result<bool, AllocError> {
    let mut all_right = true;
    for number in 0..TIMES {
        all_right = grows_with_retry(rows, alloc, number)? && all_right;
    }
    Ok(all_right)
}

/// Puts slots, grows, and inserts a key. Repeats calls that run out of memory. Returns whether each call has the
/// expected result, and each key put has its object.
pub(super) fn all_run_with_retry<R: Rows>(rows: &mut R, alloc: Global) -> Result<bool, AllocError> {
    let keys_put = TIMES.wrapping_mul(3);
    let grown = all_grow_with_retry(rows, alloc)?;
    let inserted = runs_with_retry(rows, alloc, Call::Insert(Integer::from(keys_put)))?;
    Ok(grown && inserted && each_has_its_number(rows, keys_put))
}

/// A number of slots that take more bytes than one allocation may have, which is 2^63 - 1: the key of a slot alone has
/// 32 bytes. A sum with this number does not overflow, unlike one with `usize::MAX`.
const UNALLOCATABLE_SLOTS: usize = 1 << 58;

/// Returns whether `reserve` refuses more slots than memory can hold, and changes nothing.
pub(super) fn refuses_too_many_slots<R: Rows>(
    rows: &mut R,
    alloc: Global,
) -> Result<bool, AllocError> {
    let put = runs_with_retry(rows, alloc, Call::PutThree(0))?;
    let before = hash_of_rows(rows);
    let refused = rows.reserve(usize::MAX).is_err() && rows.reserve(UNALLOCATABLE_SLOTS).is_err();
    Ok(put && refused && hash_of_rows(rows) == before)
}

// Plain rows have one bucket and cannot grow, so only split rows run all calls.
#[test]
fn a_refused_call_succeeds_when_repeated(rt: HostRuntime) {
    assert!(rt; split_rows_pass(rt.alloc(), Fnv, Check::RunWithRetry) == Ok(true));
}

#[test]
fn too_much_capacity_is_refused(rt: HostRuntime) {
    assert!(rt; split_rows_pass(rt.alloc(), Fnv, Check::RefuseTooManySlots) == Ok(true));
    assert!(rt; plain_rows_pass(rt.alloc(), Check::RefuseTooManySlots) == Ok(true));
}
