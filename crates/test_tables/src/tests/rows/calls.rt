//! Random calls on rows, compared with the same calls on a plain list that has the state of each key. The state is no
//! slot, a tombstone, or an object.
use super::checks::{Check, plain_rows_pass, split_rows_pass};
use super::sweeps::sweep_sometimes;
use super::traversals::traverses;
use super::*;

/// The calls use the keys below this number.
const KEYS: u32 = 150;

/// The number of rounds. After each round the states of all keys are compared.
const ROUNDS: u32 = 200;

/// The number of calls in a round.
const CALLS_IN_ROUND: u32 = 25;

/// A call on one key.
#[derive(Clone, Copy)]
enum Call {
    /// Inserts the object, or replaces the object of the key.
    Insert(Integer),
    /// Inserts the object only if the key has no slot.
    Put(Integer),
    /// Replaces the objects of the slot by an empty chain, which makes it a tombstone.
    LeaveTombstone,
    /// Removes the slot of the key.
    Remove,
    /// Deletes the slot at the place where `find` finds the key.
    DeleteAtPlace,
}

/// Draws a call: in five of eight draws an insertion, with a value below 1000.
fn draw_call(draws: &mut Draws) -> Call {
    let value = Integer::from(draws.random_below(1000));
    match draws.random_below(8) {
        0 => Call::LeaveTombstone,
        1 => Call::Remove,
        2 => Call::DeleteAtPlace,
        3 | 4 => Call::Put(value),
        _ => Call::Insert(value),
    }
}

/// Returns the state that a key must have after a call.
fn state_after_call(call: Call, before: KeyState) -> KeyState {
    match (call, before) {
        (Call::Insert(value), _) => KeyState::Object(value),
        (Call::Put(value), KeyState::Nothing) => KeyState::Object(value),
        (Call::Put(_), before) => before,
        (Call::LeaveTombstone, KeyState::Nothing) => KeyState::Nothing,
        (Call::LeaveTombstone, _) => KeyState::Tombstone,
        (Call::Remove, _) => KeyState::Nothing,
        (Call::DeleteAtPlace, _) => KeyState::Nothing,
    }
}

/// Inserts a slot by `Rows::put` if the key has none. Returns the state of the key before.
fn put<R: Rows>(
    rows: &mut R,
    alloc: Global,
    key: Integer,
    value: Integer,
) -> Result<KeyState, AllocError> {
    let term = Term::Int(key);
    if let Some(objects) = rows.get(&term) {
        let before = state_of_objects(objects);
        drop(term);
        return Ok(before);
    }
    rows.put(vec![in alloc; (term, Chain::one(alloc, object_of(value)))]?)?;
    Ok(KeyState::Nothing)
}

/// Deletes the slot at the place where `find` finds the key. Returns the state of the key before, or that of another
/// number if the number of dropped objects is wrong.
fn delete_at_place<R: Rows>(rows: &mut R, key: Integer) -> KeyState {
    let term = Term::Int(key);
    let found = rows.find(&term);
    drop(term);
    match found {
        Some(place) => {
            let objects = rows.objects_at(place);
            let before = state_of_objects(objects);
            let count = objects.len();
            if rows.delete_at(place) == count {
                before
            } else {
                KeyState::Object(-1)
            }
        }
        None => KeyState::Nothing,
    }
}

/// Makes a call on rows. Returns the state of the key before.
fn run_call<R: Rows>(
    rows: &mut R,
    alloc: Global,
    key: Integer,
    call: Call,
) -> Result<KeyState, AllocError> {
    match call {
        Call::Insert(value) => insert(rows, alloc, key, value),
        Call::Put(value) => put(rows, alloc, key, value),
        Call::LeaveTombstone => Ok(replace(rows, key, Chain::new(alloc))),
        Call::Remove => Ok(remove(rows, key)),
        Call::DeleteAtPlace => Ok(delete_at_place(rows, key)),
    }
}

/// Makes a call on the list, which has the state of each key at the index of the key. Returns the state of the key
/// before, or `None` if the list does not have the key.
fn run_on_list(list: &mut [KeyState], key: u32, call: Call) -> Option<KeyState> {
    let state = list.get_mut(key as usize)?;
    let before = *state;
    *state = state_after_call(call, before);
    Some(before)
}

/// Makes a random call on rows and on the list. Returns whether its key had the same state in both before the call.
fn random_call_agrees<R: Rows>(
    rows: &mut R,
    alloc: Global,
    list: &mut [KeyState],
    draws: &mut Draws,
) -> Result<bool, AllocError> {
    let key = draws.random_below(KEYS);
    let call = draw_call(draws);
    let before = run_call(rows, alloc, Integer::from(key), call)?;
    Ok(run_on_list(list, key, call) == Some(before))
}

/// Returns whether each key has the state of the list, no other key has a slot, and a traversal visits each slot.
fn states_agree<R: Rows>(rows: &R, list: &[KeyState]) -> bool {
    let mut slots = 0usize;
    let mut all_agree = true;
    for number in 0..KEYS {
        let wanted = list
            .get(number as usize)
            .copied()
            .unwrap_or(KeyState::Nothing);
        all_agree = state_at(rows, Integer::from(number)) == wanted && all_agree;
        if wanted != KeyState::Nothing {
            slots = slots.wrapping_add(1);
        }
    }
    all_agree && rows.len() == slots && traverses(rows)
}

/// Returns a list in which no key has a slot.
fn new_list(alloc: Global) -> Result<Vec<KeyState>, AllocError> {
    let mut list = Vec::new(alloc);
    match list.resize(KEYS as usize, KeyState::Nothing) {
        Ok(()) => Ok(list),
        Err(_) => {
            drop(list);
            Err(AllocError)
        }
    }
}

/// Makes `CALLS_IN_ROUND` random calls. Returns whether rows and list agree on the key of each before the call.
fn all_calls_agree<R: Rows>(
    rows: &mut R,
    alloc: Global,
    list: &mut [KeyState],
    draws: &mut Draws,
) -> Result<bool, AllocError> {
    let mut all_agree = true;
    for _ in 0..CALLS_IN_ROUND {
        all_agree = random_call_agrees(rows, alloc, list, draws)? && all_agree;
    }
    Ok(all_agree)
}

/// Makes a round of random calls, growth steps, and sometimes `clear` or `purge`. Returns whether rows and list agree.
fn round_agrees<R: Rows>(
    rows: &mut R,
    alloc: Global,
    list: &mut [KeyState],
    draws: &mut Draws,
) -> Result<bool, AllocError> {
    let all_agree = all_calls_agree(rows, alloc, list, draws)?;
    grow_and_ready_some(rows, draws)?;
    sweep_sometimes(rows, list, draws);
    Ok(states_agree(rows, list) && all_agree)
}

/// Makes `ROUNDS` rounds. Returns whether rows and list agree in each.
fn rounds_agree<R: Rows>(
    rows: &mut R,
    alloc: Global,
    list: &mut [KeyState],
) -> Result<bool, AllocError> {
    let mut draws = Draws::new();
    let mut all_agree = true;
    for _ in 0..ROUNDS {
        all_agree = round_agrees(rows, alloc, list, &mut draws)? && all_agree;
    }
    Ok(all_agree)
}

/// Returns whether new rows and a list without slots agree in 5,000 random calls.
pub(super) fn rows_agree_with_list<R: Rows>(
    rows: &mut R,
    alloc: Global,
) -> Result<bool, AllocError> {
    let mut list = new_list(alloc)?;
    let agreed = rounds_agree(rows, alloc, list.as_mut_slice());
    drop(list);
    agreed
}

#[test]
fn plain_rows_agree_with_a_list(rt: HostRuntime) {
    assert!(rt; plain_rows_pass(rt.alloc(), Check::AgreeWithList) == Ok(true));
}

#[test]
fn split_rows_agree_with_a_list(rt: HostRuntime) {
    assert!(rt; split_rows_pass(rt.alloc(), Fnv, Check::AgreeWithList) == Ok(true));
    assert!(rt; split_rows_pass(rt.alloc(), Even, Check::AgreeWithList) == Ok(true));
}

#[test]
fn split_rows_of_one_hash_agree_with_a_list(rt: HostRuntime) {
    assert!(rt; split_rows_pass(rt.alloc(), AllSame, Check::AgreeWithList) == Ok(true));
    assert!(rt; split_rows_pass(rt.alloc(), Greatest, Check::AgreeWithList) == Ok(true));
}
