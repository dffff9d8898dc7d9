//! Rows of 70,000 slots, a number past many powers of two. All slots are inserted, replaced and removed one by one, or
//! removed by `clear` and `purge`.
use super::checks::{Check, plain_rows_pass, split_rows_pass};
use super::*;

/// More than 65,536 slots, so that arrays and directories grow past each lower power of two.
const SLOTS: u32 = 70_000;

/// Inserts all keys, while the buckets are doubled and made ready. Returns whether each key is new.
fn inserts_all<R: Rows>(rows: &mut R, alloc: Global) -> Result<bool, AllocError> {
    let mut all_new = true;
    for key in 0..SLOTS {
        let key = Integer::from(key);
        all_new = insert(rows, alloc, key, key)? == KeyState::Nothing && all_new;
        grow_as_rows_fill(rows)?;
    }
    Ok(all_new && rows.len() == SLOTS as usize)
}

/// The number of slots per bucket above which the buckets are doubled.
const MAX_SLOTS_PER_BUCKET: usize = 4;

/// The number of buckets that are made ready after each insertion.
const READIED_BUCKETS: u32 = 2;

/// Doubles the buckets if they have more than `MAX_SLOTS_PER_BUCKET` slots each, and makes the next `READIED_BUCKETS`
/// ready.
fn grow_as_rows_fill<R: Rows>(rows: &mut R) -> Result<(), AllocError> {
    if rows.len() / MAX_SLOTS_PER_BUCKET > rows.buckets() as usize {
        rows.grow()?;
    }
    for _ in 0..READIED_BUCKETS {
        if let Some(bucket) = rows.first_unready() {
            rows.ready(bucket)?;
        }
    }
    Ok(())
}

/// Returns whether the object of each key is the key, and an insertion replaces it by the next number.
fn replaces_all<R: Rows>(rows: &mut R, alloc: Global) -> Result<bool, AllocError> {
    let mut all_right = true;
    for key in 0..SLOTS {
        let key = Integer::from(key);
        all_right = state_at(rows, key) == KeyState::Object(key) && all_right;
        all_right = insert(rows, alloc, key, key.wrapping_add(1))? == KeyState::Object(key)
            && all_right;
    }
    Ok(all_right && state_at(rows, Integer::from(SLOTS)) == KeyState::Nothing)
}

/// Removes the keys, the last first. Returns whether each had its object, and no slot remains.
fn removes_all<R: Rows>(rows: &mut R) -> bool {
    let mut all_right = true;
    for index_from_end in 0..SLOTS {
        let key = Integer::from(SLOTS.wrapping_sub(index_from_end).wrapping_sub(1));
        all_right = remove(rows, key) == KeyState::Object(key.wrapping_add(1)) && all_right;
    }
    all_right && rows.len() == 0 && rows.first_at().is_none()
}

/// Returns whether all keys are inserted, then replaced, and then removed.
pub(super) fn inserts_replaces_and_removes<R: Rows>(
    rows: &mut R,
    alloc: Global,
) -> Result<bool, AllocError> {
    // A small reservation, which the insertions outgrow.
    rows.reserve(3)?;
    Ok(inserts_all(rows, alloc)? && replaces_all(rows, alloc)? && removes_all(rows))
}

/// Returns whether `clear(true)` leaves a tombstone for each slot, and `purge` removes the tombstones.
fn clear_leaves_tombstones_for_purge<R: Rows>(rows: &mut R) -> bool {
    rows.clear(true);
    let cleared = rows.len() == SLOTS as usize && state_at(rows, 0) == KeyState::Tombstone;
    rows.purge();
    cleared && rows.len() == 0
}

/// Fills rows twice. Returns whether `clear(true)` and `purge` empty them, and later `clear(false)` alone.
pub(super) fn clears_and_purges<R: Rows>(rows: &mut R, alloc: Global) -> Result<bool, AllocError> {
    let filled = inserts_all(rows, alloc)?;
    let swept = clear_leaves_tombstones_for_purge(rows);
    let refilled = inserts_all(rows, alloc)?;
    rows.clear(false);
    Ok(filled && swept && refilled && rows.len() == 0)
}

#[test]
fn split_rows_insert_replace_and_remove(rt: HostRuntime) {
    assert!(rt; split_rows_pass(rt.alloc(), Fnv, Check::InsertReplaceAndRemove) == Ok(true));
}

#[test]
fn plain_rows_insert_replace_and_remove(rt: HostRuntime) {
    assert!(rt; plain_rows_pass(rt.alloc(), Check::InsertReplaceAndRemove) == Ok(true));
}

#[test]
fn split_rows_are_cleared_and_purged(rt: HostRuntime) {
    assert!(rt; split_rows_pass(rt.alloc(), Fnv, Check::ClearAndPurge) == Ok(true));
}

#[test]
fn plain_rows_are_cleared_and_purged(rt: HostRuntime) {
    assert!(rt; plain_rows_pass(rt.alloc(), Check::ClearAndPurge) == Ok(true));
}
