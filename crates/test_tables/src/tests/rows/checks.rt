//! The checks of rows, as one enum. Each runs on new rows, and all of them share the functions that create and drop
//! rows.
use super::calls::rows_agree_with_list;
use super::free::calls_take_no_memory;
use super::growth::{
    doubles_to_most_buckets, has_one_ready_bucket, keeps_ready_buckets, readies_among_most_buckets,
};
use super::refused::{all_run_with_retry, refuses_too_many_slots};
use super::several::puts_by_threes;
use super::sizes::{clears_and_purges, inserts_replaces_and_removes};
use super::*;

/// What new rows must do. `passes` names the function that checks each.
#[derive(Clone, Copy)]
pub(super) enum Check {
    /// Agree with a plain list in random calls.
    AgreeWithList,
    /// Insert three slots by one call of `put`, again and again.
    PutByThrees,
    /// Insert, replace and remove 70,000 slots.
    InsertReplaceAndRemove,
    /// Have no slots after `clear` and `purge` of 70,000.
    ClearAndPurge,
    /// Take no memory for reads, replacements, removals and calls on all slots.
    TakeNoMemory,
    /// Refuse to reserve more slots than memory can hold.
    RefuseTooManySlots,
    /// Change nothing when memory runs out, and answer the repeated call.
    RunWithRetry,
    /// Double from 2 buckets to the most that rows can have.
    DoubleToMost,
    /// Make buckets ready in any order when there are the most buckets.
    ReadyAmongMostBuckets,
    /// Keep ready buckets ready in a doubling.
    KeepReadyBuckets,
    /// Have one bucket, which is ready: a check of plain rows only.
    HaveOneBucket,
}

/// Returns whether rows pass a check.
fn passes<R: Rows>(rows: &mut R, alloc: Global, check: Check) -> Result<bool, AllocError> {
    match check {
        Check::AgreeWithList => rows_agree_with_list(rows, alloc),
        Check::PutByThrees => puts_by_threes(rows, alloc),
        Check::InsertReplaceAndRemove => inserts_replaces_and_removes(rows, alloc),
        Check::ClearAndPurge => clears_and_purges(rows, alloc),
        Check::TakeNoMemory => calls_take_no_memory(rows, alloc),
        Check::RefuseTooManySlots => refuses_too_many_slots(rows, alloc),
        Check::RunWithRetry => all_run_with_retry(rows, alloc),
        Check::DoubleToMost => doubles_to_most_buckets(rows),
        Check::ReadyAmongMostBuckets => readies_among_most_buckets(rows),
        Check::KeepReadyBuckets => keeps_ready_buckets(rows),
        Check::HaveOneBucket => has_one_ready_bucket(rows),
    }
}

/// Returns whether new split rows with this hasher pass a check.
pub(super) fn split_rows_pass<H: KeyHash + Copy + Drop>(
    alloc: Global,
    hasher: H,
    check: Check,
) -> Result<bool, AllocError> {
    let mut rows = new_rows_with_retry(alloc, hasher)?;
    let passed = passes(&mut rows, alloc, check);
    drop(rows);
    passed
}

/// Returns whether new plain rows pass a check.
pub(super) fn plain_rows_pass(alloc: Global, check: Check) -> Result<bool, AllocError> {
    let mut rows = PlainRows::new(alloc);
    let passed = passes(&mut rows, alloc, check);
    drop(rows);
    passed
}
