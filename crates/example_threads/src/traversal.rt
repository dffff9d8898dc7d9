//! A traversal of the bag, which is fixed meanwhile.
use crate::calls::{ask, ask_integer, call, next_call};
use crate::setup::TIMES;
use ets_term::{Integer, KeyHash};
use node_core::Call;
use node_shared::{Client, Shared};
use std::alloc::Global;
use std::sync::Wait;
use std::sync::ledger::Ledger;

/// The greatest number of keys that the loop visits. The bag has fewer, so the loop ends at `'$end_of_table'`.
const MAX_VISITS: u32 = 1_000;

/// Fixes the bag and traverses it. Returns the client, and how many of the keys below `TIMES`, which were there before
/// the others inserted, it visited.
pub(crate) fn traverse<L: Ledger, H: KeyHash + Copy + Drop, R: Wait>(
    rt: &R,
    alloc: Global,
    shared: &Shared<L, H>,
    mut client: Client<L>,
) -> Option<(Client<L>, usize)> {
    fix_bag(rt, alloc, shared, &mut client)?;
    let old_keys = count_old_keys(rt, alloc, shared, &mut client)?;
    Some((client, old_keys))
}

/// Fixes the bag, so that a traversal visits each object that is in it from first to last.
fn fix_bag<L: Ledger, H: KeyHash + Copy + Drop, R: Wait>(
    rt: &R,
    alloc: Global,
    shared: &Shared<L, H>,
    client: &mut Client<L>,
) -> Option<()> {
    let fix = call(alloc, "safe_fixtable", "[notes,true]")?;
    ask(rt, shared, client, fix)
}

/// Visits the keys of the bag in turn, and returns how many of them are below `TIMES`.
fn count_old_keys<L: Ledger, H: KeyHash + Copy + Drop, R: Wait>(
    rt: &R,
    alloc: Global,
    shared: &Shared<L, H>,
    client: &mut Client<L>,
) -> Option<usize> {
    let mut count = 0usize;
    let mut last = None;
    for _ in 0..MAX_VISITS {
        let Some(key) = ask_integer(rt, shared, client, visit(alloc, last)?) else {
            break;
        };
        count = count.wrapping_add(usize::from(key < Integer::from(TIMES)));
        last = Some(key);
    }
    Some(count)
}

/// Returns the call whose reply is the key after the last visited one, or the first key if no key was visited.
fn visit(alloc: Global, last: Option<Integer>) -> Option<Call> {
    match last {
        None => call(alloc, "first", "[notes]"),
        Some(key) => next_call(alloc, key),
    }
}
