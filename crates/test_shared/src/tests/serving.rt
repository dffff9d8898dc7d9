//! Tests of a server, which runs the calls of its callers, and pending growth steps in `keep` and at the end of
//! `ask_all`.
// Callers in threads may call it at the same time. Nine objects in a new table make four growth steps pending. `B`
// names the history and the limits of a server. In contracts, the book is that of the kit's crate `logbook` which has
// the history, and the root is the key of its first pen.
ghost use Rattle.std.specs.Prelude.{◌≡◌};
ghost use Rattle.std.specs.Thread.{IsSync};

use super::calls::{FILL_T, FILL_U, build_call, build_calls, build_formatted_call, expect_value};
use super::{draw, join_callers, limits};
use ets_term::{Fnv, KeyHash, Term};
use node_core::{Call, Limits, Reply};
use node_shared::{Caller, Drawn, HistoryId, JoinFault, Locking, NewHistory, Server};
use std::alloc::Global;
use std::marker::Brand;
use std::sync::Wait;
use std::test::Fail;
use std::thread;
use std::thread::Threads;

/// The arguments of `new` for the table v, and those of `insert` for nine objects.
const FILL_V: [&str; 2] = [
    "[v,[named_table]]",
    "[v,[{1},{2},{3},{4},{5},{6},{7},{8},{9}]]",
];

/// Makes a table of a caller, and inserts nine objects. `arguments` are those of both calls. Returns `None` if a call
/// is refused.
fn fill_table<B: HistoryId, R: Wait>(
    rt: &R,
    alloc: Global,
    server: &Server<B, Fnv>,
    caller: &mut Caller<B>,
    arguments: [&str; 2],
) -> Option<()> {
    let [new, objects] = arguments;
    expect_value(rt, alloc, server, caller, ("new", new))?;
    expect_value(rt, alloc, server, caller, ("insert", objects))
}

/// Makes a table, inserts nine objects and runs three growth steps, by `ask_all`, which holds the lock once. Returns
/// the number of replies.
fn fill_table_at_once<B: HistoryId, R: Wait>(
    rt: &R,
    alloc: Global,
    server: &Server<B, Fnv>,
    caller: &mut Caller<B>,
    arguments: [&str; 2],
) -> Option<usize> {
    let [new, objects] = arguments;
    let calls = build_calls(alloc, &[("new", new), ("insert", objects)])?;
    let replies = caller.ask_all(rt, server, calls, 3).ok()?;
    Some(replies.len())
}

/// Fills three tables. Returns whether each then has four pending growth steps. Of the first two tables `keep` runs all
/// four, at most 3 or 9 in a call. Of the third `ask_all` runs three, and `keep` the last one.
fn pending_steps_run_in_turns<B: HistoryId, R: Wait>(
    rt: &R,
    alloc: Global,
    server: &Server<B, Fnv>,
    caller: &mut Caller<B>,
) -> Option<bool> {
    fill_table(rt, alloc, server, caller, FILL_T)?;
    let first_grew = server.keep(rt, 3) == 3 && server.keep(rt, 9) == 1 && server.keep(rt, 9) == 0;
    fill_table(rt, alloc, server, caller, FILL_U)?;
    let second_grew = server.keep(rt, 9) == 4;
    let is_filled = fill_table_at_once(rt, alloc, server, caller, FILL_V)? == 2;
    Some(first_grew && second_grew && is_filled && server.keep(rt, 9) == 1)
}

/// Ends the process of a caller. Returns whether its next call has the reply `NoProcess`.
fn is_refused_after_end<B: HistoryId, R: Wait>(
    rt: &R,
    alloc: Global,
    server: &Server<B, Fnv>,
    caller: &mut Caller<B>,
) -> Option<bool> {
    let receive = build_call(alloc, ("receive", "[]"))?;
    caller.end(rt, server).ok()?;
    let after_end = caller.ask(rt, server, receive).ok()?;
    Some(matches!(after_end, Reply::NoProcess))
}

/// Returns whether the server refuses to enrol the process of a drawn number because the limit is reached.
fn is_past_the_limit<B: HistoryId, R: Wait>(rt: &R, server: &Server<B, Fnv>, drawn: Drawn) -> bool {
    let joined = server.client(rt, drawn);
    let is_past = matches!(&joined, Err(JoinFault::Refused(Reply::SystemLimit, _)));
    drop(joined);
    is_past
}

/// Returns whether pending steps of the caller's tables are run, and the calls after the end of its process are
/// refused.
fn caller_is_served_until_its_end<B: HistoryId, R: Wait>(
    rt: &R,
    alloc: Global,
    server: &Server<B, Fnv>,
    caller: &mut Caller<B>,
) -> Option<bool> {
    let is_kept = pending_steps_run_in_turns(rt, alloc, server, caller)?;
    Some(is_kept && is_refused_after_end(rt, alloc, server, caller)?)
}

/// Joins a caller. Returns whether a second one is past the limit, pending steps are run, and calls after the end of
/// the process are refused.
fn server_serves_one_caller<B: HistoryId, R: Wait>(
    rt: &R,
    alloc: Global,
    server: &Server<B, Fnv>,
) -> Option<bool> {
    let mut numbers = draw(alloc, 2)?;
    let second = numbers.pop()?;
    let mut caller = server.client(rt, numbers.pop()?).ok()?;
    let is_refused = is_past_the_limit(rt, server, second);
    let is_served = caller_is_served_until_its_end(rt, alloc, server, &mut caller)?;
    Some(is_refused && is_served)
}

/// Creates a server; `limits` allows one process. Returns whether it runs pending steps, and refuses a second process
/// and calls after the end.
fn new_server_serves_one_caller<B: HistoryId, R: Wait>(
    rt: &R,
    alloc: Global,
    locking: Locking,
    history: NewHistory,
    limits: Limits,
) -> Option<bool>
    requires book { history.seen.book ≡ B.book }
    requires root { history.turn.nib.key ≡ B.root }
    requires limits { limits ≡ B.limits }
{
    let server = Server::<B, Fnv>::new(alloc, locking, history, limits, Fnv).ok()?;
    server_serves_one_caller(rt, alloc, &server)
}

#[test]
fn a_server_runs_calls_and_pending_steps(rt: HostRuntime) -> Result<(), Fail> {
    for locking in [Locking::Single, Locking::Sharded] {
        let history = NewHistory::new();
        let is_right = new_server_serves_one_caller::<Brand, _>(
            &rt,
            rt.alloc(),
            locking,
            history,
            limits(1),
        );
        assert!(rt; is_right.ok_or("no memory, or a refused call")?);
    }
    Ok(())
}

/// Joins two callers, of which the first makes a table for both. Returns `None` if the table is refused.
fn two_callers<B: HistoryId, R: Wait>(
    rt: &R,
    alloc: Global,
    server: &Server<B, Fnv>,
) -> Option<(Caller<B>, Caller<B>)> {
    let mut callers = join_callers(rt, alloc, server, 2)?;
    let new = ("new", "[t,[named_table,public]]");
    expect_value(rt, alloc, server, callers.first_mut()?, new)?;
    let other = callers.pop()?;
    Some((callers.pop()?, other))
}

/// The number of objects that each of two callers inserts.
const INSERTIONS: u32 = 50;

/// Returns a call for each of `INSERTIONS` keys from `first` on, which inserts it, and then a call for the number of
/// objects.
fn insertions(alloc: Global, first: u32) -> Option<Vec<Call>> {
    let mut calls = Vec::new(alloc);
    for number in 0..INSERTIONS {
        let key = first.wrapping_add(number);
        let arguments = format!(in alloc; "[t,{{{key}}}]");
        calls
            .push(build_formatted_call(alloc, ("insert", arguments))?)
            .ok()?;
    }
    calls.push(build_call(alloc, ("info", "[t,size]"))?).ok()?;
    Some(calls)
}

/// Makes calls in order, and releases the lock after each. Returns the last reply if it is an integer, else 0.
fn ask_one_by_one<B: HistoryId, H: KeyHash + Copy + Drop, R: Wait>(
    rt: &R,
    server: &Server<B, H>,
    mut caller: Caller<B>,
    calls: Vec<Call>,
) -> u64 {
    let mut last = 0;
    for call in calls {
        last = match caller.ask(rt, server, call) {
            Ok(Reply::Value(Term::Int(number))) => u64::try_from(number).unwrap_or(0),
            _ => 0,
        };
    }
    last
}

/// Lets two callers make their calls at the same time, each in a thread of its own. Returns the greater of their last
/// replies. The closures require that threads may share the runtime (`IsSync`).
fn both_ask<
    B: HistoryId + Send + Sync,
    H: KeyHash + Copy + Drop + Send + Sync,
    R: Threads + Wait + Sync,
>(
    rt: &R,
    server: &Server<B, H>,
    one: (Caller<B>, Vec<Call>),
    other: (Caller<B>, Vec<Call>),
) -> u64 {
    let (one, calls) = one;
    let (other, other_calls) = other;
    let (one_caller, other_caller) = thread::join(
        rt,
        move || -> u64
            requires { IsSync R.row }
        { ask_one_by_one(rt, server, one, calls) },
        move || -> u64
            requires { IsSync R.row }
        { ask_one_by_one(rt, server, other, other_calls) },
    );
    one_caller.max(other_caller)
}

/// Lets two callers insert at the same time. Returns how many objects the table has, as the later caller counts them at
/// the end.
fn objects_of_both<B: HistoryId + Send + Sync, R: Threads + Wait + Sync>(
    rt: &R,
    alloc: Global,
    server: &Server<B, Fnv>,
) -> Option<u64> {
    let calls = insertions(alloc, 0)?;
    let other_calls = insertions(alloc, INSERTIONS)?;
    let (one, other) = two_callers(rt, alloc, server)?;
    Some(both_ask(rt, server, (one, calls), (other, other_calls)))
}

/// Creates a server, and lets two callers insert at the same time. Returns how many objects there are at the end.
fn objects_of_new_server<B: HistoryId + Send + Sync, R: Threads + Wait + Sync>(
    rt: &R,
    alloc: Global,
    history: NewHistory,
    limits: Limits,
) -> Option<u64>
    requires book { history.seen.book ≡ B.book }
    requires root { history.turn.nib.key ≡ B.root }
    requires limits { limits ≡ B.limits }
{
    let server = Server::<B, Fnv>::new(alloc, Locking::Sharded, history, limits, Fnv).ok()?;
    objects_of_both(rt, alloc, &server)
}

#[test]
fn two_callers_insert_at_once(rt: HostRuntime) -> Result<(), Fail> {
    let history = NewHistory::new();
    let objects = objects_of_new_server::<Brand, _>(&rt, rt.alloc(), history, limits(2));
    // Twice `INSERTIONS`.
    assert_eq!(rt; objects, Some(100));
    Ok(())
}
