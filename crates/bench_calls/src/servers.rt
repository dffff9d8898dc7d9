//! Times the callers of one `Server`, a node under a lock. Each caller is in a thread of its own.
ghost use Rattle.std.specs.Prelude.{◌≡◌, ◌<◌, All, vec_len};
ghost use Rattle.std.specs.Thread.{IsSync};

use crate::calls::{has_object, insert_call, new_table_call};
use crate::mixture::{GROWTH_STEPS, KEYS, Timing};
use crate::plans::{LIST_LEN, Plan};
use crate::report::nanoseconds;
use ets_term::{Fnv, KeyHash};
use node_core::{Call, Limits, Reply};
use node_shared::{Caller, Drawn, HistoryId, NewHistory, Pids, Seat, Server};
use std::alloc::{AllocError, Global};
use std::marker::Brand;
use std::rt::Clock;
use std::sync::Wait;
use std::thread::Threads;
use std::time::Instant;
use std::{io, thread};

/// Times `caller_count` callers of a new server.
pub(crate) fn time_server<R: Alloc<A = Global> + Clock + Threads + Wait + Sync>(
    rt: &R,
    plan: Plan,
    caller_count: u32,
) -> io::Result<Timing>
    requires { 0 < caller_count }
{
    let limits = Limits {
        processes: caller_count,
        ..Limits::usual()
    };
    let history = NewHistory::new();
    time_server_within::<Brand, R>(rt, history, limits, plan)
}

/// Times the callers of a new server with these limits. There is a caller for each process that the limits allow.
fn time_server_within<
    B: HistoryId + Send + Sync,
    R: Alloc<A = Global> + Clock + Threads + Wait + Sync,
>(rt: &R, history: NewHistory, limits: Limits, plan: Plan) -> io::Result<Timing>
    requires book { history.seen.book ≡ B.book }
    requires root { history.turn.nib.key ≡ B.root }
    requires limits { limits ≡ B.limits }
    requires some { 0 < limits.processes }
{
    let caller_count = limits.processes;
    let server = Server::<B, Fnv>::new(rt.alloc(), plan.locking, history, limits, Fnv)?;
    time_calls(rt, &server, plan, caller_count)
}

/// Times the calls of all callers. The calls are built before the clock runs.
fn time_calls<B: HistoryId + Send + Sync, R: Alloc<A = Global> + Clock + Threads + Wait + Sync>(
    rt: &R,
    server: &Server<B, Fnv>,
    plan: Plan,
    caller_count: u32,
) -> io::Result<Timing>
    requires { 0 < caller_count }
{
    let work = build_work(rt, rt.alloc(), server, plan, caller_count)?;
    let start = Instant::now(rt)?;
    let found = call_all(rt, server, work);
    let nanoseconds = nanoseconds(start.elapsed(rt)?);
    Ok(Timing { nanoseconds, found })
}

/// Enrols the callers, makes the table and fills it with all keys. Returns each caller with its calls, and how many of
/// them it makes each time it takes the lock.
fn build_work<B: HistoryId, R: Wait>(
    rt: &R,
    alloc: Global,
    server: &Server<B, Fnv>,
    plan: Plan,
    caller_count: u32,
) -> Result<Vec<(Caller<B>, Vec<Call>, usize)>, AllocError>
    requires { 0 < caller_count }
{
    let mut callers = enrol_callers(rt, alloc, server, caller_count)?;
    if let Some(first) = callers.first_mut() {
        fill(rt, alloc, server, first)?;
    }
    let mut work = Vec::new(alloc);
    for caller in callers {
        let calls = plan.load.build_calls(alloc, plan.calls)?;
        work.push((caller, calls, plan.load.calls_per_lock()))?;
    }
    Ok(work)
}

/// Enrols this many processes in a server, and returns the caller of each.
fn enrol_callers<B: HistoryId, R: Wait>(
    rt: &R,
    alloc: Global,
    server: &Server<B, Fnv>,
    caller_count: u32,
) -> Result<Vec<Caller<B>>, AllocError>
    requires { 0 < caller_count }
{
    let Ok((pids, seats)) = Pids::open(alloc, caller_count as usize) else {
        return Err(AllocError);
    };
    enrol_caller_of_each_seat(rt, alloc, server, &pids, seats)
}

/// Draws a process number with each seat, enrols the process, and returns the callers. A seat is the right to draw one
/// number.
fn enrol_caller_of_each_seat<B: HistoryId, R: Wait>(
    rt: &R,
    alloc: Global,
    server: &Server<B, Fnv>,
    pids: &Pids,
    mut seats: Vec<Seat>,
) -> Result<Vec<Caller<B>>, AllocError>
    requires { All (λ s. s.seat.table_id ≡ pids.now.table.shared.table_id) seats.items }
{
    let mut callers = Vec::new(alloc);
    while let Some(seat) = seats.pop() {
        callers.push(enrol_caller(rt, server, pids.draw(seat))?)?;
    }
    Ok(callers)
}

/// Enrols a process under a drawn pid, and returns its caller. Any fault counts as out of memory.
fn enrol_caller<B: HistoryId, R: Wait>(
    rt: &R,
    server: &Server<B, Fnv>,
    drawn: Drawn,
) -> Result<Caller<B>, AllocError> {
    match server.client(rt, drawn) {
        Ok(caller) => Ok(caller),
        Err(_) => Err(AllocError),
    }
}

/// Makes the table, and inserts `KEYS` objects. After each, up to `GROWTH_STEPS` pending growth steps are run.
fn fill<B: HistoryId, R: Wait>(
    rt: &R,
    alloc: Global,
    server: &Server<B, Fnv>,
    caller: &mut Caller<B>,
) -> Result<(), AllocError> {
    caller.ask(rt, server, new_table_call(alloc)?)?;
    for k in 0..KEYS {
        caller.ask(rt, server, insert_call(alloc, k)?)?;
        server.keep(rt, GROWTH_STEPS);
    }
    Ok(())
}

/// Makes the calls of each caller in a thread: splits the callers into halves until one is left. Returns how many
/// lookups found an object. A caller that runs out of memory counts as 0, and so do callers whose list cannot be split.
fn call_all<
    B: HistoryId + Send + Sync,
    H: KeyHash + Copy + Drop + Send + Sync,
    R: Threads + Wait + Sync,
>(rt: &R, server: &Server<B, H>, mut work: Vec<(Caller<B>, Vec<Call>, usize)>) -> u64 {
    if work.len() < 2 {
        return match work.pop() {
            Some((mut caller, calls, calls_per_lock)) => call_each(
                rt,
                server,
                &mut caller,
                &calls,
                calls_per_lock,
            ),
            None => 0,
        };
    }
    let half = work.len() / 2;
    let Ok(back) = work.split_off(half) else {
        return 0;
    };
    let (front_found, back_found) = thread::join(
        rt,
        move || -> u64
            requires { IsSync R.row }
        { call_all(rt, server, work) },
        move || -> u64
            requires { IsSync R.row }
        { call_all(rt, server, back) },
    );
    front_found.wrapping_add(back_found)
}

/// Makes the calls of one caller: in lists if it makes more than one call each time it takes the lock, else one by one.
/// Returns how many lookups found an object. After a fault it returns 0, so that the report prints a warning.
fn call_each<B: HistoryId, H: KeyHash + Copy + Drop, R: Wait>(
    rt: &R,
    server: &Server<B, H>,
    caller: &mut Caller<B>,
    calls: &Vec<Call>,
    calls_per_lock: usize,
) -> u64 {
    let alloc = *calls.allocator();
    let mut reply = Reply::NoProcess;
    let found = if calls_per_lock > 1 {
        read_in_lists(rt, alloc, server, caller, calls.as_slice())
    } else {
        call_in_turn(rt, alloc, server, caller, calls.as_slice(), &mut reply)
    };
    drop(reply);
    found.unwrap_or(0)
}

/// Makes calls one by one: by `read_into` if the call only reads, else by `ask`. Returns how many lookups found an
/// object.
fn call_in_turn<B: HistoryId, H: KeyHash + Copy + Drop, R: Wait>(
    rt: &R,
    alloc: Global,
    server: &Server<B, H>,
    caller: &mut Caller<B>,
    calls: &[Call],
    reply: &mut Reply,
) -> Result<u64, AllocError> {
    let mut found: u64 = 0;
    for call in calls {
        if !caller.read_into(rt, server, call, reply)? {
            *reply = caller.ask(rt, server, call.try_clone(alloc)?)?;
        }
        found = found.wrapping_add(u64::from(has_object(reply)));
    }
    Ok(found)
}

/// Makes lookups in lists of `LIST_LEN`. Returns how many found an object.
fn read_in_lists<B: HistoryId, H: KeyHash + Copy + Drop, R: Wait>(
    rt: &R,
    alloc: Global,
    server: &Server<B, H>,
    caller: &mut Caller<B>,
    calls: &[Call],
) -> Result<u64, AllocError> {
    let mut found: u64 = 0;
    for list in calls.chunks(LIST_LEN) {
        let replies = caller.read_all(rt, alloc, server, list)?;
        found = found.wrapping_add(count_found(&replies));
    }
    Ok(found)
}

/// Returns how many of the replies to lookups have an object.
fn count_found(replies: &Vec<Option<Reply>>) -> u64 {
    let mut found: u64 = 0;
    for reply in replies.as_slice() {
        if let Some(reply) = reply {
            found = found.wrapping_add(u64::from(has_object(reply)));
        }
    }
    found
}
