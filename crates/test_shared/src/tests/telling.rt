//! A test of callers that tell each other something: one reads what another one inserted.
// At run time `learn` compares two numbers. In the contract, the caller has afterwards seen all that the other one saw.
ghost use Rattle.std.specs.Prelude.{◌≡◌};

use super::calls::build_call;
use super::{join_callers, limits};
use ets_term::Fnv;
use node_core::{Limits, Reply};
use node_shared::{Caller, HistoryId, Locking, NewHistory, Server};
use std::alloc::Global;
use std::marker::Brand;
use std::sync::Wait;
use std::test::Fail;
use term_text::print_term;

/// Returns whether a caller reads these objects of key 1.
fn reads_objects<B: HistoryId, R: Wait>(
    rt: &R,
    alloc: Global,
    server: &Server<B, Fnv>,
    caller: &mut Caller<B>,
    objects: &str,
) -> Option<bool> {
    let lookup = build_call(alloc, ("lookup", "[t,1]"))?;
    let Some(Reply::Value(found)) = caller.read(rt, server, &lookup).ok()? else {
        return Some(false);
    };
    let mut text = String::new(alloc);
    print_term(alloc, &found, &mut text).ok()?;
    Some(text.as_str() == objects)
}

/// Enrols two processes. One inserts an object, and tells the other. Returns whether both read it.
fn new_callers_read_what_one_inserted<B: HistoryId, R: Wait>(
    rt: &R,
    alloc: Global,
    server: &Server<B, Fnv>,
) -> Option<bool> {
    let mut callers = join_callers(rt, alloc, server, 2)?;
    let mut reader = callers.pop()?;
    let mut writer = callers.pop()?;
    let create = build_call(alloc, ("new", "[t,[named_table]]"))?;
    let insert = build_call(alloc, ("insert", "[t,{1,a}]"))?;
    writer.ask(rt, server, create).ok()?;
    writer.ask(rt, server, insert).ok()?;
    // The reader saw less than the writer, and then as much.
    reader.learn(&writer);
    let is_read = reads_objects(rt, alloc, server, &mut reader, "[{1,a}]")?;
    writer.learn(&reader);
    Some(is_read && reads_objects(rt, alloc, server, &mut writer, "[{1,a}]")?)
}

/// Creates a server, and returns whether two callers read what one inserted. `B` names the history and the limits, by
/// the book of the kit's crate `logbook` that has the history, and the key of its first pen.
fn new_server_serves_two_callers<B: HistoryId, R: Wait>(
    rt: &R,
    alloc: Global,
    history: NewHistory,
    limits: Limits,
) -> Option<bool>
    requires book { history.seen.book ≡ B.book }
    requires root { history.turn.nib.key ≡ B.root }
    requires limits { limits ≡ B.limits }
{
    let server = Server::<B, Fnv>::new(alloc, Locking::Sharded, history, limits, Fnv).ok()?;
    new_callers_read_what_one_inserted(rt, alloc, &server)
}

#[test]
fn a_caller_reads_what_another_one_told_it(rt: HostRuntime) -> Result<(), Fail> {
    let history = NewHistory::new();
    let is_right = new_server_serves_two_callers::<Brand, _>(&rt, rt.alloc(), history, limits(2));
    assert!(rt; is_right.ok_or("no memory, or a refused enrolment")?);
    Ok(())
}
