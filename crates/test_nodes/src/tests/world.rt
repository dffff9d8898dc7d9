//! Tests of `ownership::World`: the processes and tables of a node, without its calls.
// Each test is a table of rows: a call of a method of `World`, and the answer that the rules want, called `wanted`. A
// test reports the index of the first wrong row, or `None` if each row is right.
use crate::tests::text::is_spelled;
use crate::tests::{Pid, Tid};
use bucket_table::PlainRows;
use ets_term::Term;
use ownership::{World, WorldFault};
use refused::call_has_answer_with_retry;
use single_calls::{
    empty_tuple, fix_table, give_away, info_or_undefined, list_of_rights, new_table, set_options,
    tid_or_none,
};
use std::alloc::{AllocError, Global};

// Exits of processes: heirs, deleted tables and released fixes.
mod ends;
// Hundreds of processes and tables.
mod many;
// Everything that the methods of a world show, to see whether it changed.
mod observations;
// The options of `new`, and what `info` then replies.
mod options;
// Owners, heirs, rights and names.
mod owners;
// Calls that run out of memory and are made again.
mod refused;
// Makes a call whose arguments are texts.
mod single_calls;

/// A call of a method of `World`.
#[derive(Clone, Copy)]
enum Call<'a> {
    /// The process enrols.
    Enrol(Pid),
    /// The process exits.
    End(Pid),
    /// The process makes a table of this name with these options.
    New(Pid, &'a str, &'a str),
    /// The table is deleted.
    Delete(Tid),
    /// The process gives the table to another, with this gift.
    GiveAway(Pid, Tid, Pid, &'a str),
    /// The process sets these options of the table.
    SetOptions(Pid, Tid, &'a str),
    /// The process takes the messages out of its mailbox.
    Receive(Pid),
    /// Asks for an `info` item of the table; `undefined` if the table does not exist.
    Info(Tid, &'a str),
    /// Asks for the identifier of the table that a term names; `none` if there is no such table.
    Resolve(&'a str),
    /// Asks what the process may do with the table: a list of `read`, `write` and `own`.
    Rights(Pid, Tid),
    /// The process fixes the table.
    Fix(Pid, Tid),
}

/// A call, and its wanted answer: a term, `DONE`, or a refusal such as `** badarg`.
type Row = (Call<'static>, &'static str);

/// The answer of a call without a result: the empty tuple.
const DONE: &str = "{}";

/// A world of tables over plain rows, which are in one bucket.
type PlainWorld = World<PlainRows>;

/// Returns the answer of a call that only reads, and the empty tuple for any other call.
fn query(alloc: Global, world: &PlainWorld, call: Call) -> Result<Term, WorldFault> {
    match call {
        Call::Info(id, item) => info_or_undefined(alloc, world, id.0, item),
        Call::Resolve(named) => tid_or_none(alloc, world, named),
        Call::Rights(pid, id) => list_of_rights(alloc, world, pid.0, id.0),
        _ => Ok(empty_tuple(alloc)),
    }
}

/// Makes a call that has no result, and does nothing for any other call.
fn run_call(alloc: Global, world: &mut PlainWorld, call: Call) -> Result<(), WorldFault> {
    match call {
        Call::Enrol(pid) => world.enrol(pid.0),
        Call::End(pid) => world.end(pid.0),
        Call::GiveAway(pid, id, to, gift) => give_away(alloc, world, pid.0, id.0, to.0, gift),
        Call::SetOptions(pid, id, options) => set_options(alloc, world, pid.0, id.0, options),
        Call::Delete(id) => {
            world.drop_table(id.0);
            Ok(())
        }
        _ => Ok(()),
    }
}

/// Makes a call, and returns its answer.
fn answer(alloc: Global, world: &mut PlainWorld, call: Call) -> Result<Term, WorldFault> {
    match call {
        Call::New(pid, name, options) => new_table(alloc, world, pid.0, name, options),
        Call::Receive(pid) => Ok(Term::List(world.receive(pid.0))),
        Call::Fix(pid, id) => fix_table(alloc, world, pid.0, id.0),
        _ => {
            run_call(alloc, world, call)?;
            query(alloc, world, call)
        }
    }
}

/// Returns the text of a refusal.
fn refusal(fault: &WorldFault) -> &'static str {
    match fault {
        WorldFault::Badarg => "** badarg",
        WorldFault::SystemLimit => "** system_limit",
        WorldFault::NoProcess => "** noproc",
        WorldFault::Memory => "** no memory",
    }
}

/// Makes a call, and returns whether it has the wanted answer.
fn call_has_answer(
    alloc: Global,
    world: &mut PlainWorld,
    call: Call,
    wanted: &str,
) -> Result<bool, AllocError> {
    match answer(alloc, world, call) {
        Ok(answer) => {
            let same = is_spelled(alloc, &answer, wanted);
            drop(answer);
            same
        }
        Err(WorldFault::Memory) => Err(AllocError),
        Err(fault) => Ok(refusal(&fault) == wanted),
    }
}

/// How often a call is made.
#[derive(Clone, Copy)]
enum Tries {
    /// Out of memory is an error of the test.
    Once,
    /// A second time if memory runs out.
    RetryIfOutOfMemory,
}

/// Makes the call of a row, and returns whether it has its wanted answer.
fn row_has_answer(
    alloc: Global,
    world: &mut PlainWorld,
    tries: Tries,
    row: Row,
) -> Result<bool, AllocError> {
    let (call, wanted) = row;
    match tries {
        Tries::Once => call_has_answer(alloc, world, call, wanted),
        Tries::RetryIfOutOfMemory => call_has_answer_with_retry(alloc, world, call, wanted),
    }
}

/// Makes the calls of the rows in a world, up to the first row with another answer than wanted. Returns the index of
/// that row, or `None` if each answer is the wanted one.
fn first_wrong_row_in(
    alloc: Global,
    world: &mut PlainWorld,
    tries: Tries,
    rows: &[Row],
) -> Result<Option<usize>, AllocError> {
    for (index, row) in rows.iter().enumerate() {
        if !row_has_answer(alloc, world, tries, *row)? {
            return Ok(Some(index));
        }
    }
    Ok(None)
}

/// Makes the calls of the rows in a new world for at most three processes and four tables. Returns the index of the
/// first row with another answer. `Tries` says whether a call is repeated.
fn first_wrong_row(alloc: Global, tries: Tries, rows: &[Row]) -> Result<Option<usize>, AllocError> {
    let mut world = World::new(alloc, 3, 4);
    let index = first_wrong_row_in(alloc, &mut world, tries, rows);
    drop(world);
    index
}

/// Makes the calls of each scenario in a new world. Returns the index of the first scenario with a wrong row, and the
/// index of that row. `None` means that each row is right.
fn first_wrong_scenario(
    alloc: Global,
    scenarios: &[&'static [Row]],
) -> Result<Option<(usize, usize)>, AllocError> {
    for (scenario, rows) in scenarios.iter().enumerate() {
        if let Some(row) = first_wrong_row(alloc, Tries::Once, *rows)? {
            return Ok(Some((scenario, row)));
        }
    }
    Ok(None)
}
