//! A test of `keep`, which runs pending growth steps, at most one in each turn.
// Nine objects in a new table make four steps pending: to ready bucket 1, to double the buckets, and to ready buckets 2
// and 3.
ghost use Rattle.std.specs.Prelude.{◌≡◌};

use super::calls::{FILL_T, FILL_U, client_gets_value};
use super::{join_clients, limits};
use ets_term::Fnv;
use node_shared::{Client, Shared, keep};
use std::alloc::Global;
use std::marker::Brand;
use std::sync::Wait;
use std::sync::ledger::{Blank, Ledger};
use std::test::Fail;

/// How many pending steps each of four calls of `keep` ran, in this order.
#[derive(PartialEq, Drop)]
struct StepsRun {
    in_three_turns: u32,
    in_nine_turns: u32,
    in_nine_more_turns: u32,
    /// In nine turns, after another table was filled.
    of_other_table: u32,
}

/// Makes a table of a client, and inserts nine objects. `arguments` are those of both calls. Their replies are not
/// checked, since the growth steps that are pending afterwards show that both succeeded.
fn fill_table<L: Ledger, R: Wait>(
    rt: &R,
    alloc: Global,
    shared: &Shared<L, Fnv>,
    client: &mut Client<L>,
    arguments: [&str; 2],
) -> Option<()> {
    let [new, objects] = arguments;
    client_gets_value(rt, alloc, shared, client, ("new", new))?;
    client_gets_value(rt, alloc, shared, client, ("insert", objects))?;
    Some(())
}

/// Enrols a process, and lets its client fill two tables. Returns how many pending steps `keep` runs after each.
fn run_pending_in_turns<L: Ledger, R: Wait>(
    rt: &R,
    alloc: Global,
    shared: &Shared<L, Fnv>,
) -> Option<StepsRun> {
    let mut clients = join_clients(rt, alloc, shared, 1)?;
    fill_and_run(rt, alloc, shared, clients.first_mut()?)
}

/// Lets a client fill two tables. Returns how many pending steps `keep` runs after each.
fn fill_and_run<L: Ledger, R: Wait>(
    rt: &R,
    alloc: Global,
    shared: &Shared<L, Fnv>,
    client: &mut Client<L>,
) -> Option<StepsRun> {
    fill_table(rt, alloc, shared, client, FILL_T)?;
    let in_three_turns = keep(rt, shared, 3);
    let in_nine_turns = keep(rt, shared, 9);
    let in_nine_more_turns = keep(rt, shared, 9);
    fill_table(rt, alloc, shared, client, FILL_U)?;
    let of_other_table = keep(rt, shared, 9);
    Some(StepsRun {
        in_three_turns,
        in_nine_turns,
        in_nine_more_turns,
        of_other_table,
    })
}

/// Lets a client of a new node fill two tables. Returns how many pending steps `keep` runs after each. `blank` is the
/// ledger that `L` names; it has a part for the one process and one more.
fn pending_steps_run<L: Ledger, R: Wait>(rt: &R, alloc: Global, blank: Blank) -> Option<StepsRun>
    requires name { blank.name ≡ L.name }
    requires parts { blank.parts ≡ L.parts }
    requires enough { blank.parts ≡ 2 }
{
    run_pending_in_turns(
        rt,
        alloc,
        &Shared::<L, Fnv>::new(alloc, blank, limits(1), Fnv),
    )
}

#[test]
fn keep_runs_a_pending_step_in_each_turn(rt: HostRuntime) -> Result<(), Fail> {
    let wanted = StepsRun {
        in_three_turns: 3,
        in_nine_turns: 1,
        in_nine_more_turns: 0,
        of_other_table: 4,
    };
    let run = pending_steps_run::<Brand, _>(&rt, rt.alloc(), Blank::new(2)).ok_or(
        "no memory, or a refused enrolment",
    )?;
    assert!(rt; run == wanted);
    Ok(())
}
