//! Tests of worlds with many processes or tables.
// The larger test compares the owner and the fix of each table with those of a plain model, `owner_and_fix_after`.
use super::PlainWorld;
use super::single_calls::{fix_table, new_table};
use ets_term::Term;
use ownership::{World, WorldFault};
use std::alloc::Global;
use std::process::Abort;

/// How many processes enrol, each of which makes one table.
const MANY: u32 = 300;

/// How many tables one process makes, all with one heir.
const TABLES: u32 = 70;

/// The owner that a table gets in comparisons if it does not exist. It is not the number of a process, since those are
/// below `MANY`.
const GONE: u32 = 1_000;

/// Makes a table of the process, with this heir and the gift 1.
fn make_with_heir(
    alloc: Global,
    world: &mut PlainWorld,
    pid: u32,
    heir: u32,
) -> Result<(), WorldFault> {
    let options = format!(in alloc; "[{{heir,<0.{heir}.0>,1}}]")?;
    let name_or_tid = new_table(alloc, world, pid, "t", options.as_str());
    drop(options);
    drop(name_or_tid?);
    Ok(())
}

/// Returns the owner of a table and whether it is fixed, or `GONE` if the table does not exist.
fn owner_and_fix(world: &PlainWorld, id: u32) -> (u32, bool) {
    match (world.metadata(id), world.table(id)) {
        (Some(metadata), Some(table)) => (metadata.owner, table.is_fixed()),
        _ => (GONE, false),
    }
}

/// Returns whether there are `wanted` messages, the first about table 0, the second about table 1, and so on.
fn are_about_tables_in_order(messages: &[Term], wanted: u32) -> bool {
    for (index, message) in messages.iter().enumerate() {
        let Term::Tuple(elements) = message else {
            return false;
        };
        // A message is `{'ETS-TRANSFER',Table,From,Gift}`.
        match elements.as_slice().get(1) {
            Some(Term::Tid(id)) if *id as usize == index => {}
            _ => return false,
        }
    }
    messages.len() == wanted as usize
}

/// Makes `TABLES` tables of process 0, whose heir is process 1.
fn make_all_with_one_heir(alloc: Global, world: &mut PlainWorld) -> Result<(), WorldFault> {
    world.enrol(0)?;
    world.enrol(1)?;
    for _ in 0..TABLES {
        make_with_heir(alloc, world, 0, 1)?;
    }
    Ok(())
}

/// Returns whether none of the `TABLES` tables exists.
fn all_are_gone(world: &PlainWorld) -> bool {
    for id in 0..TABLES {
        if owner_and_fix(world, id) != (GONE, false) {
            return false;
        }
    }
    true
}

/// Returns whether the exit of process 0 passes all tables to their heir in order, and the heir's exit deletes them.
fn passes_tables_on(alloc: Global, world: &mut PlainWorld) -> Result<bool, WorldFault> {
    make_all_with_one_heir(alloc, world)?;
    world.end(0)?;
    let last = owner_and_fix(world, TABLES - 1);
    let is_inherited = are_about_tables_in_order(world.mailbox(1), TABLES) && last == (1, false);
    world.end(1)?;
    Ok(is_inherited && all_are_gone(world))
}

/// Returns whether, in a new world, the exit of the owner passes all tables on, and the exit of the heir deletes them.
fn new_world_passes_tables_on(alloc: Global) -> Result<bool, WorldFault> {
    let mut world = World::new(alloc, 2, TABLES);
    let passed_on = passes_tables_on(alloc, &mut world);
    drop(world);
    passed_on
}

#[test]
fn seventy_tables_go_to_one_heir(rt: HostRuntime) {
    assert!(rt; new_world_passes_tables_on(rt.alloc()) == Ok(true));
}

/// Returns the heir of a table. Different tables have different heirs, because 17 and `MANY` have no common divisor
/// but 1.
fn heir_of(id: u32) -> u32 {
    id.wrapping_mul(17).wrapping_add(1) % MANY
}

/// Returns the process that fixes a table. Different tables are fixed by different processes, because 11 and `MANY`
/// have no common divisor but 1.
fn fixer_of(id: u32) -> u32 {
    id.wrapping_mul(11).wrapping_add(5) % MANY
}

/// Returns the process that exits in a turn. Each process exits in one of `MANY` turns, because 7 and `MANY` have no
/// common divisor but 1.
fn process_to_end(turn: u32) -> u32 {
    turn.wrapping_mul(7) % MANY
}

/// Returns whether a process has exited after a number of turns.
fn has_exited(pid: u32, turns: u32) -> bool {
    for turn in 0..turns {
        if process_to_end(turn) == pid {
            return true;
        }
    }
    false
}

/// Returns the owner that a table must have after a number of turns, and whether it must be fixed. The exit of its
/// owner passes it to its heir, or deletes it if the heir has exited.
fn owner_and_fix_after(id: u32, turns: u32) -> (u32, bool) {
    let heir = heir_of(id);
    let owner = if !has_exited(id, turns) {
        id
    } else if has_exited(heir, turns) {
        GONE
    } else {
        heir
    };
    (owner, owner != GONE && !has_exited(fixer_of(id), turns))
}

/// Enrols the processes 0 to `MANY` - 1.
fn enrol_all(world: &mut PlainWorld) -> Result<(), WorldFault> {
    for pid in 0..MANY {
        world.enrol(pid)?;
    }
    Ok(())
}

/// Makes a table of each process, with the heir `heir_of`, and fixes it for the process `fixer_of`.
fn make_and_fix_all(alloc: Global, world: &mut PlainWorld) -> Result<(), WorldFault> {
    for id in 0..MANY {
        make_with_heir(alloc, world, id, heir_of(id))?;
        drop(fix_table(alloc, world, fixer_of(id), id)?);
    }
    Ok(())
}

/// Returns the first table with another owner or fix than it must have after a number of turns, or `None` if each is
/// right.
fn first_wrong_table_after(world: &PlainWorld, turns: u32) -> Option<u32> {
    for id in 0..MANY {
        if owner_and_fix(world, id) != owner_and_fix_after(id, turns) {
            return Some(id);
        }
    }
    None
}

/// Ends all processes one by one. Returns the first compared turn after which a table has a wrong owner or fix, and the
/// table, or `None`. Compares after one turn in 16 and after the last, since to compare after each turn would take too
/// long.
fn first_wrong_table_while_ending(
    world: &mut PlainWorld,
) -> Result<Option<(u32, u32)>, WorldFault> {
    for turn in 0..MANY {
        world.end(process_to_end(turn))?;
        if turn % 16 == 0 || turn + 1 == MANY {
            if let Some(id) = first_wrong_table_after(world, turn + 1) {
                return Ok(Some((turn, id)));
            }
        }
    }
    Ok(None)
}

/// Fills a world and ends all its processes. Returns the first compared turn after which a table is wrong, and the
/// table, or `None`. Compares after one turn in 16 and after the last.
fn first_wrong_turn(
    alloc: Global,
    world: &mut PlainWorld,
) -> Result<Option<(u32, u32)>, WorldFault> {
    enrol_all(world)?;
    make_and_fix_all(alloc, world)?;
    first_wrong_table_while_ending(world)
}

/// Fills a new world and ends all its processes. Returns the first compared turn after which a table is wrong, and the
/// table, or `None`. Compares after one turn in 16 and after the last.
fn first_wrong_turn_of_new_world(alloc: Global) -> Result<Option<(u32, u32)>, WorldFault> {
    let mut world = World::new(alloc, MANY, MANY);
    let turn = first_wrong_turn(alloc, &mut world);
    drop(world);
    turn
}

#[test]
fn three_hundred_ends_pass_tables_to_heirs(rt: HostRuntime) {
    assert!(rt; first_wrong_turn_of_new_world(rt.alloc()) == Ok(None));
}
