//! All that can be observed of a world, as a list of terms.
// A test compares two such lists to see whether a call that ran out of memory changed the world. The numbers 0 to 3 and
// the names are those that the test in `refused` uses.
use super::PlainWorld;
use crate::tests::keep_if_ok;
use crate::tests::text::term;
use ets_term::{Integer, Term};
use ownership::InfoItem;
use std::alloc::{AllocError, Global};

/// The `info` items of tables that are observed.
static ITEMS: [InfoItem; 10] = [
    InfoItem::Name,
    InfoItem::NamedTable,
    InfoItem::Owner,
    InfoItem::Protection,
    InfoItem::Heir,
    InfoItem::Id,
    InfoItem::Size,
    InfoItem::Kind,
    InfoItem::Keypos,
    InfoItem::Fixed,
];

/// Appends an observation.
fn add_observation(observed: &mut Vec<Term>, term: Term) -> Result<(), AllocError> {
    Ok(observed.push(term)?)
}

/// Appends 1 or 0 for true or false.
fn add_flag(observed: &mut Vec<Term>, value: bool) -> Result<(), AllocError> {
    add_observation(observed, Term::Int(Integer::from(value)))
}

/// Appends whether a process lives, and the messages in its mailbox.
fn observe_process(
    alloc: Global,
    world: &PlainWorld,
    pid: u32,
    observed: &mut Vec<Term>,
) -> Result<(), AllocError> {
    add_flag(observed, world.lives(pid))?;
    for message in world.mailbox(pid) {
        add_observation(observed, message.try_clone(alloc)?)?;
    }
    Ok(())
}

/// Returns whether a table is found by its identifier.
fn is_resolved(world: &PlainWorld, id: u32) -> bool {
    let tid = Term::Tid(id);
    let found = world.resolve(&tid);
    drop(tid);
    found.is_some()
}

/// Appends an item of a table, if the table exists.
fn observe_item(
    world: &PlainWorld,
    id: u32,
    item: InfoItem,
    observed: &mut Vec<Term>,
) -> Result<(), AllocError> {
    match world.info(id, item)? {
        Some(term) => add_observation(observed, term),
        None => Ok(()),
    }
}

/// Appends whether a table exists, and these items of it.
fn observe_items(
    world: &PlainWorld,
    id: u32,
    items: &[InfoItem],
    observed: &mut Vec<Term>,
) -> Result<(), AllocError> {
    add_flag(observed, is_resolved(world, id))?;
    for item in items {
        observe_item(world, id, *item, observed)?;
    }
    Ok(())
}

/// Appends whether a process may read and write a table, and owns it.
fn observe_rights(
    world: &PlainWorld,
    pid: u32,
    id: u32,
    observed: &mut Vec<Term>,
) -> Result<(), AllocError> {
    add_flag(observed, world.may_read(pid, id))?;
    add_flag(observed, world.may_write(pid, id))?;
    add_flag(observed, world.is_owner(pid, id))
}

/// Appends the rights in a table of processes 0 to 3.
fn observe_all_rights(
    world: &PlainWorld,
    id: u32,
    observed: &mut Vec<Term>,
) -> Result<(), AllocError> {
    for pid in 0..4 {
        observe_rights(world, pid, id, observed)?;
    }
    Ok(())
}

/// Appends the identifier of the table that has a name, or 0 if there is no such table.
fn observe_name(
    alloc: Global,
    world: &PlainWorld,
    name: &str,
    observed: &mut Vec<Term>,
) -> Result<(), AllocError> {
    let name = term(alloc, name)?;
    let found = world.resolve(&name);
    drop(name);
    match found {
        Some(id) => add_observation(observed, Term::Tid(id)),
        None => add_flag(observed, false),
    }
}

/// The names of tables that are observed.
static NAMES: [&str; 5] = ["a_name_longer_than_its_place", "u", "v", "w", "x"];

/// Appends what is observed of processes 0 to 3, and of tables 0 to 3: these items of each, and the rights of the
/// processes in it.
fn observe_numbers(
    alloc: Global,
    world: &PlainWorld,
    items: &[InfoItem],
    observed: &mut Vec<Term>,
) -> Result<(), AllocError> {
    for number in 0..4 {
        observe_process(alloc, world, number, observed)?;
        observe_items(world, number, items, observed)?;
        observe_all_rights(world, number, observed)?;
    }
    Ok(())
}

/// Appends the identifiers of the tables that have these names.
fn observe_names(
    alloc: Global,
    world: &PlainWorld,
    names: &[&'static str],
    observed: &mut Vec<Term>,
) -> Result<(), AllocError> {
    for name in names {
        observe_name(alloc, world, *name, observed)?;
    }
    Ok(())
}

/// Appends all that can be observed of the world: how many tables were made, each process, each table and each name.
fn observe_all(
    alloc: Global,
    world: &PlainWorld,
    observed: &mut Vec<Term>,
) -> Result<(), AllocError> {
    add_observation(observed, Term::Int(Integer::from(world.made())))?;
    observe_numbers(alloc, world, &ITEMS, observed)?;
    observe_names(alloc, world, &NAMES, observed)
}

/// Returns all that can be observed of a world.
pub fn observe_world(alloc: Global, world: &PlainWorld) -> Result<Vec<Term>, AllocError> {
    // There are about a hundred observations.
    let mut observed = Vec::with_capacity(alloc, 128)?;
    keep_if_ok(observe_all(alloc, world, &mut observed), observed)
}
