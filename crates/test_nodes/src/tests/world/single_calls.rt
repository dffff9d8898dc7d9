//! Helpers that make single calls of a world. Texts spell the names, options and terms that a call takes.
use super::PlainWorld;
use crate::tests::text::term;
use bucket_table::PlainRows;
use ets_term::{Atom, Items, Term};
use fixed_walk::Walked;
use ownership::{InfoItem, NewOptions, WorldFault};
use std::alloc::{AllocError, Global};
use table_ops::Table;

/// Returns the empty tuple, the answer of a call without a result.
pub fn empty_tuple(alloc: Global) -> Term {
    Term::Tuple(Items::new(alloc))
}

/// Makes a table with the options that a text spells. Returns its name if it is named, and its identifier otherwise.
pub fn new_table(
    alloc: Global,
    world: &mut PlainWorld,
    pid: u32,
    name: &str,
    options: &str,
) -> Result<Term, WorldFault> {
    let options = options_of(alloc, options)?;
    match Atom::new(alloc, name) {
        Ok(name) => {
            let name_or_tid = add_table(alloc, world, pid, &name, options);
            drop(name);
            name_or_tid
        }
        // Out of memory, or a name that is too long for an atom, which is a fault of the test.
        Err(_) => {
            drop(options);
            Err(WorldFault::Memory)
        }
    }
}

/// Returns the options of a table that a text spells.
fn options_of(alloc: Global, options_text: &str) -> Result<NewOptions, WorldFault> {
    let options = term(alloc, options_text)?;
    let new_options = NewOptions::read(alloc, &options);
    drop(options);
    new_options
}

/// Puts an empty table for at most ten objects into the world. Returns its name if it is named, and its identifier
/// otherwise.
fn add_table(
    alloc: Global,
    world: &mut PlainWorld,
    pid: u32,
    name: &Atom,
    options: NewOptions,
) -> Result<Term, WorldFault> {
    let rows = PlainRows::new(alloc);
    // The options were read from a term, so keypos is at least 1; `max` makes this known to the prover.
    let table = Table::new(alloc, rows, options.kind(), options.keypos().max(1), 10);
    world.new_table(pid, name, options, Walked::new(alloc, table))
}

/// Returns an `info` item of a table, or `undefined` if the table does not exist. An unknown item is refused.
pub fn info_or_undefined(
    alloc: Global,
    world: &PlainWorld,
    id: u32,
    item: &str,
) -> Result<Term, WorldFault> {
    let Some(item) = item_of(alloc, item)? else {
        return Err(WorldFault::Badarg);
    };
    match world.info(id, item)? {
        Some(value) => Ok(value),
        None => Ok(term(alloc, "undefined")?),
    }
}

/// Returns the `info` item that a text names, if there is such an item.
fn item_of(alloc: Global, item: &str) -> Result<Option<InfoItem>, AllocError> {
    let item = term(alloc, item)?;
    let info_item = InfoItem::read(&item);
    drop(item);
    Ok(info_item)
}

/// Returns the identifier of the table that a text names, or `none`.
pub fn tid_or_none(alloc: Global, world: &PlainWorld, named: &str) -> Result<Term, WorldFault> {
    let named = term(alloc, named)?;
    let found = world.resolve(&named);
    drop(named);
    match found {
        Some(id) => Ok(Term::Tid(id)),
        None => Ok(term(alloc, "none")?),
    }
}

/// Returns the list of what a process may do with a table: `read`, `write`, `own`.
pub fn list_of_rights(
    alloc: Global,
    world: &PlainWorld,
    pid: u32,
    id: u32,
) -> Result<Term, WorldFault> {
    let mut rights = Items::new(alloc);
    match push_rights(alloc, world, pid, id, &mut rights) {
        Ok(()) => Ok(Term::List(rights)),
        Err(_) => {
            drop(rights);
            Err(WorldFault::Memory)
        }
    }
}

/// Appends what a process may do with a table: `read`, `write` or `own`.
fn push_rights(
    alloc: Global,
    world: &PlainWorld,
    pid: u32,
    id: u32,
    rights: &mut Items<Term>,
) -> Result<(), AllocError> {
    push_right(alloc, rights, "read", world.may_read(pid, id))?;
    push_right(alloc, rights, "write", world.may_write(pid, id))?;
    push_right(alloc, rights, "own", world.is_owner(pid, id))
}

/// Appends the name of a right, if the process has this right.
fn push_right(
    alloc: Global,
    rights: &mut Items<Term>,
    right: &str,
    is_allowed: bool,
) -> Result<(), AllocError> {
    if is_allowed {
        rights.push(term(alloc, right)?)?;
    }
    Ok(())
}

/// Fixes a table for a process, and returns the empty tuple. A table that does not exist is refused.
pub fn fix_table(
    alloc: Global,
    world: &mut PlainWorld,
    pid: u32,
    id: u32,
) -> Result<Term, WorldFault> {
    let Some(table) = world.table_mut(id) else {
        return Err(WorldFault::Badarg);
    };
    match table.fix(pid) {
        Ok(()) => Ok(empty_tuple(alloc)),
        // Out of memory: no test makes the greatest number of fixes.
        Err(_) => Err(WorldFault::Memory),
    }
}

/// Gives a table to another process, with a gift that a text spells.
pub fn give_away(
    alloc: Global,
    world: &mut PlainWorld,
    pid: u32,
    id: u32,
    to: u32,
    gift: &str,
) -> Result<(), WorldFault> {
    let gift = term(alloc, gift)?;
    let given = world.give_away(pid, id, to, &gift);
    drop(gift);
    given
}

/// Sets options of a table, which a text spells.
pub fn set_options(
    alloc: Global,
    world: &mut PlainWorld,
    pid: u32,
    id: u32,
    options: &str,
) -> Result<(), WorldFault> {
    let options = term(alloc, options)?;
    let outcome = world.set_options(pid, id, &options);
    drop(options);
    outcome
}
