//! Tests of many processes, of many tables of one process, and of names of every length.
// In a template of a reply a number replaces each N.
use super::super::StepText::End;
use super::super::{StepText, term};
use super::*;
use ets_term::Term;

/// Runs the step of a `StepText`, and returns whether its reply is the template `wanted`, filled in with a number.
fn step_text_has_filled_reply(
    alloc: Global,
    node: &mut Node<Fnv>,
    step_text: StepText,
    wanted: &str,
    number: u32,
) -> Result<bool, AllocError> {
    let wanted = fill_template(alloc, wanted, number)?;
    let has_reply = step_text_has_reply(alloc, node, step_text, wanted.as_str());
    drop(wanted);
    has_reply
}

/// Enrols a process, and returns whether the reply is its pid.
fn enrols(alloc: Global, node: &mut Node<Fnv>, pid: u32) -> Result<bool, AllocError> {
    step_text_has_filled_reply(alloc, node, Enrol(Pid(pid)), "<0.N.0>", pid)
}

/// Makes an unnamed table of a process, and returns whether it gets this identifier.
fn makes_table(alloc: Global, node: &mut Node<Fnv>, pid: u32, id: u32) -> Result<bool, AllocError> {
    step_text_has_filled_reply(alloc, node, Ask(Pid(pid), "new(u,[])"), "#Tid<N>", id)
}

/// Returns the table with this identifier, if it exists.
fn resolve_identifier(node: &Node<Fnv>, id: u32) -> Option<u32> {
    let named = Term::Tid(id);
    let found = node.resolve(&named);
    drop(named);
    found
}

/// Enrols processes 0 up to `count`, exclusive, and makes a table of each, with the identifier that is the number of
/// the process. Returns whether all steps have their replies.
fn all_enrol_and_make_tables(
    alloc: Global,
    node: &mut Node<Fnv>,
    count: u32,
) -> Result<bool, AllocError> {
    for pid in 0..count {
        if !enrols(alloc, node, pid)? || !makes_table(alloc, node, pid, pid)? {
            return Ok(false);
        }
    }
    Ok(true)
}

/// Each process whose number is a multiple of this one exits.
const EXIT_EVERY: u32 = 16;

/// Ends every sixteenth of the processes below `count`, and returns whether all these steps have their replies.
fn every_16th_exits(alloc: Global, node: &mut Node<Fnv>, count: u32) -> Result<bool, AllocError> {
    for pid in 0..count {
        if pid % EXIT_EVERY == 0 && !step_text_has_reply(alloc, node, End(Pid(pid)), "true")? {
            return Ok(false);
        }
    }
    Ok(true)
}

/// Enrols `count` processes, each with a table, and ends every sixteenth. Returns whether exactly their tables are
/// deleted.
pub fn exits_delete_tables(
    alloc: Global,
    node: &mut Node<Fnv>,
    count: u32,
) -> Result<bool, AllocError> {
    if !all_enrol_and_make_tables(alloc, node, count)? || !every_16th_exits(alloc, node, count)? {
        return Ok(false);
    }
    Ok((0..count).all(|pid| resolve_identifier(node, pid).is_some() == (pid % EXIT_EVERY != 0)))
}

#[test]
fn a_node_has_many_processes(rt: HostRuntime) {
    assert!(rt; new_node_passes(rt.alloc(), Check::Processes) == Ok(true));
}

/// Makes tables of process 0, which already has table 0. Returns whether they get the identifiers from 1 up to `count`,
/// exclusive.
fn makes_many_tables(alloc: Global, node: &mut Node<Fnv>, count: u32) -> Result<bool, AllocError> {
    for id in 1..count {
        if !makes_table(alloc, node, 0, id)? {
            return Ok(false);
        }
    }
    Ok(true)
}

/// Makes `count` tables of process 0, and returns whether its exit deletes all of them.
pub fn exit_deletes_many_tables(
    alloc: Global,
    node: &mut Node<Fnv>,
    count: u32,
) -> Result<bool, AllocError> {
    if !starts_with_table(alloc, node)?
        || !makes_many_tables(alloc, node, count)?
        || !step_text_has_reply(alloc, node, End(Pid(0)), "true")?
    {
        return Ok(false);
    }
    Ok(
        node.next_identifier() == count
            && (0..count).all(|id| resolve_identifier(node, id).is_none()),
    )
}

#[test]
fn a_process_has_many_tables(rt: HostRuntime) {
    assert!(rt; new_node_passes(rt.alloc(), Check::Tables) == Ok(true));
}

/// Makes a table with this name, and returns whether the name resolves to it.
fn table_takes_name(
    alloc: Global,
    node: &mut Node<Fnv>,
    name: &str,
    id: u32,
) -> Result<bool, AllocError> {
    Ok(makes_named_table(alloc, node, name)? && name_resolves_to(alloc, node, name, id)?)
}

/// Makes a table of process 0, and returns whether it gets this name.
fn makes_named_table(alloc: Global, node: &mut Node<Fnv>, name: &str) -> Result<bool, AllocError> {
    let call = format!(in alloc; "new({name},[named_table])")?;
    let has_reply = call_has_reply(alloc, node, call.as_str(), name);
    drop(call);
    has_reply
}

/// Returns whether a name resolves to this table.
fn name_resolves_to(
    alloc: Global,
    node: &Node<Fnv>,
    name: &str,
    id: u32,
) -> Result<bool, AllocError> {
    let named = term(alloc, name)?;
    let found = node.resolve(&named);
    drop(named);
    Ok(found == Some(id))
}

/// Makes tables with names of 1 up to 255 letters, the length of the longest atom. `name` is empty at the start, and
/// gets a letter for each table. The identifier of each table is the length of its name, because table 0 exists.
/// Returns the first length at which a table does not get its name, or `None`.
fn first_wrong_length(
    alloc: Global,
    node: &mut Node<Fnv>,
    name: &mut String,
) -> Result<Option<u32>, AllocError> {
    for id in 1..256 {
        name.push('n')?;
        if !table_takes_name(alloc, node, name.as_str(), id)? {
            return Ok(Some(id));
        }
    }
    Ok(None)
}

/// Makes tables with names of every length, and returns whether each gets its name.
pub fn tables_take_names(alloc: Global, node: &mut Node<Fnv>) -> Result<bool, AllocError> {
    if !starts_with_table(alloc, node)? {
        return Ok(false);
    }
    let mut name = String::new(alloc);
    let wrong_length = first_wrong_length(alloc, node, &mut name);
    drop(name);
    Ok(wrong_length?.is_none())
}

#[test]
fn names_have_every_length(rt: HostRuntime) {
    assert!(rt; new_node_passes(rt.alloc(), Check::Names) == Ok(true));
}
