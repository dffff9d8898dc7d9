//! Tests of names and identifiers of tables, and of their limit. A `Row` is a step and its wanted reply.
use super::StepText::{Ask, Enrol};
use super::{Pid, Row, Tid, first_wrong_row_in, first_wrong_row_within_limits, term};
use ets_term::{Fnv, Term};
use node_core::{Limits, Node};
use std::alloc::{AllocError, Global};
use std::process::Abort;

/// The limit is one table. A name in use or a bad option is refused before the limit.
static AT_LIMIT: [Row; 5] = [
    (Enrol(Pid(0)), "<0.0.0>"),
    (Ask(Pid(0), "new(t,[named_table])"), "t"),
    (Ask(Pid(0), "new(u,[])"), "** system_limit"),
    (Ask(Pid(0), "new(t,[named_table])"), "** badarg"),
    (Ask(Pid(0), "new(u,[heap])"), "** badarg"),
];

#[test]
fn a_table_past_the_limit_is_refused(rt: HostRuntime) {
    let limits = Limits {
        processes: 1,
        tables: 1,
        objects: 1,
    };
    assert_eq!(rt;
        first_wrong_row_within_limits(rt.alloc(), limits, &AT_LIMIT),
        Ok(None)
    );
}

/// Makes a table named t, and one without a name.
static TWO_TABLES: [Row; 3] = [
    (Enrol(Pid(0)), "<0.0.0>"),
    (Ask(Pid(0), "new(t,[named_table])"), "t"),
    (Ask(Pid(0), "new(u,[])"), "#Tid<1>"),
];

/// Returns the identifier as a `Tid`, or `None` if there is none.
fn tid_of(id: Option<u32>) -> Option<Tid> {
    Some(Tid(id?))
}

/// Runs the rows in a node, up to the first wrong reply. Returns the identifier of the table that a term then names, or
/// `None` if the term names no table.
fn resolve_after(
    alloc: Global,
    node: &mut Node<Fnv>,
    rows: &[Row],
    named: &Term,
) -> Result<Option<Tid>, AllocError> {
    let _wrong_row = first_wrong_row_in(alloc, node, rows)?;
    Ok(tid_of(node.resolve(named)))
}

/// Runs the rows in a new node. Returns the identifier of the table that a term then names, or `None` if the term names
/// no table.
fn resolve_in_new_node(
    alloc: Global,
    rows: &[Row],
    named: &Term,
) -> Result<Option<Tid>, AllocError> {
    let mut node = Node::new(alloc, Limits::usual(), Fnv);
    let resolved = resolve_after(alloc, &mut node, rows, named);
    drop(node);
    resolved
}

/// Returns the identifier of the table that the term of a text names, in a new node with `TWO_TABLES`. `None` means
/// that the term names no table.
fn resolve_text(alloc: Global, named: &str) -> Result<Option<Tid>, AllocError> {
    let named = term(alloc, named)?;
    let resolved = resolve_in_new_node(alloc, &TWO_TABLES, &named);
    drop(named);
    resolved
}

/// Texts of terms, and the table that each names in a node with `TWO_TABLES`, or `None` for no table. A table was made
/// as `u`, but it is not a named table.
static NAMED: [(&str, Option<Tid>); 7] = [
    ("t", Some(Tid(0))),
    ("#Tid<0>", Some(Tid(0))),
    ("#Tid<1>", Some(Tid(1))),
    ("u", None),
    ("#Tid<2>", None),
    ("0", None),
    ("[t]", None),
];

/// Returns the first text whose term names another table than wanted. `None` means that each term names the wanted
/// table.
fn first_wrong_name(
    alloc: Global,
    rows: &[(&'static str, Option<Tid>)],
) -> Result<Option<&'static str>, AllocError> {
    for (named, wanted) in rows {
        if resolve_text(alloc, *named)? != *wanted {
            return Ok(Some(*named));
        }
    }
    Ok(None)
}

#[test]
fn names_and_identifiers_are_resolved(rt: HostRuntime) {
    assert_eq!(rt; first_wrong_name(rt.alloc(), &NAMED), Ok(None));
}

/// Makes two tables; a third is refused.
static REFUSED: [Row; 4] = [
    (Enrol(Pid(0)), "<0.0.0>"),
    (Ask(Pid(0), "new(t,[named_table])"), "t"),
    (Ask(Pid(0), "new(u,[])"), "#Tid<1>"),
    (Ask(Pid(0), "new(t,[named_table])"), "** badarg"),
];

/// Runs the rows in a node, up to the first wrong reply. Returns the identifier that the next table will get.
fn next_identifier_after(
    alloc: Global,
    node: &mut Node<Fnv>,
    rows: &[Row],
) -> Result<Tid, AllocError> {
    let _wrong_row = first_wrong_row_in(alloc, node, rows)?;
    Ok(Tid(node.next_identifier()))
}

/// Returns the next identifier of a new node that made two tables and refused a third.
fn next_identifier_after_refusal(alloc: Global) -> Result<Tid, AllocError> {
    let mut node = Node::new(alloc, Limits::usual(), Fnv);
    let identifier = next_identifier_after(alloc, &mut node, &REFUSED);
    drop(node);
    identifier
}

#[test]
fn a_refused_table_takes_no_identifier(rt: HostRuntime) {
    assert!(rt; next_identifier_after_refusal(rt.alloc()) == Ok(Tid(2)));
}
