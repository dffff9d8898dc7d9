//! A caller of the library: it stores a price in a table, looks it up, and prints it.
#![tactic(auto)]

use ets_term::{Atom, Fnv, Items, Term};
use node_core::{Call, Limits, Node, Reply, Step};
use std::alloc::{AllocError, Global};
use std::io;

/// The process that calls.
const PID: u32 = 0;

/// Prints the price of tea, or to the standard error that there is none.
fn main(rt: HostRuntime) -> io::Result<()> {
    match price_of_tea(rt.alloc())? {
        Reply::Value(Term::Int(price)) => println!(rt; "tea costs {price}"),
        _ => eprintln!(rt; "no price"),
    }
}

/// Creates a node, and returns the reply to a look-up of the price of tea.
fn price_of_tea(alloc: Global) -> Result<Reply, AllocError> {
    let mut node = Node::new(alloc, Limits::usual(), Fnv);
    store_and_look_up(alloc, &mut node)
}

/// Enrols the process, makes three calls in it, and returns the reply to the last one.
fn store_and_look_up(alloc: Global, node: &mut Node<Fnv>) -> Result<Reply, AllocError> {
    node.step(&Step::Enrol(PID))?;
    ask(node, new(alloc)?)?;
    ask(node, insert(alloc)?)?;
    ask(node, lookup_element(alloc)?)
}

/// Makes a call in the process, and then runs at most two pending growth steps.
fn ask(node: &mut Node<Fnv>, call: Call) -> Result<Reply, AllocError> {
    let reply = node.step(&Step::Ask(PID, call))?;
    node.run_pending_steps(2);
    Ok(reply)
}

/// Returns the call `new(prices,[named_table])`.
fn new(alloc: Global) -> Result<Call, AllocError> {
    let options = vec![in alloc; word(alloc, "named_table")?]?;
    call_with(alloc, "new", Term::List(Items::from_vec(options)))
}

/// Returns the call `insert(prices,{tea,3})`.
fn insert(alloc: Global) -> Result<Call, AllocError> {
    let object = vec![in alloc; word(alloc, "tea")?, Term::Int(3)]?;
    call_with(alloc, "insert", Term::Tuple(Items::from_vec(object)))
}

/// Returns the call `lookup_element(prices,tea,2)`.
fn lookup_element(alloc: Global) -> Result<Call, AllocError> {
    let args = vec![in alloc; word(alloc, "prices")?, word(alloc, "tea")?, Term::Int(2)]?;
    Ok(Call::new(atom(alloc, "lookup_element")?, args))
}

/// Returns the call of this name whose arguments are the table and another one.
fn call_with(alloc: Global, name: &str, argument: Term) -> Result<Call, AllocError> {
    let args = vec![in alloc; word(alloc, "prices")?, argument]?;
    Ok(Call::new(atom(alloc, name)?, args))
}

/// Returns the term that is the atom with this text.
fn word(alloc: Global, text: &str) -> Result<Term, AllocError> {
    Ok(Term::Atom(atom(alloc, text)?))
}

/// Returns the atom with this text, which is short and printable ASCII.
fn atom(alloc: Global, text: &str) -> Result<Atom, AllocError> {
    Atom::new(alloc, text).map_err(|_| AllocError)
}
