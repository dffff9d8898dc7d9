//! A caller of one table alone, without a node: it stores two counts, doubles the buckets, and looks one of them up.
#![tactic(auto)]

use bucket_table::SplitRows;
use ets_term::{Atom, Fnv, Integer, Items, Term};
use packed_term::Object;
use std::alloc::{AllocError, Global};
use std::io;
use std::process::ExitCode;
use table_ops::{Kind, Refusal, Table};

/// The most objects that the table may have.
const OBJECTS: u32 = 1_000;

/// Prints the count of milk and the number of buckets. Fails with a message on standard error if there is no milk, or
/// memory runs out.
fn main(rt: HostRuntime) -> io::Result<ExitCode> {
    let Ok((Some(count), buckets)) = count_of_milk(rt.alloc()) else {
        eprintln!(rt; "no milk, or out of memory")?;
        return Ok(ExitCode::FAILURE);
    };
    println!(rt; "milk: {count}, in {buckets} buckets")?;
    Ok(ExitCode::SUCCESS)
}

/// Creates a table, stores the counts in it, and doubles its buckets. Returns the count of milk and the number of
/// buckets.
fn count_of_milk(alloc: Global) -> Result<(Option<Integer>, u32), Refusal> {
    let rows = SplitRows::new(alloc, Fnv)?;
    let mut table = Table::new(alloc, rows, Kind::Set, 1, OBJECTS);
    let counted = store_and_count(alloc, &mut table);
    drop(table);
    counted
}

/// Inserts the counts, and doubles the buckets. Returns the count of milk and the number of buckets.
fn store_and_count(
    alloc: Global,
    table: &mut Table<SplitRows<Fnv>>,
) -> Result<(Option<Integer>, u32), Refusal> {
    table.insert(stock(alloc)?.as_slice())?;
    let _growth = table.grow()?;
    let milk = atom(alloc, "milk")?;
    let found = count_in(table.lookup(&milk));
    drop(milk);
    Ok((found, table.buckets()))
}

/// Returns the two objects that go into the table: a count of tea, and a count of milk.
fn stock(alloc: Global) -> Result<Vec<Term>, AllocError> {
    Ok(vec![in alloc; count(alloc, "tea", 3)?, count(alloc, "milk", 1)?]?)
}

/// Returns the second element of the only object of a key, if it is an integer.
fn count_in(objects: &[Object]) -> Option<Integer> {
    objects.first()?.element(2)?.as_integer()
}

/// Returns the object `{name,number}`.
fn count(alloc: Global, name: &str, number: Integer) -> Result<Term, AllocError> {
    let elements = vec![in alloc; atom(alloc, name)?, Term::Int(number)]?;
    Ok(Term::Tuple(Items::from_vec(elements)))
}

/// Returns the atom with this text, which is short and printable ASCII.
fn atom(alloc: Global, text: &str) -> Result<Term, AllocError> {
    match Atom::new(alloc, text) {
        Ok(atom) => Ok(Term::Atom(atom)),
        Err(_) => Err(AllocError),
    }
}
