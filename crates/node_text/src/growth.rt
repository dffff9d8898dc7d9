//! How many pending growth steps may follow a call.
ghost use Rattle.std.specs.Prelude.{◌≤◌};

use ets_term::{Atom, Term};

/// The growth steps that may follow a call for each object that it may insert. A table needs less than one step for an
/// object, so its buckets keep up.
const STEPS_PER_OBJECT: usize = 2;

/// The most growth steps that may follow a call, so that no call becomes long.
const MAX_STEPS: usize = 4096;

/// Returns how many pending growth steps may follow a call: two for each object that it may insert. So the buckets of a
/// table that is filled by lists keep up too. They are at most 4,096, so that no call becomes long.
#[inline(always)]
pub(crate) fn growth_steps(name: &Atom, args: &[Term]) -> u32
    ensures least { 2 ≤ result }
    ensures most { result ≤ 4096 }
{
    match args.get(1) {
        Some(Term::List(objects)) => steps_after_list(name, objects.len()),
        _ => STEPS_PER_OBJECT as u32,
    }
}

/// Returns how many growth steps may follow a call whose second argument is a list of this length, which `insert` and
/// `insert_new` take as a list of objects.
#[inline(never)]
fn steps_after_list(name: &Atom, len: usize) -> u32
    ensures least { 2 ≤ result }
    ensures most { result ≤ 4096 }
{
    let objects = match name.text() {
        "insert" | "insert_new" => len.clamp(1, MAX_STEPS / STEPS_PER_OBJECT),
        _ => 1,
    };
    (STEPS_PER_OBJECT * objects) as u32
}
