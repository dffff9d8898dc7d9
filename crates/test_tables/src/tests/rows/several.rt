//! Insertions of three new slots by one call of `put`, while the buckets double. At the end each key must have its
//! object.
use super::checks::{Check, plain_rows_pass, split_rows_pass};
use super::*;

/// The number of calls of `put_three`.
const TIMES: u32 = 100;

/// Builds the chain of one object, this integer.
fn chain_of_one(alloc: Global, number: Integer) -> Chain {
    Chain::one(alloc, object_of(number))
}

/// Inserts three slots by one call of `put`, each with the integer of its key as its object. Returns false without a
/// change if two keys are the same or one has a slot.
pub fn put_three<R: Rows>(
    rows: &mut R,
    alloc: Global,
    keys: (Integer, Integer, Integer),
) -> Result<bool, AllocError> {
    let (first, second, third) = keys;
    let a = Term::Int(first);
    let b = Term::Int(second);
    let c = Term::Int(third);
    if a == b || b == c || a == c {
        drop((a, b, c));
        return Ok(false);
    }
    if rows.get(&a).is_some() || rows.get(&b).is_some() || rows.get(&c).is_some() {
        drop((a, b, c));
        return Ok(false);
    }
    rows.put(vec![in alloc;
        (a, chain_of_one(alloc, first)),
        (b, chain_of_one(alloc, second)),
        (c, chain_of_one(alloc, third)),
    ]?)?;
    Ok(true)
}

/// Returns the three keys of a number n: 3n, 3n + 1 and 3n + 2. No two numbers share a key.
pub fn three_keys(number: u32) -> (Integer, Integer, Integer) {
    let first = Integer::from(number).wrapping_mul(3);
    (first, first.wrapping_add(1), first.wrapping_add(2))
}

/// Puts three slots at a time while the rows grow. Returns whether all of them are inserted and found.
pub(super) fn puts_by_threes<R: Rows>(rows: &mut R, alloc: Global) -> Result<bool, AllocError> {
    let mut draws = Draws::new();
    let mut all_right = true;
    for number in 0..TIMES {
        all_right = put_three(rows, alloc, three_keys(number))? && all_right;
        grow_and_ready_some(rows, &mut draws)?;
    }
    let all_found = each_has_its_number(rows, TIMES.wrapping_mul(3));
    Ok(all_right && all_found && rows.len() == 3 * TIMES as usize)
}

#[test]
fn three_slots_are_put_at_once(rt: HostRuntime) {
    let alloc = rt.alloc();
    assert!(rt; plain_rows_pass(alloc, Check::PutByThrees) == Ok(true));
    assert!(rt; split_rows_pass(alloc, Fnv, Check::PutByThrees) == Ok(true));
    assert!(rt; split_rows_pass(alloc, Even, Check::PutByThrees) == Ok(true));
    assert!(rt; split_rows_pass(alloc, Greatest, Check::PutByThrees) == Ok(true));
}
