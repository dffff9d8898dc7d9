//! Chains: a chain has the objects of one item of a node list, in their order. The tests push, pop, remove and replace
//! objects, which are integers.
use crate::tests::keep_if_ok;
use ets_term::{Integer, Term};
use node_list::Chain;
use packed_term::Object;
use std::alloc::{AllocError, Global};
use std::process::Abort;

/// Pushes these numbers to a chain, in this order.
fn push_numbers(chain: &mut Chain, numbers: &[i64]) -> Result<(), AllocError> {
    for number in numbers {
        chain.push(Object::from(*number))?;
    }
    Ok(())
}

/// Builds the chain of these numbers.
fn chain_of(alloc: Global, numbers: &[i64]) -> Result<Chain, AllocError> {
    let mut chain = Chain::new(alloc);
    keep_if_ok(push_numbers(&mut chain, numbers), chain)
}

/// Returns whether an object is this number.
fn is_numbered(object: &Object, number: i64) -> bool {
    object.as_integer() == Some(Integer::from(number))
}

/// Returns whether the objects are these numbers, in this order.
pub fn are_numbers(objects: &[Object], numbers: &[i64]) -> bool {
    for (object, number) in objects.iter().zip(numbers.iter()) {
        if !is_numbered(object, *number) {
            return false;
        }
    }
    objects.len() == numbers.len()
}

/// Returns the length of a chain, and drops it.
fn length_then_drop(chain: Chain) -> usize {
    let length = chain.len();
    drop(chain);
    length
}

#[test]
fn a_new_chain_has_no_term_or_one(rt: HostRuntime) {
    assert!(rt; length_then_drop(Chain::new(rt.alloc())) == 0);
    assert!(rt; length_then_drop(Chain::one(rt.alloc(), Object::from(1))) == 1);
}

/// Pushes the numbers below `count`, from 0 on.
fn push_below(chain: &mut Chain, count: u32) -> Result<(), AllocError> {
    for number in 0..count {
        chain.push(Object::from(i64::from(number)))?;
    }
    Ok(())
}

/// Pops the last term. Returns whether it is this number.
pub fn pops_number(chain: &mut Chain, number: i64) -> bool {
    match chain.pop() {
        Some(last) => {
            let same = is_numbered(&last, number);
            drop(last);
            same
        }
        None => false,
    }
}

/// How many terms a chain gets: enough for its memory to grow many times.
const COUNT: u32 = 5_000;

/// The last of the numbers below `COUNT`.
const LAST: i64 = 4_999;

/// Pushes the numbers below `COUNT`. Returns whether the last two are popped, the last first.
fn pushes_and_pops(chain: &mut Chain) -> Result<bool, AllocError> {
    push_below(chain, COUNT)?;
    Ok(chain.len() == COUNT as usize && pops_number(chain, LAST) && pops_number(chain, LAST - 1))
}

/// Returns whether `pushes_and_pops` holds for a new chain.
fn a_new_chain_pushes_and_pops(alloc: Global) -> Result<bool, AllocError> {
    let mut chain = Chain::new(alloc);
    let holds = pushes_and_pops(&mut chain);
    drop(chain);
    holds
}

/// Checks a chain of many terms.
#[test]
fn pushed_terms_are_popped(rt: HostRuntime) {
    assert!(rt; a_new_chain_pushes_and_pops(rt.alloc()) == Ok(true));
}

/// Removes each term that is this number. Returns how many it removed.
fn remove_number(chain: &mut Chain, number: Integer) -> usize {
    let term = Term::Int(number);
    let count = chain.remove_all(&term);
    drop(term);
    count
}

/// Removes 4 and then 1 from the chain 1, 2, 1, 3, 1. Returns whether the first removes nothing, and the second leaves
/// 2 and 3.
fn removes_three_ones(chain: &mut Chain) -> bool {
    let removed_none = remove_number(chain, 4) == 0;
    removed_none && remove_number(chain, 1) == 3 && are_numbers(chain.as_slice(), &[2, 3])
}

/// Replaces the first term of the chain 2, 3 by 7. Returns whether 2 was replaced. `replace` requires an index below
/// the length.
fn replaces_first(chain: &mut Chain) -> bool {
    if chain.len() != 2 {
        return false;
    }
    let old = chain.replace(0, Object::from(7));
    let same = is_numbered(&old, 2);
    drop(old);
    same && are_numbers(chain.as_slice(), &[7, 3])
}

/// Truncates the chain 7, 3 to three terms and then to one. Returns whether the first changes nothing, and the second
/// leaves 7.
fn cuts_off_last(chain: &mut Chain) -> bool {
    chain.truncate(3);
    let is_unchanged = chain.len() == 2;
    chain.truncate(1);
    is_unchanged && are_numbers(chain.as_slice(), &[7])
}

/// Returns whether the chain 1, 2, 1, 3, 1 has the expected terms after each removal, replacement and cut.
fn removes_replaces_and_cuts_off(alloc: Global) -> Result<bool, AllocError> {
    let mut chain = chain_of(alloc, &[1, 2, 1, 3, 1])?;
    let holds = removes_three_ones(&mut chain)
        && replaces_first(&mut chain)
        && cuts_off_last(&mut chain);
    drop(chain);
    Ok(holds)
}

#[test]
fn terms_are_removed_replaced_and_cut_off(rt: HostRuntime) {
    assert!(rt; removes_replaces_and_cuts_off(rt.alloc()) == Ok(true));
}

/// Empties the chain of 1 in three ways. Returns whether it has the expected terms after each.
fn empties_and_refills(chain: &mut Chain) -> Result<bool, AllocError> {
    chain.truncate(1);
    let mut all_right = are_numbers(chain.as_slice(), &[1]) && pops_number(chain, 1);
    chain.push(Object::from(2))?;
    all_right = remove_number(chain, 1) == 0 && remove_number(chain, 2) == 1 && all_right;
    push_numbers(chain, &[3, 4])?;
    chain.truncate(0);
    all_right = chain.pop().is_none() && all_right;
    push_numbers(chain, &[5, 6])?;
    Ok(all_right && are_numbers(chain.as_slice(), &[5, 6]))
}

/// Returns whether `empties_and_refills` holds for the chain of 1.
fn a_chain_of_one_is_emptied(alloc: Global) -> Result<bool, AllocError> {
    let mut chain = Chain::one(alloc, Object::from(1));
    let holds = empties_and_refills(&mut chain);
    drop(chain);
    holds
}

/// Checks a chain of one term, which becomes empty and gets terms again.
#[test]
fn a_chain_is_emptied_and_refilled(rt: HostRuntime) {
    assert!(rt; a_chain_of_one_is_emptied(rt.alloc()) == Ok(true));
}
