//! A term that is too deep for a recursive call. The test takes it apart level by level, because its drop recurses too.
use super::keep_if_some;
use ets_term::{Items, Term};
use std::alloc::Global;

/// The depth of the term: so great that a recursion through all levels would overflow the call stack.
const LEVELS: usize = 200_000;

/// Builds the list whose only item is this term.
fn list_of(alloc: Global, term: Term) -> Option<Term> {
    let mut outer = Items::new(alloc);
    Some(Term::List(keep_if_some(outer.push(term).ok(), outer)?))
}

/// Builds lists within lists, to this depth. The innermost list is empty.
pub fn nested_list(alloc: Global, levels: usize) -> Option<Term> {
    let mut term = Term::List(Items::new(alloc));
    for _ in 1..levels {
        term = list_of(alloc, term)?;
    }
    Some(term)
}

/// Returns the last item of a list, if the list has one, and drops the rest. The outer None means that the term is not
/// a list.
fn last_of(term: Term) -> Option<Option<Term>> {
    match term {
        Term::List(items) => {
            let mut items = items;
            let last = items.pop();
            drop(items);
            Some(last)
        }
        other => {
            drop(other);
            None
        }
    }
}

/// Takes nested lists apart, the outermost first, so that no drop recurses. Returns their number, but at most `LEVELS`.
fn count_levels(term: Term) -> usize {
    let mut rest = Some(term);
    for levels in 0..LEVELS {
        let Some(list) = rest else {
            return levels;
        };
        let Some(last) = last_of(list) else {
            return levels;
        };
        rest = last;
    }
    drop(rest);
    LEVELS
}

/// Returns whether `is_too_deep` holds for nested lists of depth `LEVELS`, which are then taken apart. None means out
/// of memory.
fn deep_list_is_too_deep(alloc: Global) -> Option<bool> {
    let term = nested_list(alloc, LEVELS)?;
    let is_too_deep = term.is_too_deep();
    Some(count_levels(term) == LEVELS && is_too_deep)
}

/// Checks that `is_too_deep` does not recurse through all levels, which would overflow the call stack.
#[test]
fn the_depth_is_read_no_further_than_the_limit(rt: HostRuntime) {
    assert!(rt; deep_list_is_too_deep(rt.alloc()) == Some(true));
}
