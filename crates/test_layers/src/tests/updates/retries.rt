//! Calls of `counters` that are retried once if memory is refused. `.ci/refusals` refuses one allocation a run, so a
//! retry has memory.
use super::*;

/// Copies a term. Retries once if memory is refused.
pub fn clone_with_retry(alloc: Global, term: &Term) -> Option<Term> {
    match term.try_clone(alloc) {
        Ok(copy) => Some(copy),
        Err(_) => term.try_clone(alloc).ok(),
    }
}

/// Reads operations, which are valid in each row, so that only memory can fail. Retries once if this fails.
pub fn read_ops_with_retry(alloc: Global, updates: &Term, keypos: u32) -> Option<Ops> {
    match read_ops(alloc, updates, keypos) {
        Ok(ops) => Some(ops),
        Err(_) => read_ops(alloc, updates, keypos).ok(),
    }
}

/// Reads element values for an object whose key is first. Retries once if this fails.
pub fn read_element_specs_with_retry(alloc: Global, values: &Term) -> Option<ElementSpecs> {
    match read_element_specs(alloc, values, 1) {
        Ok(specs) => Some(specs),
        Err(_) => read_element_specs(alloc, values, 1).ok(),
    }
}

/// Returns whether a call ran out of memory.
fn is_refused_memory<T>(outcome: &Result<T, CounterFault>) -> bool {
    matches!(outcome, Err(CounterFault::Memory))
}

/// Updates the counters of an object in place. Retries once if memory is refused and the object is still `before`. If
/// the object has changed, returns the refusal, and so the test fails.
pub fn update_counter_with_retry(
    alloc: Global,
    object: &mut Term,
    before: &Term,
    ops: &Ops,
) -> Result<Term, CounterFault> {
    let outcome = update_counter(alloc, object, ops);
    if !is_refused_memory(&outcome) || !(*object == *before) {
        return outcome;
    }
    drop(outcome);
    update_counter(alloc, object, ops)
}

/// Applies operations to a copy of an object. Retries once if memory is refused.
pub fn apply_ops_with_retry(
    alloc: Global,
    object: &Term,
    ops: &Ops,
) -> Result<(Term, Term), CounterFault> {
    let outcome = apply_ops(alloc, object, ops);
    if !is_refused_memory(&outcome) {
        return outcome;
    }
    drop(outcome);
    apply_ops(alloc, object, ops)
}

/// Applies operations to a default object whose key is first. Retries once if memory is refused.
pub fn start_counter_with_retry(
    alloc: Global,
    default: &Term,
    key: &Term,
    ops: &Ops,
) -> Result<(Term, Term), CounterFault> {
    let outcome = start_counter(alloc, default, 1, key, ops);
    if !is_refused_memory(&outcome) {
        return outcome;
    }
    drop(outcome);
    start_counter(alloc, default, 1, key, ops)
}

/// Applies element values to a copy of an object. Retries once if memory is refused.
pub fn apply_elements_with_retry(
    alloc: Global,
    object: &Term,
    specs: &ElementSpecs,
) -> Result<Term, CounterFault> {
    let outcome = apply_elements(alloc, object, specs);
    if !is_refused_memory(&outcome) {
        return outcome;
    }
    drop(outcome);
    apply_elements(alloc, object, specs)
}

/// Applies element values to a default object whose key is first. Retries once if memory is refused.
pub fn start_with_elements_with_retry(
    alloc: Global,
    default: &Term,
    key: &Term,
    specs: &ElementSpecs,
) -> Result<Term, CounterFault> {
    let outcome = start_with_elements(alloc, default, 1, key, specs);
    if !is_refused_memory(&outcome) {
        return outcome;
    }
    drop(outcome);
    start_with_elements(alloc, default, 1, key, specs)
}
