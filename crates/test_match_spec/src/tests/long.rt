//! Patterns and match specifications of thousands of parts, and a sum of 128 additions inside each other: as many as
//! the greatest depth of a term.
// `None` means out of memory, or that something does not compile, does not match or has no result. Each fails its test.
use super::*;
use crate::tests::forms::{atom, one_item, pair, triple};

/// The number of variables of the long pattern, and of clauses of the long match specification.
const COUNT: u32 = 10_000;

/// The number of the last variable.
const LAST: u32 = 9_999;

/// Builds the variable of a number, such as `'$7'` for 7.
fn variable_atom(alloc: Global, number: u32) -> Option<Term> {
    let text = format!(in alloc; "${number}").ok()?;
    atom(alloc, text.as_str())
}

/// Builds the pattern `{'$9999',..,'$0'}`.
fn many_variables(alloc: Global) -> Option<Term> {
    let mut variables = Items::new(alloc);
    for n in 0..=LAST {
        variables
            .push(variable_atom(alloc, LAST.saturating_sub(n))?)
            .ok()?;
    }
    Some(Term::Tuple(variables))
}

/// Builds the object `{9999,..,0}`.
fn many_numbers(alloc: Global) -> Option<Term> {
    let mut numbers = Items::new(alloc);
    for n in 0..=LAST {
        let number = Integer::from(LAST.saturating_sub(n));
        numbers.push(Term::Int(number)).ok()?;
    }
    Some(Term::Tuple(numbers))
}

/// Returns whether there are `COUNT` values, each equal to its index.
fn are_indices(values: &[Term]) -> bool {
    for (i, value) in values.iter().enumerate() {
        if *value != Term::Int(i as Integer) {
            return false;
        }
    }
    values.len() == COUNT as usize
}

/// Returns whether a pattern binds the variable of each number to this number in the object `{9999,..,0}`.
fn binds_in_order(alloc: Global, pattern: &Pattern) -> Option<bool> {
    let values = pattern.bindings(alloc, &many_numbers(alloc)?).ok()??;
    Some(are_indices(values.as_slice()))
}

/// Returns whether a pattern of `COUNT` variables gives their values in the order of the variables' numbers.
fn binds_many_in_order(alloc: Global) -> Option<bool> {
    let pattern = Pattern::compile(alloc, &many_variables(alloc)?).ok()?;
    binds_in_order(alloc, &pattern)
}

#[test]
fn thousands_of_variables_are_bound_in_order(rt: HostRuntime) {
    assert!(rt; binds_many_in_order(rt.alloc()) == Some(true));
}

/// Builds the body `['$1']`.
fn variable_body(alloc: Global) -> Option<Term> {
    Some(Term::List(one_item(alloc, atom(alloc, "$1")?)?))
}

/// Builds the clause `{{Key,'$1'},[],['$1']}`, which gives the second element of an object with this key.
fn clause_of_key(alloc: Global, key: Integer) -> Option<Term> {
    let pattern = pair(alloc, Term::Int(key), atom(alloc, "$1")?)?;
    triple(
        alloc,
        pattern,
        Term::List(Items::new(alloc)),
        variable_body(alloc)?,
    )
}

/// Builds the match specification of a clause for each key below `COUNT`.
fn many_clauses(alloc: Global) -> Option<Term> {
    let mut clauses = Items::new(alloc);
    for n in 0..COUNT {
        clauses.push(clause_of_key(alloc, Integer::from(n))?).ok()?;
    }
    Some(Term::List(clauses))
}

/// Returns whether the result on the object `{N,N}` is `N`.
fn result_is_number(alloc: Global, spec: &Spec, n: Integer) -> Option<bool> {
    let object = pair(alloc, Term::Int(n), Term::Int(n))?;
    Some(spec.result(alloc, &object).ok()?? == Term::Int(n))
}

/// Returns whether the result on the object `{N,N}` is `N`, for each of these numbers.
fn results_are_numbers(alloc: Global, spec: &Spec, numbers: &[Integer]) -> bool {
    for n in numbers {
        if result_is_number(alloc, spec, *n) != Some(true) {
            return false;
        }
    }
    true
}

/// Returns whether the match specification `many_clauses` gives the right result for each of these keys.
fn many_clauses_have_results(alloc: Global, numbers: &[Integer]) -> Option<bool> {
    let spec = Spec::compile(alloc, &many_clauses(alloc)?).ok()?;
    Some(results_are_numbers(alloc, &spec, numbers))
}

#[test]
fn thousands_of_clauses_are_tried_in_order(rt: HostRuntime) {
    // The first keys, the last one, some powers of two, and one below a power of two.
    let numbers = [0, 1, 2, 255, 256, 4_096, 8_192, 9_999];
    assert!(rt; many_clauses_have_results(rt.alloc(), &numbers) == Some(true));
}

/// Builds the expression `{+,{+,..{+,2,1}..,1},1}` with this number of additions. Its value is this number plus 2.
fn deep_sum(alloc: Global, levels: usize) -> Option<Term> {
    let mut sum = Term::Int(2);
    for _ in 0..levels {
        sum = triple(alloc, atom(alloc, "+")?, sum, Term::Int(1))?;
    }
    Some(sum)
}

/// Builds the match specification whose result on each object is the value of an expression.
fn spec_of(alloc: Global, expression: Term) -> Option<Term> {
    let body = Term::List(one_item(alloc, expression)?);
    let clause = triple(
        alloc,
        atom(alloc, "_")?,
        Term::List(Items::new(alloc)),
        body,
    )?;
    Some(Term::List(one_item(alloc, clause)?))
}

/// Returns the value of an expression that has no variables. It is evaluated on the object `{1}`, which it does not
/// read.
fn value_of_expression(alloc: Global, expression: Term) -> Option<Term> {
    let spec = Spec::compile(alloc, &spec_of(alloc, expression)?).ok()?;
    spec.result(alloc, &Term::Tuple(one_item(alloc, Term::Int(1))?))
        .ok()?
}

/// Returns the value of a sum with this number of additions inside each other.
fn value_of_deep_sum(alloc: Global, levels: usize) -> Option<Term> {
    value_of_expression(alloc, deep_sum(alloc, levels)?)
}

#[test]
fn an_expression_128_deep_has_its_value(rt: HostRuntime) {
    assert!(rt; value_of_deep_sum(rt.alloc(), 128) == Some(Term::Int(130)));
}
