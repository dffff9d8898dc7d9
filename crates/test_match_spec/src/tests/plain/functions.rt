//! The values of the functions of match specifications, by the plain reading. `None` means that a function fails.
use super::*;
use crate::tests::plain::operations::{
    calculate, compare_terms, difference, is_arithmetic_operator,
};

/// Returns the boolean that a term is, or `None` if it is not one.
pub(crate) fn boolean_of(term: &Term) -> Option<bool> {
    if term.is_atom("true") {
        Some(true)
    } else if term.is_atom("false") {
        Some(false)
    } else {
        None
    }
}

/// Builds the atom of a boolean.
pub(crate) fn boolean_term(alloc: Global, b: bool) -> Option<Term> {
    atom(alloc, if b { "true" } else { "false" })
}

/// Returns the value of a function other than `andalso` and `orelse`, or `None` if it fails.
pub(crate) fn apply_function(alloc: Global, name: &Term, arguments: &[Term]) -> Option<Term> {
    if name.is_atom("and") || name.is_atom("or") {
        return boolean_term(alloc, join_booleans(arguments, name.is_atom("or"))?);
    }
    match arguments {
        [x] => apply_to_one(alloc, name, x),
        [x, y] => apply_to_two(alloc, name, x, y),
        _ => None,
    }
}

/// Returns the value of `or` if `dominant` is true, else of `and`. The value is `dominant` if an argument is
/// `dominant`, otherwise the opposite. `None` means that an argument is not a boolean.
fn join_booleans(arguments: &[Term], dominant: bool) -> Option<bool> {
    let mut joined = !dominant;
    for argument in arguments {
        if boolean_of(argument)? == dominant {
            joined = dominant;
        }
    }
    Some(joined)
}

/// Returns the name of the kind test that is true of a term.
fn kind_test_of(term: &Term) -> &'static str {
    match term {
        Term::Int(_) => "is_integer",
        Term::Atom(_) => "is_atom",
        Term::Pid(_) => "is_pid",
        Term::Tid(_) => "is_reference",
        Term::Tuple(_) => "is_tuple",
        Term::List(_) => "is_list",
        Term::Binary(_) => "is_binary",
    }
}

/// The functions that test of which kind a term is.
const KIND_TESTS: [&str; 7] = [
    "is_integer",
    "is_atom",
    "is_pid",
    "is_reference",
    "is_tuple",
    "is_list",
    "is_binary",
];

/// Returns whether a term is an atom whose text is one of these names.
pub(crate) fn is_one_of(name: &Term, names: &[&'static str]) -> bool {
    for text in names {
        if name.is_atom(*text) {
            return true;
        }
    }
    false
}

/// Returns whether an atom is the name of one of `KIND_TESTS`.
pub(crate) fn is_kind_test(name: &Term) -> bool {
    is_one_of(name, &KIND_TESTS)
}

/// Builds the term of an integer. `None` stays `None`: the function that computed the integer failed.
fn integer_term(n: Option<Integer>) -> Option<Term> {
    Some(Term::Int(n?))
}

/// Returns the value of a function of one argument.
fn apply_to_one(alloc: Global, name: &Term, x: &Term) -> Option<Term> {
    if is_kind_test(name) {
        boolean_term(alloc, name.is_atom(kind_test_of(x)))
    } else if name.is_atom("is_number") {
        boolean_term(alloc, matches!(x, Term::Int(_)))
    } else if name.is_atom("not") {
        boolean_term(alloc, !boolean_of(x)?)
    } else {
        measure_or_part(alloc, name, x)
    }
}

/// Returns the absolute value, or `None` if it overflows.
fn absolute(n: Integer) -> Option<Integer> {
    if n < 0 { difference(0, n) } else { Some(n) }
}

/// Returns the value of `abs`, `length`, `size`, `hd` or `tl`.
fn measure_or_part(alloc: Global, name: &Term, x: &Term) -> Option<Term> {
    match x {
        Term::Int(n) if name.is_atom("abs") => integer_term(absolute(*n)),
        Term::List(items) if name.is_atom("length") => integer_term(Some(items.len() as Integer)),
        Term::Tuple(items) if name.is_atom("size") => integer_term(Some(items.len() as Integer)),
        Term::Binary(bytes) if name.is_atom("size") => integer_term(Some(bytes.len() as Integer)),
        Term::List(items) => head_or_tail(alloc, name, items.as_slice()),
        _ => None,
    }
}

/// Returns the value of `hd` or `tl` of a list.
fn head_or_tail(alloc: Global, name: &Term, items: &[Term]) -> Option<Term> {
    let (first, rest) = items.split_first()?;
    if name.is_atom("hd") {
        copy(alloc, first)
    } else if name.is_atom("tl") {
        list_of_copies(alloc, rest)
    } else {
        None
    }
}

/// Builds the list of copies of these terms.
fn list_of_copies(alloc: Global, terms: &[Term]) -> Option<Term> {
    let mut items = Items::new(alloc);
    for term in terms {
        items.push(copy(alloc, term)?).ok()?;
    }
    Some(Term::List(items))
}

/// Returns the value of a function of two arguments.
fn apply_to_two(alloc: Global, name: &Term, x: &Term, y: &Term) -> Option<Term> {
    if name.is_atom("xor") {
        boolean_term(alloc, boolean_of(x)? != boolean_of(y)?)
    } else if name.is_atom("element") {
        copy(alloc, element_at(x, y)?)
    } else if is_arithmetic_operator(name) {
        integer_term(calculate(name, integer_of(x)?, integer_of(y)?))
    } else {
        boolean_term(alloc, compare_terms(name, x, y)?)
    }
}

/// Returns the integer that a term is, or `None` if it is not one.
fn integer_of(term: &Term) -> Option<Integer> {
    match term {
        Term::Int(n) => Some(*n),
        _ => None,
    }
}

/// Returns the element of a tuple at a position, from 1. The position is compared with each index, because `usize` may
/// not hold it. `None` means a position that is not an integer, or a term without an element at the position.
fn element_at<'t>(position: &Term, term: &'t Term) -> Option<&'t Term> {
    let position = integer_of(position)?;
    let Term::Tuple(items) = term else {
        return None;
    };
    for (i, item) in items.iter().enumerate() {
        if i as Integer + 1 == position {
            return Some(item);
        }
    }
    None
}
