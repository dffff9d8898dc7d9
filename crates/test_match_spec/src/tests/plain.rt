//! A plain reading of the rules: a second implementation of patterns and match specifications, which the tests compare
//! with `match_spec`. It shares no code with that crate.
// It reads terms as they are: it has no paths and compiles nothing.
use crate::tests::forms::{atom, copy};
use ets_term::{Integer, Items, Term};
use std::alloc::Global;

// `checks` decides which terms are match specifications. `matching` matches patterns. `clauses` gives the result of a
// match specification, by the values of expressions in `values`, `functions` and `operations`.
mod checks;
mod clauses;
mod functions;
mod matching;
mod operations;
mod values;

pub(crate) use checks::is_spec;
pub(crate) use clauses::result;
pub(crate) use matching::bindings;
