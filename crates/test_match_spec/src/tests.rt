//! Tests of bound keys, of long and deep terms, and of random terms compared with a plain reading of the rules.
// In all helpers, `None` can also mean out of memory.
use ets_term::{Integer, Items, Term};
use match_spec::{Pattern, Spec};
use std::alloc::Global;
use std::process::Abort;

// `agreement` compares the random terms of `random` with `plain`, a second implementation. `keys` tests bound keys,
// `long` large patterns and match specifications, and `refused` calls that run out of memory. `forms` builds terms.
mod agreement;
mod forms;
mod keys;
mod long;
mod plain;
mod random;
mod refused;
