//! Updates counters or elements of one object: all updates of a list are done, or none, and sums are exact.
//!
//! An update is read once from a term (`read_ops`, `read_element_specs`) and then done on an object: in place
//! (`update_counter`, `write_elements`) or on a copy (`apply_ops`, `apply_elements`). `counter_value` and
//! `copy_for_element` return the new element of a single update and change nothing; `read_increment` and `read_pair`
//! read such an update without memory. If a key has no object, a new object is made from the Default, an argument of
//! the call (`start_counter`, `start_with_elements`). The contract of each call refers to its definition in
//! `specs/Counters.antt`, `specs/Elements.antt` or `specs/Defaults.antt`.
//!
//! *Guarantee.* Sums are exact. An update is refused if a new value is out of range, and a refused update changes
//! nothing. All tests of positions and elements use the object as it was before the first operation, and they come
//! before the tests of limits.
//!
//! *Mechanism.* A single operation writes one element and takes no memory. A list keeps an undo log of the integers
//! that it replaces, and writes them back if a later operation is refused. All values are tested before the first one
//! is written.
//!
//! *Weakness.* If a value has `MAX_DEPTH` levels or more, all later positions of its list are searched for a value that
//! replaces it. Thousands of such values in one list take time quadratic in their number.
//!
//! *Limits.* A value of `MAX_DEPTH` levels is refused because the object that contains it would be deeper. The depth of
//! unchanged elements is not tested again: it was tested when their object was stored. Integers are those of
//! `ets_term::Integer`.
#![tactic(auto)]

// The modules of update_counter: its operations (`ops`), a single `counter`, a `list` of operations, and the `sum`. Of
// update_element: its values (`elements`), and how to `write` them. Of both: `defaults`, `position`, `fault` and
// `laws`.
mod counter;
mod defaults;
mod elements;
mod fault;
pub mod laws;
mod list;
mod ops;
mod position;
mod stored;
mod sum;
mod write;

pub use counter::{apply_ops, update_counter};
pub use defaults::{is_valid_default, start_counter, start_with_elements, with_key};
pub use elements::{ElementSpec, ElementSpecs, read_element_specs, read_pair};
pub use fault::CounterFault;
pub use ops::{Op, Ops, Threshold, read_increment, read_ops};
pub use stored::{copy_for_element, counter_value};
pub use write::{apply_elements, write_elements};
