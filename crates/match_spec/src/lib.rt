//! Compiles patterns and match specifications from terms, and computes exactly the bindings and results that their
//! definitions give for the raw terms.
//!
//! *Guarantee.* `compile` refuses a term exactly if it is not a pattern or match specification. `Pattern::bindings`
//! returns the only bindings by which a term matches, or `None` if it does not match. `Spec::result` returns the result
//! of the first clause that matches the object and whose conditions hold. If `bound_key` returns a key, every object
//! that matches has it. An object that `rejects_packed` rejects has no result.
//!
//! *Weakness.* Each result is a new term, and `'$$'` copies all bindings.
//!
//! *Mechanism.* A compiled pattern or match specification keeps its raw term, and contracts see only that term. A
//! variable is compiled to the path of its first occurrence in the pattern. Bindings are read in the object by these
//! paths. Matching an object takes no memory, except where an expression makes a new value. A match specification of
//! one clause may keep a quick test of one element. `Spec::rejects_packed` makes this test on a packed object. It
//! rejects most objects, which then need not be unpacked.
//!
//! *Limits.* Variables have numbers up to 100,000,000.
//!
//! The meaning follows the ERTS User's Guide, chapter Match Specifications in Erlang. `docs/match-specifications.md`
//! has an example of each function.
#![tactic(auto)]

// The modules: a `pattern`, its variables (`variable`), an `expression`, a match specification (`spec`), the key that
// every match has (`bound_key`), faults (`fault`) and `laws`.
mod bound_key;
mod expression;
mod fault;
pub mod laws;
mod pattern;
mod spec;
mod variable;

pub use fault::SpecFault;
pub use pattern::Pattern;
pub use spec::Spec;
