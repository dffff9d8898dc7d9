//! Terms of Erlang: equal exactly if built alike (same kind, equal parts), with a total order and hashes.
//!
//! *Guarantee.* Contracts see a term as the enum `Term` itself, with lists in place of `Items` and of the characters of
//! an `Atom`. So `≡` says that two terms are built alike. Every term is in range: its numbers fit their types, and its
//! atoms have valid text.
//!
//! *Weakness.* To copy, compare, hash or drop a term takes stack for each level of the term. A copy copies all parts
//! and shares none.
//!
//! *Mechanism.* A term owns its parts. An atom keeps up to 22 characters inline and allocates memory for more.
//!
//! *Limits.* Integers have 128 bits, and atoms at most 255 characters. This crate sets no limit of depth;
//! `Term::is_too_deep` tests for more than 128 levels.
#![tactic(auto)]

// The modules of terms: the enum (`term`), its integers (`integer`), atoms (`atom`, `atom_text`) and lists (`items`),
// the range of its values (`fits`), order and equality (`compare`, `equal`), and copies that `reuse` memory. The
// modules of hashes: the writes to a hasher (`hash`), the trait of hashers (`key_hash`), the hashers `fnv` and `keyed`,
// and `laws`.
mod atom;
mod atom_text;
mod compare;
mod equal;
mod fits;
mod fnv;
mod hash;
mod integer;
mod items;
mod key_hash;
mod keyed;
pub mod laws;
mod reuse;
mod term;

pub use atom::{Atom, AtomFault, MAX_CHARACTERS};
pub use fnv::Fnv;
pub use integer::{Integer, Position};
pub use items::Items;
pub use key_hash::{AllSame, KeyHash};
pub use keyed::Keyed;
pub use term::{MAX_DEPTH, Term};
