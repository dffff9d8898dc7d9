//! Packed terms: each takes 16 bytes, with its larger parts in memory of their own, and contracts see the term.
//!
//! *Guarantee.* Contracts see a packed term and an object as a `Term`. So to pack a term and to unpack it gives an equal
//! term, and an equality, an element or a changed element is that of the term. A refusal of memory is an error.
//!
//! *Weakness.* To pack, unpack, copy, compare or drop a term takes stack for each level of the term. If memory is
//! refused, `unpack_into` may have replaced parts of its target.
//!
//! *Mechanism.* A packed term is an enum. It has an integer of 64 bits, an atom of at most 14 characters and a binary of
//! at most 14 bytes in place. A tuple of two or three elements takes one block of memory, with 16 bytes for each element;
//! other tuples and lists take a `Vec`. An object has the elements of a pair in place, and takes 40 bytes.
//!
//! *Limits.* Those of terms: integers have 128 bits, and atoms at most 255 characters. This crate sets no limit of depth.
#![tactic(auto)]

// The packed term (`packed`) with its forms (`form`), the object (`object`), integers as both (`number`), and what they
// do: `pack`, `unpack`, unpack into memory that is there (`reuse`), `copy`, compare (`equal`) and change an element
// (`set`).
mod copy;
mod equal;
mod form;
mod number;
mod object;
mod pack;
mod packed;
mod reuse;
mod set;
mod unpack;

pub use object::Object;
pub use packed::Packed;
