//! A store that is called by texts, or by terms in Erlang's External Term Format: the reply is in the form of the call,
//! and a refusal has a reason in words.
//!
//! *Guarantee.* A call makes the step that its text or term spells, as the specification says, or it is refused and
//! changes nothing. The status, the number of the reply's bytes and the bytes in the caller's buffer are those of the
//! reply. A refused step has the reason that `node_reasons` names. A text that is not a call has the reason that
//! `node_reasons` finds at its first fault, and bytes that are not a call have the problem of their first fault, by
//! specs/ExternalCalls.antt. A store may move to another thread.
//!
//! *Weakness.* The problem that is named at a syntax error is a guess at what the author meant. That the external format
//! is that of Erlang is not proved: `external_term` defines it.
//!
//! *Mechanism.* If bytes are a tuple of two elements, `external_term` reads the name and the arguments directly. Else it
//! reads one term, of which the name and the arguments are taken. A store keeps the last reply, and the reason of the
//! last refusal in a few machine words. It makes the reason's text on demand. It keeps two replies: a step writes its
//! reply over the older one and uses its memory again, so the last reply stays if memory runs out. A `Request` is read,
//! and its reply is written, without the store, so that threads need a lock only while `Store::run` runs it. The keys of
//! its tables have the hash FNV-1a, or one with a seed, so that users cannot choose keys of one bucket.
//!
//! *Limits.* The tuple of a call counts as one of the 128 levels that a text may have, so an argument may have 127; in
//! a term the list of the arguments counts too, so an argument may have 126.
#![tactic(auto)]

mod call_fault;
mod call_problem;
mod copy;
mod external_call;
mod growth;
mod last_refusal;
pub mod laws;
mod print;
mod status;
mod store;
mod store_hash;
mod text_call;

pub use call_fault::CallFault;
pub use call_problem::CallProblem;
pub use external_call::{ExternalCall, read_external_call};
pub use last_refusal::LastRefusal;
pub use print::{call_text, reply_text, step_text, term_text};
pub use status::{BADARG, CLOSED, NO_MEMORY, NO_PROCESS, SYNTAX, SYSTEM_LIMIT, UNTOLD, VALUE};
pub use store::Store;
pub use store::request::Request;
