//! Why a line of a script or a call was refused: the first rule that its step breaks, in the order of the specification,
//! with the argument that the rule is about, or what is wrong at its syntax error.
//!
//! *Guarantee.* `why` returns no reason if the reply is a value. If the step was refused, `why` returns the reason that
//! specs/Why.antt names in the state before the step. The law in `laws` ties reasons to the specification: a step with a
//! reason is refused as the reason's rule says, and a step without a reason gets a value. `diagnose_at` and
//! `diagnose_in_call` return what specs/SyntaxProblems.antt says about an offset, by the text before it and the text from
//! it on. The texts of all these are those of specs/Words.antt, specs/SyntaxWords.antt and specs/Diagnostics.antt.
//!
//! *Weakness.* One reason covers the three limits that an update of counters or elements can exceed. The problem that is
//! named at a syntax error is a guess at what the author meant.
//!
//! *Mechanism.* A refused step changes nothing, so `why` finds the node as the step found it. It tries all rules of a
//! call but the last, in their order. If none of these is broken, the last one is. A line is scanned again up to its
//! syntax error; the scan keeps only the open quotes and brackets.
//!
//! *Limits.* There is no guarantee for a reply that the specification does not allow for this step. Nothing here
//! allocates or changes anything.
#![tactic(auto)]

mod access;
mod calls;
mod classes;
mod diagnostic;
mod forms;
pub mod laws;
mod lex_state;
mod options;
mod reason;
mod refusals;
mod syntax_problem;
mod syntax_words;
mod tables;
mod updates;
mod words;

pub use diagnostic::Diagnostic;
pub use reason::{Reason, Rule};
pub use refusals::why;
pub use syntax_problem::{SyntaxProblem, diagnose_at, diagnose_in_call};
