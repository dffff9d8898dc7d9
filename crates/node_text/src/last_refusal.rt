//! Why the last call of a store was refused.
ghost use Rattle.std.specs.Prelude.{◌≡◌, option_map, IfOk, string_bytes};
ghost use Rattle.node_core.specs.Machine.{step};
ghost use Rattle.node_core.specs.Observable.{observable};
ghost use Rattle.node_core.specs.State.{State};
ghost use Rattle.node_reasons.specs.Why.{why};
ghost use Rattle.node_text.specs.Answers.{refusal_text};
ghost use Rattle.node_text.specs.declared.last_refusal.LastRefusal.TheVariants.{Broken};

use crate::call_problem::CallProblem;
use crate::store_hash::StoreHash;
use node_core::{Node, Reply, Step};
use node_reasons::{Reason, SyntaxProblem, why};
use std::alloc::{AllocError, Global};
use std::fmt;

/// Why the last call of a store was refused.
#[derive(Clone, Copy, Debug, PartialEq, Eq)]
pub enum LastRefusal {
    /// The step breaks this rule.
    Broken(Reason),
    /// The text is not a call; this is the problem at its first syntax error.
    Syntax(SyntaxProblem),
    /// The bytes are not a call; this is the problem.
    External(CallProblem),
    /// Memory ran out.
    NoMemory,
}

impl LastRefusal {
    /// Returns why a step was refused with this reply: the rule that it broke in the state before it. Returns `None` if
    /// the reply is a value. The node gave the reply, and has not changed since. Allocates nothing.
    pub(crate) fn of(node: &Node<StoreHash>, event: &Step, reply: &Reply) -> Option<LastRefusal>
        ensures { (old : State) → step old event.now reply.now (observable node.now)
            → result ≡ option_map Broken (why old event.now reply.now) }
    {
        match why(node, event, reply) {
            Some(reason) => Some(LastRefusal::Broken(reason)),
            None => None,
        }
    }

    /// Returns the reason as a text.
    pub fn text(&self, alloc: Global) -> Result<String, AllocError>
        ensures { IfOk result (λ text. string_bytes text ≡ refusal_text self.now) }
    {
        format!(in alloc; "{self}")
    }
}

/// Writes the reason, such as `argument 1: no such table`, `unexpected '.'` or `out of memory`.
impl fmt::Display for LastRefusal {
    ghost use Rattle.std.specs.Prelude.{Some};

    ghost output = { λ refusal. Some (refusal_text refusal) };

    fn fmt<W: fmt::Write>(&self, f: &mut fmt::Formatter<W>) -> fmt::Result {
        match self {
            LastRefusal::Broken(reason) => write!(f, "{reason}"),
            LastRefusal::Syntax(problem) => write!(f, "{problem}"),
            LastRefusal::External(problem) => write!(f, "{}", problem.text()),
            LastRefusal::NoMemory => write!(f, "out of memory"),
        }
    }
}
