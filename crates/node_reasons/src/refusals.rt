//! The function `why`, which returns the reason of a refused step: the first rule that the step breaks. A function
//! `refusal_reason_*` does not check the last rule of its call: that rule is broken if all others hold.
ghost use Rattle.std.specs.Prelude.{◌≡◌, is_some, not, position};
ghost use Rattle.ets_term.specs.Depth.{is_too_deep};
ghost use Rattle.node_core.specs.Machine.{step};
ghost use Rattle.node_core.specs.Observable.{observable};
ghost use Rattle.node_core.specs.State.{State};
ghost use Rattle.node_core.specs.Values.{is_value};
ghost use Rattle.node_reasons.specs.Why.{why};
ghost use Rattle.node_reasons.specs.inside.RefusalReasonsOfCalls.{reason_for, refusal_reason, refusal_reason_of_ask};

use crate::calls::{limit_of, refusal_reason_of_call};
use crate::reason::{Reason, Rule};
use bucket_table::Rows;
use ets_term::{KeyHash, Term};
use node_core::{Call, CallName, Node, Reply, Step};
use ownership::World;

/// Returns why a step has this reply: the first rule that the step breaks, with the argument's number, or `None` if the
/// reply is a value. The node gave this reply to the step, and has not changed since. It takes no memory.
pub fn why<H: KeyHash + Copy + Drop>(node: &Node<H>, event: &Step, reply: &Reply) -> Option<Reason>
    ensures exactly { is_some result ≡ not (is_value reply.now) }
    ensures named { (old : State) → step old event.now reply.now (observable node.now)
        → result ≡ why old event.now reply.now }
{
    explain(node, event, reply)
}

/// Returns the reason, found from the node's processes and tables, or `None` if the reply is a value.
fn explain<H: KeyHash + Copy + Drop>(node: &Node<H>, event: &Step, reply: &Reply) -> Option<Reason>
    ensures { result ≡ reason_for node.now.world event.now reply.now }
{
    reason_for(node.world(), event, reply)
}

/// Returns the reason for a reply, or `None` if the reply is a value.
fn reason_for<R: Rows>(world: &World<R>, event: &Step, reply: &Reply) -> Option<Reason>
    ensures { result ≡ reason_for world.now event.now reply.now }
{
    match reply {
        Reply::Value(_) => None,
        Reply::Badarg => Some(refusal_reason(world, event, false)),
        Reply::SystemLimit => Some(refusal_reason(world, event, true)),
        Reply::NoProcess => Some(refusal_reason(world, event, false)),
    }
}

/// Returns the reason of a refused step. `limited` says whether the reply is `SystemLimit`.
fn refusal_reason<R: Rows>(world: &World<R>, event: &Step, limited: bool) -> Reason
    ensures { result ≡ refusal_reason world.now event.now limited }
{
    match event {
        Step::Enrol(_) if limited => Reason::about_whole_call(Rule::TooManyProcesses),
        Step::Enrol(_) => Reason::about_whole_call(Rule::AlreadyEnrolled),
        Step::End(_) => Reason::about_whole_call(Rule::NoProcess),
        Step::Ask(pid, call) => refusal_reason_of_ask(world, *pid, call, limited),
        Step::Grow(_) => Reason::about_whole_call(Rule::NoTable),
        Step::Ready(_, _) => Reason::about_whole_call(Rule::NoTable),
    }
}

/// Returns the reason of a refused call. Checks first the process, then the depth of the arguments, then the call's
/// name. Then, `limited` says whether the call's limit is exceeded or one of its other rules is broken.
fn refusal_reason_of_ask<R: Rows>(world: &World<R>, pid: u32, call: &Call, limited: bool) -> Reason
    ensures { result ≡ refusal_reason_of_ask world.now pid call.now limited }
{
    if !world.lives(pid) {
        return Reason::about_whole_call(Rule::NoProcess);
    }
    let args = call.args.as_slice();
    if let Some(index) = first_too_deep(args) {
        return Reason::argument(index + 1, Rule::TooDeep);
    }
    match CallName::read(call.name.text()) {
        None => Reason::about_whole_call(Rule::NoCall),
        Some(name) if limited => Reason::about_whole_call(limit_of(name)),
        Some(name) => refusal_reason_of_call(world, pid, name, args),
    }
}

/// Returns the index, from 0, of the first argument that has more than 128 levels, if any.
fn first_too_deep(args: &[Term]) -> Option<usize>
    ensures { result ≡ position is_too_deep args.now }
{
    args.iter().position(|term| term.is_too_deep())
}
