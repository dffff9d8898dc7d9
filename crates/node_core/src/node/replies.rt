//! The terms of replies. A reply can be written over an earlier reply: an equal atom stays, and a list of the same
//! length is overwritten in place.
// An atom of at most 22 characters takes no memory.
ghost use Rattle.std.specs.Prelude.{◌≡◌, ◌≤◌, length, IfOk, OnOk};
ghost use Rattle.ets_term.specs.Character.{IsAtomText};
ghost use Rattle.ets_term.specs.declared.term.Term.TheVariants as term;
ghost use Rattle.node_core.specs.declared.step.Reply.TheVariants.{Value, NoProcess, Badarg, SystemLimit};
ghost use Rattle.node_core.specs.rules.Replies.{true_reply, truth_reply, list_reply};
ghost use Rattle.node_core.specs.inside.Refusals.{refusal_of, to_reply};

use crate::step::Reply;
use crate::terms;
use ets_term::{Atom, Term};
use ownership::WorldFault;
use packed_term::Object;
use std::alloc::{AllocError, Global};
use table_ops::Refusal;

/// Returns the atom `true`.
pub fn true_reply(alloc: Global) -> Reply
    ensures { result ≡ true_reply }
{
    atom_reply(alloc, b"true")
}

/// Returns the atom with this text, which has at most 22 characters.
pub fn atom_reply(alloc: Global, text: &[u8]) -> Reply
    requires text { IsAtomText text.now }
    requires short { length text.now ≤ 22 }
    ensures { result ≡ Value (term.Atom text.now) }
{
    let Ok(atom) = Atom::of_bytes(alloc, text) else {
        unreachable!()
    };
    Reply::Value(Term::Atom(atom))
}

/// Writes the atom with this short text. If the reply is this atom already, it stays as it is, which is faster.
#[inline(always)]
fn write_atom(alloc: Global, text: &str, reply: &mut Reply)
    requires text { IsAtomText text.now }
    requires short { length text.now ≤ 22 }
    ensures { reply.new ≡ Value (term.Atom text.now) }
{
    if let Reply::Value(Term::Atom(atom)) = reply {
        if atom.text() == text {
            return;
        }
    }
    write_new_atom(alloc, text, reply);
}

/// Writes the atom with this short text over another reply. The rare case of `write_atom`, not inlined.
#[inline(never)]
fn write_new_atom(alloc: Global, text: &str, reply: &mut Reply)
    requires text { IsAtomText text.now }
    requires short { length text.now ≤ 22 }
    ensures { reply.new ≡ Value (term.Atom text.now) }
{
    *reply = atom_reply(alloc, text.as_bytes());
}

/// Writes the reply that there is no such process. Like `write_badarg` and `write_system_limit`, this function is not
/// inlined, because such replies are rare.
#[inline(never)]
pub fn write_no_process(reply: &mut Reply)
    ensures { reply.new ≡ NoProcess }
{
    *reply = Reply::NoProcess;
}

/// Writes the reply that an argument is bad.
#[inline(never)]
pub fn write_badarg(reply: &mut Reply)
    ensures { reply.new ≡ Badarg }
{
    *reply = Reply::Badarg;
}

/// Writes the reply that a limit is reached.
#[inline(never)]
pub fn write_system_limit(reply: &mut Reply)
    ensures { reply.new ≡ SystemLimit }
{
    *reply = Reply::SystemLimit;
}

/// Returns a list of copies of these objects.
pub fn list_reply(alloc: Global, objects: &[Object]) -> Result<Reply, AllocError>
    ensures { IfOk result (λ r. r ≡ list_reply objects.now) }
{
    let copies = terms::copy_objects(alloc, objects)?;
    Ok(Reply::Value(Term::List(copies)))
}

/// Returns a list of copies of these terms.
pub fn terms_reply(alloc: Global, terms: &[Term]) -> Result<Reply, AllocError>
    ensures { IfOk result (λ r. r ≡ list_reply terms.now) }
{
    let copies = terms::copy_terms(alloc, terms)?;
    Ok(Reply::Value(Term::List(copies)))
}

/// Writes a list of copies of these objects. If the earlier reply is as long a list, its memory is used again.
#[inline(always)]
pub fn write_list(alloc: Global, objects: &[Object], reply: &mut Reply) -> Result<(), AllocError>
    ensures { OnOk result (reply.new ≡ list_reply objects.now) }
{
    if let Reply::Value(Term::List(old_items)) = reply {
        if old_items.len() == objects.len() {
            return terms::write_objects(alloc, objects, old_items);
        }
    }
    *reply = list_reply(alloc, objects)?;
    Ok(())
}

/// Writes the reply `true` if the call succeeded, else returns its refusal.
#[inline(always)]
pub fn write_true(
    alloc: Global,
    returned: Result<(), Refusal>,
    reply: &mut Reply,
) -> Result<(), Refusal>
    ensures { to_reply (λ _. reply.new) result ≡ to_reply (λ _. true_reply) returned }
{
    match returned {
        Ok(()) => {
            write_atom(alloc, "true", reply);
            Ok(())
        }
        Err(refusal) => Err(refusal),
    }
}

/// Writes `true` or `false`, as the call returned, or returns its refusal.
#[inline(always)]
pub fn write_truth(
    alloc: Global,
    returned: Result<bool, Refusal>,
    reply: &mut Reply,
) -> Result<(), Refusal>
    ensures { to_reply (λ _. reply.new) result ≡ to_reply truth_reply returned }
{
    match returned {
        Ok(truth) => {
            write_atom(alloc, if truth { "true" } else { "false" }, reply);
            Ok(())
        }
        Err(refusal) => Err(refusal),
    }
}

/// Writes the value that a call returned, or returns its refusal.
#[inline(always)]
pub fn write_value(returned: Result<Term, Refusal>, reply: &mut Reply) -> Result<(), Refusal>
    ensures { to_reply (λ _. reply.new) result ≡ to_reply Value returned }
{
    match returned {
        Ok(value) => {
            *reply = Reply::Value(value);
            Ok(())
        }
        Err(refusal) => Err(refusal),
    }
}

/// Writes the reply that a call returned, or returns its refusal.
pub fn write_reply(returned: Result<Reply, Refusal>, reply: &mut Reply) -> Result<(), Refusal>
    ensures { to_reply (λ _. reply.new) result ≡ returned }
{
    match returned {
        Ok(new_reply) => {
            *reply = new_reply;
            Ok(())
        }
        Err(refusal) => Err(refusal),
    }
}

/// Converts a fault of the world into a refusal of a call, or into the reply `NoProcess`.
pub fn refusal_of(fault: WorldFault) -> Result<Reply, Refusal>
    ensures { result ≡ refusal_of fault }
{
    match fault {
        WorldFault::Badarg => Err(Refusal::Badarg),
        WorldFault::SystemLimit => Err(Refusal::SystemLimit),
        WorldFault::NoProcess => Ok(Reply::NoProcess),
        WorldFault::Memory => Err(Refusal::Memory),
    }
}
