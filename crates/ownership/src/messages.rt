//! The message `'ETS-TRANSFER'` to the new owner of a table. It enters the mailbox of the process, and leaves it again
//! if memory runs out later in the same step.
ghost use Rattle.std.specs.Prelude.{◌≡◌, List, ℕ, OnOk, OnErr, IfOk};
ghost use Rattle.ownership.specs.Messages.{name_or_identifier, transfer_message, push_message, push_messages};
ghost use Rattle.ownership.specs.declared.process.Process as model;
ghost use Rattle.ets_term.specs.declared.term.Term as term;

use crate::metadata::Metadata;
use crate::process::Process;
use ets_term::{Atom, Items, Term};
use indexmap::IndexMap;
use std::alloc::{AllocError, Global};

/// Returns the term by which `new` answers and messages name a table: the name of a named table, else the identifier.
pub fn name_or_identifier(
    alloc: Global,
    named: bool,
    name: &Atom,
    id: u32,
) -> Result<Term, AllocError>
    ensures { IfOk result (λ t. t ≡ name_or_identifier named name.now id) }
{
    if named {
        Ok(Term::Atom(name.try_clone(alloc)?))
    } else {
        Ok(Term::Tid(id))
    }
}

/// Returns the transfer message `{'ETS-TRANSFER',Table,FromPid,GiftData}` for the table with this metadata and
/// identifier.
pub fn transfer_message(
    alloc: Global,
    metadata: &Metadata,
    id: u32,
    from: u32,
    gift: &Term,
) -> Result<Term, AllocError>
    ensures { IfOk result (λ t. t ≡ transfer_message metadata.now id from gift.now) }
{
    let word = Term::Atom(Atom::of_bytes(alloc, b"ETS-TRANSFER")?);
    let table = name_or_identifier(alloc, metadata.named, &metadata.name, id)?;
    let gift = gift.try_clone(alloc)?;
    let mut elements = Items::new(alloc);
    elements.push(word)?;
    elements.push(table)?;
    elements.push(Term::Pid(from))?;
    elements.push(gift)?;
    Ok(Term::Tuple(elements))
}

/// Appends a message to the mailbox of a process, if the process was enrolled. Otherwise drops the message.
pub fn push_message(
    processes: &mut IndexMap<u32, Process>,
    pid: u32,
    message: Term,
) -> Result<(), AllocError>
    ensures ok { OnOk result (processes.new.entries ≡ push_message processes.old.entries pid message) }
    ensures err { OnErr result (processes.new.entries ≡ processes.old.entries) }
{
    match processes.get_mut(&pid) {
        Some(process) => {
            if let Err(error) = process.mailbox.push(message) {
                return Err(error);
            }
            Ok(())
        }
        None => {
            drop(message);
            Ok(())
        }
    }
}

/// Removes the newest message from the mailbox of a process. This takes no memory.
pub fn pop_message(processes: &mut IndexMap<u32, Process>, pid: u32)
    ensures { (before : List (ℕ × model.Process)) (message : term.Term)
        → processes.old.entries ≡ push_message before pid message → processes.new.entries ≡ before }
{
    if let Some(process) = processes.get_mut(&pid) {
        let _ = process.mailbox.pop();
    }
}
