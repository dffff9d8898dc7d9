//! A node that threads share through one lock, with a journal of all its steps and their replies. A client is created
//! from a drawn process number, and makes the calls of that process.
ghost use Rattle.std.specs.Prelude.{◌≡◌, ◌≤◌, true, ◌+◌, [], ◌∷◌, IfOk, IfErr, IfSome};
ghost use Rattle.std.specs.Bool.{Decides};
ghost use Rattle.ets_term.specs.declared.term.Term.TheVariants.{Pid};
ghost use Rattle.node_core.specs.declared.step.Reply.TheVariants.{Value};
ghost use Rattle.node_core.specs.declared.step.Step.TheVariants.{Enrol};
ghost use Rattle.node_shared.specs.Journal.{entry};
ghost use Rattle.node_shared.specs.Records.{IsEnrolled, enrolled_record};
ghost use Rattle.node_shared.specs.Running.{RefusesEnrol};
ghost use Rattle.node_shared.specs.Faults.{HandsBack, JoinRefusesWith};

use crate::book::{Book, BookFault};
use crate::client::Client;
use crate::pids::Drawn;
use crate::shared_entry::SharedEntry;
use ets_term::{KeyHash, Term};
use node_core::{Limits, Reply, Step};
use std::alloc::{AllocError, Global};
use std::sync::ledger::{Blank, Ledger};
use std::sync::{Mutex, Wait};

/// A node that threads share: its book, with the journal, under one lock.
#[derive(Drop)]
pub struct Shared<L: Ledger, H: KeyHash + Copy + Drop> {
    alloc: Global,
    /// The limits of the node.
    limits: Limits,
    pub(crate) book: Mutex<Book<L, H>>,
}

/// Why no client is created. Each case gives the drawn number back.
#[derive(Drop)]
pub enum JoinFault {
    /// The node refused to enrol the number: `SystemLimit`, or `Badarg` for a number that was enrolled before.
    Refused(Reply, Drawn),
    /// Out of memory, and nothing has changed.
    Memory(Drawn),
}

impl<L: Ledger, H: KeyHash + Copy + Drop> Shared<L, H> {
    /// Puts a new book, as `Book::new` makes it, under a lock.
    pub fn new(alloc: Global, blank: Blank, limits: Limits, hasher: H) -> Self
        requires name { blank.name ≡ L.name }
        requires parts { blank.parts ≡ L.parts }
        requires enough { blank.parts ≡ limits.processes + 1 }
        ensures { result.limits ≡ limits }
    {
        Shared {
            alloc,
            limits,
            book: Mutex::new(Book::new(alloc, blank, limits, hasher)),
        }
    }

    /// Enrols the number that was drawn, and returns the client of that process, whose record has only the enrolment. A
    /// fault gives the number back. It may wait for the lock.
    pub fn client<R: Wait>(&self, rt: &R, drawn: Drawn) -> Result<Client<L>, JoinFault>
        ensures ok { IfOk result (IsEnrolled drawn.number) }
        ensures start { IfOk result (λ client. client ≡ enrolled_record drawn.number (Value (Pid drawn.number))) }
        ensures err { IfErr result (HandsBack drawn) }
        ensures refused { IfErr result (JoinRefusesWith (RefusesEnrol L.parts drawn.number)) }
    {
        let pid = drawn.pid();
        let Ok(entries) = new_record(self.alloc, pid) else {
            return Err(JoinFault::Memory(drawn));
        };
        let joined = self.book.lock(rt).join(pid);
        match joined {
            Ok((share, _reply)) => Ok(Client::of(self.alloc, share, entries)),
            Err(BookFault::Refused(reply)) => Err(JoinFault::Refused(reply, drawn)),
            Err(BookFault::Memory) => Err(JoinFault::Memory(drawn)),
        }
    }

    /// Takes the book out of the lock. Returns `None` if the limits in the book are not those of this `Shared`, which
    /// cannot happen, because no function changes them. They are compared because the contract of a lock says nothing
    /// of its value.
    pub(crate) fn into_book(self) -> Option<Book<L, H>>
        ensures { IfSome result (λ book. book.state.limits ≡ self.limits) }
    {
        let Shared {
            alloc: _,
            limits,
            book,
        } = self;
        let book = book.into_inner();
        if are_same(book.limits(), limits) {
            Some(book)
        } else {
            None
        }
    }
}

/// Allocates the record of a process that is to be enrolled: the enrolment with its reply, which is the pid. The record
/// is not used if the enrolment is refused.
fn new_record(alloc: Global, pid: u32) -> Result<Vec<SharedEntry>, AllocError>
    ensures { IfOk result (λ entries. entries.items ≡ entry (Enrol pid) (Value (Pid pid)) ∷ []) }
{
    let mut entries = Vec::with_capacity(alloc, 1)?;
    let reply = Reply::Value(Term::Pid(pid));
    entries.push_reserved(SharedEntry::new(alloc, Step::Enrol(pid), reply)?);
    Ok(entries)
}

/// Runs at most `turns` pending growth steps, and takes the lock anew for each. Such a step doubles the buckets of a
/// table, or readies one bucket. Stops earlier if no step is pending, or memory runs out. Returns the number of growth
/// steps that it ran. It may wait for the lock.
pub fn keep<L: Ledger, H: KeyHash + Copy + Drop, R: Wait>(
    rt: &R,
    shared: &Shared<L, H>,
    turns: u32,
) -> u32
    ensures { result ≤ turns }
{
    let mut done = 0;
    for _ in 0..turns {
        if !shared.book.lock(rt).try_tend() {
            break;
        }
        done += 1;
    }
    done
}

/// Checks whether `limits` and `own` are equal in every field.
fn are_same(limits: Limits, own: Limits) -> bool
    ensures { Decides result (limits ≡ own) }
{
    limits.processes == own.processes
        && limits.tables == own.tables
        && limits.objects == own.objects
}
