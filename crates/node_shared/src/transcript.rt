//! The end of sharing: `close` compares the record of each client with the journal, and returns the journal. A record
//! has the steps of one client, each with its reply.
ghost use Rattle.std.specs.Prelude.{◌≡◌, map, IfOk};
ghost use Rattle.std.specs.Bool.{Decides};
ghost use Rattle.node_shared.specs.Journal.{IsRun, entries_of};
ghost use Rattle.node_shared.specs.Closing.{Closes, Compares, IsDecided, has_client};
ghost use Rattle.node_shared.specs.inside.Closing.{FindsMismatch, FindsMissing, FindsMissingNext};

use crate::book::Book;
use crate::client::Client;
use crate::entry::Entry;
use crate::shared::Shared;
use crate::shared_entry::SharedEntry;
use ets_term::KeyHash;
use std::alloc::AllocError;
use std::sync::ledger::Ledger;

/// The journal of a node that is no longer shared.
#[derive(Drop)]
pub struct Transcript {
    /// All entries of the journal, in order.
    pub entries: Vec<SharedEntry>,
}

/// Why `close` returns no journal.
#[derive(Debug, Drop, PartialEq, Eq)]
pub enum CloseFault {
    /// The process of the first client whose record is not its part of the journal.
    Differs(u32),
    /// The lowest process that has entries and no client.
    Missing(u32),
    /// Cannot happen: it means that the limits under the lock are not those of the `Shared`. No contract says that they
    /// are the same.
    Memory,
}

/// Ends the sharing and returns the journal. The record of each client is its part of the journal, and each process
/// with entries has a client. It does not wait. A fault drops the journal and the clients.
pub fn close<L: Ledger, H: KeyHash + Copy + Drop>(
    shared: Shared<L, H>,
    clients: Vec<Client<L>>,
) -> Result<Transcript, CloseFault>
    ensures { Closes shared.limits clients.items result }
{
    let Some(book) = shared.into_book() else {
        return Err(CloseFault::Memory);
    };
    book.close(clients.as_slice())
}

impl<L: Ledger, H: KeyHash + Copy + Drop> Book<L, H> {
    /// Compares the journal with the records of clients, and returns it. Returns `Differs` only if a client's record is
    /// not its part of this journal, and `Missing` only if a process in it has no client. It takes no memory.
    pub fn close(self, clients: &[Client<L>]) -> Result<Transcript, CloseFault>
        ensures comparison { Compares self.journal clients.now result }
        ensures decision { IsDecided result }
        ensures run { IsRun self.state.limits self.journal self.state }
    {
        compare(self.into_journal(), clients)
    }
}

/// Compares the journal with the records of the clients. Returns the journal if each record is its client's part, and
/// each process with entries has a client. Otherwise returns `Differs` or `Missing`.
fn compare<L: Ledger>(
    journal: Vec<SharedEntry>,
    clients: &[Client<L>],
) -> Result<Transcript, CloseFault>
    ensures comparison { Compares journal.items clients.now result }
    ensures decision { IsDecided result }
{
    if let Some(pid) = first_mismatch(journal.as_slice(), clients) {
        return Err(CloseFault::Differs(pid));
    }
    if let Some(pid) = least_without_client(journal.as_slice(), clients) {
        return Err(CloseFault::Missing(pid));
    }
    Ok(Transcript { entries: journal })
}

/// Returns the process of the first client whose record is not its part of the journal; `None` if all records are.
fn first_mismatch<L: Ledger>(journal: &[SharedEntry], clients: &[Client<L>]) -> Option<u32>
    ensures { FindsMismatch journal.now clients.now result }
{
    for client in clients {
        if !is_part(journal, client.pid(), client.entries()) {
            return Some(client.pid());
        }
    }
    None
}

/// Returns whether `own` has exactly the journal's entries of the process `pid`, in order.
fn is_part(journal: &[SharedEntry], pid: u32, own: &[SharedEntry]) -> bool
    ensures { Decides result (entries_of pid journal.now ≡ own.now) }
{
    // The number of entries of the process so far. They are equal to the first `at` entries of `own`.
    let mut at = 0;
    for entry in journal {
        if entry.get().is_of(pid) {
            if at >= own.len() {
                return false;
            }
            if !entry.get().equals(own[at].get()) {
                return false;
            }
            at += 1;
        }
    }
    at == own.len()
}

/// Returns the lowest process that has entries and no client; `None` if each has a client.
fn least_without_client<L: Ledger>(journal: &[SharedEntry], clients: &[Client<L>]) -> Option<u32>
    ensures { FindsMissing journal.now clients.now result }
{
    let mut least = None;
    for entry in journal {
        least = least_after_entry(least, entry.get(), clients);
    }
    least
}

/// Returns the lowest process without a client, after one more entry. `least` is the lowest before this entry.
fn least_after_entry<L: Ledger>(
    least: Option<u32>,
    entry: &Entry,
    clients: &[Client<L>],
) -> Option<u32>
    ensures { FindsMissingNext entry.now clients.now least result }
{
    let Some(pid) = entry.process() else {
        return least;
    };
    if has_client(pid, clients) {
        return least;
    }
    match least {
        Some(other) if other <= pid => least,
        _ => Some(pid),
    }
}

/// Checks whether one of the clients acts for this process.
fn has_client<L: Ledger>(pid: u32, clients: &[Client<L>]) -> bool
    ensures { result ≡ has_client pid clients.now }
{
    clients.iter().any(|client| client.pid() == pid)
}

impl Transcript {
    /// Returns the entries of a process, in order. `Err` is out of memory.
    pub fn of(&self, pid: u32) -> Result<Vec<&Entry>, AllocError>
        ensures { IfOk result (λ own. map (λ e. e.now) own.items ≡ entries_of pid self.now.entries.items) }
    {
        let mut own = Vec::new(*self.entries.allocator());
        for entry in self.entries.as_slice() {
            if entry.get().is_of(pid) {
                own.push(entry.get())?;
            }
        }
        Ok(own)
    }
}
