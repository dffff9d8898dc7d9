//! A node that threads share: its journal is a run of the node, and the record of each client is its part of the
//! journal.
//!
//! *Guarantee.* Whenever the lock is free, the steps of the journal with their replies are a run of the node from its
//! empty state to its present state. A client's record has the steps that it made, each with the reply that it got. If
//! `close` returns a transcript, the record of each client is its process's part of that run, and no process is without
//! a client. Process numbers are drawn without a lock, each once, from 0 on.
//!
//! A `Server` stores nothing of a call. The steps under its lock are such a run too, which exists only in proofs. Each
//! reply of a caller is that of a run, after all that the caller saw, and after exactly its own earlier calls.
//!
//! *Weakness.* A call that waits for the lock need not return. No contract speaks of time, of fairness, or of the order
//! of calls of clients that did not communicate.
//!
//! *Mechanism.* A step is run, and added to the journal, under one lock. A ledger counts the entries of processes: the
//! book has the total, and each client's share its own part. The type parameter `L` names the ledger, so that no other
//! node can reply to a client. `close` compares the records with the journal. In proofs, tokens know a server's
//! history: the owner, under the lock, knows all of it, and each caller what it saw.
//!
//! *Limits.* At most 4,096 numbers can be drawn. The journal of a `Shared` grows for as long as it is shared.
#![tactic(auto)]

mod book;
mod caller;
mod client;
mod entry;
mod gate;
mod history;
mod job;
mod pids;
mod served;
mod server;
mod server_lock;
mod share;
mod shared;
mod shared_entry;
mod transcript;
mod workers;

pub use book::{Book, BookFault};
pub use caller::Caller;
pub use client::Client;
pub use entry::Entry;
pub use gate::Gate;
pub use history::{HistoryId, HistoryOwner, HistoryWord, HistoryWriter, NewHistory, SeenHistory};
pub use job::{Job, Worked};
pub use pids::{Drawn, MAX_PIDS, Pids, PidsFault, Seat};
pub use served::ServedNode;
pub use server::Server;
pub use server_lock::Locking;
pub use share::Share;
pub use shared::{JoinFault, Shared, keep};
pub use shared_entry::SharedEntry;
pub use transcript::{CloseFault, Transcript, close};
pub use workers::run_clients;
