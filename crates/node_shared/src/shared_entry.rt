//! A shared entry: the journal and a client's record refer to the same entry, which is stored once.
ghost use Rattle.std.specs.Prelude.{◌≡◌, IfOk, OnErr};
ghost use Rattle.node_core.specs.declared.step.Reply.TheVariants.{NoProcess};
ghost use Rattle.node_shared.specs.Journal.{entry, TakesStep};

use crate::entry::Entry;
use ets_term::KeyHash;
use node_core::{Node, Reply, Step};
use std::alloc::{AllocError, Global};
use std::marker::Model;
use std::ops::Deref;
use std::sync::{Arc, Wait};

/// An entry that is stored once for all its owners, such as the journal and a client's record. A contract sees the
/// entry.
#[derive(Drop)]
pub struct SharedEntry {
    /// A counted reference to the entry.
    stored: Arc<Entry>,
}

impl Model for SharedEntry {
    ghost use Rattle.std.specs.Arc.{arc_value};
    ghost use Rattle.node_shared.specs.declared.entry.Entry.{Entry};
    ghost use Rattle.node_shared.specs.contracts.entry.Entry as entry;

    ghost Value = { Entry };

    ghost coded = { entry.the_row.coded };

    ghost view = { λ e. arc_value e.stored };
}

impl SharedEntry {
    /// Allocates an entry with this step and this reply.
    pub(crate) fn new(alloc: Global, step: Step, reply: Reply) -> Result<SharedEntry, AllocError>
        ensures { IfOk result (λ made. made ≡ entry step reply) }
    {
        let stored = Arc::new(alloc, Entry { step, reply })?;
        Ok(SharedEntry { stored })
    }

    /// Allocates a draft: an entry whose step is not run yet, with a placeholder for the reply.
    pub(crate) fn draft(alloc: Global, step: Step) -> Result<SharedEntry, AllocError>
        ensures { IfOk result (λ made. made ≡ entry step NoProcess) }
    {
        SharedEntry::new(alloc, step, Reply::NoProcess)
    }

    /// Runs the step of a draft on a node, and writes the reply into it. It takes no memory but the step's. `Err`
    /// changes nothing in the node, and drops the draft.
    pub(crate) fn run<H: KeyHash + Copy + Drop>(
        self,
        node: &mut Node<H>,
    ) -> Result<SharedEntry, AllocError>
        ensures step { IfOk result (λ done. done ≡ entry self.step done.reply) }
        ensures run { IfOk result (λ done. TakesStep node.old self.step done.reply node.new) }
        ensures err { OnErr result (node.new ≡ node.old) }
    {
        let SharedEntry { mut stored } = self;
        // A draft has one owner, so `get_mut` returns `Some`.
        let Some(draft) = Arc::get_mut(&mut stored) else {
            return Err(AllocError);
        };
        node.step_into(&draft.step, &mut draft.reply)?;
        Ok(SharedEntry { stored })
    }

    /// Like `run`, but also returns a copy of the reply.
    pub(crate) fn run_and_reply<H: KeyHash + Copy + Drop>(
        self,
        node: &mut Node<H>,
    ) -> Result<(SharedEntry, Reply), AllocError>
        ensures step { IfOk result (λ both. both.0 ≡ entry self.step both.1) }
        ensures run { IfOk result (λ both. TakesStep node.old self.step both.1 node.new) }
        ensures err { OnErr result (node.new ≡ node.old) }
    {
        let SharedEntry { mut stored } = self;
        // A draft has one owner, so `get_mut` returns `Some`.
        let Some(draft) = Arc::get_mut(&mut stored) else {
            return Err(AllocError);
        };
        let (reply, copy) = node.step_twice(&draft.step)?;
        draft.reply = copy;
        Ok((SharedEntry { stored }, reply))
    }

    /// Returns another owner of the entry, which is not copied. It takes no memory. It waits only while the entry has
    /// 2^63 - 1 owners, the greatest number that an `Arc` can count.
    pub(crate) fn share<R: Wait>(&self, rt: &R) -> SharedEntry
        ensures { result ≡ self.now }
    {
        for _ in rt.forever() {
            if let Ok(stored) = Arc::try_clone(&self.stored) {
                return SharedEntry { stored };
            }
        }
        // `forever` does not end, so only the `return` leaves the loop.
        unreachable!()
    }

    /// Returns the entry. It takes no memory.
    pub fn get(&self) -> &Entry
        ensures { result.now ≡ self.now }
    {
        &self.stored
    }
}

impl Deref for SharedEntry {
    type Target = Entry;

    ghost deref_gives = { λ shared own. own ≡ shared };

    fn deref(&self) -> &Entry
        ensures { result.now ≡ self.now }
    {
        self.get()
    }
}
