//! The command `spawn`: it enrols a process on the node, and adds its name to the names of the script. The number of a
//! process is the index of its name.
ghost use Rattle.std.specs.Prelude.{◌≡◌, ◌≤◌, ◌<◌, ◌+◌, ◌⊎◌, false, map, vec_items};
ghost use Rattle.std.specs.Str.{bytes_eq};
ghost use Rattle.indexmap.specs.IndexSet.{spare, contains_by, index_set_len};
ghost use Rattle.node_core.specs.Observable.{observable};
ghost use Rattle.ets_script.specs.declared.answer.Answer.TheVariants.{NoMemory};
ghost use Rattle.ets_script.specs.Script.{pid_of, KeepsState, Spawns};
ghost use Rattle.ets_script.specs.inside.Enrolments.{Enrols};

use super::Script;
use crate::answer::Answer;
use ets_term::KeyHash;
use indexmap::IndexSet;
use node_core::{Node, Reply, Step};
use std::alloc::Global;

impl<H: KeyHash + Copy + Drop> Script<H> {
    /// Enrols a process with the next number, under this name. Answers `Badarg` if the name was spawned before.
    /// Reserves capacity for the name first, so that after the node has enrolled the process, its name can be added.
    #[inline(never)]
    pub(super) fn spawn(&mut self, alloc: Global, name: &[u8]) -> Answer
        ensures { Spawns (pid_of self.old name.now) self.old name.now result self.new
            ⊎ KeepsState self.old NoMemory result self.new }
    {
        match self.names.get_index_of(name) {
            Some(_) => return Answer::Replied(Reply::Badarg),
            None => {}
        }
        // No script gets to `NoMemory` here: each name has an enrolled process, and the limit of processes is a `u32`.
        // The invariant of a script says only that it has at most 2^32 names.
        let Ok(number) = u32::try_from(self.names.len()) else {
            return Answer::NoMemory;
        };
        let Ok(name) = Vec::from_slice(alloc, name) else {
            return Answer::NoMemory;
        };
        if self.names.reserve(1).is_err() {
            return Answer::NoMemory;
        }
        enrol(&mut self.names, &mut self.node, number, name)
    }
}

/// Enrols a process with this number, under a new name, for which there is capacity. Adds the name only if the node
/// enrols the process.
fn enrol<H: KeyHash + Copy + Drop>(
    names: &mut IndexSet<Vec<u8>>,
    node: &mut Node<H>,
    number: u32,
    name: Vec<u8>,
) -> Answer
    requires room { 0 < spare names.old }
    requires new { contains_by (λ k. bytes_eq name.items k.items) names.old ≡ false }
    ensures enrolled { Enrols (map vec_items names.old.keys) (observable node.old) number name.items
        result (map vec_items names.new.keys) (observable node.new) }
    ensures len { index_set_len names.new ≤ index_set_len names.old + 1 }
{
    match node.step(&Step::Enrol(number)) {
        Ok(Reply::Value(term)) => {
            let _ = names.insert(name);
            Answer::Replied(Reply::Value(term))
        }
        Ok(reply) => Answer::Replied(reply),
        Err(_) => Answer::NoMemory,
    }
}
