//! The objects of one slot, split by a query into removed and kept objects: a step of a delete plan. `trial` wraps the
//! query, and `looks` counts the tested objects. A chain is the list of objects of one slot.
ghost use Rattle.std.specs.Prelude.{◌≡◌, ◌≤◌, ◌<◌, ◌^◌, ◌++◌, ◌+◌, [], take, length, OnOk};
ghost use Rattle.node_list.specs.Ticks.{tick, ticks};
ghost use Rattle.table_ops.specs.Looks.{CountsLooks};
ghost use Rattle.table_ops.specs.inside.DeletePlan.{IsPartition};

use crate::looks::Looks;
use crate::predicate::Predicate;
use crate::trial::Trial;
use ets_term::Term;
use node_list::Chain;
use packed_term::Object;
use std::alloc::{AllocError, Global};

/// The objects of one slot, split into removed and kept objects. Only the number of the removed objects is stored.
/// Copies of kept objects are stored only if an object is removed.
#[derive(Drop)]
pub struct Partition {
    alloc: Global,
    pub removed: usize,
    pub kept: Chain,
}

impl Partition {
    /// Returns an empty partition, for a slot of which no object is tested yet.
    pub fn new(alloc: Global) -> Partition
        ensures removed { result.removed ≡ 0 }
        ensures kept { result.kept ≡ [] }
    {
        Partition {
            alloc,
            removed: 0,
            kept: Chain::new(alloc),
        }
    }

    /// Tests all objects of a slot and adds them to the partition, which must be empty.
    pub fn add_all<P: Predicate>(
        &mut self,
        trial: &Trial<'_, P>,
        objects: &[Object],
        scratch: &mut Term,
        looks: &mut Looks,
    ) -> Result<(), AllocError>
        requires { IsPartition (P.tests trial.now.query.now) [] self.old }
        ensures partition { OnOk result (IsPartition (P.tests trial.now.query.now) objects.now self.new) }
        ensures looks { CountsLooks result (length objects.now) looks.old looks.new }
        ensures at_most { looks.new ≤ ticks (length objects.now) looks.old }
        ensures at_least { looks.old ≤ looks.new }
    {
        // Reads the counter only for the proof, which learns that the count is a `u64`.
        let _before = looks.count();
        for i in 0..objects.len() {
            self.add(trial, objects, i, scratch, looks)?;
        }
        Ok(())
    }

    /// Tests the object at index `i` and adds it to the partition. If it is the first removed object, copies the
    /// objects before it, which are all kept.
    fn add<P: Predicate>(
        &mut self,
        trial: &Trial<'_, P>,
        objects: &[Object],
        i: usize,
        scratch: &mut Term,
        looks: &mut Looks,
    ) -> Result<(), AllocError>
        requires few { length objects.now < 2 ^ 64 }
        requires within { i < length objects.now }
        requires partition { IsPartition (P.tests trial.now.query.now) (take i objects.now) self.old }
        ensures partition { OnOk result
            (IsPartition (P.tests trial.now.query.now) (take (i + 1) objects.now) self.new) }
        ensures looks { looks.new ≡ tick looks.old }
    {
        let object = &objects[i];
        if trial.chooses(self.alloc, object, scratch, looks)? {
            if self.removed == 0 {
                self.append_copies(&objects[..i])?;
                self.removed = 1;
                return Ok(());
            }
            self.removed += 1;
            return Ok(());
        }
        if self.removed > 0 {
            self.kept.push(object.try_clone(self.alloc)?)?;
        }
        Ok(())
    }

    /// Appends copies of objects to the kept objects.
    fn append_copies(&mut self, objects: &[Object]) -> Result<(), AllocError>
        ensures { OnOk result (self.new.kept ≡ self.old.kept ++ objects.now) }
    {
        for object in objects {
            self.kept.push(object.try_clone(self.alloc)?)?;
        }
        Ok(())
    }
}
