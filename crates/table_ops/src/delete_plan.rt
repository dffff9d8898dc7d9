//! What a deletion by a query will change: the slots that lose objects, by their places (indices), with the objects
//! that stay. `trial` wraps the query, and `looks` counts the tested objects. A chain is the list of objects of one
//! slot.
ghost use Rattle.std.specs.Prelude.{◌≡◌, ◌≤◌, ◌++◌, [], ℕ, Option, Some, length, OnOk};
ghost use Rattle.ets_term.specs.declared.term.Term.{Term};
ghost use Rattle.node_list.specs.Ticks.{ticks};
ghost use Rattle.table_ops.specs.Results.{Returns, chosen_count};
ghost use Rattle.table_ops.specs.Looks.{CountsLooks};
ghost use Rattle.table_ops.specs.inside.DeletePlan.{plan_of_slot, plan_at};

use crate::looks::Looks;
use crate::partition::Partition;
use crate::predicate::Predicate;
use crate::trial::Trial;
use bucket_table::Place;
use ets_term::Term;
use node_list::Chain;
use packed_term::Object;
use std::alloc::{AllocError, Global};

/// The planned change of one slot that loses objects: its place, and the objects that it keeps.
#[derive(Drop)]
pub struct SlotDelete {
    pub place: Place,
    /// The objects that stay.
    pub kept: Chain,
}

/// A delete plan: the slots that lose objects, in the order of the table, with the objects that they keep.
#[derive(Drop)]
pub struct DeletePlan {
    alloc: Global,
    pub list: Vec<SlotDelete>,
}

impl DeletePlan {
    /// Returns a plan that changes no slot.
    pub fn new(alloc: Global) -> DeletePlan
        ensures { result.list.items ≡ [] }
    {
        DeletePlan {
            alloc,
            list: Vec::new(alloc),
        }
    }

    /// Tests the objects of the slot at `place`, plans to remove the chosen objects, and returns their number. If all
    /// objects or none are chosen, copies no object.
    pub fn plan_slot<P: Predicate>(
        &mut self,
        trial: &Trial<'_, P>,
        place: Place,
        objects: &[Object],
        scratch: &mut Term,
        looks: &mut Looks,
    ) -> Result<usize, AllocError>
        ensures count { Returns result (chosen_count (P.tests trial.now.query.now) objects.now) }
        ensures looks { CountsLooks result (length objects.now) looks.old looks.new }
        ensures at_most { looks.new ≤ ticks (length objects.now) looks.old }
        ensures at_least { looks.old ≤ looks.new }
        ensures plan { OnOk result
            ((key_at : ℕ → Option Term) (key : Term) → key_at place ≡ Some key
            → plan_at key_at self.new.list.items
            ≡ plan_at key_at self.old.list.items
            ++ plan_of_slot (P.tests trial.now.query.now) (key, objects.now)) }
    {
        let mut partition = Partition::new(self.alloc);
        partition.add_all(trial, objects, scratch, looks)?;
        let Partition { removed, kept, .. } = partition;
        if removed > 0 {
            self.list.push(SlotDelete { place, kept })?;
        }
        Ok(removed)
    }
}
