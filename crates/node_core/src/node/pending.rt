//! Running the pending growth steps of the table that was changed last before those of other tables. A growth step
//! changes nothing that a call observes.
ghost use Rattle.std.specs.Prelude.{◌≡◌, IfOk, OnErr};
ghost use Rattle.node_core.specs.Observable.{observable};
ghost use Rattle.node_core.specs.Pending.{RunsPendingOfTable, RunsAtMost};

use super::Node;
use ets_term::KeyHash;
use std::alloc::AllocError;

impl<H: KeyHash + Copy + Drop> Node<H> {
    /// Runs at most this many pending growth steps, so that tables grow with their objects. A caller of `step` calls
    /// this after each call: with 2 after a call of one object, and with two for each object of a list.
    ///
    /// First it runs the steps of the table that was changed last. When that table has none, it runs one step of `due`,
    /// which may be of another table, but only after one of four such calls. So no table waits for the growth of
    /// another. A step that runs out of memory stays pending, and no more steps are run.
    #[inline(always)]
    pub fn run_pending_steps(&mut self, max_steps: u32)
        ensures steps { RunsAtMost max_steps self.old self.new }
        ensures observable { observable self.new ≡ observable self.old }
    {
        if !self.is_idle() {
            self.run_first_pending_steps(max_steps);
        }
    }

    /// The rare case of `run_pending_steps`, not inlined, because a node seldom has a pending growth step.
    #[inline(never)]
    fn run_first_pending_steps(&mut self, max_steps: u32)
        ensures steps { RunsAtMost max_steps self.old self.new }
        ensures observable { observable self.new ≡ observable self.old }
    {
        for _ in 0..max_steps {
            match self.run_pending_of_last_table() {
                Ok(true) => {}
                Ok(false) => {
                    self.run_pending_in_turn();
                    return;
                }
                Err(_) => return,
            }
        }
    }

    /// Runs one step of `due`, after one of four calls.
    fn run_pending_in_turn(&mut self)
        ensures steps { RunsAtMost 1 self.old self.new }
        ensures observable { observable self.new ≡ observable self.old }
    {
        if self.pending.is_turn_of_others() {
            let _ = self.run_pending();
        }
    }

    /// Runs the pending growth step of the table that was changed last, if it has one, and returns whether it ran one.
    /// A growth step is a change too. No call observes the growth. A step that runs out of memory changes nothing, and
    /// stays pending.
    #[inline(always)]
    pub fn run_pending_of_last_table(&mut self) -> Result<bool, AllocError>
        ensures pending { IfOk result (RunsPendingOfTable self.old self.new) }
        ensures observable { observable self.new ≡ observable self.old }
        ensures err { OnErr result (self.new ≡ self.old) }
    {
        if self.is_idle() {
            Ok(false)
        } else {
            self.run_pending_of_dirty_table()
        }
    }

    /// The rare case of `run_pending_of_last_table`, not inlined, because a node seldom has a pending growth step.
    #[inline(never)]
    fn run_pending_of_dirty_table(&mut self) -> Result<bool, AllocError>
        ensures pending { IfOk result (RunsPendingOfTable self.old self.new) }
        ensures observable { observable self.new ≡ observable self.old }
        ensures err { OnErr result (self.new ≡ self.old) }
    {
        let Some(due) = self.due_of_dirty_table() else {
            return Ok(false);
        };
        let done = self.step(&due);
        drop(due);
        match done {
            Ok(_) => Ok(true),
            Err(error) => Err(error),
        }
    }
}
