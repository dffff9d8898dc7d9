//! The calls that change the owner or the heir of a table. A new owner gets a transfer message with a gift: data that
//! the old owner chose.
ghost use Rattle.std.specs.Prelude.{◌≡◌, OnOk, OnErr};
ghost use Rattle.ownership.specs.Tables.{GiveAway, SetOptions, after_set_heir, after_transfer, with_owner};
ghost use Rattle.ownership.specs.Heirs.{SetHeir};
ghost use Rattle.ownership.specs.World.{with_changed};
ghost use Rattle.ownership.specs.Outcomes.{RefinesWorld};

use super::World;
use crate::fault::WorldFault;
use crate::messages::{push_message, transfer_message};
use crate::metadata::Heir;
use crate::options::heir_in_setopts;
use crate::table::OwnedTable;
use bucket_table::Rows;
use ets_term::Term;
use std::alloc::AllocError;

/// Changes of owners and heirs.
impl<R: Rows> World<R> {
    /// Gives a table of the process `pid` to the process `to` (stdlib manual, ets:give_away/3), which gets the transfer
    /// message with the gift. The heir and the fixes stay. Returns `Badarg` if the table does not exist, `pid` does not
    /// own it, `to` is `pid`, or `to` does not live.
    pub fn give_away(&mut self, pid: u32, id: u32, to: u32, gift: &Term) -> Result<(), WorldFault>
        ensures { RefinesWorld (GiveAway self.old pid id to gift.now) self.old result self.new }
    {
        let Some(metadata) = self.metadata(id) else {
            return Err(WorldFault::Badarg);
        };
        if !metadata.is_owned_by(pid) || to == pid || !self.lives(to) {
            return Err(WorldFault::Badarg);
        }
        let message = transfer_message(self.alloc, metadata, id, pid, gift)?;
        self.transfer(id, to, message)?;
        Ok(())
    }

    /// Sets the heir of a table of the process (stdlib manual, ets:setopts/2). The options are `{heir,none}`,
    /// `{heir,Pid,Data}`, or a list of these, of which the last takes effect. An empty list changes nothing. Returns
    /// `Badarg` if the table does not exist, `pid` does not own it, or an option is not one of these two.
    pub fn set_options(&mut self, pid: u32, id: u32, options: &Term) -> Result<(), WorldFault>
        ensures { RefinesWorld (SetOptions self.old pid id options.now) self.old result self.new }
    {
        if !self.is_owner(pid, id) {
            return Err(WorldFault::Badarg);
        }
        let Some(heir) = heir_in_setopts(self.alloc, options)? else {
            return Ok(());
        };
        self.set_heir_at(id, heir);
        Ok(())
    }

    /// Sets or removes the heir of a table of the process. Returns `Badarg` if the table does not exist or `pid` does
    /// not own it. This takes no memory.
    pub fn set_heir(&mut self, pid: u32, id: u32, heir: Option<Heir>) -> Result<(), WorldFault>
        ensures { SetHeir self.old pid id heir result self.new }
    {
        if self.is_owner(pid, id) {
            self.set_heir_at(id, heir);
            return Ok(());
        }
        drop(heir);
        Err(WorldFault::Badarg)
    }

    /// Passes a table to another owner, and posts the message to the new owner. If memory is refused, processes and
    /// tables stay as they are.
    fn transfer(&mut self, id: u32, owner: u32, message: Term) -> Result<(), AllocError>
        ensures ok { OnOk result (self.new ≡ after_transfer self.old id owner message) }
        ensures err { OnErr result (self.new ≡ self.old) }
    {
        if let Err(error) = self.indices.index_owner(self.alloc, owner, id) {
            drop(message);
            return Err(error);
        }
        // If this fails, the table stays in the index under a process that does not own it, which is allowed.
        push_message(&mut self.processes, owner, message)?;
        set_owner_at(&mut self.tables, id, owner);
        Ok(())
    }

    /// Sets or removes the heir of a table, if the table exists.
    fn set_heir_at(&mut self, id: u32, heir: Option<Heir>)
        ensures { self.new ≡ after_set_heir self.old id heir }
    {
        let index = id as usize;
        if index >= self.tables.len() {
            drop(heir);
            return;
        }
        let Some(table) = &mut self.tables[index] else {
            drop(heir);
            return;
        };
        table.set_heir(heir);
    }
}

/// Sets the owner of a table, if the table exists.
fn set_owner_at<R: Rows>(tables: &mut Vec<Option<OwnedTable<R>>>, id: u32, owner: u32)
    ensures { tables.new.items ≡ with_changed (with_owner owner) tables.old.items id }
{
    let index = id as usize;
    if index >= tables.len() {
        return;
    }
    let Some(table) = &mut tables[index] else {
        return;
    };
    table.set_owner(owner);
}
