//! Whether a process may read a table, may write to it, or owns it, by the identifier of the table.
ghost use Rattle.std.specs.Prelude.{◌≡◌};
ghost use Rattle.ownership.specs.Access.{is_owner, may_read, may_write};
ghost use Rattle.ownership.specs.Lookups.{has_access};

use super::World;
use bucket_table::Rows;

/// Access to tables (stdlib manual, module ets, section Table Access Rights). No process has access to a table that
/// does not exist.
impl<R: Rows> World<R> {
    /// Checks whether the process may read the table with this identifier.
    pub fn may_read(&self, pid: u32, id: u32) -> bool
        ensures { result ≡ has_access may_read self.now.tables pid id }
    {
        match self.metadata(id) {
            Some(metadata) => metadata.may_read(pid),
            None => false,
        }
    }

    /// Checks whether the process may write to the table with this identifier.
    pub fn may_write(&self, pid: u32, id: u32) -> bool
        ensures { result ≡ has_access may_write self.now.tables pid id }
    {
        match self.metadata(id) {
            Some(metadata) => metadata.may_write(pid),
            None => false,
        }
    }

    /// Checks whether the process owns the table with this identifier.
    pub fn is_owner(&self, pid: u32, id: u32) -> bool
        ensures { result ≡ has_access is_owner self.now.tables pid id }
    {
        match self.metadata(id) {
            Some(metadata) => metadata.is_owned_by(pid),
            None => false,
        }
    }
}
