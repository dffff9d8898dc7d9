//! The metadata of a table: its name, owner, heir and protection, and which access a process has by them.
ghost use Rattle.std.specs.Prelude.{◌≡◌};
ghost use Rattle.ownership.specs.Access.{is_owner, may_read, may_write};

use ets_term::{Atom, Term};

/// The access that processes other than the owner have to a table (stdlib manual, module ets, section Table Access
/// Rights).
#[derive(Clone, Copy, Debug, PartialEq, Eq)]
pub enum Protection {
    /// Other processes may read and write.
    Public,
    /// Other processes may read.
    Protected,
    /// Other processes may neither read nor write.
    Private,
}

/// The heir of a table: the process that gets the table when its owner exits, and the gift in the transfer message.
#[derive(Drop)]
pub struct Heir {
    pub pid: u32,
    pub gift: Term,
}

/// The metadata of a table: name, owner, heir and protection. Only if `named` is true is the table found by its name.
#[derive(Drop)]
pub struct Metadata {
    pub name: Atom,
    pub named: bool,
    pub owner: u32,
    pub heir: Option<Heir>,
    pub protection: Protection,
}

impl Metadata {
    /// Checks whether the process owns the table.
    pub fn is_owned_by(&self, pid: u32) -> bool
        ensures { result ≡ is_owner self.now pid }
    {
        pid == self.owner
    }

    /// Checks whether the process may read the table.
    pub fn may_read(&self, pid: u32) -> bool
        ensures { result ≡ may_read self.now pid }
    {
        self.owner == pid || self.protection != Protection::Private
    }

    /// Checks whether the process may write to the table.
    pub fn may_write(&self, pid: u32) -> bool
        ensures { result ≡ may_write self.now pid }
    {
        self.owner == pid || self.protection == Protection::Public
    }
}
