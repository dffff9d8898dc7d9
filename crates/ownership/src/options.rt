//! The options of `ets:new/2` and the heir options of `ets:setopts/2`, as they are read from terms.
ghost use Rattle.std.specs.Prelude.{◌≡◌, ◌≤◌, IfOk};
ghost use Rattle.ownership.specs.Options.{options_of};
ghost use Rattle.ownership.specs.Outcomes.{Reads};

// The modules: options that name an `heir`, and how to `read` the options of `new`.
mod heir;
mod read;

use crate::fault::WorldFault;
use crate::metadata::{Heir, Protection};
use ets_term::Term;
pub use heir::heir_in_setopts;
use read::read_all;
use std::alloc::Global;
use table_ops::Kind;

/// The table options of ets:new/2.
#[derive(Drop)]
pub struct NewOptions {
    kind: Kind,
    keypos: u32,
    pub(crate) protection: Protection,
    pub(crate) named: bool,
    pub(crate) heir: Option<Heir>,
}

impl NewOptions {
    /// Reads a list of options (stdlib manual, ets:new/2) in its order; a later option overrides an earlier option.
    /// Returns `Badarg` if the term is not a list of options.
    pub fn read(alloc: Global, term: &Term) -> Result<NewOptions, WorldFault>
        ensures value { Reads (options_of term.now) result }
        ensures keypos { IfOk result (λ options. 1 ≤ options.keypos) }
    {
        match term {
            Term::List(terms) => read_all(alloc, terms.as_slice()),
            _ => Err(WorldFault::Badarg),
        }
    }
    /// Returns the kind of the table.
    pub fn kind(&self) -> Kind
        ensures { result ≡ self.now.kind }
    {
        self.kind
    }

    /// Returns the position of the key. It is at least 1 if the options were read from a term.
    pub fn keypos(&self) -> u32
        ensures { result ≡ self.now.keypos }
    {
        self.keypos
    }
}
