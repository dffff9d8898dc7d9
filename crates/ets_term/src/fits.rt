//! The ranges of the values in terms, for proofs. The functions return nothing; only their contracts are used.
ghost use Rattle.std.specs.Prelude.{◌<◌, map};
ghost use Rattle.std.specs.List.{AllByRecursion};
ghost use Rattle.ets_term.specs.Data.{data_list, data_of};
ghost use Rattle.ets_term.specs.Fits.{Fits, DataListFits};

use crate::term::Term;

impl Term {
    /// Returns nothing and changes nothing: a call only gives the proof of its caller the ranges of the term. Integers,
    /// pids, table identifiers and bytes are in the ranges of their types. Each atom has at most `MAX_CHARACTERS`
    /// characters, all printable ASCII.
    pub fn fits(&self)
        ensures { Fits self.now }
    {
        fits_term(self)
    }
}

/// Gives a proof the ranges of a term, as `Term::fits` does. The prover learns the range of a value where the value is
/// read.
#[cycle(fits)]
fn fits_term(term: &Term)
    ensures { Fits term.now }
{
    match term {
        Term::Int(n) => {
            // The read gives the proof the range of the integer.
            let _n = *n;
        }
        Term::Atom(name) => {
            // By the contract of `text`, an atom's text is in range.
            let _text = name.text();
        }
        Term::Pid(n) => {
            // The read gives the proof that the number of the pid is below 2^32.
            let _n = *n;
        }
        Term::Tid(n) => {
            // The read gives the proof that the number of the table identifier is below 2^32.
            let _n = *n;
        }
        Term::Tuple(items) => fits_items(items.as_slice()),
        Term::List(items) => fits_items(items.as_slice()),
        Term::Binary(bytes) => fits_bytes(bytes.as_slice()),
    }
}

/// Gives a proof that each byte is below 256. The body is empty: the prover knows the range of `u8`.
fn fits_bytes(bytes: &[u8])
    ensures { AllByRecursion (λ b. b < 256) bytes.now }
{}

/// Gives a proof the ranges of each item, as `fits_term` does.
#[cycle(fits)]
fn fits_items(items: &[Term])
    ensures { DataListFits (data_list (map data_of items.now)) }
{
    for item in items {
        fits_term(item);
    }
}
