//! The options `{heir,none}` and `{heir,Pid,Data}`, as they are read from terms. `new` and `setopts` share them.
ghost use Rattle.std.specs.Prelude.{◌≡◌, Option, IfOk};
ghost use Rattle.ets_term.specs.declared.term.Term.{out-Term};
ghost use Rattle.ownership.specs.declared.metadata.Heir as model;
ghost use Rattle.ownership.specs.Options.{parse_heir, heir_form, heirs_from, heir_after};
ghost use Rattle.ownership.specs.Outcomes.{Reads};
ghost use Rattle.ownership.specs.inside.Reading.{ReadsHeir};

use crate::fault::WorldFault;
use crate::metadata::Heir;
use ets_term::Term;
use std::alloc::{AllocError, Global};

/// Reads the elements of `{heir,none}` or `{heir,Pid,Data}`. Returns `Some(None)` for the first and `Some` of the heir
/// for the second. Returns `None` for any other tuple.
pub fn parse_heir(alloc: Global, elements: &[Term]) -> Result<Option<Option<Heir>>, AllocError>
    ensures { IfOk result (λ said. said ≡ parse_heir elements.now) }
{
    match elements {
        [name, none] if name.is_atom("heir") && none.is_atom("none") => Ok(Some(None)),
        [name, pid, data] if name.is_atom("heir") => {
            let Term::Pid(pid) = pid else {
                return Ok(None);
            };
            let gift = data.try_clone(alloc)?;
            Ok(Some(Some(Heir { pid: *pid, gift })))
        }
        _ => Ok(None),
    }
}

/// Reads the options of `setopts`. Returns `Some` of what the last option sets: an heir, or `None` for no heir. Returns
/// `None` for an empty list, and `Badarg` if a term is not such an option.
pub fn heir_in_setopts(alloc: Global, options: &Term) -> Result<Option<Option<Heir>>, WorldFault>
    ensures { (heir : Option model.Heir) → ReadsHeir (heir_after heir options.now) heir result }
{
    match options {
        Term::List(terms) => parse_last_heir(alloc, terms.as_slice()),
        // `setopts` also takes one option without a list.
        _ => Ok(Some(parse_heir_option(alloc, options)?)),
    }
}

/// Reads one option of `setopts`, which must name an heir or no heir. Returns the heir, or `None` for no heir.
fn parse_heir_option(alloc: Global, option: &Term) -> Result<Option<Heir>, WorldFault>
    ensures { Reads (heir_form (out-Term option.now)) result }
{
    let Term::Tuple(elements) = option else {
        return Err(WorldFault::Badarg);
    };
    let heir = parse_heir(alloc, elements.as_slice())?;
    heir.ok_or(WorldFault::Badarg)
}

/// Reads a list of heir options. Returns what the last option sets, or `None` for an empty list, which changes nothing.
fn parse_last_heir(alloc: Global, options: &[Term]) -> Result<Option<Option<Heir>>, WorldFault>
    ensures { (heir : Option model.Heir) → ReadsHeir (heirs_from heir options.now) heir result }
{
    let mut last = None;
    for option in options {
        match parse_heir_option(alloc, option) {
            Ok(heir) => last = Some(heir),
            Err(fault) => {
                drop(last);
                return Err(fault);
            }
        }
    }
    Ok(last)
}
