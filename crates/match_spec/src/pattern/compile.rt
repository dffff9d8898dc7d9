//! The step from the raw term of a pattern to its parts. A variable becomes a wildcard at its first path (to its first
//! occurrence), and elsewhere a comparison with the subterm at that path.
ghost use Rattle.std.specs.Prelude.{◌≡◌, map, IfOk, OnOk};
ghost use Rattle.ets_term.specs.Data.{atom, data_of, data_list};
ghost use Rattle.match_spec.specs.inside.CompiledPatterns.{part_of, parts_from, variable_part};
ghost use Rattle.match_spec.specs.inside.FirstPaths.{first_path};

use crate::pattern::part::Part;
use crate::pattern::path::{FirstPaths, first_path};
use crate::variable::variable;
use ets_term::{Atom, Items, Term};
use std::alloc::{AllocError, Global};

/// Compiles the part of the pattern at the current path, which is unchanged afterwards. `first` has the first paths of
/// the pattern's variables.
#[cycle(compile)]
#[tactic(auto, using(ets_term::specs::laws::Exact::back))]
pub(crate) fn part_of(
    alloc: Global,
    part: &Term,
    first: &FirstPaths,
    current_path: &mut Vec<usize>,
) -> Result<Part, AllocError>
    ensures made { IfOk result (λ p. p ≡ part_of first.now.entries current_path.old.items (data_of part.now)) }
    ensures current_path { OnOk result (current_path.new.items ≡ current_path.old.items) }
{
    match part {
        Term::Atom(name) => name_part(alloc, name, first, current_path.as_slice()),
        Term::Tuple(items) => Ok(Part::Tuple(parts_of(
            alloc,
            items.as_slice(),
            first,
            current_path,
        )?)),
        Term::List(items) => Ok(Part::List(parts_of(
            alloc,
            items.as_slice(),
            first,
            current_path,
        )?)),
        Term::Int(_) => Ok(Part::Literal(part.try_clone(alloc)?)),
        Term::Pid(_) => Ok(Part::Literal(part.try_clone(alloc)?)),
        Term::Tid(_) => Ok(Part::Literal(part.try_clone(alloc)?)),
        Term::Binary(_) => Ok(Part::Literal(part.try_clone(alloc)?)),
    }
}

/// Compiles the parts of a tuple or list. While it compiles a part, the current path ends with the part's index.
#[cycle(compile)]
fn parts_of(
    alloc: Global,
    parts: &[Term],
    first: &FirstPaths,
    current_path: &mut Vec<usize>,
) -> Result<Items<Part>, AllocError>
    ensures made { IfOk result (λ ps. ps
        ≡ parts_from first.now.entries current_path.old.items 0 (data_list (map data_of parts.now))) }
    ensures current_path { OnOk result (current_path.new.items ≡ current_path.old.items) }
{
    let mut compiled = Vec::with_capacity(alloc, parts.len())?;
    for i in 0..parts.len() {
        current_path.push(i)?;
        compiled.push(part_of(alloc, &parts[i], first, current_path)?)?;
        current_path.pop();
    }
    Ok(Items::from_vec(compiled))
}

/// Compiles an atom: `'_'`, a variable, or a literal.
fn name_part(
    alloc: Global,
    name: &Atom,
    first: &FirstPaths,
    current_path: &[usize],
) -> Result<Part, AllocError>
    ensures { IfOk result (λ p. p ≡ part_of first.now.entries current_path.now (atom name.now)) }
{
    let text = name.text();
    if text == "_" {
        return Ok(Part::Wildcard);
    }
    match variable(text.as_bytes()) {
        Some(number) => variable_part(alloc, number, first, current_path),
        None => Ok(Part::Literal(Term::Atom(name.try_clone(alloc)?))),
    }
}

/// Compiles an occurrence of a variable. The first occurrence fits any subterm. A later one fits only a subterm equal
/// to the subterm at the first path.
fn variable_part(
    alloc: Global,
    number: u32,
    first: &FirstPaths,
    current_path: &[usize],
) -> Result<Part, AllocError>
    ensures { IfOk result (λ p. p ≡ variable_part current_path.now (first_path first.now.entries number)) }
{
    let path = first_path(first, number);
    if path == current_path {
        return Ok(Part::Wildcard);
    }
    Ok(Part::Repeated(Items::from_vec(path.to_vec(alloc)?)))
}
