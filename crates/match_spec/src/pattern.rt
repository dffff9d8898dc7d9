//! A compiled pattern, and the values of its variables in an object that matches. Contracts see only its raw term, from
//! which it was compiled.
ghost use Rattle.std.specs.Prelude.{◌≡◌, ◌↔◌, true, false, Some, is_some, map, option_copied, IfOk, IfSome, IsErrOf};
ghost use Rattle.std.specs.Option.{option_map};
ghost use Rattle.std.specs.Map.{values_of};
ghost use Rattle.ets_term.specs.Data.{data_of};
ghost use Rattle.match_spec.specs.BoundKeys.{bound_key, IsKeyOf};
ghost use Rattle.match_spec.specs.Patterns.{bindings_of};
ghost use Rattle.match_spec.specs.Matching.{IsBindings};
ghost use Rattle.match_spec.specs.Specifications.{is_pattern};

// The modules: how to `compile` a pattern, a `part` of a compiled pattern, and the `path` from a term to a subterm.
pub(crate) mod compile;
pub(crate) mod part;
pub(crate) mod path;

use crate::bound_key::bound_part;
use crate::fault::SpecFault;
use crate::pattern::compile::part_of;
use crate::pattern::part::{Part, fits};
use crate::pattern::path::{clone_subterms, first_paths, paths_by_number};
use ets_term::{Items, Position, Term};
use std::alloc::{AllocError, Global};
use std::marker::Model;

/// A compiled pattern. Contracts see it as its raw term, `source`. `part` is its compiled form, and `paths` has the
/// first path of each variable, in order of their numbers.
#[derive(Drop)]
pub struct Pattern {
    source: Term,
    part: Part,
    paths: Items<Items<usize>>,
}

// The value that contracts see of this type (`view`), and what is true of its fields between calls (`invariant`).
impl Model for Pattern {
    ghost use Rattle.ets_term.specs.contracts.term.Term as term;
    ghost use Rattle.ets_term.specs.declared.term.Term as declared;
    ghost use Rattle.ets_term.specs.Data.{data_of};
    ghost use Rattle.match_spec.specs.inside.CompiledPatterns.{IsCompiled};

    ghost Value = { declared.Term };

    ghost coded = { term.the_row.coded };

    ghost view = { λ p. p.source };

    ghost invariant = { λ p. IsCompiled (data_of p.source) p.part p.paths };
}

impl Pattern {
    /// Compiles a pattern. Atoms and tuples are patterns; any other term is `Badarg`. Fails with `Memory` if an
    /// allocation fails.
    pub fn compile(alloc: Global, term: &Term) -> Result<Pattern, SpecFault>
        ensures same { IfOk result (λ p. p ≡ term.now) }
        ensures badarg { IsErrOf result SpecFault.Badarg ↔ (is_pattern (data_of term.now) ≡ false) }
    {
        if !is_pattern(term) {
            return Err(SpecFault::Badarg);
        }
        let first = first_paths(alloc, term)?;
        // The path of the part that is compiled: empty for the whole pattern.
        let mut current_path = Vec::new(alloc);
        Ok(Pattern {
            source: term.try_clone(alloc)?,
            part: part_of(alloc, term, &first, &mut current_path)?,
            paths: paths_by_number(alloc, &first)?,
        })
    }

    /// Returns the values of the variables if the term matches, in order of the variables' numbers, or `None` if it
    /// does not match. Fails if an allocation fails.
    pub fn bindings(&self, alloc: Global, term: &Term) -> Result<Option<Vec<Term>>, AllocError>
        ensures values { IfOk result (λ found. option_map (λ v. map data_of v.items) found
            ≡ option_map values_of (bindings_of (data_of self.now) (data_of term.now))) }
        ensures matches { IfOk result (λ found. IsBindings (data_of self.now) (data_of term.now)
            (option_map (λ v. map data_of v.items) found)) }
    {
        self.find_bindings(alloc, term)
    }

    /// Checks whether the term matches the pattern. Takes no memory.
    pub fn fits(&self, term: &Term) -> bool
        ensures { result ≡ is_some (bindings_of (data_of self.now) (data_of term.now)) }
    {
        fits(&self.part, term, term)
    }

    /// Returns the values of the variables, in order of their numbers, for a term that matches. Fails if an allocation
    /// fails.
    pub fn values_in(&self, alloc: Global, term: &Term) -> Result<Vec<Term>, AllocError>
        requires { is_some (bindings_of (data_of self.now) (data_of term.now)) ≡ true }
        ensures { IfOk result (λ v. Some (map data_of v.items)
            ≡ option_map values_of (bindings_of (data_of self.now) (data_of term.now))) }
    {
        clone_subterms(alloc, self.paths.as_slice(), term)
    }

    /// Does what `bindings` does, with a weaker contract.
    fn find_bindings(&self, alloc: Global, term: &Term) -> Result<Option<Vec<Term>>, AllocError>
        ensures { IfOk result (λ found. option_map (λ v. map data_of v.items) found
            ≡ option_map values_of (bindings_of (data_of self.now) (data_of term.now))) }
    {
        if !self.fits(term) {
            return Ok(None);
        }
        Ok(Some(self.values_in(alloc, term)?))
    }

    /// Returns the element of the pattern at `keypos`, from 1. Returns `None` if the element has a variable or `'_'`,
    /// or the pattern has no such element. Every object that matches has the returned key.
    pub fn bound_key(&self, keypos: Position) -> Option<&Term>
        ensures key { option_map data_of (option_copied result) ≡ bound_key keypos (data_of self.now) }
        ensures every { IfSome result (λ key. IsKeyOf keypos (bindings_of (data_of self.now)) key.now) }
    {
        bound_part(&self.source, keypos)
    }
}

/// Checks whether a term is an atom or a tuple.
pub(crate) fn is_pattern(term: &Term) -> bool
    ensures { result ≡ is_pattern (data_of term.now) }
{
    match term {
        Term::Atom(_) => true,
        Term::Tuple(_) => true,
        _ => false,
    }
}
