//! How the list of options of `ets:new/2` is read. It begins with the defaults, and each option overwrites a part of
//! them.
ghost use Rattle.std.specs.Prelude.{◌≡◌, ◌≤◌, [], ◌∷◌, IfOk};
ghost use Rattle.ets_term.specs.declared.term.Term.{out-Term};
ghost use Rattle.ownership.specs.Options.{default_options, option_form, options_from, word_option, tuple_option, pair_option, keypos_option, is_tuning, is_boolean};
ghost use Rattle.ownership.specs.Outcomes.{Reads};
ghost use Rattle.ownership.specs.inside.Reading.{ReadsOption, SetsOption};

use super::NewOptions;
use super::heir::parse_heir;
use crate::fault::WorldFault;
use crate::metadata::Protection;
use ets_term::Term;
use std::alloc::Global;
use table_ops::Kind;

/// Reads the options of `new` in order. A later option overrides an earlier option.
pub fn read_all(alloc: Global, terms: &[Term]) -> Result<NewOptions, WorldFault>
    ensures value { Reads (options_from default_options terms.now) result }
    ensures keypos { IfOk result (λ options. 1 ≤ options.keypos) }
{
    let mut options = NewOptions::default();
    for term in terms {
        if let Err(fault) = options.add(alloc, term) {
            drop(options);
            return Err(fault);
        }
    }
    Ok(options)
}

/// Checks whether the term is `true` or `false`.
fn is_boolean(term: &Term) -> bool
    ensures { result ≡ is_boolean term.now }
{
    term.is_atom("true") || term.is_atom("false")
}

/// Checks whether a pair is a tuning option of ets. These options are allowed and have no effect.
fn is_tuning(name: &Term, value: &Term) -> bool
    ensures { result ≡ is_tuning name.now value.now }
{
    if name.is_atom("write_concurrency") {
        is_boolean(value) || value.is_atom("auto")
    } else {
        (name.is_atom("read_concurrency") || name.is_atom("decentralized_counters"))
            && is_boolean(value)
    }
}

/// Each of these methods, except `default`, applies one option to `self`. It returns `false` or `Badarg` if the option
/// or its value is not valid, and `Memory` if an allocation fails.
impl NewOptions {
    /// Returns the options of an empty list.
    fn default() -> NewOptions
        ensures { result ≡ default_options }
    {
        NewOptions {
            kind: Kind::Set,
            keypos: 1,
            protection: Protection::Protected,
            named: false,
            heir: None,
        }
    }

    /// Applies one option. Returns `Badarg` if the term is not an option.
    fn add(&mut self, alloc: Global, term: &Term) -> Result<(), WorldFault>
        requires { 1 ≤ self.old.keypos }
        ensures value { ReadsOption (option_form (out-Term term.now) self.old) result self.new }
        ensures keypos { 1 ≤ self.new.keypos }
    {
        let is_option = match term {
            Term::Atom(word) => self.set_word(word.text()),
            Term::Tuple(elements) => return self.add_tuple(alloc, elements.as_slice()),
            _ => false,
        };
        if !is_option {
            return Err(WorldFault::Badarg);
        }
        Ok(())
    }

    /// Applies an option that is an atom. Returns whether the word is an option. `compressed` is one without effect.
    fn set_word(&mut self, word: &str) -> bool
        requires { 1 ≤ self.old.keypos }
        ensures value { SetsOption (word_option word.now self.old) result self.new }
        ensures keypos { 1 ≤ self.new.keypos }
    {
        if word == "set" {
            self.kind = Kind::Set;
        } else if word == "bag" {
            self.kind = Kind::Bag;
        } else if word == "duplicate_bag" {
            self.kind = Kind::DuplicateBag;
        } else if word == "public" {
            self.protection = Protection::Public;
        } else if word == "protected" {
            self.protection = Protection::Protected;
        } else if word == "private" {
            self.protection = Protection::Private;
        } else if word == "named_table" {
            self.named = true;
        } else {
            return word == "compressed";
        }
        true
    }

    /// Applies an option that is a tuple: one that names an heir or no heir, or any other pair.
    fn add_tuple(&mut self, alloc: Global, elements: &[Term]) -> Result<(), WorldFault>
        requires { 1 ≤ self.old.keypos }
        ensures value { ReadsOption (tuple_option elements.now self.old) result self.new }
        ensures keypos { 1 ≤ self.new.keypos }
    {
        if let Some(heir) = parse_heir(alloc, elements)? {
            self.heir = heir;
            return Ok(());
        }
        if !self.set_tuple(elements) {
            return Err(WorldFault::Badarg);
        }
        Ok(())
    }

    /// Applies an option that is a pair. Returns whether the tuple is such an option.
    fn set_tuple(&mut self, elements: &[Term]) -> bool
        requires { 1 ≤ self.old.keypos }
        ensures value { SetsOption (pair_option elements.now self.old) result self.new }
        ensures keypos { 1 ≤ self.new.keypos }
    {
        match elements {
            [name, value] => self.set_pair(name, value),
            _ => false,
        }
    }

    /// Applies `{keypos,Pos}`, or accepts a tuning option, which has no effect. Returns whether the pair is an option.
    fn set_pair(&mut self, name: &Term, value: &Term) -> bool
        requires { 1 ≤ self.old.keypos }
        ensures value { SetsOption (pair_option (name.now ∷ value.now ∷ []) self.old) result self.new }
        ensures keypos { 1 ≤ self.new.keypos }
    {
        if !name.is_atom("keypos") {
            return is_tuning(name, value);
        }
        match value {
            // The upper bound is the greatest `u32`.
            Term::Int(position) if *position >= 1 && *position <= 4_294_967_295 => {
                self.keypos = *position as u32;
                true
            }
            _ => false,
        }
    }
}
