//! Random patterns and match specifications, compared with a plain reading of the rules: the functions of `plain`.
//! Enough of them must match, compile, be refused and give results.
use super::*;
use crate::tests::plain;
use crate::tests::random::Random;

/// The number of random objects in each test.
const OBJECTS: u32 = 5_000;

/// More patterns than this must match their objects, so that enough bindings are compared.
const MIN_MATCHES: u32 = 2_500;

/// More match specifications than this must compile.
const MIN_COMPILED: u32 = 1_000;

/// Fewer match specifications than this may compile, so that enough are refused.
const MAX_COMPILED: u32 = 4_000;

/// More match specifications than this must give a result.
const MIN_RESULTS: u32 = 500;

/// Counts of answers: of each kind, and of those that differ from the plain reading.
#[derive(Drop)]
struct Tally {
    /// How many patterns matched.
    matches: u32,
    /// How many match specifications compiled.
    compiled: u32,
    /// How many of the match specifications that compiled gave a result.
    results: u32,
    /// How many answers differed from the plain reading.
    mismatches: u32,
}

/// Returns the list of the bindings of a pattern, or `Some(None)` if it does not match. The outer `None` means that it
/// does not compile, or out of memory.
fn bindings(alloc: Global, pattern: &Term, object: &Term) -> Option<Option<Term>> {
    let pattern = Pattern::compile(alloc, pattern).ok()?;
    match pattern.bindings(alloc, object).ok()? {
        Some(values) => Some(Some(Term::List(Items::from_vec(values)))),
        None => Some(None),
    }
}

impl Tally {
    /// Counts a mismatch if `same` is false: an answer is not that of the plain reading.
    fn count_mismatch_unless(&mut self, same: bool) {
        if !same {
            self.mismatches = self.mismatches.saturating_add(1);
        }
    }

    /// Compares the bindings of a pattern with the plain reading.
    fn compare_pattern(&mut self, alloc: Global, pattern: &Term, object: &Term) {
        let found = bindings(alloc, pattern, object);
        // Adds 1 if the pattern matches.
        self.matches = self
            .matches
            .saturating_add(matches!(found, Some(Some(_))) as u32);
        self.count_mismatch_unless(found == Some(plain::bindings(alloc, pattern, object)));
    }

    /// Compares the result of a match specification with the plain reading.
    fn compare_result(&mut self, alloc: Global, compiled: &Spec, spec: &Term, object: &Term) {
        let result = compiled.result(alloc, object).ok();
        // Adds 1 if there is a result.
        self.results = self
            .results
            .saturating_add(matches!(result, Some(Some(_))) as u32);
        self.count_mismatch_unless(result == Some(plain::result(alloc, spec, object)));
    }

    /// Checks that a match specification compiles exactly if the plain reading accepts it. If it compiles, compares its
    /// result with the plain reading.
    fn compare_spec(&mut self, alloc: Global, spec: &Term, object: &Term) {
        let is_spec = plain::is_spec(alloc, spec);
        match Spec::compile(alloc, spec) {
            Ok(compiled) => {
                self.compiled = self.compiled.saturating_add(1);
                self.count_mismatch_unless(is_spec);
                self.compare_result(alloc, &compiled, spec, object);
            }
            Err(_) => self.count_mismatch_unless(!is_spec),
        }
    }

    /// Compares the bindings of a random pattern, made from an object, with the plain reading.
    fn compare_random_pattern(
        &mut self,
        alloc: Global,
        random: &mut Random,
        object: &Term,
    ) -> Option<()> {
        self.compare_pattern(alloc, &random.pattern(alloc, object)?, object);
        Some(())
    }

    /// Makes a random object, and from it a pattern and a match specification. Compares both with the plain reading.
    fn compare_random_object(&mut self, alloc: Global, random: &mut Random) -> Option<()> {
        let object = random.object(alloc)?;
        self.compare_random_pattern(alloc, random, &object)?;
        self.compare_spec(alloc, &random.spec(alloc, &object)?, &object);
        Some(())
    }

    /// Calls `compare_random_object` this number of times. Returns `None` if memory runs out while a random term is
    /// built.
    fn compare_random_objects(
        &mut self,
        alloc: Global,
        random: &mut Random,
        objects: u32,
    ) -> Option<()> {
        for _ in 0..objects {
            self.compare_random_object(alloc, random)?;
        }
        Some(())
    }

    /// Returns whether no answer differs, enough patterns match, and enough match specifications compile, are refused
    /// and give results.
    fn agrees_with_enough(&self) -> bool {
        self.mismatches == 0
            && self.matches > MIN_MATCHES
            && self.compiled > MIN_COMPILED
            && self.compiled < MAX_COMPILED
            && self.results > MIN_RESULTS
    }
}

/// Returns whether `OBJECTS` random objects, each with a pattern and a match specification, give no mismatch, and
/// enough of them match and give results. Returns `false` if memory runs out while a random term is built. Each of the
/// four tests has its own seed.
fn random_terms_agree(alloc: Global, seed: u64) -> bool {
    let mut tally = Tally {
        matches: 0,
        compiled: 0,
        results: 0,
        mismatches: 0,
    };
    let outcome = tally.compare_random_objects(alloc, &mut Random::new(seed), OBJECTS);
    outcome == Some(()) && tally.agrees_with_enough()
}

#[test]
fn first_quarter_of_random_terms_agrees_with_a_plain_reading(rt: HostRuntime) {
    assert!(rt; random_terms_agree(rt.alloc(), 11));
}

#[test]
fn second_quarter_of_random_terms_agrees_with_a_plain_reading(rt: HostRuntime) {
    assert!(rt; random_terms_agree(rt.alloc(), 12));
}

#[test]
fn third_quarter_of_random_terms_agrees_with_a_plain_reading(rt: HostRuntime) {
    assert!(rt; random_terms_agree(rt.alloc(), 13));
}

#[test]
fn fourth_quarter_of_random_terms_agrees_with_a_plain_reading(rt: HostRuntime) {
    assert!(rt; random_terms_agree(rt.alloc(), 14));
}
