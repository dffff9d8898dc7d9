//! The bound key of patterns and match specifications: the key that every matching object has. A row is a text and the
//! key that it binds, if it binds one.
// A helper returns `None` if a text is not a term, pattern or match specification, or memory runs out. Each of these
// fails its test.
use super::*;
use ets_term::Position;
use term_text::read_term;

/// Reads the term of a text. `read_term` also returns the offset of its end, which is not used.
fn term_of(alloc: Global, text: &str) -> Option<Term> {
    Some(read_term(alloc, text).ok()?.0)
}

/// Returns whether the key that was found is the term of the wanted text, or both are missing.
fn is_key(alloc: Global, found: Option<&Term>, wanted: Option<&'static str>) -> Option<bool> {
    match (found, wanted) {
        (Some(key), Some(text)) => Some(*key == term_of(alloc, text)?),
        (found, wanted) => Some(found.is_none() && wanted.is_none()),
    }
}

/// The position of the key in each object.
#[derive(Clone, Copy)]
struct Keypos(Position);

/// Columns: a pattern, the position of the key, and the key that the pattern binds.
type PatternRow = (&'static str, Keypos, Option<&'static str>);

/// Patterns that bind a key, and patterns that match objects of several keys. The position 2^64 + 1 must not be taken
/// for 1, its value modulo 2^64.
const PATTERNS: [PatternRow; 11] = [
    ("{7,'_'}", Keypos(1), Some("7")),
    ("{7,'_'}", Keypos(2), None),
    ("{7,'_'}", Keypos(3), None),
    ("{7,'_'}", Keypos(0), None),
    ("{7,'_'}", Keypos(18446744073709551617), None),
    ("{'$1',{a,[b]}}", Keypos(2), Some("{a,[b]}")),
    ("{{a,'_'},b}", Keypos(1), None),
    ("{{a,['$1']},b}", Keypos(1), None),
    ("'_'", Keypos(1), None),
    ("'$1'", Keypos(1), None),
    ("a", Keypos(1), None),
];

/// Returns whether a pattern binds the key of its row, or no key if the row has none.
fn pattern_binds(alloc: Global, row: PatternRow) -> Option<bool> {
    let (text, keypos, wanted) = row;
    let pattern = Pattern::compile(alloc, &term_of(alloc, text)?).ok()?;
    is_key(alloc, pattern.bound_key(keypos.0), wanted)
}

/// Returns whether all patterns bind the keys of their rows.
fn patterns_bind(alloc: Global, rows: &[PatternRow]) -> bool {
    for row in rows {
        if pattern_binds(alloc, *row) != Some(true) {
            return false;
        }
    }
    true
}

#[test]
fn a_pattern_binds_its_key(rt: HostRuntime) {
    assert!(rt; patterns_bind(rt.alloc(), &PATTERNS));
}

/// Columns: a match specification, and the key at position 1 that it binds.
type SpecRow = (&'static str, Option<&'static str>);

/// Match specifications whose clauses all bind the same key, and others.
const SPECS: [SpecRow; 6] = [
    ("[{{7,'_'},[],[1]}]", Some("7")),
    ("[{{7,'_'},[],[1]},{{7,a,b},[],[2]}]", Some("7")),
    ("[{{7,'_'},[],[1]},{{8,'_'},[],[1]}]", None),
    ("[{{7,'_'},[],[1]},{'_',[],[1]}]", None),
    ("[{{7,'_'},[],[1]},{{'$1','_'},[],[1]}]", None),
    ("[{{'$1',7},[],[1]}]", None),
];

/// Returns whether a match specification binds the key of its row, or no key if the row has none.
fn spec_binds(alloc: Global, row: SpecRow) -> Option<bool> {
    let (text, wanted) = row;
    let spec = Spec::compile(alloc, &term_of(alloc, text)?).ok()?;
    is_key(alloc, spec.bound_key(1), wanted)
}

/// Returns whether all match specifications bind the keys of their rows.
fn specs_bind(alloc: Global, rows: &[SpecRow]) -> bool {
    for row in rows {
        if spec_binds(alloc, *row) != Some(true) {
            return false;
        }
    }
    true
}

#[test]
fn a_match_specification_binds_a_key_if_all_clauses_bind_it(rt: HostRuntime) {
    assert!(rt; specs_bind(rt.alloc(), &SPECS));
}
