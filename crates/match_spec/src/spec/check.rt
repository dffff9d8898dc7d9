//! The step from the raw term of a clause to its pattern, conditions and body, which are checked before they are
//! compiled. A raw term is the term that a user passes.
ghost use Rattle.std.specs.Prelude.{◌≡◌, nat_lt, map};
ghost use Rattle.std.specs.Option.{option_map};
ghost use Rattle.ets_term.specs.Data.{tuple, data_of, data_list};
ghost use Rattle.ets_term.specs.Order.{data_list_len};
ghost use Rattle.match_spec.specs.Specifications.{clause_parts};
ghost use Rattle.match_spec.specs.inside.CompiledClauses.{is_good_by, raw_clause_of};
ghost use Rattle.match_spec.specs.inside.FirstPaths.{numbers_of};

use crate::expression::check::are_expressions;
use crate::pattern::is_pattern;
use crate::pattern::path::FirstPaths;
use ets_term::Term;

/// The three parts of a clause, as terms: its pattern (MatchHead), its conditions and its body.
#[derive(Clone, Copy)]
pub(crate) struct ClauseParts<'a> {
    pub(crate) pattern: &'a Term,
    pub(crate) conditions: &'a [Term],
    pub(crate) body: &'a [Term],
}

/// Returns the parts of a clause, or `None` if the term does not have the form of a clause.
pub(crate) fn clause_parts(term: &Term) -> Option<ClauseParts>
    ensures { option_map raw_clause_of result ≡ clause_parts (data_of term.now) }
{
    match term {
        Term::Tuple(parts) => three_parts(parts.as_slice()),
        _ => None,
    }
}

/// Returns the pattern, conditions and body of a clause, or `None` if there are not three elements or the last two are
/// not lists.
fn three_parts(parts: &[Term]) -> Option<ClauseParts>
    ensures { option_map raw_clause_of result ≡ clause_parts (tuple (data_list (map data_of parts.now))) }
{
    if parts.len() != 3 {
        return None;
    }
    let Term::List(conditions) = &parts[1] else {
        return None;
    };
    let Term::List(body) = &parts[2] else {
        return None;
    };
    Some(ClauseParts {
        pattern: &parts[0],
        conditions: conditions.as_slice(),
        body: body.as_slice(),
    })
}

/// Checks whether a clause is valid. Its pattern must be an atom or a tuple. Its conditions and its body, which must
/// not be empty, must be expressions that use only the variables of the pattern, which are in `first`.
pub(crate) fn is_good(parts: ClauseParts, first: &FirstPaths) -> bool
    ensures { result ≡ is_good_by (numbers_of first.now.entries) (raw_clause_of parts.entry) }
{
    let conditions = are_expressions(parts.conditions, 0, first);
    let body = are_expressions(parts.body, 0, first);
    (is_pattern(parts.pattern) && is_nonempty(parts.body)) && (conditions && body)
}

/// Checks whether the slice has a term or more.
#[tactic(auto, using(crate::proofs::ExpressionLaws::data_list_len_of))]
pub(crate) fn is_nonempty(terms: &[Term]) -> bool
    ensures { result ≡ nat_lt 0 (data_list_len (data_list (map data_of terms.now))) }
{
    terms.len() > 0
}
