//! A cheap necessary condition of a match specification with a single clause. It checks the length of the object, and
//! compares one element with an integer. The object is packed.
ghost use Rattle.std.specs.Prelude.{◌≡◌, [], ◌∷◌, true, false, map, IfSome};
ghost use Rattle.ets_term.specs.Data.{tuple, data_of, data_list};
ghost use Rattle.match_spec.specs.inside.QuickTests.{rejects, rejects_element, IsComparison, IsNecessary, RejectsClause, RejectsAll};

use crate::expression::Expression;
use crate::expression::comparison::{ComparisonOp, integer_comparison_holds};
use crate::expression::function::Function;
use crate::pattern::part::Part;
use crate::spec::clause::Clause;
use ets_term::{Integer, Term};
use packed_term::{Object, Packed};

/// A necessary condition of a clause. The object is a tuple of `len` elements. Its element at `index`, counted from 0,
/// satisfies the comparison with `value`, or is not an integer.
#[derive(Clone, Copy)]
pub(crate) struct QuickTest {
    pub(crate) len: usize,
    pub(crate) index: usize,
    pub(crate) comparison: ComparisonOp,
    pub(crate) value: Integer,
}

impl QuickTest {
    /// Checks whether a packed object fails the test, without unpacking it. The clause then does not apply to it. If
    /// the result is `false`, a term that is not a tuple may still fail the test.
    #[inline(always)]
    pub(crate) fn rejects_packed(&self, object: &Object) -> bool
        ensures { result ≡ true → rejects self.now (data_of object.now) ≡ true }
    {
        self.rejects_parts(object.elements())
    }

    /// Checks whether a tuple of these packed terms fails the test.
    #[inline(always)]
    #[tactic(auto, using(crate::proofs::QuickLaws::rejects_length, crate::proofs::QuickLaws::rejects_by_element, crate::proofs::QuickLaws::rejects_nothing))]
    fn rejects_parts(&self, parts: &[Packed]) -> bool
        ensures { result ≡ rejects self.now (tuple (data_list (map data_of parts.now))) }
    {
        if parts.len() != self.len {
            return true;
        }
        // A tuple without this element cannot fail the comparison.
        if self.index >= parts.len() {
            return false;
        }
        self.rejects_part(&parts[self.index])
    }

    /// Checks whether this packed element fails the test. Only an integer can fail.
    #[inline(always)]
    fn rejects_part(&self, part: &Packed) -> bool
        ensures { result ≡ rejects_element self.now (data_of part.now) }
    {
        match part.as_integer() {
            Some(n) => !integer_comparison_holds(self.comparison, n, self.value),
            None => false,
        }
    }
}

/// Returns a quick test if there is a single clause, its pattern is a tuple, and its first condition compares an
/// element with an integer.
pub(crate) fn quick_test(clauses: &[Clause]) -> Option<QuickTest>
    ensures { IfSome result (λ q. RejectsAll q clauses.now) }
{
    match clauses {
        [clause] => clause_test(clause),
        _ => None,
    }
}

/// Returns a quick test for a clause, if its pattern is a tuple and its first condition compares an element with an
/// integer.
fn clause_test(clause: &Clause) -> Option<QuickTest>
    ensures { IfSome result (λ q. RejectsClause q clause.now) }
{
    match &clause.pattern {
        Part::Tuple(parts) => test_of_first_condition(parts.len(), clause.conditions.as_slice()),
        _ => None,
    }
}

/// Returns a quick test from the first condition of a clause whose pattern is a tuple of `len` parts. Returns `None` if
/// the condition gives no test.
fn test_of_first_condition(len: usize, conditions: &[Expression]) -> Option<QuickTest>
    ensures { IfSome result (λ q. (q.len ≡ len) × IsNecessary q conditions.now) }
{
    match conditions {
        [condition, ..] => test_of_comparison(len, condition),
        _ => None,
    }
}

/// Returns a quick test from a condition that compares an element, its first operand, with an integer, its second.
/// Returns `None` for any other condition.
fn test_of_comparison(len: usize, condition: &Expression) -> Option<QuickTest>
    ensures { IfSome result (λ q. (q.len ≡ len) × IsComparison q condition.now) }
{
    let Expression::Apply(function, arguments) = condition else {
        return None;
    };
    let Function::Compare(comparison) = function else {
        return None;
    };
    let [element, constant] = arguments.as_slice() else {
        return None;
    };
    let Some(index) = element_index(element) else {
        return None;
    };
    let Some(value) = integer_constant(constant) else {
        return None;
    };
    Some(QuickTest {
        len,
        index,
        comparison: *comparison,
        value,
    })
}

/// Returns the index of an element, counted from 0, if the expression is a variable whose value is an element of the
/// object itself.
fn element_index(expression: &Expression) -> Option<usize>
    ensures { IfSome result (λ i. expression.now ≡ Expression.Variable (i ∷ [])) }
{
    match expression {
        Expression::Variable(path) => single_index(path.as_slice()),
        _ => None,
    }
}

/// Returns the only index in a path of length 1, or `None` for a path of another length.
#[tactic(auto, using(crate::proofs::QuickLaws::single))]
fn single_index(path: &[usize]) -> Option<usize>
    ensures { IfSome result (λ i. path.now ≡ i ∷ []) }
{
    if path.len() != 1 {
        return None;
    }
    Some(path[0])
}

/// Returns the value of an expression that is an integer constant, or `None` for any other expression.
fn integer_constant(expression: &Expression) -> Option<Integer>
    ensures { IfSome result (λ n. expression.now ≡ Expression.Constant (Term.Int n)) }
{
    match expression {
        Expression::Constant(Term::Int(n)) => Some(*n),
        _ => None,
    }
}
