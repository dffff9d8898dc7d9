//! The reason of a call that is refused with badarg, by the call's name: its first broken rule. All rules of the call
//! but the last are checked. If the call breaks none of these, it breaks its last rule.
ghost use Rattle.std.specs.Prelude.{◌≡◌, [], ◌∷◌, option_copied};
ghost use Rattle.node_reasons.specs.Reasons.{argument};
ghost use Rattle.node_reasons.specs.Why.{limit_of};
ghost use Rattle.node_reasons.specs.inside.RefusalReasonsOfCalls.{content_in, refusal_reason_by_name, refusal_reason_of_call};

use crate::access::TableUse;
use crate::reason::{Reason, Rule};
use crate::{tables, updates};
use bucket_table::Rows;
use ets_term::Term;
use node_core::CallName;
use ownership::World;

/// Returns the rule of the limit that a call can exceed. `LimitExceeded` is the rule of all other calls, such as
/// `update_counter`.
pub fn limit_of(name: CallName) -> Rule
    ensures { result ≡ limit_of name }
{
    match name {
        CallName::Insert | CallName::InsertNew => Rule::TooManyObjects,
        CallName::New => Rule::TooManyTables,
        CallName::SafeFixtable => Rule::TooManyFixes,
        _ => Rule::LimitExceeded,
    }
}

/// Returns the reason of a call that is refused with badarg. Finds the table that the first argument names, if any, and
/// then chooses by the number of arguments.
pub fn refusal_reason_of_call<R: Rows>(
    world: &World<R>,
    pid: u32,
    name: CallName,
    args: &[Term],
) -> Reason
    ensures { result ≡ refusal_reason_of_call world.now pid name args.now }
{
    match args {
        [x] => refusal_reason_of_unary_call(&TableUse::find(world, pid, x), name),
        [x, y] => refusal_reason_of_binary_call(&TableUse::find(world, pid, x), name, y),
        [x, y, z] => refusal_reason_of_ternary_call(&TableUse::find(world, pid, x), name, y, z),
        [x, y, z, default] => refusal_reason_of_quaternary_call(
            &TableUse::find(world, pid, x),
            name,
            y,
            z,
            default,
        ),
        _ => Reason::about_whole_call(Rule::WrongArity),
    }
}

/// Returns the reason of a call of one argument that is refused with badarg.
fn refusal_reason_of_unary_call<R: Rows>(table_use: &TableUse<R>, name: CallName) -> Reason
    ensures { result ≡ refusal_reason_by_name table_use.now.pid (option_copied table_use.now.metadata)
        (content_in (option_copied table_use.now.table)) name (table_use.now.term.now ∷ []) }
{
    match name {
        CallName::Delete => table_use.refusal_reason_of_write(),
        CallName::DeleteAllObjects => table_use.refusal_reason_of_write(),
        CallName::First => table_use.refusal_reason_of_read(),
        CallName::FirstLookup => table_use.refusal_reason_of_read(),
        CallName::Tab2list => table_use.refusal_reason_of_read(),
        CallName::Whereis => Reason::argument(1, Rule::NotAnAtom),
        _ => Reason::about_whole_call(Rule::WrongArity),
    }
}

/// Returns the reason of a call of two arguments that is refused with badarg.
fn refusal_reason_of_binary_call<R: Rows>(
    table_use: &TableUse<R>,
    name: CallName,
    y: &Term,
) -> Reason
    ensures { result ≡ refusal_reason_by_name table_use.now.pid (option_copied table_use.now.metadata)
        (content_in (option_copied table_use.now.table)) name (table_use.now.term.now ∷ y.now ∷ []) }
{
    match name {
        CallName::Delete => table_use.refusal_reason_of_write(),
        CallName::DeleteObject => table_use.write_reason_or(second_argument(Rule::NotAnObject)),
        CallName::Info => tables::refusal_reason_of_info(y),
        CallName::Insert => table_use.write_reason_or(second_argument(Rule::NotAnObject)),
        CallName::InsertNew => table_use.write_reason_or(second_argument(Rule::NotAnObject)),
        CallName::Lookup => table_use.refusal_reason_of_read(),
        CallName::Match => table_use.read_reason_or(second_argument(Rule::NotAPattern)),
        CallName::MatchDelete => table_use.write_reason_or(second_argument(Rule::NotAPattern)),
        CallName::MatchObject => table_use.read_reason_or(second_argument(Rule::NotAPattern)),
        CallName::Member => table_use.refusal_reason_of_read(),
        CallName::New => tables::refusal_reason_of_new(table_use.term, y),
        CallName::Next => table_use.read_reason_or(second_argument(Rule::NoKey)),
        CallName::NextLookup => table_use.read_reason_or(second_argument(Rule::NoKey)),
        CallName::SafeFixtable => tables::refusal_reason_of_safe_fixtable(table_use, y),
        CallName::Select => table_use.read_reason_or(second_argument(Rule::NotASpecification)),
        CallName::SelectCount => table_use.read_reason_or(second_argument(Rule::NotASpecification)),
        CallName::SelectDelete => table_use.write_reason_or(second_argument(
            Rule::NotASpecification,
        )),
        CallName::SetOptions => table_use.owner_reason_or(second_argument(Rule::NotOptions)),
        CallName::Take => table_use.refusal_reason_of_write(),
        _ => Reason::about_whole_call(Rule::WrongArity),
    }
}

/// Returns the reason of a call of three arguments that is refused with badarg.
fn refusal_reason_of_ternary_call<R: Rows>(
    table_use: &TableUse<R>,
    name: CallName,
    y: &Term,
    z: &Term,
) -> Reason
    ensures { result ≡ refusal_reason_by_name table_use.now.pid (option_copied table_use.now.metadata)
        (content_in (option_copied table_use.now.table)) name (table_use.now.term.now ∷ y.now ∷ z.now ∷ []) }
{
    match name {
        CallName::GiveAway => tables::refusal_reason_of_give_away(table_use, y),
        // Without a default, the key must have an object: `needs_object` is `true`.
        CallName::LookupElement => updates::refusal_reason_of_lookup_element(table_use, y, z, true),
        CallName::UpdateCounter => updates::refusal_reason_of_update_counter(table_use, y, z, None),
        CallName::UpdateElement => updates::refusal_reason_of_update_element(table_use, y, z, None),
        _ => Reason::about_whole_call(Rule::WrongArity),
    }
}

/// Returns the reason of a call of four arguments, the last a default, that is refused with badarg.
fn refusal_reason_of_quaternary_call<R: Rows>(
    table_use: &TableUse<R>,
    name: CallName,
    y: &Term,
    z: &Term,
    default: &Term,
) -> Reason
    ensures { result ≡ refusal_reason_by_name table_use.now.pid (option_copied table_use.now.metadata)
        (content_in (option_copied table_use.now.table)) name
        (table_use.now.term.now ∷ y.now ∷ z.now ∷ default.now ∷ []) }
{
    match name {
        // With a default, the key need not have an object: `needs_object` is `false`.
        CallName::LookupElement => updates::refusal_reason_of_lookup_element(
            table_use, y, z, false,
        ),
        CallName::UpdateCounter => updates::refusal_reason_of_update_counter(
            table_use,
            y,
            z,
            Some(default),
        ),
        CallName::UpdateElement => updates::refusal_reason_of_update_element(
            table_use,
            y,
            z,
            Some(default),
        ),
        _ => Reason::about_whole_call(Rule::WrongArity),
    }
}

/// Returns the reason that the second argument breaks a rule.
fn second_argument(rule: Rule) -> Reason
    ensures { result ≡ argument 2 rule }
{
    Reason::argument(2, rule)
}
