//! The reasons of refused calls of `lookup_element`, `update_counter` and `update_element`. The last rule of each is
//! not checked: it is broken if all others hold. A function `*_reason_or` checks rules: it returns the reason if one is
//! broken, or else the reason `rest` that was passed.
ghost use Rattle.std.specs.Prelude.{◌≡◌, option_copied};
ghost use Rattle.table_ops.specs.Update.{is_set, default_is_object};
ghost use Rattle.ets_term.specs.Views.{as_natural};
ghost use Rattle.node_core.specs.declared.node.access.Access.TheVariants.{Read, Write};
ghost use Rattle.node_reasons.specs.inside.RefusalReasons.{refusal_reason_of_content, key_reason_or, position_reason_or, refusal_reason_of_lookup_element, set_reason_or, refusal_reason_of_update_counter, refusal_reason_of_update_element};
ghost use Rattle.node_reasons.specs.inside.RefusalReasonsOfCalls.{content_in};

use crate::access::TableUse;
use crate::forms::{are_element_specs, are_ops};
use crate::reason::{Reason, Rule};
use bucket_table::Rows;
use counters::is_valid_default;
use ets_term::Term;
use fixed_walk::Walked;
use packed_term::Object;
use table_ops::Kind;

/// Returns the reason of a refused `lookup_element`: its first broken rule. The rules are, in this order: the process
/// may read the table; argument 3 is a position. Then: without a default (`needs_object`), the key has an object; the
/// object has the element.
pub fn refusal_reason_of_lookup_element<R: Rows>(
    table_use: &TableUse<R>,
    key: &Term,
    position: &Term,
    needs_object: bool,
) -> Reason
    ensures { result ≡ refusal_reason_of_content Read table_use.now.pid (option_copied table_use.now.metadata)
        (content_in (option_copied table_use.now.table)) (refusal_reason_of_lookup_element key.now position.now needs_object) }
{
    let Some(table) = table_use.table else {
        return table_use.read_reason_or(Reason::argument(1, Rule::NoTable));
    };
    // The last rule, which is broken if all others hold: the object has the element.
    let element = Reason::argument(3, Rule::NoElement);
    let rest = position_reason_or(
        position,
        key_reason_or(needs_object, element, table.lookup(key)),
    );
    table_use.read_reason_or(rest)
}

/// Returns the reason of a refused `update_counter`: its first broken rule. The rules are, in this order: the process
/// may write to the table; the operations are well-formed; the table is a set. Then: the default, with the key in it,
/// is an object; without a default, the key has an object. Last: the object has integers at the positions.
pub fn refusal_reason_of_update_counter<R: Rows>(
    table_use: &TableUse<R>,
    key: &Term,
    updates: &Term,
    default: Option<&Term>,
) -> Reason
    ensures { result ≡ refusal_reason_of_content Write table_use.now.pid (option_copied table_use.now.metadata)
        (content_in (option_copied table_use.now.table))
        (refusal_reason_of_update_counter key.now updates.now (option_copied default.entry)) }
{
    let Some(table) = table_use.table else {
        return table_use.write_reason_or(Reason::argument(1, Rule::NoTable));
    };
    let rest = if are_ops(table.keypos(), updates) {
        // The last rule: the object has integers at the positions.
        let counter = Reason::argument(3, Rule::NotACounter);
        set_reason_or(
            table,
            key,
            default,
            key_reason_or(default.is_none(), counter, table.lookup(key)),
        )
    } else {
        Reason::argument(3, Rule::NotAnUpdate)
    };
    table_use.write_reason_or(rest)
}

/// Returns the reason of a refused `update_element`: its first broken rule. The rules are, in this order: the process
/// may write to the table; the element values are well-formed; the table is a set. Then: the default, with the key in
/// it, is an object; the object has the elements.
pub fn refusal_reason_of_update_element<R: Rows>(
    table_use: &TableUse<R>,
    key: &Term,
    values: &Term,
    default: Option<&Term>,
) -> Reason
    ensures { result ≡ refusal_reason_of_content Write table_use.now.pid (option_copied table_use.now.metadata)
        (content_in (option_copied table_use.now.table))
        (refusal_reason_of_update_element key.now values.now (option_copied default.entry)) }
{
    let Some(table) = table_use.table else {
        return table_use.write_reason_or(Reason::argument(1, Rule::NoTable));
    };
    let rest = if are_element_specs(table.keypos(), values) {
        set_reason_or(table, key, default, Reason::argument(3, Rule::NoElement))
    } else {
        Reason::argument(3, Rule::NotAnUpdate)
    };
    table_use.write_reason_or(rest)
}

/// Returns the reason if argument 3 is not a position, which is an integer of at least 1; else `rest`.
fn position_reason_or(position: &Term, rest: Reason) -> Reason
    ensures { result ≡ position_reason_or (as_natural position.now) rest }
{
    match position {
        Term::Int(n) if *n >= 1 => rest,
        _ => Reason::argument(3, Rule::NotAPosition),
    }
}

/// Returns the reason if the call needs an object of the key, and `objects`, those of the key, is empty; else `rest`.
fn key_reason_or(needs_object: bool, rest: Reason, objects: &[Object]) -> Reason
    ensures { result ≡ key_reason_or needs_object rest objects.now }
{
    match objects {
        [] if needs_object => Reason::argument(2, Rule::NoKey),
        _ => rest,
    }
}

/// Checks whether a table has at most one object for each key.
fn is_set<R: Rows>(table: &Walked<R>) -> bool
    ensures { result ≡ is_set table.now.content.kind }
{
    matches!(table.kind(), Kind::Set)
}

/// Returns the reason if the table is not a set, or the default, with the key in it, is not an object; else `rest`.
fn set_reason_or<R: Rows>(
    table: &Walked<R>,
    key: &Term,
    default: Option<&Term>,
    rest: Reason,
) -> Reason
    ensures { result ≡ set_reason_or key.now (option_copied default.entry) table.now.content rest }
{
    if !is_set(table) {
        Reason::argument(1, Rule::NotASet)
    } else if default_is_object(table.keypos(), key, default) {
        rest
    } else {
        Reason::argument(4, Rule::NotAnObject)
    }
}

/// Checks whether the default, with the key in it, is an object. Returns `true` if there is no default.
fn default_is_object(keypos: u32, key: &Term, default: Option<&Term>) -> bool
    ensures { result ≡ default_is_object keypos key.now (option_copied default.entry) }
{
    match default {
        Some(default) => is_valid_default(default, keypos, key),
        None => true,
    }
}
