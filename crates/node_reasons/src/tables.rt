//! The reasons of refused calls of `new`, `info`, `safe_fixtable` and `give_away`. The last rule of each is not
//! checked: it is broken if all others hold.
ghost use Rattle.std.specs.Prelude.{◌≡◌, option_copied};
ghost use Rattle.node_reasons.specs.inside.RefusalReasons.{refusal_reason_of_new, refusal_reason_of_info, refusal_reason_of_safe_fixtable, refusal_reason_of_give_away};

use crate::access::TableUse;
use crate::options::are_options;
use crate::reason::{Reason, Rule};
use bucket_table::Rows;
use ets_term::Term;
use ownership::InfoItem;

/// Returns the reason of a refused `new`: the first broken rule of those that remain to be checked. They are, in this
/// order: the name is an atom; the options are well-formed; the name is not taken.
pub fn refusal_reason_of_new(name: &Term, options: &Term) -> Reason
    ensures { result ≡ refusal_reason_of_new name.now options.now }
{
    let Term::Atom(_) = name else {
        return Reason::argument(1, Rule::NotAnAtom);
    };
    if are_options(options) {
        Reason::argument(1, Rule::NameIsTaken)
    } else {
        Reason::argument(2, Rule::NotOptions)
    }
}

/// Returns the reason of a refused `info`: the first broken rule of those that remain to be checked. They are, in this
/// order: argument 2 is an item; argument 1 can name a table.
pub fn refusal_reason_of_info(item: &Term) -> Reason
    ensures { result ≡ refusal_reason_of_info item.now }
{
    match InfoItem::read(item) {
        Some(_) => Reason::argument(1, Rule::NotAnAtom),
        None => Reason::argument(2, Rule::NotAnItem),
    }
}

/// Returns the reason of a refused `safe_fixtable`: the first broken rule of those that remain to be checked. They are,
/// in this order: the flag is a boolean; the table exists; the process may read it.
pub fn refusal_reason_of_safe_fixtable<R: Rows>(table_use: &TableUse<R>, flag: &Term) -> Reason
    ensures { result ≡ refusal_reason_of_safe_fixtable table_use.now.pid (option_copied table_use.now.metadata) flag.now }
{
    if flag.is_atom("true") {
        table_use.refusal_reason_of_read()
    } else if flag.is_atom("false") {
        table_use.refusal_reason_of_read()
    } else {
        Reason::argument(2, Rule::NotABoolean)
    }
}

/// Returns the reason of a refused `give_away`: the first broken rule of those that remain to be checked. They are, in
/// this order: the table exists; argument 2 is a pid; the process owns the table; the pid is of another process that
/// lives.
pub fn refusal_reason_of_give_away<R: Rows>(table_use: &TableUse<R>, to: &Term) -> Reason
    ensures { result ≡ refusal_reason_of_give_away table_use.now.pid (option_copied table_use.now.metadata) to.now }
{
    let Some(_) = table_use.metadata else {
        return Reason::argument(1, Rule::NoTable);
    };
    let Term::Pid(to) = to else {
        return Reason::argument(2, Rule::NotAPid);
    };
    let rule = if *to == table_use.pid {
        Rule::ToSelf
    } else {
        Rule::NotAlive
    };
    table_use.owner_reason_or(Reason::argument(2, rule))
}
