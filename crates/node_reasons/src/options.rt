//! Whether the second argument of `new` is a list of options. The check copies nothing.
ghost use Rattle.std.specs.Prelude.{◌≡◌, is_some};
ghost use Rattle.std.specs.List.{list_all};
ghost use Rattle.ets_term.specs.declared.term.Term.{out-Term};
ghost use Rattle.ownership.specs.Options.{parse_heir, is_tuning, is_boolean};
ghost use Rattle.node_reasons.specs.inside.Forms.{is_other_word, is_word, is_keypos_form, is_option_pair, is_name_and_value, is_option, are_options};

use ets_term::Term;

/// Checks whether a term is a list of options of `new`.
pub fn are_options(term: &Term) -> bool
    ensures { result ≡ are_options term.now }
{
    match term {
        Term::List(terms) => are_all_options(terms.as_slice()),
        _ => false,
    }
}

/// Checks whether each term is an option of `new`.
fn are_all_options(terms: &[Term]) -> bool
    ensures { result ≡ list_all is_option terms.now }
{
    terms.iter().all(|term| is_option(term))
}

/// Checks whether a term is an option of `new`: a word, an heir or a pair.
fn is_option(term: &Term) -> bool
    ensures { result ≡ is_option term.now }
{
    match term {
        Term::Atom(word) => is_word(word.text()),
        Term::Tuple(elements) => {
            is_heir(elements.as_slice()) || is_name_and_value(elements.as_slice())
        }
        _ => false,
    }
}

/// Checks whether a word is an option of `new`: a kind of table, or another word.
fn is_word(word: &str) -> bool
    ensures { result ≡ is_word word.now }
{
    word == "set" || word == "bag" || word == "duplicate_bag" || is_other_word(word)
}

/// Checks whether a word is an option of `new`, but no kind of table: a protection, `named_table` or `compressed`.
fn is_other_word(word: &str) -> bool
    ensures { result ≡ is_other_word word.now }
{
    word == "public"
        || word == "protected"
        || word == "private"
        || word == "named_table"
        || word == "compressed"
}

/// Checks whether the elements are those of an option about an heir: `{heir,none}` or `{heir,Pid,Data}`.
#[tactic(auto, using(crate::proofs::FormLaws::heir_forms))]
fn is_heir(elements: &[Term]) -> bool
    ensures { result ≡ is_some (parse_heir elements.now) }
{
    match elements {
        [name, none] => name.is_atom("heir") && none.is_atom("none"),
        [name, pid, _] => name.is_atom("heir") && matches!(pid, Term::Pid(_)),
        _ => false,
    }
}

/// Checks whether the elements are those of an option `{Name,Value}`.
fn is_name_and_value(elements: &[Term]) -> bool
    ensures { result ≡ is_name_and_value elements.now }
{
    match elements {
        [name, value] => is_option_pair(name, value),
        _ => false,
    }
}

/// Checks whether a name and its value are the option `keypos`, or an option that only tunes speed.
fn is_option_pair(name: &Term, value: &Term) -> bool
    ensures { result ≡ is_option_pair name.now value.now }
{
    if name.is_atom("keypos") {
        is_keypos(value)
    } else {
        is_tuning(name, value)
    }
}

/// Checks whether a term is a position that keys can have: an integer from 1 to 2^32 - 1.
fn is_keypos(term: &Term) -> bool
    ensures { result ≡ is_keypos_form (out-Term term.now) }
{
    match term {
        Term::Int(n) => *n >= 1 && *n <= 4_294_967_295,
        _ => false,
    }
}

/// Checks whether a name and its value are an option that only tunes speed in `ets`, and changes nothing here.
fn is_tuning(name: &Term, value: &Term) -> bool
    ensures { result ≡ is_tuning name.now value.now }
{
    if name.is_atom("write_concurrency") {
        is_boolean(value) || value.is_atom("auto")
    } else {
        (name.is_atom("read_concurrency") || name.is_atom("decentralized_counters"))
            && is_boolean(value)
    }
}

/// Checks whether a term is the atom `true` or `false`.
fn is_boolean(term: &Term) -> bool
    ensures { result ≡ is_boolean term.now }
{
    term.is_atom("true") || term.is_atom("false")
}
