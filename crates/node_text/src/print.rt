//! Steps, calls and replies as texts, for people to read.
ghost use Rattle.std.specs.Prelude.{◌≡◌, ◌++◌, map, false, IfOk, OnOk, string_bytes};
ghost use Rattle.term_text.specs.Printed.{text_of_term, atom_text, join_with_commas, comma_if};
ghost use Rattle.node_text.specs.Printed.{call_text, step_text, reply_text};

use ets_term::{Atom, Term};
use node_core::{Call, Reply, Step};
use std::alloc::{AllocError, Global};
use term_text::print_term;

/// Returns the text of a step as a script has it, with the pid in place of the process's name:
/// `<0.3.0> insert(t,{a,1})`.
pub fn step_text(alloc: Global, step: &Step) -> Result<String, AllocError>
    ensures { IfOk result (λ text. string_bytes text ≡ step_text step.now) }
{
    match step {
        Step::Enrol(pid) => {
            let pid = term_text(alloc, &Term::Pid(*pid))?;
            format!(in alloc; "spawn {pid}")
        }
        Step::End(pid) => {
            let pid = term_text(alloc, &Term::Pid(*pid))?;
            format!(in alloc; "exit {pid}")
        }
        Step::Ask(pid, call) => {
            let pid = term_text(alloc, &Term::Pid(*pid))?;
            let call = call_text(alloc, call)?;
            format!(in alloc; "{pid} {call}")
        }
        Step::Grow(table) => {
            let table = term_text(alloc, &Term::Tid(*table))?;
            format!(in alloc; "grow {table}")
        }
        Step::Ready(table, bucket) => {
            let table = term_text(alloc, &Term::Tid(*table))?;
            format!(in alloc; "ready {table} {bucket}")
        }
    }
}

/// Returns the text of a call as a script has it: `insert(t,{a,1})`.
pub fn call_text(alloc: Global, call: &Call) -> Result<String, AllocError>
    ensures { IfOk result (λ text. string_bytes text ≡ call_text call.now) }
{
    let name = atom_text(alloc, &call.name)?;
    let arguments = arguments_text(alloc, call.args.as_slice())?;
    format!(in alloc; "{name}({arguments})")
}

/// Returns the text of a reply as a script prints it: that of its term, or a refusal such as `** badarg`.
pub fn reply_text(alloc: Global, reply: &Reply) -> Result<String, AllocError>
    ensures { IfOk result (λ text. string_bytes text ≡ reply_text reply.now) }
{
    match reply {
        Reply::Value(term) => term_text(alloc, term),
        Reply::Badarg => format!(in alloc; "** badarg"),
        Reply::SystemLimit => format!(in alloc; "** system_limit"),
        Reply::NoProcess => format!(in alloc; "** noproc"),
    }
}

/// Returns a term's text.
pub fn term_text(alloc: Global, term: &Term) -> Result<String, AllocError>
    ensures { IfOk result (λ text. string_bytes text ≡ text_of_term term.now) }
{
    let mut text = String::new(alloc);
    print_term(alloc, term, &mut text)?;
    Ok(text)
}

/// Returns the text of an atom, in quotes if it needs them.
fn atom_text(alloc: Global, atom: &Atom) -> Result<String, AllocError>
    ensures { IfOk result (λ text. string_bytes text ≡ atom_text atom.now) }
{
    let term = Term::Atom(atom.try_clone(alloc)?);
    term_text(alloc, &term)
}

/// Returns the texts of terms with commas between them.
fn arguments_text(alloc: Global, terms: &[Term]) -> Result<String, AllocError>
    ensures { IfOk result (λ text. string_bytes text ≡ join_with_commas false (map text_of_term terms.now)) }
{
    let mut text = String::new(alloc);
    // Whether another term comes before.
    let mut later = false;
    for term in terms {
        append_comma(later, &mut text)?;
        print_term(alloc, term, &mut text)?;
        later = true;
    }
    Ok(text)
}

/// Appends a comma if `later`, which says that another term comes before.
fn append_comma(later: bool, text: &mut String) -> Result<(), AllocError>
    ensures { OnOk result (string_bytes text.new ≡ string_bytes text.old ++ comma_if later) }
{
    if later { text.push_str(",") } else { Ok(()) }
}
