//! A test of a `Book`: it runs the steps of a process and pending growth steps, and each gets an entry in the journal.
// A `Book` is what is under the lock of a `Shared`: the node, the journal and the ledger. A `Share` is the part of one
// client in the ledger.
ghost use Rattle.std.specs.Prelude.{◌≡◌};

use super::calls::build_call;
use super::limits;
use ets_term::Fnv;
use node_core::Step;
use node_shared::{Book, Share};
use std::alloc::{AllocError, Global};
use std::marker::Brand;
use std::sync::ledger::{Blank, Ledger};
use std::test::Fail;

/// The arguments of `insert` for nine objects. Four growth steps are pending after this call.
const INSERT_NINE: &str = "[t,[{1},{2},{3},{4},{5},{6},{7},{8},{9}]]";

/// Makes a call of process 0, to which the share belongs. `text` is the name of the call and its list of arguments. The
/// reply is not checked.
fn ask<L: Ledger>(
    alloc: Global,
    book: &mut Book<L, Fnv>,
    share: &mut Share<L>,
    text: (&str, &str),
) -> Option<()>
    requires { share.old.pid ≡ 0 }
    ensures { share.new.pid ≡ share.old.pid }
{
    let step = Step::Ask(0, build_call(alloc, text)?);
    let _reply = book.step(share, &step).ok()?;
    Some(())
}

/// Runs pending steps, one by each call of `tend`. Returns whether there are four, and the journal then has seven
/// entries: an enrolment, two calls and four growth steps.
fn four_pending_steps_run<L: Ledger>(book: &mut Book<L, Fnv>) -> Result<bool, AllocError> {
    let ran = book.tend()? && book.tend()? && book.tend()? && book.tend()?;
    Ok(ran && !book.tend()? && book.journal().len() == 7)
}

/// Inserts nine objects into a new table. Returns whether it grows in four steps, and all steps are in the journal.
fn table_grows_in_four_steps<L: Ledger>(alloc: Global, book: &mut Book<L, Fnv>) -> Option<bool> {
    let (mut share, _reply) = book.join(0).ok()?;
    ask(alloc, book, &mut share, ("new", "[t,[named_table]]"))?;
    ask(alloc, book, &mut share, ("insert", INSERT_NINE))?;
    four_pending_steps_run(book).ok()
}

/// Creates a book. Returns whether its journal has all steps of a process and all growth steps. `blank` is the ledger
/// that `L` names; it has a part for the one process and one more.
fn new_book_enters_steps<L: Ledger>(alloc: Global, blank: Blank) -> Option<bool>
    requires name { blank.name ≡ L.name }
    requires parts { blank.parts ≡ L.parts }
    requires enough { blank.parts ≡ 2 }
{
    table_grows_in_four_steps(
        alloc,
        &mut Book::<L, Fnv>::new(alloc, blank, limits(1), Fnv),
    )
}

#[test]
fn steps_and_pending_steps_are_in_the_journal(rt: HostRuntime) -> Result<(), Fail> {
    assert!(rt;
        new_book_enters_steps::<Brand>(rt.alloc(), Blank::new(2)).ok_or(
            "no memory, or a refused enrolment"
        )?
    );
    Ok(())
}
