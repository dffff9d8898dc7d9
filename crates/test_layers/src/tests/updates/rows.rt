//! How rows of text are read and checked. A row is a list of lower-case labels and of terms, for one update and its
//! expected result.
use super::counts::updates_counter_as_expected;
use super::defaults::{starts_counter_as_expected, writes_default_as_expected};
use super::elements::writes_as_expected;
use super::*;

/// The call that a row of text checks, and so the columns of the row. A lower-case column is a literal label.
#[derive(Clone, Copy)]
pub enum Call {
    /// Operations on an object whose key is at this position:
    /// `[Before, update, Operations, gives, Answer, leaves, After]`. The answer may be a refusal.
    UpdateCounter(u32),
    /// Element values for an object whose key is first: `[Before, set, Values, gives, Result]`. The result is the
    /// object afterwards or a refusal.
    UpdateElement,
    /// Operations on a default object whose key is at this position:
    /// `[default, Default, key, Key, update, Operations, gives, Result]`. The result is `{Answer,Object}` or a refusal.
    UpdateCounterWithDefault(u32),
    /// Element values for a default object whose key is first:
    /// `[default, Default, key, Key, set, Values, gives, Result]`. The result is the new object or a refusal.
    UpdateElementWithDefault,
}

/// The labels of a row of `UpdateCounter`, each with its index.
pub const COUNTER_LABELS: [(usize, &str); 3] = [(1, "update"), (3, "gives"), (5, "leaves")];

/// The labels of a row of `UpdateElement`, each with its index.
pub const ELEMENT_LABELS: [(usize, &str); 2] = [(1, "set"), (3, "gives")];

/// The labels of a row of `UpdateCounterWithDefault`, each with its index.
const COUNTER_DEFAULT_LABELS: [(usize, &str); 4] = [
    (0, "default"),
    (2, "key"),
    (4, "update"),
    (6, "gives"),
];

/// The labels of a row of `UpdateElementWithDefault`, each with its index.
pub const ELEMENT_DEFAULT_LABELS: [(usize, &str); 4] = [
    (0, "default"),
    (2, "key"),
    (4, "set"),
    (6, "gives"),
];

/// Returns whether a row has these labels at their indices. A misspelt or misplaced label fails the test.
pub fn has_labels(row: &[Term], labels: &[(usize, &'static str)]) -> bool {
    for (index, label) in labels {
        let Some(part) = row.get(*index) else {
            return false;
        };
        if !part.is_atom(*label) {
            return false;
        }
    }
    true
}

/// Returns whether a row has the labels of its call.
fn has_labels_of(call: Call, row: &[Term]) -> bool {
    match call {
        Call::UpdateCounter(_) => has_labels(row, &COUNTER_LABELS),
        Call::UpdateElement => has_labels(row, &ELEMENT_LABELS),
        Call::UpdateCounterWithDefault(_) => has_labels(row, &COUNTER_DEFAULT_LABELS),
        Call::UpdateElementWithDefault => has_labels(row, &ELEMENT_DEFAULT_LABELS),
    }
}

/// Returns whether the operations of a row have its answer and leave its object.
fn counter_row_holds(alloc: Global, keypos: u32, row: &[Term]) -> Option<bool> {
    let [before, _, updates, _, answer, _, after] = row else {
        return Some(false);
    };
    updates_counter_as_expected(alloc, keypos, before, updates, (answer, after))
}

/// Returns whether the element values of a row have its result.
fn element_row_holds(alloc: Global, row: &[Term]) -> Option<bool> {
    let [before, _, values, _, expected] = row else {
        return Some(false);
    };
    writes_as_expected(alloc, before, values, expected)
}

/// Returns whether the operations or element values of a row, on its default object, have the result of the row.
fn default_row_holds(alloc: Global, call: Call, row: &[Term]) -> Option<bool> {
    let [_, default, _, key, _, updates, _, expected] = row else {
        return Some(false);
    };
    match call {
        Call::UpdateCounterWithDefault(keypos) => {
            starts_counter_as_expected(alloc, keypos, (default, key), updates, expected)
        }
        _ => writes_default_as_expected(alloc, default, key, updates, expected),
    }
}

/// Returns whether a row has its labels, and its call has the expected result.
fn row_holds(alloc: Global, call: Call, row: &[Term]) -> Option<bool> {
    if !has_labels_of(call, row) {
        return Some(false);
    }
    match call {
        Call::UpdateCounter(keypos) => counter_row_holds(alloc, keypos, row),
        Call::UpdateElement => element_row_holds(alloc, row),
        Call::UpdateCounterWithDefault(_) | Call::UpdateElementWithDefault => {
            default_row_holds(alloc, call, row)
        }
    }
}

/// Returns whether the row of a text holds. None means that the text is not a term, or out of memory.
fn text_row_holds(alloc: Global, call: Call, row: &str) -> Option<bool> {
    let (row, _) = read_term(alloc, row).ok()?;
    let holds = match &row {
        Term::List(parts) => row_holds(alloc, call, parts.as_slice()),
        _ => Some(false),
    };
    drop(row);
    holds
}

/// Returns the first row that does not hold. The outer None means out of memory, or a row that is not a term.
pub fn first_mismatch(
    alloc: Global,
    call: Call,
    rows: &[&'static str],
) -> Option<Option<&'static str>> {
    for row in rows {
        if !text_row_holds(alloc, call, *row)? {
            return Some(Some(*row));
        }
    }
    Some(None)
}

/// How a test reads a text: as operations or as element values, for an object whose key is first.
#[derive(Clone, Copy)]
pub enum Update {
    /// Operations on counters.
    Operations,
    /// Element values.
    Values,
}

/// Returns whether a term is refused as this form of update. If memory runs out, it is not refused.
fn is_refused_as_update(alloc: Global, update: Update, term: &Term) -> bool {
    let fault = match update {
        Update::Operations => read_ops(alloc, term, 1).err(),
        Update::Values => read_element_specs(alloc, term, 1).err(),
    };
    matches!(fault, Some(CounterFault::Badarg))
}

/// Returns whether the term of a text is refused as this form of update. None means that the text is not a term, or out
/// of memory before the term is read.
fn is_text_refused_as_update(alloc: Global, update: Update, text: &str) -> Option<bool> {
    let (term, _) = read_term(alloc, text).ok()?;
    let is_refused = is_refused_as_update(alloc, update, &term);
    drop(term);
    Some(is_refused)
}

/// Returns the first text that is not refused as this form of update: it is valid, or memory runs out while the update
/// is read. The outer None means that memory runs out while a term is read, or a text that is not a term.
pub fn first_valid_text(
    alloc: Global,
    update: Update,
    texts: &[&'static str],
) -> Option<Option<&'static str>> {
    for text in texts {
        if !is_text_refused_as_update(alloc, update, *text)? {
            return Some(Some(*text));
        }
    }
    Some(None)
}
