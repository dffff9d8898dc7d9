//! Compilations and evaluations that run out of memory. `.ci/refusals` runs these tests with each allocation refused in
//! turn.
// A compilation or evaluation that runs out of memory is repeated, and must then give the result that it has with
// enough memory. A helper returns `None` if the second attempt also fails, or a text is not a term.
use super::*;
use term_text::{TextFault, read_term};

/// Reads the term of a text. Reads the text again if memory runs out.
fn term_with_retry(alloc: Global, text: &str) -> Option<Term> {
    let read = match read_term(alloc, text) {
        Err(TextFault::Memory) => read_term(alloc, text),
        read => read,
    };
    match read {
        Ok((term, _)) => Some(term),
        Err(_) => None,
    }
}

/// Compiles a pattern. Compiles it again if this fails.
fn pattern_with_retry(alloc: Global, term: &Term) -> Option<Pattern> {
    match Pattern::compile(alloc, term) {
        Ok(pattern) => Some(pattern),
        Err(_) => Pattern::compile(alloc, term).ok(),
    }
}

/// Compiles a match specification. Compiles it again if this fails.
fn spec_with_retry(alloc: Global, term: &Term) -> Option<Spec> {
    match Spec::compile(alloc, term) {
        Ok(spec) => Some(spec),
        Err(_) => Spec::compile(alloc, term).ok(),
    }
}

/// Returns the list of the bindings by which an object matches, or the atom `none` if it does not match. Repeats the
/// match if memory runs out.
fn bindings_with_retry(alloc: Global, pattern: &Pattern, object: &Term) -> Option<Term> {
    let bindings = match pattern.bindings(alloc, object) {
        Ok(bindings) => bindings,
        Err(_) => pattern.bindings(alloc, object).ok()?,
    };
    match bindings {
        Some(values) => Some(Term::List(Items::from_vec(values))),
        None => term_with_retry(alloc, "none"),
    }
}

/// Returns the result of a match specification on an object, or the atom `none` if no clause applies. Repeats the
/// evaluation if memory runs out.
fn result_with_retry(alloc: Global, spec: &Spec, object: &Term) -> Option<Term> {
    let result = match spec.result(alloc, object) {
        Ok(result) => result,
        Err(_) => spec.result(alloc, object).ok()?,
    };
    match result {
        Some(value) => Some(value),
        None => term_with_retry(alloc, "none"),
    }
}

/// Returns whether the result on an object is `true`. Repeats the evaluation if memory runs out.
fn is_true_with_retry(alloc: Global, spec: &Spec, object: &Term) -> Option<bool> {
    match spec.is_true(alloc, object) {
        Ok(is_true) => Some(is_true),
        Err(_) => spec.is_true(alloc, object).ok(),
    }
}

/// Returns whether a match gives the wanted term: the list of the bindings, or the atom `none` for no match.
fn has_bindings(alloc: Global, pattern: &Term, object: &Term, wanted: &Term) -> Option<bool> {
    let pattern = pattern_with_retry(alloc, pattern)?;
    Some(bindings_with_retry(alloc, &pattern, object)? == *wanted)
}

/// Returns whether `result` and `is_true` of a match specification agree with the wanted result. The atom `none` means
/// that no clause applies.
fn has_result(alloc: Global, spec: &Term, object: &Term, wanted: &Term) -> Option<bool> {
    let spec = spec_with_retry(alloc, spec)?;
    let is_true_agrees = is_true_with_retry(alloc, &spec, object)? == wanted.is_atom("true");
    Some(is_true_agrees && result_with_retry(alloc, &spec, object)? == *wanted)
}

/// The columns of a row of text.
#[derive(Clone, Copy)]
enum Form {
    /// `[Pattern,Object,Values]`
    Pattern,
    /// `[Specification,Object,Result]`
    Spec,
}

/// Returns whether the pattern or match specification of a row gives what the row says. `None` means that the row does
/// not have its form, or out of memory.
fn row_holds(alloc: Global, form: Form, row: &[Term]) -> Option<bool> {
    match (form, row) {
        (Form::Pattern, [pattern, object, wanted]) => has_bindings(alloc, pattern, object, wanted),
        (Form::Spec, [spec, object, wanted]) => has_result(alloc, spec, object, wanted),
        _ => None,
    }
}

/// Returns whether the row of a text holds.
fn text_row_holds(alloc: Global, form: Form, row: &str) -> Option<bool> {
    match term_with_retry(alloc, row)? {
        Term::List(parts) => row_holds(alloc, form, parts.as_slice()),
        _ => None,
    }
}

/// Returns the first row that does not hold.
fn first_mismatch(alloc: Global, rows: &[(Form, &'static str)]) -> Option<&'static str> {
    for (form, row) in rows {
        if text_row_holds(alloc, *form, *row) != Some(true) {
            return Some(*row);
        }
    }
    None
}

/// Columns: the form of the row, and its text: a pattern or match specification, an object, and what the first must
/// give on the object. `none` means no match or no result.
const ROWS: [(Form, &str); 10] = [
    (
        Form::Pattern,
        "[{'$2','$1','_',['$2',{'$0'}]},{a,[b],c,[a,{\"text\"}]},[\"text\",[b],a]]",
    ),
    (Form::Pattern, "[{'$2','$2'},{[a],[b]},none]"),
    (
        Form::Pattern,
        "[{'$9','$8','$7','$6','$5','$4','$3','$2','$1'},{1,2,3,4,5,6,7,8,[9]},[[9],8,7,6,5,4,3,2,1]]",
    ),
    (
        Form::Pattern,
        "[{deep,[{'$1',<<\"a binary\">>}]},{deep,[{x,<<\"a binary\">>}]},[x]]",
    ),
    (
        Form::Spec,
        "[[{{'$1','$2'},[{'>','$2',2}],['$_']}],{[k],3},{[k],3}]",
    ),
    (
        Form::Spec,
        "[[{{'$1','$2'},[{'>','$2',2}],['$_']}],{[k],1},none]",
    ),
    (
        Form::Spec,
        "[[{{'$1','$2'},[],['$$']}],{[k],{v}},[[k],{v}]]",
    ),
    (
        Form::Spec,
        "[[{'_',[{is_list,a}],[no]},{{'$1','$2'},[],[{{'$2',['$1',{{}}],{'+',1,{'*',2,3}}}}]}],{k,[v]},{[v],[k,{}],7}]",
    ),
    (
        Form::Spec,
        "[[{{k,'$1'},[{'and',{is_atom,'$1'},{'not',{'=:=','$1',{const,b}}}}],[true]}],{k,a},true]",
    ),
    (
        Form::Spec,
        "[[{'_',[],[{const,['a literal that needs memory of its own']}]}],{k},['a literal that needs memory of its own']]",
    ),
];

#[test]
fn refused_compilations_and_evaluations_succeed_when_repeated(rt: HostRuntime) {
    assert_eq!(rt; first_mismatch(rt.alloc(), &ROWS), None);
}
