//! An expression of a condition or body as a tree. A variable is already replaced by a path, the element indices that
//! lead to its value in the object.
// The modules: `check` whether a term is an expression, `compile` it and `evaluate` it. The functions: their names
// (`function`), how to `apply` them, `arithmetic`, `comparison`, `connectives`, type tests (`guards`), and elements and
// sizes (`lists`).
pub(crate) mod apply;
pub(crate) mod arithmetic;
pub(crate) mod check;
pub(crate) mod comparison;
pub(crate) mod compile;
pub(crate) mod connectives;
pub(crate) mod evaluate;
pub(crate) mod function;
pub(crate) mod guards;
pub(crate) mod lists;

use crate::expression::function::Function;
use ets_term::{Items, Term};

/// A connective of booleans. One `false` decides the value of `And`, and one `true` that of `Or`.
#[derive(Clone, Copy)]
pub(crate) enum Connective {
    And,
    Or,
}

/// A compiled expression. A variable is compiled to the path of its value in the object.
#[derive(Drop)]
pub(crate) enum Expression {
    /// A term that is its own value.
    Constant(Term),
    /// `'$_'`: the whole object.
    Object,
    /// `'$$'`: the list of all bindings.
    Bindings,
    /// `'$N'`: the path of its value in the object.
    Variable(Items<usize>),
    /// `{{..}}`: a tuple of the values.
    Tuple(Items<Expression>),
    /// A list of the values.
    List(Items<Expression>),
    /// A call of a function with its arguments.
    Apply(Function, Items<Expression>),
    /// `and` or `or`, which evaluate arguments also after one that decides their value.
    Strict(Connective, Items<Expression>),
    /// `andalso` or `orelse`, which stop at the first argument that decides their value.
    ShortCircuit(Connective, Items<Expression>),
}
