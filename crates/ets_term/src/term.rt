//! The enum of all terms, with the copy and the depth of a term. The depth is 1 for a leaf, and one more for each tuple
//! or list around it.
ghost use Rattle.std.specs.Prelude.{◌≡◌, IfOk, min, map, nat_le, nat_lt, option_copied};
ghost use Rattle.ets_term.specs.Atoms.{is_atom};
ghost use Rattle.ets_term.specs.Depth.{depth, is_too_deep, largest, element_at};

use crate::atom::Atom;
use crate::integer::{Integer, Position};
use crate::items::Items;
use std::alloc::{AllocError, Global};

/// The greatest depth of an argument and of a stored object.
pub const MAX_DEPTH: usize = 128;

/// A term of Erlang (Erlang Reference Manual, Data Types), of one of seven kinds. Two terms are equal exactly if they
/// are built alike: of the same kind, with equal parts. This is `=:=` of Erlang.
#[derive(Drop)]
pub enum Term {
    /// An integer of 128 bits.
    Int(Integer),
    /// An atom, of at most 255 characters.
    Atom(Atom),
    /// The process with this number, `<0.7.0>` in text.
    Pid(u32),
    /// The table identifier with this number, `#Tid<7>` in text.
    Tid(u32),
    /// A tuple of these elements.
    Tuple(Items<Term>),
    /// A proper list of these elements.
    List(Items<Term>),
    /// A binary of whole bytes.
    Binary(Items<u8>),
}

/// The default term is the integer 0.
impl Default for Term {
    ghost use Rattle.std.specs.Prelude.{pos};
    ghost use Rattle.ets_term.specs.declared.term.Term.TheVariants.{Int};

    ghost is_default = { λ t. t ≡ Int (pos 0) };

    fn default() -> Term {
        Term::Int(0)
    }
}

impl Term {
    /// Returns an equal term, or an error if memory is refused. The copy takes memory for all its parts. If any of that
    /// memory is refused, the rest is freed again.
    pub fn try_clone(&self, alloc: Global) -> Result<Term, AllocError>
        ensures { IfOk result (λ t. t ≡ self.now) }
    {
        copy(alloc, self)
    }

    /// Returns the depth of the term, or `usize::MAX` if the term is deeper. A term that holds no terms has depth 1,
    /// `{}` and `[]` too. The depth of any other term is one more than that of its deepest element.
    pub fn depth(&self) -> usize
        ensures { result ≡ min (depth self.now) usize.MAX }
    {
        depth_of(self)
    }

    /// Returns whether the term is deeper than `MAX_DEPTH`. Reads at most one level below `MAX_DEPTH`.
    pub fn is_too_deep(&self) -> bool
        ensures { result ≡ is_too_deep self.now }
    {
        is_deeper(MAX_DEPTH, self)
    }

    /// Returns whether the term is the atom with this text.
    pub fn is_atom(&self, text: &str) -> bool
        ensures { result ≡ is_atom text.now self.now }
    {
        match self {
            Term::Atom(atom) => atom.text() == text,
            _ => false,
        }
    }

    /// Returns element `n` of a tuple, counted from 1, or `None` if the term is not a tuple or has no such element.
    pub fn element(&self, n: Position) -> Option<&Term>
        ensures { option_copied result ≡ element_at n self.now }
    {
        if n == 0 {
            return None;
        }
        let Term::Tuple(items) = self else {
            return None;
        };
        if n > items.len() as Position {
            return None;
        }
        items.get((n - 1) as usize)
    }
}

/// Returns a copy of a term, or an error if memory is refused.
#[cycle(copy)]
fn copy(alloc: Global, term: &Term) -> Result<Term, AllocError>
    ensures { IfOk result (λ t. t ≡ term.now) }
{
    match term {
        Term::Int(n) => Ok(Term::Int(*n)),
        Term::Atom(a) => Ok(Term::Atom(a.try_clone(alloc)?)),
        Term::Pid(n) => Ok(Term::Pid(*n)),
        Term::Tid(n) => Ok(Term::Tid(*n)),
        Term::Tuple(items) => Ok(Term::Tuple(copy_items(alloc, items.as_slice())?)),
        Term::List(items) => Ok(Term::List(copy_items(alloc, items.as_slice())?)),
        Term::Binary(bytes) => Ok(Term::Binary(Items::from_vec(bytes.as_slice().to_vec(alloc)?))),
    }
}

/// Returns copies of the items, or an error if memory is refused. Integers and tuples are copied in this function, so a
/// tuple of integers takes no call per element.
#[cycle(copy)]
fn copy_items(alloc: Global, items: &[Term]) -> Result<Items<Term>, AllocError>
    ensures { IfOk result (λ v. v ≡ items.now) }
{
    let mut copies = Vec::with_capacity(alloc, items.len())?;
    for item in items {
        match item {
            Term::Int(n) => copies.push_reserved(Term::Int(*n)),
            Term::Tuple(parts) => {
                copies.push_reserved(Term::Tuple(copy_items(alloc, parts.as_slice())?))
            }
            _ => copies.push_reserved(copy(alloc, item)?),
        }
    }
    Ok(Items::from_vec(copies))
}

/// Returns the depth of a term, at most `usize::MAX`.
#[cycle(depth)]
#[inline(always)]
fn depth_of(term: &Term) -> usize
    ensures { result ≡ min (depth term.now) usize.MAX }
{
    match term {
        Term::Tuple(items) => max_depth(items.as_slice()).saturating_add(1),
        Term::List(items) => max_depth(items.as_slice()).saturating_add(1),
        _ => 1,
    }
}

/// Returns the depth of the deepest item, at most `usize::MAX`, and 0 for no items.
#[cycle(depth)]
fn max_depth(items: &[Term]) -> usize
    ensures { result ≡ min (largest (map depth items.now)) usize.MAX }
{
    // The greatest depth so far.
    let mut most = 0;
    for item in items {
        most = most.max(depth_of(item));
    }
    most
}

/// Returns whether a term has more than `levels` levels.
#[cycle(deeper)]
#[inline(always)]
fn is_deeper(levels: usize, term: &Term) -> bool
    ensures { result ≡ nat_lt levels (depth term.now) }
{
    match term {
        Term::Tuple(items) => is_deeper_with_items(levels, items.as_slice()),
        Term::List(items) => is_deeper_with_items(levels, items.as_slice()),
        // A leaf has one level.
        _ => levels == 0,
    }
}

/// Returns whether the tuple or list of these items has more than `levels` levels. That is true of 0 levels, even if
/// there are no items.
#[cycle(deeper)]
fn is_deeper_with_items(levels: usize, items: &[Term]) -> bool
    ensures { result ≡ nat_le levels (largest (map depth items.now)) }
{
    if levels == 0 {
        return true;
    }
    for item in items {
        if is_deeper(levels - 1, item) {
            return true;
        }
    }
    false
}
