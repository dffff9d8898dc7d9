//! The items of `ets:info/2`: which term names an item, and the terms that are values of items.
ghost use Rattle.std.specs.Prelude.{◌≡◌, IfOk};
ghost use Rattle.ets_term.specs.Character.{IsAtomText};
ghost use Rattle.ets_term.specs.declared.term.Term.TheVariants as term;
ghost use Rattle.ownership.specs.Info.{item_of, word_item, boolean_atom, protection_atom, kind_atom, heir_term};

use crate::metadata::{Heir, Protection};
use ets_term::{Atom, Term};
use std::alloc::{AllocError, Global};
use table_ops::Kind;

/// An item of information that `info` returns of a table (stdlib manual, ets:info/2).
#[derive(Clone, Copy, Debug, PartialEq, Eq)]
pub enum InfoItem {
    /// The name, as given to `new`.
    Name,
    /// Whether the table is named.
    NamedTable,
    /// The owner's pid.
    Owner,
    /// The access of processes other than the owner.
    Protection,
    /// The pid of the heir that was set, living or not, or `none`.
    Heir,
    /// The identifier.
    Id,
    /// The number of objects.
    Size,
    /// The kind of the table: `type` in the manual.
    Kind,
    /// The position of the key, counted from 1.
    Keypos,
    /// Whether some process fixes the table.
    Fixed,
}

impl InfoItem {
    /// Returns the item that a term names, or `None` if it names no item.
    pub fn read(term: &Term) -> Option<InfoItem>
        ensures { result ≡ item_of term.now }
    {
        match term {
            Term::Atom(word) => InfoItem::of_word(word.text()),
            _ => None,
        }
    }

    /// Returns the item that a word names, or `None` if the word names no item.
    fn of_word(word: &str) -> Option<InfoItem>
        ensures { result ≡ word_item word.now }
    {
        if word == "name" {
            Some(InfoItem::Name)
        } else if word == "named_table" {
            Some(InfoItem::NamedTable)
        } else if word == "owner" {
            Some(InfoItem::Owner)
        } else if word == "protection" {
            Some(InfoItem::Protection)
        } else if word == "heir" {
            Some(InfoItem::Heir)
        } else if word == "id" {
            Some(InfoItem::Id)
        } else if word == "size" {
            Some(InfoItem::Size)
        } else if word == "type" {
            Some(InfoItem::Kind)
        } else if word == "keypos" {
            Some(InfoItem::Keypos)
        } else if word == "fixed" {
            Some(InfoItem::Fixed)
        } else {
            None
        }
    }
}

/// Makes the atom with this text, which must be that of an atom.
fn atom(alloc: Global, text: &[u8]) -> Result<Term, AllocError>
    requires { IsAtomText text.now }
    ensures { IfOk result (λ t. t ≡ term.Atom text.now) }
{
    Ok(Term::Atom(Atom::of_bytes(alloc, text)?))
}

/// Makes the atom `true` or `false`.
pub fn boolean_atom(alloc: Global, value: bool) -> Result<Term, AllocError>
    ensures { IfOk result (λ t. t ≡ boolean_atom value) }
{
    if value {
        atom(alloc, b"true")
    } else {
        atom(alloc, b"false")
    }
}

/// Makes the atom that names a protection.
pub fn protection_term(alloc: Global, protection: Protection) -> Result<Term, AllocError>
    ensures { IfOk result (λ t. t ≡ term.Atom (protection_atom protection)) }
{
    match protection {
        Protection::Public => atom(alloc, b"public"),
        Protection::Protected => atom(alloc, b"protected"),
        Protection::Private => atom(alloc, b"private"),
    }
}

/// Makes the atom that names a kind of table.
pub fn kind_term(alloc: Global, kind: Kind) -> Result<Term, AllocError>
    ensures { IfOk result (λ t. t ≡ term.Atom (kind_atom kind)) }
{
    match kind {
        Kind::Set => atom(alloc, b"set"),
        Kind::Bag => atom(alloc, b"bag"),
        Kind::DuplicateBag => atom(alloc, b"duplicate_bag"),
    }
}

/// Makes the pid of the heir, or the atom `none`.
pub fn heir_term(alloc: Global, heir: &Option<Heir>) -> Result<Term, AllocError>
    ensures { IfOk result (λ t. t ≡ heir_term heir.now) }
{
    match heir {
        Some(heir) => Ok(Term::Pid(heir.pid)),
        None => atom(alloc, b"none"),
    }
}
