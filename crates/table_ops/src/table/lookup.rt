//! The calls that read the objects of a key or of the whole table, without a pattern.
ghost use Rattle.std.specs.Prelude.{◌≡◌, ◌≤◌, ◌+◌, ◌++◌, length, vec_len, vec_capacity, OnOk};
ghost use Rattle.table_ops.specs.declared.kind.Kind.TheVariants.{Set, Bag};
ghost use Rattle.table_ops.specs.Content.{objects_under, is_present};
ghost use Rattle.table_ops.specs.Results.{Returns};
ghost use Rattle.table_ops.specs.Read.{all_objects, lookup_element, lookup_element_or};
ghost use Rattle.table_ops.specs.Refusals.{ReturnsOrBadarg};

use super::Table;
use crate::kind::Kind;
use crate::refusal::Refusal;
use crate::slots::all_of;
use bucket_table::Rows;
use ets_term::{Items, Position, Term};
use packed_term::Object;
use std::alloc::{AllocError, Global};

impl<R: Rows> Table<R> {
    /// Returns the objects of a key, oldest first, or an empty slice if the key has none (stdlib manual, ets:lookup/2).
    pub fn lookup(&self, key: &Term) -> &[Object]
        ensures { result.now ≡ objects_under self.now.content.slots key.now }
    {
        self.inner.objects_of(key)
    }

    /// Returns whether a key has an object (stdlib manual, ets:member/2).
    pub fn member(&self, key: &Term) -> bool
        ensures { result ≡ is_present self.now.content.slots key.now }
    {
        !self.lookup(key).is_empty()
    }

    /// Returns a copy of the element at `position`, counted from 1, of the key's object. In a bag, returns the list of
    /// these elements of all objects with the key. Refuses with `Badarg` if the key has no object, or one of its
    /// objects has no such element (stdlib manual, ets:lookup_element/3).
    pub fn lookup_element(&self, key: &Term, position: Position) -> Result<Term, Refusal>
        ensures { ReturnsOrBadarg (lookup_element self.now.content.kind position
            (objects_under self.now.content.slots key.now)) result }
    {
        element_of(
            self.inner.alloc,
            self.inner.kind,
            self.lookup(key),
            position,
        )
    }

    /// Returns what `lookup_element` returns, but a copy of `default` if the key has no object. Even then it refuses
    /// position 0 with `Badarg` (stdlib manual, ets:lookup_element/4).
    pub fn lookup_element_or(
        &self,
        key: &Term,
        position: Position,
        default: &Term,
    ) -> Result<Term, Refusal>
        ensures { ReturnsOrBadarg (lookup_element_or self.now.content.kind position default.now
            (objects_under self.now.content.slots key.now)) result }
    {
        let objects = self.lookup(key);
        if !objects.is_empty() {
            return element_of(self.inner.alloc, self.inner.kind, objects, position);
        }
        if position == 0 {
            return Err(Refusal::Badarg);
        }
        Ok(default.try_clone(self.inner.alloc)?)
    }

    /// Returns copies of all objects, in the order of the slots (stdlib manual, ets:tab2list/1).
    pub fn objects(&self) -> Result<Items<Term>, AllocError>
        ensures { Returns result (all_objects self.now.content.slots) }
    {
        let mut copies = Vec::with_capacity(self.inner.alloc, self.count)?;
        for (_, objects) in all_of(&self.inner.rows) {
            append_clones(self.inner.alloc, &mut copies, objects)?;
        }
        Ok(Items::from_vec(copies))
    }
}

/// Returns a copy of the element at a position of a set's object, or the list of these elements of a bag's objects.
/// `objects` are all objects of one key. Refuses with `Badarg` if there are no objects, or one has no such element.
fn element_of(
    alloc: Global,
    kind: Kind,
    objects: &[Object],
    position: Position,
) -> Result<Term, Refusal>
    ensures { ReturnsOrBadarg (lookup_element kind position objects.now) result }
{
    match kind {
        Kind::Set => first_element(alloc, objects, position),
        _ => elements(alloc, objects, position),
    }
}

/// Returns a copy of the element at a position of the first object. Refuses with `Badarg` if there is no such object or
/// element.
fn first_element(alloc: Global, objects: &[Object], position: Position) -> Result<Term, Refusal>
    ensures { ReturnsOrBadarg (lookup_element Set position objects.now) result }
{
    let object = objects.first().ok_or(Refusal::Badarg)?;
    let element = object.element(position).ok_or(Refusal::Badarg)?;
    Ok(element.unpack(alloc)?)
}

/// Returns the list of the elements at a position of all objects. Refuses with `Badarg` if there are no objects, or one
/// has no such element.
fn elements(alloc: Global, objects: &[Object], position: Position) -> Result<Term, Refusal>
    ensures { ReturnsOrBadarg (lookup_element Bag position objects.now) result }
{
    if objects.is_empty() {
        return Err(Refusal::Badarg);
    }
    let mut copies = Vec::with_capacity(alloc, objects.len())?;
    for object in objects {
        let Some(element) = object.element(position) else {
            return Err(Refusal::Badarg);
        };
        copies.push_reserved(element.unpack(alloc)?);
    }
    Ok(Term::List(Items::from_vec(copies)))
}

/// Appends copies of objects to `copies`, which must have capacity for them.
pub(crate) fn append_clones(
    alloc: Global,
    copies: &mut Vec<Term>,
    objects: &[Object],
) -> Result<(), AllocError>
    requires room { vec_len copies.old + length objects.now ≤ vec_capacity copies.old }
    ensures copied { OnOk result (copies.new.items ≡ copies.old.items ++ objects.now) }
    ensures len { OnOk result (vec_len copies.new ≡ vec_len copies.old + length objects.now) }
    ensures capacity { OnOk result (vec_capacity copies.new ≡ vec_capacity copies.old) }
{
    for object in objects {
        copies.push_reserved(object.unpack(alloc)?);
    }
    Ok(())
}
