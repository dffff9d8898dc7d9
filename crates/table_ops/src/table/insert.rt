//! The calls `insert` and `insert_new`, which insert all objects of a list or none. A single object takes one search
//! and no undo log. An entry is the result of a search for a key.
ghost use Rattle.std.specs.Prelude.{◌≡◌, [], ◌∷◌, true, false, Err, MatchOption};
ghost use Rattle.std.specs.List.{list_all, list_any};
ghost use Rattle.ets_term.specs.Depth.{is_too_deep};
ghost use Rattle.table_ops.specs.Content.{is_object};
ghost use Rattle.table_ops.specs.Put.{is_taken, Inserts, InsertsNew, InsertsWithinLimit};
ghost use Rattle.table_ops.specs.Refusals.{RefinesChange};

use super::Table;
use crate::object::{any_too_deep, are_objects, key_of};
use crate::refusal::Refusal;
use bucket_table::Rows;
use ets_term::Term;

impl<R: Rows> Table<R> {
    /// Inserts objects one after another, or none of them if one is refused (stdlib manual, ets:insert/2). Refuses with
    /// `Badarg` if one is not an object, and with `SystemLimit` if one is too deep or the table would pass its limit.
    pub fn insert(&mut self, objects: &[Term]) -> Result<(), Refusal>
        ensures content { RefinesChange (Inserts objects.now self.old.content)
            self.old.content result self.new.content }
        ensures buckets { self.new.buckets ≡ self.old.buckets }
    {
        match objects {
            [object] => self.insert_one(object),
            _ => self.insert_list(objects),
        }
    }

    /// Does `insert` of one object, which most calls insert. Inserts a copy of it, without an undo log.
    fn insert_one(&mut self, object: &Term) -> Result<(), Refusal>
        ensures content { RefinesChange (Inserts (object.now ∷ []) self.old.content)
            self.old.content result self.new.content }
        ensures buckets { self.new.buckets ≡ self.old.buckets }
    {
        if let Some(refusal) = self.refusal_of(object) {
            return Err(refusal);
        }
        let count = self.inner.put_one(self.count, object)?;
        self.count = count;
        Ok(())
    }

    /// Returns the refusal if the term is not an object or is too deep, or `None` if it may be inserted.
    fn refusal_of(&self, object: &Term) -> Option<Refusal>
        ensures { MatchOption result
            ((is_object self.now.content.keypos object.now ≡ true)
            × (is_too_deep object.now ≡ false))
            (λ refusal. RefinesChange (Inserts (object.now ∷ []) self.now.content)
            self.now.content (Err refusal) self.now.content) }
    {
        if key_of(self.inner.keypos, object).is_none() {
            return Some(Refusal::Badarg);
        }
        if object.is_too_deep() {
            return Some(Refusal::SystemLimit);
        }
        None
    }

    /// Does `insert` of a list of objects.
    #[inline(never)]
    fn insert_list(&mut self, objects: &[Term]) -> Result<(), Refusal>
        ensures content { RefinesChange (Inserts objects.now self.old.content)
            self.old.content result self.new.content }
        ensures buckets { self.new.buckets ≡ self.old.buckets }
    {
        if !are_objects(self.inner.keypos, objects) {
            return Err(Refusal::Badarg);
        }
        self.insert_all(objects, ())
    }

    /// Inserts objects if none of their keys has an object, and returns whether it did (stdlib manual,
    /// ets:insert_new/2). Refuses what `insert` refuses, but with `SystemLimit` only if no key has an object.
    pub fn insert_new(&mut self, objects: &[Term]) -> Result<bool, Refusal>
        ensures content { RefinesChange (InsertsNew objects.now self.old.content)
            self.old.content result self.new.content }
        ensures buckets { self.new.buckets ≡ self.old.buckets }
    {
        match objects {
            [object] => self.insert_one_new(object),
            _ => self.insert_all_new(objects),
        }
    }

    /// Does `insert_new` of one object with one search. Returns `false` if the key has an object.
    fn insert_one_new(&mut self, object: &Term) -> Result<bool, Refusal>
        ensures content { RefinesChange (InsertsNew (object.now ∷ []) self.old.content)
            self.old.content result self.new.content }
        ensures buckets { self.new.buckets ≡ self.old.buckets }
    {
        let Some(key) = key_of(self.inner.keypos, object) else {
            return Err(Refusal::Badarg);
        };
        let entry = self.inner.rows.entry(key);
        if self.inner.place_with_objects(key, entry).is_some() {
            return Ok(false);
        }
        if object.is_too_deep() {
            return Err(Refusal::SystemLimit);
        }
        let undo = self.inner.put(self.count, entry, key, object)?;
        self.count += undo.added_objects();
        Ok(true)
    }

    /// Does `insert_new` of a list. Returns `false` if one of the keys has an object.
    fn insert_all_new(&mut self, list: &[Term]) -> Result<bool, Refusal>
        ensures content { RefinesChange (InsertsNew list.now self.old.content)
            self.old.content result self.new.content }
        ensures buckets { self.new.buckets ≡ self.old.buckets }
    {
        if !are_objects(self.inner.keypos, list) {
            return Err(Refusal::Badarg);
        }
        if self.is_any_key_taken(list) {
            return Ok(false);
        }
        self.insert_all(list, true)
    }

    /// Returns whether the table has objects with the key of this object. If the term is not an object, returns
    /// `false`.
    fn is_taken(&self, object: &Term) -> bool
        ensures { result ≡ is_taken self.now.content.keypos self.now.content.slots object.now }
    {
        match key_of(self.inner.keypos, object) {
            Some(key) => self.member(key),
            None => false,
        }
    }

    /// Returns whether the table has objects with the key of any of these objects.
    fn is_any_key_taken(&self, objects: &[Term]) -> bool
        ensures { result
            ≡ list_any (is_taken self.now.content.keypos self.now.content.slots) objects.now }
    {
        objects.iter().any(|object| self.is_taken(object))
    }

    /// Inserts all objects, or none if one is refused. If they are inserted, returns `done`, the result of the public
    /// method: `()` of `insert`, `true` of `insert_new`.
    fn insert_all<X: Copy>(&mut self, objects: &[Term], done: X) -> Result<X, Refusal>
        requires { list_all (is_object self.old.content.keypos) objects.now ≡ true }
        ensures content { RefinesChange (InsertsWithinLimit done objects.now self.old.content)
            self.old.content result self.new.content }
        ensures buckets { self.new.buckets ≡ self.old.buckets }
    {
        if any_too_deep(objects) {
            return Err(Refusal::SystemLimit);
        }
        let count = self.inner.put_all(self.count, objects)?;
        self.count = count;
        Ok(done)
    }
}
