//! The laws by which traversals are exact. Each law is the contract of a function with an empty body.

ghost use Rattle.std.specs.Prelude.{◌≡◌, ℕ, List, Option, Result};
ghost use Rattle.ets_term.specs.declared.term.Term.{Term};
ghost use Rattle.counters.specs.declared.elements.ElementSpecs.{ElementSpecs};
ghost use Rattle.counters.specs.declared.ops.Ops.{Ops};
ghost use Rattle.table_ops.specs.declared.refusal.Refusal.{Refusal};
ghost use Rattle.table_ops.specs.Drop.{Which, DeletesObject};
ghost use Rattle.table_ops.specs.Put.{Inserts, InsertsNew};
ghost use Rattle.table_ops.specs.Update.{UpdatesCounter, UpdatesElement};
ghost use Rattle.fixed_walk.specs.declared.fault.FixFault.{FixFault};
ghost use Rattle.fixed_walk.specs.Fixes.{is_fixed};
ghost use Rattle.fixed_walk.specs.TableState.{TableState, on_content, IncrementsFix, after_release, after_release_all, after_delete};
ghost use Rattle.fixed_walk.specs.laws.Kept.{KeepsKeys, AlwaysKeepsKeys};
ghost use Rattle.fixed_walk.specs.laws.Walks.{SlotWalksAreWhole};

/// No call gives a key a second slot. If the table is fixed before and after a call, the call keeps all keys that have
/// slots, tombstones included, and their order.
pub fn calls_keep_keys()
    // These four calls ignore `hold`, which is true if the table is fixed.
    ensures insert { (objects : List Term) → AlwaysKeepsKeys (λ hold. Inserts objects) }
    ensures insert_new { (objects : List Term) → AlwaysKeepsKeys (λ hold. InsertsNew objects) }
    ensures update_counter { (key : Term) (ops : Ops) (default : Option Term)
        → AlwaysKeepsKeys (λ hold. UpdatesCounter key ops default) }
    ensures update_element { (key : Term) (specs : ElementSpecs) (default : Option Term)
        → AlwaysKeepsKeys (λ hold. UpdatesElement key specs default) }
    ensures delete { (which : Which) (old : TableState) → KeepsKeys old (after_delete which old) }
    ensures delete_object { (object : Term) (old new : TableState) (r : Result (Unit {0}) Refusal)
        → on_content (DeletesObject (is_fixed old.fixes) object) old r new → KeepsKeys old new }
    ensures fix { (pid : ℕ) (old new : TableState) (r : Result (Unit {0}) FixFault)
        → IncrementsFix pid old r new → KeepsKeys old new }
    ensures release { (pid : ℕ) (old : TableState) → KeepsKeys old (after_release pid old) }
    ensures release_all { (pid : ℕ) (old : TableState) → KeepsKeys old (after_release_all pid old) }
    // This is for a doubling, and for the readying of a bucket, which leave the content as it is.
    ensures rows { (old new : TableState) → new.content ≡ old.content → KeepsKeys old new }
{}

/// A traversal is exact if the table keeps its keys, in their order, from each of its calls to the next. It then
/// returns no key twice, and each key that has objects at all these calls.
pub fn walks_are_whole()
    ensures { SlotWalksAreWhole }
{}
