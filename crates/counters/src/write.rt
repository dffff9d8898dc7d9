//! Writes values to elements of one object, in place or in a copy.
ghost use Rattle.std.specs.Prelude.{◌≡◌, ◌-◌, ◌<◌, ◌^◌, ◌==◌, ◌∷◌, [], slice_set, Ok, Err, IfOk, OnOk, OnErr, IfErr};
ghost use Rattle.std.specs.List.{list_any};
ghost use Rattle.counters.specs.Elements.{has_all_positions, write_values, apply_elements};
ghost use Rattle.counters.specs.inside.Values.{too_deep_as_element, write_each};
ghost use Rattle.counters.specs.declared.elements.ElementSpecs.TheVariants.{One};
ghost use Rattle.counters.specs.Outcomes.{FailsOnlyAs, FailsJustAs, with_value_at};

use crate::elements::{ElementSpec, ElementSpecs};
use crate::fault::CounterFault;
use ets_term::{Items, MAX_DEPTH, Position, Term};
use std::alloc::{AllocError, Global};
use std::slice;

/// Returns a copy of an object, with the values that `write_elements` writes.
pub fn apply_elements(
    alloc: Global,
    object: &Term,
    specs: &ElementSpecs,
) -> Result<Term, CounterFault>
    ensures done { IfOk result (λ object'. apply_elements specs.now object.now ≡ Ok object') }
    ensures badarg { FailsOnlyAs result CounterFault.Badarg (apply_elements specs.now object.now) }
    ensures limit { FailsOnlyAs result CounterFault.SystemLimit (apply_elements specs.now object.now) }
{
    let mut updated = object.try_clone(alloc)?;
    write_elements(alloc, &mut updated, specs)?;
    Ok(updated)
}

/// Writes copies of values into elements of an object in place (stdlib manual, module ets, update_element/3). Of
/// several values for a position, the last one is written. All values are written or none. Returns `Badarg` if the
/// object is not a tuple or does not have each position. Otherwise returns `SystemLimit` if a value to be written has
/// `MAX_DEPTH` levels or more.
pub fn write_elements(
    alloc: Global,
    object: &mut Term,
    specs: &ElementSpecs,
) -> Result<(), CounterFault>
    ensures done { OnOk result (apply_elements specs.now object.old ≡ Ok object.new) }
    ensures badarg { FailsJustAs result CounterFault.Badarg (apply_elements specs.now object.old) }
    ensures limit { FailsJustAs result CounterFault.SystemLimit (apply_elements specs.now object.old) }
    ensures kept { OnErr result (object.new ≡ object.old) }
{
    let Term::Tuple(elements) = object else {
        return Err(CounterFault::Badarg);
    };
    match specs {
        ElementSpecs::One(spec) => write_copies(alloc, elements, slice::from_ref(spec)),
        ElementSpecs::Many(specs) => write_copies(alloc, elements, specs.as_slice()),
    }
}

/// Writes copies of the values of `specs`, a list, into the elements that they name, in the order of the list.
/// `check_list` checks the list, and all values are copied, before the first one is written. If the check or a copy
/// fails, the elements stay as they were.
fn write_copies(
    alloc: Global,
    elements: &mut Items<Term>,
    specs: &[ElementSpec],
) -> Result<(), CounterFault>
    ensures done { OnOk result (write_values specs.now elements.old ≡ Ok elements.new) }
    ensures badarg { FailsJustAs result CounterFault.Badarg (write_values specs.now elements.old) }
    ensures limit { FailsJustAs result CounterFault.SystemLimit (write_values specs.now elements.old) }
    ensures kept { OnErr result (elements.new ≡ elements.old) }
{
    check_list(elements.as_slice(), specs)?;
    let copies = copy_specs(alloc, specs)?;
    write_all(elements, copies);
    Ok(())
}

/// Returns copies of values with their positions.
fn copy_specs(alloc: Global, specs: &[ElementSpec]) -> Result<Vec<ElementSpec>, AllocError>
    ensures { IfOk result (λ copies. copies.items ≡ specs.now) }
{
    let mut copies = Vec::with_capacity(alloc, specs.len())?;
    for spec in specs {
        copies.push(ElementSpec {
            position: spec.position,
            value: spec.value.try_clone(alloc)?,
        })?;
    }
    Ok(copies)
}

/// Checks whether a list of values may be written. Returns `Badarg` if the tuple lacks a position. Otherwise returns
/// `SystemLimit` if `too_deep_as_element` is true.
fn check_list(elements: &[Term], specs: &[ElementSpec]) -> Result<(), CounterFault>
    ensures ok { OnOk result (write_values specs.now elements.now ≡ Ok (write_each specs.now elements.now)) }
    ensures err { IfErr result (λ fault. write_values specs.now elements.now ≡ Err fault) }
{
    if !has_all_positions(elements.len(), specs) {
        return Err(CounterFault::Badarg);
    }
    if too_deep_as_element(specs) {
        return Err(CounterFault::SystemLimit);
    }
    Ok(())
}

/// Returns whether a tuple of `count` elements has each position.
fn has_all_positions(count: usize, specs: &[ElementSpec]) -> bool
    ensures { result ≡ has_all_positions count specs.now }
{
    specs.iter().all(|spec| 0 < spec.position && spec.position <= count as Position)
}

/// Returns whether some value has `MAX_DEPTH` levels or more, and no later value of the list replaces it.
fn too_deep_as_element(specs: &[ElementSpec]) -> bool
    ensures { result ≡ too_deep_as_element specs.now }
{
    for i in 0..specs.len() {
        let spec = &specs[i];
        if spec.value.depth() >= MAX_DEPTH && !has_value_for(&specs[i + 1..], spec.position) {
            return true;
        }
    }
    false
}

/// Returns whether the list has a value for a position.
fn has_value_for(specs: &[ElementSpec], position: Position) -> bool
    ensures { result ≡ list_any (λ later. later.position == position) specs.now }
{
    specs.iter().any(|later| later.position == position)
}

/// Writes values in their order, so that the last value for a position stays.
fn write_all(elements: &mut Items<Term>, mut specs: Vec<ElementSpec>)
    ensures { elements.new ≡ write_each specs.items elements.old }
{
    // `pop` takes the last value, so the list is reversed first.
    specs.as_mut_slice().reverse();
    while let Some(first) = specs.pop() {
        write(elements, first.position, first.value);
    }
}

/// Writes one element, if the tuple has it. `position` counts from 1; the callers have checked that it is not 0.
fn write(elements: &mut Items<Term>, position: Position, value: Term)
    ensures { elements.new ≡ slice_set elements.old (position - 1) value }
{
    let at = position.saturating_sub(1);
    if at < elements.len() as Position {
        let _old = elements.replace(at as usize, value);
    }
}
