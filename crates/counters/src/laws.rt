//! Laws about the limit of depth. Each law is the contract of a function with an empty body.
ghost use Rattle.std.specs.Prelude.{List};
ghost use Rattle.ets_term.specs.declared.term.Term.{Term};
ghost use Rattle.counters.specs.laws.Depths.{MakesTooDeep};
ghost use Rattle.counters.specs.declared.elements.ElementSpec.{ElementSpec};

/// If an object is not too deep, new values for its elements are refused for their depth exactly if the object with
/// these values would be too deep.
pub fn deep_values_make_deep_objects()
    ensures { (specs : List ElementSpec) (elements : List Term) → MakesTooDeep specs elements }
{}
