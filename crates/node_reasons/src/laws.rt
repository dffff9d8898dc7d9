//! Laws of reasons. Each is the contract of a function that does nothing.

ghost use Rattle.node_reasons.specs.Laws.{ReasonsAreExact};

/// For any reply that the machine allows for a step: if there is no reason, it is a value; if there is a reason, it is
/// the refusal of the reason's rule.
pub fn reasons_are_exact()
    ensures { ReasonsAreExact }
{}
