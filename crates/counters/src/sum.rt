//! The new value of a counter. The sum may be out of the range of integers.
ghost use Rattle.std.specs.Prelude.{◌≡◌};
ghost use Rattle.ets_term.specs.Integers.{in_range};
ghost use Rattle.counters.specs.Sums.{is_past, new_value};

use crate::ops::Op;
use ets_term::Integer;

/// Returns whether a sum is past a threshold: greater if the counter counts up, or less if it counts down.
fn is_past(increment: Integer, threshold: Integer, sum: Integer) -> bool
    ensures { result ≡ is_past increment threshold sum }
{
    if increment >= 0 {
        sum > threshold
    } else {
        sum < threshold
    }
}

/// Returns the new value of a counter after an operation, or `None` if it is out of range. A sum that is out of range
/// is past every threshold.
#[inline(always)]
pub fn new_value(op: Op, value: Integer) -> Option<Integer>
    ensures { result ≡ in_range (new_value op value) }
{
    let sum = value.checked_add(op.increment);
    match op.threshold {
        None => sum,
        Some(threshold) => match sum {
            Some(sum) if is_past(op.increment, threshold.value, sum) => Some(threshold.set_value),
            Some(sum) => Some(sum),
            // The sum is out of range, and so past the threshold.
            None => Some(threshold.set_value),
        },
    }
}
