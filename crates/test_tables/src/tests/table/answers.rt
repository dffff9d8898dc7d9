//! The expected answers of steps, and the code of each answer: an integer, by which answers of all types are compared.
use super::terms::as_integer;
use ets_term::Integer;
use table_ops::Refusal;

/// The expected answer of a step, or what it leaves.
#[derive(Clone, Copy)]
pub enum Answer {
    /// `true`, or the success of a step that has no other answer.
    True,
    /// `false`.
    False,
    /// The refusal `badarg`.
    Badarg,
    /// The refusal `system_limit`.
    SystemLimit,
    /// An element that is an integer, or the new value of a counter.
    Int(Integer),
    /// A list of this length.
    ListOfLength(usize),
    /// The second elements of the objects that are answered, in order. Each is from 0 to 9, because `code` makes them
    /// the digits of one number.
    Values(&'static [Integer]),
    /// The second element of the one object that is answered.
    OneValue(Integer),
    /// How many objects the table then has.
    Objects(Integer),
    /// How many slots the table then has, tombstones included.
    Slots(Integer),
    /// How many objects are deleted.
    Deleted(Integer),
    /// How many objects each of `match` and `match_object` finds. They test no other objects.
    Matched(Integer),
    /// How many objects each of `select` and `select_count` finds.
    Selected(Integer),
}

/// The code of the refusal `badarg`.
const BADARG: Integer = -1;

/// The code of the refusal `system_limit`.
const SYSTEM_LIMIT: Integer = -2;

impl Answer {
    /// Returns the code of an expected answer. `answer_code` returns the same code for a step with this answer.
    pub fn code(self) -> Integer {
        match self {
            Answer::True => 1,
            Answer::False => 0,
            Answer::Badarg => BADARG,
            Answer::SystemLimit => SYSTEM_LIMIT,
            Answer::Values(values) => code_of_values(values),
            Answer::ListOfLength(length) => as_integer(length),
            // Two searches, each of which finds `count` objects and tests no others.
            Answer::Matched(count) => code_of_matchings(
                count.wrapping_mul(2),
                count.wrapping_mul(2),
            ),
            Answer::Selected(count) => code_of_selections(count, count),
            Answer::Int(number)
            | Answer::OneValue(number)
            | Answer::Objects(number)
            | Answer::Slots(number)
            | Answer::Deleted(number) => number,
        }
    }
}

/// Returns the code of a refusal.
pub fn refusal_code(refusal: Refusal) -> Integer {
    match refusal {
        Refusal::Badarg => BADARG,
        Refusal::SystemLimit => SYSTEM_LIMIT,
        Refusal::Memory => super::OUT_OF_MEMORY,
    }
}

/// Returns the number whose decimal digits are these values.
fn code_of_values(values: &[Integer]) -> Integer {
    let mut digits: Integer = 0;
    for value in values {
        digits = add_digit(digits, *value);
    }
    digits
}

/// Appends a decimal digit to a number, which may wrap.
pub fn add_digit(number: Integer, digit: Integer) -> Integer {
    number.wrapping_mul(10).wrapping_add(digit)
}

/// Returns the code of `match` and `match_object`: how many results both have in all, and how many objects they test.
/// The number of tested objects is in the last two digits; a number above 99 counts as 99.
pub fn code_of_matchings(results: Integer, tested: Integer) -> Integer {
    results.wrapping_mul(100).wrapping_add(tested.min(99))
}

/// Returns the code of `select` and `select_count`: how many results one has, and how many the other counts. Each
/// number is below 100,000 in these tests, so that different numbers have different codes.
pub fn code_of_selections(results: Integer, count: Integer) -> Integer {
    results.wrapping_mul(100_000).wrapping_add(count)
}
