//! Process numbers, which threads draw from one atomic word without a lock. A seat is the right to draw one number, and
//! no two seats draw the same number.
ghost use Rattle.std.specs.Prelude.{◌≡◌, ◌↔◌, ℕ, ◌<◌, ◌≤◌, [], All, IfOk, IfErr, MatchResult, vec_len};
ghost use Rattle.node_shared.specs.Numbers.{drawn_view};
ghost use Rattle.node_shared.specs.inside.Seats.{undrawn_view};
ghost use Rattle.node_shared.specs.declared.pids.PidsFault.TheVariants.{TooMany};

mod rule;

use self::rule::{Draws, SplitsOff};
use atomic_table::Table;
pub use rule::{Numbers, View};
use std::alloc::{AllocError, Global};

/// The greatest number of process numbers. The rule of the atomic word has the same bound, so numbers fit 32 bits.
pub const MAX_PIDS: usize = 4_096;

/// Process numbers that threads draw, from 0 on, each once: one atomic word, which has the next number. Drawing never
/// waits.
#[derive(Drop)]
pub struct Pids {
    /// The kit's table of atomic words, here of one word.
    table: Table<(), View, u64, Numbers, Global>,
    ghost one_word: { table.shared.table_id.words ≡ 1 },
}

/// The right to draw one number.
#[derive(Drop)]
pub struct Seat {
    /// The kit's token for a user of the atomic word.
    seat: atomic_table::Seat<(), View>,
    ghost is_undrawn: { seat.me ≡ (undrawn_view, []) },
}

/// A drawn number, which no other seat has drawn or can draw.
#[derive(Drop)]
pub struct Drawn {
    /// The token that drew the number.
    seat: atomic_table::Seat<(), View>,
    number: u32,
    ghost is_drawn: { seat.me ≡ (drawn_view number, []) },
}

/// Why no numbers can be drawn.
#[derive(Debug, Drop)]
pub enum PidsFault {
    /// More numbers than `MAX_PIDS`.
    TooMany,
    /// Out of memory.
    Memory,
}

impl Pids {
    /// Returns the process numbers below `n`, and a seat to draw each.
    pub fn open(alloc: Global, n: usize) -> Result<(Pids, Vec<Seat>), PidsFault>
        requires { 0 < n }
        ensures seats { IfOk result (λ opened. (vec_len opened.1 ≡ n)
            × All (λ s. s.seat.table_id ≡ opened.0.table.shared.table_id) opened.1.items) }
        ensures numbers { IfOk result (λ opened. (opened.0.table.shared.key ≡ n) × (n ≤ MAX_PIDS)) }
        ensures fault { IfErr result (λ fault. (fault ≡ TooMany) ↔ (MAX_PIDS < n)) }
        ensures most { MatchResult result (λ _. n ≤ 4096) (λ fault. (fault ≡ TooMany) ↔ (4096 < n)) }
    {
        if n > MAX_PIDS {
            return Err(PidsFault::TooMany);
        }
        open_seats(alloc, n).map_err(|_| PidsFault::Memory)
    }

    /// Draws the seat's number. It never waits and takes no memory.
    pub fn draw(&self, seat: Seat) -> Drawn
        requires { seat.seat.table_id ≡ self.now.table.shared.table_id }
        ensures { result.seat.table_id ≡ self.now.table.shared.table_id }
    {
        let Seat { mut seat } = seat;
        // Adds 1 to the word, whose index is 0. The number is the word's previous value.
        let number = self.table.shared.fetch_add::<Draws>(&mut seat, 0, 1) as u32;
        Drawn { seat, number }
    }
}

impl Drawn {
    /// Returns the number. It takes no memory.
    pub fn pid(&self) -> u32
        ensures seen { self.now.seat.me ≡ (drawn_view result, []) }
        ensures number { result ≡ self.now.number }
    {
        self.number
    }
}

/// Makes the process numbers below `n`, and as many seats to draw them.
fn open_seats(alloc: Global, n: usize) -> Result<(Pids, Vec<Seat>), AllocError>
    requires { n ≤ MAX_PIDS }
    ensures seats { IfOk result (λ opened. (vec_len opened.1 ≡ n)
        × All (λ s. s.seat.table_id ≡ opened.0.table.shared.table_id) opened.1.items) }
    ensures numbers { IfOk result (λ opened. opened.0.table.shared.key ≡ n) }
{
    let mut seats = Vec::with_capacity(alloc, n)?;
    // `first` is the seat of the new word, off which all other seats are split.
    let (table, mut first) = Table::of_words(alloc, &[0], &(n as u64))?;
    for _ in 0..n {
        let seat = table.shared.split_seat::<SplitsOff>(&mut first);
        seats.push(Seat { seat })?;
    }
    Ok((Pids { table }, seats))
}
