//! The order in which attempts are drawn.

ghost use Rattle.std.specs.Prelude.{◌≡◌, IfOk};
ghost use Rattle.tx_attempts.specs.Attempts.{is_committed};
ghost use Rattle.history_picture.specs.Seats.{InOrder, seat_of, seats_from};

use std::alloc::{AllocError, Global};
use tx_attempts::{Attempt, Outcome};

/// Where an attempt is drawn: behind those that saw fewer commits; of those that saw as many the committed one is the last,
/// and the others stand as in the text.
#[derive(Clone, Copy, Debug, PartialEq, Eq, PartialOrd, Ord)]
pub struct Seat {
    /// How many commits it saw.
    pub at: u64,
    pub committed: bool,
    /// Which attempt of the text it is, counted from 0.
    pub place: usize,
}

/// Whether it committed a write.
fn is_committed(outcome: Outcome) -> bool
    ensures { result ≡ is_committed outcome }
{
    matches!(outcome, Outcome::Committed)
}

/// The seat of the attempt at this place.
fn seat_of(place: usize, attempt: &Attempt) -> Seat
    ensures { result ≡ seat_of place attempt.now }
{
    Seat {
        at: attempt.at,
        committed: is_committed(attempt.outcome),
        place,
    }
}

/// The seats of attempts, as these stand in the text.
fn seats_in_text(alloc: Global, attempts: &[Attempt]) -> Result<Vec<Seat>, AllocError>
    ensures { IfOk result (λ seats. seats.items ≡ seats_from 0 attempts.now) }
{
    let mut seats = Vec::new(alloc);
    for (place, attempt) in attempts.iter().enumerate() {
        seats.push(seat_of(place, attempt))?;
    }
    Ok(seats)
}

/// The seats of attempts, from the left to the right.
pub fn seats_of(alloc: Global, attempts: &[Attempt]) -> Result<Vec<Seat>, AllocError>
    ensures { IfOk result (λ seats. InOrder attempts.now seats.items) }
{
    let mut seats = seats_in_text(alloc, attempts)?;
    seats.sort_unstable();
    Ok(seats)
}
