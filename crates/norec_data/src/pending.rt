//! What a call in progress waits for.

/// What a validation round is made for.
#[derive(Clone, Copy, Debug, PartialEq, Eq)]
pub enum Cause {
    /// The read in progress.
    Read,
    /// The taking of the clock.
    Take,
}

/// What the call in progress waits for. What the call is about stands beside it.
#[derive(Clone, Copy, Debug, PartialEq, Eq)]
pub enum Pending {
    /// No call is in progress.
    Idle,
    /// The clock, for a begin.
    Begin,
    /// The exchange that takes the clock for a begin that goes irrevocable.
    Take,
    /// The word of the read's piece.
    Load,
    /// The clock, to confirm this value of the word.
    Confirm(u64),
    /// The clock, at the start of a round.
    RoundStart,
    /// The word of this row of the value log.
    RoundRow(usize),
    /// The clock, at the end of a round.
    RoundEnd,
    /// The clock, once this row was found different, which the innermost block has added.
    RoundBack(usize),
    /// The exchange that takes the clock.
    Exchange,
    /// The word of this row of the write set, which has a part of it.
    BackLoad(usize),
    /// The store of this row of the write set, into the word that was loaded where the row has a part of it.
    Store(usize),
    /// The store that frees the clock.
    Free,
    /// The word of this piece, which has a part of it, in an irrevocable transaction.
    Fetch,
    /// The store of this piece, into the word that was loaded where it has a part of it, in an irrevocable transaction.
    Place,
}
