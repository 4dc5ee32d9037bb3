//! Why a transaction was not made.

use itm_types::Refusal;
use std::fmt;
use std::fmt::{Display, Formatter, Write};

/// Why a body's transaction left nothing behind. None is open.
#[derive(Debug, Drop, PartialEq, Eq)]
pub enum Failed<E> {
    /// The body took it back.
    Cancelled(E),
    /// A call of the body was refused: it is to be mended.
    Refused(Refusal),
    /// As many have committed as the limits allow.
    Full,
    Memory,
    /// It was tried as often as was said.
    Tries,
}

impl<E: Display> Display for Failed<E> {
    fn fmt<W: Write>(&self, f: &mut Formatter<W>) -> fmt::Result {
        match self {
            Failed::Cancelled(why) => write!(f, "cancelled: {why}"),
            Failed::Refused(refusal) => write!(f, "a call is refused: {refusal:?}"),
            Failed::Full => write!(f, "as many have committed as may"),
            Failed::Memory => write!(f, "no memory"),
            Failed::Tries => write!(f, "tried too often"),
        }
    }
}
