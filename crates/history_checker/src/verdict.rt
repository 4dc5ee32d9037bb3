//! What is told of a history.

ghost use Rattle.std.specs.Prelude.{◌≡◌};
ghost use Rattle.history_checker.specs.Texts.{kind_text};
ghost use Rattle.history_checker.specs.Verdicts.{at_place};

use itm_types::Reply;

/// What is wrong with a line.
#[derive(Clone, Copy, Debug, PartialEq, Eq)]
pub enum BadKind {
    /// A committed attempt holds a position that none or another one holds.
    Position,
    /// Another attempt saw more commits than there are.
    At,
    /// A reply is not the plain machine's.
    Reply,
    /// An attempt did not begin, go on or end as its outcome says.
    Shape,
    /// The actions that are told are not those that ran.
    Ran,
    /// The clock and the bytes at the end are not those that the attempts leave.
    Final,
}

/// What is told of a history.
#[derive(Clone, Copy, Debug, PartialEq, Eq)]
pub enum Verdict {
    /// Run alone, the attempts do what the history says.
    Legal,
    /// The line of the history's text that is wrong, counted from 1, and what is wrong with it.
    Bad { row: u64, kind: BadKind },
}

impl BadKind {
    /// The word for it.
    pub fn text(self) -> &'static [u8]
        ensures { result.now ≡ kind_text self }
    {
        match self {
            BadKind::Position => b"position",
            BadKind::At => b"at",
            BadKind::Reply => b"reply",
            BadKind::Shape => b"shape",
            BadKind::Ran => b"ran",
            BadKind::Final => b"final",
        }
    }
}

/// What is wrong with an attempt: at a call, or at its head.
#[derive(Clone, Copy, Debug, PartialEq, Eq)]
pub struct Fault {
    /// Which of its calls, counted from 0; none for its head.
    pub call: Option<usize>,
    pub kind: BadKind,
}

/// What is wrong with one of the attempts.
#[derive(Clone, Copy, Debug, PartialEq, Eq)]
pub struct Spot {
    /// Which attempt, counted from 0.
    pub attempt: usize,
    pub fault: Fault,
}

/// A verdict with its reason.
#[derive(Debug, Drop)]
pub struct Finding {
    pub verdict: Verdict,
    /// The attempt that is wrong, where one is.
    pub spot: Option<Spot>,
    /// What the plain machine answers to the call of it that has another reply.
    pub answer: Option<Reply>,
}

/// The attempt at this place has the fault, if there is one.
pub(crate) fn at_place(i: usize, fault: Option<Fault>) -> Option<Spot>
    ensures { result ≡ at_place i fault }
{
    match fault {
        None => None,
        Some(fault) => Some(Spot { attempt: i, fault }),
    }
}
