//! What is compared of an attempt.

ghost use Rattle.std.specs.Prelude.{◌≡◌};
ghost use Rattle.std.specs.Cmp.Lexicographic.{pointwise};
ghost use Rattle.history_checker.specs.Matches.{same_reply, same_ran};

use itm_types::{Ran, Reply};

/// Whether the replies are the same.
pub(crate) fn same_reply(a: &Reply, b: &Reply) -> bool
    ensures { result ≡ same_reply a.now b.now }
{
    match (a, b) {
        (Reply::Done, Reply::Done) => true,
        (Reply::Bytes(a), Reply::Bytes(b)) => a.as_slice() == b.as_slice(),
        (Reply::Code(a), Reply::Code(b)) => a == b,
        (Reply::Refused(a), Reply::Refused(b)) => a.number() == b.number(),
        _ => false,
    }
}

/// Whether the actions are the same, in order.
pub(crate) fn same_ran(told: &[Ran], ran: &[Ran]) -> bool
    ensures { result ≡ pointwise same_ran told.now ran.now }
{
    told == ran
}
