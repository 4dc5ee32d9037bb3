//! The types of this crate whose `==` tells any two values apart.

ghost use Rattle.std.proofs.Common.{rules, tests};

use crate::fault::WordsFault;
use crate::words::Closed;
use itm_types::ExactEq;

impl ExactEq for Closed {
    ghost exact = { Prim.search (tests, rules) };
}

impl ExactEq for WordsFault {
    ghost exact = { Prim.search (tests, rules) };
}
