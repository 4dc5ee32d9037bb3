//! The types of this crate whose `==` tells any two values apart.

ghost use Rattle.std.proofs.Common.{rules, tests};

use crate::verdict::{BadKind, Fault, Spot, Verdict};
use itm_types::ExactEq;

impl ExactEq for BadKind {
    ghost exact = { Prim.search (tests, rules) };
}

impl ExactEq for Verdict {
    ghost exact = { Prim.search (tests, rules) };
}

impl ExactEq for Fault {
    ghost exact = { Prim.search (tests, rules) };
}

impl ExactEq for Spot {
    ghost exact = { Prim.search (tests, rules) };
}
