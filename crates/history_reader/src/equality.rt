//! The types of this crate whose `==` tells any two values apart.

ghost use Rattle.std.proofs.Common.{rules, tests};

use crate::fault::{ReadFault, ReadKind};
use itm_types::ExactEq;

impl ExactEq for ReadFault {
    ghost exact = { Prim.search (tests, rules) };
}

impl ExactEq for ReadKind {
    ghost exact = { Prim.search (tests, rules) };
}
