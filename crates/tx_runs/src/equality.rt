//! The types of this crate whose `==` tells any two values apart.

ghost use Rattle.std.proofs.Common.{rules, tests};

use crate::ending::End;
use crate::savepoint::Savepoint;
use itm_types::ExactEq;

impl ExactEq for End {
    ghost exact = { Prim.search (tests, rules) };
}

impl ExactEq for Savepoint {
    ghost exact = { Prim.search (tests, rules) };
}
