//! The types of this crate whose `==` tells any two values apart.

ghost use Rattle.std.proofs.Common.{rules, tests};

use crate::row::Row;
use itm_types::ExactEq;

impl ExactEq for Row {
    ghost exact = { Prim.search (tests, rules) };
}
