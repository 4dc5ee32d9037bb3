//! The types of this crate whose `==` tells any two values apart.

ghost use Rattle.std.proofs.Common.{rules, tests};

use crate::gate::{GateShut, Open};
use crate::sink::Quiet;
use itm_types::ExactEq;

impl ExactEq for GateShut {
    ghost exact = { Prim.search (tests, rules) };
}

impl ExactEq for Open {
    ghost exact = { Prim.search (tests, rules) };
}

impl ExactEq for Quiet {
    ghost exact = { Prim.search (tests, rules) };
}
