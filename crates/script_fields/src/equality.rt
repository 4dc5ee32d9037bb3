//! The types of this crate whose `==` tells any two values apart.

ghost use Rattle.std.proofs.Common.{rules, tests};

use crate::fault::{AsmFault, FaultKind};
use crate::literal::Literal;
use crate::place::Place;
use crate::register::Register;
use itm_types::ExactEq;

impl ExactEq for AsmFault {
    ghost exact = { Prim.search (tests, rules) };
}

impl ExactEq for FaultKind {
    ghost exact = { Prim.search (tests, rules) };
}

impl ExactEq for Literal {
    ghost exact = { Prim.search (tests, rules) };
}

impl ExactEq for Place {
    ghost exact = { Prim.search (tests, rules) };
}

impl ExactEq for Register {
    ghost exact = { Prim.search (tests, rules) };
}
