//! The types of this crate whose `==` tells any two values apart.

ghost use Rattle.std.proofs.Common.{rules, tests};

use crate::fault::WorldFault;
use crate::passes::Passes;
use itm_types::ExactEq;

impl ExactEq for Passes {
    ghost exact = { Prim.search (tests, rules) };
}

impl ExactEq for WorldFault {
    ghost exact = { Prim.search (tests, rules) };
}
