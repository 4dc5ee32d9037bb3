//! The types of this crate whose `==` tells any two values apart.

ghost use Rattle.std.proofs.Common.{rules, tests};

use crate::actions::ActionMark;
use itm_types::ExactEq;

impl ExactEq for ActionMark {
    ghost exact = { Prim.search (tests, rules) };
}
