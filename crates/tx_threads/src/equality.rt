//! The type of this crate whose `==` tells any two values apart.

ghost use Rattle.std.proofs.Common.{rules, tests};

use crate::fault::ThreadsFault;
use itm_types::ExactEq;

impl ExactEq for ThreadsFault {
    ghost exact = { Prim.search (tests, rules) };
}
