//! The types of this crate whose `==` tells any two values apart.

ghost use Rattle.std.proofs.Common.{rules, tests};

use crate::report::HostFault;
use itm_types::ExactEq;

impl ExactEq for HostFault {
    ghost exact = { Prim.search (tests, rules) };
}
