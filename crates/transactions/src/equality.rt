//! The types of this crate whose `==` tells any two values apart, where it does so of what they hold.

ghost use Rattle.std.proofs.Common.{rules, tests};

use crate::failed::Failed;
use crate::tried::Done;
use itm_types::ExactEq;

impl<R: ExactEq> ExactEq for Done<R> {
    ghost exact = { Prim.search (tests, rules) };
}

impl<E: ExactEq> ExactEq for Failed<E> {
    ghost exact = { Prim.search (tests, rules) };
}
