//! The types of this crate whose `==` tells any two values apart.

ghost use Rattle.std.proofs.Common.{rules, tests};

use crate::answer::{Answer, Next, Undone};
use crate::call_parts::{Opening, Taking};
use itm_types::ExactEq;

impl ExactEq for Answer {
    ghost exact = { Prim.search (tests, rules) };
}

impl ExactEq for Next {
    ghost exact = { Prim.search (tests, rules) };
}

impl ExactEq for Undone {
    ghost exact = { Prim.search (tests, rules) };
}

impl ExactEq for Opening {
    ghost exact = { Prim.search (tests, rules) };
}

impl ExactEq for Taking {
    ghost exact = { Prim.search (tests, rules) };
}
