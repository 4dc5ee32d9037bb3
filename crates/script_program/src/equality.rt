//! The types of this crate whose `==` tells any two values apart.

ghost use Rattle.std.proofs.Common.{rules, tests};

use crate::instruction::{ArenaWidth, Instruction, Operation};
use crate::opening::Size;
use crate::schedule::Item;
use itm_types::ExactEq;

impl ExactEq for ArenaWidth {
    ghost exact = { Prim.search (tests, rules) };
}

impl ExactEq for Instruction {
    ghost use Rattle.script_program.specs.SameInstructions.{same_instruction};

    ghost exact = { same_instruction };
}

impl ExactEq for Item {
    ghost exact = { Prim.search (tests, rules) };
}

impl ExactEq for Operation {
    ghost exact = { Prim.search (tests, rules) };
}

impl ExactEq for Size {
    ghost exact = { Prim.search (tests, rules) };
}
