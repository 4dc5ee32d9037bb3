//! The types of this crate whose `==` tells any two values apart.

ghost use Rattle.std.proofs.Common.{rules, tests};

use crate::chunk::{Chunk, Chunks, Direction};
use crate::piece::Piece;
use itm_types::ExactEq;

impl ExactEq for Chunk {
    ghost exact = { Prim.search (tests, rules) };
}

impl ExactEq for Chunks {
    ghost exact = { Prim.search (tests, rules) };
}

impl ExactEq for Direction {
    ghost exact = { Prim.search (tests, rules) };
}

impl ExactEq for Piece {
    ghost exact = { Prim.search (tests, rules) };
}
