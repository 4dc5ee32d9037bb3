//! What `==` tells of values.

ghost use Rattle.std.specs.Prelude.{◌≡◌, ◌↔◌, true, IsTrue};
ghost use Rattle.std.proofs.Common.{rules, tests};
ghost use Rattle.itm_types.specs.SameValues.{same_copying, same_datum, same_depth};

use crate::access::{ReadHint, Width, WriteHint};
use crate::call::{Action, ActionKind, Call, Copying, Props, Ran, Refusal, Reply};
use crate::copy::{CopyPair, CopySide, SharedSide};
use crate::datum::Datum;
use crate::limits::{Depth, Limits};
use crate::row::LogRow;
use crate::step::Step;

/// An `Eq` whose `==` tells any two values apart: what is equal is the same value.
pub trait ExactEq: Eq {
    ghost exact: { (x y : Self) → Self.PartialEq.eq x y ≡ true → x ≡ y };
}

/// Whether both are the same value.
pub fn is_same<T: ExactEq>(a: &T, b: &T) -> bool
    ensures { IsTrue result ↔ (a.now ≡ b.now) }
{
    a == b
}

impl ExactEq for Width {
    ghost exact = { Prim.search (tests, rules) };
}

impl ExactEq for ReadHint {
    ghost exact = { Prim.search (tests, rules) };
}

impl ExactEq for WriteHint {
    ghost exact = { Prim.search (tests, rules) };
}

impl ExactEq for Props {
    ghost exact = { Prim.search (tests, rules) };
}

impl ExactEq for Copying {
    ghost use Rattle.itm_types.specs.contracts.equality.CopyPairExactEq.TheImpl.Laws.{exact-law as exact_pair};

    ghost exact = { same_copying _ exact_pair };
}

impl ExactEq for Action {
    ghost exact = { Prim.search (tests, rules) };
}

impl ExactEq for ActionKind {
    ghost exact = { Prim.search (tests, rules) };
}

impl ExactEq for Ran {
    ghost exact = { Prim.search (tests, rules) };
}

impl ExactEq for Call {
    ghost use Rattle.itm_types.specs.SameCalls.{same_call};

    ghost exact = { same_call };
}

impl ExactEq for Refusal {
    ghost exact = { Prim.search (tests, rules) };
}

impl ExactEq for Reply {
    ghost exact = { Prim.search (tests, rules) };
}

impl ExactEq for CopySide {
    ghost exact = { Prim.search (tests, rules) };
}

impl ExactEq for SharedSide {
    ghost exact = { Prim.search (tests, rules) };
}

impl ExactEq for CopyPair {
    ghost exact = { Prim.search (tests, rules) };
}

impl ExactEq for Datum {
    ghost exact = { Prim.search (same_datum, tests, rules) };
}

impl ExactEq for Limits {
    ghost exact = { Prim.search (tests, rules) };
}

impl ExactEq for Depth {
    ghost exact = { Prim.search (same_depth, tests, rules) };
}

impl ExactEq for LogRow {
    ghost exact = { Prim.search (tests, rules) };
}

impl ExactEq for Step {
    ghost exact = { Prim.search (tests, rules) };
}
