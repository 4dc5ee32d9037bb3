//! The types of this crate whose `==` tells any two values apart.

ghost use Rattle.std.proofs.Common.{rules, tests};

use crate::entry::{Control, Entry};
use itm_types::ExactEq;

impl ExactEq for Control {
    ghost exact = { Prim.search (tests, rules) };
}

impl ExactEq for Entry {
    ghost use Rattle.itm_entries.specs.SameEntries.{same_entry};

    ghost exact = { same_entry };
}
