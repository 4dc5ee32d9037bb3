//! The types of this crate whose `==` tells any two values apart.

ghost use Rattle.std.proofs.Common.{rules, tests};

use crate::attempt::{CallRecord, Outcome};
use itm_types::ExactEq;

impl ExactEq for Outcome {
    ghost exact = { Prim.search (tests, rules) };
}

impl ExactEq for CallRecord {
    ghost use Rattle.std.proofs.lemmas.Bool.{and_parts};
    ghost use Rattle.itm_types.specs.contracts.equality.CallExactEq.TheImpl.Laws.{exact-law as same_call};
    ghost use Rattle.itm_types.specs.contracts.equality.ReplyExactEq.TheImpl.Laws.{exact-law as same_reply};

    ghost exact = { λ a b e. let both = and_parts _ _ e in λ i. record {
      call = same_call a.call b.call both.0 i;
      reply = same_reply a.reply b.reply both.1 i;
    } };
}
