//! Values of any width, for transactions that are written in Rattle: numbers of whole words are in `numbers`.

ghost use Rattle.std.specs.Prelude.{◌≡◌, Some};
ghost use Rattle.itm_types.specs.declared.call.Call.{Call};
ghost use Rattle.shared_words.specs.Passes.{Owns};
ghost use Rattle.call_rules.specs.CallResults.{Tells};
ghost use Rattle.itm_runtime.specs.Stops.{answer_to_write};

use crate::stop::Stop;
use crate::thread::{Thread, copy_of};
use itm_types::{Datum, WriteHint};
use shared_words::Words;
use std::alloc::Allocator;

impl Thread {
    /// Writes a value, as by `write`. (In line, so that where the width is known and the value lies in one word, what is written
    /// of that is known too.)
    #[inline(always)]
    pub fn write_value<A: Allocator>(
        &mut self,
        words: &Words<A>,
        at: u64,
        value: &Datum,
    ) -> Result<(), Stop>
        requires own { Owns words.now self.old.pass }
        ensures { Tells words.now self.old (Call.Write WriteHint.W at value.now) (answer_to_write result) self.new }
    {
        if !self.engine.serves_write(at, value) {
            // (copied here, so that on the fast path the value need not lie in memory)
            let value = copy_of(value);
            return self.write_value_slow(words, at, &value);
        }
        if self.engine.write_next(WriteHint::W, at, value) {
            return Ok(());
        }
        let value = copy_of(value);
        self.write_value_slow(words, at, &value)
    }

    /// The same, not on the fast path.
    #[inline(never)]
    fn write_value_slow<A: Allocator>(
        &mut self,
        words: &Words<A>,
        at: u64,
        value: &Datum,
    ) -> Result<(), Stop>
        requires own { Owns words.now self.old.pass }
        ensures { Tells words.now self.old (Call.Write WriteHint.W at value.now) (answer_to_write result) self.new }
    {
        let answer = self.write(words, WriteHint::W, at, value)?;
        Stop::check(answer)?;
        Ok(())
    }
}
