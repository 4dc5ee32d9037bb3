//! Whole words as numbers, for transactions that are written in Rattle.
//!
//! A program has many sites of these calls. On the fast path each is a call and a test: `whole_words` has the functions. What leads
//! off it is one more call, of a function whose result is written whole, so that on the fast path no room for it is cleared.

ghost use Rattle.std.specs.Prelude.{◌≡◌, ℕ, IfOk, Some, false};
ghost use Rattle.itm_types.specs.declared.call.Call.{Call};
ghost use Rattle.itm_types.specs.declared.step.Step.{Step};
ghost use Rattle.norec_core.specs.declared.answer.Next.TheVariants.{Step as Asks};
ghost use Rattle.shared_words.specs.declared.view.View.{View};
ghost use Rattle.shared_words.specs.Passes.{Owns, cells_of, view_of};
ghost use Rattle.call_rules.specs.CallResults.{Tells};
ghost use Rattle.call_rules.specs.Drives.{FinishesSo, HasStepped};
ghost use Rattle.call_rules.specs.InCall.{IsDone};
ghost use Rattle.call_rules.specs.Standing.{Standing, start_of};
ghost use Rattle.itm_runtime.specs.Stops.{GoesOn, HasNumber, answer_to_put, answer_to_read, answer_to_write, done_or, number};

use crate::blocks::go_on_from;
use crate::stop::Stop;
use crate::thread::Thread;
use crate::whole_words::{Looked, datum_of, look, put};
use itm_types::{ReadHint, Reply, Width, WriteHint, get_word};
use norec_core::Answer;
use norec_engine::Engine;
use shared_words::{Pass, Words};
use std::alloc::Allocator;

/// The number of which an answer has the bytes.
fn number_in(answer: Answer) -> u64
    requires { HasNumber answer }
    ensures { answer_to_read (Ok result) ≡ Some answer }
{
    match answer {
        Answer::Reply(Reply::Bytes(bytes)) => get_word(bytes.as_slice(), 0),
        _ => unreachable!(),
    }
}

/// The number of which an answer has the bytes, or why the transaction stops.
#[cold]
#[inline(never)]
fn number_of(answer: Answer) -> Result<u64, Stop>
    requires number { GoesOn answer → HasNumber answer }
    ensures { answer_to_read result ≡ Some answer }
{
    match Stop::check(answer) {
        Ok(answer) => Ok(number_in(answer)),
        Err(why) => Err(why),
    }
}

/// Whether a write is done by its answer. Where the answer stops the transaction, `stop` tells why.
fn tell_done(answer: Answer, stop: &mut Stop) -> bool
    requires done { GoesOn answer → answer ≡ Answer.Reply Reply.Done }
    ensures { answer_to_write (done_or result stop.new) ≡ Some answer }
{
    match Stop::check(answer) {
        Ok(_) => true,
        Err(why) => {
            *stop = why;
            false
        }
    }
}

/// The steps that are left of a read, the last step of which found another clock.
#[cold]
#[inline(never)]
fn read_from<A: Allocator>(
    words: &Words<A>,
    pass: &mut Pass,
    engine: &mut Engine,
    clock: u64,
) -> Result<u64, Stop>
    requires own { Owns words.now pass.old }
    requires done { (t : Standing) × (at : ℕ) × (d : IsDone (cells_of words.now) (start_of t (Call.Read ReadHint.R Width.U8 at) false) (view_of pass.old) engine.old clock) × HasStepped d.before d.step clock (view_of pass.old) }
    ensures { (v : View) (step : Step) → HasStepped v step clock (view_of pass.old) → FinishesSo words.now v engine.old (Asks step) (answer_to_read result) pass.new engine.new }
{
    let answer = go_on_from(words, pass, engine, clock);
    number_of(answer)
}

impl Thread {
    /// Reads the number of 8 bytes, the low one first, as by `read`.
    #[inline(always)]
    pub fn read_u64<A: Allocator>(&mut self, words: &Words<A>, at: u64) -> Result<u64, Stop>
        requires own { Owns words.now self.old.pass }
        ensures { Tells words.now self.old (Call.Read ReadHint.R Width.U8 at) (answer_to_read result) self.new }
    {
        match look(words, &mut self.pass, &mut self.engine, at) {
            Looked::Number(number) => Ok(number),
            // (named here, so that no room for these is cleared on the fast path)
            Looked::Moved(clock) => {
                let number = read_from(words, &mut self.pass, &mut self.engine, clock);
                number
            }
            Looked::Nothing => {
                let number = self.read_number(words, at);
                number
            }
        }
    }

    /// The same, not on the fast path.
    #[cold]
    #[inline(never)]
    fn read_number<A: Allocator>(&mut self, words: &Words<A>, at: u64) -> Result<u64, Stop>
        requires own { Owns words.now self.old.pass }
        ensures { Tells words.now self.old (Call.Read ReadHint.R Width.U8 at) (answer_to_read result) self.new }
    {
        match self.read_slow(words, ReadHint::R, Width::U8, at) {
            Ok(answer) => number_of(answer),
            Err(_) => Err(Stop::Memory),
        }
    }

    /// Writes a number as 8 bytes, the low one first, as by `write`.
    #[inline(always)]
    pub fn write_u64<A: Allocator>(
        &mut self,
        words: &Words<A>,
        at: u64,
        value: u64,
    ) -> Result<(), Stop>
        requires own { Owns words.now self.old.pass }
        ensures { Tells words.now self.old (Call.Write WriteHint.W at (number value)) (answer_to_write result) self.new }
    {
        if put(&mut self.engine, at, value) {
            Ok(())
        } else {
            match self.write_number(words, at, value) {
                Ok(_) => Ok(()),
                Err(stop) => Err(stop),
            }
        }
    }

    /// The same, not on the fast path. The number, once it is written.
    #[cold]
    #[inline(never)]
    fn write_number<A: Allocator>(
        &mut self,
        words: &Words<A>,
        at: u64,
        value: u64,
    ) -> Result<u64, Stop>
        requires own { Owns words.now self.old.pass }
        ensures told { Tells words.now self.old (Call.Write WriteHint.W at (number value)) (answer_to_put result) self.new }
        ensures number { IfOk result (λ n. n ≡ value) }
    {
        let mut stop = Stop::Memory;
        if self.write_told(words, at, value, &mut stop) {
            Ok(value)
        } else {
            Err(stop)
        }
    }

    /// The same: whether it is done, and what stops the transaction where the caller has it.
    #[inline(never)]
    fn write_told<A: Allocator>(
        &mut self,
        words: &Words<A>,
        at: u64,
        value: u64,
        stop: &mut Stop,
    ) -> bool
        requires own { Owns words.now self.old.pass }
        ensures { Tells words.now self.old (Call.Write WriteHint.W at (number value)) (answer_to_write (done_or result stop.new)) self.new }
    {
        let datum = datum_of(value);
        match self.write(words, WriteHint::W, at, &datum) {
            Ok(answer) => tell_done(answer, stop),
            Err(_) => {
                *stop = Stop::Memory;
                false
            }
        }
    }
}
