//! The fast path: the calls and steps of a revocable transaction that no other one gets in the way of.
//!
//! `begin_into`, `call_into` and `resume_into` find out what is to be done by the mode, the call and the phase. A function
//! of the fast path does one thing of all that, and stands where it is called: a driver that knows what most often comes
//! next has no dispatch, and moves no answer about.
//!
//! Where anything else is to be done, such a function changes nothing, and tells so. The driver then takes the slow path: it
//! hands the same to the general function, in a function of its own that does the whole rest of the call. What came back onto
//! the fast path would have to be told apart there. (`call_into` looks once more, for callers that have no fast path of their own.)

ghost use Rattle.std.specs.Prelude.{◌≡◌, ◌+◌, ℕ, IfNone, IfSome, OnSome, None, length, true, false};
ghost use Rattle.std.specs.Int.{w64, to_le_bytes};
ghost use Rattle.norec_core.specs.Moves.{IsCalled, IsResumed};
ghost use Rattle.norec_core.specs.declared.answer.Next.TheVariants.{Step as Asks, Answer as Answers};
ghost use Rattle.norec_engine.specs.FastCalls.{ServesCall};
ghost use Rattle.norec_engine.specs.WholeReads.{LoadsWord, ConfirmsWord, IsConfirmed, IsReadAtOnce, ReadsAtOnce};
ghost use Rattle.norec_engine.specs.WholeWrites.{ServesWrite};

use crate::engine::Engine;
use crate::turns::{next_step, take};
use itm_types::{Call, Datum, ReadHint, Reply, Step, Width, WriteHint};
use norec_accesses::{
    ask_word, begin_word, confirmed_new, known_number, loaded, read_at_once, word_to_read, write,
    write_found, write_next, write_served,
};
use norec_core::Answer;
use norec_data::{CallEnd, Pending, Turn};

impl Engine {
    /// `call_into` of a read of one whole word that is neither written nor logged, where there is memory to log it: this
    /// word is to be loaded.
    #[inline(always)]
    pub fn read_fast(&mut self, hint: ReadHint, width: Width, at: u64) -> Option<u32>
        requires idle { self.old.waits ≡ None }
        ensures none { IfNone result (self.new ≡ self.old) }
        ensures called { IfSome result (λ word. IsCalled self.old (Call.Read hint width at) false (Asks (Step.Load (word + 1))) self.new) }
        ensures revocable { OnSome result (self.old.irrevocable ≡ false) }
        ensures loads { IfSome result (LoadsWord self.new) }
    {
        if self.irrevocable {
            return None;
        }
        let word = begin_word(&mut self.state, hint, width, at)?;
        self.state.spent = 1;
        self.pending = Pending::Load;
        Some(word)
    }

    /// The word of a read that may be done at once: a whole word that is neither written nor logged, where the log has room by the
    /// number of its rows alone.
    #[inline(always)]
    pub fn word_to_read(&self, width: Width, at: u64) -> Option<u32>
        requires idle { self.now.waits ≡ None }
        ensures { IfSome result (λ word. ReadsAtOnce self.now width at word) }
    {
        if self.irrevocable {
            return None;
        }
        word_to_read(&self.state, width, at)
    }

    /// `call_into` of such a read, and `resume_into` with the word's value and with the clock, which is still the snapshot: it is
    /// answered with the bytes of this number.
    #[inline(always)]
    pub fn read_at_once(&mut self, word: u32, value: u64)
        requires idle { self.old.waits ≡ None }
        requires reads { (width : Width) × (at : ℕ) × ReadsAtOnce self.old width at word }
        ensures { (hint : ReadHint) (width : Width) (at : ℕ) → ReadsAtOnce self.old width at word → IsReadAtOnce self.old (Call.Read hint width at) word value self.new }
    {
        read_at_once(&mut self.state, word, value);
    }

    /// `call_into` of such a read alone.
    #[inline(always)]
    pub fn ask_word(&mut self, hint: ReadHint, width: Width, at: u64)
        requires idle { self.old.waits ≡ None }
        requires reads { (word : ℕ) × ReadsAtOnce self.old width at word }
        ensures called { (word : ℕ) → ReadsAtOnce self.old width at word → IsCalled self.old (Call.Read hint width at) false (Asks (Step.Load (word + 1))) self.new }
        ensures loads { (word : ℕ) → ReadsAtOnce self.old width at word → LoadsWord self.new word }
    {
        prove!(self.state.log.has_room_behind());
        ask_word(&mut self.state, hint, width, at);
        self.pending = Pending::Load;
        self.state.spent = 1;
    }

    /// `call_into` of a read of one whole word that is to be had with no step: the answer has the bytes of this number.
    #[inline(always)]
    pub fn read_known(&mut self, hint: ReadHint, width: Width, at: u64) -> Option<u64>
        requires idle { self.old.waits ≡ None }
        ensures none { IfNone result (self.new ≡ self.old) }
        ensures called { IfSome result (λ number. IsCalled self.old (Call.Read hint width at) false (Answers (Answer.Reply (Reply.Bytes (record { items = to_le_bytes w64 number })))) self.new) }
    {
        if self.irrevocable {
            return None;
        }
        let number = known_number(&mut self.state, hint, width, at)?;
        self.pending = Pending::Idle;
        Some(number)
    }

    /// `resume_into` of such a read with the word's value: the clock is to be loaded.
    #[inline(always)]
    pub fn load_fast(&mut self, value: u64)
        requires loads { (word : ℕ) × LoadsWord self.old word }
        ensures resumed { IsResumed self.old value (Asks (Step.Load 0)) self.new }
        ensures confirms { (word : ℕ) → LoadsWord self.old word → ConfirmsWord self.new word }
    {
        let Pending::Load = self.pending else {
            unreachable!();
        };
        let Turn::Wait(next) = loaded(&mut self.state, value) else {
            unreachable!();
        };
        let _step = next_step(&self.state, false, next);
        self.state.spent += 1;
        self.pending = next;
    }

    /// `resume_into` of such a read with the clock, which is still the snapshot: the read is answered.
    #[inline(always)]
    pub fn confirm_fast(&mut self, word: u32, clock: u64, answer: &mut Answer)
        requires confirms { ConfirmsWord self.old word }
        requires same { clock ≡ self.old.snapshot }
        ensures { IsResumed self.old clock (Answers answer.new) self.new }
    {
        let Pending::Confirm(value) = self.pending else {
            unreachable!();
        };
        confirmed_new(&mut self.state, word, value, clock);
        self.pending = Pending::Idle;
        CallEnd::Word(value).tell(&mut self.state, answer);
    }

    /// The same of a read whose word was loaded with this number, and then the clock, which is still the snapshot: where the
    /// word is asked for as a number, the answer has its bytes.
    #[inline(always)]
    pub fn confirm_number(&mut self, word: u32, number: u64, clock: u64) -> u64
        requires loads { LoadsWord self.old word }
        requires same { clock ≡ self.old.snapshot }
        ensures { IsConfirmed self.old number clock (Answer.Reply (Reply.Bytes (record { items = to_le_bytes w64 result }))) self.new }
    {
        let _turn = loaded(&mut self.state, number);
        let _step = next_step(&self.state, false, Pending::Confirm(number));
        self.state.spent += 1;
        confirmed_new(&mut self.state, word, number, clock);
        self.pending = Pending::Idle;
        number
    }

    /// The number of words that are written, between two calls.
    #[inline(always)]
    pub fn written(&self) -> usize
        requires idle { self.now.waits ≡ None }
        ensures { result ≡ length self.now.writes }
    {
        self.state.frames.len()
    }

    /// Whether the fast path does a write: one in one word, in a revocable transaction, that is not refused. The clause says so
    /// of the last two alone.
    #[inline(always)]
    pub fn serves_write(&self, at: u64, value: &Datum) -> bool
        ensures { result ≡ true → ServesWrite self.now at value.now }
    {
        let size = u64::from(value.width.size());
        !self.irrevocable
            && at % 8 + size <= 8
            && self.state.is_open()
            && at / 8 < u64::from(self.state.words)
    }

    /// `call_into` of such a write, where there is memory for it: it is done.
    #[inline(always)]
    pub fn write_word(&mut self, hint: WriteHint, at: u64, value: &Datum) -> bool
        requires idle { self.old.waits ≡ None }
        requires serves { ServesWrite self.old at value.now }
        ensures none { result ≡ false → self.new ≡ self.old }
        ensures called { result ≡ true → IsCalled self.old (Call.Write hint at value.now) false (Answers (Answer.Reply Reply.Done)) self.new }
    {
        let Ok(()) = write_served(&mut self.state, hint, at, value) else {
            return false;
        };
        true
    }

    /// The same, where that takes no memory and no look at the write set's index: the last transaction wrote this word next, or few
    /// words are written.
    #[inline(always)]
    pub fn write_next(&mut self, hint: WriteHint, at: u64, value: &Datum) -> bool
        requires idle { self.old.waits ≡ None }
        requires serves { ServesWrite self.old at value.now }
        ensures none { result ≡ false → self.new ≡ self.old }
        ensures called { result ≡ true → IsCalled self.old (Call.Write hint at value.now) false (Answers (Answer.Reply Reply.Done)) self.new }
    {
        write_next(&mut self.state, hint, at, value)
    }

    /// The same, where that takes no memory: more words than few are written, and the index has this one.
    #[inline(always)]
    pub fn write_found(&mut self, hint: WriteHint, at: u64, value: &Datum) -> bool
        requires idle { self.old.waits ≡ None }
        requires serves { ServesWrite self.old at value.now }
        ensures none { result ≡ false → self.new ≡ self.old }
        ensures called { result ≡ true → IsCalled self.old (Call.Write hint at value.now) false (Answers (Answer.Reply Reply.Done)) self.new }
    {
        write_found(&mut self.state, hint, at, value)
    }

    /// `call_into` of a write in a revocable transaction, where there is memory for it.
    #[inline(always)]
    pub fn write_fast(
        &mut self,
        hint: WriteHint,
        at: u64,
        value: &Datum,
        answer: &mut Answer,
    ) -> Option<Option<Step>>
        requires idle { self.old.waits ≡ None }
        ensures { ServesCall self.old (Call.Write hint at value.now) false answer.old result answer.new self.new }
    {
        if self.irrevocable {
            return None;
        }
        let Ok(turn) = write(&mut self.state, hint, at, value) else {
            return None;
        };
        Some(take(
            &mut self.state,
            &mut self.pending,
            &mut self.irrevocable,
            false,
            turn,
            answer,
        ))
    }
}
