//! Reads and writes of numbers on the fast path, as functions whose answers come in registers: what stands at each of a
//! program's sites of them is a call and a test.

ghost use Rattle.std.specs.Prelude.{◌≡◌, ◌≢◌, ◌+◌, ◌≤◌, IfErr, IfOk, false, length, true};
ghost use Rattle.norec_core.specs.declared.answer.Next.TheVariants.{Step as Asks, Answer as Answers};
ghost use Rattle.norec_core.specs.Moves.{IsCalled};
ghost use Rattle.norec_engine.specs.WholeReads.{LoadsWord, ReadsAtOnce};
ghost use Rattle.norec_engine.specs.WholeWrites.{ServesWrite};
ghost use Rattle.write_set.specs.declared.keyed_rows.TheConstants.{FEW_ROWS};
ghost use Rattle.shared_words.specs.Passes.{Owns, view_of};
ghost use Rattle.call_rules.specs.Underway.{Finds};
ghost use Rattle.call_rules.specs.Drives.{Finishes};
ghost use Rattle.call_rules.specs.InCall.{InCall};
ghost use Rattle.itm_runtime.specs.Looks.{LooksSo};
ghost use Rattle.call_rules.specs.Served.{Start};
ghost use Rattle.itm_runtime.specs.Stops.{bytes_of_number, number};
ghost use Rattle.call_rules.specs.Ties.{Stands};

use itm_types::{Call, Datum, ReadHint, Reply, Step, Width, WriteHint};
use norec_core::Answer;
use norec_engine::Engine;
use shared_words::{Pass, Words};
use std::alloc::Allocator;
use write_set::FEW_ROWS;

/// How far a read of a number went on the fast path.
#[derive(Clone, Copy)]
pub enum Looked {
    /// It is done, and told this number.
    Number(u64),
    /// The word was loaded, and then this clock, which is not the snapshot.
    Moved(u64),
    /// Nothing was done.
    Nothing,
}

/// A number as what is written.
pub(crate) fn datum_of(value: u64) -> Datum
    ensures { result ≡ number value }
{
    Datum::new(Width::U8, &value.to_le_bytes())
}

/// A number is read.
#[inline(never)]
pub(crate) fn look<A: Allocator>(
    words: &Words<A>,
    pass: &mut Pass,
    engine: &mut Engine,
    at: u64,
) -> Looked
    requires own { Owns words.now pass.old }
    requires stands { Stands (view_of pass.old) engine.old }
    ensures { LooksSo words.now pass.old engine.old (Call.Read ReadHint.R Width.U8 at) result pass.new engine.new }
{
    if engine.written() > 0 {
        return look_beside_writes(words, pass, engine, at);
    }
    look_here(words, pass, engine, at)
}

/// The same, where few words are written. (Apart: their rows are looked at one by one, which is much code. Behind the test a
/// compiler leaves out what looks among many.)
#[inline(never)]
fn look_beside_writes<A: Allocator>(
    words: &Words<A>,
    pass: &mut Pass,
    engine: &mut Engine,
    at: u64,
) -> Looked
    requires own { Owns words.now pass.old }
    requires stands { Stands (view_of pass.old) engine.old }
    ensures { LooksSo words.now pass.old engine.old (Call.Read ReadHint.R Width.U8 at) result pass.new engine.new }
{
    if engine.written() > FEW_ROWS {
        return look_among_writes(words, pass, engine, at);
    }
    look_here(words, pass, engine, at)
}

/// The same, where more are. (Apart: the look for a row is a call, and what has one saves registers.)
#[inline(never)]
fn look_among_writes<A: Allocator>(
    words: &Words<A>,
    pass: &mut Pass,
    engine: &mut Engine,
    at: u64,
) -> Looked
    requires own { Owns words.now pass.old }
    requires stands { Stands (view_of pass.old) engine.old }
    ensures { LooksSo words.now pass.old engine.old (Call.Read ReadHint.R Width.U8 at) result pass.new engine.new }
{
    look_here(words, pass, engine, at)
}

/// The same, in line.
#[inline(always)]
fn look_here<A: Allocator>(
    words: &Words<A>,
    pass: &mut Pass,
    engine: &mut Engine,
    at: u64,
) -> Looked
    requires own { Owns words.now pass.old }
    requires stands { Stands (view_of pass.old) engine.old }
    ensures { LooksSo words.now pass.old engine.old (Call.Read ReadHint.R Width.U8 at) result pass.new engine.new }
{
    match engine.word_to_read(Width::U8, at) {
        Some(word) => look_at_once(words, pass, engine, at, word),
        None => look_further(words, pass, engine, at),
    }
}

/// The same, where the log has room: the engine is told of the whole read, once its steps are done.
#[inline(always)]
fn look_at_once<A: Allocator>(
    words: &Words<A>,
    pass: &mut Pass,
    engine: &mut Engine,
    at: u64,
    word: u32,
) -> Looked
    requires own { Owns words.now pass.old }
    requires stands { Stands (view_of pass.old) engine.old }
    requires reads { ReadsAtOnce engine.old Width.U8 at word }
    ensures { LooksSo words.now pass.old engine.old (Call.Read ReadHint.R Width.U8 at) result pass.new engine.new }
{
    let value = words.step(pass, Step::Load(word + 1));
    let clock = words.step(pass, Step::Load(0));
    if clock != engine.snapshot() {
        engine.ask_word(ReadHint::R, Width::U8, at);
        engine.load_fast(value);
        return Looked::Moved(clock);
    }
    engine.read_at_once(word, value);
    Looked::Number(value)
}

/// The same, where the log may have no room, or the word is to be had with no step.
#[inline(never)]
fn look_further<A: Allocator>(
    words: &Words<A>,
    pass: &mut Pass,
    engine: &mut Engine,
    at: u64,
) -> Looked
    requires own { Owns words.now pass.old }
    requires stands { Stands (view_of pass.old) engine.old }
    ensures { LooksSo words.now pass.old engine.old (Call.Read ReadHint.R Width.U8 at) result pass.new engine.new }
{
    if let Some(word) = engine.read_fast(ReadHint::R, Width::U8, at) {
        return match load_both(words, pass, engine, word) {
            Ok(number) => Looked::Number(number),
            Err(clock) => Looked::Moved(clock),
        };
    }
    match engine.read_known(ReadHint::R, Width::U8, at) {
        Some(number) => Looked::Number(number),
        None => Looked::Nothing,
    }
}

/// Does the steps of a read that waits for its word: loads it, and the clock to confirm it. The number; or what the clock is, where
/// that is not the snapshot.
#[inline(always)]
fn load_both<A: Allocator>(
    words: &Words<A>,
    pass: &mut Pass,
    engine: &mut Engine,
    word: u32,
) -> Result<u64, u64>
    requires own { Owns words.now pass.old }
    requires loads { LoadsWord engine.old word }
    requires due { (s : Start) × InCall s (view_of pass.old) engine.old (Step.Load (word + 1)) }
    ensures number { IfOk result (λ n. Finishes words.now (view_of pass.old) engine.old (Asks (Step.Load (word + 1))) (Answer.Reply (Reply.Bytes (record { items = bytes_of_number n }))) pass.new engine.new) }
    ensures moved { IfErr result (λ clock. (f : Finds words.now (view_of pass.old) engine.old (Asks (Step.Load (word + 1))) clock pass.new engine.new) × (f.step ≡ Step.Load 0)) }
    ensures other { IfErr result (λ clock. clock ≢ engine.old.snapshot) }
{
    let value = words.step(pass, Step::Load(word + 1));
    let clock = words.step(pass, Step::Load(0));
    if clock != engine.snapshot() {
        engine.load_fast(value);
        return Err(clock);
    }
    Ok(engine.confirm_number(word, value, clock))
}

/// A number is written. Whether it was: else nothing is done.
#[inline(never)]
pub(crate) fn put(engine: &mut Engine, at: u64, value: u64) -> bool
    requires idle { engine.old.waits ≡ None }
    ensures none { result ≡ false → engine.new ≡ engine.old }
    ensures called { result ≡ true → IsCalled engine.old (Call.Write WriteHint.W at (number value)) false (Answers (Answer.Reply Reply.Done)) engine.new }
{
    let datum = datum_of(value);
    if !engine.serves_write(at, &datum) {
        return false;
    }
    if engine.write_next(WriteHint::W, at, &datum) {
        return true;
    }
    put_found(engine, at, value)
}

/// The same of a write that is served, where the word is looked for.
#[inline(never)]
fn put_found(engine: &mut Engine, at: u64, value: u64) -> bool
    requires idle { engine.old.waits ≡ None }
    requires serves { ServesWrite engine.old at (number value) }
    ensures none { result ≡ false → engine.new ≡ engine.old }
    ensures called { result ≡ true → IsCalled engine.old (Call.Write WriteHint.W at (number value)) false (Answers (Answer.Reply Reply.Done)) engine.new }
{
    let datum = datum_of(value);
    if engine.write_found(WriteHint::W, at, &datum) {
        return true;
    }
    put_afar(engine, at, value)
}

/// The same, where the word is looked for, or memory is taken. (Apart, as `look_among_writes`.)
#[inline(never)]
fn put_afar(engine: &mut Engine, at: u64, value: u64) -> bool
    requires idle { engine.old.waits ≡ None }
    requires serves { ServesWrite engine.old at (number value) }
    ensures none { result ≡ false → engine.new ≡ engine.old }
    ensures called { result ≡ true → IsCalled engine.old (Call.Write WriteHint.W at (number value)) false (Answers (Answer.Reply Reply.Done)) engine.new }
{
    let datum = datum_of(value);
    engine.write_word(WriteHint::W, at, &datum)
}
