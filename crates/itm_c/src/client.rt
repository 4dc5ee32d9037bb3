//! A thread of C's, with the words that it shares.

ghost use Rattle.std.specs.Prelude.{◌≡◌, false};
ghost use Rattle.itm_types.specs.declared.call.Call.{Call};

use crate::code::{DONE, told, told_if, told_stop};
use crate::datum::{datum_of_1, datum_of_2, datum_of_4};
use crate::number::{Number, number_of, read_number};
use itm_runtime::Thread;
use itm_types::{Call, Datum, Props, ReadHint, Reply, Width, WriteHint};
use norec_core::Answer;
use shared_words::Words;
use std::sync::Arc;
use std_alloc::vec::Lodged;

/// A thread over words that it shares with others.
#[derive(Drop)]
pub struct Client {
    pub(crate) words: Arc<Words<Lodged>>,
    pub(crate) thread: Thread,
}

impl Client {
    ghost use Rattle.itm_runtime.specs.Stops.{number};
    ghost use Rattle.itm_c.specs.Data.{number_of_1, number_of_2, number_of_4};
    ghost use Rattle.itm_c.specs.Kept.{IsTied};
    ghost use Rattle.itm_c.specs.Told.{Answered, ReadTold, Told};

    /// Begins a block.
    #[inline(always)]
    pub fn begin(&mut self, props: Props, again: bool) -> u32
        requires tied { IsTied self.old }
        ensures tied { IsTied self.new }
        ensures told { Told self.old (Call.Begin props 0) again result self.new }
    {
        told_if(self.thread.begin(&*self.words, props, 0, again))
    }

    /// Ends the innermost block.
    #[inline(always)]
    pub fn commit(&mut self) -> u32
        requires tied { IsTied self.old }
        ensures tied { IsTied self.new }
        ensures answered { Answered self.old Call.Commit result self.new }
    {
        told(self.thread.commit(&*self.words))
    }

    /// Its transaction is irrevocable: the clock is held, from call to call.
    #[inline(always)]
    pub fn holds_clock(&self) -> bool
        ensures { result ≡ self.now.thread.engine.irrevocable }
    {
        self.thread.is_irrevocable()
    }

    /// Cancels the innermost block, or with `outer` all.
    #[inline(always)]
    pub fn cancel(&mut self, outer: bool) -> u32
        requires tied { IsTied self.old }
        ensures tied { IsTied self.new }
        ensures answered { Answered self.old (Call.Abort outer) result self.new }
    {
        told(self.thread.cancel(&*self.words, outer))
    }

    /// Any other call but a read.
    #[inline(always)]
    pub fn call(&mut self, call: &Call) -> u32
        requires tied { IsTied self.old }
        ensures tied { IsTied self.new }
        ensures told { Told self.old call.now false result self.new }
    {
        told_if(self.thread.call(&*self.words, call))
    }

    /// Reads the number of 8 bytes.
    #[inline(always)]
    pub fn read8(&mut self, at: u64) -> Number
        requires tied { IsTied self.old }
        ensures tied { IsTied self.new }
        ensures told { ReadTold self.old Width.U8 at result self.new }
    {
        match self.thread.read_u64(&*self.words, at) {
            Ok(value) => read_number(value),
            Err(stop) => Number {
                value: 0,
                code: told_stop(stop),
            },
        }
    }

    /// Writes the number of 8 bytes.
    #[inline(always)]
    pub fn write8(&mut self, at: u64, value: u64) -> u32
        requires tied { IsTied self.old }
        ensures tied { IsTied self.new }
        ensures told { Told self.old (Call.Write WriteHint.W at (number value)) false result self.new }
    {
        match self.thread.write_u64(&*self.words, at, value) {
            Ok(()) => DONE,
            Err(stop) => told_stop(stop),
        }
    }

    /// Writes the number in 4 bytes.
    #[inline(always)]
    pub fn write4(&mut self, at: u64, value: u32) -> u32
        requires tied { IsTied self.old }
        ensures tied { IsTied self.new }
        ensures told { Told self.old (Call.Write WriteHint.W at (number_of_4 value)) false result self.new }
    {
        let value = datum_of_4(value);
        self.write(at, &value)
    }

    /// Writes the number in 2 bytes.
    #[inline(always)]
    pub fn write2(&mut self, at: u64, value: u16) -> u32
        requires tied { IsTied self.old }
        ensures tied { IsTied self.new }
        ensures told { Told self.old (Call.Write WriteHint.W at (number_of_2 value)) false result self.new }
    {
        let value = datum_of_2(value);
        self.write(at, &value)
    }

    /// Writes the number in a byte.
    #[inline(always)]
    pub fn write1(&mut self, at: u64, value: u8) -> u32
        requires tied { IsTied self.old }
        ensures tied { IsTied self.new }
        ensures told { Told self.old (Call.Write WriteHint.W at (number_of_1 value)) false result self.new }
    {
        let value = datum_of_1(value);
        self.write(at, &value)
    }

    /// Writes a value.
    #[inline(always)]
    fn write(&mut self, at: u64, value: &Datum) -> u32
        requires tied { IsTied self.old }
        ensures tied { IsTied self.new }
        ensures told { Told self.old (Call.Write WriteHint.W at value.now) false result self.new }
    {
        match self.thread.write_value(&*self.words, at, value) {
            Ok(()) => DONE,
            Err(stop) => told_stop(stop),
        }
    }

    /// Reads a value of at most 8 bytes.
    #[inline(always)]
    pub fn read(&mut self, width: Width, at: u64) -> Number
        requires tied { IsTied self.old }
        ensures tied { IsTied self.new }
        ensures told { ReadTold self.old width at result self.new }
    {
        match self.thread.read(&*self.words, ReadHint::R, width, at) {
            Ok(Answer::Reply(Reply::Bytes(bytes))) => read_number(number_of(bytes.as_slice())),
            answer => Number {
                value: 0,
                code: told_if(answer),
            },
        }
    }
}
