//! Values of other widths than that of a word.

ghost use Rattle.std.specs.Prelude.{◌≡◌, ◌∷◌, [], Some, Ok, false, length, IfOk};
ghost use Rattle.std.specs.Int.{to_le_bytes, w16, w32};
ghost use Rattle.itm_types.specs.Access.{size_of};
ghost use Rattle.itm_types.specs.declared.call.Call.{Call};
ghost use Rattle.itm_types.specs.declared.access.ReadHint.{ReadHint};
ghost use Rattle.itm_types.specs.declared.access.WriteHint.{WriteHint};
ghost use Rattle.itm_types.specs.declared.access.Width.{Width};
ghost use Rattle.call_rules.specs.CallResults.{Tells};
ghost use Rattle.itm_runtime.specs.Stops.{answer_to_write};
ghost use Rattle.transactions.specs.Widths.{HasValue, answer_as, number_16, number_32, number_8};

use crate::transaction::Transaction;
use itm_runtime::Stop;
use itm_types::{Datum, ReadHint, Reply, Value, Width};
use norec_core::Answer;

/// The bytes that an answer has.
fn value_in(answer: Answer, width: Width) -> Value
    requires { HasValue width answer }
    ensures told { answer_as (λ value. value.items) (Ok result) ≡ Some answer }
    ensures sized { length result.items ≡ size_of width }
{
    match answer {
        Answer::Reply(Reply::Bytes(value)) => value,
        _ => unreachable!(),
    }
}

/// The byte that stands alone.
fn byte_of(bytes: &[u8]) -> u8
    requires { length bytes.now ≡ 1 }
    ensures { result ∷ [] ≡ bytes.now }
{
    bytes[0]
}

/// The number of 2 bytes, the low one first.
fn half_of(bytes: &[u8]) -> u16
    requires { length bytes.now ≡ 2 }
    ensures { to_le_bytes w16 result ≡ bytes.now }
{
    let mut half = [0u8; 2];
    half.copy_from_slice(bytes);
    u16::from_le_bytes(half)
}

/// The number of 4 bytes, the low one first.
fn word_of(bytes: &[u8]) -> u32
    requires { length bytes.now ≡ 4 }
    ensures { to_le_bytes w32 result ≡ bytes.now }
{
    let mut word = [0u8; 4];
    word.copy_from_slice(bytes);
    u32::from_le_bytes(word)
}

impl Transaction {
    ghost use Rattle.transactions.specs.Blocks.{StaysWithin};
    ghost use Rattle.transactions.specs.Lent.{IsKept};

    /// Reads the bytes of a value of this width, in memory order.
    pub fn read(&mut self, width: Width, at: u64) -> Result<Value, Stop>
        ensures tells { Tells self.old.words self.old.thread (Call.Read ReadHint.R width at) (answer_as (λ value. value.items) result) self.new.thread }
        ensures sized { IfOk result (λ value. length value.items ≡ size_of width) }
        ensures kept { IsKept self.old self.new }
        ensures within { StaysWithin self.old self.new }
    {
        let answer = self.thread.read(&*self.words, ReadHint::R, width, at)?;
        let checked = Stop::check(answer)?;
        Ok(value_in(checked, width))
    }

    /// Writes the bytes of a value.
    pub fn write(&mut self, at: u64, value: &Datum) -> Result<(), Stop>
        ensures tells { Tells self.old.words self.old.thread (Call.Write WriteHint.W at value.now) (answer_to_write result) self.new.thread }
        ensures kept { IsKept self.old self.new }
        ensures within { StaysWithin self.old self.new }
    {
        self.thread.write_value(&*self.words, at, value)
    }

    /// Reads a byte.
    pub fn read_u8(&mut self, at: u64) -> Result<u8, Stop>
        ensures tells { Tells self.old.words self.old.thread (Call.Read ReadHint.R Width.U1 at) (answer_as (λ n. n ∷ []) result) self.new.thread }
        ensures kept { IsKept self.old self.new }
        ensures within { StaysWithin self.old self.new }
    {
        let value = self.read(Width::U1, at)?;
        Ok(byte_of(value.as_slice()))
    }

    /// Reads the number of 2 bytes, the low one first.
    pub fn read_u16(&mut self, at: u64) -> Result<u16, Stop>
        ensures tells { Tells self.old.words self.old.thread (Call.Read ReadHint.R Width.U2 at) (answer_as (to_le_bytes w16) result) self.new.thread }
        ensures kept { IsKept self.old self.new }
        ensures within { StaysWithin self.old self.new }
    {
        let value = self.read(Width::U2, at)?;
        Ok(half_of(value.as_slice()))
    }

    /// Reads the number of 4 bytes, the low one first.
    pub fn read_u32(&mut self, at: u64) -> Result<u32, Stop>
        ensures tells { Tells self.old.words self.old.thread (Call.Read ReadHint.R Width.U4 at) (answer_as (to_le_bytes w32) result) self.new.thread }
        ensures kept { IsKept self.old self.new }
        ensures within { StaysWithin self.old self.new }
    {
        let value = self.read(Width::U4, at)?;
        Ok(word_of(value.as_slice()))
    }

    /// Writes a byte.
    pub fn write_u8(&mut self, at: u64, value: u8) -> Result<(), Stop>
        ensures tells { Tells self.old.words self.old.thread (Call.Write WriteHint.W at (number_8 value)) (answer_to_write result) self.new.thread }
        ensures kept { IsKept self.old self.new }
        ensures within { StaysWithin self.old self.new }
    {
        let datum = Datum::new(Width::U1, &[value]);
        self.write(at, &datum)
    }

    /// Writes a number as 2 bytes, the low one first.
    pub fn write_u16(&mut self, at: u64, value: u16) -> Result<(), Stop>
        ensures tells { Tells self.old.words self.old.thread (Call.Write WriteHint.W at (number_16 value)) (answer_to_write result) self.new.thread }
        ensures kept { IsKept self.old self.new }
        ensures within { StaysWithin self.old self.new }
    {
        let datum = Datum::new(Width::U2, &value.to_le_bytes());
        self.write(at, &datum)
    }

    /// Writes a number as 4 bytes, the low one first.
    pub fn write_u32(&mut self, at: u64, value: u32) -> Result<(), Stop>
        ensures tells { Tells self.old.words self.old.thread (Call.Write WriteHint.W at (number_32 value)) (answer_to_write result) self.new.thread }
        ensures kept { IsKept self.old self.new }
        ensures within { StaysWithin self.old self.new }
    {
        let datum = Datum::new(Width::U4, &value.to_le_bytes());
        self.write(at, &datum)
    }
}
