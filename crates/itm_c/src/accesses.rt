//! Reads and writes of the words.

ghost use Rattle.std.specs.Prelude.{false};
ghost use Rattle.itm_types.specs.declared.access.Width.{Width};
ghost use Rattle.itm_types.specs.declared.call.Call.{Call};
ghost use Rattle.itm_runtime.specs.Stops.{number};
ghost use Rattle.itm_c.specs.Data.{number_of_1, number_of_2, number_of_4, within};
ghost use Rattle.itm_c.specs.Kept.{IsThread};
ghost use Rattle.itm_c.specs.Told.{Tells, TellsRead};

use crate::handle::Handle;
use crate::kept::Kept;
use crate::number::Number;
use itm_types::{Call, CopyPair, Copying, SharedSide, Width, WriteHint};

/// Reads 8 bytes.
#[unsafe(no_mangle)]
pub extern "C" fn itm_c_read8(thread: &mut Handle, at: u64) -> Number
    requires thread { IsThread thread.old.kept }
    ensures thread { IsThread thread.new.kept }
    ensures told { TellsRead thread.old.kept Width.U8 at result thread.new.kept }
{
    match thread.kept_mut() {
        Kept::Client(client) => client.read8(at),
        _ => unreachable!(),
    }
}

/// Reads 4 bytes.
#[unsafe(no_mangle)]
pub extern "C" fn itm_c_read4(thread: &mut Handle, at: u64) -> Number
    requires thread { IsThread thread.old.kept }
    ensures thread { IsThread thread.new.kept }
    ensures told { TellsRead thread.old.kept Width.U4 at result thread.new.kept }
{
    match thread.kept_mut() {
        Kept::Client(client) => client.read(Width::U4, at),
        _ => unreachable!(),
    }
}

/// Reads 2 bytes.
#[unsafe(no_mangle)]
pub extern "C" fn itm_c_read2(thread: &mut Handle, at: u64) -> Number
    requires thread { IsThread thread.old.kept }
    ensures thread { IsThread thread.new.kept }
    ensures told { TellsRead thread.old.kept Width.U2 at result thread.new.kept }
{
    match thread.kept_mut() {
        Kept::Client(client) => client.read(Width::U2, at),
        _ => unreachable!(),
    }
}

/// Reads a byte.
#[unsafe(no_mangle)]
pub extern "C" fn itm_c_read1(thread: &mut Handle, at: u64) -> Number
    requires thread { IsThread thread.old.kept }
    ensures thread { IsThread thread.new.kept }
    ensures told { TellsRead thread.old.kept Width.U1 at result thread.new.kept }
{
    match thread.kept_mut() {
        Kept::Client(client) => client.read(Width::U1, at),
        _ => unreachable!(),
    }
}

/// Writes 8 bytes.
#[unsafe(no_mangle)]
pub extern "C" fn itm_c_write8(thread: &mut Handle, at: u64, value: u64) -> u32
    requires thread { IsThread thread.old.kept }
    ensures thread { IsThread thread.new.kept }
    ensures told { Tells thread.old.kept (Call.Write WriteHint.W at (number value)) false result thread.new.kept }
{
    match thread.kept_mut() {
        Kept::Client(client) => client.write8(at, value),
        _ => unreachable!(),
    }
}

/// Writes 4 bytes.
#[unsafe(no_mangle)]
pub extern "C" fn itm_c_write4(thread: &mut Handle, at: u64, value: u32) -> u32
    requires thread { IsThread thread.old.kept }
    ensures thread { IsThread thread.new.kept }
    ensures told { Tells thread.old.kept (Call.Write WriteHint.W at (number_of_4 value)) false result thread.new.kept }
{
    match thread.kept_mut() {
        Kept::Client(client) => client.write4(at, value),
        _ => unreachable!(),
    }
}

/// Writes 2 bytes.
#[unsafe(no_mangle)]
pub extern "C" fn itm_c_write2(thread: &mut Handle, at: u64, value: u16) -> u32
    requires thread { IsThread thread.old.kept }
    ensures thread { IsThread thread.new.kept }
    ensures told { Tells thread.old.kept (Call.Write WriteHint.W at (number_of_2 value)) false result thread.new.kept }
{
    match thread.kept_mut() {
        Kept::Client(client) => client.write2(at, value),
        _ => unreachable!(),
    }
}

/// Writes a byte.
#[unsafe(no_mangle)]
pub extern "C" fn itm_c_write1(thread: &mut Handle, at: u64, value: u8) -> u32
    requires thread { IsThread thread.old.kept }
    ensures thread { IsThread thread.new.kept }
    ensures told { Tells thread.old.kept (Call.Write WriteHint.W at (number_of_1 value)) false result thread.new.kept }
{
    match thread.kept_mut() {
        Kept::Client(client) => client.write1(at, value),
        _ => unreachable!(),
    }
}

/// Copies bytes of the words to others.
#[unsafe(no_mangle)]
pub extern "C" fn itm_c_copy(thread: &mut Handle, to: u64, from: u64, size: u64, moves: bool) -> u32
    requires thread { IsThread thread.old.kept }
    ensures thread { IsThread thread.new.kept }
    ensures told { Tells thread.old.kept (Call.Copy (within moves to from size)) false result thread.new.kept }
{
    let copying = Copying {
        moves,
        pair: CopyPair::Within(SharedSide::T, SharedSide::T),
        to,
        from,
        size,
    };
    match thread.kept_mut() {
        Kept::Client(client) => client.call(&Call::Copy(copying)),
        _ => unreachable!(),
    }
}

/// Sets bytes of the words.
#[unsafe(no_mangle)]
pub extern "C" fn itm_c_fill(thread: &mut Handle, to: u64, byte: u64, size: u64) -> u32
    requires thread { IsThread thread.old.kept }
    ensures thread { IsThread thread.new.kept }
    ensures told { Tells thread.old.kept (Call.Fill WriteHint.W to byte size) false result thread.new.kept }
{
    let fill = Call::Fill {
        hint: WriteHint::W,
        to,
        byte,
        size,
    };
    match thread.kept_mut() {
        Kept::Client(client) => client.call(&fill),
        _ => unreachable!(),
    }
}
