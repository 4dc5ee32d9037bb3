//! Copies and fills.

ghost use Rattle.std.specs.Prelude.{◌≡◌, ◌&&◌, false, nat_lt, IsTrue, IsOk, OnOk, OnErr, None, replicate};
ghost use Rattle.itm_model.specs.Undoable.{copies_shared};
ghost use Rattle.itm_types.specs.Slices.{slice};
ghost use Rattle.itm_model.specs.Machine.{copied, copy_ranges, saved_in_arena, written};
ghost use Rattle.itm_model.specs.Places.{in_range};

use super::Plain;
use crate::bytes::{fill, move_within, range_at, replace};
use crate::pieces::{innermost_at, keep_pieces};
use itm_types::{CopyPair, Copying};
use std::alloc::AllocError;

impl Plain {
    /// Bytes are copied, all of them as before the call.
    pub(super) fn copy(&mut self, copying: &Copying) -> Result<(), AllocError>
        requires { copy_ranges self.old.state copying.now ≡ None }
        ensures ok { OnOk result (self.new.state ≡ copied self.old.state copying.now) }
        ensures before { OnOk result (self.new.before ≡ self.old.before) }
        ensures deepest { self.new.deepest ≡ self.old.deepest }
        ensures none { (copies_shared copying.now.pair && nat_lt 0 copying.now.size) ≡ false → IsOk result }
        ensures err { OnErr result (self.new ≡ self.old) }
    {
        let Copying { to, from, size, .. } = *copying;
        match copying.pair {
            CopyPair::Out(_) => self.copy_out(to, from, size),
            CopyPair::In(_) => {
                self.copy_in(to, from, size);
                Ok(())
            }
            CopyPair::Within(..) => self.copy_within(to, from, size),
        }
    }

    /// Bytes of the arena are copied to shared memory.
    fn copy_out(&mut self, to: u64, from: u64, size: u64) -> Result<(), AllocError>
        requires to { IsTrue (in_range self.old.state.memory to size) }
        requires from { IsTrue (in_range self.old.state.arena from size) }
        ensures ok { OnOk result (self.new.state ≡ written self.old.state to (slice self.old.state.arena from size)) }
        ensures before { OnOk result (self.new.before ≡ self.old.before) }
        ensures deepest { self.new.deepest ≡ self.old.deepest }
        ensures none { size ≡ 0 → IsOk result }
        ensures err { OnErr result (self.new ≡ self.old) }
    {
        let top = innermost_at(&self.marks);
        keep_pieces(
            &self.memory,
            &mut self.journal,
            &mut self.newest,
            top,
            to,
            size,
        )?;
        replace(&mut self.memory, to, range_at(&self.arena, from, size));
        self.wrote = self.wrote || size > 0;
        Ok(())
    }

    /// Bytes of shared memory are copied to the arena.
    fn copy_in(&mut self, to: u64, from: u64, size: u64)
        requires to { IsTrue (in_range self.old.state.arena to size) }
        requires from { IsTrue (in_range self.old.state.memory from size) }
        ensures ok { self.new.state ≡ saved_in_arena self.old.state to (slice self.old.state.memory from size) }
        ensures before { self.new.before ≡ self.old.before }
        ensures deepest { self.new.deepest ≡ self.old.deepest }
    {
        replace(&mut self.arena, to, range_at(&self.memory, from, size));
    }

    /// Bytes are copied within shared memory.
    fn copy_within(&mut self, to: u64, from: u64, size: u64) -> Result<(), AllocError>
        requires to { IsTrue (in_range self.old.state.memory to size) }
        requires from { IsTrue (in_range self.old.state.memory from size) }
        ensures ok { OnOk result (self.new.state ≡ written self.old.state to (slice self.old.state.memory from size)) }
        ensures before { OnOk result (self.new.before ≡ self.old.before) }
        ensures deepest { self.new.deepest ≡ self.old.deepest }
        ensures none { size ≡ 0 → IsOk result }
        ensures err { OnErr result (self.new ≡ self.old) }
    {
        let top = innermost_at(&self.marks);
        keep_pieces(
            &self.memory,
            &mut self.journal,
            &mut self.newest,
            top,
            to,
            size,
        )?;
        move_within(&mut self.memory, to, from, size);
        self.wrote = self.wrote || size > 0;
        Ok(())
    }

    /// Shared bytes are all set to one.
    pub(super) fn fill(&mut self, to: u64, byte: u8, size: u64) -> Result<(), AllocError>
        requires { IsTrue (in_range self.old.state.memory to size) }
        ensures ok { OnOk result (self.new.state ≡ written self.old.state to (replicate size byte)) }
        ensures before { OnOk result (self.new.before ≡ self.old.before) }
        ensures deepest { self.new.deepest ≡ self.old.deepest }
        ensures none { size ≡ 0 → IsOk result }
        ensures err { OnErr result (self.new ≡ self.old) }
    {
        let top = innermost_at(&self.marks);
        keep_pieces(
            &self.memory,
            &mut self.journal,
            &mut self.newest,
            top,
            to,
            size,
        )?;
        fill(&mut self.memory, to, byte, size);
        self.wrote = self.wrote || size > 0;
        Ok(())
    }
}
