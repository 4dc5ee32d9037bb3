//! Blocks that are rolled back.

ghost use Rattle.std.specs.Prelude.{◌≡◌, ◌<◌, [], length, drop};
ghost use Rattle.write_set.specs.Marks.{unwritten};
ghost use Rattle.nest_frames.specs.Nest.{renewed, arena_back, arena_restored, actions_back, RollsBack};

use crate::frames::Frames;
use undo_log::Arena;

impl Frames {
    /// The innermost block is rolled back and gone: its undo actions run, the last one first, and its commit actions
    /// never do. Takes no memory.
    pub fn cancel(&mut self, arena: &mut Arena)
        requires open { 0 < length self.old.blocks }
        requires arena { length arena.old ≡ self.old.size }
        ensures blocks { self.new.blocks ≡ drop 1 self.old.blocks }
        ensures back { RollsBack self.old self.new arena.old arena.new }
    {
        let Some(cancelled) = self.moments.pop() else {
            unreachable!()
        };
        self.writes.back_to(cancelled.rows);
        self.undo.back_to(arena, cancelled.log);
        self.actions.roll_back(cancelled.actions);
    }

    /// The innermost block, which is not the outermost one, is rolled back and goes on from its begin: its undo actions
    /// run, the last one first, and its commit actions never do. Takes no memory.
    pub fn renew(&mut self, arena: &mut Arena)
        requires open { 1 < length self.old.blocks }
        requires arena { length arena.old ≡ self.old.size }
        ensures blocks { self.new.blocks ≡ renewed self.old.blocks }
        ensures inner { self.new.writes.inner ≡ self.old.writes.inner }
        ensures back { RollsBack self.old self.new arena.old arena.new }
    {
        let Some(begin) = self.moments.as_slice().last() else {
            unreachable!()
        };
        self.writes.renew(&begin.rows);
        self.undo.renew(arena, &begin.log);
        self.actions.roll_back(begin.actions);
    }

    /// Every open block is rolled back, the innermost first. Takes no memory.
    pub fn cancel_all(&mut self, arena: &mut Arena)
        requires { length arena.old ≡ self.old.size }
        ensures none { self.new ≡ record {
          writes = unwritten;
          size = self.old.size;
          depth = self.old.depth;
          blocks = [];
          actions = actions_back self.old.blocks self.old.actions;
          room = self.old.room;
        } }

        // No action is registered any more.
        ensures commits { self.new.actions.commits ≡ [] }
        ensures undos { self.new.actions.undos ≡ [] }
        ensures arena_size { length arena.new ≡ length arena.old }
        ensures arena { arena.new ≡ arena_back self.old.blocks arena.old }
        ensures restored { arena.new ≡ arena_restored self.old.blocks arena.old }
    {
        while self.depth() > 0 {
            self.cancel(arena);
        }
    }
}
