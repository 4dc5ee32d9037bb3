//! The plain machine.

ghost use Rattle.std.specs.Prelude.{◌≡◌, ◌≤◌, ◌-◌, ◌%◌, ◌&&◌, if◌then◌else◌, false, true, IsTrue, IsOk, IfOk, OnOk, OnErr, None, [], length};
ghost use Rattle.itm_model.specs.Machine.{after, answer, back, closed, effect, entered, is_open, logged, opened, outside, refusal, reply, saved_in_arena, undone, written};
ghost use Rattle.itm_model.specs.Places.{in_range};
ghost use Rattle.itm_model.specs.Undoable.{before_after, before_next, takes_memory};

use crate::bytes::{WIDEST, replace, value_at};
use crate::journal::{Mark, Old, keep, unwind};
use crate::limits::WORD;
use crate::pieces::{forget, hand_on, innermost_at, keep_pieces};
use itm_types::{
    ActionKind, CANCELLED, Call, Datum, Depth, ENTERED, MAX_ARENA, MAX_MEMORY, Props, Refusal,
    Reply, Width,
};
use std::alloc::{AllocError, Global};
use std::marker::Model;
use user_actions::{ActionMark, UserActions};

/// A transaction alone on its bytes. It keeps what it overwrote of the memory and what its logs found, so
/// that a begin copies nothing and a rollback costs what was written and logged.
#[derive(Debug, Drop)]
pub struct Plain {
    memory: Vec<u8>,
    arena: Vec<u8>,
    /// The pieces that were overwritten since the last outermost begin, oldest first, and each at most once for a block.
    journal: Vec<Old>,
    /// Of each piece of the memory: how many entries the journal has up to the newest one of it, or 0.
    newest: Vec<usize>,
    /// What was logged of the arena since the last outermost begin, oldest first.
    logs: Vec<Old>,
    /// The open blocks, innermost last.
    marks: Vec<Mark>,
    actions: UserActions,
    wrote: bool,
    /// No open block goes back any more.
    irrevocable: bool,
    /// How many blocks may be open at once.
    deepest: Depth,
}

impl Model for Plain {
    ghost use Rattle.itm_model.specs.Undoable.{Undoable};

    ghost Value = { Undoable };

    ghost use Rattle.std.specs.Prelude.{length};
    ghost use Rattle.itm_model.specs.Undoing.{put_back, blocks_of, IsSound};

    ghost view = { λ p. record {
      state = record {
        memory = p.memory.items;
        arena = p.arena.items;
        blocks = blocks_of p.irrevocable p.journal.items p.memory.items p.arena.items p.logs.items p.marks.items;
        actions = p.actions.actions;
        wrote = p.wrote;
        irrevocable = p.irrevocable;
      };
      before = put_back p.journal.items p.memory.items;
      kept = length p.journal.items;
      deepest = p.deepest.blocks;
    } };

    ghost invariant = { λ p. IsSound p.memory.items p.journal.items p.newest.items p.arena.items p.logs.items p.marks.items };
}

impl Plain {
    /// A transaction whose outermost block has just begun on these bytes (Intel TM ABI 1.1, section 5.7). At most
    /// `deepest` of its blocks are open at once.
    pub fn new(
        alloc: Global,
        bytes: &[u8],
        arena: &[u8],
        deepest: Depth,
        props: Props,
    ) -> Result<Plain, AllocError>
        requires some { WORD ≤ length bytes.now }
        requires room { length bytes.now ≤ MAX_MEMORY }
        requires words { length bytes.now % WORD ≡ 0 }
        requires arena { length arena.now ≤ MAX_ARENA }
        requires props { (props.goes_irrevocable && props.no_irrevocable) ≡ false }
        ensures state { IfOk result (λ p. p.state ≡ opened bytes.now arena.now props) }
        ensures before { IfOk result (λ p. p.before ≡ bytes.now) }
        ensures deepest { IfOk result (λ p. p.deepest ≡ deepest.blocks) }
    {
        let mut newest = Vec::new(alloc);
        newest.resize(bytes.len().div_ceil(WIDEST), 0)?;
        let mut plain = Plain {
            memory: bytes.to_vec(alloc)?,
            arena: arena.to_vec(alloc)?,
            journal: Vec::new(alloc),
            newest,
            logs: Vec::new(alloc),
            marks: Vec::new(alloc),
            actions: UserActions::new(alloc),
            wrote: false,
            irrevocable: false,
            deepest,
        };
        plain.enter(props)?;
        Ok(plain)
    }

    /// Makes one call. A refused call changes nothing, and an outermost begin starts anew on the bytes
    /// that are there. It costs what it touches, a begin a mark, and a commit what its block keeps.
    pub fn one(&mut self, call: &Call) -> Result<Reply, AllocError>
        ensures reply { IfOk result (λ r. r ≡ reply self.old.deepest self.old.state call.now) }
        ensures after { OnOk result (self.new.state ≡ after self.old.deepest self.old.state call.now) }
        ensures before { OnOk result (self.new.before ≡ before_after self.old.deepest self.old call.now) }
        ensures deepest { self.new.deepest ≡ self.old.deepest }

        // Memory is refused only to a call that would be accepted: a begin, a write, a registration, or a log, a fill or a copy to shared memory of some bytes; to no log and no undo action of an irrevocable transaction.
        ensures only_some { OnErr result (IsTrue (takes_memory self.old.state call.now)) }
        ensures only_accepted { OnErr result (refusal self.old.deepest self.old.state call.now ≡ None) }
        ensures err { OnErr result (self.new ≡ self.old) }
    {
        match self.refusal(call) {
            Some(refusal) => Ok(Reply::Refused(refusal)),
            None => self.accept(call),
        }
    }

    /// Rolls the innermost block back, if one is open: the undo actions that were registered in it run. In an
    /// irrevocable transaction it does nothing.
    pub fn back(&mut self)
        ensures back { self.new.state ≡ back self.old.state }
        ensures before { self.new.before ≡ self.old.before }
        ensures fewer { self.old.state.irrevocable ≡ false
            → length self.new.state.blocks ≡ length self.old.state.blocks - 1 }
        ensures deepest { self.new.deepest ≡ self.old.deepest }
    {
        if self.irrevocable {
            return;
        }
        if let Some(mark) = self.marks.pop() {
            forget(&self.journal, &mut self.newest, mark.at);
            unwind(&mut self.memory, &mut self.journal, mark.at);
            unwind(&mut self.arena, &mut self.logs, mark.logs);
            self.actions.roll_back(mark.actions);
            self.wrote = mark.wrote;
        }
    }

    /// Rolls every open block back. In an irrevocable transaction it does nothing.
    pub fn back_all(&mut self)
        ensures undone { self.new.state ≡ undone self.old.state }
        ensures before { self.new.before ≡ self.old.before }
        ensures deepest { self.new.deepest ≡ self.old.deepest }
    {
        if self.irrevocable {
            return;
        }
        while self.depth() > 0 {
            self.back();
        }
    }

    /// Puts back all that was written since the last outermost begin, after its commit too, and leaves
    /// no block open and no action. The arena stays.
    pub fn take_back(&mut self)
        ensures state { self.new.state ≡ outside self.old.before self.old.state.arena }
        ensures before { self.new.before ≡ self.old.before }
        ensures deepest { self.new.deepest ≡ self.old.deepest }
    {
        forget(&self.journal, &mut self.newest, 0);
        unwind(&mut self.memory, &mut self.journal, 0);
        self.marks.clear();
        self.actions.clear();
        self.wrote = false;
        self.irrevocable = false;
    }

    /// Begins another transaction, on the bytes that the last one left and with no action. What is still open is
    /// dropped with what it wrote in place.
    pub fn again(&mut self, props: Props) -> Result<(), AllocError>
        requires { (props.goes_irrevocable && props.no_irrevocable) ≡ false }
        ensures state { OnOk result (self.new.state ≡ opened self.old.state.memory self.old.state.arena props) }
        ensures before { OnOk result (self.new.before ≡ self.old.state.memory) }
        ensures deepest { self.new.deepest ≡ self.old.deepest }
        ensures err { OnErr result (self.new ≡ self.old) }
    {
        self.marks.reserve(1)?;
        self.marks.clear();
        self.marks.push_reserved(Mark {
            props,
            at: 0,
            logs: 0,
            actions: ActionMark::default(),
            wrote: false,
        });
        forget(&self.journal, &mut self.newest, 0);
        self.journal.clear();
        self.logs.clear();
        self.actions.clear();
        self.wrote = false;
        self.irrevocable = false;
        if props.goes_irrevocable {
            self.go_irrevocable();
        }
        Ok(())
    }

    /// The effect and the answer of a call that is not refused.
    fn accept(&mut self, call: &Call) -> Result<Reply, AllocError>
        requires { refusal self.old.deepest self.old.state call.now ≡ None }
        ensures answer { IfOk result (λ r. r ≡ answer self.old.state call.now) }
        ensures effect { OnOk result (self.new.state ≡ effect self.old.state call.now) }
        ensures before { OnOk result (self.new.before ≡ before_next self.old call.now) }
        ensures deepest { self.new.deepest ≡ self.old.deepest }
        ensures only_some { OnErr result (IsTrue (takes_memory self.old.state call.now)) }
        ensures err { OnErr result (self.new ≡ self.old) }
    {
        match call {
            Call::Begin { props, .. } => {
                self.enter(*props)?;
                Ok(Reply::Code(ENTERED))
            }
            Call::Commit => {
                self.close();
                Ok(Reply::Done)
            }
            Call::Abort { outer } => {
                self.cancel(*outer);
                Ok(Reply::Code(CANCELLED))
            }
            Call::Mode { .. } => {
                self.go_irrevocable();
                Ok(Reply::Done)
            }
            Call::InTransaction => Ok(Reply::Code(self.mode())),
            Call::Read { width, at, .. } => Ok(Reply::Bytes(value_at(&self.memory, *at, *width))),
            Call::Write { at, value, .. } => {
                self.write(*at, value)?;
                Ok(Reply::Done)
            }
            Call::Log { width, at } => {
                self.log(*at, u64::from(width.size()))?;
                Ok(Reply::Done)
            }
            Call::LogBytes { at, size } => {
                self.log(*at, *size)?;
                Ok(Reply::Done)
            }
            Call::Copy(copying) => {
                self.copy(copying)?;
                Ok(Reply::Done)
            }
            Call::Fill { to, byte, size, .. } => {
                self.fill(*to, (*byte % 256) as u8, *size)?;
                Ok(Reply::Done)
            }
            Call::CommitAction(action) => {
                self.register(ActionKind::Commit, *action)?;
                Ok(Reply::Done)
            }
            Call::UndoAction(action) => {
                self.register_undo(*action)?;
                Ok(Reply::Done)
            }
            Call::Load { width, at } => Ok(Reply::Bytes(value_at(&self.arena, *at, *width))),
            Call::Save { at, value } => {
                self.save(*at, value);
                Ok(Reply::Done)
            }
        }
    }

    /// A block opens. An outermost one has written nothing yet, and what stands is what it began on.
    fn enter(&mut self, props: Props) -> Result<(), AllocError>
        requires { (props.goes_irrevocable && props.no_irrevocable) ≡ false }
        ensures inner { IsTrue (is_open self.old.state) → OnOk result (self.new.state ≡ entered self.old.state props) }
        ensures outermost { self.old.state.blocks ≡ []
            → OnOk result (self.new.state ≡ opened self.old.state.memory self.old.state.arena props) }
        ensures before { OnOk result
            (self.new.before ≡ (if is_open self.old.state then self.old.before else self.old.state.memory)) }
        ensures deepest { self.new.deepest ≡ self.old.deepest }
        ensures err { OnErr result (self.new ≡ self.old) }
    {
        if self.marks.is_empty() {
            return self.again(props);
        }
        self.marks.push(Mark {
            props,
            at: self.journal.len(),
            logs: self.logs.len(),
            actions: self.actions.mark(),
            wrote: self.wrote,
        })?;
        if props.goes_irrevocable {
            self.go_irrevocable();
        }
        Ok(())
    }

    /// The innermost block closes. With the outermost one the commit actions run, and the transaction is irrevocable no
    /// more.
    fn close(&mut self)
        ensures closed { self.new.state ≡ closed self.old.state }
        ensures before { self.new.before ≡ self.old.before }
        ensures deepest { self.new.deepest ≡ self.old.deepest }
    {
        let Some(closed) = self.marks.pop() else {
            return;
        };
        let top = innermost_at(&self.marks);
        hand_on(&mut self.journal, &mut self.newest, top, closed.at);
        if self.marks.is_empty() {
            self.actions.run_commits();
            self.irrevocable = false;
        }
    }

    /// The innermost block is cancelled, or with `outer` all that are open.
    fn cancel(&mut self, outer: bool)
        ensures effect { self.new.state ≡ (if outer then undone self.old.state else back self.old.state) }
        ensures before { self.new.before ≡ self.old.before }
        ensures deepest { self.new.deepest ≡ self.old.deepest }
    {
        if outer {
            self.back_all();
        } else {
            self.back();
        }
    }

    /// Shared bytes are replaced.
    fn write(&mut self, place: u64, value: &Datum) -> Result<(), AllocError>
        requires { IsTrue (in_range self.old.state.memory place (length value.now.bytes.items)) }
        ensures ok { OnOk result (self.new.state ≡ written self.old.state place value.now.bytes.items) }
        ensures before { OnOk result (self.new.before ≡ self.old.before) }
        ensures deepest { self.new.deepest ≡ self.old.deepest }
        ensures err { OnErr result (self.new ≡ self.old) }
    {
        let size = value.bytes.len() as u64;
        let top = innermost_at(&self.marks);
        keep_pieces(
            &self.memory,
            &mut self.journal,
            &mut self.newest,
            top,
            place,
            size,
        )?;
        replace(&mut self.memory, place, &value.bytes);
        self.wrote = self.wrote || size > 0;
        Ok(())
    }

    /// Bytes of the arena are kept, unless nothing goes back any more.
    fn log(&mut self, place: u64, size: u64) -> Result<(), AllocError>
        requires { IsTrue (in_range self.old.state.arena place size) }
        ensures ok { OnOk result (self.new.state ≡ logged self.old.state place size) }
        ensures before { OnOk result (self.new.before ≡ self.old.before) }
        ensures deepest { self.new.deepest ≡ self.old.deepest }
        ensures none { size ≡ 0 → IsOk result }
        ensures held { self.old.state.irrevocable ≡ true → IsOk result }
        ensures err { OnErr result (self.new ≡ self.old) }
    {
        if self.irrevocable {
            return Ok(());
        }
        keep(&self.arena, &mut self.logs, place, size)?;
        Ok(())
    }

    /// Bytes of the arena are replaced.
    fn save(&mut self, place: u64, value: &Datum)
        requires { IsTrue (in_range self.old.state.arena place (length value.now.bytes.items)) }
        ensures ok { self.new.state ≡ saved_in_arena self.old.state place value.now.bytes.items }
        ensures before { self.new.before ≡ self.old.before }
        ensures deepest { self.new.deepest ≡ self.old.deepest }
    {
        replace(&mut self.arena, place, &value.bytes);
    }
}

mod actions;
mod bases;
mod copies;
mod irrevocable;
mod kept;
mod refusals;
mod seen;
