//! Another beginning, beside a copy of the memory that a caller keeps, and another arena.

ghost use Rattle.std.specs.Prelude.{◌≡◌, ◌≤◌, ◌↔◌, ◌&&◌, IsTrue, OnOk, OnErr, length, false};
ghost use Rattle.itm_model.specs.Machine.{opened};

use super::Plain;
use crate::journal::{Mark, is_laid, lay};
use crate::pieces::forget;
use itm_types::{MAX_ARENA, Props};
use std::alloc::{AllocError, Global};
use user_actions::ActionMark;

impl Plain {
    /// Begins another transaction, as `again`, with this arena.
    pub fn again_with(
        &mut self,
        alloc: Global,
        arena: &[u8],
        props: Props,
    ) -> Result<(), AllocError>
        requires arena { length arena.now ≤ MAX_ARENA }
        requires props { (props.goes_irrevocable && props.no_irrevocable) ≡ false }
        ensures state { OnOk result (self.new.state ≡ opened self.old.state.memory arena.now props) }
        ensures before { OnOk result (self.new.before ≡ self.old.state.memory) }
        ensures deepest { self.new.deepest ≡ self.old.deepest }
        ensures err { OnErr result (self.new ≡ self.old) }
    {
        let own = arena.to_vec(alloc)?;
        self.marks.reserve(1)?;
        self.marks.clear();
        self.marks.push_reserved(Mark {
            props,
            at: 0,
            logs: 0,
            actions: ActionMark::default(),
            wrote: false,
        });
        forget(&self.journal, &mut self.newest, 0);
        self.journal.clear();
        self.logs.clear();
        self.arena = own;
        self.actions.clear();
        self.wrote = false;
        self.irrevocable = false;
        if props.goes_irrevocable {
            self.go_irrevocable();
        }
        Ok(())
    }

    /// The arena becomes these bytes, and nothing else changes: what is kept of it for the open blocks stays. Takes no
    /// memory.
    pub fn set_arena(&mut self, arena: &[u8])
        requires { length arena.now ≡ length self.old.state.arena }
        ensures { self.new ≡ record self.old { state = record self.old.state { arena = arena.now } } }
    {
        self.arena.copy_from_slice(arena);
    }

    /// Whether the memory is as at the last outermost begin, of which `base` is a copy. It costs what was written.
    pub fn is_as_before(&self, base: &[u8]) -> bool
        requires { base.now ≡ self.now.before }
        ensures { IsTrue result ↔ (self.now.state.memory ≡ self.now.before) }
    {
        is_laid(&self.memory, &self.journal, base)
    }

    /// The copy of the memory as at the last outermost begin becomes one of the memory. It costs what was written.
    pub fn lay_into(&self, base: &mut Vec<u8>)
        requires { base.old.items ≡ self.now.before }
        ensures { base.new.items ≡ self.now.state.memory }
    {
        lay(&self.memory, &self.journal, base);
    }
}
