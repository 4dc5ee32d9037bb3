//! The words, and the seats from which threads step through them.

ghost use Rattle.std.specs.Prelude.{◌≡◌, ◌≢◌, ◌⊎◌, true, false, length, slice_index, IfOk, IfErr, OnOk, OnErr};
ghost use Rattle.std.specs.Arc.{arc_value};
ghost use Rattle.shared_words.specs.Passes.{IsWrongCount, view_of};
ghost use Rattle.itm_c.specs.Codes.{is_out_of_range, no_memory, no_seat};

use crate::cells::Cells;
use crate::client::Client;
use crate::code::{MEMORY, NO_SEAT, OUT_OF_RANGE};
use crate::kept::Kept;
use itm_runtime::{Thread, ThreadRefused};
use itm_types::{Limits, MAX_COMMITS, MAX_DEPTH};
use shared_words::{Pass, Words};
use std::alloc::Global;
use std::sync::Arc;
use std_alloc::vec::Lodged;
use undo_log::Arena;

/// How often a call looks at the clock again.
const PATIENCE: u32 = 64;

/// What a transaction of C's may use up. Which tries it makes after a conflict is C's to say, and inner blocks do not go back alone.
const LIMITS: Limits = Limits {
    patience: PATIENCE,
    retries: 0,
    max_commits: MAX_COMMITS,
    depth: MAX_DEPTH,
    restarts: 0,
};

/// The words, and the pass that those of the threads are cut from.
#[derive(Drop)]
pub struct Root {
    pub(crate) words: Arc<Words<Lodged>>,
    pub(crate) pass: Pass,
}

impl Root {
    ghost use Rattle.itm_c.specs.Kept.{IsSeated, IsTied, KeepsClient};
    ghost use Rattle.itm_c.specs.Seats.{Closes, Enters, IsOpened, IsUnused, Leaves};

    /// The words in these cells, where they lie.
    pub fn open(alloc: Global, cells: Cells) -> Result<Root, u32>
        requires clock { slice_index cells.items 0 ≡ 0 }
        ensures ok { IfOk result (IsOpened cells) }
        ensures right { IfOk result (λ _. ¬ IsWrongCount (length cells.items)) }
        ensures wrong { IfErr result (λ code. ((code ≡ is_out_of_range) × IsWrongCount (length cells.items)) ⊎ ((code ≡ no_memory) × ¬ IsWrongCount (length cells.items))) }
    {
        let Ok((words, pass)) = Words::of_cells(cells.into_vec()) else {
            return Err(OUT_OF_RANGE);
        };
        match Arc::new(alloc, words) {
            Ok(words) => Ok(Root { words, pass }),
            Err(_) => Err(MEMORY),
        }
    }

    /// A thread over the words, with a pass that is cut from this one.
    #[tactic(auto, using(crate::proofs::Rejoined::rejoined))]
    pub fn enter(&mut self, alloc: Global) -> Result<Client, u32>
        requires seated { IsSeated self.old }
        ensures seated { IsSeated self.new }
        ensures words { arc_value self.new.words ≡ arc_value self.old.words }
        ensures ok { IfOk result (Enters self.old self.new) }
        ensures err { OnErr result (IsUnused (view_of self.old.pass) (view_of self.new.pass)) }
        ensures seats { OnOk result ((view_of self.old.pass).share ≢ 1) }
        ensures code { IfErr result (λ code. ((code ≡ no_memory) × ((view_of self.old.pass).share ≢ 1)) ⊎ ((code ≡ no_seat) × ((view_of self.old.pass).share ≡ 1))) }
    {
        if self.pass.left() == 0 {
            return Err(NO_SEAT);
        }
        let Ok(words) = Arc::try_clone(&self.words) else {
            return Err(MEMORY);
        };
        let Ok(arena) = Arena::new(alloc, 0) else {
            return Err(MEMORY);
        };
        let own = self.words.split(&mut self.pass);
        match Thread::new(alloc, &*self.words, own, arena, LIMITS) {
            Ok(thread) => Ok(Client { words, thread }),
            Err(ThreadRefused { pass, arena: _ }) => {
                self.words.join(&mut self.pass, pass);
                Err(MEMORY)
            }
        }
    }

    /// The thread's pass comes back. Where it holds the clock, the thread comes back as it was.
    pub fn leave(&mut self, client: Client) -> Result<(), Client>
        requires seated { IsSeated self.old }
        requires tied { IsTied client }
        requires words { arc_value client.words ≡ arc_value self.old.words }
        ensures ok { OnOk result (Leaves self.old client self.new) }
        ensures err { IfErr result (λ c. c ≡ client) }
        ensures held { OnErr result ((self.new ≡ self.old) × (client.thread.engine.irrevocable ≡ true)) }
    {
        let Client { words, thread } = client;
        match thread.into_parts() {
            Ok((seat, _arena)) => {
                self.words.join(&mut self.pass, seat);
                Ok(())
            }
            Err(thread) => Err(Client { words, thread }),
        }
    }

    /// The cells, once each thread that entered has left. Else all stays as it was.
    pub fn close(self) -> Result<Cells, Root>
        requires seated { IsSeated self }
        ensures ok { IfOk result (Closes self) }
        ensures err { IfErr result (λ r. r ≡ self) }
    {
        if self.pass.left() != 127 {
            return Err(self);
        }
        let Root { words, pass } = self;
        match Arc::try_unwrap(words) {
            Ok(words) => Ok(Cells::of_vec(words.close_in_place(pass).into_cells())),
            Err(words) => Err(Root { words, pass }),
        }
    }

    /// The same of a thread that was put by, which does not hold the clock.
    pub fn take_back(&mut self, kept: Kept)
        requires seated { IsSeated self.old }
        requires thread { KeepsClient (λ c. IsTied c × (arc_value c.words ≡ arc_value self.old.words) × (c.thread.engine.irrevocable ≡ false)) kept }
        ensures { KeepsClient (λ c. Leaves self.old c self.new) kept }
    {
        match kept {
            Kept::Client(client) => match self.leave(client) {
                Ok(()) => {}
                Err(_) => unreachable!(),
            },
            _ => unreachable!(),
        }
    }
}
