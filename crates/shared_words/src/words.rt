//! The cells.

ghost use Rattle.std.specs.Prelude.{◌≡◌, ◌+◌, ◌*◌, ◌<◌, ◌≤◌, true, false, ◌∷◌, length, slice_index, Some, IfOk, IfErr};
ghost use Rattle.itm_types.specs.declared.limits.TheConstants.{MAX_BYTES};

use crate::bytes::cells_of_bytes;
use crate::closed_words::ClosedWords;
use crate::fault::WordsFault;
use crate::in_place::{Hollow, SharedCells, attach, deal, detach, gather, gather_with};
use crate::pass::Pass;
use crate::rule::{Both, Changes, Cut, Exchanges, Loads, Settles, Stores};
use itm_types::{MAX_BYTES, MAX_MEMORY, MAX_WORDS, Step, put_word};
use std::alloc::{Allocator, Global};

/// The sequence clock, which is cell 0, and the words of the memory, which follow it in order, where they lie in a
/// vector's block of the allocator `A`. Threads share it by `&`.
pub struct Words<A: Allocator = Global> {
    shared: SharedCells,
    hollow: Hollow<A>,
    size: usize,
    ghost slotless: { shared.table_id.slots ≡ 0 },
    ghost clocked: { 0 < shared.table_id.words },
    ghost placed: { (hollow.ptr ≡ shared.words) × (hollow.len ≡ shared.table_id.words) },
    ghost sized: { size + 8 ≡ 8 * shared.table_id.words },
    ghost some: { 8 ≤ size },
    ghost few: { size ≤ MAX_BYTES },
}

/// What the words were when they were closed.
#[derive(Clone, Copy, Debug, PartialEq, Eq)]
pub struct Closed {
    /// Twice the number of commits, and one more where the clock is held.
    pub clock: u64,
}

impl Words {
    ghost use Rattle.itm_types.specs.Memory.{bytes_of};
    ghost use Rattle.shared_words.specs.Passes.{IsFirst, IsWrongSize, view_of, cells_of};
    ghost use Rattle.shared_words.specs.declared.fault.WordsFault.TheVariants.{Length};

    /// The words of these bytes, 8 to `MAX_MEMORY` of them in whole words, with the clock at 0, and the one pass that
    /// there is. `Length` where the bytes are no such number, and `Memory` where memory was refused.
    pub fn new(alloc: Global, bytes: &[u8]) -> Result<(Words, Pass), WordsFault>
        ensures pass { IfOk result (λ r. IsFirst r.0 r.1) }
        ensures size { IfOk result (λ r. 8 * cells_of r.0 ≡ length bytes.now + 8) }
        ensures bytes { IfOk result (λ r. bytes_of (view_of r.1).base ≡ bytes.now) }
        ensures length { IfErr result (λ f. f ≡ Length → IsWrongSize (length bytes.now)) }
        ensures wrong { IfErr result (λ f. IsWrongSize (length bytes.now) → f ≡ Length) }
        ensures right { IfOk result (λ _. ¬ IsWrongSize (length bytes.now)) }
    {
        if bytes.len() == 0 || bytes.len() % 8 != 0 || bytes.len() > MAX_MEMORY {
            return Err(WordsFault::Length);
        }
        let Ok(cells) = cells_of_bytes(alloc, bytes) else {
            return Err(WordsFault::Memory);
        };
        let Ok(made) = Words::of_cells(cells) else {
            unreachable!()
        };
        Ok(made)
    }
}

impl<A: Allocator> Words<A> {
    ghost use Rattle.shared_words.specs.Passes.{IsFirst, IsWrongCount, Owns, view_of, cells_of, place_of};
    ghost use Rattle.shared_words.specs.Views.{cut_left, cut_right};
    ghost use Rattle.shared_words.specs.Good.{Ends, EndsHeld, EndsInHold, EndsWith};
    ghost use Rattle.shared_words.specs.ClosedWords.{clock_in, words_in, place_in};
    ghost use Rattle.shared_words.specs.Moves.{Moves};
    ghost use Rattle.shared_words.specs.Steps.{Lawful, StepTells, WasFound, Joined, cell_of};

    /// The words that follow the clock in these cells, 1 to `MAX_WORDS` of them, where they lie, and the one pass that there
    /// is. The cells come back as they are where the words are no such number.
    pub fn of_cells(mut cells: Vec<u64, A>) -> Result<(Words<A>, Pass), Vec<u64, A>>
        requires clock { slice_index cells.items 0 ≡ 0 }
        ensures pass { IfOk result (λ r. IsFirst r.0 r.1) }
        ensures size { IfOk result (λ r. cells_of r.0 ≡ length cells.items) }
        ensures words { IfOk result (λ r. 0 ∷ (view_of r.1).base ≡ cells.items) }
        ensures place { IfOk result (λ r. place_of r.0 ≡ cells.ptr) }
        ensures back { IfErr result (λ back. back ≡ cells) }
        ensures wrong { IfErr result (λ _. IsWrongCount (length cells.items)) }
        ensures right { IfOk result (λ _. ¬ IsWrongCount (length cells.items)) }
    {
        let count = cells.len();
        if count < 2 || count - 1 > MAX_WORDS {
            return Err(cells);
        }
        let ptr = cells.as_mut_ptr();
        let (row, hollow) = detach(cells);
        let (shared, seat) = deal(ptr, row);
        let pass = Pass {
            seat,
            left: 127,
            busy: false,
            high: 0,
        };
        let size = 8 * (count - 1);
        let words = Words {
            shared,
            hollow,
            size,
        };
        Ok((words, pass))
    }

    /// The size of the memory, in bytes.
    pub fn size(&self) -> usize
        ensures cells { result + 8 ≡ 8 * cells_of self.now }
        ensures some { 8 ≤ result }
        ensures few { result ≤ MAX_BYTES }
    {
        self.size
    }

    /// One atomic operation on one cell: tells the value loaded, the value that a compare-exchange met, or 0 for a
    /// store.
    #[inline(always)]
    pub fn step(&self, pass: &mut Pass, step: Step) -> u64
        requires own { Owns self.now pass.old }
        requires cell { cell_of step < cells_of self.now }
        requires lawful { Lawful (view_of pass.old) step }
        ensures own { Owns self.now pass.new }
        ensures turn { StepTells (view_of pass.old) step result (view_of pass.new) }
        ensures moves { Moves (view_of pass.old) step result (view_of pass.new) }
    {
        match step {
            Step::Load(cell) => {
                let value = self.shared.load::<Loads>(&mut pass.seat, cell as usize);
                if cell == 0 {
                    pass.high = value;
                }
                value
            }
            Step::Store(cell, new) => {
                self.shared
                    .store::<Stores>(&mut pass.seat, cell as usize, new);
                if cell == 0 {
                    pass.busy = false;
                    pass.high = new;
                }
                0
            }
            Step::Cas(cell, old, new) => {
                let found = self
                    .shared
                    .compare_exchange::<Exchanges>(&mut pass.seat, cell as usize, old, new);
                pass.high = found;
                if found == old {
                    pass.busy = true;
                }
                found
            }
        }
    }

    /// The same, where `found` is what the thread found of the word that it stores a part of: that part alone is stored. So
    /// data of the program's own that lie in the rest of the word stay, whoever stores there in between.
    #[inline(always)]
    pub fn step_over(&self, pass: &mut Pass, step: Step, found: Option<u64>) -> u64
        requires own { Owns self.now pass.old }
        requires cell { cell_of step < cells_of self.now }
        requires lawful { Lawful (view_of pass.old) step }
        requires found { WasFound (view_of pass.old) step found }
        ensures own { Owns self.now pass.new }
        ensures turn { StepTells (view_of pass.old) step result (view_of pass.new) }
        ensures moves { Moves (view_of pass.old) step result (view_of pass.new) }
    {
        match (step, found) {
            (Step::Store(cell, new), Some(found)) if cell > 0 => {
                self.change(pass, cell, found, new);
                0
            }
            _ => self.step(pass, step),
        }
    }

    /// Stores in a word by one operation that changes the bits in which the new value differs from what was found, and no
    /// others.
    #[inline(always)]
    fn change(&self, pass: &mut Pass, cell: u32, found: u64, new: u64)
        requires own { Owns self.now pass.old }
        requires cell { (0 < cell) × (cell < cells_of self.now) }
        requires holds { (view_of pass.old).holds ≡ true }
        requires found { WasFound (view_of pass.old) (Step.Store cell new) (Some found) }
        ensures own { Owns self.now pass.new }
        ensures turn { StepTells (view_of pass.old) (Step.Store cell new) 0 (view_of pass.new) }
        ensures moves { Moves (view_of pass.old) (Step.Store cell new) 0 (view_of pass.new) }
    {
        self.shared
            .fetch_xor::<Changes>(&mut pass.seat, cell as usize, found ^ new);
    }

    /// Cuts a new pass from this one, which has one split less. The new pass has seen what this one has, and holds
    /// nothing.
    pub fn split(&self, pass: &mut Pass) -> Pass
        requires own { Owns self.now pass.old }
        requires room { 1 < (view_of pass.old).share }
        ensures own { Owns self.now pass.new × Owns self.now result }
        ensures first { view_of pass.new ≡ cut_left (view_of pass.old) }
        ensures second { view_of result ≡ cut_right (view_of pass.old) }
    {
        let seat = self.shared.split_seat::<Cut>(&mut pass.seat);
        pass.left -= 1;
        Pass {
            seat,
            left: 0,
            busy: false,
            high: pass.high,
        }
    }

    /// Takes in another pass, which does not hold the clock: what it has seen, its positions and its share.
    pub fn join(&self, pass: &mut Pass, other: Pass)
        requires own { Owns self.now pass.old × Owns self.now other }
        requires idle { (view_of other).holds ≡ false }
        ensures own { Owns self.now pass.new }
        ensures joined { Joined (view_of pass.old) (view_of other) (view_of pass.new) }
    {
        let Pass {
            seat,
            left,
            busy: _,
            high,
        } = other;
        self.shared.join_seat::<Both>(&mut pass.seat, seat);
        // a join tells nothing itself: this load tells how the two views lay to each other
        self.shared.load::<Settles>(&mut pass.seat, 0);
        pass.left += left + 1;
        pass.high = pass.high.max(high);
    }

    /// Gives the bytes of the memory, as many as `size` tells, and the clock. With the pass that has the whole share these
    /// are the bytes that all commits have left, and with one that holds the clock those that its stores so far have. With
    /// any other pass nothing is promised of either.
    pub fn close(self, pass: Pass, bytes: &mut [u8]) -> Closed
        requires own { Owns self pass }
        requires size { length bytes.old + 8 ≡ 8 * cells_of self }
        ensures held { (view_of pass).holds ≡ true → EndsHeld (view_of pass) result.clock bytes.new }
        ensures whole { (view_of pass).share ≡ 128 → (view_of pass).holds ≡ false → EndsWith (view_of pass) result.clock bytes.new }
    {
        let closed = self.close_in_place(pass);
        let clock = closed.clock();
        for i in 0..closed.count() {
            put_word(bytes, 8 * i, closed.word(i));
        }
        Closed { clock }
    }

    /// The same with no copy of the words: they come back in the block that they were in.
    pub fn close_in_place(self, pass: Pass) -> ClosedWords<A>
        requires own { Owns self pass }
        ensures count { length (words_in result) + 1 ≡ cells_of self }
        ensures place { place_in result ≡ place_of self }
        ensures held { (view_of pass).holds ≡ true → EndsInHold (view_of pass) (clock_in result) (words_in result) }
        ensures whole { (view_of pass).share ≡ 128 → (view_of pass).holds ≡ false → Ends (view_of pass) (clock_in result) (words_in result) }
    {
        let Words {
            shared,
            hollow,
            size: _,
        } = self;
        let Pass {
            mut seat,
            left: _,
            busy: _,
            high: _,
        } = pass;
        let row = gather_with(shared, &mut seat);
        ClosedWords {
            cells: attach(row, hollow),
        }
    }
}

impl<A: Allocator> Drop for Words<A> {
    fn drop(self) {
        let Words {
            shared,
            hollow,
            size: _,
        } = self;
        drop(attach(gather(shared), hollow));
    }
}
