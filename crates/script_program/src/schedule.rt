//! Which thread takes the next events.

ghost use Rattle.std.specs.Prelude.{◌≡◌, ◌<◌, [], ◌∷◌, ◌++◌, All, IfNone, OnErr, OnOk, length};
ghost use Rattle.script_program.specs.Listing.{thread_of};
ghost use Rattle.script_program.specs.Schedules.{stray_of};

use std::alloc::{AllocError, Global};
use std::marker::Model;

/// Events of one thread, in a row.
#[derive(Clone, Copy, Debug, PartialEq, Eq)]
pub enum Item {
    /// The thread takes so many events.
    Take(u8, u32),
    /// The thread takes events until it has ended.
    Out(u8),
}

impl Item {
    /// The thread's number.
    pub fn thread(self) -> u8
        ensures { result ≡ thread_of self }
    {
        match self {
            Item::Take(thread, _) => thread,
            Item::Out(thread) => thread,
        }
    }
}

/// The items of a script, each with the line that it stands in.
#[derive(Drop)]
pub struct Plan {
    items: Vec<Item>,
    lines: Vec<usize>,
}

impl Model for Plan {
    ghost use Rattle.std.specs.Prelude.{◌≡◌, length};
    ghost use Rattle.script_program.specs.Schedules.{Schedule};

    ghost Value = { Schedule };

    ghost view = { λ p. record { items = p.items.items; lines = p.lines.items } };

    ghost invariant = { λ p. length p.items.items ≡ length p.lines.items };
}

impl Plan {
    /// No item. Takes no memory.
    pub fn new(alloc: Global) -> Self
        ensures { result ≡ record { items = []; lines = [] } }
    {
        Plan {
            items: Vec::new(alloc),
            lines: Vec::new(alloc),
        }
    }

    /// How many items there are.
    pub fn len(&self) -> usize
        ensures { result ≡ length self.now.items }
    {
        self.items.len()
    }

    /// One more item, which stands in the line.
    pub fn push(&mut self, line: usize, item: Item) -> Result<(), AllocError>
        ensures ok { OnOk result
            (self.new ≡ record { items = self.old.items ++ item ∷ []; lines = self.old.lines ++ line ∷ [] }) }
        ensures refused { OnErr result (self.new ≡ self.old) }
    {
        self.lines.push(line)?;
        if self.items.push(item).is_err() {
            self.lines.pop();
            return Err(AllocError);
        }
        Ok(())
    }

    /// The line of the first item whose thread is not below the number.
    #[tactic(auto, using(crate::proofs::StrayItems::stray_found, crate::proofs::StrayItems::stray_end))]
    pub fn stray(&self, threads: usize) -> Option<usize>
        ensures value { result ≡ stray_of threads self.now.items self.now.lines }
        ensures named { IfNone result (All (λ i. thread_of i < threads) self.now.items) }
    {
        for (i, item) in self.items.iter().enumerate() {
            if threads <= usize::from(item.thread()) {
                return Some(self.lines[i]);
            }
        }
        None
    }

    /// The items alone. Takes no memory.
    pub fn into_items(self) -> Vec<Item>
        ensures { result.items ≡ self.items }
    {
        self.items
    }
}
