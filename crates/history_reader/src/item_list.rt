//! Lists that grow.

ghost use Rattle.std.specs.Prelude.{◌≡◌, ◌<◌, ◌++◌, ◌∷◌, [], length, OnOk, OnErr};

use itm_types::Ran;
use std::alloc::{AllocError, Global};
use std::marker::Model;
use std::mem;
use tx_attempts::Again;

/// A list that grows, seen as what stands in it.
#[derive(Drop)]
pub struct ItemList<T> {
    items: Vec<T>,
}

impl<T> Model for ItemList<T> {
    ghost use Rattle.std.specs.Prelude.{List};

    ghost Value = { List T };

    ghost view = { λ k. k.items.items };
}

impl<T: Drop> ItemList<T> {
    /// Nothing. Takes no memory.
    pub fn new(alloc: Global) -> Self
        ensures { result ≡ [] }
    {
        ItemList {
            items: Vec::new(alloc),
        }
    }

    /// How many there are.
    pub fn len(&self) -> usize
        ensures { result ≡ length self.now }
    {
        self.items.len()
    }

    /// One more.
    pub fn push(&mut self, item: T) -> Result<(), AllocError>
        ensures { OnOk result (self.new ≡ self.old ++ item ∷ []) }
    {
        self.items.push(item)?;
        Ok(())
    }

    /// What stands in it. Takes no memory, and leaves nothing there.
    pub fn take(&mut self, alloc: Global) -> Vec<T>
        ensures all { result.items ≡ self.old }
        ensures none { self.new ≡ [] }
    {
        mem::replace(&mut self.items, Vec::new(alloc))
    }
}

impl ItemList<Again> {
    ghost use Rattle.history_reader.specs.Lines.{with_undone};

    /// One more action that had run in the last block before it ran again. Takes memory only where there is such a block.
    pub fn undo(&mut self, ran: Ran) -> Result<(), AllocError>
        ensures added { OnOk result (self.new ≡ with_undone self.old ran) }
        ensures short { OnErr result (0 < length (with_undone self.old ran)) }
        ensures err { OnErr result (self.new ≡ self.old) }
    {
        if let Some(mut last) = self.items.pop() {
            let pushed = last.undone.push(ran);
            self.items.push_reserved(last);
            pushed?;
        }
        Ok(())
    }
}
