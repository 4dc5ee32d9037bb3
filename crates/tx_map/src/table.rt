//! A hash map in transactional memory.

ghost use Rattle.std.specs.Prelude.{◌≡◌, ◌+◌, ◌*◌, ◌%◌, ◌<◌, ◌≤◌, false, IfOk, IfSome};
ghost use Rattle.transactions.specs.Lent.{IsKept};
ghost use Rattle.tx_map.specs.Finds.{HasFound};
ghost use Rattle.tx_map.specs.Plainly.{Does};
ghost use Rattle.tx_map.specs.Puts.{HasGot, HasPut, added_of, is_put};

use itm_runtime::Stop;
use transactions::Transaction;
use typed_cells::{Cell, Places, Row};

/// A key and its value. A key of 0 says that a slot is free.
pub type Pair = (u32, u32);

/// Slots side by side.
#[derive(Debug, Drop)]
pub struct Table {
    slots: Row<Pair>,
    ghost some: { 0 < slots.count },
}

/// What came of a put: of a full map, nothing.
#[derive(Clone, Copy, Debug, PartialEq, Eq)]
pub enum Put {
    Added,
    Again,
    Full,
}

impl Put {
    /// How many keys are new by it.
    pub fn added(self) -> u64
        ensures is { result ≡ added_of self }
        ensures few { result ≤ 1 }
    {
        match self {
            Put::Added => 1,
            Put::Again | Put::Full => 0,
        }
    }
}

impl Table {
    /// So many slots, or none where no memory has room for them.
    pub fn new(places: &mut Places, count: u64) -> Option<Table>
        requires { 0 < count }
        ensures slots { IfSome result (λ t. (t.slots.first ≡ places.old.size) × (t.slots.count ≡ count)) }
        ensures taken { IfSome result (λ t. places.new.size ≡ places.old.size + 8 * count) }
    {
        let slots = places.row::<Pair>(count)?;
        Some(Table { slots })
    }

    /// The slot with the key, else the free one that a search for it comes to, with what it has.
    fn find(&self, tx: &mut Transaction, key: u32) -> Result<Option<(Cell<Pair>, Pair)>, Stop>
        ensures kept { IsKept tx.old tx.new }
        ensures found { IfOk result (λ found. Does tx.old.words tx.old.thread tx.new.thread false (HasFound self.now.slots.first self.now.slots.count key found)) }
    {
        for steps in 0..self.slots.count() {
            let slot = self.slots.at((u64::from(key) + steps) % self.slots.count());
            let pair = slot.read(tx)?;
            if pair.0 == key || pair.0 == 0 {
                return Ok(Some((slot, pair)));
            }
        }
        Ok(None)
    }

    /// The key has this value from now on.
    pub fn put(&self, tx: &mut Transaction, key: u32, value: u32) -> Result<Put, Stop>
        requires { 0 < key }
        ensures kept { IsKept tx.old tx.new }
        ensures put { IfOk result (λ put. Does tx.old.words tx.old.thread tx.new.thread (is_put put) (HasPut self.now.slots.first self.now.slots.count key value put)) }
    {
        let Some((slot, had)) = self.find(tx, key)? else {
            return Ok(Put::Full);
        };
        slot.write(tx, (key, value))?;
        Ok(if had.0 == 0 { Put::Added } else { Put::Again })
    }

    /// The value of the key, where it has one.
    pub fn get(&self, tx: &mut Transaction, key: u32) -> Result<Option<u32>, Stop>
        requires { 0 < key }
        ensures kept { IsKept tx.old tx.new }
        ensures got { IfOk result (λ got. Does tx.old.words tx.old.thread tx.new.thread false (HasGot self.now.slots.first self.now.slots.count key got)) }
    {
        match self.find(tx, key)? {
            Some((_, pair)) if pair.0 == key => Ok(Some(pair.1)),
            _ => Ok(None),
        }
    }
}
