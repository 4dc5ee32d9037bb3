//! Which transaction comes next.

ghost use Rattle.std.specs.Prelude.{◌<◌};

use crate::task::Task;
use crate::workload::{Block, WORDS, Workload};

/// The number after this one in a row that looks random.
fn after(number: u64) -> u64 {
    let mut number = number;
    number ^= number << 13;
    number ^= number >> 7;
    number ^= number << 17;
    number
}

/// A row of numbers below a bound that looks random.
#[derive(Drop)]
pub struct Row {
    number: u64,
    bound: u64,
    ghost some: { 0 < bound },
}

impl Row {
    /// The row of the words that a task chooses among.
    pub fn new(task: &Task, seed: u64) -> Row {
        let size = task.size.min(WORDS as u64);
        let bound = match task.workload {
            Workload::ReadOnly => WORDS as u64 - size + 1,
            _ => size.max(1),
        };
        Row {
            number: seed,
            bound,
        }
    }

    /// The next one.
    fn draw(&mut self) -> u64 {
        self.number = after(self.number);
        self.number % self.bound
    }
}

/// A transaction of the task, about no words yet that are drawn; none where it has an inner block.
pub fn first_block(task: &Task) -> Option<Block> {
    let size = task.size.min(WORDS as u64);
    match task.workload {
        Workload::Counter => Some(Block::Counter),
        Workload::Transfer => Some(Block::Transfer { from: 0, to: 0 }),
        Workload::ReadOnly => Some(Block::ReadOnly { first: 0, size }),
        Workload::Writes => Some(Block::Writes { size, value: 0 }),
        Workload::Nested => None,
    }
}

/// Makes the block the next one of its kind.
#[inline(always)]
pub fn advance(block: &mut Block, row: &mut Row) {
    match block {
        Block::Counter => {}
        Block::Transfer { from, to } => {
            *from = row.draw();
            *to = row.draw();
        }
        Block::ReadOnly { first, .. } => *first = row.draw(),
        Block::Writes { value, .. } => *value = value.wrapping_add(1),
    }
}
