//! Gates that hold a call until another thread's call is done, that shut, or that keep what they were asked.

use std::sync::atomic::{AtomicU64, Ordering};
use std::thread;
use tx_worker::{Gate, GateShut};

/// So many turns a call is held at most.
const TURNS: u32 = 200_000_000;

/// Waits until the counter has come so far.
pub(super) fn wait_for(counter: &AtomicU64, least: u64) -> Result<(), GateShut> {
    for _ in 0..TURNS {
        if counter.load(Ordering::SeqCst) >= least {
            return Ok(());
        }
        thread::yield_now();
    }
    Err(GateShut)
}

/// This call of one of two threads waits until the other thread's call `after` is done.
#[derive(Clone, Copy)]
pub(super) struct Held {
    thread: u8,
    call: u64,
    after: u64,
}

impl Held {
    pub(super) fn new(thread: u8, call: u64, after: u64) -> Self {
        Held {
            thread,
            call,
            after,
        }
    }
}

/// Of two threads, holds these calls.
#[derive(Drop)]
pub(super) struct InTurns<'a> {
    held: &'a [Held],
    /// How many calls thread 0 has done, and thread 1.
    first: AtomicU64,
    second: AtomicU64,
}

impl<'a> InTurns<'a> {
    pub(super) fn new(held: &'a [Held]) -> Self {
        InTurns {
            held,
            first: AtomicU64::new(0),
            second: AtomicU64::new(0),
        }
    }
}

impl<'a> Gate for InTurns<'a> {
    ghost use Rattle.worker_rules.specs.Gates.{any_answer};

    ghost answers = { any_answer };

    fn at(&self, thread: u8, call: u64) -> Result<(), GateShut> {
        let others = if thread == 0 {
            &self.second
        } else {
            &self.first
        };
        for held in self.held {
            if held.thread == thread && held.call == call {
                wait_for(others, held.after.saturating_add(1))?;
            }
        }
        Ok(())
    }

    fn done(&self, thread: u8, call: u64) {
        let own = if thread == 0 {
            &self.first
        } else {
            &self.second
        };
        own.store(call.saturating_add(1), Ordering::SeqCst);
    }
}

/// Lets so many calls of each thread through.
#[derive(Clone, Copy)]
pub(super) struct ShutsAt {
    pub(super) call: u64,
}

impl Gate for ShutsAt {
    ghost use Rattle.worker_rules.specs.Gates.{any_answer};

    ghost answers = { any_answer };

    fn at(&self, _thread: u8, call: u64) -> Result<(), GateShut> {
        if call < self.call {
            Ok(())
        } else {
            Err(GateShut)
        }
    }

    fn done(&self, _thread: u8, _call: u64) {}
}

/// Keeps how often it was asked about the first 16 calls and told of them: the hexadecimal digit n is of call n.
#[derive(Drop)]
pub(super) struct Tallies {
    pub(super) asked: AtomicU64,
    pub(super) told: AtomicU64,
}

impl Tallies {
    pub(super) fn new() -> Self {
        Tallies {
            asked: AtomicU64::new(0),
            told: AtomicU64::new(0),
        }
    }
}

/// One in the digit of this call.
fn digit_of(call: u64) -> u64 {
    1 << (call % 16 * 4)
}

impl Gate for Tallies {
    ghost use Rattle.worker_rules.specs.Gates.{all_let};

    ghost answers = { all_let };

    fn at(&self, _thread: u8, call: u64) -> Result<(), GateShut> {
        self.asked.fetch_add(digit_of(call), Ordering::SeqCst);
        Ok(())
    }

    fn done(&self, _thread: u8, call: u64) {
        self.told.fetch_add(digit_of(call), Ordering::SeqCst);
    }
}
