//! Sinks that keep what they were told, or wait.

use crate::tests::gates::wait_for;
use itm_types::Ran;
use std::sync::atomic::{AtomicU64, Ordering};
use tx_worker::{ActionSink, Gate, GateShut};

/// Digits of base 16, the last one lowest.
#[derive(Drop)]
pub(super) struct Digits {
    all: AtomicU64,
}

impl Digits {
    pub(super) fn new() -> Self {
        Digits {
            all: AtomicU64::new(0),
        }
    }

    pub(super) fn all(&self) -> u64 {
        self.all.load(Ordering::SeqCst)
    }

    fn add(&self, digit: u64) {
        let more = self.all().wrapping_mul(16).wrapping_add(digit);
        self.all.store(more, Ordering::SeqCst);
    }
}

/// The functions of the actions, in the order in which they ran.
impl ActionSink for Digits {
    fn run(&self, _thread: u8, ran: &Ran) {
        self.add(u64::from(ran.action.fun));
    }
}

/// As a gate, a digit for each call that it is asked about and for each one that it is told of.
impl Gate for Digits {
    ghost use Rattle.worker_rules.specs.Gates.{all_let};

    ghost answers = { all_let };

    fn at(&self, _thread: u8, _call: u64) -> Result<(), GateShut> {
        self.add(0xa);
        Ok(())
    }

    fn done(&self, _thread: u8, _call: u64) {
        self.add(0xd);
    }
}

/// Of two threads, the second one begins as the first one's action runs, which lasts until so many calls of the second
/// one are done.
#[derive(Drop)]
pub(super) struct Meanwhile {
    runs: AtomicU64,
    done: AtomicU64,
    calls: u64,
}

impl Meanwhile {
    pub(super) fn new(calls: u64) -> Self {
        Meanwhile {
            runs: AtomicU64::new(0),
            done: AtomicU64::new(0),
            calls,
        }
    }
}

impl ActionSink for Meanwhile {
    fn run(&self, _thread: u8, _ran: &Ran) {
        self.runs.fetch_add(1, Ordering::SeqCst);
        let _waited = wait_for(&self.done, self.calls);
    }
}

impl Gate for Meanwhile {
    ghost use Rattle.worker_rules.specs.Gates.{any_answer};

    ghost answers = { any_answer };

    fn at(&self, thread: u8, _call: u64) -> Result<(), GateShut> {
        if thread == 1 {
            wait_for(&self.runs, 1)?;
        }
        Ok(())
    }

    fn done(&self, thread: u8, _call: u64) {
        if thread == 1 {
            self.done.fetch_add(1, Ordering::SeqCst);
        }
    }
}
