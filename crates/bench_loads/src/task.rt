//! What a thread is to do, and how far it has come.

use crate::draw::first_block;
use crate::workload::{Block, Workload};
use std::alloc::AllocError;
use std::sync::atomic::{AtomicBool, Ordering};

/// What all threads do.
#[derive(Clone, Copy)]
pub struct Task {
    pub workload: Workload,
    /// How many words each transaction is about, or chooses among.
    pub size: u64,
    /// How many transactions each thread commits, or 0 where only the time ends them.
    pub count: u64,
    /// How often inner blocks may go back to their begins alone, in one transaction.
    pub restarts: u32,
}

/// What threads did.
#[derive(Clone, Copy)]
pub struct Tally {
    pub commits: u64,
    pub attempts: u64,
    /// The numbers of the places at which they committed, added up.
    pub sites: u64,
}

/// What a thread has done that has done nothing.
pub const NOTHING_DONE: Tally = Tally {
    commits: 0,
    attempts: 0,
    sites: 0,
};

/// Why a thread comes to no other transaction.
#[derive(Clone, Copy)]
pub enum Halt {
    /// It is told to stop, or has committed as many as the task has.
    Over,
    /// Memory was refused.
    Memory,
}

impl From<AllocError> for Halt {
    fn from(_: AllocError) -> Halt {
        Halt::Memory
    }
}

/// How many transactions a thread commits at most.
pub fn most_of(task: &Task) -> u64 {
    if task.count > 0 { task.count } else { u64::MAX }
}

/// How far a thread has come, whose transactions stand at the places that are measured.
#[derive(Drop)]
pub struct Progress<'a> {
    /// Its transaction.
    pub block: Block,
    pub tally: Tally,
    most: u64,
    stop: &'a AtomicBool,
}

impl Progress<'_> {
    /// The begin of a task; none where its transactions have inner blocks, which stand elsewhere.
    pub fn new<'a>(task: &Task, stop: &'a AtomicBool) -> Option<Progress<'a>> {
        let block = first_block(task)?;
        Some(Progress {
            block,
            tally: NOTHING_DONE,
            most: most_of(task),
            stop,
        })
    }

    /// Whether the thread is told to stop.
    #[inline(always)]
    pub fn is_stopped(&self) -> bool {
        self.stop.load(Ordering::SeqCst)
    }

    /// Whether it has committed as many as the task has.
    #[inline(always)]
    pub fn is_done(&self) -> bool {
        self.tally.commits == self.most
    }
}
