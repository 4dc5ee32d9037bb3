//! The limits of scripts, and those that a script sets for its run.

ghost use Rattle.std.specs.Prelude.{◌≡◌, ◌≤◌, None, Some, is_some};
ghost use Rattle.itm_types.specs.Limits.{AreWithin};
ghost use Rattle.itm_types.specs.declared.limits.TheConstants.{MAX_ARENA, MAX_COMMITS, MAX_DEPTH, MAX_PATIENCE, MAX_RESTARTS, MAX_RETRIES};
ghost use Rattle.script_program.specs.Listing.{arena_of, limits_of};

use itm_types::{Limits, MAX_COMMITS, USUAL_DEPTH};
use std::marker::Model;

/// How many bytes a script has at most.
pub const MAX_TEXT: usize = 16_777_216;

/// How many items a schedule has at most.
pub const MAX_ITEMS: usize = 65_536;

/// How many events one item takes at most.
pub const MAX_EVENTS: u64 = 1_000_000;

/// How many instructions the sections of a script have at most.
pub const MAX_INSTRUCTIONS: usize = 65_536;

/// How often the lines of one group stand at most.
pub const MAX_REPEATS: u64 = 65_536;

/// How many blocks and groups are open at once at most.
pub const MAX_LEVELS: usize = 256;

/// What the limits of scripts are, as numbers. Does nothing.
pub fn largest()
    ensures text { MAX_TEXT ≡ 16777216 }
    ensures items { MAX_ITEMS ≡ 65536 }
    ensures events { MAX_EVENTS ≡ 1000000 }
    ensures instructions { MAX_INSTRUCTIONS ≡ 65536 }
    ensures repeats { MAX_REPEATS ≡ 65536 }
    ensures levels { MAX_LEVELS ≡ 256 }
{}

/// The limits that were said, each within its range.
#[derive(Drop)]
pub struct SaidLimits {
    arena: Option<u32>,
    patience: Option<u32>,
    retries: Option<u32>,
    commits: Option<u64>,
    restarts: Option<u32>,
    depth: Option<u8>,
}

impl Model for SaidLimits {
    ghost use Rattle.std.specs.Prelude.{◌≤◌};
    ghost use Rattle.std.specs.Option.{ForSome};
    ghost use Rattle.itm_types.specs.declared.limits.TheConstants.{MAX_ARENA, MAX_COMMITS, MAX_DEPTH, MAX_PATIENCE, MAX_RESTARTS, MAX_RETRIES};
    ghost use Rattle.script_program.specs.Listing.{Bounds};

    ghost Value = { Bounds };

    ghost view = { λ l. record { arena = l.arena; patience = l.patience; retries = l.retries; commits = l.commits; restarts = l.restarts; depth = l.depth } };

    ghost invariant = { λ l. ForSome l.arena (λ n. n ≤ MAX_ARENA) × ForSome l.patience (λ n. (1 ≤ n) × (n ≤ MAX_PATIENCE)) × ForSome l.retries (λ n. n ≤ MAX_RETRIES)
        × ForSome l.commits (λ n. (1 ≤ n) × (n ≤ MAX_COMMITS)) × ForSome l.restarts (λ n. n ≤ MAX_RESTARTS) × ForSome l.depth (λ n. (1 ≤ n) × (n ≤ MAX_DEPTH)) };
}

impl SaidLimits {
    /// No limit is said yet.
    pub fn new() -> Self
        ensures { result ≡ record { arena = None; patience = None; retries = None; commits = None; restarts = None; depth = None } }
    {
        SaidLimits {
            arena: None,
            patience: None,
            retries: None,
            commits: None,
            restarts: None,
            depth: None,
        }
    }

    /// Whether the size of the arenas is said.
    pub fn has_arena(&self) -> bool
        ensures { result ≡ is_some self.now.arena }
    {
        self.arena.is_some()
    }

    /// Whether the patience is said.
    pub fn has_patience(&self) -> bool
        ensures { result ≡ is_some self.now.patience }
    {
        self.patience.is_some()
    }

    /// Whether the retries are said.
    pub fn has_retries(&self) -> bool
        ensures { result ≡ is_some self.now.retries }
    {
        self.retries.is_some()
    }

    /// Whether the number of commits is said.
    pub fn has_commits(&self) -> bool
        ensures { result ≡ is_some self.now.commits }
    {
        self.commits.is_some()
    }

    /// Whether the restarts are said.
    pub fn has_restarts(&self) -> bool
        ensures { result ≡ is_some self.now.restarts }
    {
        self.restarts.is_some()
    }

    /// Whether the depth is said.
    pub fn has_depth(&self) -> bool
        ensures { result ≡ is_some self.now.depth }
    {
        self.depth.is_some()
    }

    /// Says the size of the arenas.
    pub fn set_arena(&mut self, arena: u32)
        requires { arena ≤ MAX_ARENA }
        ensures { self.new ≡ record self.old { arena = Some arena } }
    {
        self.arena = Some(arena);
    }

    /// Says the patience.
    pub fn set_patience(&mut self, patience: u32)
        requires low { 1 ≤ patience }
        requires high { patience ≤ MAX_PATIENCE }
        ensures { self.new ≡ record self.old { patience = Some patience } }
    {
        self.patience = Some(patience);
    }

    /// Says the retries.
    pub fn set_retries(&mut self, retries: u32)
        requires { retries ≤ MAX_RETRIES }
        ensures { self.new ≡ record self.old { retries = Some retries } }
    {
        self.retries = Some(retries);
    }

    /// Says the number of commits.
    pub fn set_commits(&mut self, commits: u64)
        requires low { 1 ≤ commits }
        requires high { commits ≤ MAX_COMMITS }
        ensures { self.new ≡ record self.old { commits = Some commits } }
    {
        self.commits = Some(commits);
    }

    /// Says how often inner blocks may run again in one attempt.
    pub fn set_restarts(&mut self, restarts: u32)
        requires { restarts ≤ MAX_RESTARTS }
        ensures { self.new ≡ record self.old { restarts = Some restarts } }
    {
        self.restarts = Some(restarts);
    }

    /// Says how many blocks may be open at once.
    pub fn set_depth(&mut self, depth: u8)
        requires low { 1 ≤ depth }
        requires high { depth ≤ MAX_DEPTH }
        ensures { self.new ≡ record self.old { depth = Some depth } }
    {
        self.depth = Some(depth);
    }

    /// How many bytes each thread's arena has: what was said, and else none.
    pub fn arena(&self) -> usize
        ensures value { result ≡ arena_of self.now }
        ensures few { result ≤ MAX_ARENA }
    {
        self.arena.unwrap_or(0) as usize
    }

    /// The limits of the run: those that were said, and else 8 rounds, 100 retries, as many commits as may be, no inner block
    /// that runs again alone, and 16 blocks open at once.
    pub fn limits(&self) -> Limits
        ensures value { result ≡ limits_of self.now }
        ensures within { AreWithin result }
    {
        Limits {
            patience: self.patience.unwrap_or(8),
            retries: self.retries.unwrap_or(100),
            max_commits: self.commits.unwrap_or(MAX_COMMITS),
            depth: self.depth.unwrap_or(USUAL_DEPTH),
            restarts: self.restarts.unwrap_or(0),
        }
    }
}
