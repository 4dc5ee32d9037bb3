//! What is open: blocks, and groups of lines.

ghost use Rattle.std.specs.Prelude.{◌≡◌, ◌<◌, [], ◌∷◌, length, nat_le, OnOk, Some};
ghost use Rattle.script_asm.specs.declared.groups.Group.TheVariants as groups;
ghost use Rattle.script_asm.specs.Groups.{innermost, innermost_line, outer, second_part, stands_never, within_never};

use script_program::MAX_LEVELS;
use std::alloc::{AllocError, Global};
use std::marker::Model;

/// What a line began.
#[derive(Clone, Copy, Debug, PartialEq, Eq)]
pub enum Group {
    /// A block.
    Block,
    /// The first part of a group of `ifnz`.
    First,
    /// Its second part.
    Second,
    /// Lines that are read once and stand so many times: how long the section's code was as they began, and how often.
    /// Where they or those around them are to stand 0 times, how much was left out as they began.
    Repeat { start: usize, times: usize },
}

impl Group {
    /// Whether it is lines that are to stand 0 times.
    fn stands_never(self) -> bool
        ensures { result ≡ stands_never self }
    {
        match self {
            Group::Repeat { times, .. } => times == 0,
            _ => false,
        }
    }
}

/// A beginning whose end has not come yet, and its line.
#[derive(Clone, Copy, Debug, PartialEq, Eq)]
pub struct Beginning {
    pub line: usize,
    pub group: Group,
}

/// All that is open, the innermost last.
#[derive(Drop)]
pub struct Groups {
    beginnings: Vec<Beginning>,
    /// How many of them are lines that are to stand 0 times.
    never: usize,
}

impl Model for Groups {
    ghost use Rattle.std.specs.Prelude.{◌≡◌, ◌≤◌, List, length, reverse};
    ghost use Rattle.script_asm.specs.declared.groups.Beginning.{Beginning};
    ghost use Rattle.script_program.specs.declared.limits.TheConstants.{MAX_LEVELS};
    ghost use Rattle.script_asm.specs.Groups.{never_count};

    ghost Value = { List Beginning };

    ghost view = { λ g. reverse g.beginnings.items };

    ghost invariant = { λ g. (length g.beginnings.items ≤ MAX_LEVELS) × (g.never ≡ never_count (reverse g.beginnings.items)) };
}

impl Groups {
    /// Nothing is open. Takes no memory.
    pub fn new(alloc: Global) -> Self
        ensures { result ≡ [] }
    {
        Groups {
            beginnings: Vec::new(alloc),
            never: 0,
        }
    }

    /// What the innermost is.
    pub fn innermost(&self) -> Option<Group>
        ensures { result ≡ innermost self.now }
    {
        match self.beginnings.last() {
            Some(beginning) => Some(beginning.group),
            None => None,
        }
    }

    /// The line in which the innermost began.
    pub fn innermost_line(&self) -> Option<usize>
        ensures { result ≡ innermost_line self.now }
    {
        match self.beginnings.last() {
            Some(beginning) => Some(beginning.line),
            None => None,
        }
    }

    /// Whether as much is open as may be.
    pub fn is_full(&self) -> bool
        ensures { result ≡ nat_le MAX_LEVELS (length self.now) }
    {
        MAX_LEVELS <= self.beginnings.len()
    }

    /// Whether lines that are to stand 0 times are open.
    pub fn within_never(&self) -> bool
        ensures { result ≡ within_never self.now }
    {
        0 < self.never
    }

    /// One more begins, within all that are open.
    pub fn push(&mut self, line: usize, group: Group) -> Result<(), AllocError>
        requires { length self.old < MAX_LEVELS }
        ensures { OnOk result (self.new ≡ record { line = line; group = group } ∷ self.old) }
    {
        self.beginnings.push(Beginning { line, group })?;
        if group.stands_never() {
            self.never += 1;
        }
        Ok(())
    }

    /// The innermost ends, where there is one.
    pub fn pop(&mut self)
        ensures { self.new ≡ outer self.old }
    {
        if let Some(beginning) = self.beginnings.pop() {
            if beginning.group.stands_never() {
                self.never -= 1;
            }
        }
    }

    /// The second part of the innermost begins, where its first part is open.
    pub fn turn(&mut self)
        requires { innermost self.old ≡ Some groups.First }
        ensures { self.new ≡ second_part self.old }
    {
        let count = self.beginnings.len();
        if 0 < count {
            self.beginnings[count - 1].group = Group::Second;
        }
    }
}
