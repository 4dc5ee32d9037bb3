//! A player and a writer that share a count of replies.

use itm_types::{Call, Reply};
use script_vm::Script;
use std::alloc::AllocError;
use std::cell::Cell;
use std::io;
use std::io::Write;
use std::marker::Model;
use tx_player::Player;

/// A thread of a program that counts the replies which it is given.
#[derive(Drop)]
pub struct Counted<'p> {
    script: Script<'p>,
    replies: &'p Cell<u32>,
}

impl<'p> Model for Counted<'p> {
    ghost use Rattle.script_vm.specs.Threads.{Thread};

    ghost Value = { Thread };

    ghost view = { λ c. c.script };
}

impl<'p> Counted<'p> {
    ghost use Rattle.std.specs.Prelude.{◌≡◌};

    pub fn new(script: Script<'p>, replies: &'p Cell<u32>) -> Self
        ensures { result ≡ script.entry }
    {
        Counted { script, replies }
    }
}

impl<'p> Player for Counted<'p> {
    ghost use Rattle.script_vm.specs.Threads.{next_call, answered, restarted, at_block, calls_left, depth_of};
    ghost use Rattle.script_vm.specs.ThreadLaws.{thread_laws};

    ghost next_call = { next_call };

    ghost answered = { answered };

    ghost restarted = { restarted };

    ghost at_block = { at_block };

    ghost calls_left = { calls_left };

    ghost depth = { depth_of };

    fn next(&self) -> Option<Call> {
        self.script.next()
    }

    fn answer(&mut self, reply: &Reply) {
        self.replies.set(self.replies.get().saturating_add(1));
        self.script.answer(reply);
    }

    fn restart(&mut self) {
        self.script.restart();
    }

    fn restart_block(&mut self) {
        self.script.restart_block();
    }

    fn copy(&self) -> Result<Self, AllocError> {
        Ok(Counted {
            script: self.script.copy()?,
            replies: self.replies,
        })
    }

    ghost laws = { thread_laws };
}

/// Keeps apart what it takes before there are so many replies, and what it takes from then on.
#[derive(Drop)]
pub struct Parting<'a> {
    pub before: Vec<u8>,
    pub after: Vec<u8>,
    pub replies: &'a Cell<u32>,
    pub last: u32,
}

impl<'a> Write for Parting<'a> {
    fn write(&mut self, buf: &[u8]) -> io::Result<usize> {
        if self.replies.get() < self.last {
            self.before
                .extend_from_slice(buf)
                .map_err(AllocError::from)?;
        } else {
            self.after.extend_from_slice(buf).map_err(AllocError::from)?;
        }
        Ok(buf.len())
    }

    fn flush(&mut self) -> io::Result<()> {
        Ok(())
    }
}
