//! A history that is written as its run goes.

ghost use Rattle.std.specs.Prelude.{◌≡◌, None};
ghost use Rattle.hex.specs.Hex.{IsBytes};
ghost use Rattle.tx_history.specs.Bounds.{AttemptFits, IsWord};
ghost use Rattle.tx_history.specs.Histories.{attempt_lines, first_lines, last_line};
ghost use Rattle.tx_history.specs.Streams.{Sends, lent, stream_state};

use crate::attempts::write_attempt;
use crate::history::Version;
use crate::page::Page;
use crate::rows::{write_first, write_last};
use std::io;
use std::io::Write;
use tx_attempts::Attempt;

/// As a stream, a page is a history on its way to a writer: its first lines, then those of each attempt, then the last one.
/// Each call hands its lines to the writer at once, and takes no memory. Once a write has failed, what the writer took is a
/// beginning of the lines and not all of them; each later call answers the same error and writes nothing.
impl<'a, W: Write> Page<'a, W> {
    /// A history of which nothing is written.
    pub fn new(writer: &'a mut W) -> Self
        ensures same { lent result ≡ writer.entry.ghost_name }
        ensures nothing { stream_state W.contents result ≡ record { written = W.contents writer.old; fault = None } }
    {
        Page::empty(writer)
    }

    /// Writes the lines before the first attempt: those of the version, and the memory before the run. Where a write fails,
    /// or has failed, answers its error; so do `attempt` and `finish`.
    pub fn open(&mut self, version: Version, memory: &[u8]) -> io::Result<()>
        ensures { Sends W.contents self.old self.new (first_lines version memory.now) (IsBytes memory.now) result }
    {
        self.write_result()?;
        self.begin();
        write_first(self, version, memory);
        self.write_result()
    }

    /// Writes the lines of an attempt.
    pub fn attempt(&mut self, attempt: &Attempt) -> io::Result<()>
        ensures { Sends W.contents self.old self.new (attempt_lines attempt.now) (AttemptFits attempt.now) result }
    {
        self.write_result()?;
        self.begin();
        write_attempt(self, attempt);
        self.write_result()
    }

    /// Writes the last line: the clock, and the memory after the run.
    pub fn finish(&mut self, clock: u64, bytes: &[u8]) -> io::Result<()>
        ensures { Sends W.contents self.old self.new
            (last_line clock bytes.now) (IsWord clock × IsBytes bytes.now) result }
    {
        self.write_result()?;
        self.begin();
        write_last(self, clock, bytes);
        self.write_result()
    }
}
