//! The lines of a history around its attempts.

ghost use Rattle.std.specs.Prelude.{◌≡◌, ◌++◌, [], codes};
ghost use Rattle.hex.specs.Hex.{IsBytes, encode_lower};
ghost use Rattle.tx_history.specs.Bounds.{IsWord};
ghost use Rattle.tx_history.specs.Pages.{Carries, Spells};
ghost use Rattle.tx_history.specs.Histories.{version_lines, first_lines, last_line};

use crate::history::Version;
use crate::page::Page;
use crate::pieces::Piece;
use std::io::Write;

/// The format's name, and how many blocks may be open where that is told.
fn put_version<W: Write>(page: &mut Page<'_, W>, version: Version)
    ensures { Carries W.contents page.old page.new (version_lines version) }
{
    match version {
        Version::One => page.text(b"itm-history 1\n"),
        Version::Two => page.text(b"itm-history 2\n"),
        Version::Three(depth) => {
            page.text(b"itm-history 3\ndepth ");
            page.number(u64::from(depth.blocks));
            page.text(b"\n");
        }
    }
}

/// The memory as it was, in a line.
#[tactic(auto, using(crate::proofs::PagedTexts::carries_as))]
fn put_memory<W: Write>(page: &mut Page<'_, W>, memory: &[u8])
    ensures { Spells W.contents page.old page.new
        (codes "memory " ++ encode_lower memory.now ++ codes "\n") (IsBytes memory.now) }
{
    page.put(&[
        Piece::Text(b"memory "),
        Piece::Hex(memory),
        Piece::Text(b"\n"),
    ]);
}

/// The lines before the first attempt: those of the version, and the memory as it was.
pub fn put_first<W: Write>(page: &mut Page<'_, W>, version: Version, memory: &[u8])
    ensures { Spells W.contents page.old page.new (first_lines version memory.now) (IsBytes memory.now) }
{
    put_version(page, version);
    put_memory(page, memory);
}

/// Writes the lines before the first attempt, and gives the writer the last page of them.
pub fn write_first<W: Write>(page: &mut Page<'_, W>, version: Version, memory: &[u8])
    ensures spells { Spells W.contents page.old page.new (first_lines version memory.now) (IsBytes memory.now) }
    ensures empty { page.new.bytes.items ≡ [] }
{
    put_first(page, version, memory);
    page.flush();
}

/// The last line: the clock, and the memory as it is.
#[tactic(auto, unfolding(crate::specs::Histories::last_line), using(crate::proofs::PagedTexts::carries_as))]
pub fn put_last<W: Write>(page: &mut Page<'_, W>, clock: u64, bytes: &[u8])
    ensures { Spells W.contents page.old page.new (last_line clock bytes.now) (IsWord clock × IsBytes bytes.now) }
{
    page.put(&[
        Piece::Text(b"final "),
        Piece::Number(clock),
        Piece::Text(b" "),
        Piece::Hex(bytes),
        Piece::Text(b"\n"),
    ]);
}

/// Writes the last line, and gives the writer the last page of it.
pub fn write_last<W: Write>(page: &mut Page<'_, W>, clock: u64, bytes: &[u8])
    ensures spells { Spells W.contents page.old page.new
        (last_line clock bytes.now) (IsWord clock × IsBytes bytes.now) }
    ensures empty { page.new.bytes.items ≡ [] }
{
    put_last(page, clock, bytes);
    page.flush();
}
