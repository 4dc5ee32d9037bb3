//! Texts in parts.

ghost use Rattle.std.specs.Prelude.{◌++◌, flat_map};
ghost use Rattle.tx_history.specs.Spelling.{Puts, spelled};

use std::io;
use std::io::Write;
use tx_history::{Piece, put_pieces};

/// Writes two texts, one after the other. Where a write fails, what the writer took is a beginning of them.
pub fn put_pair<W: Write>(
    writer: &mut W,
    first: &[Piece<'_>],
    second: &[Piece<'_>],
) -> io::Result<()>
    ensures { Puts (W.contents writer.old) (W.contents writer.new) result (flat_map spelled first.now ++ flat_map spelled second.now) }
{
    put_pieces(writer, first)?;
    put_pieces(writer, second)
}

/// Writes a text. Where a write fails, what the writer took is a beginning of it.
pub fn put_text<W: Write>(writer: &mut W, text: &[u8]) -> io::Result<()>
    ensures { Puts (W.contents writer.old) (W.contents writer.new) result text.now }
{
    put_pieces(writer, &[Piece::Text(text)])
}
