//! Writing a whole text.

ghost use Rattle.std.specs.Prelude.{◌≡◌, IfErr, flat_map};
ghost use Rattle.tx_history.specs.Spelling.{Writes, spelled};
ghost use Rattle.text_commands.specs.declared.failure.Failure.TheVariants.{Writing};

use crate::failure::Failure;
use std::io;
use std::io::Write;
use tx_history::{Piece, put_pieces};

/// Writes the pieces one after the other, and hands on what the writer holds back.
fn put_whole<W: Write>(writer: &mut W, pieces: &[Piece<'_>]) -> io::Result<()>
    ensures { Writes (W.contents writer.old) (W.contents writer.new) result (flat_map spelled pieces.now) }
{
    put_pieces(writer, pieces)?;
    writer.flush()
}

/// Writes a text that consists of these pieces.
pub fn write_pieces<F, W: Write>(writer: &mut W, pieces: &[Piece<'_>]) -> Result<(), Failure<F>>
    ensures writes { Writes (W.contents writer.old) (W.contents writer.new) result (flat_map spelled pieces.now) }
    ensures failure { IfErr result (λ failure. failure ≡ Writing) }
{
    put_whole(writer, pieces).map_err(|_| Failure::Writing)
}
