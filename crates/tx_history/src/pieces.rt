//! Pieces of text, written as they come.

ghost use Rattle.std.specs.Prelude.{flat_map};
ghost use Rattle.tx_history.specs.Spelling.{Puts, spelled};

use crate::page::Page;
use std::io;
use std::io::Write;

/// A piece of text.
#[derive(Clone, Copy)]
pub enum Piece<'a> {
    /// These bytes.
    Text(&'a [u8]),
    /// A number in decimal digits.
    Number(u64),
    /// Bytes, each in two hexadecimal digits.
    Hex(&'a [u8]),
}

/// Writes the bytes. Where a write fails, what the writer took is a beginning of them.
#[tactic(auto, using(crate::proofs::TextPieces::starts, crate::proofs::TextPieces::grown, crate::proofs::TextPieces::stays, crate::proofs::TextPieces::whole))]
pub(crate) fn put_bytes<W: Write>(writer: &mut W, bytes: &[u8]) -> io::Result<()>
    ensures { Puts (W.contents writer.old) (W.contents writer.new) result bytes.now }
{
    let mut at = 0;
    while at < bytes.len() {
        let (_, rest) = bytes.split_at(at);
        let n = writer.write(rest)?;
        if n == 0 {
            return Err(io::ErrorKind::WriteZero.into());
        }
        at += n;
    }
    Ok(())
}

/// Writes the pieces one after the other. Where a write fails, what the writer took is a beginning of them.
pub fn put_pieces<W: Write>(writer: &mut W, pieces: &[Piece<'_>]) -> io::Result<()>
    ensures { Puts (W.contents writer.old) (W.contents writer.new) result (flat_map spelled pieces.now) }
{
    let mut page = Page::empty(writer);
    page.put(pieces);
    page.close()
}
