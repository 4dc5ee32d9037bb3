//! What is wrong with a text, and what is said of that.

ghost use Rattle.std.specs.Prelude.{ℕ, List};
ghost use Rattle.tx_history.specs.Spelling.{Puts};
ghost use Rattle.text_commands.specs.Lines.{fault_line, script_line, history_line};

use history_reader::ReadFault;
use script_asm::AsmFault;
use std::io;
use std::io::Write;
use tx_history::{Piece, put_pieces};

/// What is wrong with a text.
pub trait Fault {
    /// What is said of it.
    ghost line: { Self → List ℕ };

    /// Writes the line on it.
    fn put_line<E: Write>(&self, errors: &mut E) -> io::Result<()>
        ensures { Puts (E.contents errors.old) (E.contents errors.new) result (line self.now) };
}

/// Writes the line on a fault: the number of the text's line, and the words.
#[tactic(auto, unfolding(crate::specs::Lines::fault_line), using(tx_history::proofs::TextPieces::put_as))]
fn put_fault<E: Write>(errors: &mut E, line: usize, words: &[u8]) -> io::Result<()>
    ensures { Puts (E.contents errors.old) (E.contents errors.new) result (fault_line line words.now) }
{
    put_pieces(
        errors,
        &[
            Piece::Text(b"itmrun: line "),
            Piece::Number(line as u64),
            Piece::Text(b": "),
            Piece::Text(words),
            Piece::Text(b"\n"),
        ],
    )
}

impl Fault for AsmFault {
    ghost line = { script_line };

    fn put_line<E: Write>(&self, errors: &mut E) -> io::Result<()> {
        put_fault(errors, self.line, self.kind.text().as_bytes())
    }
}

impl Fault for ReadFault {
    ghost line = { history_line };

    fn put_line<E: Write>(&self, errors: &mut E) -> io::Result<()> {
        put_fault(errors, self.line, self.kind.text().as_bytes())
    }
}
