//! How pictures look.

ghost use Rattle.std.specs.Prelude.{◌≡◌};
ghost use Rattle.tx_history.specs.Spelling.{Puts, spelled};
ghost use Rattle.picture_parts.specs.Looks.{colours_text, front_text, look_text, style_text};

use std::io;
use std::io::Write;
use tx_attempts::Outcome;
use tx_history::{Piece, put_pieces};

const STYLE: &[u8] =
    b"<style>\ntext{font-size:.6px}\npath,circle{fill:none;stroke:#000;stroke-width:.07}\nrect{stroke:#000;stroke-width:.06}\n.ink{fill:#000}\n.note{text-anchor:middle}\n.page{fill:#fff;stroke:none}\n.lane{stroke:#aaa}\n.clear{fill:#fff;stroke:#aaa}\n.held{fill:#aaa;stroke:#aaa}\n.committed{fill:#7fc49b}\n";

/// How texts and lines look.
#[tactic(auto, unfolding(crate::specs::Looks::style_text))]
pub fn style() -> Piece<'static>
    ensures { spelled result ≡ style_text }
{
    Piece::Text(STYLE)
}

const COLOURS: &[u8] =
    b".readonly{fill:#d5efdf}\n.cancelled{fill:#ddd;stroke-dasharray:.4 .1}\n.conflict{fill:#fff;stroke-dasharray:.2 .15}\n.broken{fill:#f3d9b0;stroke-dasharray:.2 .15}\n.unfinished{fill:#eef;stroke-dasharray:.06 .15}\n</style>\n";

/// How bars look, by how their attempts ended.
#[tactic(auto, unfolding(crate::specs::Looks::colours_text))]
pub fn colours() -> Piece<'static>
    ensures { spelled result ≡ colours_text }
{
    Piece::Text(COLOURS)
}

/// How a bar looks, by how its attempt ended.
#[tactic(auto, unfolding(crate::specs::Looks::look_text))]
pub fn look_of(outcome: Outcome) -> &'static [u8]
    ensures { result.now ≡ look_text outcome }
{
    match outcome {
        Outcome::Committed => b"committed",
        Outcome::ReadOnly => b"readonly",
        Outcome::Cancelled => b"cancelled",
        Outcome::Conflict => b"conflict",
        Outcome::Full => b"broken",
        Outcome::NoMemory => b"broken",
        Outcome::Unfinished => b"unfinished",
    }
}

/// Writes how wide the picture is, and how many lanes it has.
#[tactic(auto, unfolding(crate::specs::Looks::front_text))]
pub fn put_front<W: Write>(writer: &mut W, wide: u64, lanes: usize) -> io::Result<()>
    ensures { Puts (W.contents writer.old) (W.contents writer.new) result (front_text wide lanes) }
{
    put_pieces(
        writer,
        &[
            Piece::Text(
                b"<svg xmlns=\"http://www.w3.org/2000/svg\" font-family=\"monospace\" font-size=\"16\" width=\"",
            ),
            Piece::Number(wide),
            Piece::Text(b"em\" height=\""),
            Piece::Number(lanes as u64),
            Piece::Text(b"4em\" viewBox=\"-5 -1 "),
            Piece::Number(wide),
            Piece::Text(b" "),
            Piece::Number(lanes as u64),
            Piece::Text(b"4\">\n"),
        ],
    )
}
