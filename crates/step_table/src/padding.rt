//! Blanks that fill a column.

ghost use Rattle.std.specs.Prelude.{◌≡◌, ◌-◌, ◌≤◌, flat_map, length, replicate};
ghost use Rattle.tx_history.specs.Spelling.{spelled};

use itoa::Buffer;
use tx_history::Piece;

/// The width of a thread's column.
pub(crate) const WIDTH: usize = 26;

const BLANKS: [u8; WIDTH] = [b' '; WIDTH];

/// How much the piece leaves of the width.
fn left_by(width: usize, piece: &Piece<'_>) -> usize
    ensures { result ≡ width - length (spelled piece.now) }
{
    match piece {
        Piece::Text(text) => width.saturating_sub(text.len()),
        Piece::Number(n) => {
            let mut buffer = Buffer::new();
            width.saturating_sub(buffer.format(*n).len())
        }
        Piece::Hex(bytes) => width
            .saturating_sub(bytes.len())
            .saturating_sub(bytes.len()),
    }
}

/// So many blanks as the pieces leave of the width.
pub(crate) fn blanks_beside(width: usize, pieces: &[Piece<'_>]) -> Piece<'static>
    requires { width ≤ WIDTH }
    ensures { spelled result ≡ replicate (width - length (flat_map spelled pieces.now)) 32 }
{
    let mut left = width;
    for piece in pieces {
        left = left_by(left, piece);
    }
    Piece::Text(&BLANKS[..left])
}
