//! The ways back of blocks that run again.

ghost use Rattle.std.specs.Prelude.{◌≡◌, ◌<◌, ◌^◌, flat_map};
ghost use Rattle.tx_history.specs.Spelling.{spelled};
ghost use Rattle.step_picture.specs.Picture.{back_text, restart_text};

use crate::bars::NOTHING;
use crate::mark::{Came, Mark};
use crate::walks::back_in;
use tx_history::Piece;

/// The way back to behind the event at the other place.
#[tactic(auto, unfolding(crate::specs::Picture::back_text))]
fn way_back<'a>(at: usize, lane: usize, back: usize) -> [Piece<'a>; 9]
    requires { back < 2 ^ 63 }
    ensures { flat_map spelled result ≡ back_text at lane back }
{
    [
        Piece::Text(b"<g transform=\"translate(0 "),
        Piece::Number(lane as u64),
        Piece::Text(b"0)\"><path d=\"M"),
        Piece::Number(at as u64),
        Piece::Text(b".5 2.5V2.1H"),
        Piece::Number((back + 1) as u64),
        Piece::Text(b"v.4m-.15-.2l.15.2l.15-.2\"/><text text-anchor=\"end\" x=\""),
        Piece::Number(at as u64),
        Piece::Text(b".5\" y=\"1.9\">restarted</text></g>\n"),
    ]
}

/// The way back of the block that runs again with the event at this place; nothing, where none does.
#[tactic(auto, unfolding(crate::specs::Picture::restart_text))]
pub(crate) fn restart<'a>(marks: &[Mark], at: usize, lane: usize, mark: &Mark) -> [Piece<'a>; 9]
    requires { at < 2 ^ 63 }
    ensures { flat_map spelled result ≡ restart_text marks.now at lane mark.now mark.now.came }
{
    match mark.came {
        Came::GoesOn => [NOTHING; 9],
        Came::Begun => [NOTHING; 9],
        Came::NotBegun => [NOTHING; 9],
        Came::Replied => [NOTHING; 9],
        Came::Restarted(kept) => way_back(at, lane, back_in(marks, mark.event.thread, kept, at)),
        Came::Ended(..) => [NOTHING; 9],
    }
}
