//! What stands in each picture.

ghost use Rattle.std.specs.Prelude.{◌≡◌};
ghost use Rattle.tx_history.specs.Spelling.{Puts, spelled};
ghost use Rattle.step_picture.specs.Styles.{looks_text, shapes_text};

use picture_parts::{colours, style};
use std::io;
use std::io::Write;
use tx_history::{Piece, put_pieces};

const SHAPES: &[u8] =
    b"<defs>\n<path id=\"look\" d=\"M.5 2.6v.6\"/>\n<g id=\"moved\"><path d=\"M.5 2.6v.6\"/><circle cx=\".5\" cy=\"2.9\" r=\".38\"/></g>\n<circle id=\"load\" cx=\".5\" cy=\"2.9\" r=\".22\"/>\n<path id=\"store\" class=\"ink\" d=\"M.27 2.67h.46v.46h-.46z\"/>\n<path id=\"take\" class=\"ink\" d=\"M.17 3.17h.66l-.33-.55z\"/>\n<path id=\"miss\" d=\"M.17 3.17h.66l-.33-.55z\"/>\n<path id=\"free\" class=\"ink\" d=\"M.17 2.63h.66l-.33.55z\"/>\n</defs>\n<rect class=\"page\" x=\"-5\" y=\"-1\" width=\"100%\" height=\"100%\"/>\n";

/// The shapes of events.
#[tactic(auto, unfolding(crate::specs::Styles::shapes_text))]
fn shapes() -> Piece<'static>
    ensures { spelled result ≡ shapes_text }
{
    Piece::Text(SHAPES)
}

/// Writes all of it.
pub(crate) fn put_looks<W: Write>(writer: &mut W) -> io::Result<()>
    ensures { Puts (W.contents writer.old) (W.contents writer.new) result looks_text }
{
    let style = style();
    let colours = colours();
    let shapes = shapes();
    put_pieces(writer, &[style, colours, shapes])
}
