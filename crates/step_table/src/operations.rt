//! Operations in words.

ghost use Rattle.std.specs.Prelude.{◌≡◌, ◌*◌, ◌-◌, ◌<◌, ◌++◌, decimal, flat_map};
ghost use Rattle.tx_history.specs.Spelling.{spelled};
ghost use Rattle.step_table.specs.Table.{cell_text, exchange_text, operation_text};

use itm_types::Step;
use norec_world::Operation;
use tx_history::Piece;

/// No text.
pub(crate) const NOTHING: Piece<'static> = Piece::Text(b"");

/// The number of the first byte of the word that is this cell.
pub(crate) fn place_of(cell: u32) -> u64
    requires { 0 < cell }
    ensures { result ≡ 8 * (cell - 1) }
{
    u64::from(cell - 1) * 8
}

/// What is told of a cell: the clock, or a word of the memory, with a sign and a value behind it.
#[tactic(auto, unfolding(crate::specs::Table::cell_text))]
fn cell_pieces(cell: u32, sign: &'static [u8], value: u64) -> [Piece<'static>; 5]
    ensures { flat_map spelled result ≡ cell_text cell ++ sign.now ++ decimal value }
{
    let sign = Piece::Text(sign);
    let value = Piece::Number(value);
    if cell == 0 {
        [Piece::Text(b"clock"), sign, value, NOTHING, NOTHING]
    } else {
        [
            Piece::Text(b"["),
            Piece::Number(place_of(cell)),
            Piece::Text(b"]"),
            sign,
            value,
        ]
    }
}

/// An exchange of the clock, and what it finds where that is something else.
#[tactic(auto, unfolding(crate::specs::Table::exchange_text))]
fn exchange_pieces(from: u64, found: u64) -> [Piece<'static>; 5]
    ensures { flat_map spelled result ≡ exchange_text from found }
{
    let take = Piece::Text(b"take ");
    let wanted = Piece::Number(from);
    if found == from {
        [take, wanted, NOTHING, NOTHING, NOTHING]
    } else {
        [
            take,
            wanted,
            Piece::Text(b": finds "),
            Piece::Number(found),
            NOTHING,
        ]
    }
}

/// The operation, with what it finds.
#[tactic(auto, unfolding(crate::specs::Table::step_text))]
pub fn operation_pieces(operation: Operation) -> [Piece<'static>; 5]
    ensures { flat_map spelled result ≡ operation_text operation }
{
    match operation.step {
        Step::Load(cell) => cell_pieces(cell, b" = ", operation.found),
        Step::Store(cell, value) => cell_pieces(cell, b" := ", value),
        Step::Cas(_, from, _) => exchange_pieces(from, operation.found),
    }
}
