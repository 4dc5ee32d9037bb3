//! How much is kept to go back.

ghost use Rattle.std.specs.Prelude.{◌≡◌, ◌≤◌, ◌+◌, ◌*◌, length};
ghost use Rattle.itm_model.specs.Pieces.{pieces_in};

use super::Plain;

impl Plain {
    /// How many old pieces of 32 bytes are kept, however often the same bytes were written: for each open block no
    /// more than the memory has, and as many once more.
    pub fn kept(&self) -> usize
        ensures kept { result ≡ self.now.kept }
        ensures few { self.now.kept
            ≤ pieces_in (length self.now.state.memory) * (length self.now.state.blocks + 1) }
    {
        self.journal.len()
    }
}
