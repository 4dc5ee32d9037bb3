//! What is seen of its state.

ghost use Rattle.std.specs.Prelude.{◌≡◌, length};

use super::Plain;

impl Plain {
    /// The shared memory.
    pub fn memory(&self) -> &[u8]
        ensures { result.now ≡ self.now.state.memory }
    {
        self.memory.as_slice()
    }

    /// The thread's own bytes.
    pub fn arena(&self) -> &[u8]
        ensures { result.now ≡ self.now.state.arena }
    {
        self.arena.as_slice()
    }

    /// How many blocks are open.
    pub fn depth(&self) -> usize
        ensures { result ≡ length self.now.state.blocks }
    {
        self.marks.len()
    }

    /// Whether a shared byte was written and not rolled back, or the transaction is irrevocable.
    pub fn wrote(&self) -> bool
        ensures { result ≡ self.now.state.wrote }
    {
        self.wrote
    }
}
