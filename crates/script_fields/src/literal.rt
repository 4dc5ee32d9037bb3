//! Bytes for registers.

ghost use Rattle.std.specs.Prelude.{◌≡◌};
ghost use Rattle.script_fields.specs.Spelling.{said_bytes};

/// Bytes that a script puts in a register.
#[derive(Clone, Copy, Debug, PartialEq, Eq)]
pub struct Literal {
    /// All bytes of the register: those that the script says, and zeros.
    pub bytes: [u8; 32],
    /// How many of them the script says, 1 to 32.
    pub count: u8,
}

impl Literal {
    /// The bytes that the script says.
    pub fn said(&self) -> &[u8]
        ensures { result.now ≡ said_bytes self.now }
    {
        self.bytes
            .get(..usize::from(self.count))
            .unwrap_or(&self.bytes)
    }
}
