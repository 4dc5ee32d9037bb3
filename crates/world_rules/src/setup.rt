//! What a world begins with.

use itm_types::Limits;
use tx_attempts::Bytes;

/// What a world begins with, beside its players.
#[derive(Debug, Drop)]
pub struct Setup {
    /// The shared memory: 8 to 1,048,576 bytes, whole words of 8.
    pub bytes: Bytes,
    /// How many bytes each actor's arena has: at most 4,096.
    pub arena: u32,
    pub limits: Limits,
}
