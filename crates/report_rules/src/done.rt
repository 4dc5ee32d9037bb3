//! What a worker did.

use tx_attempts::Attempts;
use tx_runs::End;

/// What a worker did, without its pass.
#[derive(Drop)]
pub struct Done {
    pub attempts: Attempts,
    pub end: End,
}
