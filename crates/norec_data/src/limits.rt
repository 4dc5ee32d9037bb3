//! What of the limits an engine asks for again and again.

/// What the transactions of one engine may use up.
#[derive(Drop)]
pub struct EngineLimits {
    /// How many validation rounds one call may start, and how many odd clocks a begin may find: 1 to 1,000.
    pub patience: u32,
    /// How many writers may commit: 1 to 2^62 - 1.
    pub max_commits: u64,
    /// How often inner blocks of one transaction may go back to their begins alone.
    pub restarts: u32,
}
