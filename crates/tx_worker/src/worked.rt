//! What a worker leaves.

use itm_runtime::Thread;

/// What a thread's run came to.
pub type Worked = worker_rules::Worked<Thread>;
