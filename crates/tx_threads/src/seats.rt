//! What each thread is given before any of them starts, so that none wants memory later.

ghost use Rattle.std.specs.Prelude.{◌≡◌, ◌<◌, IfOk, vec_len};
ghost use Rattle.shared_words.specs.Passes.{Owns, view_of};
ghost use Rattle.tx_threads.specs.Seats.{AllNew, HasGivenShares, IsNew, IsNewClient};

use itm_runtime::Thread;
use itm_types::{Limits, MAX_COMMITS, USUAL_DEPTH};
use shared_words::{Pass, Words};
use std::alloc::{AllocError, Global};
use std::sync::Arc;
use transactions::Client;
use undo_log::Arena;

/// The limits of a thread where nothing else is said: a call looks at the clock eight times, and no inner block goes back
/// alone.
pub const USUAL_LIMITS: Limits = Limits {
    patience: 8,
    retries: 0,
    max_commits: MAX_COMMITS,
    depth: USUAL_DEPTH,
    restarts: 0,
};

/// A thread's client, and what its body has given.
#[derive(Drop)]
pub(crate) struct Seat<T> {
    pub client: Client,
    pub value: Option<T>,
}

/// A client of this pass.
fn client_of(
    alloc: Global,
    words: &Arc<Words>,
    pass: Pass,
    tries: u64,
) -> Result<Client, AllocError>
    requires { IsNew words.now.value pass }
    ensures { IfOk result (λ c. IsNewClient words.now.value (view_of pass).base tries c) }
{
    let arena = Arena::new(alloc, 0)?;
    let thread = Thread::new(alloc, &**words, pass, arena, USUAL_LIMITS)?;
    Ok(Client::new(Arc::try_clone(words)?, thread, tries))
}

/// A seat for each of so many threads, whose client has one share. So whatever clients the bodies hand back, as many shares
/// come back with them.
pub(crate) fn seats_for<T: Drop>(
    alloc: Global,
    words: &Arc<Words>,
    pass: &mut Pass,
    threads: u8,
    tries: u64,
) -> Result<Vec<Seat<T>>, AllocError>
    requires own { Owns words.now.value pass.old }
    requires room { threads < (view_of pass.old).share }
    ensures own { Owns words.now.value pass.new }
    ensures shares { IfOk result (λ _. HasGivenShares threads (view_of pass.old) (view_of pass.new)) }
    ensures new { IfOk result (λ seats. AllNew words.now.value (view_of pass.old).base tries seats.items) }
    ensures count { IfOk result (λ seats. vec_len seats ≡ threads) }
{
    let mut seats = Vec::with_capacity(alloc, usize::from(threads))?;
    for _ in 0..threads {
        let own = words.split(pass);
        let client = client_of(alloc, words, own, tries)?;
        seats.push_reserved(Seat {
            client,
            value: None,
        });
    }
    Ok(seats)
}
