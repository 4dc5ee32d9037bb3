//! What a body may end with in place of its value.

ghost use Rattle.std.specs.Prelude.{◌≡◌};
ghost use Rattle.transactions.specs.declared.stopped.Stopped.TheVariants.{Engine};

use itm_runtime::Stop;

/// Why a body has no value. `?` makes it of what a call of the transaction answers.
#[derive(Debug, Drop)]
pub enum Stopped<E> {
    /// The transaction does not go on. A body hands this on as it is.
    Engine(Stop),
    /// The body takes its transaction back, and says why.
    Cancelled(E),
}

impl<E> From<Stop> for Stopped<E> {
    ghost from_gives = { λ stop stopped. stopped ≡ Engine stop };

    fn from(stop: Stop) -> Stopped<E> {
        Stopped::Engine(stop)
    }
}
