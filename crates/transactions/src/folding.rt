//! Many steps in a row with one client.

ghost use Rattle.std.specs.Prelude.{◌≡◌};

use crate::client::Client;

impl Client {
    ghost use Rattle.transactions.specs.Folds.{HasFolded, KeepsWords};

    /// Calls the step so many times, with their numbers from 0 on: each call is given what the one before gave, the first one
    /// `first`, and the last one's value is told. The first error ends it. In place of a loop it needs no invariant.
    pub fn try_fold<T: Drop, E: Drop, F: FnMut(&mut Client, T, u64) -> Result<T, E>>(
        &mut self,
        times: u64,
        first: T,
        mut step: F,
    ) -> Result<T, E>
        requires callable { F.IsAlwaysCallable step }
        ensures folded { HasFolded F.FnMut step self.old first times result self.new }
        ensures words { KeepsWords F.FnMut → self.new.transaction.words ≡ self.old.transaction.words }
    {
        let mut value = first;
        for number in 0..times {
            value = step(self, value, number)?;
        }
        Ok(value)
    }
}
