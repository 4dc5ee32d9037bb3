//! The attempts of all workers in one list.

ghost use Rattle.std.specs.Prelude.{◌≡◌, IfOk};
ghost use Rattle.report_rules.specs.Joins.{attempts_in, ends_in};

use report_rules::Done;
use std::alloc::{AllocError, Global};
use tx_attempts::Attempts;
use tx_runs::End;

/// What all workers did, by worker: their attempts, one after the other, and how they ended.
pub(crate) fn gather_all(alloc: Global, all: Vec<Done>) -> Result<(Attempts, Vec<End>), AllocError>
    ensures attempts { IfOk result (λ r. r.0 ≡ attempts_in all.items) }
    ensures ends { IfOk result (λ r. r.1.items ≡ ends_in all.items) }
{
    let mut attempts = Vec::new(alloc);
    let mut ends = Vec::new(alloc);
    for done in all {
        let Done { attempts: its, end } = done;
        let mut its = its.into_vec();
        if attempts.is_empty() {
            attempts = its;
        } else {
            attempts.append(&mut its)?;
        }
        ends.reserve(1)?;
        ends.push_reserved(end);
    }
    Ok((Attempts::new(attempts), ends))
}
