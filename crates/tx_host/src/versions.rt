//! Which version of a history's text tells of a program's runs.

ghost use Rattle.std.specs.Prelude.{◌≡◌};
ghost use Rattle.report_rules.specs.Versions.{version_of};

use itm_types::{Depth, USUAL_DEPTH};
use script_program::Program;
use tx_history::{EARLY_ACTORS, EARLY_MEMORY, Version};

/// Where the program has the usual depth, and no larger a memory and no more threads than the first two versions tell of, the
/// second one if inner blocks may run again, and the first one if none may; else the third one, with the program's depth.
pub fn version_of(program: &Program) -> Version
    ensures { result ≡ version_of program.now }
{
    let limits = program.limits();
    let size = program.size();
    let threads = program.threads();
    if limits.depth == USUAL_DEPTH && size <= EARLY_MEMORY && threads <= EARLY_ACTORS {
        if limits.restarts == 0 {
            Version::One
        } else {
            Version::Two
        }
    } else {
        Version::Three(Depth::new(limits.depth).unwrap())
    }
}
