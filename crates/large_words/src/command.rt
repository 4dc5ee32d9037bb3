//! The program's words.

ghost use Rattle.std.specs.Prelude.{◌<◌, ◌≤◌, IfOk};

use crate::fault::Fault;
use crate::layout::{MOST, TRANSACTIONS};
use crate::two_threads::sum_over;
use std::env;
use std::rt::Env;
use std::thread::Threads;

/// How many MiB the words have where nothing is said.
const USUAL: u64 = 256;

/// How many MiB the words are to have.
fn mebibytes_of(words: &[String]) -> Result<u64, Fault>
    ensures some { IfOk result (λ n. 0 < n) }
    ensures most { IfOk result (λ n. n ≤ MOST) }
{
    let [_, word] = words else {
        return if words.len() < 2 {
            Ok(USUAL)
        } else {
            Err(Fault::Usage)
        };
    };
    match word.parse::<u64>() {
        Ok(mebibytes) if mebibytes > 0 && mebibytes <= MOST => Ok(mebibytes),
        _ => Err(Fault::Usage),
    }
}

/// Does what the program's words say.
pub fn run<R: Env + Threads + AllocGlobal + Print>(rt: &R) -> Result<(), Fault> {
    let words: Vec<String> = env::args(rt)?.collect(rt.alloc())?;
    let mebibytes = mebibytes_of(words.as_slice())?;
    let sum = sum_over(rt, mebibytes)?;
    println!(rt;
        "{mebibytes} MiB in place: {TRANSACTIONS} commits by two threads, and then words of the sum {sum}"
    )?;
    Ok(())
}
