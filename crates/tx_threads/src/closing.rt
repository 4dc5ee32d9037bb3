//! What all commits have left, read by the only pass that is left.

ghost use Rattle.std.specs.Prelude.{◌≡◌, ◌+◌, ◌*◌, ◌≤◌, false, length};
ghost use Rattle.shared_words.specs.Good.{EndsWith};
ghost use Rattle.shared_words.specs.Passes.{Owns, cells_of, view_of};

use itm_types::{Step, put_word};
use shared_words::{Pass, Words};

/// Reads the words into these bytes, by the pass that has the whole share. Tells the clock.
pub(crate) fn read_all(words: &Words, pass: Pass, bytes: &mut [u8]) -> u64
    requires own { Owns words.now pass }
    requires whole { 128 ≤ (view_of pass).share }
    requires idle { (view_of pass).holds ≡ false }
    requires size { length bytes.old + 8 ≡ 8 * cells_of words.now }
    ensures { EndsWith (view_of pass) result bytes.new }
{
    let mut pass = pass;
    let clock = words.step(&mut pass, Step::Load(0));
    for i in 0..words.size() / 8 {
        let word = words.step(&mut pass, Step::Load(i as u32 + 1));
        put_word(bytes, 8 * i, word);
    }
    clock
}
