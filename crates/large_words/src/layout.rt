//! Where the transactions add, and how much.

ghost use Rattle.std.specs.Prelude.{◌≡◌, ◌+◌, ◌*◌, ◌/◌, ◌<◌, ◌≤◌};
ghost use Rattle.large_words.specs.Layout.{added_to};

/// How many words a MiB has.
pub const MEBIBYTE: u64 = 131_072;

/// How many words a page has.
pub const PAGE: u64 = 512;

/// How many transactions there are: as many as a MiB has pages.
pub const TRANSACTIONS: u64 = 256;

/// How many MiB there may be: with one more there would be too many words.
pub const MOST: u64 = 32_767;

/// The word in the middle of this page of this MiB.
pub fn middle_of(mebibyte: u64, page: u64) -> u64
    requires mebibyte { mebibyte < MOST }
    requires page { page < TRANSACTIONS }
    ensures { result ≡ MEBIBYTE * mebibyte + PAGE * page + PAGE / 2 }
{
    MEBIBYTE * mebibyte + PAGE * page + PAGE / 2
}

/// What all transactions together add to a word, of so many.
pub fn added_to(words: u64, word: u64) -> u64
    requires { word < words }
    ensures value { result ≡ added_to words word }
    ensures few { result ≤ TRANSACTIONS }
{
    if word == 0 || word + 1 == words {
        TRANSACTIONS
    } else if word % PAGE == PAGE / 2 {
        1
    } else {
        0
    }
}
