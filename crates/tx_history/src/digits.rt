//! Hexadecimal digits of a word.

ghost use Rattle.std.specs.Prelude.{◌≡◌, ◌<◌, slice_index};
ghost use Rattle.hex.specs.Hex.{encode_lower, lower_digits};

/// The digit of a number below 16. It is worked out and not looked up: so several are at once.
#[inline(always)]
fn digit(n: u8) -> u8
    requires { n < 16 }
    ensures { result ≡ slice_index lower_digits n }
{
    if n < 10 { b'0' + n } else { b'a' + (n - 10) }
}

/// The bytes of a word, each in two digits.
#[inline(always)]
pub(crate) fn word_digits(word: &[u8; 8]) -> [u8; 16]
    ensures { result ≡ encode_lower word.now }
{
    let mut digits = [0; 16];
    'bytes: for i in 0..8 {
        let byte = word[i];
        digits[2 * i] = digit(byte / 16);
        digits[2 * i + 1] = digit(byte % 16);
    }
    digits
}
