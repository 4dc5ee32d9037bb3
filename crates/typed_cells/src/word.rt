//! Values that lie in a word each.

ghost use Rattle.std.specs.Prelude.{◌≡◌, ℕ, ◌+◌, ◌*◌, ◌/◌, ◌%◌, ◌^◌, ◌<◌, ◌==◌, not, cond, refl};
ghost use Rattle.std.specs.Int.{w64, cast_signed, cast_unsigned, from_le_bytes, to_le_bytes};
ghost use Rattle.std.specs.Int.RustNames.{FitsSigned};
ghost use Rattle.typed_cells.specs.Words.{AreEight};
ghost use Rattle.typed_cells.specs.ComesBack.{byte_back, bool_back, bytes_back, long_back, pair_back, short_back, signed_back};

/// A value that a word of the memory has room for.
pub trait Word: Copy {
    ghost number: { Self → ℕ };

    ghost value: { ℕ → Self };

    ghost fits: { Self → Type 0 };

    /// The number that stands for it.
    fn to_number(self) -> u64
        ensures number { result ≡ number self }
        ensures fits { fits self };

    /// What the word stands for. Of one that stands for no value it is any.
    fn of_number(word: u64) -> Self
        ensures value { result ≡ value word }
        ensures fits { fits result };

    // it comes back as it was
    ghost comes_back: { (x : Self) → fits x → value (number x) ≡ x };
}

impl Word for u8 {
    ghost number = { λ x. x };

    ghost value = { λ n. n % 256 };

    ghost fits = { λ x. x < 256 };

    fn to_number(self) -> u64 {
        u64::from(self)
    }

    fn of_number(word: u64) -> u8 {
        (word % 256) as u8
    }

    ghost comes_back = { byte_back };
}

impl Word for u16 {
    ghost number = { λ x. x };

    ghost value = { λ n. n % 2 ^ 16 };

    ghost fits = { λ x. x < 2 ^ 16 };

    fn to_number(self) -> u64 {
        u64::from(self)
    }

    fn of_number(word: u64) -> u16 {
        (word % 65_536) as u16
    }

    ghost comes_back = { short_back };
}

impl Word for u32 {
    ghost number = { λ x. x };

    ghost value = { λ n. n % 2 ^ 32 };

    ghost fits = { λ x. x < 2 ^ 32 };

    fn to_number(self) -> u64 {
        u64::from(self)
    }

    fn of_number(word: u64) -> u32 {
        (word % 4_294_967_296) as u32
    }

    ghost comes_back = { long_back };
}

impl Word for u64 {
    ghost number = { λ x. x };

    ghost value = { λ n. n };

    ghost fits = { λ x. x < 2 ^ 64 };

    fn to_number(self) -> u64 {
        self
    }

    fn of_number(word: u64) -> u64 {
        word
    }

    ghost comes_back = { λ x h. refl };
}

impl Word for i64 {
    ghost number = { λ x. cast_unsigned w64 x };

    ghost value = { λ n. cast_signed w64 n };

    ghost fits = { FitsSigned w64 };

    fn to_number(self) -> u64 {
        self.cast_unsigned()
    }

    fn of_number(word: u64) -> i64 {
        word.cast_signed()
    }

    ghost comes_back = { signed_back };
}

impl Word for bool {
    ghost number = { λ b. cond b 1 0 };

    ghost value = { λ n. not (n == 0) };

    ghost fits = { λ b. Unit {0} };

    fn to_number(self) -> u64 {
        if self { 1 } else { 0 }
    }

    fn of_number(word: u64) -> bool {
        word != 0
    }

    ghost comes_back = { bool_back };
}

/// Eight bytes, the low one first.
impl Word for [u8; 8] {
    ghost number = { λ bytes. from_le_bytes w64 bytes };

    ghost value = { λ n. to_le_bytes w64 n };

    ghost fits = { AreEight };

    fn to_number(self) -> u64 {
        u64::from_le_bytes(self)
    }

    fn of_number(word: u64) -> [u8; 8] {
        word.to_le_bytes()
    }

    ghost comes_back = { bytes_back };
}

/// Two numbers, the first one low.
impl Word for (u32, u32) {
    ghost number = { λ p. p.0 + 2 ^ 32 * p.1 };

    ghost value = { λ n. (n % 2 ^ 32, n / 2 ^ 32) };

    ghost fits = { λ p. (p.0 < 2 ^ 32) × (p.1 < 2 ^ 32) };

    fn to_number(self) -> u64 {
        u64::from(self.0) + 4_294_967_296 * u64::from(self.1)
    }

    fn of_number(word: u64) -> (u32, u32) {
        ((word % 4_294_967_296) as u32, (word / 4_294_967_296) as u32)
    }

    ghost comes_back = { pair_back };
}
