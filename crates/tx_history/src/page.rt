//! A text that goes to its writer page by page, and that stops at the first write that failed.

ghost use Rattle.std.specs.Prelude.{◌≡◌, ◌<◌, ◌≤◌, ◌+◌, ◌++◌, All, [], None, codes, drop, length, flat_map, decimal, is_some, take};
ghost use Rattle.std.specs.Result.{result_err};
ghost use Rattle.hex.specs.Hex.{IsBytes, encode_lower};
ghost use Rattle.tx_history.specs.Bounds.{IsWord, PieceFits};
ghost use Rattle.tx_history.specs.Pages.{Carries, Spells};
ghost use Rattle.tx_history.specs.Spelling.{spelled};

use crate::digits::word_digits;
use crate::pieces::{Piece, put_bytes};
use arrayvec::ArrayVec;
use itoa::Buffer;
use std::io;
use std::io::Write;

/// So many bytes at most stand on a page.
const SIZE: usize = 512;

/// A text on its way to a writer. What is written stands on the page until it is full, or until it is flushed. Once a write
/// has failed, what the writer took is a beginning of the text and not all of it, and what is written after that is lost.
/// A page takes no memory.
#[derive(Drop)]
pub struct Page<'a, W> {
    writer: &'a mut W,
    bytes: ArrayVec<u8, SIZE>,
    /// The error of the write that failed, if one has.
    error: Option<io::Error>,
}

impl<'a, W: Write> Page<'a, W> {
    /// An empty page of a text of which nothing is written.
    pub(crate) fn empty(writer: &'a mut W) -> Self
        ensures same { result.writer.ghost_name ≡ writer.entry.ghost_name }
        ensures writer { result.writer.now ≡ writer.entry.now }
        ensures nothing { (result.bytes.items ≡ []) × (result.error ≡ None) }
    {
        Page {
            writer,
            bytes: ArrayVec::new(),
            error: None,
        }
    }

    /// Begins on an empty page, as the last call of a stream left it: so no invariant has to say that it did.
    #[inline]
    pub(crate) fn begin(&mut self)
        ensures same { self.new.writer.ghost_name ≡ self.old.writer.ghost_name }
        ensures kept { (self.new.writer.now ≡ self.old.writer.now) × (self.new.error ≡ self.old.error) }
        ensures empty { self.new.bytes.items ≡ [] }
    {
        self.bytes.clear();
    }

    /// Whether a write has failed.
    #[inline]
    fn has_failed(&self) -> bool
        ensures { result ≡ is_some self.now.error }
    {
        self.error.is_some()
    }

    /// Gives the writer what stands on the page, which is empty then.
    pub(crate) fn flush(&mut self)
        ensures carries { Carries W.contents self.old self.new [] }
        ensures empty { self.new.bytes.items ≡ [] }
    {
        if !self.has_failed() {
            if let Err(error) = put_bytes(self.writer, self.bytes.as_slice()) {
                self.error = Some(error);
            }
        }
        self.bytes.clear();
    }

    /// Gives the writer the bytes, past the page, which is empty.
    fn give(&mut self, text: &[u8])
        requires page { self.old.bytes.items ≡ [] }
        ensures { Carries W.contents self.old self.new text.now }
    {
        if !self.has_failed() {
            if let Err(error) = put_bytes(self.writer, text) {
                self.error = Some(error);
            }
        }
    }

    /// Writes the bytes, for which the page has no room.
    #[cold]
    #[inline(never)]
    fn bytes_on_next(&mut self, bytes: &[u8])
        ensures { Carries W.contents self.old self.new bytes.now }
    {
        self.flush();
        match self.bytes.try_extend_from_slice(bytes) {
            Ok(()) => {}
            Err(_) => self.give(bytes),
        }
    }

    /// Writes the bytes.
    #[inline]
    pub(crate) fn bytes(&mut self, bytes: &[u8])
        ensures { Carries W.contents self.old self.new bytes.now }
    {
        if self.bytes.try_extend_from_slice(bytes).is_err() {
            self.bytes_on_next(bytes);
        }
    }

    /// Writes a text whose size is known. Its code stands where it is called, with no loop and no call. What goes to the page
    /// is a copy of the text, so that no test looks whether the text lies on the page.
    #[inline(always)]
    pub(crate) fn text<const N: usize>(&mut self, text: &[u8; N])
        ensures { Carries W.contents self.old self.new text.now }
    {
        let copy = *text;
        if self.bytes.try_extend_from_slice(&copy).is_err() {
            self.bytes_on_next(text);
        }
    }

    /// Writes a number below 10.
    #[inline(always)]
    #[tactic(auto, using(crate::proofs::PagedTexts::carries_as, std::proofs::lemmas::Fmt::decimal_digit))]
    fn digit(&mut self, n: u8)
        requires { n < 10 }
        ensures { Carries W.contents self.old self.new (decimal n) }
    {
        self.text(&[b'0' + n]);
    }

    /// Writes a blank and a number below 10.
    #[inline(always)]
    #[tactic(auto, using(crate::proofs::PagedTexts::carries_as, std::proofs::lemmas::Fmt::decimal_digit))]
    fn blank_digit(&mut self, n: u8)
        requires { n < 10 }
        ensures { Carries W.contents self.old self.new (codes " " ++ decimal n) }
    {
        self.text(&[b' ', b'0' + n]);
    }

    fn digits(&mut self, n: u64)
        ensures { Carries W.contents self.old self.new (decimal n) }
    {
        let mut buffer = Buffer::new();
        self.bytes(buffer.format(n).as_bytes());
    }

    /// Writes the number in decimal digits. Most numbers are one, which is written where it is called.
    #[inline(always)]
    pub(crate) fn number(&mut self, n: u64)
        ensures { Spells W.contents self.old self.new (decimal n) (IsWord n) }
    {
        match n {
            0..=9 => self.digit(n as u8),
            _ => self.digits(n),
        }
    }

    /// Writes a blank and the number in decimal digits. Most numbers are one, which is written with the blank.
    #[inline(always)]
    pub(crate) fn blank_number(&mut self, n: u64)
        ensures { Spells W.contents self.old self.new (codes " " ++ decimal n) (IsWord n) }
    {
        match n {
            0..=9 => self.blank_digit(n as u8),
            _ => {
                self.text(b" ");
                self.digits(n);
            }
        }
    }

    fn chunk(&mut self, chunk: &[u8])
        requires { length chunk.now ≤ 32 }
        ensures { Carries W.contents self.old self.new (encode_lower chunk.now) }
    {
        let mut buffer = [0u8; 64];
        let (digits, _) = buffer.split_at_mut(2 * chunk.len());
        let written = hex::encode_to_slice(chunk, digits);
        let holds = written.is_ok();
        prove!(holds);
        self.bytes(digits);
    }

    /// Writes a text in which the 8 bytes of a word stand from a place on, each in two hexadecimal digits. Its code stands
    /// where it is called, so that no digit takes a turn of a loop.
    #[inline(always)]
    fn word_in<const N: usize>(&mut self, text: &[u8; N], at: usize, word: &[u8])
        requires word { length word.now ≡ 8 }
        requires place { at + 16 ≤ N }
        ensures { Carries W.contents self.old self.new
            (take at text.now ++ encode_lower word.now ++ drop (at + 16) text.now) }
    {
        let Some(word) = word.as_array::<8>() else {
            unreachable!();
        };
        let mut text = *text;
        let whole = &mut text[..];
        whole[at..at + 16].copy_from_slice(&word_digits(word));
        self.text(&text);
    }

    #[inline(never)]
    fn hex_in_chunks(&mut self, bytes: &[u8])
        ensures { Spells W.contents self.old self.new (encode_lower bytes.now) (IsBytes bytes.now) }
    {
        let mut at = 0;
        while at < bytes.len() {
            let (_, rest) = bytes.split_at(at);
            let n = rest.len().min(32);
            let (chunk, _) = rest.split_at(n);
            self.chunk(chunk);
            at += n;
        }
    }

    /// Writes the bytes, each in two hexadecimal digits.
    pub(crate) fn hex(&mut self, bytes: &[u8])
        ensures { Spells W.contents self.old self.new (encode_lower bytes.now) (IsBytes bytes.now) }
    {
        if bytes.len() == 8 {
            self.word_in(&[0; 16], 0, bytes);
        } else {
            self.hex_in_chunks(bytes);
        }
    }

    /// Writes a blank and the bytes, each in two hexadecimal digits. Most are a word.
    #[inline(always)]
    pub(crate) fn blank_hex(&mut self, bytes: &[u8])
        ensures { Spells W.contents self.old self.new (codes " " ++ encode_lower bytes.now) (IsBytes bytes.now) }
    {
        if bytes.len() == 8 {
            self.word_in(b" 0123456789abcdef", 1, bytes);
        } else {
            self.text(b" ");
            self.hex_in_chunks(bytes);
        }
    }

    /// Writes the bytes of an answer, up to the end of its line. Most are a word.
    #[inline(always)]
    pub(crate) fn answer(&mut self, bytes: &[u8])
        ensures { Spells W.contents self.old self.new
            (codes " = " ++ encode_lower bytes.now ++ codes "\n") (IsBytes bytes.now) }
    {
        if bytes.len() == 8 {
            self.word_in(b" = 0123456789abcdef\n", 3, bytes);
        } else {
            self.text(b" = ");
            self.hex_in_chunks(bytes);
            self.text(b"\n");
        }
    }

    fn piece(&mut self, piece: &Piece<'_>)
        ensures { Spells W.contents self.old self.new (spelled piece.now) (PieceFits piece.now) }
    {
        match piece {
            Piece::Text(text) => self.bytes(text),
            Piece::Number(n) => self.number(*n),
            Piece::Hex(bytes) => self.hex(bytes),
        }
    }

    /// Writes the pieces one after the other.
    pub(crate) fn put(&mut self, pieces: &[Piece<'_>])
        ensures { Spells W.contents self.old self.new (flat_map spelled pieces.now) (All PieceFits pieces.now) }
    {
        for piece in pieces {
            self.piece(piece);
        }
    }

    /// The error of the write that failed, if one has.
    pub(crate) fn write_result(&self) -> io::Result<()>
        ensures { result_err result ≡ self.now.error }
    {
        match self.error {
            Some(error) => Err(error),
            None => Ok(()),
        }
    }

    /// Gives the writer the last page. Where a write has failed, tells why.
    pub(crate) fn close(&mut self) -> io::Result<()>
        ensures carries { Carries W.contents self.old self.new [] }
        ensures empty { self.new.bytes.items ≡ [] }
        ensures told { result_err result ≡ self.new.error }
    {
        self.flush();
        self.write_result()
    }
}
