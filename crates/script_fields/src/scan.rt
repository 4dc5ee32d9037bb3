//! The first blank and the first line feed, several bytes at a time.

ghost use Rattle.std.specs.Prelude.{◌≡◌, map, position};
ghost use Rattle.std.specs.Simd.Lanes.{mask_l};
ghost use Rattle.script_fields.specs.Text.{is_blank, is_feed};

use std::simd::prelude::*;

/// A bit for each byte, which is set where it is a blank.
#[inline(always)]
fn blanks(bytes: u8x8) -> u64
    ensures { result ≡ mask_l (map is_blank bytes) }
{
    (bytes.simd_eq(u8x8::splat(b' ')) | bytes.simd_eq(u8x8::splat(b'\t'))).to_bitmask()
}

/// The same of line feeds.
#[inline(always)]
fn feeds(bytes: u8x16) -> u64
    ensures { result ≡ mask_l (map is_feed bytes) }
{
    bytes.simd_eq(u8x16::splat(b'\n')).to_bitmask()
}

fn blank_slowly(line: &[u8]) -> Option<usize>
    ensures { result ≡ position is_blank line.now }
{
    line.iter().position(|b| *b == b' ' || *b == b'\t')
}

fn feed_slowly(text: &[u8]) -> Option<usize>
    ensures { result ≡ position is_feed text.now }
{
    text.iter().position(|b| *b == b'\n')
}

/// Where the first blank stands. Fields are short, so 8 bytes are looked at in a time.
#[inline(always)]
#[tactic(auto, using(crate::proofs::Scans::further, crate::proofs::Scans::nowhere))]
pub fn blank_at(line: &[u8]) -> Option<usize>
    ensures { result ≡ position is_blank line.now }
{
    let mut at = 0;
    while 8 <= line.len() - at {
        let found = blanks(u8x8::from_slice(&line[at..]));
        if found != 0 {
            return Some(at + found.trailing_zeros() as usize);
        }
        at += 8;
    }
    let further = blank_slowly(&line[at..])?;
    Some(at + further)
}

/// Where the first line feed stands.
#[inline(always)]
#[tactic(auto, using(crate::proofs::Scans::further, crate::proofs::Scans::nowhere))]
pub fn feed_at(text: &[u8]) -> Option<usize>
    ensures { result ≡ position is_feed text.now }
{
    let mut at = 0;
    while 16 <= text.len() - at {
        let found = feeds(u8x16::from_slice(&text[at..]));
        if found != 0 {
            return Some(at + found.trailing_zeros() as usize);
        }
        at += 16;
    }
    let further = feed_slowly(&text[at..])?;
    Some(at + further)
}
