//! A text as lines, and a line as fields.

ghost use Rattle.std.specs.Prelude.{◌≡◌, ◌<◌, ◌≤◌, ◌∷◌, [], length, MatchOption, IfSome, ◌⊎◌, slice_index, false, position};
ghost use Rattle.std.specs.List.{list_all};
ghost use Rattle.std.specs.Str.Lines.{lines, strip_carriage_return};
ghost use Rattle.script_fields.specs.Text.{fields, without_comment, is_allowed, is_ink, is_semicolon};

use crate::scan::{blank_at, feed_at};

fn without_return(line: &[u8]) -> &[u8]
    ensures { result.now ≡ strip_carriage_return line.now }
{
    match line {
        [front @ .., b'\r'] => front,
        _ => line,
    }
}

fn ink_at(line: &[u8]) -> Option<usize>
    ensures { result ≡ position is_ink line.now }
{
    line.iter().position(|b| !(*b == b' ' || *b == b'\t'))
}

fn semicolon_at(line: &[u8]) -> Option<usize>
    ensures { result ≡ position is_semicolon line.now }
{
    line.iter().position(|b| *b == b';')
}

/// The first line, and what stands after it.
#[tactic(auto, using(crate::proofs::FirstLines::line_first, crate::proofs::FirstLines::line_last))]
pub fn first_line(text: &[u8]) -> Option<(&[u8], &[u8])>
    ensures lines { MatchOption result (lines text.now ≡ []) (λ x. lines text.now ≡ x.0.now ∷ lines x.1.now) }
    ensures shorter { IfSome result (λ x. length x.1.now < length text.now) }
{
    if text.is_empty() {
        return None;
    }
    match feed_at(text) {
        None => Some((text, &[])),
        Some(end) => {
            let (line, _) = text.split_at(end);
            let (_, after) = text.split_at(end + 1);
            Some((without_return(line), after))
        }
    }
}

/// The first field, and what stands after it.
#[tactic(auto, using(crate::proofs::FirstLines::field_first, crate::proofs::FirstLines::field_last, crate::proofs::FirstLines::field_none))]
pub fn first_field(line: &[u8]) -> Option<(&[u8], &[u8])>
    ensures fields { MatchOption result (fields line.now ≡ []) (λ x. fields line.now ≡ x.0.now ∷ fields x.1.now) }
    ensures shorter { IfSome result (λ x. length x.1.now < length line.now) }
{
    let start = ink_at(line)?;
    let (_, rest) = line.split_at(start);
    match blank_at(rest) {
        None => Some((rest, &[])),
        Some(end) => {
            let (field, _) = rest.split_at(end);
            let (_, after) = rest.split_at(end + 1);
            Some((field, after))
        }
    }
}

/// The line without its comment.
#[tactic(auto, unfolding(crate::specs::Text::without_comment), using(crate::proofs::FirstLines::before_at, crate::proofs::FirstLines::before_none))]
pub fn code_part(line: &[u8]) -> &[u8]
    ensures { result.now ≡ without_comment line.now }
{
    match semicolon_at(line) {
        None => line,
        Some(end) => &line[..end],
    }
}

/// Whether a line holds only bytes that it may hold outside comments.
pub fn has_allowed(line: &[u8]) -> bool
    ensures { result ≡ list_all is_allowed line.now }
{
    line.iter()
        .all(|b| *b == b'\t' || (b' ' <= *b && *b <= b'~'))
}
