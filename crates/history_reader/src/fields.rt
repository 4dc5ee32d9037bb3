//! A text as lines, and a line as fields: each line ends in a line feed, and fields have one space between them.

ghost use Rattle.std.specs.Prelude.{◌≡◌, ◌<◌, ◌∷◌, [], length, MatchOption, IfSome, Some, None, position};
ghost use Rattle.std.specs.List.{slice_split};
ghost use Rattle.script_fields.specs.Text.{is_feed};
ghost use Rattle.script_fields.specs.Operands.{Sees};
ghost use Rattle.history_reader.specs.Fields.{is_space, fields, rest_fields, next, next_three, none, one, equals};

use script_fields::FaultKind;

fn feed_at(text: &[u8]) -> Option<usize>
    ensures { result ≡ position is_feed text.now }
{
    text.iter().position(|b| *b == b'\n')
}

fn space_at(line: &[u8]) -> Option<usize>
    ensures { result ≡ position is_space line.now }
{
    line.iter().position(|b| *b == b' ')
}

/// The first line that ends, and what stands after its line feed.
#[tactic(auto, using(script_fields::proofs::FirstLines::parts_first, script_fields::proofs::FirstLines::parts_last))]
pub fn first_line(text: &[u8]) -> Option<(&[u8], &[u8])>
    ensures lines { MatchOption result (slice_split is_feed text.now ≡ text.now ∷ []) (λ x. slice_split is_feed text.now ≡ x.0.now ∷ slice_split is_feed x.1.now) }
    ensures shorter { IfSome result (λ x. length x.1.now < length text.now) }
{
    let end = feed_at(text)?;
    let (line, _) = text.split_at(end);
    let (_, after) = text.split_at(end + 1);
    Some((line, after))
}

/// The first field, and what stands after its space, where there is one.
#[tactic(auto, unfolding(crate::specs::Fields::fields), using(script_fields::proofs::FirstLines::parts_first, script_fields::proofs::FirstLines::parts_last))]
pub fn first_field(line: &[u8]) -> (&[u8], Option<&[u8]>)
    ensures { fields line.now ≡ result.0.now ∷ rest_fields result.1 }
{
    match space_at(line) {
        None => (line, None),
        Some(end) => {
            let (field, _) = line.split_at(end);
            let (_, after) = line.split_at(end + 1);
            (field, Some(after))
        }
    }
}

/// The next field, and what stands after it.
#[tactic(auto, unfolding(crate::specs::Fields::next))]
pub fn next_field(rest: Option<&[u8]>) -> Result<(&[u8], Option<&[u8]>), FaultKind>
    ensures { Sees (λ x. (x.0.now, rest_fields x.1)) result (next (rest_fields rest.entry)) }
{
    match rest {
        None => Err(FaultKind::Operand),
        Some(rest) => Ok(first_field(rest)),
    }
}

/// The next three fields, and what stands after them.
#[tactic(auto, unfolding(crate::specs::Fields::next_three))]
pub fn three_fields(rest: Option<&[u8]>) -> Result<(&[u8], &[u8], &[u8], Option<&[u8]>), FaultKind>
    ensures { Sees (λ x. (x.0.now, x.1.now, x.2.now, rest_fields x.3)) result (next_three (rest_fields rest.entry)) }
{
    let (first, rest) = next_field(rest)?;
    let (second, rest) = next_field(rest)?;
    let (third, rest) = next_field(rest)?;
    Ok((first, second, third, rest))
}

/// No field.
#[tactic(auto, unfolding(crate::specs::Fields::none))]
pub fn no_field(rest: Option<&[u8]>) -> Result<(), FaultKind>
    ensures { result ≡ none (rest_fields rest.entry) }
{
    match rest {
        None => Ok(()),
        Some(rest) => {
            let _ = first_field(rest);
            Err(FaultKind::Operand)
        }
    }
}

/// One field.
#[tactic(auto, unfolding(crate::specs::Fields::one))]
pub fn one_field(rest: Option<&[u8]>) -> Result<&[u8], FaultKind>
    ensures { Sees (λ x. x.now) result (one (rest_fields rest.entry)) }
{
    let (first, rest) = next_field(rest)?;
    no_field(rest)?;
    Ok(first)
}

/// What stands after the sign between a call and its reply.
#[tactic(auto, unfolding(crate::specs::Fields::equals))]
pub fn equals(rest: Option<&[u8]>) -> Result<Option<&[u8]>, FaultKind>
    ensures { Sees rest_fields result (equals (rest_fields rest.entry)) }
{
    let (sign, rest) = next_field(rest)?;
    if sign == b"=".as_slice() {
        Ok(rest)
    } else {
        Err(FaultKind::Operand)
    }
}
