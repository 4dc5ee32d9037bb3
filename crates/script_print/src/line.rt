//! Lines.

ghost use Rattle.std.specs.Prelude.{◌≡◌, [], ◌∷◌, ◌++◌, OnOk, map};
ghost use Rattle.script_print.specs.Fields.{field_text, lines_text};

use crate::field::{Field, put_field};
use std::alloc::AllocError;

/// Puts a line after the text: a word, and the fields after it.
pub fn put_line(text: &mut Vec<u8>, word: &str, fields: &[Field<'_>]) -> Result<(), AllocError>
    ensures { OnOk result
        (text.new.items ≡ text.old.items ++ lines_text ((word.now ∷ map field_text fields.now) ∷ [])) }
{
    put_field(text, &Field::Word(word))?;
    for field in fields {
        text.push(b' ')?;
        put_field(text, field)?;
    }
    text.push(b'\n')?;
    Ok(())
}
