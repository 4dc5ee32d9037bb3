//! The fields of a line.

ghost use Rattle.std.specs.Prelude.{◌≡◌, ◌++◌, OnOk, decimal};
ghost use Rattle.hex.specs.Hex.{encode_lower};
ghost use Rattle.script_print.specs.Printing.{item_text};
ghost use Rattle.script_print.specs.Fields.{field_text};

use itoa::Buffer;
use script_fields::{Place, Register};
use script_program::Item;
use std::alloc::AllocError;

/// What stands between blanks.
#[derive(Clone, Copy)]
pub enum Field<'a> {
    /// This word.
    Word(&'a str),
    /// A number in decimal digits.
    Number(u64),
    /// A register's name.
    Register(Register),
    /// A number or a register's name.
    Place(Place),
    /// Bytes, each in two hexadecimal digits.
    Bytes(&'a [u8]),
    /// An item of a schedule.
    Item(Item),
}

fn put_word(text: &mut Vec<u8>, word: &str) -> Result<(), AllocError>
    ensures { OnOk result (text.new.items ≡ text.old.items ++ word.now) }
{
    text.extend_from_slice(word.as_bytes())
}

fn put_number(text: &mut Vec<u8>, number: u64) -> Result<(), AllocError>
    ensures { OnOk result (text.new.items ≡ text.old.items ++ decimal number) }
{
    let mut buffer = Buffer::new();
    put_word(text, buffer.format(number))
}

fn put_bytes(text: &mut Vec<u8>, bytes: &[u8]) -> Result<(), AllocError>
    ensures { OnOk result (text.new.items ≡ text.old.items ++ encode_lower bytes.now) }
{
    let digits = hex::encode(*text.allocator(), bytes)?;
    put_word(text, &digits)
}

fn put_item(text: &mut Vec<u8>, item: Item) -> Result<(), AllocError>
    ensures { OnOk result (text.new.items ≡ text.old.items ++ item_text item) }
{
    put_number(text, u64::from(item.thread()))?;
    match item {
        Item::Take(_, count) => {
            text.push(b'x')?;
            put_number(text, u64::from(count))
        }
        Item::Out(_) => {
            text.push(b'!')?;
            Ok(())
        }
    }
}

/// Puts the field after the text.
pub fn put_field(text: &mut Vec<u8>, field: &Field<'_>) -> Result<(), AllocError>
    ensures { OnOk result (text.new.items ≡ text.old.items ++ field_text field.now) }
{
    match *field {
        Field::Word(word) => put_word(text, word),
        Field::Number(number) | Field::Place(Place::Number(number)) => put_number(text, number),
        Field::Register(register) | Field::Place(Place::Register(register)) => {
            put_word(text, register.name())
        }
        Field::Bytes(bytes) => put_bytes(text, bytes),
        Field::Item(item) => put_item(text, item),
    }
}
