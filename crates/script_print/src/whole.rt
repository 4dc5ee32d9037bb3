//! Whole programs.

ghost use Rattle.std.specs.Prelude.{◌≡◌, [], ◌∷◌, ◌++◌, IfOk, OnOk, map};
ghost use Rattle.std.specs.List.{flat_map};
ghost use Rattle.script_print.specs.Fields.{lines_text};
ghost use Rattle.script_print.specs.Printing.{depth_lines, init_fields, item_fields, limit_lines, number_fields, part_lines, printed, restart_lines, SaysAgain};

use crate::field::Field;
use crate::line::put_line;
use crate::section::put_section;
use itm_types::USUAL_DEPTH;
use script_program::{Init, Item, Program};
use std::alloc::{AllocError, Global};

fn put_number(text: &mut Vec<u8>, word: &str, number: u64) -> Result<(), AllocError>
    ensures { OnOk result (text.new.items ≡ text.old.items ++ lines_text (number_fields word.now number ∷ [])) }
{
    put_line(text, word, &[Field::Number(number)])
}

#[tactic(auto, using(crate::proofs::Texts::LineTexts::none_put))]
fn put_restarts(text: &mut Vec<u8>, restarts: u32) -> Result<(), AllocError>
    ensures { OnOk result (text.new.items ≡ text.old.items ++ lines_text (restart_lines restarts)) }
{
    if restarts == 0 {
        return Ok(());
    }
    put_number(text, ".restarts", u64::from(restarts))
}

#[tactic(auto, using(crate::proofs::Texts::LineTexts::none_put))]
fn put_depth(text: &mut Vec<u8>, depth: u8) -> Result<(), AllocError>
    ensures { OnOk result (text.new.items ≡ text.old.items ++ lines_text (depth_lines depth)) }
{
    if depth == USUAL_DEPTH {
        return Ok(());
    }
    put_number(text, ".depth", u64::from(depth))
}

fn put_limits(text: &mut Vec<u8>, program: &Program) -> Result<(), AllocError>
    ensures { OnOk result (text.new.items ≡ text.old.items ++ lines_text (limit_lines program.now)) }
{
    let limits = program.limits();
    put_number(text, ".memory", program.size() as u64)?;
    put_number(text, ".arena", program.arena() as u64)?;
    put_number(text, ".patience", u64::from(limits.patience))?;
    put_number(text, ".retries", u64::from(limits.retries))?;
    put_number(text, ".commits", limits.max_commits)?;
    put_restarts(text, limits.restarts)?;
    put_depth(text, limits.depth)
}

fn put_init(text: &mut Vec<u8>, init: &Init) -> Result<(), AllocError>
    ensures { OnOk result (text.new.items ≡ text.old.items ++ lines_text (init_fields init.now ∷ [])) }
{
    put_line(
        text,
        ".init",
        &[Field::Number(init.at() as u64), Field::Bytes(init.bytes())],
    )
}

fn put_inits(text: &mut Vec<u8>, inits: &[Init]) -> Result<(), AllocError>
    ensures { OnOk result (text.new.items ≡ text.old.items ++ lines_text (map init_fields inits.now)) }
{
    for init in inits {
        put_init(text, init)?;
    }
    Ok(())
}

fn put_item(text: &mut Vec<u8>, item: Item) -> Result<(), AllocError>
    ensures { OnOk result (text.new.items ≡ text.old.items ++ lines_text (item_fields item ∷ [])) }
{
    put_line(text, ".schedule", &[Field::Item(item)])
}

fn put_items(text: &mut Vec<u8>, items: &[Item]) -> Result<(), AllocError>
    ensures { OnOk result (text.new.items ≡ text.old.items ++ lines_text (map item_fields items.now)) }
{
    for item in items {
        put_item(text, *item)?;
    }
    Ok(())
}

fn put_sections(text: &mut Vec<u8>, program: &Program) -> Result<(), AllocError>
    ensures { OnOk result (text.new.items ≡ text.old.items ++ lines_text (flat_map part_lines program.now.parts)) }
{
    for index in 0..program.sections() {
        let (count, code) = program.section(index);
        put_section(text, count, code)?;
    }
    Ok(())
}

/// The canonical script of a program: of all texts that say the program, the one whose lines stand in one order, with
/// one spelling each. Where the program was assembled and its text is no larger than a script may be, the text is
/// assembled to the program again.
pub fn print(alloc: Global, program: &Program) -> Result<Vec<u8>, AllocError>
    ensures text { IfOk result (λ v. v.items ≡ printed program.now) }
    ensures again { IfOk result (λ v. SaysAgain program.now v.items) }
{
    let mut text = Vec::new(alloc);
    put_limits(&mut text, program)?;
    put_inits(&mut text, program.inits())?;
    put_items(&mut text, program.schedule())?;
    put_sections(&mut text, program)?;
    Ok(text)
}
