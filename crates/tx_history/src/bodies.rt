//! What was called, and what was answered.

ghost use Rattle.std.specs.Prelude.{◌≡◌, ◌≤◌, ◌++◌, codes, decimal};
ghost use Rattle.hex.specs.Hex.{encode_lower};
ghost use Rattle.itm_types.specs.Access.{size_of};
ghost use Rattle.itm_entries.specs.Names.{name_of};
ghost use Rattle.itm_types.specs.Refusals.{number_of};
ghost use Rattle.script_fields.specs.Properties.{props_text};
ghost use Rattle.script_fields.specs.Spelling.{scope_text};
ghost use Rattle.itm_entries.specs.declared.entry.Entry.{Entry};
ghost use Rattle.tx_history.specs.Bounds.{CallFits, IsAction, IsCopying, IsDatum, IsWord, ReplyFits};
ghost use Rattle.tx_history.specs.Pages.{Carries, Spells};
ghost use Rattle.tx_history.specs.Histories.{copy_text, fill_text, commit_action_text, undo_action_text, body_text, reply_text};

use crate::page::Page;
use crate::pieces::Piece;
use itm_entries::{Entry as Function, name_of};
use itm_types::{Action, Call, Copying, Datum, Props, Refusal, Reply, Width, WriteHint};
use script_fields::{props_text, scope_text};
use std::io::Write;

/// A begin, and its properties.
fn put_begin<W: Write>(page: &mut Page<'_, W>, props: Props)
    ensures { Carries W.contents page.old page.new (codes "_ITM_beginTransaction " ++ props_text props) }
{
    page.text(b"_ITM_beginTransaction ");
    page.bytes(props_text(props).as_bytes());
}

/// The code that a begin is answered with.
fn put_code<W: Write>(page: &mut Page<'_, W>, code: u32)
    ensures { Carries W.contents page.old page.new (codes " = code " ++ decimal code ++ codes "\n") }
{
    page.text(b" = code ");
    page.number(u64::from(code));
    page.text(b"\n");
}

/// A refusal, by its number.
fn put_refused<W: Write>(page: &mut Page<'_, W>, refusal: Refusal)
    ensures { Carries W.contents page.old page.new (codes " = refused " ++ decimal (number_of refusal) ++ codes "\n") }
{
    page.text(b" = refused ");
    page.number(u64::from(refusal.number()));
    page.text(b"\n");
}

/// The name of an entry point. Most are of 8 bytes: they are copied as one word, for speed alone.
#[inline(always)]
fn put_name<W: Write>(page: &mut Page<'_, W>, function: Function)
    ensures { Carries W.contents page.old page.new (name_of function) }
{
    let name = name_of(function).as_bytes();
    match name.as_array::<8>() {
        Some(word) => page.text(word),
        None => page.bytes(name),
    }
}

/// An entry point, and the first byte that it is called for.
#[inline(always)]
fn put_at<W: Write>(page: &mut Page<'_, W>, function: Function, at: u64)
    ensures { Spells W.contents page.old page.new (name_of function ++ codes " " ++ decimal at) (IsWord at) }
{
    put_name(page, function);
    page.blank_number(at);
}

/// A write: the first byte that is written, and what is written.
fn put_write<W: Write>(page: &mut Page<'_, W>, hint: WriteHint, at: u64, value: &Datum)
    ensures { Spells W.contents page.old page.new
        (name_of (Entry.Write hint value.now.width) ++ codes " " ++ decimal at ++ codes " " ++ encode_lower value.now.bytes.items)
        (IsWord at × IsDatum value.now) }
{
    put_at(page, Function::Write(hint, value.width), at);
    page.blank_hex(value.bytes.as_slice());
}

/// An abort, and its scope.
fn put_abort<W: Write>(page: &mut Page<'_, W>, outer: bool)
    ensures { Carries W.contents page.old page.new (codes "_ITM_abortTransaction " ++ scope_text outer) }
{
    page.text(b"_ITM_abortTransaction ");
    page.bytes(scope_text(outer).as_bytes());
}

/// Bytes of the arena that are kept: the first, and how many.
fn put_log_bytes<W: Write>(page: &mut Page<'_, W>, at: u64, size: u64)
    ensures { Spells W.contents page.old page.new
        (name_of Entry.LogBytes ++ codes " " ++ decimal at ++ codes " " ++ decimal size) (IsWord at × IsWord size) }
{
    put_at(page, Function::LogBytes, at);
    page.blank_number(size);
}

/// A read of the arena: how many bytes, and the first.
fn put_load<W: Write>(page: &mut Page<'_, W>, width: Width, at: u64)
    ensures { Spells W.contents page.old page.new
        (codes "ld" ++ decimal (size_of width) ++ codes " " ++ decimal at) (IsWord at) }
{
    page.text(b"ld");
    page.number(u64::from(width.size()));
    page.blank_number(at);
}

/// A write of the arena: how many bytes, the first, and what is written.
fn put_save<W: Write>(page: &mut Page<'_, W>, at: u64, value: &Datum)
    ensures { Spells W.contents page.old page.new
        (codes "st" ++ decimal (size_of value.now.width) ++ codes " " ++ decimal at ++ codes " " ++ encode_lower value.now.bytes.items)
        (IsWord at × IsDatum value.now) }
{
    page.text(b"st");
    page.number(u64::from(value.width.size()));
    page.blank_number(at);
    page.blank_hex(value.bytes.as_slice());
}

/// A copy: where it writes, where it reads, and how many bytes.
#[inline(never)]
fn put_copy<W: Write>(page: &mut Page<'_, W>, copying: &Copying)
    ensures { Spells W.contents page.old page.new (copy_text copying.now) (IsCopying copying.now) }
{
    let function = Function::Copy {
        moves: copying.moves,
        pair: copying.pair,
    };
    page.put(&[
        Piece::Text(name_of(function).as_bytes()),
        Piece::Text(b" "),
        Piece::Number(copying.to),
        Piece::Text(b" "),
        Piece::Number(copying.from),
        Piece::Text(b" "),
        Piece::Number(copying.size),
    ]);
}

/// A fill: where it writes, the byte that it sets, and how many.
#[inline(never)]
fn put_fill<W: Write>(page: &mut Page<'_, W>, hint: WriteHint, to: u64, byte: u64, size: u64)
    ensures { Spells W.contents page.old page.new (fill_text hint to byte size) (IsWord to × IsWord size) }
{
    page.put(&[
        Piece::Text(name_of(Function::Fill(hint)).as_bytes()),
        Piece::Text(b" "),
        Piece::Number(to),
        Piece::Text(b" "),
        Piece::Number(byte % 256),
        Piece::Text(b" "),
        Piece::Number(size),
    ]);
}

/// The number of an action's function, as it is written.
pub fn function_number(fun: u32) -> u64
    ensures value { result ≡ fun }
    ensures fits { fun ≤ 4294967295 }
{
    u64::from(fun)
}

/// An action that runs once the transaction has committed.
#[inline(never)]
fn put_commit_action<W: Write>(page: &mut Page<'_, W>, action: Action)
    ensures { Spells W.contents page.old page.new (commit_action_text action) (IsAction action) }
{
    page.put(&[
        Piece::Text(b"_ITM_addUserCommitAction "),
        Piece::Number(function_number(action.fun)),
        Piece::Text(b" _ITM_noTransactionId "),
        Piece::Number(action.arg),
    ]);
}

/// An action that runs where its block is rolled back.
#[inline(never)]
fn put_undo_action<W: Write>(page: &mut Page<'_, W>, action: Action)
    ensures { Spells W.contents page.old page.new (undo_action_text action) (IsAction action) }
{
    page.put(&[
        Piece::Text(b"_ITM_addUserUndoAction "),
        Piece::Number(function_number(action.fun)),
        Piece::Text(b" "),
        Piece::Number(action.arg),
    ]);
}

#[tactic(auto, unfolding(crate::specs::Histories::body_text), using(crate::proofs::PagedTexts::carries_as))]
pub fn put_body<W: Write>(page: &mut Page<'_, W>, call: &Call)
    ensures { Spells W.contents page.old page.new (body_text call.now) (CallFits call.now) }
{
    match call {
        Call::Begin { props, .. } => put_begin(page, *props),
        Call::Commit => page.text(b"_ITM_commitTransaction"),
        Call::Abort { outer } => put_abort(page, *outer),
        Call::Mode { .. } => page.text(b"_ITM_changeTransactionMode modeSerialIrrevocable"),
        Call::InTransaction => page.text(b"_ITM_inTransaction"),
        Call::Read { hint, width, at } => put_at(page, Function::Read(*hint, *width), *at),
        Call::Write { hint, at, value } => put_write(page, *hint, *at, value),
        Call::Log { width, at } => put_at(page, Function::Log(*width), *at),
        Call::LogBytes { at, size } => put_log_bytes(page, *at, *size),
        Call::Copy(copying) => put_copy(page, copying),
        Call::Fill {
            hint,
            to,
            byte,
            size,
        } => put_fill(page, *hint, *to, *byte, *size),
        Call::CommitAction(action) => put_commit_action(page, *action),
        Call::UndoAction(action) => put_undo_action(page, *action),
        Call::Load { width, at } => put_load(page, *width, *at),
        Call::Save { at, value } => put_save(page, *at, value),
    }
}

/// What was answered, up to the end of its line.
#[tactic(auto, unfolding(crate::specs::Histories::reply_text), using(crate::proofs::PagedTexts::carries_as))]
pub fn put_reply<W: Write>(page: &mut Page<'_, W>, reply: &Reply)
    ensures { Spells W.contents page.old page.new
        (codes " = " ++ reply_text reply.now ++ codes "\n") (ReplyFits reply.now) }
{
    match reply {
        Reply::Done => page.text(b" = ok\n"),
        Reply::Bytes(bytes) => page.answer(bytes.as_slice()),
        Reply::Code(n) => put_code(page, *n),
        Reply::Refused(refusal) => put_refused(page, *refusal),
    }
}
