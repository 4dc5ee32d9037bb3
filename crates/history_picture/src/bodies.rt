//! Calls and replies, as a history tells them.

ghost use Rattle.std.specs.Prelude.{◌≡◌, ◌++◌, flat_map, decimal, codes};
ghost use Rattle.itm_entries.specs.Names.{name_of};
ghost use Rattle.hex.specs.Hex.{encode_lower};
ghost use Rattle.tx_history.specs.Histories.{body_text, copy_text, fill_text, reply_text};
ghost use Rattle.tx_history.specs.Spelling.{spelled};

use itm_entries::{Entry, name_of};
use itm_types::{Call, Copying, Reply, WriteHint};
use script_fields::{props_text, scope_text};
use tx_history::Piece;

/// No text.
const NOTHING: Piece<'static> = Piece::Text(b"");

const BLANK: Piece<'static> = Piece::Text(b" ");

/// What is told in seven pieces.
pub(crate) type Body<'a> = [Piece<'a>; 7];

/// One text.
fn one<'a>(text: &'static [u8]) -> Body<'a>
    ensures { flat_map spelled result ≡ text.now }
{
    [
        Piece::Text(text),
        NOTHING,
        NOTHING,
        NOTHING,
        NOTHING,
        NOTHING,
        NOTHING,
    ]
}

/// Two texts.
fn two<'a>(first: &'static [u8], second: &'static [u8]) -> Body<'a>
    ensures { flat_map spelled result ≡ first.now ++ second.now }
{
    [
        Piece::Text(first),
        Piece::Text(second),
        NOTHING,
        NOTHING,
        NOTHING,
        NOTHING,
        NOTHING,
    ]
}

/// An entry point, and the first byte that it is called for.
fn at_place<'a>(entry: Entry, at: u64) -> Body<'a>
    ensures { flat_map spelled result ≡ name_of entry ++ codes " " ++ decimal at }
{
    [
        Piece::Text(name_of(entry).as_bytes()),
        BLANK,
        Piece::Number(at),
        NOTHING,
        NOTHING,
        NOTHING,
        NOTHING,
    ]
}

/// An entry point, a number and bytes.
fn with_bytes<'a>(entry: Entry, at: u64, bytes: &'a [u8]) -> Body<'a>
    ensures { flat_map spelled result ≡ name_of entry ++ codes " " ++ decimal at ++ codes " " ++ encode_lower bytes.now }
{
    [
        Piece::Text(name_of(entry).as_bytes()),
        BLANK,
        Piece::Number(at),
        BLANK,
        Piece::Hex(bytes),
        NOTHING,
        NOTHING,
    ]
}

/// An entry point and two numbers.
fn with_size<'a>(entry: Entry, at: u64, size: u64) -> Body<'a>
    ensures { flat_map spelled result ≡ name_of entry ++ codes " " ++ decimal at ++ codes " " ++ decimal size }
{
    [
        Piece::Text(name_of(entry).as_bytes()),
        BLANK,
        Piece::Number(at),
        BLANK,
        Piece::Number(size),
        NOTHING,
        NOTHING,
    ]
}

/// An access of the arena: its name, how many bytes, and the first.
fn in_arena<'a>(name: &'static [u8], size: u8, at: u64) -> Body<'a>
    ensures { flat_map spelled result ≡ name.now ++ decimal size ++ codes " " ++ decimal at }
{
    [
        Piece::Text(name),
        Piece::Number(u64::from(size)),
        BLANK,
        Piece::Number(at),
        NOTHING,
        NOTHING,
        NOTHING,
    ]
}

/// One that writes these bytes.
fn into_arena<'a>(size: u8, at: u64, bytes: &'a [u8]) -> Body<'a>
    ensures { flat_map spelled result ≡ codes "st" ++ decimal size ++ codes " " ++ decimal at ++ codes " " ++ encode_lower bytes.now }
{
    [
        Piece::Text(b"st"),
        Piece::Number(u64::from(size)),
        BLANK,
        Piece::Number(at),
        BLANK,
        Piece::Hex(bytes),
        NOTHING,
    ]
}

/// A copy: where it writes, where it reads, and how many bytes.
#[tactic(auto, unfolding(tx_history::specs::Histories::copy_text))]
fn copy<'a>(copying: &Copying) -> Body<'a>
    ensures { flat_map spelled result ≡ copy_text copying.now }
{
    let entry = Entry::Copy {
        moves: copying.moves,
        pair: copying.pair,
    };
    [
        Piece::Text(name_of(entry).as_bytes()),
        BLANK,
        Piece::Number(copying.to),
        BLANK,
        Piece::Number(copying.from),
        BLANK,
        Piece::Number(copying.size),
    ]
}

/// A fill: where it writes, the byte that it sets, and how many.
#[tactic(auto, unfolding(tx_history::specs::Histories::fill_text))]
fn fill<'a>(hint: WriteHint, to: u64, byte: u64, size: u64) -> Body<'a>
    ensures { flat_map spelled result ≡ fill_text hint to byte size }
{
    [
        Piece::Text(name_of(Entry::Fill(hint)).as_bytes()),
        BLANK,
        Piece::Number(to),
        BLANK,
        Piece::Number(byte % 256),
        BLANK,
        Piece::Number(size),
    ]
}

/// An action that is registered: the name, its function, what stands between, and its argument.
fn action<'a>(name: &'static [u8], fun: u32, between: &'static [u8], arg: u64) -> Body<'a>
    ensures { flat_map spelled result ≡ name.now ++ decimal fun ++ between.now ++ decimal arg }
{
    [
        Piece::Text(name),
        Piece::Number(u64::from(fun)),
        Piece::Text(between),
        Piece::Number(arg),
        NOTHING,
        NOTHING,
        NOTHING,
    ]
}

/// A call.
#[tactic(auto, unfolding(tx_history::specs::Histories::body_text, tx_history::specs::Histories::commit_action_text, tx_history::specs::Histories::undo_action_text))]
pub(crate) fn body_of(call: &Call) -> Body<'_>
    ensures { flat_map spelled result ≡ body_text call.now }
{
    match call {
        Call::Begin { props, .. } => {
            two(b"_ITM_beginTransaction ", props_text(*props).as_bytes())
        }
        Call::Commit => one(b"_ITM_commitTransaction"),
        Call::Abort { outer } => { two(b"_ITM_abortTransaction ", scope_text(*outer).as_bytes()) }
        Call::Mode { .. } => one(b"_ITM_changeTransactionMode modeSerialIrrevocable"),
        Call::InTransaction => one(b"_ITM_inTransaction"),
        Call::Read { hint, width, at } => at_place(Entry::Read(*hint, *width), *at),
        Call::Write { hint, at, value } => {
            with_bytes(
                Entry::Write(*hint, value.width),
                *at,
                value.bytes.as_slice(),
            )
        }
        Call::Log { width, at } => at_place(Entry::Log(*width), *at),
        Call::LogBytes { at, size } => with_size(Entry::LogBytes, *at, *size),
        Call::Copy(copying) => copy(copying),
        Call::Fill {
            hint,
            to,
            byte,
            size,
        } => fill(*hint, *to, *byte, *size),
        Call::CommitAction(registered) => action(
            b"_ITM_addUserCommitAction ",
            registered.fun,
            b" _ITM_noTransactionId ",
            registered.arg,
        ),
        Call::UndoAction(registered) => action(
            b"_ITM_addUserUndoAction ",
            registered.fun,
            b" ",
            registered.arg,
        ),
        Call::Load { width, at } => in_arena(b"ld", width.size(), *at),
        Call::Save { at, value } => { into_arena(value.width.size(), *at, value.bytes.as_slice()) }
    }
}

/// A reply.
#[tactic(auto, unfolding(tx_history::specs::Histories::reply_text))]
pub(crate) fn reply_of(reply: &Reply) -> [Piece<'_>; 2]
    ensures { flat_map spelled result ≡ reply_text reply.now }
{
    match reply {
        Reply::Done => [Piece::Text(b"ok"), NOTHING],
        Reply::Bytes(bytes) => [Piece::Hex(bytes.as_slice()), NOTHING],
        Reply::Code(n) => [Piece::Text(b"code "), Piece::Number(u64::from(*n))],
        Reply::Refused(refusal) => [
            Piece::Text(b"refused "),
            Piece::Number(u64::from(refusal.number())),
        ],
    }
}
