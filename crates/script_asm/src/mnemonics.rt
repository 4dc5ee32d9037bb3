//! The words of the language: first fields.

ghost use Rattle.std.specs.Prelude.{◌≡◌, IfSome, Some};
ghost use Rattle.script_asm.specs.declared.mnemonics.Word.TheVariants as words;
ghost use Rattle.script_asm.specs.declared.mnemonics.Mnemonic.TheVariants as mnemonics;
ghost use Rattle.script_asm.specs.Words.{word_of};

use itm_entries::{Control, Entry, entry_of};
use itm_types::{ReadHint, Width, WriteHint};
use script_fields::lookup;
use script_program::{ArenaWidth, Operation};

/// What the first field of a line is.
#[derive(Clone, Copy)]
pub enum Word {
    Memory,
    Init,
    Arena,
    Patience,
    Retries,
    Commits,
    Restarts,
    Depth,
    Schedule,
    Thread,
    Repeat,
    EndRepeat,
    Code(Mnemonic),
}

/// The first field of a line of a thread's code.
#[derive(Clone, Copy)]
pub enum Mnemonic {
    Set,
    Bytes,
    Move,
    Compute(Operation),
    IfNotZero,
    Else,
    EndIf,
    Load(ArenaWidth),
    Save(ArenaWidth),
    Entry(Entry),
}

/// The words that are no entry points.
const WORDS: [(&[u8], Word); 30] = [
    (b".memory", Word::Memory),
    (b".init", Word::Init),
    (b".arena", Word::Arena),
    (b".patience", Word::Patience),
    (b".retries", Word::Retries),
    (b".commits", Word::Commits),
    (b".restarts", Word::Restarts),
    (b".depth", Word::Depth),
    (b".schedule", Word::Schedule),
    (b".thread", Word::Thread),
    (b".rept", Word::Repeat),
    (b".endr", Word::EndRepeat),
    (b"set", Word::Code(Mnemonic::Set)),
    (b"bytes", Word::Code(Mnemonic::Bytes)),
    (b"mov", Word::Code(Mnemonic::Move)),
    (b"add", Word::Code(Mnemonic::Compute(Operation::Add))),
    (b"sub", Word::Code(Mnemonic::Compute(Operation::Sub))),
    (b"and", Word::Code(Mnemonic::Compute(Operation::And))),
    (b"ltu", Word::Code(Mnemonic::Compute(Operation::LessThan))),
    (b"ld1", Word::Code(Mnemonic::Load(ArenaWidth::One))),
    (b"ld2", Word::Code(Mnemonic::Load(ArenaWidth::Two))),
    (b"ld4", Word::Code(Mnemonic::Load(ArenaWidth::Four))),
    (b"ld8", Word::Code(Mnemonic::Load(ArenaWidth::Eight))),
    (b"st1", Word::Code(Mnemonic::Save(ArenaWidth::One))),
    (b"st2", Word::Code(Mnemonic::Save(ArenaWidth::Two))),
    (b"st4", Word::Code(Mnemonic::Save(ArenaWidth::Four))),
    (b"st8", Word::Code(Mnemonic::Save(ArenaWidth::Eight))),
    (b"ifnz", Word::Code(Mnemonic::IfNotZero)),
    (b"else", Word::Code(Mnemonic::Else)),
    (b"endif", Word::Code(Mnemonic::EndIf)),
];

/// The entry point of a first field, where it is one of those of most blocks. They are compared first, since each table is
/// searched from its beginning.
#[tactic(auto, using(crate::proofs::UsualWords::reads, crate::proofs::UsualWords::writes))]
fn usual_entry(field: &[u8]) -> Option<Entry>
    ensures { IfSome result (λ e. word_of field.now ≡ Some (words.Code (mnemonics.Entry e))) }
{
    if field == b"_ITM_RU8".as_slice() {
        Some(Entry::Read(ReadHint::R, Width::U8))
    } else if field == b"_ITM_WU8".as_slice() {
        Some(Entry::Write(WriteHint::W, Width::U8))
    } else if field == b"_ITM_beginTransaction".as_slice() {
        Some(Entry::Control(Control::BeginTransaction))
    } else if field == b"_ITM_commitTransaction".as_slice() {
        Some(Entry::Control(Control::CommitTransaction))
    } else {
        None
    }
}

/// The word that a first field is.
#[tactic(auto, unfolding(crate::specs::Words::word_of))]
pub fn word_of(field: &[u8]) -> Option<Word>
    ensures { result ≡ word_of field.now }
{
    if let Some(entry) = usual_entry(field) {
        return Some(Word::Code(Mnemonic::Entry(entry)));
    }
    if let Some(word) = lookup(&WORDS, field) {
        return Some(word);
    }
    Some(Word::Code(Mnemonic::Entry(entry_of(field)?)))
}
