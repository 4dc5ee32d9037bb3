//! Scripts as texts, and the programs that they are.
//!
//! A script says how large shared memory is and what stands in it at the start, how large each thread's arena is, the
//! limits of a run, which thread takes the next events, and what each thread does. A line holds fields with blanks
//! between them; from a `;` on the rest of a line is a comment. `script_fields` says what N, REG, PLACE, HEX and PROPS
//! are.
//!
//! | Line | Meaning | Where |
//! |---|---|---|
//! | `.memory N` | shared memory has N bytes, 8 to 1,048,576 in whole words of 8 | once, before `.init` and `.thread` |
//! | `.init N HEX` | the bytes that the digits say stand from byte N on, at most 131,072 digits; the last line to write a byte wins | before the first `.thread` |
//! | `.arena N` | each thread's arena has N bytes: 0 to 4,096, else 0 | at most once, before the first `.thread` |
//! | `.patience N` | rounds of validation that a call may start: 1 to 1,000, else 8 | at most once, before the first `.thread` |
//! | `.retries N` | how often a block is tried again: 0 to 10,000, else 100 | at most once, before the first `.thread` |
//! | `.commits N` | commits that the memory takes: 1 to 2^62 - 1, else that | at most once, before the first `.thread` |
//! | `.restarts N` | how often inner blocks run again alone in one attempt: 0 to 10,000, else 0 | at most once, before the first `.thread` |
//! | `.depth N` | how many blocks may be open at once: 1 to 64, else 16 | at most once, before the first `.thread` |
//! | `.schedule ITEM ..` | who takes the next events: `TxK` is K events of thread T, 1 to 1,000,000, and `T!` those up to its end | before the first `.thread`; at most 65,536 items |
//! | `.thread`, `.thread N` | the code that follows is that of one thread, or of N threads, numbered on from 0 | at most 64 threads |
//! | `.rept N`, `.endr` | the lines between stand N times, 0 to 65,536 | in a thread's code |
//! | `set REG N`, `bytes REG HEX`, `mov REG REG` | a number, at most 32 bytes, or what stands in another register, into a register | in a thread's code |
//! | `add`, `sub`, `and`, `ltu`, each with `REG REG REG` | what is worked out from the second and the third register, into the first | in a thread's code |
//! | `ld1`, `ld2`, `ld4`, `ld8`, each with `REG PLACE`, and `st1` .. `st8`, each with `PLACE REG` | reads and writes the thread's arena | in a thread's code |
//! | `ifnz REG`, `else`, `endif` | a group of one part or two: the first is done where the register's number is not 0, and else the second | in a thread's code |
//! | `_ITM_beginTransaction REG PROPS`, `_ITM_commitTransaction` | a block | in a thread's code |
//! | `_ITM_abortTransaction userAbort`, or `userAbort+outerAbort` | cancels the innermost block, or all | in a thread's code |
//! | `_ITM_changeTransactionMode modeSerialIrrevocable`, `_ITM_inTransaction REG` | makes the transaction irrevocable, and tells of it | in a thread's code |
//! | `_ITM_addUserCommitAction N _ITM_noTransactionId PLACE`, `_ITM_addUserUndoAction N PLACE` | an action: a function of 32 bits and its argument | in a thread's code |
//! | a read `REG PLACE`, a write `PLACE REG` | reads and writes shared memory | in a thread's code |
//! | a log `PLACE`, `_ITM_LB PLACE PLACE` | keeps bytes of the arena: from a place on, and with their size | in a thread's code |
//! | a copy or a set of bytes, `PLACE PLACE PLACE` | to, from or the byte, and the size | in a thread's code |
//!
//! Blocks, groups of `ifnz` and groups of `.rept` nest within each other, at most 256 of them at once, and end in the
//! section that they begin in. There are at most 65,536 instructions, each section of `.thread N` counted once: line
//! by line, and at each `.endr` the group's instructions as often as they stand then. A text has at most 16,777,216
//! bytes.
#![tactic(auto)]

mod blocks;
mod code;
mod directives;
mod groups;
mod items;
mod mnemonics;
mod obeying;
mod placement;
mod reading;
mod state;
mod stop;
mod whole;

pub use script_fields::{AsmFault, FaultKind};
pub use script_program::{Item, Program};
pub use whole::assemble;
