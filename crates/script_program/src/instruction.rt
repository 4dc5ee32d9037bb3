//! The lines of a thread's code.

ghost use Rattle.std.specs.Prelude.{◌≡◌};
ghost use Rattle.script_program.specs.Instructions.{width_of};

use itm_types::{CopyPair, Props, ReadHint, Width, WriteHint};
use script_fields::{Literal, Place, Register};

/// What is worked out from the low 8 bytes of two registers.
#[derive(Clone, Copy, Debug, PartialEq, Eq)]
pub enum Operation {
    /// The sum, modulo 2^64.
    Add,
    /// The difference, modulo 2^64.
    Sub,
    /// The bits that both have.
    And,
    /// 1 where the first is less than the second, else 0.
    LessThan,
}

/// How many bytes of the arena a load or a store moves.
#[derive(Clone, Copy, Debug, PartialEq, Eq)]
pub enum ArenaWidth {
    One,
    Two,
    Four,
    Eight,
}

impl ArenaWidth {
    /// The width of as many bytes.
    pub fn width(self) -> Width
        ensures { result ≡ width_of self }
    {
        match self {
            ArenaWidth::One => Width::U1,
            ArenaWidth::Two => Width::U2,
            ArenaWidth::Four => Width::U4,
            ArenaWidth::Eight => Width::U8,
        }
    }
}

/// What a line of a thread's code does. Of a call it has the call's own parts, and registers where the call has what
/// stands in them or is answered with what comes into them.
#[derive(Clone, Copy, Debug, PartialEq, Eq)]
pub enum Instruction {
    /// Puts a number in a register.
    Set {
        to: Register,
        number: u64,
    },
    /// Puts bytes in a register.
    Bytes {
        to: Register,
        literal: Literal,
    },
    /// Puts all bytes of a register in another.
    Move {
        to: Register,
        from: Register,
    },
    /// Puts what is worked out from two registers in one.
    Compute {
        operation: Operation,
        to: Register,
        left: Register,
        right: Register,
    },
    /// Begins a group: its first part is done where the register's low 8 bytes are not all zero, else its second.
    IfNotZero {
        register: Register,
    },
    /// Ends the first part of a group and begins the second.
    Else,
    /// Ends a group.
    EndIf,
    /// Reads the thread's arena into a register.
    Load {
        width: ArenaWidth,
        to: Register,
        at: Place,
    },
    /// Writes a register's first bytes to the thread's arena.
    Save {
        width: ArenaWidth,
        at: Place,
        from: Register,
    },
    /// Begins a block and puts the answer in a register (Intel TM ABI 1.1, section 5.7).
    Begin {
        props: Props,
        code: Register,
    },
    /// Ends the block (section 5.9).
    Commit,
    /// Cancels the innermost block, or all that are open (section 5.8).
    Abort {
        outer: bool,
    },
    /// Makes the transaction irrevocable (section 5, `_ITM_changeTransactionMode`).
    Mode,
    /// Puts in a register whether a transaction is open, and whether it is irrevocable (section 5, `_ITM_inTransaction`).
    InTransaction {
        to: Register,
    },
    /// Registers an action that runs after the commit (section 5, `_ITM_addUserCommitAction`).
    CommitAction {
        fun: u32,
        arg: Place,
    },
    /// Registers an action that runs on a rollback (section 5, `_ITM_addUserUndoAction`).
    UndoAction {
        fun: u32,
        arg: Place,
    },
    /// Reads shared memory into a register (section 5.12).
    Read {
        hint: ReadHint,
        width: Width,
        to: Register,
        at: Place,
    },
    /// Writes a register's first bytes, as many as the width has, to shared memory (section 5.12).
    Write {
        hint: WriteHint,
        width: Width,
        at: Place,
        from: Register,
    },
    /// Keeps bytes of the thread's arena for a rollback, as many as the width has (section 5.16).
    Log {
        width: Width,
        at: Place,
    },
    /// Keeps so many bytes of it (section 5.16).
    LogBytes {
        at: Place,
        size: Place,
    },
    /// Copies bytes (section 5, `_ITM_memcpy` and `_ITM_memmove`).
    Copy {
        moves: bool,
        pair: CopyPair,
        to: Place,
        from: Place,
        size: Place,
    },
    /// Sets bytes of shared memory (section 5, `_ITM_memset`).
    Fill {
        hint: WriteHint,
        to: Place,
        byte: Place,
        size: Place,
    },
}
