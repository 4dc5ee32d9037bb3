//! A refusal leaves the plain machine as it was, and the next call is served.

use itm_model::Plain;
use itm_types::{
    Action, Call, CopyPair, Copying, Datum, Depth, Props, Reply, SharedSide, Width, WriteHint,
};
use std::alloc::{AllocError, Global};
use std::process::Abort;
use std::test::Fail;

const BLOCK: Props = Props {
    no_abort: false,
    no_irrevocable: false,
    goes_irrevocable: false,
};

const GOES: Props = Props {
    no_abort: false,
    no_irrevocable: false,
    goes_irrevocable: true,
};

/// A block just begun on 40 bytes of 9, with an arena of 40 bytes of 8.
fn opened(alloc: Global) -> Result<Plain, AllocError> {
    Plain::new(alloc, &[9; 40], &[8; 40], Depth::new(16).unwrap(), BLOCK)
}

/// The same, where memory is found at the second time at the latest.
fn begun(alloc: Global) -> Result<Plain, AllocError> {
    match opened(alloc) {
        Ok(plain) => Ok(plain),
        Err(_) => opened(alloc),
    }
}

/// What the call is answered.
fn given(plain: &mut Plain, call: &Call) -> Result<Reply, AllocError> {
    plain.one(call)
}

/// The call is served; whether memory was found for it.
fn answers(rt: &impl Abort, plain: &mut Plain, call: &Call, gives: &Reply) -> bool {
    match given(plain, call) {
        Ok(reply) => {
            assert_eq!(rt; reply, *gives, "{call:?}");
            true
        }
        Err(_) => false,
    }
}

/// The call is served at once.
fn must(rt: &impl Abort, plain: &mut Plain, call: &Call, gives: &Reply) {
    assert!(rt; answers(rt, plain, call, gives), "{call:?}");
}

const BEGIN: Call = Call::Begin {
    props: BLOCK,
    room: 0,
};

const GOES_ON: Call = Call::Begin {
    props: GOES,
    room: 0,
};

const FILL: Call = Call::Fill {
    hint: WriteHint::W,
    to: 1,
    byte: 7,
    size: 39,
};

const COPY_OUT: Call = Call::Copy(Copying {
    moves: false,
    pair: CopyPair::Out(SharedSide::T),
    to: 0,
    from: 0,
    size: 40,
});

const COPY_IN: Call = Call::Copy(Copying {
    moves: false,
    pair: CopyPair::In(SharedSide::T),
    to: 0,
    from: 0,
    size: 40,
});

const LOG: Call = Call::LogBytes { at: 0, size: 40 };

const MOVE: Call = Call::Copy(Copying {
    moves: true,
    pair: CopyPair::Within(SharedSide::T, SharedSide::T),
    to: 0,
    from: 1,
    size: 39,
});

const ACTION: Action = Action { fun: 1, arg: 0 };

/// The block is as it was when it began.
fn unchanged(rt: &impl Abort, plain: &Plain, call: &Call) {
    assert_eq!(rt; plain.memory(), [9; 40].as_slice(), "{call:?}");
    assert_eq!(rt; plain.arena(), [8; 40].as_slice(), "{call:?}");
    assert_eq!(rt; plain.depth(), 1, "{call:?}");
    assert_eq!(rt; plain.undo().len(), 0, "{call:?}");
    assert!(rt; !plain.wrote() && plain.mode() == 1, "{call:?}");
}

/// The call is served in a block just begun, at the second time where memory was refused.
fn served(rt: &impl Abort, plain: &mut Plain, call: &Call, gives: &Reply) -> bool {
    let found = answers(rt, plain, call, gives);
    if !found {
        unchanged(rt, plain, call);
        must(rt, plain, call, gives);
    }
    found
}

/// Each call is served in a block of its own.
fn each(rt: &impl Abort, alloc: Global, rows: &[(Call, Reply)]) -> Result<bool, AllocError> {
    let mut found = true;
    for (call, gives) in rows {
        let mut plain = begun(alloc)?;
        found &= served(rt, &mut plain, call, gives);
    }
    Ok(found)
}

/// A copy into the arena takes no memory.
fn copies_in(rt: &impl Abort, alloc: Global) -> Result<(), AllocError> {
    let mut plain = begun(alloc)?;
    must(rt, &mut plain, &COPY_IN, &Reply::Done);
    Ok(())
}

pub(super) fn expect_calls(rt: &impl Abort, alloc: Global) -> Result<bool, AllocError> {
    let write = Call::Write {
        hint: WriteHint::W,
        at: 1,
        value: Datum::new(Width::U1, &[1]),
    };
    let rows = [
        (write, Reply::Done),
        (FILL, Reply::Done),
        (COPY_OUT, Reply::Done),
        (MOVE, Reply::Done),
        (LOG, Reply::Done),
        (Call::CommitAction(ACTION), Reply::Done),
        (Call::UndoAction(ACTION), Reply::Done),
        (BEGIN, Reply::Code(5)),
        (GOES_ON, Reply::Code(5)),
    ];
    let found = each(rt, alloc, &rows)?;
    copies_in(rt, alloc)?;
    Ok(found)
}

#[test]
fn calls(rt: HostRuntime) -> Result<(), Fail> {
    assert!(rt; expect_calls(&rt, rt.alloc())?);
    Ok(())
}

/// A fill whose block commits.
fn fills(rt: &impl Abort, plain: &mut Plain) -> bool {
    let found = answers(rt, plain, &FILL, &Reply::Done);
    if !found {
        must(rt, plain, &FILL, &Reply::Done);
    }
    must(rt, plain, &Call::Commit, &Reply::Done);
    found
}

/// So many blocks are open, in which something was written or nothing was.
fn stands(rt: &impl Abort, plain: &Plain, depth: usize, wrote: bool) {
    assert_eq!(rt; plain.depth(), depth);
    assert_eq!(rt; plain.wrote(), wrote);
}

/// A begin that is refused leaves what the last transaction wrote.
fn enters(rt: &impl Abort, plain: &mut Plain) -> bool {
    let found = answers(rt, plain, &BEGIN, &Reply::Code(5));
    if !found {
        stands(rt, plain, 0, true);
        must(rt, plain, &BEGIN, &Reply::Code(5));
    }
    stands(rt, plain, 1, false);
    found
}

/// So does `again`.
fn goes_again(rt: &impl Abort, plain: &mut Plain) -> Result<bool, AllocError> {
    let found = plain.again(GOES).is_ok();
    if !found {
        stands(rt, plain, 1, false);
        plain.again(GOES)?;
    }
    assert!(rt; plain.depth() == 1 && plain.is_irrevocable());
    Ok(found)
}

/// The first byte is as it was, and the last one is what was filled in.
fn is_filled(rt: &impl Abort, memory: &[u8]) {
    assert_eq!(rt; memory.first(), Some(&9));
    assert_eq!(rt; memory.last(), Some(&7));
}

/// In an irrevocable transaction a log and an undo action take no memory.
fn takes_none(rt: &impl Abort, plain: &mut Plain) {
    must(rt, plain, &LOG, &Reply::Done);
    must(rt, plain, &Call::UndoAction(ACTION), &Reply::Done);
    assert!(rt; plain.undo().is_empty() && plain.ran().is_empty());
    is_filled(rt, plain.memory());
}

/// Two transactions, one after the other, and the second one once more.
fn begin_all(rt: &impl Abort, plain: &mut Plain) -> Result<bool, AllocError> {
    let filled = fills(rt, plain);
    let entered = enters(rt, plain);
    let gone = goes_again(rt, plain)?;
    takes_none(rt, plain);
    Ok(filled && entered && gone)
}

/// Outside a transaction a begin that is refused leaves what the last one wrote, and so does `again` within one.
pub(super) fn expect_begins(rt: &impl Abort, alloc: Global) -> Result<bool, AllocError> {
    let mut plain = begun(alloc)?;
    begin_all(rt, &mut plain)
}

#[test]
fn begins(rt: HostRuntime) -> Result<(), Fail> {
    assert!(rt; expect_begins(&rt, rt.alloc())?);
    Ok(())
}
