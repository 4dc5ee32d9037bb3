//! A refusal leaves the open blocks as they were, and what was refused is served at the second time.

use itm_types::{Action, ActionKind, Datum, Props, Ran, USUAL_DEPTH, Width};
use nest_frames::Frames;
use std::alloc::{AllocError, Global};
use std::process::Abort;
use std::test::Fail;
use undo_log::Arena;

fn enter(rt: &impl Abort, frames: &mut Frames) {
    assert!(rt; frames.depth() < frames.deepest());
    frames.enter(Props::default(), 0);
}

/// Writes the first byte of word 1.
fn write(rt: &impl Abort, frames: &mut Frames, value: u64) -> Result<(), AllocError> {
    assert!(rt; frames.depth() > 0);
    frames.reserve(1)?;
    frames.put(1, 0xff, value);
    Ok(())
}

/// Logs byte 1 of the arena.
fn log(rt: &impl Abort, frames: &mut Frames, arena: &Arena) -> Result<(), AllocError> {
    assert!(rt; frames.depth() > 0 && arena.contains(1, 1));
    assert!(rt; frames.size() == arena.size());
    frames.log(arena, 1, 1)
}

fn store(rt: &impl Abort, arena: &mut Arena, byte: u8) {
    assert!(rt; arena.contains(1, 1));
    arena.store(1, &Datum::new(Width::U1, [byte].as_slice()));
}

/// Registers a function with no argument.
fn register(
    rt: &impl Abort,
    frames: &mut Frames,
    kind: ActionKind,
    fun: u32,
) -> Result<(), AllocError> {
    assert!(rt; frames.depth() > 0);
    frames.register(kind, Action { fun, arg: 0 })
}

/// The word is written, at the second time where memory was refused; whether it was not.
fn writes(rt: &impl Abort, frames: &mut Frames, value: u64) -> Result<bool, AllocError> {
    let rows = frames.len();
    let found = write(rt, frames, value).is_ok();
    if !found {
        assert_eq!(rt; frames.len(), rows);
        write(rt, frames, value)?;
    }
    Ok(found)
}

/// So is the arena logged.
fn logs(rt: &impl Abort, frames: &mut Frames, arena: &Arena) -> Result<bool, AllocError> {
    let found = log(rt, frames, arena).is_ok();
    if !found {
        log(rt, frames, arena)?;
    }
    Ok(found)
}

/// So is an action registered.
fn registers(
    rt: &impl Abort,
    frames: &mut Frames,
    kind: ActionKind,
    fun: u32,
) -> Result<bool, AllocError> {
    let actions = frames.actions();
    let found = register(rt, frames, kind, fun).is_ok();
    if !found {
        assert_eq!(rt; frames.actions(), actions);
        register(rt, frames, kind, fun)?;
    }
    Ok(found)
}

/// In a block of this number a word is written, the arena logged, and an action of each kind registered.
fn fill(
    rt: &impl Abort,
    frames: &mut Frames,
    arena: &Arena,
    number: u32,
) -> Result<bool, AllocError> {
    let written = writes(rt, frames, u64::from(number))?;
    let logged = logs(rt, frames, arena)?;
    let undo = registers(rt, frames, ActionKind::Undo, number)?;
    let commit = registers(rt, frames, ActionKind::Commit, number)?;
    Ok(written && logged && undo && commit)
}

fn cancel(rt: &impl Abort, frames: &mut Frames, arena: &mut Arena) {
    assert!(rt; frames.depth() > 0);
    assert!(rt; frames.size() == arena.size());
    frames.cancel(arena);
}

fn undone(fun: u32) -> Ran {
    Ran {
        kind: ActionKind::Undo,
        action: Action { fun, arg: 0 },
    }
}

/// An arena of 2 bytes, for which memory is found at the second time at the latest.
fn arena(alloc: Global) -> Result<Arena, AllocError> {
    match Arena::new(alloc, 2) {
        Ok(arena) => Ok(arena),
        Err(_) => Arena::new(alloc, 2),
    }
}

/// No open blocks over such an arena, likewise.
fn frames(alloc: Global) -> Result<Frames, AllocError> {
    match Frames::new(alloc, 2, USUAL_DEPTH) {
        Ok(frames) => Ok(frames),
        Err(_) => Frames::new(alloc, 2, USUAL_DEPTH),
    }
}

/// Three blocks are filled, each within the one before; whether memory was found for all.
fn nest(rt: &impl Abort, frames: &mut Frames, arena: &mut Arena) -> Result<bool, AllocError> {
    let mut found = true;
    for block in 0..3u8 {
        enter(rt, frames);
        found &= fill(rt, frames, arena, u32::from(block))?;
        store(rt, arena, block + 1);
    }
    Ok(found)
}

/// The arena has these bytes.
fn holds(rt: &impl Abort, arena: &Arena, bytes: &[u8]) {
    assert_eq!(rt; arena.bytes(), bytes);
}

/// These actions have come to run.
fn runs(rt: &impl Abort, frames: &Frames, wanted: &[Ran]) {
    assert_eq!(rt; frames.due(), wanted);
}

/// The first byte of word 1 is written so.
fn has_written(rt: &impl Abort, frames: &Frames, value: u64) {
    let row = frames.get(1).expect(rt, "a row");
    assert_eq!(rt; row.value & 0xff, value);
}

/// The three blocks are cancelled, the innermost one first.
fn cancel_all(rt: &impl Abort, frames: &mut Frames, arena: &mut Arena) {
    cancel(rt, frames, arena);
    holds(rt, arena, &[0, 2]);
    has_written(rt, frames, 1);
    runs(rt, frames, &[undone(2)]);
    cancel(rt, frames, arena);
    cancel(rt, frames, arena);
    holds(rt, arena, &[0, 0]);
    runs(rt, frames, &[undone(2), undone(1), undone(0)]);
    assert_eq!(rt; frames.len(), 0);
}

/// Three blocks are filled and cancelled.
fn fill_and_cancel(
    rt: &impl Abort,
    frames: &mut Frames,
    arena: &mut Arena,
) -> Result<bool, AllocError> {
    let found = nest(rt, frames, arena)?;
    cancel_all(rt, frames, arena);
    Ok(found)
}

pub(super) fn expect_blocks(rt: &impl Abort, alloc: Global) -> Result<bool, AllocError> {
    let mut arena = arena(alloc)?;
    let mut frames = frames(alloc)?;
    fill_and_cancel(rt, &mut frames, &mut arena)
}

#[test]
fn blocks(rt: HostRuntime) -> Result<(), Fail> {
    assert!(rt; expect_blocks(&rt, rt.alloc())?);
    Ok(())
}
