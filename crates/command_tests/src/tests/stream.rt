//! A history that is written line by line to a writer that fails.

use crate::fakes::Failing;
use itm_types::Props;
use std::alloc::Global;
use std::io;
use std::process::Abort;
use std::test::*;
use tx_attempts::{Attempt, Bytes, Calls, Outcome, RanActions, Restarts};
use tx_history::{Row, Stream, Version, write_row};

const LINES: &[u8] =
    b"itm-history 1\nmemory 00ff\nattempt 1 2 3 readonly -\narena -\nend\nfinal 6 01\n";

/// An attempt with no call.
fn attempt(alloc: Global) -> Attempt {
    Attempt {
        thread: 1,
        nth: 2,
        began: 0,
        at: 3,
        props: Props::default(),
        arena: Bytes::new(Vec::new(alloc)),
        calls: Calls::new(alloc),
        restarts: Restarts::none(),
        ran: RanActions::new(alloc),
        outcome: Outcome::ReadOnly,
    }
}

/// The history's last line is written, where so many writes are good; else this is the writer's own failure.
fn finish(rt: &impl Abort, stream: &mut Stream<'_, Failing>, good: usize) {
    let finished = stream.finish(6, &[1]);
    assert_eq!(rt; finished.is_ok(), 17 <= good);
    if let Err(error) = finished {
        assert_eq!(rt; error.kind(), io::ErrorKind::StorageFull);
    }
}

/// The history is written, as far as so many good writes go.
fn write(rt: &impl Abort, writer: &mut Failing, tried: &Attempt, good: usize) {
    let mut stream = Stream::new(writer);
    assert_eq!(rt; stream.open(Version::One, &[0, 255]).is_ok(), 6 <= good);
    assert_eq!(rt; stream.attempt(tried).is_ok(), 14 <= good);
    finish(rt, &mut stream, good);
}

/// What the writer has taken then, and how often it was asked.
fn has_taken(rt: &impl Abort, writer: &Failing, good: usize) {
    assert_eq!(rt; writer.writes, good.saturating_add(1).min(17));
    assert!(rt; LINES.starts_with(writer.taken.as_slice()));
    assert_eq!(rt; writer.taken.len() == LINES.len(), good == 17);
}

/// The lines take 6 writes, 8 and 3. Each of them fails in turn, and at last none: from a failure on each call answers it,
/// and the writer is not asked again.
#[test]
fn failing_writes(rt: HostRuntime) {
    let tried = attempt(rt.alloc());
    for good in 0..18usize {
        let mut writer = Failing {
            taken: Vec::new(rt.alloc()),
            good,
            writes: 0,
        };
        write(&rt, &mut writer, &tried, good);
        has_taken(&rt, &writer, good);
    }
}

/// The same history row by row takes as many writes, and the one after them fails.
#[test]
fn rows(rt: HostRuntime) {
    let tried = attempt(rt.alloc());
    let mut writer = Failing {
        taken: Vec::new(rt.alloc()),
        good: 17,
        writes: 0,
    };
    for row in [
        Row::Start(Version::One, &[0, 255]),
        Row::Tried(&tried),
        Row::Last(6, &[1]),
    ] {
        assert!(rt; write_row(&mut writer, &row).is_ok());
    }
    assert_eq!(rt; writer.taken.as_slice(), LINES);
    writer.good = writer.writes;
    assert!(rt; write_row(&mut writer, &Row::Last(6, &[1])).is_err());
}
