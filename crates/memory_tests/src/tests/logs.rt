//! A value log that grows past what it looks through, with each allocation refused in turn.

ghost use Rattle.std.specs.Prelude.{◌≤◌};

use itm_types::{LogRow, MAX_WORDS};
use std::alloc::AllocError;
use std::process::Abort;
use std::test::Fail;
use value_log::ValueLog;

/// Adds the row of a word that has none.
fn add(rt: &impl Abort, log: &mut ValueLog, word: u32, value: u64) -> Result<(), Fail> {
    assert!(rt; (word as usize) < MAX_WORDS);
    log.reserve(1)?;
    match log.find(word) {
        None => log.add(LogRow { word, value }),
        Some(_) => panic!(rt; "the word has a row"),
    }
    Ok(())
}

const LAST: u32 = MAX_WORDS as u32 - 1;

/// The words from that one downwards have rows, the first one 0, the next one 1 and so on.
fn has_rows(rt: &impl Abort, log: &ValueLog, rows: u32)
    requires { rows ≤ 40 }
{
    assert_eq!(rt; log.len(), rows as usize);
    for earlier in 0..rows {
        assert_eq!(rt; log.find(LAST - earlier), Some(u64::from(earlier)));
    }
}

/// Room for one more row is made, at the second time where memory was refused.
fn reserve_rows(rt: &impl Abort, log: &mut ValueLog, rows: u32) -> Result<(), AllocError>
    requires { rows ≤ 40 }
{
    if log.reserve(1).is_err() {
        has_rows(rt, log, rows);
        log.reserve(1)?;
    }
    Ok(())
}

/// Run with each allocation refused in turn, a refusal leaves the log as it was, and the next call is served: while
/// the rows are few, and where the index is made.
#[test]
fn values(rt: HostRuntime) -> Result<(), Fail> {
    let mut log = ValueLog::new(rt.alloc());
    for word in 0..40u32 {
        reserve_rows(&rt, &mut log, word)?;
        add(&rt, &mut log, LAST - word, u64::from(word))?;
    }
    assert_eq!(rt; log.find(LAST - 39), Some(39));
    assert_eq!(rt; log.find(0), None);
    Ok(())
}
