//! What is said where a command did not do its work.

use script_asm::{AsmFault, FaultKind};
use std::test::*;
use text_commands::Failure;

#[test]
fn texts(rt: HostRuntime) -> Result<(), Fail> {
    let fault = AsmFault {
        line: 12,
        kind: FaultKind::Range,
    };
    for (failure, text) in [
        (Failure::Faulty(fault), "line 12: out of range"),
        (Failure::NoMemory, "no memory"),
        (Failure::NoThread, "no thread"),
        (Failure::Reading, "reading failed"),
        (Failure::Writing, "writing failed"),
    ] {
        assert_eq!(rt; failure.to_string(rt.alloc())?.as_str(), text);
    }
    Ok(())
}
