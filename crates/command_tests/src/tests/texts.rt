//! What faults and operands say.

use norec_world::WorldFault;
use script_fields::{AsmFault, FaultKind, Place, Register};
use std::alloc::Global;
use std::process::Abort;
use std::test::*;

#[test]
fn faults_of_worlds(rt: HostRuntime) -> Result<(), Fail> {
    for (fault, text) in [
        (WorldFault::NoSuchActor, "there is no such actor"),
        (WorldFault::Ended, "the actor has ended"),
        (WorldFault::NoMemory, "no memory"),
    ] {
        assert_eq!(rt; fault.to_string(rt.alloc())?.as_str(), text);
    }
    Ok(())
}

/// The place is written so.
fn stands(rt: &impl Abort, alloc: Global, place: Place, text: &str) -> Result<(), Fail> {
    assert_eq!(rt; place.to_string(alloc)?.as_str(), text);
    Ok(())
}

/// The fault is told so.
fn tells(rt: &impl Abort, alloc: Global, fault: AsmFault, text: &str) -> Result<(), Fail> {
    assert_eq!(rt; fault.to_string(alloc)?.as_str(), text);
    Ok(())
}

#[test]
fn parts_of_scripts(rt: HostRuntime) -> Result<(), Fail> {
    let fault = AsmFault {
        line: 12,
        kind: FaultKind::Memory,
    };
    tells(&rt, rt.alloc(), fault, "line 12: no memory")?;
    stands(&rt, rt.alloc(), Place::Register(Register::R11), "r11")?;
    stands(
        &rt,
        rt.alloc(),
        Place::Number(u64::MAX),
        "18446744073709551615",
    )
}
