//! What the faults of runs on threads say.

use std::test::*;
use tx_host::{GateShut, HostFault};

#[test]
fn texts(rt: HostRuntime) -> Result<(), Fail> {
    for (fault, text) in [
        (HostFault::NoMemory, "no memory"),
        (HostFault::NoThread, "no thread"),
        (HostFault::Held, "a thread holds the clock for ever"),
    ] {
        assert_eq!(rt; fault.to_string(rt.alloc())?.as_str(), text);
    }
    assert_eq!(rt;
        GateShut.to_string(rt.alloc())?.as_str(),
        "the gate is shut"
    );
    Ok(())
}
