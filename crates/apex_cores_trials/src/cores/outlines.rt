//! The texts of refusals.

use apex_cores::RunFault;
use std::alloc::Global;
use std::process::Abort;

fn has_text<R: Abort>(rt: &R, alloc: Global, fault: RunFault, text: &str) -> bool {
    fault.to_string(alloc).expect(rt, "memory").as_str() == text
}

#[test]
fn each_fault_has_its_text(rt: HostRuntime) {
    assert!(rt; has_text(&rt, rt.alloc(), RunFault::Memory, "out of memory"));
    assert!(rt; has_text(&rt, rt.alloc(), RunFault::NoThread, "no thread"));
}
