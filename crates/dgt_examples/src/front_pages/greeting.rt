use dgt_ask::asked_bytes;
use std::alloc::Global;

/// The bytes that request updates and a dump, and make the clock beep.
pub fn greeting(alloc: Global) -> Option<Vec<u8>> {
    asked_bytes(alloc, &["updateboard", "dump", "beep", "16"]).ok()
}
