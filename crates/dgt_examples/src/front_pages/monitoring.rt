use dgt_text::{Bytes, Device, RunFault, monitor};
use std::io::Write;

/// Prints a line for each message of these bytes, like `dgt show`.
pub fn show<W: Write + Drop>(bytes: &[u8], output: W) -> Result<(), RunFault> {
    monitor(&mut Bytes::new(bytes), &mut Device::new(output), u32::MAX)
}
