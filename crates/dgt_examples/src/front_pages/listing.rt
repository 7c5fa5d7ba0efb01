use dgt_command::CommandDecoder;
use dgt_lines::{RunFault, Sink, flush, write_command};

/// Writes the line of each command of these bytes, such as `00000001 dump`.
pub fn list<W: Sink>(bytes: &[u8], to: &mut W) -> Result<(), RunFault> {
    let mut decoder = CommandDecoder::new();
    for (before, byte) in bytes.iter().enumerate() {
        if let Some(event) = decoder.feed(&[*byte]).event {
            write_command(to, before as u64 + 1, &event)?;
        }
    }
    flush(to)
}
