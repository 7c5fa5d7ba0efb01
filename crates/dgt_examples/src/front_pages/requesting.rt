use dgt_command::{Command, CommandDecoder, CommandEvent};

/// Whether these bytes of a host request a dump.
pub fn request_dump(bytes: &[u8]) -> bool {
    let mut decoder = CommandDecoder::new();
    let mut found = false;
    for byte in bytes {
        if let Some(CommandEvent::Command(Command::Dump)) = decoder.feed(&[*byte]).event {
            found = true;
        }
    }
    found
}
