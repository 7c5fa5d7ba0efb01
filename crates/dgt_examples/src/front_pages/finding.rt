use dgt_decode::{Decoder, Event};
use dgt_message::Message;

/// Whether a dump ends in this chunk.
pub fn ends_dump(decoder: &mut Decoder, chunk: &[u8]) -> bool {
    let mut found = false;
    for byte in chunk {
        if let Some(Event::Message(Message::Dump(_))) = decoder.feed(&[*byte]).event {
            found = true;
        }
    }
    found
}
