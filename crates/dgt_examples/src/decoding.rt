use dgt_decode::{Decoder, Event, Listener};
use dgt_message::Message;
use dgt_values::{Piece, Square};

/// The square that a board reported last, and the piece on it.
#[derive(Drop)]
pub struct Last(pub Option<(Square, Piece)>);

impl Listener for Last {
    ghost use Rattle.dgt_examples.specs.Decoding.{HearsFields};

    ghost hears = { HearsFields };

    fn hear(&mut self, _place: usize, event: &Event<'_>) {
        if let Event::Message(Message::Field { square, piece }) = event {
            self.0 = Some((*square, *piece));
        }
    }
}

/// What the bytes of a board report last of a square, in chunks of any length.
pub fn last_field(chunks: &[&[u8]]) -> Option<(Square, Piece)> {
    let mut decoder = Decoder::new();
    let mut last = Last(None);
    for chunk in chunks {
        decoder.feed_all(chunk, &mut last);
    }
    last.0
}
