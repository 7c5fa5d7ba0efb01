//! The decoder, the framer, and the plain reader. `tests/program/rows` tests how bytes are read,
//! and `tests/libraries/divisions` tests that in any chunks.

use super::asserting::{assert_same, assert_that};
use dgt_decode::{Decoder, Event, Found, Framer, Listener, Unfinished, first_top, plain};
use dgt_message::{BodyFault, Message};
use dgt_values::{Piece, SevenBit, Square};
use std::alloc::{AllocError, Global};
use std::process::Abort;
use std::test::Fail;

/// Asserts that the bytes produce exactly this event, in the decoder and in the plain reader.
fn assert_one(
    rt: &impl Abort,
    alloc: Global,
    bytes: &[u8],
    event: Event<'_>,
) -> Result<(), AllocError> {
    let reported = plain::events_of(alloc, bytes)?;
    let is_reported = match reported.as_slice() {
        [(place, only)] => *place == bytes.len() && *only == event,
        _ => false,
    };
    assert_that(rt, is_reported, "the event of the plain reader");
    let mut decoder = Decoder::new();
    let fed = decoder.feed(bytes);
    let is_fed = fed.used == bytes.len() && fed.event == Some(event);
    assert_that(rt, is_fed, "the event of the decoder");
    Ok(())
}

#[test]
fn a_field_and_a_refusal(rt: HostRuntime) -> Result<(), Fail> {
    let square = Square::parse("e4")?;
    let piece = Piece::WhitePawn;
    let field = Event::Message(Message::Field { square, piece });
    assert_one(&rt, rt.alloc(), &[0x8e, 0x00, 0x05, 0x24, 0x01], field)?;
    let code = SevenBit::try_from(0x0e)?;
    let fault = BodyFault::BadSquare { at: 0 };
    let refused = Event::Refused { code, fault };
    assert_one(&rt, rt.alloc(), &[0x8e, 0x00, 0x05, 0x40, 0x10], refused)?;
    Ok(())
}

#[test]
fn an_unfinished_message_is_reported_once(rt: HostRuntime) {
    let mut decoder = Decoder::new();
    assert_same(&rt, decoder.feed(&[0x8e, 0x00]).used, 2);
    assert_same(&rt, decoder.rest(), 2);
    assert_same(&rt, decoder.finish(), Some(Unfinished { have: 2 }));
    assert_same(&rt, decoder.finish(), None);
    assert_same(&rt, decoder.feed(&[0x8e]).used, 1);
    decoder.reset();
    assert_same(&rt, decoder.rest(), 0);
    assert_same(&rt, first_top(&[0x00, 0x05, 0x8e]), 2);
}

fn is_field(event: Event<'_>) -> bool {
    matches!(event, Event::Message(Message::Field { .. }))
}

#[test]
fn a_framer_lends_what_it_found(rt: HostRuntime) {
    let mut framer = Framer::new();
    assert_same(&rt, framer.advance(&[0x8e, 0x00, 0x05]).used, 3);
    assert_same(&rt, framer.unfinished_len(), 3);
    let advanced = framer.advance(&[0x24, 0x01, 0x07]);
    assert_same(&rt, advanced.used, 2);
    assert_same(&rt, advanced.found, Some(Found::Message));
    let event = framer.event(Found::Message);
    assert_that(&rt, event.is_some_and(is_field), "a field");
    framer.reset();
    let advanced = framer.advance(&[0x07]);
    assert_same(&rt, advanced.found, Some(Found::Stray(0x07)));
}

/// Keeps the places of the first three events, and counts the messages among them.
#[derive(Drop)]
struct Places {
    places: [usize; 3],
    count: usize,
    messages: usize,
}

impl Listener for Places {
    ghost use Rattle.std.specs.Prelude.{◌≡◌, ◌+◌, nat_lt, if◌then◌else◌, slice_set};

    ghost hears = { λ old heard new.
        (new.count ≡ (if nat_lt old.count 3 then old.count + 1 else old.count))
        × (new.places ≡ (if nat_lt old.count 3 then slice_set old.places old.count heard.place
        else old.places)) };

    fn hear(&mut self, place: usize, event: &Event<'_>) {
        if self.count < 3 {
            self.places[self.count] = place;
            self.count += 1;
        }
        if let Event::Message(_) = event {
            self.messages = self.messages.saturating_add(1);
        }
    }
}

#[test]
fn a_listener_hears_each_event_at_its_place_in_the_chunk(rt: HostRuntime) {
    let mut heard = Places {
        places: [0; 3],
        count: 0,
        messages: 0,
    };
    let mut decoder = Decoder::new();
    decoder.feed_all(&[0x8e, 0x00, 0x05, 0x34], &mut heard);
    assert_same(&rt, heard.count, 0);
    let ends = [0x00, 0x07, 0x8e, 0x00, 0x05, 0x24, 0x01, 0x93];
    decoder.feed_all(&ends, &mut heard);
    assert_same(&rt, (heard.places, heard.messages), ([1, 2, 7], 2));
    assert_same(&rt, decoder.rest(), 1);
}
