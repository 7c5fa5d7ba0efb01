//! Calls of commands, and their encodings. `tests/program/rows` tests how bytes are read, and
//! `tests/libraries/divisions` tests that in any chunks.

use super::asserting::{assert_same, assert_that};
use dgt_command::{
    ClockCommand, Command, CommandDecoder, CommandEvent, FoundWord, LedBytes, Payload, RawClock,
    WordFramer, display, encode, length, view_command,
};
use dgt_values::NoRoom;
use std::test::Fail;

#[test]
fn clock_messages_are_viewed_and_written(rt: HostRuntime) -> Result<(), Fail> {
    let shown = display([' ', '1', '2', ' ', '3', '4'], 0x00, 0x03)?;
    let bytes = [
        0x2b, 0x0b, 0x03, 0x01, 0x5b, 0x06, 0x00, 0x66, 0x4f, 0x00, 0x00, 0x03, 0x00,
    ];
    let command = Command::ClockMessage(shown);
    assert_that(&rt, view_command(&bytes) == Some(command), "a display");
    assert_that(&rt, view_command(&bytes[..12]).is_none(), "a part of it");
    let raw = RawClock::new(0x8b, Payload::new(&[0x10])?)?;
    assert_same(&rt, raw.id(), 0x8b);
    assert_same(&rt, raw.payload().bytes(), [0x10].as_slice());
    let beep = Command::ClockMessage(ClockCommand::Raw(raw));
    let mut out = [0xee; 7];
    let short = encode(&beep, &mut out[..5]);
    assert_same(&rt, (length(&beep), short), (6, Err(NoRoom { need: 6 })));
    assert_same(&rt, encode(&beep, &mut out), Ok(6));
    assert_same(&rt, out, [0x2b, 0x04, 0x03, 0x8b, 0x10, 0x00, 0xee]);
    Ok(())
}

fn is_leds(event: Option<CommandEvent<'_>>, bytes: &[u8]) -> bool {
    match event {
        Some(CommandEvent::Command(Command::Leds(leds))) => leds.bytes() == bytes,
        _ => false,
    }
}

#[test]
fn the_framer_lends_what_it_found(rt: HostRuntime) -> Result<(), Fail> {
    let mut framer = WordFramer::new();
    let bad_size = framer.advance(&[0x2b, 0x02, 0x42]);
    assert_same(&rt, bad_size.used, 2);
    assert_same(&rt, bad_size.found, Some(FoundWord::BadSize));
    assert_same(&rt, framer.advance(&[0x60]).used, 1);
    assert_same(&rt, framer.partial(), 1);
    let found = framer.advance(&[0x01, 0x42, 0x42]).found.ok_or("nothing")?;
    assert_that(&rt, is_leds(framer.event(found), &[0x42]), "an LED frame");
    assert_same(&rt, framer.advance(&[0x60, 0x42]).used, 2);
    framer.reset();
    assert_same(&rt, framer.partial(), 0);
    Ok(())
}

#[test]
fn a_reader_forgets_a_part_of_a_command(rt: HostRuntime) -> Result<(), Fail> {
    let mut decoder = CommandDecoder::new();
    assert_same(&rt, decoder.feed(&[0x60, 0x42]).used, 2);
    assert_same(&rt, decoder.partial(), 2);
    decoder.reset();
    assert_same(&rt, decoder.partial(), 0);
    let fed = decoder.feed(&[0x60, 0x01, 0x42]);
    assert_that(
        &rt,
        is_leds(fed.event, LedBytes::new(&[0x42])?.bytes()),
        "lights",
    );
    Ok(())
}
