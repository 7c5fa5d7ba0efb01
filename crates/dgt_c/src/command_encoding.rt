//! C calls that encode and view commands without a handle.

ghost use Rattle.std.specs.Prelude.{◌≡◌, ◌≢◌, ◌≤◌, ◌<◌, ◌∷◌, [], false, length, IsTrue};
ghost use Rattle.dgt_command.specs.Content.{CommandContent};
ghost use Rattle.dgt_command.specs.Encoding.{EncodesCommand, command_encoding};
ghost use Rattle.dgt_command.specs.declared.carried.TheConstants.{MAX_LED_BYTES, MAX_PAYLOAD};
ghost use Rattle.dgt_c.specs.Commands.{read_reported};
ghost use Rattle.dgt_c.specs.Encoding.{EncodesBytes, EncodesNothing};

use crate::commands::report_read;
use crate::encoding::encoded_for_c;
use crate::header::{DgtCommand, DgtEncoded, NOTHING_ENCODED};
use crate::sender::put_clock;
use dgt_command::{Command, LedBytes, MAX_PAYLOAD, MAX_WORD, encode, view_command};

// Writes the command with exactly these bytes, if there is one.
fn encode_word(word: &[u8], out: &mut [u8]) -> DgtEncoded
    ensures encoded { (said : CommandContent) → word.now ≡ command_encoding said →
        EncodesBytes word.now out.old out.new result }
    ensures none { ((said : CommandContent) → word.now ≢ command_encoding said) →
        EncodesNothing out.old out.new result }
{
    dgt_command::laws::encodings_give_commands();
    match view_command(word) {
        Some(command) => encoded_for_c(encode(&command, out)),
        None => NOTHING_ENCODED,
    }
}

// Writes the clock message of this id with this payload.
fn encode_clock(id: u8, payload: &[u8], out: &mut [u8]) -> DgtEncoded
    ensures encoded { length payload.now ≤ MAX_PAYLOAD →
        EncodesBytes (command_encoding
        (CommandContent.ClockMessage (record { id = id; payload = payload.now })))
        out.old out.new result }
    ensures refused { MAX_PAYLOAD < length payload.now → EncodesNothing out.old out.new result }
{
    if payload.len() > MAX_PAYLOAD {
        return NOTHING_ENCODED;
    }
    let mut room = [0; MAX_WORD];
    let word = &mut room[..payload.len() + 5];
    put_clock(id, payload, word);
    encode_word(word, out)
}

// Writes the LED frame of these bytes.
fn encode_leds(leds: &[u8], out: &mut [u8]) -> DgtEncoded
    ensures encoded { length leds.now ≤ MAX_LED_BYTES →
        EncodesBytes (command_encoding (CommandContent.Leds leds.now)) out.old out.new result }
    ensures refused { MAX_LED_BYTES < length leds.now → EncodesNothing out.old out.new result }
{
    match LedBytes::new(leds) {
        Ok(leds) => encoded_for_c(encode(&Command::Leds(leds), out)),
        Err(_) => NOTHING_ENCODED,
    }
}

/// Writes the command with this code at the beginning of the slice.
///
/// It is the clock message of this id with these bytes, the LED frame of these bytes, or a command
/// of one byte.
#[unsafe(no_mangle)]
pub extern "C" fn dgt_encode_command(code: u8, id: u8, carried: &[u8], out: &mut [u8]) -> DgtEncoded
    ensures clock_message { code ≡ 0x2b → length carried.now ≤ MAX_PAYLOAD →
        EncodesBytes (command_encoding
        (CommandContent.ClockMessage (record { id = id; payload = carried.now })))
        out.old out.new result }
    ensures long_clock_message { code ≡ 0x2b → MAX_PAYLOAD < length carried.now →
        EncodesNothing out.old out.new result }
    ensures leds { code ≡ 0x60 → length carried.now ≤ MAX_LED_BYTES →
        EncodesBytes (command_encoding (CommandContent.Leds carried.now)) out.old out.new result }
    ensures long_leds { code ≡ 0x60 → MAX_LED_BYTES < length carried.now →
        EncodesNothing out.old out.new result }
    ensures bare { (said : CommandContent) → code ∷ [] ≡ command_encoding said →
        carried.now ≡ [] → EncodesBytes (code ∷ []) out.old out.new result }
    ensures carrying { (code ≢ 0x2b) → (code ≢ 0x60) → 0 < length carried.now →
        EncodesNothing out.old out.new result }
    ensures none { (code ≢ 0x2b) → (code ≢ 0x60) →
        ((said : CommandContent) → code ∷ [] ≢ command_encoding said) →
        EncodesNothing out.old out.new result }
{
    match code {
        0x2b => encode_clock(id, carried, out),
        0x60 => encode_leds(carried, out),
        _ if carried.is_empty() => encode_word(&[code], out),
        _ => NOTHING_ENCODED,
    }
}

/// Writes the command with exactly these bytes to the struct. Returns false if there is none; then
/// the struct is unchanged.
#[unsafe(no_mangle)]
pub extern "C" fn dgt_view_command(word: &[u8], command: &mut DgtCommand) -> bool
    ensures views { IsTrue result → (said : CommandContent) × EncodesCommand said word.now
        × (command.new ≡ read_reported said) }
    ensures none { result ≡ false → ((said : CommandContent) → ¬ (EncodesCommand said word.now))
        × (command.new ≡ command.old) }
{
    match view_command(word) {
        Some(said) => {
            *command = report_read(&said, &mut []);
            true
        }
        None => false,
    }
}
