//! The text of an event in a slice.

ghost use Rattle.std.specs.Prelude.{◌≡◌, ◌++◌, ◌+◌, ◌*◌, ◌<◌, ◌≤◌, MatchResult, length};
ghost use Rattle.hex.specs.Hex.{encode_lower};
ghost use Rattle.dgt_values.specs.Bytes.{WritesPrefix};
ghost use Rattle.dgt_values.specs.declared.bodies.TheConstants.{MAX_BODY};
ghost use Rattle.dgt_decode.specs.Feeding.{event_content};
ghost use Rattle.dgt_lines.specs.Lines.{bytes_text, event_text};

use crate::gathering::Outgoing;
use crate::wording::push_event;
use dgt_decode::Event;
use dgt_values::NoRoom;

// Room for the text of an event, up to the bytes that it carries.
const WORDS_ROOM: usize = 128;

/// Writes the text of an event to the beginning of a slice, and returns its length.
///
/// The text is that of [`write_event`](crate::write_event) without the offset and the line feed,
/// such as `field e4 P`. The text of a message that carries no bytes, and of a fault, takes at most
/// 99 bytes.
///
/// Returns `NoRoom` with the length of the text if the slice is too short for it. The slice is then
/// unchanged.
pub fn format_event(event: &Event<'_>, out: &mut [u8]) -> Result<usize, NoRoom>
    ensures text { WritesPrefix (event_text (event_content event.now)) out.old out.new result }
    ensures limit { MatchResult result (λ len. len ≤ WORDS_ROOM + 2 * MAX_BODY)
        (λ fault. fault.need ≤ WORDS_ROOM + 2 * MAX_BODY) }
{
    let mut words = Outgoing::<WORDS_ROOM>::new();
    match push_event(&mut words, event) {
        None => write_text(words.bytes(), &[], out),
        Some(body) => {
            push_if_none(&mut words, body.bytes());
            write_text(words.bytes(), body.bytes(), out)
        }
    }
}

// Adds a hyphen if no bytes are carried.
fn push_if_none(words: &mut Outgoing<WORDS_ROOM>, carried: &[u8])
    requires { length words.old < WORDS_ROOM }
    ensures text { words.new ++ encode_lower carried.now ≡ words.old ++ bytes_text carried.now }
{
    if carried.is_empty() {
        words.push(b"-");
    }
}

// Writes some words, and two hexadecimal digits for each byte that is carried after them.
fn write_text(words: &[u8], carried: &[u8], out: &mut [u8]) -> Result<usize, NoRoom>
    requires words { length words.now ≤ WORDS_ROOM }
    requires carried { length carried.now ≤ MAX_BODY }
    ensures text { WritesPrefix (words.now ++ encode_lower carried.now) out.old out.new result }
    ensures limit { MatchResult result (λ len. len ≤ WORDS_ROOM + 2 * MAX_BODY)
        (λ fault. fault.need ≤ WORDS_ROOM + 2 * MAX_BODY) }
{
    let need = words.len() + 2 * carried.len();
    if out.len() < need {
        return Err(NoRoom { need });
    }
    out[..words.len()].copy_from_slice(words);
    hex::encode_to_slice(carried, &mut out[words.len()..need]).unwrap();
    Ok(need)
}
