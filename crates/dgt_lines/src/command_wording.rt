//! The words for commands.

ghost use Rattle.std.specs.Prelude.{◌≡◌, ◌+◌, ◌*◌, ◌≤◌, ◌++◌, length, map, slice_index as nth};
ghost use Rattle.std.specs.List.{list_all};
ghost use Rattle.dgt_command.specs.Content.{clock_content, command_content, command_event_content, display_content};
ghost use Rattle.dgt_lines.specs.Lines.{bytes_text, words_text};
ghost use Rattle.dgt_lines.specs.CommandWords.{clock_words, command_event_text, command_text, is_printable, is_shown, shown_character};
ghost use Rattle.dgt_lines.specs.ClockMessages.{raw_content, set_content, text_content};

use crate::gathering::Outgoing;
use dgt_command::{ClockCommand, Command, CommandEvent, RawClock};

/// Room for the text of an event.
pub(crate) const TEXT_ROOM: usize = 560;

/// Adds the text of an event.
pub(crate) fn push_event<const ROOM: usize>(text: &mut Outgoing<ROOM>, event: &CommandEvent<'_>)
    requires { length text.old + TEXT_ROOM ≤ ROOM }
    ensures text { text.new ≡ text.old ++ command_event_text (command_event_content event.now) }
    ensures room { length text.new ≤ length text.old + TEXT_ROOM }
{
    match event {
        CommandEvent::Command(command) => push_command(text, command),
        CommandEvent::BadSize => text.push(b"badsize"),
        CommandEvent::BadStart => text.push(b"badstart"),
        CommandEvent::BadEnd => text.push(b"badend"),
        CommandEvent::Stray(byte) => {
            text.push(b"stray ");
            text.push_hex(&[*byte]);
        }
    }
}

fn push_command<const ROOM: usize>(text: &mut Outgoing<ROOM>, command: &Command<'_>)
    requires { length text.old + TEXT_ROOM ≤ ROOM }
    ensures text { text.new ≡ text.old ++ command_text (command_content command.now) }
    ensures room { length text.new ≤ length text.old + TEXT_ROOM }
{
    match command {
        Command::Reset => text.push(b"reset"),
        Command::Clock => text.push(b"clock"),
        Command::Dump => text.push(b"dump"),
        Command::Update => text.push(b"update"),
        Command::UpdateBoard => text.push(b"updateboard"),
        Command::UpdateNice => text.push(b"updatenice"),
        Command::Serial => text.push(b"serial"),
        Command::Trademark => text.push(b"trademark"),
        Command::Battery => text.push(b"battery"),
        Command::Version => text.push(b"version"),
        Command::LongSerial => text.push(b"longserial"),
        Command::ClockMessage(message) => push_clock(text, message),
        Command::Leds(leds) => {
            text.push(b"leds ");
            push_bytes(text, leds.bytes());
        }
    }
}

// Adds the text of a clock message.
fn push_clock<const ROOM: usize>(text: &mut Outgoing<ROOM>, message: &ClockCommand<'_>)
    requires { length text.old + TEXT_ROOM ≤ ROOM }
    ensures text { text.new ≡ text.old ++ words_text (clock_words (clock_content message.now)) }
    ensures room { length text.new ≤ length text.old + TEXT_ROOM }
{
    match message {
        ClockCommand::Display { places, dots, beep } => push_display(text, places, *dots, *beep),
        ClockCommand::Icons(payload) => {
            text.push(b"icons ");
            push_bytes(text, payload.bytes());
        }
        ClockCommand::End => text.push(b"end"),
        ClockCommand::Button => text.push(b"button"),
        ClockCommand::Version => text.push(b"clockversion"),
        ClockCommand::SetAndRun {
            left,
            right,
            control,
        } => push_set_and_run(text, left, right, *control),
        ClockCommand::Beep(duration) => {
            text.push(b"beep ");
            text.push_decimal(*duration as u64, 1);
        }
        ClockCommand::Text { letters, beep } => push_letters(text, letters, *beep),
        ClockCommand::Raw(raw) => push_raw(text, *raw),
    }
}

fn push_display<const ROOM: usize>(text: &mut Outgoing<ROOM>, places: &[u8; 6], dots: u8, beep: u8)
    requires { length text.old + TEXT_ROOM ≤ ROOM }
    ensures text { text.new ≡ text.old
        ++ words_text (clock_words (display_content (λ i. nth places.now i) dots beep)) }
    ensures room { length text.new ≤ length text.old + 24 }
{
    let [a, b, c, d, e, f] = *places;
    let shown = characters([a, b, c, d, e, f]);
    text.push(b"display ");
    if are_shown(shown) && dots == 0 && beep == 0 {
        text.push(&shown);
    } else {
        text.push_hex(&[c, b, a, f, e, d, dots, beep]);
    }
}

fn characters(places: [u8; 6]) -> [u8; 6]
    ensures { result ≡ map shown_character places }
{
    let [a, b, c, d, e, f] = places;
    [
        character(a),
        character(b),
        character(c),
        character(d),
        character(e),
        character(f),
    ]
}

// The character that these segments show, or a question mark if they show none.
fn character(segments: u8) -> u8
    ensures { result ≡ shown_character segments }
{
    match segments {
        0x3f => b'0',
        0x06 => b'1',
        0x5b => b'2',
        0x4f => b'3',
        0x66 => b'4',
        0x6d => b'5',
        0x7d => b'6',
        0x07 => b'7',
        0x7f => b'8',
        0x6f => b'9',
        0x00 => b' ',
        0x40 => b'-',
        _ => b'?',
    }
}

fn are_shown(characters: [u8; 6]) -> bool
    ensures { result ≡ list_all is_shown characters }
{
    let [a, b, c, d, e, f] = characters;
    a != b'?' && b != b'?' && c != b'?' && d != b'?' && e != b'?' && f != b'?'
}

fn push_letters<const ROOM: usize>(text: &mut Outgoing<ROOM>, letters: &[u8; 8], beep: u8)
    requires { length text.old + TEXT_ROOM ≤ ROOM }
    ensures text { text.new ≡ text.old
        ++ words_text (clock_words (text_content letters.now beep)) }
    ensures room { length text.new ≤ length text.old + 24 }
{
    let [a, b, c, d, e, f, g, h] = *letters;
    text.push(b"text ");
    if are_printable([a, b, c, d], [e, f, g, h]) && beep == 0 {
        text.push(&[a, b, c, d, e, f, g, h]);
    } else {
        text.push_hex(&[a, b, c, d, e, f, g, h, beep]);
    }
}

fn are_printable(first: [u8; 4], last: [u8; 4]) -> bool
    ensures { result ≡ list_all is_printable (first ++ last) }
{
    four_are_printable(first) && four_are_printable(last)
}

fn four_are_printable(letters: [u8; 4]) -> bool
    ensures { result ≡ list_all is_printable letters }
{
    let [a, b, c, d] = letters;
    printable(a) && printable(b) && printable(c) && printable(d)
}

fn printable(byte: u8) -> bool
    ensures { result ≡ is_printable byte }
{
    b' ' <= byte && byte <= b'~'
}

fn push_set_and_run<const ROOM: usize>(
    text: &mut Outgoing<ROOM>,
    left: &[u8; 3],
    right: &[u8; 3],
    control: u8,
)
    requires { length text.old + TEXT_ROOM ≤ ROOM }
    ensures text { text.new ≡ text.old
        ++ words_text (clock_words (set_content left.now right.now control)) }
    ensures room { length text.new ≤ length text.old + 24 }
{
    let [a, b, c] = *left;
    let [d, e, f] = *right;
    text.push(b"setandrun ");
    text.push_hex(&[a, b, c, d, e, f, control]);
}

// A clock message other than the known ones.
fn push_raw<const ROOM: usize>(text: &mut Outgoing<ROOM>, raw: RawClock<'_>)
    requires { length text.old + TEXT_ROOM ≤ ROOM }
    ensures text { text.new ≡ text.old
        ++ words_text (clock_words (raw_content raw.entry)) }
    ensures room { length text.new ≤ length text.old + TEXT_ROOM }
{
    text.push(b"clockmessage ");
    text.push_hex(&[raw.id()]);
    text.push(b" ");
    push_bytes(text, raw.payload().bytes());
}

// Adds the digits of bytes, or a hyphen if there are none.
fn push_bytes<const ROOM: usize>(text: &mut Outgoing<ROOM>, bytes: &[u8])
    requires few { length bytes.now ≤ 255 }
    requires room { length text.old + 511 ≤ ROOM }
    ensures text { text.new ≡ text.old ++ bytes_text bytes.now }
    ensures room { length text.new ≤ length text.old + 511 }
{
    if bytes.is_empty() {
        text.push(b"-");
    } else {
        text.push_hex(bytes);
    }
}
