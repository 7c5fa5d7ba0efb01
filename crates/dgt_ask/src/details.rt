//! The operands of the words that need one.

ghost use Rattle.std.specs.Prelude.{◌≡◌, ◌≢◌, ◌<◌, ◌≤◌, ◌*◌, ◌++◌, ◌∷◌, ℕ, false, List, [], length, codes, slice_index as nth};
ghost use Rattle.std.specs.Prelude.{IfOk, IfSome, IfNone, IsErr, IsOkAnd, IsSomeAnd, MatchOption, MatchResult, Ok, Some, None};
ghost use Rattle.dgt_command.specs.declared.ids.KnownId.{KnownId};
ghost use Rattle.dgt_command.specs.Content.{command_content, ClockContent, ClockMessage, CommandContent, Leds, clock_content, known_clock};
ghost use Rattle.dgt_command.specs.Display.{Shows};
ghost use Rattle.std.specs.Str.{IsAscii};
ghost use Rattle.dgt_command.specs.Ids.{has_own_case, id_with};
ghost use Rattle.hex.specs.Hex.{decode_of, decode_sized};
ghost use Rattle.dgt_ask.specs.Asking.{WritesId, id_word};
ghost use Rattle.dgt_ask.specs.Asks.{DetailAsks, HasBytes, detail_text, padded};

use dgt_command::{
    ClockCommand, Command, KnownId, LedBytes, MAX_LED_BYTES, Payload, RawClock, display,
};
use hex::{FromHex, decode_to_slice};

/// A word that needs an operand.
#[derive(Clone, Copy)]
pub enum Detail {
    Beep,
    Display,
    Text,
    Icons,
    SetAndRun,
    ClockMessage,
    Leds,
    Stray,
}

impl Detail {
    /// Which operand the word needs, in lines of less than 80 columns.
    pub fn form(self) -> &'static str {
        match self {
            Detail::Beep => "beep needs a number from 0 to 255",
            Detail::Display => "display needs up to six digits, spaces or hyphens,
  or eight bytes as 16 hexadecimal digits",
            Detail::Text => "text needs up to eight ASCII characters,
  or nine bytes as 18 hexadecimal digits",
            Detail::Icons => "icons needs up to 252 bytes, two hexadecimal digits each,
  or - for no bytes",
            Detail::SetAndRun => "setandrun needs seven bytes as 14 hexadecimal digits",
            Detail::ClockMessage => "clockmessage needs an id, two hexadecimal digits,
  and up to 252 bytes, two hexadecimal digits each, or - for no bytes",
            Detail::Leds => "leds needs up to 255 bytes, two hexadecimal digits each,
  or - for no bytes",
            Detail::Stray => "stray needs one byte that starts no command,
  as two hexadecimal digits",
        }
    }
}

// The word that needs an operand, if it is one.
pub(crate) fn detail_of(word: &str) -> Option<Detail>
    ensures { MatchOption result ((each : Detail) → word.now ≢ detail_text each)
        (λ detail. word.now ≡ detail_text detail) }
{
    let detail = match word {
        "beep" => Detail::Beep,
        "display" => Detail::Display,
        "text" => Detail::Text,
        "icons" => Detail::Icons,
        "setandrun" => Detail::SetAndRun,
        "clockmessage" => Detail::ClockMessage,
        "leds" => Detail::Leds,
        "stray" => Detail::Stray,
        _ => return None,
    };
    Some(detail)
}

fn clock(message: ClockCommand<'_>) -> Option<Command<'_>>
    ensures { IsSomeAnd result (λ command.
        command_content command ≡ ClockMessage (clock_content message.entry)) }
{
    Some(Command::ClockMessage(message))
}

// A decimal number as in scripts, without a sign or leading zeros.
pub(crate) fn beep(word: &str) -> Option<Command<'static>>
    ensures asks { (asked : CommandContent) → DetailAsks Detail.Beep word.now asked →
        IsSomeAnd result (λ command. command_content command ≡ asked) }
    ensures asked { IfSome result (λ command.
        DetailAsks Detail.Beep word.now (command_content command)) }
{
    let first = *word.as_bytes().first()?;
    if first == b'+' {
        return None;
    }
    if first == b'0' && word.len() > 1 {
        return None;
    }
    clock(ClockCommand::Beep(word.parse().ok()?))
}

// The bytes of a payload, or characters padded with spaces.
pub(crate) fn six_places(word: &str) -> Option<Command<'static>>
    ensures asks { (asked : CommandContent) → DetailAsks Detail.Display word.now asked →
        IsSomeAnd result (λ command. command_content command ≡ asked) }
    ensures digits { IfOk (decode_sized word.now 8) (λ bytes. IsSomeAnd result (λ command.
        command_content command ≡ ClockMessage (known_clock KnownId.Display bytes))) }
{
    match display_bytes(word) {
        Some(command) => Some(command),
        None => display_characters(word),
    }
}

fn display_bytes(word: &str) -> Option<Command<'static>>
    ensures { MatchResult (decode_sized word.now 8)
        (λ bytes. IsSomeAnd result (λ command.
        command_content command ≡ ClockMessage (known_clock KnownId.Display bytes)))
        (λ _. result ≡ None) }
{
    let [c, b, a, f, e, d, dots, beep] = <[u8; 8]>::from_hex(word).ok()?;
    clock(ClockCommand::Display {
        places: [a, b, c, d, e, f],
        dots,
        beep,
    })
}

fn display_characters(word: &str) -> Option<Command<'static>>
    ensures { (message : ClockContent) → length word.now ≤ 6 →
        Shows (padded 6 word.now) 0 0 message →
        IsSomeAnd result (λ command. command_content command ≡ ClockMessage message) }
{
    let letters = padded::<6>(word)?;
    let [a, b, c, d, e, f] = letters;
    let text = [
        a as char, b as char, c as char, d as char, e as char, f as char,
    ];
    clock(display(text, 0, 0).ok()?)
}

// The bytes of a payload, or characters padded with spaces.
pub(crate) fn eight_letters(word: &str) -> Option<Command<'static>>
    ensures asks { (asked : CommandContent) → DetailAsks Detail.Text word.now asked →
        IsSomeAnd result (λ command. command_content command ≡ asked) }
    ensures digits { IfOk (decode_sized word.now 9) (λ bytes. IsSomeAnd result (λ command.
        command_content command ≡ ClockMessage (known_clock KnownId.Text bytes))) }
{
    match text_bytes(word) {
        Some(command) => Some(command),
        None => text_characters(word),
    }
}

fn text_bytes(word: &str) -> Option<Command<'static>>
    ensures { MatchResult (decode_sized word.now 9)
        (λ bytes. IsSomeAnd result (λ command.
        command_content command ≡ ClockMessage (known_clock KnownId.Text bytes)))
        (λ _. result ≡ None) }
{
    let [a, b, c, d, e, f, g, h, beep] = <[u8; 9]>::from_hex(word).ok()?;
    clock(ClockCommand::Text {
        letters: [a, b, c, d, e, f, g, h],
        beep,
    })
}

fn text_characters(word: &str) -> Option<Command<'static>>
    ensures { length word.now ≤ 8 → IsAscii word.now → IsSomeAnd result (λ command.
        command_content command
        ≡ ClockMessage (known_clock KnownId.Text (padded 8 word.now ++ 0 ∷ []))) }
{
    if !word.is_ascii() {
        return None;
    }
    let letters = padded::<8>(word)?;
    clock(ClockCommand::Text { letters, beep: 0 })
}

// The bytes of a word, padded with spaces.
fn padded<const N: usize>(word: &str) -> Option<[u8; N]>
    ensures { MatchOption result (N < length word.now)
        (λ bytes. (length word.now ≤ N) × (bytes ≡ padded N word.now)) }
{
    let mut bytes = [b' '; N];
    if word.len() > N {
        return None;
    }
    bytes[..word.len()].copy_from_slice(word.as_bytes());
    Some(bytes)
}

pub(crate) fn set_and_run(word: &str) -> Option<Command<'static>>
    ensures asks { (asked : CommandContent) → DetailAsks Detail.SetAndRun word.now asked →
        IsSomeAnd result (λ command. command_content command ≡ asked) }
    ensures digits { MatchResult (decode_sized word.now 7)
        (λ bytes. IsSomeAnd result (λ command.
        command_content command ≡ ClockMessage (known_clock KnownId.SetAndRun bytes)))
        (λ _. result ≡ None) }
{
    let [h, m, s, hours, minutes, seconds, control] = <[u8; 7]>::from_hex(word).ok()?;
    clock(ClockCommand::SetAndRun {
        left: [h, m, s],
        right: [hours, minutes, seconds],
        control,
    })
}

pub(crate) fn icons<'r>(word: &str, room: &'r mut [u8]) -> Option<Command<'r>>
    ensures asks { 252 ≤ length room.old → (asked : CommandContent) →
        DetailAsks Detail.Icons word.now asked →
        IsSomeAnd result (λ command. command_content command ≡ asked) }
    ensures none { word.now ≡ codes "-" → IsSomeAnd result (λ command.
        command_content command ≡ ClockMessage (known_clock KnownId.Icons [])) }
    ensures digits { word.now ≢ codes "-" → IfSome result (λ command.
        IfOk (decode_of word.now) (λ bytes.
        command_content command ≡ ClockMessage (known_clock KnownId.Icons bytes))) }
    ensures empty { word.now ≡ [] → result ≡ None }
{
    clock(ClockCommand::Icons(Payload::new(decoded(word, room)?).ok()?))
}

pub(crate) fn leds<'r>(word: &str, room: &'r mut [u8; MAX_LED_BYTES]) -> Option<Command<'r>>
    ensures asks { (asked : CommandContent) → DetailAsks Detail.Leds word.now asked →
        IsSomeAnd result (λ command. command_content command ≡ asked) }
    ensures none { word.now ≡ codes "-" → IsSomeAnd result (λ command.
        command_content command ≡ Leds []) }
    ensures digits { word.now ≢ codes "-" → IfSome result (λ command.
        IfOk (decode_of word.now) (λ bytes. command_content command ≡ Leds bytes)) }
    ensures refused { word.now ≢ codes "-" → word.now ≢ [] → IfNone result
        (IfOk (decode_of word.now) (λ _. 2 * 255 < length word.now)) }
    ensures empty { word.now ≡ [] → result ≡ None }
{
    Some(Command::Leds(LedBytes::new(decoded(word, room)?).ok()?))
}

// The bytes of hexadecimal digits, or no bytes for a hyphen, if they fit.
fn decoded<'r>(word: &str, room: &'r mut [u8]) -> Option<&'r [u8]>
    ensures bytes { (bytes : List ℕ) → HasBytes word.now bytes → length bytes ≤ length room.old →
        IsSomeAnd result (λ decoded. decoded.now ≡ bytes) }
    ensures none { word.now ≡ codes "-" → IsSomeAnd result (λ bytes. bytes.now ≡ []) }
    ensures digits { word.now ≢ codes "-"
        → IfSome result (λ bytes. decode_of word.now ≡ Ok bytes.now) }
    ensures room { IfSome result (λ bytes. length bytes.now ≤ length room.old) }
    ensures refused { word.now ≢ codes "-" → word.now ≢ [] → IfNone result
        (IfOk (decode_of word.now) (λ _. 2 * length room.old < length word.now)) }
    ensures empty { word.now ≡ [] → result ≡ None }
{
    if word == "-" {
        return Some(&[]);
    }
    // An unset variable of the shell.
    if word.is_empty() {
        return None;
    }
    let bytes = room.get_mut(..word.len() / 2)?;
    decode_to_slice(word, bytes).ok()?;
    Some(bytes)
}

pub(crate) fn byte(word: &str) -> Option<u8>
    ensures { MatchResult (decode_sized word.now 1)
        (λ bytes. result ≡ Some (nth bytes 0)) (λ _. result ≡ None) }
{
    let bytes = <[u8; 1]>::from_hex(word).ok()?;
    Some(bytes[0])
}

/// Why `clockmessage` refuses an id and a word.
#[derive(Clone, Copy)]
pub(crate) enum BadRaw {
    /// The word is not a list of bytes that fits.
    Bytes,
    /// Another word of `ask` writes this id and these bytes.
    Known(&'static str),
}

pub(crate) fn raw<'r>(id: u8, word: &str, room: &'r mut [u8]) -> Result<Command<'r>, BadRaw>
    ensures asks { (bytes : List ℕ) → HasBytes word.now bytes → length bytes ≤ 252 →
        252 ≤ length room.old → has_own_case id (length bytes) ≡ false →
        IsOkAnd result (λ command. command_content command
        ≡ ClockMessage (record { id = id; payload = bytes })) }
    ensures none { word.now ≡ codes "-" → IfOk result (λ command.
        command_content command ≡ ClockMessage (record { id = id; payload = [] })) }
    ensures digits { word.now ≢ codes "-" → IfOk result (λ command.
        IfOk (decode_of word.now) (λ bytes.
        command_content command ≡ ClockMessage (record { id = id; payload = bytes }))) }
    ensures empty { word.now ≡ [] → IsErr result }
{
    let bytes = decoded(word, room).ok_or(BadRaw::Bytes)?;
    let payload = Payload::new(bytes).map_err(|_| BadRaw::Bytes)?;
    match RawClock::new(id, payload) {
        Ok(message) => Ok(Command::ClockMessage(ClockCommand::Raw(message))),
        Err(_) => Err(own_word(id).map_or(BadRaw::Bytes, BadRaw::Known)),
    }
}

// The word for the clock messages of an id.
fn own_word(id: u8) -> Option<&'static str>
    ensures { MatchOption result (id_with id ≡ None) (λ word. WritesId word.now id) }
{
    Some(id_word(KnownId::with_number(id)?))
}

fn id_word(id: KnownId) -> &'static str
    ensures { result.now ≡ id_word id }
{
    match id {
        KnownId::Display => "display",
        KnownId::Icons => "icons",
        KnownId::End => "end",
        KnownId::Button => "button",
        KnownId::Version => "clockversion",
        KnownId::SetAndRun => "setandrun",
        KnownId::Beep => "beep",
        KnownId::Text => "text",
    }
}
