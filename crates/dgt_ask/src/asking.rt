//! The words of `dgt ask`, and the bytes of their commands.

ghost use Rattle.std.specs.Prelude.{◌≡◌, ◌≢◌, ◌≤◌, ◌↔◌, ◌⊎◌, ◌++◌, false, ℕ, List, [], ◌∷◌, codes, length, map, slice_index as nth};
ghost use Rattle.std.specs.Prelude.{OnOk, IfNone, IfOk, IfSome, IsErrAnd, IsOkAnd, IsSomeAnd, IsTrue, MatchOption, MatchResult};
ghost use Rattle.std.specs.List.{concat};
ghost use Rattle.dgt_command.specs.Content.{command_content, ClockContent, ClockMessage, CommandContent};
ghost use Rattle.dgt_command.specs.Ids.{has_own_case};
ghost use Rattle.dgt_command.specs.Encoding.{command_encoding};
ghost use Rattle.dgt_command.specs.Words.{BeginsNoCommand};
ghost use Rattle.dgt_host.specs.Host.{follow_bytes, restart_bytes};
ghost use Rattle.hex.specs.Hex.{decode_of, decode_sized};
ghost use Rattle.dgt_ask.specs.Asking.{Adds, AddsBytes, AwaitsBytes, IsAskedBy, IsUnfit, Takes};
ghost use Rattle.dgt_ask.specs.Asks.{AskInOrder, Asks, AsksBytes, AsksHelp, AsksStray, DetailAsks, HasBytes, IsAlone, IsNamed, IsNoStray, IsRaw, IsStray, LacksOperand, detail_text};

use crate::details::{
    BadRaw, Detail, beep, byte, detail_of, eight_letters, icons, leds, raw, set_and_run, six_places,
};
use dgt_command::{
    ClockCommand, Command, FoundWord, MAX_LED_BYTES, MAX_PAYLOAD, MAX_WORD, WordFramer, encode,
};
use dgt_host::{Host, RESTART_LENGTH};
use std::alloc::{AllocError, Global};

/// The words and their operands, separated by commas, in lines of at most 78 columns.
pub const WORDS: &str = "\
reset, clock, dump, update, updateboard, updatenice, serial, longserial,
trademark, battery, version, follow, restart, log, beep N, end, button,
clockversion, display TEXT, text TEXT, icons HEX, setandrun HEX,
clockmessage ID HEX, leds HEX, stray HEX";

// Requests the stored events of a board. This is not a command of the library.
const LOG: u8 = 0x49;

/// Why the words were refused.
#[derive(Drop)]
pub enum BadAsk<'a> {
    /// A word is `--help` or `-h`.
    Help,
    /// This word is unknown.
    Unknown(&'a str),
    /// The operand of this word is missing.
    Missing(Detail),
    /// This is not an operand of the word.
    Unfit { detail: Detail, given: &'a str },
    /// Another word writes clock messages with this id and this number of bytes.
    Known { id: &'a str, word: &'static str },
    /// An allocation was refused.
    OutOfMemory,
}

impl From<AllocError> for BadAsk<'_> {
    ghost use Rattle.dgt_ask.specs.declared.asking.BadAsk.{BadAsk};

    ghost from_gives = { λ _ fault. fault ≡ BadAsk.OutOfMemory };

    fn from(_error: AllocError) -> Self {
        BadAsk::OutOfMemory
    }
}

// The request of a word.
enum Asked {
    Command(Command<'static>),
    Follow,
    Restart,
    Log,
    With(Detail),
}

fn named(word: &str) -> Option<Asked>
    ensures { MatchOption result
        (((each : CommandContent) → ¬ (IsNamed word.now each))
        × ((bytes : List ℕ) → ¬ (IsAlone word.now bytes))
        × ((each : Detail) → word.now ≢ detail_text each))
        (IsAskedBy word.now) }
{
    let command = match word {
        "reset" => Command::Reset,
        "clock" => Command::Clock,
        "dump" => Command::Dump,
        "update" => Command::Update,
        "updateboard" => Command::UpdateBoard,
        "updatenice" => Command::UpdateNice,
        "serial" => Command::Serial,
        "longserial" => Command::LongSerial,
        "trademark" => Command::Trademark,
        "battery" => Command::Battery,
        "version" => Command::Version,
        "end" => Command::ClockMessage(ClockCommand::End),
        "button" => Command::ClockMessage(ClockCommand::Button),
        "clockversion" => Command::ClockMessage(ClockCommand::Version),
        "follow" => return Some(Asked::Follow),
        "restart" => return Some(Asked::Restart),
        "log" => return Some(Asked::Log),
        _ => return Some(Asked::With(detail_of(word)?)),
    };
    Some(Asked::Command(command))
}

// What the next word must be.
#[derive(Clone, Copy)]
enum Awaited<'a> {
    Name,
    Detail(Detail),
    /// The bytes of a clock message with this id.
    Bytes(&'a str),
}

/// The bytes of the commands that these words request, in order.
///
/// A command is the text that `dgt commands` prints, as one word, or with its operands as words of
/// their own. The contract is about commands of one word, and about a missing operand after them.
#[tactic(auto, using(crate::proofs::AskLemmas::none_awaited))]
pub fn asked_bytes<'a>(alloc: Global, words: &[&'a str]) -> Result<Vec<u8>, BadAsk<'a>>
    ensures asked { (asked : List (List ℕ)) → AskInOrder (map (λ word. word.now) words.now) asked →
        MatchResult result (λ bytes. bytes.items ≡ concat asked)
        (λ fault. fault ≡ BadAsk.OutOfMemory) }
    ensures missing { (before rest asked : List (List ℕ)) (word : Detail) →
        map (λ word. word.now) words.now ≡ before ++ rest → AskInOrder before asked →
        LacksOperand word rest → IsErrAnd result (λ fault.
        (fault ≡ BadAsk.Missing word) ⊎ (fault ≡ BadAsk.OutOfMemory)) }
{
    let mut bytes = Vec::new(alloc);
    let mut awaited = Awaited::Name;
    for word in words {
        awaited = take(awaited, word, &mut bytes)?;
    }
    match awaited {
        Awaited::Name => Ok(bytes),
        Awaited::Detail(detail) => Err(BadAsk::Missing(detail)),
        Awaited::Bytes(_) => Err(BadAsk::Missing(Detail::ClockMessage)),
    }
}

// Takes a word, appends the bytes of the command that it ends, and returns what must follow.
#[tactic(auto, using(crate::proofs::AskLemmas::no_help))]
fn take<'a>(
    awaited: Awaited<'a>,
    word: &'a str,
    bytes: &mut Vec<u8>,
) -> Result<Awaited<'a>, BadAsk<'a>>
    ensures asked { (asked : List ℕ) → awaited.entry ≡ Awaited.Name → AsksBytes word.now asked →
        Takes result bytes.old.items bytes.new.items asked }
    ensures operand { (each : Detail) → awaited.entry ≡ Awaited.Name →
        word.now ≡ detail_text each → IsOkAnd result (λ next. next ≡ Awaited.Detail each)
        × (bytes.new.items ≡ bytes.old.items) }
    ensures id { awaited.entry ≡ Awaited.Detail Detail.ClockMessage → ¬ (AsksHelp word.now) →
        IsOkAnd result (AwaitsBytes word.now) × (bytes.new.items ≡ bytes.old.items) }
    ensures fits { (each : Detail) (asked : CommandContent) →
        awaited.entry ≡ Awaited.Detail each → each ≢ Detail.ClockMessage →
        (AsksHelp word.now → each ≡ Detail.Text) → DetailAsks each word.now asked →
        Takes result bytes.old.items bytes.new.items (command_encoding asked) }
    ensures help { AsksHelp word.now → awaited.entry ≢ Awaited.Detail Detail.Text →
        IsErrAnd result (λ fault. fault ≡ BadAsk.Help) × (bytes.new.items ≡ bytes.old.items) }
{
    match awaited {
        // Only here are `--help` and `-h` a text.
        Awaited::Detail(Detail::Text) => push_detail(Detail::Text, word, bytes)?,
        _ if word == "--help" || word == "-h" => return Err(BadAsk::Help),
        Awaited::Name => return begin(word, bytes),
        Awaited::Detail(Detail::ClockMessage) => return Ok(Awaited::Bytes(word)),
        Awaited::Detail(detail) => push_detail(detail, word, bytes)?,
        Awaited::Bytes(id) => push_clock_message(id, word, bytes)?,
    }
    Ok(Awaited::Name)
}

// Takes the first word of a command, or a whole command in one word.
#[tactic(auto, using(crate::proofs::AskLemmas::spaced))]
fn begin<'a>(word: &'a str, bytes: &mut Vec<u8>) -> Result<Awaited<'a>, BadAsk<'a>>
    ensures command { (command : CommandContent) → Asks word.now command →
        Takes result bytes.old.items bytes.new.items (command_encoding command) }
    ensures alone { (asked : List ℕ) → IsAlone word.now asked →
        Takes result bytes.old.items bytes.new.items asked }
    ensures stray { (asked : List ℕ) → AsksStray word.now asked →
        Takes result bytes.old.items bytes.new.items asked }
    ensures operand { (each : Detail) → word.now ≡ detail_text each →
        IsOkAnd result (λ next. next ≡ Awaited.Detail each)
        × (bytes.new.items ≡ bytes.old.items) }
{
    if let Some((name, rest)) = word.split_once(' ') {
        match detail_of(name) {
            Some(Detail::ClockMessage) => push_id_and_bytes(rest, bytes)?,
            Some(detail) => push_detail(detail, rest, bytes)?,
            None => return Err(BadAsk::Unknown(word)),
        }
        return Ok(Awaited::Name);
    }
    match named(word) {
        Some(Asked::Command(command)) => push(&command, bytes)?,
        Some(Asked::Follow) => push_follow(bytes)?,
        Some(Asked::Restart) => push_restart(bytes)?,
        Some(Asked::Log) => bytes.extend_from_slice(&[LOG])?,
        Some(Asked::With(detail)) => return Ok(Awaited::Detail(detail)),
        None => return Err(BadAsk::Unknown(word)),
    }
    Ok(Awaited::Name)
}

// Appends the bytes of a command.
fn push(command: &Command<'_>, bytes: &mut Vec<u8>) -> Result<(), AllocError>
    ensures { OnOk result (bytes.new.items
        ≡ bytes.old.items ++ command_encoding (command_content command.now)) }
{
    let mut room = [0; MAX_WORD];
    let count = encode(command, &mut room).unwrap();
    bytes.extend_from_slice(&room[..count])
}

fn push_follow(bytes: &mut Vec<u8>) -> Result<(), AllocError>
    ensures { OnOk result (bytes.new.items ≡ bytes.old.items ++ follow_bytes) }
{
    let mut room = [0; RESTART_LENGTH];
    let count = Host::new().follow(&mut room).unwrap();
    bytes.extend_from_slice(&room[..count])
}

fn push_restart(bytes: &mut Vec<u8>) -> Result<(), AllocError>
    ensures { OnOk result (bytes.new.items ≡ bytes.old.items ++ restart_bytes) }
{
    let mut room = [0; RESTART_LENGTH];
    let count = Host::new().restart(&mut room).unwrap();
    bytes.extend_from_slice(&room[..count])
}

// Appends the command of a word and its operand.
fn push_detail<'a>(detail: Detail, word: &'a str, bytes: &mut Vec<u8>) -> Result<(), BadAsk<'a>>
    ensures command { (command : CommandContent) → detail ≢ Detail.ClockMessage →
        DetailAsks detail word.now command → Adds result bytes.old.items bytes.new.items command }
    ensures stray { (byte : ℕ) → detail ≡ Detail.Stray → IsStray word.now byte →
        AddsBytes result bytes.old.items bytes.new.items (byte ∷ []) }
    ensures unfit { detail ≡ Detail.Stray → IsNoStray word.now →
        IsErrAnd result (IsUnfit Detail.Stray word.now) × (bytes.new.items ≡ bytes.old.items) }
{
    let mut room = [0; MAX_LED_BYTES];
    match detail {
        Detail::Beep => push_fit(beep(word), detail, word, bytes),
        Detail::Display => push_fit(six_places(word), detail, word, bytes),
        Detail::Text => push_fit(eight_letters(word), detail, word, bytes),
        Detail::Icons => push_fit(icons(word, &mut room), detail, word, bytes),
        Detail::SetAndRun => push_fit(set_and_run(word), detail, word, bytes),
        // This word has two operands.
        Detail::ClockMessage => push_fit(None, detail, word, bytes),
        Detail::Leds => push_fit(leds(word, &mut room), detail, word, bytes),
        Detail::Stray => push_stray(word, bytes),
    }
}

// Appends the command, or refuses the operand if there is none.
fn push_fit<'a>(
    command: Option<Command<'_>>,
    detail: Detail,
    given: &'a str,
    bytes: &mut Vec<u8>,
) -> Result<(), BadAsk<'a>>
    ensures fits { IfSome command.entry (λ command.
        Adds result bytes.old.items bytes.new.items (command_content command)) }
    ensures added { OnOk result (IsSomeAnd command.entry (λ command. bytes.new.items
        ≡ bytes.old.items ++ command_encoding (command_content command))) }
    ensures unfit { IfNone command.entry (IsErrAnd result (IsUnfit detail given.now)
        × (bytes.new.items ≡ bytes.old.items)) }
{
    match command {
        Some(command) => Ok(push(&command, bytes)?),
        None => Err(BadAsk::Unfit { detail, given }),
    }
}

// Appends a clock message with its id and bytes in one word.
fn push_id_and_bytes<'a>(word: &'a str, bytes: &mut Vec<u8>) -> Result<(), BadAsk<'a>>
    ensures { (message : ClockContent) → IsRaw word.now message →
        Adds result bytes.old.items bytes.new.items (ClockMessage message) }
{
    match word.split_once(' ') {
        Some((id, payload)) => push_clock_message(id, payload, bytes),
        None => push_fit(None, Detail::ClockMessage, word, bytes),
    }
}

// Appends a clock message without another word.
fn push_clock_message<'a>(id: &'a str, word: &'a str, bytes: &mut Vec<u8>) -> Result<(), BadAsk<'a>>
    ensures asks { (message : ClockContent) → decode_sized id.now 1 ≡ Ok (message.id ∷ []) →
        HasBytes word.now message.payload → length message.payload ≤ 252 →
        has_own_case message.id (length message.payload) ≡ false →
        Adds result bytes.old.items bytes.new.items (ClockMessage message) }
    ensures none { word.now ≡ codes "-" → OnOk result
        (IsOkAnd (decode_sized id.now 1) (λ ids. bytes.new.items ≡ bytes.old.items
        ++ command_encoding (ClockMessage (record { id = nth ids 0; payload = [] })))) }
    ensures digits { word.now ≢ codes "-" → OnOk result
        (IsOkAnd (decode_sized id.now 1) (λ ids. IfOk (decode_of word.now) (λ payload.
        bytes.new.items ≡ bytes.old.items
        ++ command_encoding (ClockMessage (record { id = nth ids 0; payload = payload }))))) }
{
    let mut room = [0; MAX_PAYLOAD];
    let Some(number) = byte(id) else {
        return push_fit(None, Detail::ClockMessage, id, bytes);
    };
    match raw(number, word, &mut room) {
        Ok(command) => Ok(push(&command, bytes)?),
        Err(BadRaw::Known(word)) => Err(BadAsk::Known { id, word }),
        Err(BadRaw::Bytes) => push_fit(None, Detail::ClockMessage, word, bytes),
    }
}

// Appends a byte that starts no command.
fn push_stray<'a>(word: &'a str, bytes: &mut Vec<u8>) -> Result<(), BadAsk<'a>>
    ensures stray { (byte : ℕ) → IsStray word.now byte →
        AddsBytes result bytes.old.items bytes.new.items (byte ∷ []) }
    ensures unfit { IsNoStray word.now → IsErrAnd result (IsUnfit Detail.Stray word.now)
        × (bytes.new.items ≡ bytes.old.items) }
{
    let Some(byte) = byte(word) else {
        return push_fit(None, Detail::Stray, word, bytes);
    };
    if !begins_no_command(byte) {
        return push_fit(None, Detail::Stray, word, bytes);
    }
    Ok(bytes.extend_from_slice(&[byte])?)
}

#[tactic(auto, using(crate::proofs::AskLemmas::only_stray))]
fn begins_no_command(byte: u8) -> bool
    ensures { IsTrue result ↔ BeginsNoCommand byte }
{
    let Some(found) = WordFramer::new().advance(&[byte]).found else {
        return false;
    };
    matches!(found, FoundWord::Stray(_))
}
