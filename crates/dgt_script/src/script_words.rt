//! The words of a script line: the first one, and squares, pieces, clocks, commands and counts.

ghost use Rattle.std.specs.Prelude.{◌≤◌, ℕ, List, MatchOption, length};
ghost use Rattle.dgt_values.specs.declared.pieces.Piece.{Piece};
ghost use Rattle.dgt_values.specs.Board.{square_number};
ghost use Rattle.dgt_message.specs.Content.{clock_seen, content};
ghost use Rattle.dgt_message.specs.Clock.{ClockState};
ghost use Rattle.dgt_command.specs.Content.{command_content, CommandContent};
ghost use Rattle.dgt_script.specs.FaultyScript.{faulty_text};
ghost use Rattle.dgt_script.specs.ScriptReading.{FindsWord};
ghost use Rattle.dgt_script.specs.ScriptWords.{verb_text, IsBytesWord, IsClockWord, IsCommandWord, IsCountWord, IsHexOf, IsPieceWord, IsSquareWord, ReportsClock};

use dgt_command::{Command, MAX_WORD, view_command};
use dgt_message::{Clock, KnownCode, Message, view};
use dgt_values::{Body, Piece, SevenBit, Square};
use hex::FromHex;

/// Room for the bytes of any command.
pub(crate) type Store = [u8; MAX_WORD];

/// The words that a line may begin with.
#[derive(Clone, Copy)]
pub(crate) enum Verb {
    Change,
    Clock,
    Host,
    Send,
    ToBoard,
    ToHost,
    Break,
    HostBreak,
}

/// The words that a line may begin with in a world with faults.
#[derive(Clone, Copy)]
pub(crate) enum FaultyVerb {
    Plain(Verb),
    GarbleUp,
    GarbleDown,
    BoardLost,
    Restart,
    GiveUp,
}

// The value of the row with this word. A `match` over byte strings takes three times as long to
// prove.
macro_rules! match_word {
    ($word:ident { $($text:literal => $value:expr),+ $(,)? }) => {{
        $(if $word == $text.as_slice() {
            return Some($value);
        })+
        None
    }};
}

/// The act that a first word begins.
pub(crate) fn verb_word(word: &[u8]) -> Option<Verb>
    ensures { FindsWord verb_text word.now result }
{
    match_word!(word {
        b"change" => Verb::Change,
        b"clock" => Verb::Clock,
        b"host" => Verb::Host,
        b"send" => Verb::Send,
        b"toboard" => Verb::ToBoard,
        b"tohost" => Verb::ToHost,
        b"break" => Verb::Break,
        b"hostbreak" => Verb::HostBreak,
    })
}

/// The act that a first word begins in a world with faults.
pub(crate) fn faulty_word(word: &[u8]) -> Option<FaultyVerb>
    ensures { FindsWord faulty_text word.now result }
{
    if let Some(verb) = verb_word(word) {
        return Some(FaultyVerb::Plain(verb));
    }
    match_word!(word {
        b"garbleup" => FaultyVerb::GarbleUp,
        b"garbledown" => FaultyVerb::GarbleDown,
        b"boardlost" => FaultyVerb::BoardLost,
        b"restart" => FaultyVerb::Restart,
        b"giveup" => FaultyVerb::GiveUp,
    })
}

/// The square of a name such as `e4`.
pub(crate) fn square_word(word: &[u8]) -> Option<Square>
    ensures { MatchOption result
        ((square : ℕ) → ¬ (IsSquareWord word.now square))
        (λ square. IsSquareWord word.now (square_number square)) }
{
    Square::parse(std::str::from_utf8(word).ok()?).ok()
}

/// The piece of a letter.
pub(crate) fn piece_word(word: &[u8]) -> Option<Piece>
    ensures { MatchOption result
        ((piece : Piece) → ¬ (IsPieceWord word.now piece))
        (IsPieceWord word.now) }
{
    let [letter] = word else {
        return None;
    };
    Piece::from_letter(char::from(*letter)).ok()
}

/// The clock of fourteen hexadecimal digits of either case: the body of a times or no-clock
/// message.
pub(crate) fn clock_word(word: &[u8]) -> Option<Clock>
    ensures { MatchOption result
        ((clock : ClockState) → ¬ (IsClockWord word.now clock))
        (λ clock. IsClockWord word.now (clock_seen clock)) }
{
    dgt_message::laws::reading_is_exact();
    let bytes = <[u8; 7] as FromHex>::from_hex(word).ok()?;
    let code = SevenBit::from_small(KnownCode::Clock.number());
    clock_of(view(code, Body::new(&bytes).ok()?).ok()?)
}

// The clock that a message reports.
fn clock_of(message: Message<'_>) -> Option<Clock>
    ensures { MatchOption result
        ((clock : ClockState) → ¬ (ReportsClock (content message.entry) clock))
        (λ clock. ReportsClock (content message.entry) (clock_seen clock)) }
{
    match message {
        Message::Times(times) => Some(Clock::Times(times)),
        Message::NoClock(absence) => Some(Clock::NoClock(absence)),
        _ => None,
    }
}

/// The command of these hexadecimal digits of either case, two for each byte. The bytes are put at
/// the start of `store`, which has room for any command, and the command borrows from there.
pub(crate) fn command_word<'a>(word: &[u8], store: &'a mut Store) -> Option<Command<'a>>
    ensures { MatchOption result
        ((command : CommandContent) → ¬ (IsCommandWord word.now command))
        (λ command. IsCommandWord word.now (command_content command)) }
{
    dgt_command::laws::words_are_short();
    view_command(hex_bytes(word, store)?)
}

/// No bytes for `-`, or the 1 to 257 bytes of hexadecimal digits of either case, two for each byte.
/// The bytes are put at the start of `store`.
pub(crate) fn bytes_word<'a>(word: &[u8], store: &'a mut Store) -> Option<&'a [u8]>
    ensures { MatchOption result
        ((bytes : List ℕ) → ¬ (IsBytesWord word.now bytes))
        (λ bytes. IsBytesWord word.now bytes.now) }
{
    if matches!(word, b"-") {
        return Some(b"");
    }
    let bytes = hex_bytes(word, store)?;
    if bytes.is_empty() {
        return None;
    }
    Some(bytes)
}

// The bytes of hexadecimal digits, at the start of `store`, if it has room for them.
fn hex_bytes<'a>(word: &[u8], store: &'a mut Store) -> Option<&'a [u8]>
    ensures { MatchOption result
        ((bytes : List ℕ) → length bytes ≤ 257 → ¬ (IsHexOf word.now bytes))
        (λ bytes. (length bytes.now ≤ 257) × IsHexOf word.now bytes.now) }
{
    let bytes = store.get_mut(..word.len() / 2)?;
    hex::decode_to_slice(word, bytes).ok()?;
    Some(bytes)
}

/// A count from 1 to 65535 in decimal, with no leading zero.
pub(crate) fn count_word(word: &[u8]) -> Option<usize>
    ensures { MatchOption result
        ((count : ℕ) → ¬ (IsCountWord word.now count))
        (IsCountWord word.now) }
{
    let first = *word.first()?;
    if first == b'0' || !first.is_ascii_digit() {
        return None;
    }
    let count: u16 = std::str::from_utf8(word).ok()?.parse().ok()?;
    Some(count.into())
}
