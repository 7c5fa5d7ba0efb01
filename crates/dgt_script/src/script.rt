//! The lines of a script.

ghost use Rattle.std.specs.Prelude.{◌≡◌, [], ◌∷◌, length, IfOk, IfErr, MatchResult};
ghost use Rattle.dgt_link.specs.Act.{act_content};
ghost use Rattle.dgt_script.specs.ScriptWords.{verb_text, words_text, IsCountWord};
ghost use Rattle.dgt_script.specs.Script.{a_count, bad_offset, plain_words, words, AsksFor, IsBadAt};
ghost use Rattle.dgt_script.specs.ScriptReading.{left_words, plain_acts, FindsWord, GoesWrongBefore, ReadsAfter, ReadsWord};
ghost use Rattle.dgt_script.specs.declared.script_words.Verb.TheVariants as verb;

use crate::cutting::len_before;
use crate::first_word::{FirstWord, read_line};
use crate::script_words::{
    Store, Verb, clock_word, command_word, count_word, piece_word, square_word, verb_word,
};
use dgt_command::MAX_WORD;
use dgt_link::Act;
use thiserror::Error;

/// Why a line of a script was refused.
#[derive(Clone, Copy, Debug, PartialEq, Eq, Error)]
pub enum LineFault {
    /// The first word that is not allowed in its place, or is one too many, starts at the byte
    /// offset `at`. If a word is missing, `at` is the length of the line. If the line has more than
    /// 519 bytes, `at` is 519.
    #[error("bad at {at}")]
    BadLine { at: usize },
}

/// A wrong line. `left` bytes of it are left from its first wrong word on.
#[derive(Clone, Copy)]
pub(crate) struct Wrong {
    pub(crate) left: usize,
}

/// Reads the act of a line of a script, without its line feed. The bytes of a command are put in
/// `store`, which may hold any bytes after a refusal.
///
/// The words of a line are its parts between single spaces. A line is one of
///
/// | Line | Act |
/// |---|---|
/// | `change SQUARE LETTER` | `Change`: a square such as `e4`, and the piece, or `.` for none |
/// | `clock HEX` | `ClockRead`: fourteen hexadecimal digits, the bytes of times or of no clock |
/// | `host HEX` | `Host`: 2 to 514 hexadecimal digits, the bytes of exactly one command |
/// | `send` | `BoardSend` |
/// | `toboard N` | `ToBoard`: 1 to 65535, in decimal with no leading zero |
/// | `tohost N` | `ToHost`: the same |
/// | `break` | `Break` |
/// | `hostbreak` | `HostBreak` |
///
/// Hexadecimal digits may be of either case. Returns `BadLine` for any other line, and for a line
/// of more than 519 bytes.
pub fn read_act<'a>(line: &[u8], store: &'a mut [u8; MAX_WORD]) -> Result<Act<'a>, LineFault>
    ensures asked { IfOk result (λ act. AsksFor plain_words line.now (act_content act)) }
    ensures bad { IfErr result (λ fault. IsBadAt plain_words line.now (bad_offset fault)) }
{
    read_line::<Verb>(line, store)
}

impl<'a> FirstWord<'a> for Verb {
    type Act = Act<'a>;

    ghost vocabulary = { plain_acts };

    fn of_text(text: &[u8]) -> Option<Self>
        ensures { FindsWord verb_text text.now result }
    {
        verb_word(text)
    }

    fn read_rest(self, rest: Option<&[u8]>, store: &'a mut Store) -> Result<Act<'a>, Wrong> {
        match self {
            Verb::Change => change_line(rest),
            Verb::Clock => clock_line(rest),
            Verb::Host => host_line(rest, store),
            Verb::Send => {
                no_word(rest)?;
                Ok(Act::BoardSend)
            }
            Verb::ToBoard => Ok(Act::ToBoard(count_line(rest)?)),
            Verb::ToHost => Ok(Act::ToHost(count_line(rest)?)),
            Verb::Break => {
                no_word(rest)?;
                Ok(Act::Break)
            }
            Verb::HostBreak => {
                no_word(rest)?;
                Ok(Act::HostBreak)
            }
        }
    }
}

// Below, `rest` is the text after the first word and its space.
fn change_line(rest: Option<&[u8]>) -> Result<Act<'static>, Wrong>
    ensures { ReadsAfter plain_acts verb.Change (left_words rest.entry) result }
{
    let (word, later) = next_word(rest)?;
    let Some(square) = square_word(word) else {
        return Err(wrong_from(rest));
    };
    let (word, last) = next_word(later)?;
    let Some(piece) = piece_word(word) else {
        return Err(wrong_from(later));
    };
    no_word(last)?;
    Ok(Act::Change(square, piece))
}

fn clock_line(rest: Option<&[u8]>) -> Result<Act<'static>, Wrong>
    ensures { ReadsAfter plain_acts verb.Clock (left_words rest.entry) result }
{
    let (word, last) = next_word(rest)?;
    let Some(clock) = clock_word(word) else {
        return Err(wrong_from(rest));
    };
    no_word(last)?;
    Ok(Act::ClockRead(clock))
}

fn host_line<'a>(rest: Option<&[u8]>, store: &'a mut Store) -> Result<Act<'a>, Wrong>
    ensures { ReadsAfter plain_acts verb.Host (left_words rest.entry) result }
{
    let (word, last) = next_word(rest)?;
    let Some(command) = command_word(word, store) else {
        return Err(wrong_from(rest));
    };
    no_word(last)?;
    Ok(Act::Host(command))
}

fn count_line(rest: Option<&[u8]>) -> Result<usize, Wrong>
    ensures { ReadsWord a_count IsCountWord (left_words rest.entry) result }
{
    let (word, last) = next_word(rest)?;
    let Some(count) = count_word(word) else {
        return Err(wrong_from(rest));
    };
    no_word(last)?;
    Ok(count)
}

/// The next word, and the text after the space that ends it.
pub(crate) fn next_word<'a>(rest: Option<&'a [u8]>) -> Result<(&'a [u8], Option<&'a [u8]>), Wrong>
    ensures { MatchResult result
        (λ cut. left_words rest.entry ≡ cut.0.now ∷ left_words cut.1)
        (λ wrong. (left_words rest.entry ≡ []) × (wrong.left ≡ 0)) }
{
    match rest {
        Some(bytes) => Ok(cut_word(bytes)),
        None => Err(Wrong { left: 0 }),
    }
}

/// No word is left.
pub(crate) fn no_word(rest: Option<&[u8]>) -> Result<(), Wrong>
    ensures { MatchResult result
        (λ _. left_words rest.entry ≡ [])
        (λ wrong. GoesWrongBefore [] (left_words rest.entry) wrong) }
{
    match rest {
        Some(bytes) => Err(Wrong { left: bytes.len() }),
        None => Ok(()),
    }
}

/// A line that is wrong at the next word, or at its end if there is none.
pub(crate) fn wrong_from(rest: Option<&[u8]>) -> Wrong
    ensures { result.left ≡ length (words_text (left_words rest.entry)) }
{
    match rest {
        Some(bytes) => Wrong { left: bytes.len() },
        None => Wrong { left: 0 },
    }
}

/// The first word, and the text after the space that ends it.
pub(crate) fn cut_word(line: &[u8]) -> (&[u8], Option<&[u8]>)
    ensures { words line.now ≡ result.0.now ∷ left_words result.1 }
{
    let end = len_before(line, b' ');
    (&line[..end], line.get(end + 1..))
}
