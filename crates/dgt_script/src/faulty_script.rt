//! The lines of a script for a world with faults.

ghost use Rattle.std.specs.Prelude.{IfOk, IfErr};
ghost use Rattle.dgt_link.specs.Faults.{faulty_content};
ghost use Rattle.dgt_script.specs.FaultyScript.{faulty_text, faulty_words};
ghost use Rattle.dgt_script.specs.Script.{bad_offset, some_bytes, AsksFor, IsBadAt};
ghost use Rattle.dgt_script.specs.ScriptReading.{left_words, seen_as, FindsWord, ReadsWord};
ghost use Rattle.dgt_script.specs.ScriptWords.{IsBytesWord};

use crate::first_word::{FirstWord, read_line};
use crate::script::{LineFault, Wrong, next_word, no_word, wrong_from};
use crate::script_words::{FaultyVerb, Store, bytes_word, faulty_word};
use dgt_command::MAX_WORD;
use dgt_link::FaultyAct;

/// Reads a line of a script for a world with faults, without its line feed.
///
/// The line is one that [`crate::read_act`] reads, which is then a `Plain` act, or one of
///
/// | Line | Act |
/// |---|---|
/// | `garbleup BYTES` | `GarbleUp` |
/// | `garbledown BYTES` | `GarbleDown` |
/// | `boardlost` | `BoardLost` |
/// | `restart` | `Restart` |
/// | `giveup` | `GiveUp` |
///
/// `BYTES` is `-` for no bytes, or two hexadecimal digits of either case per byte. They are put in
/// `store`, which may hold any bytes after a refusal. Returns `BadLine` for any other line, and for
/// a line of more than 519 bytes.
pub fn read_faulty_act<'a>(
    line: &[u8],
    store: &'a mut [u8; MAX_WORD],
) -> Result<FaultyAct<'a>, LineFault>
    ensures asked { IfOk result (λ act. AsksFor faulty_words line.now (faulty_content act)) }
    ensures bad { IfErr result (λ fault. IsBadAt faulty_words line.now (bad_offset fault)) }
{
    read_line::<FaultyVerb>(line, store)
}

impl<'a> FirstWord<'a> for FaultyVerb {
    type Act = FaultyAct<'a>;

    ghost vocabulary = { seen_as faulty_content faulty_words };

    fn of_text(text: &[u8]) -> Option<Self>
        ensures { FindsWord faulty_text text.now result }
    {
        faulty_word(text)
    }

    fn read_rest(self, rest: Option<&[u8]>, store: &'a mut Store) -> Result<FaultyAct<'a>, Wrong> {
        match self {
            FaultyVerb::Plain(verb) => Ok(FaultyAct::Plain(verb.read_rest(rest, store)?)),
            FaultyVerb::GarbleUp => Ok(FaultyAct::GarbleUp(bytes_line(rest, store)?)),
            FaultyVerb::GarbleDown => Ok(FaultyAct::GarbleDown(bytes_line(rest, store)?)),
            FaultyVerb::BoardLost => {
                no_word(rest)?;
                Ok(FaultyAct::BoardLost)
            }
            FaultyVerb::Restart => {
                no_word(rest)?;
                Ok(FaultyAct::Restart)
            }
            FaultyVerb::GiveUp => {
                no_word(rest)?;
                Ok(FaultyAct::GiveUp)
            }
        }
    }
}

// The bytes after `garbleup` or `garbledown`.
fn bytes_line<'a>(rest: Option<&[u8]>, store: &'a mut Store) -> Result<&'a [u8], Wrong>
    ensures { ReadsWord some_bytes (λ word bytes. IsBytesWord word bytes.now)
        (left_words rest.entry) result }
{
    let (word, last) = next_word(rest)?;
    let Some(bytes) = bytes_word(word, store) else {
        return Err(wrong_from(rest));
    };
    no_word(last)?;
    Ok(bytes)
}
