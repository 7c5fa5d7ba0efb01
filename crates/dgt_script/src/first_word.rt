//! Reads the lines of a script by their first words.

ghost use Rattle.std.specs.Prelude.{IfOk, IfErr};
ghost use Rattle.dgt_script.specs.Script.{bad_offset, AsksFor, IsBadAt, Vocabulary};
ghost use Rattle.dgt_script.specs.ScriptReading.{left_words, FindsWord, ReadsAfter};

use crate::script::{LineFault, Wrong, cut_word};
use crate::script_lines::MAX_LINE;
use crate::script_words::Store;

/// A word that a line may begin with.
pub(crate) trait FirstWord<'a>: Sized {
    /// The act of a line.
    type Act;

    // all such words, and the acts of lines
    ghost vocabulary: { Vocabulary Self Self.Act };

    /// The first word with this text.
    fn of_text(text: &[u8]) -> Option<Self>
        ensures { FindsWord vocabulary.text_of text.now result };

    /// The act of this first word with the words after it.
    fn read_rest(self, rest: Option<&[u8]>, store: &'a mut Store) -> Result<Self::Act, Wrong>
        ensures { ReadsAfter vocabulary self (left_words rest.entry) result };
}

/// The act of a line.
pub(crate) fn read_line<'a, V: FirstWord<'a>>(
    line: &[u8],
    store: &'a mut Store,
) -> Result<V::Act, LineFault>
    ensures asked { IfOk result (AsksFor V.vocabulary line.now) }
    ensures bad { IfErr result (λ fault. IsBadAt V.vocabulary line.now (bad_offset fault)) }
{
    if line.len() > MAX_LINE {
        return Err(LineFault::BadLine { at: MAX_LINE });
    }
    let (first, rest) = cut_word(line);
    let Some(verb) = V::of_text(first) else {
        return Err(LineFault::BadLine { at: 0 });
    };
    match verb.read_rest(rest, store) {
        Ok(act) => Ok(act),
        Err(Wrong { left }) => Err(LineFault::BadLine {
            at: line.len() - left,
        }),
    }
}
