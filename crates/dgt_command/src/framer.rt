//! Reads the frames of commands, one by one.

ghost use Rattle.std.specs.Prelude.{◌≡◌, ◌≢◌, ◌+◌, ◌<◌, ◌≤◌, [], ◌++◌, length, take, true, false, Some};
ghost use Rattle.std.specs.Prelude.{IsTrue, IfSome, IfNone, MatchOption, OnSome, is_some};
ghost use Rattle.dgt_command.specs.Content.{CommandContent, Read, command_content, command_event_content};
ghost use Rattle.dgt_command.specs.Encoding.{IsEncoding, EncodesCommand, command_in};
ghost use Rattle.dgt_command.specs.Framing.{word_found_in, rest_after, rest_of};
ghost use Rattle.dgt_command.specs.Lengths.{Adds, IsWholeWord};
ghost use Rattle.dgt_command.specs.Words.{IsPartial, IsWord};

use crate::codes::{CLOCK_MESSAGE, END, command_of_byte};
use crate::command::{Command, CommandEvent};
use crate::lengths::{is_whole, length_so_far};
use crate::viewing::view_command;
use dgt_values::Kept;
use std::marker::Model;

/// The most bytes of a frame: a clock message or an LED frame with a size of 255.
pub const MAX_WORD: usize = 257;

/// What the last byte of a frame completed, without what the frame carries: [`WordFramer::event`]
/// returns that.
#[derive(Clone, Copy, Debug, PartialEq, Eq)]
pub enum FoundWord {
    /// A command. The framer keeps its bytes.
    Command,
    /// The second byte of a clock message, its size, is below 3.
    BadSize,
    /// The third byte of a clock message isn't 03.
    BadStart,
    /// The last byte of a clock message isn't 00.
    BadEnd,
    /// A byte outside a frame that doesn't begin a command.
    Stray(u8),
}

/// What [`WordFramer::advance`] did with a chunk.
#[derive(Clone, Copy, Debug, PartialEq, Eq)]
pub struct AdvancedWord {
    /// How many bytes of the chunk were used.
    pub used: usize,
    /// What the last of them completed, if they completed a frame.
    pub found: Option<FoundWord>,
}

/// Keeps the bytes of a frame that isn't finished yet, or of the one that is just complete: at most
/// [`MAX_WORD`].
///
/// It reads as a [`CommandDecoder`](crate::CommandDecoder) does, in two steps. `advance` returns an
/// owned value that says what was found, and `event` returns the event until the next `advance`. An
/// owner of the framer can change its own state between the two.
///
/// Contracts see the bytes kept (`word`) and whether they are a whole frame (`is_whole`). Reading
/// continues from the rest: the bytes kept if they aren't whole, and otherwise no bytes
/// (`rest_of`).
#[derive(Drop)]
pub struct WordFramer {
    word: Kept<MAX_WORD>,
    is_whole: bool,
}

impl Model for WordFramer {
    ghost use Rattle.std.specs.Prelude.{[], if◌then◌else◌};
    ghost use Rattle.dgt_command.specs.Framing.{KeptWord};
    ghost use Rattle.dgt_command.specs.Words.{IsPartial};

    ghost Value = { KeptWord };

    ghost view = { λ framer. record { word = framer.word; is_whole = framer.is_whole } };

    ghost invariant = { λ framer. IsPartial (if framer.is_whole then [] else framer.word) };
}

// Adds bytes of the chunk to a part of a frame, up to the one that completes it. Returns how many,
// and whether one did.
#[inline(never)]
fn add_each(word: &mut Kept<MAX_WORD>, chunk: &[u8]) -> (usize, bool)
    requires { IsPartial word.old }
    ensures { Adds word.old chunk.now word.new result.0 result.1 }
{
    for (i, byte) in chunk.iter().enumerate() {
        word.push(*byte);
        if is_whole(word.as_slice()) {
            return (i + 1, true);
        }
    }
    (chunk.len(), false)
}

// The same. A frame that is whole at the beginning of the chunk is copied in one step.
#[inline(always)]
fn add_bytes(word: &mut Kept<MAX_WORD>, chunk: &[u8]) -> (usize, bool)
    requires { IsPartial word.old }
    ensures { Adds word.old chunk.now word.new result.0 result.1 }
{
    let length = length_so_far(chunk);
    if word.len() > 0 || length > chunk.len() {
        return add_each(word, chunk);
    }
    word.set_prefix(chunk, length);
    (length, true)
}

// Whether a whole frame is a command, rather than a fault.
fn is_command(word: &[u8]) -> bool
    requires { IsWholeWord word.now }
    ensures command { IsTrue result → IsEncoding word.now }
    ensures fault { result ≡ false →
        (command : CommandContent) → EncodesCommand command word.now → ⊥ }
{
    match word {
        [byte] => command_of_byte(*byte).is_some(),
        [CLOCK_MESSAGE, _, _, .., last] => *last == END,
        [CLOCK_MESSAGE, ..] => false,
        _ => true,
    }
}

// Classifies a whole frame.
fn found_word(word: &[u8]) -> FoundWord
    requires { IsWholeWord word.now }
    ensures event { IsWord (word_found_in word.now result) word.now }
    ensures whole { result ≡ FoundWord.Command → IsEncoding word.now }
{
    if is_command(word) {
        return FoundWord::Command;
    }
    match word {
        [byte] => FoundWord::Stray(*byte),
        [_, _] => FoundWord::BadSize,
        [_, _, _] => FoundWord::BadStart,
        _ => FoundWord::BadEnd,
    }
}

impl WordFramer {
    /// A framer without bytes.
    pub fn new() -> Self
        ensures { result ≡ record { word = []; is_whole = false } }
    {
        WordFramer {
            word: Kept::new(),
            is_whole: false,
        }
    }

    /// How many bytes of an unfinished frame are kept: fewer than [`MAX_WORD`].
    pub fn partial(&self) -> usize
        ensures length { result ≡ length (rest_of self.now) }
        ensures unfinished { IsPartial (rest_of self.now) }
        ensures limit { result < MAX_WORD }
    {
        if self.is_whole { 0 } else { self.word.len() }
    }

    /// Forgets all bytes.
    pub fn reset(&mut self)
        ensures { self.new ≡ record { word = []; is_whole = false } }
    {
        self.word.clear();
        self.is_whole = false;
    }

    /// Uses the bytes of the chunk up to and including the first that completes a frame, and
    /// classifies that frame. If no byte completes one, it uses the whole chunk.
    pub fn advance(&mut self, chunk: &[u8]) -> AdvancedWord
        ensures within { result.used ≤ length chunk.now }
        ensures progress { 0 < length chunk.now → 0 < result.used }
        ensures first { IfSome result.found (λ found.
            IsWord (word_found_in self.new.word found)
            (rest_of self.old ++ take result.used chunk.now)) }
        ensures whole { result.found ≡ Some FoundWord.Command → IsEncoding self.new.word }
        ensures none { IfNone result.found
            ((result.used ≡ length chunk.now) × IsPartial (rest_of self.old ++ chunk.now)) }
        ensures held { rest_of self.new
            ≡ rest_after result.found (rest_of self.old ++ take result.used chunk.now) }
        ensures unfinished { IsPartial (rest_of self.new) }
        ensures limit { length self.new.word ≤ MAX_WORD }
        ensures kept { self.new ≡ record {
          word = rest_of self.old ++ take result.used chunk.now;
          is_whole = is_some result.found;
        } }
    {
        if self.is_whole {
            self.word.clear();
            self.is_whole = false;
        }
        let (used, has_word) = add_bytes(&mut self.word, chunk);
        self.is_whole = has_word;
        let found = if has_word {
            Some(found_word(self.word.as_slice()))
        } else {
            None
        };
        AdvancedWord { used, found }
    }

    /// The event of what was found, or `None` if a command was found and no whole command is kept.
    /// A command that `advance` has just found is kept until the next byte.
    #[inline(never)]
    pub fn event(&self, found: FoundWord) -> Option<CommandEvent<'_>>
        ensures { MatchOption result
            ((found ≡ FoundWord.Command) × ¬ (IsEncoding self.now.word))
            (λ event. (found ≡ FoundWord.Command → IsEncoding self.now.word)
            × (command_event_content event ≡ word_found_in self.now.word found)) }
    {
        match found {
            FoundWord::Command => {
                let command = view_command(self.word.as_slice())?;
                Some(CommandEvent::Command(command))
            }
            FoundWord::BadSize => Some(CommandEvent::BadSize),
            FoundWord::BadStart => Some(CommandEvent::BadStart),
            FoundWord::BadEnd => Some(CommandEvent::BadEnd),
            FoundWord::Stray(byte) => Some(CommandEvent::Stray(byte)),
        }
    }

    /// The command of one byte at the beginning of the chunk, if no frame is unfinished. The framer
    /// doesn't use that byte: a caller that takes the command continues after it.
    ///
    /// A caller that reads many commands calls this before `advance`.
    #[inline(always)]
    pub fn front_command(&self, chunk: &[u8]) -> Option<Command<'static>>
        ensures command { IfSome result (λ command. (rest_of self.now ≡ [])
            × IsWord (Read (command_content command)) (take 1 chunk.now)) }
        ensures within { OnSome result (0 < length chunk.now) }
        ensures none { IfNone result (rest_of self.now ≡ [] → (command : CommandContent) →
            ¬ (EncodesCommand command (take 1 chunk.now))) }
    {
        if self.partial() != 0 {
            return None;
        }
        match chunk {
            [byte, ..] => command_of_byte(*byte),
            [] => None,
        }
    }
}
