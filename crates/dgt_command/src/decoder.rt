//! The decoder of commands. Its events borrow from it.

ghost use Rattle.std.specs.Prelude.{◌≡◌, ◌+◌, ◌<◌, ◌≤◌, [], ◌++◌, length, take, IfSome, IfNone};
ghost use Rattle.std.specs.Borrow.{sem};
ghost use Rattle.std.specs.Io.BufRead.{Rests};
ghost use Rattle.dgt_command.specs.Content.{command_event_content};
ghost use Rattle.dgt_command.specs.Framing.{rest_after};
ghost use Rattle.dgt_command.specs.Words.{IsPartial, IsWord};

use crate::command::CommandEvent;
use crate::framer::{AdvancedWord, MAX_WORD, WordFramer};
use std::marker::Model;

/// What [`CommandDecoder::feed`] did with a chunk.
#[derive(Clone, Copy, Debug, PartialEq, Eq)]
pub struct CommandFed<'a> {
    /// How many bytes of the chunk were used.
    pub used: usize,
    /// The event of the frame that the last used byte completed, if it completed one.
    pub event: Option<CommandEvent<'a>>,
}

/// Reads commands from bytes in chunks of any length. Contracts see it as the bytes of the
/// unfinished frame.
#[derive(Drop)]
pub struct CommandDecoder {
    framer: WordFramer,
}

impl Model for CommandDecoder {
    ghost use Rattle.std.specs.Prelude.{List, ℕ};
    ghost use Rattle.dgt_command.specs.Framing.{rest_of};

    ghost Value = { List ℕ };

    ghost view = { λ decoder. rest_of decoder.framer };
}

impl CommandDecoder {
    ghost use Rattle.dgt_command.specs.contracts.decoder.CommandDecoder.{the_row};

    /// A decoder without bytes.
    pub fn new() -> Self
        ensures { result ≡ [] }
    {
        CommandDecoder {
            framer: WordFramer::new(),
        }
    }

    /// Uses the bytes of the chunk up to and including the first that completes a frame, and
    /// returns its event. If no byte completes one, it uses the whole chunk.
    ///
    /// A command borrows what it carries from the decoder until the next call.
    pub fn feed(&mut self, chunk: &[u8]) -> CommandFed<'_>
        ensures* after_borrow { sem 𝓛 (Rests the_row self.entry (λ new.
            new ≡ rest_after result.event (self.old ++ take result.used chunk.now))) }
        ensures within { result.used ≤ length chunk.now }
        ensures progress { 0 < length chunk.now → 0 < result.used }
        ensures first { IfSome result.event (λ event.
            IsWord (command_event_content event) (self.old ++ take result.used chunk.now)) }
        ensures none { IfNone result.event
            ((result.used ≡ length chunk.now) × IsPartial (self.old ++ chunk.now)) }
    {
        if let Some(command) = self.framer.front_command(chunk) {
            let event = Some(CommandEvent::Command(command));
            return CommandFed { used: 1, event };
        }
        let AdvancedWord { used, found } = self.framer.advance(chunk);
        let Some(found) = found else {
            return CommandFed { used, event: None };
        };
        let event = self.framer.event(found);
        CommandFed { used, event }
    }

    /// How many bytes of an unfinished frame are held: fewer than [`MAX_WORD`].
    pub fn partial(&self) -> usize
        ensures length { result ≡ length self.now }
        ensures unfinished { IsPartial self.now }
        ensures limit { result < MAX_WORD }
    {
        self.framer.partial()
    }

    /// Forgets all bytes.
    pub fn reset(&mut self)
        ensures { self.new ≡ [] }
    {
        self.framer.reset();
    }
}
