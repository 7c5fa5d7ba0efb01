//! What the command line of the program asks for.

ghost use Rattle.std.specs.Prelude.{◌≡◌};
ghost use Rattle.dgt_ask.specs.declared.tasks.BadArguments.{BadArguments as AnyFault};

use std::alloc::{AllocError, AllocFailed};
use thiserror::Error;

/// What the command line asks for.
#[derive(Drop)]
pub enum Task<'a> {
    /// Print this text: help, or the version.
    Help {
        text: String,
    },
    /// Print the messages in the bytes of this hexadecimal word, with names if `names` is true.
    Show {
        word: &'a str,
        names: bool,
    },
    /// Print the messages in the bytes of the input, with names if `names` is true.
    Monitor {
        names: bool,
    },
    /// Print the position after each message of the input that sets it. `doubt` also prints the
    /// first fault since a dump, and `clock` each change of the clock.
    Picture {
        doubt: bool,
        clock: bool,
    },
    /// Print the events that a board stored, from its messages in the input.
    Log,
    /// Print the commands in the bytes of the input.
    Commands,
    /// Write these bytes of commands.
    Ask {
        bytes: Vec<u8>,
    },
    /// Answer the commands of the input as a board with this placement.
    Board {
        placement: &'a str,
    },
    /// Do the acts of the input in a world with this placement on its board, and these capacities
    /// of its lines in bytes. With `faults` the lines and the board's power may fail.
    Simulate {
        placement: &'a str,
        up: u16,
        down: u16,
        faults: bool,
    },
}

impl Task<'_> {
    /// A note for the user at a terminal, if the task reads bytes from it or writes bytes to it.
    /// `reads` means that standard input is the terminal, and `writes` that standard output is.
    pub fn note(&self, reads: bool, writes: bool) -> Option<&'static str> {
        match self {
            Task::Monitor { .. } | Task::Picture { .. } | Task::Log | Task::Commands if reads => {
                Some("dgt: reading bytes from this terminal; press Ctrl-D to stop")
            }
            Task::Ask { .. } | Task::Board { .. } if writes => {
                Some("dgt: writing binary data to this terminal; redirect it with > or |")
            }
            _ => None,
        }
    }
}

/// Why the words are not a valid command line.
#[derive(Debug, Drop, Error)]
pub enum BadArguments {
    /// A word or an option is wrong or missing. The text says which, in whole lines.
    #[error("{text}")]
    Refused { text: String },
    /// An allocation was refused.
    #[error("out of memory")]
    OutOfMemory,
}

impl From<AllocError> for BadArguments {
    ghost from_gives = { λ _ fault. fault ≡ AnyFault.OutOfMemory };

    fn from(_error: AllocError) -> Self {
        BadArguments::OutOfMemory
    }
}

impl From<AllocFailed<String>> for BadArguments {
    ghost from_gives = { λ _ fault. fault ≡ AnyFault.OutOfMemory };

    fn from(_error: AllocFailed<String>) -> Self {
        BadArguments::OutOfMemory
    }
}
