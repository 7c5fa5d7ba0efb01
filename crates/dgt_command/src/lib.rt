//! The commands that a host sends to a DGT board, as values and as bytes.
//!
//! A [`Command`] is one byte, a clock message `2b size 03 id payload 00`, or an LED frame `60 size`
//! with `size` further bytes. The size of a clock message counts all bytes after itself.
//!
//! A dump request is `42`, and a beep of length 3 is `2b 04 03 0b 03 00`. This function looks for a
//! dump request:
//!
//! ```rust
//! use dgt_command::{Command, CommandDecoder, CommandEvent};
//!
//! /// Whether these bytes of a host request a dump.
//! pub fn request_dump(bytes: &[u8]) -> bool {
//!     let mut decoder = CommandDecoder::new();
//!     let mut found = false;
//!     for byte in bytes {
//!         if let Some(CommandEvent::Command(Command::Dump)) = decoder.feed(&[*byte]).event {
//!             found = true;
//!         }
//!     }
//!     found
//! }
//! ```
//!
//! | To | Use |
//! |---|---|
//! | write a command | [`encode`]; [`length`] returns how many bytes it needs |
//! | read what a host sends, cut anywhere | [`CommandDecoder`]: one [`CommandEvent`] a call |
//! | read one whole command | [`view_command`] |
//! | find out which reply a command requests | [`kind_of_command`] |
//! | read commands in a type with a state of its own | [`WordFramer`] |
//!
//! Nothing here allocates. An event borrows what its command carries until the next call.
//!
//! These forms, the command bytes and the [`KnownId`]s are those of the DGT Electronic Board
//! Protocol Description (the `dgtbrd` header), single-board mode. This project chose to report
//! other bytes one by one, and where reading continues after a fault: see [`CommandEvent`].
//!
//! [`laws`] states that bytes divide into frames in one way, that encoded commands are read back,
//! and that 255 zeros complete any command that was left unfinished.
#![tactic(auto)]

mod carried;
mod clock;
mod codes;
mod command;
mod decoder;
mod displaying;
mod framer;
mod ids;
pub mod laws;
mod lengths;
mod questions;
mod viewing;
mod writing;

pub use carried::{LedBytes, MAX_LED_BYTES, MAX_PAYLOAD, Payload};
pub use clock::{ClockCommand, RawClock};
pub use command::{Command, CommandEvent};
pub use decoder::{CommandDecoder, CommandFed};
pub use displaying::display;
pub use framer::{AdvancedWord, FoundWord, MAX_WORD, WordFramer};
pub use ids::KnownId;
pub use questions::kind_of_command;
pub use viewing::view_command;
pub use writing::{clock_id, encode, length};
