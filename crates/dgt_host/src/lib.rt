//! The host of a DGT board: it sends commands, and tracks the board's position from the messages
//! that it receives.
//!
//! A [`Host`] doesn't own the line. No call allocates memory or waits.
//!
//! | To | Use |
//! |---|---|
//! | write a [`Command`] into a slice | `send`; `follow` requests all that a picture needs |
//! | hear received bytes, cut anywhere | `hear`, which returns one [`Event`]; `hear_all` |
//! | see the position, the clock, the awaited replies | `picture`, `clock`, `awaited` |
//! | continue after a break that both sides noticed | `line_lost`, then `follow` |
//! | start on a line that another program has used | `restart` |
//! | continue after a reply was lost | `give_up_awaited` |
//!
//! The messages are those of the DGT Electronic Board Protocol Description. A dump sets the whole
//! picture, a field update sets one square of a picture that is known, and a reading of the clock
//! sets the clock.
//!
//! The list of at most [`MAX_AWAITED`] awaited replies is this project's own choice. A reply is
//! removed from the list if it is the first awaited. Otherwise it is reported as unasked.
//!
//! This program prints the position after each change. It needs no proof of its own:
//!
//! ```rust
//! use dgt_host::Host;
//! use std::io::{self, Read, Write};
//!
//! /// Writes the placement of the pieces after each change that a board reports, up to the end.
//! pub fn show<R: Read + Drop, W: Write + Drop>(mut board: R, mut output: W) -> io::Result<()> {
//!     let mut host = Host::new();
//!     let mut shown = None;
//!     let mut chunk = [0; 64];
//!     for _ in 0..u64::MAX {
//!         let count = board.read(&mut chunk)?;
//!         if count == 0 {
//!             break;
//!         }
//!         for byte in &chunk[..count] {
//!             host.hear_all(&[*byte]);
//!             let picture = host.picture().copied();
//!             if picture != shown {
//!                 shown = picture;
//!                 if let Some(position) = picture {
//!                     output.write_all(position.placement().as_str().as_bytes())?;
//!                     output.write_all(b"\n")?;
//!                     output.flush()?;
//!                 }
//!             }
//!         }
//!     }
//!     Ok(())
//! }
//! ```
//!
//! Contracts see a host as its picture, its clock, the kinds that it awaits and its unread bytes
//! (`HostView` of `specs/Host.antt`):
//!
//! | Name | It says |
//! |---|---|
//! | `host_after` | the host after it has heard some bytes |
//! | `IsUnasked` | which message isn't the first awaited |
//! | `Sends` | what sending returns and leaves |
//! | `pieces_of`, `placement_text` (dgt_values) | the 64 pieces of a position, and its text |
//! | `clock_seen` (dgt_message) | what a clock shows |
//! | `events`, `unfinished_message` (dgt_decode) | the events of bytes, and the unfinished rest |
//!
//! [`laws`] says that the division into chunks doesn't matter (`heard_in_chunks`), and that a host
//! that hears nothing stays as it is (`nothing_heard`).
//!
//! dgt_message defines messages, and dgt_values positions and their texts. This crate re-exports
//! [`Event`], [`Message`], [`Clock`], [`Command`], [`Kind`], [`Position`], [`Square`] and
//! [`Piece`].
#![tactic(auto)]

mod hearing;
mod host;
pub mod laws;
mod sending;

pub use dgt_command::Command;
pub use dgt_decode::Event;
pub use dgt_message::{Clock, Message};
pub use dgt_values::{Kind, Piece, Position, Square};
pub use hearing::Heard;
pub use host::{Host, MAX_AWAITED, RESTART_LENGTH};
pub use sending::SendFault;
