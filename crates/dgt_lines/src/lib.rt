//! Prints the messages of a DGT board and the commands of its host as lines of text.
//!
//! | To | Use |
//! |---|---|
//! | read a slice, or any reader of std | [`Bytes`], [`Device`] |
//! | write to any writer of std | [`Device`] |
//! | write bytes, and flush them | [`put`], [`flush`] |
//! | write the line `00000005 field e4 P` of an event | [`write_event`] |
//! | write its text `field e4 P` to a slice | [`format_event`] |
//! | write the line `00000001 dump` of a command | [`write_command`] |
//! | print all messages of a board, without or with names | [`monitor`], [`monitor_names`] |
//! | print all commands of a host | [`commands`] |
//! | print a board's positions, or its stored events | [`picture`], [`log`] |
//! | write the last positions of a board and a host | [`write_closing`] |
//!
//! ```rust
//! use dgt_decode::Event;
//! use dgt_lines::{RunFault, Sink, flush, write_event};
//!
//! /// Prints the line of an event, such as `00000005 field e4 P`.
//! pub fn print<W: Sink>(to: &mut W, offset: u64, event: &Event<'_>) -> Result<(), RunFault> {
//!     write_event(to, offset, event)?;
//!     flush(to)
//! }
//! ```
//!
//! Commands are printed in the words of `dgt ask`:
//!
//! ```rust
//! use dgt_command::CommandDecoder;
//! use dgt_lines::{RunFault, Sink, flush, write_command};
//!
//! /// Writes the line of each command of these bytes, such as `00000001 dump`.
//! pub fn list<W: Sink>(bytes: &[u8], to: &mut W) -> Result<(), RunFault> {
//!     let mut decoder = CommandDecoder::new();
//!     for (before, byte) in bytes.iter().enumerate() {
//!         if let Some(event) = decoder.feed(&[*byte]).event {
//!             write_command(to, before as u64 + 1, &event)?;
//!         }
//!     }
//!     flush(to)
//! }
//! ```
//!
//! A [`Source`] gives bytes and a [`Sink`] takes them. Contracts state which bytes were read and
//! written, even after a refused call, if the source and the sink state their bytes. [`RunFault`]
//! says why a run stopped.
//!
//! The format of lines is this project's own. No call allocates memory. [`laws`] contains facts
//! about lines, writes and runs.
#![tactic(auto)]

mod chunks;
mod clocks;
mod closing;
mod command_chunks;
mod command_lines;
mod command_wording;
mod doubts;
mod engines;
mod faults;
mod formatting;
mod gathering;
pub mod laws;
mod lines;
mod log_chunks;
mod logs;
mod named_chunks;
mod naming;
mod picture_chunks;
mod pictures;
mod printers;
mod slice_source;
mod std_device;
mod streams;
mod wording;

pub use chunks::LINES_ROOM;
pub use clocks::ShownClock;
pub use closing::write_closing;
pub use command_chunks::COMMANDS_ROOM;
pub use command_lines::write_command;
pub use doubts::{Doubt, PictureState, Shown};
pub use engines::{commands, log, monitor, monitor_names, picture};
pub use faults::RunFault;
pub use formatting::format_event;
pub use gathering::{flush, put};
pub use lines::{write_event, write_unfinished};
pub use log_chunks::LOG_ROOM;
pub use picture_chunks::PICTURES_ROOM;
pub use pictures::Picture;
pub use printers::MAX_CHUNK;
pub use slice_source::Bytes;
pub use std_device::Device;
pub use streams::{Failed, Sink, Source};
