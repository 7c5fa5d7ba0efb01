//! The engines of the program `dgt`: each reads bytes from a source and writes to a sink.
//!
//! | Engine | Reads | Writes |
//! |---|---|---|
//! | [`monitor`], [`monitor_names`] | a board's messages | a line for each event |
//! | [`picture`] | a board's messages | the placement after each change, and doubts and the clock |
//! | [`log`] | a board's messages | a line for each event that the board stored |
//! | [`commands`] | a host's commands | a line for each command |
//! | [`serve`] | a host's commands | a simulated board's replies |
//! | [`simulate`] | a script | the outcome of each act in a simulated world |
//! | [`simulate_faults`] | a script with faults | the same, in a world with faults |
//!
//! A simulated world is a board, a host and a line each way between them. With faults the lines may
//! change bytes, and the board may lose power. [`Shown`] selects what [`picture`] writes.
//!
//! ```rust
//! use dgt_text::{Bytes, Device, RunFault, monitor};
//! use std::io::Write;
//!
//! /// Prints a line for each message of these bytes, like `dgt show`.
//! pub fn show<W: Write + Drop>(bytes: &[u8], output: W) -> Result<(), RunFault> {
//!     monitor(&mut Bytes::new(bytes), &mut Device::new(output), u32::MAX)
//! }
//! ```
//!
//! [`Bytes`] is a [`Source`] over a slice, and [`Device`] a source or a [`Sink`] over a reader or a
//! writer of std. These, and the engines that print, are re-exported from [`dgt_lines`]; the lines
//! of scripts are from [`dgt_script`]. Contracts state what is written for the bytes that were
//! read, even after a refused call. No call allocates memory.
//!
//! [`laws`] contains facts about conversations, scripts and pictures.
#![tactic(auto)]

pub mod laws;
mod serving;
mod simulating;
mod stage;

pub use dgt_lines::{
    Bytes, Device, Failed, RunFault, Shown, Sink, Source, commands, log, monitor, monitor_names,
    picture, write_command, write_event,
};
pub use dgt_script::{LineFault, read_act, read_faulty_act};
pub use serving::serve;
pub use simulating::{simulate, simulate_faults};
