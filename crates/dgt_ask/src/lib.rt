//! Encodes commands by name, for `dgt ask`.
//!
//! [`asked_bytes`] reads words such as `dump`, `beep 16` and `leds ff00`, and returns the bytes of
//! the commands. [`WORDS`] lists the words. A command is one or more words, or one with spaces.
//!
//! ```rust
//! use dgt_ask::asked_bytes;
//! use std::alloc::Global;
//!
//! /// The bytes that request updates and a dump, and make the clock beep.
//! pub fn greeting(alloc: Global) -> Option<Vec<u8>> {
//!     asked_bytes(alloc, &["updateboard", "dump", "beep", "16"]).ok()
//! }
//! ```
//!
//! [`Detail`] names the words that need an operand. [`Task`] is what a whole command line asks for.
//! The words are this project's own. The bytes are those of the DGT Electronic Board Protocol
//! Description (the `dgtbrd` header). [`laws`] contains examples.
#![tactic(auto)]

mod asking;
mod details;
pub mod laws;
mod tasks;

pub use asking::{BadAsk, WORDS, asked_bytes};
pub use details::Detail;
pub use tasks::{BadArguments, Task};
