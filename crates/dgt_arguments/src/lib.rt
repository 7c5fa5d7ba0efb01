//! Reads the command line of the program `dgt` with `clap`.
//!
//! [`read`] reads the words, and returns their [`Task`], or the text of the error. [`help`]
//! contains the texts of the helps. The program runs the task with:
//!
//! ```rust
//!     run_to_status(alloc, read(alloc, words.as_slice()), input, output, errors)
//! ```
#![tactic(auto)]

// This is a separate crate because code that calls clap takes three times as long to prove together
// with the libraries of the engines. Only dgt uses it: each crate above it has to read clap, too.

mod command_line;
pub mod help;

pub use command_line::{read, refuse_arguments};
pub use dgt_ask::{BadArguments, Task};
