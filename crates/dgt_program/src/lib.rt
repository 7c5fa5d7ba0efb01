//! The program `dgt`, with any task, reader and writers.
//!
//! [`run_to_status`] runs the program: it is [`run`] over a `Device` of each stream.
//! `dgt_arguments` reads the words, and [`run_task`] does each task with the engines of `dgt_text`.
//! [`Fault`] lists what can go wrong, with the text and the exit status of each. The crate `dgt` is
//! this program. It first prints a note if it reads bytes from a terminal or writes bytes to one:
//!
//! ```rust
//!     let status = match words {
//!         Ok(words) => {
//!             note_terminals(&rt, words.as_slice());
//!             run_words(alloc, words, rt.stdin(), rt.stdout(), rt.stderr())
//!         }
//!         Err(fault) => fault.report(&mut Device::new(rt.stderr())),
//!     };
//! ```
#![tactic(auto)]

mod fault;
pub mod laws;
mod program;

pub use fault::Fault;
pub use program::{MOST_TURNS, run, run_task, run_to_status};
