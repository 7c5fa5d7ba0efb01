//! The lines of a script for a simulated DGT board, and the lines of their outcomes.
//!
//! | To | Use |
//! |---|---|
//! | read a line such as `change e4 P` | [`read_act`] |
//! | read a line of a world with faults, such as `garbleup 8000` | [`read_faulty_act`] |
//! | keep a line that arrives in chunks | [`LineBuffer`], and [`len_before`] finds its end |
//! | write the outcome of an act | [`outcome_text`] |
//!
//! ```rust
//! use dgt_command::MAX_WORD;
//! use dgt_link::{Outcome, World};
//! use dgt_script::{LineFault, read_act};
//!
//! /// Does the act of a line of a script, such as `change e4 P`.
//! pub fn play(world: &mut World, line: &[u8]) -> Result<Outcome, LineFault> {
//!     let mut store = [0; MAX_WORD];
//!     let act = read_act(line, &mut store)?;
//!     Ok(world.step(act))
//! }
//! ```
//!
//! The formats are this project's own. No call allocates memory. [`laws`] contains facts about
//! lines, and `specs/Script.antt` the definitions that contracts cite.
#![tactic(auto)]

mod cutting;
mod faulty_script;
mod first_word;
pub mod laws;
mod outcomes;
mod script;
mod script_lines;
mod script_words;

pub use cutting::len_before;
pub use faulty_script::read_faulty_act;
pub use outcomes::outcome_text;
pub use script::{LineFault, read_act};
pub use script_lines::{LineBuffer, MAX_LINE};
