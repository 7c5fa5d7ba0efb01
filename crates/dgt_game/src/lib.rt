//! Games, recognised in what a board shows.
//!
//! A [`Recogniser`] is given each [`Observation`] of a board, and reports the game as [`Event`]s,
//! one a call, once positions have rested. It has no clock of its own, and allocates no memory.
//!
//! | To | Use |
//! |---|---|
//! | pass on what a board shows | [`Recogniser::see`] |
//! | know when something is due | [`Recogniser::due_at`] |
//! | get the next event | [`Recogniser::due`] |
//! | go on with a game | [`Recogniser::go_on`] |
//!
//! What is reported is legal and was shown ([`laws::reports_are_legal`]).
//!
//! ```rust
//! use dgt_game::{Event, Observation, Recogniser, Sight};
//! use dgt_values::Position;
//!
//! /// Whether a game begins once this position was shown and confirmed.
//! pub fn begins(recogniser: &mut Recogniser, now: u64, picture: Position) -> bool {
//!     let seen = Observation {
//!         at: now,
//!         sight: Sight::Sure(picture),
//!         is_confirmed: true,
//!         running: None,
//!     };
//!     if recogniser.see(&seen).is_err() {
//!         return false;
//!     }
//!     matches!(recogniser.due(now), Some(Event::Begun(_, _)))
//! }
//! ```
#![tactic(auto)]

mod early;
mod event;
mod kings;
pub mod laws;
mod memory;
mod missing;
mod node;
mod observation;
mod reach;
mod reading;
mod recogniser;
mod resting;
mod searching;
mod staying;
mod telling;
mod times;
mod unseen;
mod view;
mod ways;

pub use event::{Event, GAP, GameResult, Moves};
pub use observation::{Observation, Sight};
pub use recogniser::{Recogniser, StillDue};
