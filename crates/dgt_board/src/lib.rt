//! A simulated DGT board: it takes commands and sends messages.
//!
//! A program passes a [`Board`] the changes on the table (`change`, `hand_clock`) and the host's
//! bytes (`take`, in chunks of any length). Each `poll` writes one message of at most [`MAX_SENT`]
//! bytes: first the owed replies in their order, then the squares that differ from what was
//! reported, then the clock. `line_lost` simulates a broken line: the board forgets all requests.
//! No call allocates memory or waits.
//!
//! ```rust
//! use dgt_board::{Board, Polled};
//! use dgt_values::{Piece, Square};
//!
//! /// Puts a piece on a square, and writes the next message, such as the one that reports it.
//! /// Returns how many bytes to send.
//! pub fn put(board: &mut Board, square: Square, piece: Piece, out: &mut [u8]) -> usize {
//!     board.change(square, piece);
//!     match board.poll(out) {
//!         Polled::Wrote(count) => count,
//!         _ => 0,
//!     }
//! }
//! ```
//!
//! After the command `44`, which requests updates, removing a piece from e2 is reported as `8e 00
//! 05 34 00`.
//!
//! The commands and their effects are those of the DGT Electronic Board Protocol Description (the
//! `dgtbrd` header), single-board mode. This project's own choices are:
//!
//! - the order of sending, and the limit of [`MAX_OWED`] owed replies;
//! - that a reply or a field update reports the state at the time of sending;
//! - that a board with a clock acknowledges each clock message, and the bytes of that.
//!
//! [`laws`] states the facts about what is to be sent and what was taken. The definitions that
//! contracts cite are in `specs/State.antt`, `Sending.antt`, `View.antt` and `Simulated.antt`.
#![tactic(auto)]

mod boards;
mod identities;
pub mod laws;
mod modes;
mod replies;
mod sending;
mod simulated;
mod state;

pub use boards::{Board, Busy, Taken};
pub use identities::{Identity, MAX_KEPT_BODY, TooLong};
pub use modes::Mode;
pub use sending::{MAX_SENT, Polled};
pub use simulated::simulated_clock;
pub use state::MAX_OWED;
