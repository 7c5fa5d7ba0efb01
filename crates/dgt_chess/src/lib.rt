//! The rules of chess: which moves are legal, the state after one, and draws.
//!
//! A [`State`] is a position, the side to move, and what the rules remember of earlier moves.
//! No state is [`Impossible`]: [`State::new`] refuses such parts. Nothing here allocates memory.
//!
//! | To | Use |
//! |---|---|
//! | begin a game, or anywhere in one | [`State::start`], [`State::new`] |
//! | decide whether a move is legal | [`State::is_legal`] |
//! | make a move | [`State::play`] |
//! | list the legal moves | [`State::goals`], a set of squares for each square |
//! | recognise a move by the picture after it | [`State::move_to`] |
//! | see that a game has ended | [`State::is_mate`], [`State::is_stalemate`], [`State::is_dead`] |
//! | see that a draw may be claimed | [`State::is_fifty_moves`], [`State::repetitions`] |
//! | read, write Forsyth-Edwards Notation | [`State::parse_fen`], [`State::fen`] |
//! | write a move in Standard Algebraic Notation | [`State::san`] |
//! | read it | [`State::parse_san`], [`State::parse_san_leniently`] |
//!
//! ```rust
//! use dgt_chess::State;
//! use dgt_values::Position;
//!
//! /// Makes the legal move that leads to the pieces on a board. Returns whether there is one.
//! pub fn recognise(state: &mut State, picture: &Position) -> bool {
//!     let Some(one) = state.move_to(picture) else {
//!         return false;
//!     };
//!     let Ok(next) = state.play(one) else {
//!         return false;
//!     };
//!     *state = next;
//!     true
//! }
//! ```
//!
//! The rules are those of the FIDE Laws of Chess of 2023. The definitions cite its articles.
//! [`laws`] says what holds of all states and moves.
#![tactic(auto)]

mod attacks;
mod draws;
mod fen;
mod fields;
pub mod laws;
mod lines;
mod listing;
mod moving;
mod pieces;
mod possible;
mod san;
mod san_reader;
mod state;

pub use fen::{BadFen, FenField};
pub use pieces::{Colour, Man};
pub use possible::{Impossible, Rights};
pub use san_reader::BadSan;
pub use state::{Move, NotLegal, State};
