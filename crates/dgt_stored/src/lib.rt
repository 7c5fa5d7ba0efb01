//! What a DGT board stores while no host is connected.
//!
//! A board records its pieces and its clock in its own memory. After the command `49` it sends all
//! of that in a message with the code `0f`. [`first`] reads the first item in the body of that
//! message, and returns how many bytes it takes. Call it again with the remaining bytes:
//!
//! ```rust
//! use dgt_stored::{Stored, first};
//! use dgt_values::Piece;
//!
//! /// Whether the first item reports that a piece was lifted.
//! pub fn begins_with_a_lift(body: &[u8]) -> bool {
//!     match first(body) {
//!         Some((Stored::Piece { piece, .. }, _)) => piece == Piece::Empty,
//!         _ => false,
//!     }
//! }
//! ```
//!
//! The names of the bytes are those of the DGT Electronic Board Protocol Description (the header
//! `dgtbrd`). The bytes after them are known from other programs, and were not tested with a board.
//! The codec of dgt_message carries such a message unread.
#![tactic(auto)]

pub mod laws;
mod stored;

pub use stored::{Mark, Stored, first};
