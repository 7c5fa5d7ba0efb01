//! The values that messages and commands of a DGT electronic chess board are made of: squares,
//! pieces and positions, bytes with a clear top bit, and the segments of a clock's digits.
//!
//! A value is always in range: its constructors refuse everything else. Nothing here allocates
//! memory.
//!
//! | To | Use |
//! |---|---|
//! | name a square | [`Square::parse`], [`Square::from_index`] |
//! | make a piece | [`Piece::from_letter`], [`Piece::from_code`] |
//! | read, write the text of a position | [`Position::parse_placement`], [`Position::placement`] |
//! | compare two positions | [`Position::differ`] |
//! | carry the body of a message | [`Body`], of [`SevenBit`] bytes |
//!
//! ```rust
//! use dgt_values::{Piece, Position, Square};
//!
//! /// The position after the piece on one square has moved to another.
//! pub fn moved(mut position: Position, from: Square, to: Square) -> Position {
//!     let piece = position.get(from);
//!     position.set(from, Piece::Empty);
//!     position.set(to, piece);
//!     position
//! }
//! ```
//!
//! [`laws`] says that reading and writing agree. The crates above this one also return [`TooMuch`],
//! [`Known`] and [`NoRoom`]. [`Kind`] lists the kinds of replies that a host awaits, and [`Kept`]
//! is the decoders' buffer.
//!
//! Piece codes, square numbers and segment bytes are those of the DGT Electronic Board Protocol
//! Description (the published `dgtbrd` header). Two rules are this project's own choice: the
//! letters `.`, `X`, `Y` and `Z`, and that a placement may contain two adjacent digits.
#![tactic(auto)]

mod bodies;
mod bytes;
mod kept;
mod kinds;
pub mod laws;
mod pieces;
mod placements;
mod positions;
mod refusals;
mod segments;
mod squares;

pub use bodies::{Body, MAX_BODY};
pub use bytes::SevenBit;
pub use kept::Kept;
pub use kinds::Kind;
pub use pieces::Piece;
pub use positions::Position;
pub use refusals::{
    BadPlacement, BodyError, Known, NoPiece, NoRoom, NoSegment, NoSquare, NotSevenBit, TooMuch,
};
pub use segments::segment;
pub use squares::Square;
