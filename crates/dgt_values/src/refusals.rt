//! Why a value is refused.

use crate::bodies::MAX_BODY;
use thiserror::Error;

/// The top bit of a byte is set, and has to be clear.
#[derive(Clone, Copy, Debug, PartialEq, Eq, Error)]
#[error("the byte's top bit is set")]
pub struct NotSevenBit;

/// A list has more bytes than its kind allows.
#[derive(Clone, Copy, Debug, PartialEq, Eq, Error)]
#[error("too many bytes")]
pub struct TooMuch;

/// Why bytes are not the body of a message.
#[derive(Clone, Copy, Debug, PartialEq, Eq, Error)]
pub enum BodyError {
    /// There are more than [`MAX_BODY`] bytes, whatever they are.
    #[error("the body is longer than {MAX_BODY} bytes")]
    Length(TooMuch),
    /// There are no more than [`MAX_BODY`] bytes, and one of them is 128 or more.
    #[error("a byte of the body has its top bit set")]
    Byte(NotSevenBit),
}

/// The slice is too short: the result takes `need` bytes. Nothing was written.
#[derive(Clone, Copy, Debug, PartialEq, Eq, Error)]
#[error("the buffer needs {need} bytes")]
pub struct NoRoom {
    pub need: usize,
}

/// The number is above 63, or the text is not the name of a square.
#[derive(Clone, Copy, Debug, PartialEq, Eq, Error)]
#[error("not a square")]
pub struct NoSquare;

/// The code is above 15, or the character is not one of the sixteen letters.
#[derive(Clone, Copy, Debug, PartialEq, Eq, Error)]
#[error("not a piece")]
pub struct NoPiece;

/// The text is not a placement. `at` is the offset of the first wrong byte, or the text's length if
/// it is only too short.
#[derive(Clone, Copy, Debug, PartialEq, Eq, Error)]
#[error("not a placement: wrong at offset {at}")]
pub struct BadPlacement {
    pub at: usize,
}

/// The character is not a digit, a space or a hyphen.
#[derive(Clone, Copy, Debug, PartialEq, Eq, Error)]
#[error("not a digit, a space or a hyphen")]
pub struct NoSegment;

/// This code or id has a variant of its own: use that one.
#[derive(Clone, Copy, Debug, PartialEq, Eq, Error)]
#[error("this has a variant of its own")]
pub struct Known;
