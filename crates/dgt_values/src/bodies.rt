//! The bytes of a message after its header.

ghost use Rattle.std.specs.Prelude.{◌≡◌, ◌<◌, ◌≤◌, length, All, MatchResult};
ghost use Rattle.dgt_values.specs.declared.bodies.TheConstants.{MAX_BODY};

use crate::refusals::{BodyError, NotSevenBit, TooMuch};

/// The most bytes of a message after its header of three bytes.
pub const MAX_BODY: usize = 16380;

/// The bytes of a message after its header, borrowed from their owner: at most `MAX_BODY`, each
/// below 128.
#[derive(Clone, Copy, Debug, PartialEq, Eq)]
pub struct Body<'a> {
    bytes: &'a [u8],
    ghost fits: { length bytes.now ≤ MAX_BODY },
    ghost seven_bit: { All (λ byte. byte < 128) bytes.now },
}

impl<'a> Body<'a> {
    ghost use Rattle.dgt_values.specs.Bytes.{body_bytes, AreSevenBit, Refuses};

    /// The body of these bytes. Returns `BodyError::Length` for more than `MAX_BODY` bytes, and
    /// otherwise `BodyError::Byte` if one has its top bit set.
    pub fn new(bytes: &'a [u8]) -> Result<Self, BodyError>
        ensures { MatchResult result (λ body. body_bytes body ≡ bytes.now) (Refuses bytes.now) }
    {
        if bytes.len() > MAX_BODY {
            return Err(BodyError::Length(TooMuch));
        }
        if !bytes.iter().all(|byte| *byte < 128) {
            return Err(BodyError::Byte(NotSevenBit));
        }
        Ok(Body::from_seven_bit(bytes))
    }

    /// The body of bytes that the caller has already checked one by one: this checks none again.
    pub fn from_seven_bit(bytes: &'a [u8]) -> Self
        requires fits { length bytes.now ≤ MAX_BODY }
        requires seven_bit { AreSevenBit bytes.now }
        ensures { body_bytes result ≡ bytes.now }
    {
        Body { bytes }
    }

    /// The body as a slice.
    pub fn bytes(self) -> &'a [u8]
        ensures bytes { result.now ≡ body_bytes self.entry }
        ensures fits { length result.now ≤ MAX_BODY }
        ensures seven_bit { AreSevenBit result.now }
    {
        self.bytes
    }
}
