//! Bytes with a clear top bit.

ghost use Rattle.std.specs.Prelude.{◌≡◌, ℕ, ◌<◌, ◌%◌};

use crate::refusals::NotSevenBit;

/// A byte below 128. In messages from the board, only the first byte is 128 or more.
#[derive(Clone, Copy, Debug, PartialEq, Eq)]
pub struct SevenBit {
    value: u8,
    ghost small: { value < 128 },
}

/// A byte of 128 or more is refused as `NotSevenBit`.
impl TryFrom<u8> for SevenBit {
    type Error = NotSevenBit;

    ghost use Rattle.dgt_values.specs.Bytes.{SevenBitOf};

    ghost try_from_gives = { SevenBitOf };

    fn try_from(value: u8) -> Result<Self, NotSevenBit> {
        if value < 128 {
            Ok(SevenBit::from_small(value))
        } else {
            Err(NotSevenBit)
        }
    }
}

impl SevenBit {
    ghost use Rattle.dgt_values.specs.Bytes.{number};

    /// The low seven bits of a byte: the byte itself if it is below 128.
    pub fn from_small(value: u8) -> Self
        ensures low_bits { number result ≡ value % 128 }
        ensures small { value < 128 → number result ≡ value }
    {
        SevenBit {
            value: value & 0x7f,
        }
    }

    /// The byte, from 0 to 127.
    pub fn get(self) -> u8
        ensures value { result ≡ number self }
        ensures in_range { number self < 128 }
    {
        self.value
    }
}
