//! How long the frames of the line are.

ghost use Rattle.std.specs.Prelude.{◌≡◌, ◌-◌, length, take, false, IsTrue};
ghost use Rattle.dgt_command.specs.Lengths.{IsWholeWord, word_length};
ghost use Rattle.dgt_command.specs.Words.{IsPartial};

use crate::codes::{CLOCK_MESSAGE, LEDS, START};

// Whether bytes that are a part of a frame without the last are a frame with it.
pub(crate) fn is_whole(bytes: &[u8]) -> bool
    requires { IsPartial (take (length bytes.now - 1) bytes.now) }
    ensures whole { IsTrue result → IsWholeWord bytes.now }
    ensures partial { result ≡ false → IsPartial bytes.now }
{
    length_so_far(bytes) <= bytes.len()
}

// How long the frame is that these bytes begin, as far as its first three determine it.
pub(crate) fn length_so_far(bytes: &[u8]) -> usize
    ensures { result ≡ word_length bytes.now }
{
    match bytes {
        [CLOCK_MESSAGE, size, START, ..] if *size >= 3 => *size as usize + 2,
        [CLOCK_MESSAGE, size, ..] if *size >= 3 => 3,
        [CLOCK_MESSAGE, ..] => 2,
        [LEDS, size, ..] => *size as usize + 2,
        [LEDS] => 2,
        _ => 1,
    }
}
