//! The segments of a character on the clock's display.

ghost use Rattle.std.specs.Prelude.{ℕ, MatchResult};
ghost use Rattle.dgt_values.specs.Segment.{IsShownBy};

use crate::refusals::NoSegment;

/// The segment byte of a digit, a space or a hyphen. From bit 0 on: top, right top, right bottom,
/// bottom, left bottom, left top, middle. Returns `NoSegment` for any other character.
pub fn segment(character: char) -> Result<u8, NoSegment>
    ensures { MatchResult result
        (λ byte. IsShownBy character byte)
        (λ _. (byte : ℕ) → ¬ (IsShownBy character byte)) }
{
    Ok(match character {
        '0' => 0x3f,
        '1' => 0x06,
        '2' => 0x5b,
        '3' => 0x4f,
        '4' => 0x66,
        '5' => 0x6d,
        '6' => 0x7d,
        '7' => 0x07,
        '8' => 0x7f,
        '9' => 0x6f,
        ' ' => 0x00,
        '-' => 0x40,
        _ => return Err(NoSegment),
    })
}
