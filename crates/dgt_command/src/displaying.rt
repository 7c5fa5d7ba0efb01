//! Texts on the clock's display.

ghost use Rattle.std.specs.Prelude.{IfOk, OnErr};
ghost use Rattle.dgt_command.specs.Content.{clock_content};
ghost use Rattle.dgt_command.specs.Display.{HasNoSegments, Shows};

use crate::clock::ClockCommand;
use dgt_values::{NoSegment, segment};

/// The clock message that shows six characters, from left to right. Returns `NoSegment` if one of
/// them is not a digit, a space or a hyphen.
pub fn display(text: [char; 6], dots: u8, beep: u8) -> Result<ClockCommand<'static>, NoSegment>
    ensures ok { IfOk result (λ command. Shows text dots beep (clock_content command)) }
    ensures err { OnErr result (HasNoSegments text) }
{
    let places = [
        segment(text[0])?,
        segment(text[1])?,
        segment(text[2])?,
        segment(text[3])?,
        segment(text[4])?,
        segment(text[5])?,
    ];
    Ok(ClockCommand::Display { places, dots, beep })
}
