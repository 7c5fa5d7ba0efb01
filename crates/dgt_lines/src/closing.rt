//! The closing lines of a board and a host.

ghost use Rattle.std.specs.Prelude.{◌≡◌, ◌+◌, ◌≤◌, ◌++◌, codes, false, length, option_map};
ghost use Rattle.dgt_values.specs.Board.{pieces_of};
ghost use Rattle.dgt_values.specs.Placement.{placement_text};
ghost use Rattle.dgt_message.specs.Content.{clock_seen};
ghost use Rattle.dgt_lines.specs.Closing.{clock_text, closing_text, named_line, picture_text, quiet_text};
ghost use Rattle.dgt_lines.specs.Writing.{Writes};

use crate::faults::RunFault;
use crate::gathering::Outgoing;
use crate::streams::Sink;
use crate::wording::push_clock;
use dgt_message::Clock;
use dgt_values::Position;

// Room for the closing lines.
const CLOSING_ROOM: usize = 512;

fn push_placement(text: &mut Outgoing<CLOSING_ROOM>, position: &Position)
    requires { length text.old + 71 ≤ CLOSING_ROOM }
    ensures text { text.new ≡ text.old ++ placement_text (pieces_of position.now) }
    ensures room { length text.new ≤ length text.old + 71 }
{
    text.push(position.placement().as_bytes());
}

fn push_board(text: &mut Outgoing<CLOSING_ROOM>, board: &Position)
    requires { length text.old + 100 ≤ CLOSING_ROOM }
    ensures text { text.new ≡ text.old
        ++ named_line (codes "board") (placement_text (pieces_of board.now)) }
    ensures room { length text.new ≤ length text.old + 100 }
{
    text.push(b"board ");
    push_placement(text, board);
    text.push(b"\n");
}

fn push_host(text: &mut Outgoing<CLOSING_ROOM>, picture: Option<&Position>, clock: Option<&Clock>)
    requires { length text.old + 200 ≤ CLOSING_ROOM }
    ensures text { text.new ≡ text.old ++ (named_line (codes "host")
        (picture_text (option_map (λ position. pieces_of position.now) picture.entry))
        ++ named_line (codes "hostclock")
        (clock_text (option_map (λ clock. clock_seen clock.now) clock.entry))) }
    ensures room { length text.new ≤ length text.old + 200 }
{
    text.push(b"host ");
    match picture {
        Some(position) => push_placement(text, position),
        None => text.push(b"unknown"),
    }
    text.push(b"\nhostclock ");
    match clock {
        Some(clock) => push_clock(text, *clock),
        None => text.push(b"unknown"),
    }
    text.push(b"\n");
}

fn push_quiet(text: &mut Outgoing<CLOSING_ROOM>, quiet: bool)
    requires { length text.old + 10 ≤ CLOSING_ROOM }
    ensures { text.new ≡ text.old ++ named_line (codes "quiet") (quiet_text quiet) }
{
    text.push(if quiet { b"quiet yes\n" } else { b"quiet no\n" });
}

/// Writes four closing lines, without a flush: a board's position, a host's picture and clock, and
/// whether the world is quiet. A picture or clock that is not known is `unknown`. Returns
/// `WriteFailed` if the writer refuses.
pub fn write_closing<W: Sink>(
    board: &Position,
    picture: Option<&Position>,
    clock: Option<&Clock>,
    quiet: bool,
    writer: &mut W,
) -> Result<(), RunFault>
    ensures output { Writes W.Sink writer.old writer.new result
        (closing_text (pieces_of board.now)
        (option_map (λ position. pieces_of position.now) picture.entry)
        (option_map (λ clock. clock_seen clock.now) clock.entry) quiet) }
    ensures no_flush { W.flushed writer.old ≡ false → W.flushed writer.new ≡ false }
{
    let mut text = Outgoing::<CLOSING_ROOM>::new();
    push_board(&mut text, board);
    push_host(&mut text, picture, clock);
    push_quiet(&mut text, quiet);
    text.write_out(writer)
}
