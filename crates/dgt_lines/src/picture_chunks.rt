//! The lines of a board's positions and its clock, chunk after chunk.

ghost use Rattle.std.specs.Prelude.{◌≡◌, ◌+◌, ◌≤◌, [], ◌++◌, false, codes, length, map, refl, OnOk, OnErr};
ghost use Rattle.std.specs.List.{flat_map};
ghost use Rattle.dgt_values.specs.Board.{square_number};
ghost use Rattle.dgt_message.specs.Content.Content.{field};
ghost use Rattle.dgt_decode.specs.Grammar.{Message, message_event};
ghost use Rattle.dgt_decode.specs.Feeding.{IsWholeMessage, event_found_in};
ghost use Rattle.dgt_lines.specs.Lines.{line};
ghost use Rattle.dgt_lines.specs.Pictures.{known_at};
ghost use Rattle.dgt_lines.specs.Printing.{HasPrintedReports, HasReportLines, Puts};
ghost use Rattle.dgt_lines.specs.Reports.{Shows, clock_known_at, fault_reports, report_line, reports_at, state_after_event, state_after_fault};

use crate::chunks::{FIELD, next_field};
use crate::clocks::{CLOCK_ROOM, ShownClock};
use crate::doubts::{News, PictureState};
use crate::faults::RunFault;
use crate::gathering::{LINE_ROOM, Outgoing};
use crate::laws::writes_in_a_row;
use crate::lines::push_offset;
use crate::pictures::Picture;
use crate::printers::Printer;
use crate::streams::Sink;
use dgt_decode::{Event, Found, Framer, laws};
use dgt_message::BodyFault;
use dgt_values::{Piece, Square};

/// Room for the lines of placements of 4,096 bytes of field updates: 820 lines of at most 81 bytes,
/// if the offset has eight digits.
pub const PICTURES_ROOM: usize = 66560;

// The line of a known picture. Inlined, since a call costs a tenth of the time of the line.
#[inline(always)]
fn put_known<W: Sink>(
    outgoing: &mut Outgoing<PICTURES_ROOM>,
    writer: &mut W,
    offset: u64,
    picture: &Option<Picture>,
) -> Result<(), RunFault>
    ensures { Puts W.Sink (outgoing.old, outgoing.new) writer.old writer.new result
        (flat_map report_line (map Shows (known_at offset picture.now))) }
{
    let Some(picture) = picture else {
        return Ok(());
    };
    outgoing.make_room(writer, LINE_ROOM)?;
    push_offset(outgoing, offset);
    picture.push(outgoing);
    Ok(())
}

// The line of a doubt, if this fault raises one.
#[inline(always)]
fn hear_fault<W: Sink>(
    state: &mut PictureState,
    outgoing: &mut Outgoing<PICTURES_ROOM>,
    writer: &mut W,
    offset: u64,
) -> Result<(), RunFault>
    ensures state { state.new ≡ state_after_fault state.old }
    ensures puts { Puts W.Sink (outgoing.old, outgoing.new) writer.old writer.new result
        (flat_map report_line (fault_reports offset state.old)) }
{
    if !state.raise() {
        return Ok(());
    }
    put_doubt(outgoing, writer, offset)
}

// The line of a doubt. Not inlined, since it is rare.
#[inline(never)]
fn put_doubt<W: Sink>(
    outgoing: &mut Outgoing<PICTURES_ROOM>,
    writer: &mut W,
    offset: u64,
) -> Result<(), RunFault>
    ensures { Puts W.Sink (outgoing.old, outgoing.new) writer.old writer.new result
        (line offset (codes "doubt")) }
{
    outgoing.make_room(writer, LINE_ROOM)?;
    push_offset(outgoing, offset);
    outgoing.push(b"doubt\n");
    Ok(())
}

// The last text of a known clock. Not inlined, since it is rare.
#[inline(never)]
fn put_clock<W: Sink>(
    outgoing: &mut Outgoing<PICTURES_ROOM>,
    writer: &mut W,
    offset: u64,
    clock: &ShownClock,
) -> Result<(), RunFault>
    ensures { Puts W.Sink (outgoing.old, outgoing.new) writer.old writer.new result
        (flat_map report_line (clock_known_at offset clock.now)) }
{
    let ShownClock::Known(text) = clock else {
        return Ok(());
    };
    outgoing.make_room(writer, LINE_ROOM)?;
    push_offset(outgoing, offset);
    push_clock_line(outgoing, text);
    Ok(())
}

fn push_clock_line(outgoing: &mut Outgoing<PICTURES_ROOM>, text: &Outgoing<CLOCK_ROOM>)
    requires { length outgoing.old + CLOCK_ROOM + 1 ≤ PICTURES_ROOM }
    ensures { outgoing.new ≡ outgoing.old ++ (text.now ++ codes "\n") }
{
    outgoing.push(text.bytes());
    outgoing.push(b"\n");
}

// The line of a whole message that sets the picture or reports the clock. A refused message is a
// fault, unless it is an unreadable one of the clock. Not inlined, since the memory of an event
// would then be cleared for each field too.
#[inline(never)]
fn hear_event<W: Sink>(
    state: &mut PictureState,
    outgoing: &mut Outgoing<PICTURES_ROOM>,
    writer: &mut W,
    offset: u64,
    framer: &Framer,
) -> Result<(), RunFault>
    requires { IsWholeMessage framer.now }
    ensures state { state.new ≡ state_after_event state.old (message_event framer.now) }
    ensures puts { Puts W.Sink (outgoing.old, outgoing.new) writer.old writer.new result
        (flat_map report_line (reports_at offset (message_event framer.now) state.old)) }
{
    let message = match framer.event(Found::Message) {
        Some(Event::Message(message)) => message,
        Some(
            Event::Refused {
                fault: BodyFault::BadReading { .. },
                ..
            },
        ) => return Ok(()),
        _ => return hear_fault(state, outgoing, writer, offset),
    };
    match state.hear(&message) {
        News::Nothing => Ok(()),
        News::Picture => put_known(outgoing, writer, offset, &state.picture),
        News::Clock => put_clock(outgoing, writer, offset, &state.clock),
    }
}

// The line of a field update. It sets a square if the picture is known.
#[inline(always)]
fn hear_field<W: Sink>(
    state: &mut PictureState,
    outgoing: &mut Outgoing<PICTURES_ROOM>,
    writer: &mut W,
    offset: u64,
    square: Square,
    piece: Piece,
) -> Result<(), RunFault>
    ensures state { state.new
        ≡ state_after_event state.old (Message (field (square_number square) piece)) }
    ensures puts { Puts W.Sink (outgoing.old, outgoing.new) writer.old writer.new result
        (flat_map report_line
        (reports_at offset (Message (field (square_number square) piece)) state.old)) }
{
    if let Some(known) = &mut state.picture {
        known.set(square, piece);
    }
    put_known(outgoing, writer, offset, &state.picture)
}

// The line of what the framer found, if it sets the picture or puts it in doubt.
fn hear_found<W: Sink>(
    state: &mut PictureState,
    outgoing: &mut Outgoing<PICTURES_ROOM>,
    writer: &mut W,
    offset: u64,
    framer: &Framer,
    found: &Found,
) -> Result<(), RunFault>
    requires { found.now ≡ Found.Message → IsWholeMessage framer.now }
    ensures state { state.new
        ≡ state_after_event state.old (event_found_in framer.now found.now) }
    ensures puts { Puts W.Sink (outgoing.old, outgoing.new) writer.old writer.new result
        (flat_map report_line
        (reports_at offset (event_found_in framer.now found.now) state.old)) }
{
    match found {
        Found::Message => hear_event(state, outgoing, writer, offset, framer),
        _ => hear_fault(state, outgoing, writer, offset),
    }
}

/// What is known of a board and its clock, and the unfinished message.
#[derive(Drop)]
pub(crate) struct Pictures {
    pub(crate) framer: Framer,
    pub(crate) state: PictureState,
}

// The lines of the board: one with its placement for each message that sets the picture.
//
// The first fault after each dump raises a doubt, which is a line with the word `doubt`, unless
// faults raise no doubt. The next dump ends it. A clock message has a line if the clock is shown
// and its text differs from the last one, or is the first.
impl Printer<PICTURES_ROOM> for Pictures {
    ghost has_lines = { λ first. HasReportLines first.state };

    ghost has_printed = { λ first now bytes text.
        HasPrintedReports first.state now.framer now.state bytes text };

    ghost are_lines = { λ first now bytes text printed. ([], (printed.said, refl)) };

    fn gather<W: Sink>(
        &mut self,
        outgoing: &mut Outgoing<PICTURES_ROOM>,
        offset: u64,
        rest: &[u8],
        writer: &mut W,
    ) -> Result<usize, RunFault> {
        laws::chunks_in_a_row();
        laws::unfinished_append();
        let (framer, state) = (&mut self.framer, &mut self.state);
        if let Some((square, piece)) = next_field(framer, rest) {
            let end = offset + FIELD as u64;
            hear_field(state, outgoing, writer, end, square, piece)?;
            return Ok(FIELD);
        }
        let advanced = framer.advance(rest);
        if let Some(found) = &advanced.found {
            let end = offset + advanced.used as u64;
            hear_found(state, outgoing, writer, end, framer, found)?;
        }
        Ok(advanced.used)
    }

    fn print_end<W: Sink>(&self, _offset: u64, _writer: &mut W) -> Result<(), RunFault> {
        writes_in_a_row::<W>();
        Ok(())
    }

    fn lines_go_on() {
        laws::chunks_in_a_row();
    }
}
