//! The engines that print what they read as lines of text.

ghost use Rattle.dgt_lines.specs.Commanding.{IsListed};
ghost use Rattle.dgt_lines.specs.Logging.{IsLogged};
ghost use Rattle.dgt_lines.specs.Monitoring.{IsMonitored};
ghost use Rattle.dgt_lines.specs.NamedLines.{AreMonitored};
ghost use Rattle.dgt_lines.specs.Picturing.{IsPictured};
ghost use Rattle.dgt_lines.specs.Turns.{change, InTurns, Ran, RunsInTurns};

use crate::chunks::LINES_ROOM;
use crate::command_chunks::COMMANDS_ROOM;
use crate::doubts::{PictureState, Shown};
use crate::faults::RunFault;
use crate::gathering::Outgoing;
use crate::log_chunks::{LOG_ROOM, Log};
use crate::named_chunks::Named;
use crate::picture_chunks::{PICTURES_ROOM, Pictures};
use crate::printers::print_input;
use crate::streams::{Sink, Source};
use dgt_command::WordFramer;
use dgt_decode::Framer;

/// Writes a line for each event of the bytes that the reader gives, in at most `limit` reads.
///
/// The lines are those of [`write_event`](crate::write_event). The lines of one read are written
/// and flushed before the next read. If a message is unfinished at the end of the bytes, a last
/// line counts its bytes.
///
/// - Returns `ReadFailed` if the reader refuses, and `TooManyTurns` if `limit` reads succeeded and
///   none gave the end. All lines of the bytes that were read are written then.
/// - Returns `WriteFailed` if the writer refuses. The writer took a prefix of the lines, and gets
///   nothing more.
pub fn monitor<R: Source, W: Sink>(
    reader: &mut R,
    writer: &mut W,
    limit: u32,
) -> Result<(), RunFault>
    // what was read, and what was written of it
    ensures output { Ran R.Source W.Sink
        (change reader.old reader.new) (change writer.old writer.new)
        (InTurns limit result (IsMonitored result)) }

    // how often it reads, when it stops, and which marks it leaves
    ensures in_turns { RunsInTurns R.Source W.Sink (change reader.old reader.new)
        (change writer.old writer.new) limit result }
{
    let mut outgoing = Outgoing::<LINES_ROOM>::new();
    print_input(&mut Framer::new(), &mut outgoing, reader, writer, limit)
}

/// Writes the lines of [`monitor`], with names, such as
/// `00000010 ack 10 88 06 31 00: back pressed`.
///
/// After the text of an event follow `: ` and the meaning of its bytes, if it is known. The
/// meanings are known from other programs, and were not tested with a clock or a board. The errors
/// are those of [`monitor`].
pub fn monitor_names<R: Source, W: Sink>(
    reader: &mut R,
    writer: &mut W,
    limit: u32,
) -> Result<(), RunFault>
    // what was read, and what was written of it
    ensures output { Ran R.Source W.Sink
        (change reader.old reader.new) (change writer.old writer.new)
        (InTurns limit result (AreMonitored result)) }

    // how often it reads, when it stops, and which marks it leaves
    ensures in_turns { RunsInTurns R.Source W.Sink (change reader.old reader.new)
        (change writer.old writer.new) limit result }
{
    let mut named = Named {
        framer: Framer::new(),
    };
    let mut outgoing = Outgoing::<LINES_ROOM>::new();
    print_input(&mut named, &mut outgoing, reader, writer, limit)
}

/// Writes a line for each command and each fault of the bytes that the reader gives, in at most
/// `limit` reads.
///
/// The lines are those of [`write_command`](crate::write_command). The lines of one read are
/// written and flushed before the next read. If a command is unfinished at the end of the bytes, a
/// last line counts its bytes. The errors are those of [`monitor`].
pub fn commands<R: Source, W: Sink>(
    reader: &mut R,
    writer: &mut W,
    limit: u32,
) -> Result<(), RunFault>
    // what was read, and what was written of it
    ensures output { Ran R.Source W.Sink
        (change reader.old reader.new) (change writer.old writer.new)
        (InTurns limit result (IsListed result)) }

    // how often it reads, when it stops, and which marks it leaves
    ensures in_turns { RunsInTurns R.Source W.Sink (change reader.old reader.new)
        (change writer.old writer.new) limit result }
{
    dgt_command::laws::parts_of_words();
    let mut outgoing = Outgoing::<COMMANDS_ROOM>::new();
    print_input(&mut WordFramer::new(), &mut outgoing, reader, writer, limit)
}

/// Writes a line with the board's placement for each message that sets the picture, in at most
/// `limit` reads. [`Shown`] selects further lines.
///
/// A dump always sets the picture, and a field message does if the picture is known. A line is the
/// offset as in [`write_event`](crate::write_event), a space, the placement and a line feed. The
/// lines of one read are written and flushed before the next read. An unfinished message at the end
/// prints nothing. The errors are those of [`monitor`].
pub fn picture<R: Source, W: Sink>(
    shown: Shown,
    reader: &mut R,
    writer: &mut W,
    limit: u32,
) -> Result<(), RunFault>
    // what was read, and what was written of it
    ensures output { Ran R.Source W.Sink
        (change reader.old reader.new) (change writer.old writer.new)
        (InTurns limit result (IsPictured shown.doubts shown.clock result)) }

    // how often it reads, when it stops, and which marks it leaves
    ensures in_turns { RunsInTurns R.Source W.Sink (change reader.old reader.new)
        (change writer.old writer.new) limit result }
{
    let mut pictures = Pictures {
        framer: Framer::new(),
        state: PictureState::new(shown),
    };
    let mut outgoing = Outgoing::<PICTURES_ROOM>::new();
    print_input(&mut pictures, &mut outgoing, reader, writer, limit)
}

/// Writes a line for each event that a board stored and sends in a message with the code `0f`, in
/// at most `limit` reads.
///
/// `dgt_stored` reads the body of such a message. The line `00000005 piece e2 .`, for example,
/// consists of the offset as in [`write_event`](crate::write_event), of the last byte of the stored
/// event, a space, its text and a line feed. The lines of a message are written when it is whole.
/// The lines of one read are flushed before the next read. Other messages and faults print nothing.
/// The errors are those of [`monitor`].
pub fn log<R: Source, W: Sink>(reader: &mut R, writer: &mut W, limit: u32) -> Result<(), RunFault>
    // what was read, and what was written of it
    ensures output { Ran R.Source W.Sink
        (change reader.old reader.new) (change writer.old writer.new)
        (InTurns limit result (IsLogged result)) }

    // how often it reads, when it stops, and which marks it leaves
    ensures in_turns { RunsInTurns R.Source W.Sink (change reader.old reader.new)
        (change writer.old writer.new) limit result }
{
    let mut log = Log {
        framer: Framer::new(),
    };
    let mut outgoing = Outgoing::<LOG_ROOM>::new();
    print_input(&mut log, &mut outgoing, reader, writer, limit)
}
