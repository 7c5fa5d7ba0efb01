//! The engine that simulates a board.

ghost use Rattle.std.specs.Prelude.{◌≡◌, [], false, IsTrue, OnOk};
ghost use Rattle.dgt_lines.specs.Turns.{change, InTurns, Ran, RunsInTurns};
ghost use Rattle.dgt_text.specs.Serving.{IsServed, Serves};

use dgt_board::{Board, MAX_SENT, Polled, Taken};
use dgt_command::laws;
use dgt_lines::laws::writes_in_a_row;
use dgt_lines::{MAX_CHUNK, RunFault, Sink, Source, flush, put};

// The board sends until it owes nothing. Each message is written before the next is formed, so the
// board is at most one message ahead of the sink.
fn send_all<W: Sink>(board: &mut Board, writer: &mut W) -> Result<(), RunFault>
    ensures served { Serves W.Sink (change board.old board.new) (change writer.old writer.new)
        result [] }
    ensures no_flush { W.flushed writer.old ≡ false → W.flushed writer.new ≡ false }
{
    writes_in_a_row::<W>();
    let mut message = [0; MAX_SENT];
    while let Polled::Wrote(length) = board.poll(&mut message) {
        put(writer, &message[..length])?;
    }
    Ok(())
}

// The board sends until it owes nothing, and again after each command or fault of `chunk`, without
// a flush.
fn answer_chunk<W: Sink>(board: &mut Board, chunk: &[u8], writer: &mut W) -> Result<(), RunFault>
    ensures served { Serves W.Sink (change board.old board.new) (change writer.old writer.new)
        result chunk.now }
    ensures no_flush { W.flushed writer.old ≡ false → W.flushed writer.new ≡ false }
{
    laws::divisions_append();
    laws::parts_of_words();
    writes_in_a_row::<W>();
    send_all(board, writer)?;
    let mut at = 0;
    while at < chunk.len() {
        let Taken { used, event } = board.take(&chunk[at..]).unwrap();
        at += used;
        if event.is_some() {
            send_all(board, writer)?;
        }
    }
    Ok(())
}

// Replies to a chunk, and then flushes the sink.
fn answer<W: Sink>(board: &mut Board, chunk: &[u8], writer: &mut W) -> Result<(), RunFault>
    ensures served { Serves W.Sink (change board.old board.new) (change writer.old writer.new)
        result chunk.now }
    ensures flushed { OnOk result (IsTrue (W.flushed writer.new)) }
{
    writes_in_a_row::<W>();
    answer_chunk(board, chunk, writer)?;
    flush(writer)
}

/// Hands the board the commands that the reader gives, and writes its replies, in at most `limit`
/// reads.
///
/// Before the first read, and after each command and each fault of a command, the board sends until
/// it owes nothing. Each message is written before the next is formed. The replies to the bytes of
/// one read are flushed before the next read. An unfinished command at the end gets no reply, and
/// stays in the board.
///
/// - Returns `ReadFailed` if the reader refuses, and `TooManyTurns` if `limit` reads succeeded and
///   none gave the end. All replies to the bytes that were read are written then.
/// - Returns `WriteFailed` if the writer refuses. All that the board sent is written then, except
///   for its last message, of which the writer may have a prefix. The writer gets nothing more. The
///   board has taken a prefix of the bytes that were read.
pub fn serve<R: Source, W: Sink>(
    board: &mut Board,
    reader: &mut R,
    writer: &mut W,
    limit: u32,
) -> Result<(), RunFault>
    // what was read, what was written for it, and the board after it
    ensures output { Ran R.Source W.Sink
        (change reader.old reader.new) (change writer.old writer.new)
        (InTurns limit result (IsServed result board.old board.new)) }

    // how often it reads, when it stops, and which marks it leaves
    ensures in_turns { RunsInTurns R.Source W.Sink (change reader.old reader.new)
        (change writer.old writer.new) limit result }
{
    laws::divisions_append();
    writes_in_a_row::<W>();
    answer(board, &[], writer)?;
    let mut buffer = [0; MAX_CHUNK];
    for _ in 0..limit {
        let Ok(given) = reader.read_some(&mut buffer) else {
            return Err(RunFault::ReadFailed);
        };
        if given == 0 {
            return Ok(());
        }
        answer(board, &buffer[..given], writer)?;
    }
    Err(RunFault::TooManyTurns)
}
