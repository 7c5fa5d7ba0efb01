//! The engine that runs a script.

ghost use Rattle.std.specs.Prelude.{◌≡◌, ◌≢◌, ◌+◌, ◌^◌, ◌<◌, ◌≤◌, ◌↔◌, ◌⊎◌, ◌∷◌, ◌++◌, [], ℕ, Bool, List, length, MatchResult, IsTrue, OnOk};
ghost use Rattle.std.specs.Io.KnownBytes.{Appends};
ghost use Rattle.dgt_link.specs.View.{IsQuietWorld};
ghost use Rattle.dgt_lines.specs.Writing.{Writes};
ghost use Rattle.dgt_text.specs.Closing.{closing_lines};
ghost use Rattle.dgt_lines.specs.Turns.{change, InTurns, Ran, RunsInTurns};
ghost use Rattle.dgt_script.specs.ScriptLines.{HasNoFeed, KeepsLine};
ghost use Rattle.dgt_text.specs.Simulating.{BeginsWith, IsSimulated, IsSimulatedFrom, NoFlush, Plays, PlaysOn, Stops, StopsAtLines, ShowsHealed, ShowsPicture, Took, faulty_rules, part, plain_rules};

use crate::laws;
use crate::stage::Stage;
use dgt_lines::laws::writes_in_a_row;
use dgt_lines::{MAX_CHUNK, RunFault, Sink, Source, flush, put};
use dgt_link::{FaultyWorld, World};
use dgt_script::{LineBuffer, LineFault, MAX_LINE, len_before, outcome_text};

// Flushes, and then refuses a line.
fn refuse<W: Sink>(writer: &mut W, line: u64, at: usize) -> Result<(), RunFault>
    ensures bytes { Appends (W.written writer.old) (W.written writer.new) [] }
    ensures refused { (result ≡ Err (RunFault.BadLine line at))
        ⊎ (result ≡ Err RunFault.WriteFailed) }
    ensures marks { StopsAtLines W.Sink (change writer.old writer.new) result }
    ensures no_flush { NoFlush W.Sink (change writer.old writer.new) result }
{
    flush(writer)?;
    Err(RunFault::BadLine { line, at })
}

// Does the act of a line, and writes the line of its outcome.
fn play_line<S: Stage, W: Sink>(
    world: &mut S,
    line: &LineBuffer,
    number: u64,
    writer: &mut W,
) -> Result<(), RunFault>
    ensures played { (at_end : Bool) (whole bytes : List ℕ) → KeepsLine line.now whole
        → BeginsWith at_end bytes (whole ∷ []) → MatchResult result
        (λ _. Took W.Sink writer.old writer.new
        (λ out. Plays S.rules (S.seen world.old) (whole ∷ []) out (S.seen world.new)))
        (λ fault. Took W.Sink writer.old writer.new
        (Stops S.rules at_end (part number bytes (S.seen world.old) (S.seen world.new)) fault)) }
    ensures marks { StopsAtLines W.Sink (change writer.old writer.new) result }
    ensures no_flush { NoFlush W.Sink (change writer.old writer.new) result }
{
    let Some(bytes) = line.line() else {
        return refuse(writer, number, MAX_LINE);
    };
    match world.play(bytes) {
        Ok(outcome) => put(writer, outcome_text(outcome)),
        Err(LineFault::BadLine { at }) => refuse(writer, number, at),
    }
}

// Plays the lines that end in the chunk, and keeps the bytes after them.
fn play_chunk<S: Stage, W: Sink>(
    world: &mut S,
    line: &mut LineBuffer,
    number: &mut u64,
    chunk: &[u8],
    writer: &mut W,
) -> Result<(), RunFault>
    requires { number.old + length chunk.now < 2 ^ 64 }
    ensures played { (at_end : Bool) (rest : List ℕ) → KeepsLine line.old rest → HasNoFeed rest
        → let played = part number.old (rest ++ chunk.now) (S.seen world.old) (S.seen world.new) in
        MatchResult result
        (λ _. PlaysOn S.rules W.Sink played writer.old writer.new line.new number.new)
        (λ fault. Took W.Sink writer.old writer.new (Stops S.rules at_end played fault)) }
    ensures counted { OnOk result (number.new ≤ number.old + length chunk.now) }
    ensures marks { StopsAtLines W.Sink (change writer.old writer.new) result }
    ensures no_flush { NoFlush W.Sink (change writer.old writer.new) result }
{
    let mut at = 0;
    while at < chunk.len() {
        let left = &chunk[at..];
        let end = len_before(left, b'\n');
        line.add(&left[..end]);
        at += end;
        if at < chunk.len() {
            play_line(world, line, *number, writer)?;
            *line = LineBuffer::new();
            *number += 1;
            at += 1;
        }
    }
    Ok(())
}

// Writes the closing lines, and flushes.
fn close<S: Stage, W: Sink>(world: &S, writer: &mut W) -> Result<(), RunFault>
    ensures output { (quiet : Bool) × (IsTrue quiet ↔ IsQuietWorld (S.seen world.now))
        × Writes W.Sink writer.old writer.new result (closing_lines (S.seen world.now) quiet) }
    ensures flushed { OnOk result (IsTrue (W.flushed writer.new)) }
{
    writes_in_a_row::<W>();
    world.end(writer)?;
    flush(writer)
}

// Plays a last line without a line feed, if it isn't empty, and writes the closing lines.
fn play_end<S: Stage, W: Sink>(
    world: &mut S,
    line: &LineBuffer,
    number: u64,
    writer: &mut W,
) -> Result<(), RunFault>
    ensures played { (at_end : Bool) (rest : List ℕ) → IsTrue at_end → KeepsLine line.now rest
        → HasNoFeed rest → Took W.Sink writer.old writer.new
        (IsSimulatedFrom S.rules at_end
        (part number rest (S.seen world.old) (S.seen world.new)) result) }
    ensures marks { StopsAtLines W.Sink (change writer.old writer.new) result }
    ensures flushed { result ≢ Err RunFault.WriteFailed → IsTrue (W.flushed writer.new) }
{
    if !line.is_empty() {
        play_line(world, line, number, writer)?;
    }
    close(world, writer)
}

// Runs the script that the reader gives, in at most `limit` reads, in the world.
fn play<S: Stage, R: Source, W: Sink>(
    world: &mut S,
    reader: &mut R,
    writer: &mut W,
    limit: u32,
) -> Result<(), RunFault>
    ensures output { Ran R.Source W.Sink
        (change reader.old reader.new) (change writer.old writer.new)
        (InTurns limit result (IsSimulated S.rules (R.ended reader.new) result
        (S.seen world.old) (S.seen world.new))) }
    ensures in_turns { RunsInTurns R.Source W.Sink (change reader.old reader.new)
        (change writer.old writer.new) limit result }
{
    writes_in_a_row::<W>();
    let mut line = LineBuffer::new();
    let mut number = 1;
    let mut buffer = [0; MAX_CHUNK];
    for _ in 0..limit {
        let Ok(given) = reader.read_some(&mut buffer) else {
            return Err(RunFault::ReadFailed);
        };
        if given == 0 {
            return play_end(world, &line, number, writer);
        }
        play_chunk(world, &mut line, &mut number, &buffer[..given], writer)?;
        flush(writer)?;
    }
    Err(RunFault::TooManyTurns)
}

/// Runs the script that the reader gives in the world, in at most `limit` reads.
///
/// Each line is an act. Its outcome is written as a line before the next act is done: `done`,
/// `nothing`, `noroom`, `busy` or `toomany`. The outcomes of the lines that end in one read are
/// flushed before the next read. A last line without a line feed counts if it isn't empty. At the
/// end of the script four closing lines follow: the board's position, the host's picture, the
/// host's clock, and whether the world is quiet.
///
/// - Returns `BadLine` at the first line that is not an act. Lines are counted from 1. The lines
///   before it are done, their outcomes are written and flushed, and no closing line is written.
/// - Returns `ReadFailed` if the reader refuses, and `TooManyTurns` if `limit` reads succeed and
///   none gives the end. All whole lines that were read are done then, and no closing line is
///   written.
/// - Returns `WriteFailed` if the writer refuses. The writer gets nothing more, and no further act
///   is done. The end of the last outcome or of the closing lines may be missing.
pub fn simulate<R: Source, W: Sink>(
    world: &mut World,
    reader: &mut R,
    writer: &mut W,
    limit: u32,
) -> Result<(), RunFault>
    // what was read, what was written for it, and the world after it
    ensures output { Ran R.Source W.Sink
        (change reader.old reader.new) (change writer.old writer.new)
        (InTurns limit result
        (IsSimulated plain_rules (R.ended reader.new) result world.old world.new)) }

    // if updates and a dump were requested, and the world at the end is quiet, the lines of board
    // and host have the same placement
    ensures picture { Ran R.Source W.Sink
        (change reader.old reader.new) (change writer.old writer.new)
        (InTurns limit result (λ _ out. OnOk result (ShowsPicture world.new out))) }

    // how often it reads, when it stops, and which marks it leaves
    ensures in_turns { RunsInTurns R.Source W.Sink (change reader.old reader.new)
        (change writer.old writer.new) limit result }
{
    laws::closing_lines_agree();
    dgt_link::laws::at_quiet_world();
    play(world, reader, writer, limit)
}

/// Runs a script in a world with faults, in at most `limit` reads: the lines may change bytes, and
/// the board may lose power.
///
/// A line is an act of [`simulate`], a fault or a restart, as
/// [`read_faulty_act`](crate::read_faulty_act) reads it. Outcomes, closing lines and errors are
/// those of [`simulate`].
///
/// If the world at the end is quiet and promised to heal, the closing lines of board and host have
/// the same placement. [`FaultyWorld::run`] describes after which acts a world is promised to heal.
pub fn simulate_faults<R: Source, W: Sink>(
    world: &mut FaultyWorld,
    reader: &mut R,
    writer: &mut W,
    limit: u32,
) -> Result<(), RunFault>
    // what was read, what was written for it, and the world after it
    ensures output { Ran R.Source W.Sink
        (change reader.old reader.new) (change writer.old writer.new)
        (InTurns limit result
        (IsSimulated faulty_rules (R.ended reader.new) result world.old world.new)) }

    // if the world at the end is promised to heal and quiet, the lines of board and host have the
    // same placement
    ensures picture { Ran R.Source W.Sink
        (change reader.old reader.new) (change writer.old writer.new)
        (InTurns limit result (λ _ out. OnOk result (ShowsHealed world.new out))) }

    // how often it reads, when it stops, and which marks it leaves
    ensures in_turns { RunsInTurns R.Source W.Sink (change reader.old reader.new)
        (change writer.old writer.new) limit result }
{
    laws::closing_lines_agree();
    dgt_link::healing::promised_worlds_heal();
    play(world, reader, writer, limit)
}
