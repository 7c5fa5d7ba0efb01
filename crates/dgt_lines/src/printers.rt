//! The loops of the engines that print, over the bytes of a chunk and over chunks.

ghost use Rattle.std.specs.Prelude.{◌≡◌, ◌+◌, ◌^◌, ◌<◌, ◌≤◌, ◌++◌, [], ℕ, List, false, length, IsTrue, IfOk, OnErr, OnOk};
ghost use Rattle.dgt_command.specs.Encoding.{AreBytes};
ghost use Rattle.dgt_lines.specs.Writing.{Writes};
ghost use Rattle.dgt_lines.specs.Printing.{GathersPrefix, IsPrinted, PrintsMore};
ghost use Rattle.dgt_lines.specs.Turns.{change, InTurns, Ran, RunsInTurns};

use crate::faults::RunFault;
use crate::gathering::{Outgoing, flush};
use crate::laws::writes_in_a_row;
use crate::streams::{Sink, Source};

/// The most bytes that an engine reads at once.
pub const MAX_CHUNK: usize = 4096;

/// Prints the lines of bytes that come in chunks. Each chunk is read after the unfinished rest of
/// those before. The lines of a chunk are gathered in a buffer of `ROOM` bytes.
pub(crate) trait Printer<const ROOM: usize> {
    // bytes have these lines from the first state on, and a last one for what is unfinished at
    // their end
    ghost has_lines: { Self → List ℕ → List ℕ → List ℕ → Type 0 };

    // from the first state on, these lines were printed of bytes, and led to the second state
    ghost has_printed: { Self → Self → List ℕ → List ℕ → Type 0 };

    /// Uses bytes of the rest of a chunk, after `offset` bytes: those up to and including the end
    /// of the first event, or all of them. Gathers the lines of the event, and returns the number
    /// of bytes that were used. After a refused write nothing is gathered.
    fn gather<W: Sink>(
        &mut self,
        outgoing: &mut Outgoing<ROOM>,
        offset: u64,
        rest: &[u8],
        writer: &mut W,
    ) -> Result<usize, RunFault>
        requires fits { offset + length rest.now < 2 ^ 64 }
        ensures within { IfOk result (λ used. used ≤ length rest.now) }
        ensures progress { IfOk result (λ used. 0 < length rest.now → 0 < used) }
        ensures output { (first : Self) (bytes text : List ℕ) →
            has_printed first self.old bytes text → offset ≡ length bytes →
            GathersPrefix W.Sink (outgoing.old, outgoing.new) writer.old writer.new result
            (has_printed first self.new) bytes rest.now text }
        ensures dropped { OnErr result (outgoing.new ≡ []) }
        ensures no_flush { W.flushed writer.old ≡ false → W.flushed writer.new ≡ false };

    /// Writes and flushes a last line after `offset` bytes, if an unfinished rest prints one.
    fn print_end<W: Sink>(&self, offset: u64, writer: &mut W) -> Result<(), RunFault>
        ensures output { (first : Self) (bytes text : List ℕ) →
            has_printed first self.now bytes text → offset ≡ length bytes →
            (last : List ℕ) × has_lines first bytes text last
            × Writes W.Sink writer.old writer.new result last }
        ensures flushed { OnOk result
            (IsTrue (W.flushed writer.old) → IsTrue (W.flushed writer.new)) };

    /// For all bytes after those that were printed, the lines of all begin with the printed lines.
    /// Nothing here runs.
    fn lines_go_on()
        ensures { (first state : Self) (bytes text more : List ℕ) →
            has_printed first state bytes text → AreBytes more →
            (others : List ℕ) × (last : List ℕ)
            × has_lines first (bytes ++ more) (text ++ others) last };

    // what was printed of bytes are their lines
    ghost are_lines: { (first state : Self) (bytes text : List ℕ) →
        has_printed first state bytes text → (last : List ℕ) × has_lines first bytes text last };
}

// Writes the lines of a chunk after `offset` bytes, in one write if they fit. Nothing is flushed.
fn print_chunk<const ROOM: usize, P: Printer<ROOM>, W: Sink>(
    printer: &mut P,
    outgoing: &mut Outgoing<ROOM>,
    offset: u64,
    chunk: &[u8],
    writer: &mut W,
) -> Result<(), RunFault>
    requires empty { outgoing.old ≡ [] }
    requires fits { offset + length chunk.now < 2 ^ 64 }
    ensures output { (first : P) (bytes text : List ℕ) →
        P.has_printed first printer.old bytes text → offset ≡ length bytes →
        PrintsMore W.Sink writer.old writer.new result (P.has_lines first)
        (P.has_printed first printer.new) (bytes ++ chunk.now) text }
    ensures empty { outgoing.new ≡ [] }
    ensures no_flush { W.flushed writer.old ≡ false → W.flushed writer.new ≡ false }
{
    P::lines_go_on();
    let mut at = 0;
    while at < chunk.len() {
        at += printer.gather(outgoing, offset + at as u64, &chunk[at..], writer)?;
    }
    outgoing.write_out(writer)
}

/// Prints the lines of the bytes that the reader gives, in at most `limit` reads. The lines of one
/// read are written and flushed before the next read.
pub(crate) fn print_input<const ROOM: usize, P: Printer<ROOM>, R: Source, W: Sink>(
    printer: &mut P,
    outgoing: &mut Outgoing<ROOM>,
    reader: &mut R,
    writer: &mut W,
    limit: u32,
) -> Result<(), RunFault>
    requires begins { P.has_printed printer.old printer.old [] [] }
    requires empty { outgoing.old ≡ [] }
    ensures output { Ran R.Source W.Sink
        (change reader.old reader.new) (change writer.old writer.new)
        (InTurns limit result (IsPrinted (P.has_lines printer.old) result)) }
    ensures in_turns { RunsInTurns R.Source W.Sink (change reader.old reader.new)
        (change writer.old writer.new) limit result }
{
    writes_in_a_row::<W>();
    let mut offset = 0u64;
    let mut buffer = [0; MAX_CHUNK];
    for _ in 0..limit {
        let Ok(given) = reader.read_some(&mut buffer) else {
            return Err(RunFault::ReadFailed);
        };
        if given == 0 {
            return printer.print_end(offset, writer);
        }
        print_chunk(printer, outgoing, offset, &buffer[..given], writer)?;
        flush(writer)?;
        offset += given as u64;
    }
    Err(RunFault::TooManyTurns)
}
