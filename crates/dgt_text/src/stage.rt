//! The worlds in which a script can be run.

ghost use Rattle.std.specs.Prelude.{◌≡◌, ◌↔◌, Bool, false, IfOk, IfErr, IsTrue, OnErr};
ghost use Rattle.dgt_lines.specs.Writing.{Writes};
ghost use Rattle.dgt_link.specs.View.{IsQuietWorld, WorldView};
ghost use Rattle.dgt_text.specs.Closing.{closing_lines};
ghost use Rattle.dgt_script.specs.Script.{bad_offset};
ghost use Rattle.dgt_text.specs.Simulating.{Rules, faulty_rules, plain_rules};

use dgt_command::MAX_WORD;
use dgt_lines::{RunFault, Sink, write_closing};
use dgt_link::{FaultyWorld, Outcome, World};
use dgt_script::{LineFault, read_act, read_faulty_act};

/// A world in which a script can be run.
pub(crate) trait Stage {
    // the world, as contracts see it
    ghost seen: { Self → WorldView };

    // the rules of its scripts
    ghost rules: { Rules };

    /// Does the act of a line, and returns its outcome. A line that is not an act changes nothing.
    fn play(&mut self, line: &[u8]) -> Result<Outcome, LineFault>
        ensures does { IfOk result (λ outcome.
            rules.does line.now (seen self.old) outcome (seen self.new)) }
        ensures bad { IfErr result (λ fault. rules.is_bad line.now (bad_offset fault)) }
        ensures unchanged { OnErr result (seen self.new ≡ seen self.old) };

    /// Writes the four closing lines of the world, without a flush.
    fn end<W: Sink>(&self, writer: &mut W) -> Result<(), RunFault>
        ensures output { (quiet : Bool) × (IsTrue quiet ↔ IsQuietWorld (seen self.now))
            × Writes W.Sink writer.old writer.new result (closing_lines (seen self.now) quiet) }
        ensures no_flush { W.flushed writer.old ≡ false → W.flushed writer.new ≡ false };
}

impl Stage for World {
    ghost seen = { λ world. world };

    ghost rules = { plain_rules };

    fn play(&mut self, line: &[u8]) -> Result<Outcome, LineFault> {
        let mut store = [0; MAX_WORD];
        let act = read_act(line, &mut store)?;
        Ok(self.step(act))
    }

    fn end<W: Sink>(&self, writer: &mut W) -> Result<(), RunFault> {
        let host = self.host();
        write_closing(
            self.board().position(),
            host.picture(),
            host.clock(),
            self.quiet(),
            writer,
        )
    }
}

impl Stage for FaultyWorld {
    ghost seen = { λ world. world };

    ghost rules = { faulty_rules };

    fn play(&mut self, line: &[u8]) -> Result<Outcome, LineFault> {
        let mut store = [0; MAX_WORD];
        let act = read_faulty_act(line, &mut store)?;
        Ok(self.step(act))
    }

    fn end<W: Sink>(&self, writer: &mut W) -> Result<(), RunFault> {
        let host = self.host();
        write_closing(
            self.board().position(),
            host.picture(),
            host.clock(),
            self.quiet(),
            writer,
        )
    }
}
