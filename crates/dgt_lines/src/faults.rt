//! Why an engine stops.

ghost use Rattle.std.specs.Prelude.{Some};
ghost use Rattle.dgt_lines.specs.FaultText.{run_fault_text};

use std::error::Error;
use std::fmt;

/// Why an engine stopped before the end of its input, or could not write. Its text is short, such
/// as `line 3: bad at 5`.
#[derive(Clone, Copy, Debug, PartialEq, Eq)]
pub enum RunFault {
    /// The source refused a read.
    ReadFailed,
    /// The sink refused a write or a flush.
    WriteFailed,
    /// The engine reached its limit of reads, and none of them gave the end.
    TooManyTurns,
    /// Line `line` of a script, counted from 1, is wrong from its byte offset `at` on.
    BadLine { line: u64, at: usize },
}

// Written by hand: the code that `thiserror` derives has no contract.
impl fmt::Display for RunFault {
    ghost output = { λ fault. Some (run_fault_text fault) };

    fn fmt<W: fmt::Write>(&self, f: &mut fmt::Formatter<W>) -> fmt::Result {
        match self {
            RunFault::ReadFailed => write!(f, "read failed"),
            RunFault::WriteFailed => write!(f, "write failed"),
            RunFault::TooManyTurns => write!(f, "too many turns"),
            RunFault::BadLine { line, at } => write!(f, "line {line}: bad at {at}"),
        }
    }
}

impl Error for RunFault {}
