//! The faults that end the program, and their texts.

ghost use Rattle.std.specs.Prelude.{◌≡◌, IsTrue, OnErr, OnOk, Some, false};
ghost use Rattle.std.specs.Io.KnownBytes.{Appends};
ghost use Rattle.dgt_lines.specs.Device.{device_failed, device_flushed, device_inner};
ghost use Rattle.dgt_program.specs.Faults.{IsOfWords, IsOfWorld, fault_lines, fault_status, fault_text};
ghost use Rattle.dgt_program.specs.declared.fault.Fault.{Fault as AnyFault};

use dgt_ask::BadArguments;
use dgt_link::WorldFault;
use dgt_text::{Device, Failed, RunFault, Sink};
use dgt_values::BadPlacement;
use std::alloc::{AllocError, AllocFailed};
use std::error::Error;
use std::fmt;
use std::io::Write;

/// Why the program stopped before its work was done.
#[derive(Debug, Drop)]
pub enum Fault {
    /// The words are not a valid command line. The text consists of whole lines.
    CommandLine { text: String },
    /// The word of `dgt show` is not hexadecimal digits of whole bytes.
    BadHex,
    /// The position is not a placement from this offset on.
    BadPlacement { at: usize },
    /// A line of the simulated world would hold too few bytes.
    LineTooSmall,
    /// The run stopped.
    Run(RunFault),
    /// An allocation was refused.
    OutOfMemory,
}

// Written by hand: the code that `thiserror` derives has no contract.
impl fmt::Display for Fault {
    ghost output = { λ fault. Some (fault_text fault) };

    fn fmt<W: fmt::Write>(&self, f: &mut fmt::Formatter<W>) -> fmt::Result {
        match self {
            Fault::CommandLine { text } => write!(f, "{text}"),
            Fault::BadHex => write!(f, "bad hex"),
            Fault::BadPlacement { at } => write!(f, "bad placement at {at}"),
            Fault::LineTooSmall => write!(f, "a line is too small"),
            Fault::Run(fault) => write!(f, "{fault}"),
            Fault::OutOfMemory => write!(f, "out of memory"),
        }
    }
}

impl Error for Fault {}

impl From<RunFault> for Fault {
    ghost from_gives = { λ error fault. fault ≡ AnyFault.Run error };

    fn from(error: RunFault) -> Fault {
        Fault::Run(error)
    }
}

impl From<BadArguments> for Fault {
    ghost from_gives = { IsOfWords };

    fn from(error: BadArguments) -> Fault {
        match error {
            BadArguments::Refused { text } => Fault::CommandLine { text },
            BadArguments::OutOfMemory => Fault::OutOfMemory,
        }
    }
}

impl From<BadPlacement> for Fault {
    ghost from_gives = { λ error fault. fault ≡ AnyFault.BadPlacement error.at };

    fn from(error: BadPlacement) -> Fault {
        Fault::BadPlacement { at: error.at }
    }
}

impl From<WorldFault> for Fault {
    ghost from_gives = { IsOfWorld };

    fn from(error: WorldFault) -> Fault {
        match error {
            // The command line refuses such a line before.
            WorldFault::LineTooSmall => Fault::LineTooSmall,
            WorldFault::OutOfMemory => Fault::OutOfMemory,
        }
    }
}

impl From<AllocError> for Fault {
    ghost from_gives = { λ _ fault. fault ≡ AnyFault.OutOfMemory };

    fn from(_error: AllocError) -> Fault {
        Fault::OutOfMemory
    }
}

impl From<AllocFailed<String>> for Fault {
    ghost from_gives = { λ _ fault. fault ≡ AnyFault.OutOfMemory };

    fn from(_error: AllocFailed<String>) -> Fault {
        Fault::OutOfMemory
    }
}

impl Fault {
    /// Reports the fault to the user, and returns the exit status. If the device refuses a call,
    /// only the status reports the fault.
    pub fn report<E: Write>(self, errors: &mut Device<E>) -> u8
        ensures status { result ≡ fault_status self }
        ensures lines { device_failed errors.new ≡ false →
            Appends (E.contents (device_inner errors.old)) (E.contents (device_inner errors.new))
            (fault_lines self) }
        ensures flushed { device_failed errors.new ≡ false → IsTrue (device_flushed errors.new) }
    {
        let _ = self.write_lines(errors);
        let _ = errors.flush_all();
        match self {
            Fault::Run(_) => 1,
            Fault::CommandLine { .. }
            | Fault::BadHex
            | Fault::BadPlacement { .. }
            | Fault::LineTooSmall => 2,
            Fault::OutOfMemory => 3,
        }
    }

    fn write_lines<E: Write>(&self, errors: &mut Device<E>) -> Result<(), Failed>
        ensures lines { OnOk result
            (Appends (E.contents (device_inner errors.old)) (E.contents (device_inner errors.new))
            (fault_lines self.now)) }
        ensures refused { OnErr result (IsTrue (device_failed errors.new)) }
    {
        match self {
            Fault::CommandLine { text } => errors.print(text),
            fault => errors.print(&format_args!("dgt: {fault}\n")),
        }
    }
}
