//! The program `dgt`, which reads and simulates DGT electronic chess boards.
//!
//! `dgt show 8e00052401` prints `00000005 field e4 P`: the five bytes are a message of the DGT
//! Electronic Board Protocol that a white pawn now stands on e4. `dgt --help` lists the commands.
//!
//! `main` fetches the words and the streams. [`run_words`] has `dgt_arguments` read the words, and
//! `dgt_program`, which this crate re-exports as `program`, do their task.
#![tactic(auto)]

ghost use Rattle.std.specs.Prelude.{◌≤◌};

mod terminals;
#[cfg(test)]
mod tests;

use crate::terminals::note_terminals;
use dgt_arguments::{read, refuse_arguments};
pub use dgt_program as program;
use dgt_program::{Fault, run_to_status};
use dgt_text::Device;
use std::alloc::Global;
use std::env;
use std::io::{Read, Write};
use std::process::ExitCode;

fn main(rt: HostRuntime) -> ExitCode {
    let alloc = rt.alloc();
    let words: Result<Vec<String>, Fault> = match env::args(&rt) {
        Ok(words) => words.collect(alloc).map_err(Fault::from),
        Err(error) => Err(Fault::from(refuse_arguments(alloc, &error))),
    };
    let status = match words {
        Ok(words) => {
            note_terminals(&rt, words.as_slice());
            run_words(alloc, words, rt.stdin(), rt.stdout(), rt.stderr())
        }
        Err(fault) => fault.report(&mut Device::new(rt.stderr())),
    };
    ExitCode::from(status)
}

/// Does what the words of a command line ask for, and returns the exit status.
pub fn run_words<I: Read + Drop, O: Write + Drop, E: Write + Drop>(
    alloc: Global,
    words: Vec<String>,
    input: I,
    output: O,
    errors: E,
) -> u8
    ensures { result ≤ 3 }
{
    run_to_status(alloc, read(alloc, words.as_slice()), input, output, errors)
}
