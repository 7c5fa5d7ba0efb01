//! The note for the user at a terminal.
use dgt_arguments::read;
use std::fs::Files;
use std::io::{IsTerminal, Write};
use std::os::unix::fs::MetadataExt;

/// Prints a note on standard error if bytes are read from its terminal or written to it.
/// `run_words` reports faults of the words.
pub fn note_terminals(rt: &HostRuntime, words: &[String]) {
    let reads = rt.stdin().is_terminal() && is_standard_error(rt, "/dev/stdin");
    let writes = rt.stdout().is_terminal() && is_standard_error(rt, "/dev/stdout");
    if !reads && !writes {
        return;
    }
    if let Ok(task) = read(rt.alloc(), words) {
        if let Some(note) = task.note(reads, writes) {
            let _ = writeln!(rt.stderr(), "{note}");
        }
    }
}

// Whether this stream and standard error are the same device. To the system a serial port is a
// terminal too, but has no user.
fn is_standard_error(rt: &HostRuntime, path: &str) -> bool {
    match (rt.metadata(path), rt.metadata("/dev/stderr")) {
        (Ok(stream), Ok(errors)) => stream.rdev() == errors.rdev(),
        _ => false,
    }
}
