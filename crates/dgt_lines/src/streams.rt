//! The sources and sinks of the engines.

ghost use Rattle.std.specs.Prelude.{◌≡◌, ◌+◌, ◌-◌, ◌^◌, ◌<◌, ◌≤◌, ℕ, Bool, false, List, length, min, Option, IsTrue, IfOk, OnOk, OnErr};
ghost use Rattle.std.specs.Io.KnownBytes.{Keeps, ReadConsumes, WriteAppends};
ghost use Rattle.dgt_lines.specs.Marks.{GivesEnd, TookSome};

use thiserror::Error;

/// A source or a sink refused a call.
#[derive(Clone, Copy, Debug, PartialEq, Eq, Error)]
#[error("the device failed")]
pub struct Failed;

/// Gives bytes.
///
/// Contracts see the bytes that are left, if a source states them, and four marks. These are
/// whether a call was refused, whether a read gave the end, the number of reads, and whether a read
/// was made after a refusal or the end.
pub trait Source {
    // the bytes that are left, if the source states them
    ghost left: { Self → Option (List ℕ) };

    // a call was refused
    ghost failed: { Self → Bool };

    // a read gave the end
    ghost ended: { Self → Bool };

    // the reads so far
    ghost reads: { Self → ℕ };

    // a read came after one that was refused or gave the end
    ghost late: { Self → Bool };

    /// Moves the next bytes to the beginning of `buffer`, and returns how many: 0 only at the end,
    /// or if `buffer` is empty. The rest of `buffer` may then hold any bytes. A refusal moves no
    /// bytes, and `buffer` may then hold any bytes.
    fn read_some(&mut self, buffer: &mut [u8]) -> Result<usize, Failed>
        ensures bound { IfOk result (λ n. n ≤ length buffer.new) }
        ensures bytes { ReadConsumes (left self.old) (left self.new) result buffer.new }
        ensures refused { OnErr result (IsTrue (failed self.new)) }
        ensures not_refused { OnOk result (failed self.new ≡ failed self.old) }
        ensures end { GivesEnd result (length buffer.new) → IsTrue (ended self.new) }
        ensures no_end { ¬ GivesEnd result (length buffer.new) → ended self.new ≡ ended self.old }
        ensures counted { reads self.new ≡ min (reads self.old + 1) (2 ^ 64 - 1) }
        ensures in_time { failed self.old ≡ false → ended self.old ≡ false →
            late self.new ≡ late self.old }
        ensures after_refusal { IsTrue (failed self.old) → IsTrue (late self.new) }
        ensures after_end { IsTrue (ended self.old) → IsTrue (late self.new) };
}

/// Takes bytes.
///
/// Contracts see the bytes that were written, if a sink states them, and three marks: whether a
/// call was refused, whether all written bytes were flushed, and whether a call was made after a
/// refusal.
pub trait Sink {
    // the bytes that were written, if the sink states them
    ghost written: { Self → Option (List ℕ) };

    // a call was refused
    ghost failed: { Self → Bool };

    // no byte was written since a flush that succeeded
    ghost flushed: { Self → Bool };

    // a call came after one that was refused
    ghost late: { Self → Bool };

    /// Takes the first bytes of `bytes`, at least one if there is one, and returns how many. A
    /// refusal takes none.
    fn write_some(&mut self, bytes: &[u8]) -> Result<usize, Failed>
        ensures bound { IfOk result (λ n. n ≤ length bytes.now) }
        ensures some { IfOk result (λ n. 0 < length bytes.now → 0 < n) }
        ensures bytes { WriteAppends (written self.old) (written self.new) result bytes.now }
        ensures refused { OnErr result (IsTrue (failed self.new)) }
        ensures not_refused { OnOk result (failed self.new ≡ failed self.old) }
        ensures unflushed { TookSome result → flushed self.new ≡ false }
        ensures same_flushed { ¬ TookSome result → flushed self.new ≡ flushed self.old }
        ensures in_time { failed self.old ≡ false → late self.new ≡ late self.old }
        ensures after_refusal { IsTrue (failed self.old) → IsTrue (late self.new) };

    /// Passes on all written bytes.
    fn flush_all(&mut self) -> Result<(), Failed>
        ensures bytes { Keeps (written self.old) (written self.new) }
        ensures refused { OnErr result (IsTrue (failed self.new)) }
        ensures not_refused { OnOk result (failed self.new ≡ failed self.old) }
        ensures flushes { OnOk result (IsTrue (flushed self.new)) }
        ensures same_flushed { OnErr result (flushed self.new ≡ flushed self.old) }
        ensures in_time { failed self.old ≡ false → late self.new ≡ late self.old }
        ensures after_refusal { IsTrue (failed self.old) → IsTrue (late self.new) };
}
