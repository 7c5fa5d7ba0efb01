//! A slice as a source.

ghost use Rattle.std.specs.Prelude.{◌≡◌, false, Some};

use crate::streams::{Failed, Source};

/// A source over a slice, which never refuses.
#[derive(Drop)]
pub struct Bytes<'a> {
    left: &'a [u8],
    ended: bool,
    reads: u64,
    late: bool,
}

impl<'a> Bytes<'a> {
    /// A source that gives these bytes.
    pub fn new(bytes: &'a [u8]) -> Self
        ensures left { ⟦<Bytes<'a> as Source>⟧.left result ≡ Some bytes.now }
        ensures not_failed { ⟦<Bytes<'a> as Source>⟧.failed result ≡ false }
        ensures not_ended { ⟦<Bytes<'a> as Source>⟧.ended result ≡ false }
        ensures unread { ⟦<Bytes<'a> as Source>⟧.reads result ≡ 0 }
        ensures in_time { ⟦<Bytes<'a> as Source>⟧.late result ≡ false }
    {
        Bytes {
            left: bytes,
            ended: false,
            reads: 0,
            late: false,
        }
    }
}

impl Source for Bytes<'_> {
    ghost left = { λ source. Some source.left.now };

    ghost failed = { λ _. false };

    ghost ended = { λ source. source.ended };

    ghost reads = { λ source. source.reads };

    ghost late = { λ source. source.late };

    fn read_some(&mut self, buffer: &mut [u8]) -> Result<usize, Failed> {
        self.late = self.late || self.ended;
        let given = self.left.len().min(buffer.len());
        buffer[..given].copy_from_slice(&self.left[..given]);
        self.left = &self.left[given..];
        if given == 0 && !buffer.is_empty() {
            self.ended = true;
        }
        self.reads = self.reads.saturating_add(1);
        Ok(given)
    }
}
