//! Collects the lines of a script from chunks of any lengths.

ghost use Rattle.std.specs.Prelude.{◌≡◌, ◌↔◌, List, [], ◌++◌, IsTrue, ℕ};
ghost use Rattle.dgt_script.specs.ScriptLines.{IsShort, KeepsLine};

use arrayvec::ArrayVec;

/// The longest line that is kept whole, in bytes.
pub const MAX_LINE: usize = 519;

/// A line that may not have ended: its first 519 bytes, and whether there were more.
#[derive(Drop)]
pub struct LineBuffer {
    bytes: ArrayVec<u8, MAX_LINE>,
    is_long: bool,
}

impl LineBuffer {
    /// An empty line.
    pub fn new() -> Self
        ensures { KeepsLine result [] }
    {
        LineBuffer {
            bytes: ArrayVec::new(),
            is_long: false,
        }
    }

    /// Adds bytes to the line. Only the first 519 bytes of a line are kept.
    pub fn add(&mut self, chunk: &[u8])
        ensures { (line : List ℕ) → KeepsLine self.old line →
            KeepsLine self.new (line ++ chunk.now) }
    {
        let room = self.bytes.remaining_capacity();
        self.is_long = self.is_long || chunk.len() > room;
        self.bytes
            .try_extend_from_slice(&chunk[..chunk.len().min(room)])
            .unwrap();
    }

    /// The whole line; `None` if it has more than 519 bytes.
    pub fn line(&self) -> Option<&[u8]>
        ensures { (line : List ℕ) → KeepsLine self.now line → IsShort line result }
    {
        if self.is_long {
            None
        } else {
            Some(self.bytes.as_slice())
        }
    }

    /// Whether the line has no byte.
    pub fn is_empty(&self) -> bool
        ensures { (line : List ℕ) → KeepsLine self.now line → (IsTrue result ↔ (line ≡ [])) }
    {
        self.bytes.is_empty()
    }
}
