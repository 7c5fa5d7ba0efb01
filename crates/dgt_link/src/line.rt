//! Lines of bytes. They allocate memory only when they are made.

ghost use Rattle.std.specs.Prelude.{◌≡◌, ◌+◌, ◌<◌, ◌≤◌, ◌==◌, [], length, take, IfOk};
ghost use Rattle.dgt_link.specs.View.{line_holding, with_bytes, without_first};

use circular_buffer::HeapCircularBuffer;
use std::alloc::{AllocError, Global};
use std::marker::Model;

/// A line of bytes, the oldest first. Its length never exceeds its capacity.
#[derive(Drop)]
pub struct Line {
    ring: HeapCircularBuffer<u8>,
}

impl Model for Line {
    ghost use Rattle.dgt_link.specs.View.{LineContents, line_holding};

    ghost Value = { LineContents };

    ghost view = { λ line. line_holding line.ring.items line.ring.capacity };
}

impl Line {
    // An empty line of this capacity. No other call allocates memory.
    fn new(alloc: Global, capacity: usize) -> Result<Self, AllocError>
        ensures { IfOk result (λ line. line ≡ line_holding [] capacity) }
    {
        Ok(Line {
            ring: HeapCircularBuffer::with_capacity(alloc, capacity)?,
        })
    }

    /// How many bytes are in the line.
    pub fn len(&self) -> usize
        ensures len { result ≡ length self.now.bytes }
        ensures within { result ≤ self.now.capacity }
    {
        self.ring.len()
    }

    /// Whether the line contains no bytes.
    pub fn is_empty(&self) -> bool
        ensures { result ≡ (length self.now.bytes == 0) }
    {
        self.ring.is_empty()
    }

    /// The most bytes that the line can hold.
    pub fn capacity(&self) -> usize
        ensures { result ≡ self.now.capacity }
    {
        self.ring.capacity()
    }

    /// How many more bytes the line can hold.
    pub fn room(&self) -> usize
        ensures { result + length self.now.bytes ≡ self.now.capacity }
    {
        self.ring.capacity() - self.ring.len()
    }

    /// Appends bytes.
    pub fn push(&mut self, bytes: &[u8])
        requires { length self.old.bytes + length bytes.now ≤ self.old.capacity }
        ensures { self.new ≡ with_bytes self.old bytes.now }
    {
        self.ring.fill_from_slice(bytes);
    }

    /// The oldest bytes: as many as are contiguous in memory, and at least one if there is one.
    pub fn front(&self) -> &[u8]
        ensures front { result.now ≡ take (length result.now) self.now.bytes }
        ensures within { length result.now ≤ length self.now.bytes }
        ensures some { 0 < length self.now.bytes → 0 < length result.now }
    {
        let (first, second) = self.ring.as_slices();
        if first.is_empty() { second } else { first }
    }

    /// Removes all bytes.
    pub fn clear(&mut self)
        ensures { self.new ≡ line_holding [] self.old.capacity }
    {
        self.ring.clear();
    }

    /// Removes the oldest `count` bytes.
    pub fn drop_first(&mut self, count: usize)
        requires { count ≤ length self.old.bytes }
        ensures { self.new ≡ without_first self.old count }
    {
        self.ring.truncate_front(self.ring.len() - count);
    }
}

/// Memory that can be used once, for two lines.
#[derive(Drop)]
pub struct LineMemory {
    alloc: Global,
}

impl LineMemory {
    /// Memory of this allocator, still unused.
    pub fn new(alloc: Global) -> Self {
        LineMemory { alloc }
    }

    /// Uses it for two empty lines of these capacities.
    pub fn lines(self, first: usize, second: usize) -> Result<(Line, Line), AllocError>
        ensures { IfOk result (λ lines.
            (lines.0 ≡ line_holding [] first) × (lines.1 ≡ line_holding [] second)) }
    {
        Ok((
            Line::new(self.alloc, first)?,
            Line::new(self.alloc, second)?,
        ))
    }
}
