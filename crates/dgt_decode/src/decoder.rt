//! The decoder. Its events borrow from it.

ghost use Rattle.std.specs.Prelude.{◌≡◌, ◌<◌, ◌≤◌, ℕ, List, [], ◌++◌, length, take, MatchOption};
ghost use Rattle.std.specs.Borrow.{sem};
ghost use Rattle.std.specs.Io.BufRead.{Rests};
ghost use Rattle.std.specs.List.{FoldsTo};
ghost use Rattle.dgt_decode.specs.Grammar.{unfinished_message};
ghost use Rattle.dgt_decode.specs.Feeding.{FirstEvent, event_content_if_any, chunk_events};

use crate::event::Event;
use crate::framer::{Advanced, Framer, MAX_TOTAL};
use crate::listening::Listener;
use std::marker::Model;

/// A message that was not finished.
#[derive(Clone, Copy, Debug, PartialEq, Eq)]
pub struct Unfinished {
    /// How many of its bytes were received: at least one, and fewer than [`MAX_TOTAL`].
    pub have: usize,
}

/// What [`Decoder::feed`] did with a chunk.
#[derive(Clone, Copy, Debug, PartialEq, Eq)]
pub struct Fed<'a> {
    /// How many bytes of the chunk were used. Feed the others next.
    pub used: usize,
    /// The event of the last byte used. If there is none, the whole chunk was used.
    pub event: Option<Event<'a>>,
}

/// Reads the bytes that a board sends, in chunks of any length. Contracts see it as the bytes that
/// it holds of an unfinished message.
///
/// The bytes are kept in the decoder itself, at most [`MAX_TOTAL`] of them. No call allocates
/// memory.
#[derive(Drop)]
pub struct Decoder {
    framer: Framer,
}

impl Model for Decoder {
    ghost use Rattle.std.specs.Prelude.{ℕ, List};
    ghost use Rattle.dgt_decode.specs.Grammar.{unfinished_message};

    ghost Value = { List ℕ };

    ghost view = { λ decoder. unfinished_message decoder.framer };
}

impl Decoder {
    ghost use Rattle.dgt_decode.specs.contracts.decoder.Decoder.{the_row};

    /// A decoder that has read nothing.
    #[tactic(auto, using(crate::proofs::Bytes::unfinished_facts))]
    pub fn new() -> Self
        ensures { result ≡ [] }
    {
        Decoder {
            framer: Framer::new(),
        }
    }

    /// Uses the bytes of the chunk up to and including the first that completes an event, or all of
    /// them.
    ///
    /// The event borrows its body from the decoder until the next call.
    #[inline(always)]
    pub fn feed(&mut self, chunk: &[u8]) -> Fed<'_>
        ensures* after_borrow { sem 𝓛 (Rests the_row self.entry
            (λ new. new ≡ unfinished_message (self.old ++ take result.used chunk.now))) }
        ensures within { result.used ≤ length chunk.now }
        ensures first { FirstEvent self.old chunk.now result.used
            (event_content_if_any result.event) }
        ensures progress { 0 < length chunk.now → 0 < result.used }
    {
        // It is inlined: otherwise an event is copied three times on its way to C.
        let Advanced { used, found } = self.framer.advance(chunk);
        let Some(found) = found else {
            return Fed { used, event: None };
        };
        Fed {
            used,
            event: self.framer.event(found),
        }
    }

    /// Uses a whole chunk, and passes each event to the listener, in order. The listener also gets
    /// the number of bytes of the chunk up to and including the event's last one.
    ///
    /// However the bytes are cut into chunks, the events are the same (`laws::chunks_in_a_row`).
    pub fn feed_all<L: Listener>(&mut self, chunk: &[u8], listener: &mut L)
        ensures reported { FoldsTo L.hears listener.old
            (chunk_events self.old chunk.now) listener.new }
        ensures held { self.new ≡ unfinished_message (self.old ++ chunk.now) }
    {
        let mut at = 0;
        while at < chunk.len() {
            let advanced = self.framer.advance(&chunk[at..]);
            at += advanced.used;
            if let Some(found) = advanced.found {
                listener.hear(at, &self.framer.event(found).unwrap());
            }
        }
    }

    /// How many bytes of an unfinished message were received: fewer than [`MAX_TOTAL`].
    #[tactic(auto, using(crate::proofs::Bytes::unfinished_facts))]
    pub fn rest(&self) -> usize
        ensures length { result ≡ length self.now }
        ensures unfinished { unfinished_message self.now ≡ self.now }
        ensures limit { length self.now < MAX_TOTAL }
    {
        self.framer.unfinished_len()
    }

    /// Reports an unfinished message, if there is one, and resets the decoder.
    pub fn finish(&mut self) -> Option<Unfinished>
        ensures reported { MatchOption result (self.old ≡ [])
            (λ unfinished. (0 < length self.old) × (unfinished.have ≡ length self.old)) }
        ensures new { self.new ≡ [] }
    {
        let have = self.rest();
        self.reset();
        if have == 0 {
            None
        } else {
            Some(Unfinished { have })
        }
    }

    /// Returns the decoder to its initial state.
    #[tactic(auto, using(crate::proofs::Bytes::unfinished_facts))]
    pub fn reset(&mut self)
        ensures { self.new ≡ [] }
    {
        self.framer.reset();
    }
}
