//! Reads one message after another: the states, and the bytes received.

ghost use Rattle.std.specs.Prelude.{◌≡◌, ◌≢◌, ◌≤◌, ◌<◌, ◌+◌, List, ℕ, [], ◌∷◌, ◌++◌, true, length, take, option_map, ◌==◌, if◌then◌else◌, MatchOption, Some, None};
ghost use Rattle.std.specs.List.{position_or_len};
ghost use Rattle.dgt_decode.specs.Grammar.{has_top_bit, message_event, unfinished_message};
ghost use Rattle.dgt_decode.specs.Feeding.{FirstEvent, IsWholeMessage, event_content, event_found_in};
ghost use Rattle.dgt_decode.specs.Taking.{Begins, Frames, FramesPrefix};

use crate::dumps::dump_position;
use crate::event::{Event, Found};
use crate::fields::field_update;
use crate::header::{FIELD, HEADER, TOP_BIT, begins_with_field, first_total};
use crate::lanes::{FEW, first_top, first_top_of_few};
use dgt_message::{Message, view};
use dgt_values::{Body, Kept, SevenBit};
use std::marker::Model;

/// The most bytes of a message, including its header of three bytes.
pub const MAX_TOTAL: usize = 16383;

// Fewer bytes than this are taken one by one.
const MANY: usize = 16;

// The bytes of a long message after this many are stored in aligned blocks.
const BLOCK: usize = 128;

/// How much of a message was received.
#[derive(Clone, Copy)]
enum FramerState {
    /// No message has begun.
    Hunting,
    /// All of it was received. It is kept until the next byte.
    Whole,
    /// One or two bytes of its header were received.
    Head,
    /// Its header was received, and this many bytes are missing.
    Body { left: usize },
}

/// What [`Framer::advance`] did with a chunk.
#[derive(Clone, Copy, Debug, PartialEq, Eq)]
pub struct Advanced {
    /// How many bytes of the chunk were used. Pass the others next.
    pub used: usize,
    /// What the last used byte completed. If it is `None`, the whole chunk was used.
    pub found: Option<Found>,
}

/// Reads the bytes that a board sends, in two steps: `advance` uses bytes, and `event` returns what
/// they completed. Between the two a caller can change a state of its own. All other callers use
/// `Decoder`.
///
/// Contracts see it as the bytes that it keeps: those of an unfinished message, or all of the
/// message that is just complete. They are kept in the framer itself, at most `MAX_TOTAL` of them.
/// No call allocates memory.
#[derive(Drop)]
pub struct Framer {
    state: FramerState,
    kept: Kept<MAX_TOTAL>,
}

impl Model for Framer {
    ghost use Rattle.std.specs.Prelude.{ℕ, List};
    ghost use Rattle.dgt_decode.specs.Taking.{IsKept};

    ghost Value = { List ℕ };

    ghost view = { λ framer. framer.kept };

    ghost invariant = { λ framer. IsKept framer.state framer.kept };
}

// The state after some bytes of a message of which this many are missing, and what the last byte
// completed.
fn after_byte(left: usize) -> (FramerState, Option<Found>)
    ensures { result ≡ (if left == 0 then (FramerState.Whole, Some Found.Message)
        else (FramerState.Body left, None)) }
{
    if left == 0 {
        (FramerState::Whole, Some(Found::Message))
    } else {
        (FramerState::Body { left }, None)
    }
}

// Appends the leading bytes of the chunk with a clear top bit, no more than are missing. Returns
// their number.
fn append_run(kept: &mut Kept<MAX_TOTAL>, missing: usize, chunk: &[u8]) -> usize
    requires { length kept.old + missing ≤ MAX_TOTAL }
    ensures count { result ≡ position_or_len has_top_bit (take missing chunk.now) }
    ensures appended { kept.new ≡ kept.old ++ take result chunk.now }
{
    let wanted = &chunk[..chunk.len().min(missing)];
    let blocks = kept.append_blocks(wanted);
    let others = &wanted[blocks..];
    let run = first_top(others);
    kept.append(&others[..run]);
    blocks + run
}

/// The event of the bytes of one message. Only the message's own reading looks at its body.
pub fn whole_message(bytes: &[u8]) -> Event<'_>
    requires { IsWholeMessage bytes.now }
    ensures { event_content result ≡ message_event bytes.now }
{
    let code = SevenBit::from_small(bytes[0] - TOP_BIT);
    match view(code, Body::from_seven_bit(&bytes[HEADER..])) {
        Ok(message) => Event::Message(message),
        Err(fault) => Event::Refused { code, fault },
    }
}

impl Framer {
    /// A framer that has read nothing.
    pub fn new() -> Self
        ensures { result ≡ [] }
    {
        Framer {
            state: FramerState::Hunting,
            kept: Kept::new(),
        }
    }

    /// How many bytes of an unfinished message were received: fewer than [`MAX_TOTAL`].
    pub fn unfinished_len(&self) -> usize
        ensures { result ≡ length (unfinished_message self.now) }
    {
        match self.state {
            FramerState::Hunting | FramerState::Whole => 0,
            FramerState::Head | FramerState::Body { .. } => self.kept.len(),
        }
    }

    /// The bytes kept: those of an unfinished message, or of the one that is just complete.
    pub fn bytes(&self) -> &[u8]
        ensures { result.now ≡ self.now }
    {
        self.kept.as_slice()
    }

    /// Returns the framer to its initial state.
    pub fn reset(&mut self)
        ensures { self.new ≡ [] }
    {
        self.kept.clear();
        self.state = FramerState::Hunting;
    }

    /// Uses the bytes of the chunk up to and including the first that completes something, or all
    /// of them.
    pub fn advance(&mut self, chunk: &[u8]) -> Advanced
        ensures within { result.used ≤ length chunk.now }
        ensures first { FirstEvent (unfinished_message self.old) chunk.now result.used
            (option_map (event_found_in self.new) result.found) }
        ensures held { unfinished_message self.new
            ≡ unfinished_message (unfinished_message self.old ++ take result.used chunk.now) }
        ensures whole { result.found ≡ Some Found.Message → IsWholeMessage self.new }
        ensures kept { result.found ≡ Some Found.Message →
            self.new ≡ unfinished_message self.old ++ take result.used chunk.now }
        ensures unfinished { 0 < result.used → result.found ≢ Some Found.Message →
            unfinished_message self.new ≡ self.new }
        ensures untouched { result.used ≡ 0 → self.new ≡ self.old }
        ensures progress { 0 < length chunk.now → 0 < result.used }
    {
        let mut used = 0;
        while used < chunk.len() {
            let prefix = self.take_prefix(&chunk[used..]);
            used += prefix.used;
            if prefix.found.is_some() {
                return Advanced {
                    used,
                    found: prefix.found,
                };
            }
        }
        Advanced { used, found: None }
    }

    /// The event of what was found, or `None` if a message was found and no whole message is kept.
    /// A message that `advance` has just found is kept until the next byte.
    #[inline(always)]
    pub fn event(&self, found: Found) -> Option<Event<'_>>
        ensures { MatchOption result
            ((found ≡ Found.Message) × ¬ (IsWholeMessage self.now))
            (λ event. (found ≡ Found.Message → IsWholeMessage self.now)
            × (event_content event ≡ event_found_in self.now found)) }
    {
        if let Found::Message = found {
            if let Some((square, piece)) = field_update(self.kept.as_slice()) {
                return Some(Event::Message(Message::Field { square, piece }));
            }
            return self.read_message();
        }
        // In one `match` with messages these cases would make a field update take 1.5 times as
        // long.
        match found {
            Found::Cut { have } => Some(Event::Cut { have }),
            Found::Stray(byte) => Some(Event::Stray(byte)),
            Found::BadLength | Found::Message => Some(Event::BadLength),
        }
    }

    // The event of the message kept, if it is whole. Not inlined: otherwise each field update is
    // copied through the space for an event.
    #[inline(never)]
    fn read_message(&self) -> Option<Event<'_>>
        ensures { MatchOption result (¬ (IsWholeMessage self.now))
            (λ event. IsWholeMessage self.now × (event_content event ≡ message_event self.now)) }
    {
        let FramerState::Whole = self.state else {
            return None;
        };
        match dump_position(self.kept.as_slice()) {
            Some(position) => Some(Event::Message(Message::Dump(position))),
            None => Some(whole_message(self.kept.as_slice())),
        }
    }

    // Uses the first bytes. Between messages it takes a stray byte or a whole field update at once.
    // After the first byte of a message it takes all up to a near byte that cuts it off. Otherwise
    // it takes a run.
    #[inline(always)]
    fn take_prefix(&mut self, rest: &[u8]) -> Advanced
        requires { 0 < length rest.now }
        ensures { FramesPrefix self.old rest.now result.used self.new result.found }
    {
        if !self.is_between() {
            if let Some(have) = self.take_cut(rest) {
                return Advanced {
                    used: have,
                    found: Some(Found::Cut { have }),
                };
            }
            return self.take_run(rest);
        }
        if rest[0] < TOP_BIT {
            self.reset();
            return Advanced {
                used: 1,
                found: Some(Found::Stray(rest[0])),
            };
        }
        if !begins_with_field(rest) {
            return self.take_run(rest);
        }
        self.kept.set_prefix(rest, FIELD);
        self.state = FramerState::Whole;
        Advanced {
            used: FIELD,
            found: Some(Found::Message),
        }
    }

    // If only the first byte of a message has come, takes all up to the byte that cuts it off, if
    // that is among the next few. Returns how many bytes the message had, and keeps the last byte.
    #[inline(always)]
    fn take_cut(&mut self, rest: &[u8]) -> Option<usize>
        ensures { MatchOption result (self.new ≡ self.old) (λ have.
            FramesPrefix self.old rest.now have self.new (Some (Found.Cut have))) }
    {
        if self.kept.len() != 1 || rest.len() < FEW {
            return None;
        }
        let run = first_top_of_few(rest);
        // A set top bit in the header makes its total larger than any such run.
        let total = 128 * usize::from(rest[0]) + usize::from(rest[1]);
        if run == FEW || total <= 1 + run {
            return None;
        }
        self.kept.clear();
        self.kept.push(rest[run]);
        self.state = FramerState::Head;
        Some(1 + run)
    }

    // Whether no message is unfinished.
    #[inline(always)]
    fn is_between(&self) -> bool
        ensures { result ≡ true → unfinished_message self.now ≡ [] }
    {
        matches!(self.state, FramerState::Hunting | FramerState::Whole)
    }

    // Takes the leading run if a message begins or many bytes of one are missing, and otherwise a
    // few bytes one by one.
    fn take_run(&mut self, rest: &[u8]) -> Advanced
        requires { 0 < length rest.now }
        ensures { FramesPrefix self.old rest.now result.used self.new result.found }
    {
        match self.state {
            FramerState::Body { left } if left >= MANY && rest[0] < TOP_BIT => {
                let used = append_run(&mut self.kept, left, rest);
                let (state, found) = after_byte(left - used);
                self.state = state;
                return Advanced { used, found };
            }
            FramerState::Hunting | FramerState::Whole => {
                if let Some(total) = first_total(rest) {
                    return self.take_beginning(total, rest);
                }
            }
            _ => {}
        }
        self.take_bytes(&rest[..rest.len().min(MANY)])
    }

    // Takes a message's header, and the run of its body after it, no more than a block.
    fn take_beginning(&mut self, total: usize, rest: &[u8]) -> Advanced
        requires closed { unfinished_message self.old ≡ [] }
        requires begins { Begins total rest.now }
        ensures { FramesPrefix self.old rest.now result.used self.new result.found }
    {
        let end = rest.len().min(total).min(BLOCK);
        let used = HEADER + first_top(&rest[HEADER..end]);
        self.kept.set_prefix(rest, used);
        let (state, found) = after_byte(total - used);
        self.state = state;
        Advanced { used, found }
    }

    // Uses bytes one by one, up to and including the first that completes something, or all of
    // them.
    fn take_bytes(&mut self, bytes: &[u8]) -> Advanced
        requires { 0 < length bytes.now }
        ensures { FramesPrefix self.old bytes.now result.used self.new result.found }
    {
        for (index, byte) in bytes.iter().enumerate() {
            if let Some(found) = self.take_byte(*byte) {
                return Advanced {
                    used: index + 1,
                    found: Some(found),
                };
            }
        }
        Advanced {
            used: bytes.len(),
            found: None,
        }
    }

    // A byte with a set top bit begins a message, and cuts off one that is unfinished.
    fn begin_message(&mut self, byte: u8) -> Option<Found>
        requires { TOP_BIT ≤ byte }
        ensures { Frames self.old (byte ∷ []) self.new result }
    {
        let have = self.unfinished_len();
        self.kept.clear();
        self.kept.push(byte);
        self.state = FramerState::Head;
        if have == 0 {
            None
        } else {
            Some(Found::Cut { have })
        }
    }

    fn take_byte(&mut self, byte: u8) -> Option<Found>
        ensures { Frames self.old (byte ∷ []) self.new result }
    {
        if byte >= TOP_BIT {
            return self.begin_message(byte);
        }
        match self.state {
            FramerState::Hunting | FramerState::Whole => {
                self.reset();
                Some(Found::Stray(byte))
            }
            FramerState::Head if self.kept.len() == 1 => {
                self.kept.push(byte);
                None
            }
            FramerState::Head => {
                let total = 128 * usize::from(self.kept.as_slice()[1]) + usize::from(byte);
                if total < HEADER {
                    self.reset();
                    return Some(Found::BadLength);
                }
                self.kept.push(byte);
                let (state, found) = after_byte(total - HEADER);
                self.state = state;
                found
            }
            FramerState::Body { left } => {
                self.kept.push(byte);
                let (state, found) = after_byte(left - 1);
                self.state = state;
                found
            }
        }
    }
}
