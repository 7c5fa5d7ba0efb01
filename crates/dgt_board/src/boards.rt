ghost use Rattle.std.specs.Prelude.{◌≡◌, ◌↔◌, ◌≤◌, ◌<◌, ◌+◌, ◌++◌, ℕ, IsTrue, IsSome, IsErr, IfOk, IfSome, IfNone, MatchResult, length, option_map, take};
ghost use Rattle.std.specs.Borrow.{sem};
ghost use Rattle.std.specs.Io.BufRead.{Rests};
ghost use Rattle.dgt_values.specs.Board.{pieces_of, square_number};
ghost use Rattle.dgt_message.specs.Content.{clock_seen};
ghost use Rattle.dgt_message.specs.Encoding.{encoding};
ghost use Rattle.dgt_command.specs.Content.{command_event_content};
ghost use Rattle.dgt_command.specs.Words.{IsPartial, IsWord};
ghost use Rattle.dgt_board.specs.State.{IsShortClock, IsShortIdentity, after_change, after_hand_clock};
ghost use Rattle.dgt_board.specs.Sending.{left_to_send, next_message};
ghost use Rattle.dgt_board.specs.View.{HasTaken, IsBoard, Polls, after_bytes, new_view, view_after_line_lost};

use crate::identities::Identity;
use crate::modes::Mode;
use crate::sending::{MAX_SENT, Polled};
use crate::state::{MAX_OWED, State, is_short_clock};
use dgt_command::{CommandEvent, MAX_WORD, WordFramer};
use dgt_message::Clock;
use dgt_values::{Piece, Position, Square};
use std::marker::Model;
use thiserror::Error;

/// The board owes `MAX_OWED` replies, and takes no bytes until it has sent one of them.
#[derive(Clone, Copy, Debug, PartialEq, Eq, Error)]
#[error("the board owes {MAX_OWED} replies: poll it first")]
pub struct Busy;

/// How many bytes of a chunk were used, and what the last of them completed.
#[derive(Clone, Copy, Debug, PartialEq, Eq)]
pub struct Taken<'a> {
    pub used: usize,
    pub event: Option<CommandEvent<'a>>,
}

/// A simulated board.
///
/// Contracts see all that it keeps, and the bytes of an unfinished command.
#[derive(Drop)]
pub struct Board {
    framer: WordFramer,
    state: State,
}

impl Model for Board {
    ghost use Rattle.dgt_command.specs.Framing.{rest_of};
    ghost use Rattle.dgt_command.specs.Words.{IsPartial};
    ghost use Rattle.dgt_board.specs.Kept.{state_of};
    ghost use Rattle.dgt_board.specs.View.{BoardView};

    ghost Value = { BoardView };

    ghost view = { λ board. record {
      state = state_of board.state;
      partial = rest_of board.framer;
    } };

    ghost invariant = { λ board. IsPartial (rest_of board.framer) };
}

impl Board {
    ghost use Rattle.dgt_board.specs.contracts.boards.Board.{the_row};

    /// A board with these pieces, this clock and this identity. It is idle, has reported its pieces
    /// but not its clock, and owes nothing.
    pub fn new(position: Position, clock: Clock, identity: Identity) -> Self
        ensures { result ≡ new_view (pieces_of position) (clock_seen clock) identity }
    {
        Board {
            framer: WordFramer::new(),
            state: State::new(position, clock, identity),
        }
    }

    /// Puts a piece on a square, or removes one with `Empty`. In a mode with updates, now or later,
    /// the square is sent as long as it differs from what was last reported of it.
    pub fn change(&mut self, square: Square, piece: Piece)
        ensures { self.new ≡
            record self.old { state = after_change self.old.state (square_number square) piece } }
    {
        self.state.change(square, piece);
    }

    /// Sets what the clock shows. `Update` then always sends it, and `UpdateNice` only if it
    /// differs from what was last reported. The other modes don't send it, and a reading that was
    /// to be sent is dropped.
    pub fn hand_clock(&mut self, clock: Clock)
        ensures { self.new ≡
            record self.old { state = after_hand_clock self.old.state (clock_seen clock) } }
    {
        self.state.hand_clock(clock);
    }

    /// Simulates a lost line: bytes under way to the host are lost. The board keeps its squares,
    /// its clock and its identity. Otherwise it is as new: it is idle, its squares count as
    /// reported and its clock does not, it owes nothing, and it holds no byte of an unfinished
    /// command.
    ///
    /// A change made before is therefore never sent as a field update. Only a dump reports it,
    /// which a host requests when it starts over.
    pub fn line_lost(&mut self)
        ensures { self.new ≡ view_after_line_lost self.old }
    {
        dgt_command::laws::parts_of_words();
        self.framer.reset();
        self.state.line_lost();
    }

    /// Uses the bytes up to and including the first that completes a command or a fault, or the
    /// whole chunk if none does. A command that was read takes effect; a fault has no effect.
    ///
    /// Returns `Busy` if `MAX_OWED` replies are owed, whatever the chunk is. Then nothing changes.
    pub fn take(&mut self, chunk: &[u8]) -> Result<Taken<'_>, Busy>
        ensures* after_borrow { sem 𝓛 (Rests the_row self.entry (λ new. MatchResult result
            (λ taken. let bytes = take taken.used chunk.now in
            (new ≡ after_bytes self.old bytes (option_map command_event_content taken.event))
            × HasTaken self.old bytes new)
            (λ _. new ≡ self.old))) }
        ensures busy { IsErr result ↔ (length self.old.state.owed ≡ MAX_OWED) }
        ensures within { IfOk result (λ taken. taken.used ≤ length chunk.now) }
        ensures progress { IfOk result (λ taken. 0 < length chunk.now → 0 < taken.used) }
        ensures event { IfOk result (λ taken. IfSome taken.event (λ event.
            IsWord (command_event_content event) (self.old.partial ++ take taken.used chunk.now))) }
        ensures none { IfOk result (λ taken. IfNone taken.event (
            (taken.used ≡ length chunk.now) × IsPartial (self.old.partial ++ chunk.now))) }
    {
        dgt_command::laws::parts_of_words();
        if self.state.owed.is_full() {
            return Err(Busy);
        }
        if let Some(command) = self.framer.front_command(chunk) {
            self.state.obey_bare(&command);
            let event = Some(CommandEvent::Command(command));
            return Ok(Taken { used: 1, event });
        }
        let advanced = self.framer.advance(chunk);
        let used = advanced.used;
        let Some(found) = advanced.found else {
            return Ok(Taken { used, event: None });
        };
        let event = self.framer.event(found).unwrap();
        self.state.obey(&event);
        Ok(Taken {
            used,
            event: Some(event),
        })
    }

    /// Writes the next message at the beginning of the slice, and counts it as sent. The bytes
    /// after it stay as they were. If the slice is too short, nothing is written and nothing is
    /// sent. No message is longer than `MAX_SENT` bytes.
    pub fn poll(&mut self, out: &mut [u8]) -> Polled
        ensures polls { Polls result (next_message self.old.state)
            self.old self.new out.old out.new }
        ensures short { IfSome (next_message self.old.state)
            (λ message. length (encoding message) ≤ MAX_SENT) }
        ensures falls { (count : ℕ) → result ≡ Polled.Wrote count
            → left_to_send self.new.state < left_to_send self.old.state }
        ensures nothing { (result ≡ Polled.Nothing) ↔ (left_to_send self.old.state ≡ 0) }
        ensures bound { left_to_send self.old.state ≤ length self.old.state.owed + 65 }
        ensures room { (need : ℕ) → result ≡ Polled.NeedRoom need → length out.old < MAX_SENT }
        ensures board { IsBoard self.old }
    {
        self.state.send(out)
    }

    /// Whether there is anything to send: a reply, a square that the mode reports, or the clock.
    pub fn owes(&self) -> bool
        ensures { IsTrue result ↔ IsSome (next_message self.now.state) }
    {
        self.state.due().is_some()
    }

    /// How many replies are owed.
    pub fn owed_len(&self) -> usize
        ensures length { result ≡ length self.now.state.owed }
        ensures limit { result ≤ MAX_OWED }
        ensures board { IsBoard self.now }
    {
        self.state.owed.len()
    }

    /// Does nothing at run time. Its contract states that no message that reports the identity or
    /// the clock is longer than a dump.
    pub fn reports_are_short(&self)
        ensures identity { IsShortIdentity self.now.state.identity }
        ensures clock { IsShortClock self.now.state.clock }
    {
        self.state.identity.is_short();
        is_short_clock(&self.state.clock);
    }

    /// How many bytes of an unfinished command are held.
    pub fn partial(&self) -> usize
        ensures length { result ≡ length self.now.partial }
        ensures part_of_a_word { IsPartial self.now.partial }
        ensures limit { result < MAX_WORD }
    {
        self.framer.partial()
    }

    /// Which changes the board reports by itself.
    pub fn mode(&self) -> Mode
        ensures { result ≡ self.now.state.mode }
    {
        self.state.mode
    }

    /// The pieces on the 64 squares.
    pub fn position(&self) -> &Position
        ensures { pieces_of result.now ≡ self.now.state.squares }
    {
        &self.state.squares
    }

    /// What the clock shows.
    pub fn clock(&self) -> &Clock
        ensures { clock_seen result.now ≡ self.now.state.clock }
    {
        &self.state.clock
    }
}
