//! What a board sends, in order.

ghost use Rattle.std.specs.Prelude.{◌≡◌, ◌↔◌, ◌≤◌, ◌<◌, ℕ, List, IfSome, Some, [], ◌∷◌, false, drop, filter, length, option_map, slice_get};
ghost use Rattle.dgt_values.specs.Bytes.{number};
ghost use Rattle.dgt_values.specs.Board.{square_number};
ghost use Rattle.dgt_message.specs.Content.{clock_message, Content, content};
ghost use Rattle.dgt_message.specs.Encoding.{encoding};
ghost use Rattle.dgt_board.specs.Sending.{after_sending, after_reporting, differs, every_square, left_to_send, next_message, reply_message, unreported_squares};
ghost use Rattle.dgt_board.specs.View.{Polls};
ghost use Rattle.dgt_board.specs.Kept.{WritesMessage, due_message};

use crate::modes::Mode;
use crate::replies::Reply;
use crate::state::{MAX_OWED, State};
use dgt_message::{Clock, ClockAck, KnownCode, Message, encode, encode_field};
use dgt_values::{Kind, NoRoom, SevenBit, Square};

/// The most bytes of a message that a board sends: the size of a dump.
pub const MAX_SENT: usize = 67;

/// What [`Board::poll`](crate::Board::poll) did.
#[derive(Clone, Copy, Debug, PartialEq, Eq)]
pub enum Polled {
    /// A message of this many bytes was written at the beginning of the slice.
    Wrote(usize),
    /// The next message needs this many bytes, more than the slice holds, so nothing was sent.
    NeedRoom(usize),
    /// There is nothing to send.
    Nothing,
}

/// What is to be sent next.
#[derive(Clone, Copy)]
pub enum Due {
    Reply(Reply),
    Field(Square),
    Times,
}

impl State {
    ghost use Rattle.dgt_board.specs.Kept.{state_of};

    // The first square that differs from what was reported.
    fn differing_square(&self) -> Option<Square>
        ensures { slice_get (filter (differs (state_of self.now)) every_square) 0
            ≡ option_map square_number result }
    {
        let differing = self.reported_squares.differ(&self.squares);
        if differing == 0 {
            return None;
        }
        Some(Square::from_small(differing.trailing_zeros() as u8))
    }

    // The first square that is yet to be reported in this mode.
    fn unreported_square(&self) -> Option<Square>
        ensures { slice_get (unreported_squares (state_of self.now)) 0
            ≡ option_map square_number result }
    {
        if self.mode != Mode::Idle {
            self.differing_square()
        } else {
            None
        }
    }

    /// What is to be sent next, if anything is.
    pub fn due(&self) -> Option<Due>
        ensures next { next_message (state_of self.now)
            ≡ option_map (due_message (state_of self.now)) result }
        ensures few_owed { length (state_of self.now).owed ≤ MAX_OWED }
    {
        if let Some(reply) = self.owed.as_slice().first() {
            return Some(Due::Reply(*reply));
        }
        if let Some(square) = self.unreported_square() {
            return Some(Due::Field(square));
        }
        if self.times_owed {
            Some(Due::Times)
        } else {
            None
        }
    }

    // Writes an owed reply at the beginning of the slice. Each message is encoded in the arm that
    // builds it: if the arms shared one call, each message would be copied at the size of a dump.
    fn write_reply(&self, reply: Reply, out: &mut [u8]) -> Result<usize, NoRoom>
        ensures { WritesMessage (reply_message (state_of self.now) reply) out.old out.new result }
    {
        let identity = &self.identity;
        match reply {
            Reply::Of(Kind::Dump) => self.write_dump(out),
            Reply::Of(Kind::Serial) => encode(&Message::Serial(identity.serial()), out),
            Reply::Of(Kind::Trademark) => encode(&Message::Trademark(identity.trademark()), out),
            Reply::Of(Kind::Version) => {
                let (main, sub) = (identity.main(), identity.sub());
                encode(&Message::Version { main, sub }, out)
            }
            Reply::Of(Kind::Battery) => encode(&Message::Battery(identity.battery()), out),
            Reply::Of(Kind::LongSerial) => encode(
                &Message::LongSerial(identity.long_serial()),
                out,
            ),
            Reply::Clock => self.write_clock(out),
            Reply::Ack { id, version } => {
                // success, the id, and the version of the clock if the id asks for it
                let (ack, status) = ([0x10, id, version, 0x00], SevenBit::from_small(0));
                encode(&Message::Ack(ClockAck { ack, status }), out)
            }
        }
    }

    // Writes a dump at the beginning of the slice, without building a message: that would copy the
    // 64 squares part by part, and read them again before these parts are in the cache.
    fn write_dump(&self, out: &mut [u8]) -> Result<usize, NoRoom>
        ensures { WritesMessage (Content.dump (state_of self.now).squares) out.old out.new result }
    {
        dgt_message::laws::encoding_encodes();
        if out.len() < MAX_SENT {
            return Err(NoRoom { need: MAX_SENT });
        }
        out[0] = 128 + KnownCode::Dump.number();
        out[1] = 0;
        out[2] = MAX_SENT as u8;
        out[3..MAX_SENT].copy_from_slice(&self.squares.codes());
        Ok(MAX_SENT)
    }

    // Writes the clock's reading at the beginning of the slice.
    fn write_clock(&self, out: &mut [u8]) -> Result<usize, NoRoom>
        ensures { WritesMessage (clock_message (state_of self.now).clock) out.old out.new result }
    {
        match self.clock {
            Clock::Times(times) => encode(&Message::Times(times), out),
            Clock::NoClock(absence) => encode(&Message::NoClock(absence), out),
        }
    }

    // Writes what is due at the beginning of the slice.
    fn write(&self, due: Due, out: &mut [u8]) -> Result<usize, NoRoom>
        ensures { WritesMessage (due_message (state_of self.now) due) out.old out.new result }
    {
        match due {
            Due::Reply(reply) => self.write_reply(reply, out),
            Due::Field(square) => encode_field(square, self.squares.get(square), out),
            Due::Times => self.write_clock(out),
        }
    }

    // Counts the clock as reported.
    fn note_clock(&mut self)
        ensures { state_of self.new ≡ record (state_of self.old) {
          reported_clock = Some (state_of self.old).clock;
          times_owed = false;
        } }
    {
        self.reported_clock = Some(self.clock);
        self.times_owed = false;
    }

    // Counts what a reply reports as reported.
    fn note_reply(&mut self, reply: Reply)
        ensures { state_of self.new
            ≡ after_reporting (state_of self.old) (reply_message (state_of self.old) reply) }
    {
        match reply {
            Reply::Of(Kind::Dump) => self.reported_squares = self.squares,
            Reply::Clock => self.note_clock(),
            _ => {}
        }
    }

    // Counts what was due as reported.
    fn note_reported(&mut self, due: Due)
        ensures { state_of self.new
            ≡ after_reporting (state_of self.old) (due_message (state_of self.old) due) }
    {
        match due {
            Due::Reply(reply) => self.note_reply(reply),
            Due::Field(square) => {
                let piece = self.squares.get(square);
                self.reported_squares.set(square, piece);
            }
            Due::Times => self.note_clock(),
        }
    }

    // Removes the first owed reply, if there is one.
    fn drop_reply(&mut self)
        ensures { state_of self.new
            ≡ record (state_of self.old) { owed = drop 1 (state_of self.old).owed } }
    {
        let _ = self.owed.pop_at(0);
    }

    /// Writes the next message at the beginning of the slice, and counts it as sent.
    pub fn send(&mut self, out: &mut [u8]) -> Polled
        ensures polls { (partial : List ℕ) → Polls result (next_message (state_of self.old))
            (record { state = state_of self.old; partial = partial })
            (record { state = state_of self.new; partial = partial }) out.old out.new }
        ensures short { IfSome (next_message (state_of self.old))
            (λ message. length (encoding message) ≤ MAX_SENT) }
        ensures falls { (count : ℕ) → result ≡ Polled.Wrote count
            → left_to_send (state_of self.new) < left_to_send (state_of self.old) }
        ensures room { (need : ℕ) → result ≡ Polled.NeedRoom need → length out.old < MAX_SENT }
        ensures few_owed { length (state_of self.old).owed ≤ MAX_OWED }
        ensures nothing { (result ≡ Polled.Nothing) ↔ (left_to_send (state_of self.old) ≡ 0) }
    {
        let Some(due) = self.due() else {
            return Polled::Nothing;
        };
        match self.write(due, out) {
            Ok(count) => {
                self.note_reported(due);
                self.drop_reply();
                Polled::Wrote(count)
            }
            Err(NoRoom { need }) => Polled::NeedRoom(need),
        }
    }
}
