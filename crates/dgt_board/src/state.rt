//! The state of a board, and what changes it.

ghost use Rattle.std.specs.Prelude.{◌≡◌, ◌<◌, ◌++◌, ◌&&◌, not, length};
ghost use Rattle.dgt_values.specs.Board.{pieces_of, square_number};
ghost use Rattle.dgt_message.specs.Content.{clock_seen};
ghost use Rattle.dgt_command.specs.Content.{clock_content, command_content, command_event_content};
ghost use Rattle.dgt_board.specs.Kept.{IsBare};
ghost use Rattle.dgt_board.specs.State.{IsShortClock, acknowledgements, after_change, after_command, after_hand_clock, after_line_lost, effect, follows_clock, is_reported, new_board};

use crate::identities::Identity;
use crate::modes::Mode;
use crate::replies::Reply;
use arrayvec::ArrayVec;
use dgt_command::{ClockCommand, Command, CommandEvent, KnownId, clock_id, kind_of_command};
use dgt_message::Clock;
use dgt_values::{Piece, Position, Square};

/// The most replies that a board owes.
pub const MAX_OWED: usize = 8;

// No reading of the clock makes a message longer than a dump.
pub(crate) fn is_short_clock(clock: &Clock)
    ensures { IsShortClock (clock_seen clock.now) }
{
    if let Clock::NoClock(absence) = clock {
        absence.raw();
    }
}

/// All that a board keeps except the bytes of an unfinished command.
#[derive(Drop)]
pub struct State {
    pub squares: Position,
    pub clock: Clock,
    pub mode: Mode,
    /// The squares as last reported.
    pub reported_squares: Position,
    /// The clock as last reported.
    pub reported_clock: Option<Clock>,
    /// Whether the clock is to be sent.
    pub times_owed: bool,
    /// The replies that were requested and not yet sent, the oldest first.
    pub owed: ArrayVec<Reply, MAX_OWED>,
    pub identity: Identity,
}

impl State {
    ghost use Rattle.dgt_board.specs.Kept.{state_of};

    /// A new board, which has reported its squares.
    pub fn new(position: Position, clock: Clock, identity: Identity) -> Self
        ensures { state_of result ≡ new_board (pieces_of position) (clock_seen clock) identity }
    {
        State {
            squares: position,
            clock,
            mode: Mode::Idle,
            reported_squares: position,
            reported_clock: None,
            times_owed: false,
            owed: ArrayVec::new(),
            identity,
        }
    }

    /// Puts a piece on a square, or removes one.
    pub fn change(&mut self, square: Square, piece: Piece)
        ensures { state_of self.new
            ≡ after_change (state_of self.old) (square_number square) piece }
    {
        self.squares.set(square, piece);
    }

    // Whether a clock's reading differs from what was last reported.
    fn is_news(&self, clock: Clock) -> bool
        ensures { result ≡ not (is_reported (state_of self.now).reported_clock (clock_seen clock)) }
    {
        self.reported_clock != Some(clock)
    }

    /// Sets what the clock shows.
    pub fn hand_clock(&mut self, clock: Clock)
        ensures { state_of self.new ≡ after_hand_clock (state_of self.old) (clock_seen clock) }
    {
        self.times_owed = match self.mode {
            Mode::Idle | Mode::UpdateBoard => false,
            Mode::Update => true,
            Mode::UpdateNice => self.is_news(clock),
        };
        self.clock = clock;
    }

    /// Loses the line: forgets all requests, and counts the squares as reported.
    pub fn line_lost(&mut self)
        ensures { state_of self.new ≡ after_line_lost (state_of self.old) }
    {
        self.mode = Mode::Idle;
        self.reported_squares = self.squares;
        self.reported_clock = None;
        self.times_owed = false;
        self.owed.clear();
    }

    /// Applies the effect of an event; a fault changes nothing.
    pub fn obey(&mut self, event: &CommandEvent<'_>)
        requires { length self.old.owed.items < MAX_OWED }
        ensures { state_of self.new ≡ effect (state_of self.old) (command_event_content event.now) }
    {
        match event {
            CommandEvent::Command(Command::ClockMessage(message)) => self.acknowledge(message),
            CommandEvent::Command(command) => self.obey_bare(command),
            _ => {}
        }
    }

    /// Applies the effect of a command that isn't a clock message. Inlined, so that the command
    /// needn't be in memory.
    #[inline(always)]
    pub fn obey_bare(&mut self, command: &Command<'_>)
        requires room { length self.old.owed.items < MAX_OWED }
        requires bare { IsBare (command_content command.now) }
        ensures { state_of self.new
            ≡ after_command (state_of self.old) (command_content command.now) }
    {
        match command {
            Command::Reset => self.enter(Mode::Idle),
            Command::Update => self.enter(Mode::Update),
            Command::UpdateBoard => self.enter(Mode::UpdateBoard),
            Command::UpdateNice => self.enter(Mode::UpdateNice),
            Command::Clock => self.owed.push(Reply::Clock),
            _ => {
                if let Some(kind) = kind_of_command(command) {
                    self.owed.push(Reply::Of(kind));
                }
            }
        }
    }

    // In a mode that follows the clock, the clock is to be sent if it differs from what was
    // reported, whatever was to be sent before.
    fn enter(&mut self, mode: Mode)
        ensures { state_of self.new ≡ record (state_of self.old) {
          mode = mode;
          times_owed = let before = state_of self.old in
              follows_clock mode && not (is_reported before.reported_clock before.clock);
        } }
    {
        self.mode = mode;
        self.times_owed = match mode {
            Mode::Idle | Mode::UpdateBoard => false,
            Mode::Update | Mode::UpdateNice => self.is_news(self.clock),
        };
    }

    // A board without a clock acknowledges nothing.
    fn acknowledge(&mut self, message: &ClockCommand<'_>)
        requires { length self.old.owed.items < MAX_OWED }
        ensures { state_of self.new ≡ record (state_of self.old) {
          owed = (state_of self.old).owed
              ++ acknowledgements (clock_seen self.old.clock) self.old.identity
              (clock_content message.now);
        } }
    {
        if let Clock::Times(_) = self.clock {
            let id = clock_id(message);
            let version = if id == KnownId::Version.number() {
                self.identity.clock_version()
            } else {
                0
            };
            self.owed.push(Reply::Ack { id, version });
        }
    }
}
