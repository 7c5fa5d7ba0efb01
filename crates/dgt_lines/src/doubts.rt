//! The picture of a board, whether it is in doubt, and the clock that was shown.

ghost use Rattle.std.specs.Prelude.{◌≡◌, ℕ, [], ◌∷◌, if◌then◌else◌};
ghost use Rattle.dgt_message.specs.Content.{clock_seen, content};
ghost use Rattle.dgt_lines.specs.Clocks.{clock_text};
ghost use Rattle.dgt_lines.specs.Reports.{Doubts, clock_reports, doubt_cleared, fault_reports, message_reports, new_state, news_at, shown_after, state_after_fault, state_after_message};

use crate::clocks::ShownClock;
use crate::pictures::Picture;
use dgt_message::{Clock, Message};

/// Whether a picture is in doubt, because a message that sets it may have been lost.
#[derive(Clone, Copy)]
pub enum Doubt {
    /// Faults raise no doubt.
    Ignored,
    /// No doubt was raised since the last dump.
    Clear,
    /// A doubt was raised since the last dump.
    Raised,
}

impl Doubt {
    // A dump ends a doubt.
    fn cleared(self) -> Self
        ensures { result ≡ doubt_cleared self }
    {
        match self {
            Doubt::Raised => Doubt::Clear,
            other => other,
        }
    }
}

/// Which lines [`picture`](crate::picture) writes in addition to placements.
#[derive(Clone, Copy)]
pub struct Shown {
    /// A line if the picture may be wrong: the offset, a space, the word `doubt` and a line feed.
    ///
    /// It is printed for the first fault after each dump. A fault is an event other than a message,
    /// and may be all that is left of one. The next dump ends the doubt. A clock message that is
    /// refused for a digit doesn't count as a fault: it is whole, and clocks send it while they are
    /// being set.
    pub doubts: bool,

    /// A line for the board's clock when it changes.
    ///
    /// The line consists of the offset and these words, with a space before each:
    ///
    /// - `clock`, the left and the right time, such as `1:30:00`, and `running` or `stopped`.
    /// - Whose turn it is: `white`, `black`, or `-` if the clock reports neither or both.
    /// - `low` if the clock's battery is low.
    /// - A word for each flag that is set: `leftblocked`, `leftpermove`, `leftfallen`,
    ///   `rightblocked`, `rightpermove` and `rightfallen`. Their meaning is known only from other
    ///   programs.
    ///
    /// The words are `clock none` if no clock is connected. A clock message prints a line if its
    /// words differ from those of the last clock message, or if it is the first one.
    pub clock: bool,
}

/// Which line is printed for a message.
#[derive(Clone, Copy)]
pub(crate) enum News {
    /// None.
    Nothing,
    /// A line of the picture, if that is known.
    Picture,
    /// A line of the clock.
    Clock,
}

/// The picture of a board, whether it is in doubt, and the last text of the clock. The picture is
/// unknown before the first dump.
#[derive(Drop)]
pub struct PictureState {
    pub picture: Option<Picture>,
    pub doubt: Doubt,
    pub clock: ShownClock,
}

impl PictureState {
    /// Nothing is known yet.
    pub fn new(shown: Shown) -> Self
        ensures { result ≡ new_state shown.doubts shown.clock }
    {
        PictureState {
            picture: None,
            doubt: if shown.doubts {
                Doubt::Clear
            } else {
                Doubt::Ignored
            },
            clock: if shown.clock {
                ShownClock::Unknown
            } else {
                ShownClock::Hidden
            },
        }
    }

    /// Updates the state by a message, and returns which line is printed for it.
    pub(crate) fn hear(&mut self, message: &Message<'_>) -> News
        ensures state { self.new ≡ state_after_message self.old (content message.now) }
        ensures reports { (place : ℕ) → message_reports place (content message.now) self.old
            ≡ news_at place result self.new }
    {
        match message {
            Message::Dump(position) => {
                self.picture = Some(Picture::new(position));
                self.doubt = self.doubt.cleared();
                News::Picture
            }
            Message::Field { square, piece } => {
                if let Some(known) = &mut self.picture {
                    known.set(*square, *piece);
                }
                News::Picture
            }
            Message::Times(times) => self.hear_clock(Clock::Times(*times)),
            Message::NoClock(absence) => self.hear_clock(Clock::NoClock(*absence)),
            _ => News::Nothing,
        }
    }

    // The clock that a message reports.
    fn hear_clock(&mut self, clock: Clock) -> News
        ensures state { self.new ≡ record self.old {
          clock = shown_after (clock_text (clock_seen clock)) self.old.clock;
        } }
        ensures reports { (place : ℕ) →
            clock_reports place (clock_text (clock_seen clock)) self.old.clock
            ≡ news_at place result self.new }
    {
        if self.clock.hear(clock) {
            News::Clock
        } else {
            News::Nothing
        }
    }

    /// Raises a doubt about a known picture, after a fault. Returns whether the doubt is new.
    #[inline(always)]
    pub(crate) fn raise(&mut self) -> bool
        ensures state { self.new ≡ state_after_fault self.old }
        ensures reports { (place : ℕ) →
            fault_reports place self.old ≡ (if result then Doubts place ∷ [] else []) }
    {
        let raised = self.picture.is_some() && matches!(self.doubt, Doubt::Clear);
        if raised {
            self.doubt = Doubt::Raised;
        }
        raised
    }
}
