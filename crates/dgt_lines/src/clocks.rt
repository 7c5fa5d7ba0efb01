//! The text of a board's clock, and whether it has changed.

ghost use Rattle.std.specs.Prelude.{◌≡◌, ◌+◌, ◌*◌, ◌≤◌, ℕ, [], ◌++◌, codes, length, if◌then◌else◌};
ghost use Rattle.dgt_message.specs.Content.{clock_seen, status_code, time_seen, times_seen};
ghost use Rattle.dgt_message.specs.Clock.{ClockState};
ghost use Rattle.dgt_lines.specs.Clocks.{clock_text, flags_text, has_bit, low_text, running_text, shown_times, text_if, turn_text};
ghost use Rattle.dgt_lines.specs.Lines.{shown_time};
ghost use Rattle.dgt_lines.specs.Reports.{clock_known_at, clock_reports, shown_after};

use crate::gathering::Outgoing;
use dgt_message::{Clock, Reading, Status, Times};
use dgt_names::Flags;

/// Room for the text of a clock.
pub(crate) const CLOCK_ROOM: usize = 112;

/// The last text of a board's clock, if the clock is shown.
#[derive(Drop)]
pub enum ShownClock {
    /// The clock is not shown.
    Hidden,
    /// No message of the clock has arrived.
    Unknown,
    /// The text of the last one.
    Known(Outgoing<CLOCK_ROOM>),
}

impl ShownClock {
    // Takes the text of a clock message, and returns whether it is shown.
    pub(crate) fn hear(&mut self, clock: Clock) -> bool
        ensures state { self.new ≡ shown_after (clock_text (clock_seen clock)) self.old }
        ensures reports { (place : ℕ) → clock_reports place (clock_text (clock_seen clock)) self.old
            ≡ (if result then clock_known_at place self.new else []) }
    {
        if matches!(self, ShownClock::Hidden) {
            return false;
        }
        let text = form_clock(clock);
        let is_news = match self {
            ShownClock::Known(last) => last.bytes() != text.bytes(),
            _ => true,
        };
        *self = ShownClock::Known(text);
        is_news
    }
}

#[tactic(auto, unfolding(crate::specs::Clocks::clock_text))]
fn form_clock(clock: Clock) -> Outgoing<CLOCK_ROOM>
    ensures { result ≡ clock_text (clock_seen clock) }
{
    let mut text = Outgoing::new();
    match clock {
        Clock::Times(times) => push_times(&mut text, times),
        Clock::NoClock(_) => text.push(b"clock none"),
    }
    text
}

fn push_times(text: &mut Outgoing<CLOCK_ROOM>, times: Times)
    requires { length text.old + 112 ≤ CLOCK_ROOM }
    ensures { text.new ≡ text.old ++ clock_text (ClockState.times (times_seen times)) }
{
    push_shown(text, times);
    push_side(text, b" left", times.first());
    push_side(text, b" right", times.second());
}

// The times, whether they run, whose turn it is, and whether the battery is low.
fn push_shown(text: &mut Outgoing<CLOCK_ROOM>, times: Times)
    requires { length text.old + 39 ≤ CLOCK_ROOM }
    ensures text { text.new ≡ text.old ++ shown_times (times_seen times) }
    ensures len { length text.new ≤ length text.old + 39 }
{
    text.push(b"clock ");
    text.push(&time_text(times.first()));
    text.push(b" ");
    text.push(&time_text(times.second()));
    push_running(text, times.status());
    push_turn(text, times.status());
    push_low(text, times.status());
}

// A word for each flag of a time that is set.
fn push_side(text: &mut Outgoing<CLOCK_ROOM>, side: &[u8], reading: Reading)
    requires { length text.old + 3 * length side.now + 20 ≤ CLOCK_ROOM }
    ensures text { text.new ≡ text.old
        ++ flags_text side.now (codes "permove") (codes "fallen") (time_seen reading).flags }
    ensures len { length text.new ≤ length text.old + 3 * length side.now + 20 }
{
    push_flags(text, side, b"permove", b"fallen", reading.flags());
}

/// The hours, minutes and seconds of a reading.
pub(crate) fn time_text(reading: Reading) -> [u8; 7]
    ensures { result ≡ shown_time (time_seen reading) }
{
    let (minutes, seconds) = (reading.minutes(), reading.seconds());
    [
        b'0' + reading.hours(),
        b':',
        b'0' + minutes / 10,
        b'0' + minutes % 10,
        b':',
        b'0' + seconds / 10,
        b'0' + seconds % 10,
    ]
}

fn push_running(text: &mut Outgoing<CLOCK_ROOM>, status: Status)
    requires { length text.old + 8 ≤ CLOCK_ROOM }
    ensures bytes { text.new ≡ text.old ++ (codes " " ++ running_text (status_code status)) }
    ensures len { length text.new ≤ length text.old + 8 }
{
    if status.running() {
        text.push(b" running");
    } else {
        text.push(b" stopped");
    }
}

fn push_turn(text: &mut Outgoing<CLOCK_ROOM>, status: Status)
    requires { length text.old + 6 ≤ CLOCK_ROOM }
    ensures bytes { text.new ≡ text.old ++ (codes " " ++ turn_text
        (has_bit (status_code status) 3) (has_bit (status_code status) 4)) }
    ensures len { length text.new ≤ length text.old + 6 }
{
    match (status.black_turn(), status.white_turn()) {
        (true, false) => text.push(b" black"),
        (false, true) => text.push(b" white"),
        _ => text.push(b" -"),
    }
}

fn push_low(text: &mut Outgoing<CLOCK_ROOM>, status: Status)
    requires { length text.old + 4 ≤ CLOCK_ROOM }
    ensures bytes { text.new ≡ text.old ++ low_text (status_code status) }
    ensures len { length text.new ≤ length text.old + 4 }
{
    if status.battery_low() {
        text.push(b" low");
    }
}

/// Adds a word after the side for each of these flags of a time that is set.
pub(crate) fn push_flags<const ROOM: usize>(
    text: &mut Outgoing<ROOM>,
    side: &[u8],
    per_move: &[u8],
    fallen: &[u8],
    carried: u8,
)
    requires { length text.old + 3 * length side.now + length per_move.now
        + length fallen.now + 7 ≤ ROOM }
    ensures text { text.new ≡ text.old
        ++ flags_text side.now per_move.now fallen.now carried }
    ensures len { length text.new ≤ length text.old + 3 * length side.now
        + length per_move.now + length fallen.now + 7 }
{
    let flags = Flags::of(carried);
    push_if(text, flags.blocked, side, b"blocked");
    push_if(text, flags.per_move, side, per_move);
    push_if(text, flags.fallen, side, fallen);
}

/// Adds two words in a row, if the condition is true.
pub(crate) fn push_if<const ROOM: usize>(
    text: &mut Outgoing<ROOM>,
    is: bool,
    first: &[u8],
    second: &[u8],
)
    requires { length text.old + length first.now + length second.now ≤ ROOM }
    ensures text { text.new ≡ text.old ++ text_if is first.now second.now }
    ensures len { length text.new ≤ length text.old + length first.now + length second.now }
{
    if is {
        text.push(first);
        text.push(second);
    }
}
