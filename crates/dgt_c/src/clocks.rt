//! Clocks as structs of C, in both directions.

ghost use Rattle.std.specs.Prelude.{◌≡◌, ◌≤◌, ◌<◌, MatchOption};
ghost use Rattle.dgt_message.specs.Clock.{AreTimes, ClockState, IsAbsence, IsTime};
ghost use Rattle.dgt_message.specs.Content.{absence_seen, clock_seen, status_code, time_seen, times_seen};
ghost use Rattle.dgt_c.specs.Clocks.{SaysClock, absence_said, clock_reported, time_said, time_reported, times_said};

use crate::checking::read_seven_bits;
use crate::header::{CLOCK_NONE, CLOCK_TIMES, DgtClock, DgtTime, NO_TIME};
use dgt_message::{Clock, NoClock, Reading, Status, Times};
use dgt_values::SevenBit;

/// The time of one player, as a struct.
pub(crate) fn time_for_c(reading: Reading) -> DgtTime
    ensures { result ≡ time_reported (time_seen reading) }
{
    DgtTime {
        hours: reading.hours(),
        minutes: reading.minutes(),
        seconds: reading.seconds(),
        flags: reading.flags(),
    }
}

/// The times of both players, as a struct.
pub(crate) fn times_reported(times: Times) -> DgtClock
    ensures { result ≡ clock_reported (ClockState.times (times_seen times)) }
{
    DgtClock {
        kind: CLOCK_TIMES,
        status: times.status().code().get(),
        raw: [0; 6],
        first: time_for_c(times.first()),
        second: time_for_c(times.second()),
    }
}

/// The absence of a clock, as a struct.
pub(crate) fn absence_reported(absence: NoClock) -> DgtClock
    ensures { result ≡ clock_reported (ClockState.no_clock (absence_seen absence)) }
{
    let [a, b, c, d, e, f] = absence.raw();
    DgtClock {
        kind: CLOCK_NONE,
        status: absence.status().code().get(),
        raw: [a.get(), b.get(), c.get(), d.get(), e.get(), f.get()],
        first: NO_TIME,
        second: NO_TIME,
    }
}

/// A clock, as a struct.
pub(crate) fn clock_for_c(clock: &Clock) -> DgtClock
    ensures { result ≡ clock_reported (clock_seen clock.now) }
{
    match clock {
        Clock::Times(times) => times_reported(*times),
        Clock::NoClock(absence) => absence_reported(*absence),
    }
}

fn read_time(time: DgtTime) -> Option<Reading>
    ensures { MatchOption result (¬ (IsTime (time_said time)))
        (λ reading. (time_seen reading ≡ time_said time) × IsTime (time_said time)) }
{
    Reading::new(time.hours, time.minutes, time.seconds, time.flags).ok()
}

fn read_status(status: u8) -> Option<Status>
    ensures { MatchOption result (128 ≤ status)
        (λ read. (status_code read ≡ status) × (status < 128)) }
{
    let code = SevenBit::try_from(status).ok()?;
    Some(Status::new(code))
}

// The times in the struct, if they are valid.
fn read_times(clock: &DgtClock) -> Option<Times>
    ensures { let times = times_said clock.now in MatchOption result (¬ (AreTimes times))
        (λ read. (times_seen read ≡ times) × AreTimes times) }
{
    let first = read_time(clock.first)?;
    let second = read_time(clock.second)?;
    let status = read_status(clock.status)?;
    Times::new(first, second, status).ok()
}

// The report of a board without a clock, if the struct contains one.
fn read_absence(clock: &DgtClock) -> Option<NoClock>
    ensures { let absence = absence_said clock.now in MatchOption result (¬ (IsAbsence absence))
        (λ read. (absence_seen read ≡ absence) × IsAbsence absence) }
{
    let raw = read_seven_bits(&clock.raw)?;
    let status = read_status(clock.status)?;
    NoClock::new(raw, status).ok()
}

/// The clock in the struct, if it is valid.
pub(crate) fn read_clock(clock: &DgtClock) -> Option<Clock>
    ensures { MatchOption result ((shown : ClockState) → ¬ (SaysClock clock.now shown))
        (λ read. SaysClock clock.now (clock_seen read)) }
{
    match clock.kind {
        CLOCK_TIMES => Some(Clock::Times(read_times(clock)?)),
        CLOCK_NONE => Some(Clock::NoClock(read_absence(clock)?)),
        _ => None,
    }
}
