//! What a pace records of one event.

ghost use Rattle.std.specs.Prelude.{◌≡◌, ◌↔◌, Option, is_some, if◌then◌else◌, ◌&&◌, ◌||◌, not, List, Some, IsTrue};
ghost use Rattle.dgt_values.specs.declared.kinds.Kind.{Kind};
ghost use Rattle.dgt_values.specs.declared.pieces.Piece.{Piece};
ghost use Rattle.dgt_message.specs.Content.{time_seen, times_seen};
ghost use Rattle.dgt_decode.specs.Feeding.{event_content};
ghost use Rattle.dgt_host.specs.Confirmed.{changes_by};
ghost use Rattle.dgt_host.specs.Host.{IsUnasked};
ghost use Rattle.dgt_follow.specs.Pace.{confirmed_by, disturbs, heard_at, is_answer, is_blank as blank_times, is_zero as zero_time, serial_by, unreadable_by};

use dgt_host::{Event, Message};
use dgt_message::{BodyFault, Reading, Times, serial_bytes};

/// What a host reported of an event: whether it was an unasked message, whether it changed a known
/// picture, and whether a picture was known before it.
#[derive(Clone, Copy, Debug)]
pub(crate) struct Seen {
    pub(crate) unasked: bool,
    pub(crate) changed: bool,
    pub(crate) known: bool,
}

/// Whether an event is one that a sound line and board don't send. `pardons` says whether unasked
/// messages are allowed.
pub(crate) fn is_disturbance(event: &Event<'_>, seen: Seen, pardons: bool) -> bool
    ensures { (awaited : List Kind) (picture : Option (List Piece)) →
        (IsTrue seen.unasked ↔ IsUnasked awaited (Some (event_content event.now))) →
        seen.changed ≡ changes_by picture (Some (event_content event.now)) →
        result ≡ disturbs pardons awaited picture (event_content event.now) }
{
    match event {
        Event::Message(Message::Dump(_)) => seen.unasked && !pardons || seen.changed,
        Event::Message(_) => seen.unasked && !pardons,
        Event::Refused {
            fault: BodyFault::BadReading { .. },
            ..
        } => false,
        _ => true,
    }
}

/// Whether the picture is confirmed after an event, given whether it was before. `settling` says
/// whether no dump was heard since the last new start.
pub(crate) fn is_confirmed(confirmed: bool, settling: bool, event: &Event<'_>, seen: Seen) -> bool
    ensures { (awaited : List Kind) (picture : Option (List Piece)) →
        (IsTrue seen.unasked ↔ IsUnasked awaited (Some (event_content event.now))) →
        seen.changed ≡ changes_by picture (Some (event_content event.now)) →
        seen.known ≡ is_some picture →
        result ≡ confirmed_by confirmed settling awaited picture (event_content event.now) }
{
    match event {
        Event::Message(Message::Dump(_)) => {
            !seen.unasked && seen.known && !seen.changed && (confirmed || !settling)
        }
        Event::Message(_) => !seen.unasked && confirmed && !seen.changed,
        Event::Refused {
            fault: BodyFault::BadReading { .. },
            ..
        } => confirmed,
        _ => false,
    }
}

/// When the picture last changed, after an event.
pub(crate) fn last_changed(before: Option<u64>, now: u64, changed: bool) -> Option<u64>
    ensures { result ≡ (if changed then Some now else before) }
{
    if changed { Some(now) } else { before }
}

/// Whether an event is an awaited dump.
pub(crate) fn is_awaited_dump(event: &Event<'_>, unasked: bool) -> bool
    ensures { (awaited : List Kind) →
        (IsTrue unasked ↔ IsUnasked awaited (Some (event_content event.now))) →
        result ≡ is_answer awaited (event_content event.now) }
{
    match event {
        Event::Message(Message::Dump(_)) => !unasked,
        _ => false,
    }
}

pub(crate) fn either(first: bool, second: bool) -> bool
    ensures { result ≡ (first || second) }
{
    first || second
}

pub(crate) fn unless(first: bool, second: bool) -> bool
    ensures { result ≡ (first && not second) }
{
    first && !second
}

/// The time of the last whole message after an event.
pub(crate) fn last_heard(before: Option<u64>, now: u64, event: &Event<'_>) -> Option<u64>
    ensures { result ≡ heard_at before now (event_content event.now) }
{
    match event {
        Event::Message(_) => Some(now),
        _ => before,
    }
}

/// The serial number that was last reported, after an event.
pub(crate) fn last_serial(before: Option<[u8; 5]>, event: &Event<'_>) -> Option<[u8; 5]>
    ensures { result ≡ serial_by before (event_content event.now) }
{
    match event {
        Event::Message(Message::Serial(digits)) => Some(serial_bytes(digits)),
        _ => before,
    }
}

fn is_zero(time: Reading) -> bool
    ensures { result ≡ zero_time (time_seen time) }
{
    time.hours() == 0 && time.minutes() == 0 && time.seconds() == 0 && time.flags() == 0
}

// Whether a report of the clock is all zeros.
fn is_blank(times: Times) -> bool
    ensures { result ≡ blank_times (times_seen times) }
{
    let status = times.status().code().get();
    is_zero(times.first()) && is_zero(times.second()) && status == 0
}

/// Whether the last report of the clock contained no reading, after an event.
pub(crate) fn is_unreadable(before: bool, event: &Event<'_>) -> bool
    ensures { result ≡ unreadable_by before (event_content event.now) }
{
    match event {
        Event::Message(Message::Times(times)) => is_blank(*times),
        Event::Message(Message::NoClock(_)) => false,
        Event::Refused {
            fault: BodyFault::BadReading { .. },
            ..
        } => true,
        _ => before,
    }
}
