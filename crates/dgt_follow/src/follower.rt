ghost use Rattle.std.specs.Prelude.{◌≡◌, ◌↔◌, ◌<◌, ◌≤◌, ℕ, ◌+◌, List, ◌++◌, OnOk, Option, None, Some, false, drop, if◌then◌else◌, length, option_map, take, true, IsTrue};
ghost use Rattle.std.specs.List.{FoldsTo};
ghost use Rattle.dgt_values.specs.Board.{pieces_of};
ghost use Rattle.dgt_values.specs.declared.kinds.Kind.{Kind};
ghost use Rattle.dgt_message.specs.Content.{clock_seen};
ghost use Rattle.dgt_command.specs.Content.{command_content, requested_kind};
ghost use Rattle.dgt_command.specs.Encoding.{EncodesCommand, command_encoding};
ghost use Rattle.dgt_decode.specs.Grammar.{Event as EventSaid};
ghost use Rattle.dgt_decode.specs.Feeding.{FirstEvent, at_place_if_any, event_content_if_any};
ghost use Rattle.dgt_host.specs.Host.{IsUnasked, Sends, awaits_too_many, new_host};
ghost use Rattle.dgt_follow.specs.Pace.{clock_request, forgetting, next_due, pace_disturbed, sent_bytes};
ghost use Rattle.dgt_follow.specs.Follower.{Asks, HostAsks, asking_of, clock_known, follower_after, following, new_follower};

use crate::asking::{Asking, UpdateMode};
use crate::notes::Seen;
use crate::pace::Pace;
use dgt_command::{Command, length};
use dgt_decode::Listener;
use dgt_host::{Clock, Event, Host, MAX_AWAITED, Position, RESTART_LENGTH, SendFault};
use dgt_values::NoRoom;
use std::marker::Model;

// The size of a heartbeat without a request of the clock.
const HEARTBEAT_LENGTH: usize = 2;

// The size of a new start without a request of the clock.
const ANEW_LENGTH: usize = RESTART_LENGTH + 1;

// The command that requests a reading of the clock.
const CLOCK_REQUEST: u8 = 0x41;

/// The most bytes that a follower writes at once: a host's restart, the mode's command and a
/// request of the clock.
pub const MAX_ASKING: usize = RESTART_LENGTH + 2;

/// What a follower heard in a chunk.
#[derive(Clone, Copy, Debug, PartialEq, Eq)]
pub struct Followed {
    /// How many bytes of the chunk were used.
    pub used: usize,
    /// Whether the event is a message of a kind that isn't the first awaited, as
    /// [`Heard::unasked`](dgt_host::Heard) says.
    pub unasked: bool,
}

/// A host that requests the whole board again and again. See the [crate's page](crate).
#[derive(Drop)]
pub struct Follower {
    host: Host,
    pace: Pace,
}

impl Model for Follower {
    ghost use Rattle.dgt_follow.specs.Follower.{FollowerView};

    ghost Value = { FollowerView };

    ghost view = { λ follower. record { host = follower.host; pace = follower.pace } };
}

// Appends a request of the clock to the bytes written into the slice, if the mode reports the
// clock. Returns the new number of bytes.
fn request_clock(mode: UpdateMode, written: usize, out: &mut [u8]) -> usize
    requires { written + length (clock_request mode) ≤ length out.old }
    ensures count { result ≡ written + length (clock_request mode) }
    ensures follows { (bytes old : List ℕ) → length bytes ≡ written →
        out.old ≡ bytes ++ drop written old →
        out.new ≡ (bytes ++ clock_request mode) ++ drop result old }
{
    if mode.reports_clock() {
        out[written] = CLOCK_REQUEST;
        written + 1
    } else {
        written
    }
}

// Writes a heartbeat: the bytes of a host's `follow` with this mode's command, and the request of
// the clock.
fn heartbeat(host: &mut Host, mode: UpdateMode, out: &mut [u8]) -> Result<usize, NoRoom>
    requires { awaits_too_many host.old (Some Kind.Dump) ≡ false }
    ensures { HostAsks Asking.Heartbeat mode host.old host.new out.old out.new result }
{
    let need = HEARTBEAT_LENGTH + mode.request_length();
    if out.len() < need {
        return Err(NoRoom { need });
    }
    host.follow(out).unwrap();
    out[0] = mode.code();
    Ok(request_clock(mode, HEARTBEAT_LENGTH, out))
}

// Starts over: the host gives up what it awaits and restarts, and the mode's command and the
// request of the clock follow.
fn begin_anew(host: &mut Host, mode: UpdateMode, out: &mut [u8]) -> Result<usize, NoRoom>
    ensures { HostAsks Asking.Anew mode host.old host.new out.old out.new result }
{
    let need = ANEW_LENGTH + mode.request_length();
    if out.len() < need {
        return Err(NoRoom { need });
    }
    host.give_up_awaited();
    let written = host.restart(out).unwrap();
    out[written] = mode.code();
    Ok(request_clock(mode, ANEW_LENGTH, out))
}

// Requests the board's serial number.
fn identify(host: &mut Host, mode: UpdateMode, out: &mut [u8]) -> Result<usize, NoRoom>
    requires { awaits_too_many host.old (Some Kind.Serial) ≡ false }
    ensures { HostAsks Asking.Identify mode host.old host.new out.old out.new result }
{
    if out.is_empty() {
        return Err(NoRoom { need: 1 });
    }
    Ok(host.send(&Command::Serial, out).unwrap())
}

// Passes the event, if there is one, to the listener with its place.
fn report<L: Listener>(listener: &mut L, place: usize, event: &Option<Event<'_>>)
    ensures { FoldsTo L.hears listener.old
        (at_place_if_any place (event_content_if_any event.now)) listener.new }
{
    if let Some(event) = event {
        listener.hear(place, event);
    }
}

impl Follower {
    /// A follower that has never sent a request. Its mode is [`UpdateMode::UpdateBoard`].
    ///
    /// `period` is the time from one request to the next, in milliseconds. A period below
    /// [`LEAST_PERIOD`](crate::LEAST_PERIOD) counts as that.
    ///
    /// `patience` is how many heartbeats may follow one another before the follower starts over,
    /// whatever it has heard; with 0 it always starts over. A board that is out of step may keep
    /// sending replies that nobody requested, so no reply proves that the heartbeats are read.
    pub fn new(period: u64, patience: u32) -> Self
        ensures { result ≡ new_follower period patience UpdateMode.UpdateBoard }
    {
        Follower {
            host: Host::new(),
            pace: Pace::new(period, patience, UpdateMode::UpdateBoard, false, false),
        }
    }

    /// Uses the bytes of the chunk, received at this time, up to and including the first that
    /// completes an event, or all of them, as [`Host::hear`] does. Returns how many. Call again
    /// with the remaining bytes.
    ///
    /// An awaited dump answers the last request. Disturbances are a cut or refused message, a bad
    /// length, a stray byte, an unasked message, and a dump that differs from the known picture.
    /// After a disturbance the next request starts over. It is due at once, but not before half a
    /// second ([`RETRY`](crate::RETRY)) after the last one.
    ///
    /// Two things are not disturbances. One is a clock without digits, as while it is being set.
    /// The other is an unasked message after a new start without a disturbance, until the next
    /// request: it may answer a request of the caller's that was given up.
    pub fn hear(&mut self, now: u64, chunk: &[u8]) -> usize
        ensures heard { self.new ≡ follower_after self.old now (take result chunk.now) }
        ensures first { (event : Option EventSaid)
            × FirstEvent self.old.host.unread chunk.now result event }
        ensures within { result ≤ length chunk.now }
        ensures progress { 0 < length chunk.now → 0 < result }
    {
        let known = self.host.picture().is_some();
        let heard = self.host.hear(chunk);
        let used = heard.used;
        let seen = Seen {
            unasked: heard.unasked,
            changed: heard.changed,
            known,
        };
        self.pace.note(&heard.event, seen, now);
        self.pace.note_unread(now, used, self.host.unread());
        used
    }

    /// Does the same as [`Follower::hear`], and passes the event, if there is one, to the listener.
    /// Its place is how many bytes of the chunk there are up to and including its last one.
    pub fn hear_with<L: Listener>(&mut self, now: u64, chunk: &[u8], listener: &mut L) -> Followed
        ensures heard { self.new ≡ follower_after self.old now (take result.used chunk.now) }
        ensures reported { (event : Option EventSaid)
            × FirstEvent self.old.host.unread chunk.now result.used event
            × (IsTrue result.unasked ↔ IsUnasked self.old.host.awaited event)
            × FoldsTo L.hears listener.old (at_place_if_any result.used event) listener.new }
        ensures within { result.used ≤ length chunk.now }
        ensures progress { 0 < length chunk.now → 0 < result.used }
    {
        let known = self.host.picture().is_some();
        let heard = self.host.hear(chunk);
        let used = heard.used;
        let seen = Seen {
            unasked: heard.unasked,
            changed: heard.changed,
            known,
        };
        report(listener, used, &heard.event);
        self.pace.note(&heard.event, seen, now);
        self.pace.note_unread(now, used, self.host.unread());
        Followed {
            used,
            unasked: seen.unasked,
        }
    }

    /// Uses the whole chunk, received at this time, as repeated calls of [`Follower::hear`] do.
    /// However bytes received at one time are cut into chunks, the follower is the same afterwards
    /// (`laws::followed_in_chunks`).
    pub fn hear_all(&mut self, now: u64, chunk: &[u8])
        ensures { self.new ≡ follower_after self.old now chunk.now }
    {
        crate::laws::followed_in_chunks();
        let mut at = self.hear(now, chunk);
        while at < chunk.len() {
            at += self.hear(now, &chunk[at..]);
        }
    }

    /// Writes a request at the beginning of the slice, if one is due, and returns how many bytes it
    /// takes: at most [`MAX_ASKING`], and 0 if none is due.
    ///
    /// The first request is due at any time, and each other one a period after the last. It is due
    /// earlier:
    ///
    /// - after a disturbance: half a second ([`RETRY`](crate::RETRY)) after the last request;
    /// - if the last request has no answer: a second ([`OVERDUE`](crate::OVERDUE)) after it. On a
    ///   silent line this timeout doubles with each request, up to the period, until an event is
    ///   heard;
    /// - after [`Follower::set_confirm`], until the picture is confirmed: a second after the
    ///   picture last changed and after the last request;
    /// - after [`Follower::ask_now`]: at once, or when the last request is answered;
    /// - if `now` is before the last request, since the caller's clock was set back.
    ///
    /// It writes a heartbeat, which is the mode's command and `42`, if all of this is true:
    ///
    /// - an awaited dump was heard since the last request, and there was no disturbance after it;
    /// - fewer than 16 replies are awaited, and patience is left.
    ///
    /// Otherwise it starts over: the host gives up what it awaits, and 255 zeros, `44 42` and the
    /// mode's command are written. In both cases the picture stays known, and a dump is awaited. If
    /// the mode reports the clock, `41` follows, which requests a reading of it.
    ///
    /// After [`Follower::set_identify`] it writes `45` once after each answered request, while the
    /// serial number is unknown, at most three times ([`TRIES`](crate::TRIES)).
    ///
    /// If an answer is a second late, the next call puts the picture in doubt, whether it writes or
    /// not, unless it is refused. A message that is unfinished for a second
    /// ([`UNFINISHED`](crate::UNFINISHED)) is a disturbance. If it has lost a byte, its other bytes
    /// would stay unread until the next message.
    ///
    /// Returns `NoRoom` if the slice is shorter than what is due in this mode; then nothing
    /// changes. A heartbeat takes 2 bytes in [`UpdateMode::UpdateBoard`] and 3 in the other modes,
    /// and a new start 258 and 259.
    pub fn ask(&mut self, now: u64, out: &mut [u8]) -> Result<usize, NoRoom>
        ensures { Asks (asking_of self.old now) now self.old self.new out.old out.new result }
    {
        let full = self.host.awaited().len() >= MAX_AWAITED;
        let mut pace = self.pace.at(now);
        let asking = pace.next_asking(full, now);
        let mode = pace.mode();
        let written = match asking {
            Asking::Nothing => 0,
            Asking::Identify => identify(&mut self.host, mode, out)?,
            Asking::Heartbeat => heartbeat(&mut self.host, mode, out)?,
            Asking::Anew => begin_anew(&mut self.host, mode, out)?,
        };
        pace.note_asking(asking, now);
        self.pace = pace;
        Ok(written)
    }

    /// The first time at which [`Follower::ask`] writes or finds a doubt: an overdue answer, or an
    /// unfinished message. It assumes that nothing is heard before. It is 0 if a request is due at
    /// once, and `None` if the time is too large for a `u64`.
    pub fn due_at(&self) -> Option<u64>
        ensures { result ≡ next_due self.now.pace }
    {
        self.pace.due_at()
    }

    /// Sends another command, as [`Host::send`] does. It doesn't count as a request of the
    /// follower's.
    ///
    /// The mode's command follows an LED frame and a clock message, as one byte more, since the
    /// board may read a frame that lost a byte as other commands, `Reset` among them. After `Reset`
    /// the board reports no change until the next request, LED frame or clock message.
    pub fn send(&mut self, command: &Command<'_>, out: &mut [u8]) -> Result<usize, SendFault>
        ensures sends { let said = command_content command.now in
            Sends (record {
              kind = requested_kind said;
              bytes = sent_bytes self.old.pace.mode said;
            }) self.old.host self.new.host out.old out.new result }
        ensures encodes { let said = command_content command.now in
            OnOk result (EncodesCommand said (command_encoding said)) }
        ensures limit { length (sent_bytes self.old.pace.mode (command_content command.now))
            ≤ MAX_ASKING }
        ensures pace { self.new.pace ≡ self.old.pace }
    {
        if length(command) == 1 {
            return self.host.send(command, out);
        }
        let code = self.pace.mode().code();
        let room = out.len().saturating_sub(1);
        match self.host.send(command, &mut out[..room]) {
            Ok(written) => {
                out[written] = code;
                Ok(written + 1)
            }
            Err(SendFault::NoRoom { need }) => Err(SendFault::NoRoom { need: need + 1 }),
            Err(SendFault::TooMany) => Err(SendFault::TooMany),
        }
    }

    /// Which changes the board is asked to report by itself.
    pub fn mode(&self) -> UpdateMode
        ensures { result ≡ self.now.pace.mode }
    {
        self.pace.mode()
    }

    /// Sets the mode that each later request asks for. It doesn't change when the next one is due.
    pub fn set_mode(&mut self, mode: UpdateMode)
        ensures { self.new ≡ following self.old.host (record self.old.pace { mode = mode }) }
    {
        self.pace.set_mode(mode);
    }

    /// Reports that the line to the board was lost, with all bytes under way. The follower is then
    /// as new, but keeps its settings: its period, its patience, its mode, and whether it confirms
    /// and identifies. It knows no picture and no serial number. Its next request is due at once
    /// and starts over.
    pub fn line_lost(&mut self)
        ensures { self.new ≡ following new_host (forgetting self.old.pace) }
    {
        self.host.line_lost();
        self.pace.line_lost();
    }

    /// Reports that bytes from the board were lost or altered. The reader of the line may know it:
    /// a serial port counts overruns and framing errors. It is a disturbance, and the picture is in
    /// doubt until the next awaited dump. Pass the bytes before the fault to [`Follower::hear`]
    /// first.
    pub fn line_disturbed(&mut self)
        ensures { self.new ≡ following self.old.host (pace_disturbed self.old.pace) }
    {
        self.pace.note_disturbance();
    }

    /// The position of the board, or `None` before the first dump.
    pub fn picture(&self) -> Option<&Position>
        ensures { option_map (λ position. pieces_of position.now) result ≡ self.now.host.picture }
    {
        self.host.picture()
    }

    /// What the board last reported of its clock, or `None` if it has reported nothing. It is also
    /// `None` if the last report contains no reading: either the clock shows no digits, and the
    /// report was refused, or all its bytes are zero, as before its first reading.
    pub fn clock(&self) -> Option<&Clock>
        ensures { option_map (λ clock. clock_seen clock.now) result ≡ clock_known self.now }
    {
        if self.pace.clock_is_unreadable() {
            None
        } else {
            self.host.clock()
        }
    }

    /// Whether the picture may be wrong: since the last awaited dump there was a disturbance, or an
    /// answer was overdue.
    pub fn in_doubt(&self) -> bool
        ensures { result ≡ self.now.pace.doubtful }
    {
        self.pace.in_doubt()
    }

    /// Whether the picture is confirmed: an awaited dump repeated it, and since then there was no
    /// change, no unasked message, no disturbance and no overdue answer. The first awaited dump
    /// after a new start doesn't confirm, since it may be a late answer to an earlier request.
    ///
    /// A confirmed picture is what the board had reported, up to that dump or including it, if at
    /// most one message was altered, lost or inserted since the last whole dump before it
    /// (`dgt_host::laws::one_fault_is_seen`). Two faults that agree can make it wrong, and so can
    /// one in a dump that is the first to report a change. The next dump shows it.
    pub fn confirmed(&self) -> bool
        ensures { result ≡ self.now.pace.confirmed }
    {
        self.pace.confirmed()
    }

    /// Sets whether a picture that isn't confirmed is requested again, a second after its last
    /// change.
    pub fn set_confirm(&mut self, confirm: bool)
        ensures { self.new ≡ following self.old.host (record self.old.pace { confirm = confirm }) }
    {
        self.pace.set_confirm(confirm);
    }

    /// Makes a request due at once, or as soon as the last one is answered. Its answer is a picture
    /// at least as new as this call, unless answers to earlier requests were late.
    pub fn ask_now(&mut self)
        ensures { self.new ≡ following self.old.host (record self.old.pace { wanted = true }) }
    {
        self.pace.ask_now();
    }

    /// The serial number of the board, if it was reported since the line was last lost.
    pub fn serial(&self) -> Option<[u8; 5]>
        ensures { result ≡ self.now.pace.serial }
    {
        self.pace.serial()
    }

    /// Sets whether the serial number of the board is requested while it is unknown.
    pub fn set_identify(&mut self, identify: bool)
        ensures { self.new
            ≡ following self.old.host (record self.old.pace { identify = identify }) }
    {
        self.pace.set_identify(identify);
    }

    /// The time of the last whole message, or `None` before the first.
    pub fn last_heard(&self) -> Option<u64>
        ensures { result ≡ self.now.pace.heard }
    {
        self.pace.last_heard()
    }

    /// How many more heartbeats the patience allows before the follower starts over.
    pub fn heartbeats_left(&self) -> u32
        ensures left { result ≡ self.now.pace.left }
        ensures at_most { self.now.pace.left ≤ self.now.pace.patience }
    {
        self.pace.heartbeats_left()
    }

    /// The host, with its awaited replies and its unread bytes.
    pub fn host(&self) -> &Host
        ensures { result.now ≡ self.now.host }
    {
        &self.host
    }
}
