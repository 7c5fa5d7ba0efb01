//! When a follower sends a request, and which.

ghost use Rattle.std.specs.Prelude.{◌≡◌, ◌↔◌, ◌≤◌, ℕ, Option, is_some, List, ◌++◌, Some, IsTrue, length, true};
ghost use Rattle.dgt_values.specs.declared.kinds.Kind.{Kind};
ghost use Rattle.dgt_values.specs.declared.pieces.Piece.{Piece};
ghost use Rattle.dgt_decode.specs.Feeding.{event_content, event_content_if_any};
ghost use Rattle.dgt_host.specs.Confirmed.{changes_by};
ghost use Rattle.dgt_host.specs.Host.{IsUnasked};
ghost use Rattle.dgt_follow.specs.Pace.{asking, asks_at_once, counted, doubt_time, due_time, forgetting, is_calm, is_due as is_due_at, is_overdue as is_overdue_at, is_stuck as is_stuck_at, is_unanswered, new_pace, next_due, next_timeout, pace_after_asking, pace_after_event, pace_asked, pace_at, pace_disturbed, trusts, unfinished_by, wait, wants_confirming, wants_serial};
ghost use Rattle.dgt_follow.specs.Noting.{pace_after_event_if_any};

use crate::asking::{Asking, UpdateMode};
use crate::notes::{
    Seen, either, is_awaited_dump, is_confirmed, is_disturbance, is_unreadable, last_changed,
    last_heard, last_serial, unless,
};
use crate::times::{due_after, earlier, later_of, precedes};
use dgt_host::Event;
use std::marker::Model;

/// The least period, in milliseconds. If every request starts over, its bytes occupy the line for a
/// quarter of it.
pub const LEAST_PERIOD: u64 = 1000;

/// An answer is overdue this many milliseconds after the request.
pub const OVERDUE: u64 = 1000;

/// After a disturbance a request is due this many milliseconds after the last one. At 9600 baud a
/// new start and its replies occupy the line for 350 ms.
pub const RETRY: u64 = 500;

/// An unfinished message is a disturbance this many milliseconds after its last byte.
pub const UNFINISHED: u64 = 1000;

/// To confirm a picture, it is requested this many milliseconds after its last change.
pub const SETTLED: u64 = 1000;

/// The most requests of the serial number to a board that doesn't send it.
pub const TRIES: u32 = 3;

/// What determines when a follower sends a request, and which: its settings, its last request, and
/// what it has recorded since. The wide fields are first, to save space.
#[derive(Drop)]
pub struct Pace {
    period: u64,
    asked: Option<u64>,
    heard: Option<u64>,
    unfinished: Option<u64>,
    changed: Option<u64>,
    timeout: u64,
    patience: u32,
    left: u32,
    tries: u32,
    serial: Option<[u8; 5]>,
    mode: UpdateMode,
    confirm: bool,
    identify: bool,
    requested: bool,
    wanted: bool,
    answered: bool,
    disturbed: bool,
    pardons: bool,
    settling: bool,
    doubtful: bool,
    confirmed: bool,
    unreadable: bool,
}

impl Model for Pace {
    ghost use Rattle.std.specs.Prelude.{◌≤◌};
    ghost use Rattle.dgt_follow.specs.Pace.{PaceView};

    ghost Value = { PaceView };

    ghost view = { λ pace. record {
      period = pace.period;
      patience = pace.patience;
      mode = pace.mode;
      confirm = pace.confirm;
      identify = pace.identify;
      left = pace.left;
      tries = pace.tries;
      asked = pace.asked;
      requested = pace.requested;
      wanted = pace.wanted;
      answered = pace.answered;
      disturbed = pace.disturbed;
      pardons = pace.pardons;
      timeout = pace.timeout;
      settling = pace.settling;
      heard = pace.heard;
      unfinished = pace.unfinished;
      doubtful = pace.doubtful;
      confirmed = pace.confirmed;
      changed = pace.changed;
      serial = pace.serial;
      unreadable = pace.unreadable;
    } };

    ghost invariant = { λ pace. pace.left ≤ pace.patience };
}

impl Pace {
    /// A pace with this period in milliseconds, at least [`LEAST_PERIOD`], this patience and this
    /// mode, without requests so far.
    pub fn new(period: u64, patience: u32, mode: UpdateMode, confirm: bool, identify: bool) -> Self
        ensures { result ≡ new_pace period patience mode confirm identify }
    {
        Pace {
            period: LEAST_PERIOD.max(period),
            patience,
            mode,
            confirm,
            identify,
            left: patience,
            tries: TRIES,
            asked: None,
            requested: false,
            wanted: false,
            answered: false,
            disturbed: false,
            pardons: false,
            timeout: OVERDUE,
            settling: false,
            heard: None,
            unfinished: None,
            doubtful: false,
            confirmed: false,
            changed: None,
            serial: None,
            unreadable: false,
        }
    }

    // Whether the last request has no answer yet.
    fn awaits_answer(&self) -> bool
        ensures { result ≡ is_unanswered self.now }
    {
        self.asked.is_some() && !self.answered
    }

    // Whether the last request was answered, without a disturbance since.
    fn is_calm(&self) -> bool
        ensures { result ≡ is_calm self.now }
    {
        self.asked.is_some() && self.answered && !self.disturbed
    }

    // Whether the answer to the last request is overdue at this time.
    fn is_overdue(&self, now: u64) -> bool
        ensures { result ≡ is_overdue_at self.now now }
    {
        match due_after(self.asked, OVERDUE) {
            Some(due) => self.awaits_answer() && due <= now,
            None => false,
        }
    }

    // Whether a message is unfinished for a second at this time.
    fn is_stuck(&self, now: u64) -> bool
        ensures { result ≡ is_stuck_at self.now now }
    {
        match due_after(self.unfinished, UNFINISHED) {
            Some(due) => self.unfinished.is_some() && due <= now,
            None => false,
        }
    }

    // The time to wait after the last request.
    fn waiting_time(&self) -> u64
        ensures { result ≡ wait self.now }
    {
        if self.disturbed {
            self.period.min(RETRY)
        } else if self.awaits_answer() {
            self.period.min(self.timeout)
        } else {
            self.period
        }
    }

    // The timeout of the next request.
    fn next_timeout(&self) -> u64
        ensures { result ≡ next_timeout self.now }
    {
        if self.awaits_answer() && !self.disturbed {
            self.timeout.saturating_mul(2).min(self.period)
        } else {
            OVERDUE
        }
    }

    // Whether a picture that isn't confirmed is to be requested again.
    fn wants_confirming(&self) -> bool
        ensures { result ≡ wants_confirming self.now }
    {
        self.confirm && !self.confirmed && !self.awaits_answer()
    }

    // Whether the serial number is to be requested.
    fn wants_serial(&self) -> bool
        ensures { result ≡ wants_serial self.now }
    {
        self.identify
            && self.serial.is_none()
            && self.tries > 0
            && !self.requested
            && self.is_calm()
    }

    // Whether a request is due as soon as possible.
    fn asks_at_once(&self) -> bool
        ensures { result ≡ asks_at_once self.now }
    {
        self.wants_serial() || self.wanted && !self.awaits_answer()
    }

    // The first time at which a request is due. `None` if it is too large for a `u64`.
    fn asks_at(&self) -> Option<u64>
        ensures { result ≡ counted (due_time self.now) }
    {
        if self.asks_at_once() {
            return Some(0);
        }
        let usual = due_after(self.asked, self.waiting_time());
        if self.wants_confirming() {
            earlier(
                usual,
                due_after(later_of(self.asked, self.changed), SETTLED),
            )
        } else {
            usual
        }
    }

    // The first time at which a request is due, or an answer becomes overdue without a doubt
    // before.
    fn doubts_at(&self) -> Option<u64>
        ensures { result ≡ counted (doubt_time self.now) }
    {
        if self.awaits_answer() && !self.doubtful {
            earlier(self.asks_at(), due_after(self.asked, OVERDUE))
        } else {
            self.asks_at()
        }
    }

    /// The first time at which a request is due, an answer becomes overdue without a doubt before,
    /// or a message is stuck. `None` if it is too large for a `u64`.
    pub fn due_at(&self) -> Option<u64>
        ensures { result ≡ next_due self.now }
    {
        if self.unfinished.is_some() {
            earlier(self.doubts_at(), due_after(self.unfinished, UNFINISHED))
        } else {
            self.doubts_at()
        }
    }

    // Whether a request is due at this time.
    fn is_due(&self, now: u64) -> bool
        ensures { result ≡ is_due_at self.now now }
    {
        let reached = match self.asks_at() {
            Some(due) => due <= now,
            None => false,
        };
        reached || precedes(now, self.asked)
    }
}

impl Pace {
    // Whether a heartbeat is enough.
    fn heartbeat_suffices(&self, full: bool) -> bool
        ensures { result ≡ trusts self.now full }
    {
        self.is_calm() && !full && self.left > 0
    }

    /// The request at this time. `full` says whether the host awaits as many replies as it can.
    pub fn next_asking(&self, full: bool, now: u64) -> Asking
        ensures { result ≡ asking self.now full now }
    {
        if !self.is_due(now) {
            Asking::Nothing
        } else if self.wants_serial() && !full {
            Asking::Identify
        } else if self.heartbeat_suffices(full) {
            Asking::Heartbeat
        } else {
            Asking::Anew
        }
    }

    /// The pace at this time: it records whether an answer is overdue, or a message unfinished for
    /// too long.
    pub fn at(&self, now: u64) -> Pace
        ensures { result ≡ pace_at self.now now }
    {
        let overdue = self.is_overdue(now);
        let stuck = self.is_stuck(now);
        Pace {
            disturbed: either(self.disturbed, stuck),
            unfinished: if stuck { None } else { self.unfinished },
            doubtful: either(either(self.doubtful, overdue), stuck),
            confirmed: unless(unless(self.confirmed, overdue), stuck),
            ..*self
        }
    }

    // Records that a dump was requested at this time.
    fn note_asked(&mut self, now: u64)
        ensures { self.new ≡ pace_asked self.old now }
    {
        let owed = self.awaits_answer();
        self.timeout = self.next_timeout();
        self.doubtful = either(self.doubtful, owed);
        self.confirmed = unless(self.confirmed, owed);
        self.asked = Some(now);
        self.requested = false;
        self.wanted = false;
        self.answered = false;
        self.disturbed = false;
        self.pardons = false;
    }

    /// Records this request, or none, at this time.
    pub fn note_asking(&mut self, asking: Asking, now: u64)
        ensures { self.new ≡ pace_after_asking asking self.old now }
    {
        match asking {
            Asking::Nothing => {}
            Asking::Identify => {
                self.tries = self.tries.saturating_sub(1);
                self.requested = true;
            }
            Asking::Heartbeat => {
                self.note_asked(now);
                self.left = self.left.saturating_sub(1);
            }
            Asking::Anew => {
                let pardons = self.is_calm();
                self.note_asked(now);
                self.left = self.patience;
                self.pardons = pardons;
                self.settling = true;
            }
        }
    }
}

impl Pace {
    // Records an event that was heard at this time.
    fn note_event(&mut self, event: &Event<'_>, seen: Seen, now: u64)
        ensures { (awaited : List Kind) (picture : Option (List Piece)) →
            (IsTrue seen.unasked ↔ IsUnasked awaited (Some (event_content event.now))) →
            seen.changed ≡ changes_by picture (Some (event_content event.now)) →
            seen.known ≡ is_some picture →
            self.new ≡ pace_after_event self.old now awaited picture (event_content event.now) }
    {
        let disturbs = is_disturbance(event, seen, self.pardons);
        let answers = is_awaited_dump(event, seen.unasked);
        let still = unless(self.doubtful, answers);
        self.confirmed = is_confirmed(self.confirmed, self.settling, event, seen);
        self.answered = either(answers, self.answered);
        self.disturbed = either(disturbs, self.disturbed);
        self.timeout = OVERDUE;
        self.settling = unless(self.settling, answers);
        self.heard = last_heard(self.heard, now, event);
        self.doubtful = either(disturbs, still);
        self.changed = last_changed(self.changed, now, seen.changed);
        self.serial = last_serial(self.serial, event);
        self.unreadable = is_unreadable(self.unreadable, event);
    }

    /// Records the event that was heard at this time, if there is one, and what the host reported
    /// of it.
    pub(crate) fn note(&mut self, event: &Option<Event<'_>>, seen: Seen, now: u64)
        ensures { (awaited : List Kind) (picture : Option (List Piece)) →
            (IsTrue seen.unasked ↔ IsUnasked awaited (event_content_if_any event.now)) →
            seen.changed ≡ changes_by picture (event_content_if_any event.now) →
            seen.known ≡ is_some picture →
            self.new ≡ pace_after_event_if_any self.old now awaited picture
            (event_content_if_any event.now) }
    {
        if let Some(event) = event {
            self.note_event(event, seen, now);
        }
    }

    /// Records how many bytes were heard at this time, and how many are unread after them.
    pub(crate) fn note_unread(&mut self, now: u64, used: usize, unread: usize)
        ensures { (bytes after : List ℕ) → used ≡ length bytes → unread ≡ length after →
            self.new ≡ record self.old {
              unfinished = unfinished_by self.old.unfinished now bytes after;
            } }
    {
        if used > 0 {
            self.unfinished = if unread > 0 { Some(now) } else { None };
        }
    }
}

impl Pace {
    /// Which changes the board is asked to report.
    pub fn mode(&self) -> UpdateMode
        ensures { result ≡ self.now.mode }
    {
        self.mode
    }

    /// Sets the mode that the next request asks for.
    pub fn set_mode(&mut self, mode: UpdateMode)
        ensures { self.new ≡ record self.old { mode = mode } }
    {
        self.mode = mode;
    }

    /// Sets whether a picture that isn't confirmed is requested again.
    pub fn set_confirm(&mut self, confirm: bool)
        ensures { self.new ≡ record self.old { confirm = confirm } }
    {
        self.confirm = confirm;
    }

    /// Sets whether the serial number is requested while it is unknown.
    pub fn set_identify(&mut self, identify: bool)
        ensures { self.new ≡ record self.old { identify = identify } }
    {
        self.identify = identify;
    }

    /// Makes a request due as soon as no answer is owed.
    pub fn ask_now(&mut self)
        ensures { self.new ≡ record self.old { wanted = true } }
    {
        self.wanted = true;
    }

    /// Records that bytes were lost or altered.
    pub fn note_disturbance(&mut self)
        ensures { self.new ≡ pace_disturbed self.old }
    {
        self.disturbed = true;
        self.doubtful = true;
        self.confirmed = false;
    }

    /// Forgets all requests and records, and keeps the settings.
    pub fn line_lost(&mut self)
        ensures { self.new ≡ forgetting self.old }
    {
        *self = Pace::new(
            self.period,
            self.patience,
            self.mode,
            self.confirm,
            self.identify,
        );
    }
}

impl Pace {
    /// The time of the last whole message.
    pub fn last_heard(&self) -> Option<u64>
        ensures { result ≡ self.now.heard }
    {
        self.heard
    }

    /// Whether there was a disturbance, or an answer was overdue, since the last awaited dump.
    pub fn in_doubt(&self) -> bool
        ensures { result ≡ self.now.doubtful }
    {
        self.doubtful
    }

    /// Whether an awaited dump repeated the picture, and since then there was no change, no
    /// disturbance and no overdue answer.
    pub fn confirmed(&self) -> bool
        ensures { result ≡ self.now.confirmed }
    {
        self.confirmed
    }

    /// The serial number that was last reported.
    pub fn serial(&self) -> Option<[u8; 5]>
        ensures { result ≡ self.now.serial }
    {
        self.serial
    }

    /// Whether the last report of the clock contained no reading.
    pub fn clock_is_unreadable(&self) -> bool
        ensures { result ≡ self.now.unreadable }
    {
        self.unreadable
    }

    /// How many more heartbeats the patience allows.
    pub fn heartbeats_left(&self) -> u32
        ensures left { result ≡ self.now.left }
        ensures at_most { self.now.left ≤ self.now.patience }
    {
        self.left
    }
}
