//! C calls of a follower.

ghost use Rattle.std.specs.Prelude.{◌≡◌, ◌≤◌, ◌<◌, ◌↔◌, length, take, false, true, IsTrue, IsSome, MatchOption};
ghost use Rattle.dgt_host.specs.Host.{new_host};
ghost use Rattle.dgt_follow.specs.Pace.{forgetting, next_due, pace_disturbed};
ghost use Rattle.dgt_follow.specs.Follower.{follower_after, following, new_follower};
ghost use Rattle.dgt_c.specs.Hearing.{HearsReported};
ghost use Rattle.dgt_c.specs.Followers.{AsksReported, asked_reported, update_mode_number};

use crate::copying::overwrite;
use crate::events::{body_in, report_event};
use crate::handles::DgtFollower;
use crate::header::{DgtEvent, DgtSent, MODE_UPDATE, MODE_UPDATE_BOARD, MODE_UPDATE_NICE, NOTHING};
use crate::hearing::flag_for_c;
use crate::sending::sent_for_c;
use dgt_decode::{Event, Listener};
use dgt_follow::{Follower, UpdateMode};
use dgt_host::SendFault;
use dgt_values::NoRoom;

/// Makes the follower as new, with this period in milliseconds and this patience.
#[unsafe(no_mangle)]
pub extern "C" fn dgt_follower_start(follower: &mut DgtFollower, period: u64, patience: u32)
    ensures place { follower.new.at ≡ follower.old.at }
    ensures started { follower.new.inside ≡ new_follower period patience UpdateMode.UpdateBoard }
{
    *follower.get() = Follower::new(period, patience);
}

// Writes an event to the struct, and its body to the slice.
#[derive(Drop)]
struct Reporter<'a> {
    event: DgtEvent,
    body: &'a mut [u8],
}

impl Listener for Reporter<'_> {
    ghost use Rattle.std.specs.Prelude.{◌≡◌, Some};
    ghost use Rattle.dgt_c.specs.Slices.{overwritten};
    ghost use Rattle.dgt_c.specs.Reported.{body_said, reported_at};

    ghost hears = { λ old said new.
        (new.event ≡ reported_at said.place (Some said.event))
        × (new.body.now ≡ overwritten old.body.now (body_said (Some said.event)))
        × (new.body.ghost_name ≡ old.body.ghost_name) };

    fn hear(&mut self, place: usize, event: &Event<'_>) {
        self.event = NOTHING;
        report_event(event, &mut self.event);
        self.event.place = place;
        overwrite(body_in(event), self.body);
    }
}

fn hear_event(
    follower: &mut Follower,
    now: u64,
    chunk: &[u8],
    event: &mut DgtEvent,
    body: &mut [u8],
) -> usize
    ensures after { follower.new ≡ follower_after follower.old now (take result chunk.now) }
    ensures hears { HearsReported follower.old.host chunk.now result
        (record { event = event.new; old = body.old; new = body.new }) }
    ensures within { result ≤ length chunk.now }
    ensures progress { 0 < length chunk.now → 0 < result }
{
    let mut reporter = Reporter {
        event: NOTHING,
        body,
    };
    let heard = follower.hear_with(now, chunk, &mut reporter);
    *event = reporter.event;
    event.unasked = flag_for_c(heard.unasked);
    heard.used
}

/// Uses the bytes, received at this time, up to and including the first that completes an event, or
/// all of them, and returns how many. Reports the event, and copies as much of its body as fits.
#[unsafe(no_mangle)]
pub extern "C" fn dgt_follower_hear(
    follower: &mut DgtFollower,
    now: u64,
    chunk: &[u8],
    event: &mut DgtEvent,
    body: &mut [u8],
) -> usize
    ensures place { follower.new.at ≡ follower.old.at }
    ensures after { follower.new.inside
        ≡ follower_after follower.old.inside now (take result chunk.now) }
    ensures hears { HearsReported follower.old.inside.host chunk.now result
        (record { event = event.new; old = body.old; new = body.new }) }
    ensures within { result ≤ length chunk.now }
    ensures progress { 0 < length chunk.now → 0 < result }
{
    hear_event(follower.get(), now, chunk, event, body)
}

/// Uses the whole chunk, received at this time.
#[unsafe(no_mangle)]
pub extern "C" fn dgt_follower_hear_all(follower: &mut DgtFollower, now: u64, chunk: &[u8])
    ensures place { follower.new.at ≡ follower.old.at }
    ensures after { follower.new.inside ≡ follower_after follower.old.inside now chunk.now }
{
    follower.get().hear_all(now, chunk);
}

fn asked_for_c(outcome: Result<usize, NoRoom>) -> DgtSent
    ensures { result ≡ asked_reported outcome }
{
    sent_for_c(outcome.map_err(|NoRoom { need }| SendFault::NoRoom { need }))
}

/// Writes a request at the beginning of the slice, if one is due at this time.
#[unsafe(no_mangle)]
pub extern "C" fn dgt_follower_ask(follower: &mut DgtFollower, now: u64, out: &mut [u8]) -> DgtSent
    ensures place { follower.new.at ≡ follower.old.at }
    ensures asks { AsksReported now follower.old.inside follower.new.inside out.old out.new result }
{
    asked_for_c(follower.get().ask(now, out))
}

/// Writes a time, if there is one, and returns whether there is.
pub(crate) fn put_time(said: Option<u64>, time: &mut u64) -> bool
    ensures known { IsTrue result ↔ IsSome said }
    ensures time { MatchOption said (time.new ≡ time.old) (λ at. time.new ≡ at) }
{
    match said {
        Some(at) => {
            *time = at;
            true
        }
        None => false,
    }
}

/// The first time at which `dgt_follower_ask` writes or finds a doubt, if nothing is heard before.
/// Returns false if there is none; then `time` is unchanged.
#[unsafe(no_mangle)]
pub extern "C" fn dgt_follower_due_at(follower: &mut DgtFollower, time: &mut u64) -> bool
    ensures place { follower.new.at ≡ follower.old.at }
    ensures same { follower.new.inside ≡ follower.old.inside }
    ensures known { IsTrue result ↔ IsSome (next_due follower.old.inside.pace) }
    ensures time { MatchOption (next_due follower.old.inside.pace) (time.new ≡ time.old)
        (λ due. time.new ≡ due) }
{
    put_time(follower.get().due_at(), time)
}

/// The time of the last whole message. Returns false if none was heard; then `time` is unchanged.
#[unsafe(no_mangle)]
pub extern "C" fn dgt_follower_last_heard(follower: &mut DgtFollower, time: &mut u64) -> bool
    ensures place { follower.new.at ≡ follower.old.at }
    ensures same { follower.new.inside ≡ follower.old.inside }
    ensures known { IsTrue result ↔ IsSome follower.old.inside.pace.heard }
    ensures time { MatchOption follower.old.inside.pace.heard (time.new ≡ time.old)
        (λ heard. time.new ≡ heard) }
{
    put_time(follower.get().last_heard(), time)
}

/// Which changes the board is asked to report by itself.
#[unsafe(no_mangle)]
pub extern "C" fn dgt_follower_mode(follower: &mut DgtFollower) -> u8
    ensures place { follower.new.at ≡ follower.old.at }
    ensures same { follower.new.inside ≡ follower.old.inside }
    ensures mode { result ≡ update_mode_number follower.old.inside.pace.mode }
{
    match follower.get().mode() {
        UpdateMode::UpdateBoard => MODE_UPDATE_BOARD,
        UpdateMode::Update => MODE_UPDATE,
        UpdateMode::UpdateNice => MODE_UPDATE_NICE,
    }
}

// The mode with this number, if there is one.
fn read_mode(mode: u8) -> Option<UpdateMode>
    ensures { MatchOption result ((known : UpdateMode) → ¬ (update_mode_number known ≡ mode))
        (λ read. update_mode_number read ≡ mode) }
{
    match mode {
        MODE_UPDATE_BOARD => Some(UpdateMode::UpdateBoard),
        MODE_UPDATE => Some(UpdateMode::Update),
        MODE_UPDATE_NICE => Some(UpdateMode::UpdateNice),
        _ => None,
    }
}

/// Sets the mode that each later request asks for. Returns false if there is no such mode.
#[unsafe(no_mangle)]
pub extern "C" fn dgt_follower_set_mode(follower: &mut DgtFollower, mode: u8) -> bool
    ensures place { follower.new.at ≡ follower.old.at }
    ensures done { IsTrue result → (set : UpdateMode) × (update_mode_number set ≡ mode)
        × (follower.new.inside ≡ following follower.old.inside.host
        (record follower.old.inside.pace { mode = set })) }
    ensures refused { result ≡ false → (follower.new.inside ≡ follower.old.inside)
        × ((known : UpdateMode) → ¬ (update_mode_number known ≡ mode)) }
{
    match read_mode(mode) {
        Some(mode) => {
            follower.get().set_mode(mode);
            true
        }
        None => false,
    }
}

/// Whether the picture may be wrong.
#[unsafe(no_mangle)]
pub extern "C" fn dgt_follower_in_doubt(follower: &mut DgtFollower) -> bool
    ensures place { follower.new.at ≡ follower.old.at }
    ensures same { follower.new.inside ≡ follower.old.inside }
    ensures doubtful { result ≡ follower.old.inside.pace.doubtful }
{
    follower.get().in_doubt()
}

/// How many more heartbeats the patience allows.
#[unsafe(no_mangle)]
pub extern "C" fn dgt_follower_heartbeats_left(follower: &mut DgtFollower) -> u32
    ensures place { follower.new.at ≡ follower.old.at }
    ensures same { follower.new.inside ≡ follower.old.inside }
    ensures left { result ≡ follower.old.inside.pace.left }
    ensures at_most { follower.old.inside.pace.left ≤ follower.old.inside.pace.patience }
{
    follower.get().heartbeats_left()
}

/// Whether the picture is confirmed.
#[unsafe(no_mangle)]
pub extern "C" fn dgt_follower_confirmed(follower: &mut DgtFollower) -> bool
    ensures place { follower.new.at ≡ follower.old.at }
    ensures same { follower.new.inside ≡ follower.old.inside }
    ensures confirmed { result ≡ follower.old.inside.pace.confirmed }
{
    follower.get().confirmed()
}

/// Sets whether a picture that isn't confirmed is requested again.
#[unsafe(no_mangle)]
pub extern "C" fn dgt_follower_set_confirm(follower: &mut DgtFollower, confirm: bool)
    ensures place { follower.new.at ≡ follower.old.at }
    ensures set { follower.new.inside ≡ following follower.old.inside.host
        (record follower.old.inside.pace { confirm = confirm }) }
{
    follower.get().set_confirm(confirm);
}

/// Makes a request due at once, or as soon as the last one is answered.
#[unsafe(no_mangle)]
pub extern "C" fn dgt_follower_ask_now(follower: &mut DgtFollower)
    ensures place { follower.new.at ≡ follower.old.at }
    ensures wanted { follower.new.inside ≡ following follower.old.inside.host
        (record follower.old.inside.pace { wanted = true }) }
{
    follower.get().ask_now();
}

/// The serial number of the board. Returns false if it wasn't reported; then `serial` is unchanged.
#[unsafe(no_mangle)]
pub extern "C" fn dgt_follower_serial(follower: &mut DgtFollower, serial: &mut [u8; 5]) -> bool
    ensures place { follower.new.at ≡ follower.old.at }
    ensures same { follower.new.inside ≡ follower.old.inside }
    ensures known { IsTrue result ↔ IsSome follower.old.inside.pace.serial }
    ensures serial { MatchOption follower.old.inside.pace.serial (serial.new ≡ serial.old)
        (λ digits. serial.new ≡ digits) }
{
    match follower.get().serial() {
        Some(digits) => {
            *serial = digits;
            true
        }
        None => false,
    }
}

/// Sets whether the serial number is requested while it is unknown.
#[unsafe(no_mangle)]
pub extern "C" fn dgt_follower_set_identify(follower: &mut DgtFollower, identify: bool)
    ensures place { follower.new.at ≡ follower.old.at }
    ensures set { follower.new.inside ≡ following follower.old.inside.host
        (record follower.old.inside.pace { identify = identify }) }
{
    follower.get().set_identify(identify);
}

/// Reports that bytes from the board were lost or altered.
#[unsafe(no_mangle)]
pub extern "C" fn dgt_follower_line_disturbed(follower: &mut DgtFollower)
    ensures place { follower.new.at ≡ follower.old.at }
    ensures disturbed { follower.new.inside
        ≡ following follower.old.inside.host (pace_disturbed follower.old.inside.pace) }
{
    follower.get().line_disturbed();
}

/// Reports that the line was lost: the follower is as new, with its settings.
#[unsafe(no_mangle)]
pub extern "C" fn dgt_follower_line_lost(follower: &mut DgtFollower)
    ensures place { follower.new.at ≡ follower.old.at }
    ensures new { follower.new.inside ≡ following new_host (forgetting follower.old.inside.pace) }
{
    follower.get().line_lost();
}
