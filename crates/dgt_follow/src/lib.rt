//! A host that keeps its picture of a DGT board right by requesting the whole board again and
//! again.
//!
//! A [`Follower`] owns a [`Host`](dgt_host::Host), but no line and no clock. The caller passes the
//! time, and a slice for the bytes to send. [`Follower::ask`] writes a request if one is due.
//!
//! - Once per period it is a *heartbeat*: the mode's command and a dump request.
//! - It *starts over* if the last request had no answer, there was a disturbance, 16 replies are
//!   awaited, or the patience has run out. Then it completes any unfinished command of the board,
//!   and requests everything.
//! - In a mode that reports the clock, each request also asks for a reading of it.
//!
//! The protocol has no checksum, but a board reports its position in two ways: by changes and by
//! dumps. A follower compares them. Its picture is
//! - *in doubt* ([`Follower::in_doubt`]): there was a disturbance, a dump differed from the known
//!   picture, an answer is a second late, or a message is unfinished for a second. The follower
//!   asks again half a second after its last request, or when the answer is overdue. On a silent
//!   line it asks less and less often, down to once per period.
//! - *confirmed* ([`Follower::confirmed`]): a dump repeated it. It is then what the board had
//!   reported, up to that dump or including it, if the line had at most one fault since the last
//!   whole dump before ([`dgt_host::laws::one_fault_is_seen`]).
//! - neither: it was just reported or changed. After [`Follower::set_confirm`] it is confirmed
//!   soon.
//!
//! [`Follower::due_at`] returns when it will write next, so a program can sleep until then.
//!
//! ```rust
//! use dgt_follow::Follower;
//!
//! /// Hears a chunk at this time, and writes what is due into the slice, which has room for
//! /// `MAX_ASKING` bytes. Returns how many bytes to send.
//! pub fn turn(follower: &mut Follower, now: u64, chunk: &[u8], out: &mut [u8]) -> usize {
//!     follower.hear_all(now, chunk);
//!     follower.ask(now, out).unwrap_or(0)
//! }
//! ```
//!
//! Times are milliseconds of a clock that doesn't go back. If it does, the next request is due at
//! once. No call allocates memory.
//!
//! The picture and the clock stay known while a request is under way. A board that lost its power
//! sends no changes, and the next heartbeat detects that. The picture may stay wrong for a period
//! then, and so may the clock in a mode that reports it.
//!
//! Contracts see a follower as its host and its pace (`specs/Follower.antt`). The pace
//! (`specs/Pace.antt`) is what it counts and records: `due_time` is the time of the next request,
//! `asking` its content, and `pace_after_event` the record of an event. When to ask, and how many
//! heartbeats may follow one another, is this project's own choice. [`laws`] says for what reasons
//! it asks, that the division into chunks doesn't matter, and what a confirmed picture guarantees.
#![tactic(auto)]

mod asking;
mod follower;
pub mod laws;
mod notes;
mod pace;
mod times;

pub use asking::{Asking, UpdateMode};
pub use follower::{Followed, Follower, MAX_ASKING};
pub use pace::{LEAST_PERIOD, OVERDUE, Pace, RETRY, SETTLED, TRIES, UNFINISHED};
