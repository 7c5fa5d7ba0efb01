//! C calls that read the state of a host, or of a follower through its host.

ghost use Rattle.std.specs.Prelude.{◌≡◌, ◌↔◌, ◌<◌, ◌≤◌, ◌++◌, length, drop, map, option_map, IsTrue, IsSome, MatchOption};
ghost use Rattle.dgt_values.specs.Board.{piece_code};
ghost use Rattle.dgt_values.specs.Placement.{placement_text};
ghost use Rattle.dgt_decode.specs.Grammar.{unfinished_message};
ghost use Rattle.dgt_message.specs.Content.{clock_seen};
ghost use Rattle.dgt_follow.specs.Follower.{clock_known};
ghost use Rattle.dgt_c.specs.Clocks.{clock_if_reported};
ghost use Rattle.dgt_c.specs.Kinds.{asking_code};
ghost use Rattle.dgt_c.specs.Slices.{with_text};

use crate::clocks::clock_for_c;
use crate::copying::put_placement;
use crate::handles::{DgtFollower, DgtHost};
use crate::header::{DgtClock, PLACEMENT_ROOM, UNKNOWN_CLOCK};
use dgt_decode::MAX_TOTAL;
use dgt_host::{Clock, Host, MAX_AWAITED};
use dgt_values::Kind;

// Writes the codes of the pieces on the board, if a picture is known.
fn put_picture(host: &Host, pieces: &mut [u8; 64]) -> bool
    ensures known { IsTrue result ↔ IsSome host.now.picture }
    ensures pieces { MatchOption host.now.picture (pieces.new ≡ pieces.old)
        (λ picture. pieces.new ≡ map piece_code picture) }
{
    match host.picture() {
        Some(position) => {
            *pieces = position.codes();
            true
        }
        None => false,
    }
}

// Writes the placement of the pieces and a zero byte, if a picture is known.
fn put_text(host: &Host, text: &mut [u8; PLACEMENT_ROOM]) -> bool
    ensures known { IsTrue result ↔ IsSome host.now.picture }
    ensures text { MatchOption host.now.picture (text.new ≡ text.old)
        (λ picture. text.new ≡ with_text (placement_text picture) text.old) }
{
    match host.picture() {
        Some(position) => {
            put_placement(position, text);
            true
        }
        None => false,
    }
}

// The clock as a struct, if it is known.
fn known_clock_for_c(known: Option<&Clock>) -> DgtClock
    ensures { result
        ≡ clock_if_reported (option_map (λ clock. clock_seen clock.now) known.entry) }
{
    match known {
        Some(reported) => clock_for_c(reported),
        None => UNKNOWN_CLOCK,
    }
}

/// Writes the codes of the pieces on the board, if they are known.
#[unsafe(no_mangle)]
pub extern "C" fn dgt_host_picture(host: &mut DgtHost, pieces: &mut [u8; 64]) -> bool
    ensures place { host.new.at ≡ host.old.at }
    ensures same { host.new.inside ≡ host.old.inside }
    ensures known { IsTrue result ↔ IsSome host.old.inside.picture }
    ensures pieces { MatchOption host.old.inside.picture (pieces.new ≡ pieces.old)
        (λ picture. pieces.new ≡ map piece_code picture) }
{
    put_picture(host.get(), pieces)
}

/// Writes the placement of the pieces and a zero byte, if they are known.
#[unsafe(no_mangle)]
pub extern "C" fn dgt_host_placement(host: &mut DgtHost, text: &mut [u8; PLACEMENT_ROOM]) -> bool
    ensures place { host.new.at ≡ host.old.at }
    ensures same { host.new.inside ≡ host.old.inside }
    ensures known { IsTrue result ↔ IsSome host.old.inside.picture }
    ensures text { MatchOption host.old.inside.picture (text.new ≡ text.old)
        (λ picture. text.new ≡ with_text (placement_text picture) text.old) }
{
    put_text(host.get(), text)
}

/// The clock as last reported.
#[unsafe(no_mangle)]
pub extern "C" fn dgt_host_clock(host: &mut DgtHost, clock: &mut DgtClock)
    ensures place { host.new.at ≡ host.old.at }
    ensures same { host.new.inside ≡ host.old.inside }
    ensures clock { clock.new ≡ clock_if_reported host.old.inside.clock }
{
    *clock = known_clock_for_c(host.get().clock());
}

/// Writes the codes of the pieces on the board, if they are known.
#[unsafe(no_mangle)]
pub extern "C" fn dgt_follower_picture(follower: &mut DgtFollower, pieces: &mut [u8; 64]) -> bool
    ensures place { follower.new.at ≡ follower.old.at }
    ensures same { follower.new.inside ≡ follower.old.inside }
    ensures known { IsTrue result ↔ IsSome follower.old.inside.host.picture }
    ensures pieces { MatchOption follower.old.inside.host.picture (pieces.new ≡ pieces.old)
        (λ picture. pieces.new ≡ map piece_code picture) }
{
    put_picture(follower.get().host(), pieces)
}

/// Writes the placement of the pieces and a zero byte, if they are known.
#[unsafe(no_mangle)]
pub extern "C" fn dgt_follower_placement(
    follower: &mut DgtFollower,
    text: &mut [u8; PLACEMENT_ROOM],
) -> bool
    ensures place { follower.new.at ≡ follower.old.at }
    ensures same { follower.new.inside ≡ follower.old.inside }
    ensures known { IsTrue result ↔ IsSome follower.old.inside.host.picture }
    ensures text { MatchOption follower.old.inside.host.picture (text.new ≡ text.old)
        (λ picture. text.new ≡ with_text (placement_text picture) text.old) }
{
    put_text(follower.get().host(), text)
}

/// The clock as last reported, if the report was readable.
#[unsafe(no_mangle)]
pub extern "C" fn dgt_follower_clock(follower: &mut DgtFollower, clock: &mut DgtClock)
    ensures place { follower.new.at ≡ follower.old.at }
    ensures same { follower.new.inside ≡ follower.old.inside }
    ensures clock { clock.new ≡ clock_if_reported (clock_known follower.old.inside) }
{
    *clock = known_clock_for_c(follower.get().clock());
}

/// How many bytes of an unfinished message were received.
#[unsafe(no_mangle)]
pub extern "C" fn dgt_host_unread(host: &mut DgtHost) -> usize
    ensures place { host.new.at ≡ host.old.at }
    ensures same { host.new.inside ≡ host.old.inside }
    ensures length { result ≡ length host.old.inside.unread }
    ensures all_unfinished { unfinished_message host.old.inside.unread ≡ host.old.inside.unread }
    ensures limit { result < MAX_TOTAL }
{
    host.get().unread()
}

/// How many bytes of an unfinished message the follower's host has received.
#[unsafe(no_mangle)]
pub extern "C" fn dgt_follower_unread(follower: &mut DgtFollower) -> usize
    ensures place { follower.new.at ≡ follower.old.at }
    ensures same { follower.new.inside ≡ follower.old.inside }
    ensures length { result ≡ length follower.old.inside.host.unread }
    ensures all_unfinished { unfinished_message follower.old.inside.host.unread
        ≡ follower.old.inside.host.unread }
    ensures limit { result < MAX_TOTAL }
{
    follower.get().host().unread()
}

// The byte of the command that requests a reply of this kind.
fn code_asking_for(kind: Kind) -> u8
    ensures { result ≡ asking_code kind }
{
    match kind {
        Kind::Dump => 0x42,
        Kind::Serial => 0x45,
        Kind::Trademark => 0x47,
        Kind::Version => 0x4d,
        Kind::Battery => 0x4c,
        Kind::LongSerial => 0x55,
    }
}

// Writes the bytes of the commands that request these kinds at the beginning of the slice.
fn put_kinds(kinds: &[Kind], codes: &mut [u8; MAX_AWAITED])
    requires { length kinds.now ≤ MAX_AWAITED }
    ensures { codes.new ≡ map asking_code kinds.now ++ drop (length kinds.now) codes.old }
{
    for (index, kind) in kinds.iter().enumerate() {
        codes[index] = code_asking_for(*kind);
    }
}

/// How many replies are awaited. The bytes of the commands that requested them are written at the
/// beginning of the slice, in order.
#[unsafe(no_mangle)]
pub extern "C" fn dgt_host_awaited(host: &mut DgtHost, codes: &mut [u8; MAX_AWAITED]) -> usize
    ensures place { host.new.at ≡ host.old.at }
    ensures same { host.new.inside ≡ host.old.inside }
    ensures length { result ≡ length host.old.inside.awaited }
    ensures at_most { result ≤ MAX_AWAITED }
    ensures codes { codes.new ≡ map asking_code host.old.inside.awaited ++ drop result codes.old }
{
    let kinds = host.get().awaited();
    put_kinds(kinds, codes);
    kinds.len()
}
