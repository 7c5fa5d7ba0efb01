//! How messages change a host.

ghost use Rattle.std.specs.Prelude.{◌≡◌, ◌↔◌, ℕ, List, IsTrue, Some, nat_eq, not, option_map, slice_set};
ghost use Rattle.dgt_values.specs.Board.{piece_code, pieces_of, square_number};
ghost use Rattle.dgt_message.specs.Content.{clock_seen, content, answered_kind};
ghost use Rattle.dgt_decode.specs.Feeding.{event_content};
ghost use Rattle.dgt_message.specs.Picture.{clock_after, picture_after};
ghost use Rattle.dgt_host.specs.Confirmed.{changes, changes_by, same_pieces};
ghost use Rattle.dgt_host.specs.Host.{IsUnasked, awaited_after, host_after_event, host_seen, is_same_kind};

use crate::host::MAX_AWAITED;
use arrayvec::ArrayVec;
use dgt_decode::Event;
use dgt_message::{Clock, Message, kind_of};
use dgt_values::{Kind, Piece, Position, Square};

/// What a host heard in a chunk.
#[derive(Clone, Copy, Debug, PartialEq, Eq)]
pub struct Heard<'a> {
    /// How many bytes of the chunk were used: up to and including the event's last one, or all.
    pub used: usize,
    /// The event that the last of them completed. Without one, only the host's unread bytes have
    /// changed.
    pub event: Option<Event<'a>>,
    /// Whether the event is a message of a [`Kind`] that isn't the first awaited. Such a message
    /// doesn't change the awaited list, but an unasked dump still sets the picture.
    pub unasked: bool,
    /// Whether the event is a message that changed a known picture: a dump with a different piece
    /// on some square, or a field update with a different piece. A dump that does so points to an
    /// earlier fault, or to a square that changed while the dump was owed.
    pub changed: bool,
}

/// What a host reports of an event, in addition to what it keeps.
#[derive(Clone, Copy, Debug)]
pub(crate) struct Noted {
    pub(crate) unasked: bool,
    pub(crate) changed: bool,
}

fn is_equal(first: &Position, second: &Position) -> bool
    ensures { IsTrue result ↔ (pieces_of first.now ≡ pieces_of second.now) }
{
    dgt_values::laws::equal_is_same();
    first == second
}

fn is_other(first: &Position, second: &Position) -> bool
    ensures { result ≡ not (same_pieces (pieces_of first.now) (pieces_of second.now)) }
{
    !is_equal(first, second)
}

fn is_other_piece(first: Piece, second: Piece) -> bool
    ensures { result ≡ not (nat_eq (piece_code first) (piece_code second)) }
{
    first.code() != second.code()
}

// Puts the piece on the square, and returns whether that changed it.
fn set_square(known: &mut Position, square: Square, piece: Piece) -> bool
    ensures set { pieces_of known.new
        ≡ slice_set (pieces_of known.old) (square_number square) piece }
    ensures changed { result ≡ not (same_pieces (pieces_of known.old)
        (slice_set (pieces_of known.old) (square_number square) piece)) }
{
    let before = known.get(square);
    known.set(square, piece);
    is_other_piece(before, piece)
}

// Applies a message to the picture: a dump sets it, and a field update sets one square of a known
// picture. The picture is changed in place, because copying it would take longer. Returns whether a
// known picture changed.
fn set_picture(picture: &mut Option<Position>, message: &Message<'_>) -> bool
    ensures picture { option_map pieces_of picture.new
        ≡ picture_after (option_map pieces_of picture.old) (content message.now) }
    ensures changed { result
        ≡ changes (option_map pieces_of picture.old) (content message.now) }
{
    match message {
        Message::Dump(position) => {
            let changed = match picture {
                Some(known) => is_other(known, position),
                None => false,
            };
            *picture = Some(*position);
            changed
        }
        Message::Field { square, piece } => match picture {
            Some(known) => set_square(known, *square, *piece),
            None => false,
        },
        _ => false,
    }
}

// Applies a message to the clock.
fn set_clock(clock: &mut Option<Clock>, message: &Message<'_>)
    ensures { option_map clock_seen clock.new
        ≡ clock_after (option_map clock_seen clock.old) (content message.now) }
{
    match message {
        Message::Times(times) => *clock = Some(Clock::Times(*times)),
        Message::NoClock(absence) => *clock = Some(Clock::NoClock(*absence)),
        _ => {}
    }
}

fn is_same(first: Kind, second: Kind) -> bool
    ensures { result ≡ is_same_kind first second }
{
    first == second
}

// Removes the kind of a message from the list if it is the first awaited. Returns whether the
// message has a kind that isn't the first awaited.
fn take_off(awaited: &mut ArrayVec<Kind, MAX_AWAITED>, message: &Message<'_>) -> bool
    ensures awaited { awaited.new.items
        ≡ awaited_after awaited.old.items (answered_kind (content message.now)) }
    ensures unasked { IsTrue result
        ↔ IsUnasked awaited.old.items (Some (event_content (Event.Message message.now))) }
{
    let Some(kind) = kind_of(message) else {
        return false;
    };
    match awaited.first() {
        Some(first) if is_same(*first, kind) => {
            awaited.remove(0);
            false
        }
        _ => true,
    }
}

/// Applies an event to the parts of a host. Returns whether it is an unasked message, and whether
/// it changed a known picture.
pub(crate) fn hear_event(
    event: &Event<'_>,
    picture: &mut Option<Position>,
    clock: &mut Option<Clock>,
    awaited: &mut ArrayVec<Kind, MAX_AWAITED>,
) -> Noted
    ensures parts { (unread : List ℕ) →
        host_seen picture.new clock.new awaited.new.items unread
        ≡ host_after_event (host_seen picture.old clock.old awaited.old.items unread)
        (event_content event.now) }
    ensures unasked { IsTrue result.unasked
        ↔ IsUnasked awaited.old.items (Some (event_content event.now)) }
    ensures changed { result.changed
        ≡ changes_by (option_map pieces_of picture.old) (Some (event_content event.now)) }
{
    let Event::Message(message) = event else {
        return Noted {
            unasked: false,
            changed: false,
        };
    };
    let changed = set_picture(picture, message);
    set_clock(clock, message);
    let unasked = take_off(awaited, message);
    Noted { unasked, changed }
}
