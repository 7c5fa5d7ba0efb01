//! The layout of each handle and its value in C's memory, and how both are made there.
//!
//! C reserves more room for each than they need, so that they can grow.

ghost use Rattle.std.specs.Prelude.{◌≡◌, ◌≤◌, []};
ghost use Rattle.std.specs.Borrow.{full_share, sem};
ghost use Rattle.std.specs.Mem.{type_size};
ghost use Rattle.std.specs.Ptr.{lies_at, room_at};
ghost use denote.RawPtr.{◌+ₚ◌};
ghost use Rattle.dgt_game.specs.Recogniser.{new_recogniser};
ghost use Rattle.dgt_host.specs.Host.{new_host};
ghost use Rattle.dgt_c.specs.PlainBoard.{plain_board};
ghost use Rattle.dgt_c.specs.PlainFollower.{plain_follower};
ghost use Rattle.dgt_c.specs.contracts.handles.{DgtBoard.the_row as board_handle, DgtCommandDecoder.the_row as command_decoder_handle, DgtDecoder.the_row as decoder_handle, DgtFollower.the_row as follower_handle, DgtHost.the_row as host_handle, DgtRecogniser.the_row as recogniser_handle};
ghost use Rattle.dgt_c.specs.contracts.places.{BoardPlace.the_row as board_place, CommandDecoderPlace.the_row as command_decoder_place, DecoderPlace.the_row as decoder_place, FollowerPlace.the_row as follower_place, HostPlace.the_row as host_place, RecogniserPlace.the_row as recogniser_place};

use crate::handles::{
    DgtBoard, DgtCommandDecoder, DgtDecoder, DgtFollower, DgtHost, DgtRecogniser,
};
use crate::header::{
    BOARD_ROOM, COMMAND_DECODER_ROOM, DECODER_ROOM, FOLLOWER_ROOM, HOST_ROOM, RECOGNISER_ROOM,
};
use crate::plain_board::board_of_program;
use crate::plain_follower::default_follower;
use dgt_board::Board;
use dgt_command::CommandDecoder;
use dgt_decode::Decoder;
use dgt_follow::Follower;
use dgt_game::Recogniser;
use dgt_host::Host;

// Makes a handle in this place, and the value in the part after the handle.
macro_rules! make {
    ($handle:ident: $type:ident in $place:ident, $value:expr) => {
        let place = $handle as *mut $place;
        unsafe {
            let inside = &raw mut (*place).inside;
            inside.write($value);
            $handle.write($type {
                at: inside as *mut u8,
            });
        }
    };
}

/// A `dgt_host` of C: the handle, and the room that it points to.
#[repr(C)]
pub struct HostPlace {
    at: *mut u8,
    inside: Host,
}

/// Makes a host that knows nothing yet and awaits nothing. `host` points to room for a `dgt_host`.
#[unsafe(no_mangle)]
pub unsafe extern "C" fn dgt_host_make(host: *mut DgtHost)
    requires* { sem 𝓛 (room_at host_place host) }
    ensures* { sem 𝓛 (lies_at host_handle full_share host
        (record { at = host +ₚ 8; inside = new_host })) }
{
    make!(host: DgtHost in HostPlace, Host::new());
}

/// The size of a `dgt_host` in bytes.
#[unsafe(no_mangle)]
pub extern "C" fn dgt_host_size() -> usize
    ensures number { result ≡ HOST_ROOM }
    ensures enough { type_size host_place ≤ result }
{
    HOST_ROOM
}

/// A `dgt_follower` of C: the handle, and the room that it points to.
#[repr(C)]
pub struct FollowerPlace {
    at: *mut u8,
    inside: Follower,
}

/// Makes a follower that has sent no request, with a period of ten seconds and a patience of six
/// heartbeats. `follower` points to room for a `dgt_follower`.
#[unsafe(no_mangle)]
pub unsafe extern "C" fn dgt_follower_make(follower: *mut DgtFollower)
    requires* { sem 𝓛 (room_at follower_place follower) }
    ensures* { sem 𝓛 (lies_at follower_handle full_share follower
        (record { at = follower +ₚ 8; inside = plain_follower })) }
{
    make!(follower: DgtFollower in FollowerPlace, default_follower());
}

/// The size of a `dgt_follower` in bytes.
#[unsafe(no_mangle)]
pub extern "C" fn dgt_follower_size() -> usize
    ensures number { result ≡ FOLLOWER_ROOM }
    ensures enough { type_size follower_place ≤ result }
{
    FOLLOWER_ROOM
}

/// A `dgt_decoder` of C: the handle, and the room that it points to.
#[repr(C)]
pub struct DecoderPlace {
    at: *mut u8,
    inside: Decoder,
}

/// Makes a decoder that has read nothing. `decoder` points to room for a `dgt_decoder`.
#[unsafe(no_mangle)]
pub unsafe extern "C" fn dgt_decoder_make(decoder: *mut DgtDecoder)
    requires* { sem 𝓛 (room_at decoder_place decoder) }
    ensures* { sem 𝓛 (lies_at decoder_handle full_share decoder
        (record { at = decoder +ₚ 8; inside = [] })) }
{
    make!(decoder: DgtDecoder in DecoderPlace, Decoder::new());
}

/// The size of a `dgt_decoder` in bytes.
#[unsafe(no_mangle)]
pub extern "C" fn dgt_decoder_size() -> usize
    ensures number { result ≡ DECODER_ROOM }
    ensures enough { type_size decoder_place ≤ result }
{
    DECODER_ROOM
}

/// A `dgt_command_decoder` of C: the handle, and the room that it points to.
#[repr(C)]
pub struct CommandDecoderPlace {
    at: *mut u8,
    inside: CommandDecoder,
}

/// Makes a decoder of commands that holds nothing. `command_decoder` points to room for a
/// `dgt_command_decoder`.
#[unsafe(no_mangle)]
pub unsafe extern "C" fn dgt_command_decoder_make(command_decoder: *mut DgtCommandDecoder)
    requires* { sem 𝓛 (room_at command_decoder_place command_decoder) }
    ensures* { sem 𝓛 (lies_at command_decoder_handle full_share command_decoder
        (record { at = command_decoder +ₚ 8; inside = [] })) }
{
    make!(command_decoder: DgtCommandDecoder in CommandDecoderPlace, CommandDecoder::new());
}

/// The size of a `dgt_command_decoder` in bytes.
#[unsafe(no_mangle)]
pub extern "C" fn dgt_command_decoder_size() -> usize
    ensures number { result ≡ COMMAND_DECODER_ROOM }
    ensures enough { type_size command_decoder_place ≤ result }
{
    COMMAND_DECODER_ROOM
}

/// A `dgt_board` of C: the handle, and the room that it points to.
#[repr(C)]
pub struct BoardPlace {
    at: *mut u8,
    inside: Board,
}

/// Makes a board in the initial position of a game, with the clock and the identity of the board of
/// the program `dgt`. `board` points to room for a `dgt_board`.
#[unsafe(no_mangle)]
pub unsafe extern "C" fn dgt_board_make(board: *mut DgtBoard)
    requires* { sem 𝓛 (room_at board_place board) }
    ensures* { sem 𝓛 (lies_at board_handle full_share board
        (record { at = board +ₚ 8; inside = plain_board })) }
{
    make!(board: DgtBoard in BoardPlace, board_of_program());
}

/// The size of a `dgt_board` in bytes.
#[unsafe(no_mangle)]
pub extern "C" fn dgt_board_size() -> usize
    ensures number { result ≡ BOARD_ROOM }
    ensures enough { type_size board_place ≤ result }
{
    BOARD_ROOM
}

/// A `dgt_recogniser` of C: the handle, and the room that it points to.
#[repr(C)]
pub struct RecogniserPlace {
    at: *mut u8,
    inside: Recogniser,
}

/// Makes a recogniser that has seen nothing. `recogniser` points to room for a `dgt_recogniser`.
#[unsafe(no_mangle)]
pub unsafe extern "C" fn dgt_recogniser_make(recogniser: *mut DgtRecogniser)
    requires* { sem 𝓛 (room_at recogniser_place recogniser) }
    ensures* { sem 𝓛 (lies_at recogniser_handle full_share recogniser
        (record { at = recogniser +ₚ 8; inside = new_recogniser })) }
{
    make!(recogniser: DgtRecogniser in RecogniserPlace, Recogniser::new());
}

/// The size of a `dgt_recogniser` in bytes.
#[unsafe(no_mangle)]
pub extern "C" fn dgt_recogniser_size() -> usize
    ensures number { result ≡ RECOGNISER_ROOM }
    ensures enough { type_size recogniser_place ≤ result }
{
    RECOGNISER_ROOM
}
