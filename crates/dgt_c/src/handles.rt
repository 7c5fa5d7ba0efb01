//! The handles of C. Each points to the value that it owns, in C's memory. Contracts see that value
//! as `inside`.

ghost use Rattle.std.specs.Prelude.{◌≡◌, ℕ, List};
ghost use Rattle.std.specs.Borrow.{Lends, full_share, sem};
ghost use Rattle.std.specs.Ptr.{lies_at};
ghost use Rattle.dgt_board.specs.View.{BoardView};
ghost use Rattle.dgt_board.specs.contracts.boards.Board.{the_row as board_row};
ghost use Rattle.dgt_command.specs.contracts.decoder.CommandDecoder.{the_row as command_decoder_row};
ghost use Rattle.dgt_decode.specs.contracts.decoder.Decoder.{the_row as decoder_row};
ghost use Rattle.dgt_follow.specs.Follower.{FollowerView};
ghost use Rattle.dgt_follow.specs.contracts.follower.Follower.{the_row as follower_row};
ghost use Rattle.dgt_game.specs.contracts.recogniser.Recogniser.{the_row as recogniser_row};
ghost use Rattle.dgt_game.specs.declared.recogniser.Recogniser.{Recogniser as AnyRecogniser};
ghost use Rattle.dgt_host.specs.Host.{HostView};
ghost use Rattle.dgt_host.specs.contracts.host.Host.{the_row as host_row};

use dgt_board::Board;
use dgt_command::CommandDecoder;
use dgt_decode::Decoder;
use dgt_follow::Follower;
use dgt_game::Recogniser;
use dgt_host::Host;
use std::marker::{Model, Send};

// The handles are six structs with one proof: a struct with type arguments can't be passed to C,
// and the gate refuses an impl that a macro wrote.

/// A host in C's memory.
#[repr(C)]
#[derive(Drop)]
pub struct DgtHost {
    pub(crate) at: *mut u8,
    ghost inside: { HostView },
}

impl Model for DgtHost {
    ghost also_owns = { λ handle. lies_at host_row full_share handle.at handle.inside };
}

// It can be sent to another thread, as the value that it points to can.
unsafe impl Send for DgtHost {}

impl DgtHost {
    ghost use Rattle.dgt_c.specs.contracts.handles.DgtHost.{the_row};

    /// The host, borrowed.
    pub(crate) fn get(&mut self) -> &mut Host
        ensures* writes_back { sem 𝓛 (Lends the_row host_row self.entry result
            (λ inside. record self.old { inside = inside })) }
        ensures value { result.now ≡ self.old.inside }
    {
        unsafe { &mut *(self.at as *mut Host) }
    }
}

/// A follower in C's memory.
#[repr(C)]
#[derive(Drop)]
pub struct DgtFollower {
    pub(crate) at: *mut u8,
    ghost inside: { FollowerView },
}

impl Model for DgtFollower {
    ghost also_owns = { λ handle. lies_at follower_row full_share handle.at handle.inside };
}

// It can be sent to another thread, as the value that it points to can.
unsafe impl Send for DgtFollower {}

impl DgtFollower {
    ghost use Rattle.dgt_c.specs.contracts.handles.DgtFollower.{the_row};

    /// The follower, borrowed.
    pub(crate) fn get(&mut self) -> &mut Follower
        ensures* writes_back { sem 𝓛 (Lends the_row follower_row self.entry result
            (λ inside. record self.old { inside = inside })) }
        ensures value { result.now ≡ self.old.inside }
    {
        unsafe { &mut *(self.at as *mut Follower) }
    }
}

/// A decoder in C's memory.
#[repr(C)]
#[derive(Drop)]
pub struct DgtDecoder {
    pub(crate) at: *mut u8,
    ghost inside: { List ℕ },
}

impl Model for DgtDecoder {
    ghost also_owns = { λ handle. lies_at decoder_row full_share handle.at handle.inside };
}

// It can be sent to another thread, as the value that it points to can.
unsafe impl Send for DgtDecoder {}

impl DgtDecoder {
    ghost use Rattle.dgt_c.specs.contracts.handles.DgtDecoder.{the_row};

    /// The decoder, borrowed.
    pub(crate) fn get(&mut self) -> &mut Decoder
        ensures* writes_back { sem 𝓛 (Lends the_row decoder_row self.entry result
            (λ inside. record self.old { inside = inside })) }
        ensures value { result.now ≡ self.old.inside }
    {
        unsafe { &mut *(self.at as *mut Decoder) }
    }
}

/// A decoder of commands in C's memory.
#[repr(C)]
#[derive(Drop)]
pub struct DgtCommandDecoder {
    pub(crate) at: *mut u8,
    ghost inside: { List ℕ },
}

impl Model for DgtCommandDecoder {
    ghost also_owns = { λ handle. lies_at command_decoder_row full_share handle.at handle.inside };
}

// It can be sent to another thread, as the value that it points to can.
unsafe impl Send for DgtCommandDecoder {}

impl DgtCommandDecoder {
    ghost use Rattle.dgt_c.specs.contracts.handles.DgtCommandDecoder.{the_row};

    /// The decoder of commands, borrowed.
    pub(crate) fn get(&mut self) -> &mut CommandDecoder
        ensures* writes_back { sem 𝓛 (Lends the_row command_decoder_row self.entry result
            (λ inside. record self.old { inside = inside })) }
        ensures value { result.now ≡ self.old.inside }
    {
        unsafe { &mut *(self.at as *mut CommandDecoder) }
    }
}

/// A board in C's memory.
#[repr(C)]
#[derive(Drop)]
pub struct DgtBoard {
    pub(crate) at: *mut u8,
    ghost inside: { BoardView },
}

impl Model for DgtBoard {
    ghost also_owns = { λ handle. lies_at board_row full_share handle.at handle.inside };
}

// It can be sent to another thread, as the value that it points to can.
unsafe impl Send for DgtBoard {}

impl DgtBoard {
    ghost use Rattle.dgt_c.specs.contracts.handles.DgtBoard.{the_row};

    /// The board, borrowed.
    pub(crate) fn get(&mut self) -> &mut Board
        ensures* writes_back { sem 𝓛 (Lends the_row board_row self.entry result
            (λ inside. record self.old { inside = inside })) }
        ensures value { result.now ≡ self.old.inside }
    {
        unsafe { &mut *(self.at as *mut Board) }
    }
}

/// A recogniser in C's memory.
#[repr(C)]
#[derive(Drop)]
pub struct DgtRecogniser {
    pub(crate) at: *mut u8,
    ghost inside: { AnyRecogniser },
}

impl Model for DgtRecogniser {
    ghost also_owns = { λ handle. lies_at recogniser_row full_share handle.at handle.inside };
}

// It can be sent to another thread, as the value that it points to can.
unsafe impl Send for DgtRecogniser {}

impl DgtRecogniser {
    ghost use Rattle.dgt_c.specs.contracts.handles.DgtRecogniser.{the_row};

    /// The recogniser, borrowed.
    pub(crate) fn get(&mut self) -> &mut Recogniser
        ensures* writes_back { sem 𝓛 (Lends the_row recogniser_row self.entry result
            (λ inside. record self.old { inside = inside })) }
        ensures value { result.now ≡ self.old.inside }
    {
        unsafe { &mut *(self.at as *mut Recogniser) }
    }
}
