//! C calls of a board.

ghost use Rattle.std.specs.Prelude.{◌≡◌, ◌≤◌, ◌<◌, ◌↔◌, ◌+◌, length, false, IsTrue, IsSome, IfSome, map};
ghost use Rattle.dgt_values.specs.Board.{piece_code};
ghost use Rattle.dgt_values.specs.declared.pieces.Piece.{Piece};
ghost use Rattle.dgt_message.specs.Clock.{ClockState};
ghost use Rattle.dgt_message.specs.Encoding.{encoding};
ghost use Rattle.dgt_command.specs.Words.{IsPartial};
ghost use Rattle.dgt_board.specs.State.{after_change, after_hand_clock};
ghost use Rattle.dgt_board.specs.Sending.{left_to_send, next_message};
ghost use Rattle.dgt_board.specs.View.{view_after_line_lost};
ghost use Rattle.dgt_c.specs.Clocks.{SaysClock, clock_reported};
ghost use Rattle.dgt_c.specs.Boards.{PollsReported, Takes, mode_number};

use crate::clocks::{clock_for_c, read_clock};
use crate::commands::report_command;
use crate::handles::DgtBoard;
use crate::header::{
    DgtClock, DgtCommand, DgtPolled, DgtTaken, MODE_IDLE, MODE_UPDATE, MODE_UPDATE_BOARD,
    MODE_UPDATE_NICE, NO_ROOM, NO_WORD, POLLED_NOTHING, POLLED_WROTE,
};
use dgt_board::{MAX_OWED, MAX_SENT, Mode, Polled};
use dgt_command::MAX_WORD;
use dgt_values::{Piece, Square};

/// Puts a piece on a square, or removes one. Returns false if there is no such square or piece.
#[unsafe(no_mangle)]
pub extern "C" fn dgt_board_change(board: &mut DgtBoard, square: u8, piece: u8) -> bool
    ensures place { board.new.at ≡ board.old.at }
    ensures done { IsTrue result → (put : Piece) × (piece_code put ≡ piece) × (square < 64)
        × (board.new.inside ≡
        record board.old.inside { state = after_change board.old.inside.state square put }) }
    ensures refused { result ≡ false →
        (board.new.inside ≡ board.old.inside) × (square < 64 → 16 ≤ piece) }
{
    let Ok(square) = Square::from_index(square) else {
        return false;
    };
    let Ok(piece) = Piece::from_code(piece) else {
        return false;
    };
    board.get().change(square, piece);
    true
}

/// Sets what the clock shows. Returns false if the struct is not a clock.
#[unsafe(no_mangle)]
pub extern "C" fn dgt_board_hand_clock(board: &mut DgtBoard, clock: &DgtClock) -> bool
    ensures place { board.new.at ≡ board.old.at }
    ensures done { IsTrue result → (shown : ClockState) × SaysClock clock.now shown
        × (board.new.inside ≡
        record board.old.inside { state = after_hand_clock board.old.inside.state shown }) }
    ensures refused { result ≡ false → (board.new.inside ≡ board.old.inside)
        × ((shown : ClockState) → ¬ (SaysClock clock.now shown)) }
{
    match read_clock(clock) {
        Some(clock) => {
            board.get().hand_clock(clock);
            true
        }
        None => false,
    }
}

/// Simulates a lost line: the board forgets all requests.
#[unsafe(no_mangle)]
pub extern "C" fn dgt_board_line_lost(board: &mut DgtBoard)
    ensures place { board.new.at ≡ board.old.at }
    ensures lost { board.new.inside ≡ view_after_line_lost board.old.inside }
{
    board.get().line_lost();
}

/// Uses the bytes up to and including the first that completes a command or a fault, or all of
/// them. Reports the command or fault, and copies as many of the command's bytes as fit.
#[unsafe(no_mangle)]
pub extern "C" fn dgt_board_take(
    board: &mut DgtBoard,
    bytes: &[u8],
    command: &mut DgtCommand,
    word: &mut [u8],
) -> DgtTaken
    ensures place { board.new.at ≡ board.old.at }
    ensures busy { IsTrue result.busy ↔ (length board.old.inside.state.owed ≡ 8) }
    ensures within { result.used ≤ length bytes.now }
    ensures takes { Takes board.old.inside bytes.now result
        (record { command = command.new; old = word.old; new = word.new }) board.new.inside }
    ensures progress { result.busy ≡ false → 0 < length bytes.now → 0 < result.used }
{
    let (busy, used) = match board.get().take(bytes) {
        Ok(taken) => {
            *command = report_command(&taken.event, word);
            (false, taken.used)
        }
        Err(_) => {
            *command = NO_WORD;
            (true, 0)
        }
    };
    DgtTaken { busy, used }
}

/// Writes the next message at the beginning of the slice, and counts it as sent.
#[unsafe(no_mangle)]
pub extern "C" fn dgt_board_poll(board: &mut DgtBoard, out: &mut [u8]) -> DgtPolled
    ensures place { board.new.at ≡ board.old.at }
    ensures polls { PollsReported result board.old.inside board.new.inside out.old out.new }
    ensures short { IfSome (next_message board.old.inside.state)
        (λ message. length (encoding message) ≤ MAX_SENT) }
    ensures falls { result.status ≡ POLLED_WROTE →
        left_to_send board.new.inside.state < left_to_send board.old.inside.state }
    ensures nothing { (result.status ≡ POLLED_NOTHING)
        ↔ (left_to_send board.old.inside.state ≡ 0) }
    ensures bound { left_to_send board.old.inside.state
        ≤ length board.old.inside.state.owed + 65 }
    ensures room { result.status ≡ NO_ROOM → length out.old < MAX_SENT }
{
    let (status, bytes) = match board.get().poll(out) {
        Polled::Nothing => (POLLED_NOTHING, 0),
        Polled::Wrote(bytes) => (POLLED_WROTE, bytes),
        Polled::NeedRoom(bytes) => (NO_ROOM, bytes),
    };
    DgtPolled { status, bytes }
}

/// Whether there is anything to send.
#[unsafe(no_mangle)]
pub extern "C" fn dgt_board_owes(board: &mut DgtBoard) -> bool
    ensures place { board.new.at ≡ board.old.at }
    ensures same { board.new.inside ≡ board.old.inside }
    ensures owes { IsTrue result ↔ IsSome (next_message board.old.inside.state) }
{
    board.get().owes()
}

/// How many replies are owed.
#[unsafe(no_mangle)]
pub extern "C" fn dgt_board_owed_len(board: &mut DgtBoard) -> usize
    ensures place { board.new.at ≡ board.old.at }
    ensures same { board.new.inside ≡ board.old.inside }
    ensures length { result ≡ length board.old.inside.state.owed }
    ensures limit { result ≤ MAX_OWED }
{
    board.get().owed_len()
}

/// How many bytes of an unfinished command are held.
#[unsafe(no_mangle)]
pub extern "C" fn dgt_board_unread(board: &mut DgtBoard) -> usize
    ensures place { board.new.at ≡ board.old.at }
    ensures same { board.new.inside ≡ board.old.inside }
    ensures length { result ≡ length board.old.inside.partial }
    ensures unfinished { IsPartial board.old.inside.partial }
    ensures limit { result < MAX_WORD }
{
    board.get().partial()
}

/// The board's mode: which changes it reports by itself.
#[unsafe(no_mangle)]
pub extern "C" fn dgt_board_mode(board: &mut DgtBoard) -> u8
    ensures place { board.new.at ≡ board.old.at }
    ensures same { board.new.inside ≡ board.old.inside }
    ensures mode { result ≡ mode_number board.old.inside.state.mode }
{
    match board.get().mode() {
        Mode::Idle => MODE_IDLE,
        Mode::Update => MODE_UPDATE,
        Mode::UpdateBoard => MODE_UPDATE_BOARD,
        Mode::UpdateNice => MODE_UPDATE_NICE,
    }
}

/// The codes of the pieces on the squares.
#[unsafe(no_mangle)]
pub extern "C" fn dgt_board_position(board: &mut DgtBoard, pieces: &mut [u8; 64])
    ensures place { board.new.at ≡ board.old.at }
    ensures same { board.new.inside ≡ board.old.inside }
    ensures pieces { pieces.new ≡ map piece_code board.old.inside.state.squares }
{
    *pieces = board.get().position().codes();
}

/// What the clock shows.
#[unsafe(no_mangle)]
pub extern "C" fn dgt_board_clock(board: &mut DgtBoard, clock: &mut DgtClock)
    ensures place { board.new.at ≡ board.old.at }
    ensures same { board.new.inside ≡ board.old.inside }
    ensures clock { clock.new ≡ clock_reported board.old.inside.state.clock }
{
    *clock = clock_for_c(board.get().clock());
}
