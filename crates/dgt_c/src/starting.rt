//! The C call that makes a board from its parts.

ghost use Rattle.std.specs.Prelude.{◌≡◌, ◌≢◌, ◌≤◌, List, MatchOption, map};
ghost use Rattle.dgt_values.specs.Board.{piece_code};
ghost use Rattle.dgt_values.specs.declared.pieces.Piece.{Piece};
ghost use Rattle.dgt_values.specs.Bytes.{body_bytes};
ghost use Rattle.dgt_message.specs.Clock.{ClockState};
ghost use Rattle.dgt_c.specs.Clocks.{SaysClock};
ghost use Rattle.dgt_c.specs.Starting.{ArePieces, IsBody, IsIdentity, Starts, body_in, identity_in};

use crate::checking::{are_zeros, read_position, read_seven_bits};
use crate::clocks::read_clock;
use crate::handles::DgtBoard;
use crate::header::{
    DgtBody, DgtClock, DgtIdentity, START_BAD_CLOCK, START_BAD_IDENTITY, START_BAD_PIECES, STARTED,
};
use dgt_board::{Board, Identity, MAX_KEPT_BODY};
use dgt_values::{Body, SevenBit};

// The body in the struct, if it is valid.
fn read_body<'a>(said: &'a DgtBody) -> Option<Body<'a>>
    ensures { MatchOption result (¬ (IsBody said.now))
        (λ body. IsBody said.now × (body_bytes body ≡ body_in said.now)) }
{
    if said.len > MAX_KEPT_BODY {
        return None;
    }
    Body::new(&said.bytes[..said.len]).ok()
}

// The identity in the struct, if it is valid.
fn read_identity(said: &DgtIdentity) -> Option<Identity>
    ensures { MatchOption result (¬ (IsIdentity said.now))
        (λ identity. IsIdentity said.now × (identity ≡ identity_in said.now)) }
{
    if !are_zeros(&said.reserved) {
        return None;
    }
    let serial = read_seven_bits(&said.serial)?;
    let main = SevenBit::try_from(said.main_number).ok()?;
    let sub = SevenBit::try_from(said.sub_number).ok()?;
    let trademark = read_body(&said.trademark)?;
    let battery = read_body(&said.battery)?;
    let long_serial = read_body(&said.long_serial)?;
    let version = said.clock_version;
    Identity::new(serial, trademark, main, sub, battery, version, long_serial).ok()
}

/// Makes the board as new, with these pieces, this clock and this identity, or returns which of
/// them is the first that isn't valid.
#[unsafe(no_mangle)]
pub extern "C" fn dgt_board_start(
    board: &mut DgtBoard,
    pieces: &[u8; 64],
    clock: &DgtClock,
    identity: &DgtIdentity,
) -> u8
    ensures place { board.new.at ≡ board.old.at }
    ensures started { result ≡ STARTED →
        Starts pieces.now clock.now identity.now board.new.inside }
    ensures bad_pieces { result ≡ START_BAD_PIECES → ¬ (ArePieces pieces.now) }
    ensures bad_clock { result ≡ START_BAD_CLOCK → (stand : List Piece)
        × (map piece_code stand ≡ pieces.now)
        × ((shown : ClockState) → ¬ (SaysClock clock.now shown)) }
    ensures bad_identity { result ≡ START_BAD_IDENTITY → (stand : List Piece)
        × (shown : ClockState) × (map piece_code stand ≡ pieces.now)
        × SaysClock clock.now shown × ¬ (IsIdentity identity.now) }
    ensures refused { result ≢ STARTED → board.new.inside ≡ board.old.inside }
    ensures statuses { result ≤ START_BAD_IDENTITY }
{
    let Some(position) = read_position(pieces) else {
        return START_BAD_PIECES;
    };
    let Some(clock) = read_clock(clock) else {
        return START_BAD_CLOCK;
    };
    let Some(identity) = read_identity(identity) else {
        return START_BAD_IDENTITY;
    };
    *board.get() = Board::new(position, clock, identity);
    STARTED
}
