//! States and moves of chess as structs of C, in both directions.

ghost use Rattle.std.specs.Prelude.{◌≡◌, ◌≢◌, Bool, List, ℕ, MatchOption, MatchResult, Option};
ghost use Rattle.dgt_values.specs.declared.squares.Square.{Square as AnySquare};
ghost use Rattle.dgt_chess.specs.declared.pieces.Colour.{Colour as AnyColour};
ghost use Rattle.dgt_chess.specs.declared.pieces.Man.{Man as AnyMan};
ghost use Rattle.dgt_chess.specs.declared.possible.Rights.{Rights as AnyRights};
ghost use Rattle.dgt_chess.specs.declared.state.Move.{Move as AnyMove};
ghost use Rattle.dgt_chess.specs.declared.state.State.{State as AnyState};
ghost use Rattle.dgt_c.specs.Chess.{HasParts, HasStatus, IsOnlyMove, IsOnlyState, IsState, RefusesState, SaysMove, SaysState, colour_number, passed_number, promotion_code, reason_status, rights_flags};
ghost use Rattle.dgt_c.specs.Hearing.{flag};

use crate::checking::read_position;
use crate::header::{
    CHESS_BAD_KINGS, CHESS_BAD_MEMBER, CHESS_BAD_NUMBER, CHESS_BAD_PASSED, CHESS_BAD_PAWN,
    CHESS_BAD_RIGHTS, CHESS_BLACK, CHESS_DONE, CHESS_EXTRA_PIECE, CHESS_IN_CHECK, CHESS_WHITE,
    DgtChessMove, DgtChessState, NONE,
};
use dgt_chess::{Colour, Impossible, Man, Move, Rights, State};
use dgt_values::Square;

fn read_flag(byte: u8) -> Option<bool>
    ensures { MatchOption result ((is : Bool) → byte ≢ flag is) (λ is. byte ≡ flag is) }
{
    match byte {
        0 => Some(false),
        1 => Some(true),
        _ => None,
    }
}

/// The side with this number.
pub(crate) fn read_colour(byte: u8) -> Option<Colour>
    ensures { MatchOption result ((colour : AnyColour) → byte ≢ colour_number colour)
        (λ colour. byte ≡ colour_number colour) }
{
    match byte {
        CHESS_WHITE => Some(Colour::White),
        CHESS_BLACK => Some(Colour::Black),
        _ => None,
    }
}

fn read_rights(flags: [u8; 4]) -> Option<Rights>
    ensures { MatchOption result ((rights : AnyRights) → flags ≢ rights_flags rights)
        (λ rights. flags ≡ rights_flags rights) }
{
    let [white_short, white_long, black_short, black_long] = flags;
    Some(Rights {
        white_short: read_flag(white_short)?,
        white_long: read_flag(white_long)?,
        black_short: read_flag(black_short)?,
        black_long: read_flag(black_long)?,
    })
}

fn read_passed(byte: u8) -> Option<Option<Square>>
    ensures { MatchOption result ((passed : Option AnySquare) → byte ≢ passed_number passed)
        (λ passed. byte ≡ passed_number passed) }
{
    if byte == NONE {
        return Some(None);
    }
    match Square::from_index(byte) {
        Ok(square) => Some(Some(square)),
        Err(_) => None,
    }
}

/// The state in the struct, or why no game reaches it. `None` if a member has a value that isn't
/// listed for it.
pub(crate) fn read_parts(said: &DgtChessState) -> Option<Result<State, Impossible>>
    ensures { MatchOption result (¬ (HasParts said.now))
        (λ r. MatchResult r (λ state. SaysState said.now state)
        (λ why. RefusesState said.now why)) }
{
    if said.reserved != [0; 6] {
        return None;
    }
    let position = read_position(&said.pieces)?;
    let turn = read_colour(said.turn)?;
    let rights = read_rights(said.rights)?;
    let passed = read_passed(said.passed)?;
    Some(State::new(position, turn, rights, passed, said.half_moves, said.number))
}

/// The state in the struct, if it describes one.
pub(crate) fn read_state(said: &DgtChessState) -> Option<State>
    ensures { MatchOption result (¬ (IsState said.now)) (λ state. IsOnlyState said.now state) }
{
    dgt_chess::laws::refused_are_impossible();
    dgt_chess::laws::states_are_possible();
    dgt_values::laws::one_piece_a_code();
    match read_parts(said)? {
        Ok(state) => Some(state),
        Err(_) => None,
    }
}

/// The status of a reason.
pub(crate) fn reason_for_c(why: Impossible) -> u8
    ensures { result ≡ reason_status why }
{
    match why {
        Impossible::Kings => CHESS_BAD_KINGS,
        Impossible::Extra => CHESS_EXTRA_PIECE,
        Impossible::Pawn => CHESS_BAD_PAWN,
        Impossible::Check => CHESS_IN_CHECK,
        Impossible::Rights => CHESS_BAD_RIGHTS,
        Impossible::Passed => CHESS_BAD_PASSED,
        Impossible::Number => CHESS_BAD_NUMBER,
    }
}

/// The status of the struct.
pub(crate) fn status_for_c(said: &DgtChessState) -> u8
    ensures { HasStatus said.now result }
{
    match read_parts(said) {
        Some(Ok(_)) => CHESS_DONE,
        Some(Err(why)) => reason_for_c(why),
        None => CHESS_BAD_MEMBER,
    }
}

fn colour_for_c(colour: Colour) -> u8
    ensures { result ≡ colour_number colour }
{
    match colour {
        Colour::White => CHESS_WHITE,
        Colour::Black => CHESS_BLACK,
    }
}

fn rights_for_c(rights: Rights) -> [u8; 4]
    ensures { result ≡ rights_flags rights }
{
    [
        u8::from(rights.white_short),
        u8::from(rights.white_long),
        u8::from(rights.black_short),
        u8::from(rights.black_long),
    ]
}

fn passed_for_c(passed: Option<Square>) -> u8
    ensures { result ≡ passed_number passed }
{
    match passed {
        Some(square) => square.index(),
        None => NONE,
    }
}

/// A state, as a struct.
pub(crate) fn state_for_c(state: &State) -> DgtChessState
    ensures { SaysState result state.now }
{
    DgtChessState {
        pieces: state.position().codes(),
        half_moves: state.half_moves(),
        number: state.number(),
        turn: colour_for_c(state.turn()),
        rights: rights_for_c(state.rights()),
        passed: passed_for_c(state.passed()),
        reserved: [0; 6],
    }
}

fn read_promotion(byte: u8) -> Option<Option<Man>>
    ensures { MatchOption result ((promotion : Option AnyMan) → byte ≢ promotion_code promotion)
        (λ promotion. byte ≡ promotion_code promotion) }
{
    match byte {
        0 => Some(None),
        1 => Some(Some(Man::Pawn)),
        2 => Some(Some(Man::Rook)),
        3 => Some(Some(Man::Knight)),
        4 => Some(Some(Man::Bishop)),
        5 => Some(Some(Man::King)),
        6 => Some(Some(Man::Queen)),
        _ => None,
    }
}

/// The move in the struct, if it describes one.
pub(crate) fn read_move(said: &DgtChessMove) -> Option<Move>
    ensures { MatchOption result ((one : AnyMove) → ¬ (SaysMove said.now one))
        (λ one. IsOnlyMove said.now one) }
{
    if said.reserved != 0 {
        return None;
    }
    let (Ok(from), Ok(to)) = (Square::from_index(said.from), Square::from_index(said.to)) else {
        return None;
    };
    Some(Move {
        from,
        to,
        promotion: read_promotion(said.promotion)?,
    })
}

/// The state and the move in the structs, if they describe both.
pub(crate) fn read_both(said: &DgtChessState, moved: &DgtChessMove) -> Option<(State, Move)>
    ensures { MatchOption result
        ((state : AnyState) (one : AnyMove) → SaysState said.now state → ¬ (SaysMove moved.now one))
        (λ both. IsOnlyState said.now both.0 × IsOnlyMove moved.now both.1) }
{
    let state = read_state(said)?;
    let one = read_move(moved)?;
    Some((state, one))
}

fn promotion_for_c(promotion: Option<Man>) -> u8
    ensures { result ≡ promotion_code promotion }
{
    match promotion {
        Some(man) => Colour::White.piece(man).code(),
        None => 0,
    }
}

/// A move, as a struct.
pub(crate) fn move_for_c(one: Move) -> DgtChessMove
    ensures { SaysMove result one }
{
    DgtChessMove {
        from: one.from.index(),
        to: one.to.index(),
        promotion: promotion_for_c(one.promotion),
        reserved: 0,
    }
}
