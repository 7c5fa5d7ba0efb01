//! C calls for texts of states and moves of chess.

ghost use Rattle.std.specs.Prelude.{◌≡◌, false, IsTrue};
ghost use Rattle.dgt_chess.specs.Fen.{ParsesFen};
ghost use Rattle.dgt_chess.specs.San.{FitsOnly, ParsesSan};
ghost use Rattle.dgt_c.specs.Chess.{IsState, SaysLegal};
ghost use Rattle.dgt_c.specs.ChessTexts.{LeavesMove, PutsFen, PutsSan, ReadsFen, ReadsSan, fen_reported, field_number, san_status};

use crate::ascii::ascii_prefix;
use crate::chess_states::{
    move_for_c, read_both, read_state, reason_for_c, state_for_c, status_for_c,
};
use crate::copying::put_text;
use crate::header::{
    CHESS_AMBIGUOUS, CHESS_BAD_TEXT, CHESS_DONE, CHESS_FEN_ROOM, CHESS_NO_MOVE, CHESS_SAN_ROOM,
    DgtChessFenRead, DgtChessMove, DgtChessState,
};
use dgt_chess::{BadFen, BadSan, FenField, Move, State};

fn field_for_c(field: FenField) -> u8
    ensures { result ≡ field_number field }
{
    field as u8
}

fn fen_for_c(outcome: &Result<State, BadFen>) -> DgtChessFenRead
    ensures { result ≡ fen_reported outcome.now }
{
    let (status, field, at) = match outcome {
        Ok(_) => (CHESS_DONE, 0, 0),
        Err(BadFen::Text { field, at }) => (CHESS_BAD_TEXT, field_for_c(*field), *at),
        Err(BadFen::Impossible(why)) => (reason_for_c(*why), 0, 0),
    };
    DgtChessFenRead { status, field, at }
}

// The state of a text. A FEN contains only ASCII.
fn parse_fen(text: &[u8]) -> Result<State, BadFen>
    ensures { ParsesFen text.now result }
{
    let prefix = ascii_prefix(text);
    if prefix.len() == text.len() {
        return State::parse_fen(prefix);
    }
    let after = BadFen::Text {
        field: FenField::Number,
        at: prefix.len(),
    };
    match State::parse_fen(prefix) {
        Err(BadFen::Text { field, at }) => Err(BadFen::Text { field, at }),
        Err(BadFen::Impossible(_)) => Err(after),
        Ok(_) => Err(after),
    }
}

/// Reads a text in Forsyth-Edwards Notation. If it isn't the text of a state, the struct is
/// unchanged, and the fault is reported.
#[unsafe(no_mangle)]
pub extern "C" fn dgt_chess_parse_fen(text: &[u8], state: &mut DgtChessState) -> DgtChessFenRead
    ensures { ReadsFen text.now state.old state.new result }
{
    let outcome = parse_fen(text);
    if let Ok(read) = &outcome {
        *state = state_for_c(read);
    }
    fen_for_c(&outcome)
}

/// Writes a state in Forsyth-Edwards Notation, and a zero byte. Returns false if the struct
/// describes no state; then the slice is unchanged.
#[unsafe(no_mangle)]
pub extern "C" fn dgt_chess_fen(state: &DgtChessState, text: &mut [u8; CHESS_FEN_ROOM]) -> bool
    ensures written { IsTrue result → PutsFen state.now text.old text.new }
    ensures none { result ≡ false → ¬ (IsState state.now) × (text.new ≡ text.old) }
{
    match read_state(state) {
        Some(state) => {
            put_text(state.fen().as_bytes(), text);
            true
        }
        None => false,
    }
}

/// Writes a legal move in Standard Algebraic Notation, and a zero byte. Returns false if the
/// structs don't describe a state and a legal move; then the slice is unchanged.
#[unsafe(no_mangle)]
pub extern "C" fn dgt_chess_san(
    state: &DgtChessState,
    one: &DgtChessMove,
    text: &mut [u8; CHESS_SAN_ROOM],
) -> bool
    ensures written { IsTrue result → PutsSan state.now one.now text.old text.new }
    ensures none { result ≡ false →
        ¬ (SaysLegal state.now one.now) × (text.new ≡ text.old) }
{
    let Some((state, one)) = read_both(state, one) else {
        return false;
    };
    match state.san(one) {
        Ok(san) => {
            put_text(san.as_bytes(), text);
            true
        }
        Err(_) => false,
    }
}

fn put_move(outcome: Result<Move, BadSan>, one: &mut DgtChessMove) -> u8
    ensures status { result ≡ san_status outcome }
    ensures written { LeavesMove outcome one.old one.new }
{
    match outcome {
        Ok(read) => {
            *one = move_for_c(read);
            CHESS_DONE
        }
        Err(BadSan::NotSan) => CHESS_BAD_TEXT,
        Err(BadSan::NoMove) => CHESS_NO_MOVE,
        Err(BadSan::Ambiguous) => CHESS_AMBIGUOUS,
    }
}

// The move of a text. The text of a move contains only ASCII.
fn parse_san(state: &State, text: &[u8]) -> Result<Move, BadSan>
    ensures { ParsesSan state.now text.now result }
{
    let prefix = ascii_prefix(text);
    if prefix.len() < text.len() {
        return Err(BadSan::NotSan);
    }
    state.parse_san(prefix)
}

fn parse_san_leniently(state: &State, text: &[u8]) -> Result<Move, BadSan>
    ensures { FitsOnly state.now text.now result }
{
    let prefix = ascii_prefix(text);
    if prefix.len() < text.len() {
        return Err(BadSan::NotSan);
    }
    state.parse_san_leniently(prefix)
}

/// Reads the text of a legal move as `dgt_chess_san` writes it. If there is no such move, the
/// struct is unchanged.
#[unsafe(no_mangle)]
pub extern "C" fn dgt_chess_parse_san(
    state: &DgtChessState,
    text: &[u8],
    one: &mut DgtChessMove,
) -> u8
    ensures { ReadsSan ParsesSan state.now text.now one.old one.new result }
{
    match read_state(state) {
        Some(state) => put_move(parse_san(&state, text), one),
        None => status_for_c(state),
    }
}

/// Reads the text of a legal move in any usual style, if it fits only one. Otherwise the struct is
/// unchanged.
#[unsafe(no_mangle)]
pub extern "C" fn dgt_chess_parse_san_leniently(
    state: &DgtChessState,
    text: &[u8],
    one: &mut DgtChessMove,
) -> u8
    ensures { ReadsSan FitsOnly state.now text.now one.old one.new result }
{
    match read_state(state) {
        Some(state) => put_move(parse_san_leniently(&state, text), one),
        None => status_for_c(state),
    }
}
