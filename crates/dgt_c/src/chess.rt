//! C calls for the rules of chess.

ghost use Rattle.std.specs.Prelude.{◌≡◌, ◌↔◌, ◌≤◌, false, IsTrue};
ghost use Rattle.dgt_chess.specs.declared.state.Move.{Move as AnyMove};
ghost use Rattle.dgt_chess.specs.declared.state.State.{State as AnyState};
ghost use Rattle.dgt_chess.specs.Attacks.{IsInCheck};
ghost use Rattle.dgt_chess.specs.Draws.{IsDead, IsRepeated};
ghost use Rattle.dgt_chess.specs.Rules.{CanMove, IsStart, board};
ghost use Rattle.dgt_c.specs.Chess.{AreGoals, HasStatus, IsState, IsStateThat, LeadsTo, Plays, SaysLegal, SaysMove, SaysState};

use crate::checking::read_position;
use crate::chess_states::{move_for_c, read_both, read_state, state_for_c, status_for_c};
use crate::header::{DgtChessMove, DgtChessState};
use dgt_chess::State;
use dgt_values::Square;

/// Writes the state in which a game begins.
#[unsafe(no_mangle)]
pub extern "C" fn dgt_chess_start(state: &mut DgtChessState)
    ensures { (start : AnyState) × IsStart start × SaysState state.new start }
{
    *state = state_for_c(&State::start());
}

/// 0 if a game may reach the state in the struct, and otherwise the number of the first reason
/// against it.
#[unsafe(no_mangle)]
pub extern "C" fn dgt_chess_check(state: &DgtChessState) -> u8
    ensures { HasStatus state.now result }
{
    status_for_c(state)
}

/// Whether the structs describe a state and a legal move.
#[unsafe(no_mangle)]
pub extern "C" fn dgt_chess_is_legal(state: &DgtChessState, one: &DgtChessMove) -> bool
    ensures { IsTrue result ↔ SaysLegal state.now one.now }
{
    match read_both(state, one) {
        Some((state, one)) => state.is_legal(one),
        None => false,
    }
}

/// Makes a legal move. Returns false if the structs don't describe a state and a legal move; then
/// the state is unchanged.
#[unsafe(no_mangle)]
pub extern "C" fn dgt_chess_play(state: &mut DgtChessState, one: &DgtChessMove) -> bool
    ensures played { IsTrue result → Plays state.old one.now state.new }
    ensures refused { result ≡ false →
        ¬ (SaysLegal state.old one.now) × (state.new ≡ state.old) }
{
    let Some((before, one)) = read_both(state, one) else {
        return false;
    };
    match before.play(one) {
        Ok(after) => {
            *state = state_for_c(&after);
            true
        }
        Err(_) => false,
    }
}

fn put_goals(state: &State, goals: &mut [u64; 64])
    ensures { AreGoals state.now goals.new }
{
    for from in 0..64 {
        goals[from as usize] = state.goals(Square::from_small(from));
    }
}

/// Writes the squares to which each piece may move: bit n of `goals[from]` is set if a legal move
/// leads from there to square n. Returns false if the struct describes no state; then the slice is
/// unchanged.
#[unsafe(no_mangle)]
pub extern "C" fn dgt_chess_goals(state: &DgtChessState, goals: &mut [u64; 64]) -> bool
    ensures listed { IsTrue result → IsStateThat state.now (λ it. AreGoals it goals.new) }
    ensures none { result ≡ false → ¬ (IsState state.now) × (goals.new ≡ goals.old) }
{
    match read_state(state) {
        Some(state) => {
            put_goals(&state, goals);
            true
        }
        None => false,
    }
}

/// Writes the legal move that leads to these pieces. Returns false if there is none; then the move
/// is unchanged.
#[unsafe(no_mangle)]
pub extern "C" fn dgt_chess_move_to(
    state: &DgtChessState,
    pieces: &[u8; 64],
    one: &mut DgtChessMove,
) -> bool
    ensures found { IsTrue result →
        (found : AnyMove) × LeadsTo state.now pieces.now found × SaysMove one.new found }
    ensures none { result ≡ false →
        ((move : AnyMove) → ¬ (LeadsTo state.now pieces.now move)) × (one.new ≡ one.old) }
{
    dgt_values::laws::one_piece_a_code();
    let Some(state) = read_state(state) else {
        return false;
    };
    let Some(picture) = read_position(pieces) else {
        return false;
    };
    match state.move_to(&picture) {
        Some(found) => {
            *one = move_for_c(found);
            true
        }
        None => false,
    }
}

/// Whether the side to move is in check.
#[unsafe(no_mangle)]
pub extern "C" fn dgt_chess_is_check(state: &DgtChessState) -> bool
    ensures { IsTrue result ↔ IsStateThat state.now (λ it. IsInCheck (board it) it.turn) }
{
    match read_state(state) {
        Some(state) => state.is_check(),
        None => false,
    }
}

/// Whether the side to move has a legal move.
#[unsafe(no_mangle)]
pub extern "C" fn dgt_chess_can_move(state: &DgtChessState) -> bool
    ensures { IsTrue result ↔ IsStateThat state.now (λ it. CanMove it) }
{
    match read_state(state) {
        Some(state) => state.can_move(),
        None => false,
    }
}

/// Whether the side to move is checkmated.
#[unsafe(no_mangle)]
pub extern "C" fn dgt_chess_is_mate(state: &DgtChessState) -> bool
    ensures { IsTrue result
        ↔ IsStateThat state.now (λ it. IsInCheck (board it) it.turn × ¬ (CanMove it)) }
{
    match read_state(state) {
        Some(state) => state.is_mate(),
        None => false,
    }
}

/// Whether the side to move has no legal move and isn't in check.
#[unsafe(no_mangle)]
pub extern "C" fn dgt_chess_is_stalemate(state: &DgtChessState) -> bool
    ensures { IsTrue result
        ↔ IsStateThat state.now (λ it. ¬ (IsInCheck (board it) it.turn) × ¬ (CanMove it)) }
{
    match read_state(state) {
        Some(state) => state.is_stalemate(),
        None => false,
    }
}

/// Whether no moves can lead to checkmate, as `State::is_dead` of dgt_chess finds it.
#[unsafe(no_mangle)]
pub extern "C" fn dgt_chess_is_dead(state: &DgtChessState) -> bool
    ensures { IsTrue result ↔ IsStateThat state.now (λ it. IsDead (board it)) }
{
    match read_state(state) {
        Some(state) => state.is_dead(),
        None => false,
    }
}

/// Whether the last 50 moves of each side moved no pawn and captured nothing.
#[unsafe(no_mangle)]
pub extern "C" fn dgt_chess_is_fifty_moves(state: &DgtChessState) -> bool
    ensures { IsTrue result ↔ IsStateThat state.now (λ it. 100 ≤ it.half_moves) }
{
    match read_state(state) {
        Some(state) => state.is_fifty_moves(),
        None => false,
    }
}

/// Whether the last 75 moves of each side moved no pawn and captured nothing.
#[unsafe(no_mangle)]
pub extern "C" fn dgt_chess_is_seventy_five_moves(state: &DgtChessState) -> bool
    ensures { IsTrue result ↔ IsStateThat state.now (λ it. 150 ≤ it.half_moves) }
{
    match read_state(state) {
        Some(state) => state.is_seventy_five_moves(),
        None => false,
    }
}

/// Whether two states have the same position, in which the same moves are possible.
#[unsafe(no_mangle)]
pub extern "C" fn dgt_chess_is_repeated(state: &DgtChessState, other: &DgtChessState) -> bool
    ensures { IsTrue result
        ↔ IsStateThat state.now (λ it. IsStateThat other.now (λ last. IsRepeated it last)) }
{
    match read_state(state) {
        Some(state) => match read_state(other) {
            Some(other) => state.is_repeated(&other),
            None => false,
        },
        None => false,
    }
}
