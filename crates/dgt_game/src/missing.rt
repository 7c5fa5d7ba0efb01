//! The half-move that leads to a picture in which one piece is gone.

ghost use Rattle.std.specs.Prelude.{◌≡◌, ◌≢◌, ◌<◌, ◌↔◌, IfSome, IsSome, IsTrue, MatchOption, ℕ, slice_set};
ghost use Rattle.dgt_values.specs.declared.pieces.Piece.{Piece};
ghost use Rattle.dgt_values.specs.Board.{pieces_of};
ghost use Rattle.dgt_chess.specs.Attacks.{piece_at};
ghost use Rattle.dgt_chess.specs.Rules.{board};
ghost use Rattle.dgt_game.specs.Missing.{CanBeGone, IsMissing, IsOneGone, MovesWithout};
ghost use Rattle.dgt_game.specs.Results.{IsKing};

use crate::reach::is_far;
use crate::ways::{half_move, is_same};
use dgt_chess::{Move, State};
use dgt_values::{Piece, Position, Square};

/// The half-move that leads to the picture with one missing piece put back, and the state after it.
/// `None` if there is none, or another piece may be missing.
pub(crate) fn half_move_without_one(state: &State, picture: &Position) -> Option<(Move, State)>
    ensures some { IsSome result ↔ IsOneGone state.now (pieces_of picture.now) }
    ensures is { IfSome result (λ found. (square : ℕ)
        × MovesWithout state.now found.0 found.1 (pieces_of picture.now) square) }
{
    let mut found = None;
    for at in 0..64u8 {
        let new = half_move_with(state, picture, at);
        if found.is_some() && new.is_some() {
            return None;
        }
        found = found.or(new);
    }
    found
}

// The half-move that leads to the picture with the piece of a square put back.
fn half_move_with(state: &State, picture: &Position, at: u8) -> Option<(Move, State)>
    ensures { at < 64 → MatchOption result (¬ (CanBeGone state.now (pieces_of picture.now) at))
        (λ found. MovesWithout state.now found.0 found.1 (pieces_of picture.now) at) }
{
    let whole = put_back_one(state, picture, at)?;
    if is_far(state, &whole, 1) {
        return None;
    }
    half_move(state, &whole)
}

// The picture with the piece of a square put back, if it is missing and isn't a king.
fn put_back_one(state: &State, picture: &Position, at: u8) -> Option<Position>
    ensures { at < 64 → MatchOption result (¬ (IsMissing (pieces_of picture.now) state.now at))
        (λ whole. IsMissing (pieces_of picture.now) state.now at × (pieces_of whole
        ≡ slice_set (pieces_of picture.now) at (piece_at (board state.now) at))) }
{
    let square = Square::from_small(at);
    let piece = state.position().get(square);
    if !is_same(picture.get(square), Piece::Empty) || !may_be_missing(piece) {
        return None;
    }
    let mut whole = *picture;
    whole.set(square, piece);
    Some(whole)
}

// Whether a piece counts if it is missing: kings are lifted for a result.
fn may_be_missing(piece: Piece) -> bool
    ensures { IsTrue result ↔ (piece ≢ Piece.Empty) × ¬ (IsKing piece) }
{
    !is_same(piece, Piece::Empty)
        && !is_same(piece, Piece::WhiteKing)
        && !is_same(piece, Piece::BlackKing)
}
