//! What some half-moves can change on a board at most.

ghost use Rattle.std.specs.Prelude.{◌≡◌, ◌<◌, ◌≤◌, IsTrue};
ghost use Rattle.dgt_values.specs.Board.{pieces_of};
ghost use Rattle.dgt_chess.specs.Attacks.{piece_of};
ghost use Rattle.dgt_chess.specs.Rules.{board};
ghost use Rattle.dgt_chess.specs.declared.pieces.Colour.{Colour};
ghost use Rattle.dgt_game.specs.Lines.{NoLine};
ghost use Rattle.dgt_game.specs.declared.reach.Kind.{Kind};
ghost use Rattle.dgt_game.specs.Reach.{IsBack, arrivals, counts, departures, has_arrived, has_left, is_of};

use crate::ways::is_same;
use dgt_chess::{Colour, Man, State};
use dgt_values::{Piece, Position};

/// Men of whom each half-move takes one at most from its square. A castling moves a king and a
/// rook, and a capture in passing takes pawns of both sides from theirs.
#[derive(Clone, Copy)]
pub(crate) enum Kind {
    /// Knights, bishops, queens, rooks, and the pawns of a side.
    WithRooks(Colour),
    /// Knights, bishops, queens and kings.
    WithKings,
}

/// Whether more men have arrived on squares or have left them than by this many half-moves, or
/// pawns have come back.
pub(crate) fn is_far(state: &State, picture: &Position, halves: u8) -> bool
    requires { halves ≤ 4 }
    ensures { IsTrue result → NoLine halves state.now (pieces_of picture.now) }
{
    if arrive_too_many(state, picture, halves) {
        return true;
    }
    if leave_too_many(state, picture, halves) {
        return true;
    }
    has_pawn_back(state, picture)
}

fn arrive_too_many(state: &State, picture: &Position, halves: u8) -> bool
    requires { halves ≤ 4 }
    ensures { IsTrue result → NoLine halves state.now (pieces_of picture.now) }
{
    let turn = state.turn();
    if arrivals(turn, state.position(), picture) > (halves + 1) / 2 {
        return true;
    }
    arrivals(turn.other(), state.position(), picture) > halves / 2
}

fn leave_too_many(state: &State, picture: &Position, halves: u8) -> bool
    ensures { IsTrue result
        → (kind : Kind) × (halves < departures kind (board state.now) (pieces_of picture.now)) }
{
    let old = state.position();
    departures(Kind::WithKings, old, picture) > halves
        || departures(Kind::WithRooks(Colour::White), old, picture) > halves
        || departures(Kind::WithRooks(Colour::Black), old, picture) > halves
}

// On how many squares men of the colour have arrived. Kings aren't counted, so that each half-move
// adds one at most, a castling too.
fn arrivals(colour: Colour, old: &Position, new: &Position) -> u8
    ensures { result ≡ arrivals colour (pieces_of old.now) (pieces_of new.now) }
{
    let olds = old.pieces();
    let news = new.pieces();
    let mut count = 0;
    for square in 0..64 {
        count += u8::from(has_arrived(colour, olds[square], news[square]));
    }
    count
}

fn has_arrived(colour: Colour, old: Piece, new: Piece) -> bool
    ensures { result ≡ has_arrived colour old new }
{
    old.code() != new.code() && counts(colour, new)
}

fn counts(colour: Colour, piece: Piece) -> bool
    ensures { result ≡ counts colour piece }
{
    match colour {
        Colour::White => matches!(
            piece,
            Piece::WhitePawn
                | Piece::WhiteKnight
                | Piece::WhiteBishop
                | Piece::WhiteRook
                | Piece::WhiteQueen
        ),
        Colour::Black => matches!(
            piece,
            Piece::BlackPawn
                | Piece::BlackKnight
                | Piece::BlackBishop
                | Piece::BlackRook
                | Piece::BlackQueen
        ),
    }
}

// On how many squares men of the kind were, and are no more.
fn departures(kind: Kind, old: &Position, new: &Position) -> u8
    ensures { result ≡ departures kind (pieces_of old.now) (pieces_of new.now) }
{
    let olds = old.pieces();
    let news = new.pieces();
    let mut count = 0;
    for square in 0..64 {
        count += u8::from(has_left(kind, olds[square], news[square]));
    }
    count
}

fn has_left(kind: Kind, old: Piece, new: Piece) -> bool
    ensures { result ≡ has_left kind old new }
{
    is_of(kind, old) && !is_of(kind, new)
}

fn is_of(kind: Kind, piece: Piece) -> bool
    ensures { result ≡ is_of kind piece }
{
    match piece {
        Piece::WhiteKnight
        | Piece::WhiteBishop
        | Piece::WhiteQueen
        | Piece::BlackKnight
        | Piece::BlackBishop
        | Piece::BlackQueen => true,
        Piece::WhiteKing | Piece::BlackKing => matches!(kind, Kind::WithKings),
        Piece::WhiteRook | Piece::BlackRook => matches!(kind, Kind::WithRooks(_)),
        Piece::WhitePawn => matches!(kind, Kind::WithRooks(Colour::White)),
        Piece::BlackPawn => matches!(kind, Kind::WithRooks(Colour::Black)),
        _ => false,
    }
}

// Whether a pawn has come back to its first row.
fn has_pawn_back(state: &State, picture: &Position) -> bool
    ensures { IsTrue result
        → (colour : Colour) × IsBack colour (board state.now) (pieces_of picture.now) }
{
    let old = state.position();
    is_back(Colour::White, old, picture) || is_back(Colour::Black, old, picture)
}

// Whether a pawn of the colour has come back to its first row.
fn is_back(colour: Colour, old: &Position, new: &Position) -> bool
    ensures { IsTrue result → IsBack colour (pieces_of old.now) (pieces_of new.now) }
{
    let olds = old.pieces();
    let news = new.pieces();
    let pawn = colour.piece(Man::Pawn);
    let first = match colour {
        Colour::White => 48,
        Colour::Black => 8,
    };
    for square in first..first + 8 {
        if is_same(news[square], pawn) && !is_same(olds[square], pawn) {
            return true;
        }
    }
    false
}
