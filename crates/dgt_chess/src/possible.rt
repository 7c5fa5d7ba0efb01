//! Which states a game can reach.

ghost use Rattle.std.specs.Prelude.{◌≡◌, ◌≢◌, ◌↔◌, ◌<◌, ◌≤◌, ◌⊎◌, ℕ, IsTrue, MatchOption, option_map};
ghost use Rattle.dgt_values.specs.Board.{square_number};
ghost use Rattle.dgt_chess.specs.Attacks.{IsInCheck, other, piece_at, piece_of, row};
ghost use Rattle.dgt_chess.specs.Possible.{HasKings, HasNoExtra, HasNoStray, HasOneKing, HasPassed, HasRights, HasStepped, IsAstray, IsAtHome, IsExtra, IsPassedOver, IsPossible, Refuses};

use crate::attacks::is_in_check;
use crate::pieces::{Colour, Man, is_free, is_on};
use dgt_values::{Piece, Square};
use thiserror::Error;

/// Which castlings no earlier move of a king or a rook has ruled out: short is on the king's side.
#[derive(Clone, Copy, Debug, PartialEq, Eq)]
pub struct Rights {
    pub white_short: bool,
    pub white_long: bool,
    pub black_short: bool,
    pub black_long: bool,
}

/// Why no game reaches a state. If several reasons hold, the first in this order is returned.
#[derive(Clone, Copy, Debug, PartialEq, Eq, Error)]
pub enum Impossible {
    /// A side doesn't have exactly one king.
    #[error("a side doesn't have exactly one king")]
    Kings,
    /// One of the three extra pieces is on the board.
    #[error("a piece isn't a chess piece")]
    Extra,
    /// A pawn is on the first or the eighth rank.
    #[error("a pawn is on the first or the eighth rank")]
    Pawn,
    /// The king of the side that isn't to move is attacked.
    #[error("the side that isn't to move is in check")]
    Check,
    /// A right to castle lacks its king on the e file or its rook in the corner.
    #[error("a right to castle lacks its king or rook")]
    Rights,
    /// The passed square isn't one over which a pawn has just made a double step.
    #[error("no pawn has just passed over the passed square")]
    Passed,
    /// The number of the move is 0.
    #[error("the number of the move is 0")]
    Number,
}

// How many kings of the colour stand on a square.
fn count_at(pieces: &[Piece; 64], colour: Colour, square: u8) -> u8
    requires { square < 64 }
    ensures { ((result ≡ 1) × (piece_at pieces.now square ≡ piece_of colour Man.King))
        ⊎ ((result ≡ 0) × (piece_at pieces.now square ≢ piece_of colour Man.King)) }
{
    if is_on(pieces, square, colour, Man::King) {
        1
    } else {
        0
    }
}

// The loops over all squares have no branch: with one for each square they take longer.
#[tactic(auto, unfolding(crate::specs::Possible::HasOneKing))]
fn has_one_king(pieces: &[Piece; 64], colour: Colour) -> bool
    ensures { IsTrue result ↔ HasOneKing pieces.now colour }
{
    let mut count = 0;
    for square in 0..64 {
        count += count_at(pieces, colour, square);
    }
    count == 1
}

fn has_kings(pieces: &[Piece; 64]) -> bool
    ensures { IsTrue result ↔ HasKings pieces.now }
{
    has_one_king(pieces, Colour::White) && has_one_king(pieces, Colour::Black)
}

fn is_extra(piece: Piece) -> bool
    ensures { IsTrue result ↔ IsExtra piece }
{
    match piece {
        Piece::FirstExtra | Piece::SecondExtra | Piece::ThirdExtra => true,
        _ => false,
    }
}

#[tactic(auto, unfolding(crate::specs::Possible::HasNoExtra))]
fn has_no_extra(pieces: &[Piece; 64]) -> bool
    ensures { IsTrue result ↔ HasNoExtra pieces.now }
{
    let mut is_found = false;
    for square in 0..64 {
        is_found = is_found | is_extra(pieces[square]);
    }
    !is_found
}

fn is_any_pawn(pieces: &[Piece; 64], square: u8) -> bool
    requires { square < 64 }
    ensures { IsTrue result
        ↔ ((colour : Colour) × (piece_at pieces.now square ≡ piece_of colour Man.Pawn)) }
{
    if is_on(pieces, square, Colour::White, Man::Pawn) {
        return true;
    }
    is_on(pieces, square, Colour::Black, Man::Pawn)
}

fn is_astray(pieces: &[Piece; 64], square: u8) -> bool
    requires { square < 64 }
    ensures { IsTrue result ↔ IsAstray pieces.now square }
{
    (square / 8 == 0 || square / 8 == 7) && is_any_pawn(pieces, square)
}

#[tactic(auto, unfolding(crate::specs::Possible::HasNoStray))]
fn has_no_stray(pieces: &[Piece; 64]) -> bool
    ensures { IsTrue result ↔ HasNoStray pieces.now }
{
    let mut is_found = false;
    for square in 0..64 {
        is_found = is_found | is_astray(pieces, square);
    }
    !is_found
}

fn is_at_home(unmoved: bool, pieces: &[Piece; 64], colour: Colour, home: u8, corner: u8) -> bool
    requires home { home < 64 }
    requires corner { corner < 64 }
    ensures { IsTrue result ↔ IsAtHome unmoved pieces.now colour home corner }
{
    if !unmoved {
        return true;
    }
    is_on(pieces, home, colour, Man::King) && is_on(pieces, corner, colour, Man::Rook)
}

fn has_rights(pieces: &[Piece; 64], rights: Rights) -> bool
    ensures { IsTrue result ↔ HasRights pieces.now rights }
{
    is_at_home(rights.white_short, pieces, Colour::White, 60, 63)
        && is_at_home(rights.white_long, pieces, Colour::White, 60, 56)
        && is_at_home(rights.black_short, pieces, Colour::Black, 4, 7)
        && is_at_home(rights.black_long, pieces, Colour::Black, 4, 0)
}

fn has_stepped(pieces: &[Piece; 64], colour: Colour, from: u8, over: u8, to: u8) -> bool
    requires from { from < 64 }
    requires over { over < 64 }
    requires to { to < 64 }
    ensures { IsTrue result ↔ HasStepped pieces.now colour from over to }
{
    is_free(pieces, from) && is_free(pieces, over) && is_on(pieces, to, colour, Man::Pawn)
}

fn is_passed_over(pieces: &[Piece; 64], turn: Colour, square: u8) -> bool
    requires { square < 64 }
    ensures { IsTrue result ↔ IsPassedOver pieces.now turn square }
{
    match turn {
        Colour::White => {
            if square / 8 != 2 {
                return false;
            }
            has_stepped(pieces, Colour::Black, square - 8, square, square + 8)
        }
        Colour::Black => {
            if square / 8 != 5 {
                return false;
            }
            has_stepped(pieces, Colour::White, square + 8, square, square - 8)
        }
    }
}

#[tactic(auto, unfolding(crate::specs::Possible::HasPassed))]
fn has_passed(pieces: &[Piece; 64], turn: Colour, passed: Option<Square>) -> bool
    ensures { IsTrue result ↔ HasPassed pieces.now turn (option_map square_number passed) }
{
    match passed {
        Some(square) => is_passed_over(pieces, turn, square.index()),
        None => true,
    }
}

/// The first reason why no game reaches a state of these parts.
pub(crate) fn first_fault(
    pieces: &[Piece; 64],
    turn: Colour,
    rights: Rights,
    passed: Option<Square>,
    number: u16,
) -> Option<Impossible>
    ensures { MatchOption result
        (IsPossible pieces.now turn rights (option_map square_number passed) number)
        (λ why. Refuses why pieces.now turn rights (option_map square_number passed) number) }
{
    if !has_kings(pieces) {
        return Some(Impossible::Kings);
    }
    if !has_no_extra(pieces) {
        return Some(Impossible::Extra);
    }
    if !has_no_stray(pieces) {
        return Some(Impossible::Pawn);
    }
    if is_in_check(pieces, turn.other()) {
        return Some(Impossible::Check);
    }
    if !has_rights(pieces, rights) {
        return Some(Impossible::Rights);
    }
    if !has_passed(pieces, turn, passed) {
        return Some(Impossible::Passed);
    }
    if number == 0 {
        return Some(Impossible::Number);
    }
    None
}
