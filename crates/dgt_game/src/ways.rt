//! The legal lines of a few half-moves that lead to a picture.

ghost use Rattle.std.specs.Prelude.{◌≡◌, ◌<◌, ◌≤◌, ◌↔◌, ℕ, suc, false, IsBitSet, IsSome, IsTrue, MatchOption, Option, [], ◌∷◌, length};
ghost use Rattle.dgt_values.specs.Board.{pieces_of, square_number};
ghost use Rattle.dgt_chess.specs.Attacks.{piece_at, piece_of, row};
ghost use Rattle.dgt_chess.specs.Rules.{board, last_row};
ghost use Rattle.dgt_game.specs.Lines.{IsMove, IsOnly, NoLine, moves_of};
ghost use Rattle.dgt_game.specs.Ways.{AreWays, AreWaysBy, Ends, Follows, IsSeveral, IsShort, both};

use crate::event::Moves;
use crate::reach::is_far;
use dgt_chess::{Colour, Man, Move, State};
use dgt_values::{Piece, Position, Square};
use std::marker::PhantomData;

/// The legal lines that lead to a picture.
#[derive(Clone, Copy, Debug, PartialEq, Eq)]
pub(crate) enum Ways {
    /// There is none.
    Nothing,
    /// There is one, and it ends in this state.
    Only(Moves, State),
    /// There are several. One of them ends in this state.
    Several(State),
}

/// The half-move that leads to the picture, and the state after it. `None` only if there is none.
pub(crate) fn half_move(state: &State, picture: &Position) -> Option<(Move, State)>
    ensures { MatchOption result
        (NoLine 1 state.now (pieces_of picture.now))
        (λ found. IsMove state.now found.0 found.1 × (board found.1 ≡ pieces_of picture.now)
        × IsOnly state.now (found.0 ∷ []) (pieces_of picture.now)) }
{
    dgt_chess::laws::one_move_a_picture();
    match state.move_to(picture) {
        Some(one) => match state.play(one) {
            Ok(new) => Some((one, new)),
            Err(_) => None,
        },
        None => None,
    }
}

/// The legal lines of this many half-moves, from 1 to 4, that lead to the picture.
pub(crate) fn find_ways(state: &State, picture: &Position, halves: u8) -> Ways
    ensures { 1 ≤ halves → halves ≤ 4
        → AreWays halves state.now (pieces_of picture.now) result }
{
    match halves {
        1 => One::find(state, picture, halves),
        2 => More::<One>::find(state, picture, halves),
        3 => More::<More<One>>::find(state, picture, halves),
        4 => More::<More<More<One>>>::find(state, picture, halves),
        _ => Ways::Nothing,
    }
}

// A search for the lines of a number of half-moves.
trait Search {
    ghost depth: { ℕ };

    fn find(state: &State, picture: &Position, halves: u8) -> Ways
        requires depth { halves ≡ depth }
        requires few { halves ≤ 4 }
        ensures { AreWays depth state.now (pieces_of picture.now) result };
}

struct One;

// A search for lines of one more half-move.
struct More<S> {
    rest: PhantomData<S>,
}

impl Search for One {
    ghost depth = { 1 };

    fn find(state: &State, picture: &Position, halves: u8) -> Ways {
        if is_far(state, picture, halves) {
            return Ways::Nothing;
        }
        match half_move(state, picture) {
            Some((one, new)) => Ways::Only(Moves::new(one), new),
            None => Ways::Nothing,
        }
    }
}

impl<S: Search> Search for More<S> {
    ghost depth = { suc S.depth };

    fn find(state: &State, picture: &Position, halves: u8) -> Ways {
        if is_far(state, picture, halves) {
            return Ways::Nothing;
        }
        let mut found = Ways::Nothing;
        for from in 0..64 {
            found.add(ways_from::<S>(state, picture, from, halves - 1));
            if found.is_several() {
                return found;
            }
        }
        found
    }
}

impl Ways {
    // Adds what is found in a set of other lines.
    fn add(&mut self, other: Ways)
        ensures { self.new ≡ both self.old other }
    {
        if let Ways::Nothing = other {
            return;
        }
        match *self {
            Ways::Nothing => *self = other,
            Ways::Only(_, new) => *self = Ways::Several(new),
            Ways::Several(_) => {}
        }
    }

    fn is_several(&self) -> bool
        ensures { IsTrue result ↔ IsSeveral self.now }
    {
        matches!(self, Ways::Several(_))
    }

    // These lines after a half-move.
    fn after(self, one: Move) -> Ways
        requires { IsShort self }
        ensures { Follows one self result }
    {
        match self {
            Ways::Only(moves, new) => Ways::Only(moves.prepend(one), new),
            other => other,
        }
    }
}

// The lines whose first half-move leaves a square.
fn ways_from<S: Search>(state: &State, picture: &Position, from: u8, rest: u8) -> Ways
    requires from { from < 64 }
    requires depth { rest ≡ S.depth }
    requires few { rest < 4 }
    ensures { AreWaysBy (λ one. square_number one.from ≡ from) (suc S.depth) state.now
        (pieces_of picture.now) result }
{
    let piece = state.position().pieces()[from as usize];
    let Some(man) = state.turn().man(piece) else {
        return Ways::Nothing;
    };
    // If one more half-move follows, it is the opponent's, and puts none of the mover's men on the
    // square again.
    if rest <= 1 && is_same(piece, picture.pieces()[from as usize]) {
        return Ways::Nothing;
    }
    let goals = state.goals(Square::from_small(from));
    let mut found = Ways::Nothing;
    for to in 0..64 {
        if has(goals, to) {
            found.add(ways_over::<S>(state, picture, man, from, to, rest));
            if found.is_several() {
                return found;
            }
        }
    }
    found
}

pub(crate) fn has(squares: u64, square: u8) -> bool
    requires { square < 64 }
    ensures { IsTrue result ↔ IsBitSet squares square }
{
    squares & (1 << square) != 0
}

// The lines whose first half-move takes a man from one square to another.
fn ways_over<S: Search>(
    state: &State,
    picture: &Position,
    man: Man,
    from: u8,
    to: u8,
    rest: u8,
) -> Ways
    requires from { from < 64 }
    requires to { to < 64 }
    requires own { piece_at (board state.now) from ≡ piece_of state.now.turn man }
    requires depth { rest ≡ S.depth }
    requires few { rest < 4 }
    ensures { AreWaysBy (λ one. (square_number one.from ≡ from) × (square_number one.to ≡ to))
        (suc S.depth) state.now (pieces_of picture.now) result }
{
    // If one more half-move follows, it empties no square of the mover's men, unless a pawn is
    // captured in passing.
    if rest <= 1 && !is_pawn(man) && is_same(picture.pieces()[to as usize], Piece::Empty) {
        return Ways::Nothing;
    }
    if !is_promotion(state.turn(), man, to) {
        return ways_by::<S>(state, picture, from, to, None, rest);
    }
    let mut found = ways_by::<S>(state, picture, from, to, Some(Man::Queen), rest);
    found.add(ways_by::<S>(state, picture, from, to, Some(Man::Rook), rest));
    found.add(ways_by::<S>(state, picture, from, to, Some(Man::Bishop), rest));
    found.add(ways_by::<S>(state, picture, from, to, Some(Man::Knight), rest));
    found
}

// The lines with this first half-move.
fn ways_by<S: Search>(
    state: &State,
    picture: &Position,
    from: u8,
    to: u8,
    promotion: Option<Man>,
    rest: u8,
) -> Ways
    requires from { from < 64 }
    requires to { to < 64 }
    requires depth { rest ≡ S.depth }
    requires few { rest < 4 }
    ensures { AreWaysBy (Ends from to (λ other. other ≡ promotion)) (suc S.depth) state.now
        (pieces_of picture.now) result }
{
    let one = Move {
        from: Square::from_small(from),
        to: Square::from_small(to),
        promotion,
    };
    match state.play(one) {
        Ok(next) => S::find(&next, picture, rest).after(one),
        Err(_) => Ways::Nothing,
    }
}

// Whether a half-move of the man to a square promotes, if it is legal.
fn is_promotion(turn: Colour, man: Man, to: u8) -> bool
    ensures { IsTrue result ↔ ((man ≡ Man.Pawn) × (row to ≡ last_row turn)) }
{
    let last_row = match turn {
        Colour::White => 0,
        Colour::Black => 7,
    };
    is_pawn(man) && to / 8 == last_row
}

fn is_pawn(man: Man) -> bool
    ensures { IsTrue result ↔ (man ≡ Man.Pawn) }
{
    man == Man::Pawn
}

pub(crate) fn is_same(a: Piece, b: Piece) -> bool
    ensures { IsTrue result ↔ (a ≡ b) }
{
    a == b
}
