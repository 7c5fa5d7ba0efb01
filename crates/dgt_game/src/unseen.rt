//! The half-move before the kings: the only legal one that explains what the board shows.

ghost use Rattle.std.specs.Prelude.{◌≡◌, ◌<◌, ◌↔◌, ⊤, IsTrue};
ghost use Rattle.dgt_values.specs.Board.{pieces_of, square_number};
ghost use Rattle.dgt_game.specs.Results.{Explains, ExplainsAt};
ghost use Rattle.dgt_game.specs.Unseen.{FoundBy, added};
ghost use Rattle.dgt_game.specs.Ways.{Ends};

use crate::kings::is_centre;
use crate::ways::{has, is_same};
use dgt_chess::{Man, Move, State};
use dgt_values::{Piece, Position, Square};

/// The legal half-moves that explain a picture.
#[derive(Clone, Copy, Debug, PartialEq, Eq)]
pub(crate) enum Found {
    Nothing,
    /// There is one, and the state after it.
    Only(Move, State),
    Several,
}

impl Found {
    // Adds what is found among other half-moves.
    fn add(&mut self, other: Found)
        ensures { self.new ≡ added self.old other }
    {
        match (*self, other) {
            (_, Found::Nothing) => {}
            (Found::Nothing, _) => *self = other,
            _ => *self = Found::Several,
        }
    }
}

/// The legal half-moves that explain the picture.
pub(crate) fn explaining(state: &State, picture: &Position) -> Found
    ensures { FoundBy (λ one. ⊤) (pieces_of picture.now) state.now result }
{
    let mut found = Found::Nothing;
    for from in 0..64u8 {
        found.add(explaining_from(state, picture, from));
    }
    found
}

// Those that leave a square.
fn explaining_from(state: &State, picture: &Position, from: u8) -> Found
    requires { from < 64 }
    ensures { FoundBy (λ one. square_number one.from ≡ from) (pieces_of picture.now) state.now
        result }
{
    let goals = state.goals(Square::from_small(from));
    let mut found = Found::Nothing;
    for to in 0..64u8 {
        if has(goals, to) {
            found.add(explaining_over(state, picture, from, to));
        }
    }
    found
}

// Those that take a man from one square to another.
fn explaining_over(state: &State, picture: &Position, from: u8, to: u8) -> Found
    requires from { from < 64 }
    requires to { to < 64 }
    ensures { FoundBy (λ one. (square_number one.from ≡ from) × (square_number one.to ≡ to))
        (pieces_of picture.now) state.now result }
{
    let mut found = explaining_by(state, picture, from, to, None);
    found.add(explaining_by(state, picture, from, to, Some(Man::Queen)));
    found.add(explaining_by(state, picture, from, to, Some(Man::Rook)));
    found.add(explaining_by(state, picture, from, to, Some(Man::Bishop)));
    found.add(explaining_by(state, picture, from, to, Some(Man::Knight)));
    found
}

// The one with this promotion.
fn explaining_by(
    state: &State,
    picture: &Position,
    from: u8,
    to: u8,
    promotion: Option<Man>,
) -> Found
    requires from { from < 64 }
    requires to { to < 64 }
    ensures { FoundBy (Ends from to (λ other. other ≡ promotion)) (pieces_of picture.now) state.now
        result }
{
    let one = Move {
        from: Square::from_small(from),
        to: Square::from_small(to),
        promotion,
    };
    match state.play(one) {
        Ok(new) => {
            if explains(picture, new.position()) {
                Found::Only(one, new)
            } else {
                Found::Nothing
            }
        }
        Err(_) => Found::Nothing,
    }
}

/// Whether the pieces of a position explain the picture, in which the kings stand in the centre.
pub(crate) fn explains(picture: &Position, position: &Position) -> bool
    ensures { IsTrue result ↔ Explains (pieces_of picture.now) (pieces_of position.now) }
{
    for at in 0..64u8 {
        if !explains_at(picture, position, at) {
            return false;
        }
    }
    true
}

fn explains_at(picture: &Position, position: &Position, at: u8) -> bool
    requires { at < 64 }
    ensures { IsTrue result ↔ ExplainsAt (pieces_of picture.now) (pieces_of position.now) at }
{
    let square = Square::from_small(at);
    let shown = picture.get(square);
    is_centre(at) || is_same(shown, position.get(square)) || is_same(shown, Piece::Empty)
}
