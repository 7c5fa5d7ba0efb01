//! A picture, seen from both sides.

ghost use Rattle.std.specs.Prelude.{◌≡◌, ◌↔◌, true, List, Contains, IfSome, IsTrue, MatchOption, reverse};
ghost use Rattle.dgt_values.specs.declared.pieces.Piece.{Piece};
ghost use Rattle.dgt_values.specs.Board.{pieces_of};
ghost use Rattle.dgt_chess.specs.Attacks.{piece_of};
ghost use Rattle.dgt_chess.specs.declared.pieces.Man.{Man};
ghost use Rattle.dgt_chess.specs.Rules.{board};
ghost use Rattle.dgt_game.specs.Results.{IsOnlyOn};
ghost use Rattle.dgt_game.specs.Told.{as_shown};

use crate::observation::Sight;
use crate::ways::is_same;
use dgt_chess::{Colour, Man, State};
use dgt_values::{Piece, Position, Square};

/// A picture, and the same with the board turned by 180 degrees.
#[derive(Clone, Copy, Debug, PartialEq, Eq)]
pub(crate) struct View {
    pub(crate) shown: Position,
    turned: Position,
    ghost is_turned: { pieces_of turned ≡ reverse (pieces_of shown) },
}

impl View {
    ghost use Rattle.dgt_game.specs.Recogniser.{picture_of, pictured, shown_after};
    ghost use Rattle.dgt_game.specs.Sure.{sure_after};
    ghost use Rattle.dgt_game.specs.Waiting.{is_sure_sight};

    pub(crate) fn new(shown: Position) -> Self
        ensures { result.shown ≡ shown }
    {
        View {
            shown,
            turned: turned(&shown),
        }
    }

    /// What is seen, if the board isn't away.
    pub(crate) fn of(sight: Sight) -> Option<Self>
        ensures seen { (shown : List (List Piece)) → IfSome result (λ view.
            Contains (shown_after sight shown) (pieces_of view.shown)) }
        ensures sure { (sure : List (List Piece)) → is_sure_sight sight ≡ true
            → MatchOption result ⊥ (λ view.
            Contains (sure_after sight sure) (pieces_of view.shown)) }
        ensures is { pictured result ≡ picture_of sight }
    {
        match sight {
            Sight::Sure(position) | Sight::Doubted(position) => Some(View::new(position)),
            Sight::Away => None,
        }
    }

    /// Whether both show the same picture, or none.
    pub(crate) fn is_same_picture(a: &Option<View>, b: &Option<View>) -> bool
        ensures { IsTrue result ↔ (pictured a.now ≡ pictured b.now) }
    {
        dgt_values::laws::equal_is_same();
        match (a, b) {
            (Some(one), Some(other)) => one.shown == other.shown,
            (None, None) => true,
            _ => false,
        }
    }

    /// The picture as White sees it, if the board is turned or not.
    pub(crate) fn from(&self, is_turned: bool) -> &Position
        ensures { pieces_of result.now ≡ as_shown is_turned (pieces_of self.now.shown) }
    {
        if is_turned { &self.turned } else { &self.shown }
    }

    /// Whether the state has these pieces.
    pub(crate) fn is(&self, state: &State, is_turned: bool) -> bool
        ensures { IsTrue result
            ↔ (board state.now ≡ as_shown is_turned (pieces_of self.now.shown)) }
    {
        dgt_values::laws::equal_is_same();
        state.position() == self.from(is_turned)
    }
}

/// The position on a board that is turned by 180 degrees.
fn turned(position: &Position) -> Position
    ensures { pieces_of result ≡ reverse (pieces_of position.now) }
{
    let mut new = *position;
    for at in 0..64 {
        let to = Square::from_small(63 - at);
        new.set(to, position.get(Square::from_small(at)));
    }
    new
}

/// The only square with this piece, if there is just one.
pub(crate) fn only_square(position: &Position, piece: Piece) -> Option<u8>
    ensures { IfSome result (λ at. IsOnlyOn (pieces_of position.now) piece at) }
{
    let mut found = None;
    for at in 0..64 {
        if is_same(position.get(Square::from_small(at)), piece) {
            if found.is_some() {
                return None;
            }
            found = Some(at);
        }
    }
    found
}

/// The king of a colour.
pub(crate) fn king(colour: Colour) -> Piece
    ensures { result ≡ piece_of colour Man.King }
{
    colour.piece(Man::King)
}
