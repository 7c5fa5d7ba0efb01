//! Half-moves that a player makes before the answer to his last one.

ghost use Rattle.std.specs.Prelude.{◌≡◌, Some, true, false};
ghost use Rattle.dgt_values.specs.Board.{pieces_of};
ghost use Rattle.dgt_game.specs.declared.view.View.{View};
ghost use Rattle.dgt_game.specs.Finding.{AllHaveAnswered};
ghost use Rattle.dgt_game.specs.Reading.{HasAnswered, HasMoved};

use crate::recogniser::Recogniser;
use dgt_chess::State;
use dgt_values::{Piece, Position, Square};

impl Recogniser {
    /// Whether the player who moved last has moved again. The answer isn't on the board yet, and
    /// until then his pieces may stand anywhere.
    pub(crate) fn is_early(&self) -> bool
        ensures reads { (view : View) → self.now.view ≡ Some view → self.now.is_behind ≡ true
            → HasAnswered self.now.memory (pieces_of view.shown) → result ≡ false }
        ensures all { (view : View) → self.now.view ≡ Some view
            → AllHaveAnswered self.now.memory (pieces_of view.shown) → result ≡ false }
    {
        let Some(view) = &self.view else {
            return false;
        };
        if !self.is_live() {
            return false;
        }
        if let Some(last) = self.memory.line.get(0) {
            let shown = view.from(last.step.is_turned);
            if !last.step.way.is_jump() && moves_again(shown, &last.step.state) {
                return true;
            }
        }
        // after a doubt the other player's piece may have gone and come back
        if self.is_behind {
            return false;
        }
        for k in 0..self.memory.seen.len() {
            let node = &self.memory.seen[k];
            let shown = view.from(node.step.is_turned);
            if !self.is_shadow(node) && moves_again(shown, &node.step.state) {
                return true;
            }
        }
        false
    }
}

/// Whether a picture differs from a state by pieces of the player who made the last half-move. All
/// those of the other one stand.
pub(crate) fn moves_again(shown: &Position, state: &State) -> bool
    ensures reads { HasMoved (pieces_of shown.now) state.now state.now.turn → result ≡ false }
{
    let side = state.turn().other();
    let mut left = 0u8;
    let mut arrived = 0u8;
    for at in 0..64u8 {
        let square = Square::from_small(at);
        let old = state.position().get(square);
        let new = shown.get(square);
        if old != new {
            if side.man(old).is_some() {
                left = left.saturating_add(1);
            } else if new == Piece::Empty {
                return false;
            }
            if side.man(new).is_some() {
                arrived = arrived.saturating_add(1);
            } else if new != Piece::Empty {
                return false;
            }
        }
    }
    arrived > 0 && arrived <= left
}
