//! Forsyth-Edwards Notation: a state as a line of text.

ghost use Rattle.std.specs.Prelude.{◌≡◌, ◌↔◌, ◌<◌, ◌≤◌, ℕ, IsTrue, length, take};
ghost use Rattle.arrayvec.specs.ArrayString.{array_string_len};
ghost use Rattle.dgt_values.specs.Board.{square_number};
ghost use Rattle.dgt_chess.specs.Fen.{field_of, space_count};

use crate::fields::{number_word, parse_parts, passed_word, push_field, turn_word};
use crate::moving::takes_passing;
use crate::pieces::Man;
use crate::possible::Impossible;
use crate::state::{State, is_pawn};
use arrayvec::ArrayString;
use dgt_values::Square;
use std::str::FromStr;
use thiserror::Error;

/// The fields of a text, in their order.
#[derive(Clone, Copy, Debug, PartialEq, Eq)]
pub enum FenField {
    /// The pieces from a8 to h1, as `dgt_values` reads them.
    Placement,
    /// The side to move: `w` or `b`.
    Turn,
    /// The castlings that are not ruled out: letters of `KQkq` in this order, or `-`.
    Rights,
    /// The square that a pawn has just passed over, or `-`.
    Passed,
    /// The half-moves since the last capture or move of a pawn, from 0 to 65535.
    HalfMoves,
    /// The number of the move, from 1 to 65535.
    Number,
}

/// Why a text is not that of a state.
#[derive(Clone, Copy, Debug, PartialEq, Eq, Error)]
pub enum BadFen {
    /// The text is not in the notation. `at` is the offset of the first wrong byte, or the text's
    /// length if it is only too short. `field` is the field at `at`, by the number of spaces before
    /// it. A byte after the number is in [`FenField::Number`].
    #[error("not FEN: wrong at offset {at}")]
    Text { field: FenField, at: usize },
    /// The text is in the notation, and no game reaches its state.
    #[error("no game reaches this state")]
    Impossible(Impossible),
}

/// Reads as [`State::parse_fen`] does.
impl FromStr for State {
    type Err = BadFen;

    ghost use Rattle.dgt_chess.specs.Fen.{ParsesFen};

    ghost from_str_gives = { ParsesFen };

    fn from_str(text: &str) -> Result<Self, BadFen> {
        State::parse_fen(text)
    }
}

impl State {
    ghost use Rattle.dgt_chess.specs.Fen.{CanTakePassing, IsShown, ParsesFen, WritesFen};
    ghost use Rattle.dgt_chess.specs.Rules.{LegalBy, TakesPassing, board, passed};

    /// The state of a text in Forsyth-Edwards Notation: six fields with one space between two, in
    /// the order of [`FenField`], and nothing else. Numbers have no leading zeros. The square that
    /// a pawn has just passed over may be given whether or not a pawn can capture there.
    #[tactic(auto, using(crate::proofs::StateTexts::state_fen))]
    pub fn parse_fen(text: &str) -> Result<Self, BadFen>
        ensures { ParsesFen text.now result }
    {
        match parse_parts(text) {
            Ok((position, (turn, (rights, (passed, (half_moves, number)))))) => {
                match State::new(position, turn, rights, passed, half_moves, number) {
                    Ok(state) => Ok(state),
                    Err(why) => Err(BadFen::Impossible(why)),
                }
            }
            Err(at) => Err(BadFen::Text {
                field: field_at(text, at),
                at,
            }),
        }
    }

    // Whether a pawn's move between two squares is legal and doesn't promote.
    fn is_pawn_move(&self, a: u8, b: u8) -> bool
        requires a { a < 64 }
        requires b { b < 64 }
        ensures { IsTrue result ↔ LegalBy Man.Pawn self.now a b None }
    {
        match self.mover(a, b, None) {
            Some(man) => is_pawn(man),
            None => false,
        }
    }

    // Whether a pawn's move between two squares is legal and captures a pawn that has just passed.
    fn takes_passing(&self, a: u8, b: u8) -> bool
        requires a { a < 64 }
        requires b { b < 64 }
        ensures { IsTrue result ↔ (LegalBy Man.Pawn self.now a b None
            × TakesPassing (board self.now) self.now.turn (passed self.now) a b) }
    {
        self.is_pawn_move(a, b)
            && takes_passing(self.position().pieces(), self.turn(), self.passed(), a, b)
    }

    // Whether a legal move goes to this square and captures a pawn that has just passed over it.
    fn is_taken(&self, b: u8) -> bool
        requires { b < 64 }
        ensures { IsTrue result ↔ ((from : ℕ) × (from < 64) × LegalBy Man.Pawn self.now from b None
            × TakesPassing (board self.now) self.now.turn (passed self.now) from b) }
    {
        for a in 0..64 {
            if self.takes_passing(a, b) {
                return true;
            }
        }
        false
    }

    // The square that a pawn has just passed over, if a legal move captures it there.
    fn shown(&self) -> Option<Square>
        ensures { IsShown self.now result }
    {
        match self.passed() {
            Some(square) => {
                if self.is_taken(square.index()) {
                    Some(square)
                } else {
                    None
                }
            }
            None => None,
        }
    }

    /// The state in Forsyth-Edwards Notation, with the fewest digits. The square that a pawn has
    /// just passed over is written only if a legal move captures the pawn. The text reads back as a
    /// state with the same legal moves, and as this state if that square is written or there is
    /// none.
    pub fn fen(&self) -> ArrayString<93>
        ensures { WritesFen self.now result.bytes }
    {
        let shown = self.shown();
        let mut text = ArrayString::new();
        text.push_str(self.position().placement().as_str());
        push_field(&mut text, turn_word(self.turn()));
        push_field(&mut text, self.rights().text().as_str());
        push_field(&mut text, passed_word(shown).as_str());
        push_field(&mut text, number_word(self.half_moves()).as_str());
        push_field(&mut text, number_word(self.number()).as_str());
        text
    }
}

// The field in which an offset is.
#[tactic(auto, using(crate::proofs::StateTexts::last_field))]
fn field_at(text: &str, at: usize) -> FenField
    requires { at ≤ length text.now }
    ensures { result ≡ field_of (space_count (take at text.now)) }
{
    let bytes = text.as_bytes();
    let spaces = bytes[..at].iter().filter(|byte| **byte == b' ').count();
    if spaces == 0 {
        return FenField::Placement;
    }
    if spaces == 1 {
        return FenField::Turn;
    }
    if spaces == 2 {
        return FenField::Rights;
    }
    if spaces == 3 {
        return FenField::Passed;
    }
    if spaces == 4 {
        return FenField::HalfMoves;
    }
    FenField::Number
}
