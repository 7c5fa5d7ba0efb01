//! Draws.

ghost use Rattle.std.specs.Prelude.{◌≡◌, ◌≢◌, ◌↔◌, ◌<◌, ◌≤◌, ◌⊎◌, ℕ, IsTrue, MatchOption};
ghost use Rattle.dgt_chess.specs.Draws.{Counts, FitsShade, HasBishops, HasOneKnight, Holds, IsBare, IsDead, IsRepeated, Repeats};

use crate::listing::is_equal;
use crate::pieces::{Colour, Man, is_free, is_on};
use crate::state::State;
use dgt_values::Piece;

impl State {
    ghost use Rattle.dgt_chess.specs.Rules.{CanGo, board};

    /// Whether the last 50 moves of each side moved no pawn and captured nothing: the side to move
    /// may claim a draw.
    pub fn is_fifty_moves(&self) -> bool
        ensures { IsTrue result ↔ (100 ≤ self.now.half_moves) }
    {
        self.half_moves() >= 100
    }

    /// Whether the last 75 moves of each side moved no pawn and captured nothing: a draw, unless
    /// the last one was checkmate.
    pub fn is_seventy_five_moves(&self) -> bool
        ensures { IsTrue result ↔ (150 ≤ self.now.half_moves) }
    {
        self.half_moves() >= 150
    }

    /// Whether no moves can lead to checkmate, because only kings are left, or also one knight, or
    /// also bishops that all stand on squares of one colour. Other such positions aren't found.
    pub fn is_dead(&self) -> bool
        ensures { IsTrue result ↔ IsDead (board self.now) }
    {
        let pieces = self.position().pieces();
        if has_one_knight(pieces) {
            return true;
        }
        has_bishops(pieces, 0) || has_bishops(pieces, 1)
    }

    // Whether the two have the same moves between two squares.
    fn goes_alike(&self, other: &State, a: u8, b: u8) -> bool
        requires a { a < 64 }
        requires b { b < 64 }
        ensures { IsTrue result ↔ (CanGo self.now a b ↔ CanGo other.now a b) }
    {
        if self.can_go(a, b) {
            other.can_go(a, b)
        } else {
            !other.can_go(a, b)
        }
    }

    fn leaves_alike(&self, other: &State, a: u8) -> bool
        requires { a < 64 }
        ensures { IsTrue result
            ↔ ((to : ℕ) → to < 64 → CanGo self.now a to ↔ CanGo other.now a to) }
    {
        for b in 0..64 {
            if !self.goes_alike(other, a, b) {
                return false;
            }
        }
        true
    }

    fn moves_alike(&self, other: &State) -> bool
        ensures { IsTrue result ↔ ((from to : ℕ) → from < 64 → to < 64
            → CanGo self.now from to ↔ CanGo other.now from to) }
    {
        for a in 0..64 {
            if !self.leaves_alike(other, a) {
                return false;
            }
        }
        true
    }

    /// Whether the other state has the same position, in which the same moves are possible.
    pub fn is_repeated(&self, other: &State) -> bool
        ensures { IsTrue result ↔ IsRepeated self.now other.now }
    {
        is_equal(self.position(), other.position())
            && self.turn() == other.turn()
            && self.rights() == other.rights()
            && self.moves_alike(other)
    }

    // 1 if the other state has this position.
    fn repeats(&self, other: &State) -> usize
        ensures { Counts self.now other.now result }
    {
        if self.is_repeated(other) { 1 } else { 0 }
    }

    /// How many of these states have the same position, in which the same moves are possible.
    pub fn repetitions(&self, history: &[State]) -> usize
        ensures { Repeats history.now self.now result }
    {
        let mut count = 0;
        for one in history {
            count += one.repeats(self);
        }
        count
    }
}

#[tactic(auto, unfolding(crate::specs::Draws::Holds))]
fn holds(pieces: &[Piece; 64], man: Man, square: u8) -> bool
    requires { square < 64 }
    ensures { IsTrue result ↔ Holds pieces.now man square }
{
    if is_on(pieces, square, Colour::White, man) {
        return true;
    }
    is_on(pieces, square, Colour::Black, man)
}

fn is_bare(pieces: &[Piece; 64], square: u8) -> bool
    requires { square < 64 }
    ensures { IsTrue result ↔ IsBare pieces.now square }
{
    if is_free(pieces, square) {
        return true;
    }
    holds(pieces, Man::King, square)
}

// The first square from this one on that isn't bare.
fn find_man(pieces: &[Piece; 64], from: u8) -> Option<u8>
    requires { from ≤ 64 }
    ensures { MatchOption result
        ((s : ℕ) → from ≤ s → s < 64 → IsBare pieces.now s)
        (λ man. (from ≤ man) × (man < 64) × (¬ (IsBare pieces.now man))
        × ((s : ℕ) → from ≤ s → s < man → IsBare pieces.now s)) }
{
    for square in from..64 {
        if !is_bare(pieces, square) {
            return Some(square);
        }
    }
    None
}

#[tactic(auto, unfolding(crate::specs::Draws::HasOneKnight))]
fn has_one_knight(pieces: &[Piece; 64]) -> bool
    ensures { IsTrue result ↔ HasOneKnight pieces.now }
{
    match find_man(pieces, 0) {
        Some(man) => {
            if !holds(pieces, Man::Knight, man) {
                return false;
            }
            match find_man(pieces, man + 1) {
                Some(_) => false,
                None => true,
            }
        }
        None => false,
    }
}

#[tactic(auto, unfolding(crate::specs::Draws::FitsShade))]
fn fits_shade(pieces: &[Piece; 64], shade: u8, square: u8) -> bool
    requires { square < 64 }
    ensures { IsTrue result ↔ FitsShade pieces.now shade square }
{
    if is_bare(pieces, square) {
        return true;
    }
    holds(pieces, Man::Bishop, square) && (square % 8 + square / 8) % 2 == shade
}

#[tactic(auto, unfolding(crate::specs::Draws::HasBishops))]
fn has_bishops(pieces: &[Piece; 64], shade: u8) -> bool
    ensures { IsTrue result ↔ HasBishops pieces.now shade }
{
    for square in 0..64 {
        if !fits_shade(pieces, shade, square) {
            return false;
        }
    }
    true
}
