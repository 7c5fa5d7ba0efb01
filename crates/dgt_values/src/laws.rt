//! Laws of values and of the texts of positions. Each function does nothing at run time: its
//! contract states a fact.

ghost use Rattle.std.specs.Prelude.{◌≡◌, ◌≢◌, ◌≤◌, ◌<◌, ◌==◌, ◌+◌, ◌%◌, ◌++◌, ◌∷◌, ◌↔◌, ℕ, Bool, IsBitSet, IsErr, IsTrue, List, [], codes, length, replicate, MatchResult, Result, Err, Ok};
ghost use Rattle.dgt_values.specs.Board.{piece_code, piece_letter, pieces_of, square_number, start_pieces, DifferingSquares};
ghost use Rattle.dgt_values.specs.Bytes.{body_bytes, number, AreSevenBit, Refuses, SevenBitOf, WritesPrefix};
ghost use Rattle.dgt_values.specs.Equality.{CloneIsSame, EqualIsSame, EqualIsSameRead, EqualIsSameReadOf};
ghost use Rattle.dgt_values.specs.declared.pieces.Piece.{Piece};
ghost use Rattle.dgt_values.specs.declared.refusals.BadPlacement.{BadPlacement};
ghost use Rattle.dgt_values.specs.declared.refusals.NoRoom.{NoRoom};
ghost use Rattle.dgt_values.specs.declared.refusals.BodyError.TheVariants.{Byte, Length};
ghost use Rattle.dgt_values.specs.declared.refusals.NotSevenBit.{NotSevenBit};
ghost use Rattle.dgt_values.specs.declared.refusals.TooMuch.{TooMuch};
ghost use Rattle.dgt_values.specs.declared.bytes.SevenBit.{SevenBit};
ghost use Rattle.dgt_values.specs.declared.positions.Position.{Position};
ghost use Rattle.dgt_values.specs.Placement.{digit_count, placement_text, rank_text_after, AreRanks, BeginsPlacement, DigitsApart, IsPlacement, IsRank, MeansSquares, ParsesPlacement};

use crate::bodies::{Body, MAX_BODY};
use crate::bytes::SevenBit;
use crate::kinds::Kind;
use crate::pieces::Piece;
use crate::positions::Position;
use crate::refusals::{
    BadPlacement, BodyError, Known, NoPiece, NoRoom, NoSegment, NoSquare, NotSevenBit, TooMuch,
};
use crate::squares::Square;

/// The limits by their numbers.
pub fn limits()
    ensures { MAX_BODY ≡ 16380 }
{}

/// Two values are equal by `==` exactly if they are the same. For a body its bytes count, and not
/// their address.
pub fn equal_is_same()
    ensures seven_bit { EqualIsSameRead number ⟦<SevenBit as PartialEq>⟧.eq }
    ensures body { EqualIsSameRead body_bytes ⟦<Body<'static> as PartialEq>⟧.eq }
    ensures body_error { EqualIsSame ⟦<BodyError as PartialEq>⟧.eq }
    ensures square { EqualIsSameRead square_number ⟦<Square as PartialEq>⟧.eq }
    ensures piece { EqualIsSame ⟦<Piece as PartialEq>⟧.eq }
    ensures position { EqualIsSameRead pieces_of ⟦<Position as PartialEq>⟧.eq }
    ensures kind { EqualIsSame ⟦<Kind as PartialEq>⟧.eq }
    ensures bad_placement { EqualIsSame ⟦<BadPlacement as PartialEq>⟧.eq }
    ensures no_room { EqualIsSame ⟦<NoRoom as PartialEq>⟧.eq }
    ensures not_seven_bit { EqualIsSame ⟦<NotSevenBit as PartialEq>⟧.eq }
    ensures too_much { EqualIsSame ⟦<TooMuch as PartialEq>⟧.eq }
    ensures no_square { EqualIsSame ⟦<NoSquare as PartialEq>⟧.eq }
    ensures no_piece { EqualIsSame ⟦<NoPiece as PartialEq>⟧.eq }
    ensures no_segment { EqualIsSame ⟦<NoSegment as PartialEq>⟧.eq }
    ensures known { EqualIsSame ⟦<Known as PartialEq>⟧.eq }
{}

/// A clone is the value itself, and cloning never fails.
pub fn clone_is_same()
    ensures seven_bit { CloneIsSame ⟦<SevenBit as Clone>⟧ }
    ensures body { CloneIsSame ⟦<Body<'static> as Clone>⟧ }
    ensures body_error { CloneIsSame ⟦<BodyError as Clone>⟧ }
    ensures square { CloneIsSame ⟦<Square as Clone>⟧ }
    ensures piece { CloneIsSame ⟦<Piece as Clone>⟧ }
    ensures position { CloneIsSame ⟦<Position as Clone>⟧ }
    ensures kind { CloneIsSame ⟦<Kind as Clone>⟧ }
    ensures bad_placement { CloneIsSame ⟦<BadPlacement as Clone>⟧ }
    ensures no_room { CloneIsSame ⟦<NoRoom as Clone>⟧ }
    ensures not_seven_bit { CloneIsSame ⟦<NotSevenBit as Clone>⟧ }
    ensures too_much { CloneIsSame ⟦<TooMuch as Clone>⟧ }
    ensures no_square { CloneIsSame ⟦<NoSquare as Clone>⟧ }
    ensures no_piece { CloneIsSame ⟦<NoPiece as Clone>⟧ }
    ensures no_segment { CloneIsSame ⟦<NoSegment as Clone>⟧ }
    ensures known { CloneIsSame ⟦<Known as Clone>⟧ }
{}

/// What `equal_is_same` says: values are equal exactly if they are the same, or if a clause sees
/// the same in both.
pub fn what_is_equal()
    ensures equal { (eq : ℕ → ℕ → Bool) (a b : ℕ) → EqualIsSame eq → IsTrue (eq a b) → a ≡ b }
    ensures same { (eq : ℕ → ℕ → Bool) (a : ℕ) → EqualIsSame eq → IsTrue (eq a a) }
    ensures equal_read { (read : ℕ → ℕ) (eq : ℕ → ℕ → Bool) (a b : ℕ)
        → EqualIsSameRead read eq → IsTrue (eq a b) → read a ≡ read b }
    ensures same_read { (read : ℕ → ℕ) (eq : ℕ → ℕ → Bool) (a b : ℕ)
        → EqualIsSameRead read eq → read a ≡ read b → IsTrue (eq a b) }
    ensures equal_some { (read : ℕ → ℕ) (eq : ℕ → ℕ → Bool) (a b : ℕ)
        → EqualIsSameReadOf (λ n. n ≤ 9) read eq → a ≤ 9 → b ≤ 9 → IsTrue (eq a b)
        → read a ≡ read b }
    ensures same_some { (read : ℕ → ℕ) (eq : ℕ → ℕ → Bool) (a b : ℕ)
        → EqualIsSameReadOf (λ n. n ≤ 9) read eq → a ≤ 9 → b ≤ 9 → read a ≡ read b
        → IsTrue (eq a b) }
    ensures some { EqualIsSameReadOf (λ n. n ≤ 9) (λ n. n) (λ a b. a % 10 == b % 10) }
{}

/// What `clone_is_same` says: a clone is the value itself, and cloning never fails.
pub fn what_is_cloned()
    ensures { (succeeds : ℕ → Bool) (may_give : ℕ → ℕ → Bool) (a b : ℕ)
        → CloneIsSame (record {
          is_clone = λ a b. IsTrue (may_give a b);
          is_infallible = λ a. IsTrue (succeeds a);
        })
        → IsTrue (succeeds a) × (IsTrue (may_give a b) → b ≡ a) }
{}

/// Bytes up to 127 are accepted and others refused, and so are bodies of up to 16,380 of them.
pub fn what_is_refused()
    ensures highest { (result : Result SevenBit NotSevenBit) → SevenBitOf 127 result
        ↔ MatchResult result (λ byte. number byte ≡ 127) (λ _. ⊥) }
    ensures higher { (result : Result SevenBit NotSevenBit) → SevenBitOf 128 result
        ↔ IsErr result }
    ensures body_byte { (byte : ℕ) → AreSevenBit (byte ∷ []) ↔ byte < 128 }
    ensures too_many { (bytes : List ℕ) (error : TooMuch) → Refuses bytes (Length error)
        ↔ 16381 ≤ length bytes }
    ensures few_enough { (bytes : List ℕ) (error : NotSevenBit) → Refuses bytes (Byte error)
        → length bytes ≤ 16380 }
    ensures high_byte { (byte : ℕ) (error : NotSevenBit)
        → Refuses (byte ∷ []) (Byte error) ↔ 128 ≤ byte }
{}

/// Bytes written into a slice: two into a longer one, two into one that they fill, and three into
/// one that is too short.
pub fn written_bytes()
    ensures longer { (new : List ℕ) (result : Result ℕ NoRoom)
        → WritesPrefix (1 ∷ 2 ∷ []) (7 ∷ 8 ∷ 9 ∷ []) new result
        ↔ (result ≡ Ok 2) × (new ≡ 1 ∷ 2 ∷ 9 ∷ []) }
    ensures filled { (new : List ℕ) (result : Result ℕ NoRoom)
        → WritesPrefix (1 ∷ 2 ∷ []) (7 ∷ 8 ∷ []) new result
        ↔ (result ≡ Ok 2) × (new ≡ 1 ∷ 2 ∷ []) }
    ensures too_short { (new : List ℕ) (result : Result ℕ NoRoom)
        → WritesPrefix (1 ∷ 2 ∷ 3 ∷ []) (7 ∷ 8 ∷ []) new result
        ↔ (result ≡ Err (record { need = 3 })) × (new ≡ 7 ∷ 8 ∷ []) }
{}

/// Two positions that differ only on the first and the last square.
pub fn squares_that_differ()
    ensures { (bits : ℕ) → DifferingSquares
        (Piece.WhiteKing ∷ replicate 62 Piece.Empty ++ Piece.WhiteKing ∷ [])
        (Piece.BlackKing ∷ replicate 62 Piece.Empty ++ Piece.BlackKing ∷ []) bits
        → IsBitSet bits 0 × (¬ (IsBitSet bits 1)) × (¬ (IsBitSet bits 62)) × IsBitSet bits 63 }
{}

/// A piece is determined by its code.
pub fn one_piece_a_code()
    ensures { (first second : Piece) → piece_code first ≡ piece_code second → first ≡ second }
{}

/// A byte of a rank means the empty squares of a digit from 1 to 8, or the piece of a letter.
pub fn bytes_of_a_rank()
    ensures digit { (count : ℕ) → 1 ≤ count → count ≤ 8
        → MeansSquares (0x30 + count) (replicate count Piece.Empty) }
    ensures letter { (piece : Piece) → piece ≢ Piece.Empty
        → MeansSquares (piece_letter piece) (piece ∷ []) }
    ensures size { (byte : ℕ) (squares : List Piece) → MeansSquares byte squares
        → (1 ≤ length squares) × (length squares ≤ 8) }
    ensures no_dot { (squares : List Piece) → ¬ (MeansSquares 0x2e squares) }
    ensures one_meaning { (byte : ℕ) (first second : List Piece)
        → MeansSquares byte first → MeansSquares byte second → first ≡ second }
{}

/// A rank has the squares of its bytes in order, and a placement those of its ranks, eight each. A
/// text begins a placement if it is a prefix of one.
pub fn ranks_and_their_squares()
    ensures no_byte { (squares : List Piece) → IsRank [] squares ↔ (squares ≡ []) }
    ensures one_byte { (byte : ℕ) (squares : List Piece)
        → IsRank (byte ∷ []) squares ↔ MeansSquares byte squares }
    ensures two_bytes { (byte other : ℕ) (first second : List Piece)
        → MeansSquares byte first → MeansSquares other second
        → IsRank (byte ∷ other ∷ []) (first ++ second) }
    ensures one_rank { (rank : List ℕ) (pieces : List Piece)
        → AreRanks (rank ∷ []) pieces ↔ (length pieces ≡ 8) × IsRank rank pieces }
    ensures two_ranks { (rank other : List ℕ) (first second : List Piece)
        → AreRanks (rank ∷ []) first → AreRanks (other ∷ []) second
        → AreRanks (rank ∷ other ∷ []) (first ++ second) }
    ensures begins { (text : List ℕ) → BeginsPlacement text
        ↔ ((more : List ℕ) × (pieces : List Piece) × IsPlacement (text ++ more) pieces) }
{}

/// An accepted text has a piece for each of the 64 squares.
pub fn placements_fill_the_board()
    ensures { (text : List ℕ) (pieces : List Piece)
        → IsPlacement text pieces → length pieces ≡ 64 }
{}

/// No text is a placement of two different positions.
pub fn one_position_a_placement()
    ensures { (text : List ℕ) (first second : List Piece)
        → IsPlacement text first → IsPlacement text second → first ≡ second }
{}

/// Each list of bytes has a position or a first wrong offset.
pub fn some_outcome_a_text()
    ensures { (text : List ℕ)
        → (read : Result Position BadPlacement) × ParsesPlacement text read }
{}

/// No text has two positions or two first wrong offsets, and none has a position and a first wrong
/// offset.
pub fn one_outcome_a_text()
    ensures { (text : List ℕ) (first second : Result Position BadPlacement)
        → ParsesPlacement text first → ParsesPlacement text second → first ≡ second }
{}

/// The written text of 64 pieces is a placement of them.
pub fn written_text_is_accepted()
    ensures { (pieces : List Piece)
        → length pieces ≡ 64 → IsPlacement (placement_text pieces) pieces }
{}

/// The written text of a position reads back as this position.
pub fn written_text_reads_back()
    ensures { (position : Position) (read : Result Position BadPlacement)
        → ParsesPlacement (placement_text (pieces_of position)) read → read ≡ Ok position }
{}

/// The written texts of the initial position, and of a rank with a pawn between empty squares.
#[tactic(auto, unfolding(crate::specs::Placement::placement_text))]
pub fn written_examples()
    ensures start { placement_text start_pieces
        ≡ codes "rnbqkbnr/pppppppp/8/8/8/8/PPPPPPPP/RNBQKBNR" }
    ensures rank { rank_text_after 0
        (replicate 2 Piece.Empty ++ Piece.WhitePawn ∷ replicate 5 Piece.Empty) ≡ codes "2P5" }
    ensures digits { digit_count (codes "2P5") ≡ 2 }
{}

/// In the written text, no two digits are adjacent.
pub fn written_digits_stand_apart()
    ensures { (pieces : List Piece) → DigitsApart (placement_text pieces) }
{}

/// No other text of a position keeps its digits apart.
pub fn one_text_keeps_digits_apart()
    ensures { (text : List ℕ) (pieces : List Piece)
        → IsPlacement text pieces → DigitsApart text → text ≡ placement_text pieces }
{}

/// No text of a position has fewer digits than the written one.
pub fn written_text_has_fewest_digits()
    ensures { (text : List ℕ) (pieces : List Piece)
        → IsPlacement text pieces → digit_count (placement_text pieces) ≤ digit_count text }
{}
