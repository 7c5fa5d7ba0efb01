//! Laws of stored items. Each function does nothing at run time: its contract states the facts.

ghost use Rattle.std.specs.Prelude.{◌≡◌, ◌≢◌, ℕ, List, [], ◌∷◌, map};
ghost use Rattle.dgt_values.specs.Equality.{CloneIsSame, EqualIsSame, EqualIsSameRead};
ghost use Rattle.dgt_values.specs.declared.pieces.Piece.{Piece as AnyPiece};
ghost use Rattle.dgt_message.specs.Clock.{time_of};
ghost use Rattle.dgt_stored.specs.declared.stored.Mark.{Mark as AnyMark};
ghost use Rattle.dgt_stored.specs.Stored.{Begins, IsFirst, IsKnown, Says, StoredContent, mark_byte, stored_bytes, stored_content};

use crate::stored::{Mark, Stored};

/// Two values are equal by `==` exactly if they mean the same.
pub fn equal_is_same()
    ensures mark { EqualIsSame ⟦<Mark as PartialEq>⟧.eq }
    ensures stored { EqualIsSameRead stored_content ⟦<Stored as PartialEq>⟧.eq }
{}

/// A clone is the value itself, and cloning never fails.
pub fn clone_is_same()
    ensures mark { CloneIsSame ⟦<Mark as Clone>⟧ }
    ensures stored { CloneIsSame ⟦<Stored as Clone>⟧ }
{}

/// Bytes begin with one item only, and leave the same bytes after it.
pub fn one_is_first()
    ensures { (bytes : List ℕ) (one other : StoredContent) (later others : List ℕ) →
        IsFirst bytes one later → IsFirst bytes other others → (one ≡ other) × (later ≡ others) }
{}

/// Each body is a list of items, and of no others.
pub fn bodies_are_read()
    ensures each { (body : List ℕ) → (things : List StoredContent) × Says body things }
    ensures once { (body : List ℕ) (things others : List StoredContent) →
        Says body things → Says body others → things ≡ others }
{
    one_is_first();
}

/// The bytes of stored items, by example: a white pawn on e2, the same with the other bit, a time
/// of 1:30:05 of each player, and the marks.
pub fn bytes_by_example()
    ensures piece { stored_bytes (StoredContent.piece 52 AnyPiece.WhitePawn 0)
        ≡ 0x41 ∷ 0x34 ∷ [] }
    ensures bit { stored_bytes (StoredContent.piece 52 AnyPiece.WhitePawn 1) ≡ 0x51 ∷ 0x34 ∷ [] }
    ensures time { stored_bytes (StoredContent.time (time_of 1 30 5 6))
        ≡ 0x61 ∷ 0x30 ∷ 0x05 ∷ [] }
    ensures other_time { stored_bytes (StoredContent.time (time_of 1 30 5 7))
        ≡ 0x71 ∷ 0x30 ∷ 0x05 ∷ [] }
    ensures marks { map mark_byte (AnyMark.Nothing ∷ AnyMark.PowerUp ∷ AnyMark.End
        ∷ AnyMark.FourRows ∷ AnyMark.EmptyBoard ∷ AnyMark.Downloaded ∷ AnyMark.Begin
        ∷ AnyMark.TurnedBegin ∷ AnyMark.Tag ∷ AnyMark.Watchdog ∷ AnyMark.Erased ∷ [])
        ≡ 0x00 ∷ 0x6a ∷ 0x6b ∷ 0x6c ∷ 0x6d ∷ 0x6e ∷ 0x6f ∷ 0x7a ∷ 0x7b ∷ 0x7c ∷ 0x7f ∷ [] }
{}

/// The first item of some bytes. There is no square 64. A piece without its square is unknown, and
/// so is a time without its seconds.
pub fn first_by_example()
    ensures piece { (later : List ℕ) → IsFirst (0x41 ∷ 0x34 ∷ later)
        (StoredContent.piece 52 AnyPiece.WhitePawn 0) later }
    ensures time { (later : List ℕ) → IsFirst (0x61 ∷ 0x30 ∷ 0x05 ∷ later)
        (StoredContent.time (time_of 1 30 5 6)) later }
    ensures mark { (later : List ℕ) → IsFirst (0x6b ∷ later)
        (StoredContent.mark AnyMark.End) later }
    ensures no_square { (bytes later : List ℕ) (piece : AnyPiece) (bit : ℕ) →
        ¬ (Begins bytes (StoredContent.piece 64 piece bit) later) }
    ensures no_piece { IsFirst (0x41 ∷ []) (StoredContent.unknown 0x41) [] }
    ensures no_seconds { IsFirst (0x61 ∷ 0x30 ∷ []) (StoredContent.unknown 0x61) (0x30 ∷ []) }
    ensures known { (byte : ℕ) (bytes later : List ℕ) (other : StoredContent) (rest : List ℕ) →
        IsKnown other → Begins bytes other rest →
        ¬ (IsFirst bytes (StoredContent.unknown byte) later) }
{}
