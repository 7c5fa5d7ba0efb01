//! The picture of a board, and its text.

ghost use Rattle.std.specs.Prelude.{◌≡◌, ◌≢◌, ◌+◌, ◌≤◌, ◌↔◌, ◌++◌, IsTrue, codes, length, slice_set};
ghost use Rattle.dgt_values.specs.Board.{piece_letter, pieces_of, square_number};
ghost use Rattle.dgt_values.specs.Placement.{placement_text, rank_text_after, ranks_text};

use crate::gathering::Outgoing;
use dgt_values::{Piece, Position, Square};
use std::marker::Model;

// The text of a rank, of at most eight bytes, and a slash after it. Contracts see the text.
#[derive(Drop)]
struct RankText {
    bytes: [u8; 16],
    len: usize,
}

impl Model for RankText {
    ghost use Rattle.std.specs.Prelude.{◌≡◌, ◌+◌, ◌≤◌, ◌++◌, ℕ, List, codes, length, take};

    ghost Value = { List ℕ };

    ghost view = { λ rank. take rank.len rank.bytes };

    ghost invariant = { λ rank. (length rank.bytes ≡ 16) × (rank.len ≤ 8)
        × (take (rank.len + 1) rank.bytes ≡ take rank.len rank.bytes ++ codes "/") };
}

impl RankText {
    fn new(rank: &[Piece]) -> Self
        requires { length rank.now ≡ 8 }
        ensures { result ≡ rank_text_after 0 rank.now }
    {
        let mut text = RankText {
            bytes: [b'/'; 16],
            len: 0,
        };
        text.form(rank);
        text
    }

    // Forms the text of a rank. It does so without branches.
    fn form(&mut self, rank: &[Piece])
        requires { length rank.now ≡ 8 }
        ensures { self.new ≡ rank_text_after 0 rank.now }
    {
        let mut len = 0;
        let mut last = 0;
        let mut was_empty = false;
        for piece in rank {
            let empty = is_empty(*piece);
            let text = square_text(*piece);
            // an empty square after another one is counted by the digit of that one
            let counts = empty & was_empty;
            last = if counts { last + 1 } else { text };
            len += usize::from(!counts);
            self.bytes[len - 1] = last;
            was_empty = empty;
        }
        self.bytes[len] = b'/';
        self.len = len;
    }
}

// The text of a single square, by its piece's code.
const SQUARE_TEXTS: [u8; 16] = *b"1PRNBKQprnbkqXYZ";

fn square_text(piece: Piece) -> u8
    ensures empty { piece ≡ Piece.Empty → result ≡ 49 }
    ensures piece { piece ≢ Piece.Empty → result ≡ piece_letter piece }
{
    SQUARE_TEXTS[usize::from(piece.code())]
}

fn is_empty(piece: Piece) -> bool
    ensures { IsTrue result ↔ (piece ≡ Piece.Empty) }
{
    piece == Piece::Empty
}

/// The pieces of a board, and the texts of its ranks. So only one rank is formed again after a
/// field message. Contracts see the pieces.
#[derive(Drop)]
pub struct Picture {
    position: Position,
    ranks: [RankText; 8],
}

impl Model for Picture {
    ghost use Rattle.std.specs.Prelude.{◌≡◌, List};
    ghost use Rattle.dgt_values.specs.declared.pieces.Piece.{Piece};
    ghost use Rattle.dgt_values.specs.Board.{pieces_of};
    ghost use Rattle.dgt_values.specs.Placement.{ranks_text};

    ghost Value = { List Piece };

    ghost view = { λ picture. pieces_of picture.position };

    ghost invariant = { λ picture. picture.ranks ≡ ranks_text 8 (pieces_of picture.position) };
}

impl Picture {
    /// The picture of a dump.
    pub(crate) fn new(position: &Position) -> Self
        ensures { result ≡ pieces_of position.now }
    {
        let pieces = position.pieces();
        Picture {
            position: *position,
            ranks: [
                RankText::new(&pieces[..8]),
                RankText::new(&pieces[8..16]),
                RankText::new(&pieces[16..24]),
                RankText::new(&pieces[24..32]),
                RankText::new(&pieces[32..40]),
                RankText::new(&pieces[40..48]),
                RankText::new(&pieces[48..56]),
                RankText::new(&pieces[56..64]),
            ],
        }
    }

    /// Puts the piece on the square, as a field message does.
    pub(crate) fn set(&mut self, square: Square, piece: Piece)
        ensures { self.new ≡ slice_set self.old (square_number square) piece }
    {
        self.position.set(square, piece);
        let rank = usize::from(square.index() / 8);
        let text = &mut self.ranks[rank];
        text.form(&self.position.pieces()[8 * rank..8 * rank + 8]);
    }

    /// Adds its placement and a line feed.
    pub(crate) fn push<const ROOM: usize>(&self, text: &mut Outgoing<ROOM>)
        requires { length text.old + 80 ≤ ROOM }
        ensures { text.new ≡ text.old ++ (placement_text self.now ++ codes "\n") }
    {
        for rank in &self.ranks[..7] {
            text.push_prefix(rank.bytes, rank.len + 1);
        }
        let last = &self.ranks[7];
        text.push_prefix(last.bytes, last.len);
        text.push(b"\n");
    }
}
