//! Positions as text.

ghost use Rattle.std.specs.Prelude.{◌≡◌, ◌<◌, ◌≤◌, ◌+◌, ◌++◌, length, List, replicate};
ghost use Rattle.std.specs.Prelude.{MatchOption};
ghost use Rattle.arrayvec.specs.ArrayString.{array_string_len};
ghost use Rattle.dgt_values.specs.Board.{pieces_of};
ghost use Rattle.dgt_values.specs.Placement.{placement_text, rank_text_after, run_text, MeansSquares, ParsesPlacement};

use crate::pieces::Piece;
use crate::positions::{Position, is_same};
use crate::refusals::BadPlacement;
use arrayvec::ArrayString;

impl Position {
    /// The position of a placement: eight ranks, from 8 down to 1, with a slash between two. A rank
    /// consists of letters for its pieces and digits from 1 to 8 for runs of empty squares, eight
    /// squares in all. Two digits may be adjacent. Returns `BadPlacement` for any other text.
    pub fn parse_placement(text: &str) -> Result<Self, BadPlacement>
        ensures { ParsesPlacement text.now result }
    {
        let mut pieces = [Piece::Empty; 64];
        // the full ranks above this one, and the squares read of this one
        let mut rank = 0;
        let mut file = 0;
        for (at, &byte) in text.as_bytes().iter().enumerate() {
            let rank_is_full = file == 8;
            let more_ranks = rank < 7;
            if byte == b'/' && rank_is_full && more_ranks {
                rank += 1;
                file = 0;
                continue;
            }
            let Some((piece, count)) = squares_of(byte, 8 - file) else {
                return Err(BadPlacement { at });
            };
            let next = 8 * rank + file;
            pieces[next..next + count].fill(piece);
            file += count;
        }
        let squares_read = 8 * rank + file;
        if squares_read == 64 {
            Ok(Position::from_pieces(pieces))
        } else {
            Err(BadPlacement { at: text.len() })
        }
    }

    /// The placement of the position with the fewest digits: two digits are never adjacent. It
    /// reads back as this position.
    pub fn placement(&self) -> ArrayString<71>
        ensures { result.bytes ≡ placement_text (pieces_of self.now) }
    {
        let pieces = self.pieces().as_slice();
        let mut text = ArrayString::new();
        push_rank(&mut text, &pieces[..8]);
        for rank in 1..8 {
            text.push('/');
            push_rank(&mut text, &pieces[8 * rank..8 * rank + 8]);
        }
        text
    }
}

/// What a byte of a rank means: this piece, on this number of squares. `None` if it means nothing,
/// or more squares than are left.
fn squares_of(byte: u8, room: usize) -> Option<(Piece, usize)>
    ensures { MatchOption result
        ((squares : List Piece) → MeansSquares byte squares → room < length squares)
        (λ run. MeansSquares byte (replicate run.1 run.0) × (run.1 ≤ room)) }
{
    let (piece, count) = match byte {
        b'1'..=b'8' => (Piece::Empty, usize::from(byte - b'0')),
        b'.' => return None,
        _ => (Piece::from_letter(char::from(byte)).ok()?, 1),
    };
    if count <= room {
        Some((piece, count))
    } else {
        None
    }
}

fn push_run(text: &mut ArrayString<71>, empty: u8)
    requires run { empty ≤ 8 }
    requires room { array_string_len text.old + empty ≤ 71 }
    ensures text { text.new.bytes ≡ text.old.bytes ++ run_text empty }
    ensures len { array_string_len text.new ≤ array_string_len text.old + empty }
{
    if empty > 0 {
        text.push((b'0' + empty) as char);
    }
}

fn push_rank(text: &mut ArrayString<71>, rank: &[Piece])
    requires rank { length rank.now ≡ 8 }
    requires room { array_string_len text.old ≤ 63 }
    ensures text { text.new.bytes ≡ text.old.bytes ++ rank_text_after 0 rank.now }
    ensures len { array_string_len text.new ≤ array_string_len text.old + 8 }
{
    let mut empty = 0;
    for piece in rank {
        if is_same(*piece, Piece::Empty) {
            empty += 1;
        } else {
            push_run(text, empty);
            text.push(piece.letter());
            empty = 0;
        }
    }
    push_run(text, empty);
}
