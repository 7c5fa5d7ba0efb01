//! Checks of bytes from C.

ghost use Rattle.std.specs.Prelude.{◌≡◌, ◌↔◌, IsTrue, MatchOption, map};
ghost use Rattle.dgt_values.specs.Board.{piece_code, pieces_of};
ghost use Rattle.dgt_values.specs.Bytes.{AreSevenBit, number};
ghost use Rattle.dgt_c.specs.Starting.{ArePieces, AreZeros};

use dgt_values::{Position, SevenBit};

/// Whether all bytes are 0.
pub(crate) fn are_zeros(bytes: &[u8]) -> bool
    ensures { IsTrue result ↔ AreZeros bytes.now }
{
    bytes.iter().all(|byte| *byte == 0)
}

fn are_seven_bit(bytes: &[u8]) -> bool
    ensures { IsTrue result ↔ AreSevenBit bytes.now }
{
    bytes.iter().all(|byte| *byte < 128)
}

/// These bytes as seven-bit bytes, if no byte has its top bit set.
pub(crate) fn read_seven_bits<const N: usize>(bytes: &[u8; N]) -> Option<[SevenBit; N]>
    ensures { MatchOption result (¬ (AreSevenBit bytes.now))
        (λ read. (map number read ≡ bytes.now) × AreSevenBit bytes.now) }
{
    if !are_seven_bit(bytes) {
        return None;
    }
    let mut read = [SevenBit::from_small(0); N];
    for (index, byte) in bytes.iter().enumerate() {
        read[index] = SevenBit::from_small(*byte);
    }
    Some(read)
}

/// The position of these codes, from a8 to h1, if each is a piece code.
pub(crate) fn read_position(codes: &[u8; 64]) -> Option<Position>
    ensures { MatchOption result (¬ (ArePieces codes.now))
        (λ position. map piece_code (pieces_of position) ≡ codes.now) }
{
    Position::from_codes(codes).ok()
}
