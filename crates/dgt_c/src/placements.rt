//! Positions as text.

ghost use Rattle.std.specs.Prelude.{◌≡◌, List, false, map, IsTrue};
ghost use Rattle.dgt_values.specs.declared.pieces.Piece.{Piece};
ghost use Rattle.dgt_values.specs.Board.{DifferingSquares, piece_code};
ghost use Rattle.dgt_values.specs.Placement.{IsFirstBadOffset, IsPlacement, ParsesPlacement, placement_text};
ghost use Rattle.dgt_c.specs.Starting.{ArePieces};
ghost use Rattle.dgt_c.specs.Slices.{with_text};

use crate::ascii::ascii_prefix;
use crate::checking::read_position;
use crate::copying::put_placement;
use crate::header::{DgtParsed, PLACEMENT_ROOM};
use dgt_values::{BadPlacement, Position};

/// Writes the placement of the pieces with these codes, and a zero byte. Returns false if one of
/// them is not a piece code; then the slice is unchanged.
#[unsafe(no_mangle)]
pub extern "C" fn dgt_placement(pieces: &[u8; 64], text: &mut [u8; PLACEMENT_ROOM]) -> bool
    ensures written { IsTrue result → (stand : List Piece) × (map piece_code stand ≡ pieces.now)
        × (text.new ≡ with_text (placement_text stand) text.old) }
    ensures none { result ≡ false → ¬ (ArePieces pieces.now) × (text.new ≡ text.old) }
{
    match read_position(pieces) {
        Some(position) => {
            put_placement(&position, text);
            true
        }
        None => false,
    }
}

/// The squares on which two positions differ: bit n is set if square n differs. Returns false if
/// one of the codes is not a piece code; then the mask is unchanged.
#[unsafe(no_mangle)]
pub extern "C" fn dgt_differ(pieces: &[u8; 64], others: &[u8; 64], squares: &mut u64) -> bool
    ensures differ { IsTrue result → (stand : List Piece) × (other : List Piece)
        × (map piece_code stand ≡ pieces.now) × (map piece_code other ≡ others.now)
        × DifferingSquares stand other squares.new }
    ensures none { result ≡ false → ¬ (ArePieces pieces.now × ArePieces others.now)
        × (squares.new ≡ squares.old) }
{
    let (Some(position), Some(other)) = (read_position(pieces), read_position(others)) else {
        return false;
    };
    *squares = position.differ(&other);
    true
}

// The position of a placement. A placement contains only ASCII.
fn parse_text(text: &[u8]) -> Result<Position, BadPlacement>
    ensures { ParsesPlacement text.now result }
{
    let prefix = ascii_prefix(text);
    match Position::parse_placement(prefix) {
        Err(bad) => Err(bad),
        Ok(_) if prefix.len() < text.len() => Err(BadPlacement { at: prefix.len() }),
        Ok(position) => Ok(position),
    }
}

/// Reads a placement. If the text is not one, the slice is unchanged, and the offset of the first
/// wrong byte is reported.
#[unsafe(no_mangle)]
pub extern "C" fn dgt_parse_placement(text: &[u8], pieces: &mut [u8; 64]) -> DgtParsed
    ensures read { IsTrue result.ok → (stand : List Piece) × IsPlacement text.now stand
        × (pieces.new ≡ map piece_code stand) × (result.at ≡ 0) }
    ensures refused { result.ok ≡ false →
        IsFirstBadOffset text.now result.at × (pieces.new ≡ pieces.old) }
{
    match parse_text(text) {
        Ok(position) => {
            *pieces = position.codes();
            DgtParsed { ok: true, at: 0 }
        }
        Err(bad) => DgtParsed {
            ok: false,
            at: bad.at,
        },
    }
}
