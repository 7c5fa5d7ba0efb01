//! Copies bytes into slices of C.

ghost use Rattle.std.specs.Prelude.{◌≡◌, ◌<◌, length};
ghost use Rattle.dgt_values.specs.Board.{pieces_of};
ghost use Rattle.dgt_values.specs.Placement.{placement_text};
ghost use Rattle.dgt_c.specs.Slices.{overwritten, with_text};

use crate::header::PLACEMENT_ROOM;
use dgt_values::Position;

/// Writes as many of the bytes as fit at the beginning of the slice.
#[inline(always)]
pub(crate) fn overwrite(bytes: &[u8], out: &mut [u8])
    ensures { out.new ≡ overwritten out.old bytes.now }
{
    if bytes.is_empty() {
        return;
    }
    if bytes.len() <= out.len() {
        out[..bytes.len()].copy_from_slice(bytes);
    } else {
        out.copy_from_slice(&bytes[..out.len()]);
    }
}

/// Writes a text and a zero byte at the beginning of the slice.
pub(crate) fn put_text(bytes: &[u8], text: &mut [u8])
    requires { length bytes.now < length text.old }
    ensures { text.new ≡ with_text bytes.now text.old }
{
    let len = bytes.len();
    text[..len].copy_from_slice(bytes);
    text[len] = 0;
}

/// Writes the placement of a position and a zero byte at the beginning of the slice.
pub(crate) fn put_placement(position: &Position, text: &mut [u8; PLACEMENT_ROOM])
    ensures { text.new ≡ with_text (placement_text (pieces_of position.now)) text.old }
{
    put_text(position.placement().as_bytes(), text);
}
