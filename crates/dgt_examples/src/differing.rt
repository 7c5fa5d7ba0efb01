use dgt_values::{Position, Square};
use std::io::{self, Write};

/// Writes the squares on which two positions differ, each with the piece that stands there now.
pub fn write_changes<W: Write>(old: &Position, new: &Position, output: &mut W) -> io::Result<()> {
    let differ = old.differ(new);
    for index in 0..64u8 {
        if differ >> index & 1 == 0 {
            continue;
        }
        if let Ok(square) = Square::from_index(index) {
            output.write_all(&square.name())?;
            output.write_all(&[b' ', new.get(square).letter() as u8, b'\n'])?;
        }
    }
    Ok(())
}
