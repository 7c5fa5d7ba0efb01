use dgt_host::Host;
use std::io::{self, Read, Write};

/// Writes the placement of the pieces after each change that a board reports, up to the end.
pub fn show<R: Read + Drop, W: Write + Drop>(mut board: R, mut output: W) -> io::Result<()> {
    let mut host = Host::new();
    let mut shown = None;
    let mut chunk = [0; 64];
    for _ in 0..u64::MAX {
        let count = board.read(&mut chunk)?;
        if count == 0 {
            break;
        }
        for byte in &chunk[..count] {
            host.hear_all(&[*byte]);
            let picture = host.picture().copied();
            if picture != shown {
                shown = picture;
                if let Some(position) = picture {
                    output.write_all(position.placement().as_str().as_bytes())?;
                    output.write_all(b"\n")?;
                    output.flush()?;
                }
            }
        }
    }
    Ok(())
}
