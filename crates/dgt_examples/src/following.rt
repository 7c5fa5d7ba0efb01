use dgt_host::{Host, RESTART_LENGTH};
use dgt_lines::{Failed, RunFault, Sink, Source, flush, put};

/// Asks a board for all its squares and for each change, and hears it until its picture is known,
/// or no more bytes come.
pub fn follow<R: Source, W: Sink>(from: &mut R, to: &mut W) -> Result<Host, RunFault> {
    let mut host = Host::new();
    let mut asked = [0; RESTART_LENGTH];
    if let Ok(count) = host.restart(&mut asked) {
        put(to, &asked[..count])?;
        flush(to)?;
    }
    let mut chunk = [0; 64];
    for _ in 0..u64::MAX {
        let count = match from.read_some(&mut chunk) {
            Ok(count) => count,
            Err(Failed) => return Err(RunFault::ReadFailed),
        };
        host.hear_all(&chunk[..count]);
        if count == 0 || host.picture().is_some() {
            break;
        }
    }
    Ok(host)
}
