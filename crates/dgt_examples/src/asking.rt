use dgt_follow::{Follower, MAX_ASKING};
use dgt_lines::{RunFault, Sink, flush, put};

/// Hears what a board sent up to this time, and asks the board for all its squares if that is due.
pub fn keep_right<W: Sink>(
    follower: &mut Follower,
    now: u64,
    heard: &[u8],
    to: &mut W,
) -> Result<(), RunFault> {
    follower.hear_all(now, heard);
    let mut asked = [0; MAX_ASKING];
    let count = follower.ask(now, &mut asked).unwrap_or(0);
    if count > 0 {
        put(to, &asked[..count])?;
        flush(to)?;
    }
    Ok(())
}
