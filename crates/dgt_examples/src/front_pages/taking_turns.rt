use dgt_follow::Follower;

/// Hears a chunk at this time, and writes what is due into the slice, which has room for
/// `MAX_ASKING` bytes. Returns how many bytes to send.
pub fn turn(follower: &mut Follower, now: u64, chunk: &[u8], out: &mut [u8]) -> usize {
    follower.hear_all(now, chunk);
    follower.ask(now, out).unwrap_or(0)
}
