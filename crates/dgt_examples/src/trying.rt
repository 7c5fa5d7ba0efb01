use dgt_board::{Board, MAX_SENT, Polled};
use dgt_host::{Host, RESTART_LENGTH};

/// A new host follows the board, and hears what the board has to send.
pub fn try_host(board: &mut Board) -> Host {
    let mut host = Host::new();
    let mut asked = [0; RESTART_LENGTH];
    let count = host.restart(&mut asked).unwrap_or(0);
    let mut message = [0; MAX_SENT];
    for byte in &asked[..count] {
        let _ = board.take(&[*byte]);
        for _ in 0..64 {
            let Polled::Wrote(count) = board.poll(&mut message) else {
                break;
            };
            host.hear_all(&message[..count]);
        }
    }
    host
}
