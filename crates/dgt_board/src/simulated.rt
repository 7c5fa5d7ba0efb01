//! What the simulated boards of this project report: that of the program `dgt`, and the default of
//! the library for C.

ghost use Rattle.std.specs.Prelude.{◌≡◌};
ghost use Rattle.dgt_message.specs.Content.{clock_seen};
ghost use Rattle.dgt_board.specs.Simulated.{simulated_identity, simulated_times};

use crate::identities::Identity;
use dgt_message::{Clock, Reading, Status, Times};
use dgt_values::{Body, SevenBit};

impl Identity {
    /// The serial number 00001, the trademark SIMULATED BOARD, version 1.3, one byte of the battery
    /// (hexadecimal 64), version 1.4 of the clock, and the long serial number 0000000001.
    pub fn simulated() -> Self
        ensures { result ≡ simulated_identity }
    {
        let zero = SevenBit::from_small(b'0');
        let serial = [zero, zero, zero, zero, SevenBit::from_small(b'1')];
        let trademark = Body::new(b"SIMULATED BOARD").unwrap();
        let (main, sub) = (SevenBit::from_small(1), SevenBit::from_small(3));
        let battery = Body::new(&[0x64]).unwrap();
        let long_serial = Body::new(b"0000000001").unwrap();
        Identity::new(serial, trademark, main, sub, battery, 0x14, long_serial).unwrap()
    }
}

/// A stopped clock that shows 0:00:00 for both players.
pub fn simulated_clock() -> Clock
    ensures { clock_seen result ≡ simulated_times }
{
    let zero = Reading::new(0, 0, 0, 0).unwrap();
    let status = Status::new(SevenBit::from_small(0));
    Clock::Times(Times::new(zero, zero, status).unwrap())
}
