//! The state of a battery.

ghost use Rattle.std.specs.Prelude.{◌≡◌, ◌≢◌, ◌↔◌, ℕ, length, MatchOption};
ghost use Rattle.dgt_names.specs.Names.{IsBattery, IsKnownAs};

/// What a battery reports of itself, in nine bytes.
#[derive(Clone, Copy, Debug)]
pub struct BatteryState {
    /// The charge left, in percent, if it is known.
    pub percent: Option<u8>,
    /// The hours until it is empty, or until it is charged, if they are known.
    pub hours_left: Option<u8>,
    /// The minutes to add to these hours.
    pub minutes_left: Option<u8>,
    /// How long the board has been on.
    pub hours_on: u8,
    pub minutes_on: u8,
    /// How long the board has been idle.
    pub days_resting: u8,
    pub hours_resting: u8,
    pub minutes_resting: u8,
    pub charging: bool,
    pub discharging: bool,
}

impl BatteryState {
    /// What the body of a battery message reports. `None` if it is not nine bytes long.
    pub fn of(body: &[u8]) -> Option<Self>
        ensures { MatchOption result (length body.now ≢ 9) (λ state. IsBattery body.now state) }
    {
        let [
            percent,
            hours,
            minutes,
            hours_on,
            minutes_on,
            days,
            resting_hours,
            resting,
            bits,
        ] = body
        else {
            return None;
        };
        Some(BatteryState {
            percent: known(*percent),
            hours_left: known(*hours),
            minutes_left: known(*minutes),
            hours_on: *hours_on,
            minutes_on: *minutes_on,
            days_resting: *days,
            hours_resting: *resting_hours,
            minutes_resting: *resting,
            charging: *bits & 1 != 0,
            discharging: *bits & 2 != 0,
        })
    }
}

// The number in a byte. 7f means unknown.
fn known(byte: u8) -> Option<u8>
    ensures { IsKnownAs byte result }
{
    if byte == 0x7f { None } else { Some(byte) }
}
