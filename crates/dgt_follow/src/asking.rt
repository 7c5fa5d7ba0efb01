//! What a follower requests of its board.

ghost use Rattle.std.specs.Prelude.{◌≡◌, ◌≤◌, ◌∷◌, [], if◌then◌else◌, length};
ghost use Rattle.dgt_command.specs.Encoding.{command_encoding};
ghost use Rattle.dgt_follow.specs.Pace.{clock_request, mode_command};

/// What a follower writes. If its mode reports the clock, the last byte requests a reading of it.
#[derive(Clone, Copy, Debug, PartialEq, Eq)]
pub enum Asking {
    /// Nothing: no request is due.
    Nothing,
    /// A request of the board's serial number, the command `45`: 1 byte.
    Identify,
    /// The mode's command and a dump request: 2 bytes, or 3 if the clock is requested.
    Heartbeat,
    /// A host's `restart`, which completes any unfinished command of the board, and then the mode's
    /// command: 258 bytes, or 259 if the clock is requested. The host gives up the replies that it
    /// awaited.
    Anew,
}

/// Which changes the board is asked to report by itself. In the modes that report the clock, each
/// request also contains the command `41`, `Clock`.
#[derive(Clone, Copy, Debug, PartialEq, Eq)]
pub enum UpdateMode {
    /// Each changed square: the command `44`.
    UpdateBoard,
    /// Each changed square and each reading of the clock: the command `43`.
    Update,
    /// Each changed square, and the clock when it changes: the command `4b`.
    UpdateNice,
}

impl UpdateMode {
    /// The one byte of the mode's command.
    pub(crate) fn code(self) -> u8
        ensures { command_encoding (mode_command self) ≡ result ∷ [] }
    {
        match self {
            UpdateMode::UpdateBoard => 0x44,
            UpdateMode::Update => 0x43,
            UpdateMode::UpdateNice => 0x4b,
        }
    }

    /// Whether the mode reports the clock.
    pub(crate) fn reports_clock(self) -> bool
        ensures { clock_request self ≡ (if result then 0x41 ∷ [] else []) }
    {
        match self {
            UpdateMode::UpdateBoard => false,
            UpdateMode::Update => true,
            UpdateMode::UpdateNice => true,
        }
    }

    /// How many bytes a request of the clock takes in this mode.
    pub(crate) fn request_length(self) -> usize
        ensures count { result ≡ length (clock_request self) }
        ensures at_most { result ≤ 1 }
    {
        if self.reports_clock() { 1 } else { 0 }
    }
}
