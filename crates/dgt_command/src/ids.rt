//! The ids of clock messages with a variant of their own.

ghost use Rattle.std.specs.Prelude.{◌≡◌};
ghost use Rattle.dgt_command.specs.Ids.{id_number, id_with};

/// The id of a clock message with a variant of its own in [`ClockCommand`](crate::ClockCommand).
#[derive(Clone, Copy, Debug, PartialEq, Eq)]
pub enum KnownId {
    Display = 0x01,
    Icons = 0x02,
    End = 0x03,
    Button = 0x08,
    Version = 0x09,
    SetAndRun = 0x0a,
    Beep = 0x0b,
    Text = 0x0c,
}

const KNOWN_IDS: &[KnownId] = &[
    KnownId::Display,
    KnownId::Icons,
    KnownId::End,
    KnownId::Button,
    KnownId::Version,
    KnownId::SetAndRun,
    KnownId::Beep,
    KnownId::Text,
];

impl KnownId {
    /// The id as a number.
    pub fn number(self) -> u8
        ensures { result ≡ id_number self }
    {
        self as u8
    }

    /// The id with this number, if there is one.
    pub fn with_number(number: u8) -> Option<Self>
        ensures { result ≡ id_with number }
    {
        KNOWN_IDS.iter().copied().find(|id| id.number() == number)
    }
}
