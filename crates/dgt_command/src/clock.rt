//! Clock messages.

ghost use Rattle.std.specs.Prelude.{◌≡◌, length, false};
ghost use Rattle.dgt_command.specs.Ids.{has_own_case};

use crate::carried::Payload;
use crate::ids::KnownId;
use dgt_values::Known;

/// A clock message without a variant of its own: another id, or a known id with a payload of
/// another length.
#[derive(Clone, Copy, Debug, PartialEq, Eq)]
pub struct RawClock<'a> {
    id: u8,
    payload: Payload<'a>,
    ghost unread: { has_own_case id (length payload.bytes.now) ≡ false },
}

// Whether a clock message with this id and payload length has a variant of its own.
fn has_case(id: u8, size: usize) -> bool
    ensures { result ≡ has_own_case id size }
{
    match KnownId::with_number(id) {
        Some(KnownId::Display) => size == 8,
        Some(KnownId::Icons) => true,
        Some(KnownId::End | KnownId::Button | KnownId::Version) => size == 0,
        Some(KnownId::SetAndRun) => size == 7,
        Some(KnownId::Beep) => size == 1,
        Some(KnownId::Text) => size == 9,
        None => false,
    }
}

impl<'a> RawClock<'a> {
    ghost use Rattle.std.specs.Prelude.{◌≡◌, ◌↔◌, length, false, IfOk, IsErr, IsTrue};
    ghost use Rattle.dgt_command.specs.Content.{payload_bytes, raw_id, raw_payload};
    ghost use Rattle.dgt_command.specs.Ids.{has_own_case};

    /// The clock message of this id and payload. Returns `Known` if another variant of
    /// [`ClockCommand`] covers this id and payload length.
    pub fn new(id: u8, payload: Payload<'a>) -> Result<Self, Known>
        ensures id { IfOk result (λ raw. raw_id raw ≡ id) }
        ensures payload { IfOk result (λ raw. raw_payload raw ≡ payload_bytes payload.entry) }
        ensures refused { IsErr result
            ↔ IsTrue (has_own_case id (length (payload_bytes payload.entry))) }
    {
        if has_case(id, payload.bytes().len()) {
            return Err(Known);
        }
        Ok(RawClock { id, payload })
    }

    /// The id, the byte before the payload.
    pub fn id(self) -> u8
        ensures { result ≡ raw_id self.entry }
    {
        self.id
    }

    /// The bytes after the id.
    pub fn payload(self) -> Payload<'a>
        ensures payload { payload_bytes result ≡ raw_payload self.entry }
        ensures unread { has_own_case (raw_id self.entry) (length (raw_payload self.entry))
            ≡ false }
    {
        self.payload
    }
}

/// A message to the clock. The bytes of each variant are sent as they are, whatever their values.
#[derive(Clone, Copy, Debug, PartialEq, Eq)]
pub enum ClockCommand<'a> {
    /// Show these segments. `places` are the six digits from left to right, one segment byte each.
    Display {
        places: [u8; 6],
        dots: u8,
        beep: u8,
    },
    /// Show these icons.
    Icons(Payload<'a>),
    /// End the display of a text or of segments, and show the times again.
    End,
    /// Report the buttons.
    Button,
    /// Report the clock's version.
    Version,
    /// Set the clock and start it. `left` and `right` are hours, minutes and seconds.
    SetAndRun {
        left: [u8; 3],
        right: [u8; 3],
        control: u8,
    },
    /// Beep for this duration.
    Beep(u8),
    /// Show this text. `letters` are the eight characters from left to right, one byte each.
    Text {
        letters: [u8; 8],
        beep: u8,
    },
    /// A clock message without a variant of its own.
    Raw(RawClock<'a>),
}
