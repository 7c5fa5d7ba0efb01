//! Lists of bytes that commands carry unread.

ghost use Rattle.std.specs.Prelude.{◌≡◌, ◌<◌, ◌≤◌, ◌↔◌, length, IfOk, IsErr};
ghost use Rattle.dgt_command.specs.declared.carried.TheConstants.{MAX_LED_BYTES, MAX_PAYLOAD};

use dgt_values::TooMuch;

/// The most bytes that a clock message carries: its size, one byte, also counts three other bytes.
pub const MAX_PAYLOAD: usize = 252;

/// The most bytes that an LED frame carries: its size is one byte.
pub const MAX_LED_BYTES: usize = 255;

/// The payload of a clock message, borrowed from its owner: at most `MAX_PAYLOAD` bytes of any
/// values.
#[derive(Clone, Copy, Debug, PartialEq, Eq)]
pub struct Payload<'a> {
    pub(crate) bytes: &'a [u8],
    ghost fits: { length bytes.now ≤ MAX_PAYLOAD },
}

impl<'a> Payload<'a> {
    ghost use Rattle.dgt_command.specs.Content.{payload_bytes};

    /// The payload of these bytes. Returns `TooMuch` for more than `MAX_PAYLOAD` bytes.
    pub fn new(bytes: &'a [u8]) -> Result<Self, TooMuch>
        ensures ok { IfOk result (λ payload. payload_bytes payload ≡ bytes.now) }
        ensures refused { IsErr result ↔ (MAX_PAYLOAD < length bytes.now) }
    {
        if bytes.len() > MAX_PAYLOAD {
            return Err(TooMuch);
        }
        Ok(Payload { bytes })
    }

    /// The payload as a slice.
    pub fn bytes(self) -> &'a [u8]
        ensures bytes { result.now ≡ payload_bytes self.entry }
        ensures fits { length result.now ≤ MAX_PAYLOAD }
    {
        self.bytes
    }
}

/// The bytes of an LED frame after its size, borrowed from their owner: at most `MAX_LED_BYTES`, of
/// any values.
#[derive(Clone, Copy, Debug, PartialEq, Eq)]
pub struct LedBytes<'a> {
    pub(crate) bytes: &'a [u8],
    ghost fits: { length bytes.now ≤ MAX_LED_BYTES },
}

impl<'a> LedBytes<'a> {
    ghost use Rattle.dgt_command.specs.Content.{led_bytes};

    /// LED bytes. Returns `TooMuch` for more than `MAX_LED_BYTES` bytes.
    pub fn new(bytes: &'a [u8]) -> Result<Self, TooMuch>
        ensures ok { IfOk result (λ leds. led_bytes leds ≡ bytes.now) }
        ensures refused { IsErr result ↔ (MAX_LED_BYTES < length bytes.now) }
    {
        if bytes.len() > MAX_LED_BYTES {
            return Err(TooMuch);
        }
        Ok(LedBytes { bytes })
    }

    /// The bytes as a slice.
    pub fn bytes(self) -> &'a [u8]
        ensures bytes { result.now ≡ led_bytes self.entry }
        ensures fits { length result.now ≤ MAX_LED_BYTES }
    {
        self.bytes
    }
}
