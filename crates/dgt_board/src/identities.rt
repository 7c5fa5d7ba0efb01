//! What a board reports of itself.

ghost use Rattle.std.specs.Prelude.{◌≡◌, ◌<◌, ◌≤◌, ◌⊎◌, ◌↔◌, length, map, All, IfOk, IsErr, MatchResult};
ghost use Rattle.dgt_values.specs.Bytes.{body_bytes, number};
ghost use Rattle.dgt_board.specs.State.{IsKeptBody, IsShortIdentity};

use arrayvec::ArrayVec;
use dgt_values::{Body, SevenBit};
use std::marker::Model;
use thiserror::Error;

/// The most bytes of a trademark, a battery body or a long serial number that a board keeps.
pub const MAX_KEPT_BODY: usize = 64;

/// A body is longer than `MAX_KEPT_BODY` bytes.
#[derive(Clone, Copy, Debug, PartialEq, Eq, Error)]
#[error("a body is longer than {MAX_KEPT_BODY} bytes")]
pub struct TooLong;

/// What a board reports of itself on request: its serial number, trademark, version, battery, the
/// version of its clock, and its long serial number. It keeps its own copy of the bodies.
#[derive(Drop)]
pub struct Identity {
    serial: [SevenBit; 5],
    trademark: ArrayVec<u8, MAX_KEPT_BODY>,
    main: SevenBit,
    sub: SevenBit,
    battery: ArrayVec<u8, MAX_KEPT_BODY>,
    clock_version: u8,
    long_serial: ArrayVec<u8, MAX_KEPT_BODY>,
}

impl Model for Identity {
    ghost use Rattle.std.specs.Prelude.{map};
    ghost use Rattle.dgt_values.specs.Bytes.{number};
    ghost use Rattle.dgt_board.specs.State.{IdentityContent, IsKeptBody};

    ghost Value = { IdentityContent };

    ghost view = { λ identity. record {
      serial = map number identity.serial;
      trademark = identity.trademark.items;
      main = number identity.main;
      sub = number identity.sub;
      battery = identity.battery.items;
      clock_version = identity.clock_version;
      long_serial = identity.long_serial.items;
    } };

    ghost invariant = { λ identity. IsKeptBody identity.trademark.items
        × IsKeptBody identity.battery.items × IsKeptBody identity.long_serial.items };
}

fn kept_body(body: Body<'_>) -> Result<ArrayVec<u8, MAX_KEPT_BODY>, TooLong>
    ensures { MatchResult result
        (λ kept. (kept.items ≡ body_bytes body.entry) × IsKeptBody kept.items)
        (λ _. MAX_KEPT_BODY < length (body_bytes body.entry)) }
{
    let mut kept = ArrayVec::new();
    match kept.try_extend_from_slice(body.bytes()) {
        Ok(()) => Ok(kept),
        Err(_) => Err(TooLong),
    }
}

impl Identity {
    /// An identity of the serial number, the trademark, the main and sub number of the version, the
    /// body of battery messages, the version byte of the clock, and the long serial number. Returns
    /// `TooLong` if the trademark, the battery body or the long serial number is longer than
    /// `MAX_KEPT_BODY` bytes.
    pub fn new(
        serial: [SevenBit; 5],
        trademark: Body<'_>,
        main: SevenBit,
        sub: SevenBit,
        battery: Body<'_>,
        clock_version: u8,
        long_serial: Body<'_>,
    ) -> Result<Self, TooLong>
        ensures made { IfOk result (λ identity. identity ≡ record {
          serial = map number serial;
          trademark = body_bytes trademark.entry;
          main = number main;
          sub = number sub;
          battery = body_bytes battery.entry;
          clock_version = clock_version;
          long_serial = body_bytes long_serial.entry;
        }) }
        ensures refused { IsErr result
            ↔ (MAX_KEPT_BODY < length (body_bytes trademark.entry)
            ⊎ MAX_KEPT_BODY < length (body_bytes battery.entry)
            ⊎ MAX_KEPT_BODY < length (body_bytes long_serial.entry)) }
    {
        Ok(Identity {
            serial,
            trademark: kept_body(trademark)?,
            main,
            sub,
            battery: kept_body(battery)?,
            clock_version,
            long_serial: kept_body(long_serial)?,
        })
    }

    pub(crate) fn serial(&self) -> [SevenBit; 5]
        ensures { map number result ≡ self.now.serial }
    {
        self.serial
    }

    pub(crate) fn trademark(&self) -> Body<'_>
        ensures bytes { body_bytes result ≡ self.now.trademark }
        ensures short { length self.now.trademark ≤ MAX_KEPT_BODY }
    {
        Body::from_seven_bit(self.trademark.as_slice())
    }

    // No part of it makes a message longer than a dump.
    pub(crate) fn is_short(&self)
        ensures { IsShortIdentity self.now }
    {
        self.serial();
        self.trademark();
        self.battery();
        self.long_serial();
    }

    pub(crate) fn main(&self) -> SevenBit
        ensures { number result ≡ self.now.main }
    {
        self.main
    }

    pub(crate) fn sub(&self) -> SevenBit
        ensures { number result ≡ self.now.sub }
    {
        self.sub
    }

    pub(crate) fn battery(&self) -> Body<'_>
        ensures bytes { body_bytes result ≡ self.now.battery }
        ensures short { length self.now.battery ≤ MAX_KEPT_BODY }
    {
        Body::from_seven_bit(self.battery.as_slice())
    }

    pub(crate) fn clock_version(&self) -> u8
        ensures { result ≡ self.now.clock_version }
    {
        self.clock_version
    }

    pub(crate) fn long_serial(&self) -> Body<'_>
        ensures bytes { body_bytes result ≡ self.now.long_serial }
        ensures short { length self.now.long_serial ≤ MAX_KEPT_BODY }
    {
        Body::from_seven_bit(self.long_serial.as_slice())
    }
}
