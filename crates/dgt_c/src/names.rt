//! C calls for stored items, and for the meaning of bytes that messages carry unread.

ghost use Rattle.std.specs.Prelude.{◌≡◌, ◌≢◌, ◌≤◌, ◌↔◌, [], drop, false, length, IsTrue};
ghost use Rattle.dgt_names.specs.Names.{IsBattery, IsSignal, IsText};
ghost use Rattle.dgt_names.specs.declared.battery.BatteryState.{BatteryState as AnyState};
ghost use Rattle.dgt_names.specs.declared.clock.Signal.{Signal as AnySignal};
ghost use Rattle.dgt_stored.specs.Stored.{IsFirst, StoredContent, stored_content};
ghost use Rattle.dgt_c.specs.Names.{battery_reported, number_if_known, signal_reported, stored_reported};

use crate::clocks::time_for_c;
use crate::header::{
    BATTERY_UNKNOWN, DgtBattery, DgtSignal, DgtStored, NO_SIGNAL, NO_STORED, SIGNAL_DONE,
    SIGNAL_OFF, SIGNAL_PRESSED, SIGNAL_READY, SIGNAL_VERSION, STORED_MARK, STORED_PIECE,
    STORED_TIME, STORED_UNKNOWN,
};
use dgt_names::{BatteryState, Signal, is_text};
use dgt_stored::{Stored, first};

fn stored_for_c(stored: Stored) -> DgtStored
    ensures { result ≡ stored_reported (stored_content stored) }
{
    match stored {
        Stored::Piece { square, piece, bit } => DgtStored {
            kind: STORED_PIECE,
            square: square.index(),
            piece: piece.code(),
            bit: u8::from(bit),
            ..NO_STORED
        },
        Stored::Time(reading) => DgtStored {
            kind: STORED_TIME,
            time: time_for_c(reading),
            ..NO_STORED
        },
        Stored::Mark(mark) => DgtStored {
            kind: STORED_MARK,
            byte: mark as u8,
            ..NO_STORED
        },
        Stored::Unknown(byte) => DgtStored {
            kind: STORED_UNKNOWN,
            byte,
            ..NO_STORED
        },
    }
}

/// Writes the first item of a body to the struct, and returns how many bytes it takes.
///
/// Returns 0 if there is none; then the struct is unchanged.
#[unsafe(no_mangle)]
pub extern "C" fn dgt_stored_first(body: &[u8], stored: &mut DgtStored) -> usize
    ensures first { result ≢ 0 → (said : StoredContent)
        × IsFirst body.now said (drop result body.now) × (stored.new ≡ stored_reported said) }
    ensures within { result ≤ length body.now }
    ensures none { result ≡ 0 → (body.now ≡ []) × (stored.new ≡ stored.old) }
{
    match first(body) {
        Some(read) => {
            *stored = stored_for_c(read.0);
            read.1
        }
        None => 0,
    }
}

fn signal_for_c(signal: Signal) -> DgtSignal
    ensures { result ≡ signal_reported signal }
{
    match signal {
        Signal::Done(id) => DgtSignal {
            kind: SIGNAL_DONE,
            id: id.number(),
            ..NO_SIGNAL
        },
        Signal::Version { main, sub } => DgtSignal {
            kind: SIGNAL_VERSION,
            main_number: main,
            sub_number: sub,
            ..NO_SIGNAL
        },
        Signal::Pressed(button) => DgtSignal {
            kind: SIGNAL_PRESSED,
            button: button as u8,
            ..NO_SIGNAL
        },
        Signal::Off => DgtSignal {
            kind: SIGNAL_OFF,
            ..NO_SIGNAL
        },
        Signal::Ready => DgtSignal {
            kind: SIGNAL_READY,
            ..NO_SIGNAL
        },
    }
}

/// Writes the meaning of these four bytes of an acknowledgement to the struct.
///
/// Returns false if it is unknown; then the struct is unchanged.
#[unsafe(no_mangle)]
pub extern "C" fn dgt_signal_of(ack: &[u8; 4], signal: &mut DgtSignal) -> bool
    ensures known { IsTrue result →
        (said : AnySignal) × IsSignal ack.now said × (signal.new ≡ signal_reported said) }
    ensures unknown { result ≡ false →
        ((said : AnySignal) → ¬ (IsSignal ack.now said)) × (signal.new ≡ signal.old) }
{
    match Signal::of(*ack) {
        Some(said) => {
            *signal = signal_for_c(said);
            true
        }
        None => false,
    }
}

fn number_for_c(known: Option<u8>) -> u8
    ensures { result ≡ number_if_known known }
{
    known.unwrap_or(BATTERY_UNKNOWN)
}

fn battery_for_c(state: &BatteryState) -> DgtBattery
    ensures { result ≡ battery_reported state.now }
{
    DgtBattery {
        percent: number_for_c(state.percent),
        hours_left: number_for_c(state.hours_left),
        minutes_left: number_for_c(state.minutes_left),
        hours_on: state.hours_on,
        minutes_on: state.minutes_on,
        days_resting: state.days_resting,
        hours_resting: state.hours_resting,
        minutes_resting: state.minutes_resting,
        charging: u8::from(state.charging),
        discharging: u8::from(state.discharging),
        reserved: [0; 6],
    }
}

/// Writes the meaning of the body of a battery message to the struct.
///
/// Returns false if the body isn't nine bytes long; then the struct is unchanged.
#[unsafe(no_mangle)]
pub extern "C" fn dgt_battery_of(body: &[u8], battery: &mut DgtBattery) -> bool
    ensures known { IsTrue result →
        (state : AnyState) × IsBattery body.now state × (battery.new ≡ battery_reported state) }
    ensures unknown { result ≡ false → (length body.now ≢ 9) × (battery.new ≡ battery.old) }
{
    match BatteryState::of(body) {
        Some(state) => {
            *battery = battery_for_c(&state);
            true
        }
        None => false,
    }
}

/// Whether there is at least one byte, and each is a printable ASCII character.
#[unsafe(no_mangle)]
pub extern "C" fn dgt_is_text(bytes: &[u8]) -> bool
    ensures { IsTrue result ↔ IsText bytes.now }
{
    is_text(bytes)
}
