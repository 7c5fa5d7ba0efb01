//! What clocks signal, and the flags of their times.

ghost use Rattle.std.specs.Prelude.{◌≡◌, ◌≢◌, ◌↔◌, ℕ, IsTrue, MatchOption};
ghost use Rattle.dgt_names.specs.Names.{AreFlags, ArePressed, IsNoButton, IsSignal, button_byte};

use dgt_command::KnownId;

/// A button of a clock. On a DGT 3000 they are, from left to right, Back, Minus, Run, Plus and Ok.
#[derive(Clone, Copy, Debug, PartialEq, Eq)]
pub enum Button {
    Back = 0x31,
    Plus = 0x32,
    Run = 0x33,
    Minus = 0x34,
    Ok = 0x35,
}

/// The meaning of a clock's acknowledgement.
#[derive(Clone, Copy, Debug, PartialEq, Eq)]
pub enum Signal {
    /// It has executed the message with this id.
    Done(KnownId),
    /// Its version.
    Version { main: u8, sub: u8 },
    /// This button was pressed, whether or not a message asked for it.
    Pressed(Button),
    /// Ok was pressed together with Back, which switches a clock off.
    Off,
    /// It was switched on, and is ready.
    Ready,
}

/// The meaning of the flags of one player's time.
#[derive(Clone, Copy, Debug, PartialEq, Eq)]
pub struct Flags {
    /// D4 of the byte of the hours: the flag has fallen, and the clock stays at zero.
    pub blocked: bool,
    /// D5: the time is per move.
    pub per_move: bool,
    /// D6: the flag has fallen, and the clock shows that.
    pub fallen: bool,
}

impl Button {
    // The button with this byte, if there is one.
    fn with_byte(byte: u8) -> Option<Self>
        ensures { MatchOption result ((button : Button) → button_byte button ≢ byte)
            (λ button. button_byte button ≡ byte) }
    {
        Some(match byte {
            0x31 => Button::Back,
            0x32 => Button::Plus,
            0x33 => Button::Run,
            0x34 => Button::Minus,
            0x35 => Button::Ok,
            _ => return None,
        })
    }
}

impl Signal {
    /// The meaning of these four bytes of an acknowledgement. `None` if it is unknown, or if the
    /// first byte isn't 10, which means success.
    #[tactic(auto, using(crate::proofs::SaidOnce::none_said))]
    pub fn of(ack: [u8; 4]) -> Option<Self>
        ensures { MatchOption result ((signal : Signal) → ¬ (IsSignal ack signal))
            (λ signal. IsSignal ack signal) }
    {
        let [first, kind, third, fourth] = ack;
        if first != 0x10 {
            return None;
        }
        match kind {
            0x08 => Some(pressed(third, fourth).unwrap_or(Signal::Done(KnownId::Button))),
            0x88 => match pressed(third, fourth) {
                Some(signal) => Some(signal),
                None => None,
            },
            0x09 => Some(Signal::Version {
                main: third / 16,
                sub: third % 16,
            }),
            0x81 => Some(Signal::Ready),
            _ => Some(Signal::Done(KnownId::with_number(kind)?)),
        }
    }
}

impl Flags {
    /// The flags in the three bits of [`Reading::flags`](dgt_message::Reading::flags).
    pub fn of(carried: u8) -> Self
        ensures { AreFlags carried result }
    {
        Flags {
            blocked: carried & 1 != 0,
            per_move: carried & 2 != 0,
            fallen: carried & 4 != 0,
        }
    }
}

// The meaning of the bytes of buttons: those that are down, and the one that was pressed.
fn pressed(down: u8, byte: u8) -> Option<Signal>
    ensures { MatchOption result (IsNoButton byte) (λ signal. ArePressed signal down byte) }
{
    match Button::with_byte(byte) {
        Some(Button::Ok) => Some(pressed_ok(down)),
        Some(button) => Some(Signal::Pressed(button)),
        None => None,
    }
}

fn pressed_ok(down: u8) -> Signal
    ensures { ArePressed result down 0x35 }
{
    if down & 0x04 != 0 && down & 0x40 != 0 {
        Signal::Off
    } else {
        Signal::Pressed(Button::Ok)
    }
}
