use dgt_names::{Button, Signal};

/// Whether the middle button of the clock was pressed.
pub fn is_paused(ack: [u8; 4]) -> bool {
    Signal::of(ack) == Some(Signal::Pressed(Button::Run))
}
