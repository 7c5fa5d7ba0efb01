//! Names for bytes that a board's messages carry unread.
//!
//! The published protocol leaves these bytes open. [`Signal`], [`Flags`], [`BatteryState`] and
//! [`is_text`] read them as other programs do: the buttons of a clock, flags that have fallen, the
//! charge of a battery, and texts. This was not tested with a clock or a board.
//!
//! ```rust
//! use dgt_names::{Button, Signal};
//!
//! /// Whether the middle button of the clock was pressed.
//! pub fn is_paused(ack: [u8; 4]) -> bool {
//!     Signal::of(ack) == Some(Signal::Pressed(Button::Run))
//! }
//! ```
#![tactic(auto)]

mod battery;
mod clock;
pub mod laws;
mod texts;

pub use battery::BatteryState;
pub use clock::{Button, Flags, Signal};
pub use texts::is_text;
