//! The replies that a board owes.

use dgt_values::Kind;

/// A reply that a board owes. All but an acknowledgement report the state at the time of sending.
///
/// The default fills the empty places of a list.
#[derive(Clone, Copy, Debug, Default, PartialEq, Eq)]
pub enum Reply {
    /// The reply to a request of a kind.
    Of(Kind),
    #[default]
    Clock,
    /// The acknowledgement of a clock message: its id, and the clock's version if the id requests
    /// it, and otherwise 0.
    Ack { id: u8, version: u8 },
}
