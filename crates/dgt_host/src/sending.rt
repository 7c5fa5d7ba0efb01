//! Why a host can't send.

use thiserror::Error;

/// Why nothing was sent. The host and the slice stay as they were.
#[derive(Clone, Copy, Debug, PartialEq, Eq, Error)]
pub enum SendFault {
    /// The command requests a reply of a kind, and 16 replies are awaited already. This is checked
    /// before the room.
    #[error("16 replies are awaited already")]
    TooMany,
    /// The slice is shorter than the bytes to be written, `need` of them.
    #[error("the buffer needs {need} bytes")]
    NoRoom { need: usize },
}
