//! The events that a decoder reports.

use dgt_message::{BodyFault, Message};
use dgt_values::SevenBit;

/// What the decoder reports at a byte. A message borrows its body from the reader.
///
/// The DGT Electronic Board Protocol Description says that only the first byte of a message has its
/// top bit set, and that the second and third are its length. How faulty bytes are reported is this
/// project's own choice.
#[derive(Clone, Copy, Debug, PartialEq, Eq)]
pub enum Event<'a> {
    /// A whole message. The byte is its last one.
    Message(Message<'a>),
    /// The byte is the last of a message with this code. Its body has no meaning, for this reason.
    Refused { code: SevenBit, fault: BodyFault },
    /// The byte begins a message and cuts off the one before, of which `have` bytes were received:
    /// at least one, and fewer than [`MAX_TOTAL`](crate::MAX_TOTAL).
    Cut { have: usize },
    /// The byte is the third of a message, and the length is less than 3, the size of the header.
    /// The message ends here.
    BadLength,
    /// The byte, below 128, belongs to no message.
    Stray(u8),
}

/// What a framer found. If it is a whole message, the framer keeps its bytes.
#[derive(Clone, Copy, Debug, PartialEq, Eq)]
pub enum Found {
    /// A message is complete. Its body may have no meaning.
    Message,
    /// The next message cut off one of which `have` bytes were received.
    Cut { have: usize },
    /// The length of a message is less than the size of its header.
    BadLength,
    /// A byte, below 128, belongs to no message.
    Stray(u8),
}
