//! Reads the bytes that a DGT board sends, in chunks of any length.
//!
//! ```rust
//! use dgt_decode::{Decoder, Event};
//! use dgt_message::Message;
//!
//! /// Whether a dump ends in this chunk.
//! pub fn ends_dump(decoder: &mut Decoder, chunk: &[u8]) -> bool {
//!     let mut found = false;
//!     for byte in chunk {
//!         if let Some(Event::Message(Message::Dump(_))) = decoder.feed(&[*byte]).event {
//!             found = true;
//!         }
//!     }
//!     found
//! }
//! ```
//!
//! [`Decoder::feed`] uses a longer chunk up to and including the first byte that completes an
//! event. It returns that event, if there is one, and in `used` how many bytes were used: feed the
//! rest, until all are used. An event borrows its body from the decoder until the next call.
//! `feed_all` does all of this with a whole chunk, and passes each event to a [`Listener`].
//!
//! However the bytes are cut into chunks, the events are the same (`laws::in_any_chunks`). After
//! any bytes, messages are read whole again (`laws::recovery`).
//!
//! [`plain`] computes all events of a list of bytes at once, directly from the grammar. It is slow,
//! and serves to test other readers.
//!
//! | Contracts cite | It says |
//! |---|---|
//! | `events` (`specs/Grammar.antt`) | the events of a list of bytes, each with its place |
//! | `unfinished_message` | what the list leaves unfinished; a decoder is seen as these bytes |
//! | `FirstEvent` (`specs/Feeding.antt`) | what one call does with a chunk |
//! | `chunk_events` | the events of a whole chunk |
//!
//! [`laws`] says how the events of chunks make up those of the whole list.
//!
//! Messages, codes and lengths are those of the DGT Electronic Board Protocol Description (the
//! header `dgtbrd`). This project chose how faulty bytes are reported and where reading continues
//! after them.
#![tactic(auto)]

mod decoder;
mod dumps;
mod event;
mod fields;
mod framer;
mod header;
mod lanes;
pub mod laws;
mod listening;
pub mod plain;

pub use decoder::{Decoder, Fed, Unfinished};
pub use event::{Event, Found};
pub use fields::field_update;
pub use framer::{Advanced, Framer, MAX_TOTAL};
pub use lanes::first_top;
pub use listening::Listener;
