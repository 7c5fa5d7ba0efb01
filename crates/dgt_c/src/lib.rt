//! A host, a follower, a decoder, a decoder of commands, a board, the rules of chess and a
//! recogniser of games for C, and through C for other languages.
//!
//! The header `bindings/c/include/dgt.h` documents each call and the rules for callers.
//! `bindings/c/build` builds the archive and the shared library.
//!
//! ```c
//! #include <dgt.h>
//!
//! /* Hears a chunk. If the host has a picture, writes the placement of its pieces to text. */
//! bool hear(dgt_host *host, const uint8_t *chunk, size_t count, char text[DGT_PLACEMENT_ROOM])
//! {
//!     dgt_event event;
//!     for (size_t at = 0; at < count;)
//!         at += dgt_host_hear(host, chunk + at, count - at, &event, NULL, 0);
//!     return dgt_host_placement(host, text);
//! }
//! ```
//!
//! C holds a *handle*, an object of a stated size: a pointer, followed by the room for what it
//! points to. `DgtHost` is that pointer. Contracts see the value that the handle owns as its ghost
//! field `inside`, and `get` borrows it.
//!
//! Each call therefore states the clauses of the call that it wraps, for `inside`: `dgt_host_hear`
//! states those of `Host::hear`. Clauses that follow from another one or from a type are omitted:
//! `dgt_board_poll` doesn't repeat that the board was well-formed before. The clause `place` says
//! that the handle still points to its own room. `dgt_host_hear_many` and `dgt_decoder_feed_many`
//! wrap as many calls as a chunk takes, and state the list of their results (`specs/Chunks.antt`).
//! A call for chess states the clauses of dgt_chess for the state that its struct describes, and a
//! call of a recogniser those of dgt_game.
//!
//! | In Rust | In C |
//! |---|---|
//! | an event, which borrows its body | a struct, with the fields of its kind (`event_reported`) |
//! | its body | bytes in the caller's slice, as many as fit (`overwritten`) |
//! | a result | a status and a number |
//! | a clock, an identity, pieces | accepted if they are valid (`SaysClock`, `IsIdentity`) |
//! | a state or a move of chess | a struct, which each call checks (`SaysState`, `SaysMove`) |
//!
//! `dgt_host_make` and the other five such calls make a handle in C's memory, which is
//! uninitialised before. No other call has a `requires`. A caller in C has to ensure the facts that
//! the type of a Rust reference ensures: it points to an object, and no other reference points
//! there.
#![tactic(auto)]

mod ascii;
mod board_calls;
mod checking;
mod chess;
mod chess_states;
mod chess_texts;
mod chunks;
mod clocks;
mod command_encoding;
mod commands;
mod copying;
mod encoding;
mod events;
mod follower_calls;
mod game_events;
mod handles;
mod header;
mod hearing;
pub mod laws;
mod looking;
mod names;
mod placements;
mod places;
mod plain;
mod plain_board;
mod plain_follower;
mod recogniser_calls;
mod sender;
mod sending;
mod starting;
mod texts;
mod version;

pub use handles::{DgtBoard, DgtCommandDecoder, DgtDecoder, DgtFollower, DgtHost, DgtRecogniser};
pub use header::{
    DgtBattery, DgtBody, DgtChessFenRead, DgtChessMove, DgtChessState, DgtClock, DgtCommand,
    DgtEncoded, DgtEvent, DgtGameEvent, DgtIdentity, DgtParsed, DgtPolled, DgtSent, DgtSignal,
    DgtStored, DgtTaken, DgtTime, DgtTold,
};
pub use places::{
    BoardPlace, CommandDecoderPlace, DecoderPlace, FollowerPlace, HostPlace, RecogniserPlace,
};
