//! Examples of programs that use the crates. crates/README.md and the front pages of the crates
//! contain these files, and `tests/repository/readme` finds each of their Rust blocks in one of
//! them.
//!
//! The program itself, `pictures`, prints the position after each change that the board on standard
//! input reports. The other examples are:
//!
//! - following a board over a source and a sink
//! - requesting the whole board again when that is due
//! - the squares on which two positions differ
//! - reading a board's bytes without a host
//! - testing a host with a board of this project
//! - one or two calls of each crate (`front_pages`)
#![tactic(auto)]

mod asking;
mod decoding;
mod differing;
mod following;
mod front_pages;
mod pictures;
#[cfg(test)]
mod tests;
mod trying;

use std::io;

fn main(rt: HostRuntime) -> io::Result<()> {
    pictures::show(rt.stdin(), rt.stdout())
}
