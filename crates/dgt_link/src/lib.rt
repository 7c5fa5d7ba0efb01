//! A DGT board, its host and the two lines of bytes between them, with theorems about the picture
//! that the host keeps.
//!
//! A [`World`] owns the board, the host and both lines. [`World::step`] does one [`Act`] and
//! returns its [`Outcome`]:
//!
//! - a piece is put on a square, or the clock is read;
//! - the host or the board sends;
//! - bytes of a line are delivered, cut anywhere;
//! - the line breaks, and both sides notice, or only the host, which then starts over.
//!
//! [`World::run`] does many acts. Its theorem: once the world is [`World::quiet`], the host's
//! picture is the board's position, whatever happened before, on two conditions. A dump was
//! requested since the last break that both sides noticed, and the last command that sets a mode
//! asks for updates. A host that starts over requests both. [`World::settle`] delivers bytes, and
//! lets the board send, until the world is quiet. It always becomes quiet.
//!
//! ```rust
//! use dgt_command::Command;
//! use dgt_link::{Act, World};
//!
//! /// The host requests updates and a dump, and all is delivered. Returns whether the host's
//! /// picture is the board's position then.
//! pub fn follow(world: &mut World) -> bool {
//!     world.run(&[Act::Host(Command::UpdateBoard), Act::Host(Command::Dump)]);
//!     world.settle();
//!     world.host().picture() == Some(world.board().position())
//! }
//! ```
//!
//! The lines of a `World` lose bytes only by breaks. [`World::at_fault`] turns it into a
//! [`FaultyWorld`]. There any bytes under way may be replaced by any others, and the board may lose
//! its power. The picture heals: once the host has started over after the last fault, the same
//! theorem holds, whatever failed before. See [`healing`].
//!
//! Messages and commands are those of the DGT Electronic Board Protocol Description. The acts and
//! the faults are this project's own choice. Only [`World::new`] allocates memory.
//!
//! [`laws`] states the facts about the machine, in which whole messages and commands are under way,
//! and about its relation to bytes. docs/ARCHITECTURE.md outlines the proof.
#![tactic(auto)]

mod acts;
mod faulty;
pub mod healing;
pub mod laws;
mod line;
mod moving;
mod world;

pub use acts::{Act, Outcome};
pub use faulty::{FaultyAct, FaultyWorld};
pub use world::{MIN_DOWN, MIN_UP, World, WorldFault};
