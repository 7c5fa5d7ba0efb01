//! The engines, each with its parameters.

use crate::tests::fixtures::{new_board, world_of};
use dgt_board::Board;
use dgt_link::World;
use dgt_text::{
    RunFault, Shown, Sink, Source, commands, log, monitor, picture, serve, simulate,
    simulate_faults,
};
use std::alloc::Global;
use std::test::Fail;

/// The result of a run.
pub type Answer = Result<(), RunFault>;

/// An engine.
#[derive(Clone, Copy)]
pub enum Engine<'a> {
    Monitor,
    /// `picture` with or without doubts, and with or without the clock.
    Picture(bool, bool),
    Log,
    Commands,
    /// `serve` for a new board that has taken these bytes.
    Serve(&'a [u8]),
    /// `simulate` in a new world.
    Simulate,
    /// `simulate_faults` in a new world.
    SimulateFaults,
}

impl<'a> Engine<'a> {
    pub fn run<R: Source, W: Sink>(
        self,
        alloc: Global,
        source: &mut R,
        sink: &mut W,
        limit: u32,
    ) -> Result<Answer, Fail> {
        Ok(match self {
            Engine::Monitor => monitor(source, sink, limit),
            Engine::Picture(doubts, clock) => {
                picture(Shown { doubts, clock }, source, sink, limit)
            }
            Engine::Log => log(source, sink, limit),
            Engine::Commands => commands(source, sink, limit),
            Engine::Serve(asked) => serve(&mut asked_board(asked)?, source, sink, limit),
            Engine::Simulate => simulate(&mut new_world(alloc)?, source, sink, limit),
            Engine::SimulateFaults => {
                simulate_faults(&mut new_world(alloc)?.at_fault(), source, sink, limit)
            }
        })
    }
}

// A new board that has taken these bytes, and has sent nothing.
fn asked_board(asked: &[u8]) -> Result<Board, Fail> {
    let mut board = new_board();
    for byte in asked {
        board.take(&[*byte])?;
    }
    Ok(board)
}

fn new_world(alloc: Global) -> Result<World, Fail> {
    Ok(world_of(alloc, 67, 257)?)
}
