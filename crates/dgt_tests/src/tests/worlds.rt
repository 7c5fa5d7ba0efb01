//! Worlds: refused memory, and conversations. `tests/program/rows` contains others, and
//! `tests/libraries/world_memory` refuses each allocation.

use super::asserting::{assert_same, assert_that};
use super::fixtures::*;
use dgt_board::Board;
use dgt_command::Command;
use dgt_host::Host;
use dgt_link::Act::{BoardSend, Change, ToBoard, ToHost};
use dgt_link::{Act, FaultyAct, Outcome, WorldFault};
use dgt_script::read_faulty_act;
use dgt_values::{Kind, Piece, Square};
use std::alloc::AllocGlobal;
use std::process::Abort;
use std::test::Fail;

// Asserts that no world is made with lines of these capacities.
fn assert_no_world(rt: &(impl Abort + AllocGlobal), up: usize, down: usize, fault: WorldFault) {
    let refused = world_of(rt.alloc(), up, down).err();
    assert!(rt; refused == Some(fault), "{up} and {down}");
}

#[test]
fn small_lines_and_refused_memory(rt: HostRuntime) {
    let (small, memory) = (WorldFault::LineTooSmall, WorldFault::OutOfMemory);
    let much = 1 << 62;
    assert_no_world(&rt, 66, 257, small);
    assert_no_world(&rt, 67, 256, small);
    assert_no_world(&rt, much, 256, small);
    assert_no_world(&rt, 66, much, small);
    assert_no_world(&rt, much, 257, memory);
    assert_no_world(&rt, 67, much, memory);
    assert_no_world(&rt, much, much, memory);
}

// Asserts that the board and the host's picture have this placement.
fn assert_shown(rt: &impl Abort, board: &Board, host: &Host, placement: &str) {
    assert_that(rt, is_at(board.position(), placement), "the board");
    assert_that(rt, is_pictured(host.picture(), placement), "the picture");
}

#[test]
fn a_game_begins(rt: HostRuntime) -> Result<(), Fail> {
    let mut world = world_of(rt.alloc(), 67, 257)?;
    let (e2, e4) = (Square::parse("e2")?, Square::parse("e4")?);
    let follow = [Act::Host(Command::UpdateBoard), Act::Host(Command::Dump)];
    assert_same(&rt, world.run(&follow), 2);
    assert_same(&rt, (world.up_len(), world.down_len()), (0, 2));
    assert_same(&rt, world.run(&[ToBoard(2), BoardSend]), 2);
    assert_same(&rt, (world.up_len(), world.down_len()), (67, 0));
    assert_same(&rt, world.step(BoardSend), Outcome::Nothing);
    assert_same(&rt, world.step(ToHost(67)), Outcome::Done);
    assert_that(&rt, world.quiet(), "quiet");
    // a piece that is put back is not reported
    let back = [Change(e2, Piece::Empty), Change(e2, Piece::WhitePawn)];
    assert_same(&rt, world.run(&back), 2);
    assert_same(&rt, world.step(BoardSend), Outcome::Nothing);
    // each field update is sent and heard
    let moved = [Change(e2, Piece::Empty), Change(e4, Piece::WhitePawn)];
    assert_same(&rt, world.run(&moved), 2);
    assert_same(&rt, world.settle(), 4);
    assert_shown(&rt, world.board(), world.host(), E4_PLAYED);
    assert_same(&rt, world.play(&[Change(e4, Piece::Empty)]), 1);
    assert_shown(&rt, world.board(), world.host(), NO_E2);
    Ok(())
}

// The board has received part of a long frame, then loses its power, then receives part of another
// frame. The host hears parts of a dump and of a field update.
const FAULTS: [&str; 7] = [
    "change e2 .",
    "garbledown 4260ff01",
    "toboard 4",
    "boardlost",
    "garbledown 402bf003",
    "garbleup 8600430000058e0005",
    "restart",
];

#[test]
fn a_restart_heals_all(rt: HostRuntime) -> Result<(), Fail> {
    let mut world = world_of(rt.alloc(), 200, 600)?.at_fault();
    for line in FAULTS {
        let mut store = [0; 257];
        let act = read_faulty_act(line.as_bytes(), &mut store)?;
        assert_same(&rt, world.step(act), Outcome::Done);
    }
    assert_same(&rt, (world.up_len(), world.down_len()), (9, 261));
    assert_same(&rt, world.host().awaited(), [Kind::Dump].as_slice());
    assert_that(&rt, !world.quiet(), "not quiet");
    world.settle();
    assert_that(&rt, world.quiet(), "quiet");
    assert_shown(&rt, world.board(), world.host(), NO_E2);
    let acts = [FaultyAct::GarbleUp(&[0x05]), FaultyAct::GiveUp];
    assert_same(&rt, world.run(&acts), 2);
    let full = world.step(FaultyAct::GarbleDown(&[0; 601]));
    assert_same(&rt, full, Outcome::NoRoom);
    Ok(())
}
