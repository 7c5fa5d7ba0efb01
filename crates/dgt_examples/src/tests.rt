use crate::{asking, decoding, differing, following, pictures, trying};
use dgt_board::{Board, Identity, simulated_clock};
use dgt_follow::{Follower, UpdateMode};
use dgt_lines::{Bytes, Device};
use dgt_values::{Piece, Position, Square};
use std::alloc::Global;
use std::io::Cursor;
use std::process::Abort;
use std::test::*;

/// A dump of the pieces before the first move.
pub const DUMP: [u8; 67] = [
    0x86, 0x00, 0x43, //
    0x08, 0x09, 0x0a, 0x0c, 0x0b, 0x0a, 0x09, 0x08, //
    0x07, 0x07, 0x07, 0x07, 0x07, 0x07, 0x07, 0x07, //
    0x00, 0x00, 0x00, 0x00, 0x00, 0x00, 0x00, 0x00, //
    0x00, 0x00, 0x00, 0x00, 0x00, 0x00, 0x00, 0x00, //
    0x00, 0x00, 0x00, 0x00, 0x00, 0x00, 0x00, 0x00, //
    0x00, 0x00, 0x00, 0x00, 0x00, 0x00, 0x00, 0x00, //
    0x01, 0x01, 0x01, 0x01, 0x01, 0x01, 0x01, 0x01, //
    0x02, 0x03, 0x04, 0x06, 0x05, 0x04, 0x03, 0x02,
];

/// The pawn is lifted from e2.
pub const GONE: [u8; 5] = [0x8e, 0x00, 0x05, 0x34, 0x00];

/// It is put on e4.
pub const CAME: [u8; 5] = [0x8e, 0x00, 0x05, 0x24, 0x01];

const START: &str = "rnbqkbnr/pppppppp/8/8/8/8/PPPPPPPP/RNBQKBNR";

pub fn board() -> Board {
    Board::new(Position::start(), simulated_clock(), Identity::simulated())
}

// The program's output for these bytes.
fn shows(rt: &impl Abort, alloc: Global, bytes: &[u8], shown: &str) -> Result<(), Fail> {
    let mut output = Vec::with_capacity(alloc, 512)?;
    pictures::show(Cursor::new(bytes), &mut output)?;
    assert_eq!(rt; output.as_slice(), shown.as_bytes());
    Ok(())
}

#[test]
fn the_pictures_of_a_move(rt: HostRuntime) -> Result<(), Fail> {
    let mut bytes = Vec::with_capacity(rt.alloc(), 100)?;
    bytes.extend_from_slice(&GONE)?;
    bytes.extend_from_slice(&DUMP)?;
    bytes.extend_from_slice(&GONE)?;
    bytes.extend_from_slice(&GONE)?;
    bytes.extend_from_slice(&CAME)?;
    let shown = "\
rnbqkbnr/pppppppp/8/8/8/8/PPPPPPPP/RNBQKBNR
rnbqkbnr/pppppppp/8/8/8/8/PPPP1PPP/RNBQKBNR
rnbqkbnr/pppppppp/8/8/4P3/8/PPPP1PPP/RNBQKBNR
";
    shows(&rt, rt.alloc(), &bytes, shown)
}

#[test]
fn no_picture_before_a_dump(rt: HostRuntime) -> Result<(), Fail> {
    shows(&rt, rt.alloc(), &GONE, "")
}

#[test]
fn follows(rt: HostRuntime) -> Result<(), Fail> {
    let mut sent = Vec::with_capacity(rt.alloc(), 257)?;
    let mut board = Bytes::new(&DUMP);
    let host = following::follow(&mut board, &mut Device::new(&mut sent))?;
    let mut asked = [0; 257];
    asked[255] = 0x44;
    asked[256] = 0x42;
    assert_eq!(rt; sent.as_slice(), asked.as_slice());
    assert!(rt; host.picture() == Some(&Position::start()));
    assert!(rt; host.awaited().is_empty());
    Ok(())
}

#[test]
fn asks_when_due(rt: HostRuntime) -> Result<(), Fail> {
    // what follows the 255 zeros: the rest of a new start, and a heartbeat
    let modes: [(UpdateMode, &'static [u8]); 3] = [
        (UpdateMode::UpdateBoard, &[0x44, 0x42, 0x44, 0x44, 0x42]),
        (
            UpdateMode::Update,
            &[0x44, 0x42, 0x43, 0x41, 0x43, 0x42, 0x41],
        ),
        (
            UpdateMode::UpdateNice,
            &[0x44, 0x42, 0x4b, 0x41, 0x4b, 0x42, 0x41],
        ),
    ];
    for (mode, asked) in modes {
        let mut sent = Vec::with_capacity(rt.alloc(), 262)?;
        let mut follower = Follower::new(10_000, 6);
        follower.set_mode(mode);
        asking::keep_right(&mut follower, 0, &[], &mut Device::new(&mut sent))?;
        asking::keep_right(&mut follower, 80, &DUMP, &mut Device::new(&mut sent))?;
        assert!(rt; follower.picture() == Some(&Position::start()));
        asking::keep_right(&mut follower, 10_000, &[], &mut Device::new(&mut sent))?;
        assert!(rt; sent.iter().take(255).all(|byte| *byte == 0));
        assert!(rt; sent.as_slice().get(255..) == Some(asked));
    }
    Ok(())
}

#[test]
fn reports_the_squares_of_a_move(rt: HostRuntime) -> Result<(), Fail> {
    let before = Position::parse_placement(START)?;
    let after = Position::parse_placement("rnbqkbnr/pppppppp/8/8/4P3/8/PPPP1PPP/RNBQKBNR")?;
    let mut output = Vec::with_capacity(rt.alloc(), 64)?;
    differing::write_changes(&before, &after, &mut output)?;
    assert_eq!(rt; output.as_slice(), b"e4 P\ne2 .\n".as_slice());
    Ok(())
}

#[test]
fn decodes_in_chunks(rt: HostRuntime) -> Result<(), Fail> {
    let last = decoding::last_field(&[&GONE, &CAME[..2], &[], &CAME[2..]]);
    assert!(rt; last == Some((Square::parse("e4")?, Piece::WhitePawn)));
    assert!(rt; decoding::last_field(&[&DUMP]).is_none());
    Ok(())
}

#[test]
fn tries_a_host(rt: HostRuntime) -> Result<(), Fail> {
    let mut board = board();
    let host = trying::try_host(&mut board);
    assert!(rt; host.picture() == Some(&Position::start()));
    assert!(rt; host.awaited().is_empty());
    Ok(())
}
