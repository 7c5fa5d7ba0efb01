use super::{
    finding, greeting, listing, monitoring, moving, pausing, playing, printing, putting,
    recognising, reporting, requesting, settling, storing, taking_turns, watching,
};
use crate::tests::{CAME, DUMP, GONE, board};
use dgt_board::{Identity, simulated_clock};
use dgt_chess::State;
use dgt_decode::{Decoder, Event};
use dgt_follow::Follower;
use dgt_game::Recogniser;
use dgt_lines::Device;
use dgt_link::{Outcome, World};
use dgt_message::Message;
use dgt_values::{Piece, Position, Square};
use std::process::Abort;
use std::test::*;

// Many calls of one function that asserts take less time to prove than many assertions.
fn expect(rt: &impl Abort, holds: bool) {
    assert!(rt; holds);
}

#[test]
fn values_and_messages(rt: HostRuntime) -> Result<(), Fail> {
    let (e2, e4) = (Square::parse("e2")?, Square::parse("e4")?);
    let position = moving::moved(Position::start(), e2, e4);
    let placed = Position::parse_placement("rnbqkbnr/pppppppp/8/8/4P3/8/PPPP1PPP/RNBQKBNR")?;
    expect(&rt, position == placed);
    expect(&rt, moving::moved(position, e4, e4) == placed);
    let mut state = State::start();
    expect(&rt, recognising::recognise(&mut state, &placed));
    expect(&rt, !recognising::recognise(&mut state, &placed));
    let mut recogniser = Recogniser::new();
    expect(&rt, !watching::begins(&mut recogniser, 0, placed));
    expect(&rt, watching::begins(&mut recogniser, 9, Position::start()));
    let mut out = [0; 5];
    expect(&rt, reporting::report(e4, Piece::WhitePawn, &mut out)? == 5);
    expect(&rt, out == CAME);
    expect(
        &rt,
        reporting::report(e4, Piece::WhitePawn, &mut out[..4]).is_err(),
    );
    Ok(())
}

#[test]
fn bytes_of_a_board_and_a_host(rt: HostRuntime) -> Result<(), Fail> {
    let mut decoder = Decoder::new();
    expect(&rt, !finding::ends_dump(&mut decoder, &GONE));
    expect(&rt, !finding::ends_dump(&mut decoder, &DUMP[..66]));
    expect(&rt, finding::ends_dump(&mut decoder, &DUMP[66..]));
    expect(&rt, requesting::request_dump(&[0x44, 0x42]));
    expect(&rt, !requesting::request_dump(&[0x44]));
    expect(&rt, storing::begins_with_a_lift(&[0x40, 0x34, 0x41, 0x24]));
    expect(&rt, !storing::begins_with_a_lift(&[0x41, 0x24]));
    expect(&rt, !storing::begins_with_a_lift(&[0x40]));
    expect(&rt, pausing::is_paused([0x10, 0x88, 0x12, 0x33]));
    expect(&rt, !pausing::is_paused([0x10, 0x88, 0x12, 0x34]));
    Ok(())
}

#[test]
fn words(rt: HostRuntime) -> Result<(), Fail> {
    let greeted = greeting::greeting(rt.alloc());
    let wanted: &[u8] = &[0x44, 0x42, 0x2b, 0x04, 0x03, 0x0b, 0x10, 0x00];
    expect(&rt, greeted.is_some_and(|bytes| bytes.as_slice() == wanted));
    Ok(())
}

#[test]
fn boards_and_followers(rt: HostRuntime) -> Result<(), Fail> {
    let (mut board, mut out) = (board(), [0; 262]);
    let e2 = Square::parse("e2")?;
    let count = putting::put(&mut board, e2, Piece::Empty, &mut out);
    expect(&rt, count == 0);
    let _ = board.take(&[0x44]);
    let count = putting::put(&mut board, e2, Piece::WhiteKing, &mut out);
    let field = [0x8e, 0x00, 0x05, 0x34, 0x05];
    expect(&rt, out.get(..count) == Some(field.as_slice()));
    let mut follower = Follower::new(10_000, 6);
    let count = taking_turns::turn(&mut follower, 0, &DUMP, &mut out);
    expect(&rt, count == 258);
    let count = taking_turns::turn(&mut follower, 1, &DUMP, &mut out);
    expect(&rt, count == 0);
    Ok(())
}

#[test]
fn worlds(rt: HostRuntime) -> Result<(), Fail> {
    let mut world = World::new(
        rt.alloc(),
        Position::start(),
        simulated_clock(),
        Identity::simulated(),
        67,
        257,
    )?;
    expect(
        &rt,
        playing::play(&mut world, b"change e4 P")? == Outcome::Done,
    );
    expect(&rt, playing::play(&mut world, b"change e9 P").is_err());
    expect(&rt, settling::follow(&mut world));
    Ok(())
}

#[test]
fn lines(rt: HostRuntime) -> Result<(), Fail> {
    let mut output = Vec::with_capacity(rt.alloc(), 128)?;
    let event = Event::Message(Message::Field {
        square: Square::parse("e4")?,
        piece: Piece::WhitePawn,
    });
    printing::print(&mut Device::new(&mut output), 5, &event)?;
    monitoring::show(&CAME, &mut output)?;
    listing::list(&[0x44, 0x42], &mut Device::new(&mut output))?;
    assert_eq!(rt;
        output.as_slice(),
        b"\
00000005 field e4 P
00000005 field e4 P
00000001 updateboard
00000002 dump
"
            .as_slice()
    );
    Ok(())
}
