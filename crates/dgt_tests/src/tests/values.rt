//! Calls of values, and the texts of their errors. `tests/program/rows` contains the tables of the
//! protocol.

use super::asserting::{assert_said, assert_same};
use dgt_values::{
    BadPlacement, Body, BodyError, Known, NoPiece, NoRoom, NoSegment, NoSquare, NotSevenBit, Piece,
    Position, SevenBit, Square, TooMuch, segment,
};
use std::test::Fail;

#[test]
fn bytes_squares_and_pieces(rt: HostRuntime) -> Result<(), Fail> {
    assert_same(&rt, SevenBit::try_from(127).map(|byte| byte.get()), Ok(127));
    let bytes = [0x7f, 0x00];
    assert_same(&rt, Body::new(&bytes)?.bytes(), bytes.as_slice());
    assert_same(&rt, Body::from_seven_bit(&bytes).bytes(), bytes.as_slice());
    let square = Square::parse("e4")?;
    assert_same(&rt, (square.index(), square.name()), (36, *b"e4"));
    assert_same(&rt, Square::from_index(36), Ok(square));
    let queen = Piece::from_code(0x0c)?;
    assert_same(&rt, queen, Piece::BlackQueen);
    assert_same(&rt, (queen.code(), queen.letter()), (0x0c, 'q'));
    assert_same(&rt, Piece::from_letter('q'), Ok(queen));
    assert_same(&rt, segment('0'), Ok(0x3f));
    Ok(())
}

#[test]
fn positions(rt: HostRuntime) -> Result<(), Fail> {
    let start = Position::start();
    let placement = start.placement();
    let text = "rnbqkbnr/pppppppp/8/8/8/8/PPPPPPPP/RNBQKBNR";
    assert_same(&rt, placement.as_str(), text);
    assert_same(&rt, Position::parse_placement(text), Ok(start));
    let codes = start.codes();
    assert_same(&rt, &codes[..9], [8, 9, 10, 12, 11, 10, 9, 8, 7].as_slice());
    assert_same(&rt, Position::from_codes(&codes), Ok(start));
    assert_same(&rt, start.pieces()[3], Piece::BlackQueen);
    let mut after = start;
    after.set(Square::parse("e2")?, Piece::Empty);
    after.set(Square::parse("e4")?, Piece::WhitePawn);
    assert_same(&rt, after.get(Square::parse("e4")?), Piece::WhitePawn);
    // the bits 52 and 36
    assert_same(&rt, start.differ(&after), 4503668346847232);
    assert_same(&rt, start.differ(&Position::empty()), 0xffff00000000ffff);
    Ok(())
}

#[test]
fn errors_have_texts(rt: HostRuntime) -> Result<(), Fail> {
    let alloc = rt.alloc();
    let length = BodyError::Length(TooMuch);
    assert_said(&rt, alloc, &length, "the body is longer than 16380 bytes")?;
    let byte = BodyError::Byte(NotSevenBit);
    assert_said(&rt, alloc, &byte, "a byte of the body has its top bit set")?;
    assert_said(&rt, alloc, &NotSevenBit, "the byte's top bit is set")?;
    assert_said(&rt, alloc, &Known, "this has a variant of its own")?;
    assert_said(&rt, alloc, &TooMuch, "too many bytes")?;
    assert_said(&rt, alloc, &NoPiece, "not a piece")?;
    assert_said(&rt, alloc, &NoSquare, "not a square")?;
    assert_said(&rt, alloc, &NoSegment, "not a digit, a space or a hyphen")?;
    let bad = BadPlacement { at: 17 };
    assert_said(&rt, alloc, &bad, "not a placement: wrong at offset 17")?;
    assert_said(
        &rt,
        alloc,
        &NoRoom { need: 67 },
        "the buffer needs 67 bytes",
    )
}
