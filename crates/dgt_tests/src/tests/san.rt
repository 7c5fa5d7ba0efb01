//! Standard Algebraic Notation: rows worked out by hand.

use super::asserting::{assert_row, assert_said, assert_same};
use dgt_chess::{BadSan, Colour, Man, Move, NotLegal, Rights, State};
use dgt_values::{Position, Square};
use std::test::Fail;

fn state_of(placement: &str, turn: Colour, castles: bool, passed: &str) -> Result<State, Fail> {
    let rights = Rights {
        white_short: castles,
        white_long: castles,
        black_short: castles,
        black_long: castles,
    };
    let position = Position::parse_placement(placement)?;
    Ok(State::new(position, turn, rights, Square::parse(passed).ok(), 0, 1)?)
}

fn move_of(from: &str, to: &str, promotion: Option<Man>) -> Result<Move, Fail> {
    Ok(Move {
        from: Square::parse(from)?,
        to: Square::parse(to)?,
        promotion,
    })
}

const CORNERS: &str = "r3k2r/8/8/8/8/8/8/R3K2R";

const KNIGHTS: &str = "4k3/8/8/8/8/8/8/1N2KN2";

const ROOKS: &str = "4k3/8/8/R7/8/p7/8/R3K3";

const QUEENS: &str = "8/k7/8/8/4Q2Q/8/8/K6Q";

const LAST: &str = "6k1/4P3/6K1/8/8/8/8/8";

const FOOL: &str = "rnbqkbnr/pppp1ppp/8/4p3/6P1/5P2/PPPPP2P/RNBQKBNR";

// The placement, the ends of a move and its text.
const WHITE: [[&str; 4]; 15] = [
    [CORNERS, "e1", "g1", "O-O"],
    [CORNERS, "e1", "c1", "O-O-O"],
    [CORNERS, "a1", "a8", "Rxa8+"],
    [KNIGHTS, "b1", "d2", "Nbd2"],
    [KNIGHTS, "f1", "d2", "Nfd2"],
    [KNIGHTS, "b1", "c3", "Nc3"],
    [ROOKS, "a1", "a3", "R1xa3"],
    [ROOKS, "a5", "a3", "R5xa3"],
    [QUEENS, "h4", "e1", "Qh4e1"],
    [QUEENS, "e4", "e1", "Qee1"],
    [QUEENS, "h1", "e1", "Q1e1"],
    // The other knight is pinned.
    ["4r1k1/8/8/8/8/2N1N3/8/4K3", "c3", "d5", "Nd5"],
    ["4k3/8/8/3p4/4P3/8/8/4K3", "e4", "d5", "exd5"],
    ["4k3/8/8/3p4/4P3/8/8/4K3", "e4", "e5", "e5"],
    ["4k3/8/8/8/8/8/4P3/4K3", "e2", "e4", "e4"],
];

// Writes the move and reads its text.
fn is_text(state: &State, one: Move, text: &str) -> bool {
    let Ok(written) = state.san(one) else {
        return false;
    };
    written.as_str() == text
        && state.parse_san(text) == Ok(one)
        && state.parse_san_leniently(text) == Ok(one)
}

#[test]
fn texts(rt: HostRuntime) -> Result<(), Fail> {
    for (row, [placement, from, to, text]) in WHITE.iter().enumerate() {
        let state = state_of(placement, Colour::White, *placement == CORNERS, "")?;
        assert_row(
            &rt,
            row,
            is_text(&state, move_of(from, to, None)?, text),
            true,
        );
    }
    let corners = state_of(CORNERS, Colour::Black, true, "")?;
    assert_same(
        &rt,
        is_text(&corners, move_of("e8", "c8", None)?, "O-O-O"),
        true,
    );
    let fool = state_of(FOOL, Colour::Black, true, "")?;
    assert_same(
        &rt,
        is_text(&fool, move_of("d8", "h4", None)?, "Qh4#"),
        true,
    );
    let passed = state_of("4k3/8/8/3pP3/8/8/8/4K3", Colour::White, false, "d6")?;
    assert_same(
        &rt,
        is_text(&passed, move_of("e5", "d6", None)?, "exd6"),
        true,
    );
    Ok(())
}

#[test]
fn promotions(rt: HostRuntime) -> Result<(), Fail> {
    let last = state_of(LAST, Colour::White, false, "")?;
    let queen = move_of("e7", "e8", Some(Man::Queen))?;
    assert_same(&rt, is_text(&last, queen, "e8=Q#"), true);
    let knight = move_of("e7", "e8", Some(Man::Knight))?;
    assert_same(&rt, is_text(&last, knight, "e8=N"), true);
    let takes = state_of("3r3k/4P3/8/8/8/8/8/4K3", Colour::White, false, "")?;
    let rook = move_of("e7", "d8", Some(Man::Rook))?;
    assert_same(&rt, is_text(&takes, rook, "exd8=R+"), true);
    assert_same(
        &rt,
        last.san(move_of("e7", "e8", None)?).err(),
        Some(NotLegal),
    );
    assert_same(&rt, last.parse_san("e8Q#"), Err(BadSan::NoMove));
    assert_same(&rt, last.parse_san_leniently("e8Q"), Ok(queen));
    assert_same(&rt, last.parse_san_leniently("e8=K"), Err(BadSan::NotSan));
    Ok(())
}

#[test]
fn lenient_texts(rt: HostRuntime) -> Result<(), Fail> {
    let corners = state_of(CORNERS, Colour::White, true, "")?;
    assert_same(&rt, corners.parse_san("0-0"), Err(BadSan::NoMove));
    assert_same(
        &rt,
        corners.parse_san_leniently("0-0"),
        Ok(move_of("e1", "g1", None)?),
    );
    assert_same(
        &rt,
        corners.parse_san_leniently("Rxa8"),
        Ok(move_of("a1", "a8", None)?),
    );
    assert_same(
        &rt,
        corners.parse_san_leniently("O-O-O-O"),
        Err(BadSan::NotSan),
    );
    let start = State::start();
    let pawn = move_of("e2", "e4", None)?;
    for text in ["e4", "e2e4", "ee4", "e4+", "e4#"] {
        assert_same(&rt, start.parse_san_leniently(text), Ok(pawn));
        assert_same(&rt, start.parse_san(text).is_ok(), text == "e4");
    }
    for text in ["e5", "Ke2", "exd3", "ed3", "e4=Q", "O-O", "Nc6"] {
        assert_same(&rt, start.parse_san(text), Err(BadSan::NoMove));
        assert_same(&rt, start.parse_san_leniently(text), Err(BadSan::NoMove));
    }
    for text in [
        "", "e", "e9", "i4", "Nf3 ", "nf3", "e4++", "e2-e4", "O-0", "Ä",
    ] {
        assert_same(&rt, start.parse_san(text), Err(BadSan::NotSan));
        assert_same(&rt, start.parse_san_leniently(text), Err(BadSan::NotSan));
    }
    let knights = state_of(KNIGHTS, Colour::White, false, "")?;
    assert_same(&rt, knights.parse_san("Nd2"), Err(BadSan::NoMove));
    assert_same(
        &rt,
        knights.parse_san_leniently("Nd2"),
        Err(BadSan::Ambiguous),
    );
    assert_same(
        &rt,
        knights.parse_san_leniently("Nb1d2"),
        Ok(move_of("b1", "d2", None)?),
    );
    let alloc = rt.alloc();
    assert_said(
        &rt,
        alloc,
        &BadSan::NotSan,
        "not a move in Standard Algebraic Notation",
    )?;
    assert_said(&rt, alloc, &BadSan::NoMove, "no legal move has this text")?;
    assert_said(
        &rt,
        alloc,
        &BadSan::Ambiguous,
        "several legal moves fit the text",
    )?;
    Ok(())
}
