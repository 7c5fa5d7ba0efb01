//! Forsyth-Edwards Notation: rows worked out by hand.

use super::asserting::{assert_row, assert_said, assert_same};
use dgt_chess::{BadFen, FenField, Impossible, Move, State};
use dgt_values::Square;
use std::test::Fail;

const START: &str = "rnbqkbnr/pppppppp/8/8/8/8/PPPPPPPP/RNBQKBNR w KQkq - 0 1";

// These are written as they are read.
const KEPT: [&str; 6] = [
    START,
    // known as Kiwipete
    "r3k2r/p1ppqpb1/bn2pnp1/3PN3/1p2P3/2N2Q1p/PPPBBPPP/R3K2R w KQkq - 0 1",
    // a pawn can capture on d6
    "rnbqkbnr/ppp1pppp/8/3pP3/8/8/PPPP1PPP/RNBQKBNR w KQkq d6 0 3",
    "8/8/8/8/8/8/8/K1k5 b - - 65535 65535",
    "r3k2r/8/8/8/8/8/8/R3K2R b Qk - 12 34",
    "4k3/8/8/8/3Pp3/8/8/4K3 b - d3 0 40",
];

// These are written in another way.
const CHANGED: [(&str, &str); 4] = [
    // no pawn is beside the one on e4
    (
        "rnbqkbnr/pppppppp/8/8/4P3/8/PPPP1PPP/RNBQKBNR b KQkq e3 0 1",
        "rnbqkbnr/pppppppp/8/8/4P3/8/PPPP1PPP/RNBQKBNR b KQkq - 0 1",
    ),
    // the pawn on e4 shields its king from the rook on h4 only together with the one on d4
    (
        "8/8/8/8/k2Pp2R/8/8/4K3 b - d3 0 40",
        "8/8/8/8/k2Pp2R/8/8/4K3 b - - 0 40",
    ),
    // the pawn on e4 may not leave its file
    (
        "4k3/8/8/8/3Pp3/8/8/K3R3 b - d3 0 40",
        "4k3/8/8/8/3Pp3/8/8/K3R3 b - - 0 40",
    ),
    (
        "4k3/44/8/8/8/8/8/4K3 w - - 0 1",
        "4k3/8/8/8/8/8/8/4K3 w - - 0 1",
    ),
];

// The first wrong byte, and its field.
const WRONG: [(&str, FenField, usize); 24] = [
    ("", FenField::Placement, 0),
    ("4k3/9", FenField::Placement, 4),
    ("4k3/8/8/8/8/8/8/4K2 w - - 0 1", FenField::Placement, 19),
    ("4k3/8/8/8/8/8/8/4K3", FenField::Placement, 19),
    ("4k3/8/8/8/8/8/8/4K3/8 w - - 0 1", FenField::Placement, 19),
    ("4k3/8/8/8/8/8/8/4K3 ", FenField::Turn, 20),
    ("4k3/8/8/8/8/8/8/4K3  w - - 0 1", FenField::Turn, 20),
    ("4k3/8/8/8/8/8/8/4K3 W - - 0 1", FenField::Turn, 20),
    ("4k3/8/8/8/8/8/8/4K3 wb - - 0 1", FenField::Turn, 21),
    ("4k3/8/8/8/8/8/8/4K3 w  - 0 1", FenField::Rights, 22),
    ("4k3/8/8/8/8/8/8/4K3 w QK - 0 1", FenField::Rights, 23),
    ("4k3/8/8/8/8/8/8/4K3 w -K - 0 1", FenField::Rights, 23),
    ("4k3/8/8/8/8/8/8/4K3 w KQkqq - 0 1", FenField::Rights, 26),
    ("4k3/8/8/8/8/8/8/4K3 w -", FenField::Rights, 23),
    ("4k3/8/8/8/8/8/8/4K3 w - i3 0 1", FenField::Passed, 24),
    ("4k3/8/8/8/8/8/8/4K3 w - e9 0 1", FenField::Passed, 25),
    ("4k3/8/8/8/8/8/8/4K3 w - e 0 1", FenField::Passed, 25),
    ("4k3/8/8/8/8/8/8/4K3 w - e33 0 1", FenField::Passed, 26),
    ("4k3/8/8/8/8/8/8/4K3 w - - 00 1", FenField::HalfMoves, 27),
    ("4k3/8/8/8/8/8/8/4K3 w - - -1 1", FenField::HalfMoves, 26),
    ("4k3/8/8/8/8/8/8/4K3 w - - 65536 1", FenField::HalfMoves, 30),
    ("4k3/8/8/8/8/8/8/4K3 w - - 0 ", FenField::Number, 28),
    ("4k3/8/8/8/8/8/8/4K3 w - - 0 1 ", FenField::Number, 29),
    ("4k3/8/8/8/8/8/8/4K3 w - - 0 1\n", FenField::Number, 29),
];

const IMPOSSIBLE: [(&str, Impossible); 7] = [
    ("8/8/8/8/8/8/8/4K3 w - - 0 1", Impossible::Kings),
    ("4k3/8/8/8/X7/8/8/4K3 w - - 0 1", Impossible::Extra),
    ("4k2p/8/8/8/8/8/8/4K3 w - - 0 1", Impossible::Pawn),
    ("4k3/8/8/8/8/8/8/4K3 w K - 0 1", Impossible::Rights),
    ("4k3/8/8/8/8/8/4R3/4K3 w - - 0 1", Impossible::Check),
    ("4k3/8/8/8/8/8/8/4K3 w - e6 0 1", Impossible::Passed),
    ("4k3/8/8/8/8/8/8/4K3 w - - 0 0", Impossible::Number),
];

#[test]
fn texts_of_states(rt: HostRuntime) -> Result<(), Fail> {
    assert_same(&rt, State::parse_fen(START), Ok(State::start()));
    assert_same(&rt, START.parse::<State>(), Ok(State::start()));
    for (row, text) in KEPT.iter().enumerate() {
        assert_row(&rt, row, State::parse_fen(text)?.fen().as_str(), *text);
    }
    for (row, (text, written)) in CHANGED.iter().enumerate() {
        assert_row(&rt, row, State::parse_fen(text)?.fen().as_str(), *written);
    }
    Ok(())
}

#[test]
fn text_after_a_move(rt: HostRuntime) -> Result<(), Fail> {
    let after = State::start().play(Move {
        from: Square::parse("e2")?,
        to: Square::parse("e4")?,
        promotion: None,
    });
    let text = "rnbqkbnr/pppppppp/8/8/4P3/8/PPPP1PPP/RNBQKBNR b KQkq - 0 1";
    assert_same(&rt, after?.fen().as_str(), text);
    Ok(())
}

#[test]
fn refused_texts(rt: HostRuntime) -> Result<(), Fail> {
    for (row, (text, field, at)) in WRONG.iter().enumerate() {
        let bad = BadFen::Text {
            field: *field,
            at: *at,
        };
        assert_row(&rt, row, State::parse_fen(text), Err(bad));
    }
    for (row, (text, why)) in IMPOSSIBLE.iter().enumerate() {
        let bad = BadFen::Impossible(*why);
        assert_row(&rt, row, State::parse_fen(text), Err(bad));
    }
    let alloc = rt.alloc();
    let bad = BadFen::Text {
        field: FenField::Turn,
        at: 20,
    };
    assert_said(&rt, alloc, &bad, "not FEN: wrong at offset 20")?;
    let bad = BadFen::Impossible(Impossible::Kings);
    assert_said(&rt, alloc, &bad, "no game reaches this state")
}
