//! The rules of chess: how many lines of legal moves begin at positions for which others have
//! published the numbers (chessprogramming.org, "Perft Results"), and rows worked out by hand.

use super::asserting::{assert_said, assert_same};
use dgt_chess::{Colour, Impossible, Man, Move, NotLegal, Rights, State};
use dgt_values::{Position, Square};
use std::test::Fail;

const PROMOTIONS: [Option<Man>; 5] = [
    None,
    Some(Man::Queen),
    Some(Man::Rook),
    Some(Man::Bishop),
    Some(Man::Knight),
];

const ALL: Rights = Rights {
    white_short: true,
    white_long: true,
    black_short: true,
    black_long: true,
};

const NONE: Rights = Rights {
    white_short: false,
    white_long: false,
    black_short: false,
    black_long: false,
};

// How many lines of this length there are. Down to `check` moves from the end, each move has to be
// recognised by the picture after it.
fn count_lines(state: &State, length: u8, check: u8) -> u64 {
    if length == 0 {
        return 1;
    }
    let mut count = 0u64;
    for a in 0..64u8 {
        let from = Square::from_small(a);
        let goals = state.goals(from);
        for b in 0..64u8 {
            if goals >> b & 1 == 0 {
                continue;
            }
            for promotion in PROMOTIONS {
                let one = Move {
                    from,
                    to: Square::from_small(b),
                    promotion,
                };
                if let Ok(next) = state.play(one) {
                    if length <= check || state.move_to(next.position()) == Some(one) {
                        count = count.wrapping_add(count_lines(&next, length - 1, check));
                    }
                }
            }
        }
    }
    count
}

fn state_of(placement: &str, turn: Colour, rights: Rights) -> Result<State, Fail> {
    let position = Position::parse_placement(placement)?;
    Ok(State::new(position, turn, rights, None, 0, 1)?)
}

#[test]
fn lines_from_the_start(rt: HostRuntime) {
    let start = State::start();
    assert_same(&rt, count_lines(&start, 1, 0), 20);
    assert_same(&rt, count_lines(&start, 2, 0), 400);
    assert_same(&rt, count_lines(&start, 3, 1), 8902);
}

#[test]
fn lines_with_castlings(rt: HostRuntime) -> Result<(), Fail> {
    let text = "r3k2r/p1ppqpb1/bn2pnp1/3PN3/1p2P3/2N2Q1p/PPPBBPPP/R3K2R";
    let state = state_of(text, Colour::White, ALL)?;
    assert_same(&rt, count_lines(&state, 1, 0), 48);
    assert_same(&rt, count_lines(&state, 2, 0), 2039);
    assert_same(&rt, count_lines(&state, 3, 1), 97862);
    Ok(())
}

#[test]
fn lines_with_captures_in_passing(rt: HostRuntime) -> Result<(), Fail> {
    let state = state_of("8/2p5/3p4/KP5r/1R3p1k/8/4P1P1/8", Colour::White, NONE)?;
    assert_same(&rt, count_lines(&state, 1, 0), 14);
    assert_same(&rt, count_lines(&state, 2, 0), 191);
    assert_same(&rt, count_lines(&state, 3, 1), 2812);
    Ok(())
}

#[test]
fn lines_with_promotions(rt: HostRuntime) -> Result<(), Fail> {
    let text = "r3k2r/Pppp1ppp/1b3nbN/nP6/BBP1P3/q4N2/Pp1P2PP/R2Q1RK1";
    let rights = Rights {
        black_short: true,
        black_long: true,
        ..NONE
    };
    let state = state_of(text, Colour::White, rights)?;
    assert_same(&rt, count_lines(&state, 1, 0), 6);
    assert_same(&rt, count_lines(&state, 2, 0), 264);
    assert_same(&rt, count_lines(&state, 3, 1), 9467);
    Ok(())
}

#[test]
fn lines_with_discovered_checks(rt: HostRuntime) -> Result<(), Fail> {
    let text = "rnbq1k1r/pp1Pbppp/2p5/8/2B5/8/PPP1NnPP/RNBQK2R";
    let rights = Rights {
        white_short: true,
        white_long: true,
        ..NONE
    };
    let state = state_of(text, Colour::White, rights)?;
    assert_same(&rt, count_lines(&state, 1, 0), 44);
    assert_same(&rt, count_lines(&state, 2, 0), 1486);
    assert_same(&rt, count_lines(&state, 3, 1), 62379);
    Ok(())
}

// The state after a move from one named square to another.
fn play(state: State, names: &[&str; 2]) -> Result<State, Fail> {
    let one = Move {
        from: Square::parse(names[0])?,
        to: Square::parse(names[1])?,
        promotion: None,
    };
    Ok(state.play(one)?)
}

#[test]
fn ends(rt: HostRuntime) -> Result<(), Fail> {
    let mut state = State::start();
    for names in [["f2", "f3"], ["e7", "e5"], ["g2", "g4"], ["d8", "h4"]] {
        state = play(state, &names)?;
    }
    assert!(rt; state.is_check());
    assert!(rt; state.is_mate());
    assert!(rt; !state.is_stalemate());
    assert_same(&rt, (state.number(), state.half_moves()), (3, 1));
    assert_same(&rt, state.turn(), Colour::White);
    assert_same(&rt, state.rights(), ALL);
    assert!(rt; state.passed().is_none());
    let stuck = state_of("k7/2Q5/8/8/8/8/8/7K", Colour::Black, NONE)?;
    assert!(rt; stuck.is_stalemate());
    assert!(rt; !stuck.is_mate());
    let triple = Move {
        from: Square::parse("e2")?,
        to: Square::parse("e5")?,
        promotion: None,
    };
    assert!(rt; !State::start().is_legal(triple));
    assert_same(&rt, State::start().play(triple), Err(NotLegal));
    Ok(())
}

#[test]
fn draws(rt: HostRuntime) -> Result<(), Fail> {
    let start = State::start();
    let mut history = [start; 5];
    let mut state = start;
    let moves = [["g1", "f3"], ["g8", "f6"], ["f3", "g1"], ["f6", "g8"]];
    for (index, names) in moves.iter().enumerate() {
        state = play(state, names)?;
        history[index + 1] = state;
    }
    assert_same(&rt, state.repetitions(&history), 2);
    assert_same(&rt, history[1].repetitions(&history), 1);
    let position = Position::parse_placement("k7/8/8/8/8/8/8/K6R")?;
    let fifty = State::new(position, Colour::White, NONE, None, 100, 90)?;
    assert!(rt; fifty.is_fifty_moves());
    assert!(rt; !fifty.is_seventy_five_moves());
    assert!(rt; !fifty.is_dead());
    assert!(rt; !State::new(position, Colour::White, NONE, None, 99, 90)?.is_fifty_moves());
    assert!(rt; State::new(position, Colour::White, NONE, None, 150, 90)?.is_seventy_five_moves());
    assert!(rt; state_of("k7/8/8/8/8/8/8/K7", Colour::White, NONE)?.is_dead());
    assert!(rt; state_of("k7/8/8/8/8/8/8/K1n5", Colour::White, NONE)?.is_dead());
    assert!(rt; state_of("kb6/8/8/8/8/8/8/K1B5", Colour::White, NONE)?.is_dead());
    assert!(rt; !state_of("kb6/8/8/8/8/8/8/KB6", Colour::White, NONE)?.is_dead());
    assert!(rt; !state_of("k7/8/8/8/8/8/8/KNN5", Colour::White, NONE)?.is_dead());
    Ok(())
}

fn refusal(placement: &str, rights: Rights, passed: &str, number: u16) -> Option<Impossible> {
    let position = Position::parse_placement(placement).ok()?;
    let passed = Square::parse(passed).ok();
    State::new(position, Colour::White, rights, passed, 0, number).err()
}

#[test]
fn impossible_states(rt: HostRuntime) {
    let rook = "4k3/8/8/3p4/8/8/8/4K2R";
    assert_same(
        &rt,
        refusal("kk6/8/8/8/8/8/8/K7", NONE, "", 1),
        Some(Impossible::Kings),
    );
    assert_same(
        &rt,
        refusal("k7/8/8/8/8/8/8/8", NONE, "", 1),
        Some(Impossible::Kings),
    );
    assert_same(
        &rt,
        refusal("k7/8/8/8/8/8/8/KX6", NONE, "", 1),
        Some(Impossible::Extra),
    );
    assert_same(
        &rt,
        refusal("k7/8/8/8/8/8/8/Kp6", NONE, "", 1),
        Some(Impossible::Pawn),
    );
    assert_same(
        &rt,
        refusal("kP6/8/8/8/8/8/8/K7", NONE, "", 1),
        Some(Impossible::Pawn),
    );
    assert_same(
        &rt,
        refusal("k7/8/8/8/8/8/8/K6R", ALL, "", 1),
        Some(Impossible::Rights),
    );
    assert_same(
        &rt,
        refusal("k6R/8/8/8/8/8/8/K7", NONE, "", 1),
        Some(Impossible::Check),
    );
    assert_same(&rt, refusal(rook, NONE, "d5", 1), Some(Impossible::Passed));
    assert_same(&rt, refusal(rook, NONE, "e6", 1), Some(Impossible::Passed));
    assert_same(&rt, refusal(rook, NONE, "d6", 0), Some(Impossible::Number));
    assert_same(&rt, refusal(rook, NONE, "d6", 1), None);
}

#[test]
fn refusals_have_texts(rt: HostRuntime) -> Result<(), Fail> {
    let alloc = rt.alloc();
    assert_said(&rt, alloc, &NotLegal, "the move is not legal")?;
    assert_said(
        &rt,
        alloc,
        &Impossible::Kings,
        "a side doesn't have exactly one king",
    )?;
    assert_said(
        &rt,
        alloc,
        &Impossible::Extra,
        "a piece isn't a chess piece",
    )?;
    let pawn = "a pawn is on the first or the eighth rank";
    assert_said(&rt, alloc, &Impossible::Pawn, pawn)?;
    let check = "the side that isn't to move is in check";
    assert_said(&rt, alloc, &Impossible::Check, check)?;
    let rights = "a right to castle lacks its king or rook";
    assert_said(&rt, alloc, &Impossible::Rights, rights)?;
    let passed = "no pawn has just passed over the passed square";
    assert_said(&rt, alloc, &Impossible::Passed, passed)?;
    assert_said(
        &rt,
        alloc,
        &Impossible::Number,
        "the number of the move is 0",
    )?;
    Ok(())
}
