//! Events of a game as structs of C.

ghost use Rattle.std.specs.Prelude.{◌≡◌, ◌≤◌, length};
ghost use Rattle.dgt_c.specs.Games.{game_event_reported, moves_reported, result_number};

use crate::chess_states::{move_for_c, state_for_c};
use crate::header::{
    DgtChessMove, DgtGameEvent, GAME_BACK, GAME_BEGUN, GAME_ENDED, GAME_FOUND, GAME_GAP, GAME_LOST,
    GAME_MADE, GAME_UNSEEN, NO_CHESS_MOVE, NO_GAME_EVENT, RESULT_BLACK_WINS, RESULT_DRAW,
    RESULT_WHITE_WINS,
};
use dgt_chess::Move;
use dgt_game::{Event, GAP, GameResult};

fn result_for_c(outcome: GameResult) -> u8
    ensures { result ≡ result_number outcome }
{
    match outcome {
        GameResult::WhiteWins => RESULT_WHITE_WINS,
        GameResult::BlackWins => RESULT_BLACK_WINS,
        GameResult::Draw => RESULT_DRAW,
    }
}

// Moves as structs, and zeros after them.
fn moves_for_c(moves: &[Move]) -> [DgtChessMove; GAP]
    requires { length moves.now ≤ GAP }
    ensures { result ≡ moves_reported moves.now }
{
    let mut said = [NO_CHESS_MOVE; GAP];
    for (index, one) in moves.iter().enumerate() {
        said[index] = move_for_c(*one);
    }
    said
}

/// An event of a game, as a struct.
pub(crate) fn game_event_for_c(event: &Event) -> DgtGameEvent
    ensures { result ≡ game_event_reported event.now }
{
    match event {
        Event::Begun(state, is_turned) => DgtGameEvent {
            kind: GAME_BEGUN,
            turned: u8::from(*is_turned),
            state: state_for_c(state),
            ..NO_GAME_EVENT
        },
        Event::Made(one) => DgtGameEvent {
            kind: GAME_MADE,
            count: 1,
            moves: moves_for_c(&[*one]),
            ..NO_GAME_EVENT
        },
        Event::Unseen(moves) => DgtGameEvent {
            kind: GAME_UNSEEN,
            count: moves.len() as u8,
            moves: moves_for_c(moves.as_slice()),
            ..NO_GAME_EVENT
        },
        Event::Gap(state, count) => DgtGameEvent {
            kind: GAME_GAP,
            count: *count,
            state: state_for_c(state),
            ..NO_GAME_EVENT
        },
        Event::Back(count, stays) => DgtGameEvent {
            kind: GAME_BACK,
            count: *count,
            stays: u8::from(*stays),
            ..NO_GAME_EVENT
        },
        Event::Ended(outcome) => DgtGameEvent {
            kind: GAME_ENDED,
            result: result_for_c(*outcome),
            ..NO_GAME_EVENT
        },
        Event::Lost(squares) => DgtGameEvent {
            kind: GAME_LOST,
            squares: *squares,
            ..NO_GAME_EVENT
        },
        Event::Found => DgtGameEvent {
            kind: GAME_FOUND,
            ..NO_GAME_EVENT
        },
    }
}
