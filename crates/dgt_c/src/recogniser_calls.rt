//! C calls of a recogniser of games.

ghost use Rattle.std.specs.Prelude.{◌≡◌, ◌≢◌, ◌⊎◌, ◌↔◌, ◌<◌, ◌≤◌, ◌+◌, ℕ, false, IsTrue, MatchOption, MatchResult, Option, List, map};
ghost use Rattle.dgt_values.specs.Board.{piece_code};
ghost use Rattle.dgt_values.specs.declared.pieces.Piece.{Piece};
ghost use Rattle.dgt_chess.specs.declared.pieces.Colour.{Colour as AnyColour};
ghost use Rattle.dgt_chess.specs.declared.state.State.{State as AnyState};
ghost use Rattle.dgt_game.specs.declared.event.Event.{Event as AnyEvent};
ghost use Rattle.dgt_game.specs.declared.observation.Observation.{Observation as AnyObservation};
ghost use Rattle.dgt_game.specs.declared.observation.Sight.{Sight as AnySight};
ghost use Rattle.dgt_game.specs.Planning.{HasNothing, IsPlanned};
ghost use Rattle.dgt_game.specs.Timing.{IsIdle};
ghost use Rattle.dgt_game.specs.Waiting.{IsQuiet, last_of};
ghost use Rattle.dgt_c.specs.Chess.{HasStatus, SaysState};
ghost use Rattle.dgt_c.specs.Games.{SaysObservation, SaysSight, side_number};
ghost use Rattle.dgt_c.specs.Recognisers.{HasGoneOn, HasSeen, HasTold, Writes};
ghost use Rattle.dgt_c.specs.Starting.{ArePieces};

use crate::checking::read_position;
use crate::chess_states::{read_colour, read_parts, reason_for_c, state_for_c};
use crate::follower_calls::put_time;
use crate::game_events::game_event_for_c;
use crate::handles::DgtRecogniser;
use crate::header::{
    CHESS_BAD_MEMBER, CHESS_DONE, DgtChessState, DgtGameEvent, NONE, SEE_BAD_PIECES, SEE_BAD_SIDE,
    SEE_BAD_SIGHT, SEE_STILL_DUE, SEEN, SIGHT_AWAY, SIGHT_DOUBTED, SIGHT_SURE,
};
use dgt_chess::Colour;
use dgt_game::{Observation, Sight};

// The sight with this number and these pieces, or the status of the first that isn't valid.
fn read_sight(pieces: &[u8; 64], sight: u8) -> Result<Sight, u8>
    ensures { MatchResult result (λ seen. SaysSight pieces.now sight seen)
        (λ status. ((status ≡ SEE_BAD_PIECES) × (sight ≢ SIGHT_AWAY) × ¬ (ArePieces pieces.now))
        ⊎ ((status ≡ SEE_BAD_SIGHT) × (SIGHT_AWAY < sight)
        × ((stand : List Piece) × (map piece_code stand ≡ pieces.now)))) }
{
    if sight == SIGHT_AWAY {
        return Ok(Sight::Away);
    }
    let Some(position) = read_position(pieces) else {
        return Err(SEE_BAD_PIECES);
    };
    match sight {
        SIGHT_SURE => Ok(Sight::Sure(position)),
        SIGHT_DOUBTED => Ok(Sight::Doubted(position)),
        _ => Err(SEE_BAD_SIGHT),
    }
}

// The side with this number, or none. `None` if there is no such number.
fn read_side(side: u8) -> Option<Option<Colour>>
    ensures { MatchOption result ((none : Option AnyColour) → side ≢ side_number none)
        (λ read. side ≡ side_number read) }
{
    if side == NONE {
        return Some(None);
    }
    match read_colour(side) {
        Some(colour) => Some(Some(colour)),
        None => None,
    }
}

/// Takes what is seen at this time. Returns 0, or why the recogniser is unchanged.
#[unsafe(no_mangle)]
pub extern "C" fn dgt_recogniser_see(
    recogniser: &mut DgtRecogniser,
    now: u64,
    pieces: &[u8; 64],
    sight: u8,
    confirmed: bool,
    running: u8,
) -> u8
    ensures place { recogniser.new.at ≡ recogniser.old.at }
    ensures seen { result ≡ SEEN → (seen : AnyObservation)
        × SaysObservation now pieces.now sight confirmed running seen
        × HasSeen recogniser.old.inside seen recogniser.new.inside }
    ensures still_due { result ≡ SEE_STILL_DUE → (seen : AnyObservation)
        × SaysObservation now pieces.now sight confirmed running seen
        × ¬ (IsIdle now recogniser.old.inside) }
    ensures bad_pieces { result ≡ SEE_BAD_PIECES →
        (sight ≢ SIGHT_AWAY) × ¬ (ArePieces pieces.now) }
    ensures bad_sight { result ≡ SEE_BAD_SIGHT → (SIGHT_AWAY < sight)
        × ((stand : List Piece) × (map piece_code stand ≡ pieces.now)) }
    ensures bad_side { result ≡ SEE_BAD_SIDE →
        ((shown : AnySight) × SaysSight pieces.now sight shown)
        × ((side : Option AnyColour) → running ≢ side_number side) }
    ensures refused { result ≢ SEEN → recogniser.new.inside ≡ recogniser.old.inside }
    ensures statuses { result ≤ SEE_STILL_DUE }
{
    let sight = match read_sight(pieces, sight) {
        Ok(sight) => sight,
        Err(status) => return status,
    };
    let Some(running) = read_side(running) else {
        return SEE_BAD_SIDE;
    };
    let observation = Observation {
        at: now,
        sight,
        is_confirmed: confirmed,
        running,
    };
    match recogniser.get().see(&observation) {
        Ok(()) => SEEN,
        Err(_) => SEE_STILL_DUE,
    }
}

/// The first time at which `dgt_recogniser_due` writes an event, if nothing is seen before. Returns
/// false if there is none; then `time` is unchanged.
#[unsafe(no_mangle)]
pub extern "C" fn dgt_recogniser_due_at(recogniser: &mut DgtRecogniser, time: &mut u64) -> bool
    ensures place { recogniser.new.at ≡ recogniser.old.at }
    ensures same { recogniser.new.inside ≡ recogniser.old.inside }
    ensures at { IsTrue result → (now : ℕ) → IsIdle now recogniser.old.inside
        ↔ (IsQuiet recogniser.old.inside × (now < time.new)) }
    ensures none { result ≡ false → (time.new ≡ time.old)
        × ((now : ℕ) → IsIdle now recogniser.old.inside) }
    ensures news { ¬ (IsQuiet recogniser.old.inside) → IsTrue result
        × (time.new ≡ recogniser.old.inside.since) }
    ensures soon { IsTrue result → time.new ≤ recogniser.old.inside.since + 60000 }
    ensures why { IsPlanned recogniser.old.inside → result ≡ false
        → (recogniser.old.inside.is_sure ≡ false) ⊎ (recogniser.old.inside.is_confirmed ≡ false)
        ⊎ HasNothing recogniser.old.inside }
{
    put_time(recogniser.get().due_at(), time)
}

/// Writes the next event that is due at this time. Returns false if there is none; then the struct
/// is unchanged.
#[unsafe(no_mangle)]
pub extern "C" fn dgt_recogniser_due(
    recogniser: &mut DgtRecogniser,
    now: u64,
    event: &mut DgtGameEvent,
) -> bool
    ensures place { recogniser.new.at ≡ recogniser.old.at }
    ensures due { (told : Option AnyEvent)
        × HasTold now recogniser.old.inside told recogniser.new.inside
        × Writes told result event.old event.new }
{
    match recogniser.get().due(now) {
        Some(told) => {
            *event = game_event_for_c(&told);
            true
        }
        None => false,
    }
}

/// Writes the state after the events. Returns false if there is none; then the struct is unchanged.
#[unsafe(no_mangle)]
pub extern "C" fn dgt_recogniser_state(
    recogniser: &mut DgtRecogniser,
    state: &mut DgtChessState,
) -> bool
    ensures place { recogniser.new.at ≡ recogniser.old.at }
    ensures same { recogniser.new.inside ≡ recogniser.old.inside }
    ensures last { MatchOption (last_of recogniser.old.inside.memory)
        ((result ≡ false) × (state.new ≡ state.old))
        (λ step. IsTrue result × SaysState state.new step.state) }
{
    match recogniser.get().state() {
        Some(known) => {
            *state = state_for_c(&known);
            true
        }
        None => false,
    }
}

/// Goes on from the state in the struct. Returns 0, or the number of the first reason why no game
/// reaches it; then the recogniser is unchanged.
#[unsafe(no_mangle)]
pub extern "C" fn dgt_recogniser_go_on(
    recogniser: &mut DgtRecogniser,
    state: &DgtChessState,
    turned: bool,
) -> u8
    ensures place { recogniser.new.at ≡ recogniser.old.at }
    ensures status { HasStatus state.now result }
    ensures on { result ≡ CHESS_DONE → (known : AnyState) × SaysState state.now known
        × HasGoneOn known turned recogniser.new.inside }
    ensures refused { result ≢ CHESS_DONE → recogniser.new.inside ≡ recogniser.old.inside }
{
    match read_parts(state) {
        Some(Ok(state)) => {
            recogniser.get().go_on(state, turned);
            CHESS_DONE
        }
        Some(Err(why)) => reason_for_c(why),
        None => CHESS_BAD_MEMBER,
    }
}
