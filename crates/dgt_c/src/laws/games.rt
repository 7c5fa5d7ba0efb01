//! Laws of what arguments and structs of C say of games.

ghost use Rattle.std.specs.Prelude.{◌≡◌, ◌∷◌, ◌≤◌, [], ℕ, Bool, false, IsTrue, List, Option, None, Some, length, map, take};
ghost use Rattle.dgt_values.specs.Board.{piece_code, pieces_of};
ghost use Rattle.dgt_values.specs.declared.positions.Position.{Position};
ghost use Rattle.dgt_chess.specs.declared.pieces.Colour.{Colour};
ghost use Rattle.dgt_chess.specs.declared.state.Move.{Move};
ghost use Rattle.dgt_chess.specs.declared.state.State.{State};
ghost use Rattle.dgt_game.specs.declared.event.Event.{Event};
ghost use Rattle.dgt_game.specs.declared.event.GameResult.{GameResult};
ghost use Rattle.dgt_game.specs.declared.event.Moves.{Moves};
ghost use Rattle.dgt_game.specs.declared.observation.Observation.{Observation};
ghost use Rattle.dgt_game.specs.declared.observation.Sight.{Sight};
ghost use Rattle.dgt_game.specs.declared.recogniser.Recogniser.{Recogniser};
ghost use Rattle.dgt_game.specs.Lines.{moves_of};
ghost use Rattle.dgt_game.specs.Runs.{Call, Does};
ghost use Rattle.dgt_c.specs.Chess.{SaysMove, SaysState};
ghost use Rattle.dgt_c.specs.Games.{SaysSight, game_event_reported, move_reported, moves_reported, result_number, side_number, state_reported};
ghost use Rattle.dgt_c.specs.GamesOnce.{OneObservation, OneSight};
ghost use Rattle.dgt_c.specs.Hearing.{flag};
ghost use Rattle.dgt_c.specs.Recognisers.{HasGoneOn, HasSeen, HasTold, Writes};
ghost use Rattle.dgt_c.specs.declared.header.DgtGameEvent.{DgtGameEvent};
ghost use Rattle.dgt_c.specs.declared.header.TheConstants.{NO_CHESS_MOVE, NO_GAME_EVENT};

/// Arguments describe at most one observation.
pub fn one_observation()
    ensures sight { OneSight }
    ensures observation { OneObservation }
{
    dgt_values::laws::one_piece_a_code();
}

/// The numbers of sights and of sides.
pub fn said_sights()
    ensures sure { (position : Position)
        → SaysSight (map piece_code (pieces_of position)) 0 (Sight.Sure position) }
    ensures doubted { (position : Position)
        → SaysSight (map piece_code (pieces_of position)) 1 (Sight.Doubted position) }
    ensures away { (codes : List ℕ) → SaysSight codes 2 Sight.Away }
    ensures sides { (side_number None ≡ 255) × (side_number (Some Colour.White) ≡ 0)
        × (side_number (Some Colour.Black) ≡ 1) }
{}

/// The members of the struct of each event. The other members are 0.
pub fn said_events()
    ensures begun { (state : State) (is_turned : Bool)
        → game_event_reported (Event.Begun state is_turned) ≡ record NO_GAME_EVENT {
          kind = 1;
          turned = flag is_turned;
          state = state_reported state;
        } }
    ensures made { (one : Move) → game_event_reported (Event.Made one) ≡ record NO_GAME_EVENT {
      kind = 2;
      count = 1;
      moves = move_reported one ∷ NO_CHESS_MOVE ∷ NO_CHESS_MOVE
          ∷ NO_CHESS_MOVE ∷ [];
    } }
    ensures unseen { (moves : Moves) → game_event_reported (Event.Unseen moves)
        ≡ record NO_GAME_EVENT {
          kind = 3;
          count = length (moves_of moves);
          moves = moves_reported (moves_of moves);
        } }
    ensures gap { (state : State) (count : ℕ) → game_event_reported (Event.Gap state count)
        ≡ record NO_GAME_EVENT { kind = 4; count = count; state = state_reported state } }
    ensures back { (count : ℕ) (stays : Bool) → game_event_reported (Event.Back count stays)
        ≡ record NO_GAME_EVENT { kind = 5; count = count; stays = flag stays } }
    ensures ended { (outcome : GameResult) → game_event_reported (Event.Ended outcome)
        ≡ record NO_GAME_EVENT { kind = 6; result = result_number outcome } }
    ensures lost { (squares : ℕ) → game_event_reported (Event.Lost squares)
        ≡ record NO_GAME_EVENT { kind = 7; squares = squares } }
    ensures found { game_event_reported Event.Found ≡ record NO_GAME_EVENT { kind = 8 } }
    ensures results { (result_number GameResult.WhiteWins ≡ 1)
        × (result_number GameResult.BlackWins ≡ 2) × (result_number GameResult.Draw ≡ 3) }
{}

/// The structs of states and moves in an event describe them.
pub fn said_parts()
    ensures state { (state : State) → SaysState (state_reported state) state }
    ensures move_in { (one : Move) → SaysMove (move_reported one) one }
    ensures moves { (moves : List Move) → length moves ≤ 4
        → (length (moves_reported moves) ≡ 4)
        × (take (length moves) (moves_reported moves) ≡ map move_reported moves) }
{}

/// Calls of a recogniser are calls of a run of [`dgt_game`], of which
/// [`dgt_game::laws::reports_are_legal`] says what it reports.
pub fn calls_are_runs()
    ensures sees { (old new : Recogniser) (seen : Observation) → HasSeen old seen new
        → Does old (Call.See seen.sight) new }
    ensures tells { (old new : Recogniser) (now : ℕ) (told : Option Event)
        → HasTold now old told new → Does old (Call.Due told) new }
    ensures goes_on { (old new : Recogniser) (state : State) (is_turned : Bool)
        → HasGoneOn state is_turned new → Does old (Call.GoOn state is_turned) new }
    ensures writes { (told : Option Event) (result : Bool) (old new : DgtGameEvent)
        → Writes told result old new
        → (IsTrue result
        → (event : Event) × (told ≡ Some event) × (new ≡ game_event_reported event))
        × (result ≡ false → (told ≡ None) × (new ≡ old)) }
{}
