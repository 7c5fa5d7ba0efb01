//! Laws of the machine of a board and its host, and of the worlds that stand for its states. Each
//! function does nothing at run time: its contract states the facts.

ghost use Rattle.std.specs.Prelude.{◌≡◌, ◌≢◌, ◌↔◌, ◌⊎◌, ◌≤◌, ◌<◌, ◌+◌, ◌*◌, ℕ, suc, Bool, false, List, [], ◌∷◌, ◌++◌, All, Contains};
ghost use Rattle.std.specs.Prelude.{Option, Some, None, drop, filter_map, flat_map, length, map, option_to_list, replicate, take, IsTrue, IsSome};
ghost use Rattle.std.specs.List.{AllByRecursion};
ghost use Rattle.dgt_values.specs.declared.pieces.Piece.{Piece};
ghost use Rattle.dgt_values.specs.Equality.{CloneIsSame, EqualIsSame, EqualIsSameReadOf};
ghost use Rattle.dgt_values.specs.declared.kinds.Kind.{Kind};
ghost use Rattle.dgt_message.specs.Content.{Content, IsMessage, answered_kind};
ghost use Rattle.dgt_message.specs.Encoding.{Encodes, encoding};
ghost use Rattle.dgt_message.specs.Clock.{ClockState};
ghost use Rattle.dgt_command.specs.Content.{CommandContent, EventContent, requested_kind};
ghost use Rattle.dgt_command.specs.Encoding.{EncodesCommand, command_encoding};
ghost use Rattle.dgt_command.specs.Equality.{CommandHasArrays};
ghost use Rattle.dgt_command.specs.Words.{Divides, IsNoiseList, IsPartial};
ghost use Rattle.dgt_board.specs.View.{BoardView, HasTaken, view_after_line_lost};
ghost use Rattle.dgt_decode.specs.Grammar.{Event};
ghost use Rattle.dgt_board.specs.declared.replies.Reply.{Reply};
ghost use Rattle.dgt_board.specs.State.{IdentityContent, BoardState, IsShortClock, IsShortIdentity, after_change, after_hand_clock, command_mode, follows_clock, updates, effects};
ghost use Rattle.dgt_board.specs.declared.state.TheConstants.{MAX_OWED};
ghost use Rattle.dgt_board.specs.declared.modes.Mode.{Mode};
ghost use Rattle.dgt_board.specs.Sending.{after_sending, backlog, next_message, pending_messages, piece_on};
ghost use Rattle.dgt_message.specs.Picture.{clock_after_all, picture_after_all};
ghost use Rattle.dgt_host.specs.Host.{IsUnasked, awaits_too_many, host_after, host_awaiting, new_host, restart_bytes};
ghost use Rattle.dgt_link.specs.Machine.{IsHostBreak, IsSending, MachineState, Move, after_move, after_moves, commands_anew, new_state};
ghost use Rattle.dgt_link.specs.Sound.{IsExact, IsSound, IsSubsequence, IsUnknownOr, coming_kinds, coming_picture};
ghost use Rattle.dgt_link.specs.Promise.{IsAsked, IsAskedBy, IsPromised, IsPromisedBy, IsQuiet, IsRestarted, PictureIsComing, act_requests, coming_mode, commands_after, last_mode, mode_after, requests};
ghost use Rattle.dgt_link.specs.Act.{ActContent, act_content, ActHasArrays};
ghost use Rattle.dgt_link.specs.Faults.{AreCalm, FaultyActHasArrays, FaultyContent, FaultyRuns, FaultyStep, IfRan, faulty_content};
ghost use Rattle.dgt_command.specs.declared.command.Command.{Command as AnyCommand};
ghost use Rattle.dgt_link.specs.declared.acts.Act.{Act as AnyAct};
ghost use Rattle.dgt_link.specs.declared.faulty.FaultyAct.{FaultyAct as AnyFaultyAct};
ghost use Rattle.dgt_link.specs.Headline.{AskForPicture, squares_after};
ghost use Rattle.dgt_link.specs.Readers.{Grammars};
ghost use Rattle.dgt_link.specs.Stands.{AreEncoded, AreMovesOfAct, IsExactWorld, IsWorld, StandsAfterRun, StandsAfterStep, StandsFor};
ghost use Rattle.dgt_link.specs.declared.acts.Outcome.{Outcome};
ghost use Rattle.dgt_link.specs.Step.{Becomes, IfDone, Runs, Step, done_count, is_full, outcome};
ghost use Rattle.dgt_link.specs.Settling.{AreInOrder, HasRounds, IsNext, IsRound, IsSettling, SettlesIn, IsSettlingMove, SettlesBy, steps_left};
ghost use Rattle.dgt_link.specs.History.{IsInOrderOf, RunsThrough, shown_in, shown_on, stood_in, stood_on};
ghost use Rattle.dgt_link.specs.Healing.{AfterFaults, AwaitsWhatComes, IsRestedWorld, IsSane, StandsBehind, StandsBehindAfter};
ghost use Rattle.dgt_link.specs.View.{IsQuietWorld, WorldView, line_holding, world_of};

use crate::{Act, FaultyAct, MIN_DOWN, MIN_UP, Outcome as ActOutcome, WorldFault};
use dgt_command::Command;

// What proofs use from the readers of messages and of commands.
pub(crate) fn grammars()
    ensures { Grammars }
{
    dgt_decode::laws::begins_anew();
    dgt_decode::laws::events_append();
    dgt_decode::laws::unfinished_append();
    dgt_decode::laws::quiet_held();
    dgt_decode::laws::encoding_is_read();
    dgt_host::laws::places_do_not_matter();
    dgt_command::laws::divisions_append();
    dgt_command::laws::prefixes_divide_first();
    dgt_command::laws::one_division();
    dgt_command::laws::parts_of_words();
    dgt_command::laws::zeros_settle_the_reader();
}

/// The limits by their numbers.
pub fn limits()
    ensures up { MIN_UP ≡ 67 }
    ensures down { MIN_DOWN ≡ 257 }
{}

/// Two values are equal by `==` exactly if they are the same. For borrowed bytes, the bytes count
/// and not their address.
pub fn equal_is_same()
    ensures outcome { EqualIsSame ⟦<ActOutcome as PartialEq>⟧.eq }
    ensures world_fault { EqualIsSame ⟦<WorldFault as PartialEq>⟧.eq }
    ensures act { EqualIsSameReadOf ActHasArrays act_content ⟦<Act<'static> as PartialEq>⟧.eq }
    ensures faulty_act { EqualIsSameReadOf FaultyActHasArrays faulty_content
        ⟦<FaultyAct<'static> as PartialEq>⟧.eq }
    ensures arrays { (act : AnyAct) → ((command : AnyCommand) → act ≡ Act.Host command →
        CommandHasArrays command) → ActHasArrays act }
    ensures faulty_arrays { (act : AnyFaultyAct) → ((plain : AnyAct) →
        act ≡ FaultyAct.Plain plain → ActHasArrays plain) → FaultyActHasArrays act }
{
    dgt_message::laws::equal_is_same();
    dgt_command::laws::equal_is_same();
}

/// A clone is the value itself, and cloning never fails.
pub fn clone_is_same()
    ensures outcome { CloneIsSame ⟦<ActOutcome as Clone>⟧ }
    ensures world_fault { CloneIsSame ⟦<WorldFault as Clone>⟧ }
    ensures act { CloneIsSame ⟦<Act<'static> as Clone>⟧ }
    ensures faulty_act { CloneIsSame ⟦<FaultyAct<'static> as Clone>⟧ }
{}

/// A new board and host are sound, and exact.
pub fn new_is_sound()
    ensures sound { (position : List Piece) (clock : ClockState) (identity : IdentityContent) →
        length position ≡ 64 → IsSound (new_state position clock identity) }
    ensures exact { (position : List Piece) (clock : ClockState) (identity : IdentityContent) →
        length position ≡ 64 → IsExact (new_state position clock identity) }
{}

/// Each move keeps a sound state sound, and each but a host break keeps an exact one exact. A break
/// makes a sound state exact.
pub fn moves_keep()
    ensures sound { (x : MachineState) (move : Move) → IsSound x → IsSound (after_move x move) }
    ensures exact { (x : MachineState) (move : Move) → ¬ (IsHostBreak move) →
        IsExact x → IsExact (after_move x move) }
    ensures exact_again { (x : MachineState) → IsSound x → IsExact (after_move x Move.Break) }
{}

/// Sending a dump makes the picture to come the squares that the board has reported, and only a
/// break or a host break makes it unknown.
pub fn dump_is_reported()
    ensures reported { (x : MachineState) (later : List Reply) →
        x.board.owed ≡ Reply.Of Kind.Dump ∷ later → coming_picture (after_move x Move.Reply)
        ≡ Some (after_move x Move.Reply).board.reported_squares }
    ensures known { (x : MachineState) (move : Move) → move ≢ Move.Break → ¬ (IsHostBreak move) →
        IsSome (coming_picture x) → IsSome (coming_picture (after_move x move)) }
{}

/// In an exact state, the next message to be heard that has a kind has the kind that is awaited
/// first, and is not unasked.
pub fn answers_in_order()
    ensures first { (x : MachineState) (before later : List Content) (message : Content)
        (kind : Kind) → IsExact x → x.up ≡ before ++ message ∷ later
        → All (λ other. answered_kind other ≡ None) before → answered_kind message ≡ Some kind
        → (others : List Kind) × (x.awaited ≡ kind ∷ others) }
    ensures asked { (x : MachineState) (later : List Content) (message : Content) →
        IsExact x → x.up ≡ message ∷ later
        → ¬ (IsUnasked x.awaited (Some (Event.Message message))) }
{}

/// The effect of a move on the promise. Requesting a dump establishes its first half, which only a
/// break ends. The second half depends on the last command that sets a mode, and a break counts as
/// a reset. A host break establishes both.
pub fn promise_is_kept()
    ensures begun { (x : MachineState) →
        PictureIsComing (after_move x (Move.Ask CommandContent.Dump)) }
    ensures kept { (x : MachineState) (move : Move) → move ≢ Move.Break →
        PictureIsComing x → PictureIsComing (after_move x move) }
    ensures ended { (x : MachineState) → ¬ (PictureIsComing (after_move x Move.Break)) }
    ensures begun_anew { (x : MachineState) (noise : List EventContent)
        (is_noise : IsNoiseList noise) → IsPromised (after_move x (Move.HostBreak noise is_noise)) }
    ensures mode { (x : MachineState) (move : Move) →
        coming_mode (after_move x move) ≡ mode_after (coming_mode x) (requests move) }
{}

/// If a sound state is quiet, nothing is awaited, and a known picture is the board's squares if the
/// mode asks for updates. If the mode follows the clock, a clock that the host knows is the
/// board's, and in an exact state it knows it. In a promised state the picture is known. What is
/// unknown or something else is that if it is known.
pub fn at_quiet()
    ensures awaited { (x : MachineState) → IsSound x → IsQuiet x → x.awaited ≡ [] }
    ensures picture { (x : MachineState) → IsSound x → IsQuiet x → IsTrue (updates x.board.mode)
        → IsUnknownOr x.picture (Some x.board.squares) }
    ensures clock { (x : MachineState) → IsExact x → IsQuiet x → IsTrue (follows_clock x.board.mode)
        → x.host_clock ≡ Some x.board.clock }
    ensures clock_reported { (x : MachineState) → IsSound x → IsQuiet x
        → IsTrue (follows_clock x.board.mode) → IsUnknownOr x.host_clock (Some x.board.clock) }
    ensures promised { (x : MachineState) → IsSound x → IsPromised x → IsQuiet x
        → x.picture ≡ Some x.board.squares }
    ensures known { (picture reported : Option (List Piece)) → IsUnknownOr picture reported
        → IsSome picture → picture ≡ reported }
{}

/// After any moves, a sound state is sound, and without a host break an exact one is exact. If the
/// commands among them, after the last break, request the picture, it is promised, and is the
/// board's squares once everything is quiet.
pub fn picture_after_moves()
    ensures sound { (x : MachineState) (moves : List Move) →
        IsSound x → IsSound (after_moves x moves) }
    ensures exact { (x : MachineState) (moves : List Move) →
        AllByRecursion (λ move. ¬ (IsHostBreak move)) moves
        → IsExact x → IsExact (after_moves x moves) }
    ensures promised { (x : MachineState) (moves : List Move) →
        IsAsked (commands_after [] (flat_map requests moves)) → IsPromised (after_moves x moves) }
    ensures picture { (x : MachineState) (moves : List Move) → IsSound x
        → IsAsked (commands_after [] (flat_map requests moves)) → IsQuiet (after_moves x moves)
        → (after_moves x moves).picture ≡ Some (after_moves x moves).board.squares }
{}

/// Noise doesn't change a board's mode. The requests of a host that starts over set it to
/// `UpdateBoard`, and add a dump to what is owed. On bytes: 255 zeros complete any command that the
/// board's decoder has begun, and leave the mode unchanged.
pub fn restart_is_taken()
    ensures noise { (board : BoardState) (noise : List EventContent) → IsNoiseList noise →
        (effects board noise).mode ≡ board.mode }
    ensures taken { (board : BoardState) →
        let after = effects board (map EventContent.Read commands_anew) in
        (after.mode ≡ Mode.UpdateBoard) × (after.owed ≡ board.owed ++ Reply.Of Kind.Dump ∷ []) }
    ensures zeros { (board after : BoardView) → IsPartial board.partial →
        HasTaken board (replicate 255 0) after →
        (after.partial ≡ []) × (after.state.mode ≡ board.state.mode) }
{
    dgt_command::laws::one_division();
    dgt_command::laws::zeros_settle_the_reader();
}

/// What a board sends next is sent by one of the moves.
pub fn next_is_sent()
    ensures { (x : MachineState) (message : Content) → next_message x.board ≡ Some message
        → (move : Move) × IsSending move
        × (after_move x move
        ≡ record x { board = after_sending x.board message; up = x.up ++ message ∷ [] }) }
{}

/// A world stands for one state at most: the bytes determine which messages and which commands are
/// under way.
pub fn worlds_stand_for_one_state()
    ensures { (world : WorldView) (x y : MachineState) →
        StandsFor world x → StandsFor world y → x ≡ y }
{
    dgt_message::laws::encoding_encodes();
    dgt_message::laws::encoded_once();
    dgt_command::laws::one_division();
}

/// An act has one outcome and leads to one world. The same is true of a list of acts, and of acts
/// and faults in a world in which the lines and the board's power may fail.
pub fn acts_have_one_outcome()
    ensures one { (act : ActContent) (world after other : WorldView) (answer also : Outcome) →
        Step act world answer after → Step act world also other
        → (answer ≡ also) × (after ≡ other) }
    ensures all { (acts : List ActContent) (world after other : WorldView)
        (answers others : List Outcome) →
        Runs acts world answers after → Runs acts world others other
        → (answers ≡ others) × (after ≡ other) }
    ensures faulty { (act : FaultyContent) (world after other : WorldView) (answer also : Outcome) →
        FaultyStep act world answer after → FaultyStep act world also other
        → (answer ≡ also) × (after ≡ other) }
{
    dgt_board::laws::one_taking();
}

/// Let an act happen in a world that stands for a state. The world after it stands for a state that
/// the machine reaches by the act's own move, or for a delivery by takes or hears only. A run of
/// acts is therefore a run of the machine.
pub fn acts_are_moves()
    ensures one { (act : ActContent) (world after : WorldView) (answer : Outcome)
        (x : MachineState) → StandsFor world x → Step act world answer after
        → StandsAfterStep act answer x after }
    ensures all { (acts : List ActContent) (world after : WorldView) (answers : List Outcome)
        (x : MachineState) →
        StandsFor world x → Runs acts world answers after → StandsAfterRun acts answers x after }
{
    grammars();
}

/// After any act, the world stands for a sound state. After any but a host break, it stands for an
/// exact state if it did before, and after a break it always does.
pub fn acts_keep()
    ensures sound { (act : ActContent) (world after : WorldView) (answer : Outcome) →
        IsWorld world → Step act world answer after → IsWorld after }
    ensures exact { (act : ActContent) (world after : WorldView) (answer : Outcome) →
        act ≢ ActContent.HostBreak → IsExactWorld world → Step act world answer after
        → IsExactWorld after }
    ensures exact_again { (world after : WorldView) (answer : Outcome) →
        IsWorld world → Step ActContent.Break world answer after → IsExactWorld after }
    ensures exact_after_all { (acts : List ActContent) (world after : WorldView)
        (answers : List Outcome) → ¬ (Contains acts ActContent.HostBreak) →
        IsExactWorld world → Runs acts world answers after → IsExactWorld after }
{
    acts_are_moves();
}

/// The effect of an act on the promise. Requesting a dump establishes its first half, which only a
/// break ends. The second half depends on the last mode requested, and a break counts as a reset. A
/// host break establishes both: the board receives noise, and then the host's requests.
pub fn promise_by_acts()
    ensures begun { (world after : WorldView) (x y : MachineState) →
        StandsFor world x → Step (ActContent.Host CommandContent.Dump) world Outcome.Done after
        → StandsFor after y → PictureIsComing y }
    ensures kept { (act : ActContent) (world after : WorldView) (answer : Outcome)
        (x y : MachineState) → act ≢ ActContent.Break
        → StandsFor world x → Step act world answer after → StandsFor after y
        → PictureIsComing x → PictureIsComing y }
    ensures ended { (world after : WorldView) (answer : Outcome) (x y : MachineState) →
        StandsFor world x → Step ActContent.Break world answer after
        → StandsFor after y → ¬ (PictureIsComing y) }
    ensures begun_anew { (world after : WorldView) (answer : Outcome) (x y : MachineState) →
        StandsFor world x → Step ActContent.HostBreak world answer after
        → StandsFor after y → IsRestarted y × IsPromised y }
    ensures mode { (act : ActContent) (world after : WorldView) (answer : Outcome)
        (x y : MachineState) → StandsFor world x → Step act world answer after
        → StandsFor after y → coming_mode y ≡ mode_after (coming_mode x) (act_requests answer act) }
{
    acts_are_moves();
    worlds_stand_for_one_state();
}

/// In each world, once all messages under way are heard, the picture is unknown or the squares that
/// the board has reported. A message that the host has heard in part is one of them.
///
/// In a world that stands for an exact state, the next message to be heard that has a kind has the
/// kind that is awaited first, and is not unasked.
pub fn worlds_are_reported()
    ensures fold { (world : WorldView) (x : MachineState) → StandsFor world x →
        IsUnknownOr (picture_after_all world.host.picture x.up)
        (Some world.board.state.reported_squares) }
    ensures first { (world : WorldView) (x : MachineState) (before later : List Content)
        (message : Content) (kind : Kind) → StandsFor world x → IsExact x
        → x.up ≡ before ++ message ∷ later
        → All (λ other. answered_kind other ≡ None) before → answered_kind message ≡ Some kind
        → (others : List Kind) × (world.host.awaited ≡ kind ∷ others) }
    ensures asked { (world : WorldView) (x : MachineState) (later : List Content)
        (message : Content) → StandsFor world x → IsExact x → x.up ≡ message ∷ later
        → ¬ (IsUnasked world.host.awaited (Some (Event.Message message))) }
{}

/// In a quiet world nothing is awaited, and a known picture is the board's squares if the mode asks
/// for updates. If the mode follows the clock, a clock that the host knows is the board's, and the
/// host knows it if the world stands for an exact state. If it stands for a promised state, the
/// picture is known.
pub fn at_quiet_world()
    ensures awaited { (world : WorldView) (x : MachineState) →
        StandsFor world x → IsQuietWorld world → world.host.awaited ≡ [] }
    ensures reported { (world : WorldView) (x : MachineState) → StandsFor world x
        → IsQuietWorld world → IsTrue (updates world.board.state.mode)
        → IsUnknownOr world.host.picture (Some world.board.state.squares) }
    ensures clock { (world : WorldView) (x : MachineState) → StandsFor world x → IsQuietWorld world
        → IsExact x → IsTrue (follows_clock world.board.state.mode)
        → world.host.clock ≡ Some world.board.state.clock }
    ensures clock_reported { (world : WorldView) (x : MachineState) →
        StandsFor world x → IsQuietWorld world → IsTrue (follows_clock world.board.state.mode)
        → IsUnknownOr world.host.clock (Some world.board.state.clock) }
    ensures picture { (world : WorldView) (x : MachineState) →
        StandsFor world x → IsQuietWorld world → IsPromised x
        → world.host.picture ≡ Some world.board.state.squares }
{
    dgt_command::laws::one_division();
}

/// Suppose some acts request a dump after the last break, and the last of them that sets a mode
/// asks for updates. Then the world after them stands for a promised state. Once it is quiet, the
/// host's picture is the board's squares. A promised state stays promised after any acts without a
/// reset and a break that both sides notice.
pub fn picture_after_acts()
    ensures promised { (acts : List ActContent) (world after : WorldView)
        (answers : List Outcome) (x : MachineState) →
        StandsFor world x → Runs acts world answers after → IsAskedBy acts answers
        → (y : MachineState) × StandsFor after y × IsPromised y }
    ensures picture { (acts : List ActContent) (world after : WorldView)
        (answers : List Outcome) (x : MachineState) →
        StandsFor world x → Runs acts world answers after → IsAskedBy acts answers
        → IsQuietWorld after → after.host.picture ≡ Some after.board.state.squares }
    ensures kept { (acts : List ActContent) (world after : WorldView)
        (answers : List Outcome) (x : MachineState) →
        StandsFor world x → Runs acts world answers after → AreCalm (map FaultyContent.Plain acts)
        → IsPromised x → (y : MachineState) × StandsFor after y × IsPromised y }
{
    acts_are_moves();
    at_quiet_world();
}

/// What `IsAskedBy` and `AskForPicture` require, act by act. Whatever happened before, a command
/// that asks for updates and a dump request are enough, in either order, if both are done. They
/// still count after any acts without a reset or a break that both sides notice.
pub fn asking_counts()
    ensures mode_first { (acts later : List ActContent) (mode : CommandContent)
        (answers others : List Outcome) → length answers ≡ length acts → Contains
        (CommandContent.Update ∷ CommandContent.UpdateBoard ∷ CommandContent.UpdateNice ∷ []) mode
        → AreCalm (map FaultyContent.Plain later) → IsAskedBy
        (acts ++ ActContent.Host mode ∷ ActContent.Host CommandContent.Dump ∷ later)
        (answers ++ Outcome.Done ∷ Outcome.Done ∷ others) }
    ensures dump_first { (acts later : List ActContent) (mode : CommandContent)
        (answers others : List Outcome) → length answers ≡ length acts → Contains
        (CommandContent.Update ∷ CommandContent.UpdateBoard ∷ CommandContent.UpdateNice ∷ []) mode
        → AreCalm (map FaultyContent.Plain later) → IsAskedBy
        (acts ++ ActContent.Host CommandContent.Dump ∷ ActContent.Host mode ∷ later)
        (answers ++ Outcome.Done ∷ Outcome.Done ∷ others) }
    ensures play { (acts later : List AnyAct) (mode : AnyCommand) →
        (mode ≡ Command.Update) ⊎ ((mode ≡ Command.UpdateBoard) ⊎ (mode ≡ Command.UpdateNice))
        → AreCalm (map (λ act. FaultyContent.Plain (act_content act)) later)
        → AskForPicture (acts ++ Act.Host mode ∷ Act.Host Command.Dump ∷ later) }
{}

/// A bound in numbers. The up line has room for 67 bytes and contains 5, the board has 2 messages
/// to send, and the down line contains 3 bytes. That is 5, 68 times 2 and 69 times 3: 348 steps.
///
/// A round is one sending and one byte in each direction.
pub fn bounds_in_numbers()
    ensures steps { (world : WorldView) → world.up.capacity ≡ 67 → length world.up.bytes ≡ 5
        → backlog world.board.state ≡ 2 → length world.down.bytes ≡ 3 → steps_left world ≡ 348 }
    ensures rounds { (rounds : ℕ) → HasRounds rounds (flat_map (λ round. round) (replicate rounds
        (ActContent.BoardSend ∷ ActContent.ToBoard 1 ∷ ActContent.ToHost 1 ∷ []))) }
    ensures done { done_count (Outcome.Done ∷ Outcome.Nothing ∷ Outcome.Done ∷ []) ≡ 2 }
{}

/// Exactly what a quiet world, a quiet state and a world at rest are, and which moves settle a
/// state.
pub fn what_is_quiet()
    ensures world { (world : WorldView) → IsQuietWorld world ↔ ((world.up.bytes ≡ [])
        × (world.down.bytes ≡ []) × (world.host.unread ≡ []) × (world.board.partial ≡ [])
        × (next_message world.board.state ≡ None)) }
    ensures state { (x : MachineState) →
        IsQuiet x ↔ ((x.up ≡ []) × (x.down ≡ []) × (pending_messages x.board ≡ [])) }
    ensures rested { (world : WorldView) → IsRestedWorld world ↔ ((world.up.bytes ≡ [])
        × (world.down.bytes ≡ []) × (next_message world.board.state ≡ None)) }
    ensures settled { (moves : List Move) (x : MachineState) → SettlesBy moves x
        ↔ (AllByRecursion IsSettlingMove moves
        × (length moves ≤ length x.up + 2 * backlog x.board + 3 * length x.down)
        × IsQuiet (after_moves x moves)) }
{}

/// Examples of what is shown in order: a pawn that was put on an empty square and removed again may
/// be seen twice, and not before what was there before it. A known picture shows one piece on each
/// square. What is shown at first is followed by what is shown after each move.
pub fn what_is_in_order()
    ensures seen { IsInOrderOf (Piece.WhitePawn ∷ Piece.WhitePawn ∷ Piece.Empty ∷ [])
        (Piece.Empty ∷ Piece.WhitePawn ∷ Piece.Empty ∷ []) }
    ensures turned { ¬ (IsInOrderOf (Piece.WhitePawn ∷ Piece.Empty ∷ [])
        (Piece.Empty ∷ Piece.WhitePawn ∷ [])) }
    ensures shown { (world : WorldView) (pieces : List Piece) (square : ℕ)
        → world.host.picture ≡ Some pieces
        → shown_in square (world ∷ []) ≡ piece_on pieces square ∷ [] }
    ensures stood { (world : WorldView) (square : ℕ)
        → stood_in square (world ∷ []) ≡ piece_on world.board.state.squares square ∷ [] }
    ensures moves { (square : ℕ) (x : MachineState) (move : Move) (moves : List Move)
        → shown_on square x (move ∷ moves)
        ≡ shown_on square x [] ++ shown_on square (after_move x move) moves }
{}

/// From each sound state, some takes of the board, sendings of the board and hears of the host lead
/// to a quiet one. There is at most one for each message under way, and three for each command and
/// fault under way. There are two for each reply, square and clock that the board has yet to report
/// in some mode.
///
/// Such moves keep the squares, the clock and the mode to come. The picture of a promised state is
/// its squares once everything is quiet.
pub fn quiet_is_reached()
    ensures reached { (x : MachineState) → IsSound x → (moves : List Move) × SettlesBy moves x }
    ensures squares { (x : MachineState) (moves : List Move) → AllByRecursion IsSettlingMove moves
        → (after_moves x moves).board.squares ≡ x.board.squares }
    ensures clock { (x : MachineState) (moves : List Move) → AllByRecursion IsSettlingMove moves
        → (after_moves x moves).board.clock ≡ x.board.clock }
    ensures mode { (x : MachineState) (moves : List Move) → AllByRecursion IsSettlingMove moves
        → coming_mode (after_moves x moves) ≡ coming_mode x }
    ensures picture { (x : MachineState) (moves : List Move) → IsSound x → IsPromised x
        → AllByRecursion IsSettlingMove moves → IsQuiet (after_moves x moves)
        → (after_moves x moves).picture ≡ Some x.board.squares }
{
    dgt_board::laws::bounded_backlog();
}

/// In whatever order and chunks the bytes are delivered and the board sends, both end: only a
/// limited number of these acts can be done.
pub fn settling_ends()
    ensures { (acts : List ActContent) (world after : WorldView) (answers : List Outcome) →
        IsWorld world → AllByRecursion IsSettling acts → Runs acts world answers after
        → done_count answers ≤ steps_left world }
{
    acts_keep();
    dgt_board::laws::bounded_backlog();
    dgt_command::laws::words_are_short();
    dgt_command::laws::parts_of_words();
}

/// The bytes may be delivered and the board may send in whatever order and chunks. If each side
/// moves again and again, both lines are empty and the board has nothing to send after a limited
/// number of rounds.
pub fn fair_rounds_rest()
    ensures { (rounds : ℕ) (acts : List ActContent) (world after : WorldView)
        (answers : List Outcome) → IsWorld world → IsShortIdentity world.board.state.identity
        → IsShortClock world.board.state.clock → HasRounds rounds acts
        → steps_left world < rounds → Runs acts world answers after → IsRestedWorld after }
{
    acts_keep();
    dgt_board::laws::bounded_backlog();
    dgt_board::laws::nothing_to_send();
    dgt_command::laws::words_are_short();
    dgt_command::laws::parts_of_words();
}

/// The pieces that a host shows on a square were there, in this order: it shows nothing that was
/// never there, and an earlier piece again only if that was there again, whatever breaks happen.
pub fn squares_are_shown_in_order()
    ensures { (x : MachineState) (moves : List Move) (square : ℕ) → x.picture ≡ None → x.up ≡ []
        → IsInOrderOf (shown_on square x moves) (stood_on square x moves) }
{}

/// The pieces that a host shows on a square, at first and after each act, were there, in this
/// order, whatever the acts are. The first world's host knows no picture, and nothing is under way
/// to it, as in a new world and after a break.
pub fn worlds_show_in_order()
    ensures { (acts : List ActContent) (world : WorldView) (answers : List Outcome)
        (worlds : List WorldView) (square : ℕ) → IsWorld world → world.host.picture ≡ None
        → world.host.unread ≡ [] → world.up.bytes ≡ [] → RunsThrough acts world answers worlds
        → IsInOrderOf (shown_in square worlds) (stood_in square worlds) }
{
    acts_are_moves();
}

/// A run passes through a list of worlds, of which the last is the world after it, whatever the
/// outcomes are. Worlds that acts pass through are those of a run.
pub fn runs_pass_worlds()
    ensures passes { (acts : List ActContent) (world after : WorldView) (answers : List Outcome) →
        Runs acts world answers after → (earlier : List WorldView)
        × RunsThrough acts world answers (earlier ++ after ∷ []) }
    ensures runs { (acts : List ActContent) (world : WorldView) (answers : List Outcome)
        (worlds : List WorldView) → RunsThrough acts world answers worlds →
        (earlier : List WorldView) × (after : WorldView) × (worlds ≡ earlier ++ after ∷ [])
        × Runs acts world answers after }
{}

/// Until a world is at rest, exactly one act is the next step of settling.
pub fn one_step_is_next()
    ensures one { (world : WorldView) (act other : ActContent) →
        IsNext world act → IsNext world other → act ≡ other }
    ensures some { (world : WorldView) → ((act : ActContent) → ¬ (IsNext world act)) →
        IsRestedWorld world }
    ensures none { (world : WorldView) (act : ActContent) →
        IsNext world act → ¬ (IsRestedWorld world) }
{}

/// What acts in order are, and that a world settles by such.
pub fn settling_is_in_order()
    ensures settles { (count : ℕ) (world after : WorldView) → SettlesIn count world after
        ↔ ((acts : List ActContent) × AllByRecursion IsSettling acts × (count ≡ length acts)
        × Runs acts world (replicate count Outcome.Done) after × AreInOrder acts world after) }
    ensures none { (world after : WorldView) → AreInOrder [] world after ↔ (after ≡ world) }
    ensures each { (act : ActContent) (acts : List ActContent) (world after : WorldView) →
        AreInOrder (act ∷ acts) world after ↔ (IsNext world act × ((between : WorldView)
        × Step act world Outcome.Done between × AreInOrder acts between after)) }
{}

/// Deliveries and sendings in any order and chunks are a round exactly if the board sends, takes a
/// byte and the host hears one. Rounds in a row, and any deliveries and sendings after them, are
/// rounds.
pub fn rounds_in_any_order()
    ensures round { (acts : List ActContent) → IsRound acts ↔ (AllByRecursion IsSettling acts
        × Contains acts ActContent.BoardSend
        × ((taken : ℕ) × (0 < taken) × Contains acts (ActContent.ToBoard taken))
        × ((heard : ℕ) × (0 < heard) × Contains acts (ActContent.ToHost heard))) }
    ensures none { (acts : List ActContent) → AllByRecursion IsSettling acts ↔ HasRounds 0 acts }
    ensures more { (rounds : ℕ) (acts : List ActContent) → HasRounds (suc rounds) acts
        ↔ ((round : List ActContent) × (later : List ActContent) × (acts ≡ round ++ later)
        × IsRound round × HasRounds rounds later) }
    ensures settling { (taken heard : ℕ) → AllByRecursion IsSettling (ActContent.BoardSend
        ∷ ActContent.ToBoard taken ∷ ActContent.ToHost heard ∷ []) }
{}

/// What is requested, promised and restarted. A restarted state is promised: what the board
/// receives before the requests is noise.
pub fn restarts_are_promised()
    ensures asked { (commands : List CommandContent) → IsAsked commands
        ↔ (Contains commands CommandContent.Dump
        × IsTrue (updates (last_mode Mode.Idle (filter_map command_mode commands)))) }
    ensures by { (Comes : MachineState → Bool) (asks : Mode → Bool) (x : MachineState) →
        IsPromisedBy (λ y. IsTrue (Comes y)) asks x
        ↔ (IsTrue (Comes x) × IsTrue (asks (coming_mode x))) }
    ensures noise { (x : MachineState) → IsRestarted x ↔ ((noise : List EventContent)
        × IsNoiseList noise × (x.down ≡ noise ++ map EventContent.Read commands_anew)) }
    ensures promised { (x : MachineState) → IsRestarted x → IsPromised x }
{}

/// The moves of an act that is done request what the act requests, and leave the squares that it
/// leaves.
pub fn moves_do_as_acts()
    ensures requests { (act : ActContent) (moves : List Move) → AreMovesOfAct act moves →
        flat_map requests moves ≡ act_requests Outcome.Done act }
    ensures squares { (act : AnyAct) (moves : List Move) (x : MachineState) →
        AreMovesOfAct (act_content act) moves → (after_moves x moves).board.squares
        ≡ squares_after x.board.squares (act ∷ []) }
    ensures host_break { (move : Move) → IsHostBreak move → requests move ≡ map Some commands_anew }
{}

/// What holds of acts that ran is exactly what holds of their outcomes, whatever these are. What
/// holds after faults holds after each run of a sane world.
pub fn what_ran_holds()
    ensures ran { (acts : List FaultyContent) (world after : WorldView)
        (holds : List Outcome → Bool) → IfRan acts world after (λ found. IsTrue (holds found))
        ↔ ((outcomes : List Outcome) →
        FaultyRuns acts world outcomes after → IsTrue (holds outcomes)) }
    ensures faults { (holds : List FaultyContent → WorldView → WorldView → List Outcome → Bool)
        (acts : List FaultyContent) (world after : WorldView) (outcomes : List Outcome) →
        AfterFaults (λ some old new found. IsTrue (holds some old new found)) → IsSane world →
        FaultyRuns acts world outcomes after → IsTrue (holds acts world after outcomes) }
{}

/// What the states are for which a world stands after acts: their mode to come and their promise
/// depend on what the acts requested.
pub fn what_stands_after()
    ensures step { (act : ActContent) (answer : Outcome) (x : MachineState) (after : WorldView) →
        StandsAfterStep act answer x after → (y : MachineState) × StandsFor after y
        × (coming_mode y ≡ mode_after (coming_mode x) (act_requests answer act)) }
    ensures run { (acts : List ActContent) (answers : List Outcome) (x : MachineState)
        (after : WorldView) → StandsAfterRun acts answers x after → IsAskedBy acts answers →
        (y : MachineState) × StandsFor after y × IsPromised y }
    ensures behind { (act : ActContent) (answer : Outcome) (world : WorldView) (x : MachineState)
        (after : WorldView) → StandsBehindAfter act answer world x after →
        (garbage : List ℕ) × (y : MachineState) × StandsBehind garbage after y
        × (coming_mode y ≡ mode_after (coming_mode x) (act_requests answer act))
        × (AwaitsWhatComes world x → AwaitsWhatComes after y) }
{}

/// `AskForPicture` is exactly what `IsAskedBy` requires of acts that are all done.
pub fn asking_is_exact()
    ensures { (acts : List AnyAct) → AskForPicture acts
        ↔ IsAskedBy (map act_content acts) (map (λ act. Outcome.Done) acts) }
{}

/// The outcome of each act, in the order in which `World::step` names them.
pub fn outcomes_of_acts()
    ensures too_many { (command : CommandContent) (world : WorldView) →
        (outcome (ActContent.Host command) world ≡ Outcome.TooMany)
        ↔ IsTrue (awaits_too_many world.host (requested_kind command)) }
    ensures commanded { (command : CommandContent) (world : WorldView) →
        (outcome (ActContent.Host command) world ≡ Outcome.Done)
        ↔ ((awaits_too_many world.host (requested_kind command) ≡ false)
        × (length world.down.bytes + length (command_encoding command) ≤ world.down.capacity)) }
    ensures no_room { (command : CommandContent) (world : WorldView) →
        outcome (ActContent.Host command) world ≢ Outcome.TooMany →
        outcome (ActContent.Host command) world ≢ Outcome.Done →
        outcome (ActContent.Host command) world ≡ Outcome.NoRoom }
    ensures nothing_sent { (world : WorldView) →
        (outcome ActContent.BoardSend world ≡ Outcome.Nothing)
        ↔ (next_message world.board.state ≡ None) }
    ensures sent { (world : WorldView) (message : Content) →
        next_message world.board.state ≡ Some message →
        ((outcome ActContent.BoardSend world ≡ Outcome.Done)
        ↔ (length world.up.bytes + length (encoding message) ≤ world.up.capacity)) }
    ensures no_room_up { (world : WorldView) (message : Content) →
        next_message world.board.state ≡ Some message →
        ((outcome ActContent.BoardSend world ≡ Outcome.NoRoom)
        ↔ (world.up.capacity < length world.up.bytes + length (encoding message))) }
    ensures nothing_taken { (count : ℕ) (world : WorldView) →
        (outcome (ActContent.ToBoard count) world ≡ Outcome.Nothing)
        ↔ ((count ≡ 0) ⊎ (length world.down.bytes ≡ 0)) }
    ensures taken { (count : ℕ) (world : WorldView) →
        (outcome (ActContent.ToBoard count) world ≡ Outcome.Done)
        ↔ ((0 < count) × (0 < length world.down.bytes)
        × (length world.board.state.owed < MAX_OWED)) }
    ensures busy { (count : ℕ) (world : WorldView) →
        (outcome (ActContent.ToBoard count) world ≡ Outcome.Busy)
        ↔ ((0 < count) × (0 < length world.down.bytes)
        × (MAX_OWED ≤ length world.board.state.owed)) }
    ensures nothing_heard { (count : ℕ) (world : WorldView) →
        (outcome (ActContent.ToHost count) world ≡ Outcome.Nothing)
        ↔ ((count ≡ 0) ⊎ (length world.up.bytes ≡ 0)) }
    ensures heard { (count : ℕ) (world : WorldView) →
        (outcome (ActContent.ToHost count) world ≡ Outcome.Done)
        ↔ ((0 < count) × (0 < length world.up.bytes)) }
    ensures always { (square : ℕ) (piece : Piece) (clock : ClockState) (world : WorldView) →
        All (λ act. outcome act world ≡ Outcome.Done) (ActContent.Change square piece
        ∷ ActContent.ClockRead clock ∷ ActContent.Break ∷ ActContent.HostBreak ∷ []) }
{}

/// The effect of each act that is done: the board, the host and both lines after it. An act that
/// isn't done has none.
pub fn what_acts_do()
    ensures step { (act : ActContent) (world after : WorldView) (answer : Outcome) →
        Step act world answer after ↔ ((answer ≡ outcome act world)
        × IfDone answer (Becomes act world after) (after ≡ world)) }
    ensures change { (square : ℕ) (piece : Piece) (world after : WorldView) →
        Becomes (ActContent.Change square piece) world after
        ↔ (after ≡ record world {
          board = record world.board {
            state = after_change world.board.state square piece;
          };
        }) }
    ensures clock { (clock : ClockState) (world after : WorldView) →
        Becomes (ActContent.ClockRead clock) world after
        ↔ (after ≡ record world {
          board = record world.board {
            state = after_hand_clock world.board.state clock;
          };
        }) }
    ensures host { (command : CommandContent) (world after : WorldView) →
        Becomes (ActContent.Host command) world after
        ↔ (EncodesCommand command (command_encoding command)
        × (after ≡ world_of world.board (host_awaiting world.host (requested_kind command)) world.up
        (line_holding (world.down.bytes ++ command_encoding command) world.down.capacity))) }
    ensures send { (world after : WorldView) → Becomes ActContent.BoardSend world after
        ↔ ((message : Content) × (next_message world.board.state ≡ Some message)
        × Encodes message (encoding message)
        × (after ≡ world_of (record world.board { state = after_sending world.board.state message })
        world.host (line_holding (world.up.bytes ++ encoding message) world.up.capacity)
        world.down)) }
    ensures take { (count : ℕ) (world after : WorldView) →
        Becomes (ActContent.ToBoard count) world after
        ↔ ((moved : ℕ) × (board : BoardView) × (0 < moved) × (moved ≤ count)
        × (moved ≤ length world.down.bytes)
        × HasTaken world.board (take moved world.down.bytes) board
        × ((fewer : ℕ) → 0 < fewer → fewer < moved →
        (between : BoardView) × HasTaken world.board (take fewer world.down.bytes) between
        × (is_full between.state ≡ false))
        × ((moved ≡ count) ⊎ ((moved ≡ length world.down.bytes)
        ⊎ IsTrue (is_full board.state)))
        × (after ≡ world_of board world.host world.up
        (line_holding (drop moved world.down.bytes) world.down.capacity))) }
    ensures hear { (count : ℕ) (world after : WorldView) →
        Becomes (ActContent.ToHost count) world after
        ↔ (after ≡ world_of world.board (host_after world.host (take count world.up.bytes))
        (line_holding (drop count world.up.bytes) world.up.capacity) world.down) }
    ensures lost { (world after : WorldView) → Becomes ActContent.Break world after
        ↔ (after ≡ world_of (view_after_line_lost world.board) new_host
        (line_holding [] world.up.capacity) (line_holding [] world.down.capacity)) }
    ensures host_lost { (world after : WorldView) → Becomes ActContent.HostBreak world after
        ↔ (after ≡ world_of world.board (host_awaiting new_host (Some Kind.Dump))
        (line_holding [] world.up.capacity) (line_holding restart_bytes world.down.capacity)) }
{}

/// What a sound and an exact state are, and the states for which a world stands.
pub fn what_worlds_stand_for()
    ensures sound { (x : MachineState) → IsSound x ↔ ((length x.board.squares ≡ 64)
        × (length x.board.reported_squares ≡ 64)
        × IsUnknownOr (picture_after_all x.picture x.up) (Some x.board.reported_squares)
        × (IsTrue (follows_clock x.board.mode) → IsTrue x.board.times_owed
        ⊎ (x.board.reported_clock ≡ Some x.board.clock))
        × IsUnknownOr (clock_after_all x.host_clock x.up) x.board.reported_clock
        × IsSubsequence x.awaited (coming_kinds x)) }
    ensures exact { (x : MachineState) → IsExact x ↔ (IsSound x
        × (clock_after_all x.host_clock x.up ≡ x.board.reported_clock)
        × (x.awaited ≡ coming_kinds x)) }
    ensures encoded { (said : List Content) (bytes : List ℕ) → AreEncoded said bytes
        ↔ (AllByRecursion IsMessage said × (bytes ≡ flat_map encoding said)) }
    ensures stands { (world : WorldView) (x : MachineState) → StandsFor world x ↔ (IsSound x
        × (world.board.state ≡ x.board) × (world.host.picture ≡ x.picture)
        × (world.host.clock ≡ x.host_clock) × (world.host.awaited ≡ x.awaited)
        × AreEncoded x.up (world.host.unread ++ world.up.bytes)
        × Divides (world.board.partial ++ world.down.bytes) x.down []
        × IsPartial world.board.partial) }
    ensures exact_world { (world : WorldView) →
        IsExactWorld world ↔ ((x : MachineState) × StandsFor world x × IsExact x) }
    ensures world { (world : WorldView) → IsWorld world ↔ (((x : MachineState) × StandsFor world x)
        × (MIN_UP ≤ world.up.capacity) × (MIN_DOWN ≤ world.down.capacity)) }
{}

/// The kinds of messages to come. A request adds its own, hearing takes the first one away, and
/// what the board takes and sends leaves them. Kinds are among others in their order if the first
/// one is somewhere there, and the rest after it.
pub fn kinds_to_come()
    ensures asked { (x : MachineState) (command : CommandContent) →
        coming_kinds (after_move x (Move.Ask command))
        ≡ coming_kinds x ++ option_to_list (requested_kind command) }
    ensures heard { (x : MachineState) (message : Content) (later : List Content) →
        x.up ≡ message ∷ later → coming_kinds x
        ≡ option_to_list (answered_kind message) ++ coming_kinds (after_move x Move.Hear) }
    ensures taken { (x : MachineState) → coming_kinds (after_move x Move.Take) ≡ coming_kinds x }
    ensures sent { (x : MachineState) (move : Move) → IsSending move →
        coming_kinds (after_move x move) ≡ coming_kinds x }
    ensures in_order { (kind : Kind) (others kinds : List Kind) →
        IsSubsequence (kind ∷ others) kinds ↔ ((before : List Kind) × (later : List Kind)
        × (kinds ≡ before ++ kind ∷ later) × IsSubsequence others later) }
{}
