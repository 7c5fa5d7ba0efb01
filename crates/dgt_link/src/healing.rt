//! How the picture and the clock of a host become right again after faults of the lines and of the
//! board's power. Each function does nothing at run time: its contract states the facts.

ghost use Rattle.std.specs.Prelude.{◌≡◌, ◌≢◌, ◌⊎◌, ◌↔◌, ◌≤◌, ◌+◌, ℕ, Bool, List, [], ◌∷◌, ◌++◌, length, Option, Some, None};
ghost use Rattle.std.specs.Prelude.{Contains, IsSome, IsTrue, false, filter_map, flat_map, true};
ghost use Rattle.dgt_values.specs.declared.kinds.Kind.{Kind};
ghost use Rattle.dgt_values.specs.declared.pieces.Piece.{Piece};
ghost use Rattle.std.specs.List.{AllByRecursion};
ghost use Rattle.dgt_command.specs.Content.{CommandContent};
ghost use Rattle.dgt_command.specs.Encoding.{AreBytes};
ghost use Rattle.dgt_command.specs.Words.{Divides, IsPartial};
ghost use Rattle.dgt_decode.specs.Grammar.{unfinished_message};
ghost use Rattle.dgt_board.specs.State.{command_mode, follows_clock, updates};
ghost use Rattle.dgt_board.specs.declared.modes.Mode.{Mode};
ghost use Rattle.dgt_link.specs.Machine.{IsHostBreak, IsSending, MachineState, Move, after_moves, state_of_board};
ghost use Rattle.dgt_board.specs.View.{view_after_line_lost};
ghost use Rattle.dgt_host.specs.Host.{host_awaiting, restart_bytes, without_awaited};
ghost use Rattle.dgt_link.specs.Promise.{IsAsked, last_mode};
ghost use Rattle.dgt_link.specs.Reported.{IsReportedBy, ReportedBefore, WasReported, sent_by, sent_by_all};
ghost use Rattle.dgt_message.specs.Content.{Content, IsMessage};
ghost use Rattle.dgt_message.specs.Encoding.{encoding};
ghost use Rattle.dgt_message.specs.Picture.{picture_after_all};
ghost use Rattle.dgt_board.specs.Sending.{next_message};
ghost use Rattle.dgt_link.specs.History.{IsInOrderOf, RunsThrough, shown_in, shown_on, stood_in, stood_on};
ghost use Rattle.dgt_link.specs.Act.{ActContent};
ghost use Rattle.dgt_link.specs.Sound.{IsSound, IsUnknownOr};
ghost use Rattle.dgt_link.specs.Stands.{AreMovesOfRun, IsWorld};
ghost use Rattle.dgt_link.specs.declared.acts.Outcome.{Outcome};
ghost use Rattle.dgt_link.specs.Step.{IfDone, Runs, Step};
ghost use Rattle.dgt_link.specs.Settling.{SettlesIn};
ghost use Rattle.dgt_link.specs.View.{IsQuietWorld, WorldView, line_holding, world_of};
ghost use Rattle.dgt_link.specs.Clocks.{AreClockCalm, IsClockFollowing, IsClockPromisedWorld, stops_clock};
ghost use Rattle.dgt_link.specs.Faults.{AreCalm, AreFaultless, FaultyBecomes, FaultyContent, FaultyRuns, FaultyStep, begins_anew, faulty_outcome, is_break, is_fault, loses_step, sends, stops};
ghost use Rattle.dgt_link.specs.Healing.{AfterFaults, Counted, IsClockHealing, IsFaultyWorld, IsFollowing, IsHealing, IsInStep, IsInStepBy, IsInTurn, IsInTurnWorld, IsPromisedWorld, IsRestedWorld, IsSane, StandsBehind, StandsBehindAfter, StandsWith, counted_by};

use crate::{MIN_DOWN, MIN_UP, laws};
use dgt_host::RESTART_LENGTH;

/// Consider any act but a break in a world that stands, after some garbage, for a state. The world
/// after the act stands, after some garbage, for the state to which the act's moves lead. Hearing
/// garbage is not a move.
pub fn acts_behind_garbage()
    ensures { (act : ActContent) (garbage : List ℕ) (world : WorldView) (answer : Outcome)
        (after : WorldView) (x : MachineState) → is_break act ≡ false
        → StandsBehind garbage world x → Step act world answer after
        → StandsBehindAfter act answer world x after }
{
    laws::grammars();
}

/// A world without faults is sane, in step and has room. Whatever failed, a world is in step if its
/// down line is empty and its board has no part of a command. A world is sane if its board is
/// well-formed.
pub fn worlds_are_in_step()
    ensures sane { (world : WorldView) → let board = world.board.state in
        length board.squares ≡ 64 → length board.reported_squares ≡ 64
        → (IsTrue (follows_clock board.mode)
        → IsTrue board.times_owed ⊎ (board.reported_clock ≡ Some board.clock))
        → IsPartial world.board.partial → AreBytes world.down.bytes → IsSane world }
    ensures empty { (world : WorldView) → IsSane world → world.down.bytes ≡ []
        → world.board.partial ≡ [] → IsInStep world }
    ensures in_step { (world : WorldView) → IsWorld world → IsInStep world }
    ensures faulty { (world : WorldView) → IsWorld world → IsFaultyWorld world }
{}

/// Each act and each fault keeps a world sane, and keeps the room of its lines.
pub fn faults_keep()
    ensures { (act : FaultyContent) (world after : WorldView) (answer : Outcome) →
        IsFaultyWorld world → FaultyStep act world answer after → IsFaultyWorld after }
{
    laws::grammars();
}

/// After any list of acts and faults a sane world is sane. Its host's picture is the board's
/// position once the world is quiet, on two conditions. The host started over after the last fault,
/// or only the up line failed and a dump was requested after that. The last command since then that
/// sets a mode asks for updates. The same is true of the clock if a reading was requested.
pub fn faults_heal()
    ensures sane { AfterFaults (λ acts world after answers. IsSane after) }
    ensures in_step { AfterFaults (λ acts world after answers.
        IsInStepBy acts answers → IsInStep after) }
    ensures heals { AfterFaults (λ acts world after answers.
        IsHealing (counted_by false acts answers) → IsQuietWorld after
        → after.host.picture ≡ Some after.board.state.squares) }
    ensures promised { AfterFaults (λ acts world after answers.
        IsHealing (counted_by false acts answers) → IsPromisedWorld after) }
    ensures dump_promised { AfterFaults (λ acts world after answers.
        IsInStep world → IsHealing (counted_by true acts answers) → IsPromisedWorld after) }
    ensures dump_heals { AfterFaults (λ acts world after answers.
        IsInStep world → IsHealing (counted_by true acts answers) → IsQuietWorld after
        → after.host.picture ≡ Some after.board.state.squares) }
    ensures awaited { AfterFaults (λ acts world after answers.
        IsInTurn (counted_by false acts answers) → IsQuietWorld after → after.host.awaited ≡ []) }
    ensures clock_promised { AfterFaults (λ acts world after answers.
        IsClockHealing (counted_by false acts answers) → IsClockPromisedWorld after) }
    ensures reading_promised { AfterFaults (λ acts world after answers.
        IsInStep world → IsClockHealing (counted_by true acts answers)
        → IsClockPromisedWorld after) }
{
    laws::grammars();
}

/// A promised world stays promised while it settles, and is quiet once it rests. Then its picture
/// is the board's position.
pub fn promised_worlds_heal()
    ensures kept { (count : ℕ) (world after : WorldView) → SettlesIn count world after
        → IsPromisedWorld world → IsPromisedWorld after }
    ensures quiet { (world : WorldView) → IsPromisedWorld world → IsRestedWorld world
        → unfinished_message world.host.unread ≡ world.host.unread → IsQuietWorld world }
    ensures picture { (world : WorldView) → IsPromisedWorld world → IsQuietWorld world
        → world.host.picture ≡ Some world.board.state.squares }
{
    acts_behind_garbage();
    laws::grammars();
}

/// The effect of one act on what is promised. Starting over promises that the picture heals. A
/// fault of the up line leaves a world in step and following, and a dump that is then requested
/// promises that it heals. Only a fault, a break that both sides notice, and a reset end these
/// promises.
pub fn steps_heal()
    ensures anew { (act : FaultyContent) (world after : WorldView) → begins_anew act ≡ true
        → IsSane world → FaultyStep act world Outcome.Done after → IsPromisedWorld after }
    ensures in_step { (act : FaultyContent) (world after : WorldView) (answer : Outcome) →
        loses_step act ≡ false → IsSane world → IsInStep world
        → FaultyStep act world answer after → IsInStep after }
    ensures asked { (command : CommandContent) (mode : Mode) (world after : WorldView) →
        command_mode command ≡ Some mode → IsTrue (updates mode) → IsInStep world
        → FaultyStep (sends command) world Outcome.Done after → IsFollowing after }
    ensures following { (act : FaultyContent) (world after : WorldView) (answer : Outcome) →
        loses_step act ≡ false → stops act ≡ false → IsSane world → IsFollowing world
        → FaultyStep act world answer after → IsFollowing after }
    ensures dump { (world after : WorldView) → IsFollowing world
        → FaultyStep (sends CommandContent.Dump) world Outcome.Done after
        → IsPromisedWorld after }
    ensures kept { (act : FaultyContent) (world after : WorldView) (answer : Outcome) →
        is_fault act ≡ false → stops act ≡ false → IsSane world → IsPromisedWorld world
        → FaultyStep act world answer after → IsPromisedWorld after }
{
    acts_behind_garbage();
    laws::grammars();
}

/// The theorem without counting. Whatever happened and failed before: once the host has started
/// over, its picture is the board's position whenever the world is quiet. That holds as long as
/// there is no fault, no reset and no break that both sides notice. If only the up line failed and
/// the board's mode to come asks for updates, a dump is enough.
///
/// The state before may be any in which the board is sound: its history doesn't matter.
pub fn calm_heals()
    ensures any_state { (later : List FaultyContent) (world after : WorldView)
        (answers : List Outcome) → IsSane world →
        length world.down.bytes + RESTART_LENGTH ≤ world.down.capacity → AreCalm later →
        FaultyRuns (FaultyContent.Restart ∷ later) world answers after → IsQuietWorld after
        → after.host.picture ≡ Some after.board.state.squares }
    ensures restart { (acts later : List FaultyContent) (act : FaultyContent)
        (world between begun after : WorldView) (answers others : List Outcome) →
        IsSane world → FaultyRuns acts world answers between
        → begins_anew act ≡ true → FaultyStep act between Outcome.Done begun
        → AreCalm later → FaultyRuns later begun others after → IsQuietWorld after
        → after.host.picture ≡ Some after.board.state.squares }
    ensures dump { (acts later : List FaultyContent) (world between begun after : WorldView)
        (answers others : List Outcome) →
        AllByRecursion (λ act. (loses_step act ≡ false) × (stops act ≡ false)) acts
        → IsSane world → IsFollowing world → FaultyRuns acts world answers between
        → FaultyStep (sends CommandContent.Dump) between Outcome.Done begun
        → AreCalm later → FaultyRuns later begun others after → IsQuietWorld after
        → after.host.picture ≡ Some after.board.state.squares }
{
    faults_heal();
    promised_worlds_heal();
    steps_heal();
}

/// The effect of one act on the host's clock, whatever failed before, in a world in step with a
/// mode to come that follows the clock. A requested reading promises the clock. So does the mode
/// itself if the board has reported no reading since it was made or lost the line or its power.
/// Only a fault, a break, a restart, a reset and a mode that doesn't follow the clock end that.
/// When the world is quiet, the host's clock is the board's.
pub fn clocks_heal()
    ensures asked { (command : CommandContent) (mode : Mode) (world after : WorldView) →
        command_mode command ≡ Some mode → IsTrue (follows_clock mode) → IsInStep world
        → FaultyStep (sends command) world Outcome.Done after → IsClockFollowing after }
    ensures owed { (command : CommandContent) (mode : Mode) (world after : WorldView) →
        command_mode command ≡ Some mode → IsTrue (follows_clock mode)
        → world.board.state.reported_clock ≡ None → IsInStep world
        → FaultyStep (sends command) world Outcome.Done after → IsClockPromisedWorld after }
    ensures following { (act : FaultyContent) (world after : WorldView) (answer : Outcome) →
        loses_step act ≡ false → stops_clock act ≡ false → IsClockFollowing world
        → FaultyStep act world answer after → IsClockFollowing after }
    ensures reading { (world after : WorldView) → IsClockFollowing world
        → FaultyStep (sends CommandContent.Clock) world Outcome.Done after
        → IsClockPromisedWorld after }
    ensures kept { (act : FaultyContent) (world after : WorldView) (answer : Outcome) →
        is_fault act ≡ false → stops_clock act ≡ false → IsClockPromisedWorld world
        → FaultyStep act world answer after → IsClockPromisedWorld after }
    ensures settled { (count : ℕ) (world after : WorldView) → SettlesIn count world after
        → IsClockPromisedWorld world → IsClockPromisedWorld after }
    ensures kept_by_all { (acts : List FaultyContent) (world after : WorldView)
        (answers : List Outcome) → AreClockCalm acts → IsClockPromisedWorld world
        → FaultyRuns acts world answers after → IsClockPromisedWorld after }
    ensures clock { (world : WorldView) → IsClockPromisedWorld world → IsQuietWorld world
        → world.host.clock ≡ Some world.board.state.clock }
    ensures rested { (world : WorldView) → IsClockPromisedWorld world → IsRestedWorld world
        → unfinished_message world.host.unread ≡ world.host.unread
        → world.host.clock ≡ Some world.board.state.clock }
{
    acts_behind_garbage();
    laws::grammars();
}

/// When each awaited reply is yet to be heard: in a world without faults, in any world once the
/// host has started over, and in a world in step once it has given up. Only a fault ends that. At
/// rest nothing is then awaited.
pub fn awaited_replies_come()
    ensures world { (world : WorldView) → IsWorld world → IsInTurnWorld world }
    ensures anew { (act : FaultyContent) (world after : WorldView) → begins_anew act ≡ true
        → IsSane world → FaultyStep act world Outcome.Done after → IsInTurnWorld after }
    ensures kept { (act : FaultyContent) (world after : WorldView) (answer : Outcome) →
        is_fault act ≡ false → IsSane world → IsInTurnWorld world
        → FaultyStep act world answer after → IsInTurnWorld after }
    ensures given_up { (world after : WorldView) (answer : Outcome) → IsInStep world
        → FaultyStep FaultyContent.GiveUp world answer after → IsInTurnWorld after }
    ensures counted { AfterFaults (λ acts world after answers.
        IsInTurn (counted_by false acts answers) → IsInTurnWorld after) }
    ensures settled { (count : ℕ) (world after : WorldView) → SettlesIn count world after
        → IsInTurnWorld world → IsInTurnWorld after }
    ensures rested { (world : WorldView) → IsInTurnWorld world → IsRestedWorld world
        → unfinished_message world.host.unread ≡ world.host.unread → world.host.awaited ≡ [] }
    ensures quiet { (world : WorldView) → IsInTurnWorld world → IsQuietWorld world
        → world.host.awaited ≡ [] }
{
    acts_behind_garbage();
    laws::grammars();
}

/// Between the faults and quiet. Any world in step stands, after some garbage, for a state that
/// begins without a picture. Once that state knows a picture, from a dump that the board has sent
/// since then, the garbage has no effect any more. Then the host's picture is what the board had
/// reported when it sent the last message that was heard. The messages under way update it to what
/// the board has reported by now.
pub fn pictures_were_reported()
    ensures moves { (x : MachineState) (moves : List Move) → IsSound x → x.up ≡ []
        → AllByRecursion (λ move. (move ≢ Move.Break) × (¬ (IsHostBreak move))) moves
        → WasReported x moves }
    ensures acts { (acts : List ActContent) (world after : WorldView) (answers : List Outcome) →
        AllByRecursion (λ act. is_break act ≡ false) acts → IsInStep world
        → Runs acts world answers after → IsReportedBy acts answers world after }
    ensures known { (garbage : List ℕ) (world : WorldView) (x : MachineState) →
        StandsBehind garbage world x → IsSome x.picture → (world.host.picture ≡ x.picture)
        × (picture_after_all world.host.picture x.up ≡ Some world.board.state.reported_squares) }
{
    acts_behind_garbage();
}

/// The meaning of a reported picture: a state that knows nothing and has nothing under way, and the
/// moves from there. Moves that send something put it under way, and others send nothing.
pub fn what_was_reported()
    ensures reported { (acts : List ActContent) (answers : List Outcome)
        (world after : WorldView) → IsReportedBy acts answers world after
        ↔ ((start : MachineState) × (garbage : List ℕ) × (moves : List Move)
        × StandsBehind (world.host.unread ++ world.up.bytes) world start
        × (start.picture ≡ None) × (start.up ≡ []) × AreMovesOfRun acts answers moves
        × StandsBehind garbage after (after_moves start moves) × WasReported start moves
        × ((square : ℕ) →
        IsInOrderOf (shown_on square start moves) (stood_on square start moves))) }
    ensures before { (x : MachineState) (moves : List Move) (seen : Option (List Piece))
        (left : List Content) → ReportedBefore x moves seen left
        ↔ ((earlier : List Move) × (later : List Move) × (moves ≡ earlier ++ later)
        × (sent_by_all (after_moves x earlier) later ≡ left)
        × IsUnknownOr seen (Some (after_moves x earlier).board.reported_squares)) }
    ensures at_once { (x : MachineState) → WasReported x []
        → IsUnknownOr x.picture (Some x.board.reported_squares) }
    ensures heard { (x : MachineState) → WasReported x [] → x.up ≡ [] }
    ensures sent { (x : MachineState) (moves : List Move) → AllByRecursion IsSending moves
        → (after_moves x moves).up ≡ x.up ++ sent_by_all x moves }
    ensures silent { (x : MachineState) (move : Move) → ¬ (IsSending move) → sent_by x move ≡ [] }
{}

/// After faults, in a world in step, let the board send a dump, and let no fault, restart or break
/// follow. Whenever nothing is under way to the host, its picture is then what the board has
/// reported. From the first such moment on, the pieces that it shows on a square were there on the
/// board, in this order.
pub fn dumps_are_shown()
    ensures picture { (acts : List ActContent) (world after : WorldView)
        (answers : List Outcome) → AllByRecursion (λ act. is_break act ≡ false) acts
        → IsInStep world
        → next_message world.board.state ≡ Some (Content.dump world.board.state.squares)
        → Runs (ActContent.BoardSend ∷ acts) world (Outcome.Done ∷ answers) after
        → after.host.unread ≡ [] → after.up.bytes ≡ []
        → after.host.picture ≡ Some after.board.state.reported_squares }
    ensures in_order { (acts : List ActContent) (world : WorldView) (answers : List Outcome)
        (earlier : List WorldView) (first : WorldView) (later : List WorldView) (square : ℕ)
        → AllByRecursion (λ act. is_break act ≡ false) acts → IsInStep world
        → next_message world.board.state ≡ Some (Content.dump world.board.state.squares)
        → RunsThrough (ActContent.BoardSend ∷ acts) world (Outcome.Done ∷ answers)
        (world ∷ (earlier ++ first ∷ later)) → first.host.unread ≡ [] → first.up.bytes ≡ []
        → IsInOrderOf (shown_in square (first ∷ later))
        (stood_in square (world ∷ (earlier ++ first ∷ later))) }
{
    acts_behind_garbage();
    laws::grammars();
}

/// Facts about the terms of the laws. An act by which the host starts over counts if it is done,
/// whatever happened and failed before. It still counts after any acts without a fault, a reset or
/// a break that both sides notice.
///
/// From then on the host's awaited replies are in turn until a fault, and the board is in step
/// until a fault of the down line or of its power. After a break that both sides notice, both are
/// true.
pub fn beginnings_count()
    ensures picture { (acts later : List FaultyContent) (act : FaultyContent)
        (answers others : List Outcome) → length answers ≡ length acts → begins_anew act ≡ true
        → AreCalm later → IsHealing
        (counted_by false (acts ++ act ∷ later) (answers ++ Outcome.Done ∷ others)) }
    ensures awaited { (acts later : List FaultyContent) (act : FaultyContent)
        (answers others : List Outcome) → length answers ≡ length acts
        → (begins_anew act ≡ true) ⊎ (act ≡ FaultyContent.Plain ActContent.Break)
        → AreFaultless later → IsInTurn
        (counted_by false (acts ++ act ∷ later) (answers ++ Outcome.Done ∷ others)) }
    ensures in_step { (acts later : List FaultyContent) (act : FaultyContent)
        (answers others : List Outcome) → length answers ≡ length acts
        → (begins_anew act ≡ true) ⊎ (act ≡ FaultyContent.Plain ActContent.Break)
        → AllByRecursion (λ act. loses_step act ≡ false) later
        → IsInStepBy (acts ++ act ∷ later) (answers ++ Outcome.Done ∷ others) }
    ensures clock { (acts later : List FaultyContent) (act : FaultyContent)
        (mode : CommandContent) (answers others : List Outcome) → length answers ≡ length acts
        → begins_anew act ≡ true
        → Contains (CommandContent.Update ∷ CommandContent.UpdateNice ∷ []) mode
        → AreClockCalm later → IsClockHealing (counted_by false
        (acts ++ act ∷ sends mode ∷ sends CommandContent.Clock ∷ later)
        (answers ++ Outcome.Done ∷ Outcome.Done ∷ Outcome.Done ∷ others)) }
{}

/// In a world in step the bytes under way to the host may be replaced. A mode command from before
/// that counts, and so does a dump or a reading that is requested afterwards. The awaited replies
/// are in turn again once the host has given up, until the next fault.
pub fn requests_count()
    ensures awaited { (later : List FaultyContent) (answer : Outcome) (others : List Outcome)
        → AreFaultless later
        → IsInTurn (counted_by true (FaultyContent.GiveUp ∷ later) (answer ∷ others)) }
    ensures picture { (mode : CommandContent) (bytes : List ℕ) (later : List FaultyContent)
        (answer : Outcome) (others : List Outcome) → Contains
        (CommandContent.Update ∷ CommandContent.UpdateBoard ∷ CommandContent.UpdateNice ∷ []) mode
        → AreCalm later → IsHealing (counted_by true
        (sends mode ∷ FaultyContent.GarbleUp bytes ∷ sends CommandContent.Dump ∷ later)
        (Outcome.Done ∷ answer ∷ Outcome.Done ∷ others)) }
    ensures clock { (mode : CommandContent) (bytes : List ℕ) (later : List FaultyContent)
        (answer : Outcome) (others : List Outcome)
        → Contains (CommandContent.Update ∷ CommandContent.UpdateNice ∷ []) mode
        → AreClockCalm later → IsClockHealing (counted_by true
        (sends mode ∷ FaultyContent.GarbleUp bytes ∷ sends CommandContent.Clock ∷ later)
        (Outcome.Done ∷ answer ∷ Outcome.Done ∷ others)) }
{}

/// Which acts are of which kind.
pub fn kinds_of_acts()
    ensures fault { (act : FaultyContent) → (is_fault act ≡ true)
        ↔ (((bytes : List ℕ) × (act ≡ FaultyContent.GarbleUp bytes))
        ⊎ (((bytes : List ℕ) × (act ≡ FaultyContent.GarbleDown bytes))
        ⊎ (act ≡ FaultyContent.BoardLost))) }
    ensures loses_step { (act : FaultyContent) → (loses_step act ≡ true)
        ↔ (((bytes : List ℕ) × (act ≡ FaultyContent.GarbleDown bytes))
        ⊎ (act ≡ FaultyContent.BoardLost)) }
    ensures stops { (act : FaultyContent) → (stops act ≡ true)
        ↔ ((act ≡ sends CommandContent.Reset) ⊎ (act ≡ FaultyContent.Plain ActContent.Break)) }
    ensures stops_clock { (act : FaultyContent) → (stops_clock act ≡ true)
        ↔ Contains (sends CommandContent.Reset ∷ sends CommandContent.UpdateBoard
        ∷ FaultyContent.Plain ActContent.Break ∷ FaultyContent.Plain ActContent.HostBreak
        ∷ FaultyContent.Restart ∷ []) act }
    ensures begins_anew { (act : FaultyContent) → (begins_anew act ≡ true)
        ↔ ((act ≡ FaultyContent.Restart) ⊎ (act ≡ FaultyContent.Plain ActContent.HostBreak)) }
    ensures breaks { (act : ActContent) → (is_break act ≡ true)
        ↔ ((act ≡ ActContent.Break) ⊎ (act ≡ ActContent.HostBreak)) }
    ensures calm { (acts : List FaultyContent) → ((act : FaultyContent) → Contains acts act
        → (is_fault act ≡ false) × (stops act ≡ false)) → AreCalm acts }
    ensures clock_calm { (acts : List FaultyContent) → ((act : FaultyContent) → Contains acts act
        → (is_fault act ≡ false) × (stops_clock act ≡ false)) → AreClockCalm acts }
    ensures faultless { (acts : List FaultyContent) → ((act : FaultyContent) → Contains acts act
        → is_fault act ≡ false) → AreFaultless acts }
{}

/// The outcome and the effect of each fault: the board, the host and both lines after it. A fault
/// that isn't done is `NoRoom`.
pub fn what_faults_do()
    ensures step { (act : FaultyContent) (world after : WorldView) (answer : Outcome) →
        FaultyStep act world answer after ↔ ((answer ≡ faulty_outcome act world)
        × IfDone answer (FaultyBecomes act world after) (after ≡ world)) }
    ensures plain { (act : ActContent) (world after : WorldView) (answer : Outcome) →
        FaultyStep (FaultyContent.Plain act) world answer after ↔ Step act world answer after }
    ensures up_done { (bytes : List ℕ) (world : WorldView) →
        (faulty_outcome (FaultyContent.GarbleUp bytes) world ≡ Outcome.Done)
        ↔ (length bytes ≤ world.up.capacity) }
    ensures up { (bytes : List ℕ) (world after : WorldView) →
        FaultyBecomes (FaultyContent.GarbleUp bytes) world after
        ↔ (after ≡ world_of world.board world.host (line_holding bytes world.up.capacity)
        world.down) }
    ensures down_done { (bytes : List ℕ) (world : WorldView) →
        (faulty_outcome (FaultyContent.GarbleDown bytes) world ≡ Outcome.Done)
        ↔ (length bytes ≤ world.down.capacity) }
    ensures down { (bytes : List ℕ) (world after : WorldView) →
        FaultyBecomes (FaultyContent.GarbleDown bytes) world after
        ↔ (AreBytes bytes × (after ≡ world_of world.board world.host world.up
        (line_holding bytes world.down.capacity))) }
    ensures lost { (world after : WorldView) (answer : Outcome) →
        FaultyStep FaultyContent.BoardLost world answer after ↔ ((answer ≡ Outcome.Done)
        × (after ≡ world_of (view_after_line_lost world.board) world.host world.up world.down)) }
    ensures restart_done { (world : WorldView) →
        (faulty_outcome FaultyContent.Restart world ≡ Outcome.Done)
        ↔ (length world.down.bytes + length restart_bytes ≤ world.down.capacity) }
    ensures restart { (world after : WorldView) → FaultyBecomes FaultyContent.Restart world after
        ↔ (after ≡ world_of world.board
        (host_awaiting (without_awaited world.host) (Some Kind.Dump)) world.up
        (line_holding (world.down.bytes ++ restart_bytes) world.down.capacity)) }
    ensures give_up { (world after : WorldView) (answer : Outcome) →
        FaultyStep FaultyContent.GiveUp world answer after ↔ ((answer ≡ Outcome.Done)
        × (after ≡ world_of world.board (without_awaited world.host) world.up world.down)) }
    ensures no_room { (act : FaultyContent) (world : WorldView) →
        ((plain : ActContent) → act ≢ FaultyContent.Plain plain) →
        faulty_outcome act world ≢ Outcome.Done → faulty_outcome act world ≡ Outcome.NoRoom }
{}

/// Exactly which counted commands heal, what a sane world is, and when a world stands, after some
/// garbage, for a state.
pub fn what_heals()
    ensures healing { (c : Counted) → IsHealing c ↔ (IsTrue c.in_step × IsAsked c.asked) }
    ensures clock_healing { (c : Counted) → IsClockHealing c ↔ (IsTrue c.in_step
        × Contains c.asked CommandContent.Clock
        × IsTrue (follows_clock (last_mode Mode.Idle (filter_map command_mode c.asked)))) }
    ensures in_turn { (c : Counted) → IsInTurn c ↔ (IsTrue c.in_step × IsTrue c.in_turn) }
    ensures sane { (world : WorldView) → IsSane world ↔ (IsSound (state_of_board world.board.state)
        × IsPartial world.board.partial × AreBytes world.down.bytes) }
    ensures faulty { (world : WorldView) → IsFaultyWorld world ↔ (IsSane world
        × (MIN_UP ≤ world.up.capacity) × (MIN_DOWN ≤ world.down.capacity)) }
    ensures behind { (garbage : List ℕ) (world : WorldView) (x : MachineState) →
        StandsBehind garbage world x ↔ (IsSound x × (world.board.state ≡ x.board)
        × IsUnknownOr x.picture world.host.picture × IsUnknownOr x.host_clock world.host.clock
        × ((garbage ≡ []) ⊎ ((x.picture ≡ None) × (x.host_clock ≡ None)))
        × AllByRecursion IsMessage x.up
        × (world.host.unread ++ world.up.bytes ≡ garbage ++ flat_map encoding x.up)
        × Divides (world.board.partial ++ world.down.bytes) x.down []
        × IsPartial world.board.partial) }
    ensures with { (holds : MachineState → Bool) (world : WorldView) →
        StandsWith (λ x. IsTrue (holds x)) world
        ↔ ((garbage : List ℕ) × (x : MachineState) × StandsBehind garbage world x
        × IsTrue (holds x)) }
{}
