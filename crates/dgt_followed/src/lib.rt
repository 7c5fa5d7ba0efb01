//! A DGT board and a follower on lines that lose and alter bytes: how the follower's requests make
//! its picture and its clock right again.
//!
//! Each function does nothing at run time: its contract states the facts. [`asking_is_acts`] says
//! that each call of [`Follower::ask`](dgt_follow::Follower::ask) is a list of acts of a
//! [`FaultyWorld`](dgt_link::FaultyWorld). [`askings_heal`] says how many requests after the last
//! fault are enough: one more than the patience. [`clocks_heal`] says the same of the clock, in the
//! modes that report it.
//!
//! [`worlds_confirm_as_delivered`] says that a follower's picture is that of the messages delivered
//! to it, and is confirmed only if they confirm it, whatever else happens. After one stretch of
//! faulty bytes, a picture that both sides confirm is what the board has reported.
//! [`one_byte_is_a_stretch`] says that one faulty byte of a message is such a stretch.
//!
//! [`sound_lines_raise_no_doubt`] says that without faults a follower hears nothing that raises a
//! doubt, if the board reports each change of a square before it sends a dump.
//! [`sound_worlds_raise_no_doubt`] says the same of a world's bytes, and that a follower that asks
//! in time is never in doubt there. [`unreported_changes_are_doubts`] shows why the premise is
//! needed.
//!
//! `FollowedRuns` of `specs/Followed.antt` describes what happens to a world and a follower's pace,
//! step by step: the follower asks at some time, or another act happens. No premise is about time:
//! a call of `ask` that isn't due writes nothing and isn't counted. `HeardRuns` of
//! `specs/Heard.antt` adds when the follower hears which bytes, and that it records nothing else.
//! The front page of dgt_follow contains a program that uses a follower.
#![tactic(auto)]

ghost use Rattle.std.specs.Prelude.{◌≡◌, ◌≢◌, ◌⊎◌, ◌↔◌, Contains, ◌<◌, ◌≤◌, ◌+◌, [], ◌∷◌, ◌++◌, ℕ, Bool, List, Option, None, Some, length, map, option_to_list, slice_set, take, false, true, IsTrue};
ghost use Rattle.std.specs.List.{AllByRecursion, flat_map};
ghost use Rattle.dgt_values.specs.declared.kinds.Kind.{Kind};
ghost use Rattle.dgt_values.specs.declared.pieces.Piece.{Piece};
ghost use Rattle.dgt_message.specs.Clock.{ClockState};
ghost use Rattle.dgt_message.specs.Content.{Content, IsMessage};
ghost use Rattle.dgt_message.specs.Encoding.{encoding};
ghost use Rattle.dgt_command.specs.Content.{CommandContent, EventContent, requested_kind};
ghost use Rattle.dgt_command.specs.Encoding.{EncodesCommand, command_encoding};
ghost use Rattle.dgt_command.specs.Words.{IsNoiseList};
ghost use Rattle.dgt_decode.specs.Grammar.{Event, events};
ghost use Rattle.dgt_board.specs.declared.replies.Reply.{Reply};
ghost use Rattle.dgt_board.specs.Sending.{next_message};
ghost use Rattle.dgt_board.specs.State.{BoardState};
ghost use Rattle.dgt_host.specs.Confirmed.{IsRight, messages};
ghost use Rattle.dgt_host.specs.Host.{HostView, Sends};
ghost use Rattle.dgt_follow.specs.Calls.{Call, follower_after_call};
ghost use Rattle.dgt_follow.specs.Pace.{PaceView, asking_bytes, is_overdue, is_stuck, is_unanswered, pace_after_asking, pace_after_event, pace_at, sent_bytes};
ghost use Rattle.dgt_follow.specs.Follower.{Asks, FollowerView, asking_of, follower_after, follower_after_event, new_follower};
ghost use Rattle.dgt_followed.specs.Followed.{AfterAskings, FollowedRuns, FollowedStep, FollowedView, Happening, HasRoom, RunsDone, after_writing, asking_acts, clock_count_after, clock_count_after_asking, count_after, count_after_asking, follower_of, unsettles};
ghost use Rattle.dgt_followed.specs.Heard.{ConfirmedAsDelivered, ConfirmedIsReportedInWorlds, HappeningsAreCalls, HeardRuns, HeardStep, IsOneStretch, KeepsPower, OneStretchIsSeenInWorlds, SentIsReported, TimedHappening, bytes_by, happening_of, is_noticed, is_setting, sending, sent_by};
ghost use Rattle.dgt_followed.specs.OneByte.{OneByteIsAStretch, with_fault};
ghost use Rattle.dgt_followed.specs.Restated.{ActsAtRest, AllRestate, DumpsAtRest, HasNoDoubt, IsAtRest, IsRestatedWorld, IsSoundHappening, RunsAtRest, SendsAtRest, SoundRuns};
ghost use Rattle.dgt_link.specs.Act.{ActContent};
ghost use Rattle.dgt_link.specs.Clocks.{IsClockPromisedWorld, stops_clock};
ghost use Rattle.dgt_link.specs.Faults.{FaultyContent, FaultyStep, is_fault, sends, stops};
ghost use Rattle.dgt_link.specs.Healing.{IsPromisedWorld, IsSane};
ghost use Rattle.dgt_link.specs.Machine.{MachineState, Move, after_move, after_moves};
ghost use Rattle.dgt_link.specs.Sound.{IsExact, IsSound};
ghost use Rattle.dgt_link.specs.Stands.{IsExactWorld, StandsFor};
ghost use Rattle.dgt_link.specs.Step.{Step};
ghost use Rattle.dgt_follow.specs.declared.asking.Asking.{Asking};
ghost use Rattle.dgt_follow.specs.declared.asking.UpdateMode.{UpdateMode};
ghost use Rattle.dgt_link.specs.declared.acts.Outcome.{Outcome};
ghost use Rattle.dgt_link.specs.View.{IsQuietWorld, LineContents, WorldView, without_first};

/// What a follower's `ask` writes and leaves are acts of the faulty world of its host, each of them
/// done: `Host(mode)` and `Host(Dump)`, or `Restart` and `Host(mode)`, or `Host(Serial)`, or none.
/// In a mode that reports the clock, `Host(Clock)` follows either of the first two. The bytes
/// written follow those in the down line, if it has room for them.
pub fn asking_is_acts()
    ensures { (follower after : FollowerView) (now written : ℕ) (old new : List ℕ)
        (world : WorldView) → let what = asking_of follower now in
        Asks what now follower after old new (Ok written) → world.host ≡ follower.host →
        HasRoom world.down (asking_bytes follower.pace.mode what) →
        RunsDone (asking_acts follower.pace.mode what) world
        (after_writing world after.host (take written new)) }
{}

/// The effect of a follower's calls on it, on its host's world and on the counts is a step of
/// `HeardStep`, and therefore of `FollowedStep`. `ask` is a request, `hear` and `hear_all` of bytes
/// of the up line are the act `ToHost`, and `send` is the act `Host(command)`, which `Host(mode)`
/// follows after a frame. A call that only sets something leaves the world as it is. Laws about all
/// happenings therefore hold for these calls.
pub fn calls_are_happenings()
    ensures ask { (before : FollowedView) (after : FollowerView) (now written : ℕ)
        (old new : List ℕ) → let what = asking_of (follower_of before) now in
        Asks what now (follower_of before) after old new (Ok written) →
        HasRoom before.world.down (asking_bytes before.pace.mode what) →
        HeardStep (TimedHappening.Asks now) before (record {
          world = after_writing before.world after.host (take written new);
          pace = after.pace;
          since = count_after_asking what before.since;
          clock_since = clock_count_after_asking before.pace.mode what before.clock_since;
        }) }
    ensures hear { (before : FollowedView) (now count : ℕ) → 0 < count →
        0 < length before.world.up.bytes →
        let heard = follower_after (follower_of before) now (take count before.world.up.bytes) in
        HeardStep (TimedHappening.Hears now count) before (record {
          world = record before.world {
            host = heard.host;
            up = without_first before.world.up count;
          };
          pace = heard.pace;
          since = before.since;
          clock_since = before.clock_since;
        }) }
    ensures send { (before : FollowedView) (command : CommandContent) (after : HostView)
        (written : ℕ) (old new : List ℕ) → let mode = before.pace.mode in
        Sends (record { kind = requested_kind command; bytes = sent_bytes mode command })
        before.world.host after old new (Ok written) →
        EncodesCommand command (command_encoding command) →
        HasRoom before.world.down (sent_bytes mode command) →
        (ended : FollowedView) × HeardRuns (sending mode command) [] [] before ended
        × (ended.world ≡ after_writing before.world after (take written new))
        × (ended.pace ≡ before.pace) }
    ensures set { (before : FollowedView) (call : Call) → is_setting call ≡ true →
        HeardStep (TimedHappening.Sets call) before (record before {
          pace = (follower_after_call (follower_of before) call).pace;
        }) }
{
    asking_is_acts();
    dgt_follow::laws::hearing_is_the_hosts();
}

/// Suppose the follower has asked more often than its patience allows heartbeats, without a fault,
/// a break that both sides notice or a reset in between. Then the world is promised to heal,
/// whatever failed before and whatever else is sent, delivered and recorded. If the world is quiet,
/// the picture is the board's position.
pub fn askings_heal()
    ensures promised { AfterAskings (λ followed. followed.since) IsPromisedWorld }
    ensures picture { AfterAskings (λ followed. followed.since) (λ world.
        IsQuietWorld world → world.host.picture ≡ Some world.board.state.squares) }
{
    dgt_link::healing::faults_heal();
    dgt_link::healing::promised_worlds_heal();
    dgt_link::healing::steps_heal();
}

/// Suppose the follower has asked more often than its patience allows heartbeats, each time in a
/// mode that reports the clock. Then the world's clock is promised to heal, whatever failed before
/// and whatever else is sent, delivered and recorded. If the world is quiet, the host's clock is
/// the board's.
///
/// A request in the mode `UpdateBoard` restarts the count, and so does any other act that unsettles
/// the clock: a fault, a break, a restart, a reset or the command `UpdateBoard`.
pub fn clocks_heal()
    ensures clock_promised { AfterAskings (λ followed. followed.clock_since) IsClockPromisedWorld }
    ensures clock { AfterAskings (λ followed. followed.clock_since) (λ world.
        IsQuietWorld world → world.host.clock ≡ Some world.board.state.clock) }
{
    dgt_link::healing::faults_heal();
    dgt_link::healing::clocks_heal();
}

/// Facts about the terms of the other laws: the acts of each request, and what counts. Each request
/// for a dump counts, and exactly a fault, a break or a reset restarts the count. A request in a
/// mode with the clock counts for the clock, and a request in the other mode and what unsettles the
/// clock restart that count. Any act may happen, with any of its outcomes, if patience and counts
/// agree. A call of `ask` that isn't due changes only what time does. Runs are consecutive steps.
pub fn askings_count()
    ensures squares { asking_acts UpdateMode.UpdateBoard Asking.Heartbeat
        ≡ sends CommandContent.UpdateBoard ∷ sends CommandContent.Dump ∷ [] }
    ensures clock { asking_acts UpdateMode.Update Asking.Heartbeat ≡ sends CommandContent.Update
        ∷ sends CommandContent.Dump ∷ sends CommandContent.Clock ∷ [] }
    ensures anew { asking_acts UpdateMode.UpdateNice Asking.Anew ≡ FaultyContent.Restart
        ∷ sends CommandContent.UpdateNice ∷ sends CommandContent.Clock ∷ [] }
    ensures serial { (mode : UpdateMode) →
        asking_acts mode Asking.Identify ≡ sends CommandContent.Serial ∷ [] }
    ensures nothing { (mode : UpdateMode) → asking_acts mode Asking.Nothing ≡ [] }
    ensures asking { (what : Asking) (since : ℕ) → what ≢ Asking.Nothing →
        what ≢ Asking.Identify → count_after_asking what since ≡ since + 1 }
    ensures identify { (since : ℕ) → (count_after_asking Asking.Nothing since ≡ since)
        × (count_after_asking Asking.Identify since ≡ since) }
    ensures unsettled { (act : FaultyContent) (since : ℕ) →
        (is_fault act ≡ true) ⊎ (stops act ≡ true) → count_after act since ≡ 0 }
    ensures kept { (act : FaultyContent) (since : ℕ) → is_fault act ≡ false → stops act ≡ false →
        count_after act since ≡ since }
    ensures clock_asking { (mode : UpdateMode) (what : Asking) (since : ℕ) →
        what ≢ Asking.Nothing → what ≢ Asking.Identify → mode ≢ UpdateMode.UpdateBoard →
        clock_count_after_asking mode what since ≡ since + 1 }
    ensures clock_identify { (mode : UpdateMode) (since : ℕ) →
        (clock_count_after_asking mode Asking.Nothing since ≡ since)
        × (clock_count_after_asking mode Asking.Identify since ≡ since) }
    ensures clock_silent { (what : Asking) (since : ℕ) → what ≢ Asking.Nothing →
        what ≢ Asking.Identify → clock_count_after_asking UpdateMode.UpdateBoard what since ≡ 0 }
    ensures clock_unsettled { (act : FaultyContent) (since : ℕ) →
        (is_fault act ≡ true) ⊎ (stops_clock act ≡ true) → clock_count_after act since ≡ 0 }
    ensures clock_kept { (act : FaultyContent) (since : ℕ) → is_fault act ≡ false →
        stops_clock act ≡ false → clock_count_after act since ≡ since }
    ensures room { (line : LineContents) (bytes : List ℕ) →
        length line.bytes + length bytes ≤ line.capacity → HasRoom line bytes }
    ensures ask { (now : ℕ) (before after : FollowedView) →
        FollowedStep (Happening.Ask now) before after →
        asking_of (follower_of before) now ≡ Asking.Nothing →
        (after.world ≡ before.world) × (after.pace ≡ pace_at before.pace now)
        × (after.since ≡ before.since) × (after.clock_since ≡ before.clock_since) }
    ensures step { (act : FaultyContent) (before after : FollowedView) →
        FollowedStep (Happening.Other act) before after ↔ (answer : Outcome)
        × FaultyStep act before.world answer after.world
        × (after.pace.patience ≡ before.pace.patience) × (after.pace.left ≡ before.pace.left)
        × (after.since ≡ count_after act before.since)
        × (after.clock_since ≡ clock_count_after act before.clock_since) }
    ensures no_runs { (before after : FollowedView) →
        FollowedRuns [] before after ↔ after ≡ before }
    ensures runs { (happening : Happening) (later : List Happening)
        (before after : FollowedView) → FollowedRuns (happening ∷ later) before after
        ↔ (between : FollowedView) × FollowedStep happening before between
        × FollowedRuns later between after }
{}

/// Without faults no dump contradicts the picture, if no square has an unreported change when a
/// dump is sent. Nothing that a follower hears then raises a doubt. A call of `ask` raises none if
/// no reply is overdue, no message has been unfinished for a second, and no dump is owed when it
/// requests one.
pub fn sound_lines_raise_no_doubt()
    ensures restated { (x : MachineState) (moves : List Move) → IsSound x →
        AllRestate x.picture x.up → DumpsAtRest x moves → let after = after_moves x moves in
        AllRestate after.picture after.up }
    ensures heard { (x : MachineState) (follower : FollowerView) (now : ℕ) (said : Content)
        (later : List Content) → IsExact x → AllRestate x.picture x.up → x.up ≡ said ∷ later →
        follower.host.picture ≡ x.picture → follower.host.awaited ≡ x.awaited →
        HasNoDoubt follower.pace →
        let after = follower_after_event follower now (Event.Message said) in
        HasNoDoubt after.pace × (after.host.picture ≡ (after_move x Move.Hear).picture)
        × (after.host.awaited ≡ (after_move x Move.Hear).awaited) }
    ensures asked { (what : Asking) (pace : PaceView) (now : ℕ) → HasNoDoubt pace →
        is_overdue pace now ≡ false → is_stuck pace now ≡ false →
        (what ≡ Asking.Nothing) ⊎ ((what ≡ Asking.Identify) ⊎ (is_unanswered pace ≡ false)) →
        HasNoDoubt (pace_after_asking what (pace_at pace now) now) }
{
    dgt_link::laws::moves_keep();
    dgt_link::laws::answers_in_order();
}

/// A square with an unreported change when a dump is sent makes that dump a doubt, without any
/// fault. The next awaited dump that repeats the picture ends the doubt.
pub fn unreported_changes_are_doubts()
    ensures raised { (x : MachineState) (pace : PaceView) (now : ℕ) (later : List Reply) →
        x.up ≡ [] → x.board.owed ≡ Reply.Of Kind.Dump ∷ later →
        x.picture ≡ Some x.board.reported_squares → x.board.squares ≢ x.board.reported_squares →
        let sent = after_move x Move.Reply in
        (sent.up ≡ Content.dump x.board.squares ∷ [])
        × ((pace_after_event pace now sent.awaited sent.picture
        (Event.Message (Content.dump x.board.squares))).doubtful ≡ true) }
    ensures ended { (pace : PaceView) (now : ℕ) (pieces : List Piece) (later : List Kind) →
        (pace_after_event pace now (Kind.Dump ∷ later) (Some pieces)
        (Event.Message (Content.dump pieces))).doubtful ≡ false }
{}

/// Facts about the terms of these laws. The first dump restates an unknown picture, and any other
/// restates the picture that the messages before it leave. Only a dump has to be sent at rest, with
/// each change of a square reported. What is required of one move is required of each. A new
/// follower is in no doubt.
pub fn dumps_restate()
    ensures unknown { (pieces : List Piece) →
        AllRestate None (Content.dump pieces ∷ Content.dump pieces ∷ []) }
    ensures known { (pieces others : List Piece) (square : ℕ) (piece : Piece) →
        AllRestate (Some pieces) (Content.field square piece ∷ Content.dump others ∷ [])
        ↔ slice_set pieces square piece ≡ others }
    ensures other { (pieces others : List Piece) →
        AllRestate None (Content.dump pieces ∷ Content.dump others ∷ []) → pieces ≡ others }
    ensures rests { (board : BoardState) (later : List Reply) →
        IsAtRest board (Reply.Of Kind.Dump ∷ later) → board.squares ≡ board.reported_squares }
    ensures rested { (board : BoardState) (later : List Reply) →
        board.squares ≡ board.reported_squares → IsAtRest board (Reply.Of Kind.Dump ∷ later) }
    ensures others { (board : BoardState) (later : List Reply) →
        IsAtRest board (Reply.Of Kind.Serial ∷ Reply.Of Kind.Dump ∷ later) }
    ensures reply { (x : MachineState) →
        SendsAtRest x Move.Reply ↔ IsAtRest x.board x.board.owed }
    ensures moves { (x : MachineState) (square : ℕ) (piece : Piece) (clock : ClockState)
        (command : CommandContent) (noise : List EventContent) (is : IsNoiseList noise) →
        AllByRecursion (SendsAtRest x) (Move.Change square piece ∷ Move.HandClock clock
        ∷ Move.Ask command ∷ Move.Take ∷ Move.Report square ∷ Move.ReportClock ∷ Move.Hear
        ∷ Move.Break ∷ Move.HostBreak noise is ∷ []) }
    ensures each { (x : MachineState) (move : Move) → DumpsAtRest x (Move.Take ∷ move ∷ []) →
        SendsAtRest (after_move x Move.Take) move }
    ensures all { (x : MachineState) (move : Move) → SendsAtRest (after_move x Move.Take) move →
        DumpsAtRest x (Move.Take ∷ move ∷ []) }
    ensures no_doubt { (pace : PaceView) →
        HasNoDoubt pace ↔ (pace.doubtful ≡ false) × (pace.disturbed ≡ false) }
    ensures just_made { (period patience : ℕ) (mode : UpdateMode) →
        HasNoDoubt (new_follower period patience mode).pace }
{}

/// The same of the bytes of a world without faults, as long as it stands for an exact state. If
/// nothing is under way to the host, each dump under way restates the picture. That remains true
/// after any acts but `HostBreak`, if no square has an unreported change when a dump is sent. Until
/// then no bytes that a follower hears raise a doubt, in whatever chunks they are delivered. A
/// follower that asks in time is therefore never in doubt there.
pub fn sound_worlds_raise_no_doubt()
    ensures begun { (world : WorldView) → IsExactWorld world → world.host.unread ≡ [] →
        world.up.bytes ≡ [] → IsRestatedWorld world }
    ensures kept { (acts : List ActContent) (world after : WorldView) (answers : List Outcome) →
        AllByRecursion (λ act. act ≢ ActContent.HostBreak) acts → IsRestatedWorld world →
        RunsAtRest acts world answers after → IsRestatedWorld after }
    ensures heard { (world : WorldView) (follower : FollowerView) (now count : ℕ) →
        IsRestatedWorld world → follower.host ≡ world.host → HasNoDoubt follower.pace →
        HasNoDoubt (follower_after follower now (take count world.up.bytes)).pace }
    ensures always { (happenings : List TimedHappening) (before after : FollowedView) →
        IsRestatedWorld before.world → HasNoDoubt before.pace →
        SoundRuns happenings before after →
        IsRestatedWorld after.world × HasNoDoubt after.pace }
{
    dgt_link::laws::acts_are_moves();
    dgt_link::laws::picture_after_moves();
    dgt_link::laws::moves_keep();
    dgt_link::laws::answers_in_order();
    dgt_decode::laws::events_append();
    dgt_decode::laws::unfinished_append();
    dgt_decode::laws::quiet_held();
    dgt_decode::laws::encoding_is_read();
    dgt_host::laws::places_do_not_matter();
    dgt_command::laws::divisions_append();
    dgt_command::laws::zeros_settle_the_reader();
    dgt_command::laws::parts_of_words();
}

/// Facts about the terms of that law. It requires that the board sends a dump only at rest, and
/// nothing of other acts. A follower asks in time if no reply is owed, nothing is awaited and no
/// message has been unfinished for a second. It doesn't matter what the follower hears, and a fault
/// is not sound.
pub fn happenings_are_sound()
    ensures world { (world : WorldView) (is : IsRestatedWorld world) →
        StandsFor world is.state × IsExact is.state × AllRestate is.state.picture is.state.up }
    ensures sends { (world : WorldView) → ActsAtRest ActContent.BoardSend world
        ↔ IsAtRest world.board.state world.board.state.owed }
    ensures moves { (world : WorldView) (count square : ℕ) (piece : Piece) (clock : ClockState)
        (command : CommandContent) → AllByRecursion (λ act. ActsAtRest act world)
        (ActContent.ToHost count ∷ ActContent.ToBoard count ∷ ActContent.Change square piece
        ∷ ActContent.ClockRead clock ∷ ActContent.Host command ∷ ActContent.Break
        ∷ ActContent.HostBreak ∷ []) }
    ensures step { (act : ActContent) (world after : WorldView) (answer : Outcome) →
        RunsAtRest (act ∷ []) world (answer ∷ []) after
        ↔ Step act world answer after × ActsAtRest act world }
    ensures in_time { (now : ℕ) (before : FollowedView) → is_unanswered before.pace ≡ false →
        is_stuck before.pace now ≡ false → before.world.host.awaited ≡ [] →
        IsSoundHappening (TimedHappening.Asks now) before }
    ensures hears { (now count : ℕ) (before : FollowedView) →
        IsSoundHappening (TimedHappening.Hears now count) before }
    ensures sets { (mode : UpdateMode) (flag : Bool) (before : FollowedView) →
        IsSoundHappening (TimedHappening.Sets (Call.SetsMode mode)) before
        × IsSoundHappening (TimedHappening.Sets (Call.SetsConfirm flag)) before
        × IsSoundHappening (TimedHappening.Sets (Call.SetsIdentify flag)) before
        × IsSoundHappening (TimedHappening.Sets Call.AsksNow) before }
    ensures reported { (before : FollowedView) →
        ¬ (IsSoundHappening (TimedHappening.Sets Call.Disturbs) before) }
    ensures acts { (act : ActContent) (before : FollowedView) →
        IsSoundHappening (TimedHappening.Acts (FaultyContent.Plain act)) before
        ↔ ActsAtRest act before.world }
    ensures fault { (bytes : List ℕ) (before : FollowedView) →
        ¬ (IsSoundHappening (TimedHappening.Acts (FaultyContent.GarbleUp bytes)) before) }
    ensures no_runs { (before after : FollowedView) → SoundRuns [] before after ↔ after ≡ before }
    ensures runs { (happening : TimedHappening) (later : List TimedHappening)
        (before after : FollowedView) → SoundRuns (happening ∷ later) before after
        ↔ (between : FollowedView) × HeardStep happening before between
        × IsSoundHappening happening before × SoundRuns later between after }
{}

/// In a world that may fail, a follower hears exactly what is delivered to it, whatever else
/// happens: these are happenings of `FollowedRuns`, and calls of the follower. Its picture is
/// therefore that of the messages among the delivered bytes, and is confirmed only if they confirm
/// it.
///
/// After one stretch of faulty bytes among them, a picture that both sides confirm is right. If the
/// board sent everything else meanwhile, the picture is what it has reported.
pub fn worlds_confirm_as_delivered()
    ensures followed { (happenings : List TimedHappening) (said : List Content) (bytes : List ℕ)
        (before after : FollowedView) → HeardRuns happenings said bytes before after →
        FollowedRuns (map happening_of happenings) before after }
    ensures calls { HappeningsAreCalls }
    ensures confirmed { ConfirmedAsDelivered }
    ensures stretch { (reported : List Piece) (before : FollowedView) (first last : List Content)
        (bytes : List ℕ) (meant heard : Option Content) → AllByRecursion IsMessage first →
        AllByRecursion IsMessage last → messages (events bytes) ≡ option_to_list heard →
        before.world.host.unread ≡ [] → before.pace.confirmed ≡ false →
        IsRight reported before.world.host.picture →
        IsOneStretch reported before (first ++ option_to_list meant ++ last)
        (flat_map encoding first ++ bytes ++ flat_map encoding last) }
    ensures parts { (reported : List Piece) (before : FollowedView) (said : List Content)
        (bytes : List ℕ) (is : IsOneStretch reported before said bytes) →
        AllByRecursion IsMessage is.first × AllByRecursion IsMessage is.last
        × (said ≡ is.first ++ option_to_list is.meant ++ is.last)
        × (bytes ≡ flat_map encoding is.first ++ is.stretch ++ flat_map encoding is.last)
        × (messages (events is.stretch) ≡ option_to_list is.heard)
        × (before.world.host.unread ≡ []) × (before.pace.confirmed ≡ false)
        × IsRight reported before.world.host.picture }
    ensures one_stretch { OneStretchIsSeenInWorlds }
    ensures sent { SentIsReported }
    ensures reported { ConfirmedIsReportedInWorlds }
{
    dgt_follow::laws::confirmed_as_heard();
    dgt_follow::laws::one_stretch_is_seen();
}

/// One byte of a message that a line alters, loses, repeats or inserts is such a stretch: what is
/// then heard of the message contains one message at most.
pub fn one_byte_is_a_stretch()
    ensures { OneByteIsAStretch }
{
    dgt_message::laws::encoding_encodes();
}

/// The results of `with_fault` for three bytes if the second is altered, lost or repeated, or if
/// another is inserted before it or after the last.
pub fn faults_of_bytes()
    ensures altered { (a b c other : ℕ) →
        with_fault (a ∷ b ∷ c ∷ []) 1 1 (other ∷ []) ≡ a ∷ other ∷ c ∷ [] }
    ensures lost { (a b c : ℕ) → with_fault (a ∷ b ∷ c ∷ []) 1 1 [] ≡ a ∷ c ∷ [] }
    ensures repeated { (a b c : ℕ) →
        with_fault (a ∷ b ∷ c ∷ []) 2 0 (b ∷ []) ≡ a ∷ b ∷ b ∷ c ∷ [] }
    ensures inserted { (a b c other : ℕ) →
        with_fault (a ∷ b ∷ c ∷ []) 1 0 (other ∷ []) ≡ a ∷ other ∷ b ∷ c ∷ [] }
    ensures behind { (a b c other : ℕ) →
        with_fault (a ∷ b ∷ c ∷ []) 3 0 (other ∷ []) ≡ a ∷ b ∷ c ∷ other ∷ [] }
{}

/// Facts about the terms of that law. A delivery is heard as `follower_after` says. The bytes of
/// all deliveries are appended in order, and so are the messages sent. A host doesn't notice
/// garbled lines, a board's loss of power, or a command that it sends.
pub fn happenings_are_heard()
    ensures unnoticed { (bytes : List ℕ) (command : CommandContent) →
        map is_noticed (FaultyContent.GarbleUp bytes ∷ FaultyContent.GarbleDown bytes
        ∷ FaultyContent.BoardLost ∷ sends command ∷ []) ≡ false ∷ false ∷ false ∷ false ∷ [] }
    ensures noticed { (count : ℕ) →
        map is_noticed (FaultyContent.Plain (ActContent.ToHost count)
        ∷ FaultyContent.Plain ActContent.Break ∷ FaultyContent.Plain ActContent.HostBreak
        ∷ FaultyContent.Restart ∷ FaultyContent.GiveUp ∷ [])
        ≡ true ∷ true ∷ true ∷ true ∷ true ∷ [] }
    ensures sets { (now : ℕ) (bytes : List ℕ) (kind : Option Kind) (mode : UpdateMode)
        (flag : Bool) → map is_setting (Call.Hears now bytes ∷ Call.Asks now ∷ Call.Sends kind
        ∷ Call.SetsMode mode ∷ Call.SetsConfirm flag ∷ Call.SetsIdentify flag ∷ Call.AsksNow
        ∷ Call.Disturbs ∷ [])
        ≡ false ∷ false ∷ false ∷ true ∷ true ∷ true ∷ true ∷ true ∷ [] }
    ensures bytes { (before : FollowedView) (now first second third : ℕ) →
        before.world.up.bytes ≡ first ∷ second ∷ third ∷ [] →
        bytes_by (TimedHappening.Hears now 2) before ≡ first ∷ second ∷ [] }
    ensures sent { (before : FollowedView) (main sub : ℕ) → before.world.up.bytes ≡ [] →
        before.world.up.capacity ≡ 5 →
        next_message before.world.board.state ≡ Some (Content.carried 0x13 (main ∷ sub ∷ [])) →
        sent_by (TimedHappening.Acts (FaultyContent.Plain ActContent.BoardSend)) before
        ≡ Content.carried 0x13 (main ∷ sub ∷ []) ∷ [] }
    ensures unsent { (before : FollowedView) (main sub : ℕ) → before.world.up.bytes ≡ [] →
        before.world.up.capacity ≡ 4 →
        next_message before.world.board.state ≡ Some (Content.carried 0x13 (main ∷ sub ∷ [])) →
        sent_by (TimedHappening.Acts (FaultyContent.Plain ActContent.BoardSend)) before ≡ [] }
    ensures silent { (before : FollowedView) (now : ℕ) →
        (sent_by (TimedHappening.Asks now) before ≡ [])
        × (bytes_by (TimedHappening.Asks now) before ≡ []) }
    ensures powered { (now : ℕ) → KeepsPower (TimedHappening.Asks now) }
    ensures lost { ¬ (KeepsPower (TimedHappening.Acts FaultyContent.BoardLost)) }
    ensures hears { (now count : ℕ) (before after : FollowedView) →
        HeardStep (TimedHappening.Hears now count) before after
        ↔ FollowedStep (Happening.Other (FaultyContent.Plain (ActContent.ToHost count))) before
        after × (follower_of after
        ≡ follower_after (follower_of before) now (take count before.world.up.bytes)) }
    ensures set { (call : Call) (before after : FollowedView) →
        HeardStep (TimedHappening.Sets call) before after
        ↔ FollowedStep (Happening.Other (FaultyContent.Plain (ActContent.ToHost 0))) before after
        × (is_setting call ≡ true)
        × (follower_of after ≡ follower_after_call (follower_of before) call) }
    ensures acts { (act : FaultyContent) (before after : FollowedView) →
        HeardStep (TimedHappening.Acts act) before after
        ↔ FollowedStep (Happening.Other act) before after × (is_noticed act ≡ false)
        × (after.pace ≡ before.pace) }
    ensures asks { (now : ℕ) (before after : FollowedView) →
        HeardStep (TimedHappening.Asks now) before after
        ↔ FollowedStep (Happening.Ask now) before after }
    ensures no_runs { (said : List Content) (bytes : List ℕ) (before after : FollowedView) →
        HeardRuns [] said bytes before after ↔ (said ≡ []) × (bytes ≡ []) × (after ≡ before) }
    ensures runs { (happening : TimedHappening) (later : List TimedHappening)
        (said : List Content) (bytes : List ℕ) (before after : FollowedView) →
        HeardRuns (happening ∷ later) said bytes before after
        ↔ (between : FollowedView) × (more : List Content) × (rest : List ℕ)
        × HeardStep happening before between × HeardRuns later more rest between after
        × (said ≡ sent_by happening before ++ more) × (bytes ≡ bytes_by happening before ++ rest) }
{}

/// `askings_heal` and `clocks_heal`, written out.
pub fn patience_and_one_more_heal()
    ensures picture { (happenings : List Happening) (before after : FollowedView) →
        IsSane before.world →
        before.pace.left ≤ before.pace.patience → before.since ≡ 0 →
        FollowedRuns happenings before after → after.pace.patience + 1 ≤ after.since →
        IsQuietWorld after.world →
        after.world.host.picture ≡ Some after.world.board.state.squares }
    ensures clock { (happenings : List Happening) (before after : FollowedView) →
        IsSane before.world → before.pace.left ≤ before.pace.patience → before.clock_since ≡ 0 →
        FollowedRuns happenings before after → after.pace.patience + 1 ≤ after.clock_since →
        IsQuietWorld after.world →
        after.world.host.clock ≡ Some after.world.board.state.clock }
{
    askings_heal();
    clocks_heal();
}

/// Which acts a host notices, and what sends a message or loses power: these, and no other.
pub fn what_is_noticed()
    ensures plain { (count square : ℕ) (piece : Piece) (clock : ClockState) →
        map is_noticed (FaultyContent.Plain ActContent.BoardSend
        ∷ FaultyContent.Plain (ActContent.ToBoard count)
        ∷ FaultyContent.Plain (ActContent.Change square piece)
        ∷ FaultyContent.Plain (ActContent.ClockRead clock) ∷ [])
        ≡ false ∷ false ∷ false ∷ false ∷ [] }
    ensures silent { (before : FollowedView) (now count : ℕ) (call : Call) (bytes : List ℕ) →
        AllByRecursion (λ happening. sent_by happening before ≡ []) (TimedHappening.Asks now
        ∷ TimedHappening.Hears now count ∷ TimedHappening.Sets call
        ∷ TimedHappening.Acts (FaultyContent.GarbleUp bytes)
        ∷ TimedHappening.Acts (FaultyContent.GarbleDown bytes)
        ∷ TimedHappening.Acts FaultyContent.BoardLost ∷ TimedHappening.Acts FaultyContent.Restart
        ∷ TimedHappening.Acts FaultyContent.GiveUp ∷ []) }
    ensures acts { (act : FaultyContent) → (is_noticed act ≡ true)
        ↔ (((count : ℕ) × (act ≡ FaultyContent.Plain (ActContent.ToHost count)))
        ⊎ Contains (FaultyContent.Plain ActContent.Break ∷ FaultyContent.Plain ActContent.HostBreak
        ∷ FaultyContent.Restart ∷ FaultyContent.GiveUp ∷ []) act) }
    ensures unheard { (act : FaultyContent) (before after : FollowedView) →
        is_noticed act ≡ false → FollowedStep (Happening.Other act) before after →
        (after.world.host.picture ≡ before.world.host.picture)
        × (after.world.host.clock ≡ before.world.host.clock)
        × (after.world.host.unread ≡ before.world.host.unread) }
    ensures power { (happening : TimedHappening) →
        KeepsPower happening ↔ happening ≢ TimedHappening.Acts FaultyContent.BoardLost }
{}

/// When a happening is sound: a follower asks in time, or a board is at rest when it sends a dump.
pub fn what_is_sound()
    ensures asks { (now : ℕ) (before : FollowedView) →
        let what = asking_of (follower_of before) now in
        IsSoundHappening (TimedHappening.Asks now) before
        ↔ (is_overdue before.pace now ≡ false) × (is_stuck before.pace now ≡ false)
        × ((what ≡ Asking.Nothing) ⊎ ((what ≡ Asking.Identify)
        ⊎ (is_unanswered before.pace ≡ false)))
        × (what ≡ Asking.Anew → before.world.host.awaited ≡ []) }
    ensures acts { (act : ActContent) (world : WorldView) → act ≢ ActContent.BoardSend →
        ActsAtRest act world }
    ensures moves { (x : MachineState) (move : Move) → move ≢ Move.Reply → SendsAtRest x move }
    ensures reported { (board : BoardState) (owed : List Reply) →
        board.squares ≡ board.reported_squares → IsAtRest board owed }
    ensures others { (board : BoardState) (reply : Reply) (later : List Reply) →
        reply ≢ Reply.Of Kind.Dump → IsAtRest board (reply ∷ later) }
    ensures none { (board : BoardState) → IsAtRest board [] }
{}

/// What holds after requests holds after each list of happenings that contains more of them than
/// the patience.
pub fn what_holds_after_askings()
    ensures { (count : FollowedView → ℕ) (holds : WorldView → Bool) (happenings : List Happening)
        (before after : FollowedView) → AfterAskings count (λ world. IsTrue (holds world)) →
        IsSane before.world → before.pace.left ≤ before.pace.patience → count before ≡ 0 →
        FollowedRuns happenings before after → after.pace.patience < count after →
        IsTrue (holds after.world) }
{}
