//! Laws of a follower, for all bytes that it may receive. Each function does nothing at run time:
//! its contract states the facts.

ghost use Rattle.std.specs.Prelude.{◌≡◌, ◌≢◌, ◌+◌, ◌-◌, ◌≤◌, ◌↔◌, ◌∷◌, ◌++◌, IsFalse, IsTrue, ℕ, Bool, List, [], Option, None, Err, Ok, Some, length, replicate, false, true};
ghost use Rattle.std.specs.List.{AllByRecursion};
ghost use Rattle.dgt_values.specs.Bytes.{WritesPrefix};
ghost use Rattle.dgt_values.specs.declared.kinds.Kind.{Kind};
ghost use Rattle.dgt_values.specs.declared.pieces.Piece.{Piece};
ghost use Rattle.dgt_values.specs.declared.refusals.NoRoom.{NoRoom};
ghost use Rattle.dgt_message.specs.Clock.{Absence, Time, Times as BothTimes, time_of, times_of};
ghost use Rattle.dgt_message.specs.Content.{Content};
ghost use Rattle.dgt_message.specs.declared.viewing.BodyFault.{BodyFault};
ghost use Rattle.dgt_command.specs.Content.{CommandContent};
ghost use Rattle.dgt_command.specs.Encoding.{command_encoding};
ghost use Rattle.dgt_decode.specs.Grammar.{Event, Placed, events, unfinished_message};
ghost use Rattle.dgt_values.specs.Equality.{CloneIsSame, EqualIsSame};
ghost use Rattle.dgt_host.specs.Host.{HostView, Request, Sends, host_after};
ghost use Rattle.dgt_host.specs.Confirmed.{changes, repeats};
ghost use Rattle.dgt_follow.specs.Calls.{Call, ConfirmedOverCalls, DueAtIsFirst, OneStretchIsSeen, bytes_heard, follower_after_call, follower_after_calls, follower_asking};
ghost use Rattle.dgt_follow.specs.Follower.{Asks, AskingsConfirmNothing, ConfirmedAsHeard, DisturbedIsAskedAnew, DoubtIsAskedAgain, FollowedInChunks, FollowerView, HasReason, OverdueIsAskedAnew, OverdueIsDoubt, RequestsAreApart, SilenceDoubles, SureStaysSure, TimedIsEnough, TimedStaysTimed, asking_of, clock_known, follower_after, follower_after_event, following, host_after_asking};
ghost use Rattle.dgt_follow.specs.Pace.{KeepsCount, PaceView, asking, asking_bytes, forgetting, is_blank, is_overdue, is_stuck, mode_command, new_pace, next_due, pace_after_asking, pace_after_event, pace_at, pace_disturbed, sent_bytes, unfinished_by};
ghost use Rattle.dgt_follow.specs.declared.asking.Asking.{Asking};
ghost use Rattle.dgt_follow.specs.declared.asking.UpdateMode.{UpdateMode};

use crate::{
    Asking, Followed, LEAST_PERIOD, MAX_ASKING, OVERDUE, RETRY, SETTLED, TRIES, UNFINISHED,
    UpdateMode,
};

/// The limits by their numbers, and that no request is longer.
pub fn limits()
    ensures max_asking { MAX_ASKING ≡ 259 }
    ensures least_period { LEAST_PERIOD ≡ 1000 }
    ensures overdue { OVERDUE ≡ 1000 }
    ensures retry { RETRY ≡ 500 }
    ensures unfinished { UNFINISHED ≡ 1000 }
    ensures settled { SETTLED ≡ 1000 }
    ensures tries { TRIES ≡ 3 }
    ensures enough { (mode : UpdateMode) (what : Asking) →
        length (asking_bytes mode what) ≤ MAX_ASKING }
{}

/// Two values are equal by `==` exactly if they are the same.
pub fn equal_is_same()
    ensures asking { EqualIsSame ⟦<Asking as PartialEq>⟧.eq }
    ensures update_mode { EqualIsSame ⟦<UpdateMode as PartialEq>⟧.eq }
    ensures followed { EqualIsSame ⟦<Followed as PartialEq>⟧.eq }
{}

/// A clone is the value itself, and cloning never fails.
pub fn clone_is_same()
    ensures asking { CloneIsSame ⟦<Asking as Clone>⟧ }
    ensures update_mode { CloneIsSame ⟦<UpdateMode as Clone>⟧ }
    ensures followed { CloneIsSame ⟦<Followed as Clone>⟧ }
{}

/// Hearing bytes at one time in two chunks is the same as hearing them in one.
pub fn followed_in_chunks()
    ensures { FollowedInChunks }
{
    dgt_decode::laws::events_append();
    dgt_decode::laws::unfinished_append();
}

/// After any calls, a follower's picture is that of the messages that it heard, and is confirmed
/// only if they confirm it. Therefore `dgt_host::laws::one_fault_is_seen` holds for it.
pub fn confirmed_as_heard()
    ensures heard { ConfirmedAsHeard }
    ensures asked { AskingsConfirmNothing }
    ensures called { ConfirmedOverCalls }
{
    dgt_decode::laws::events_append();
    dgt_decode::laws::unfinished_append();
    dgt_decode::laws::unfinished_is_quiet();
}

/// After one stretch of faulty bytes, a picture that both sides' messages confirm was reported.
pub fn one_stretch_is_seen()
    ensures { OneStretchIsSeen }
{
    confirmed_as_heard();
    dgt_host::laws::faulty_bytes_are_a_passage();
    dgt_host::laws::one_fault_is_seen();
}

/// The effect of a follower's calls is as `specs/Calls.antt` says: of `ask` if it wrote what was
/// due, and of `send` if the command was written. The settings are kept. If the slice is too short,
/// `ask` changes nothing.
pub fn calls_leave()
    ensures asked { (before after : FollowerView) (now written : ℕ) (old new : List ℕ) →
        Asks (asking_of before now) now before after old new (Ok written) →
        after ≡ follower_after_call before (Call.Asks now) }
    ensures writes { (what : Asking) (before after : FollowerView) (now written : ℕ)
        (old new : List ℕ) → Asks what now before after old new (Ok written)
        ↔ WritesPrefix (asking_bytes before.pace.mode what) old new (Ok written)
        × (after ≡ follower_asking what before now) }
    ensures refuses { (what : Asking) (before after : FollowerView) (now : ℕ) (fault : NoRoom)
        (old new : List ℕ) → Asks what now before after old new (Err fault)
        ↔ WritesPrefix (asking_bytes before.pace.mode what) old new (Err fault)
        × (after ≡ before) }
    ensures sent { (before after : FollowerView) (request : Request) (written : ℕ)
        (old new : List ℕ) → Sends request before.host after.host old new (Ok written) →
        after.pace ≡ before.pace → after ≡ follower_after_call before (Call.Sends request.kind) }
    ensures heard { (before : FollowerView) (now : ℕ) (bytes : List ℕ) →
        follower_after_call before (Call.Hears now bytes) ≡ follower_after before now bytes }
    ensures disturbed { (before : FollowerView) →
        follower_after_call before Call.Disturbs
        ≡ following before.host (record before.pace {
          disturbed = true;
          doubtful = true;
          confirmed = false;
        }) }
    ensures told { (before : FollowerView) (mode : UpdateMode) (confirm identify : Bool) →
        let after = follower_after_calls before (Call.SetsMode mode ∷ Call.SetsConfirm confirm
        ∷ Call.SetsIdentify identify ∷ Call.AsksNow ∷ []) in
        after ≡ following before.host (record before.pace {
          mode = mode;
          confirm = confirm;
          identify = identify;
          wanted = true;
        }) }
    ensures bytes { (now : ℕ) (first last : List ℕ) →
        bytes_heard (Call.Hears now first ∷ Call.Asks now ∷ Call.Hears now last ∷ [])
        ≡ first ++ (last ++ []) }
{}

/// An answer that is a second late is a doubt, and so is a message that is unfinished for a second.
/// The follower soon starts over, as after any other disturbance.
pub fn overdue_is_doubt()
    ensures doubt { OverdueIsDoubt }
    ensures asked { OverdueIsAskedAnew }
    ensures disturbed { DisturbedIsAskedAnew }
{}

/// In doubt a request is due half a second after the last one if there was a disturbance since, and
/// after the timeout otherwise, whatever the period is. Two requests are at least half a second
/// apart: the line then carries both, if they start over. [`Follower::ask_now`] and an unknown
/// serial number wait only for the last answer.
///
/// `timed` says that this holds for each follower, after any calls.
///
/// [`Follower::ask_now`]: crate::Follower::ask_now
pub fn doubt_is_asked_again()
    ensures timed { TimedStaysTimed }
    ensures enough { TimedIsEnough }
    ensures again { DoubtIsAskedAgain }
    ensures apart { RequestsAreApart }
{}

/// If a follower with a period of 10,000 hears nothing after its first request at 0, it asks again
/// at 1,000, 3,000, 7,000, 15,000, and then each period. A message at 26,000 makes it ask at once.
/// Each timeout is twice the one before, up to the period. After a disturbance it is a second.
pub fn silence_is_asked_less()
    ensures waits { (mode : UpdateMode) →
        let asked = λ (pace : PaceView) (now : ℕ).
        pace_after_asking Asking.Anew (pace_at pace now) now in
        let first = asked (new_pace 10000 6 mode false false) 0 in
        let second = asked first 1000 in
        let third = asked second 3000 in
        let fourth = asked third 7000 in
        let fifth = asked fourth 15000 in
        let sixth = asked fifth 25000 in
        (next_due first ≡ Some 1000) × (next_due second ≡ Some 3000) × (next_due third ≡ Some 7000)
        × (next_due fourth ≡ Some 15000) × (next_due fifth ≡ Some 25000)
        × (next_due sixth ≡ Some 35000) }
    ensures doubles { SilenceDoubles }
    ensures heard { (pace : PaceView) (now : ℕ) (awaited : List Kind)
        (picture : Option (List Piece)) (event : Event) →
        (pace_after_event pace now awaited picture event).timeout ≡ OVERDUE }
    ensures disturbed { (pace : PaceView) (now : ℕ) → pace.disturbed ≡ true →
        (pace_after_asking Asking.Anew pace now).timeout ≡ OVERDUE }
    ensures answered { (pace : PaceView) (now : ℕ) → pace.answered ≡ true →
        (pace_after_asking Asking.Heartbeat pace now).timeout ≡ OVERDUE }
{}

/// A follower asks at once, then each period, and earlier exactly for the reasons that
/// [`Follower::ask`](crate::Follower::ask) lists. The time of
/// [`Follower::due_at`](crate::Follower::due_at) is the first at which a call of `ask` writes or
/// changes anything.
pub fn asks_when_due()
    ensures reasons { (follower : FollowerView) (now : ℕ) →
        (asking_of follower now ≢ Asking.Nothing) ↔ HasReason (pace_at follower.pace now) now }
    ensures first { DueAtIsFirst }
{}

/// A confirmed picture is never in doubt.
pub fn confirmed_is_sure()
    ensures { SureStaysSure }
{}

/// What a follower hears changes its host as it changes any host. It doesn't change the time of the
/// last request, the heartbeats left, the period, the patience or the mode. The event that the
/// bytes complete is recorded, and so are the bytes of an unfinished message.
pub fn hearing_is_the_hosts()
    ensures host { (follower : FollowerView) (now : ℕ) (bytes : List ℕ) →
        (follower_after follower now bytes).host ≡ host_after follower.host bytes }
    ensures pace { (follower : FollowerView) (now : ℕ) (bytes : List ℕ) →
        KeepsCount follower.pace (follower_after follower now bytes).pace }
    ensures event { (follower : FollowerView) (now : ℕ) (bytes : List ℕ) (x : Placed) →
        let all = follower.host.unread ++ bytes in events all ≡ x ∷ [] →
        let heard = follower_after_event follower now x.event in
        follower_after follower now bytes ≡ following
        (record heard.host { unread = unfinished_message all }) (record heard.pace {
          unfinished = unfinished_by follower.pace.unfinished now bytes (unfinished_message all);
        }) }
{}

/// A request awaits its reply, besides those that are awaited. After a new start only a dump is
/// awaited.
pub fn what_is_awaited()
    ensures nothing { (host : HostView) → host_after_asking Asking.Nothing host ≡ host }
    ensures serial { (host : HostView) → host_after_asking Asking.Identify host
        ≡ record host { awaited = host.awaited ++ Kind.Serial ∷ [] } }
    ensures dump { (host : HostView) → host_after_asking Asking.Heartbeat host
        ≡ record host { awaited = host.awaited ++ Kind.Dump ∷ [] } }
    ensures anew { (host : HostView) → host_after_asking Asking.Anew host
        ≡ record host { awaited = Kind.Dump ∷ [] } }
{}

/// When a follower sends a request, and which, with a period of 10,000 and a patience of 6. It
/// starts over at first. If its request at 1,000 was answered, it sends a heartbeat from 11,000 on.
/// It starts over then if no more replies can be awaited or no heartbeat is left. After a
/// disturbance it starts over from 1,500 on, and without an answer from 2,000 on, after the timeout
/// of a second. No timeout is longer than the period.
pub fn askings_by_time()
    ensures first { (mode : UpdateMode) → asking (new_pace 10000 6 mode false false) false 0
        ≡ Asking.Anew }
    ensures early { (mode : UpdateMode) → asking (record (new_pace 10000 6 mode false false) {
      asked = Some 1000;
      answered = true;
    }) false 10999 ≡ Asking.Nothing }
    ensures due { (mode : UpdateMode) → asking (record (new_pace 10000 6 mode false false) {
      asked = Some 1000;
      answered = true;
    }) false 11000 ≡ Asking.Heartbeat }
    ensures full { (mode : UpdateMode) → asking (record (new_pace 10000 6 mode false false) {
      asked = Some 1000;
      answered = true;
    }) true 11000 ≡ Asking.Anew }
    ensures worn { (mode : UpdateMode) → asking (record (new_pace 10000 6 mode false false) {
      asked = Some 1000;
      answered = true;
      left = 0;
    }) false 11000 ≡ Asking.Anew }
    ensures calm { (mode : UpdateMode) → asking (record (new_pace 10000 6 mode false false) {
      asked = Some 1000;
      answered = true;
      disturbed = true;
    }) false 1499 ≡ Asking.Nothing }
    ensures disturbed { (mode : UpdateMode) → asking (record (new_pace 10000 6 mode false false) {
      asked = Some 1000;
      answered = true;
      disturbed = true;
    }) false 1500 ≡ Asking.Anew }
    ensures owed { (mode : UpdateMode) → asking (record (new_pace 10000 6 mode false false) {
      asked = Some 1000;
    }) false 1999 ≡ Asking.Nothing }
    ensures unanswered { (mode : UpdateMode) → asking (record (new_pace 10000 6 mode false false) {
      asked = Some 1000;
    }) false 2000 ≡ Asking.Anew }
    ensures silent { (mode : UpdateMode) → asking (record (new_pace 10000 6 mode false false) {
      asked = Some 1000;
      timeout = 4000;
    }) false 4999 ≡ Asking.Nothing }
    ensures period { (mode : UpdateMode) → asking (record (new_pace 2000 6 mode false false) {
      asked = Some 1000;
      timeout = 4000;
    }) false 3000 ≡ Asking.Anew }
    ensures stuck { (mode : UpdateMode) → asking (pace_at (record
        (new_pace 10000 6 mode false false) {
          asked = Some 1000;
          answered = true;
          unfinished = Some 3000;
        }) 4000) false 4000 ≡ Asking.Anew }
    ensures back { (mode : UpdateMode) → asking (record (new_pace 10000 6 mode false false) {
      asked = Some 1000;
      answered = true;
    }) false 999 ≡ Asking.Heartbeat }
{}

/// The effects of time. A message is stuck a second after its last byte: that is a disturbance, and
/// the message is forgotten. An overdue answer is a doubt, but not a disturbance. Otherwise nothing
/// changes.
pub fn what_time_brings()
    ensures stuck { (pace : PaceView) (time now : ℕ) → pace.unfinished ≡ Some time →
        (IsTrue (is_stuck pace now) ↔ time + 1000 ≤ now) }
    ensures late { (pace : PaceView) (time now : ℕ) → pace.asked ≡ Some time →
        (IsTrue (is_overdue pace now) ↔ IsFalse pace.answered × (time + 1000 ≤ now)) }
    ensures whole { (pace : PaceView) (now : ℕ) → pace.unfinished ≡ None →
        is_stuck pace now ≡ false }
    ensures disturbs { (pace : PaceView) (now : ℕ) → is_stuck pace now ≡ true →
        let after = pace_at pace now in
        (after.disturbed ≡ true) × (after.unfinished ≡ None) × (after.doubtful ≡ true)
        × (after.confirmed ≡ false) }
    ensures overdue { (pace : PaceView) (now : ℕ) → is_overdue pace now ≡ true →
        is_stuck pace now ≡ false → let after = pace_at pace now in
        (after.disturbed ≡ pace.disturbed) × (after.unfinished ≡ pace.unfinished)
        × (after.doubtful ≡ true) × (after.confirmed ≡ false) }
    ensures kept { (pace : PaceView) (now : ℕ) → is_overdue pace now ≡ false →
        is_stuck pace now ≡ false → let after = pace_at pace now in
        (after.disturbed ≡ pace.disturbed) × (after.unfinished ≡ pace.unfinished)
        × (after.doubtful ≡ pace.doubtful) × (after.confirmed ≡ pace.confirmed) }
    ensures settings { (pace : PaceView) (now : ℕ) → KeepsCount pace (pace_at pace now) }
    ensures bytes { (before : Option ℕ) (now byte first : ℕ) (more rest : List ℕ) →
        unfinished_by before now (byte ∷ more) (first ∷ rest) ≡ Some now }
    ensures finished { (before : Option ℕ) (now byte : ℕ) (more : List ℕ) →
        unfinished_by before now (byte ∷ more) [] ≡ None }
    ensures nothing { (before : Option ℕ) (now : ℕ) (unread : List ℕ) →
        unfinished_by before now [] unread ≡ before }
{}

/// When a follower sends a request before its period is over. It does so at once after `ask_now`,
/// if no answer is owed. To confirm a picture that changed at 3,000 it does so from 4,000 on. A
/// picture that hasn't changed is requested a second after the last request. Neither happens while
/// an answer is owed. The serial number is requested once after each answer,
/// three times in all.
pub fn askings_out_of_turn()
    ensures now { (mode : UpdateMode) → asking (record (new_pace 10000 6 mode false false) {
      asked = Some 1000;
      answered = true;
      wanted = true;
    }) false 1000 ≡ Asking.Heartbeat }
    ensures then { (mode : UpdateMode) → asking (record (new_pace 10000 6 mode false false) {
      asked = Some 1000;
      wanted = true;
    }) false 1000 ≡ Asking.Nothing }
    ensures settling { (mode : UpdateMode) → asking (record (new_pace 10000 6 mode true false) {
      asked = Some 1000;
      answered = true;
      changed = Some 3000;
    }) false 3999 ≡ Asking.Nothing }
    ensures settled { (mode : UpdateMode) → asking (record (new_pace 10000 6 mode true false) {
      asked = Some 1000;
      answered = true;
      changed = Some 3000;
    }) false 4000 ≡ Asking.Heartbeat }
    ensures resting { (mode : UpdateMode) → asking (record (new_pace 10000 6 mode true false) {
      asked = Some 1000;
      answered = true;
    }) false 1999 ≡ Asking.Nothing }
    ensures unchanged { (mode : UpdateMode) → asking (record (new_pace 10000 6 mode true false) {
      asked = Some 1000;
      answered = true;
    }) false 2000 ≡ Asking.Heartbeat }
    ensures confirmed { (mode : UpdateMode) → asking (record (new_pace 10000 6 mode true false) {
      asked = Some 1000;
      answered = true;
      confirmed = true;
    }) false 10999 ≡ Asking.Nothing }
    ensures owed { (mode : UpdateMode) → asking (record (new_pace 10000 6 mode true false) {
      asked = Some 1000;
      timeout = 4000;
    }) false 4999 ≡ Asking.Nothing }
    ensures unknown { (mode : UpdateMode) → asking (record (new_pace 10000 6 mode false true) {
      asked = Some 1000;
      answered = true;
    }) false 1000 ≡ Asking.Identify }
    ensures known { (mode : UpdateMode) → asking (record (new_pace 10000 6 mode false true) {
      asked = Some 1000;
      answered = true;
      serial = Some [];
    }) false 10999 ≡ Asking.Nothing }
    ensures requested { (mode : UpdateMode) → asking (record (new_pace 10000 6 mode false true) {
      asked = Some 1000;
      answered = true;
      requested = true;
    }) false 10999 ≡ Asking.Nothing }
    ensures tried { (mode : UpdateMode) → asking (record (new_pace 10000 6 mode false true) {
      asked = Some 1000;
      answered = true;
      tries = 0;
    }) false 10999 ≡ Asking.Nothing }
    ensures unheard { (mode : UpdateMode) → asking (record (new_pace 10000 6 mode false true) {
      asked = Some 1000;
    }) false 1999 ≡ Asking.Nothing }
    ensures full { (mode : UpdateMode) → asking (record (new_pace 10000 6 mode false true) {
      asked = Some 1000;
      answered = true;
    }) true 1000 ≡ Asking.Anew }
    ensures tries { (pace : PaceView) (now : ℕ) → pace.tries ≡ 3 →
        let after = pace_after_asking Asking.Identify pace now in
        (after.tries ≡ 2) × (after.requested ≡ true) }
    ensures wanted { (pace : PaceView) (now : ℕ) →
        (pace_after_asking Asking.Identify pace now).wanted ≡ pace.wanted }
    ensures again { (pace : PaceView) (now : ℕ) → pace.answered ≡ true →
        pace_after_asking Asking.Heartbeat pace now ≡ record pace {
          left = pace.left - 1;
          asked = Some now;
          requested = false;
          wanted = false;
          answered = false;
          disturbed = false;
          pardons = false;
          timeout = OVERDUE;
        } }
    ensures doubtful { (pace : PaceView) (now time : ℕ) → pace.asked ≡ Some time →
        pace.answered ≡ false → let after = pace_after_asking Asking.Heartbeat pace now in
        (after.doubtful ≡ true) × (after.confirmed ≡ false) }
    ensures nothing { (pace : PaceView) (now : ℕ) →
        pace_after_asking Asking.Nothing pace now ≡ pace }
{}

/// When a follower with a period of 10,000 is due after a request at 1,000: at 11,000 if it was
/// answered, and otherwise at 2,000 to find the answer overdue, and then after the timeout. If the
/// last byte of an unfinished message was received at 3,000, it is due at 4,000. A period of less
/// than a second counts as a second.
pub fn due_times()
    ensures answered { (mode : UpdateMode) → next_due (record (new_pace 10000 6 mode false false) {
      asked = Some 1000;
      answered = true;
    }) ≡ Some 11000 }
    ensures owed { (mode : UpdateMode) → next_due (record (new_pace 10000 6 mode false false) {
      asked = Some 1000;
      timeout = 4000;
    }) ≡ Some 2000 }
    ensures doubtful { (mode : UpdateMode) → next_due (record (new_pace 10000 6 mode false false) {
      asked = Some 1000;
      timeout = 4000;
      doubtful = true;
    }) ≡ Some 5000 }
    ensures wanted { (mode : UpdateMode) → next_due (record (new_pace 10000 6 mode false false) {
      asked = Some 1000;
      answered = true;
      wanted = true;
    }) ≡ Some 0 }
    ensures unfinished { (mode : UpdateMode) → next_due (record
        (new_pace 10000 6 mode false false) {
          asked = Some 1000;
          answered = true;
          unfinished = Some 3000;
        }) ≡ Some 4000 }
    ensures later { (mode : UpdateMode) → next_due (record (new_pace 10000 6 mode false false) {
      asked = Some 1000;
      unfinished = Some 3000;
    }) ≡ Some 2000 }
    ensures least { (patience : ℕ) (mode : UpdateMode) →
        (new_pace 0 patience mode false false).period ≡ 1000 }
    ensures more { (patience : ℕ) (mode : UpdateMode) →
        (new_pace 1001 patience mode false false).period ≡ 1001 }
{}

/// The bytes of a heartbeat in each mode, and the number of bytes of a new start. A heartbeat uses
/// up one of those left, and a new start restores all of them.
pub fn askings_in_bytes()
    ensures squares { asking_bytes UpdateMode.UpdateBoard Asking.Heartbeat ≡ 0x44 ∷ 0x42 ∷ [] }
    ensures clock { asking_bytes UpdateMode.Update Asking.Heartbeat
        ≡ 0x43 ∷ 0x42 ∷ 0x41 ∷ [] }
    ensures changes { asking_bytes UpdateMode.UpdateNice Asking.Heartbeat
        ≡ 0x4b ∷ 0x42 ∷ 0x41 ∷ [] }
    ensures anew { asking_bytes UpdateMode.UpdateNice Asking.Anew
        ≡ replicate 255 0 ++ 0x44 ∷ 0x42 ∷ 0x4b ∷ 0x41 ∷ [] }
    ensures nothing { (mode : UpdateMode) → asking_bytes mode Asking.Nothing ≡ [] }
    ensures serial { (mode : UpdateMode) → asking_bytes mode Asking.Identify ≡ 0x45 ∷ [] }
    ensures heartbeat { (pace : PaceView) (now : ℕ) → pace.left ≡ 3
        → (pace_after_asking Asking.Heartbeat pace now).left ≡ 2 }
    ensures beginning { (pace : PaceView) (now : ℕ) → pace.patience ≡ 6
        → (pace_after_asking Asking.Anew pace now).left ≡ 6 }
{}

/// What a follower records. Disturbances are any fault, a dump that isn't the known picture, and a
/// message of a kind that isn't the first awaited, unless such messages are pardoned. A fault is
/// recorded as a report of lost bytes is, and ends the silence. A clock without digits isn't one.
/// An awaited dump is an answer, and any message is recorded as heard.
pub fn notes_of_events()
    ensures faults { (pace : PaceView) (now have code byte at : ℕ) (awaited : List Kind)
        (picture : Option (List Piece)) → AllByRecursion (λ event.
        pace_after_event pace now awaited picture event
        ≡ record (pace_disturbed pace) { timeout = OVERDUE })
        (Event.Cut have ∷ Event.BadLength ∷ Event.Stray byte
        ∷ Event.Refused code BodyFault.WrongSize ∷ Event.Refused code (BodyFault.BadPiece at)
        ∷ Event.Refused code (BodyFault.BadSquare at) ∷ []) }
    ensures unasked { (pace : PaceView) (now : ℕ) (pieces : List Piece) (later : List Kind) →
        pace.pardons ≡ false → AllByRecursion (λ awaited.
        let after = pace_after_event pace now awaited None (Event.Message (Content.dump pieces)) in
        (after.disturbed ≡ true) × (after.answered ≡ pace.answered))
        ([] ∷ (Kind.Serial ∷ later) ∷ []) }
    ensures pardoned { (pace : PaceView) (now main sub : ℕ) (picture : Option (List Piece)) →
        pace.pardons ≡ true → pace.disturbed ≡ false →
        (pace_after_event pace now [] picture
        (Event.Message (Content.carried 0x13 (main ∷ sub ∷ [])))).disturbed ≡ false }
    ensures contradicts { (pace : PaceView) (now : ℕ) (known pieces : List Piece)
        (awaited : List Kind) → changes (Some known) (Content.dump pieces) ≡ true →
        let after = pace_after_event pace now awaited (Some known)
        (Event.Message (Content.dump pieces)) in
        (after.disturbed ≡ true) × (after.doubtful ≡ true) }
    ensures unreadable { (pace : PaceView) (now code at : ℕ) (awaited : List Kind)
        (picture : Option (List Piece)) →
        pace_after_event pace now awaited picture (Event.Refused code (BodyFault.BadReading at))
        ≡ record pace { timeout = OVERDUE; unreadable = true } }
    ensures sound { (pace : PaceView) (now square : ℕ) (piece : Piece) → pace.disturbed ≡ false →
        (pace_after_event pace now [] None (Event.Message (Content.field square piece))).disturbed
        ≡ false }
    ensures answer { (pace : PaceView) (now : ℕ) (pieces : List Piece) (later : List Kind) →
        let after = pace_after_event pace now (Kind.Dump ∷ later) None
        (Event.Message (Content.dump pieces)) in
        (after.answered ≡ true) × (after.doubtful ≡ false) × (after.settling ≡ false) }
    ensures other { (pace : PaceView) (now main sub : ℕ) (later : List Kind) →
        pace.answered ≡ false → (pace_after_event pace now (Kind.Version ∷ later) None
        (Event.Message (Content.carried 0x13 (main ∷ sub ∷ [])))).answered ≡ false }
    ensures heard { (pace : PaceView) (now square : ℕ) (piece : Piece) → (pace_after_event pace now
        [] None (Event.Message (Content.field square piece))).heard ≡ Some now }
{}

/// What confirms a picture: an awaited dump that repeats it. The first dump after a new start
/// doesn't confirm, but a confirmed picture stays confirmed. An unasked message ends it. A field
/// update that changes the picture ends it, and sets the time of the last change.
pub fn what_confirms()
    ensures dump { (pace : PaceView) (now : ℕ) (known pieces : List Piece) (later : List Kind) →
        pace.settling ≡ false → repeats (Some known) pieces ≡ true →
        (pace_after_event pace now (Kind.Dump ∷ later) (Some known)
        (Event.Message (Content.dump pieces))).confirmed ≡ true }
    ensures kept { (pace : PaceView) (now : ℕ) (known pieces : List Piece) (later : List Kind) →
        pace.confirmed ≡ true → repeats (Some known) pieces ≡ true →
        (pace_after_event pace now (Kind.Dump ∷ later) (Some known)
        (Event.Message (Content.dump pieces))).confirmed ≡ true }
    ensures first { (pace : PaceView) (now : ℕ) (picture : Option (List Piece)) (event : Event)
        (awaited : List Kind) → pace.settling ≡ true → pace.confirmed ≡ false →
        (pace_after_event pace now awaited picture event).confirmed ≡ false }
    ensures unasked { (pace : PaceView) (now : ℕ) (known pieces : List Piece) →
        (pace_after_event pace now [] (Some known) (Event.Message (Content.dump pieces))).confirmed
        ≡ false }
    ensures field { (pace : PaceView) (now square : ℕ) (piece : Piece) (known : List Piece) →
        changes (Some known) (Content.field square piece) ≡ true →
        let after = pace_after_event pace now [] (Some known)
        (Event.Message (Content.field square piece)) in
        (after.confirmed ≡ false) × (after.changed ≡ Some now) }
    ensures sound { (pace : PaceView) (now square : ℕ) (piece : Piece) (known : List Piece) →
        pace.disturbed ≡ false → (pace_after_event pace now [] (Some known)
        (Event.Message (Content.field square piece))).disturbed ≡ false }
    ensures unknown { (pace : PaceView) (now : ℕ) (pieces : List Piece) (later : List Kind) →
        (pace_after_event pace now (Kind.Dump ∷ later) None
        (Event.Message (Content.dump pieces))).confirmed ≡ false }
    ensures anew { (pace : PaceView) (now : ℕ) →
        (pace_after_asking Asking.Anew pace now).settling ≡ true }
    ensures never { (period patience : ℕ) (mode : UpdateMode) (confirm identify : Bool) →
        (new_pace period patience mode confirm identify).settling ≡ false }
    ensures forgotten { (pace : PaceView) → forgetting pace ≡ new_pace pace.period pace.patience
        pace.mode pace.confirm pace.identify }
    ensures pardons { (pace : PaceView) (now : ℕ) → pace.answered ≡ true → pace.asked ≡ Some 0 →
        pace.disturbed ≡ false → (pace_after_asking Asking.Anew pace now).pardons ≡ true }
    ensures blames { (pace : PaceView) (now : ℕ) → pace.disturbed ≡ true →
        (pace_after_asking Asking.Anew pace now).pardons ≡ false }
{}

/// A serial number that was reported stays known, whatever else is heard. The clock is unknown
/// while it is unreadable, until a report of it can be read that isn't all zeros.
pub fn what_is_known()
    ensures serial { (pace : PaceView) (now : ℕ) (digits : List ℕ) (awaited : List Kind)
        (picture : Option (List Piece)) →
        (pace_after_event pace now awaited picture
        (Event.Message (Content.carried 0x11 digits))).serial ≡ Some digits }
    ensures same { (pace : PaceView) (now square : ℕ) (piece : Piece) (body : List ℕ)
        (awaited : List Kind) (picture : Option (List Piece)) →
        ((pace_after_event pace now awaited picture
        (Event.Message (Content.field square piece))).serial ≡ pace.serial)
        × ((pace_after_event pace now awaited picture
        (Event.Message (Content.carried 0x22 body))).serial ≡ pace.serial) }
    ensures readable { (pace : PaceView) (now : ℕ) (readings : BothTimes) (awaited : List Kind)
        (picture : Option (List Piece)) → (pace_after_event pace now awaited picture
        (Event.Message (Content.times readings))).unreadable ≡ is_blank readings }
    ensures blank { (first second : Time) (status : ℕ) →
        let zero = time_of 0 0 0 0 in IsTrue (is_blank (times_of first second status))
        ↔ (first ≡ zero) × (second ≡ zero) × (status ≡ 0) }
    ensures absent { (pace : PaceView) (now : ℕ) (absence : Absence) (awaited : List Kind)
        (picture : Option (List Piece)) → (pace_after_event pace now awaited picture
        (Event.Message (Content.no_clock absence))).unreadable ≡ false }
    ensures unknown { (host : HostView) (pace : PaceView) → pace.unreadable ≡ true →
        clock_known (following host pace) ≡ None }
    ensures clock { (host : HostView) (pace : PaceView) → pace.unreadable ≡ false →
        clock_known (following host pace) ≡ host.clock }
{}

/// What keeps the counts keeps all ten of these fields. The others record what was heard.
pub fn kept_counts()
    ensures { (before after : PaceView) → KeepsCount before after → after ≡ record after {
      period = before.period;
      patience = before.patience;
      mode = before.mode;
      confirm = before.confirm;
      identify = before.identify;
      left = before.left;
      tries = before.tries;
      asked = before.asked;
      requested = before.requested;
      wanted = before.wanted;
    } }
{}

/// The mode's command follows a command of several bytes, and nothing follows one of a single byte.
pub fn what_follows_a_command()
    ensures byte { (mode : UpdateMode) (said : CommandContent) →
        length (command_encoding said) ≡ 1 → sent_bytes mode said ≡ command_encoding said }
    ensures frame { (mode : UpdateMode) (said : CommandContent) →
        length (command_encoding said) ≢ 1 →
        sent_bytes mode said ≡ command_encoding said ++ command_encoding (mode_command mode) }
{}
