//! Facts about lines, writes and runs. Nothing here runs: the contract of each function states a
//! fact.

ghost use Rattle.std.specs.Prelude.{◌≡◌, ◌≤◌, ◌⊎◌, [], ◌∷◌, ◌++◌, ℕ, Bool, List, Ok, Err, Option, Result, Some, None, codes, map, false, length, true};
ghost use Rattle.std.specs.Io.KnownBytes.{IsAtEnd};
ghost use Rattle.dgt_values.specs.Equality.{CloneIsSame, EqualIsSame};
ghost use Rattle.dgt_message.specs.declared.known.KnownCode.{KnownCode};
ghost use Rattle.dgt_message.specs.Clock.{Absence, ClockState, Times as BothTimes, time_of, times_of};
ghost use Rattle.dgt_message.specs.Content.{carried_as};
ghost use Rattle.dgt_message.specs.Content.Content.{carried, times};
ghost use Rattle.dgt_decode.specs.Grammar.{Cut, Event, Message, Placed, at_place, events, unfinished_message};
ghost use Rattle.dgt_command.specs.declared.ids.KnownId.{KnownId};
ghost use Rattle.dgt_names.specs.declared.battery.BatteryState.{BatteryState};
ghost use Rattle.dgt_names.specs.declared.clock.Button.{Button};
ghost use Rattle.dgt_names.specs.declared.clock.Signal.{Signal};
ghost use Rattle.dgt_names.specs.Names.{IsBattery, IsSignal};
ghost use Rattle.dgt_lines.specs.Clocks.{clock_text};
ghost use Rattle.dgt_lines.specs.CommandLaws.{EachCharacterIsShown, EachIsPrinted, EachIsPrintedOnce, OthersAreQuestionMarks, TextsAppend};
ghost use Rattle.dgt_lines.specs.CommandLines.{Prints};
ghost use Rattle.dgt_lines.specs.Commanding.{IsListed};
ghost use Rattle.dgt_lines.specs.Device.{IsNewDevice};
ghost use Rattle.dgt_lines.specs.Lines.{events_after, lines, lines_after, monitor_text, placed_line, unfinished_line};
ghost use Rattle.dgt_lines.specs.Logging.{IsLogged};
ghost use Rattle.dgt_lines.specs.Logs.{HasLog};
ghost use Rattle.dgt_lines.specs.Marks.{GivesEnd, TookSome};
ghost use Rattle.dgt_lines.specs.Monitoring.{IsInSink, IsMonitored};
ghost use Rattle.dgt_lines.specs.NamedLines.{AreMonitored, AreNamedLines, IsNamed, acknowledged, battery_text, named_line, signal_text, times_name};
ghost use Rattle.dgt_lines.specs.Picturing.{IsPictured};
ghost use Rattle.dgt_lines.specs.RunLaws.{RunsThreeTurns};
ghost use Rattle.dgt_lines.specs.Turns.{InTurns, Ran, change};
ghost use Rattle.dgt_lines.specs.Pictures.{LastLineIsPicture, picture_after_events, picture_lines, picture_reported, pictures_text};
ghost use Rattle.dgt_lines.specs.Reports.{ClockLeavesReports, DoubtsKeepThePicture, DoubtsLeavePictures, FirstFaultsAreReported, HiddenClockIsSilent, IgnoredFaultsAreSilent, LastLineIsClock, OtherClocksAreReported, report_lines, report_text, state_after_events, state_from, text_from};
ghost use Rattle.dgt_lines.specs.Writing.{InARow, Writes};
ghost use Rattle.dgt_lines.specs.declared.doubts.PictureState.{PictureState};

use crate::doubts::{Doubt, PictureState, Shown};
use crate::faults::RunFault;
use crate::std_device::Device;
use crate::streams::{Failed, Sink, Source};
use crate::{COMMANDS_ROOM, LINES_ROOM, LOG_ROOM, MAX_CHUNK, PICTURES_ROOM};
use dgt_decode::laws;
use std::io::{Read, Write};

/// The most bytes that an engine reads at once, and the size of its buffer for their lines.
pub fn limits()
    ensures chunk { MAX_CHUNK ≡ 4096 }
    ensures lines { LINES_ROOM ≡ 32768 }
    ensures pictures { PICTURES_ROOM ≡ 66560 }
    ensures commands { COMMANDS_ROOM ≡ 32768 }
    ensures log { LOG_ROOM ≡ 32768 }
{}

/// `==` is true exactly if both values are the same.
pub fn equal_is_same()
    ensures run_fault { EqualIsSame ⟦<RunFault as PartialEq>⟧.eq }
    ensures failed { EqualIsSame ⟦<Failed as PartialEq>⟧.eq }
{}

/// A clone equals the original, and cloning never fails.
pub fn clone_is_same()
    ensures run_fault { CloneIsSame ⟦<RunFault as Clone>⟧ }
    ensures failed { CloneIsSame ⟦<Failed as Clone>⟧ }
    ensures doubt { CloneIsSame ⟦<Doubt as Clone>⟧ }
    ensures shown { CloneIsSame ⟦<Shown as Clone>⟧ }
{}

/// The sink takes the bytes of several calls in their order, up to the first refusal.
pub fn writes_in_a_row<W: Sink>()
    ensures { InARow W.Sink }
{}

/// A read gives the end if it succeeds with no bytes into a buffer that isn't empty. A write took
/// bytes if it succeeded with at least one.
pub fn ends_and_bytes()
    ensures end { GivesEnd {E = Failed} (Ok 0) 1 }
    ensures no_room { ¬ (GivesEnd {E = Failed} (Ok 0) 0) }
    ensures given { ¬ (GivesEnd {E = Failed} (Ok 1) 2) }
    ensures took { TookSome {E = Failed} (Ok 1) }
    ensures none { ¬ (TookSome {E = Failed} (Ok 0)) }
    ensures refused { (fault : Failed) → ¬ (GivesEnd (Err fault) 1) × ¬ (TookSome (Err fault)) }
{}

/// The sink after a call that writes 65 to a sink with 64. If the call returns `Ok`, the sink has
/// both, and has not failed. Otherwise the sink refused. No call came after a refusal.
pub fn what_writes_leave<W: Sink>()
    ensures written { (a b : W) → Writes {A = Unit {0}} W.Sink a b (Ok tt) (65 ∷ [])
        → W.written a ≡ Some (64 ∷ []) → W.written b ≡ Some (64 ∷ 65 ∷ []) }
    ensures stands { (a b : W) → Writes {A = Unit {0}} W.Sink a b (Ok tt) (65 ∷ [])
        → W.failed a ≡ false → W.failed b ≡ false }
    ensures in_time { (a b : W) → Writes {A = Unit {0}} W.Sink a b (Ok tt) (65 ∷ [])
        → W.failed a ≡ false → W.late a ≡ false → W.late b ≡ false }
    ensures fault { (a b : W) (fault : RunFault) →
        Writes {A = Unit {0}} W.Sink a b (Err fault) (65 ∷ []) → fault ≡ RunFault.WriteFailed }
    ensures refused { (a b : W) (fault : RunFault) →
        Writes {A = Unit {0}} W.Sink a b (Err fault) (65 ∷ []) → W.failed b ≡ true }
    ensures stopped_in_time { (a b : W) (fault : RunFault) →
        Writes {A = Unit {0}} W.Sink a b (Err fault) (65 ∷ [])
        → W.failed a ≡ false → W.late a ≡ false → W.late b ≡ false }
{}

/// If a sink with 64 refuses while a call writes 65 to it, it then has 64 or both.
pub fn what_refusals_leave<W: Sink>()
    ensures { (a b : W) (fault : RunFault) →
        Writes {A = Unit {0}} W.Sink a b (Err fault) (65 ∷ []) → W.written a ≡ Some (64 ∷ [])
        → (W.written b ≡ Some (64 ∷ [])) ⊎ (W.written b ≡ Some (64 ∷ 65 ∷ [])) }
{}

/// A new device has the bytes of the reader or writer in it. It was not read, no bytes wait for a
/// flush, and no other mark is set.
pub fn new_devices<T: Read + Write>()
    ensures left { (device : Device T) (inner : T) → IsNewDevice device inner
        → ⟦<Device<T> as Source>⟧.left device ≡ T.remaining inner }
    ensures written { (device : Device T) (inner : T) → IsNewDevice device inner
        → ⟦<Device<T> as Sink>⟧.written device ≡ T.contents inner }
    ensures failed { (device : Device T) (inner : T) → IsNewDevice device inner
        → (⟦<Device<T> as Source>⟧.failed device ≡ false)
        × (⟦<Device<T> as Sink>⟧.failed device ≡ false) }
    ensures ended { (device : Device T) (inner : T) → IsNewDevice device inner
        → ⟦<Device<T> as Source>⟧.ended device ≡ false }
    ensures reads { (device : Device T) (inner : T) → IsNewDevice device inner
        → ⟦<Device<T> as Source>⟧.reads device ≡ 0 }
    ensures flushed { (device : Device T) (inner : T) → IsNewDevice device inner
        → ⟦<Device<T> as Sink>⟧.flushed device ≡ true }
    ensures late { (device : Device T) (inner : T) → IsNewDevice device inner
        → (⟦<Device<T> as Source>⟧.late device ≡ false)
        × (⟦<Device<T> as Sink>⟧.late device ≡ false) }
{}

/// The marks after a run of at most three turns, by its result. Before the run the source was read
/// seven times, no bytes waited for a flush, and no other mark was set.
pub fn marks_after_three_turns<R: Source, W: Sink>()
    ensures all_read { (a b : R) (c d : W) →
        RunsThreeTurns R.Source W.Sink a b c d (Ok tt) → IsAtEnd (R.left b) }
    ensures ended { (a b : R) (c d : W) →
        RunsThreeTurns R.Source W.Sink a b c d (Ok tt) → R.ended b ≡ true }
    ensures not_ended { (a b : R) (c d : W) →
        RunsThreeTurns R.Source W.Sink a b c d (Err RunFault.TooManyTurns) → R.ended b ≡ false }
    ensures source_failed { (a b : R) (c d : W) →
        RunsThreeTurns R.Source W.Sink a b c d (Err RunFault.ReadFailed) → R.failed b ≡ true }
    ensures source_stands { (a b : R) (c d : W) →
        RunsThreeTurns R.Source W.Sink a b c d (Err RunFault.WriteFailed) → R.failed b ≡ false }
    ensures sink_failed { (a b : R) (c d : W) →
        RunsThreeTurns R.Source W.Sink a b c d (Err RunFault.WriteFailed) → W.failed d ≡ true }
    ensures sink_stands { (a b : R) (c d : W) →
        RunsThreeTurns R.Source W.Sink a b c d (Err RunFault.ReadFailed) → W.failed d ≡ false }
    ensures source_in_time { (a b : R) (c d : W) (r : Result (Unit {0}) RunFault) →
        RunsThreeTurns R.Source W.Sink a b c d r → R.late b ≡ false }
    ensures sink_in_time { (a b : R) (c d : W) (r : Result (Unit {0}) RunFault) →
        RunsThreeTurns R.Source W.Sink a b c d r → W.late d ≡ false }
    ensures reads { (a b : R) (c d : W) (r : Result (Unit {0}) RunFault) →
        RunsThreeTurns R.Source W.Sink a b c d r → R.reads b ≤ 10 }
    ensures all_reads { (a b : R) (c d : W) →
        RunsThreeTurns R.Source W.Sink a b c d (Err RunFault.TooManyTurns) → R.reads b ≡ 10 }
    ensures flushed { (a b : R) (c d : W) →
        RunsThreeTurns R.Source W.Sink a b c d (Err RunFault.ReadFailed) → W.flushed d ≡ true }
{}

/// A run that reads 1 and 2 of 1, 2 and 3 leaves 3. A run that writes 65 to a sink with 64 leaves
/// both there. A run that had too many turns read a byte in each of them.
pub fn what_runs_read_and_write<R: Source, W: Sink>()
    ensures read { (a b : R) (c d : W) → Ran R.Source W.Sink (change a b) (change c d)
        (λ bytes out. bytes ≡ 1 ∷ 2 ∷ []) → R.left a ≡ Some (1 ∷ 2 ∷ 3 ∷ [])
        → R.left b ≡ Some (3 ∷ []) }
    ensures written { (a b : R) (c d : W) → Ran R.Source W.Sink (change a b) (change c d)
        (λ bytes out. out ≡ 65 ∷ []) → W.written c ≡ Some (64 ∷ [])
        → W.written d ≡ Some (64 ∷ 65 ∷ []) }
    ensures turns { (bytes out : List ℕ) → InTurns {A = Unit {0}} 3 (Err RunFault.TooManyTurns)
        (λ bytes out. out ≡ 65 ∷ []) bytes out → 3 ≤ length bytes }
    ensures holds { (bytes out : List ℕ) → InTurns {A = Unit {0}} 3 (Ok tt)
        (λ bytes out. out ≡ 65 ∷ []) bytes out → out ≡ 65 ∷ [] }
{}

/// What `monitor` wrote for the bytes that it read, by its result.
pub fn what_monitor_leaves()
    ensures whole { (bytes out : List ℕ) → IsMonitored {A = Unit {0}} (Ok tt) bytes out
        → out ≡ monitor_text bytes }
    ensures read_failed { (bytes out : List ℕ) →
        IsMonitored {A = Unit {0}} (Err RunFault.ReadFailed) bytes out → out ≡ lines bytes }
    ensures too_many_turns { (bytes out : List ℕ) →
        IsMonitored {A = Unit {0}} (Err RunFault.TooManyTurns) bytes out → out ≡ lines bytes }
    ensures write_failed { (bytes out : List ℕ) →
        IsMonitored {A = Unit {0}} (Err RunFault.WriteFailed) bytes out
        → (rest : List ℕ) × (monitor_text bytes ≡ out ++ rest) }
    ensures no_bad_line { (bytes out : List ℕ) (line at : ℕ) →
        ¬ (IsMonitored {A = Unit {0}} (Err (RunFault.BadLine line at)) bytes out) }
{}

/// What `picture` wrote for the bytes that it read, if it returned `Ok`.
pub fn what_pictures_leave()
    ensures picture { (bytes out : List ℕ) →
        IsPictured {A = Unit {0}} false false (Ok tt) bytes out → out ≡ pictures_text bytes }
    ensures reports { (doubts clock : Bool) (bytes out : List ℕ) →
        IsPictured {A = Unit {0}} doubts clock (Ok tt) bytes out
        → out ≡ report_text doubts clock bytes }
{
    doubts_leave_pictures();
}

/// What `commands` wrote is the only text of the bytes that it read. Its result decides whether the
/// text includes the last line for an unfinished command.
pub fn what_commands_leaves()
    ensures { (r : Result (Unit {0}) RunFault) (bytes out rest text : List ℕ) →
        IsListed r bytes out → Prints 0 bytes rest text
        → IsInSink r text (text ++ unfinished_line (length bytes) rest) out }
{
    one_text();
}

/// Events have exactly one text of what a board stored.
pub fn one_log()
    ensures each { (placed : List Placed) → (text : List ℕ) × HasLog placed text }
    ensures once { (placed : List Placed) (text other : List ℕ) →
        HasLog placed text → HasLog placed other → text ≡ other }
{
    dgt_stored::laws::bodies_are_read();
}

/// What `log` wrote is the only text of the events that it read, by its result.
pub fn what_log_leaves()
    ensures { (r : Result (Unit {0}) RunFault) (bytes out text : List ℕ) →
        IsLogged r bytes out → HasLog (events bytes) text → IsInSink r text text out }
{
    dgt_stored::laws::bodies_are_read();
}

/// What `monitor_names` wrote is the only text of the events that it read. Its result decides
/// whether the text includes the last line for an unfinished message.
pub fn what_monitor_names_leaves()
    ensures { (r : Result (Unit {0}) RunFault) (bytes out text : List ℕ) →
        AreMonitored r bytes out → AreNamedLines (events bytes) text →
        IsInSink r text (text ++ unfinished_line (length bytes) (unfinished_message bytes)) out }
{
    one_name();
}

/// An event has at most one name, and events have one text. The line of an event without a name is
/// that of `monitor`.
pub fn one_name()
    ensures name { (event : Event) (one other : Option (List ℕ)) →
        IsNamed event one → IsNamed event other → one ≡ other }
    ensures some { (placed : List Placed) → (text : List ℕ) × AreNamedLines placed text }
    ensures once { (placed : List Placed) (one other : List ℕ) →
        AreNamedLines placed one → AreNamedLines placed other → one ≡ other }
    ensures without { (x : Placed) → named_line x None ≡ placed_line x }
{
    dgt_names::laws::one_is_said();
    dgt_names::laws::one_is_meant();
}

/// The names of the signals of clocks.
#[tactic(auto, unfolding(crate::specs::NamedLines::signal_text))]
pub fn signals_by_example()
    ensures said { (ack : List ℕ) (signal : Signal) → IsSignal ack signal →
        IsNamed (acknowledged ack) (Some (signal_text signal)) }
    ensures none { (ack : List ℕ) → ((signal : Signal) → ¬ (IsSignal ack signal)) →
        IsNamed (acknowledged ack) None }
    ensures some { (ack : List ℕ) (signal : Signal) → IsSignal ack signal →
        ¬ (IsNamed (acknowledged ack) None) }
    ensures off { signal_text Signal.Off ≡ codes "switched off" }
    ensures ready { signal_text Signal.Ready ≡ codes "ready" }
    ensures version { signal_text (Signal.Version 2 1) ≡ codes "version 2.1" }
    ensures pressed { map (λ button. signal_text (Signal.Pressed button)) (Button.Back ∷ Button.Plus
        ∷ Button.Run ∷ Button.Minus ∷ Button.Ok ∷ []) ≡ codes "back pressed" ∷ codes "plus pressed"
        ∷ codes "run pressed" ∷ codes "minus pressed" ∷ codes "ok pressed" ∷ [] }
    ensures done { map (λ id. signal_text (Signal.Done id)) (KnownId.Display ∷ KnownId.Icons
        ∷ KnownId.End ∷ KnownId.Button ∷ KnownId.SetAndRun ∷ KnownId.Beep ∷ KnownId.Text ∷ [])
        ≡ codes "display done" ∷ codes "icons done" ∷ codes "end done" ∷ codes "button done"
        ∷ codes "setandrun done" ∷ codes "beep done" ∷ codes "text done" ∷ [] }
{}

/// A line with a name, by example. Lines are in the order of their events.
pub fn named_lines_by_example()
    ensures two { (x y : Placed) (one other : Option (List ℕ)) → IsNamed x.event one →
        IsNamed y.event other →
        AreNamedLines (x ∷ y ∷ []) (named_line x one ++ named_line y other) }
    ensures line { named_line (at_place 9 (acknowledged (0x10 ∷ 0x81 ∷ 0x00 ∷ 0x00 ∷ [])))
        (Some (codes "ready")) ≡ codes "00000009 ack 10 81 00 00 07: ready\n" }
{}

/// The names of times, by example.
#[tactic(auto, unfolding(crate::specs::NamedLines::times_name))]
pub fn times_by_example()
    ensures named { (t : BothTimes) → IsNamed (Message (times t)) (Some (times_name t)) }
    ensures right { times_name (times_of (time_of 1 30 0 0) (time_of 0 0 1 0) 0x01)
        ≡ codes "lever right down" }
    ensures left { times_name (times_of (time_of 1 30 0 1) (time_of 0 0 0 6) 0x02)
        ≡ codes "lever left down, first blocked, second per move, second flag fallen" }
{}

/// The text of a clock, by example: with no flag, and with some of each side.
pub fn clocks_by_example()
    ensures none { clock_text (ClockState.times (times_of (time_of 1 0 2 0) (time_of 0 0 1 0) 0x15))
        ≡ codes "clock 1:00:02 0:00:01 running white low" }
    ensures flags { clock_text (ClockState.times (times_of (time_of 1 0 2 7) (time_of 0 0 0 4) 0))
        ≡ codes "clock 1:00:02 0:00:00 stopped - leftblocked leftpermove leftfallen rightfallen" }
    ensures none_is_connected { (absence : Absence) →
        clock_text (ClockState.no_clock absence) ≡ codes "clock none" }
{}

/// The names of batteries, by example. Unknown parts are omitted.
#[tactic(auto, unfolding(crate::specs::NamedLines::battery_text))]
pub fn batteries_by_example()
    ensures said { (body : List ℕ) (state : BatteryState) → IsBattery body state →
        IsNamed (Message (carried_as KnownCode.Battery body)) (Some (battery_text state)) }
    ensures none { (body : List ℕ) → ((state : BatteryState) → ¬ (IsBattery body state)) →
        IsNamed (Message (carried_as KnownCode.Battery body)) None }
    ensures known { battery_text (record {
      percent = Some 7;
      hours_left = Some 4;
      minutes_left = Some 5;
      hours_on = 1;
      minutes_on = 6;
      days_resting = 2;
      hours_resting = 3;
      minutes_resting = 8;
      charging = false;
      discharging = true;
    })
        ≡ codes "7 percent, 4:05 left, on 1:06, rested 2 days 3:08, discharging" }
    ensures unknown { battery_text (record {
      percent = None;
      hours_left = Some 4;
      minutes_left = None;
      hours_on = 1;
      minutes_on = 6;
      days_resting = 2;
      hours_resting = 3;
      minutes_resting = 8;
      charging = true;
      discharging = false;
    })
        ≡ codes "on 1:06, rested 2 days 3:08, charging" }
{}

/// The names of messages that carry a text are these texts.
pub fn texts_by_example()
    ensures serial { IsNamed (Message (carried_as KnownCode.Serial (codes "00001")))
        (Some (codes "00001")) }
    ensures long_serial { IsNamed (Message (carried_as KnownCode.LongSerial (codes "3.00")))
        (Some (codes "3.00")) }
    ensures trademark { IsNamed (Message (carried_as KnownCode.Trademark (codes "DGT ~")))
        (Some (codes "DGT ~")) }
    ensures no_text { IsNamed (Message (carried_as KnownCode.Trademark (0x0d ∷ 0x0a ∷ []))) None }
    ensures no_name { (name : List ℕ) →
        ¬ (IsNamed (Message (carried_as KnownCode.Trademark (0x0d ∷ 0x0a ∷ []))) (Some name)) }
    ensures other { IsNamed (Message (carried 0x0f (codes "DGT"))) None }
    ensures fault { (have : ℕ) → IsNamed (Cut have) None }
{}

/// The lines of two chunks in a row are those of the first, and then those of the second.
pub fn lines_append()
    ensures { (bytes chunk : List ℕ) → lines (bytes ++ chunk)
        ≡ lines bytes ++ lines_after (unfinished_message bytes) (length bytes) chunk }
{
    laws::chunks_in_a_row();
}

/// Bytes after others have exactly one text of commands, and one rest of a command.
pub fn one_text()
    ensures printed { EachIsPrinted }
    ensures once { EachIsPrintedOnce }
{
    dgt_command::laws::words_of_bytes();
}

/// The text of commands in two chunks is that of the first, and then that of the rest of the first
/// with the second.
pub fn texts_append()
    ensures { TextsAppend }
{}

/// The lines of commands print the character of each of the segments of `dgt_values::segment`, and
/// a question mark for other segments.
pub fn segments_are_read_back()
    ensures characters { EachCharacterIsShown }
    ensures others { OthersAreQuestionMarks }
{}

/// The lines of `picture` for two chunks are those of the first, and then those of the second. The
/// same holds for the picture.
pub fn pictures_append()
    ensures lines { (bytes chunk : List ℕ) → pictures_text (bytes ++ chunk)
        ≡ pictures_text bytes ++ picture_lines (picture_reported bytes)
        (events_after (unfinished_message bytes) (length bytes) chunk) }
    ensures picture { (bytes chunk : List ℕ) → picture_reported (bytes ++ chunk)
        ≡ picture_after_events (picture_reported bytes)
        (events_after (unfinished_message bytes) (length bytes) chunk) }
{
    laws::chunks_in_a_row();
}

/// The last placement that is printed is that of the picture after all messages. If the picture is
/// unknown, none is printed.
pub fn last_line_is_picture()
    ensures { LastLineIsPicture }
{}

/// The reports of two chunks are those of the first, and then those of the second. The same holds
/// for the state.
pub fn reports_append()
    ensures lines { (before : PictureState) (bytes chunk : List ℕ) →
        text_from before (bytes ++ chunk)
        ≡ text_from before bytes ++ report_lines (state_from before bytes)
        (events_after (unfinished_message bytes) (length bytes) chunk) }
    ensures state { (before : PictureState) (bytes chunk : List ℕ) →
        state_from before (bytes ++ chunk)
        ≡ state_after_events (state_from before bytes)
        (events_after (unfinished_message bytes) (length bytes) chunk) }
{
    laws::chunks_in_a_row();
}

/// The lines with placements, and the picture, are the same with and without doubts. If faults
/// raise no doubt, there are no other lines.
pub fn doubts_leave_pictures()
    ensures shown { DoubtsLeavePictures }
    ensures picture { DoubtsKeepThePicture }
    ensures ignored { IgnoredFaultsAreSilent }
{}

/// A fault is reported exactly if it is the first since a dump. A clock message that is refused for
/// a digit doesn't count as a fault.
pub fn first_faults_are_reported()
    ensures { FirstFaultsAreReported }
{}

/// All lines but those of the clock are the same with and without the clock. If it is not shown, it
/// has no lines.
pub fn clock_leaves_reports()
    ensures others { ClockLeavesReports }
    ensures silent { HiddenClockIsSilent }
{}

/// The last line of the clock has the text of the clock after all messages. If the clock is
/// unknown, it has no lines.
pub fn last_line_is_clock()
    ensures { LastLineIsClock }
{}

/// A clock message is reported exactly if its text differs from the last one.
pub fn other_clocks_are_reported()
    ensures { OtherClocksAreReported }
{}
