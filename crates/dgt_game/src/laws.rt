//! Laws of a recogniser. Each function does nothing at run time: its contract states the facts.

ghost use Rattle.std.specs.Prelude.{◌≡◌, ◌≢◌, ◌<◌, ◌≤◌, ◌+◌, ◌-◌, ◌^◌, ℕ, Bool, true, false, List, [], ◌∷◌, ◌++◌, Option, Some, Contains};
ghost use Rattle.dgt_values.specs.declared.pieces.Piece.{Piece};
ghost use Rattle.dgt_chess.specs.declared.state.State.{State};
ghost use Rattle.dgt_game.specs.declared.event.Event.{Event};
ghost use Rattle.dgt_game.specs.declared.recogniser.Recogniser.{Recogniser};
ghost use Rattle.dgt_game.specs.Filed.{AllIsFile, AskedStays, AsksAreLegal, CorrectionsKeepNothing, EndedIsKept, NoLineIsDeleted, OneBegins, StepsAreMade, WholeIsKept};
ghost use Rattle.dgt_game.specs.Finding.{IsFound, MovedIsSearched, SearchIsDue, WhatFollowsIsFound};
ghost use Rattle.dgt_game.specs.Laws.{BackIsCounted, EndIsShown, HeldMayLack, JoinedIsOne, LegalIsJoined, NoneAndOne, OneIsGone, OneIsShown, OneLine, OthersAreHeld, SeveralAreShown, ShownIsHeld, StartIsShown, UnseenIsOnly};
ghost use Rattle.dgt_game.specs.Planning.{ElseMayBegin, FarIsCounted, InTurnIsNotRefused, IsLostOr, IsPlanned, LiftedIsGone, LostIsReported, MovingBothIsSettingUp, NothingFits, OneFits, PossibleIsHopeful, WhyHopeless};
ghost use Rattle.dgt_game.specs.Reading.{EarlierAreKnown, ElseStartIsKnown, GoneIsKnown, IsExplained, LiveForTen, LiveHasBegun, ManHasMoved, MovesAreKnown, RepeatsInPlace, RepetitionIsRead, SeenIsFollowed, StartIsKnown, TwoAreKnown, TwoToFourAreSome};
ghost use Rattle.dgt_game.specs.declared.node.{Place.{Place}, Step.{Step}};
ghost use Rattle.dgt_game.specs.Memory.{step_at, steps};
ghost use Rattle.dgt_game.specs.Missing.{LiftedIsNotGone, TheirsIsOnlyGone};
ghost use Rattle.dgt_game.specs.Recogniser.{Knows, new_recogniser};
ghost use Rattle.dgt_game.specs.Results.{CentreIsMiddle, ExplainedIsLike, KingsAreNamed, LostInTurn, MatedHasLost, NotFound, NotLost, OneByKings, OneByRules, OneOther, OneResult, OthersStand, ShownIsExplained, Stay};
ghost use Rattle.dgt_game.specs.Runs.{CallsAreRuns, IsLegalAndShown, LastWasShown, NothingWasSure, ReportedInOrder, ShownMayEnd, SureIsCounted, SureIsSeen, SureWasShown};
ghost use Rattle.dgt_game.specs.Settling.{BeginningHasRested, KingsAreOutside, KingsAreTaken, KingsHaveRested, LastIsShown, NothingWaitsLong, ReplacingHasRested, ReportedHasRested, ReportedHasSettled, ReportedIsNext, ReportedIsShown, ReportsNow, SeenIsAnswered};
ghost use Rattle.dgt_game.specs.Standing.{HasRested, OnlyShownIsReported, RestIsReported, ShownIsNext, Stands};
ghost use Rattle.dgt_game.specs.Sure.{KnowsSure};
ghost use Rattle.dgt_game.specs.Timing.{Calls, Due, DueEnds, DueIsRight, IsIdle, IsNext, NoCallMatters, with_report};
ghost use Rattle.dgt_game.specs.Told.{Told};
ghost use Rattle.dgt_game.specs.Unseen.{BeforeKingsIsOnly};
ghost use Rattle.dgt_game.specs.Waiting.{CallsFollowOn, IsQuiet, ResultIsFound, RightIfAway, RunsInTurn, Waits};

use crate::event::GAP;
use crate::times::{
    AT_ONCE, CASTLE, FAR, FINAL, FIRST, GLANCE, HANDS, JUMP, KEPT, KINGS, LONG, NEAR, NEW,
    NEW_STILL, PRESS, REPLACE, ROOTS, SEEN, SETTLE, SHADOW, STAYS,
};

/// What is reported is legal and was shown, over whole runs.
pub fn reports_are_legal()
    ensures are { IsLegalAndShown }
    ensures order { ReportedInOrder }
    ensures runs { CallsAreRuns }
{}

/// Nothing waits to be reported at first, and nothing is planned.
pub fn nothing_waits_at_first()
    ensures waits { Waits new_recogniser }
    ensures planned { IsPlanned new_recogniser }
    ensures lost { IsLostOr new_recogniser }
    ensures hopeless { WhyHopeless new_recogniser }
    ensures stands { Stands new_recogniser }
    ensures sure { KnowsSure [] new_recogniser }
    ensures found { IsFound new_recogniser }
{}

/// What events say of the line.
pub fn what_events_say()
    ensures joined { LegalIsJoined }
    ensures line { JoinedIsOne }
    ensures moves { NoneAndOne }
    ensures one { OneLine }
    ensures only { UnseenIsOnly }
    ensures back { BackIsCounted }
{}

/// What was shown of a line.
pub fn what_was_shown()
    ensures several { SeveralAreShown }
    ensures one { OneIsShown }
    ensures end { EndIsShown }
    ensures others { OthersAreHeld }
    ensures gone { OneIsGone }
    ensures may { HeldMayLack }
    ensures pieces { ShownIsHeld }
    ensures start { StartIsShown }
{}

/// What was shown for sure of a line.
pub fn what_was_sure()
    ensures seen { SureIsSeen }
    ensures counted { SureIsCounted }
    ensures runs { SureWasShown }
    ensures last { LastWasShown }
    ensures none { NothingWasSure }
    ensures ends { ShownMayEnd }
{}

/// No played line is deleted, and corrections keep nothing.
pub fn no_line_is_deleted()
    ensures stays { NoLineIsDeleted }
    ensures whole { WholeIsKept }
    ensures ended { EndedIsKept }
    ensures corrections { CorrectionsKeepNothing }
    ensures asked { AskedStays }
    ensures legal { AsksAreLegal }
    ensures all { AllIsFile }
    ensures begins { OneBegins }
    ensures steps { StepsAreMade }
{}

/// Results, and lines that are lost.
pub fn what_results_say()
    ensures rules { OneByRules }
    ensures kings { OneByKings }
    ensures other { OneOther }
    ensures once { OneResult }
    ensures lost { LostInTurn }
    ensures away { RightIfAway }
    ensures found { ResultIsFound }
    ensures stay { (events : List Event) → ((count : ℕ) (stays : Bool)
        → ¬ (Contains events (Event.Back count stays)))
        → ((state : State) (is_turned : Bool) → ¬ (Contains events (Event.Begun state is_turned)))
        → Stay events }
    ensures not_found { (events : List Event) → ¬ (Contains events Event.Found)
        → NotFound events }
    ensures not_lost { (events : List Event) → ((squares : ℕ) →
        ¬ (Contains events (Event.Lost squares))) → NotLost events }
{}

/// Results, and lines that are lost, over whole runs.
pub fn what_runs_say()
    ensures calls { CallsFollowOn }
    ensures turn { RunsInTurn }
{}

/// What is planned, and why nothing is.
pub fn what_plans_say()
    ensures one { OneFits }
    ensures nothing { NothingFits }
    ensures lost { LostIsReported }
    ensures hopeful { PossibleIsHopeful }
    ensures turn { InTurnIsNotRefused }
{}

/// What rests on the board is reported, and only what it shows.
pub fn what_rests_is_reported()
    ensures rest { RestIsReported }
    ensures only { OnlyShownIsReported }
    ensures next { ShownIsNext }
    ensures enough { (self : Recogniser) (now : ℕ) → self.is_sure ≡ true
        → self.is_confirmed ≡ true → self.since + 60000 ≤ now → IsIdle now self
        → HasRested now self }
{}

/// What is reported has rested or was answered, and doesn't wait for long.
pub fn what_is_reported_has_rested()
    ensures rested { ReportedHasRested }
    ensures settled { ReportedHasSettled }
    ensures shown { ReportedIsShown }
    ensures next { ReportedIsNext }
    ensures last { LastIsShown }
    ensures replacing { ReplacingHasRested }
    ensures long { NothingWaitsLong }
    ensures answered { SeenIsAnswered }
    ensures enough { (self new : Recogniser) (event : Event) (now : ℕ) → IsPlanned self
        → IsQuiet self → now < 2 ^ 64 - 1 → Due now self (Some event) new
        → ReportsNow now self event new }
    ensures at { (self : Recogniser) (step : Step) (shown : List (List Piece)) (line : List Told)
        → Knows shown line self → self.is_next ≡ true → self.has_kings ≡ false
        → self.here ≢ Place.Line 0 → step_at (steps self.memory.line.items)
        (steps self.memory.seen.items) self.here ≡ Some step → IsNext self step }
{}

/// What several half-moves lead to is found.
pub fn what_follows_is_found()
    ensures found { WhatFollowsIsFound }
    ensures due { (self : Recogniser) (now : ℕ) → self.since + 1000 ≤ now → SearchIsDue now self }
    ensures doubt { (self : Recogniser) (now : ℕ) → self.is_behind ≡ true
        → self.has_kings ≡ false → self.since + 320 ≤ now → SearchIsDue now self }
{}

/// It doesn't matter how often `due` is called before.
pub fn no_call_matters()
    ensures matters { NoCallMatters }
    ensures none { (self : Recogniser) → Calls [] self [] self }
    ensures one { (old new : Recogniser) (now : ℕ) (report : Option Event) →
        Due now old report new → Calls (now ∷ []) old (with_report report []) new }
    ensures more { (old mid new : Recogniser) (times later : List ℕ) (early late : List Event) →
        Calls times old early mid → Calls later mid late new
        → Calls (times ++ later) old (early ++ late) new }
{}

/// Which pictures are known.
pub fn what_is_known()
    ensures first { IsExplained new_recogniser }
    ensures repeated { RepeatsInPlace new_recogniser }
    ensures moves { MovesAreKnown }
    ensures two { TwoAreKnown }
    ensures earlier { EarlierAreKnown }
    ensures start { StartIsKnown }
    ensures others { ElseStartIsKnown }
    ensures live { LiveHasBegun }
    ensures gone { GoneIsKnown }
    ensures theirs { TheirsIsOnlyGone }
    ensures lifted { LiftedIsNotGone }
{}

/// The times in milliseconds and the other limits, by their numbers.
pub fn limits()
    ensures settle { SETTLE ≡ 300 }
    ensures jump { JUMP ≡ 1000 }
    ensures castle { CASTLE ≡ 2000 }
    ensures replace { REPLACE ≡ 3000 }
    ensures press { PRESS ≡ 3000 }
    ensures at_once { AT_ONCE ≡ 10000 }
    ensures hands { HANDS ≡ 100 }
    ensures new { NEW ≡ 5000 }
    ensures new_still { NEW_STILL ≡ 60000 }
    ensures first { FIRST ≡ 1000 }
    ensures glance { GLANCE ≡ 320 }
    ensures kings { KINGS ≡ 1000 }
    ensures is_final { FINAL ≡ 10000 }
    ensures stays { STAYS ≡ 30000 }
    ensures shadow { SHADOW ≡ 3 }
    ensures near { NEAR ≡ 4 }
    ensures long { LONG ≡ 8 }
    ensures kept { KEPT ≡ 16 }
    ensures seen { SEEN ≡ 24 }
    ensures roots { ROOTS ≡ 8 }
    ensures gap { GAP ≡ 4 }
    ensures far { FAR ≡ 24 }
{}

/// How games end, by the rules and by kings.
pub fn how_games_end()
    ensures mated { MatedHasLost }
    ensures kings { KingsAreNamed }
    ensures centre { CentreIsMiddle }
    ensures others { OthersStand }
    ensures explained { ShownIsExplained }
    ensures like { ExplainedIsLike }
    ensures before { BeforeKingsIsOnly }
    ensures outside { KingsAreOutside }
    ensures live { LiveForTen }
{}

/// When a line begins or kings give a result, and after which rest.
pub fn when_lines_begin()
    ensures may { ElseMayBegin }
    ensures set_up { MovingBothIsSettingUp }
    ensures counted { FarIsCounted }
    ensures rested { BeginningHasRested }
    ensures kings { KingsHaveRested }
    ensures taken { KingsAreTaken }
{}

/// Which men have moved, which pieces are lifted, and what follows what was seen.
pub fn what_has_moved()
    ensures man { ManHasMoved }
    ensures searched { MovedIsSearched }
    ensures several { TwoToFourAreSome }
    ensures seen { SeenIsFollowed }
    ensures repeated { RepetitionIsRead }
    ensures lifted { LiftedIsGone }
{}

/// What a call of `due` does.
pub fn what_due_does()
    ensures right { DueIsRight }
    ensures idle { DueEnds }
{}
