//! The recogniser of games.

ghost use Rattle.std.specs.Prelude.{IsErr, IsOk, false, true, ◌≡◌, ◌≢◌, ◌≤◌, ◌↔◌, ◌⊎◌, ℕ, List, [], ◌∷◌, Option, Some, None, IfSome, IsTrue, MatchOption, Contains, option_map, map, length, slice_get, ◌<◌};
ghost use Rattle.dgt_values.specs.declared.pieces.Piece.{Piece};
ghost use Rattle.dgt_values.specs.Board.{DifferingSquares, pieces_of};
ghost use Rattle.dgt_chess.specs.Attacks.{piece_at, piece_of};
ghost use Rattle.dgt_chess.specs.declared.pieces.Man.{Man};
ghost use Rattle.dgt_game.specs.declared.node.Place.{Place};
ghost use Rattle.dgt_game.specs.declared.reading.Reading.{Reading};
ghost use Rattle.dgt_game.specs.declared.recogniser.{Over.{Over}, Search.{Search}};
ghost use Rattle.dgt_game.specs.Planning.{LacksOnly, LacksSome};
ghost use Rattle.dgt_game.specs.declared.view.View.{View};
ghost use Rattle.dgt_game.specs.Results.{IsCentre, IsKing};
ghost use Rattle.dgt_game.specs.Told.{Told};

use crate::event::{Event, GameResult};
use crate::memory::Memory;
use crate::node::{Node, Origin, Place, Returned, Way};
use crate::observation::{Observation, Sight};
use crate::reading::{Reading, lacks_some};
use crate::resting::Next;
use crate::staying::{NONE_STAYS, Staying};
use crate::times::{FINAL, GLANCE, NEAR};
use crate::view::{View, king};
use crate::ways::is_same;
use dgt_chess::{Colour, State};
use dgt_values::{Piece, Position, Square};
use thiserror::Error;

/// Something is due, and has to be reported first.
#[derive(Clone, Copy, Debug, PartialEq, Eq, Error)]
#[error("something is due first")]
pub struct StillDue;

/// Whether the line has a result.
#[derive(Clone, Copy, Debug, PartialEq, Eq)]
pub(crate) enum Over {
    No,
    /// By the rules, in a position that was shown from this time on.
    Rules(u64),
    Kings,
}

/// Whether the line is lost, and whether that is reported.
#[derive(Clone, Copy, Debug, PartialEq, Eq)]
pub(crate) enum Lost {
    No,
    /// To be reported, with the squares that differ.
    Now(u64),
    Reported,
    /// That it is found again is to be reported.
    Found,
}

/// Whether lines of several half-moves were looked for.
#[derive(Clone, Copy, Debug, PartialEq, Eq)]
pub(crate) enum Search {
    Waiting,
    Done,
    /// No line can begin with the position while the same clock runs, or none.
    Refused,
    /// Nothing will come of the position.
    Hopeless,
}

/// A recogniser of games.
#[derive(Drop)]
pub struct Recogniser {
    pub(crate) memory: Memory,
    pub(crate) over: Over,
    // to be reported before what the memory has to report, and after it
    pub(crate) lost: Lost,
    pub(crate) ended: Option<(GameResult, Over)>,
    // what is shown
    pub(crate) view: Option<View>,
    pub(crate) since: u64,
    pub(crate) sure_since: u64,
    pub(crate) changed: u64,
    pub(crate) is_sure: bool,
    pub(crate) is_confirmed: bool,
    pub(crate) running: Option<Colour>,
    // what it means, and whether that is to be reported
    pub(crate) here: Place,
    pub(crate) is_next: bool,
    pub(crate) search: Search,
    // what is done next
    pub(crate) next: Option<Next>,
    pub(crate) has_kings: bool,
    // what has happened since the line's last state was shown
    pub(crate) returned: Returned,
    pub(crate) is_behind: bool,
    pub(crate) is_set_up: bool,
    pub(crate) is_astray: bool,
    pub(crate) is_white_king_lifted: bool,
    pub(crate) is_black_king_lifted: bool,
    // which half-moves of the line stay
    pub(crate) staying: Staying,
}

impl Recogniser {
    ghost use Rattle.dgt_game.specs.Memory.{Holds, IsTold, Reads, steps, told_of};
    ghost use Rattle.dgt_game.specs.Finding.{IsFound};
    ghost use Rattle.dgt_game.specs.Planning.{AddsNone, IsAlmostLast, IsLifted, IsPlanned, SetsUp, HasKing, IsLostOr, PlacesOr, WhyHopeless};
    ghost use Rattle.dgt_game.specs.Reading.{HasLine, IsExplained, IsRepeated, RepeatsInPlace, TakesFewBack, HasRoom, IsLive, IsRoomFor, ReadsView, FollowsSeen, IsKnown, IsRead};
    ghost use Rattle.dgt_game.specs.Recogniser.{GoesOn, Knows, Sees, last_state, new_recogniser, picture_of, pictured};
    ghost use Rattle.dgt_game.specs.Reading.{ReadsView, Shows};
    ghost use Rattle.dgt_game.specs.Settling.{GoesAstray, HasGoneBack, IsAnswered, IsUnexplained, KingsStand, RemembersDoubt, StandsAnew};
    ghost use Rattle.dgt_game.specs.Staying.{after_step};
    ghost use Rattle.dgt_game.specs.declared.staying.TheConstants.{NONE_STAYS};
    ghost use Rattle.dgt_game.specs.Standing.{IsOpen, ShowsBut, Stands};
    ghost use Rattle.dgt_game.specs.Sure.{FollowsSure, IsMarked, KeepsSure, KnowsSure, MarksStart, SeesSure, WereSure};
    ghost use Rattle.dgt_game.specs.Timing.{IsIdle};
    ghost use Rattle.dgt_game.specs.Told.{WasShown, told_pieces};
    ghost use Rattle.dgt_game.specs.Waiting.{FindsLine, Follows, IsQuiet, Keeps, LostWaits, Waits, has_notice, has_result, is_lost, is_sure_sight, last_of};

    /// A recogniser that has seen nothing.
    pub fn new() -> Self
        ensures { result ≡ new_recogniser }
    {
        Recogniser {
            memory: Memory::new(),
            over: Over::No,
            lost: Lost::No,
            ended: None,
            view: None,
            since: 0,
            sure_since: 0,
            changed: 0,
            is_sure: false,
            is_confirmed: false,
            running: None,
            here: Place::Nowhere,
            is_next: false,
            search: Search::Hopeless,
            next: None,
            has_kings: false,
            returned: Returned {
                count: 0,
                is_sure: false,
            },
            is_behind: false,
            is_set_up: false,
            is_astray: false,
            is_white_king_lifted: false,
            is_black_king_lifted: false,
            staying: NONE_STAYS,
        }
    }

    /// Takes what is seen now. `Err` if something is due until then: nothing has changed, so call
    /// [`Recogniser::due`] with the same time until it returns nothing, and then this again.
    pub fn see(&mut self, observation: &Observation) -> Result<(), StillDue>
        ensures idle { IsOk result ↔ IsIdle observation.now.at self.old }
        ensures refused { IsErr result → self.new ≡ self.old }
        ensures seen { IsOk result → Sees self.old observation.now.sight self.new }
        ensures right { Waits self.old → Waits self.new }
        ensures follows { Follows self.old None self.new }
        ensures sure { IsOk result → self.new.is_sure ≡ is_sure_sight observation.now.sight }
        ensures doubt { IsOk result → is_sure_sight observation.now.sight ≡ false
            → IsQuiet self.new }
        ensures since { (self.new.since ≡ self.old.since)
            ⊎ (self.new.since ≡ observation.now.at) }
        ensures shown { IsOk result → (pictured self.new.view ≡ picture_of observation.now.sight)
            × (self.new.is_confirmed ≡ observation.now.is_confirmed) }
        ensures changed { IsOk result → pictured self.new.view ≢ pictured self.old.view
            → self.new.since ≡ observation.now.at }
        ensures stands { (shown : List (List Piece)) (line : List Told)
            → Knows shown line self.old → Stands self.old → Stands self.new }
        ensures answers { IsOk result → (shown : List (List Piece)) (line : List Told)
            → Knows shown line self.old → Stands self.old → IsAnswered self.new.memory }
        ensures found { IsFound self.old → IsFound self.new }
        ensures plans { IsOk result → IsPlanned self.new }
        ensures planned { IsPlanned self.old → IsPlanned self.new }
        ensures reads { length self.old.memory.seen.items < 21 → IsExplained self.old
            → IsExplained self.new }
        ensures lost { IsLostOr self.old → IsLostOr self.new }
        ensures hopeless { WhyHopeless self.old → WhyHopeless self.new }
        ensures since_seen { length self.old.memory.seen.items < 21 → (view : View)
            → self.new.view ≡ Some view → self.new.view ≢ self.old.view
            → FollowsSeen self.old.memory (pieces_of view.shown)
            → self.new.here ≢ Place.Nowhere }
        ensures repeated { RepeatsInPlace self.old → RepeatsInPlace self.new }
        ensures set_up { self.new.is_set_up ≡ true
            → (self.old.is_set_up ≡ true) ⊎ MatchOption self.new.view ⊥ (SetsUp self.new) }
        ensures sets_up { IsOk result → self.new.view ≢ self.old.view
            → IfSome self.new.view (λ view. SetsUp self.new view
            → self.new.is_set_up ≡ true) }
        ensures sight { IsOk result → SeesSure self.old observation.now.sight self.new }
        ensures running { IsOk result → self.new.running ≡ observation.now.running }
        ensures sure_since { self.old.is_sure ≡ true → self.new.sure_since ≡ self.old.sure_since }
        ensures staying { self.new.staying ≡ self.old.staying }
        ensures behind { IsOk result → (self.old.is_behind ≡ true) ⊎ ((self.old.is_sure ≡ true)
            × (is_sure_sight observation.now.sight ≡ false)) → (self.new.is_behind ≡ true)
            ⊎ ((self.new.is_sure ≡ true) × (self.new.here ≡ Place.Line 0)) }
        ensures astray { IsOk result → (self.old.is_astray ≡ true)
            ⊎ ((pictured self.new.view ≢ pictured self.old.view)
            × GoesAstray observation.now.at self.old) → (self.new.is_astray ≡ true)
            ⊎ ((self.new.is_sure ≡ true) × (self.new.here ≡ Place.Line 0)) }
    {
        if self.is_due(observation.at) {
            return Err(StillDue);
        }
        let view = View::of(observation.sight);
        let is_sure = matches!(observation.sight, Sight::Sure(_));
        let is_same_clock = observation.running == self.running;
        self.running = observation.running;
        if !View::is_same_picture(&view, &self.view) || is_sure != self.is_sure {
            self.leave(observation.at);
            if !self.is_sure {
                self.sure_since = observation.at;
            }
            self.is_sure = is_sure;
            self.is_behind = self.is_behind || !is_sure;
            self.is_confirmed = observation.is_confirmed;
            self.show(view, observation.at);
        }
        self.is_confirmed = observation.is_confirmed;
        self.running = observation.running;
        self.search = with_clock(self.search, is_same_clock);
        self.next = self.plan();
        Ok(())
    }

    /// The state that what was reported ends in.
    pub fn state(&self) -> Option<State>
        ensures last { result ≡ option_map (λ step. step.state) (last_of self.now.memory) }
        ensures line { (shown : List (List Piece)) (line : List Told)
            → Knows shown line self.now → result ≡ last_state line }
    {
        let node = self.memory.line.get(0)?;
        Some(node.step.state)
    }

    /// Goes on from this state of a game, as if it had been reported, and forgets all else. If the
    /// second is true, the board is turned.
    pub fn go_on(&mut self, state: State, is_turned: bool)
        ensures on { GoesOn state is_turned self.new }
        ensures right { Waits self.new }
        ensures anew { (has_result self.new.over ≡ false) × (is_lost self.new.lost ≡ false) }
        ensures stands { Stands self.new }
        ensures planned { IsPlanned self.new }
        ensures lost { IsLostOr self.new }
        ensures hopeless { WhyHopeless self.new }
        ensures found { IsFound self.new }
        ensures reads { IsExplained self.new }
        ensures repeated { RepeatsInPlace self.new }
        ensures sure { KnowsSure (told_pieces (record {
          state = state;
          halves = 0;
          is_turned = is_turned;
        }) ∷ []) self.new }
        ensures start { MatchOption (slice_get self.new.memory.line.items 0) ⊥
            (λ node. node.origin ≡ Origin.Start) }
        ensures staying { self.new.staying ≡ after_step NONE_STAYS }
    {
        *self = Recogniser::new();
        self.staying = NONE_STAYS.after_step();
        self.memory
            .line
            .push(Node::root(state, is_turned, Origin::Start, 0));
    }

    /// Whether the line may go on.
    pub(crate) fn is_live(&self) -> bool
        ensures { IsTrue result ↔ IsLive self.now }
    {
        !self.memory.line.is_empty()
            && match self.over {
                Over::No => true,
                Over::Rules(at) => self.since < at.saturating_add(FINAL),
                Over::Kings => false,
            }
    }

    // What was shown ends now. If it rested though nothing led to it, a line may go on from it.
    fn leave(&mut self, now: u64)
        ensures holds { (shown : List (List Piece)) (line : List Told)
            → self.old.memory.back ≡ 0 → self.old.memory.unsaid.items ≡ []
            → IfSome self.old.view (λ view. Contains shown (pieces_of view.shown))
            → Holds shown line self.old.memory → Holds shown line self.new.memory }
        ensures view { self.new.view ≡ self.old.view }
        ensures back { self.new.memory.back ≡ self.old.memory.back }
        ensures unsaid { self.new.memory.unsaid.items ≡ self.old.memory.unsaid.items }
        ensures keeps { Keeps self.old self.new }
        ensures lost { self.new.lost ≡ self.old.lost }
        ensures answer { self.new.memory.answer ≡ self.old.memory.answer }
        ensures few { length self.old.memory.seen.items < 21
            → length self.new.memory.seen.items < 23 }
        ensures kept { length self.old.memory.seen.items < 21 → (picture : List Piece)
            → FollowsSeen self.old.memory picture → FollowsSeen self.new.memory picture }
        ensures sure { KeepsSure self.old self.new }
        ensures behind { self.new.is_behind ≡ self.old.is_behind }
        ensures astray { (self.new.is_astray ≡ true)
            ↔ ((self.old.is_astray ≡ true) ⊎ GoesAstray now self.old) }
        ensures set_up { self.new.is_set_up ≡ self.old.is_set_up }
    {
        let is_unexplained = self.is_unexplained(now);
        self.is_astray = self.is_astray || is_unexplained && self.do_kings_stand();
        self.memory.leave(self.here, now);
        if is_unexplained || self.may_either_move() {
            self.add_roots();
        }
    }

    // Whether both kings stand, and none of them in the centre.
    fn do_kings_stand(&self) -> bool
        ensures { IsTrue result ↔ MatchOption self.now.view ⊥
            (λ view. KingsStand (pieces_of view.shown)) }
    {
        match &self.view {
            Some(view) => self.do_kings_stand_in(view),
            None => false,
        }
    }

    fn do_kings_stand_in(&self, view: &View) -> bool
        ensures { IsTrue result ↔ KingsStand (pieces_of view.now.shown) }
    {
        if !self.has_king(view, Colour::White) {
            return false;
        }
        if !self.has_king(view, Colour::Black) {
            return false;
        }
        is_centre_free(&view.shown)
    }

    // Whether nothing led to what is shown, though it rested.
    fn is_unexplained(&self, now: u64) -> bool
        ensures { IsTrue result ↔ IsUnexplained now self.now }
    {
        self.here == Place::Nowhere
            && now.saturating_sub(self.since) >= GLANCE
            && (self.over == Over::No || self.is_behind && self.is_far())
            && !self.is_lifted()
    }

    // Whether either side may make the next half-move, as it is the first since pieces were set up.
    fn may_either_move(&self) -> bool {
        match self.memory.line.get(0) {
            Some(node) => {
                self.here == Place::Line(0)
                    && self.memory.seen.is_empty()
                    && node.step.way == Way::Begun
                    && node.origin == Origin::Shadow
            }
            None => false,
        }
    }

    fn show(&mut self, view: Option<View>, now: u64)
        ensures knows { (shown : List (List Piece)) (line : List Told)
            → self.old.memory.back ≡ 0 → self.old.memory.unsaid.items ≡ []
            → IfSome view (λ view. Contains shown (pieces_of view.shown))
            → Holds shown line self.old.memory → Knows shown line self.new }
        ensures ended { self.new.ended ≡ self.old.ended }
        ensures loss { FindsLine self.old self.new }
        ensures set_up { IfSome view (λ view. SetsUp self.new view → self.new.is_set_up ≡ true) }
        ensures kept_up { self.new.is_set_up ≡ true
            → (self.old.is_set_up ≡ true) ⊎ MatchOption view ⊥ (SetsUp self.new) }
        ensures repeated { RepeatsInPlace self.new }
        ensures lost { has_notice self.old.lost ≡ false → LostWaits self.new }
        ensures follows { Follows self.old None self.new }
        ensures doubt { self.old.is_sure ≡ false → IsQuiet self.old → IsQuiet self.new }
        ensures sure { self.new.is_sure ≡ self.old.is_sure }
        ensures since { (self.new.since ≡ self.old.since) ⊎ (self.new.since ≡ now) }
        ensures changed { pictured view ≢ pictured self.old.view → self.new.since ≡ now }
        ensures stands { IsOpen self.old.memory → Stands self.new }
        ensures reads { length self.old.memory.seen.items < 23 → IsExplained self.new }
        ensures answers { IsOpen self.old.memory → IsAnswered self.new.memory }
        ensures search { (self.new.search ≡ Search.Hopeless)
            ⊎ (self.new.search ≡ Search.Waiting) }
        ensures hopeless { WhyHopeless self.new }
        ensures shown { self.new.view ≡ view }
        ensures seen { (shown : View) → view ≡ Some shown → length self.old.memory.seen.items < 23
            → FollowsSeen self.old.memory (pieces_of shown.shown)
            → self.new.here ≢ Place.Nowhere }
        ensures were { (sure : List (List Piece)) → IsTold self.old.memory
            → (self.old.is_sure ≡ true
            → MatchOption view ⊥ (λ view. Contains sure (pieces_of view.shown)))
            → WereSure sure self.old.memory self.old.returned
            → WereSure sure self.new.memory self.new.returned }
        ensures squares { (before after : View) → self.old.view ≡ Some before → view ≡ Some after
            → DifferingSquares (pieces_of before.shown) (pieces_of after.shown) self.new.changed }
        ensures sure_since { self.new.sure_since ≡ self.old.sure_since }
        ensures behind { RemembersDoubt self.old self.new }
        ensures away { view ≡ None → self.new.here ≡ self.old.here }
        ensures staying { self.new.staying ≡ self.old.staying }
    {
        self.changed = match (&self.view, &view) {
            (Some(old), Some(new)) => old.shown.differ(&new.shown),
            _ => 0,
        };
        if !View::is_same_picture(&view, &self.view) {
            self.since = now;
        }
        self.view = view;
        self.is_next = false;
        self.has_kings = false;
        self.search = Search::Hopeless;
        // while the board is away, it stands where it stood
        if let Some(view) = view {
            self.here = Place::Nowhere;
            self.look(&view);
        }
    }

    fn look(&mut self, view: &View)
        ensures holds { (shown : List (List Piece)) (line : List Told)
            → self.old.memory.back ≡ 0 → self.old.memory.unsaid.items ≡ []
            → Contains shown (pieces_of view.now.shown)
            → Holds shown line self.old.memory → Holds shown line self.new.memory }
        ensures view { self.new.view ≡ self.old.view }
        ensures keeps { Keeps self.old self.new }
        ensures loss { FindsLine self.old self.new }
        ensures repeated { IsLive self.old → IsRepeated self.old.memory view.now
            → TakesFewBack self.old.memory (Reading.At self.new.here) }
        ensures answers { IsOpen self.old.memory → IsAnswered self.new.memory }
        ensures doubt { self.old.is_sure ≡ false → IsQuiet self.old → IsQuiet self.new }
        ensures stands { IsOpen self.old.memory → self.old.view ≡ Some view.now → Stands self.new }
        ensures line { self.new.memory.line ≡ self.old.memory.line }
        ensures reads { length self.old.memory.seen.items < 23 → IsKnown self.old view.now
            → self.new.here ≢ Place.Nowhere }
        ensures search { (self.new.search ≡ self.old.search)
            ⊎ (self.new.search ≡ Search.Waiting) }
        ensures hopeless { self.new.search ≡ Search.Hopeless
            → (colour : Colour) × ¬ (HasKing (pieces_of view.now.shown) colour) }
        ensures seen { length self.old.memory.seen.items < 23
            → FollowsSeen self.old.memory (pieces_of view.now.shown)
            → self.new.here ≢ Place.Nowhere }
        ensures unread { length self.old.memory.seen.items < 23
            → (self.new.here ≢ Place.Nowhere) ⊎ ((self.new.returned ≡ self.old.returned)
            × (self.new.is_behind ≡ self.old.is_behind)
            × (self.new.is_set_up ≡ false → self.old.is_set_up ≡ false)) }
        ensures sure { (sure : List (List Piece)) → IsTold self.old.memory
            → (self.old.is_sure ≡ true → Contains sure (pieces_of view.now.shown))
            → WereSure sure self.old.memory self.old.returned
            → WereSure sure self.new.memory self.new.returned }
        ensures behind { RemembersDoubt self.old self.new }
        ensures set_up { SetsUp self.old view.now → self.new.is_set_up ≡ true }
        ensures kept_up { self.new.is_set_up ≡ true
            → (self.old.is_set_up ≡ true) ⊎ SetsUp self.old view.now }
    {
        let has_white = self.has_king(view, Colour::White);
        let has_black = self.has_king(view, Colour::Black);
        let is_new = self.sets_up(view, has_white, has_black);
        self.is_set_up = self.is_set_up || is_new;
        if has_white && has_black {
            self.search = Search::Waiting;
        }
        let reading = self.read_by_kings(view, has_white, has_black);
        self.look_at_kings(view);
        self.take(reading);
    }

    // Whether pieces are set up, as both kings are off: not if the line has ended, and the board
    // shows almost its last state. Then the kings are rather put back.
    fn sets_up(&self, view: &View, has_white: bool, has_black: bool) -> bool
        ensures { IsTrue result ↔ (has_white ≡ false) × (has_black ≡ false)
            × ((self.now.over ≡ Over.No) ⊎ ¬ (IsAlmostLast self.now.memory view.now)) }
    {
        !has_white && !has_black && (self.over == Over::No || !self.is_as_last(view))
    }

    fn read_by_kings(&self, view: &View, has_white: bool, has_black: bool) -> Reading
        ensures linked { (shown : List (List Piece)) (line : List Told)
            → Holds shown line self.now.memory → Contains shown (pieces_of view.now.shown)
            → Reads shown self.now.memory result }
        ensures at { ReadsView self.now.memory view.now result }
        ensures reads { IsKnown self.now view.now → has_white ≡ true → has_black ≡ true
            → IsRead result }
        ensures seen { FollowsSeen self.now.memory (pieces_of view.now.shown) → has_white ≡ true
            → has_black ≡ true → IsRead result }
        ensures repeated { IsLive self.now → IsRepeated self.now.memory view.now
            → TakesFewBack self.now.memory result }
        ensures room { HasRoom self.now.memory result }
        ensures begins { MarksStart result }
        ensures none { has_white ≡ false → has_black ≡ false
            → result ≡ Reading.At Place.Nowhere }
    {
        if has_white && has_black {
            self.read(view)
        } else if has_white || has_black {
            self.read_king_in_hand(view)
        } else {
            Reading::At(Place::Nowhere)
        }
    }

    fn take(&mut self, reading: Reading)
        ensures holds { (shown : List (List Piece)) (line : List Told)
            → self.old.memory.back ≡ 0 → self.old.memory.unsaid.items ≡ []
            → Reads shown self.old.memory reading
            → Holds shown line self.old.memory → Holds shown line self.new.memory }
        ensures view { self.new.view ≡ self.old.view }
        ensures keeps { Keeps self.old self.new }
        ensures loss { FindsLine self.old self.new }
        ensures kept_up { self.new.is_set_up ≡ true → self.old.is_set_up ≡ true }
        ensures there { (k : ℕ) → 1 ≤ k → self.new.here ≡ Place.Line k
            → reading ≡ Reading.At (Place.Line k) }
        ensures answers { IsOpen self.old.memory → IsAnswered self.new.memory }
        ensures doubt { self.old.is_sure ≡ false → IsQuiet self.old → IsQuiet self.new }
        ensures stands { (view : View) → IsOpen self.old.memory → self.old.view ≡ Some view
            → ReadsView self.old.memory view reading
            → Stands self.new }
        ensures here { length self.old.memory.seen.items < 23 → IsRead reading
            → HasRoom self.old.memory reading
            → self.new.here ≢ Place.Nowhere }
        ensures unread { reading ≡ Reading.At Place.Nowhere
            → self.new.returned ≡ self.old.returned }
        ensures line { self.new.memory.line ≡ self.old.memory.line }
        ensures search { self.new.search ≡ self.old.search }
        ensures sure { (sure : List (List Piece)) (view : View) → IsTold self.old.memory
            → (self.old.is_sure ≡ true → Contains sure (pieces_of view.shown))
            → ReadsView self.old.memory view reading → MarksStart reading
            → WereSure sure self.old.memory self.old.returned
            → WereSure sure self.new.memory self.new.returned }
        ensures behind { RemembersDoubt self.old self.new }
        ensures set_up { reading ≡ Reading.At Place.Nowhere
            → self.new.is_set_up ≡ self.old.is_set_up }
    {
        match reading {
            Reading::At(Place::Line(k)) => self.stand_on_line(k),
            Reading::At(place) => self.stand_on(place),
            Reading::New(node) => self.add(node, false),
            Reading::Held(node) => self.hold(node),
            Reading::Two(first, second) => self.add_two(first, second),
        }
    }

    fn has_king(&self, view: &View, colour: Colour) -> bool
        ensures { IsTrue result ↔ HasKing (pieces_of view.now.shown) colour }
    {
        for at in 0..64 {
            if is_same(view.shown.get(Square::from_small(at)), king(colour)) {
                return true;
            }
        }
        false
    }

    fn stand_on_line(&mut self, k: usize)
        ensures holds { (shown : List (List Piece)) (line : List Told)
            → Holds shown line self.old.memory → Holds shown line self.new.memory }
        ensures view { self.new.view ≡ self.old.view }
        ensures keeps { Keeps self.old self.new }
        ensures loss { FindsLine self.old self.new }
        ensures kept_up { self.new.is_set_up ≡ true → self.old.is_set_up ≡ true }
        ensures there { self.new.here ≡ Place.Line k }
        ensures answers { IsOpen self.old.memory → IsAnswered self.new.memory }
        ensures doubt { self.old.is_sure ≡ false → IsQuiet self.old → IsQuiet self.new }
        ensures stands { (view : View) → IsOpen self.old.memory → self.old.view ≡ Some view
            → MatchOption (slice_get (steps self.old.memory.line.items) k) ⊥ (Shows view)
            → Stands self.new }
        ensures here { self.new.here ≢ Place.Nowhere }
        ensures line { self.new.memory.line ≡ self.old.memory.line }
        ensures search { self.new.search ≡ self.old.search }
        ensures sure { (sure : List (List Piece)) → IsTold self.old.memory
            → (self.old.is_sure ≡ true → IfSome (slice_get (steps self.old.memory.line.items) k)
            (λ step. WasShown sure (told_of step)))
            → WereSure sure self.old.memory self.old.returned
            → WereSure sure self.new.memory self.new.returned }
        ensures behind { RemembersDoubt self.old self.new }
        ensures last { k ≡ 0 → self.old.is_sure ≡ true → StandsAnew self.new }
    {
        self.here = Place::Line(k);
        self.returned = self.returned_to(k);
        if !self.is_sure {
            return;
        }
        if k > 0 {
            self.is_next = true;
            return;
        }
        self.memory.forget_seen();
        self.is_behind = false;
        self.is_astray = false;
        self.is_set_up = false;
        self.is_white_king_lifted = false;
        self.is_black_king_lifted = false;
        self.find();
    }

    // The board shows the state of the line that is `k` before its last one.
    fn returned_to(&self, k: usize) -> Returned
        ensures sure { result.is_sure ≡ true → (self.now.is_sure ≡ true) × (result.count ≡ k) }
        ensures near { k ≤ 4 → (result.count ≡ k) × (result.is_sure ≡ self.now.is_sure) }
        ensures far { 4 < k → (result.count ≡ 0) × (result.is_sure ≡ false) }
    {
        if k <= NEAR {
            Returned {
                count: k,
                is_sure: self.is_sure,
            }
        } else {
            Returned {
                count: 0,
                is_sure: false,
            }
        }
    }

    fn stand_on(&mut self, place: Place)
        ensures holds { (shown : List (List Piece)) (line : List Told)
            → Holds shown line self.old.memory → Holds shown line self.new.memory }
        ensures view { self.new.view ≡ self.old.view }
        ensures keeps { Keeps self.old self.new }
        ensures loss { FindsLine self.old self.new }
        ensures there { self.new.here ≡ place }
        ensures answers { IsOpen self.old.memory → IsAnswered self.new.memory }
        ensures doubt { self.old.is_sure ≡ false → IsQuiet self.old → IsQuiet self.new }
        ensures stands { (view : View) → IsOpen self.old.memory → self.old.view ≡ Some view
            → ((k : ℕ) → place ≢ Place.Line k)
            → ReadsView self.old.memory view (Reading.At place)
            → Stands self.new }
        ensures here { place ≢ Place.Nowhere → self.new.here ≢ Place.Nowhere }
        ensures returned { self.new.returned ≡ self.old.returned }
        ensures line { self.new.memory.line ≡ self.old.memory.line }
        ensures search { self.new.search ≡ self.old.search }
        ensures sure { (sure : List (List Piece))
            → (self.old.is_sure ≡ true → (k : ℕ) → place ≡ Place.Seen k
            → IfSome (slice_get (steps self.old.memory.seen.items) k)
            (λ step. WasShown sure (told_of step)))
            → WereSure sure self.old.memory self.old.returned
            → WereSure sure self.new.memory self.new.returned }
        ensures behind { RemembersDoubt self.old self.new }
        ensures set_up { self.new.is_set_up ≡ self.old.is_set_up }
    {
        self.here = place;
        self.is_next = false;
        if let Place::Seen(k) = place {
            if self.is_sure {
                self.memory.set_sure(k);
                self.is_next = true;
            }
        }
    }

    // The board shows a node but for pieces in hands, or for one that is gone. It isn't reported
    // before they are put down.
    fn hold(&mut self, node: Node)
        ensures holds { (shown : List (List Piece)) (line : List Told)
            → self.old.memory.back ≡ 0 → self.old.memory.unsaid.items ≡ []
            → Reads shown self.old.memory (Reading.Held node)
            → Holds shown line self.old.memory → Holds shown line self.new.memory }
        ensures view { self.new.view ≡ self.old.view }
        ensures keeps { Keeps self.old self.new }
        ensures loss { FindsLine self.old self.new }
        ensures kept_up { self.new.is_set_up ≡ true → self.old.is_set_up ≡ true }
        ensures last { (k : ℕ) → self.new.here ≡ Place.Line k → k ≡ 0 }
        ensures answers { IsOpen self.old.memory → IsAnswered self.new.memory }
        ensures doubt { self.old.is_sure ≡ false → IsQuiet self.old → IsQuiet self.new }
        ensures stands { (view : View) → IsOpen self.old.memory → self.old.view ≡ Some view
            → ReadsView self.old.memory view (Reading.Held node)
            → Stands self.new }
        ensures here { length self.old.memory.seen.items < 24
            → IsRoomFor self.old.memory node → self.new.here ≢ Place.Nowhere }
        ensures line { self.new.memory.line ≡ self.old.memory.line }
        ensures search { self.new.search ≡ self.old.search }
        ensures sure { (sure : List (List Piece))
            → (self.old.is_sure ≡ true → WasShown sure (told_of node.step))
            → WereSure sure self.old.memory self.old.returned
            → WereSure sure self.new.memory self.new.returned }
        ensures behind { RemembersDoubt self.old self.new }
    {
        match self.same_node(&node) {
            Some(k) => self.here = Place::Seen(k),
            None => self.add(node, true),
        }
        self.is_next = false;
    }

    // Whether a node shows that the one before was meant: the line was taken back to it, or it was
    // answered.
    fn is_answer(&self, node: &Node) -> bool
        ensures follows { IsTrue result → (node.now.step.parent ≢ Place.Line 0)
            × (node.now.step.parent ≢ Place.Nowhere) × (node.now.step.way ≢ Way.Begun) }
        ensures sure { IsTrue result → FollowsSure self.now node.now }
        ensures back { (k : ℕ) → node.now.step.parent ≡ Place.Line k
            → IsTrue result ↔ (node.now.step.way ≢ Way.Begun) × HasGoneBack k self.now }
    {
        node.step.way != Way::Begun
            && match node.step.parent {
                Place::Line(base) => {
                    base > 0 && base == self.returned.count && self.returned.is_sure
                }
                Place::Seen(parent) => self.is_answered(parent, node),
                Place::Nowhere => false,
            }
    }

    pub(crate) fn add_two(&mut self, first: Node, second: Node)
        ensures holds { (shown : List (List Piece)) (line : List Told)
            → self.old.memory.back ≡ 0 → self.old.memory.unsaid.items ≡ []
            → Reads shown self.old.memory (Reading.Two first second)
            → Holds shown line self.old.memory → Holds shown line self.new.memory }
        ensures view { self.new.view ≡ self.old.view }
        ensures keeps { Keeps self.old self.new }
        ensures loss { FindsLine self.old self.new }
        ensures kept_up { self.new.is_set_up ≡ true → self.old.is_set_up ≡ true }
        ensures last { (k : ℕ) → self.new.here ≡ Place.Line k → k ≡ 0 }
        ensures answers { IsOpen self.old.memory → IsAnswered self.new.memory }
        ensures doubt { self.old.is_sure ≡ false → IsQuiet self.old → IsQuiet self.new }
        ensures stands { (view : View) → IsOpen self.old.memory → self.old.view ≡ Some view
            → ReadsView self.old.memory view (Reading.Two first second)
            → Stands self.new }
        ensures todo { AddsNone self.old self.new }
        ensures here { length self.old.memory.seen.items < 23
            → IsRoomFor self.old.memory first → self.new.here ≢ Place.Nowhere }
        ensures line { self.new.memory.line ≡ self.old.memory.line }
        ensures lost { PlacesOr self.old self.new }
        ensures sure { (sure : List (List Piece)) → IsMarked sure first
            → (self.old.is_sure ≡ true → WasShown sure (told_of second.step))
            → WereSure sure self.old.memory self.old.returned
            → WereSure sure self.new.memory self.new.returned }
        ensures behind { RemembersDoubt self.old self.new }
    {
        let Some(k) = self.memory.push(first) else {
            self.here = Place::Nowhere;
            self.is_next = false;
            return;
        };
        let mut node = second;
        node.step.parent = Place::Seen(k);
        self.add(node, false);
    }

    // Adds a node, at which the board is now, but for pieces that are missing if it is held. It may
    // answer the half-move before.
    pub(crate) fn add(&mut self, node: Node, is_held: bool)
        ensures holds { (shown : List (List Piece)) (line : List Told)
            → self.old.memory.back ≡ 0 → self.old.memory.unsaid.items ≡ []
            → Reads shown self.old.memory (Reading.New node)
            → Holds shown line self.old.memory → Holds shown line self.new.memory }
        ensures view { self.new.view ≡ self.old.view }
        ensures keeps { Keeps self.old self.new }
        ensures loss { FindsLine self.old self.new }
        ensures kept_up { self.new.is_set_up ≡ true → self.old.is_set_up ≡ true }
        ensures last { (k : ℕ) → self.new.here ≡ Place.Line k → k ≡ 0 }
        ensures answers { IsOpen self.old.memory → IsAnswered self.new.memory }
        ensures doubt { self.old.is_sure ≡ false → IsQuiet self.old → IsQuiet self.new }
        ensures stands { (view : View) → IsOpen self.old.memory → self.old.view ≡ Some view
            → (is_held ≡ false → Shows view node.step → Stands self.new)
            × (is_held ≡ true → ShowsBut view node.step
            → Stands (record self.new { is_next = false })) }
        ensures todo { AddsNone self.old self.new }
        ensures here { length self.old.memory.seen.items < 24
            → IsRoomFor self.old.memory node → self.new.here ≢ Place.Nowhere }
        ensures line { self.new.memory.line ≡ self.old.memory.line }
        ensures lost { PlacesOr self.old self.new }
        ensures sure { (sure : List (List Piece))
            → (self.old.is_sure ≡ true → WasShown sure (told_of node.step))
            → WereSure sure self.old.memory self.old.returned
            → WereSure sure self.new.memory self.new.returned }
        ensures behind { RemembersDoubt self.old self.new }
    {
        let mut new = node;
        new.is_sure = self.is_sure;
        new.is_held = is_held;
        let Some(k) = self.memory.push(new) else {
            self.here = Place::Nowhere;
            self.is_next = false;
            return;
        };
        self.here = Place::Seen(k);
        self.is_next = self.is_sure;
        if let Some(new) = self.memory.seen_node(k) {
            if self.is_sure && self.is_answer(&new) {
                self.tell(new.step.parent, Some(new));
            }
        }
    }

    // Whether the board lacks some pieces of a known state, and shows no others.
    pub(crate) fn is_lifted(&self) -> bool
        ensures { IsTrue result ↔ IsLifted self.now }
    {
        let Some(view) = self.view else {
            return false;
        };
        if self.is_line_lifted(&view, 0) || self.is_line_lifted(&view, self.returned.count) {
            return true;
        }
        for k in 0..self.memory.seen.len() {
            let step = &self.memory.seen[k].step;
            if lacks_some(view.from(step.is_turned), &step.state) {
                return true;
            }
        }
        false
    }

    // Whether the board lacks some pieces of a state of the line, and shows no others.
    pub(crate) fn is_line_lifted(&self, view: &View, k: usize) -> bool
        ensures { IsTrue result ↔ MatchOption (slice_get (steps self.now.memory.line.items) k) ⊥
            (ShowsBut view.now) }
    {
        match self.memory.line.get(k) {
            Some(node) => lacks_some(view.from(node.step.is_turned), &node.step.state),
            None => false,
        }
    }
}

// Whether no king stands in the centre.
fn is_centre_free(shown: &Position) -> bool
    ensures { IsTrue result ↔ ((square : ℕ) → IsCentre square
        → ¬ (IsKing (piece_at (pieces_of shown.now) square))) }
{
    !is_king_on(shown, 27)
        && !is_king_on(shown, 28)
        && !is_king_on(shown, 35)
        && !is_king_on(shown, 36)
}

fn is_king_on(shown: &Position, at: u8) -> bool
    requires { at < 64 }
    ensures { IsTrue result ↔ IsKing (piece_at (pieces_of shown.now) at) }
{
    let piece = shown.get(Square::from_small(at));
    is_same(piece, Piece::WhiteKing) || is_same(piece, Piece::BlackKing)
}

// With another clock, a line may begin with a position that was refused.
fn with_clock(search: Search, is_same: bool) -> Search
    ensures same { (result ≡ search) ⊎ ((search ≡ Search.Refused) × (result ≡ Search.Waiting)) }
    ensures other { is_same ≡ false → result ≢ Search.Refused }
{
    if search == Search::Refused && !is_same {
        Search::Waiting
    } else {
        search
    }
}
