//! What is reported, one event at a time.

ghost use Rattle.std.specs.Prelude.{◌≡◌, ◌≢◌, ◌≤◌, ◌↔◌, ◌⊎◌, List, [], length, None, Some, IfSome, IsTrue, false, true};
ghost use Rattle.dgt_chess.specs.Rules.{CanMove};
ghost use Rattle.dgt_values.specs.declared.pieces.Piece.{Piece};
ghost use Rattle.dgt_game.specs.Told.{Told};
ghost use Rattle.dgt_game.specs.declared.node.Place.{Place};
ghost use Rattle.dgt_game.specs.declared.node.Step.{Step};
ghost use Rattle.dgt_game.specs.declared.recogniser.Lost.{Lost};
ghost use Rattle.dgt_game.specs.Memory.{steps};
ghost use Rattle.dgt_game.specs.Results.{ByRules};

use crate::event::{Event, GameResult};
use crate::node::{Node, Origin, Place, Returned, Way};
use crate::recogniser::{Lost, Over, Recogniser};
use crate::times::STAYS;
use dgt_chess::{Colour, State};

impl Recogniser {
    ghost use Rattle.dgt_game.specs.Finding.{IsFound};
    ghost use Rattle.dgt_game.specs.Planning.{IsAsBefore, IsAtLast, IsLostOr, StaysPlaced};
    ghost use Rattle.dgt_game.specs.Results.{HasResult};
    ghost use Rattle.dgt_game.specs.Settling.{StaysShown};
    ghost use Rattle.dgt_game.specs.Staying.{HasLastRested, Notes, StaysWhole};
    ghost use Rattle.dgt_game.specs.Standing.{EndsHere, IsAtAnswer, IsCalledFor, IsMeant, IsOpen, IsThere, Stands, TakesBack};
    ghost use Rattle.dgt_game.specs.Sure.{IsMarked, KeepsSure, StaysSure, WasSure, WereSure};
    ghost use Rattle.dgt_game.specs.Timing.{next_time};
    ghost use Rattle.dgt_game.specs.Waiting.{EndWaits, EndsBy, EndsByRules, Follows, IsOfLine, IsQuiet, IsRight, Keeps, MustEnd, Waits, coming, has_notice, has_result, last_of, stays_lost};
    ghost use Rattle.dgt_game.specs.Memory.{Holds, IsRooted, IsSeen, IsTold, Links, step_at, told_of};
    ghost use Rattle.dgt_game.specs.Recogniser.{Knows, Reports, Stays};

    /// Whether an event waits to be reported.
    pub(crate) fn has_news(&self) -> bool
        ensures { (result ≡ false) ↔ IsQuiet self.now }
    {
        self.has_notice() || !self.memory.is_quiet() || self.ended.is_some()
    }

    /// Has the path to a place reported, and then the board stands there, or at the answer.
    pub(crate) fn tell(&mut self, place: Place, answer: Option<Node>)
        ensures holds { (shown : List (List Piece)) (line : List Told)
            → self.old.memory.back ≡ 0 → self.old.memory.unsaid.items ≡ []
            → IfSome answer (λ node. Links (step_at (steps self.old.memory.line.items)
            (steps self.old.memory.seen.items) place) node.step × IsSeen shown node.step)
            → Holds shown line self.old.memory → Holds shown line self.new.memory }
        ensures view { self.new.view ≡ self.old.view }
        ensures keeps { Keeps self.old self.new }
        ensures found { stays_lost self.new.lost ≡ false }
        ensures set_up { self.new.is_set_up ≡ false }
        ensures told { (step : Step)
            → self.old.memory.back ≡ 0 → self.old.memory.unsaid.items ≡ []
            → step_at (steps self.old.memory.line.items) (steps self.old.memory.seen.items) place
            ≡ Some step → ((self.new.memory.back ≡ 0) × (self.new.memory.unsaid.items ≡ []))
            ⊎ (coming self.new.memory ≡ Some step) }
        ensures stands { IsOpen self.old.memory → self.old.is_sure ≡ true
            → IfSome self.old.view (IsCalledFor self.old.memory place answer) → Stands self.new }
        ensures todo { IsAtLast self.old self.new }
        ensures here { self.new.here ≡ Place.Line 0 }
        ensures line { self.new.memory.line ≡ self.old.memory.line }
        ensures near { (step : Step) → IsOpen self.old.memory
            → step_at (steps self.old.memory.line.items) (steps self.old.memory.seen.items) place
            ≡ Some step
            → (self.new.memory.back ≤ 4) ⊎ (place ≡ Place.Line self.new.memory.back) }
        ensures answers { (step : Step) → IsOpen self.old.memory
            → step_at (steps self.old.memory.line.items) (steps self.old.memory.seen.items) place
            ≡ Some step → place ≢ Place.Line 0 → self.new.memory.answer ≡ answer }
        ensures lands { (step : Step) → IsRooted (length (steps self.old.memory.line.items))
            (steps self.old.memory.seen.items)
            → step_at (steps self.old.memory.line.items) (steps self.old.memory.seen.items) place
            ≡ Some step → place ≢ Place.Line 0
            → (coming self.new.memory ≡ Some step) × ¬ (IsTold self.new.memory) }
        ensures idle { IsTold self.new.memory → self.new.memory.answer ≡ None }
        ensures either { (self.new.memory.answer ≡ answer) ⊎ (self.new.memory.answer ≡ None) }
        ensures sure { (sure : List (List Piece))
            → IfSome (step_at (steps self.old.memory.line.items) (steps self.old.memory.seen.items)
            place) (λ step. WasSure sure (told_of step))
            → IfSome answer (IsMarked sure) → WereSure sure self.old.memory self.old.returned
            → WereSure sure self.new.memory self.new.returned }
    {
        self.find();
        self.memory.tell(place, answer, self.over == Over::No);
        self.here = Place::Line(0);
        self.is_next = false;
        self.is_behind = false;
        self.is_set_up = false;
        self.is_astray = false;
        self.is_white_king_lifted = false;
        self.is_black_king_lifted = false;
        self.has_kings = false;
        self.returned = Returned {
            count: 0,
            is_sure: false,
        };
    }

    /// The next event that waits to be reported.
    pub(crate) fn next_event(&mut self) -> Option<Event>
        ensures told { Reports self.old result self.new }
        ensures right { Waits self.old
            → Waits self.new × IfSome result (λ event. IsRight self.new event) }
        ensures follows { Waits self.old → Follows self.old result self.new }
        ensures still { IsQuiet self.old
            → (result ≡ None) × (self.new.is_sure ≡ self.old.is_sure) }
        ensures none { result ≡ None
            → IsQuiet self.new × (next_time self.new ≡ next_time self.old) }
        ensures idle { IsQuiet self.old → (result ≡ None) × (self.new ≡ self.old) }
        ensures stands { Stands self.old → Stands self.new }
        ensures nothing { result ≡ None → self.new ≡ record self.old { ended = None } }
        ensures coming { coming self.new.memory ≡ coming self.old.memory }
        ensures there { Stands self.old → Waits self.old
            → IfSome result (λ event. IsOfLine event → IsThere self.new) }
        ensures lost { IsLostOr self.old → IsLostOr self.new }
        ensures place { StaysPlaced self.old self.new }
        ensures found { IsLostOr self.old → IsFound self.old → IsFound self.new }
        ensures shown { StaysShown self.old self.new }
        ensures sure { StaysSure self.old self.new }
        ensures notes { Notes self.old result self.new }
    {
        let is_whole = self.stays_whole();
        if let Some(event) = self.next_before() {
            return Some(event);
        }
        let stays = self.staying.after_back(is_whole).stays;
        if let Some(event) = self.memory.next_event(stays) {
            self.staying = self.staying.after(&event, is_whole);
            self.follow_up(&event);
            return Some(event);
        }
        let (result, over) = self.ended.take()?;
        if self.over != Over::No {
            return None;
        }
        self.over = over;
        Some(Event::Ended(result))
    }

    // Whether all of the line stays if the next event takes something back: its last half-moves had
    // rested, or it has ended, and no others replace them at once.
    fn stays_whole(&self) -> bool
        ensures { IsTrue result ↔ StaysWhole self.now }
    {
        !self.staying.is_back && self.has_last_rested()
            || self.over != Over::No && self.memory.unsaid.is_empty()
    }

    fn has_last_rested(&self) -> bool
        ensures { IsTrue result ↔ HasLastRested self.now.memory }
    {
        match self.memory.line.get(0) {
            Some(node) => node.rested() >= STAYS,
            None => false,
        }
    }

    // What is reported before the line.
    fn next_before(&mut self) -> Option<Event>
        ensures told { Reports self.old result self.new }
        ensures right { Waits self.old
            → Waits self.new × IfSome result (λ event. IsRight self.new event) }
        ensures follows { Follows self.old result self.new }
        ensures none { result ≡ None → self.new ≡ self.old }
        ensures quiet { has_notice self.new.lost ≡ false }
        ensures coming { coming self.new.memory ≡ coming self.old.memory }
        ensures idle { IsQuiet self.old → result ≡ None }
        ensures other { IfSome result (λ event. ¬ (IsOfLine event)) }
        ensures stands { Stands self.old → Stands self.new }
        ensures lost { IsLostOr self.old → IsLostOr self.new }
        ensures place { StaysPlaced self.old self.new }
        ensures found { IsFound self.old → IsFound self.new }
        ensures shown { StaysShown self.old self.new }
        ensures sure { StaysSure self.old self.new }
        ensures staying { self.new.staying ≡ self.old.staying }
    {
        match self.next_notice() {
            Some(event) => Some(event),
            None => self.end_before_next(),
        }
    }

    // The result of the line's last state, if another line begins next.
    fn end_before_next(&mut self) -> Option<Event>
        ensures told { Reports self.old result self.new }
        ensures right { has_notice self.old.lost ≡ false → Waits self.old
            → Waits self.new × IfSome result (λ event. IsRight self.new event) }
        ensures follows { Follows self.old result self.new }
        ensures none { result ≡ None → self.new ≡ self.old }
        ensures coming { coming self.new.memory ≡ coming self.old.memory }
        ensures idle { IsTold self.old.memory → result ≡ None }
        ensures notice { self.new.lost ≡ self.old.lost }
        ensures other { IfSome result (λ event. ¬ (IsOfLine event)) }
        ensures stands { Stands self.old → Stands self.new }
        ensures lost { IsLostOr self.old → IsLostOr self.new }
        ensures place { StaysPlaced self.old self.new }
        ensures found { IsFound self.old → IsFound self.new }
        ensures shown { StaysShown self.old self.new }
        ensures sure { StaysSure self.old self.new }
        ensures staying { self.new.staying ≡ self.old.staying }
    {
        if self.over != Over::No || !self.memory.begins_next() {
            return None;
        }
        let (result, over) = self.end_of_line()?;
        self.over = over;
        Some(Event::Ended(result))
    }

    fn has_notice(&self) -> bool
        ensures { result ≡ has_notice self.now.lost }
    {
        matches!(self.lost, Lost::Now(_) | Lost::Found)
    }

    // That the line was lost, or found.
    fn next_notice(&mut self) -> Option<Event>
        ensures told { Reports self.old result self.new }
        ensures right { Waits self.old
            → Waits self.new × IfSome result (λ event. IsRight self.new event) }
        ensures follows { Follows self.old result self.new }
        ensures none { result ≡ None → self.new ≡ self.old }
        ensures quiet { has_notice self.new.lost ≡ false }
        ensures coming { coming self.new.memory ≡ coming self.old.memory }
        ensures idle { has_notice self.old.lost ≡ false → result ≡ None }
        ensures other { IfSome result (λ event. ¬ (IsOfLine event)) }
        ensures stands { Stands self.old → Stands self.new }
        ensures lost { IsLostOr self.old → IsLostOr self.new }
        ensures place { StaysPlaced self.old self.new }
        ensures found { IsFound self.old → IsFound self.new }
        ensures shown { StaysShown self.old self.new }
        ensures sure { StaysSure self.old self.new }
        ensures staying { self.new.staying ≡ self.old.staying }
    {
        match self.lost {
            Lost::Now(squares) => {
                self.lost = Lost::Reported;
                Some(Event::Lost(squares))
            }
            Lost::Found => {
                self.lost = Lost::No;
                Some(Event::Found)
            }
            _ => None,
        }
    }

    /// The board shows a position of the line, or another line begins.
    pub(crate) fn find(&mut self)
        ensures memory { self.new.memory ≡ self.old.memory }
        ensures keeps { Keeps self.old self.new }
        ensures todo { IsAsBefore self.old self.new }
        ensures here { self.new.here ≡ self.old.here }
        ensures returned { self.new.returned ≡ self.old.returned }
        ensures found { self.new.lost ≢ Lost.Reported }
        ensures ends { stays_lost self.new.lost ≡ false }
        ensures only { self.new ≡ record self.old { lost = self.new.lost } }
    {
        match self.lost {
            Lost::Now(_) => self.lost = Lost::No,
            Lost::Reported => self.lost = Lost::Found,
            _ => {}
        }
    }

    // What an event means for the rest: a result is taken back with its half-moves, and once all
    // was reported, the board stands at the line's last state, or at the answer to it.
    fn follow_up(&mut self, event: &Event)
        ensures knows { (shown : List (List Piece)) (line : List Told) → Knows shown line self.old
            → Knows shown line self.new }
        ensures right { EndWaits self.old → EndWaits self.new }
        ensures result { IsOfLine event.now
            → HasResult (has_result self.old.over) event.now (has_result self.new.over) }
        ensures lost { self.new.lost ≡ self.old.lost }
        ensures coming { coming self.new.memory ≡ coming self.old.memory }
        ensures stands { IsMeant self.old → TakesBack 4 self.old → Stands self.new }
        ensures there { (self.new.here ≡ self.old.here) ⊎ IsAtAnswer self.new }
        ensures place { StaysPlaced self.old self.new }
        ensures shown { StaysShown self.old self.new }
        ensures sure { KeepsSure self.old self.new }
        ensures ends { IsTold self.old.memory → IfSome (last_of self.new.memory)
            (λ step. MustEnd step → EndsByRules self.old.since step self.new.ended) }
        ensures staying { self.new.staying ≡ self.old.staying }
    {
        match event {
            Event::Begun(_, _) | Event::Back(_, _) => self.over = Over::No,
            _ => {}
        }
        if self.memory.is_quiet() {
            self.ended = self.end_of_line().or(self.ended);
            self.stand_on_last();
        }
    }

    // The result of the line's last state, if it was just reported.
    fn end_of_line(&self) -> Option<(GameResult, Over)>
        ensures is { IfSome result (λ end. (step : Step) × (last_of self.now.memory ≡ Some step)
            × EndsBy end.1 self.now.view step end.0) }
        ensures ends { IfSome (last_of self.now.memory)
            (λ step. MustEnd step → EndsByRules self.now.since step result) }
    {
        let node = self.memory.line.get(0)?;
        end_by_rules(node, self.since)
    }

    // The board stands at the line's last state, or at the answer to it.
    fn stand_on_last(&mut self)
        ensures stays { Stays self.old self.new }
        ensures keeps { Keeps self.old self.new }
        ensures lost { self.new.lost ≡ self.old.lost }
        ensures coming { coming self.new.memory ≡ coming self.old.memory }
        ensures stands { IsTold self.old.memory → EndsHere self.old → Stands self.new }
        ensures there { (self.new.here ≡ self.old.here) ⊎ IsAtAnswer self.new }
        ensures place { StaysPlaced self.old self.new }
        ensures sure { KeepsSure self.old self.new }
        ensures line { self.new.memory.line ≡ self.old.memory.line }
    {
        if let Some(node) = self.memory.take_answer() {
            if node.step.way != Way::Begun || node.origin == Origin::Start {
                self.here = Place::Seen(0);
                self.is_next = self.is_sure && !node.is_held;
            }
        }
    }
}

// The result of a state that was just reported, if it has no legal move.
fn end_by_rules(node: &Node, since: u64) -> Option<(GameResult, Over)>
    ensures is { IfSome result (λ end. (end.1 ≡ Over.Rules since)
        × ByRules node.now.step.state end.0) }
    ensures none { result ≡ None
        → (node.now.step.way ≡ Way.Begun) ⊎ CanMove node.now.step.state }
{
    if node.step.way == Way::Begun || node.step.state.can_move() {
        return None;
    }
    Some((result_by_rules(&node.step.state), Over::Rules(since)))
}

// The result in a state with no legal move.
fn result_by_rules(state: &State) -> GameResult
    ensures { ¬ (CanMove state.now) → ByRules state.now result }
{
    if !state.is_check() {
        GameResult::Draw
    } else if state.turn() == Colour::White {
        GameResult::BlackWins
    } else {
        GameResult::WhiteWins
    }
}
