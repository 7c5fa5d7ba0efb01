//! Results that the players show by their kings, on squares in the centre.

ghost use Rattle.std.specs.Prelude.{ℕ, false, ◌≡◌, ◌↔◌, ◌⊎◌, ◌<◌, ◌≤◌, List, [], None, Some, Contains, IfSome, MatchOption, IsTrue, length, true};
ghost use Rattle.dgt_values.specs.declared.pieces.Piece.{Piece};
ghost use Rattle.dgt_values.specs.Board.{pieces_of};
ghost use Rattle.dgt_chess.specs.Rules.{board};
ghost use Rattle.dgt_game.specs.declared.node.Place.{Place};
ghost use Rattle.dgt_game.specs.declared.node.Step.{Step};
ghost use Rattle.dgt_game.specs.declared.node.Returned.{Returned};
ghost use Rattle.dgt_game.specs.declared.node.Way.{Way};
ghost use Rattle.dgt_game.specs.declared.event.GameResult.{GameResult};
ghost use Rattle.dgt_chess.specs.declared.state.Move.{Move};
ghost use Rattle.dgt_game.specs.Unseen.{OnlyExplains};
ghost use Rattle.dgt_game.specs.Memory.{step_at, steps};
ghost use Rattle.dgt_game.specs.Results.{ByKings, Explains, FitsAt, IsAlmost, IsCentre, IsLike, IsOnlyOn, KingsMean, StandsAs};
ghost use Rattle.dgt_game.specs.Planning.{differing};
ghost use Rattle.dgt_game.specs.Told.{Told, as_shown};

use crate::event::GameResult;
use crate::node::{Node, Place, Way};
use crate::recogniser::{Over, Recogniser};
use crate::times::FAR;
use crate::unseen::{Found, explaining, explains};
use crate::view::{View, only_square};
use crate::ways::is_same;
use dgt_values::{Piece, Position, Square};

impl Recogniser {
    ghost use Rattle.dgt_game.specs.Memory.{Holds, IsRooted, IsTold, told_of};
    ghost use Rattle.dgt_game.specs.Settling.{StaysShown};
    ghost use Rattle.dgt_game.specs.Standing.{IsOpen, Stands};
    ghost use Rattle.dgt_game.specs.Sure.{WasSure, WereSure};
    ghost use Rattle.dgt_game.specs.Finding.{FindsLater};
    ghost use Rattle.dgt_game.specs.Planning.{AddsNone, IsAlmostLast, IsFar, todo, IsLostOr, WhyHopeless};
    ghost use Rattle.dgt_game.specs.Waiting.{BothKingsMean, Follows, IsQuiet, Keeps, Waits, coming, last_of, stays_lost};

    /// Looks whether both kings were lifted since the line's last state, and stand on squares that
    /// give a result, while everything else stands as in a known state.
    pub(crate) fn look_at_kings(&mut self, view: &View)
        ensures same { self.new.memory ≡ self.old.memory }
        ensures view { self.new.view ≡ self.old.view }
        ensures keeps { Keeps self.old self.new }
        ensures lost { self.new.lost ≡ self.old.lost }
        ensures search { self.new.search ≡ self.old.search }
        ensures returned { self.new.returned ≡ self.old.returned }
        ensures set_up { self.new.is_set_up ≡ self.old.is_set_up }
        ensures behind { self.new.is_behind ≡ self.old.is_behind }
        ensures astray { self.new.is_astray ≡ self.old.is_astray }
        ensures kings { self.new.has_kings ≡ true
            → (self.old.has_kings ≡ true) ⊎ BothKingsMean self.new view.now }
    {
        let Some(last) = self.memory.line.get(0) else {
            return;
        };
        if self.over != Over::No || !self.is_sure {
            return;
        }
        let shown = view.from(last.step.is_turned);
        let is_away = |king: Piece| match only_square(last.step.state.position(), king) {
            Some(at) => shown.get(Square::from_small(at)) != king,
            None => false,
        };
        self.is_white_king_lifted = self.is_white_king_lifted || is_away(Piece::WhiteKing);
        self.is_black_king_lifted = self.is_black_king_lifted || is_away(Piece::BlackKing);
        if self.is_white_king_lifted && self.is_black_king_lifted {
            self.has_kings = self.kings_result(view).is_some();
        }
    }

    /// Whether more squares than `FAR` show another piece than the line's last state.
    pub(crate) fn is_far(&self) -> bool
        ensures { IsTrue result ↔ IsFar self.now }
    {
        match self.view {
            Some(view) => self.is_far_from_last(&view),
            None => false,
        }
    }

    fn is_far_from_last(&self, view: &View) -> bool
        ensures { IsTrue result ↔ MatchOption (last_of self.now.memory) ⊥ (λ step. 24
            < differing (as_shown step.is_turned (pieces_of view.now.shown)) (board step.state)) }
    {
        match self.memory.line.get(0) {
            Some(last) => {
                let shown = view.from(last.step.is_turned);
                count_differing(shown, last.step.state.position()) > FAR
            }
            None => false,
        }
    }

    /// Whether the board shows the line's last state, but for the kings, the centre and two
    /// squares.
    pub(crate) fn is_as_last(&self, view: &View) -> bool
        ensures { IsTrue result ↔ IsAlmostLast self.now.memory view.now }
    {
        match self.memory.line.get(0) {
            Some(last) => is_almost(view.from(last.step.is_turned), last.step.state.position()),
            None => false,
        }
    }

    fn kings_result(&self, view: &View) -> Option<(GameResult, Place)>
        ensures is { IfSome result (λ end. (step : Step)
            × (step_at (steps self.now.memory.line.items) (steps self.now.memory.seen.items) end.1
            ≡ Some step)
            × ByKings (as_shown step.is_turned (pieces_of view.now.shown)) step.state end.0) }
        ensures near { IfSome result (λ end. (k : ℕ) → end.1 ≡ Place.Line k → k ≡ 0) }
    {
        let last = self.memory.line.get(0)?;
        let shown = view.from(last.step.is_turned);
        let white = only_square(shown, Piece::WhiteKing)?;
        let black = only_square(shown, Piece::BlackKing)?;
        let result = result_of(white, black)?;
        let len = self.memory.seen.len();
        for at in 0..len {
            let node = &self.memory.seen[len - 1 - at];
            if node.step.is_turned == last.step.is_turned
                && node.step.way != crate::node::Way::Begun
                && !self.is_shadow(node)
                && !node.step.way.is_jump()
                && !node.is_held
                && stands(view, node)
            {
                return Some((result, Place::Seen(len - 1 - at)));
            }
        }
        if stands(view, last) {
            return Some((result, Place::Line(0)));
        }
        None
    }

    /// The kings have rested in the centre.
    pub(crate) fn end_by_kings(&mut self)
        ensures holds { (shown : List (List Piece)) (line : List Told)
            → self.old.memory.back ≡ 0 → self.old.memory.unsaid.items ≡ []
            → IfSome self.old.view (λ view. Contains shown (pieces_of view.shown))
            → Holds shown line self.old.memory → Holds shown line self.new.memory }
        ensures view { self.new.view ≡ self.old.view }
        ensures right { IsQuiet self.old → Waits self.old → Waits self.new }
        ensures follows { Follows self.old None self.new }
        ensures stands { IsRooted (length (steps self.old.memory.line.items))
            (steps self.old.memory.seen.items) → IsTold self.old.memory
            → self.old.is_sure ≡ true → Stands self.old → Stands self.new }
        ensures todo { self.old.has_kings ≡ true → todo self.new < todo self.old }
        ensures lost { IsLostOr self.old → IsLostOr self.new }
        ensures hopeless { WhyHopeless self.old → WhyHopeless self.new }
        ensures found { FindsLater self.old → FindsLater self.new }
        ensures shown { StaysShown self.old self.new }
        ensures sure { (sure : List (List Piece))
            → MatchOption self.old.view ⊥ (λ view. Contains sure (pieces_of view.shown))
            → WereSure sure self.old.memory self.old.returned
            → WereSure sure self.new.memory self.new.returned }
        ensures staying { self.new.staying ≡ self.old.staying }
    {
        self.has_kings = false;
        let Some(view) = self.view else {
            return;
        };
        let Some((result, place)) = self.kings_result(&view) else {
            return;
        };
        let place = self.add_unseen(&view, place);
        let is_there = self.end_at(place);
        self.here = Place::Nowhere;
        self.is_next = false;
        self.search = crate::recogniser::Search::Hopeless;
        if is_there {
            self.ended = Some((result, Over::Kings));
        }
    }

    // Adds the half-move after a place that was made before the kings were lifted, though it wasn't
    // shown, if the board shows that there is just one. Returns where the line ends then. It adds
    // none if the board went astray before.
    fn add_unseen(&mut self, view: &View, place: Place) -> Place
        ensures keeps { Keeps self.old self.new }
        ensures lost { self.new.lost ≡ self.old.lost }
        ensures returned { self.new.returned ≡ self.old.returned }
        ensures todo { AddsNone self.old self.new }
        ensures line { self.new.memory.line ≡ self.old.memory.line }
        ensures holds { (shown : List (List Piece)) (line : List Told) (before : Step)
            (end : GameResult)
            → self.old.memory.back ≡ 0 → self.old.memory.unsaid.items ≡ []
            → step_at (steps self.old.memory.line.items) (steps self.old.memory.seen.items) place
            ≡ Some before
            → ByKings (as_shown before.is_turned (pieces_of view.now.shown)) before.state end
            → Contains shown (pieces_of view.now.shown)
            → Holds shown line self.old.memory → Holds shown line self.new.memory }
        ensures is_open { IsOpen self.old.memory → IsOpen self.new.memory }
        ensures rooted { IsRooted (length (steps self.old.memory.line.items))
            (steps self.old.memory.seen.items)
            → IsRooted (length (steps self.new.memory.line.items))
            (steps self.new.memory.seen.items) }
        ensures quiet { (self.new.memory.back ≡ self.old.memory.back)
            × (self.new.memory.unsaid.items ≡ self.old.memory.unsaid.items)
            × (self.new.memory.answer ≡ self.old.memory.answer) }
        ensures ends { (before : Step) (end : GameResult)
            → step_at (steps self.old.memory.line.items) (steps self.old.memory.seen.items) place
            ≡ Some before → ((k : ℕ) → place ≡ Place.Line k → k ≡ 0)
            → ByKings (as_shown before.is_turned (pieces_of view.now.shown)) before.state end
            → (step : Step) × (step_at (steps self.new.memory.line.items)
            (steps self.new.memory.seen.items) result ≡ Some step)
            × ByKings (as_shown step.is_turned (pieces_of view.now.shown)) step.state end }
        ensures near { ((k : ℕ) → place ≡ Place.Line k → k ≡ 0)
            → (k : ℕ) → result ≡ Place.Line k → k ≡ 0 }
        ensures sure { (sure : List (List Piece)) (returned : Returned)
            → WereSure sure self.old.memory returned → WereSure sure self.new.memory returned }
        ensures unseen { (result ≡ place) ⊎ ((before new : Step) × (one : Move)
            × (step_at (steps self.old.memory.line.items) (steps self.old.memory.seen.items) place
            ≡ Some before)
            × (step_at (steps self.new.memory.line.items) (steps self.new.memory.seen.items) result
            ≡ Some new)
            × (new.way ≡ Way.Made one) × OnlyExplains (as_shown before.is_turned
            (pieces_of view.now.shown)) before.state one new.state
            × ¬ (Explains (as_shown before.is_turned (pieces_of view.now.shown))
            (board before.state))) }
        ensures astray { self.old.is_astray ≡ true → (result ≡ place) × (self.new ≡ self.old) }
    {
        if self.is_astray || self.memory.seen.is_full() {
            return place;
        }
        let Some(from) = self.memory.node(place) else {
            return place;
        };
        let shown = view.from(from.step.is_turned);
        if explains(shown, from.step.state.position()) {
            return place;
        }
        let Found::Only(one, state) = explaining(&from.step.state, shown) else {
            return place;
        };
        let node = self.follow(&from, place, Way::Made(one), state);
        match self.memory.push(node) {
            Some(k) => Place::Seen(k),
            None => place,
        }
    }

    // Has the path to a place reported, in which the line ends. Returns whether it does then.
    fn end_at(&mut self, place: Place) -> bool
        ensures holds { (shown : List (List Piece)) (line : List Told)
            → self.old.memory.back ≡ 0 → self.old.memory.unsaid.items ≡ []
            → Holds shown line self.old.memory → Holds shown line self.new.memory }
        ensures keeps { Keeps self.old self.new }
        ensures found { stays_lost self.new.lost ≡ false }
        ensures told { (step : Step)
            → self.old.memory.back ≡ 0 → self.old.memory.unsaid.items ≡ []
            → step_at (steps self.old.memory.line.items) (steps self.old.memory.seen.items) place
            ≡ Some step → IsTrue result → coming self.new.memory ≡ Some step }
        ensures todo { AddsNone self.old self.new }
        ensures back { (step : Step) → IsOpen self.old.memory
            → step_at (steps self.old.memory.line.items) (steps self.old.memory.seen.items) place
            ≡ Some step → ((k : ℕ) → place ≡ Place.Line k → k ≡ 0)
            → (self.new.memory.back ≤ 4) × (self.new.memory.answer ≡ None)
            × (result ≡ false → IsTold self.new.memory) }
        ensures sure { (sure : List (List Piece))
            → IfSome (step_at (steps self.old.memory.line.items) (steps self.old.memory.seen.items)
            place) (λ step. WasSure sure (told_of step))
            → WereSure sure self.old.memory self.old.returned
            → WereSure sure self.new.memory self.new.returned }
    {
        if place == Place::Line(0) {
            self.find();
            self.memory.forget_seen();
            self.is_set_up = false;
            return true;
        }
        self.tell(place, None);
        !self.memory.is_quiet()
    }
}

// The result that kings on these squares give: on e4 and d5 White has won, on d4 and e5 Black;
// both on one file are a draw.
fn result_of(white: u8, black: u8) -> Option<GameResult>
    ensures mean { (picture : List Piece) → IsOnlyOn picture Piece.WhiteKing white
        → IsOnlyOn picture Piece.BlackKing black
        → IfSome result (λ end. KingsMean picture end) }
    ensures all { (picture : List Piece) (end : GameResult)
        → IsOnlyOn picture Piece.WhiteKing white → IsOnlyOn picture Piece.BlackKing black
        → KingsMean picture end → result ≡ Some end }
{
    match (white, black) {
        (27, 36) | (36, 27) => Some(GameResult::WhiteWins),
        (28, 35) | (35, 28) => Some(GameResult::BlackWins),
        (28, 36) | (36, 28) | (27, 35) | (35, 27) => Some(GameResult::Draw),
        _ => None,
    }
}

// How many squares show other pieces.
fn count_differing(shown: &Position, position: &Position) -> u32
    ensures { result ≡ differing (pieces_of shown.now) (pieces_of position.now) }
{
    shown.differ(position).count_ones()
}

// Whether a picture shows a position, but for the kings, the centre and two squares.
fn is_almost(shown: &Position, position: &Position) -> bool
    ensures { IsTrue result ↔ IsAlmost (pieces_of shown.now) (pieces_of position.now) }
{
    let mut one = None;
    let mut other = None;
    for at in 0..64u8 {
        if !stands_as(shown, position, at) {
            if other.is_some() {
                return false;
            }
            other = one;
            one = Some(at);
        }
    }
    true
}

fn stands_as(shown: &Position, position: &Position, at: u8) -> bool
    requires { at < 64 }
    ensures { IsTrue result ↔ StandsAs (pieces_of shown.now) (pieces_of position.now) at }
{
    let square = Square::from_small(at);
    let piece = position.get(square);
    let is_king = is_same(piece, Piece::WhiteKing) || is_same(piece, Piece::BlackKing);
    is_king || is_centre(at) || is_same(shown.get(square), piece)
}

// Whether the board shows a state, but for the kings, the centre, pieces that are gone, and one
// square.
fn stands(view: &View, node: &Node) -> bool
    ensures { IsTrue result → IsLike (as_shown node.now.step.is_turned (pieces_of view.now.shown))
        (board node.now.step.state) }
{
    let shown = view.from(node.step.is_turned);
    let position = node.step.state.position();
    let mut has_other = false;
    for at in 0..64u8 {
        if !fits(shown, position, at) {
            if has_other {
                return false;
            }
            has_other = true;
        }
    }
    true
}

fn fits(shown: &Position, position: &Position, at: u8) -> bool
    requires { at < 64 }
    ensures { IsTrue result ↔ FitsAt (pieces_of shown.now) (pieces_of position.now) at }
{
    let square = Square::from_small(at);
    let piece = position.get(square);
    let now = shown.get(square);
    let is_king = is_same(piece, Piece::WhiteKing) || is_same(piece, Piece::BlackKing);
    is_king || is_centre(at) || is_same(now, piece) || is_same(now, Piece::Empty)
}

pub(crate) fn is_centre(at: u8) -> bool
    ensures { IsTrue result ↔ IsCentre at }
{
    at == 27 || at == 28 || at == 35 || at == 36
}
