//! What a picture means: the likeliest of the few half-moves that lead to it.

ghost use Rattle.std.specs.Prelude.{ℕ, ◌≡◌, ◌↔◌, ◌<◌, ◌≤◌, ◌+◌, ◌-◌, ◌^◌, ◌⊎◌, List, Option, None, Some, IfSome, IsSome, IsTrue, Contains, false, length, slice_get, ◌≢◌, MatchOption, true};
ghost use Rattle.dgt_values.specs.declared.pieces.Piece.{Piece};
ghost use Rattle.dgt_values.specs.Board.{pieces_of};
ghost use Rattle.dgt_chess.specs.Rules.{board};
ghost use Rattle.dgt_chess.specs.declared.state.State.{State};
ghost use Rattle.dgt_game.specs.Lines.{IsLine, IsOnly, moves_of};
ghost use Rattle.dgt_chess.specs.declared.pieces.Man.{Man};
ghost use Rattle.dgt_game.specs.declared.node.Step.{Step};
ghost use Rattle.dgt_game.specs.Planning.{LacksOnly, LacksSome};
ghost use Rattle.dgt_chess.specs.Attacks.{other, piece_of};
ghost use Rattle.dgt_game.specs.Told.{LacksMen, Told, told_pieces};
ghost use Rattle.dgt_game.specs.Memory.{By, halves_of, told_of};
ghost use Rattle.dgt_game.specs.Missing.{AfterStayed, GoneFrom, HasStayed};
ghost use Rattle.dgt_game.specs.declared.node.Origin.{Origin};
ghost use Rattle.dgt_game.specs.declared.node.Place.{Place};
ghost use Rattle.dgt_game.specs.declared.recogniser.Over.{Over};
ghost use Rattle.dgt_game.specs.declared.reading.Reading.{Reading};
ghost use Rattle.dgt_game.specs.declared.view.View.{View};

use crate::early::moves_again;
use crate::event::{GAP, Moves};
use crate::missing::half_move_without_one;
use crate::node::{Node, Origin, Place, Step, Way};
use crate::recogniser::{Over, Recogniser};
use crate::times::{HANDS, NEAR, SETTLE};
use crate::view::View;
use crate::ways::{Ways, find_ways, half_move, is_same};
use dgt_chess::{Colour, State};
use dgt_values::{Piece, Position, Square};

/// What a picture means.
#[derive(Clone, Copy, Debug, PartialEq, Eq)]
pub(crate) enum Reading {
    At(Place),
    New(Node),
    /// A node, but for pieces of the side to move that are in hands, or one piece that is gone.
    Held(Node),
    /// Two nodes, the second after the first.
    Two(Node, Node),
}

impl Recogniser {
    ghost use Rattle.dgt_game.specs.Memory.{Fits, FitsBy, GoesOnBy, Holds, Links, Reads, step_at, steps};
    ghost use Rattle.dgt_game.specs.Reading.{HasLine, HasLineFrom, HasRoom, IsLive, IsNear, IsRead, IsRepeated, IsRoomFor, TakesFewBack, WasQuick, ReadsView, Shows, ShowsAt, SomeLine, FollowsSeen, IsReplaced, ShowsEarlier, ShowsStart};
    ghost use Rattle.dgt_game.specs.Sure.{MarksStart};
    ghost use Rattle.dgt_game.specs.Waiting.{last_of};

    /// The likeliest meaning.
    pub(crate) fn read(&self, view: &View) -> Reading
        ensures linked { (shown : List (List Piece)) (line : List Told)
            → Holds shown line self.now.memory → Contains shown (pieces_of view.now.shown)
            → Reads shown self.now.memory result }
        ensures at { ReadsView self.now.memory view.now result }
        ensures reads { IsLive self.now
            → HasLine 1 self.now.memory (Place.Line 0) (pieces_of view.now.shown) → IsNear result }
        ensures jumps { IsLive self.now → self.now.returned.count ≡ 0
            → HasLine 2 self.now.memory (Place.Line 0) (pieces_of view.now.shown) → IsRead result }
        ensures start { ShowsStart view.now → IsRead result }
        ensures earlier { IsLive self.now → ShowsEarlier self.now.memory view.now
            → IsRead result }
        ensures seen { FollowsSeen self.now.memory (pieces_of view.now.shown) → IsNear result }
        ensures replaced { IsLive self.now → self.now.is_set_up ≡ false
            → IsReplaced self.now.memory (pieces_of view.now.shown) → IsRead result }
        ensures last { self.now.over ≡ Over.No → ShowsAt self.now.memory view.now (Place.Line 0)
            → result ≡ Reading.At (Place.Line 0) }
        ensures repeated { IsLive self.now → IsRepeated self.now.memory view.now
            → TakesFewBack self.now.memory result }
        ensures room { HasRoom self.now.memory result }
        ensures begins { MarksStart result }
        ensures gone { IsLive self.now → self.now.is_behind ≡ false → self.now.is_set_up ≡ false
            → GoneFrom self.now.memory (Place.Line 0) (pieces_of view.now.shown)
            → IsRead result }
    {
        if let Some(place) = self.read_line(view) {
            return Reading::At(place);
        }
        if let Some(reading) = self.read_half_move(view) {
            return reading;
        }
        if let Some(reading) = self.read_start(view) {
            return reading;
        }
        if let Some(node) = self.read_repeated(view) {
            return self.known(node);
        }
        if let Some(k) = self.read_earlier(view) {
            return Reading::At(Place::Line(k));
        }
        if let Some(node) = self.read_held(view) {
            return Reading::Held(node);
        }
        if let Some(reading) = self.read_jump(view) {
            return reading;
        }
        if let Some(node) = self.read_replaced(view) {
            return Reading::New(node);
        }
        if let Some(node) = self.read_without_one(view) {
            return Reading::Held(node);
        }
        self.read_shadow(view)
    }

    // The line's last state, or one that was left too quickly for hands. No other line begins with
    // the state in which a game has ended, but for the one in which all begin.
    fn read_line(&self, view: &View) -> Option<Place>
        ensures at { IfSome result (λ place. ShowsAt self.now.memory view.now place) }
        ensures last { self.now.over ≡ Over.No → ShowsAt self.now.memory view.now (Place.Line 0)
            → result ≡ Some (Place.Line 0) }
        ensures quick { (k : ℕ) → 3 ≤ k → result ≡ Some (Place.Line k)
            → WasQuick self.now.memory k }
    {
        let last = self.memory.line.get(0)?;
        let may_begin = last.step.state.position() == State::start().position();
        if view.is(&last.step.state, last.step.is_turned) && (self.over == Over::No || !may_begin) {
            return Some(Place::Line(0));
        }
        let k = self.earlier(view)?;
        if k > NEAR {
            return None;
        }
        if k == 2 && self.running.is_none() && self.has_held() {
            return Some(Place::Line(k));
        }
        for at in 0..k {
            if self.memory.line.get(at)?.is_quick {
                return Some(Place::Line(k));
            }
        }
        None
    }

    // Whether a piece was put down while one of the other side was in a hand.
    fn has_held(&self) -> bool {
        for k in 0..self.memory.seen.len() {
            if self.memory.seen[k].is_held && !self.memory.seen[k].lacks_one {
                return true;
            }
        }
        false
    }

    // Another half-move instead of the last one, if it repeats an earlier state: the same hand puts
    // its piece elsewhere. Otherwise several half-moves would be taken back at once.
    fn read_repeated(&self, view: &View) -> Option<Node>
        ensures linked { IfSome result
            (λ node. Fits self.now.memory (pieces_of view.now.shown) node) }
        ensures room { IfSome result (IsRoomFor self.now.memory) }
        ensures reads { IsLive self.now → IsRepeated self.now.memory view.now → IsSome result }
    {
        if self.earlier(view)? < 2 {
            return None;
        }
        self.made(Place::Line(1), view)
    }

    // An earlier state of the line. If it is far back, and something wasn't shown meanwhile, it is
    // rather another game that has begun in the same way.
    fn read_earlier(&self, view: &View) -> Option<usize>
        ensures at { IfSome result (λ k. ShowsAt self.now.memory view.now (Place.Line k)) }
        ensures reads { IsLive self.now → ShowsEarlier self.now.memory view.now
            → IsSome result }
        ensures far { (k : ℕ) → self.now.is_behind ≡ false → IsLive self.now → 1 ≤ k
            → ShowsAt self.now.memory view.now (Place.Line k) → IsSome result }
    {
        let k = self.earlier(view)?;
        if k > NEAR && self.is_behind && self.from_start(view).is_some() {
            return None;
        }
        Some(k)
    }

    // An earlier state of the line.
    fn earlier(&self, view: &View) -> Option<usize>
        ensures at { IfSome result (λ k. ShowsAt self.now.memory view.now (Place.Line k)) }
        ensures reads { IsLive self.now → ShowsEarlier self.now.memory view.now
            → MatchOption result ⊥ (λ k. k ≤ 4) }
        ensures last { (k : ℕ) → IsLive self.now → 1 ≤ k
            → ShowsAt self.now.memory view.now (Place.Line k)
            → MatchOption result ⊥ (λ j. j ≤ k) }
        ensures first { IfSome result (λ k. 1 ≤ k) }
    {
        if !self.is_live() {
            return None;
        }
        for k in 1..self.memory.line.len() {
            if view.is(
                &self.memory.line[k].step.state,
                self.memory.line[k].step.is_turned,
            ) {
                return Some(k);
            }
        }
        None
    }

    // One half-move, or a node that was seen before.
    fn read_half_move(&self, view: &View) -> Option<Reading>
        ensures linked { (shown : List (List Piece)) → Contains shown (pieces_of view.now.shown)
            → IfSome result (λ reading. Reads shown self.now.memory reading) }
        ensures at { IfSome result (λ reading. ReadsView self.now.memory view.now reading) }
        ensures room { IfSome result (HasRoom self.now.memory) }
        ensures near { IfSome result IsNear }
        ensures reads { IsLive self.now
            → HasLine 1 self.now.memory (Place.Line 0) (pieces_of view.now.shown)
            → IsSome result }
        ensures seen { FollowsSeen self.now.memory (pieces_of view.now.shown)
            → IsSome result }
        ensures begins { IfSome result MarksStart }
        ensures line { IfSome result
            (λ reading. (k : ℕ) → reading ≢ Reading.At (Place.Line k)) }
    {
        if self.returned.count > 0 && self.is_live() {
            if let Some(node) = self.made(Place::Line(self.returned.count), view) {
                return Some(self.known(node));
            }
        }
        if let Some(k) = self.seen_before(view, false) {
            return Some(Reading::At(Place::Seen(k)));
        }
        let node = self.one_more(view)?;
        Some(Reading::New(node))
    }

    // A node that follows a state of the line, unless it was seen before.
    fn known(&self, node: Node) -> Reading
        ensures linked { (shown : List (List Piece)) (pieces : List Piece) → Contains shown pieces
            → Fits self.now.memory pieces node → Reads shown self.now.memory result }
        ensures at { (view : View) → Shows view node.step → ReadsView self.now.memory view result }
        ensures room { IsRoomFor self.now.memory node → HasRoom self.now.memory result }
        ensures near { IsNear result }
        ensures begins { MarksStart result }
        ensures line { (k : ℕ) → result ≢ Reading.At (Place.Line k) }
    {
        dgt_values::laws::equal_is_same();
        for k in 0..self.memory.seen.len() {
            let other = &self.memory.seen[k];
            if other.step.parent == node.step.parent
                && other.step.is_turned == node.step.is_turned
                && other.step.state == node.step.state
            {
                return Reading::At(Place::Seen(k));
            }
        }
        Reading::New(node)
    }

    // The node with these pieces that was seen last.
    fn seen_before(&self, view: &View, is_shadow: bool) -> Option<usize>
        ensures at { IfSome result (λ k. ShowsAt self.now.memory view.now (Place.Seen k)) }
    {
        let len = self.memory.seen.len();
        for at in 0..len {
            let node = &self.memory.seen[len - 1 - at];
            if node.step.way != Way::Begun
                && self.is_shadow(node) == is_shadow
                && view.is(&node.step.state, node.step.is_turned)
            {
                return Some(len - 1 - at);
            }
        }
        None
    }

    /// The meaning of a picture that lacks a king: it may be the next piece that moves.
    pub(crate) fn read_king_in_hand(&self, view: &View) -> Reading
        ensures linked { (shown : List (List Piece)) → Contains shown (pieces_of view.now.shown)
            → Reads shown self.now.memory result }
        ensures at { ReadsView self.now.memory view.now result }
        ensures room { HasRoom self.now.memory result }
        ensures begins { MarksStart result }
        ensures line { (k : ℕ) → result ≢ Reading.At (Place.Line k) }
    {
        match self.read_held(view) {
            Some(node) => Reading::Held(node),
            None => Reading::At(Place::Nowhere),
        }
    }

    // A half-move after which the other side has its next piece in a hand already.
    fn read_held(&self, view: &View) -> Option<Node>
        ensures linked { (shown : List (List Piece)) → Contains shown (pieces_of view.now.shown)
            → IfSome result (λ node. Reads shown self.now.memory (Reading.Held node)) }
        ensures at { IfSome result
            (λ node. ReadsView self.now.memory view.now (Reading.Held node)) }
        ensures room { IfSome result (IsRoomFor self.now.memory) }
        ensures begins { IfSome result (λ node. halves_of node.step.way ≡ 1) }
    {
        let len = self.memory.seen.len();
        for at in 0..len {
            if !self.is_shadow(&self.memory.seen[len - 1 - at]) {
                if let Some(node) = self.held(Place::Seen(len - 1 - at), view) {
                    return Some(node);
                }
            }
        }
        if self.is_live() {
            self.held(Place::Line(0), view)
        } else {
            None
        }
    }

    fn held(&self, place: Place, view: &View) -> Option<Node>
        ensures linked { (shown : List (List Piece)) → Contains shown (pieces_of view.now.shown)
            → IfSome result (λ node. Reads shown self.now.memory (Reading.Held node)) }
        ensures at { IfSome result
            (λ node. ReadsView self.now.memory view.now (Reading.Held node)) }
        ensures room { ((k : ℕ) → place ≡ Place.Line k → k ≤ 4)
            → IfSome result (IsRoomFor self.now.memory) }
        ensures begins { IfSome result (λ node. halves_of node.step.way ≡ 1) }
    {
        dgt_values::laws::equal_is_same();
        let from = self.memory.node(place)?;
        let shown = view.from(from.step.is_turned);
        let whole = put_back(shown, &from.step.state);
        if whole == *shown {
            return None;
        }
        let (one, state) = half_move(&from.step.state, &whole)?;
        if is_held(shown, &state) {
            return Some(self.follow(&from, place, Way::Made(one), state));
        }
        None
    }

    // A half-move while one piece is gone, if nothing is in doubt.
    fn read_without_one(&self, view: &View) -> Option<Node>
        ensures linked { (shown : List (List Piece)) → Contains shown (pieces_of view.now.shown)
            → IfSome result (λ node. Reads shown self.now.memory (Reading.Held node)) }
        ensures at { IfSome result
            (λ node. ReadsView self.now.memory view.now (Reading.Held node)) }
        ensures room { IfSome result (IsRoomFor self.now.memory) }
        ensures begins { IfSome result (λ node. halves_of node.step.way ≡ 1) }
        ensures lacks { IfSome result (λ node. node.lacks_one ≡ true) }
        ensures doubt { (self.now.is_behind ≡ true) ⊎ (self.now.is_set_up ≡ true)
            → result ≡ None }
        ensures stayed { IfSome result (AfterStayed self.now.memory) }
        ensures reads { IsLive self.now → self.now.is_behind ≡ false
            → self.now.is_set_up ≡ false
            → GoneFrom self.now.memory (Place.Line 0) (pieces_of view.now.shown)
            → IsSome result }
    {
        if self.is_behind || self.is_set_up {
            return None;
        }
        let len = self.memory.seen.len();
        for at in 0..len {
            if let Some(node) = self.without_one_after(len - 1 - at, view) {
                return Some(node);
            }
        }
        if self.is_live() {
            self.without_one(Place::Line(0), view)
        } else {
            None
        }
    }

    // The same after a node that was seen.
    fn without_one_after(&self, k: usize, view: &View) -> Option<Node>
        ensures linked { (shown : List (List Piece)) → Contains shown (pieces_of view.now.shown)
            → IfSome result (λ node. Reads shown self.now.memory (Reading.Held node)) }
        ensures at { IfSome result
            (λ node. ReadsView self.now.memory view.now (Reading.Held node)) }
        ensures room { IfSome result (IsRoomFor self.now.memory) }
        ensures begins { IfSome result (λ node. halves_of node.step.way ≡ 1) }
        ensures lacks { IfSome result (λ node. node.lacks_one ≡ true) }
        ensures stayed { IfSome result (AfterStayed self.now.memory) }
    {
        let before = self.memory.seen_node(k)?;
        if self.is_shadow(&before) || !has_stayed(&before) {
            return None;
        }
        self.without_one(Place::Seen(k), view)
    }

    fn without_one(&self, place: Place, view: &View) -> Option<Node>
        ensures linked { (shown : List (List Piece)) → Contains shown (pieces_of view.now.shown)
            → IfSome result (λ node. Reads shown self.now.memory (Reading.Held node)) }
        ensures at { IfSome result
            (λ node. ReadsView self.now.memory view.now (Reading.Held node)) }
        ensures room { ((k : ℕ) → place ≡ Place.Line k → k ≤ 4)
            → IfSome result (IsRoomFor self.now.memory) }
        ensures begins { IfSome result (λ node. halves_of node.step.way ≡ 1) }
        ensures lacks { IfSome result (λ node. (node.lacks_one ≡ true)
            × (node.step.parent ≡ place)) }
        ensures reads { GoneFrom self.now.memory place (pieces_of view.now.shown)
            → IsSome result }
    {
        let from = self.memory.node(place)?;
        let shown = view.from(from.step.is_turned);
        let (one, state) = half_move_without_one(&from.step.state, shown)?;
        let mut node = self.follow(&from, place, Way::Made(one), state);
        node.lacks_one = true;
        Some(node)
    }

    /// The node with the same half-moves after the same place, if there is one.
    pub(crate) fn same_node(&self, node: &Node) -> Option<usize>
        ensures { IfSome result (λ k. (step : Step)
            × (slice_get (steps self.now.memory.seen.items) k ≡ Some step)
            × (step.is_turned ≡ node.now.step.is_turned)
            × (board step.state ≡ board node.now.step.state)) }
    {
        dgt_values::laws::equal_is_same();
        for k in 0..self.memory.seen.len() {
            let other = &self.memory.seen[k].step;
            if other.parent == node.step.parent
                && other.way == node.step.way
                && other.is_turned == node.step.is_turned
                && other.state == node.step.state
            {
                return Some(k);
            }
        }
        None
    }

    // The shortest way by one half-move more. Of several, one that moved what has just changed.
    // A square that a piece slid over leads nowhere, unless nothing else does.
    fn one_more(&self, view: &View) -> Option<Node>
        ensures linked { IfSome result
            (λ node. Fits self.now.memory (pieces_of view.now.shown) node) }
        ensures reads { IsLive self.now
            → HasLine 1 self.now.memory (Place.Line 0) (pieces_of view.now.shown)
            → IsSome result }
        ensures room { IfSome result (IsRoomFor self.now.memory) }
        ensures seen { FollowsSeen self.now.memory (pieces_of view.now.shown)
            → IsSome result }
    {
        let mut best = None;
        let len = self.memory.seen.len();
        for at in 0..len {
            if !self.is_shadow(&self.memory.seen[len - 1 - at]) {
                best = self.better(best, self.made(Place::Seen(len - 1 - at), view));
            }
        }
        if self.is_live() {
            best = self.better(best, self.made(Place::Line(0), view));
        }
        best
    }

    fn better(&self, best: Option<Node>, other: Option<Node>) -> Option<Node>
        ensures linked { (result ≡ best) ⊎ (result ≡ other) }
        ensures first { IsSome best → IsSome result }
        ensures second { IsSome other → IsSome result }
    {
        let (Some(first), Some(second)) = (best, other) else {
            return best.or(other);
        };
        let has_rested = self.has_rested(first.step.parent);
        if has_rested != self.has_rested(second.step.parent) {
            return if has_rested { best } else { other };
        }
        let is_shorter = second.depth < first.depth;
        let is_fresher = second.depth == first.depth
            && !self.has_changed_last(&first)
            && self.has_changed_last(&second);
        if is_shorter || is_fresher {
            other
        } else {
            best
        }
    }

    // Whether a state is reported, or was shown for longer than a piece slides.
    pub(crate) fn has_rested(&self, place: Place) -> bool {
        match (place, self.memory.node(place)) {
            (Place::Seen(_), Some(node)) => node.rested() >= SETTLE && !node.jumps,
            _ => true,
        }
    }

    /// Whether half-moves that weren't shown may follow. A square that a piece slid over doesn't
    /// count, unless something else wasn't shown.
    pub(crate) fn may_jump(&self, place: Place) -> bool
        ensures reads { place ≡ Place.Line 0 → IsLive self.now → last_of self.now.memory ≢ None
            → result ≡ true }
    {
        match (place, self.memory.node(place)) {
            (_, None) => false,
            (Place::Seen(k), Some(_)) => self.may_jump_from(k),
            _ => self.is_live(),
        }
    }

    // The same after a node that was seen.
    fn may_jump_from(&self, k: usize) -> bool
        ensures { IsTrue result → IfSome (slice_get self.now.memory.seen.items k) HasStayed }
    {
        match self.memory.seen_node(k) {
            Some(node) => {
                !self.is_shadow(&node) && has_stayed(&node) && (self.is_behind || !self.has_slid(k))
            }
            None => false,
        }
    }

    // Whether the half-moves to a node changed a square that has just changed.
    fn has_changed_last(&self, node: &Node) -> bool {
        let Some(parent) = self.memory.node(node.step.parent) else {
            return false;
        };
        let changed = parent
            .step
            .state
            .position()
            .differ(node.step.state.position());
        let shown = if node.step.is_turned {
            changed.reverse_bits()
        } else {
            changed
        };
        shown & self.changed != 0
    }

    // The state in which a game begins, seen from either side.
    fn read_start(&self, view: &View) -> Option<Reading>
        ensures linked { (shown : List (List Piece)) → Contains shown (pieces_of view.now.shown)
            → IfSome result (λ reading. Reads shown self.now.memory reading) }
        ensures at { IfSome result (λ reading. ReadsView self.now.memory view.now reading) }
        ensures room { IfSome result (HasRoom self.now.memory) }
        ensures near { IfSome result IsNear }
        ensures reads { ShowsStart view.now → IsSome result }
        ensures begins { IfSome result MarksStart }
        ensures line { (k : ℕ) → result ≡ Some (Reading.At (Place.Line k)) → k ≤ 2 }
    {
        dgt_chess::laws::one_start();
        let start = State::start();
        for is_turned in [false, true] {
            if view.is(&start, is_turned) {
                if let Some(k) = self.earlier(view) {
                    if k <= 2 && self.memory.line.get(k)?.step.way == Way::Begun {
                        return Some(Reading::At(Place::Line(k)));
                    }
                }
                let node = Node::root(start, is_turned, Origin::Start, self.since);
                return Some(Reading::New(node));
            }
        }
        None
    }

    // Two half-moves, or a correction of how many there were before.
    fn read_jump(&self, view: &View) -> Option<Reading>
        ensures linked { (shown : List (List Piece)) (line : List Told)
            → Holds shown line self.now.memory → Contains shown (pieces_of view.now.shown)
            → IfSome result (λ reading. Reads shown self.now.memory reading) }
        ensures at { IfSome result (λ reading. ReadsView self.now.memory view.now reading) }
        ensures read { IfSome result IsRead }
        ensures reads { IsLive self.now → self.now.returned.count ≡ 0
            → HasLine 2 self.now.memory (Place.Line 0) (pieces_of view.now.shown)
            → IsSome result }
        ensures room { IfSome result (HasRoom self.now.memory) }
        ensures begins { IfSome result MarksStart }
    {
        if self.lifts_after_back(view) {
            return None;
        }
        if let Some(node) = self.two_more(view) {
            return Some(Reading::New(node));
        }
        let len = self.memory.seen.len();
        for at in 0..len {
            if let Some(reading) = self.recounted(Place::Seen(len - 1 - at), view) {
                return Some(reading);
            }
        }
        if self.is_live() {
            return self.recounted(Place::Line(0), view);
        }
        None
    }

    // Whether pieces are lifted from the state to which the line is taken back.
    fn lifts_after_back(&self, view: &View) -> bool
        ensures { self.now.returned.count ≡ 0 → result ≡ false }
    {
        self.returned.count > 0 && self.is_line_lifted(view, self.returned.count)
    }

    // Two half-moves more. Of several, those that moved what has just changed.
    fn two_more(&self, view: &View) -> Option<Node>
        ensures linked { IfSome result
            (λ node. Fits self.now.memory (pieces_of view.now.shown) node) }
        ensures reads { IsLive self.now
            → HasLine 2 self.now.memory (Place.Line 0) (pieces_of view.now.shown)
            → IsSome result }
        ensures room { IfSome result (IsRoomFor self.now.memory) }
    {
        let mut found = None;
        let len = self.memory.seen.len();
        for at in 0..len {
            let place = Place::Seen(len - 1 - at);
            if self.may_jump(place) {
                found = self.fresher(found, self.jumped(place, view, 2));
            }
        }
        if self.is_live() {
            if self.returned.count > 0 {
                found = self.fresher(
                    found,
                    self.jumped(Place::Line(self.returned.count), view, 2),
                );
            }
            found = self.fresher(found, self.jumped(Place::Line(0), view, 2));
        }
        found
    }

    // The first of both, unless only the second moved what has just changed.
    fn fresher(&self, first: Option<Node>, second: Option<Node>) -> Option<Node>
        ensures linked { (result ≡ first) ⊎ (result ≡ second) }
        ensures first { IsSome first → IsSome result }
        ensures second { IsSome second → IsSome result }
    {
        let (Some(old), Some(new)) = (first, second) else {
            return first.or(second);
        };
        if !self.has_changed_last(&old) && self.has_changed_last(&new) {
            second
        } else {
            first
        }
    }

    // If the other side has moved after a jump, the jump had one half-move more or less.
    fn recounted(&self, place: Place, view: &View) -> Option<Reading>
        ensures linked { (shown : List (List Piece)) (line : List Told)
            → Holds shown line self.now.memory → Contains shown (pieces_of view.now.shown)
            → IfSome result (λ reading. Reads shown self.now.memory reading) }
        ensures at { IfSome result (λ reading. ReadsView self.now.memory view.now reading) }
        ensures read { IfSome result IsRead }
        ensures room { IfSome result (HasRoom self.now.memory) }
        ensures begins { IfSome result MarksStart }
    {
        let node = self.memory.node(place)?;
        if node.step.way.halves() < 2 || !node.was_behind {
            return None;
        }
        half_move(
            &other_side(&node.step.state)?,
            view.from(node.step.is_turned),
        )?;
        let mut before = self.parent_of(place);
        let mut halves = node.step.way.halves();
        for _ in 0..GAP {
            for count in [halves.saturating_add(1), halves.saturating_sub(1)] {
                if let Some(reading) = self.recounted_by(before, &node, view, count) {
                    return Some(reading);
                }
            }
            halves = halves.saturating_add(self.memory.node(before)?.step.way.halves());
            before = self.parent_of(before);
        }
        None
    }

    fn parent_of(&self, place: Place) -> Place
        ensures line { (k : ℕ) → place ≡ Place.Line k → k < 2 ^ 64 - 1
            → result ≡ Place.Line (k + 1) }
        ensures seen { (k : ℕ) → place ≡ Place.Seen k
            → IfSome (slice_get (steps self.now.memory.seen.items) k)
            (λ step. result ≡ step.parent) }
    {
        match (place, self.memory.node(place)) {
            (Place::Line(k), _) => Place::Line(k.saturating_add(1)),
            (_, Some(node)) => node.step.parent,
            _ => Place::Nowhere,
        }
    }

    // As many half-moves to a node, and one more.
    fn recounted_by(&self, parent: Place, node: &Node, view: &View, halves: u8) -> Option<Reading>
        ensures linked { (shown : List (List Piece))
            → Contains shown (told_pieces (told_of node.now.step))
            → Contains shown (pieces_of view.now.shown)
            → IfSome result (λ reading. Reads shown self.now.memory reading) }
        ensures at { IfSome result (λ reading. ReadsView self.now.memory view.now reading) }
        ensures read { IfSome result IsRead }
        ensures room { IfSome result (HasRoom self.now.memory) }
        ensures begins { IfSome result MarksStart }
    {
        let first = self.other_jump(parent, node, halves)?;
        let second = self.next(&first, Place::Nowhere, view)?;
        Some(Reading::Two(first, second))
    }

    // The node with the pieces of another that as many half-moves from a place lead to.
    fn other_jump(&self, place: Place, node: &Node, halves: u8) -> Option<Node>
        ensures linked { IfSome result (λ other.
            Fits self.now.memory (told_pieces (told_of node.now.step)) other) }
        ensures room { IfSome result (IsRoomFor self.now.memory) }
        ensures sure { IfSome result (λ node. node.is_sure ≡ false) }
    {
        let from = self.memory.node(place)?;
        if from.step.is_turned != node.step.is_turned || is_far(place) {
            return None;
        }
        self.jumped_from(&from, place, node.step.state.position(), halves)
    }

    // Another half-move, or another two, after one of the last states of the line.
    fn read_replaced(&self, view: &View) -> Option<Node>
        ensures linked { IfSome result
            (λ node. Fits self.now.memory (pieces_of view.now.shown) node) }
        ensures reads { IsLive self.now → self.now.is_set_up ≡ false
            → IsReplaced self.now.memory (pieces_of view.now.shown) → IsSome result }
        ensures room { IfSome result (IsRoomFor self.now.memory) }
    {
        if !self.is_live() || self.is_set_up {
            return None;
        }
        for k in 1..NEAR + 1 {
            if let Some(node) = self.made(Place::Line(k), view) {
                return Some(node);
            }
        }
        for k in 1..3 {
            if let Some(node) = self.jumped(Place::Line(k), view, 2) {
                return Some(node);
            }
        }
        None
    }

    fn read_shadow(&self, view: &View) -> Reading
        ensures linked { (shown : List (List Piece)) → Contains shown (pieces_of view.now.shown)
            → Reads shown self.now.memory result }
        ensures at { ReadsView self.now.memory view.now result }
        ensures room { HasRoom self.now.memory result }
        ensures begins { MarksStart result }
    {
        if let Some(k) = self.seen_before(view, true) {
            return Reading::At(Place::Seen(k));
        }
        let mut best = None;
        for k in 0..self.memory.seen.len() {
            if self.is_shadow(&self.memory.seen[k]) {
                best = self.better(best, self.made(Place::Seen(k), view));
            }
        }
        match best {
            Some(node) => Reading::New(node),
            None => Reading::At(Place::Nowhere),
        }
    }

    // Whether a position rested since the last doubt that isn't on the way, not even with pieces in
    // hands: then it isn't known in which order half-moves were made.
    fn is_contradicted(&self, place: Place, from: &Node, moves: &Moves) -> bool {
        for k in 0..self.memory.seen.len() {
            let node = &self.memory.seen[k];
            if node.is_sure
                && node.left > self.sure_since
                && (self.is_shadow(node) || node.step.way.is_jump() && node.rested() >= SETTLE)
                && !self.is_before(k, place)
                && !is_between(node, from, moves)
                && !moves_again(node.step.state.position(), &from.step.state)
            {
                return true;
            }
        }
        false
    }

    // Whether a node is on the path to a place.
    fn is_before(&self, k: usize, place: Place) -> bool {
        let mut at = place;
        for _ in 0..self.memory.seen.len() {
            if at == Place::Seen(k) {
                return true;
            }
            at = match self.memory.node(at) {
                Some(node) => node.step.parent,
                None => Place::Nowhere,
            };
        }
        false
    }

    /// Whether a node goes on from a position that nothing led to.
    pub(crate) fn is_shadow(&self, node: &Node) -> bool
        ensures reads { node.now.origin ≢ Origin.Shadow → result ≡ false }
    {
        node.origin == Origin::Shadow && !self.is_same_start(node)
    }

    // Whether the line has begun with the node's position, and no half-move was reported yet: then
    // either side may move first.
    pub(crate) fn is_same_start(&self, node: &Node) -> bool {
        let Some(last) = self.memory.line.get(0) else {
            return false;
        };
        last.step.way == Way::Begun && self.root_position(node) == *last.step.state.position()
    }

    fn root_position(&self, node: &Node) -> Position {
        let mut at = *node;
        for _ in 0..self.memory.seen.len() {
            if let Place::Seen(k) = at.step.parent {
                if let Some(parent) = self.memory.seen.get(k) {
                    at = *parent;
                }
            }
        }
        *at.step.state.position()
    }

    /// The node that one half-move from a place leads to.
    pub(crate) fn made(&self, place: Place, view: &View) -> Option<Node>
        ensures linked { IfSome result
            (λ node. Fits self.now.memory (pieces_of view.now.shown) node) }
        ensures reads { HasLine 1 self.now.memory place (pieces_of view.now.shown)
            → IsSome result }
        ensures room { ((k : ℕ) → place ≡ Place.Line k → k ≤ 4)
            → IfSome result (IsRoomFor self.now.memory) }
    {
        let from = self.memory.node(place)?;
        self.next(&from, place, view)
    }

    // The node that one half-move from another leads to.
    fn next(&self, from: &Node, place: Place, view: &View) -> Option<Node>
        ensures linked { IfSome result (λ node. (node.step.parent ≡ place)
            × Links (Some from.now.step) node.step
            × (told_pieces (told_of node.step) ≡ pieces_of view.now.shown)) }
        ensures reads { HasLineFrom 1 from.now.step (pieces_of view.now.shown) → IsSome result }
    {
        let (one, state) = half_move(&from.step.state, view.from(from.step.is_turned))?;
        Some(self.follow(from, place, Way::Made(one), state))
    }

    /// The node that as many half-moves from a place lead to.
    pub(crate) fn jumped(&self, place: Place, view: &View, halves: u8) -> Option<Node>
        ensures linked { IfSome result
            (λ node. FitsBy self.now.memory (pieces_of view.now.shown) node) }
        ensures reads { 1 ≤ halves → halves ≤ 4
            → HasLine halves self.now.memory place (pieces_of view.now.shown) → IsSome result }
        ensures room { ((k : ℕ) → place ≡ Place.Line k → k ≤ 4)
            → IfSome result (IsRoomFor self.now.memory) }
    {
        let from = self.memory.node(place)?;
        self.jumped_from(&from, place, view.from(from.step.is_turned), halves)
    }

    /// The same, if the picture is seen from White's side.
    pub(crate) fn jumped_from(
        &self,
        from: &Node,
        place: Place,
        shown: &Position,
        halves: u8,
    ) -> Option<Node>
        ensures linked { IfSome result (λ node. (node.step.parent ≡ place)
            × (node.step.is_turned ≡ from.now.step.is_turned)
            × By from.now.step.state node.step.way node.step.state
            × (board node.step.state ≡ pieces_of shown.now)) }
        ensures reads { 1 ≤ halves → halves ≤ 4
            → SomeLine halves from.now.step.state (pieces_of shown.now) → IsSome result }
        ensures sure { IfSome result (λ node. node.is_sure ≡ false) }
    {
        let (way, state) = self.jump(from, place, shown, halves)?;
        Some(self.follow(from, place, way, state))
    }

    // As many half-moves that lead to a picture, and the state after them.
    fn jump(&self, from: &Node, place: Place, shown: &Position, halves: u8) -> Option<(Way, State)>
        ensures linked { IfSome result (λ found. By from.now.step.state found.0 found.1
            × (board found.1 ≡ pieces_of shown.now)) }
        ensures reads { 1 ≤ halves → halves ≤ 4
            → SomeLine halves from.now.step.state (pieces_of shown.now) → IsSome result }
    {
        if halves == 0 || halves > GAP as u8 {
            return None;
        }
        match find_ways(&from.step.state, shown, halves) {
            Ways::Nothing => None,
            Ways::Only(moves, new) => Some((self.way_of(from, place, moves, halves), new)),
            Ways::Several(new) => Some((Way::Gap(halves), new)),
        }
    }

    // How the only half-moves of as many are reported.
    fn way_of(&self, from: &Node, place: Place, moves: Moves, halves: u8) -> Way
        ensures { (state new : State) → length (moves_of moves) ≡ halves
            → IsLine state (moves_of moves) new → IsOnly state (moves_of moves) (board new)
            → By state result new }
    {
        match moves.as_slice() {
            [one] => Way::Made(*one),
            _ if self.is_contradicted(place, from, &moves) => Way::Gap(halves),
            _ => Way::Unseen(moves),
        }
    }

    /// A node that follows another.
    pub(crate) fn follow(&self, from: &Node, parent: Place, way: Way, state: State) -> Node
        ensures step { result.step ≡ record {
          state = state;
          is_turned = from.now.step.is_turned;
          way = way;
          parent = parent;
        } }
        ensures sure { result.is_sure ≡ false }
        ensures now { (result.at ≡ self.now.since) × (result.left ≡ self.now.since)
            × (result.is_held ≡ false) × (result.was_behind ≡ self.now.is_behind)
            × (result.lacks_one ≡ false) }
        ensures path { GoesOnBy from.now result }
    {
        let origin = match parent {
            Place::Line(k) => Origin::Line(k),
            _ => from.origin,
        };
        let is_told = match parent {
            Place::Line(_) => true,
            _ => false,
        };
        Node {
            step: Step {
                state,
                is_turned: from.step.is_turned,
                way,
                parent,
            },
            origin,
            at: self.since,
            left: self.since,
            is_sure: false,
            is_held: false,
            lacks_one: false,
            is_quick: self.is_quick(from, parent, way),
            was_behind: self.is_behind,
            jumps: way.is_jump() || !is_told && from.jumps,
            jumps_far: way.is_long_jump() || !is_told && from.jumps_far,
            depth: if is_told {
                1
            } else {
                from.depth.saturating_add(1)
            },
        }
    }

    // Whether the last two half-moves were made faster than by hands, with no doubt meanwhile.
    fn is_quick(&self, from: &Node, parent: Place, way: Way) -> bool {
        let before = match parent {
            Place::Line(k) => self.memory.node(Place::Line(k.saturating_add(1))),
            _ => self.memory.node(from.step.parent),
        };
        let mut left = from.left;
        let mut halves = way.halves();
        if halves < 2 {
            let Some(node) = before else {
                return false;
            };
            left = node.left;
            halves = halves.saturating_add(from.step.way.halves());
        }
        halves >= 2 && !self.is_behind && self.since.saturating_sub(left) < HANDS * halves as u64
    }
}

// Whether half-moves that were reported may not be replaced from a place, as it is too far back.
fn is_far(place: Place) -> bool
    ensures { result ≡ false → (k : ℕ) → place ≡ Place.Line k → k ≤ 4 }
{
    match place {
        Place::Line(k) => k > NEAR,
        _ => false,
    }
}

// What is shown, with the missing pieces of the side that has to move next put back.
fn put_back(shown: &Position, state: &State) -> Position {
    let side = state.turn().other();
    let mut whole = *shown;
    for at in 0..64u8 {
        let square = Square::from_small(at);
        let piece = state.position().get(square);
        if shown.get(square) == Piece::Empty && side.man(piece).is_some() {
            whole.set(square, piece);
        }
    }
    whole
}

/// Whether one piece was gone for longer than hands lift it, if one was.
pub(crate) fn has_stayed(node: &Node) -> bool
    ensures { IsTrue result ↔ HasStayed node.now }
{
    !node.lacks_one || node.rested() >= SETTLE
}

// Whether all of a state is shown but pieces of the side to move.
fn is_held(shown: &Position, state: &State) -> bool
    ensures { IsTrue result → LacksMen (pieces_of shown.now) state.now }
{
    for at in 0..64u8 {
        let square = Square::from_small(at);
        if !may_lack(
            shown.get(square),
            state.position().get(square),
            state.turn(),
        ) {
            return false;
        }
    }
    true
}

fn may_lack(shown: Piece, piece: Piece, side: Colour) -> bool
    ensures { IsTrue result → (shown ≡ piece)
        ⊎ ((shown ≡ Piece.Empty) × ((man : Man) × (piece ≡ piece_of side man))) }
{
    if is_same(shown, piece) {
        return true;
    }
    match side.man(piece) {
        Some(_) => is_same(shown, Piece::Empty),
        None => false,
    }
}

// Whether a node has the pieces of a state of a line, or lacks some of them.
fn is_between(node: &Node, from: &Node, moves: &Moves) -> bool {
    let shown = node.step.state.position();
    let mut state = from.step.state;
    for one in moves.as_slice() {
        if lacks_only(shown, &state) {
            return true;
        }
        state = match state.play(*one) {
            Ok(new) => new,
            Err(_) => return false,
        };
    }
    lacks_only(shown, &state)
}

// The same position with the other side to move.
fn other_side(state: &State) -> Option<State>
    ensures { IfSome result (λ new. (board new ≡ board state.now)
        × (new.turn ≡ other state.now.turn) × (new.rights ≡ state.now.rights)
        × (new.number ≡ state.now.number) × (new.half_moves ≡ state.now.half_moves)) }
{
    State::new(
        *state.position(),
        state.turn().other(),
        state.rights(),
        None,
        state.half_moves(),
        state.number(),
    )
    .ok()
}

// Whether some pieces of a state are gone, and no others are shown.
pub(crate) fn lacks_some(shown: &Position, state: &State) -> bool
    ensures { IsTrue result ↔ LacksSome (pieces_of shown.now) state.now }
{
    dgt_values::laws::equal_is_same();
    lacks_only(shown, state) && shown != state.position()
}

// Whether each square shows a state's piece, or none.
fn lacks_only(shown: &Position, state: &State) -> bool
    ensures { IsTrue result ↔ LacksOnly (pieces_of shown.now) state.now }
{
    for at in 0..64 {
        let square = Square::from_small(at);
        if !is_same_or_gone(shown.get(square), state.position().get(square)) {
            return false;
        }
    }
    true
}

// Whether a square shows its piece, or none.
fn is_same_or_gone(shown: Piece, piece: Piece) -> bool
    ensures { IsTrue result ↔ (shown ≡ piece) ⊎ (shown ≡ Piece.Empty) }
{
    is_same(shown, piece) || is_same(shown, Piece::Empty)
}
