//! What was reported, and what was seen since.

ghost use Rattle.std.specs.Prelude.{◌≡◌, ◌≢◌, ◌⊎◌, ◌<◌, ◌≤◌, ◌↔◌, ℕ, Bool, true, false, List, [], ◌∷◌, ◌++◌, Option, Some, None, IfSome, IsSome, IsTrue, MatchOption, Contains, length, slice_get, ◌+◌};
ghost use Rattle.dgt_values.specs.declared.pieces.Piece.{Piece};
ghost use Rattle.dgt_game.specs.declared.node.Place.{Place};
ghost use Rattle.dgt_game.specs.declared.node.Node.{Node};
ghost use Rattle.dgt_game.specs.declared.node.Step.{Step};
ghost use Rattle.dgt_game.specs.declared.node.Way.{Way};
ghost use Rattle.dgt_game.specs.Told.{Leads, Told, WasShown};
ghost use Rattle.dgt_game.specs.Memory.{Chain, Grows, IsBefore, IsKept, IsRooted, Links, event_of, halves_of, line_after, step_at, steps, tip, told_of};
ghost use Rattle.dgt_game.specs.Reading.{origins};
ghost use Rattle.dgt_game.specs.Sure.{AreMarked};

use crate::event::Event;
use crate::node::{Node, Origin, Place, Way};
use crate::times::{JUMP, KEPT, NEAR, SEEN, SETTLE};
use arrayvec::ArrayVec;
use dgt_chess::State;

/// What was reported, and what was seen since.
#[derive(Drop)]
pub(crate) struct Memory {
    /// The last states of the line that was reported, the last one first.
    pub(crate) line: ArrayVec<Node, KEPT>,
    /// To be reported: how many nodes of the line are taken back, and then these follow.
    pub(crate) back: usize,
    pub(crate) unsaid: ArrayVec<Node, SEEN>,
    /// What follows these.
    pub(crate) answer: Option<Node>,
    /// What was seen since, each node after its parent.
    pub(crate) seen: ArrayVec<Node, SEEN>,
}

impl Memory {
    ghost use Rattle.dgt_game.specs.Memory.{Holds, IsSeen, IsTold};
    ghost use Rattle.dgt_game.specs.Staying.{SaysStays};
    ghost use Rattle.dgt_game.specs.Waiting.{IsOfLine, coming};
    ghost use Rattle.dgt_game.specs.Reading.{FollowsSeen};
    ghost use Rattle.dgt_game.specs.Recogniser.{new_memory};
    ghost use Rattle.dgt_game.specs.Sure.{IsMarked, LeavesSure, WereSure};
    ghost use Rattle.dgt_game.specs.declared.node.Returned.{Returned};

    pub(crate) fn new() -> Self
        ensures is { result ≡ new_memory }
        ensures holds { (shown : List (List Piece)) → Holds shown [] result }
    {
        Memory {
            line: ArrayVec::new(),
            back: 0,
            unsaid: ArrayVec::new(),
            answer: None,
            seen: ArrayVec::new(),
        }
    }

    /// Whether nothing waits to be reported.
    pub(crate) fn is_quiet(&self) -> bool
        ensures { IsTrue result ↔ ((self.now.back ≡ 0) × (self.now.unsaid.items ≡ [])) }
    {
        self.back == 0 && self.unsaid.is_empty()
    }

    /// Whether another line begins with what is to be reported next.
    pub(crate) fn begins_next(&self) -> bool
        ensures { IsTrue result ↔ (self.now.back ≡ 0)
            × MatchOption (slice_get (steps self.now.unsaid.items) 0) ⊥
            (λ step. step.way ≡ Way.Begun) }
    {
        self.back == 0
            && match self.unsaid.get(0) {
                Some(node) => node.step.way == Way::Begun,
                None => false,
            }
    }

    /// The node at a place.
    pub(crate) fn node(&self, place: Place) -> Option<Node>
        ensures { MatchOption result
            (step_at (steps self.now.line.items) (steps self.now.seen.items) place ≡ None)
            (λ node. step_at (steps self.now.line.items) (steps self.now.seen.items) place
            ≡ Some node.step) }
    {
        match place {
            Place::Line(k) => self.line.get(k).copied(),
            Place::Seen(k) => self.seen.get(k).copied(),
            Place::Nowhere => None,
        }
    }

    /// The node that was seen with this index.
    pub(crate) fn seen_node(&self, k: usize) -> Option<Node>
        ensures { result ≡ slice_get self.now.seen.items k }
    {
        self.seen.get(k).copied()
    }

    /// The board leaves a place at this time.
    pub(crate) fn leave(&mut self, place: Place, now: u64)
        ensures holds { (shown : List (List Piece)) (line : List Told) → Holds shown line self.old
            → Holds shown line self.new }
        ensures back { self.new.back ≡ self.old.back }
        ensures unsaid { self.new.unsaid.items ≡ self.old.unsaid.items }
        ensures line { steps self.new.line.items ≡ steps self.old.line.items }
        ensures answer { self.new.answer ≡ self.old.answer }
        ensures few { length self.new.seen.items ≡ length self.old.seen.items }
        ensures seen { (picture : List Piece) → FollowsSeen self.old picture
            → FollowsSeen self.new picture }
        ensures sure { LeavesSure self.old self.new }
        ensures left { (k : ℕ) → place ≡ Place.Seen k → IfSome (slice_get self.old.seen.items k)
            (λ node. slice_get self.new.seen.items k ≡ Some (record node { left = now })) }
    {
        match place {
            Place::Line(k) => set_left(&mut self.line, k, now),
            Place::Seen(k) => set_left(&mut self.seen, k, now),
            Place::Nowhere => {}
        }
    }

    /// A node was shown without a doubt, and all of it.
    pub(crate) fn set_sure(&mut self, k: usize)
        ensures holds { (shown : List (List Piece)) (line : List Told) → Holds shown line self.old
            → Holds shown line self.new }
        ensures back { self.new.back ≡ self.old.back }
        ensures unsaid { self.new.unsaid.items ≡ self.old.unsaid.items }
        ensures line { self.new.line ≡ self.old.line }
        ensures answer { self.new.answer ≡ self.old.answer }
        ensures seen { steps self.new.seen.items ≡ steps self.old.seen.items }
        ensures whole { IfSome (slice_get self.old.seen.items k) (λ node.
            slice_get self.new.seen.items k ≡ Some (record node {
              is_sure = true;
              is_held = false;
              lacks_one = false;
            })) }
        ensures sure { (sure : List (List Piece)) (returned : Returned)
            → IfSome (slice_get (steps self.old.seen.items) k)
            (λ step. WasShown sure (told_of step))
            → WereSure sure self.old returned → WereSure sure self.new returned }
    {
        set_sure(&mut self.seen, k);
    }

    pub(crate) fn forget_seen(&mut self)
        ensures holds { (shown : List (List Piece)) (line : List Told) → Holds shown line self.old
            → Holds shown line self.new }
        ensures back { self.new.back ≡ self.old.back }
        ensures unsaid { self.new.unsaid.items ≡ self.old.unsaid.items }
        ensures line { self.new.line ≡ self.old.line }
        ensures answer { self.new.answer ≡ self.old.answer }
        ensures none { self.new.seen.items ≡ [] }
        ensures sure { LeavesSure self.old self.new }
    {
        self.seen.clear();
    }

    /// Forgets what was seen, unless there is room for as many more nodes.
    pub(crate) fn make_room(&mut self, room: usize)
        ensures holds { (shown : List (List Piece)) (line : List Told) → Holds shown line self.old
            → Holds shown line self.new }
        ensures back { self.new.back ≡ self.old.back }
        ensures unsaid { self.new.unsaid.items ≡ self.old.unsaid.items }
        ensures line { self.new.line ≡ self.old.line }
        ensures answer { self.new.answer ≡ self.old.answer }
        ensures few { length self.new.seen.items ≤ length self.old.seen.items }
        ensures kept { length self.old.seen.items + room ≤ 24 → self.new ≡ self.old }
        ensures sure { LeavesSure self.old self.new }
    {
        if self.seen.remaining_capacity() < room {
            self.forget_seen();
        }
    }

    /// Adds a node, and makes room for it if need be. Returns its index.
    pub(crate) fn push(&mut self, node: Node) -> Option<usize>
        ensures holds { (shown : List (List Piece)) (line : List Told)
            → self.old.back ≡ 0 → self.old.unsaid.items ≡ []
            → Links (step_at (steps self.old.line.items) (steps self.old.seen.items)
            node.step.parent) node.step
            → IsSeen shown node.step → Holds shown line self.old → Holds shown line self.new }
        ensures back { self.new.back ≡ self.old.back }
        ensures unsaid { self.new.unsaid.items ≡ self.old.unsaid.items }
        ensures line { self.new.line ≡ self.old.line }
        ensures seen { IfSome result (λ k. (place : Place)
            × (slice_get (steps self.new.seen.items) k ≡ Some (record {
              state = node.step.state;
              is_turned = node.step.is_turned;
              way = node.step.way;
              parent = place;
            }))) }
        ensures answer { self.new.answer ≡ self.old.answer }
        ensures room { IsBefore (length (steps self.old.line.items)) 0 node.step.parent
            → IsSome result }
        ensures whole { IfSome result (λ k. (new : Node) × (slice_get self.new.seen.items k ≡ Some
            new)
            × (new.is_held ≡ node.is_held) × (new.origin ≡ node.origin)
            × (new.lacks_one ≡ node.lacks_one)) }
        ensures rooted { IsRooted (length (steps self.old.line.items)) (steps self.old.seen.items)
            → IsRooted (length (steps self.new.line.items)) (steps self.new.seen.items) }
        ensures free { length self.old.seen.items < 24
            → IsBefore (length (steps self.old.line.items)) (length (steps self.old.seen.items))
            node.step.parent → IsSome result }
        ensures few { length self.old.seen.items < 24
            → length self.new.seen.items ≤ length self.old.seen.items + 1 }
        ensures kept { length self.old.seen.items < 24 → (picture : List Piece)
            → FollowsSeen self.old picture → FollowsSeen self.new picture }
        ensures sure { (sure : List (List Piece)) (returned : Returned) → IsMarked sure node
            → WereSure sure self.old returned → WereSure sure self.new returned }
    {
        let parent = self.keep_path(node.step.parent)?;
        if self.seen.is_full() || !self.may_follow(parent) {
            return None;
        }
        let len = self.seen.len();
        let mut new = node;
        new.step.parent = parent;
        self.seen.push(new);
        Some(len)
    }

    // Whether a new node may follow a place: one seen before, or one of the last states of the
    // line.
    fn may_follow(&self, place: Place) -> bool
        ensures { IsTrue result ↔ IsBefore (length (steps self.now.line.items))
            (length (steps self.now.seen.items)) place }
    {
        match place {
            Place::Line(base) => base < self.line.len() && base <= NEAR,
            Place::Seen(k) => k < self.seen.len(),
            Place::Nowhere => true,
        }
    }

    // Makes room for a node after a place, if need be: only the path to the place is kept then.
    // Returns where the place is then.
    fn keep_path(&mut self, place: Place) -> Option<Place>
        ensures holds { (shown : List (List Piece)) (line : List Told)
            → self.old.back ≡ 0 → self.old.unsaid.items ≡ []
            → Holds shown line self.old → Holds shown line self.new }
        ensures links { IfSome result (λ new. (step : Step)
            → Links (step_at (steps self.old.line.items) (steps self.old.seen.items) place) step
            → Links (step_at (steps self.new.line.items) (steps self.new.seen.items) new) step) }
        ensures back { self.new.back ≡ self.old.back }
        ensures unsaid { self.new.unsaid.items ≡ self.old.unsaid.items }
        ensures line { self.new.line ≡ self.old.line }
        ensures answer { self.new.answer ≡ self.old.answer }
        ensures rooted { IsRooted (length (steps self.old.line.items)) (steps self.old.seen.items)
            → IsRooted (length (steps self.new.line.items)) (steps self.new.seen.items) }
        ensures room { ((j : ℕ) → place ≢ Place.Seen j)
            → (result ≡ Some place) × (length self.new.seen.items < 24) }
        ensures few { length self.old.seen.items < 24
            → (result ≡ Some place) × (self.new ≡ self.old) }
        ensures sure { LeavesSure self.old self.new }
    {
        if !self.seen.is_full() {
            return Some(place);
        }
        let Place::Seen(k) = place else {
            self.seen.clear();
            return Some(place);
        };
        let (path, start) = self.path(k);
        if let Place::Seen(_) = start {
            return None;
        }
        let (seen, last) = chained(&path, start);
        self.seen = seen;
        Some(last)
    }

    // The nodes that lead to one, with it, and the place that they begin at.
    fn path(&self, k: usize) -> (ArrayVec<Node, SEEN>, Place)
        ensures path { (shown : List (List Piece)) (line : List Told) → Holds shown line self.now
            → Chain shown (step_at (steps self.now.line.items) (steps self.now.seen.items)
            result.1) (steps result.0.items) }
        ensures tip { tip (step_at (steps self.now.line.items) (steps self.now.seen.items)
            result.1) (steps result.0.items)
            ≡ step_at (steps self.now.line.items) (steps self.now.seen.items) (Place.Seen k) }
        ensures start { IsRooted (length (steps self.now.line.items)) (steps self.now.seen.items)
            → (k < length (steps self.now.seen.items))
            ⊎ ((j : ℕ) → result.1 ≢ Place.Seen j)
            → IsBefore (length (steps self.now.line.items)) 0 result.1 }
        ensures some { k < length (steps self.now.seen.items) → result.0.items ≢ [] }
        ensures sure { (sure : List (List Piece)) → AreMarked sure self.now.seen.items
            → AreMarked sure result.0.items }
    {
        let mut path = ArrayVec::new();
        let mut place = Place::Seen(k);
        for _at in 0..self.seen.len() {
            let Place::Seen(k) = place else {
                return (path, place);
            };
            if path.is_full() || k >= self.seen.len() {
                return (path, place);
            }
            let node = self.seen[k];
            path.insert(0, node);
            place = node.step.parent;
        }
        (path, place)
    }

    /// Has the path to a place reported, and then the answer. Before another line begins, the
    /// half-moves that had rested are reported, if the line may go on.
    pub(crate) fn tell(&mut self, place: Place, answer: Option<Node>, is_open: bool)
        ensures holds { (shown : List (List Piece)) (line : List Told)
            → self.old.back ≡ 0 → self.old.unsaid.items ≡ []
            → IfSome answer (λ node. Links (step_at (steps self.old.line.items)
            (steps self.old.seen.items) place) node.step × IsSeen shown node.step)
            → Holds shown line self.old → Holds shown line self.new }
        ensures line { self.new.line ≡ self.old.line }
        ensures told { (step : Step) → self.old.back ≡ 0 → self.old.unsaid.items ≡ []
            → step_at (steps self.old.line.items) (steps self.old.seen.items) place ≡ Some step
            → ((self.new.back ≡ 0) × (self.new.unsaid.items ≡ []))
            ⊎ (coming self.new ≡ Some step) }
        ensures lands { (step : Step)
            → IsRooted (length (steps self.old.line.items)) (steps self.old.seen.items)
            → step_at (steps self.old.line.items) (steps self.old.seen.items) place ≡ Some step
            → coming self.new ≡ Some step }
        ensures near { (step : Step)
            → IsRooted (length (steps self.old.line.items)) (steps self.old.seen.items)
            → step_at (steps self.old.line.items) (steps self.old.seen.items) place ≡ Some step
            → (self.new.back ≤ 4) ⊎ (place ≡ Place.Line self.new.back) }
        ensures answer { (step : Step)
            → IsRooted (length (steps self.old.line.items)) (steps self.old.seen.items)
            → step_at (steps self.old.line.items) (steps self.old.seen.items) place ≡ Some step
            → place ≢ Place.Line 0 → self.new.answer ≡ answer }
        ensures news { (step : Step)
            → IsRooted (length (steps self.old.line.items)) (steps self.old.seen.items)
            → step_at (steps self.old.line.items) (steps self.old.seen.items) place ≡ Some step
            → place ≢ Place.Line 0 → ¬ (IsTold self.new) }
        ensures idle { IsTold self.new → self.new.answer ≡ None }
        ensures cleared { self.new.seen.items ≡ [] }
        ensures either { (self.new.answer ≡ answer) ⊎ (self.new.answer ≡ None) }
        ensures ends { (coming self.new ≡ coming self.old) ⊎ ((step : Step)
            × (step_at (steps self.old.line.items) (steps self.old.seen.items) place ≡ Some step)
            × (coming self.new ≡ Some step)) }
    {
        let way = self.way_to(place, is_open);
        self.seen.clear();
        self.answer = None;
        if let Some((back, unsaid)) = way {
            self.back = back;
            self.unsaid = unsaid;
            if !self.is_quiet() {
                self.answer = answer;
            }
        }
    }

    // How far the line is taken back and what follows then, so that the board stands at a place.
    fn way_to(&self, place: Place, is_open: bool) -> Option<(usize, ArrayVec<Node, SEEN>)>
        ensures within { IfSome result (λ way. (way.0 ≡ 0)
            ⊎ (way.0 < length (steps self.now.line.items))) }
        ensures chain { (shown : List (List Piece)) (line : List Told) → Holds shown line self.now
            → IfSome result (λ way. Chain shown (slice_get (steps self.now.line.items) way.0)
            (steps way.1.items)) }
        ensures tip { IfSome result (λ way. (step : Step) → Links (step_at
            (steps self.now.line.items) (steps self.now.seen.items) place) step
            → Links (tip (slice_get (steps self.now.line.items) way.0) (steps way.1.items)) step) }
        ensures there { (step : Step)
            → step_at (steps self.now.line.items) (steps self.now.seen.items) place ≡ Some step
            → IfSome result (λ way.
            tip (slice_get (steps self.now.line.items) way.0) (steps way.1.items) ≡ Some step) }
        ensures some { IfSome result (λ way.
            tip (slice_get (steps self.now.line.items) way.0) (steps way.1.items) ≢ None) }
        ensures found { (step : Step)
            → IsRooted (length (steps self.now.line.items)) (steps self.now.seen.items)
            → step_at (steps self.now.line.items) (steps self.now.seen.items) place ≡ Some step
            → IsSome result }
        ensures near { (step : Step)
            → IsRooted (length (steps self.now.line.items)) (steps self.now.seen.items)
            → step_at (steps self.now.line.items) (steps self.now.seen.items) place ≡ Some step
            → IfSome result (λ way. (way.0 ≤ 4) ⊎ (place ≡ Place.Line way.0)) }
        ensures news { (step : Step)
            → step_at (steps self.now.line.items) (steps self.now.seen.items) place ≡ Some step
            → place ≢ Place.Line 0
            → IfSome result (λ way. (way.0 ≢ 0) ⊎ (way.1.items ≢ [])) }
        ensures ends { IfSome result (λ way. (step : Step)
            × (step_at (steps self.now.line.items) (steps self.now.seen.items) place ≡ Some step)
            × (tip (slice_get (steps self.now.line.items) way.0) (steps way.1.items) ≡ Some step)) }
    {
        let (path, start) = match place {
            Place::Seen(k) => self.path(k),
            _ => (ArrayVec::new(), place),
        };
        match start {
            Place::Line(base) if base < self.line.len() => Some((base, path)),
            Place::Nowhere if !path.is_empty() => {
                if is_open {
                    Some((0, self.with_last(path)))
                } else {
                    Some((0, path))
                }
            }
            _ => None,
        }
    }

    // The path of another line, after the last half-moves of this one that rested.
    fn with_last(&self, path: ArrayVec<Node, SEEN>) -> ArrayVec<Node, SEEN>
        ensures chain { (shown : List (List Piece)) (line : List Told) → Holds shown line self.now
            → Chain shown None (steps path.items)
            → Chain shown (slice_get (steps self.now.line.items) 0) (steps result.items) }
        ensures tip { (step : Step) → Links (tip None (steps path.items)) step
            → Links (tip (slice_get (steps self.now.line.items) 0) (steps result.items)) step }
        ensures there { (step : Step) → tip None (steps path.items) ≡ Some step
            → tip (slice_get (steps self.now.line.items) 0) (steps result.items) ≡ Some step }
        ensures some { (path.items ≢ []) → result.items ≢ [] }
    {
        let is_start = match path.get(0) {
            Some(first) => first.origin == Origin::Start,
            None => false,
        };
        let Some(mut nodes) = self.last_path(is_start) else {
            return path;
        };
        match nodes.try_extend_from_slice(path.as_slice()) {
            Ok(()) => nodes,
            Err(_) => path,
        }
    }

    // The path to the last half-moves that rested, from the line's last state.
    fn last_path(&self, is_start: bool) -> Option<ArrayVec<Node, SEEN>>
        ensures { (shown : List (List Piece)) (line : List Told) → Holds shown line self.now
            → IfSome result (λ path.
            Chain shown (slice_get (steps self.now.line.items) 0) (steps path.items)) }
    {
        let k = self.last_rested(is_start)?;
        let (path, start) = self.path(k);
        if start == Place::Line(0) {
            Some(path)
        } else {
            None
        }
    }

    // The last half-moves after the line's last state that rested: a single one that was shown for
    // sure or, before the start of a game, any that rested for longer, even in a doubt.
    fn last_rested(&self, is_start: bool) -> Option<usize> {
        let len = self.seen.len();
        for at in 0..len {
            let node = &self.seen[len - 1 - at];
            let has_rested = if node.is_sure && node.step.parent == Place::Line(0) {
                node.rested() >= SETTLE
            } else {
                is_start && node.rested() >= JUMP
            };
            if node.origin == Origin::Line(0) && !node.is_held && !node.is_quick && has_rested {
                return Some(len - 1 - at);
            }
        }
        None
    }

    /// Reports the next event, if one waits: if it takes something back, whether that stays, too.
    pub(crate) fn next_event(&mut self, stays: bool) -> Option<Event>
        ensures told { (shown : List (List Piece)) (line : List Told) → Holds shown line self.old
            → MatchOption result (Holds shown line self.new)
            (λ event. (new : List Told) × Leads line event new × Holds shown new self.new) }
        ensures none { result ≡ None → (self.new.back ≡ 0) × (self.new.unsaid.items ≡ []) }
        ensures coming { coming self.new ≡ coming self.old }
        ensures of_line { IfSome result IsOfLine }
        ensures still { IsTold self.old → result ≡ None }
        ensures same { result ≡ None → self.new.line ≡ self.old.line }
        ensures idle { self.old.back ≡ 0 → self.old.unsaid.items ≡ []
            → (result ≡ None) × (self.new ≡ self.old) }
        ensures nothing { result ≡ None → self.new ≡ self.old }
        ensures answer { self.new.answer ≡ self.old.answer }
        ensures less { self.new.back ≤ self.old.back }
        ensures seen { self.new.seen ≡ self.old.seen }
        ensures stays { IfSome result (λ event. SaysStays event stays) }
    {
        if self.back > 0 {
            Some(self.take_back(stays))
        } else {
            self.make()
        }
    }

    fn take_back(&mut self, stays: bool) -> Event
        ensures holds { (shown : List (List Piece)) (line : List Told) → self.old.back ≢ 0
            → Holds shown line self.old
            → (new : List Told) × Leads line result new × Holds shown new self.new }
        ensures coming { self.old.back ≢ 0 → coming self.new ≡ coming self.old }
        ensures of_line { IsOfLine result }
        ensures answer { self.new.answer ≡ self.old.answer }
        ensures less { self.new.back ≤ self.old.back }
        ensures seen { self.new.seen ≡ self.old.seen }
        ensures stays { SaysStays result stays }
    {
        self.back = self.back.saturating_sub(1);
        Event::Back(drop_first(&mut self.line), stays)
    }

    // Makes the first half-moves that are to be reported.
    fn make(&mut self) -> Option<Event>
        ensures told { (shown : List (List Piece)) (line : List Told) → self.old.back ≡ 0
            → Holds shown line self.old
            → MatchOption result (Holds shown line self.new)
            (λ event. (new : List Told) × Leads line event new × Holds shown new self.new) }
        ensures none { result ≡ None → (self.new.back ≡ self.old.back)
            × (self.new.unsaid.items ≡ []) }
        ensures coming { self.old.back ≡ 0 → coming self.new ≡ coming self.old }
        ensures of_line { IfSome result IsOfLine }
        ensures still { self.old.unsaid.items ≡ [] → result ≡ None }
        ensures same { result ≡ None → self.new.line ≡ self.old.line }
        ensures idle { self.old.unsaid.items ≡ [] → (result ≡ None) × (self.new ≡ self.old) }
        ensures nothing { result ≡ None → self.new ≡ self.old }
        ensures answer { self.new.answer ≡ self.old.answer }
        ensures less { self.new.back ≡ self.old.back }
        ensures seen { self.new.seen ≡ self.old.seen }
        ensures stays { (stays : Bool) → IfSome result (λ event. SaysStays event stays) }
    {
        let Some(node) = take_first(&mut self.unsaid) else {
            return None;
        };
        put_first(&mut self.line, node);
        Some(told_event(&node))
    }

    /// All was reported. The answer, if there is one, is the only node that was seen since.
    pub(crate) fn take_answer(&mut self) -> Option<Node>
        ensures holds { (shown : List (List Piece)) (line : List Told) → self.old.back ≡ 0
            → self.old.unsaid.items ≡ [] → Holds shown line self.old
            → Holds shown line self.new }
        ensures back { self.new.back ≡ self.old.back }
        ensures unsaid { self.new.unsaid ≡ self.old.unsaid }
        ensures line { self.new.line ≡ self.old.line }
        ensures taken { self.new.answer ≡ None }
        ensures is { MatchOption self.old.answer (result ≡ None) (λ node. (new : Node)
            × (result ≡ Some new) × (self.new.seen.items ≡ new ∷ [])
            × (new.step.state ≡ node.step.state) × (new.step.is_turned ≡ node.step.is_turned)
            × (new.step.way ≡ node.step.way) × (new.is_held ≡ node.is_held)
            × (node.step.way ≡ Way.Begun → new.origin ≡ node.origin)
            × (new.lacks_one ≡ node.lacks_one)) }
        ensures follows { IfSome result (λ new. (self.new.seen.items ≡ new ∷ [])
            × (new.step.parent ≡ Place.Line 0)) }
        ensures sure { LeavesSure self.old self.new }
    {
        let Some(node) = self.answer.take() else {
            return None;
        };
        let new = node.after_line();
        self.seen.clear();
        self.seen.push(new);
        Some(new)
    }
}

// What is known of when a node was shown is no part of its step.
#[tactic(auto, using(crate::proofs::Nodes::same_steps))]
fn set_left<const ROOM: usize>(nodes: &mut ArrayVec<Node, ROOM>, k: usize, now: u64)
    ensures steps { steps nodes.new.items ≡ steps nodes.old.items }
    ensures origins { origins nodes.new.items ≡ origins nodes.old.items }
    ensures left { IfSome (slice_get nodes.old.items k)
        (λ node. slice_get nodes.new.items k ≡ Some (record node { left = now })) }
    ensures sure { (sure : List (List Piece)) → AreMarked sure nodes.old.items
        → AreMarked sure nodes.new.items }
{
    if k < nodes.len() {
        let mut node = nodes[k];
        node.left = now;
        nodes[k] = node;
    }
}

#[tactic(auto, using(crate::proofs::Nodes::same_steps))]
fn set_sure(nodes: &mut ArrayVec<Node, SEEN>, k: usize)
    ensures steps { steps nodes.new.items ≡ steps nodes.old.items }
    ensures whole { IfSome (slice_get nodes.old.items k) (λ node.
        slice_get nodes.new.items k ≡ Some (record node {
          is_sure = true;
          is_held = false;
          lacks_one = false;
        })) }
    ensures sure { (sure : List (List Piece))
        → IfSome (slice_get (steps nodes.old.items) k) (λ step. WasShown sure (told_of step))
        → AreMarked sure nodes.old.items → AreMarked sure nodes.new.items }
{
    if k < nodes.len() {
        let mut node = nodes[k];
        node.is_sure = true;
        node.is_held = false;
        node.lacks_one = false;
        nodes[k] = node;
    }
}

// The same nodes, each after the one before, and the first after a place that was not seen since.
// Returns where the last one is, too.
fn chained(path: &ArrayVec<Node, SEEN>, start: Place) -> (ArrayVec<Node, SEEN>, Place)
    ensures grows { (shown : List (List Piece)) (kept : List Step)
        → Chain shown (step_at kept [] start) (steps path.now.items)
        → Grows shown kept (steps result.0.items) }
    ensures rooted { (lines : ℕ) → IsBefore lines 0 start → IsRooted lines (steps result.0.items) }
    ensures links { (kept : List Step) (step : Step)
        → Links (tip (step_at kept [] start) (steps path.now.items)) step
        → Links (step_at kept (steps result.0.items) result.1) step }
    ensures sure { (sure : List (List Piece)) → AreMarked sure path.now.items
        → AreMarked sure result.0.items }
{
    let mut nodes = ArrayVec::new();
    let mut parent = start;
    for k in 0..path.len() {
        let mut node = path[k];
        node.step.parent = parent;
        nodes.push(node);
        parent = Place::Seen(k);
    }
    (nodes, parent)
}

fn take_first(nodes: &mut ArrayVec<Node, SEEN>) -> Option<Node>
    ensures rest { MatchOption result (nodes.new.items ≡ nodes.old.items)
        (λ node. nodes.old.items ≡ node ∷ nodes.new.items) }
    ensures none { result ≡ None → nodes.new.items ≡ [] }
    ensures empty { nodes.old.items ≡ [] → result ≡ None }
    ensures idle { nodes.old.items ≡ [] → (result ≡ None) × (nodes.new ≡ nodes.old) }
    ensures nothing { result ≡ None → nodes.new ≡ nodes.old }
{
    if nodes.is_empty() {
        return None;
    }
    Some(nodes.remove(0))
}

// Puts a node first. The last one goes if there is no room, and all go if a line begins.
fn put_first(nodes: &mut ArrayVec<Node, KEPT>, node: Node)
    ensures kept { (line : List Told) → IsKept (steps nodes.old.items) line
        → IsKept (steps nodes.new.items) (line_after node.step line) }
    ensures first { slice_get (steps nodes.new.items) 0 ≡ Some node.step }
{
    match node.step.way {
        Way::Begun => begin_line(nodes, node),
        Way::Made(_) => push_first(nodes, node),
        Way::Unseen(_) => push_first(nodes, node),
        Way::Gap(_) => push_first(nodes, node),
    }
}

fn begin_line(nodes: &mut ArrayVec<Node, KEPT>, node: Node)
    ensures { nodes.new.items ≡ node ∷ [] }
{
    nodes.clear();
    nodes.push(node);
}

#[tactic(auto, using(crate::proofs::Told::kept_take))]
fn push_first(nodes: &mut ArrayVec<Node, KEPT>, node: Node)
    ensures kept { (line : List Told) → IsKept (steps nodes.old.items) line
        → IsKept (steps nodes.new.items) (told_of node.step ∷ line) }
    ensures first { slice_get (steps nodes.new.items) 0 ≡ Some node.step }
{
    nodes.truncate(KEPT - 1);
    nodes.insert(0, node);
}

// Drops the first node. Returns its half-moves.
fn drop_first(nodes: &mut ArrayVec<Node, KEPT>) -> u8
    ensures rest { (first : Node) (rest : List Node) → nodes.old.items ≡ first ∷ rest
        → nodes.new.items ≡ rest }
    ensures none { nodes.old.items ≡ [] → nodes.new.items ≡ [] }
    ensures halves { (first : Node) (rest : List Node) → nodes.old.items ≡ first ∷ rest
        → result ≡ halves_of first.step.way }
{
    if nodes.is_empty() {
        return 0;
    }
    nodes.remove(0).step.way.halves()
}

fn told_event(node: &Node) -> Event
    ensures { result ≡ event_of node.now.step }
{
    match node.step.way {
        Way::Begun => Event::Begun(node.step.state, node.step.is_turned),
        Way::Made(one) => Event::Made(one),
        Way::Unseen(moves) => Event::Unseen(moves),
        Way::Gap(count) => Event::Gap(node.step.state, count),
    }
}
