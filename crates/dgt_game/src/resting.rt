//! What is due, and when.

ghost use Rattle.std.specs.Prelude.{◌≡◌, ◌↔◌, ◌<◌, ◌≤◌, ◌+◌, ℕ, false, true, length, None, Some, IfSome, IsTrue, MatchOption, List, [], option_map, slice_get, ◌⊎◌};
ghost use Rattle.dgt_values.specs.declared.pieces.Piece.{Piece};
ghost use Rattle.dgt_game.specs.Told.{Told};
ghost use Rattle.dgt_game.specs.declared.resting.Task.{Task};

use crate::event::Event;
use crate::node::{Node, Origin, Place, Way};
use crate::reading::has_stayed;
use crate::recogniser::{Over, Recogniser, Search};
use crate::times::*;
use dgt_chess::Move;
use dgt_values::{Piece, Square};

/// What is done next.
#[derive(Clone, Copy, Debug, PartialEq, Eq)]
pub(crate) enum Task {
    EndByKings,
    Search,
    Tell,
    Begin,
}

/// The same, and how long what is shown rests before.
#[derive(Clone, Copy, Debug, PartialEq, Eq)]
pub(crate) struct Next {
    pub(crate) wait: u64,
    pub(crate) task: Task,
    ghost soon: { wait ≤ 60000 },
}

impl Recogniser {
    ghost use Rattle.dgt_game.specs.Memory.{Holds, IsRooted, IsTold, steps};
    ghost use Rattle.dgt_game.specs.Recogniser.{Knows, Reports, Stays};
    ghost use Rattle.dgt_game.specs.Finding.{FindsLater, IsFound};
    ghost use Rattle.dgt_game.specs.Planning.{RestsAfter, RestsBefore, SearchesSoon, TaskFits, IsAtLast, IsPlanned, MayNotBegin, Plans, PlansPosition, todo, HasNothing, IsLostOr, StaysPlaced, WhyHopeless};
    ghost use Rattle.dgt_game.specs.Missing.{HasStayed};
    ghost use Rattle.dgt_game.specs.Settling.{CallsForRest, IsNotPressed, StaysShown};
    ghost use Rattle.dgt_game.specs.Standing.{IsThere, ShowsHere, Stands};
    ghost use Rattle.dgt_game.specs.Sure.{KeepsSure, StaysSure};
    ghost use Rattle.dgt_game.specs.Timing.{Acts, Due, IsIdle, Marks, Tells, TellsNext, next_time};
    ghost use Rattle.dgt_game.specs.Waiting.{Follows, IsOfLine, IsQuiet, IsRight, Keeps, Waits};

    /// When [`Recogniser::due`] has something to do next, if nothing else is seen until then.
    pub fn due_at(&self) -> Option<u64>
        ensures none { result ≡ None → IsQuiet self.now }
        ensures soon { IfSome result (λ at. at ≤ self.now.since + 60000) }
        ensures at { MatchOption result ((now : ℕ) → IsIdle now self.now)
            (λ at. (now : ℕ) → IsIdle now self.now ↔ (IsQuiet self.now × (now < at))) }
        ensures news { ¬ (IsQuiet self.now) → result ≡ Some self.now.since }
        ensures why { IsPlanned self.now → result ≡ None → (self.now.is_sure ≡ false)
            ⊎ (self.now.is_confirmed ≡ false) ⊎ HasNothing self.now }
    {
        if self.has_news() {
            return Some(self.since);
        }
        let (at, _) = self.next_task()?;
        Some(at)
    }

    /// Reports the next event that is due at this time, if there is one. Call it until there is
    /// none.
    pub fn due(&mut self, now: u64) -> Option<Event>
        ensures told { Reports self.old result self.new }
        ensures right { Waits self.old
            → Waits self.new × IfSome result (λ event. IsRight self.new event) }
        ensures follows { Waits self.old → Follows self.old result self.new }
        ensures none { result ≡ None → IsQuiet self.new }
        ensures doubt { self.old.is_sure ≡ false → IsQuiet self.old → result ≡ None }
        ensures due { Due now self.old result self.new }
        ensures after { result ≡ None → IsIdle now self.new }
        ensures idle { IsIdle now self.old → (result ≡ None) × (self.new ≡ self.old) }
        ensures planned { IsPlanned self.old → IsPlanned self.new }
        ensures lost { IsLostOr self.old → IsLostOr self.new }
        ensures hopeless { WhyHopeless self.old → WhyHopeless self.new }
        ensures found { length self.old.memory.seen.items < 23 → IsPlanned self.old
            → IsLostOr self.old → IsFound self.old → IsFound self.new }
        ensures stands { (shown : List (List Piece)) (line : List Told)
            → Knows shown line self.old → IsPlanned self.old → Stands self.old → Stands self.new }
        ensures shown { (self.new.view ≡ self.old.view) × (self.new.since ≡ self.old.since)
            × (self.new.is_sure ≡ self.old.is_sure) }
        ensures sure { (shown : List (List Piece)) (line : List Told) → Knows shown line self.old
            → IsPlanned self.old → Stands self.old → StaysSure self.old self.new }
        ensures there { (shown : List (List Piece)) (line : List Told)
            → Knows shown line self.old → IsPlanned self.old → Stands self.old → Waits self.old
            → IfSome result (λ event. IsOfLine event → IsThere self.new) }
        ensures marks { Marks self.old result self.new }
    {
        for done in 0..3u8 {
            if let Some(event) = self.report() {
                return Some(event);
            }
            let (at, task) = self.next_task()?;
            if at > now {
                return None;
            }
            self.act(task);
            // the most is a result by kings, a search, and what it found
            self.next = if done < 2 { self.plan() } else { None };
        }
        self.report()
    }

    // The next event that waits. What is done next may be another task then.
    fn report(&mut self) -> Option<Event>
        ensures tells { Tells self.old result self.new }
        ensures planned { MatchOption result (self.new ≡ record self.old { ended = None })
            (λ event. IsPlanned self.new) }
        ensures lost { IsLostOr self.old → IsLostOr self.new }
        ensures place { StaysPlaced self.old self.new }
        ensures there { Stands self.old → Waits self.old
            → IfSome result (λ event. IsOfLine event → IsThere self.new) }
        ensures stands { Stands self.old → Stands self.new }
        ensures found { IsLostOr self.old → IsFound self.old → IsFound self.new }
        ensures shown { StaysShown self.old self.new }
        ensures sure { StaysSure self.old self.new }
    {
        let event = self.next_event()?;
        self.next = self.plan();
        Some(event)
    }

    pub(crate) fn is_due(&self, now: u64) -> bool
        ensures { (result ≡ false) ↔ IsIdle now self.now }
    {
        self.has_news()
            || match self.next_task() {
                Some((at, _)) => at <= now,
                None => false,
            }
    }

    // What is done next, and when.
    fn next_task(&self) -> Option<(u64, Task)>
        ensures soon { IfSome result (λ next. next.0 ≤ self.now.since + NEW_STILL) }
        ensures doubt { self.now.is_sure ≡ false → result ≡ None }
        ensures time { option_map (λ next. next.0) result ≡ next_time self.now }
        ensures fits { IsPlanned self.now → IfSome result (λ next. TaskFits self.now next.1) }
    {
        if !self.is_sure {
            return None;
        }
        let next = self.next?;
        Some((self.since.saturating_add(next.wait), next.task))
    }

    // What is to be done next.
    pub(crate) fn plan(&self) -> Option<Next>
        ensures plans { Plans self.now result }
        ensures kings { self.now.has_kings ≡ true → self.now.is_confirmed ≡ true
            → MatchOption result ⊥
            (λ next. (next.task ≡ Task.EndByKings) ⊎ (next.wait < 1000)) }
        ensures behind { SearchesSoon self.now
            → MatchOption result ⊥ (λ next. next.task ≡ Task.Search) }
    {
        let other = self.next_of_position();
        if self.has_kings && self.is_confirmed {
            match other {
                Some(sooner) if sooner.wait < KINGS => {}
                _ => {
                    return Some(Next {
                        wait: KINGS,
                        task: Task::EndByKings,
                    });
                }
            }
        }
        other
    }

    // What is done next with the position that is shown.
    fn next_of_position(&self) -> Option<Next>
        ensures plans { PlansPosition self.now result }
        ensures behind { SearchesSoon self.now
            → MatchOption result ⊥ (λ next. (next.task ≡ Task.Search) × (next.wait ≡ 320)) }
    {
        let (wait, task) = if self.is_next {
            (self.rest(), Task::Tell)
        } else if self.here != Place::Nowhere {
            return None;
        } else {
            match self.search {
                Search::Waiting if self.is_behind => (GLANCE, Task::Search),
                Search::Waiting => (JUMP, Task::Search),
                Search::Done if self.is_lifted() => return None,
                Search::Done => (self.new_wait()?, Task::Begin),
                Search::Refused | Search::Hopeless => return None,
            }
        };
        if !self.is_confirmed && !(task == Task::Search && self.is_behind) {
            return None;
        }
        Some(Next { wait, task })
    }

    fn act(&mut self, task: Task)
        ensures stays { Stays self.old self.new }
        ensures right { IsQuiet self.old → Waits self.old → Waits self.new }
        ensures follows { Follows self.old None self.new }
        ensures stands { IsRooted (length (steps self.old.memory.line.items))
            (steps self.old.memory.seen.items) → IsTold self.old.memory
            → self.old.is_sure ≡ true → TaskFits self.old task → Stands self.old
            → Stands self.new }
        ensures todo { TaskFits self.old task → todo self.new < todo self.old }
        ensures next { TaskFits self.old task → TellsNext self.old self.new }
        ensures lost { IsQuiet self.old → IsLostOr self.old → IsLostOr self.new }
        ensures hopeless { WhyHopeless self.old → WhyHopeless self.new }
        ensures found { TaskFits self.old task → FindsLater self.old → FindsLater self.new }
        ensures shown { StaysShown self.old self.new }
        ensures sure { IsTold self.old.memory → self.old.is_sure ≡ true → TaskFits self.old task
            → Stands self.old → KeepsSure self.old self.new }
        ensures staying { self.new.staying ≡ self.old.staying }
    {
        match task {
            Task::EndByKings => self.end_by_kings(),
            Task::Search => self.look_deep(),
            Task::Tell => {
                self.is_next = false;
                self.tell(self.here, None);
            }
            Task::Begin => self.begin(),
        }
    }

    // How long a position that no half-moves lead to rests before a line begins with it.
    fn new_wait(&self) -> Option<u64>
        ensures soon { IfSome result (λ wait. wait ≤ NEW_STILL) }
        ensures plans { result ≡ None → MayNotBegin self.now }
        ensures none { MayNotBegin self.now → result ≡ None }
        ensures least { IfSome result (λ wait. RestsBefore self.now Task.Begin wait) }
    {
        if self.memory.line.is_empty() {
            Some(FIRST)
        } else if self.is_set_up || self.is_behind && (self.over == Over::No || self.is_far()) {
            Some(NEW)
        } else if self.over == Over::No {
            Some(NEW_STILL)
        } else {
            None
        }
    }

    // How long the position that is shown rests before it is reported.
    fn rest(&self) -> u64
        ensures most { result ≤ NEW_STILL }
        ensures least { RestsBefore self.now Task.Tell result }
    {
        let Place::Seen(k) = self.here else {
            return SETTLE;
        };
        let Some(node) = self.memory.seen.get(k) else {
            return SETTLE;
        };
        match node.origin {
            Origin::Line(base) => self.rest_after(node, base),
            Origin::Start if node.depth == 1 => 0,
            Origin::Start => SETTLE,
            Origin::Shadow => {
                if node.depth > SHADOW || self.is_same_start(node) {
                    SETTLE
                } else {
                    self.new_wait().unwrap_or(NEW_STILL)
                }
            }
        }
    }

    // The same, of half-moves that follow a state of the line.
    fn rest_after(&self, node: &Node, base: usize) -> u64
        ensures by { RestsAfter base self.now.returned.count result }
        ensures why { CallsForRest self.now node.now base result }
        ensures jumps { node.now.jumps ≡ true → 1000 ≤ result }
        ensures pressed { base ≡ 0 → IsNotPressed self.now node.now → 3000 ≤ result }
        ensures far { node.now.jumps_far ≡ true → self.now.is_behind ≡ false → result ≡ 10000 }
    {
        let mut wait = SETTLE;
        if self.is_quick_path(node) || node.jumps_far && !self.is_behind {
            wait = AT_ONCE;
        } else if node.jumps {
            wait = JUMP;
        }
        if self.may_castle(node) {
            wait = wait.max(CASTLE);
        }
        if base > 1 && base != self.returned.count {
            wait = wait.max(REPLACE);
        }
        if base == 0 && self.running == Some(node.mover()) && node.step.state.can_move() {
            wait = wait.max(PRESS);
        }
        wait
    }

    // Whether one of the last three half-moves was faster than hands.
    fn is_quick_path(&self, node: &Node) -> bool {
        let mut at = *node;
        for _ in 0..3 {
            if at.is_quick {
                return true;
            }
            let Place::Seen(k) = at.step.parent else {
                return false;
            };
            let Some(parent) = self.memory.seen.get(k) else {
                return false;
            };
            at = *parent;
        }
        false
    }

    // Whether the last half-move is a rook's that may be the first half of a castling.
    fn may_castle(&self, node: &Node) -> bool {
        let Way::Made(one) = node.step.way else {
            return false;
        };
        let (king, to) = match (one.from.index(), one.to.index()) {
            (63, 61) => (60, 62),
            (56, 59) => (60, 58),
            (7, 5) => (4, 6),
            (0, 3) => (4, 2),
            _ => return false,
        };
        match self.memory.node(node.step.parent) {
            Some(parent) => parent.step.state.is_legal(Move {
                from: Square::from_small(king),
                to: Square::from_small(to),
                promotion: None,
            }),
            None => false,
        }
    }

    /// Whether a half-move after a node means that the node was meant.
    pub(crate) fn is_answered(&self, parent: usize, node: &Node) -> bool
        ensures sure { IsTrue result → MatchOption (slice_get self.now.memory.seen.items parent) ⊥
            (λ before. before.is_sure ≡ true) }
        ensures stayed { IsTrue result
            → IfSome (slice_get self.now.memory.seen.items parent) HasStayed }
    {
        let Some(before) = self.memory.seen.get(parent) else {
            return false;
        };
        if !before.is_sure || node.origin == Origin::Shadow {
            return false;
        }
        if !has_stayed(before) {
            return false;
        }
        if node.step.way.is_jump() || self.has_slid(parent) || self.slides_on(before, node) {
            return false;
        }
        if self.is_long(node) {
            return true;
        }
        if self.is_quick_path(node) || node.jumps_far {
            return false;
        }
        if self.running == Some(before.mover()) && before.step.way != Way::Begun {
            return false;
        }
        // bumped pieces that are put back look like half-moves undone, but not during a doubt
        self.is_behind && self.running == Some(node.mover()) || !self.undoes(before, node)
    }

    // Whether as many half-moves were shown one by one before a node that they are sure.
    fn is_long(&self, node: &Node) -> bool {
        let mut at = *node;
        for _ in 0..LONG {
            let Place::Seen(k) = at.step.parent else {
                return false;
            };
            let Some(parent) = self.memory.seen.get(k) else {
                return false;
            };
            if at.step.way.is_jump() {
                return false;
            }
            at = *parent;
        }
        true
    }

    // Whether a piece stood there for a moment, and then another half-move was made instead.
    pub(crate) fn has_slid(&self, k: usize) -> bool {
        let Some(node) = self.memory.seen.get(k) else {
            return false;
        };
        for later in 0..self.memory.seen.len() {
            let other = &self.memory.seen[later];
            if later > k && other.step.parent == node.step.parent {
                return node.rested() < SETTLE;
            }
        }
        false
    }

    // Whether the piece that has just moved was up again while the other side moved.
    fn slides_on(&self, before: &Node, node: &Node) -> bool {
        let Some(view) = &self.view else {
            return false;
        };
        match before.step.way {
            Way::Made(one) => {
                node.is_held
                    && before.rested() < SETTLE
                    && view.from(node.step.is_turned).get(one.to) == Piece::Empty
            }
            _ => false,
        }
    }

    // Whether a half-move puts back the piece that the same player moved before.
    fn undoes(&self, before: &Node, node: &Node) -> bool {
        let earlier = match before.step.parent {
            Place::Nowhere => return false,
            place => self.memory.node(place),
        };
        match (earlier.map(|node| node.step.way), node.step.way) {
            (Some(Way::Made(old)), Way::Made(new)) => old.from == new.to && old.to == new.from,
            _ => false,
        }
    }
}
