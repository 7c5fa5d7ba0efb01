//! Positions that no half-move leads to: several half-moves, or another line.

ghost use Rattle.std.specs.Prelude.{◌≡◌, ◌⊎◌, ℕ, List, [], Option, Some, None, IfSome, Contains, length, true, false, ◌<◌, ◌≤◌, ◌+◌, ◌≢◌, ◌↔◌, Bool, IsTrue, IsSome, MatchOption};
ghost use Rattle.dgt_values.specs.declared.pieces.Piece.{Piece};
ghost use Rattle.dgt_values.specs.Board.{pieces_of};
ghost use Rattle.dgt_chess.specs.Attacks.{piece_at};
ghost use Rattle.dgt_chess.specs.Possible.{IsAtHome};
ghost use Rattle.dgt_chess.specs.declared.pieces.Colour.{Colour};
ghost use Rattle.dgt_chess.specs.Rules.{board};
ghost use Rattle.dgt_game.specs.Planning.{AreHome, IsRefused, IsSetUp};
ghost use Rattle.dgt_game.specs.declared.recogniser.Over.{Over};
ghost use Rattle.dgt_game.specs.Reading.{HasMoved};
ghost use Rattle.dgt_game.specs.declared.reading.Reading.{Reading};
ghost use Rattle.dgt_game.specs.declared.recogniser.Lost.{Lost};
ghost use Rattle.dgt_game.specs.declared.recogniser.Search.{Search};
ghost use Rattle.dgt_game.specs.declared.node.Place.{Place};
ghost use Rattle.dgt_game.specs.declared.view.View.{View};
ghost use Rattle.dgt_game.specs.Told.{Told};

use crate::event::GAP;
use crate::node::{Node, Origin, Place, Way};
use crate::recogniser::{Lost, Over, Recogniser, Search};
use crate::times::ROOTS;
use crate::view::{View, king};
use crate::ways::is_same;
use dgt_chess::{Colour, Man, Rights, State};
use dgt_values::{Piece, Position, Square};

impl Recogniser {
    ghost use Rattle.dgt_game.specs.Memory.{Fits, FitsBy, Holds, IsRoot, IsRooted, IsTold, Reads, steps, told_of};
    ghost use Rattle.dgt_game.specs.Reading.{IsRoomFor, ReadsView, Shows, FollowsSeen, HasLine, HasSomeLines, IsLive};
    ghost use Rattle.dgt_game.specs.Finding.{IsSearched, MayJump};
    ghost use Rattle.dgt_game.specs.Standing.{IsOpen, Stands};
    ghost use Rattle.dgt_game.specs.declared.resting.Task.{Task};
    ghost use Rattle.dgt_game.specs.Memory.{IsUnordered};
    ghost use Rattle.dgt_game.specs.Planning.{TaskFits, AddsNone, IsAsBefore, IsAtLast, CannotBegin, CannotMove, EndsSearch, IsLostOr, LosesLine, PlacesOr, WhyHopeless};
    ghost use Rattle.dgt_game.specs.Sure.{IsMarked, KeepsSure, MarksStart, ShowsSure, WereSure};
    ghost use Rattle.dgt_game.specs.Told.{WasShown};
    ghost use Rattle.dgt_game.specs.Waiting.{FindsLine, Keeps, IsQuiet, last_of};

    /// Looks for several half-moves, also from the start of another game. If there are none, the
    /// line is lost.
    pub(crate) fn look_deep(&mut self)
        ensures holds { (shown : List (List Piece)) (line : List Told)
            → self.old.memory.back ≡ 0 → self.old.memory.unsaid.items ≡ []
            → IfSome self.old.view (λ view. Contains shown (pieces_of view.shown))
            → Holds shown line self.old.memory → Holds shown line self.new.memory }
        ensures view { self.new.view ≡ self.old.view }
        ensures keeps { Keeps self.old self.new }
        ensures loss { FindsLine self.old self.new }
        ensures stands { IsRooted (length (steps self.old.memory.line.items))
            (steps self.old.memory.seen.items) → IsTold self.old.memory
            → self.old.is_sure ≡ true → Stands self.old → Stands self.new }
        ensures todo { AddsNone (record self.old { search = Search.Done }) self.new }
        ensures lost { IsQuiet self.old → IsLostOr self.new }
        ensures reads { (view : View) → length self.old.memory.seen.items < 24
            → self.old.view ≡ Some view → IsLive self.old
            → IsSearched self.old (pieces_of view.shown)
            → HasSomeLines self.old.memory (pieces_of view.shown)
            → self.new.here ≢ Place.Nowhere }
        ensures still { length self.old.memory.seen.items < 23 → (self.new.here ≢ Place.Nowhere)
            ⊎ (self.new ≡ record self.old { search = Search.Done; lost = self.new.lost }) }
        ensures sure { KeepsSure self.old self.new }
    {
        self.search = Search::Done;
        let Some(view) = self.view else {
            return;
        };
        match self.deep(&view) {
            Some(node) => self.add_jump(node, &view),
            None => self.start_deep(&view),
        }
        if self.here == Place::Nowhere {
            self.lose(&view);
        }
    }

    fn add_jump(&mut self, node: Node, view: &View)
        requires { self.old.view ≡ Some view.now }
        ensures holds { (shown : List (List Piece)) (line : List Told)
            → self.old.memory.back ≡ 0 → self.old.memory.unsaid.items ≡ []
            → Reads shown self.old.memory (Reading.New node)
            → Holds shown line self.old.memory → Holds shown line self.new.memory }
        ensures view { self.new.view ≡ self.old.view }
        ensures keeps { Keeps self.old self.new }
        ensures loss { FindsLine self.old self.new }
        ensures stands { (view : View) → IsOpen self.old.memory → self.old.view ≡ Some view
            → ReadsView self.old.memory view (Reading.New node) → Stands self.new }
        ensures todo { AddsNone self.old self.new }
        ensures lost { PlacesOr self.old self.new }
        ensures here { length self.old.memory.seen.items < 24
            → IsRoomFor self.old.memory node → self.new.here ≢ Place.Nowhere }
        ensures sure { (sure : List (List Piece))
            → (self.old.is_sure ≡ true → WasShown sure (told_of node.step))
            → WereSure sure self.old.memory self.old.returned
            → WereSure sure self.new.memory self.new.returned }
    {
        self.lose_by(&node, view);
        self.add(node, false);
    }

    fn lose_by(&mut self, node: &Node, view: &View)
        requires { self.old.view ≡ Some view.now }
        ensures same { self.new.memory ≡ self.old.memory }
        ensures view { self.new.view ≡ self.old.view }
        ensures keeps { Keeps self.old self.new }
        ensures todo { IsAsBefore self.old self.new }
        ensures lost { self.old.lost ≢ Lost.Found → self.new.lost ≢ Lost.Found }
        ensures returned { self.new.returned ≡ self.old.returned }
    {
        if node.jumps_far && !self.is_behind {
            self.lose(view);
        }
    }

    // The fewest half-moves from the line's last state or from a node that was seen since. The
    // player whose clock runs moves next, if there is such a line.
    fn deep(&self, view: &View) -> Option<Node>
        ensures linked { IfSome result
            (λ node. FitsBy self.now.memory (pieces_of view.now.shown) node) }
        ensures reads { self.now.view ≡ Some view.now → IsLive self.now
            → IsSearched self.now (pieces_of view.now.shown)
            → HasSomeLines self.now.memory (pieces_of view.now.shown) → IsSome result }
        ensures room { IfSome result (IsRoomFor self.now.memory) }
    {
        // pieces are rather in a hand than captured in half-moves that weren't shown
        if self.is_early() || !self.is_behind && self.is_lifted() {
            return None;
        }
        let mut other = None;
        for halves in 2..GAP as u8 + 1 {
            let found = self.deep_by(view, halves);
            if self.is_in_turn(&found) {
                return found;
            }
            other = self.or_unordered(other, found);
        }
        other
    }

    // The same, by as many half-moves. If there are some from the line's last state, and some from
    // a node that was shown for a moment, it isn't known which were made.
    fn deep_by(&self, view: &View, halves: u8) -> Option<Node>
        ensures linked { IfSome result
            (λ node. FitsBy self.now.memory (pieces_of view.now.shown) node) }
        ensures reads { IsLive self.now → MayJump self.now (pieces_of view.now.shown)
            → 1 ≤ halves → halves ≤ 4
            → HasLine halves self.now.memory (Place.Line 0) (pieces_of view.now.shown)
            → IsSome result }
        ensures room { IfSome result (IsRoomFor self.now.memory) }
    {
        let first = self.jumped_far(Place::Line(0), view, halves);
        let len = self.memory.seen.len();
        for at in 0..len {
            let place = Place::Seen(len - 1 - at);
            if let Some(node) = self.jumped_far(place, view, halves) {
                return Some(self.or_line(first, node, place));
            }
        }
        first
    }

    fn or_line(&self, line: Option<Node>, node: Node, place: Place) -> Node
        ensures linked { (pieces : List Piece)
            → IfSome line (λ other. FitsBy self.now.memory pieces other)
            → FitsBy self.now.memory pieces node → FitsBy self.now.memory pieces result }
        ensures gap { (result ≡ node) ⊎ IfSome line (λ other. IsUnordered other result) }
        ensures room { IfSome line (IsRoomFor self.now.memory) → IsRoomFor self.now.memory node
            → IsRoomFor self.now.memory result }
    {
        match line {
            Some(other) => {
                if self.has_rested(place) {
                    node
                } else {
                    self.unordered(other)
                }
            }
            None => node,
        }
    }

    fn jumped_far(&self, place: Place, view: &View, halves: u8) -> Option<Node>
        ensures linked { IfSome result
            (λ node. FitsBy self.now.memory (pieces_of view.now.shown) node) }
        ensures reads { place ≡ Place.Line 0 → IsLive self.now
            → MayJump self.now (pieces_of view.now.shown) → 1 ≤ halves → halves ≤ 4
            → HasLine halves self.now.memory (Place.Line 0) (pieces_of view.now.shown)
            → IsSome result }
        ensures room { ((k : ℕ) → place ≡ Place.Line k → k ≤ 4)
            → IfSome result (IsRoomFor self.now.memory) }
    {
        if !self.may_jump(place) || !self.may_jump_far(place, view, halves) {
            return None;
        }
        self.jumped(place, view, halves)
    }

    // Whether as many half-moves are looked for from there. If a side has no man on another square,
    // it has gone out and back: rather the other one has moved twice, but in a doubt.
    fn may_jump_far(&self, place: Place, view: &View, halves: u8) -> bool
        ensures reads { place ≡ Place.Line 0 → MayJump self.now (pieces_of view.now.shown)
            → last_of self.now.memory ≢ None → result ≡ true }
    {
        let Some(node) = self.memory.node(place) else {
            return false;
        };
        let shown = view.from(node.step.is_turned);
        let have_moved = has_moved(shown, &node.step.state, Colour::White)
            && has_moved(shown, &node.step.state, Colour::Black);
        let most = if have_moved { ROOTS } else { ROOTS / 2 };
        match place {
            Place::Seen(k) if halves as usize == GAP => {
                (have_moved || self.is_behind) && self.memory.seen.len().saturating_sub(k) <= most
            }
            _ => halves < 3 || have_moved || self.is_behind,
        }
    }

    // Whether there is a node after which the player whose clock runs moves next.
    fn is_in_turn(&self, found: &Option<Node>) -> bool
        ensures reads { result ≡ true → IsSome found.now }
        ensures turn { IsTrue result ↔ MatchOption found.now ⊥ (λ node.
            (self.now.running ≡ None) ⊎ (self.now.running ≡ Some node.step.state.turn)) }
    {
        match found {
            Some(node) => { self.running.is_none() || self.running == Some(node.step.state.turn()) }
            None => false,
        }
    }

    // The first of both. It isn't known by which half-moves the second was reached.
    fn or_unordered(&self, first: Option<Node>, second: Option<Node>) -> Option<Node>
        ensures linked { (pieces : List Piece)
            → IfSome first (λ node. FitsBy self.now.memory pieces node)
            → IfSome second (λ node. FitsBy self.now.memory pieces node)
            → IfSome result (λ node. FitsBy self.now.memory pieces node) }
        ensures first { IsSome first → IsSome result }
        ensures second { IsSome second → IsSome result }
        ensures room { IfSome first (IsRoomFor self.now.memory)
            → IfSome second (IsRoomFor self.now.memory)
            → IfSome result (IsRoomFor self.now.memory) }
    {
        if first.is_some() {
            return first;
        }
        let node = second?;
        Some(self.unordered(node))
    }

    // The same node, but it isn't known by which half-moves it was reached.
    fn unordered(&self, node: Node) -> Node
        ensures linked { (pieces : List Piece) → FitsBy self.now.memory pieces node
            → FitsBy self.now.memory pieces result }
        ensures gap { IsUnordered node result }
        ensures room { IsRoomFor self.now.memory node → IsRoomFor self.now.memory result }
    {
        let mut new = node;
        new.step.way = Way::Gap(node.step.way.halves());
        new.jumps_far = true;
        new
    }

    fn may_start(&self) -> bool
        ensures { IsTrue result ↔ (self.now.is_set_up ≡ true) ⊎ (self.now.is_behind ≡ true)
            ⊎ (self.now.memory.line.items ≡ []) }
    {
        self.is_set_up || self.is_behind || self.memory.line.is_empty()
    }

    // A game whose first half-moves weren't shown, if one may begin.
    fn start_deep(&mut self, view: &View)
        ensures holds { (shown : List (List Piece)) (line : List Told)
            → self.old.memory.back ≡ 0 → self.old.memory.unsaid.items ≡ []
            → Contains shown (pieces_of view.now.shown)
            → Holds shown line self.old.memory → Holds shown line self.new.memory }
        ensures view { self.new.view ≡ self.old.view }
        ensures keeps { Keeps self.old self.new }
        ensures loss { FindsLine self.old self.new }
        ensures stands { IsOpen self.old.memory → self.old.view ≡ Some view.now → Stands self.old
            → Stands self.new }
        ensures todo { AddsNone self.old self.new }
        ensures lost { PlacesOr self.old self.new }
        ensures still { length self.old.memory.seen.items < 23
            → (self.new.here ≢ Place.Nowhere) ⊎ (self.new ≡ self.old) }
        ensures sure { (sure : List (List Piece))
            → (self.old.is_sure ≡ true → Contains sure (pieces_of view.now.shown))
            → WereSure sure self.old.memory self.old.returned
            → WereSure sure self.new.memory self.new.returned }
    {
        if !self.may_start() {
            return;
        }
        let Some((root, node)) = self.from_start(view) else {
            return;
        };
        self.add_two(root, node);
    }

    /// The start of a game, and the fewest half-moves from there.
    pub(crate) fn from_start(&self, view: &View) -> Option<(Node, Node)>
        ensures linked { (shown : List (List Piece)) → Contains shown (pieces_of view.now.shown)
            → IfSome result (λ two. Reads shown self.now.memory (Reading.Two two.0 two.1)) }
        ensures at { IfSome result
            (λ two. ReadsView self.now.memory view.now (Reading.Two two.0 two.1)) }
        ensures room { IfSome result (λ two. IsRoomFor self.now.memory two.0) }
        ensures begins { IfSome result (λ two. MarksStart (Reading.Two two.0 two.1)) }
    {
        for halves in 1..GAP as u8 + 1 {
            for is_turned in [false, true] {
                if let Some(two) = self.from_start_by(view, is_turned, halves) {
                    return Some(two);
                }
            }
        }
        None
    }

    fn from_start_by(&self, view: &View, is_turned: bool, halves: u8) -> Option<(Node, Node)>
        ensures linked { (shown : List (List Piece)) → Contains shown (pieces_of view.now.shown)
            → IfSome result (λ two. Reads shown self.now.memory (Reading.Two two.0 two.1)) }
        ensures at { IfSome result
            (λ two. ReadsView self.now.memory view.now (Reading.Two two.0 two.1)) }
        ensures room { IfSome result (λ two. IsRoomFor self.now.memory two.0) }
        ensures begins { IfSome result (λ two. MarksStart (Reading.Two two.0 two.1)) }
    {
        let mut root = Node::root(State::start(), is_turned, Origin::Start, self.since);
        root.is_sure = true;
        root.jumps = true;
        let node = self.jumped_from(&root, Place::Nowhere, view.from(is_turned), halves)?;
        Some((root, node))
    }

    fn lose(&mut self, view: &View)
        requires { self.old.view ≡ Some view.now }
        ensures same { self.new.memory ≡ self.old.memory }
        ensures view { self.new.view ≡ self.old.view }
        ensures keeps { Keeps self.old self.new }
        ensures todo { IsAsBefore self.old self.new }
        ensures lost { self.old.lost ≢ Lost.Found
            → (self.new.lost ≢ Lost.Found) × LosesLine self.new }
        ensures only { self.new ≡ record self.old { lost = self.new.lost } }
        ensures ended { self.old.over ≢ Over.No → self.new.lost ≡ self.old.lost }
    {
        if self.over != Over::No || self.lost != Lost::No || self.is_lifted() {
            return;
        }
        let Some(last) = self.memory.line.get(0) else {
            return;
        };
        let squares = last
            .step
            .state
            .position()
            .differ(view.from(last.step.is_turned));
        self.lost = Lost::Now(squares);
    }

    /// A line begins with the position that is shown.
    pub(crate) fn begin(&mut self)
        ensures holds { (shown : List (List Piece)) (line : List Told)
            → self.old.memory.back ≡ 0 → self.old.memory.unsaid.items ≡ []
            → IfSome self.old.view (λ view. Contains shown (pieces_of view.shown))
            → Holds shown line self.old.memory → Holds shown line self.new.memory }
        ensures view { self.new.view ≡ self.old.view }
        ensures keeps { Keeps self.old self.new }
        ensures loss { FindsLine self.old self.new }
        ensures stands { IsRooted (length (steps self.old.memory.line.items))
            (steps self.old.memory.seen.items) → IsTold self.old.memory
            → self.old.is_sure ≡ true → TaskFits self.old Task.Begin → Stands self.old
            → Stands self.new }
        ensures todo { EndsSearch self.old self.new }
        ensures hopeless { WhyHopeless self.new }
        ensures sure { self.old.is_sure ≡ true → KeepsSure self.old self.new }
    {
        self.search = Search::Refused;
        self.memory.forget_seen();
        let Some((root, other)) = self.first_root() else {
            return;
        };
        if let Some(k) = self.memory.push(root) {
            self.tell(Place::Seen(k), other);
        }
    }

    /// Keeps the position that is shown, for lines that may go on from it.
    pub(crate) fn add_roots(&mut self)
        ensures holds { (shown : List (List Piece)) (line : List Told)
            → self.old.memory.back ≡ 0 → self.old.memory.unsaid.items ≡ []
            → IfSome self.old.view (λ view. Contains shown (pieces_of view.shown))
            → Holds shown line self.old.memory → Holds shown line self.new.memory }
        ensures view { self.new.view ≡ self.old.view }
        ensures back { self.new.memory.back ≡ self.old.memory.back }
        ensures unsaid { self.new.memory.unsaid.items ≡ self.old.memory.unsaid.items }
        ensures keeps { Keeps self.old self.new }
        ensures lost { self.new.lost ≡ self.old.lost }
        ensures few { length self.old.memory.seen.items < 21
            → length self.new.memory.seen.items < 23 }
        ensures answer { self.new.memory.answer ≡ self.old.memory.answer }
        ensures kept { length self.old.memory.seen.items < 21 → (picture : List Piece)
            → FollowsSeen self.old.memory picture → FollowsSeen self.new.memory picture }
        ensures sure { KeepsSure self.old self.new }
        ensures behind { self.new.is_behind ≡ self.old.is_behind }
        ensures astray { self.new.is_astray ≡ self.old.is_astray }
        ensures set_up { self.new.is_set_up ≡ self.old.is_set_up }
    {
        let (white, black) = self.roots();
        self.memory.make_room(2);
        self.add_root(white);
        self.add_root(black);
    }

    fn add_root(&mut self, root: Option<Node>)
        ensures holds { (shown : List (List Piece)) (line : List Told)
            → self.old.memory.back ≡ 0 → self.old.memory.unsaid.items ≡ []
            → IfSome root (λ node. IsRoot shown node)
            → Holds shown line self.old.memory → Holds shown line self.new.memory }
        ensures view { self.new.view ≡ self.old.view }
        ensures back { self.new.memory.back ≡ self.old.memory.back }
        ensures unsaid { self.new.memory.unsaid.items ≡ self.old.memory.unsaid.items }
        ensures keeps { Keeps self.old self.new }
        ensures lost { self.new.lost ≡ self.old.lost }
        ensures few { length self.old.memory.seen.items < 24
            → length self.new.memory.seen.items ≤ length self.old.memory.seen.items + 1 }
        ensures answer { self.new.memory.answer ≡ self.old.memory.answer }
        ensures kept { length self.old.memory.seen.items < 24 → (picture : List Piece)
            → FollowsSeen self.old.memory picture → FollowsSeen self.new.memory picture }
        ensures sure { (sure : List (List Piece)) → IfSome root (IsMarked sure)
            → WereSure sure self.old.memory self.old.returned
            → WereSure sure self.new.memory self.new.returned }
        ensures behind { self.new.is_behind ≡ self.old.is_behind }
        ensures astray { self.new.is_astray ≡ self.old.is_astray }
        ensures set_up { self.new.is_set_up ≡ self.old.is_set_up }
    {
        if let Some(node) = root {
            self.memory.push(node);
        }
    }

    // One of the next two, and the other if there are both.
    fn first_root(&self) -> Option<(Node, Option<Node>)>
        ensures roots { (shown : List (List Piece))
            → IfSome self.now.view (λ view. Contains shown (pieces_of view.shown))
            → IfSome result (λ found. IsRoot shown found.0
            × IfSome found.1 (λ node. IsRoot shown node)) }
        ensures none { result ≡ None → (view : View) → self.now.view ≡ Some view
            → CannotBegin self.now.running view }
        ensures at { IfSome self.now.view (λ view. IfSome result (λ found. Shows view found.0.step
            × IfSome found.1 (λ node. Shows view node.step))) }
        ensures free { IfSome result (λ found. found.0.step.parent ≡ Place.Nowhere) }
        ensures marked { (sure : List (List Piece)) → ShowsSure sure self.now
            → IfSome result (λ found. IsMarked sure found.0 × IfSome found.1 (IsMarked sure)) }
        ensures sure { IfSome result (λ found. found.0.is_sure ≡ self.now.is_sure) }
        ensures whole { IfSome result (λ found. IfSome found.1 (λ node. node.is_held ≡ false)) }
        ensures first { IfSome result (λ found. (found.0.step.state.turn ≡ Colour.White)
            ⊎ (found.1 ≡ None)) }
        ensures set_up { IfSome result (λ found. IsSetUp found.0.step.state
            × IfSome found.1 (λ node. IsSetUp node.step.state)) }
    {
        let (white, black) = self.roots();
        match white {
            Some(node) => Some((node, black)),
            None => Some((black?, None)),
        }
    }

    // The position that is shown, with White to move and with Black, if that is possible.
    fn roots(&self) -> (Option<Node>, Option<Node>)
        ensures roots { (shown : List (List Piece))
            → IfSome self.now.view (λ view. Contains shown (pieces_of view.shown))
            → IfSome result.0 (λ node. IsRoot shown node)
            × IfSome result.1 (λ node. IsRoot shown node) }
        ensures none { (is_turned : Bool) × ((view : View) → self.now.view ≡ Some view
            → (result.0 ≡ None → CannotMove self.now.running is_turned view Colour.White)
            × (result.1 ≡ None → CannotMove self.now.running is_turned view Colour.Black)) }
        ensures at { IfSome self.now.view (λ view. IfSome result.0 (λ node. Shows view node.step)
            × IfSome result.1 (λ node. Shows view node.step)) }
        ensures free { IfSome result.0 (λ node. node.step.parent ≡ Place.Nowhere)
            × IfSome result.1 (λ node. node.step.parent ≡ Place.Nowhere) }
        ensures marked { (sure : List (List Piece)) → ShowsSure sure self.now
            → IfSome result.0 (IsMarked sure) × IfSome result.1 (IsMarked sure) }
        ensures sure { IfSome result.0 (λ node. node.is_sure ≡ self.now.is_sure)
            × IfSome result.1 (λ node. node.is_sure ≡ self.now.is_sure) }
        ensures whole { IfSome result.0 (λ node. node.is_held ≡ false)
            × IfSome result.1 (λ node. node.is_held ≡ false) }
        ensures turns { IfSome result.0 (λ node. node.step.state.turn ≡ Colour.White)
            × IfSome result.1 (λ node. node.step.state.turn ≡ Colour.Black) }
        ensures set_up { IfSome result.0 (λ node. IsSetUp node.step.state)
            × IfSome result.1 (λ node. IsSetUp node.step.state) }
    {
        let is_turned = self.is_shown_turned();
        (
            self.root(Colour::White, is_turned),
            self.root(Colour::Black, is_turned),
        )
    }

    // Whether the board is turned, as in the line before, or as it seems.
    fn is_shown_turned(&self) -> bool
        ensures { IfSome (last_of self.now.memory) (λ step. result ≡ step.is_turned) }
    {
        match (self.memory.line.get(0), &self.view) {
            (Some(last), _) => last.step.is_turned,
            (None, Some(view)) => is_white_above(&view.shown),
            (None, None) => false,
        }
    }

    fn root(&self, turn: Colour, is_turned: bool) -> Option<Node>
        ensures root { (shown : List (List Piece))
            → IfSome self.now.view (λ view. Contains shown (pieces_of view.shown))
            → IfSome result (λ node. IsRoot shown node) }
        ensures at { IfSome self.now.view (λ view. IfSome result (λ node. Shows view node.step)) }
        ensures none { result ≡ None → (view : View) → self.now.view ≡ Some view
            → CannotMove self.now.running is_turned view turn }
        ensures free { IfSome result (λ node. node.step.parent ≡ Place.Nowhere) }
        ensures marked { (sure : List (List Piece)) → ShowsSure sure self.now
            → IfSome result (IsMarked sure) }
        ensures sure { IfSome result (λ node. node.is_sure ≡ self.now.is_sure) }
        ensures whole { IfSome result (λ node. node.is_held ≡ false) }
        ensures turn { IfSome result (λ node. node.step.state.turn ≡ turn) }
        ensures set_up { IfSome result (λ node. IsSetUp node.step.state) }
    {
        let view = self.view?;
        if self.is_confirmed && self.running == Some(turn.other()) {
            return None;
        }
        let state = placed(view.from(is_turned), turn)?;
        let mut node = Node::root(state, is_turned, Origin::Shadow, self.since);
        node.is_sure = self.is_sure;
        Some(node)
    }
}

// Whether men of a side have arrived on squares, or left some that are empty now.
fn has_moved(shown: &Position, state: &State, side: Colour) -> bool
    ensures { HasMoved (pieces_of shown.now) state.now side → result ≡ true }
{
    for at in 0..64u8 {
        let square = Square::from_small(at);
        let old = state.position().get(square);
        let new = shown.get(square);
        if old != new
            && (side.man(new).is_some() || new == Piece::Empty && side.man(old).is_some())
        {
            return true;
        }
    }
    false
}

// The state of pieces that were set up: castlings are allowed if king and rook are at home.
fn placed(position: &Position, turn: Colour) -> Option<State>
    ensures placed { IfSome result (λ state. board state ≡ pieces_of position.now) }
    ensures none { result ≡ None → IsRefused (pieces_of position.now) turn }
    ensures turn { IfSome result (λ state. state.turn ≡ turn) }
    ensures set_up { IfSome result IsSetUp }
{
    let rights = Rights {
        white_short: is_home(position, Colour::White, 60, 63),
        white_long: is_home(position, Colour::White, 60, 56),
        black_short: is_home(position, Colour::Black, 4, 7),
        black_long: is_home(position, Colour::Black, 4, 0),
    };
    State::new(*position, turn, rights, None, 0, 1).ok()
}

// Whether king and rook are at home.
fn is_home(position: &Position, colour: Colour, home: u8, corner: u8) -> bool
    requires { (home < 64) × (corner < 64) }
    ensures home { IsAtHome result (pieces_of position.now) colour home corner }
    ensures both { IsTrue result ↔ AreHome (pieces_of position.now) colour home corner }
{
    is_on(position, home, king(colour)) && is_on(position, corner, colour.piece(Man::Rook))
}

fn is_on(position: &Position, at: u8, piece: Piece) -> bool
    requires { at < 64 }
    ensures { IsTrue result ↔ (piece_at (pieces_of position.now) at ≡ piece) }
{
    is_same(position.get(Square::from_small(at)), piece)
}

// Whether most of White's pieces are on the upper half.
fn is_white_above(shown: &Position) -> bool {
    let mut above = 0u8;
    let mut below = 0u8;
    for at in 0..64u8 {
        let piece = shown.get(Square::from_small(at));
        let is_white = Colour::White.man(piece).is_some();
        let is_black = Colour::Black.man(piece).is_some();
        if is_white && at < 32 || is_black && at >= 32 {
            above = above.saturating_add(1);
        } else if is_white || is_black {
            below = below.saturating_add(1);
        }
    }
    above > below
}
