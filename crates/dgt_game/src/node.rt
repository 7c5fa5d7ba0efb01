//! States that the board has shown, and how they follow each other.

ghost use Rattle.std.specs.Prelude.{false, ◌≡◌, ◌≢◌, ◌≤◌, ◌-◌};
ghost use Rattle.dgt_chess.specs.Attacks.{other};
ghost use Rattle.dgt_game.specs.Memory.{halves_of, is_jump, is_long_jump};

use crate::event::Moves;
use dgt_chess::{Colour, Move, State};

/// How a state follows the one before.
#[derive(Clone, Copy, Debug, PartialEq, Eq)]
pub(crate) enum Way {
    /// A line begins with it.
    Begun,
    Made(Move),
    Unseen(Moves),
    Gap(u8),
}

impl Way {
    pub(crate) fn halves(self) -> u8
        ensures { result ≡ halves_of self }
    {
        match self {
            Way::Begun => 0,
            Way::Made(_) => 1,
            Way::Unseen(moves) => moves.len() as u8,
            Way::Gap(count) => count,
        }
    }

    pub(crate) fn is_jump(self) -> bool
        ensures { result ≡ is_jump self }
    {
        match self {
            Way::Unseen(_) | Way::Gap(_) => true,
            _ => false,
        }
    }

    /// Whether half-moves lie between that are in no certain order, or more than one of them.
    pub(crate) fn is_long_jump(self) -> bool
        ensures { result ≡ is_long_jump self }
    {
        match self {
            Way::Unseen(moves) => moves.len() > 2,
            Way::Gap(_) => true,
            _ => false,
        }
    }
}

/// Where a position stands in what is known.
#[derive(Clone, Copy, Debug, PartialEq, Eq)]
pub(crate) enum Place {
    /// In the line, so far before its last state.
    Line(usize),
    /// At this node of those that were seen since.
    Seen(usize),
    Nowhere,
}

/// How many states back the board shows the line, if these are few.
#[derive(Clone, Copy, Debug, PartialEq, Eq)]
pub(crate) struct Returned {
    pub(crate) count: usize,
    /// Whether that is for sure.
    pub(crate) is_sure: bool,
    ghost near: { count ≤ 4 },
}

/// Where the path of a node begins.
#[derive(Clone, Copy, Debug, PartialEq, Eq)]
pub(crate) enum Origin {
    /// At the state of the line that is so far before its last.
    Line(usize),
    /// With the state in which a game begins.
    Start,
    /// With a position that nothing led to.
    Shadow,
}

/// A state that the board has shown, and how it follows another.
#[derive(Clone, Copy, Debug, PartialEq, Eq)]
pub(crate) struct Step {
    pub(crate) state: State,
    pub(crate) is_turned: bool,
    /// How it follows its parent.
    pub(crate) way: Way,
    pub(crate) parent: Place,
}

/// A step, and what is known of when it was shown.
#[derive(Clone, Copy, Debug, PartialEq, Eq)]
pub(crate) struct Node {
    pub(crate) step: Step,
    pub(crate) origin: Origin,
    /// When it was shown first, and last.
    pub(crate) at: u64,
    pub(crate) left: u64,
    /// Whether it was shown without a doubt.
    pub(crate) is_sure: bool,
    /// Whether it was shown only without pieces that were in hands, or without one that was gone.
    pub(crate) is_held: bool,
    /// Whether it was shown only without one piece, which was gone.
    pub(crate) lacks_one: bool,
    /// Whether its last two half-moves were faster than hands.
    pub(crate) is_quick: bool,
    /// Whether something wasn't shown before it: a jump may have more half-moves than it seems.
    pub(crate) was_behind: bool,
    /// Whether its path has a jump, and a long one.
    pub(crate) jumps: bool,
    pub(crate) jumps_far: bool,
    /// How many nodes its path has.
    pub(crate) depth: u8,
}

impl Node {
    /// The first node of a line.
    pub(crate) fn root(state: State, is_turned: bool, origin: Origin, at: u64) -> Self
        ensures step { result.step ≡ record {
          state = state;
          is_turned = is_turned;
          way = Way.Begun;
          parent = Place.Nowhere;
        } }
        ensures whole { result.is_held ≡ false }
        ensures first { (result.origin ≡ origin) × (result.depth ≡ 1) }
        ensures times { (result.at ≡ at) × (result.left ≡ at) }
        ensures plain { (result.is_sure ≡ false) × (result.is_quick ≡ false)
            × (result.was_behind ≡ false) × (result.jumps ≡ false) × (result.jumps_far ≡ false)
            × (result.lacks_one ≡ false) }
    {
        Node {
            step: Step {
                state,
                is_turned,
                way: Way::Begun,
                parent: Place::Nowhere,
            },
            origin,
            at,
            left: at,
            is_sure: false,
            is_held: false,
            lacks_one: false,
            is_quick: false,
            was_behind: false,
            jumps: false,
            jumps_far: false,
            depth: 1,
        }
    }

    /// The same node, as one that follows the line's last state.
    pub(crate) fn after_line(&self) -> Self
        ensures sure { result.is_sure ≡ self.now.is_sure }
        ensures rest { (result.is_held ≡ self.now.is_held)
            × (self.now.step.way ≡ Way.Begun → result.origin ≡ self.now.origin)
            × (result.lacks_one ≡ self.now.lacks_one) }
        ensures step { result.step ≡ record {
          state = self.now.step.state;
          is_turned = self.now.step.is_turned;
          way = self.now.step.way;
          parent = Place.Line 0;
        } }
        ensures anew { self.now.step.way ≢ Way.Begun → (result.origin ≡ Origin.Line 0)
            × (result.depth ≡ 1) × (result.jumps ≡ is_jump self.now.step.way)
            × (result.jumps_far ≡ is_long_jump self.now.step.way) }
        ensures times { (result.at ≡ self.now.at) × (result.left ≡ self.now.left) }
    {
        let mut new = *self;
        new.step.parent = Place::Line(0);
        if self.step.way != Way::Begun {
            new.origin = Origin::Line(0);
            new.depth = 1;
            new.jumps = self.step.way.is_jump();
            new.jumps_far = self.step.way.is_long_jump();
        }
        new
    }

    /// The player who made the last half-move.
    pub(crate) fn mover(&self) -> Colour
        ensures { result ≡ other self.now.step.state.turn }
    {
        self.step.state.turn().other()
    }

    /// The time for which it was shown.
    pub(crate) fn rested(&self) -> u64
        ensures { result ≡ self.now.left - self.now.at }
    {
        self.left.saturating_sub(self.at)
    }
}

impl Default for Node {
    fn default() -> Self {
        Node::root(State::start(), false, Origin::Start, 0)
    }
}
