//! The world: a board, a host, and the two lines between them.

ghost use Rattle.std.specs.Prelude.{◌≡◌, ◌≢◌, ◌↔◌, ◌⊎◌, ◌<◌, ◌≤◌, ◌+◌, ◌*◌, ℕ, false, List, []};
ghost use Rattle.std.specs.Prelude.{◌∷◌, ◌++◌, All, Contains, Some, None, IsTrue, IfOk};
ghost use Rattle.std.specs.Prelude.{IsErrAnd, IsErrOf, map, length};
ghost use Rattle.dgt_values.specs.Board.{pieces_of};
ghost use Rattle.dgt_values.specs.declared.kinds.Kind.{Kind};
ghost use Rattle.dgt_message.specs.Content.{Content, clock_seen, answered_kind};
ghost use Rattle.dgt_command.specs.Content.{CommandContent};
ghost use Rattle.dgt_board.specs.Sending.{backlog};
ghost use Rattle.dgt_board.specs.State.{command_mode, follows_clock, updates};
ghost use Rattle.dgt_board.specs.declared.modes.Mode.{Mode};
ghost use Rattle.dgt_message.specs.Picture.{picture_after_all};
ghost use Rattle.dgt_link.specs.declared.line.LineMemory.{LineMemory};
ghost use Rattle.dgt_link.specs.declared.world.NoWorld.{NoWorld};
ghost use Rattle.dgt_link.specs.Act.{ActContent, act_content};
ghost use Rattle.dgt_link.specs.Clocks.{AreClockCalm, IsClockFollowing, IsClockPromisedWorld, stops_clock};
ghost use Rattle.dgt_link.specs.Faults.{AreCalm, FaultyContent};
ghost use Rattle.dgt_link.specs.Healing.{IsInStep, IsInTurnWorld};
ghost use Rattle.dgt_link.specs.Headline.{AskForPicture, squares_after};
ghost use Rattle.dgt_link.specs.Stands.{StandsAfterRun, StandsAfterStep, IsExactWorld, IsWorld, StandsFor};
ghost use Rattle.dgt_link.specs.Promise.{IsAskedBy, IsPromised, IsRestarted, PictureIsComing, act_requests, coming_mode, mode_after};
ghost use Rattle.dgt_link.specs.Machine.{MachineState, new_state};
ghost use Rattle.dgt_link.specs.Settling.{HasRounds, SettlesIn, steps_left};
ghost use Rattle.dgt_link.specs.Sound.{IsExact, IsSound, IsUnknownOr};
ghost use Rattle.dgt_link.specs.Step.{Runs, Step, done_count};
ghost use Rattle.dgt_link.specs.History.{IsInOrderOf, RunsThrough, shown_in, stood_in};
ghost use Rattle.dgt_link.specs.View.{IsQuietWorld, WorldView, new_world};

use crate::acts::{Act, Outcome, count};
use crate::faulty::{FaultyAct, FaultyWorld};
use crate::line::LineMemory;
use crate::{healing, laws};
use dgt_board::{Board, Identity, MAX_SENT};
use dgt_command::MAX_WORD;
use dgt_host::{Host, RESTART_LENGTH};
use dgt_message::Clock;
use dgt_values::Position;
use std::alloc::Global;
use std::marker::Model;
use thiserror::Error;

/// The least capacity of the line from the board to the host: one dump.
pub const MIN_UP: usize = MAX_SENT;

/// The least capacity of the line from the host to the board: one longest command.
pub const MIN_DOWN: usize = MAX_WORD;

/// Why a world could not be made.
#[derive(Clone, Copy, Debug, PartialEq, Eq, Error)]
pub enum WorldFault {
    /// The up line would have fewer than 67 bytes, or the down line fewer than 257.
    #[error("a line is too small")]
    LineTooSmall,
    /// The memory of a line was refused.
    #[error("out of memory")]
    OutOfMemory,
}

// Why no world was made with the memory for its lines.
#[derive(Drop)]
enum NoWorld {
    // a line would be too small; none of this memory was used
    LineTooSmall(LineMemory),
    OutOfMemory,
}

/// A board, a host and the two lines between them. Only [`World::new`] allocates memory.
///
/// Contracts see the board and the host, and for each line its bytes and its capacity. The world
/// always stands for exactly one sound state of the machine.
#[derive(Drop)]
pub struct World {
    // its acts are the plain ones of a world at fault
    inner: FaultyWorld,
}

impl Model for World {
    ghost use Rattle.dgt_link.specs.Stands.{IsWorld};
    ghost use Rattle.dgt_link.specs.View.{WorldView};

    ghost Value = { WorldView };

    ghost view = { λ world. world.inner };

    ghost invariant = { λ world. IsWorld world.inner };
}

impl World {
    /// A new board, a new host and two empty lines of these capacities, in bytes.
    ///
    /// Returns `LineTooSmall` if `up` is below `MIN_UP` or `down` below `MIN_DOWN`, and otherwise
    /// `OutOfMemory` if the memory of a line was refused. Then no memory is kept.
    pub fn new(
        alloc: Global,
        position: Position,
        clock: Clock,
        identity: Identity,
        up: usize,
        down: usize,
    ) -> Result<Self, WorldFault>
        ensures too_small { IsErrOf result WorldFault.LineTooSmall
            ↔ ((up < MIN_UP) ⊎ (down < MIN_DOWN)) }
        ensures made { IfOk result (λ world.
            world ≡ new_world (pieces_of position) (clock_seen clock) identity up down) }
        ensures stands { IfOk result (λ world.
            StandsFor world (new_state (pieces_of position) (clock_seen clock) identity)) }
        ensures exact { IfOk result (λ world. IsExactWorld world) }
    {
        let memory = LineMemory::new(alloc);
        match World::with_memory(memory, position, clock, identity, up, down) {
            Ok(world) => Ok(world),
            Err(NoWorld::LineTooSmall(_untaken)) => Err(WorldFault::LineTooSmall),
            Err(NoWorld::OutOfMemory) => Err(WorldFault::OutOfMemory),
        }
    }

    // A new world with this memory for its lines, if that isn't refused. If a line would be too
    // small, the memory is returned unused.
    fn with_memory(
        memory: LineMemory,
        position: Position,
        clock: Clock,
        identity: Identity,
        up: usize,
        down: usize,
    ) -> Result<Self, NoWorld>
        ensures too_small { IsErrAnd result (λ why.
            (untaken : LineMemory) × (why ≡ NoWorld.LineTooSmall untaken))
            ↔ ((up < MIN_UP) ⊎ (down < MIN_DOWN)) }
        ensures made { IfOk result (λ world.
            world ≡ new_world (pieces_of position) (clock_seen clock) identity up down) }
        ensures exact { IfOk result (λ world. IsExactWorld world) }
    {
        dgt_command::laws::parts_of_words();
        if up < MIN_UP || down < MIN_DOWN {
            return Err(NoWorld::LineTooSmall(memory));
        }
        match memory.lines(up, down) {
            Ok((up, down)) => Ok(World {
                inner: FaultyWorld {
                    board: Board::new(position, clock, identity),
                    host: Host::new(),
                    up,
                    down,
                },
            }),
            Err(_refused) => Err(NoWorld::OutOfMemory),
        }
    }

    /// Returns the same world as one in which the lines and the board's power may fail.
    pub fn at_fault(self) -> FaultyWorld
        ensures same { result ≡ self }
        ensures in_step { IsInStep result }
        ensures in_turn { IsInTurnWorld result }
    {
        healing::awaited_replies_come();
        healing::worlds_are_in_step();
        self.inner
    }

    fn act(&mut self, act: Act<'_>) -> Outcome
        ensures { Step (act_content act.entry) self.old result self.new }
    {
        laws::acts_keep();
        self.inner.step(FaultyAct::Plain(act))
    }

    /// Does one act, and returns its outcome. An act that isn't `Done` changes nothing.
    ///
    /// Its outcomes other than `Done`, in the order in which they are tested:
    ///
    /// - `Change`, `ClockRead`, `Break` and `HostBreak` are always `Done`.
    /// - `Host` is `TooMany` if the reply would have to be awaited and 16 are awaited, and `NoRoom`
    ///   if the down line has too little room for the command.
    /// - `BoardSend` is `Nothing` if the board has nothing to send, and `NoRoom` if the up line has
    ///   too little room for the message.
    /// - `ToBoard` is `Nothing` if the count is 0 or the down line is empty, and `Busy` if the
    ///   board owes 8 replies.
    /// - `ToHost` is `Nothing` if the count is 0 or the up line is empty.
    ///
    /// After a `HostBreak` the down line holds 257 bytes and the board is as it was. From these
    /// bytes it reads noise, and then `UpdateBoard` and `Dump`.
    pub fn step(&mut self, act: Act<'_>) -> Outcome
        ensures exact { Step (act_content act.entry) self.old result self.new }
        ensures unchanged { result ≢ Outcome.Done → self.new ≡ self.old }
        ensures moves { (x : MachineState) → StandsFor self.old x →
            StandsAfterStep (act_content act.entry) result x self.new }
        ensures sound { (y : MachineState) × StandsFor self.new y × IsSound y }
        ensures stays_exact { act_content act.entry ≢ ActContent.HostBreak →
            IsExactWorld self.old → IsExactWorld self.new }
        ensures exact_again { act_content act.entry ≡ ActContent.Break → IsExactWorld self.new }
        ensures begun { act_content act.entry ≡ ActContent.Host CommandContent.Dump →
            result ≡ Outcome.Done → (y : MachineState) → StandsFor self.new y → PictureIsComing y }
        ensures kept { act_content act.entry ≢ ActContent.Break → (x y : MachineState) →
            StandsFor self.old x → StandsFor self.new y → PictureIsComing x → PictureIsComing y }
        ensures ended { act_content act.entry ≡ ActContent.Break → (y : MachineState) →
            StandsFor self.new y → ¬ (PictureIsComing y) }
        ensures host_break { act_content act.entry ≡ ActContent.HostBreak → (result ≡ Outcome.Done)
            × (length self.new.down.bytes ≡ RESTART_LENGTH) × (self.new.board ≡ self.old.board) }
        ensures restarted { act_content act.entry ≡ ActContent.HostBreak → (y : MachineState) →
            StandsFor self.new y → IsRestarted y × IsPromised y }
        ensures mode { (x y : MachineState) → StandsFor self.old x → StandsFor self.new y →
            coming_mode y
            ≡ mode_after (coming_mode x) (act_requests result (act_content act.entry)) }
        // the clock: what promises it, and what keeps the promise
        ensures clock_asked { (command : CommandContent) (mode : Mode) →
            act_content act.entry ≡ ActContent.Host command → command_mode command ≡ Some mode →
            IsTrue (follows_clock mode) → result ≡ Outcome.Done → IsClockFollowing self.new }
        ensures clock_following { IsClockFollowing self.old →
            stops_clock (FaultyContent.Plain (act_content act.entry)) ≡ false →
            IsClockFollowing self.new }
        ensures reading { act_content act.entry ≡ ActContent.Host CommandContent.Clock →
            result ≡ Outcome.Done → IsClockFollowing self.old → IsClockPromisedWorld self.new }
        ensures clock_kept { stops_clock (FaultyContent.Plain (act_content act.entry)) ≡ false →
            IsClockPromisedWorld self.old → IsClockPromisedWorld self.new }
    {
        healing::clocks_heal();
        healing::worlds_are_in_step();
        laws::acts_are_moves();
        laws::acts_keep();
        laws::promise_by_acts();
        self.stands();
        self.is_world();
        self.act(act)
    }

    /// Does all acts in order, and returns how many were `Done`.
    ///
    /// The host's picture is the board's position once the world is quiet, on two conditions. The
    /// acts done after the last `Break` request a dump, and the last of them that sets a mode asks
    /// for updates. A `HostBreak` requests both.
    ///
    /// The world is quiet after enough rounds of deliveries and sendings, in whatever order and
    /// chunks. In a round the board sends, takes some bytes, and the host hears some.
    pub fn run(&mut self, acts: &[Act<'_>]) -> usize
        ensures exact { (outcomes : List Outcome) × (result ≡ done_count outcomes)
            × Runs (map act_content acts.now) self.old outcomes self.new }
        ensures moves { (outcomes : List Outcome) →
            Runs (map act_content acts.now) self.old outcomes self.new →
            (x : MachineState) → StandsFor self.old x →
            StandsAfterRun (map act_content acts.now) outcomes x self.new }
        ensures stays_exact { ¬ (Contains (map act_content acts.now) ActContent.HostBreak) →
            IsExactWorld self.old → IsExactWorld self.new }
        ensures promised { (outcomes : List Outcome) →
            Runs (map act_content acts.now) self.old outcomes self.new →
            IsAskedBy (map act_content acts.now) outcomes →
            (y : MachineState) × StandsFor self.new y × IsPromised y }
        ensures picture { (outcomes : List Outcome) →
            Runs (map act_content acts.now) self.old outcomes self.new →
            IsAskedBy (map act_content acts.now) outcomes → IsQuietWorld self.new →
            self.new.host.picture ≡ Some self.new.board.state.squares }
        ensures kept { AreCalm (map FaultyContent.Plain (map act_content acts.now)) →
            (x : MachineState) → StandsFor self.old x → IsPromised x →
            (y : MachineState) × StandsFor self.new y × IsPromised y }
        ensures clock_kept { AreClockCalm (map FaultyContent.Plain (map act_content acts.now)) →
            IsClockPromisedWorld self.old → IsClockPromisedWorld self.new }
        // in whatever order and chunks, if each side moves again and again
        ensures fair { (rounds : ℕ) → HasRounds rounds (map act_content acts.now) →
            steps_left self.old < rounds → IsQuietWorld self.new }
        // the pieces that the host shows on a square, at first and after each act, were there in
        // this order
        ensures in_order { (outcomes : List Outcome) (worlds : List WorldView) (square : ℕ) →
            RunsThrough (map act_content acts.now) self.old outcomes worlds →
            self.old.host.picture ≡ None → self.old.host.unread ≡ [] → self.old.up.bytes ≡ [] →
            IsInOrderOf (shown_in square worlds) (stood_in square worlds) }
    {
        healing::clocks_heal();
        laws::acts_are_moves();
        laws::acts_keep();
        laws::picture_after_acts();
        laws::worlds_show_in_order();
        laws::fair_rounds_rest();
        laws::grammars();
        self.stands();
        self.is_world();
        self.inner.reports_are_short();
        let done = self.act_all(acts);
        self.inner.holds_unfinished();
        done
    }

    fn act_all(&mut self, acts: &[Act<'_>]) -> usize
        ensures { (outcomes : List Outcome) × (result ≡ done_count outcomes)
            × Runs (map act_content acts.now) self.old outcomes self.new }
    {
        let mut done = 0;
        for act in acts {
            done += count(self.act(*act));
        }
        done
    }

    /// Delivers all bytes under way and lets the board send what it has to report, until the world
    /// is quiet. Returns how many acts that took. A quiet world takes none.
    ///
    /// The acts are only `ToHost`, `BoardSend` and `ToBoard`, and each is `Done`. While the up line
    /// contains bytes, the host hears all of them. If it is empty, the board sends a message if it
    /// has one. If it has none, it takes all bytes of the down line, until it owes 8 replies.
    ///
    /// There are at most three acts for each byte in the down line, and one more. In addition there
    /// are at most two for each owed reply, each square that differs from what was reported, and an
    /// owed clock. No act changes a square or the board's clock, or sends a command. The mode is
    /// therefore that of the last mode command under way. If a dump was requested and this mode
    /// asks for updates, the host's picture is the board's position.
    ///
    /// All of that also holds after a `Break` and after a `HostBreak`, whatever was under way then.
    /// After a `Break` no picture is known until a dump is requested again. After a `HostBreak` the
    /// 257 bytes in the down line are noise, and then `UpdateBoard` and `Dump`: the picture is the
    /// board's position again, but the host's clock may be unknown.
    pub fn settle(&mut self) -> u128
        ensures quiet { IsQuietWorld self.new }
        ensures run { SettlesIn result self.old self.new }
        ensures bound { result ≤
            3 * length self.old.down.bytes + 2 * backlog self.old.board.state + 1 }
        ensures at_most { result ≤ 3 * length self.old.down.bytes + 147 }
        ensures keeps_squares { self.new.board.state.squares ≡ self.old.board.state.squares }
        ensures keeps_clock { self.new.board.state.clock ≡ self.old.board.state.clock }
        ensures mode { (x : MachineState) → StandsFor self.old x →
            self.new.board.state.mode ≡ coming_mode x }
        ensures picture { (x : MachineState) → StandsFor self.old x → IsPromised x →
            self.new.host.picture ≡ Some self.old.board.state.squares }
        ensures reported { IsTrue (updates self.new.board.state.mode) →
            IsUnknownOr self.new.host.picture (Some self.old.board.state.squares) }
        ensures clock { IsExactWorld self.old → IsTrue (follows_clock self.new.board.state.mode) →
            self.new.host.clock ≡ Some self.old.board.state.clock }
        ensures clock_reported { IsTrue (follows_clock self.new.board.state.mode) →
            IsUnknownOr self.new.host.clock (Some self.old.board.state.clock) }
        ensures clock_promised { IsClockPromisedWorld self.old →
            self.new.host.clock ≡ Some self.old.board.state.clock }
        ensures awaited { self.new.host.awaited ≡ [] }
        ensures stays_exact { IsExactWorld self.old → IsExactWorld self.new }
    {
        healing::clocks_heal();
        laws::acts_are_moves();
        laws::acts_keep();
        laws::promise_by_acts();
        laws::grammars();
        self.stands();
        let done = self.inner.settle();
        self.inner.holds_unfinished();
        done
    }

    /// Does all acts in order, delivers all bytes under way ([`World::settle`]), and returns how
    /// many of the acts were `Done`.
    ///
    /// If all were done, and they request a dump and updates, the host's picture is the board's
    /// position from before, with the changes made.
    pub fn play(&mut self, acts: &[Act<'_>]) -> usize
        ensures exact { (outcomes : List Outcome) × (between : WorldView) × (steps : ℕ)
            × (result ≡ done_count outcomes)
            × Runs (map act_content acts.now) self.old outcomes between
            × SettlesIn steps between self.new }
        ensures quiet { IsQuietWorld self.new }
        ensures picture { result ≡ length acts.now → AskForPicture acts.now →
            self.new.host.picture ≡ Some (squares_after self.old.board.state.squares acts.now) }
    {
        let done = self.run(acts);
        self.settle();
        done
    }

    // A world stands for a state of the machine.
    fn stands(&self)
        ensures { (x : MachineState) × StandsFor self.now x }
    {
        // the facts of each world are known once its field is read
        self.inner.up_len();
    }

    // The facts of each world.
    fn is_world(&self)
        ensures { IsWorld self.now }
    {
        // they are known once its field is read
        self.inner.up_len();
    }

    /// Whether both lines are empty, the host has nothing unread, the board has no unfinished
    /// command and owes nothing.
    ///
    /// If so, the host awaits nothing, and its picture is unknown or the board's position if the
    /// board's mode asks for updates. If an act done after the last `Break` also requested a dump,
    /// the picture is known. In a mode that follows the clock, the host's clock is unknown or the
    /// board's, and if a reading was also requested it is known.
    pub fn quiet(&self) -> bool
        ensures quiet { IsTrue result ↔ IsQuietWorld self.now }
        ensures reported { IsTrue result → IsTrue (updates self.now.board.state.mode) →
            IsUnknownOr self.now.host.picture (Some self.now.board.state.squares) }
        ensures clock { IsTrue result → IsExactWorld self.now →
            IsTrue (follows_clock self.now.board.state.mode) →
            self.now.host.clock ≡ Some self.now.board.state.clock }
        ensures clock_reported { IsTrue result → IsTrue (follows_clock self.now.board.state.mode) →
            IsUnknownOr self.now.host.clock (Some self.now.board.state.clock) }
        ensures clock_promised { IsTrue result → IsClockPromisedWorld self.now →
            self.now.host.clock ≡ Some self.now.board.state.clock }
        ensures awaited { IsTrue result → self.now.host.awaited ≡ [] }
        ensures picture { IsTrue result → (x : MachineState) → StandsFor self.now x → IsPromised x →
            self.now.host.picture ≡ Some self.now.board.state.squares }
        ensures stands { (x : MachineState) × StandsFor self.now x }
    {
        healing::clocks_heal();
        laws::at_quiet_world();
        self.stands();
        self.inner.quiet()
    }

    /// The board.
    pub fn board(&self) -> &Board
        ensures { result.now ≡ self.now.board }
    {
        self.inner.board()
    }

    /// The host. Once it has heard all messages under way, its picture is unknown or the squares
    /// that the board has reported. A message that it has heard in part is one of them.
    pub fn host(&self) -> &Host
        ensures host { result.now ≡ self.now.host }
        ensures fold { (x : MachineState) → StandsFor self.now x →
            IsUnknownOr (picture_after_all self.now.host.picture x.up)
            (Some self.now.board.state.reported_squares) }
        ensures first { (x : MachineState) (before later : List Content) (message : Content)
            (kind : Kind) → StandsFor self.now x → IsExact x →
            x.up ≡ before ++ message ∷ later →
            All (λ other. answered_kind other ≡ None) before → answered_kind message ≡ Some kind →
            (others : List Kind) × (self.now.host.awaited ≡ kind ∷ others) }
        ensures stands { (x : MachineState) × StandsFor self.now x }
    {
        laws::worlds_are_reported();
        self.stands();
        self.inner.host()
    }

    /// How many bytes are in the line from the board to the host.
    pub fn up_len(&self) -> usize
        ensures { result ≡ length self.now.up.bytes }
    {
        self.inner.up_len()
    }

    /// How many bytes are in the line from the host to the board.
    pub fn down_len(&self) -> usize
        ensures { result ≡ length self.now.down.bytes }
    {
        self.inner.down_len()
    }
}
