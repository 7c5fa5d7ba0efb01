//! A world in which the lines and the board's power may fail.

ghost use Rattle.std.specs.Prelude.{◌≡◌, ◌≢◌, ◌↔◌, ◌<◌, ◌≤◌, ◌+◌, ◌*◌, ◌^◌, ℕ, List, [], ◌∷◌, Some, IsTrue};
ghost use Rattle.std.specs.Prelude.{◌++◌, IsSome, None, map, length, false, true};
ghost use Rattle.std.specs.List.{AllByRecursion};
ghost use Rattle.dgt_message.specs.Content.{Content};
ghost use Rattle.dgt_board.specs.Sending.{backlog, next_message};
ghost use Rattle.dgt_board.specs.State.{IsShortClock, IsShortIdentity, command_mode, follows_clock, updates};
ghost use Rattle.dgt_board.specs.declared.modes.Mode.{Mode};
ghost use Rattle.dgt_command.specs.Content.{CommandContent};
ghost use Rattle.dgt_decode.specs.Grammar.{unfinished_message};
ghost use Rattle.dgt_link.specs.Act.{ActContent};
ghost use Rattle.dgt_link.specs.Settling.{IsNext, SettlesIn};
ghost use Rattle.dgt_link.specs.Work.{work_left};
ghost use Rattle.dgt_link.specs.declared.acts.Outcome.{Outcome as Answer};
ghost use Rattle.dgt_link.specs.Clocks.{AreClockCalm, IsClockFollowing, IsClockPromisedWorld, stops_clock};
ghost use Rattle.dgt_link.specs.Faults.{AreCalm, AreFaultless, FaultyContent, FaultyRuns, FaultyStep, IfRan, begins_anew, faulty_content, is_break, is_fault, loses_step, sends, stops};
ghost use Rattle.dgt_link.specs.Healing.{IsClockHealing, IsFaultyWorld, IsFollowing, IsHealing, IsInStep, IsInStepBy, IsInTurn, IsInTurnWorld, IsPromisedWorld, IsRestedWorld, StandsBehind, counted_by};
ghost use Rattle.dgt_link.specs.Machine.{MachineState};
ghost use Rattle.dgt_message.specs.Picture.{picture_after_all};
ghost use Rattle.dgt_link.specs.Step.{Step, done_count};
ghost use Rattle.dgt_link.specs.View.{IsQuietWorld, WorldView};
ghost use Rattle.dgt_link.specs.History.{IsInOrderOf, RunsThrough, shown_in, stood_in};

use crate::acts::{Act, Outcome, count};
use crate::healing;
use crate::line::Line;
use crate::moving::{act_on, hold, restart_behind, send_next};
use dgt_board::Board;
use dgt_host::{Host, MAX_AWAITED, RESTART_LENGTH};
use std::marker::Model;

/// An act or a fault in a world in which the lines and the board's power may fail.
#[derive(Clone, Copy, Debug, PartialEq, Eq)]
pub enum FaultyAct<'a> {
    /// An act of a [`crate::World`].
    Plain(Act<'a>),
    /// These bytes replace those under way to the host: some were lost, repeated, altered, inserted
    /// or moved.
    GarbleUp(&'a [u8]),
    /// These bytes replace those under way to the board.
    GarbleDown(&'a [u8]),
    /// The board loses its power and gets it back: `line_lost` of the board. The lines keep their
    /// bytes.
    BoardLost,
    /// The host starts over: it gives up the replies that it awaits, keeps its picture, and appends
    /// the 257 bytes of its `restart` to the down line. Both lines keep their bytes.
    Restart,
    /// The host gives up the replies that it awaits, which may be lost. Nothing else changes.
    GiveUp,
}

/// A board, a host and two lines of bytes. The lines and the board's power may fail.
///
/// [`crate::World::at_fault`] creates it without allocating memory. Contracts see it as a
/// [`crate::World`].
#[derive(Drop)]
pub struct FaultyWorld {
    pub(crate) board: Board,
    pub(crate) host: Host,
    pub(crate) up: Line,
    pub(crate) down: Line,
}

impl Model for FaultyWorld {
    ghost use Rattle.dgt_link.specs.Healing.{IsClockHealing, IsFaultyWorld};
    ghost use Rattle.dgt_link.specs.View.{WorldView, world_of};

    ghost Value = { WorldView };

    ghost view = { λ world. world_of world.board world.host world.up world.down };

    ghost invariant = { λ world.
        IsFaultyWorld (world_of world.board world.host world.up world.down) };
}

impl FaultyWorld {
    fn act(&mut self, act: FaultyAct<'_>) -> Outcome
        ensures { FaultyStep (faulty_content act.entry) self.old result self.new }
    {
        healing::faults_keep();
        match act {
            FaultyAct::Plain(act) => act_on(
                &mut self.board,
                &mut self.host,
                &mut self.up,
                &mut self.down,
                act,
            ),
            FaultyAct::GarbleUp(bytes) => hold(&mut self.up, bytes),
            FaultyAct::GarbleDown(bytes) => hold(&mut self.down, bytes),
            FaultyAct::BoardLost => {
                self.board.line_lost();
                Outcome::Done
            }
            FaultyAct::Restart => restart_behind(&mut self.host, &mut self.down),
            FaultyAct::GiveUp => {
                self.host.give_up_awaited();
                Outcome::Done
            }
        }
    }

    /// Does one act and returns its outcome. An act that isn't `Done` changes nothing.
    ///
    /// A `Plain` act has the outcome that [`crate::World::step`] gives it. `GarbleUp` and
    /// `GarbleDown` are `NoRoom` if the bytes don't fit into the line, and `Restart` is `NoRoom` if
    /// the down line has room for fewer than 257 more bytes. `BoardLost` and `GiveUp` are always
    /// `Done`.
    ///
    /// A dump request is `TooMany` if 16 replies are awaited. Right after a `GiveUp` none are,
    /// however many replies were lost.
    pub fn step(&mut self, act: FaultyAct<'_>) -> Outcome
        ensures exact { FaultyStep (faulty_content act.entry) self.old result self.new }
        ensures unchanged { result ≢ Outcome.Done → self.new ≡ self.old }
        ensures restart { faulty_content act.entry ≡ FaultyContent.Restart →
            ((result ≡ Outcome.Done)
            ↔ (length self.old.down.bytes + RESTART_LENGTH ≤ self.old.down.capacity)) }
        ensures given_up { faulty_content act.entry ≡ FaultyContent.GiveUp →
            (result ≡ Outcome.Done) × (self.new.host.awaited ≡ []) }
        ensures dump_done { faulty_content act.entry ≡ sends CommandContent.Dump →
            length self.old.host.awaited < MAX_AWAITED →
            length self.old.down.bytes < self.old.down.capacity → result ≡ Outcome.Done }
        // the picture: what promises that it heals, and what keeps the promise
        ensures anew { begins_anew (faulty_content act.entry) ≡ true → result ≡ Outcome.Done →
            IsPromisedWorld self.new }
        ensures in_step { loses_step (faulty_content act.entry) ≡ false → IsInStep self.old →
            IsInStep self.new }
        ensures asked { (command : CommandContent) (mode : Mode) →
            faulty_content act.entry ≡ sends command → command_mode command ≡ Some mode →
            IsTrue (updates mode) → result ≡ Outcome.Done → IsInStep self.old →
            IsFollowing self.new }
        ensures following { loses_step (faulty_content act.entry) ≡ false →
            stops (faulty_content act.entry) ≡ false → IsFollowing self.old → IsFollowing self.new }
        ensures dump { faulty_content act.entry ≡ sends CommandContent.Dump →
            result ≡ Outcome.Done → IsFollowing self.old → IsPromisedWorld self.new }
        ensures kept { is_fault (faulty_content act.entry) ≡ false →
            stops (faulty_content act.entry) ≡ false →
            IsPromisedWorld self.old → IsPromisedWorld self.new }
        // and the clock
        ensures clock_asked { (command : CommandContent) (mode : Mode) →
            faulty_content act.entry ≡ sends command → command_mode command ≡ Some mode →
            IsTrue (follows_clock mode) → result ≡ Outcome.Done → IsInStep self.old →
            IsClockFollowing self.new }
        ensures clock_owed { (command : CommandContent) (mode : Mode) →
            faulty_content act.entry ≡ sends command → command_mode command ≡ Some mode →
            IsTrue (follows_clock mode) → self.old.board.state.reported_clock ≡ None →
            result ≡ Outcome.Done → IsInStep self.old → IsClockPromisedWorld self.new }
        ensures clock_following { loses_step (faulty_content act.entry) ≡ false →
            stops_clock (faulty_content act.entry) ≡ false → IsClockFollowing self.old →
            IsClockFollowing self.new }
        ensures reading { faulty_content act.entry ≡ sends CommandContent.Clock →
            result ≡ Outcome.Done → IsClockFollowing self.old → IsClockPromisedWorld self.new }
        ensures clock_kept { is_fault (faulty_content act.entry) ≡ false →
            stops_clock (faulty_content act.entry) ≡ false →
            IsClockPromisedWorld self.old → IsClockPromisedWorld self.new }
        // what the host awaits
        ensures awaited_anew { begins_anew (faulty_content act.entry) ≡ true →
            result ≡ Outcome.Done → IsInTurnWorld self.new }
        ensures awaited_given_up { faulty_content act.entry ≡ FaultyContent.GiveUp →
            IsInStep self.old → IsInTurnWorld self.new }
        ensures awaited_kept { is_fault (faulty_content act.entry) ≡ false →
            IsInTurnWorld self.old → IsInTurnWorld self.new }
    {
        healing::clocks_heal();
        healing::steps_heal();
        healing::awaited_replies_come();
        self.is_faulty();
        self.act(act)
    }

    /// Does all acts in order and returns how many were `Done`.
    ///
    /// From any state of the board, the host and both lines, let the first act be a `Restart` with
    /// enough room. If the others include no fault, no reset and no `Break`, the host's picture is
    /// the board's position once the world is quiet.
    ///
    /// Whatever happened and failed before: the host's picture is the board's position once the
    /// world is quiet, on two conditions. The host started over after the last fault, and the last
    /// command since then that sets a mode asks for updates.
    ///
    /// If the world was in step before and only the up line failed, a dump request after the last
    /// of these faults is enough. The host's clock is the board's if a reading was requested
    /// instead of the dump and the mode follows the clock.
    pub fn run(&mut self, acts: &[FaultyAct<'_>]) -> usize
        ensures exact { (outcomes : List Answer) × (result ≡ done_count outcomes)
            × FaultyRuns (map faulty_content acts.now) self.old outcomes self.new }
        // from any state of the board, the host and both lines
        ensures from_any_state { (later : List FaultyContent) →
            map faulty_content acts.now ≡ FaultyContent.Restart ∷ later →
            length self.old.down.bytes + RESTART_LENGTH ≤ self.old.down.capacity →
            AreCalm later → IsQuietWorld self.new →
            self.new.host.picture ≡ Some self.new.board.state.squares }
        ensures in_step { IfRan (map faulty_content acts.now) self.old self.new (λ outcomes.
            IsInStepBy (map faulty_content acts.now) outcomes → IsInStep self.new) }
        ensures heals { IfRan (map faulty_content acts.now) self.old self.new (λ outcomes.
            IsHealing (counted_by false (map faulty_content acts.now) outcomes) →
            IsQuietWorld self.new → self.new.host.picture ≡ Some self.new.board.state.squares) }
        ensures promised { IfRan (map faulty_content acts.now) self.old self.new (λ outcomes.
            IsHealing (counted_by false (map faulty_content acts.now) outcomes) →
            IsPromisedWorld self.new) }
        ensures kept { AreCalm (map faulty_content acts.now) → IsPromisedWorld self.old →
            IsPromisedWorld self.new }
        ensures awaited { IfRan (map faulty_content acts.now) self.old self.new (λ outcomes.
            IsInTurn (counted_by false (map faulty_content acts.now) outcomes) →
            IsQuietWorld self.new → self.new.host.awaited ≡ []) }
        ensures in_turn { IfRan (map faulty_content acts.now) self.old self.new (λ outcomes.
            IsInTurn (counted_by false (map faulty_content acts.now) outcomes) →
            IsInTurnWorld self.new) }
        ensures awaited_kept { AreFaultless (map faulty_content acts.now) →
            IsInTurnWorld self.old → IsInTurnWorld self.new }
        ensures dump_promised { IsInStep self.old →
            IfRan (map faulty_content acts.now) self.old self.new (λ outcomes.
            IsHealing (counted_by true (map faulty_content acts.now) outcomes) →
            IsPromisedWorld self.new) }
        ensures dump_heals { IsInStep self.old →
            IfRan (map faulty_content acts.now) self.old self.new (λ outcomes.
            IsHealing (counted_by true (map faulty_content acts.now) outcomes) →
            IsQuietWorld self.new → self.new.host.picture ≡ Some self.new.board.state.squares) }
        ensures clock_promised { IfRan (map faulty_content acts.now) self.old self.new (λ outcomes.
            IsClockHealing (counted_by false (map faulty_content acts.now) outcomes) →
            IsClockPromisedWorld self.new) }
        ensures reading_promised { IsInStep self.old →
            IfRan (map faulty_content acts.now) self.old self.new (λ outcomes.
            IsClockHealing (counted_by true (map faulty_content acts.now) outcomes) →
            IsClockPromisedWorld self.new) }
        ensures clock_heals { IfRan (map faulty_content acts.now) self.old self.new (λ outcomes.
            IsClockHealing (counted_by false (map faulty_content acts.now) outcomes) →
            IsQuietWorld self.new → self.new.host.clock ≡ Some self.new.board.state.clock) }
        ensures clock_kept { AreClockCalm (map faulty_content acts.now) →
            IsClockPromisedWorld self.old → IsClockPromisedWorld self.new }
        // between faults and quiet: the board sends a dump first, and no fault or break happens
        ensures reported { (later : List ActContent) (outcomes : List Answer) →
            map faulty_content acts.now ≡ map FaultyContent.Plain (ActContent.BoardSend ∷ later) →
            FaultyRuns (map faulty_content acts.now) self.old (Outcome.Done ∷ outcomes) self.new →
            AllByRecursion (λ act. is_break act ≡ false) later → IsInStep self.old →
            next_message self.old.board.state ≡ Some (Content.dump self.old.board.state.squares) →
            self.new.host.unread ≡ [] → self.new.up.bytes ≡ [] →
            self.new.host.picture ≡ Some self.new.board.state.reported_squares }
        // from some moment on when nothing is under way, each square shows the board's pieces in
        // order
        ensures in_order { (later : List ActContent) (outcomes : List Answer)
            (earlier : List WorldView) (first : WorldView) (others : List WorldView) (square : ℕ) →
            map faulty_content acts.now ≡ map FaultyContent.Plain (ActContent.BoardSend ∷ later) →
            RunsThrough (ActContent.BoardSend ∷ later) self.old (Outcome.Done ∷ outcomes)
            (self.old ∷ (earlier ++ first ∷ others)) →
            AllByRecursion (λ act. is_break act ≡ false) later → IsInStep self.old →
            next_message self.old.board.state ≡ Some (Content.dump self.old.board.state.squares) →
            first.host.unread ≡ [] → first.up.bytes ≡ [] →
            IsInOrderOf (shown_in square (first ∷ others))
            (stood_in square (self.old ∷ (earlier ++ first ∷ others))) }
    {
        healing::calm_heals();
        healing::dumps_are_shown();
        healing::clocks_heal();
        healing::faults_heal();
        healing::steps_heal();
        healing::awaited_replies_come();
        self.is_faulty();
        self.act_all(acts)
    }

    fn act_all(&mut self, acts: &[FaultyAct<'_>]) -> usize
        ensures { (outcomes : List Answer) × (result ≡ done_count outcomes)
            × FaultyRuns (map faulty_content acts.now) self.old outcomes self.new }
    {
        let mut done = 0;
        for act in acts {
            done += count(self.act(*act));
        }
        done
    }

    // The board sends, if it can: an empty line has room for any message.
    fn send(&mut self) -> Outcome
        ensures exact { Step ActContent.BoardSend self.old result self.new }
        ensures room { self.old.up.bytes ≡ [] → result ≢ Outcome.NoRoom }
    {
        healing::faults_keep();
        send_next(&mut self.board, &mut self.up)
    }

    // Whether the board has anything to send.
    fn has_to_send(&self) -> bool
        ensures { IsTrue result ↔ IsSome (next_message self.now.board.state) }
    {
        self.board.owes()
    }

    // The host hears all bytes of the up line.
    fn hear_all(&mut self) -> Outcome
        ensures { Step (ActContent.ToHost (length self.old.up.bytes)) self.old result self.new }
    {
        let waiting = self.up.len();
        self.act(FaultyAct::Plain(Act::ToHost(waiting)))
    }

    // The board takes the bytes of the down line, until it owes 8 replies.
    fn take_all(&mut self) -> Outcome
        ensures { Step (ActContent.ToBoard (length self.old.down.bytes)) self.old result self.new }
    {
        let coming = self.down.len();
        self.act(FaultyAct::Plain(Act::ToBoard(coming)))
    }

    // Does one delivery or sending, if one is possible. If none is, the world rests.
    fn settle_once(&mut self) -> bool
        ensures moved { IsTrue result → (act : ActContent) × IsNext self.old act
            × Step act self.old Outcome.Done self.new × (work_left self.new < work_left self.old) }
        ensures rests { result ≡ false → IsRestedWorld self.old × (self.new ≡ self.old) }
    {
        dgt_board::laws::bounded_backlog();
        dgt_board::laws::nothing_to_send();
        dgt_command::laws::words_are_short();
        dgt_command::laws::parts_of_words();
        if !self.up.is_empty() {
            self.hear_all();
            true
        } else if self.has_to_send() {
            self.send();
            true
        } else if !self.down.is_empty() {
            self.take_all();
            true
        } else {
            false
        }
    }

    // A `u128` can count the remaining work.
    fn work(&self)
        ensures fits { work_left self.now < 2 ^ 67 }
        ensures few { backlog self.now.board.state ≤ 73 }
    {
        dgt_board::laws::bounded_backlog();
        // the length of a line, and the number of owed replies, are known to be bounded once they
        // are read
        let _coming = self.down.len();
        let _owed = self.board.owed_len();
    }

    // The board's reports of itself and of its clock are short.
    pub(crate) fn reports_are_short(&self)
        ensures identity { IsShortIdentity self.now.board.state.identity }
        ensures clock { IsShortClock self.now.board.state.clock }
    {
        self.board.reports_are_short();
    }

    // The host's unread bytes are an unfinished message.
    pub(crate) fn holds_unfinished(&self)
        ensures { unfinished_message self.now.host.unread ≡ self.now.host.unread }
    {
        self.host.unread();
    }

    /// Delivers all bytes under way and lets the board send, until both lines are empty and the
    /// board has nothing to send. Returns how many acts that took. Their order is that of
    /// [`crate::World::settle`].
    ///
    /// A world that is promised to heal is then quiet, and the host's picture is the board's
    /// position. In any other world the host may still have unread bytes, and the board part of a
    /// command. If the clock is promised, the host's clock is the board's. If each awaited reply
    /// was yet to be heard, none is awaited any more.
    pub fn settle(&mut self) -> u128
        ensures rested { IsRestedWorld self.new }
        ensures run { SettlesIn result self.old self.new }
        ensures bound { result ≤
            3 * length self.old.down.bytes + 2 * backlog self.old.board.state + 1 }
        ensures at_most { result ≤ 3 * length self.old.down.bytes + 147 }
        ensures keeps_squares { self.new.board.state.squares ≡ self.old.board.state.squares }
        ensures keeps_clock { self.new.board.state.clock ≡ self.old.board.state.clock }
        ensures promised { IsPromisedWorld self.old → IsPromisedWorld self.new }
        ensures quiet { IsPromisedWorld self.old → IsQuietWorld self.new }
        ensures picture { IsPromisedWorld self.old →
            self.new.host.picture ≡ Some self.old.board.state.squares }
        ensures clock_kept { IsClockPromisedWorld self.old → IsClockPromisedWorld self.new }
        ensures clock { IsClockPromisedWorld self.old →
            self.new.host.clock ≡ Some self.old.board.state.clock }
        ensures in_turn { IsInTurnWorld self.old → IsInTurnWorld self.new }
        ensures awaited { IsInTurnWorld self.old → self.new.host.awaited ≡ [] }
    {
        healing::promised_worlds_heal();
        healing::clocks_heal();
        healing::awaited_replies_come();
        self.work();
        let mut done = 0;
        while self.settle_once() {
            done += 1;
        }
        self.holds_unfinished();
        done
    }

    // The world is sane, and its lines have room.
    fn is_faulty(&self)
        ensures { IsFaultyWorld self.now }
    {
        // the facts of each world are known once one of its fields is read
        self.up.is_empty();
    }

    /// Returns whether both lines are empty, the host has nothing unread, and the board has no part
    /// of a command and owes nothing.
    ///
    /// A quiet world is in step, whatever failed. If it is promised to heal, the host's picture is
    /// the board's position, and if its clock is promised, the host's clock is the board's. If each
    /// awaited reply was yet to be heard, none is awaited.
    pub fn quiet(&self) -> bool
        ensures quiet { IsTrue result ↔ IsQuietWorld self.now }
        ensures in_step { IsTrue result → IsInStep self.now }
        ensures picture { IsTrue result → IsPromisedWorld self.now →
            self.now.host.picture ≡ Some self.now.board.state.squares }
        ensures clock { IsTrue result → IsClockPromisedWorld self.now →
            self.now.host.clock ≡ Some self.now.board.state.clock }
        ensures awaited { IsTrue result → IsInTurnWorld self.now → self.now.host.awaited ≡ [] }
    {
        healing::promised_worlds_heal();
        healing::awaited_replies_come();
        healing::worlds_are_in_step();
        healing::clocks_heal();
        self.is_faulty();
        self.is_quiet()
    }

    fn is_quiet(&self) -> bool
        ensures { IsTrue result ↔ IsQuietWorld self.now }
    {
        self.up.is_empty()
            && self.down.is_empty()
            && self.host.unread() == 0
            && self.board.partial() == 0
            && !self.board.owes()
    }

    /// The board.
    pub fn board(&self) -> &Board
        ensures { result.now ≡ self.now.board }
    {
        &self.board
    }

    /// The host.
    ///
    /// While garbage is under way, its picture may be wrong. Once it has heard a dump after the
    /// garbage, its picture is what the board had reported when it sent the last message that was
    /// heard. The messages still under way update it to what the board has reported by now.
    pub fn host(&self) -> &Host
        ensures host { result.now ≡ self.now.host }
        ensures reported { (garbage : List ℕ) (x : MachineState) → StandsBehind garbage self.now x →
            IsSome x.picture → (self.now.host.picture ≡ x.picture)
            × (picture_after_all self.now.host.picture x.up
            ≡ Some self.now.board.state.reported_squares) }
    {
        healing::pictures_were_reported();
        &self.host
    }

    /// How many bytes are in the line from the board to the host.
    pub fn up_len(&self) -> usize
        ensures { result ≡ length self.now.up.bytes }
    {
        self.up.len()
    }

    /// How many bytes are in the line from the host to the board.
    pub fn down_len(&self) -> usize
        ensures { result ≡ length self.now.down.bytes }
    {
        self.down.len()
    }
}
