//! Laws of what a board keeps, sends and has taken. Each function does nothing at run time: its
//! contract states a fact.

ghost use Rattle.std.specs.Prelude.{◌≡◌, ◌↔◌, ◌≤◌, ◌<◌, ◌+◌, ◌∷◌, ◌++◌, ℕ, List, [], Option, Some, None, IfSome, false, length, map, option_map, true};
ghost use Rattle.dgt_values.specs.Equality.{CloneIsSame, EqualIsSame, EqualIsSameReadOf};
ghost use Rattle.dgt_message.specs.Content.{Content, IsMessage, clock_message};
ghost use Rattle.dgt_command.specs.Content.{ClockContent, CommandContent, EventContent, command_event_content};
ghost use Rattle.dgt_command.specs.Equality.{EventHasArrays};
ghost use Rattle.dgt_command.specs.Words.{IsPartial, IsWord};
ghost use Rattle.dgt_board.specs.declared.boards.Taken.{Taken};
ghost use Rattle.dgt_board.specs.declared.modes.Mode.{Mode as BoardMode};
ghost use Rattle.dgt_board.specs.State.{BoardState, IdentityContent, OwesByItsMode, is_reported, owed_when_handed, replies_to, after_hand_clock, after_line_lost, command_mode, effect, effects, follows_clock, new_board, updates, IsKeptBody, IsShortClock, IsShortIdentity};
ghost use Rattle.dgt_message.specs.Clock.{Absence, ClockState, Times};
ghost use Rattle.dgt_values.specs.Bytes.{AreSevenBit};
ghost use Rattle.dgt_values.specs.declared.pieces.Piece.{Piece};
ghost use Rattle.dgt_board.specs.Sending.{after_sending, backlog, clock_news, left_to_send, next_message, piece_on, reply_message, unreported_squares};
ghost use Rattle.dgt_board.specs.declared.replies.Reply.{Reply as BoardReply};
ghost use Rattle.dgt_values.specs.declared.kinds.Kind.{Kind};
ghost use Rattle.dgt_board.specs.View.{BoardView, HasTaken, IsBoard, Polls, after_bytes};
ghost use Rattle.dgt_board.specs.declared.sending.Polled.{Polled as Answer};
ghost use Rattle.std.specs.Prelude.{Bool, IsTrue, drop, not, replicate, slice_set, ◌≢◌};

use crate::{Busy, MAX_KEPT_BODY, MAX_OWED, MAX_SENT, Mode, Polled, Taken, TooLong};

/// The limits by their numbers, and what keeps to them.
pub fn limits()
    ensures owed { MAX_OWED ≡ 8 }
    ensures kept_body { MAX_KEPT_BODY ≡ 64 }
    ensures sent { MAX_SENT ≡ 67 }
    ensures identity { (identity : IdentityContent) → IsShortIdentity identity →
        (length identity.serial ≤ 64) × (length identity.trademark ≤ 64)
        × (length identity.battery ≤ 64) × (length identity.long_serial ≤ 64) }
    ensures clock { (absence : Absence) → IsShortClock (ClockState.no_clock absence) →
        length absence.raw ≤ 63 }
    ensures body { (body : List ℕ) → IsKeptBody body → (length body ≤ 64) × AreSevenBit body }
    ensures board { (board : BoardView) → IsBoard board → (length board.state.squares ≡ 64)
        × (length board.state.reported_squares ≡ 64) × (length board.state.owed ≤ 8)
        × IsPartial board.partial }
{}

/// Two values are equal by `==` exactly if they are the same. For borrowed bytes, the bytes count
/// and not their address.
pub fn equal_is_same()
    ensures mode { EqualIsSame ⟦<Mode as PartialEq>⟧.eq }
    ensures polled { EqualIsSame ⟦<Polled as PartialEq>⟧.eq }
    ensures busy { EqualIsSame ⟦<Busy as PartialEq>⟧.eq }
    ensures too_long { EqualIsSame ⟦<TooLong as PartialEq>⟧.eq }
    ensures taken { EqualIsSameReadOf {T = Taken} {Read = ℕ × Option EventContent}
        (λ taken. IfSome taken.event EventHasArrays)
        (λ taken. (taken.used, option_map command_event_content taken.event))
        ⟦<Taken<'static> as PartialEq>⟧.eq }
{
    dgt_command::laws::equal_is_same();
}

/// A clone is the value itself, and cloning never fails.
pub fn clone_is_same()
    ensures mode { CloneIsSame ⟦<Mode as Clone>⟧ }
    ensures polled { CloneIsSame ⟦<Polled as Clone>⟧ }
    ensures busy { CloneIsSame ⟦<Busy as Clone>⟧ }
    ensures too_long { CloneIsSame ⟦<TooLong as Clone>⟧ }
    ensures taken { CloneIsSame ⟦<Taken<'static> as Clone>⟧ }
{}

/// A board has no next message exactly if no message is left to send, and then it owes no reply.
pub fn nothing_to_send()
    ensures nothing_left { (board : BoardState)
        → (next_message board ≡ None) ↔ (left_to_send board ≡ 0) }
    ensures none_owed { (board : BoardState) → next_message board ≡ None → board.owed ≡ [] }
{}

/// The messages left to send are the owed replies, the squares that an update mode has yet to
/// report, and the clock if it is to be sent. They are at most the replies, 64 squares and the
/// clock. Each message sent leaves fewer.
pub fn bounded_sending()
    ensures parts { (board : BoardState) → left_to_send board
        ≡ length board.owed + length (unreported_squares board) + length (clock_news board) }
    ensures bound { (board : BoardState) → left_to_send board ≤ length board.owed + 65 }
    ensures falls { (board : BoardState) (message : Content) → length board.reported_squares ≡ 64
        → next_message board ≡ Some message
        → left_to_send (after_sending board message) < left_to_send board }
{}

/// Taking two lists of bytes one after the other is the same as taking them as one list.
pub fn takings_append()
    ensures { (before between after : BoardView) (bytes more : List ℕ)
        → HasTaken before bytes between → HasTaken between more after
        → HasTaken before (bytes ++ more) after }
{
    dgt_command::laws::divisions_append();
}

/// Taking bytes leaves a board in one state only.
pub fn one_taking()
    ensures { (before after other : BoardView) (bytes : List ℕ)
        → HasTaken before bytes after → HasTaken before bytes other → after ≡ other }
{
    dgt_command::laws::one_division();
}

/// What a board has taken after bytes that complete a frame, and after a part of one.
pub fn what_is_taken()
    ensures whole { (before : BoardView) (bytes : List ℕ) (event : EventContent)
        → IsWord event (before.partial ++ bytes)
        → HasTaken before bytes (after_bytes before bytes (Some event)) }
    ensures part { (before : BoardView) (bytes : List ℕ) → IsPartial (before.partial ++ bytes)
        → HasTaken before bytes (after_bytes before bytes None) }
{
    dgt_command::laws::parts_of_words();
}

/// A backlog counts the squares that differ in every mode. It is at most the replies, 64 squares
/// and the clock. It falls with each message sent, and rises by at most one with each command
/// taken.
pub fn bounded_backlog()
    ensures bound { (board : BoardState) → backlog board ≤ length board.owed + 65 }
    ensures falls { (board : BoardState) (message : Content) → length board.reported_squares ≡ 64
        → next_message board ≡ Some message
        → backlog (after_sending board message) < backlog board }
    ensures rises { (board : BoardState) (events : List EventContent) →
        backlog (effects board events) ≤ backlog board + length events }
{}

/// Whatever happens to a board, it reports its clock by itself only in a mode that asks for it.
pub fn clock_is_owed_by_the_mode()
    ensures new { (squares : List Piece) (clock : ClockState) (identity : IdentityContent)
        → OwesByItsMode (new_board squares clock identity) }
    ensures handed { (board : BoardState) (clock : ClockState)
        → OwesByItsMode (after_hand_clock board clock) }
    ensures read { (board : BoardState) (event : EventContent)
        → OwesByItsMode board → OwesByItsMode (effect board event) }
    ensures sent { (board : BoardState) (message : Content)
        → OwesByItsMode board → OwesByItsMode (after_sending board message) }
    ensures lost { (board : BoardState) → OwesByItsMode (after_line_lost board) }
{}

/// The modes, idle first and then by the bytes of their commands: which command sets each, and
/// whether it reports the squares and the clock.
pub fn modes()
    ensures set { map command_mode (CommandContent.Reset ∷ CommandContent.Update
        ∷ CommandContent.UpdateBoard ∷ CommandContent.UpdateNice ∷ []) ≡ map Some
        (BoardMode.Idle ∷ BoardMode.Update ∷ BoardMode.UpdateBoard ∷ BoardMode.UpdateNice ∷ []) }
    ensures others { (message : ClockContent) (leds : List ℕ) → map command_mode
        (CommandContent.Clock ∷ CommandContent.Dump ∷ CommandContent.Serial
        ∷ CommandContent.Trademark ∷ CommandContent.Version ∷ CommandContent.Battery
        ∷ CommandContent.LongSerial ∷ CommandContent.ClockMessage message
        ∷ CommandContent.Leds leds ∷ []) ≡ replicate 9 None }
    ensures squares { map updates (BoardMode.Idle ∷ BoardMode.Update ∷ BoardMode.UpdateBoard
        ∷ BoardMode.UpdateNice ∷ []) ≡ false ∷ true ∷ true ∷ true ∷ [] }
    ensures clock { map follows_clock (BoardMode.Idle ∷ BoardMode.Update ∷ BoardMode.UpdateBoard
        ∷ BoardMode.UpdateNice ∷ []) ≡ false ∷ true ∷ false ∷ true ∷ [] }
    ensures handed { (reported : Bool) → map (λ mode. owed_when_handed mode reported)
        (BoardMode.Idle ∷ BoardMode.Update ∷ BoardMode.UpdateBoard ∷ BoardMode.UpdateNice ∷ [])
        ≡ false ∷ true ∷ false ∷ not reported ∷ [] }
{}

/// A board in the idle mode that owes no reply is silent, whatever has changed.
pub fn idle_boards_are_silent()
    ensures { (board : BoardState) → board.mode ≡ BoardMode.Idle → board.owed ≡ []
        → OwesByItsMode board → next_message board ≡ None }
{}

/// Field updates are sent in the order of their squares' numbers: no square with a lower number
/// differs from what was reported.
pub fn fields_rise()
    ensures { (board : BoardState) (square lower : ℕ) (piece : Piece) → board.owed ≡ []
        → next_message board ≡ Some (Content.field square piece) → lower < square
        → piece_on board.squares lower ≡ piece_on board.reported_squares lower }
{}

/// Which bodies and clocks are short enough for the premises of other laws.
pub fn what_is_short()
    ensures identity { (identity : IdentityContent) → length identity.serial ≤ 64
        → length identity.trademark ≤ 64 → length identity.battery ≤ 64
        → length identity.long_serial ≤ 64 → IsShortIdentity identity }
    ensures clock { (absence : Absence) → length absence.raw ≤ 63
        → IsShortClock (ClockState.no_clock absence) }
    ensures times { (readings : Times) → IsShortClock (ClockState.times readings) }
    ensures body { (body : List ℕ) → length body ≤ 64 → AreSevenBit body → IsKeptBody body }
{}

/// What `poll` returns if the version 2.3, `93 00 05 02 03`, is to be sent: with room for six
/// bytes, for five and for four. If nothing is to be sent, it says so and changes nothing.
pub fn what_is_polled()
    ensures wrote { (polled : Answer) (before after : BoardView) (new : List ℕ) → Polls polled
        (Some (Content.carried 0x13 (2 ∷ 3 ∷ []))) before after (1 ∷ 1 ∷ 1 ∷ 1 ∷ 1 ∷ 1 ∷ []) new
        → (polled ≡ Answer.Wrote 5) × (new ≡ 0x93 ∷ 0x00 ∷ 0x05 ∷ 0x02 ∷ 0x03 ∷ 1 ∷ []) }
    ensures sent { (count : ℕ) (before after : BoardView) (message : Content) (old new : List ℕ)
        → Polls (Answer.Wrote count) (Some message) before after old new
        → (after.partial ≡ before.partial)
        × (after.state ≡ after_sending before.state message) × IsMessage message }
    ensures filled { (polled : Answer) (before after : BoardView) (new : List ℕ) → Polls polled
        (Some (Content.carried 0x13 (2 ∷ 3 ∷ []))) before after (1 ∷ 1 ∷ 1 ∷ 1 ∷ 1 ∷ []) new
        → (polled ≡ Answer.Wrote 5) × (new ≡ 0x93 ∷ 0x00 ∷ 0x05 ∷ 0x02 ∷ 0x03 ∷ []) }
    ensures too_short { (polled : Answer) (before after : BoardView) (new : List ℕ) → Polls polled
        (Some (Content.carried 0x13 (2 ∷ 3 ∷ []))) before after (1 ∷ 1 ∷ 1 ∷ 1 ∷ []) new
        → (polled ≡ Answer.NeedRoom 5) × (new ≡ 1 ∷ 1 ∷ 1 ∷ 1 ∷ []) × (after ≡ before) }
    ensures nothing { (polled : Answer) (before after : BoardView) (old new : List ℕ)
        → Polls polled None before after old new
        → (polled ≡ Answer.Nothing) × (after ≡ before) × (new ≡ old) }
{}

/// What replies report: the state at the time of sending.
pub fn what_is_replied()
    ensures requested { (board : BoardState) →
        map (λ kind. reply_message board (BoardReply.Of kind)) (Kind.Dump ∷ Kind.Serial
        ∷ Kind.Trademark ∷ Kind.Version ∷ Kind.Battery ∷ Kind.LongSerial ∷ [])
        ≡ Content.dump board.squares ∷ Content.carried 0x11 board.identity.serial
        ∷ Content.carried 0x12 board.identity.trademark
        ∷ Content.carried 0x13 (board.identity.main ∷ board.identity.sub ∷ [])
        ∷ Content.carried 0x20 board.identity.battery
        ∷ Content.carried 0x22 board.identity.long_serial ∷ [] }
    ensures clock { (board : BoardState)
        → reply_message board BoardReply.Clock ≡ clock_message board.clock }
    ensures acknowledged { (board : BoardState) (id version : ℕ) →
        reply_message board (BoardReply.Ack id version)
        ≡ Content.ack (record { ack = 0x10 ∷ id ∷ version ∷ 0x00 ∷ []; status = 0x00 }) }
{}

/// The replies that a command adds to those owed, and when a mode makes the clock owed.
pub fn what_commands_request()
    ensures owed { (board : BoardState) (command : CommandContent) →
        (effect board (EventContent.Read command)).owed ≡ board.owed ++ replies_to board command }
    ensures requests { (board : BoardState) → map (replies_to board) (CommandContent.Dump
        ∷ CommandContent.Serial ∷ CommandContent.Trademark ∷ CommandContent.Version
        ∷ CommandContent.Battery ∷ CommandContent.LongSerial ∷ CommandContent.Clock ∷ [])
        ≡ map (λ reply. reply ∷ []) (BoardReply.Of Kind.Dump ∷ BoardReply.Of Kind.Serial
        ∷ BoardReply.Of Kind.Trademark ∷ BoardReply.Of Kind.Version ∷ BoardReply.Of Kind.Battery
        ∷ BoardReply.Of Kind.LongSerial ∷ BoardReply.Clock ∷ []) }
    ensures none { (board : BoardState) (leds : List ℕ) → map (replies_to board)
        (CommandContent.Reset ∷ CommandContent.Update ∷ CommandContent.UpdateBoard
        ∷ CommandContent.UpdateNice ∷ CommandContent.Leds leds ∷ []) ≡ replicate 5 [] }
    ensures version { (board : BoardState) (readings : Times) (payload : List ℕ) →
        replies_to (record board { clock = ClockState.times readings })
        (CommandContent.ClockMessage (record { id = 0x09; payload = payload }))
        ≡ BoardReply.Ack 0x09 board.identity.clock_version ∷ [] }
    ensures acknowledged { (board : BoardState) (readings : Times) (message : ClockContent) →
        message.id ≢ 0x09 → replies_to (record board { clock = ClockState.times readings })
        (CommandContent.ClockMessage message) ≡ BoardReply.Ack message.id 0x00 ∷ [] }
    ensures no_clock { (board : BoardState) (absence : Absence) (message : ClockContent) →
        replies_to (record board { clock = ClockState.no_clock absence })
        (CommandContent.ClockMessage message) ≡ [] }
    ensures times { (board : BoardState) →
        (effect board (EventContent.Read CommandContent.UpdateNice)).times_owed
        ≡ not (is_reported board.reported_clock board.clock) }
    ensures reported { (clock other : ClockState) → (is_reported None other ≡ false)
        × (IsTrue (is_reported (Some clock) other) ↔ (clock ≡ other)) }
    ensures in_a_row { (board : BoardState) (first second : EventContent) →
        effects board (first ∷ second ∷ []) ≡ effect (effect board first) second }
{}

/// What a board counts as reported after each message.
pub fn what_is_reported()
    ensures dump { (board : BoardState) (pieces : List Piece) → after_sending board
        (Content.dump pieces) ≡ record board {
          reported_squares = board.squares;
          owed = drop 1 board.owed;
        } }
    ensures field { (board : BoardState) (square : ℕ) (piece : Piece) → after_sending board
        (Content.field square piece) ≡ record board {
          reported_squares =
              slice_set board.reported_squares square (piece_on board.squares square);
          owed = drop 1 board.owed;
        } }
    ensures times { (board : BoardState) (readings : Times) → after_sending board
        (Content.times readings) ≡ record board {
          reported_clock = Some board.clock;
          times_owed = false;
          owed = drop 1 board.owed;
        } }
    ensures no_clock { (board : BoardState) (absence : Absence) (readings : Times) → after_sending
        board (Content.no_clock absence) ≡ after_sending board (Content.times readings) }
    ensures others { (board : BoardState) (code : ℕ) (body : List ℕ) → after_sending board
        (Content.carried code body) ≡ record board { owed = drop 1 board.owed } }
{}
