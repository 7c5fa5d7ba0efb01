//! Laws of a host, for all bytes that it may receive. Each function does nothing at run time: its
//! contract states a fact.

ghost use Rattle.std.specs.Prelude.{◌≡◌, ◌≤◌, ◌+◌, ◌++◌, ℕ, Bool, List, [], ◌∷◌, Option, None, Some, IsTrue, false, flat_map, length, option_to_list, true, Result};
ghost use Rattle.std.specs.List.{AllByRecursion};
ghost use Rattle.dgt_values.specs.declared.pieces.Piece.{Piece};
ghost use Rattle.dgt_values.specs.Equality.{CloneIsSame, EqualIsSame, EqualIsSameRead};
ghost use Rattle.dgt_message.specs.Content.{Content, IsMessage};
ghost use Rattle.dgt_message.specs.Encoding.{encoding};
ghost use Rattle.dgt_decode.specs.Feeding.{event_content_if_any};
ghost use Rattle.dgt_decode.specs.Grammar.{Event, Placed, shifted, unfinished_message};
ghost use Rattle.dgt_message.specs.Picture.{clock_after_all, picture_after_all};
ghost use Rattle.dgt_host.specs.Confirmed.{Ends, ChangesIsExact, ConfirmedByDump, ConfirmedIsReported, ConfirmedWasReported, FaultlessIsRight, IsRight, LateFaultsSuffice, LeavingIsExact, Passage, StretchIsOne, TwoFaultsSuffice, UnconfirmedIsWrong, changes, confirmed_after, faults_after, heard_in, repeats, sent_in, AllLeave, faults_after_all, heard, sent};
ghost use Rattle.dgt_host.specs.declared.sending.SendFault.{SendFault as Fault};
ghost use Rattle.dgt_host.specs.Host.{HeardInChunks, HostView, Request, Sends, host_after, host_after_events, host_after_message};

use crate::{Heard, Kind, MAX_AWAITED, RESTART_LENGTH, SendFault};

/// The limits by their numbers.
pub fn limits()
    ensures awaited { MAX_AWAITED ≡ 16 }
    ensures restart { RESTART_LENGTH ≡ 257 }
{}

/// Two values are equal by `==` exactly if they are the same. For an event, what it reports counts,
/// and not the address of its bytes.
pub fn equal_is_same()
    ensures kind { EqualIsSame ⟦<Kind as PartialEq>⟧.eq }
    ensures send_fault { EqualIsSame ⟦<SendFault as PartialEq>⟧.eq }
    ensures heard { EqualIsSameRead {Read = ℕ × Option Event × Bool × Bool}
        (λ heard. (heard.used, event_content_if_any heard.event, heard.unasked, heard.changed))
        ⟦<Heard<'static> as PartialEq>⟧.eq }
{
    dgt_decode::laws::equal_is_same();
}

/// A clone is the value itself, and cloning never fails.
pub fn clone_is_same()
    ensures kind { CloneIsSame ⟦<Kind as Clone>⟧ }
    ensures send_fault { CloneIsSame ⟦<SendFault as Clone>⟧ }
    ensures heard { CloneIsSame ⟦<Heard<'static> as Clone>⟧ }
{}

/// Hearing bytes in two chunks is the same as hearing them in one.
pub fn heard_in_chunks()
    ensures { HeardInChunks }
{
    dgt_decode::laws::events_append();
    dgt_decode::laws::unfinished_append();
}

/// A host that hears nothing stays as it is. The unread bytes of a host are those of an unfinished
/// message, as `Host::unread` says.
pub fn nothing_heard()
    ensures { (host : HostView) → unfinished_message host.unread ≡ host.unread →
        host_after host [] ≡ host }
{
    dgt_decode::laws::unfinished_is_quiet();
}

/// The places of events don't affect a host.
pub fn places_do_not_matter()
    ensures { (host : HostView) (places : ℕ) (events : List Placed)
        → host_after_events host (shifted places events) ≡ host_after_events host events }
{}

/// What `encode` writes of a message is heard as this message, whatever the host has heard before:
/// part of a message, or one that the line has altered. Messages in a row are therefore heard one
/// after another. A dump sets the picture, and the messages after it change it.
pub fn messages_are_heard()
    ensures whole { (host : HostView) (bytes : List ℕ) (said : Content) → IsMessage said →
        host_after host (bytes ++ encoding said)
        ≡ record (host_after_message (host_after host bytes) said) { unread = [] } }
    ensures picture { (host : HostView) (bytes : List ℕ) (said : List Content) →
        AllByRecursion IsMessage said → (host_after host (bytes ++ flat_map encoding said)).picture
        ≡ picture_after_all (host_after host bytes).picture said }
    ensures clock { (host : HostView) (bytes : List ℕ) (said : List Content) →
        AllByRecursion IsMessage said → (host_after host (bytes ++ flat_map encoding said)).clock
        ≡ clock_after_all (host_after host bytes).clock said }
    ensures dump { (host : HostView) (bytes : List ℕ) (pieces : List Piece) (said : List Content) →
        length pieces ≡ 64 → AllByRecursion IsMessage said →
        (host_after host (bytes ++ flat_map encoding (Content.dump pieces ∷ said))).picture
        ≡ picture_after_all (Some pieces) said }
{
    dgt_decode::laws::encoding_is_read();
}

/// A message counts as changing a picture exactly if the picture was known and differs afterwards.
pub fn changes_are_exact()
    ensures { ChangesIsExact }
{}

/// What a confirmed picture is, after at most one fault of the line: if that happened since the
/// last whole dump, the picture is what the board had reported when it sent the confirming dump. It
/// is all that the board has reported if the board has repeated that. Messages after the confirming
/// dump may be of any kind that leaves the picture as it is.
pub fn one_fault_is_seen()
    ensures was { ConfirmedWasReported }
    ensures is { ConfirmedIsReported }
    ensures dump { ConfirmedByDump }
    ensures right { FaultlessIsRight }
    ensures leave { LeavingIsExact }
{}

/// So it is if the dump that confirms is the only fault since the last whole dump: then the picture
/// is what the board had reported before.
pub fn a_faulty_dump_confirms()
    ensures { (reported pieces : List Piece) (shown : Option (List Piece))
        (earlier later : List Passage) (meant : Option Content) → IsRight reported shown →
        IsTrue (repeats (picture_after_all shown (heard earlier)) pieces) →
        AllLeave pieces (heard later) → faults_after_all 0 earlier ≡ 0 →
        picture_after_all shown
        (heard (earlier ++ Passage.Faulty meant (Some (Content.dump pieces)) ∷ later))
        ≡ picture_after_all (Some reported) (sent earlier) }
{}

/// Whatever bytes are between whole messages, the messages before and after them are heard. Bytes
/// that contain at most one message, and replace at most one, are therefore one faulty passage.
pub fn faulty_bytes_are_a_passage()
    ensures { StretchIsOne }
{
    dgt_decode::laws::encoding_is_read();
    dgt_decode::laws::events_append();
    dgt_decode::laws::unfinished_append();
}

/// A picture is confirmed only by a dump that repeats it. Another dump ends that, and so does a
/// field update that changes the picture.
pub fn what_confirms()
    ensures unknown { (pieces : List Piece) →
        confirmed_after true None (Content.dump pieces) ≡ false }
    ensures repeated { (known pieces : List Piece) → repeats (Some known) pieces ≡ true →
        confirmed_after false (Some known) (Content.dump pieces) ≡ true }
    ensures another { (known pieces : List Piece) → repeats (Some known) pieces ≡ false →
        confirmed_after true (Some known) (Content.dump pieces) ≡ false }
    ensures changed { (known : List Piece) (square : ℕ) (piece : Piece) →
        changes (Some known) (Content.field square piece) ≡ true →
        confirmed_after true (Some known) (Content.field square piece) ≡ false }
    ensures kept { (known : List Piece) (square : ℕ) (piece : Piece) →
        changes (Some known) (Content.field square piece) ≡ false →
        confirmed_after true (Some known) (Content.field square piece) ≡ true }
{}

/// What counts as a fault, and which picture is right. A whole dump restarts the count.
pub fn faults_in_passages()
    ensures dump { (faults : ℕ) (pieces : List Piece) →
        faults_after faults (Passage.Whole (Content.dump pieces)) ≡ 0 }
    ensures whole { (faults square : ℕ) (piece : Piece) →
        faults_after faults (Passage.Whole (Content.field square piece)) ≡ faults }
    ensures faulty { (faults : ℕ) (sent heard : Option Content) →
        faults_after faults (Passage.Faulty sent heard) ≡ faults + 1 }
    ensures sent { (meant heard : Option Content) →
        sent_in (Passage.Faulty meant heard) ≡ option_to_list meant }
    ensures heard { (meant heard : Option Content) →
        heard_in (Passage.Faulty meant heard) ≡ option_to_list heard }
    ensures unknown { (reported : List Piece) → IsRight reported None }
    ensures same { (reported : List Piece) → IsRight reported (Some reported) }
{}

/// Two faults can make a confirmed picture wrong, and one can make an unconfirmed one wrong. A
/// change that is lost after the dump is noticed only at the next dump.
pub fn more_faults_are_not()
    ensures two { TwoFaultsSuffice }
    ensures late { LateFaultsSuffice }
    ensures unconfirmed { UnconfirmedIsWrong }
{}

/// Sending has one outcome: what was to be sent, the host and the slice determine the result, the
/// host after it and the bytes of the slice.
pub fn one_sending()
    ensures { (sent : Request) (before after other : HostView) (old new also : List ℕ)
        (result found : Result ℕ Fault) → Sends sent before after old new result →
        Sends sent before other old also found →
        (result ≡ found) × (after ≡ other) × (new ≡ also) }
{}

/// If at most one fault ends with both sides confirmed, the host shows what the board has reported.
pub fn few_faults_end_right()
    ensures { (start : List Piece) (line : List Passage) (faults : ℕ) (reported shown : List Piece)
        → faults ≤ 1 → Ends start line faults true true reported shown → shown ≡ reported }
{}
