//! Laws of lists of bytes that a board sends. Each function does nothing at run time: its contract
//! states a fact.

ghost use Rattle.std.specs.Prelude.{◌≡◌, ◌<◌, ◌≤◌, ◌+◌, ℕ, List, [], ◌∷◌, ◌++◌, length, map, Option};
ghost use Rattle.std.specs.List.{AllByRecursion, concat};
ghost use Rattle.dgt_values.specs.Equality.{CloneIsSame, EqualIsSame, EqualIsSameRead};
ghost use Rattle.dgt_message.specs.Content.{Content, IsMessage};
ghost use Rattle.dgt_message.specs.Encoding.{Encodes, encoding};
ghost use Rattle.dgt_decode.specs.Feeding.{FirstEvent, event_content, fed_content};
ghost use Rattle.dgt_decode.specs.Grammar.{Event as EventSaid, Message, at_place, cut_of, events, shifted, lead, unfinished_message, segments};
ghost use Rattle.dgt_decode.specs.Laws.{AreCalls, BeginsAnew, Call, CutsInto, EventsAppend, UnfinishedAppend, UnfinishedIsPart, UnfinishedIsQuiet, ChunksAdd, PlacesAdd, QuietHeld, Sent, EncodingIsRead, arrivals, events_in_chunks, events_of_chunks, sent_bytes, used_bytes};

use crate::decoder::{Fed, Unfinished};
use crate::event::{Event, Found};
use crate::framer::{Advanced, MAX_TOTAL};
use dgt_message::laws as messages;

/// The limits by their numbers.
pub fn limits()
    ensures { MAX_TOTAL ≡ 16383 }
{}

/// Two values are equal by `==` exactly if they are the same. For an event, what it reports counts,
/// and not the address of its bytes.
pub fn equal_is_same()
    ensures unfinished { EqualIsSame ⟦<Unfinished as PartialEq>⟧.eq }
    ensures found { EqualIsSame ⟦<Found as PartialEq>⟧.eq }
    ensures advanced { EqualIsSame ⟦<Advanced as PartialEq>⟧.eq }
    ensures event { EqualIsSameRead event_content ⟦<Event<'static> as PartialEq>⟧.eq }
    ensures fed { EqualIsSameRead fed_content ⟦<Fed<'static> as PartialEq>⟧.eq }
{
    messages::equal_is_same();
}

/// A clone is the value itself, and cloning never fails.
pub fn clone_is_same()
    ensures unfinished { CloneIsSame ⟦<Unfinished as Clone>⟧ }
    ensures found { CloneIsSame ⟦<Found as Clone>⟧ }
    ensures advanced { CloneIsSame ⟦<Advanced as Clone>⟧ }
    ensures event { CloneIsSame ⟦<Event<'static> as Clone>⟧ }
    ensures fed { CloneIsSame ⟦<Fed<'static> as Clone>⟧ }
{}

/// A list, cut before each byte with a set top bit, is a seven-bit lead and segments. It can be
/// divided in no other way.
pub fn one_cut()
    ensures cuts { (s : List ℕ) → CutsInto (lead s) (segments s) s }
    ensures once { (s prefix : List ℕ) (parts : List (List ℕ)) →
        CutsInto prefix parts s → (prefix ≡ lead s) × (parts ≡ segments s) }
{}

/// The events of a list are those of any prefix, followed by those of the prefix's unfinished
/// message and the rest. Later bytes therefore change no event.
pub fn events_append()
    ensures { EventsAppend }
{}

/// Of the earlier bytes, only the unfinished message affects what is unfinished later.
pub fn unfinished_append()
    ensures { UnfinishedAppend }
{}

/// An unfinished message is part of the bytes received.
pub fn unfinished_is_part()
    ensures { UnfinishedIsPart }
{}

/// Places add up. After no bytes, events keep their places. Moving events by two lists of bytes
/// moves them by both lists in a row, and each event is moved by itself.
pub fn places_add()
    ensures { PlacesAdd }
{}

/// No byte completes two events.
pub fn one_event()
    ensures { (s : List ℕ) (b : ℕ) → length (events (unfinished_message s ++ b ∷ [])) ≤ 1 }
{}

/// Until the first event, every byte is held.
pub fn quiet_held()
    ensures { QuietHeld }
{}

/// What is unfinished completes no event, and without further bytes nothing changes.
pub fn unfinished_is_quiet()
    ensures { UnfinishedIsQuiet }
{}

/// An unfinished message is shorter than the longest message.
pub fn unfinished_is_short()
    ensures { (s : List ℕ) → length (unfinished_message s) < MAX_TOTAL }
{}

/// A byte with a set top bit starts over, whatever was received before. Its only effect on that is
/// to cut off an unfinished message.
pub fn begins_anew()
    ensures { BeginsAnew }
{}

/// After any bytes, encoded messages in a row are read whole, each at its last byte, and nothing
/// stays unfinished. The only effect of the earlier bytes: the first message may cut off one of
/// theirs.
pub fn recovery()
    ensures { (s : List ℕ) (m : Sent) (more : List Sent) →
        AllByRecursion (λ m. Encodes m.said m.bytes) (m ∷ more) →
        (events (s ++ sent_bytes (m ∷ more))
        ≡ events s ++ shifted (length s) (cut_of (unfinished_message s))
        ++ shifted (length s) (arrivals (m ∷ more)))
        × (unfinished_message (s ++ sent_bytes (m ∷ more)) ≡ []) }
{
    messages::encoded_is_read();
}

/// What `encode` writes of a message is read as this message, whatever was received before.
pub fn encoding_is_read()
    ensures { EncodingIsRead }
{
    messages::encoded_is_read();
    messages::encoding_encodes();
}

/// For a reader that holds some bytes, each chunk has one answer.
pub fn one_first_event()
    ensures { (held chunk : List ℕ) (j k : ℕ) (x y : Option EventSaid) →
        FirstEvent held chunk j x → FirstEvent held chunk k y → (j ≡ k) × (x ≡ y) }
{}

/// However bytes are cut into chunks, also of one byte or none, the events are those of all bytes
/// in a row.
pub fn in_any_chunks()
    ensures { (s : List ℕ) (calls : List Call) → AreCalls (unfinished_message s) calls →
        events (s ++ used_bytes calls) ≡ events s ++ events_in_chunks (length s) calls }
{}

/// What `encode` writes of a message is read as this message, at its last byte, however it is cut
/// into chunks and whatever was received before.
pub fn encoding_in_chunks()
    ensures { (s : List ℕ) (said : Content) (calls : List Call) →
        IsMessage said → AreCalls (unfinished_message s) calls → used_bytes calls ≡ encoding said →
        events_in_chunks (length s) calls
        ≡ shifted (length s) (cut_of (unfinished_message s))
        ++ at_place (length s + length (encoding said)) (Message said) ∷ [] }
{
    messages::encoded_is_read();
    messages::encoding_encodes();
}

/// The events of chunks, one after another, are those of the bytes in a row.
pub fn chunks_in_a_row()
    ensures add { ChunksAdd }
    ensures any { (s : List ℕ) (chunks : List (List ℕ)) → events (s ++ concat chunks)
        ≡ events s ++ events_of_chunks (length s) (unfinished_message s) chunks }
{}

/// A reader that holds an unfinished message has one answer to any chunks: there are calls with
/// these chunks, and no others.
pub fn one_answer_in_chunks()
    ensures some { (s : List ℕ) (chunks : List (List ℕ)) → (calls : List Call)
        × (map (λ call. call.chunk) calls ≡ chunks) × AreCalls (unfinished_message s) calls }
    ensures one { (held : List ℕ) (first second : List Call) →
        AreCalls held first → AreCalls held second →
        map (λ call. call.chunk) first ≡ map (λ call. call.chunk) second → first ≡ second }
{}
