//! Laws of the messages and their encodings. Each function does nothing at run time: its contract
//! states a fact.

ghost use Rattle.std.specs.Prelude.{◌≡◌, ◌≢◌, ◌≤◌, ◌<◌, ◌+◌, ◌-◌, ◌*◌, ◌∷◌, ◌++◌, ◌↔◌, ◌⊎◌, ℕ, IsTrue, List, [], drop, length, map};
ghost use Rattle.std.specs.Prelude.{◌/◌, ◌%◌, All, replicate, slice_index, slice_set, Option, None, Some, Result, Ok, Err};
ghost use Rattle.std.specs.Result.{result_map_both};
ghost use Rattle.dgt_values.specs.Board.{piece_code};
ghost use Rattle.dgt_values.specs.Bytes.{AreSevenBit};
ghost use Rattle.dgt_values.specs.declared.pieces.Piece.{Piece};
ghost use Rattle.dgt_values.specs.declared.kinds.Kind.{Kind};
ghost use Rattle.dgt_values.specs.Equality.{CloneIsSame, EqualIsSame, EqualIsSameRead};
ghost use Rattle.dgt_message.specs.declared.known.KnownCode.{KnownCode};
ghost use Rattle.dgt_message.specs.declared.message.Message.{Message as MessageSaid};
ghost use Rattle.dgt_message.specs.declared.viewing.BodyFault.{BodyFault};
ghost use Rattle.dgt_message.specs.Clock.{absence_of, clock_eq, time_eq, time_of, times_of, Absence, Answer, ClockState, IsMarked, IsTime, SaysNoClock, Time, Times as BothTimes};
ghost use Rattle.dgt_message.specs.Code.{known_number, known_with};
ghost use Rattle.dgt_message.specs.Content.{absence_seen, answer_seen, answered_kind, clock_seen, code_number, code_of, content, status_code, time_seen, times_seen, Content, IsCarried, IsMessage};
ghost use Rattle.dgt_message.specs.Layout.{Column};
ghost use Rattle.dgt_message.specs.Picture.{clock_after_all, picture_after_all};
ghost use Rattle.dgt_message.specs.Reading.{is_allowed, piece_with_code, reading, Allows, IsFaultOf, Views};
ghost use Rattle.dgt_message.specs.Encoding.{ack_in, message_bytes, encoding, time_bytes, Fits, Encodes, HasHeader};

use crate::clock::{Clock, ClockAck, NoClock, NotThisKind, Times};
use crate::known::KnownCode;
use crate::message::Message;
use crate::other::OtherCode;
use crate::readings::{BadDigits, Reading, Status};
use crate::viewing::BodyFault;

/// Two values are equal by `==` exactly if they mean the same. For a body its bytes count, and not
/// their address.
pub fn equal_is_same()
    ensures reading { EqualIsSameRead time_seen ⟦<Reading as PartialEq>⟧.eq }
    ensures status { EqualIsSameRead status_code ⟦<Status as PartialEq>⟧.eq }
    ensures times { EqualIsSameRead times_seen ⟦<Times as PartialEq>⟧.eq }
    ensures no_clock { EqualIsSameRead absence_seen ⟦<NoClock as PartialEq>⟧.eq }
    ensures clock { EqualIsSameRead clock_seen ⟦<Clock as PartialEq>⟧.eq }
    ensures ack { EqualIsSameRead answer_seen ⟦<ClockAck as PartialEq>⟧.eq }
    ensures other_code { EqualIsSameRead code_number ⟦<OtherCode as PartialEq>⟧.eq }
    ensures known_code { EqualIsSame ⟦<KnownCode as PartialEq>⟧.eq }
    ensures message { EqualIsSameRead content ⟦<Message<'static> as PartialEq>⟧.eq }
    ensures body_fault { EqualIsSame ⟦<BodyFault as PartialEq>⟧.eq }
    ensures not_this_kind { EqualIsSame ⟦<NotThisKind as PartialEq>⟧.eq }
    ensures bad_digits { EqualIsSame ⟦<BadDigits as PartialEq>⟧.eq }
    ensures time_report { EqualIsSame time_eq }
    ensures clock_report { EqualIsSame clock_eq }
{}

/// A clone is the value itself, and cloning never fails.
pub fn clone_is_same()
    ensures reading { CloneIsSame ⟦<Reading as Clone>⟧ }
    ensures status { CloneIsSame ⟦<Status as Clone>⟧ }
    ensures times { CloneIsSame ⟦<Times as Clone>⟧ }
    ensures no_clock { CloneIsSame ⟦<NoClock as Clone>⟧ }
    ensures clock { CloneIsSame ⟦<Clock as Clone>⟧ }
    ensures ack { CloneIsSame ⟦<ClockAck as Clone>⟧ }
    ensures other_code { CloneIsSame ⟦<OtherCode as Clone>⟧ }
    ensures known_code { CloneIsSame ⟦<KnownCode as Clone>⟧ }
    ensures message { CloneIsSame ⟦<Message<'static> as Clone>⟧ }
    ensures body_fault { CloneIsSame ⟦<BodyFault as Clone>⟧ }
    ensures not_this_kind { CloneIsSame ⟦<NotThisKind as Clone>⟧ }
    ensures bad_digits { CloneIsSame ⟦<BadDigits as Clone>⟧ }
{}

/// Each number belongs to at most one known code, and each known code is found by its number.
pub fn a_number_has_one_code()
    ensures { (number : ℕ) (code : KnownCode)
        → (known_with number ≡ Some code) ↔ (number ≡ known_number code) }
{}

/// For each code and each body, exactly one message fits or exactly one fault does.
pub fn one_reading()
    ensures some { (code : ℕ) (body : List ℕ) → code < 128 → IsCarried body
        → ((said : Content) × Fits said code body) ⊎ ((why : BodyFault) × IsFaultOf code body why) }
    ensures one_message { (code : ℕ) (body : List ℕ) (first second : Content)
        → Fits first code body → Fits second code body → first ≡ second }
    ensures one_fault { (code : ℕ) (body : List ℕ) (first second : BodyFault)
        → IsFaultOf code body first → IsFaultOf code body second → first ≡ second }
    ensures not_both { (code : ℕ) (body : List ℕ) (said : Content) (why : BodyFault)
        → Fits said code body → ¬ (IsFaultOf code body why) }
{}

/// No bytes encode two messages, and the encoding of a message is never a prefix of another
/// message's.
pub fn encoded_once()
    ensures one_message { (bytes : List ℕ) (first second : Content)
        → Encodes first bytes → Encodes second bytes → first ≡ second }
    ensures none_longer { (bytes more : List ℕ) (first second : Content)
        → Encodes first bytes → Encodes second (bytes ++ more) → more ≡ [] }
{}

/// The reading of a code and a body is the message that fits them, or the fault of the body.
pub fn reading_is_exact()
    ensures message { (code : ℕ) (body : List ℕ) (said : Content) → code < 128 → IsCarried body
        → (reading code body ≡ Ok said) ↔ Fits said code body }
    ensures fault { (code : ℕ) (body : List ℕ) (why : BodyFault) → code < 128 → IsCarried body
        → (reading code body ≡ Err why) ↔ IsFaultOf code body why }
{}

/// A message fits a code and a body exactly if the whole bytes with this code and this body encode
/// it.
pub fn fits_if_encoded()
    ensures { (code : ℕ) (body : List ℕ) (said : Content) → code < 128 → IsCarried body
        → Fits said code body ↔ Encodes said (message_bytes code body) }
{}

/// What `encode` writes for a message encodes it.
pub fn encoding_encodes()
    ensures { (said : Content) → IsMessage said → Encodes said (encoding said) }
{}

/// The bytes of a message are read as this message.
pub fn encoded_is_read()
    ensures { (said : Content) (bytes : List ℕ)
        → Encodes said bytes → reading (slice_index bytes 0 - 128) (drop 3 bytes) ≡ Ok said }
{}

/// A body has a wrong size if its code fixes another length. That is 64 bytes for a dump, 7 for a
/// clock message, 2 for a field update, 5 for a serial number and 2 for a version.
#[tactic(auto, unfolding(crate::specs::Reading::reading))]
pub fn one_size()
    ensures dump { (body : List ℕ) → length body ≢ 64
        → reading 0x06 body ≡ Err BodyFault.WrongSize }
    ensures clock { (body : List ℕ) → length body ≢ 7
        → reading 0x0d body ≡ Err BodyFault.WrongSize }
    ensures field { (body : List ℕ) → length body ≢ 2
        → reading 0x0e body ≡ Err BodyFault.WrongSize }
    ensures serial { (body : List ℕ) → length body ≢ 5
        → reading 0x11 body ≡ Err BodyFault.WrongSize }
    ensures version { (body : List ℕ) → length body ≢ 2
        → reading 0x13 body ≡ Err BodyFault.WrongSize }
{}

/// Under every other code a body is carried unread, whatever its bytes are.
pub fn other_bodies_are_carried()
    ensures { (code : ℕ) (body : List ℕ) → code ≢ 0x06 → code ≢ 0x0d → code ≢ 0x0e
        → code ≢ 0x11 → code ≢ 0x13 → reading code body ≡ Ok (Content.carried code body) }
{}

/// The header of a message: the first byte is 128 plus the code, the other two have a clear top
/// bit, and these two encode the length of the whole.
pub fn headers()
    ensures first { (said : Content) (bytes : List ℕ)
        → Encodes said bytes → slice_index bytes 0 ≡ 128 + code_of said }
    ensures later { (said : Content) (bytes : List ℕ)
        → Encodes said bytes → AreSevenBit (drop 1 bytes) }
    ensures total { (said : Content) (bytes : List ℕ)
        → Encodes said bytes → 128 * slice_index bytes 1 + slice_index bytes 2 ≡ length bytes }
    ensures exact { (code first high low : ℕ) (body : List ℕ)
        → HasHeader code (first ∷ high ∷ low ∷ body)
        ↔ (first ≡ 128 + code) × (128 * high + low ≡ length body + 3) × (length body ≤ 16380)
        × AreSevenBit (high ∷ low ∷ body) }
    ensures written { (code : ℕ) (body : List ℕ) → code < 128 → IsCarried body
        → HasHeader code (message_bytes code body) }
    ensures whole { (said : Content) (first high low : ℕ) (body : List ℕ)
        → Encodes said (first ∷ high ∷ low ∷ body)
        ↔ HasHeader (code_of said) (first ∷ high ∷ low ∷ body) × Fits said (code_of said) body }
{}

/// The kinds of messages by their codes: clock messages, field updates and other messages have no
/// kind.
pub fn kinds_by_code()
    ensures answers { (body : List ℕ) → map (λ code. answered_kind (Content.carried code body))
        (0x06 ∷ 0x11 ∷ 0x12 ∷ 0x13 ∷ 0x20 ∷ 0x22 ∷ []) ≡ map Some (Kind.Dump ∷ Kind.Serial
        ∷ Kind.Trademark ∷ Kind.Version ∷ Kind.Battery ∷ Kind.LongSerial ∷ []) }
    ensures none { (body : List ℕ) → map (λ code. answered_kind (Content.carried code body))
        (0x0d ∷ 0x0e ∷ 0x23 ∷ []) ≡ None ∷ None ∷ None ∷ [] }
{}

/// A result views a code and a body exactly if it is their reading.
pub fn views_are_readings()
    ensures { (code : ℕ) (body : List ℕ) (result : Result MessageSaid BodyFault)
        → code < 128 → IsCarried body
        → Views code body result
        ↔ (reading code body ≡ result_map_both content (λ why. why) result) }
{}

/// A dump sets the picture of the board, a field update sets one square of it, and the clock is the
/// last one that was reported. Other messages leave both as they are.
pub fn what_messages_report()
    ensures picture { (before : Option (List Piece)) (pieces : List Piece) (square : ℕ)
        (piece : Piece) (absence : Absence) → picture_after_all before
        (Content.dump pieces ∷ Content.no_clock absence ∷ Content.field square piece ∷ [])
        ≡ Some (slice_set pieces square piece) }
    ensures clock { (before : Option ClockState) (readings : BothTimes) (absence : Absence)
        (pieces : List Piece) → clock_after_all before
        (Content.no_clock absence ∷ Content.times readings ∷ Content.dump pieces ∷ [])
        ≡ Some (ClockState.times readings) }
    ensures no_clock { (before : Option ClockState) (readings : BothTimes) (absence : Absence)
        → clock_after_all before (Content.times readings ∷ Content.no_clock absence ∷ [])
        ≡ Some (ClockState.no_clock absence) }
{}

/// A piece is the one with its code, and a byte is found valid in a column exactly if it is.
pub fn bytes_are_read()
    ensures piece { (piece : Piece) → piece_with_code (piece_code piece) ≡ piece }
    ensures valid { (column : Column) (byte : ℕ)
        → IsTrue (is_allowed column byte) ↔ Allows column byte }
{}

/// What some bodies mean, and the first fault of others.
#[tactic(auto, unfolding(crate::specs::Reading::reading))]
pub fn bodies_read()
    ensures dump { reading 0x06 (replicate 63 0 ++ 15 ∷ [])
        ≡ Ok (Content.dump (replicate 63 Piece.Empty ++ Piece.ThirdExtra ∷ [])) }
    ensures bad_dump { reading 0x06 (16 ∷ replicate 63 0) ≡ Err (BodyFault.BadPiece 0) }
    ensures field { (square : ℕ) (piece : Piece) → square < 64
        → reading 0x0e (square ∷ piece_code piece ∷ []) ≡ Ok (Content.field square piece) }
    ensures bad_square { (square code : ℕ) → 64 ≤ square
        → reading 0x0e (square ∷ code ∷ []) ≡ Err (BodyFault.BadSquare 0) }
    ensures bad_piece { (square code : ℕ) → square < 64 → 16 ≤ code
        → reading 0x0e (square ∷ code ∷ []) ≡ Err (BodyFault.BadPiece 1) }
    ensures times { reading 0x0d (0x79 ∷ 0x59 ∷ 0x48 ∷ 0x61 ∷ 0x10 ∷ 0x20 ∷ 0x5f ∷ [])
        ≡ Ok (Content.times (times_of (time_of 9 59 48 7) (time_of 1 10 20 6) 0x5f)) }
    ensures bad_hours { reading 0x0d (0 ∷ 0 ∷ 0 ∷ 0x0b ∷ 0 ∷ 0 ∷ 0 ∷ [])
        ≡ Err (BodyFault.BadReading 3) }
    ensures bad_minutes { reading 0x0d (0 ∷ 0x60 ∷ 0 ∷ 0 ∷ 0 ∷ 0 ∷ 0 ∷ [])
        ≡ Err (BodyFault.BadReading 1) }
    ensures bad_seconds { reading 0x0d (0 ∷ 0 ∷ 0 ∷ 0 ∷ 0 ∷ 0x0a ∷ 0 ∷ [])
        ≡ Err (BodyFault.BadReading 5) }
    ensures no_clock { reading 0x0d (1 ∷ 2 ∷ 3 ∷ 4 ∷ 5 ∷ 6 ∷ 0x20 ∷ []) ≡ Ok (Content.no_clock
        (absence_of (1 ∷ 2 ∷ 3 ∷ 4 ∷ 5 ∷ 6 ∷ []) 0x20)) }
    ensures ack { reading 0x0d (0x3a ∷ 1 ∷ 2 ∷ 0x10 ∷ 3 ∷ 4 ∷ 0x20 ∷ []) ≡ Ok (Content.ack
        (record { ack = 129 ∷ 2 ∷ 131 ∷ 132 ∷ []; status = 0x20 })) }
    ensures second_mark { reading 0x0d (0x10 ∷ 1 ∷ 2 ∷ 0x2a ∷ 3 ∷ 4 ∷ 0 ∷ []) ≡ Ok (Content.ack
        (record { ack = 1 ∷ 130 ∷ 131 ∷ 4 ∷ []; status = 0 })) }
    ensures carried { (first second : ℕ) → reading 0x23 (first ∷ second ∷ [])
        ≡ Ok (Content.carried 0x23 (first ∷ second ∷ [])) }
{}

/// The bytes of a message of each kind.
pub fn encodings()
    ensures dump { encoding (Content.dump (replicate 63 Piece.Empty ++ Piece.ThirdExtra ∷ []))
        ≡ 0x86 ∷ 0 ∷ 67 ∷ replicate 63 0 ++ 15 ∷ [] }
    ensures field { (square : ℕ) (piece : Piece) → encoding (Content.field square piece)
        ≡ 0x8e ∷ 0 ∷ 5 ∷ square ∷ piece_code piece ∷ [] }
    ensures times { encoding (Content.times (times_of (time_of 9 59 48 7) (time_of 1 10 20 6) 0x5f))
        ≡ 0x8d ∷ 0 ∷ 10 ∷ 0x79 ∷ 0x59 ∷ 0x48 ∷ 0x61 ∷ 0x10 ∷ 0x20 ∷ 0x5f ∷ [] }
    ensures no_clock { encoding (Content.no_clock (absence_of (1 ∷ 2 ∷ 3 ∷ 4 ∷ 5 ∷ 6 ∷ []) 0x20))
        ≡ 0x8d ∷ 0 ∷ 10 ∷ 1 ∷ 2 ∷ 3 ∷ 4 ∷ 5 ∷ 6 ∷ 0x20 ∷ [] }
    ensures ack { (a b c d status : ℕ)
        → encoding (Content.ack (record { ack = a ∷ b ∷ c ∷ d ∷ []; status = status }))
        ≡ 0x8d ∷ 0 ∷ 10 ∷ (10 + 16 * (c / 128) + 32 * (d / 128)) ∷ a % 128 ∷ b % 128
        ∷ (10 + 16 * (a / 128) + 32 * (b / 128)) ∷ c % 128 ∷ d % 128 ∷ status ∷ [] }
    ensures carried { (code first second : ℕ)
        → encoding (Content.carried code (first ∷ second ∷ []))
        ≡ (128 + code) ∷ 0 ∷ 5 ∷ first ∷ second ∷ [] }
{}

/// A message fits a code and a body exactly if it has this code, its values are in their ranges and
/// the body consists of them.
pub fn what_fits()
    ensures dump { (pieces : List Piece) (code : ℕ) (body : List ℕ)
        → Fits (Content.dump pieces) code body
        ↔ (code ≡ 0x06) × (length pieces ≡ 64) × (body ≡ map piece_code pieces) }
    ensures field { (square code : ℕ) (piece : Piece) (body : List ℕ)
        → Fits (Content.field square piece) code body
        ↔ (code ≡ 0x0e) × (square < 64) × (body ≡ square ∷ piece_code piece ∷ []) }
    ensures times { (first second : Time) (status code : ℕ) (body : List ℕ)
        → Fits (Content.times (times_of first second status)) code body
        ↔ (code ≡ 0x0d) × IsTime first × IsTime second × (status < 128) × ¬ (SaysNoClock status)
        × (body ≡ time_bytes first ++ time_bytes second ++ status ∷ []) }
    ensures no_clock { (raw : List ℕ) (status code : ℕ) (body : List ℕ)
        → Fits (Content.no_clock (absence_of raw status)) code body
        ↔ (code ≡ 0x0d) × (length raw ≡ 6) × AreSevenBit raw × ¬ (IsMarked raw) × (status < 128)
        × SaysNoClock status × (body ≡ raw ++ status ∷ []) }
    ensures ack { (answer : Answer) (code : ℕ) (body : List ℕ) → Fits (Content.ack answer) code body
        ↔ (code ≡ 0x0d) × (length answer.ack ≡ 4) × All (λ byte. byte < 256) answer.ack
        × (answer.status < 128) × (length body ≡ 7) × IsMarked body × (answer.ack ≡ ack_in body)
        × (answer.status ≡ slice_index body 6) }
    ensures carried { (own code : ℕ) (carried body : List ℕ)
        → Fits (Content.carried own carried) code body
        ↔ (code ≡ own) × (own < 128) × (own ≢ 0x06) × (own ≢ 0x0d) × (own ≢ 0x0e)
        × (own ≡ 0x11 → length carried ≡ 5) × (own ≡ 0x13 → length carried ≡ 2)
        × (length carried ≤ 16380) × AreSevenBit carried × (body ≡ carried) }
{}

/// The faults of a field update's body, and of times with two wrong bytes: the first one counts. A
/// body of a wrong size has no other fault.
pub fn faults_of_bodies()
    ensures size { (body : List ℕ) → IsFaultOf 0x0e body BodyFault.WrongSize
        ↔ length body ≢ 2 }
    ensures square { (square code at : ℕ)
        → IsFaultOf 0x0e (square ∷ code ∷ []) (BodyFault.BadSquare at)
        ↔ (64 ≤ square) × (at ≡ 0) }
    ensures piece { (square code at : ℕ)
        → IsFaultOf 0x0e (square ∷ code ∷ []) (BodyFault.BadPiece at)
        ↔ (square < 64) × (16 ≤ code) × (at ≡ 1) }
    ensures size_first { (code : ℕ) (body : List ℕ) (why : BodyFault)
        → IsFaultOf code body BodyFault.WrongSize → IsFaultOf code body why
        → why ≡ BodyFault.WrongSize }
    ensures no_reading { (square code at : ℕ)
        → ¬ (IsFaultOf 0x0e (square ∷ code ∷ []) (BodyFault.BadReading at)) }
    ensures reading { (at : ℕ)
        → IsFaultOf 0x0d (0 ∷ 0x60 ∷ 0 ∷ 0 ∷ 0 ∷ 0x0a ∷ 0 ∷ []) (BodyFault.BadReading at)
        ↔ (at ≡ 1) }
{}
