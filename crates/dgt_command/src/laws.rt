//! Laws of commands, of their frames and of the division of bytes into frames.

ghost use Rattle.std.specs.Prelude.{◌≡◌, ◌↔◌, ◌∷◌, ◌++◌, ◌+◌, ◌==◌, ℕ, List, [], None, Some, false, length, map, replicate, true};
ghost use Rattle.dgt_values.specs.declared.kinds.Kind.{Kind};
ghost use Rattle.dgt_values.specs.Equality.{CloneIsSame, EqualIsSame, EqualIsSameRead, EqualIsSameReadOf};
ghost use Rattle.dgt_command.specs.declared.ids.KnownId.{KnownId};
ghost use Rattle.dgt_command.specs.Content.{led_bytes, payload_bytes, raw_id, raw_payload, requested_kind, BadEnd, BadSize, BadStart, ClockContent, CommandContent, EventContent, Read, Stray, clock_content, command_content, command_event_content};
ghost use Rattle.dgt_command.specs.Equality.{CommandHasArrays, EventHasArrays, FedHasArrays, HasArrays, fed_seen};
ghost use Rattle.dgt_command.specs.Ids.{has_own_case, id_number, id_with, known_ids};
ghost use Rattle.dgt_command.specs.declared.clock.ClockCommand.TheVariants as clock;
ghost use Rattle.dgt_command.specs.declared.command.Command.TheVariants as command;
ghost use Rattle.dgt_command.specs.Laws.{CommandsAreReadBack, DivisionsAppend, EachDividesOnce, EachHasItsWords, PrefixesDivideFirst, NoWordBeginsAPart, NoWordBeginsAnother, EncodingsGiveCommands, WordsAreShort, ZerosSettleTheReader};
ghost use Rattle.dgt_command.specs.Display.{HasNoSegments, Shows};
ghost use Rattle.dgt_command.specs.Encoding.{AreBytes, EncodesCommand, command_encoding, command_in};
ghost use Rattle.dgt_command.specs.Words.{BeginsNoCommand, Divides, IsNoise, IsPartial, IsWord};
ghost use Rattle.std.specs.Prelude.{IfSome, slice_index as nth, ◌<◌, ◌≢◌, ◌≤◌};
ghost use Rattle.std.specs.List.{AllByRecursion};
ghost use Rattle.dgt_command.specs.declared.command.CommandEvent.TheVariants as event;

use crate::carried::{LedBytes, MAX_LED_BYTES, MAX_PAYLOAD, Payload};
use crate::clock::{ClockCommand, RawClock};
use crate::command::{Command, CommandEvent};
use crate::decoder::CommandFed;
use crate::framer::{AdvancedWord, FoundWord, MAX_WORD};
use crate::ids::KnownId;

/// The limits by their numbers.
pub fn limits()
    ensures word { MAX_WORD ≡ 257 }
    ensures payload { MAX_PAYLOAD ≡ 252 }
    ensures led_bytes { MAX_LED_BYTES ≡ 255 }
{}

/// Two values are equal by `==` exactly if they mean the same. For borrowed bytes, the bytes count
/// and not their address.
pub fn equal_is_same()
    ensures payload { EqualIsSameRead payload_bytes ⟦<Payload<'static> as PartialEq>⟧.eq }
    ensures led_bytes { EqualIsSameRead led_bytes ⟦<LedBytes<'static> as PartialEq>⟧.eq }
    ensures raw { EqualIsSameRead {Read = ℕ × List ℕ} (λ raw. (raw_id raw, raw_payload raw))
        ⟦<RawClock<'static> as PartialEq>⟧.eq }
    ensures clock { EqualIsSameReadOf HasArrays clock_content
        ⟦<ClockCommand<'static> as PartialEq>⟧.eq }
    ensures command { EqualIsSameReadOf CommandHasArrays command_content
        ⟦<Command<'static> as PartialEq>⟧.eq }
    ensures event { EqualIsSameReadOf EventHasArrays command_event_content
        ⟦<CommandEvent<'static> as PartialEq>⟧.eq }
    ensures known_id { EqualIsSame ⟦<KnownId as PartialEq>⟧.eq }
    ensures fed { EqualIsSameReadOf FedHasArrays fed_seen ⟦<CommandFed<'static> as PartialEq>⟧.eq }
    ensures found { EqualIsSame ⟦<FoundWord as PartialEq>⟧.eq }
    ensures advanced { EqualIsSame ⟦<AdvancedWord as PartialEq>⟧.eq }
{}

/// A clone is the value itself, and cloning never fails.
pub fn clone_is_same()
    ensures payload { CloneIsSame ⟦<Payload<'static> as Clone>⟧ }
    ensures led_bytes { CloneIsSame ⟦<LedBytes<'static> as Clone>⟧ }
    ensures raw { CloneIsSame ⟦<RawClock<'static> as Clone>⟧ }
    ensures clock { CloneIsSame ⟦<ClockCommand<'static> as Clone>⟧ }
    ensures command { CloneIsSame ⟦<Command<'static> as Clone>⟧ }
    ensures event { CloneIsSame ⟦<CommandEvent<'static> as Clone>⟧ }
    ensures known_id { CloneIsSame ⟦<KnownId as Clone>⟧ }
    ensures fed { CloneIsSame ⟦<CommandFed<'static> as Clone>⟧ }
    ensures found { CloneIsSame ⟦<FoundWord as Clone>⟧ }
    ensures advanced { CloneIsSame ⟦<AdvancedWord as Clone>⟧ }
{}

/// Each number belongs to at most one known id, and each known id is found by its number.
pub fn a_number_has_one_id()
    ensures { (number : ℕ) (known : KnownId)
        → (id_with number ≡ Some known) ↔ (number ≡ id_number known) }
{}

/// Each list of bytes divides into frames and a rest that some frame extends, in exactly one way.
pub fn one_division()
    ensures { EachDividesOnce }
{}

/// Each list of bytes is a list of frames followed by a rest that some frame extends, in exactly
/// one way.
pub fn words_of_bytes()
    ensures { EachHasItsWords }
{}

/// No frame is a proper prefix of another, and no frame has two events.
pub fn no_word_begins_another()
    ensures { NoWordBeginsAnother }
{}

/// After bytes that leave no rest, encoded commands are read as those commands.
pub fn commands_are_read_back()
    ensures { CommandsAreReadBack }
{}

/// Zeros settle a decoder: any part of a frame followed by 255 zeros is a list of clock messages,
/// LED frames and faults, without a rest.
pub fn zeros_settle_the_reader()
    ensures { ZerosSettleTheReader }
{}

/// Bytes in chunks divide as they do together: the next chunk is divided from the rest on.
pub fn divisions_append()
    ensures { DivisionsAppend }
{}

/// If some bytes and a prefix of them divide, the events of the prefix are the first ones, and its
/// rest is continued.
pub fn prefixes_divide_first()
    ensures { PrefixesDivideFirst }
{}

/// Facts about parts of frames: the empty list is one, none begins with a whole frame, all consist
/// of bytes, and the rest of a division is one.
pub fn parts_of_words()
    ensures nothing { IsPartial [] }
    ensures no_word { NoWordBeginsAPart }
    ensures bytes { (rest more : List ℕ)
        → IsPartial rest → AreBytes more → AreBytes (rest ++ more) }
    ensures left { (bytes rest : List ℕ) (events : List EventContent)
        → Divides bytes events rest → IsPartial rest }
{}

/// Each frame has 1 to 257 bytes.
pub fn words_are_short()
    ensures { WordsAreShort }
{}

/// No two commands have the same bytes.
pub fn encodings_give_commands()
    ensures { EncodingsGiveCommands }
{}

/// Which kind of reply each command requests: the clock's has none.
pub fn kinds_of_requests()
    ensures requests { map requested_kind (CommandContent.Dump ∷ CommandContent.Serial
        ∷ CommandContent.Trademark ∷ CommandContent.Version ∷ CommandContent.Battery
        ∷ CommandContent.LongSerial ∷ []) ≡ map Some (Kind.Dump ∷ Kind.Serial ∷ Kind.Trademark
        ∷ Kind.Version ∷ Kind.Battery ∷ Kind.LongSerial ∷ []) }
    ensures none { map requested_kind (CommandContent.Reset ∷ CommandContent.Clock
        ∷ CommandContent.Update ∷ CommandContent.UpdateBoard ∷ CommandContent.UpdateNice ∷ [])
        ≡ replicate 5 None }
    ensures carrying { (message : ClockContent) (leds : List ℕ) →
        (requested_kind (CommandContent.ClockMessage message) ≡ None)
        × (requested_kind (CommandContent.Leds leds) ≡ None) }
{}

/// The bytes of each command: a byte of its own, or a byte, a size and what it carries.
pub fn bytes_of_commands()
    ensures bare { map (λ command. command_encoding (command_content command))
        (command.Reset ∷ command.Clock ∷ command.Dump ∷ command.Update ∷ command.UpdateBoard
        ∷ command.Serial ∷ command.Trademark ∷ command.UpdateNice ∷ command.Battery
        ∷ command.Version ∷ command.LongSerial ∷ []) ≡ map (λ byte. byte ∷ []) (0x40 ∷ 0x41 ∷ 0x42
        ∷ 0x43 ∷ 0x44 ∷ 0x45 ∷ 0x47 ∷ 0x4b ∷ 0x4c ∷ 0x4d ∷ 0x55 ∷ []) }
    ensures leds { (leds : LedBytes) → command_encoding (command_content (command.Leds leds))
        ≡ 0x60 ∷ length (led_bytes leds) ∷ led_bytes leds }
    ensures clock { (message : ClockCommand) →
        let said = clock_content message in
        command_encoding (command_content (command.ClockMessage message))
        ≡ 0x2b ∷ (length said.payload + 3) ∷ 0x03 ∷ said.id ∷ (said.payload ++ 0x00 ∷ []) }
{}

/// The id and the payload of each clock message.
pub fn contents_of_clock_messages()
    ensures display { (a b c d e f dots beep : ℕ) →
        clock_content (clock.Display (a ∷ b ∷ c ∷ d ∷ e ∷ f ∷ []) dots beep)
        ≡ record { id = 0x01; payload = c ∷ b ∷ a ∷ f ∷ e ∷ d ∷ dots ∷ beep ∷ [] } }
    ensures icons { (icons : Payload) → clock_content (clock.Icons icons)
        ≡ record { id = 0x02; payload = payload_bytes icons } }
    ensures bare { map clock_content (clock.End ∷ clock.Button ∷ clock.Version ∷ [])
        ≡ map (λ id. record { id = id; payload = [] }) (0x03 ∷ 0x08 ∷ 0x09 ∷ []) }
    ensures set { (a b c d e f control : ℕ) →
        clock_content (clock.SetAndRun (a ∷ b ∷ c ∷ []) (d ∷ e ∷ f ∷ []) control)
        ≡ record { id = 0x0a; payload = a ∷ b ∷ c ∷ d ∷ e ∷ f ∷ control ∷ [] } }
    ensures beep { (duration : ℕ) → clock_content (clock.Beep duration)
        ≡ record { id = 0x0b; payload = duration ∷ [] } }
    ensures text { (a b c d e f g h beep : ℕ) →
        clock_content (clock.Text (a ∷ b ∷ c ∷ d ∷ e ∷ f ∷ g ∷ h ∷ []) beep)
        ≡ record { id = 0x0c; payload = a ∷ b ∷ c ∷ d ∷ e ∷ f ∷ g ∷ h ∷ beep ∷ [] } }
    ensures raw { (raw : RawClock) → clock_content (clock.Raw raw)
        ≡ record { id = raw_id raw; payload = raw_payload raw } }
{}

/// The ids that clock messages with a variant of their own have, and with how many payload bytes.
pub fn known_clock_messages()
    ensures ids { map id_number known_ids
        ≡ 0x01 ∷ 0x02 ∷ 0x03 ∷ 0x08 ∷ 0x09 ∷ 0x0a ∷ 0x0b ∷ 0x0c ∷ [] }
    ensures sizes { (size : ℕ) → map (λ known. has_own_case (id_number known) size) known_ids
        ≡ (size == 8) ∷ true ∷ (size == 0) ∷ (size == 0) ∷ (size == 0) ∷ (size == 7) ∷ (size == 1)
        ∷ (size == 9) ∷ [] }
    ensures others { (id size : ℕ) → id_with id ≡ None → has_own_case id size ≡ false }
{}

/// The command of encoded bytes, by examples: a dump request, three LED bytes and a beep.
#[tactic(auto, unfolding(crate::specs::Encoding::command_in))]
pub fn commands_in_bytes()
    ensures bare { map command_in (map (λ byte. byte ∷ []) (0x40 ∷ 0x41 ∷ 0x42 ∷ 0x43 ∷ 0x44 ∷ 0x45
        ∷ 0x47 ∷ 0x4b ∷ 0x4c ∷ 0x4d ∷ 0x55 ∷ [])) ≡ CommandContent.Reset ∷ CommandContent.Clock
        ∷ CommandContent.Dump ∷ CommandContent.Update ∷ CommandContent.UpdateBoard
        ∷ CommandContent.Serial ∷ CommandContent.Trademark ∷ CommandContent.UpdateNice
        ∷ CommandContent.Battery ∷ CommandContent.Version ∷ CommandContent.LongSerial ∷ [] }
    ensures leds { (a b c : ℕ) → command_in (0x60 ∷ 3 ∷ a ∷ b ∷ c ∷ [])
        ≡ CommandContent.Leds (a ∷ b ∷ c ∷ []) }
    ensures clock { (id a b : ℕ) → command_in (0x2b ∷ 5 ∷ 0x03 ∷ id ∷ a ∷ b ∷ 0x00 ∷ [])
        ≡ CommandContent.ClockMessage (record { id = id; payload = a ∷ b ∷ [] }) }
{}

/// What the frames of commands and of faults look like.
pub fn frames_of_events()
    ensures command { (command : CommandContent) (word : List ℕ) →
        IsWord (Read command) word ↔ EncodesCommand command word }
    ensures size { (word : List ℕ) → IsWord BadSize word →
        (length word ≡ 2) × (nth word 0 ≡ 0x2b) × (nth word 1 < 3) }
    ensures start { (word : List ℕ) → IsWord BadStart word → (length word ≡ 3)
        × (nth word 0 ≡ 0x2b) × (3 ≤ nth word 1) × (nth word 2 ≢ 0x03) }
    ensures end { (word : List ℕ) → IsWord BadEnd word → (length word ≡ nth word 1 + 2)
        × (nth word 0 ≡ 0x2b) × (3 ≤ nth word 1) × (nth word 2 ≡ 0x03)
        × (nth word (nth word 1 + 1) ≢ 0x00) }
    ensures stray { (byte : ℕ) (word : List ℕ) → IsWord (Stray byte) word →
        (word ≡ byte ∷ []) × ((command : CommandContent) (rest : List ℕ) →
        command_encoding command ≢ byte ∷ rest) }
    ensures bytes { (event : EventContent) (word : List ℕ) → IsWord event word → AreBytes word }
{}

/// Bytes that look like a frame of a fault are one.
pub fn faults_have_frames()
    ensures size { (size : ℕ) → AreBytes (0x2b ∷ size ∷ []) → size < 3
        → IsWord BadSize (0x2b ∷ size ∷ []) }
    ensures start { (size start : ℕ) → AreBytes (0x2b ∷ size ∷ start ∷ []) → 3 ≤ size
        → start ≢ 0x03 → IsWord BadStart (0x2b ∷ size ∷ start ∷ []) }
    ensures end { (inner : List ℕ) (end : ℕ) →
        AreBytes (0x2b ∷ (length inner + 2) ∷ 0x03 ∷ (inner ++ end ∷ [])) → 1 ≤ length inner
        → end ≢ 0x00 → IsWord BadEnd (0x2b ∷ (length inner + 2) ∷ 0x03 ∷ (inner ++ end ∷ [])) }
    ensures stray { (byte : ℕ) → AreBytes (byte ∷ []) → BeginsNoCommand byte
        → IsWord (Stray byte) (byte ∷ []) }
{}

/// How one frame is divided, and what is a part of one.
pub fn one_frame()
    ensures divided { (bytes rest : List ℕ) (event : EventContent) →
        Divides bytes (event ∷ []) rest ↔ ((word : List ℕ) × IsWord event word
        × (bytes ≡ word ++ rest) × IsPartial rest) }
    ensures part { (event : EventContent) (rest more : List ℕ) (next : ℕ) →
        IsWord event (rest ++ next ∷ more) → IsPartial rest }
{}

/// What is noise: all events but commands of one byte.
pub fn what_is_noise()
    ensures noise { (byte : ℕ) (message : ClockContent) (leds : List ℕ) → AllByRecursion IsNoise
        (Read (CommandContent.ClockMessage message) ∷ Read (CommandContent.Leds leds) ∷ BadSize
        ∷ BadStart ∷ BadEnd ∷ Stray byte ∷ []) }
    ensures commands { AllByRecursion (λ command. ¬ (IsNoise (Read command)))
        (CommandContent.Reset ∷ CommandContent.Clock ∷ CommandContent.Dump ∷ CommandContent.Update
        ∷ CommandContent.UpdateBoard ∷ CommandContent.Serial ∷ CommandContent.Trademark
        ∷ CommandContent.UpdateNice ∷ CommandContent.Battery ∷ CommandContent.Version
        ∷ CommandContent.LongSerial ∷ []) }
{}

/// A text is displayed in one way, or has a character without segments.
pub fn one_display()
    ensures one { (text : List ℕ) (dots beep : ℕ) (message other : ClockContent) →
        Shows text dots beep message → Shows text dots beep other → message ≡ other }
    ensures shown { (text : List ℕ) (dots beep : ℕ) (message : ClockContent) →
        Shows text dots beep message → ¬ (HasNoSegments text) }
{}

/// The lengths of a program's arrays.
pub fn lengths_of_arrays()
    ensures display { (places : List ℕ) (dots beep : ℕ) →
        HasArrays (clock.Display places dots beep) ↔ (length places ≡ 6) }
    ensures set { (left right : List ℕ) (control : ℕ) →
        HasArrays (clock.SetAndRun left right control)
        ↔ ((length left ≡ 3) × (length right ≡ 3)) }
    ensures text { (letters : List ℕ) (beep : ℕ) →
        HasArrays (clock.Text letters beep) ↔ (length letters ≡ 8) }
    ensures beep { (duration : ℕ) → HasArrays (clock.Beep duration) }
    ensures message { (message : ClockCommand) →
        CommandHasArrays (command.ClockMessage message) ↔ HasArrays message }
    ensures command { CommandHasArrays command.Dump }
    ensures event { (read : Command) → EventHasArrays (event.Command read) ↔ CommandHasArrays read }
    ensures fault { EventHasArrays event.BadSize }
    ensures fed { (fed : CommandFed) → FedHasArrays fed ↔ IfSome fed.event EventHasArrays }
{}
