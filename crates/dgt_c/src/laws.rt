//! Laws of what calls report to C. [`header`] contains those of numbers and structs, [`chess`]
//! those of the rules of chess, and [`games`] those of a recogniser. Each function does nothing at
//! run time: its contract states a fact.

ghost use Rattle.std.specs.Prelude.{◌≡◌, ◌⊎◌, ◌≤◌, ◌<◌, ◌∷◌, ◌↔◌, ℕ, List, [], map, replicate, take, None, Some, All, Bool, Contains, IsTrue};
ghost use Rattle.dgt_values.specs.declared.pieces.Piece.{Piece as AnyPiece};
ghost use Rattle.std.specs.Mem.{type_size};
ghost use denote.Memory.{lone};
ghost use prog.Offsets.{Lies};
ghost use Rattle.dgt_values.specs.Board.{piece_code};
ghost use Rattle.dgt_values.specs.Bytes.{AreSevenBit};
ghost use Rattle.dgt_command.specs.Content.{CommandContent, clock_content};
ghost use Rattle.dgt_command.specs.declared.clock.ClockCommand.{ClockCommand};
ghost use Rattle.dgt_command.specs.Ids.{id_number};
ghost use Rattle.dgt_command.specs.declared.ids.KnownId.{KnownId};
ghost use Rattle.dgt_message.specs.Clock.{Absence, Time, Times};
ghost use Rattle.dgt_message.specs.Content.{Content, IsMessage};
ghost use Rattle.dgt_message.specs.declared.viewing.BodyFault.{BodyFault};
ghost use Rattle.dgt_message.specs.declared.viewing.BodyFault.TheVariants.{WrongSize, BadPiece, BadSquare, BadReading};
ghost use Rattle.dgt_decode.specs.Grammar.{Message, Refused, Cut, BadLength, Stray};
ghost use Rattle.dgt_host.specs.Host.{HostView, Request};
ghost use Rattle.dgt_names.specs.Names.{button_byte};
ghost use Rattle.dgt_names.specs.declared.battery.BatteryState.{BatteryState as AnyState};
ghost use Rattle.dgt_names.specs.declared.clock.Button.{Button as AnyButton};
ghost use Rattle.dgt_names.specs.declared.clock.Signal.{Signal as AnySignal};
ghost use Rattle.dgt_stored.specs.Stored.{StoredContent, mark_byte};
ghost use Rattle.dgt_stored.specs.declared.stored.Mark.{Mark as AnyMark};
ghost use Rattle.dgt_c.specs.Boards.{PollsReported};
ghost use Rattle.dgt_c.specs.ClockSending.{SendsClock, SendsMessage};
ghost use Rattle.dgt_c.specs.Clocks.{absence_said, time_said, times_said};
ghost use Rattle.dgt_c.specs.Commands.{CommandReporting};
ghost use Rattle.dgt_c.specs.Encoding.{IsMessageKind, SaysContent, SaysMessage};
ghost use Rattle.dgt_c.specs.Followers.{AsksReported};
ghost use Rattle.dgt_c.specs.Hearing.{Reporting};
ghost use Rattle.dgt_c.specs.Layouts.{Ascend, FitsIn, LiesAs};
ghost use Rattle.dgt_c.specs.Once.{AreSameCommands, AreSameReports, BusyBoardsStay, ClocksAreInRange, CommandsReserveZeros, EventsAreRead, EventsHaveTexts, IdentitiesAreInRange, IsEvent, IsShort, LeavesOne, MessagesAreEncoded, MessagesAreRead, NothingHasNoText, NothingIsEncoded, OneClock, OneEncoding, OneFeed, OneHearing, OneReportEach, OneStart, OneTaking, OneUse, OneWord, RefusedCommandsStay, ReportsAreSaid, ReportsReserveZeros, RoomIsLeft, TextsAreShown, ViewsReserveZeros};
ghost use Rattle.dgt_c.specs.Names.{battery_reported, number_if_known, signal_reported, stored_reported};
ghost use Rattle.dgt_c.specs.contracts.header.{DgtEvent.the_row as event_row};
ghost use Rattle.dgt_c.specs.declared.header.DgtBattery.{DgtBattery};
ghost use Rattle.dgt_c.specs.declared.header.DgtBody.{DgtBody};
ghost use Rattle.dgt_c.specs.declared.header.DgtEvent.{DgtEvent};
ghost use Rattle.dgt_c.specs.declared.header.DgtSent.{DgtSent};
ghost use Rattle.dgt_c.specs.declared.header.DgtSignal.{DgtSignal};
ghost use Rattle.dgt_c.specs.declared.header.DgtStored.{DgtStored};
ghost use Rattle.dgt_c.specs.Sent.{SendsReported};
ghost use Rattle.dgt_c.specs.Starting.{ArePieces};
ghost use Rattle.dgt_c.specs.Texts.{SaysEvent, SaysFault};

pub mod chess;
pub mod games;
pub mod header;

/// A chunk of a board's bytes has one report: the number of bytes used, the structs and the bodies.
pub fn one_report()
    ensures feed { OneFeed }
    ensures hearing { OneHearing }
    ensures used { OneUse }
    ensures room { RoomIsLeft }
    ensures each { OneReportEach }
{
    dgt_decode::laws::one_first_event();
}

/// A chunk of a host's bytes has one report, and leads to one state of the board that takes it. A
/// busy board stays as it was.
pub fn one_command()
    ensures word { OneWord }
    ensures taking { OneTaking }
    ensures busy { BusyBoardsStay }
{
    dgt_command::laws::no_word_begins_another();
    dgt_command::laws::parts_of_words();
}

/// The reserved members of what is reported are 0.
pub fn reserved_members()
    ensures reports { ReportsReserveZeros }
    ensures views { ViewsReserveZeros }
    ensures commands { CommandsReserveZeros }
{}

/// A struct of C describes at most one clock or one board, with values in their ranges.
pub fn one_meaning()
    ensures clock { OneClock }
    ensures times { ClocksAreInRange }
    ensures start { OneStart }
    ensures identity { IdentitiesAreInRange }
{
    dgt_values::laws::one_piece_a_code();
}

/// The kinds and the members by which a struct describes a message with values in their ranges.
pub fn said_messages()
    ensures range { (said : DgtEvent) (body : List ℕ) (message : Content) →
        SaysMessage said body message → IsMessage message }
    ensures kinds { (said : DgtEvent) (body : List ℕ) (message : Content) →
        SaysContent said body message → IsMessageKind said.kind }
    ensures dump { (said : DgtEvent) (body : List ℕ) (pieces : List AnyPiece) →
        SaysContent said body (Content.dump pieces)
        → (said.kind ≡ 1) × (said.pieces ≡ map piece_code pieces) }
    ensures field { (said : DgtEvent) (body : List ℕ) (square : ℕ) (piece : AnyPiece) →
        SaysContent said body (Content.field square piece)
        → (said.kind ≡ 2) × (said.square ≡ square) × (said.piece ≡ piece_code piece) }
    ensures times { (said : DgtEvent) (body : List ℕ) (times : Times) →
        SaysContent said body (Content.times times)
        → (said.kind ≡ 3) × (times ≡ times_said said.clock) }
    ensures no_clock { (said : DgtEvent) (body : List ℕ) (absence : Absence) →
        SaysContent said body (Content.no_clock absence)
        → (said.kind ≡ 4) × (absence ≡ absence_said said.clock) }
    ensures serial { (said : DgtEvent) (body digits : List ℕ) →
        SaysContent said body (Content.carried 0x11 digits)
        → (said.kind ≡ 6) × (said.serial ≡ digits) }
    ensures version { (said : DgtEvent) (body : List ℕ) (first second : ℕ) →
        SaysContent said body (Content.carried 0x13 (first ∷ second ∷ []))
        → (said.kind ≡ 8) × (said.main_number ≡ first) × (said.sub_number ≡ second) }
    ensures carried { (said : DgtEvent) (body bytes : List ℕ) (code : ℕ) →
        (said.kind ≡ 7) ⊎ (said.kind ≡ 9) ⊎ (said.kind ≡ 10) ⊎ (said.kind ≡ 11) →
        SaysContent said body (Content.carried code bytes) → bytes ≡ body }
    ensures other { (said : DgtEvent) (body bytes : List ℕ) (code : ℕ) → said.kind ≡ 11 →
        SaysContent said body (Content.carried code bytes) → code ≡ said.code }
{}

/// An encoding has one report. If the struct doesn't describe a message, none is written; if it
/// does, one is encoded.
pub fn one_encoding()
    ensures bytes { OneEncoding }
    ensures nothing { NothingIsEncoded }
    ensures message { MessagesAreEncoded }
    ensures read { MessagesAreRead }
{}

/// The struct and the body that report an event also describe it.
pub fn reports_are_said()
    ensures said { ReportsAreSaid }
{}

/// The text of an event is written if a struct describes one, and otherwise nothing is.
pub fn event_texts()
    ensures text { EventsHaveTexts }
    ensures nothing { NothingHasNoText }
    ensures read { EventsAreRead }
{}

/// The kinds and the members by which a struct describes an event.
pub fn said_events()
    ensures message { (said : DgtEvent) (body : List ℕ) (message : Content) →
        SaysEvent said body (Message message) → SaysMessage said body message }
    ensures refused { (said : DgtEvent) (body : List ℕ) (code : ℕ) (fault : BodyFault) →
        SaysEvent said body (Refused code fault)
        → (said.kind ≡ 12) × (said.code ≡ code) × (code < 128) × SaysFault said fault }
    ensures wrong_size { (said : DgtEvent) → SaysFault said WrongSize → said.fault ≡ 1 }
    ensures bad_piece { (said : DgtEvent) (at : ℕ) →
        SaysFault said (BadPiece at) → (said.fault ≡ 2) × (said.at ≡ at) }
    ensures bad_square { (said : DgtEvent) (at : ℕ) →
        SaysFault said (BadSquare at) → (said.fault ≡ 3) × (said.at ≡ at) }
    ensures bad_reading { (said : DgtEvent) (at : ℕ) →
        SaysFault said (BadReading at) → (said.fault ≡ 4) × (said.at ≡ at) }
    ensures cut { (said : DgtEvent) (body : List ℕ) (have : ℕ) →
        SaysEvent said body (Cut have) → (said.kind ≡ 13) × (said.have ≡ have) }
    ensures bad_length { (said : DgtEvent) (body : List ℕ) →
        SaysEvent said body BadLength → said.kind ≡ 14 }
    ensures stray { (said : DgtEvent) (body : List ℕ) (byte : ℕ) →
        SaysEvent said body (Stray byte) → (said.kind ≡ 15) × (said.byte ≡ byte) }
{}

/// The kinds and the members by which a struct describes a stored item, a signal of a clock, and
/// the state of a battery. The reserved members are 0.
pub fn said_names()
    ensures piece { (said : DgtStored) (square bit : ℕ) (piece : AnyPiece) →
        said ≡ stored_reported (StoredContent.piece square piece bit)
        → (said.kind ≡ 1) × (said.square ≡ square) × (said.piece ≡ piece_code piece)
        × (said.bit ≡ bit) }
    ensures time { (said : DgtStored) (shown : Time) →
        said ≡ stored_reported (StoredContent.time shown)
        → (said.kind ≡ 2) × (shown ≡ time_said said.time) }
    ensures mark { (said : DgtStored) (mark : AnyMark) →
        said ≡ stored_reported (StoredContent.mark mark)
        → (said.kind ≡ 3) × (said.byte ≡ mark_byte mark) }
    ensures unknown { (said : DgtStored) (byte : ℕ) →
        said ≡ stored_reported (StoredContent.unknown byte)
        → (said.kind ≡ 4) × (said.byte ≡ byte) }
    ensures done { (said : DgtSignal) (id : KnownId) → said ≡ signal_reported (AnySignal.Done id)
        → (said.kind ≡ 1) × (said.id ≡ id_number id) }
    ensures version { (said : DgtSignal) (main sub : ℕ) →
        said ≡ signal_reported (AnySignal.Version main sub)
        → (said.kind ≡ 2) × (said.main_number ≡ main) × (said.sub_number ≡ sub) }
    ensures pressed { (said : DgtSignal) (button : AnyButton) →
        said ≡ signal_reported (AnySignal.Pressed button)
        → (said.kind ≡ 3) × (said.button ≡ button_byte button) }
    ensures off { (signal_reported AnySignal.Off).kind ≡ 4 }
    ensures ready { (signal_reported AnySignal.Ready).kind ≡ 5 }
    ensures left { (said : DgtBattery) (state : AnyState) → said ≡ battery_reported state
        → (number_if_known state.percent ≡ said.percent)
        × (number_if_known state.hours_left ≡ said.hours_left)
        × (number_if_known state.minutes_left ≡ said.minutes_left) }
    ensures since { (said : DgtBattery) (state : AnyState) → said ≡ battery_reported state
        → (state.hours_on ≡ said.hours_on) × (state.minutes_on ≡ said.minutes_on)
        × (state.days_resting ≡ said.days_resting) × (state.hours_resting ≡ said.hours_resting)
        × (state.minutes_resting ≡ said.minutes_resting) }
    ensures bits { (said : DgtBattery) (state : AnyState) → said ≡ battery_reported state
        → (IsTrue state.charging ↔ (said.charging ≡ 1))
        × (IsTrue state.discharging ↔ (said.discharging ≡ 1)) }
    ensures known { (number_if_known None ≡ 127) × ((n : ℕ) → number_if_known (Some n) ≡ n) }
    ensures stored { (said : StoredContent) → (stored_reported said).reserved ≡ replicate 7 0 }
    ensures signals { (said : AnySignal) → (signal_reported said).reserved ≡ replicate 3 0 }
    ensures batteries { (said : AnyState) → (battery_reported said).reserved ≡ replicate 6 0 }
{}

/// A sending, an asking and a polling have one report, and leave one state and one slice.
pub fn one_sending()
    ensures sending { (request : Request) → LeavesOne (SendsReported request) }
    ensures asking { (now : ℕ) → LeavesOne (AsksReported now) }
    ensures polling { LeavesOne (λ before after old new r. PollsReported r before after old new) }
{}

/// A command that is refused changes nothing, and a text is refused only for its characters.
pub fn refused_commands()
    ensures stay { RefusedCommandsStay }
    ensures texts { TextsAreShown }
{}

/// What the words of these laws say, and what is enough for them.
pub fn words_of_laws()
    ensures pieces { (codes : List ℕ) → All (λ code. code < 16) codes → ArePieces codes }
    ensures event { (message : Content) → IsMessage message → IsEvent (Message message) }
    ensures refused { (code : ℕ) (fault : BodyFault) → code < 128 → IsEvent (Refused code fault) }
    ensures fault { (have byte : ℕ) →
        IsEvent (Cut have) × IsEvent BadLength × IsEvent (Stray byte) }
    ensures kinds { (kind : ℕ) → IsMessageKind kind →
        Contains (1 ∷ 2 ∷ 3 ∷ 4 ∷ 5 ∷ 6 ∷ 7 ∷ 8 ∷ 9 ∷ 10 ∷ 11 ∷ []) kind }
    ensures short { (said : DgtBody) → IsShort said →
        (said.len ≤ 64) × AreSevenBit (take said.len said.bytes) }
    ensures reports { (first second : Reporting) → AreSameReports first second →
        (first.event ≡ second.event) × (first.new ≡ second.new) }
    ensures commands { (first second : CommandReporting) → AreSameCommands first second →
        (first.command ≡ second.command) × (first.new ≡ second.new) }
    ensures message { (written : CommandContent → List ℕ) (message : ClockCommand)
        (before after : HostView) (old new : List ℕ) (sent : DgtSent) →
        SendsMessage written message before after old new sent →
        SendsClock written (clock_content message) before after old new sent }
    ensures one { (leaves : HostView → HostView → List ℕ → List ℕ → DgtSent → Bool)
        (before after other : HostView) (old new also : List ℕ) (sent second : DgtSent) →
        LeavesOne (λ a b c d e. IsTrue (leaves a b c d e)) →
        IsTrue (leaves before after old new sent) → IsTrue (leaves before other old also second) →
        (after ≡ other) × (new ≡ also) × (sent ≡ second) }
    ensures ascend { (a b : ℕ) (rest : List ℕ) → Ascend (a ∷ b ∷ rest) →
        (a < b) × Ascend (b ∷ rest) }
    ensures lies { (size alignment : ℕ) (offsets : List ℕ) →
        LiesAs event_row size alignment offsets →
        Lies (lone event_row.mir) size alignment offsets }
    ensures fits { (room alignment : ℕ) (offsets : List ℕ) →
        FitsIn event_row room alignment offsets → (type_size event_row ≤ room)
        × LiesAs event_row (type_size event_row) alignment offsets }
{}
