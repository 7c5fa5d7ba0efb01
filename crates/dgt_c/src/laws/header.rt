//! Laws: the crate contains what `dgt.h` declares. Made from it by tools/c_boundary: don't edit it.

ghost use Rattle.std.specs.Prelude.{◌≡◌, ◌∷◌, [], ℕ, List};
ghost use Rattle.dgt_values.specs.Equality.{CloneIsSame};
ghost use Rattle.dgt_command.specs.Content.{ClockContent, CommandContent};
ghost use Rattle.dgt_command.specs.Ids.{id_number};
ghost use Rattle.dgt_command.specs.Encoding.{command_code};
ghost use Rattle.dgt_command.specs.declared.ids.KnownId.{KnownId};
ghost use Rattle.dgt_names.specs.Names.{button_byte};
ghost use Rattle.dgt_names.specs.declared.clock.Button.{Button};
ghost use Rattle.dgt_stored.specs.Stored.{mark_byte};
ghost use Rattle.dgt_stored.specs.declared.stored.Mark.{Mark};
ghost use Rattle.dgt_c.specs.Layouts.{◌⊗◌, Ascend, FitsIn, LiesAs, bit_alone};
ghost use Rattle.dgt_c.specs.contracts.header.{DgtTime.the_row as time_row, DgtClock.the_row as clock_row, DgtEvent.the_row as event_row, DgtCommand.the_row as command_row, DgtTold.the_row as told_row, DgtSent.the_row as sent_row, DgtBody.the_row as body_row, DgtIdentity.the_row as identity_row, DgtTaken.the_row as taken_row, DgtPolled.the_row as polled_row, DgtEncoded.the_row as encoded_row, DgtStored.the_row as stored_row, DgtSignal.the_row as signal_row, DgtBattery.the_row as battery_row, DgtParsed.the_row as parsed_row, DgtChessState.the_row as chess_state_row, DgtChessMove.the_row as chess_move_row, DgtChessFenRead.the_row as chess_fen_read_row, DgtGameEvent.the_row as game_event_row};
ghost use Rattle.dgt_c.specs.contracts.header.{DgtTime.the_type as time_type, DgtClock.the_type as clock_type, DgtEvent.the_type as event_type, DgtCommand.the_type as command_type, DgtTold.the_type as told_type, DgtSent.the_type as sent_type, DgtBody.the_type as body_type, DgtIdentity.the_type as identity_type, DgtTaken.the_type as taken_type, DgtPolled.the_type as polled_type, DgtEncoded.the_type as encoded_type, DgtStored.the_type as stored_type, DgtSignal.the_type as signal_type, DgtBattery.the_type as battery_type, DgtParsed.the_type as parsed_type, DgtChessState.the_type as chess_state_type, DgtChessMove.the_type as chess_move_type, DgtChessFenRead.the_type as chess_fen_read_type, DgtGameEvent.the_type as game_event_type};
ghost use Rattle.dgt_c.specs.contracts.places.{HostPlace.the_row as host_row, FollowerPlace.the_row as follower_row, DecoderPlace.the_row as decoder_row, CommandDecoderPlace.the_row as command_decoder_row, BoardPlace.the_row as board_row, RecogniserPlace.the_row as recogniser_row};
ghost use Rattle.dgt_c.specs.declared.header.{DgtTime.DgtTime, DgtClock.DgtClock, DgtEvent.DgtEvent, DgtCommand.DgtCommand, DgtTold.DgtTold, DgtSent.DgtSent, DgtBody.DgtBody, DgtIdentity.DgtIdentity, DgtTaken.DgtTaken, DgtPolled.DgtPolled, DgtEncoded.DgtEncoded, DgtStored.DgtStored, DgtSignal.DgtSignal, DgtBattery.DgtBattery, DgtParsed.DgtParsed, DgtChessState.DgtChessState, DgtChessMove.DgtChessMove, DgtChessFenRead.DgtChessFenRead, DgtGameEvent.DgtGameEvent};

use crate::header::*;
use dgt_board::{MAX_KEPT_BODY, MAX_OWED, MAX_SENT};
use dgt_command::{MAX_LED_BYTES, MAX_PAYLOAD, MAX_WORD};
use dgt_follow::{LEAST_PERIOD, MAX_ASKING};
use dgt_game::GAP;
use dgt_host::{MAX_AWAITED, RESTART_LENGTH};
use dgt_values::MAX_BODY;

/// The numbers of `dgt.h`, by their names in lower case without `DGT_`. The bits of a status and of
/// flags are those that `Status` of dgt_message and `Flags` of dgt_names read.
pub fn limits()
    ensures max_body { MAX_BODY ≡ 16380 }
    ensures max_word { MAX_WORD ≡ 257 }
    ensures max_payload { MAX_PAYLOAD ≡ 252 }
    ensures max_leds { MAX_LED_BYTES ≡ 255 }
    ensures max_awaited { MAX_AWAITED ≡ 16 }
    ensures restart_length { RESTART_LENGTH ≡ 257 }
    ensures max_asking { MAX_ASKING ≡ 259 }
    ensures least_period { LEAST_PERIOD ≡ 1000 }
    ensures max_owed { MAX_OWED ≡ 8 }
    ensures max_sent { MAX_SENT ≡ 67 }
    ensures max_kept { MAX_KEPT_BODY ≡ 64 }
    ensures placement_room { PLACEMENT_ROOM ≡ 72 }
    ensures max_unseen { GAP ≡ 4 }
    ensures host_size { HOST_ROOM ≡ 22528 }
    ensures follower_size { FOLLOWER_ROOM ≡ 23552 }
    ensures decoder_size { DECODER_ROOM ≡ 21504 }
    ensures command_decoder_size { COMMAND_DECODER_ROOM ≡ 512 }
    ensures board_size { BOARD_ROOM ≡ 1280 }
    ensures recogniser_size { RECOGNISER_ROOM ≡ 16384 }
    ensures clock_unknown { CLOCK_UNKNOWN ≡ 0 }
    ensures clock_times { CLOCK_TIMES ≡ 1 }
    ensures clock_none { CLOCK_NONE ≡ 2 }
    ensures status_running { bit_alone 0 ≡ 0x01 }
    ensures status_lever { bit_alone 1 ≡ 0x02 }
    ensures status_battery_low { bit_alone 2 ≡ 0x04 }
    ensures status_black_turn { bit_alone 3 ≡ 0x08 }
    ensures status_white_turn { bit_alone 4 ≡ 0x10 }
    ensures status_absent { bit_alone 5 ≡ 0x20 }
    ensures event_none { EVENT_NONE ≡ 0 }
    ensures event_dump { EVENT_DUMP ≡ 1 }
    ensures event_field { EVENT_FIELD ≡ 2 }
    ensures event_times { EVENT_TIMES ≡ 3 }
    ensures event_no_clock { EVENT_NO_CLOCK ≡ 4 }
    ensures event_ack { EVENT_ACK ≡ 5 }
    ensures event_serial { EVENT_SERIAL ≡ 6 }
    ensures event_trademark { EVENT_TRADEMARK ≡ 7 }
    ensures event_version { EVENT_VERSION ≡ 8 }
    ensures event_battery { EVENT_BATTERY ≡ 9 }
    ensures event_long_serial { EVENT_LONG_SERIAL ≡ 10 }
    ensures event_other { EVENT_OTHER ≡ 11 }
    ensures event_refused { EVENT_REFUSED ≡ 12 }
    ensures event_cut { EVENT_CUT ≡ 13 }
    ensures event_bad_length { EVENT_BAD_LENGTH ≡ 14 }
    ensures event_stray { EVENT_STRAY ≡ 15 }
    ensures no_fault { FAULT_NONE ≡ 0 }
    ensures wrong_size { FAULT_WRONG_SIZE ≡ 1 }
    ensures bad_piece { FAULT_BAD_PIECE ≡ 2 }
    ensures bad_square { FAULT_BAD_SQUARE ≡ 3 }
    ensures bad_reading { FAULT_BAD_READING ≡ 4 }
    ensures no_word { COMMAND_NONE ≡ 0 }
    ensures command { COMMAND_READ ≡ 1 }
    ensures bad_size { COMMAND_BAD_SIZE ≡ 2 }
    ensures bad_start { COMMAND_BAD_START ≡ 3 }
    ensures bad_end { COMMAND_BAD_END ≡ 4 }
    ensures stray_byte { COMMAND_STRAY ≡ 5 }
    ensures send_clock_message { (message : ClockContent) → command_code
        (CommandContent.ClockMessage message) ≡ 0x2b }
    ensures send_reset { command_code CommandContent.Reset ≡ 0x40 }
    ensures send_clock { command_code CommandContent.Clock ≡ 0x41 }
    ensures send_dump { command_code CommandContent.Dump ≡ 0x42 }
    ensures send_update { command_code CommandContent.Update ≡ 0x43 }
    ensures send_update_board { command_code CommandContent.UpdateBoard ≡ 0x44 }
    ensures send_serial { command_code CommandContent.Serial ≡ 0x45 }
    ensures send_trademark { command_code CommandContent.Trademark ≡ 0x47 }
    ensures send_update_nice { command_code CommandContent.UpdateNice ≡ 0x4b }
    ensures send_battery { command_code CommandContent.Battery ≡ 0x4c }
    ensures send_version { command_code CommandContent.Version ≡ 0x4d }
    ensures send_long_serial { command_code CommandContent.LongSerial ≡ 0x55 }
    ensures send_leds { (leds : List ℕ) → command_code (CommandContent.Leds leds) ≡ 0x60 }
    ensures id_display { id_number KnownId.Display ≡ 0x01 }
    ensures id_icons { id_number KnownId.Icons ≡ 0x02 }
    ensures id_end { id_number KnownId.End ≡ 0x03 }
    ensures id_button { id_number KnownId.Button ≡ 0x08 }
    ensures id_version { id_number KnownId.Version ≡ 0x09 }
    ensures id_set_and_run { id_number KnownId.SetAndRun ≡ 0x0a }
    ensures id_beep { id_number KnownId.Beep ≡ 0x0b }
    ensures id_text { id_number KnownId.Text ≡ 0x0c }
    ensures done { DONE ≡ 0 }
    ensures too_many_awaited { TOO_MANY_AWAITED ≡ 1 }
    ensures no_room { NO_ROOM ≡ 2 }
    ensures refused { REFUSED ≡ 3 }
    ensures started { STARTED ≡ 0 }
    ensures start_bad_pieces { START_BAD_PIECES ≡ 1 }
    ensures start_bad_clock { START_BAD_CLOCK ≡ 2 }
    ensures start_bad_identity { START_BAD_IDENTITY ≡ 3 }
    ensures nothing { POLLED_NOTHING ≡ 0 }
    ensures wrote { POLLED_WROTE ≡ 1 }
    ensures mode_idle { MODE_IDLE ≡ 0 }
    ensures mode_update { MODE_UPDATE ≡ 1 }
    ensures mode_update_board { MODE_UPDATE_BOARD ≡ 2 }
    ensures mode_update_nice { MODE_UPDATE_NICE ≡ 3 }
    ensures stored_piece { STORED_PIECE ≡ 1 }
    ensures stored_time { STORED_TIME ≡ 2 }
    ensures stored_mark { STORED_MARK ≡ 3 }
    ensures stored_unknown { STORED_UNKNOWN ≡ 4 }
    ensures mark_nothing { mark_byte Mark.Nothing ≡ 0x00 }
    ensures mark_power_up { mark_byte Mark.PowerUp ≡ 0x6a }
    ensures mark_end { mark_byte Mark.End ≡ 0x6b }
    ensures mark_four_rows { mark_byte Mark.FourRows ≡ 0x6c }
    ensures mark_empty_board { mark_byte Mark.EmptyBoard ≡ 0x6d }
    ensures mark_downloaded { mark_byte Mark.Downloaded ≡ 0x6e }
    ensures mark_begin { mark_byte Mark.Begin ≡ 0x6f }
    ensures mark_turned_begin { mark_byte Mark.TurnedBegin ≡ 0x7a }
    ensures mark_tag { mark_byte Mark.Tag ≡ 0x7b }
    ensures mark_watchdog { mark_byte Mark.Watchdog ≡ 0x7c }
    ensures mark_erased { mark_byte Mark.Erased ≡ 0x7f }
    ensures signal_done { SIGNAL_DONE ≡ 1 }
    ensures signal_version { SIGNAL_VERSION ≡ 2 }
    ensures signal_pressed { SIGNAL_PRESSED ≡ 3 }
    ensures signal_off { SIGNAL_OFF ≡ 4 }
    ensures signal_ready { SIGNAL_READY ≡ 5 }
    ensures button_back { button_byte Button.Back ≡ 0x31 }
    ensures button_plus { button_byte Button.Plus ≡ 0x32 }
    ensures button_run { button_byte Button.Run ≡ 0x33 }
    ensures button_minus { button_byte Button.Minus ≡ 0x34 }
    ensures button_ok { button_byte Button.Ok ≡ 0x35 }
    ensures flag_blocked { bit_alone 0 ≡ 0x01 }
    ensures flag_per_move { bit_alone 1 ≡ 0x02 }
    ensures flag_fallen { bit_alone 2 ≡ 0x04 }
    ensures battery_unknown { BATTERY_UNKNOWN ≡ 127 }
    ensures no_such { NONE ≡ 255 }
    ensures chess_fen_room { CHESS_FEN_ROOM ≡ 96 }
    ensures chess_san_room { CHESS_SAN_ROOM ≡ 16 }
    ensures chess_white { CHESS_WHITE ≡ 0 }
    ensures chess_black { CHESS_BLACK ≡ 1 }
    ensures chess_done { CHESS_DONE ≡ 0 }
    ensures chess_bad_kings { CHESS_BAD_KINGS ≡ 1 }
    ensures chess_extra_piece { CHESS_EXTRA_PIECE ≡ 2 }
    ensures chess_bad_pawn { CHESS_BAD_PAWN ≡ 3 }
    ensures chess_in_check { CHESS_IN_CHECK ≡ 4 }
    ensures chess_bad_rights { CHESS_BAD_RIGHTS ≡ 5 }
    ensures chess_bad_passed { CHESS_BAD_PASSED ≡ 6 }
    ensures chess_bad_number { CHESS_BAD_NUMBER ≡ 7 }
    ensures chess_bad_member { CHESS_BAD_MEMBER ≡ 8 }
    ensures chess_bad_text { CHESS_BAD_TEXT ≡ 9 }
    ensures chess_no_move { CHESS_NO_MOVE ≡ 10 }
    ensures chess_ambiguous { CHESS_AMBIGUOUS ≡ 11 }
    ensures sight_sure { SIGHT_SURE ≡ 0 }
    ensures sight_doubted { SIGHT_DOUBTED ≡ 1 }
    ensures sight_away { SIGHT_AWAY ≡ 2 }
    ensures seen { SEEN ≡ 0 }
    ensures see_bad_pieces { SEE_BAD_PIECES ≡ 1 }
    ensures see_bad_sight { SEE_BAD_SIGHT ≡ 2 }
    ensures see_bad_side { SEE_BAD_SIDE ≡ 3 }
    ensures see_still_due { SEE_STILL_DUE ≡ 4 }
    ensures game_begun { GAME_BEGUN ≡ 1 }
    ensures game_made { GAME_MADE ≡ 2 }
    ensures game_unseen { GAME_UNSEEN ≡ 3 }
    ensures game_gap { GAME_GAP ≡ 4 }
    ensures game_back { GAME_BACK ≡ 5 }
    ensures game_ended { GAME_ENDED ≡ 6 }
    ensures game_lost { GAME_LOST ≡ 7 }
    ensures game_found { GAME_FOUND ≡ 8 }
    ensures result_white_wins { RESULT_WHITE_WINS ≡ 1 }
    ensures result_black_wins { RESULT_BLACK_WINS ≡ 2 }
    ensures result_draw { RESULT_DRAW ≡ 3 }
{}

/// The constants of one kind differ: each is greater than the last.
pub fn cases_differ()
    ensures clocks { Ascend (CLOCK_UNKNOWN ∷ CLOCK_TIMES ∷ CLOCK_NONE ∷ []) }
    ensures events { Ascend (EVENT_NONE ∷ EVENT_DUMP ∷ EVENT_FIELD ∷ EVENT_TIMES ∷ EVENT_NO_CLOCK
        ∷ EVENT_ACK ∷ EVENT_SERIAL ∷ EVENT_TRADEMARK ∷ EVENT_VERSION ∷ EVENT_BATTERY
        ∷ EVENT_LONG_SERIAL ∷ EVENT_OTHER ∷ EVENT_REFUSED ∷ EVENT_CUT ∷ EVENT_BAD_LENGTH
        ∷ EVENT_STRAY ∷ []) }
    ensures faults { Ascend (FAULT_NONE ∷ FAULT_WRONG_SIZE ∷ FAULT_BAD_PIECE ∷ FAULT_BAD_SQUARE
        ∷ FAULT_BAD_READING ∷ []) }
    ensures words { Ascend (COMMAND_NONE ∷ COMMAND_READ ∷ COMMAND_BAD_SIZE ∷ COMMAND_BAD_START
        ∷ COMMAND_BAD_END ∷ COMMAND_STRAY ∷ []) }
    ensures statuses { Ascend (DONE ∷ TOO_MANY_AWAITED ∷ NO_ROOM ∷ REFUSED ∷ []) }
    ensures starts { Ascend (STARTED ∷ START_BAD_PIECES ∷ START_BAD_CLOCK ∷ START_BAD_IDENTITY
        ∷ []) }
    ensures polls { Ascend (POLLED_NOTHING ∷ POLLED_WROTE ∷ []) }
    ensures modes { Ascend (MODE_IDLE ∷ MODE_UPDATE ∷ MODE_UPDATE_BOARD ∷ MODE_UPDATE_NICE ∷ []) }
    ensures stored { Ascend (STORED_PIECE ∷ STORED_TIME ∷ STORED_MARK ∷ STORED_UNKNOWN ∷ []) }
    ensures signals { Ascend (SIGNAL_DONE ∷ SIGNAL_VERSION ∷ SIGNAL_PRESSED ∷ SIGNAL_OFF
        ∷ SIGNAL_READY ∷ []) }
    ensures turns { Ascend (CHESS_WHITE ∷ CHESS_BLACK ∷ []) }
    ensures chess { Ascend (CHESS_DONE ∷ CHESS_BAD_KINGS ∷ CHESS_EXTRA_PIECE ∷ CHESS_BAD_PAWN
        ∷ CHESS_IN_CHECK ∷ CHESS_BAD_RIGHTS ∷ CHESS_BAD_PASSED ∷ CHESS_BAD_NUMBER ∷ CHESS_BAD_MEMBER
        ∷ CHESS_BAD_TEXT ∷ CHESS_NO_MOVE ∷ CHESS_AMBIGUOUS ∷ []) }
    ensures sights { Ascend (SIGHT_SURE ∷ SIGHT_DOUBTED ∷ SIGHT_AWAY ∷ []) }
    ensures seen { Ascend (SEEN ∷ SEE_BAD_PIECES ∷ SEE_BAD_SIGHT ∷ SEE_BAD_SIDE ∷ SEE_STILL_DUE
        ∷ []) }
    ensures games { Ascend (GAME_BEGUN ∷ GAME_MADE ∷ GAME_UNSEEN ∷ GAME_GAP ∷ GAME_BACK ∷ GAME_ENDED
        ∷ GAME_LOST ∷ GAME_FOUND ∷ []) }
    ensures results { Ascend (RESULT_WHITE_WINS ∷ RESULT_BLACK_WINS ∷ RESULT_DRAW ∷ []) }
{}

/// The layouts of the structs of `dgt.h`: the size, the alignment, and the offsets of the members
/// in the order of the law [`members`]. A handle takes at most its size.
pub fn layouts()
    ensures host { FitsIn host_row 22528 8 (0 ∷ 8 ∷ []) }
    ensures follower { FitsIn follower_row 23552 8 (0 ∷ 8 ∷ []) }
    ensures decoder { FitsIn decoder_row 21504 8 (0 ∷ 8 ∷ []) }
    ensures command_decoder { FitsIn command_decoder_row 512 8 (0 ∷ 8 ∷ []) }
    ensures board { FitsIn board_row 1280 8 (0 ∷ 8 ∷ []) }
    ensures recogniser { FitsIn recogniser_row 16384 8 (0 ∷ 8 ∷ []) }
    ensures time { LiesAs time_row 4 1 (0 ∷ 1 ∷ 2 ∷ 3 ∷ []) }
    ensures clock { LiesAs clock_row 16 1 (0 ∷ 1 ∷ 2 ∷ 8 ∷ 12 ∷ []) }
    ensures event { LiesAs event_row 160 8 (0 ∷ 1 ∷ 2 ∷ 3 ∷ 4 ∷ 5 ∷ 6 ∷ 7 ∷ 8 ∷ 9 ∷ 10 ∷ 14 ∷ 19
        ∷ 35 ∷ 99 ∷ 128 ∷ 136 ∷ 144 ∷ 152 ∷ []) }
    ensures command { LiesAs command_row 16 8 (0 ∷ 1 ∷ 2 ∷ 3 ∷ 4 ∷ 8 ∷ []) }
    ensures told { LiesAs told_row 16 8 (0 ∷ 8 ∷ []) }
    ensures sent { LiesAs sent_row 16 8 (0 ∷ 8 ∷ []) }
    ensures body { LiesAs body_row 72 8 (0 ∷ 8 ∷ []) }
    ensures identity { LiesAs identity_row 256 8 (0 ∷ 5 ∷ 6 ∷ 7 ∷ 8 ∷ 80 ∷ 152 ∷ 224 ∷ []) }
    ensures taken { LiesAs taken_row 16 8 (0 ∷ 8 ∷ []) }
    ensures polled { LiesAs polled_row 16 8 (0 ∷ 8 ∷ []) }
    ensures encoded { LiesAs encoded_row 16 8 (0 ∷ 8 ∷ []) }
    ensures stored { LiesAs stored_row 16 1 (0 ∷ 1 ∷ 2 ∷ 3 ∷ 4 ∷ 5 ∷ 9 ∷ []) }
    ensures signal { LiesAs signal_row 8 1 (0 ∷ 1 ∷ 2 ∷ 3 ∷ 4 ∷ 5 ∷ []) }
    ensures battery { LiesAs battery_row 16 1 (0 ∷ 1 ∷ 2 ∷ 3 ∷ 4 ∷ 5 ∷ 6 ∷ 7 ∷ 8 ∷ 9 ∷ 10 ∷ []) }
    ensures parsed { LiesAs parsed_row 16 8 (0 ∷ 8 ∷ []) }
    ensures chess_state { LiesAs chess_state_row 80 2 (0 ∷ 64 ∷ 66 ∷ 68 ∷ 69 ∷ 73 ∷ 74 ∷ []) }
    ensures chess_move { LiesAs chess_move_row 4 1 (0 ∷ 1 ∷ 2 ∷ 3 ∷ []) }
    ensures chess_fen_read { LiesAs chess_fen_read_row 16 8 (0 ∷ 1 ∷ 8 ∷ []) }
    ensures game_event { LiesAs game_event_row 128 8 (0 ∷ 1 ∷ 2 ∷ 3 ∷ 4 ∷ 20 ∷ 100 ∷ 101 ∷ 120
        ∷ []) }
{}

/// The members of the structs of `dgt.h`, in the order of their declaration.
pub fn members()
    ensures time { (it : DgtTime) → time_type.as_values it ≡ it.hours ⊗ it.minutes ⊗ it.seconds
        ⊗ it.flags ⊗ tt }
    ensures clock { (it : DgtClock) → clock_type.as_values it ≡ it.kind ⊗ it.status ⊗ it.raw
        ⊗ it.first ⊗ it.second ⊗ tt }
    ensures event { (it : DgtEvent) → event_type.as_values it ≡ it.kind ⊗ it.unasked ⊗ it.code
        ⊗ it.square ⊗ it.piece ⊗ it.main_number ⊗ it.sub_number ⊗ it.byte ⊗ it.fault ⊗ it.ack_status
        ⊗ it.ack ⊗ it.serial ⊗ it.clock ⊗ it.pieces ⊗ it.reserved ⊗ it.have ⊗ it.at ⊗ it.body_len
        ⊗ it.place ⊗ tt }
    ensures command { (it : DgtCommand) → command_type.as_values it ≡ it.kind ⊗ it.code ⊗ it.id
        ⊗ it.byte ⊗ it.reserved ⊗ it.word_len ⊗ tt }
    ensures told { (it : DgtTold) → told_type.as_values it ≡ it.used ⊗ it.count ⊗ tt }
    ensures sent { (it : DgtSent) → sent_type.as_values it ≡ it.status ⊗ it.bytes ⊗ tt }
    ensures body { (it : DgtBody) → body_type.as_values it ≡ it.len ⊗ it.bytes ⊗ tt }
    ensures identity { (it : DgtIdentity) → identity_type.as_values it ≡ it.serial ⊗ it.main_number
        ⊗ it.sub_number ⊗ it.clock_version ⊗ it.trademark ⊗ it.battery ⊗ it.long_serial
        ⊗ it.reserved ⊗ tt }
    ensures taken { (it : DgtTaken) → taken_type.as_values it ≡ it.busy ⊗ it.used ⊗ tt }
    ensures polled { (it : DgtPolled) → polled_type.as_values it ≡ it.status ⊗ it.bytes ⊗ tt }
    ensures encoded { (it : DgtEncoded) → encoded_type.as_values it ≡ it.status ⊗ it.bytes ⊗ tt }
    ensures stored { (it : DgtStored) → stored_type.as_values it ≡ it.kind ⊗ it.square ⊗ it.piece
        ⊗ it.bit ⊗ it.byte ⊗ it.time ⊗ it.reserved ⊗ tt }
    ensures signal { (it : DgtSignal) → signal_type.as_values it ≡ it.kind ⊗ it.id ⊗ it.main_number
        ⊗ it.sub_number ⊗ it.button ⊗ it.reserved ⊗ tt }
    ensures battery { (it : DgtBattery) → battery_type.as_values it ≡ it.percent ⊗ it.hours_left
        ⊗ it.minutes_left ⊗ it.hours_on ⊗ it.minutes_on ⊗ it.days_resting ⊗ it.hours_resting
        ⊗ it.minutes_resting ⊗ it.charging ⊗ it.discharging ⊗ it.reserved ⊗ tt }
    ensures parsed { (it : DgtParsed) → parsed_type.as_values it ≡ it.ok ⊗ it.at ⊗ tt }
    ensures chess_state { (it : DgtChessState) → chess_state_type.as_values it ≡ it.pieces
        ⊗ it.half_moves ⊗ it.number ⊗ it.turn ⊗ it.rights ⊗ it.passed ⊗ it.reserved ⊗ tt }
    ensures chess_move { (it : DgtChessMove) → chess_move_type.as_values it ≡ it.from ⊗ it.to
        ⊗ it.promotion ⊗ it.reserved ⊗ tt }
    ensures chess_fen_read { (it : DgtChessFenRead) → chess_fen_read_type.as_values it ≡ it.status
        ⊗ it.field ⊗ it.at ⊗ tt }
    ensures game_event { (it : DgtGameEvent) → game_event_type.as_values it ≡ it.kind ⊗ it.count
        ⊗ it.result ⊗ it.turned ⊗ it.moves ⊗ it.state ⊗ it.stays ⊗ it.reserved ⊗ it.squares ⊗ tt }
{}

/// A clone is the value itself, and cloning never fails.
pub fn clone_is_same()
    ensures time { CloneIsSame ⟦<DgtTime as Clone>⟧ }
    ensures clock { CloneIsSame ⟦<DgtClock as Clone>⟧ }
    ensures event { CloneIsSame ⟦<DgtEvent as Clone>⟧ }
    ensures command { CloneIsSame ⟦<DgtCommand as Clone>⟧ }
    ensures told { CloneIsSame ⟦<DgtTold as Clone>⟧ }
    ensures sent { CloneIsSame ⟦<DgtSent as Clone>⟧ }
    ensures body { CloneIsSame ⟦<DgtBody as Clone>⟧ }
    ensures identity { CloneIsSame ⟦<DgtIdentity as Clone>⟧ }
    ensures taken { CloneIsSame ⟦<DgtTaken as Clone>⟧ }
    ensures polled { CloneIsSame ⟦<DgtPolled as Clone>⟧ }
    ensures encoded { CloneIsSame ⟦<DgtEncoded as Clone>⟧ }
    ensures stored { CloneIsSame ⟦<DgtStored as Clone>⟧ }
    ensures signal { CloneIsSame ⟦<DgtSignal as Clone>⟧ }
    ensures battery { CloneIsSame ⟦<DgtBattery as Clone>⟧ }
    ensures parsed { CloneIsSame ⟦<DgtParsed as Clone>⟧ }
    ensures chess_state { CloneIsSame ⟦<DgtChessState as Clone>⟧ }
    ensures chess_move { CloneIsSame ⟦<DgtChessMove as Clone>⟧ }
    ensures chess_fen_read { CloneIsSame ⟦<DgtChessFenRead as Clone>⟧ }
    ensures game_event { CloneIsSame ⟦<DgtGameEvent as Clone>⟧ }
{}
