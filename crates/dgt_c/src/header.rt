//! The numbers and the structs of `dgt.h`, which describes them. The laws of `laws::header`, which
//! tools/c_boundary generates from `dgt.h`, compare them with it.

use dgt_board::MAX_KEPT_BODY;
use dgt_game::GAP;

/// Enough room for any placement and a zero byte.
pub const PLACEMENT_ROOM: usize = 72;

/// The size of a `dgt_host` in bytes, more than the handle and the host need today.
pub const HOST_ROOM: usize = 22 * 1024;

/// The size of a `dgt_follower` in bytes.
pub const FOLLOWER_ROOM: usize = 23 * 1024;

/// The size of a `dgt_decoder` in bytes.
pub const DECODER_ROOM: usize = 21 * 1024;

/// The size of a `dgt_command_decoder` in bytes.
pub const COMMAND_DECODER_ROOM: usize = 512;

/// The size of a `dgt_board` in bytes.
pub const BOARD_ROOM: usize = 1280;

/// The size of a `dgt_recogniser` in bytes.
pub const RECOGNISER_ROOM: usize = 16 * 1024;

/// The number for no piece, no square and no segments.
pub const NONE: u8 = 255;

/// No clock was reported.
pub const CLOCK_UNKNOWN: u8 = 0;

/// The clock shows the times of both players.
pub const CLOCK_TIMES: u8 = 1;

/// No clock is connected.
pub const CLOCK_NONE: u8 = 2;

pub const EVENT_NONE: u8 = 0;

pub const EVENT_DUMP: u8 = 1;

pub const EVENT_FIELD: u8 = 2;

pub const EVENT_TIMES: u8 = 3;

pub const EVENT_NO_CLOCK: u8 = 4;

pub const EVENT_ACK: u8 = 5;

pub const EVENT_SERIAL: u8 = 6;

pub const EVENT_TRADEMARK: u8 = 7;

pub const EVENT_VERSION: u8 = 8;

pub const EVENT_BATTERY: u8 = 9;

pub const EVENT_LONG_SERIAL: u8 = 10;

pub const EVENT_OTHER: u8 = 11;

pub const EVENT_REFUSED: u8 = 12;

pub const EVENT_CUT: u8 = 13;

pub const EVENT_BAD_LENGTH: u8 = 14;

pub const EVENT_STRAY: u8 = 15;

pub const FAULT_NONE: u8 = 0;

pub const FAULT_WRONG_SIZE: u8 = 1;

pub const FAULT_BAD_PIECE: u8 = 2;

pub const FAULT_BAD_SQUARE: u8 = 3;

pub const FAULT_BAD_READING: u8 = 4;

pub const COMMAND_NONE: u8 = 0;

pub const COMMAND_READ: u8 = 1;

pub const COMMAND_BAD_SIZE: u8 = 2;

pub const COMMAND_BAD_START: u8 = 3;

pub const COMMAND_BAD_END: u8 = 4;

pub const COMMAND_STRAY: u8 = 5;

pub const DONE: u8 = 0;

pub const TOO_MANY_AWAITED: u8 = 1;

pub const NO_ROOM: u8 = 2;

pub const REFUSED: u8 = 3;

pub const STARTED: u8 = 0;

pub const START_BAD_PIECES: u8 = 1;

pub const START_BAD_CLOCK: u8 = 2;

pub const START_BAD_IDENTITY: u8 = 3;

pub const POLLED_NOTHING: u8 = 0;

pub const POLLED_WROTE: u8 = 1;

pub const MODE_IDLE: u8 = 0;

pub const MODE_UPDATE: u8 = 1;

pub const MODE_UPDATE_BOARD: u8 = 2;

pub const MODE_UPDATE_NICE: u8 = 3;

pub const STORED_PIECE: u8 = 1;

pub const STORED_TIME: u8 = 2;

pub const STORED_MARK: u8 = 3;

pub const STORED_UNKNOWN: u8 = 4;

pub const SIGNAL_DONE: u8 = 1;

pub const SIGNAL_VERSION: u8 = 2;

pub const SIGNAL_PRESSED: u8 = 3;

pub const SIGNAL_OFF: u8 = 4;

pub const SIGNAL_READY: u8 = 5;

/// The number for what a battery doesn't report.
pub const BATTERY_UNKNOWN: u8 = 127;

/// The number of the side that moves first.
pub const CHESS_WHITE: u8 = 0;

pub const CHESS_BLACK: u8 = 1;

pub const CHESS_DONE: u8 = 0;

pub const CHESS_BAD_KINGS: u8 = 1;

pub const CHESS_EXTRA_PIECE: u8 = 2;

pub const CHESS_BAD_PAWN: u8 = 3;

pub const CHESS_IN_CHECK: u8 = 4;

pub const CHESS_BAD_RIGHTS: u8 = 5;

pub const CHESS_BAD_PASSED: u8 = 6;

pub const CHESS_BAD_NUMBER: u8 = 7;

pub const CHESS_BAD_MEMBER: u8 = 8;

pub const CHESS_BAD_TEXT: u8 = 9;

pub const CHESS_NO_MOVE: u8 = 10;

pub const CHESS_AMBIGUOUS: u8 = 11;

/// Enough room for the FEN of any state and a zero byte.
pub const CHESS_FEN_ROOM: usize = 96;

/// Enough room for the text of any move and a zero byte.
pub const CHESS_SAN_ROOM: usize = 16;

pub const SIGHT_SURE: u8 = 0;

pub const SIGHT_DOUBTED: u8 = 1;

pub const SIGHT_AWAY: u8 = 2;

pub const SEEN: u8 = 0;

pub const SEE_BAD_PIECES: u8 = 1;

pub const SEE_BAD_SIGHT: u8 = 2;

pub const SEE_BAD_SIDE: u8 = 3;

pub const SEE_STILL_DUE: u8 = 4;

pub const GAME_BEGUN: u8 = 1;

pub const GAME_MADE: u8 = 2;

pub const GAME_UNSEEN: u8 = 3;

pub const GAME_GAP: u8 = 4;

pub const GAME_BACK: u8 = 5;

pub const GAME_ENDED: u8 = 6;

pub const GAME_LOST: u8 = 7;

pub const GAME_FOUND: u8 = 8;

pub const RESULT_WHITE_WINS: u8 = 1;

pub const RESULT_BLACK_WINS: u8 = 2;

pub const RESULT_DRAW: u8 = 3;

/// The time of one player.
#[repr(C)]
#[derive(Clone, Copy)]
pub struct DgtTime {
    pub hours: u8,
    pub minutes: u8,
    pub seconds: u8,
    pub flags: u8,
}

/// What a clock shows.
#[repr(C)]
#[derive(Clone, Copy)]
pub struct DgtClock {
    pub kind: u8,
    pub status: u8,
    pub raw: [u8; 6],
    pub first: DgtTime,
    pub second: DgtTime,
}

pub(crate) const NO_TIME: DgtTime = DgtTime {
    hours: 0,
    minutes: 0,
    seconds: 0,
    flags: 0,
};

/// No clock was reported.
pub const UNKNOWN_CLOCK: DgtClock = DgtClock {
    kind: CLOCK_UNKNOWN,
    status: 0,
    raw: [0; 6],
    first: NO_TIME,
    second: NO_TIME,
};

/// An event.
#[repr(C)]
#[derive(Clone, Copy)]
pub struct DgtEvent {
    pub kind: u8,
    pub unasked: u8,
    pub code: u8,
    pub square: u8,
    pub piece: u8,
    pub main_number: u8,
    pub sub_number: u8,
    pub byte: u8,
    pub fault: u8,
    pub ack_status: u8,
    pub ack: [u8; 4],
    pub serial: [u8; 5],
    pub clock: DgtClock,
    pub pieces: [u8; 64],
    pub reserved: [u8; 29],
    pub have: usize,
    pub at: usize,
    pub body_len: usize,
    pub place: usize,
}

/// No event.
pub const NOTHING: DgtEvent = DgtEvent {
    kind: EVENT_NONE,
    unasked: 0,
    code: 0,
    square: 0,
    piece: 0,
    main_number: 0,
    sub_number: 0,
    byte: 0,
    fault: FAULT_NONE,
    ack_status: 0,
    ack: [0; 4],
    serial: [0; 5],
    clock: UNKNOWN_CLOCK,
    pieces: [0; 64],
    reserved: [0; 29],
    have: 0,
    at: 0,
    body_len: 0,
    place: 0,
};

/// How much of a chunk was read.
#[repr(C)]
#[derive(Clone, Copy)]
pub struct DgtTold {
    pub used: usize,
    pub count: usize,
}

/// A frame from a host: a command or a fault.
#[repr(C)]
#[derive(Clone, Copy)]
pub struct DgtCommand {
    pub kind: u8,
    pub code: u8,
    pub id: u8,
    pub byte: u8,
    pub reserved: [u8; 4],
    pub word_len: usize,
}

/// No frame was completed.
pub const NO_WORD: DgtCommand = DgtCommand {
    kind: COMMAND_NONE,
    code: 0,
    id: 0,
    byte: 0,
    reserved: [0; 4],
    word_len: 0,
};

/// The result of a sending.
#[repr(C)]
#[derive(Clone, Copy)]
pub struct DgtSent {
    pub status: u8,
    pub bytes: usize,
}

/// There is no such command.
pub const NO_SUCH_COMMAND: DgtSent = DgtSent {
    status: REFUSED,
    bytes: 0,
};

/// The result of an encoding.
#[repr(C)]
#[derive(Clone, Copy)]
pub struct DgtEncoded {
    pub status: u8,
    pub bytes: usize,
}

/// There is no such message or command.
pub const NOTHING_ENCODED: DgtEncoded = DgtEncoded {
    status: REFUSED,
    bytes: 0,
};

/// The bytes of a body.
#[repr(C)]
#[derive(Clone, Copy)]
pub struct DgtBody {
    pub len: usize,
    pub bytes: [u8; MAX_KEPT_BODY],
}

/// What a board reports of itself.
#[repr(C)]
#[derive(Clone, Copy)]
pub struct DgtIdentity {
    pub serial: [u8; 5],
    pub main_number: u8,
    pub sub_number: u8,
    pub clock_version: u8,
    pub trademark: DgtBody,
    pub battery: DgtBody,
    pub long_serial: DgtBody,
    pub reserved: [u8; 32],
}

/// The result of a taking.
#[repr(C)]
#[derive(Clone, Copy)]
pub struct DgtTaken {
    pub busy: bool,
    pub used: usize,
}

/// The result of a poll.
#[repr(C)]
#[derive(Clone, Copy)]
pub struct DgtPolled {
    pub status: u8,
    pub bytes: usize,
}

/// The result of reading a text.
#[repr(C)]
#[derive(Clone, Copy)]
pub struct DgtParsed {
    pub ok: bool,
    pub at: usize,
}

/// A stored item.
#[repr(C)]
#[derive(Clone, Copy)]
pub struct DgtStored {
    pub kind: u8,
    pub square: u8,
    pub piece: u8,
    pub bit: u8,
    pub byte: u8,
    pub time: DgtTime,
    pub reserved: [u8; 7],
}

/// No stored item.
pub const NO_STORED: DgtStored = DgtStored {
    kind: 0,
    square: 0,
    piece: 0,
    bit: 0,
    byte: 0,
    time: NO_TIME,
    reserved: [0; 7],
};

/// A signal of a clock.
#[repr(C)]
#[derive(Clone, Copy)]
pub struct DgtSignal {
    pub kind: u8,
    pub id: u8,
    pub main_number: u8,
    pub sub_number: u8,
    pub button: u8,
    pub reserved: [u8; 3],
}

/// No signal.
pub const NO_SIGNAL: DgtSignal = DgtSignal {
    kind: 0,
    id: 0,
    main_number: 0,
    sub_number: 0,
    button: 0,
    reserved: [0; 3],
};

/// The state of a battery.
#[repr(C)]
#[derive(Clone, Copy)]
pub struct DgtBattery {
    pub percent: u8,
    pub hours_left: u8,
    pub minutes_left: u8,
    pub hours_on: u8,
    pub minutes_on: u8,
    pub days_resting: u8,
    pub hours_resting: u8,
    pub minutes_resting: u8,
    pub charging: u8,
    pub discharging: u8,
    pub reserved: [u8; 6],
}

/// A state of a game.
#[repr(C)]
#[derive(Clone, Copy)]
pub struct DgtChessState {
    pub pieces: [u8; 64],
    pub half_moves: u16,
    pub number: u16,
    pub turn: u8,
    pub rights: [u8; 4],
    pub passed: u8,
    pub reserved: [u8; 6],
}

/// A move.
#[repr(C)]
#[derive(Clone, Copy)]
pub struct DgtChessMove {
    pub from: u8,
    pub to: u8,
    pub promotion: u8,
    pub reserved: u8,
}

pub(crate) const NO_CHESS_STATE: DgtChessState = DgtChessState {
    pieces: [0; 64],
    half_moves: 0,
    number: 0,
    turn: 0,
    rights: [0; 4],
    passed: 0,
    reserved: [0; 6],
};

pub(crate) const NO_CHESS_MOVE: DgtChessMove = DgtChessMove {
    from: 0,
    to: 0,
    promotion: 0,
    reserved: 0,
};

/// An event of a game.
#[repr(C)]
#[derive(Clone, Copy)]
pub struct DgtGameEvent {
    pub kind: u8,
    pub count: u8,
    pub result: u8,
    pub turned: u8,
    pub moves: [DgtChessMove; GAP],
    pub state: DgtChessState,
    pub stays: u8,
    pub reserved: [u8; 19],
    pub squares: u64,
}

/// No event of a game.
pub const NO_GAME_EVENT: DgtGameEvent = DgtGameEvent {
    kind: 0,
    count: 0,
    result: 0,
    turned: 0,
    moves: [NO_CHESS_MOVE; GAP],
    state: NO_CHESS_STATE,
    stays: 0,
    reserved: [0; 19],
    squares: 0,
};

/// The result of reading a FEN.
#[repr(C)]
#[derive(Clone, Copy)]
pub struct DgtChessFenRead {
    pub status: u8,
    pub field: u8,
    pub at: usize,
}
