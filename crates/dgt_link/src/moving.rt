//! The acts on a board, a host and the lines between them. Each function makes the exact step of
//! its act, whatever world it is in.

ghost use Rattle.std.specs.Prelude.{◌≡◌, ◌+◌, ◌<◌, ◌≤◌, [], Some, length, take};
ghost use Rattle.dgt_values.specs.declared.kinds.Kind.{Kind};
ghost use Rattle.dgt_command.specs.Content.{command_content};
ghost use Rattle.dgt_command.specs.Encoding.{AreBytes};
ghost use Rattle.dgt_board.specs.View.{HasTaken};
ghost use Rattle.dgt_host.specs.Host.{host_after, new_host, host_awaiting, restart_bytes};
ghost use Rattle.dgt_link.specs.Act.{ActContent, act_content};
ghost use Rattle.dgt_link.specs.Faults.{FaultyContent, FaultyStep, holding_outcome};
ghost use Rattle.dgt_link.specs.Step.{IfDone, StaysUnfinished, Step};
ghost use Rattle.dgt_link.specs.View.{WorldView, line_holding, with_bytes, without_first, world_of};

use crate::acts::{Act, Outcome};
use crate::line::Line;
use dgt_board::{Board, MAX_OWED, MAX_SENT, Polled};
use dgt_command::{Command, MAX_WORD};
use dgt_host::{Host, RESTART_LENGTH, SendFault};

/// The host sends a command into the line.
pub fn ask(host: &mut Host, line: &mut Line, command: &Command<'_>) -> Outcome
    ensures { (world : WorldView) → Step (ActContent.Host (command_content command.now))
        (record world { host = host.old; down = line.old }) result
        (record world { host = host.new; down = line.new }) }
{
    let mut bytes = [0; MAX_WORD];
    let room = bytes.len().min(line.room());
    match host.send(command, &mut bytes[..room]) {
        Ok(count) => {
            line.push(&bytes[..count]);
            Outcome::Done
        }
        Err(SendFault::TooMany) => Outcome::TooMany,
        Err(SendFault::NoRoom { .. }) => Outcome::NoRoom,
    }
}

/// Both lines lose their bytes, and only the host notices: it is as new, and starts over.
pub fn restart(host: &mut Host, from_board: &mut Line, down: &mut Line)
    requires { RESTART_LENGTH ≤ down.old.capacity }
    ensures host { host.new ≡ host_awaiting new_host (Some Kind.Dump) }
    ensures from_board { from_board.new ≡ line_holding [] from_board.old.capacity }
    ensures down { down.new ≡ line_holding restart_bytes down.old.capacity }
{
    from_board.clear();
    down.clear();
    host.line_lost();
    begin_anew(host, down);
}

/// The host gives up what it awaits and starts over: its restart bytes follow those in the line, if
/// there is room.
pub fn restart_behind(host: &mut Host, line: &mut Line) -> Outcome
    ensures { (world : WorldView) → FaultyStep FaultyContent.Restart
        (record world { host = host.old; down = line.old }) result
        (record world { host = host.new; down = line.new }) }
{
    if line.room() < RESTART_LENGTH {
        return Outcome::NoRoom;
    }
    host.give_up_awaited();
    begin_anew(host, line);
    Outcome::Done
}

// A host that awaits nothing appends its restart bytes to the line.
fn begin_anew(host: &mut Host, line: &mut Line)
    requires awaited { host.old.awaited ≡ [] }
    requires room { length line.old.bytes + RESTART_LENGTH ≤ line.old.capacity }
    ensures host { host.new ≡ host_awaiting host.old (Some Kind.Dump) }
    ensures line { line.new ≡ with_bytes line.old restart_bytes }
{
    let mut bytes = [0; RESTART_LENGTH];
    let count = host.restart(&mut bytes).unwrap();
    line.push(&bytes[..count]);
}

/// Replaces the bytes of the line by these, if they fit.
pub fn hold(line: &mut Line, bytes: &[u8]) -> Outcome
    ensures outcome { result ≡ holding_outcome line.old bytes.now }
    ensures leaves { IfDone result (line.new ≡ line_holding bytes.now line.old.capacity)
        (line.new ≡ line.old) }
    ensures bytes { AreBytes bytes.now }
{
    if line.capacity() < bytes.len() {
        return Outcome::NoRoom;
    }
    line.clear();
    line.push(bytes);
    Outcome::Done
}

/// Does an act of a world with this board, this host and these lines.
pub fn act_on(
    board: &mut Board,
    host: &mut Host,
    up: &mut Line,
    down: &mut Line,
    act: Act<'_>,
) -> Outcome
    requires { RESTART_LENGTH ≤ down.old.capacity }
    ensures { Step (act_content act.entry)
        (world_of board.old host.old up.old down.old) result
        (world_of board.new host.new up.new down.new) }
{
    match act {
        Act::Change(square, piece) => {
            board.change(square, piece);
            Outcome::Done
        }
        Act::ClockRead(clock) => {
            board.hand_clock(clock);
            Outcome::Done
        }
        Act::Host(command) => ask(host, down, &command),
        Act::BoardSend => send_next(board, up),
        Act::ToBoard(count) => to_board(board, down, count),
        Act::ToHost(count) => to_host(host, up, count),
        Act::Break => {
            board.line_lost();
            host.line_lost();
            up.clear();
            down.clear();
            Outcome::Done
        }
        Act::HostBreak => {
            restart(host, up, down);
            Outcome::Done
        }
    }
}

/// The board writes its next message into the line.
pub fn send_next(board: &mut Board, line: &mut Line) -> Outcome
    ensures sends { (world : WorldView) → Step ActContent.BoardSend
        (record world { board = board.old; up = line.old }) result
        (record world { board = board.new; up = line.new }) }
    ensures room { result ≡ Outcome.NoRoom → line.old.capacity < length line.old.bytes + MAX_SENT }
{
    let mut bytes = [0; MAX_SENT];
    let room = bytes.len().min(line.room());
    match board.poll(&mut bytes[..room]) {
        Polled::Wrote(count) => {
            line.push(&bytes[..count]);
            Outcome::Done
        }
        Polled::NeedRoom(_) => Outcome::NoRoom,
        Polled::Nothing => Outcome::Nothing,
    }
}

// The board takes the oldest bytes of the line, at most `most` of them, up to the end of a command
// or a fault. Returns how many.
fn take_front(board: &mut Board, line: &mut Line, most: usize) -> usize
    requires most { 0 < most }
    requires some { 0 < length line.old.bytes }
    requires room { length board.old.state.owed < MAX_OWED }
    ensures some { 0 < result }
    ensures most { result ≤ most }
    ensures within { result ≤ length line.old.bytes }
    ensures taken { HasTaken board.old (take result line.old.bytes) board.new }
    ensures earlier { StaysUnfinished board.old line.old.bytes result }
    ensures left { line.new ≡ without_first line.old result }
{
    let front = line.front();
    let used = board.take(&front[..front.len().min(most)]).unwrap().used;
    line.drop_first(used);
    used
}

// The host hears the oldest bytes of the line, at most `most` of them, up to its next event.
// Returns how many.
fn hear_front(host: &mut Host, line: &mut Line, most: usize) -> usize
    requires most { 0 < most }
    requires some { 0 < length line.old.bytes }
    ensures some { 0 < result }
    ensures most { result ≤ most }
    ensures within { result ≤ length line.old.bytes }
    ensures heard { host.new ≡ host_after host.old (take result line.old.bytes) }
    ensures left { line.new ≡ without_first line.old result }
{
    let front = line.front();
    let used = host.hear(&front[..front.len().min(most)]).used;
    line.drop_first(used);
    used
}

/// The board takes bytes of the line, one by one, until it has taken `count`, none is left or it
/// owes as many replies as it can.
pub fn to_board(board: &mut Board, line: &mut Line, count: usize) -> Outcome
    ensures { (world : WorldView) → Step (ActContent.ToBoard count)
        (record world { board = board.old; down = line.old }) result
        (record world { board = board.new; down = line.new }) }
{
    dgt_board::laws::takings_append();
    if count == 0 || line.is_empty() {
        return Outcome::Nothing;
    }
    if board.owed_len() >= MAX_OWED {
        return Outcome::Busy;
    }
    let most = count.min(line.len());
    let mut moved = 0;
    while moved < most && board.owed_len() < MAX_OWED {
        moved += take_front(board, line, most - moved);
    }
    Outcome::Done
}

/// The host hears bytes of the line, one by one, until it has heard `count` or none is left.
pub fn to_host(host: &mut Host, line: &mut Line, count: usize) -> Outcome
    ensures { (world : WorldView) → Step (ActContent.ToHost count)
        (record world { host = host.old; up = line.old }) result
        (record world { host = host.new; up = line.new }) }
{
    dgt_host::laws::heard_in_chunks();
    if count == 0 || line.is_empty() {
        return Outcome::Nothing;
    }
    let most = count.min(line.len());
    let mut moved = 0;
    while moved < most {
        moved += hear_front(host, line, most - moved);
    }
    Outcome::Done
}
