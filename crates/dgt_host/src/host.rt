ghost use Rattle.std.specs.Prelude.{◌≡◌, ◌<◌, ◌≤◌, ◌↔◌, ◌∷◌, [], ◌++◌, IsTrue, length, replicate, take, option_map, OnOk, Some};
ghost use Rattle.std.specs.Borrow.{sem};
ghost use Rattle.std.specs.Io.BufRead.{Rests};
ghost use Rattle.dgt_values.specs.Board.{pieces_of};
ghost use Rattle.dgt_message.specs.Content.{clock_seen};
ghost use Rattle.dgt_command.specs.Content.{command_content, requested_kind};
ghost use Rattle.dgt_command.specs.Encoding.{command_encoding, EncodesCommand};
ghost use Rattle.dgt_decode.specs.Grammar.{unfinished_message};
ghost use Rattle.dgt_decode.specs.Feeding.{FirstEvent, event_content_if_any};
ghost use Rattle.dgt_host.specs.Confirmed.{changes_by};
ghost use Rattle.dgt_host.specs.Host.{IsUnasked, Sends, awaits_too_many, follow_bytes, host_after, new_host, restart_bytes, without_awaited};

use crate::hearing::{Heard, hear_event};
use crate::sending::SendFault;
use arrayvec::ArrayVec;
use dgt_command::{Command, MAX_WORD, encode, kind_of_command, length};
use dgt_decode::{Framer, MAX_TOTAL, laws};
use dgt_message::Clock;
use dgt_values::{Kind, Position};
use std::marker::Model;

/// The most replies that a host can await.
pub const MAX_AWAITED: usize = 16;

/// The commands `UpdateBoard` and `Dump`.
const FOLLOW: [u8; 2] = [0x44, 0x42];

/// This many bytes `00` complete any unfinished command of a board, and request nothing.
const SETTLING_ZEROS: usize = 255;

/// The bytes of a restart: zeros, `UpdateBoard` and `Dump`.
pub const RESTART_LENGTH: usize = SETTLING_ZEROS + 2;

/// The state of a host: what it knows of a board, which replies it awaits, and the unread bytes of
/// an unfinished message.
#[derive(Drop)]
pub struct Host {
    framer: Framer,
    picture: Option<Position>,
    clock: Option<Clock>,
    awaited: ArrayVec<Kind, MAX_AWAITED>,
}

impl Model for Host {
    ghost use Rattle.dgt_decode.specs.Grammar.{unfinished_message};
    ghost use Rattle.dgt_host.specs.Host.{HostView, host_seen};

    ghost Value = { HostView };

    ghost view = { λ host.
        host_seen host.picture host.clock host.awaited.items (unfinished_message host.framer) };
}

impl Host {
    ghost use Rattle.dgt_host.specs.contracts.host.Host.{the_row};

    /// A host that knows nothing yet and awaits nothing.
    pub fn new() -> Self
        ensures { result ≡ new_host }
    {
        Host {
            framer: Framer::new(),
            picture: None,
            clock: None,
            awaited: ArrayVec::new(),
        }
    }

    /// Writes a command at the beginning of the slice, and returns how many bytes it takes. The
    /// bytes after it stay as they were. If the command requests a reply of a `Kind`, that kind is
    /// appended to the awaited replies.
    ///
    /// Returns `TooMany` if the reply is of a `Kind` and 16 are awaited, and otherwise `NoRoom` if
    /// the slice is shorter than the command.
    pub fn send(&mut self, command: &Command<'_>, out: &mut [u8]) -> Result<usize, SendFault>
        ensures sends { let said = command_content command.now in
            Sends (record { kind = requested_kind said; bytes = command_encoding said })
            self.old self.new out.old out.new result }
        ensures encodes { let said = command_content command.now in
            OnOk result (EncodesCommand said (command_encoding said)) }
        ensures limit { length (command_encoding (command_content command.now)) ≤ MAX_WORD }
    {
        let kind = kind_of_command(command);
        if self.lacks_room_for(kind) {
            return Err(SendFault::TooMany);
        }
        let need = length(command);
        let written = encode(command, out).map_err(|_| SendFault::NoRoom { need })?;
        if let Some(kind) = kind {
            self.awaited.push(kind);
        }
        Ok(written)
    }

    /// Requests all that the picture needs: writes `UpdateBoard` and `Dump`, the bytes `44 42`, at
    /// the beginning of the slice, and returns 2. The dump is then awaited.
    ///
    /// Returns `TooMany` if 16 replies are awaited, and otherwise `NoRoom` if the slice is shorter
    /// than 2.
    pub fn follow(&mut self, out: &mut [u8]) -> Result<usize, SendFault>
        ensures { Sends (record { kind = Some Kind.Dump; bytes = follow_bytes })
            self.old self.new out.old out.new result }
    {
        self.ask_for_dump(0, out)
    }

    /// Starts over with a board that may have received only part of a command, and returns 257. It
    /// writes 255 bytes `00` at the beginning of the slice, which complete that command as a clock
    /// message, an LED frame or a fault. Then it writes `UpdateBoard` and `Dump`, as
    /// [`Host::follow`] does. The dump is then awaited.
    ///
    /// Use it at the start if another program may have used the line before.
    ///
    /// Returns `TooMany` if 16 replies are awaited, and otherwise `NoRoom` if the slice is shorter
    /// than 257.
    pub fn restart(&mut self, out: &mut [u8]) -> Result<usize, SendFault>
        ensures { Sends (record { kind = Some Kind.Dump; bytes = restart_bytes })
            self.old self.new out.old out.new result }
    {
        self.ask_for_dump(SETTLING_ZEROS, out)
    }

    // Writes this many bytes `00`, and then the commands for updates and a dump.
    fn ask_for_dump(&mut self, zeros: usize, out: &mut [u8]) -> Result<usize, SendFault>
        requires { zeros ≤ SETTLING_ZEROS }
        ensures { let bytes = replicate zeros 0 ++ follow_bytes in
            Sends (record { kind = Some Kind.Dump; bytes = bytes })
            self.old self.new out.old out.new result }
    {
        if self.awaited.is_full() {
            return Err(SendFault::TooMany);
        }
        let need = zeros + FOLLOW.len();
        if out.len() < need {
            return Err(SendFault::NoRoom { need });
        }
        out[..zeros].fill(0);
        out[zeros..need].copy_from_slice(&FOLLOW);
        self.awaited.push(Kind::Dump);
        Ok(need)
    }

    /// Reports that the line to the board was lost, with all bytes under way. The host is then as
    /// new: it knows no picture and no clock, awaits nothing, and holds no byte of an unfinished
    /// message.
    ///
    /// Call `follow` when the line is back.
    pub fn line_lost(&mut self)
        ensures { self.new ≡ new_host }
    {
        self.framer.reset();
        self.picture = None;
        self.clock = None;
        self.awaited.clear();
    }

    /// Removes all awaited replies from the list, and returns how many there were. The picture, the
    /// clock and the unread bytes stay as they are.
    ///
    /// Call it when a reply is overdue. If bytes were lost or altered, that reply may never arrive,
    /// and until then each other reply counts as unasked. A reply that arrives after this call is
    /// unasked, too. Call [`Host::restart`] or [`Host::send`] next to ask again: the picture stays
    /// known until a new dump replaces it.
    pub fn give_up_awaited(&mut self) -> usize
        ensures gives_up { self.new ≡ without_awaited self.old }
        ensures count { result ≡ length self.old.awaited }
    {
        let count = self.awaited.len();
        self.awaited = ArrayVec::new();
        count
    }

    fn lacks_room_for(&self, kind: Option<Kind>) -> bool
        ensures { result ≡ awaits_too_many self.now kind }
    {
        kind.is_some() && self.awaited.is_full()
    }

    /// The position of the board, or `None` before the first dump.
    pub fn picture(&self) -> Option<&Position>
        ensures { option_map (λ position. pieces_of position.now) result ≡ self.now.picture }
    {
        self.picture.as_ref()
    }

    /// The clock as last reported, or `None` before the first report.
    pub fn clock(&self) -> Option<&Clock>
        ensures { option_map (λ clock. clock_seen clock.now) result ≡ self.now.clock }
    {
        self.clock.as_ref()
    }

    /// The kinds of the awaited replies, at most 16, in the order of their requests.
    pub fn awaited(&self) -> &[Kind]
        ensures kinds { result.now ≡ self.now.awaited }
        ensures at_most { length self.now.awaited ≤ MAX_AWAITED }
    {
        self.awaited.as_slice()
    }

    /// How many bytes of an unfinished message were received: fewer than [`MAX_TOTAL`].
    pub fn unread(&self) -> usize
        ensures len { result ≡ length self.now.unread }
        ensures all_unfinished { unfinished_message self.now.unread ≡ self.now.unread }
        ensures limit { length self.now.unread < MAX_TOTAL }
    {
        laws::unfinished_append();
        laws::unfinished_is_short();
        self.framer.unfinished_len()
    }

    /// Uses the bytes of the chunk up to and including the first that completes an event, or all of
    /// them. A message changes the picture, the clock and the awaited replies.
    ///
    /// The event borrows its body from the host until the next call. Call again with the remaining
    /// bytes: each call uses at least one byte, unless the chunk is empty.
    #[inline(always)]
    pub fn hear(&mut self, chunk: &[u8]) -> Heard<'_>
        ensures* after_borrow { sem 𝓛 (Rests the_row self.entry
            (λ new. new ≡ host_after self.old (take result.used chunk.now))) }
        ensures within { result.used ≤ length chunk.now }
        ensures first { FirstEvent self.old.unread chunk.now result.used
            (event_content_if_any result.event) }
        ensures unasked { IsTrue result.unasked
            ↔ IsUnasked self.old.awaited (event_content_if_any result.event) }
        ensures changed { result.changed
            ≡ changes_by self.old.picture (event_content_if_any result.event) }
        ensures progress { 0 < length chunk.now → 0 < result.used }
    {
        // It is inlined: otherwise an event is copied three times on its way to C.
        let advanced = self.framer.advance(chunk);
        let Some(found) = advanced.found else {
            return Heard {
                used: advanced.used,
                event: None,
                unasked: false,
                changed: false,
            };
        };
        let event = self.framer.event(found).unwrap();
        let noted = hear_event(
            &event,
            &mut self.picture,
            &mut self.clock,
            &mut self.awaited,
        );
        Heard {
            used: advanced.used,
            event: Some(event),
            unasked: noted.unasked,
            changed: noted.changed,
        }
    }

    /// Uses a whole chunk, as repeated calls of [`Host::hear`] do. It returns no events: see
    /// `picture`, `clock` and `awaited` afterwards.
    ///
    /// However the bytes are cut into chunks, the host is the same afterwards
    /// (`laws::heard_in_chunks`).
    pub fn hear_all(&mut self, chunk: &[u8])
        ensures { self.new ≡ host_after self.old chunk.now }
    {
        crate::laws::heard_in_chunks();
        let mut at = self.hear(chunk).used;
        while at < chunk.len() {
            at += self.hear(&chunk[at..]).used;
        }
    }
}
