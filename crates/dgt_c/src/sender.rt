//! Sends commands for C: from a host, or from a follower through its host.

ghost use Rattle.std.specs.Prelude.{◌≡◌, ◌≢◌, ◌≤◌, ◌<◌, ◌+◌, ⊤, ℕ, List, None, length, refl};
ghost use Rattle.dgt_command.specs.Content.{CommandContent, command_content, requested_kind};
ghost use Rattle.dgt_command.specs.Encoding.{command_encoding};
ghost use Rattle.dgt_command.specs.declared.carried.TheConstants.{MAX_LED_BYTES, MAX_PAYLOAD};
ghost use Rattle.dgt_host.specs.Host.{HostView, Sends};
ghost use Rattle.dgt_follow.specs.Pace.{sent_bytes};
ghost use Rattle.dgt_c.specs.ClockSending.{SendsClock, SendsDisplay, SendsMessage};
ghost use Rattle.dgt_c.specs.Sent.{RefusesCommand, SendsReported};

use crate::header::{DgtSent, NO_SUCH_COMMAND};
use crate::sending::sent_for_c;
use dgt_command::{ClockCommand, Command, LedBytes, MAX_PAYLOAD, MAX_WORD, display, view_command};
use dgt_follow::Follower;
use dgt_host::{Host, SendFault};

/// A host, or a value that owns one and sends through it.
pub(crate) trait Sender {
    ghost host: { Self → HostView };

    // The bytes by which it sends a command.
    ghost bytes: { Self → CommandContent → List ℕ };

    // Everything but the host stays as it is.
    ghost keeps: { Self → Self → Type 0 };

    /// Sends a command, as [`Host::send`] or [`Follower::send`] does.
    fn send_command(&mut self, command: &Command<'_>, out: &mut [u8]) -> Result<usize, SendFault>
        ensures sends { let said = command_content command.now in
            Sends (record { kind = requested_kind said; bytes = bytes self.old said })
            (host self.old) (host self.new) out.old out.new result }
        ensures keeps { keeps self.old self.new };

    ghost keeps_itself: { (x : Self) → keeps x x };
}

impl Sender for Host {
    ghost host = { λ host. host };

    ghost bytes = { λ _ said. command_encoding said };

    ghost keeps = { λ _ _. ⊤ };

    ghost keeps_itself = { λ _. tt };

    fn send_command(&mut self, command: &Command<'_>, out: &mut [u8]) -> Result<usize, SendFault> {
        self.send(command, out)
    }
}

impl Sender for Follower {
    ghost host = { λ follower. follower.host };

    ghost bytes = { λ follower said. sent_bytes follower.pace.mode said };

    ghost keeps = { λ old new. new.pace ≡ old.pace };

    ghost keeps_itself = { λ _. refl };

    fn send_command(&mut self, command: &Command<'_>, out: &mut [u8]) -> Result<usize, SendFault> {
        self.send(command, out)
    }
}

/// Sends the command with exactly these bytes, if there is one.
pub(crate) fn send_word<S: Sender>(sender: &mut S, word: &[u8], out: &mut [u8]) -> DgtSent
    ensures sends { (said : CommandContent) → word.now ≡ command_encoding said →
        SendsReported (record { kind = requested_kind said; bytes = S.bytes sender.old said })
        (S.host sender.old) (S.host sender.new) out.old out.new result }
    ensures refused { ((said : CommandContent) → word.now ≢ command_encoding said) →
        RefusesCommand (S.host sender.old) (S.host sender.new) out.old out.new result }
    ensures keeps { S.keeps sender.old sender.new }
{
    dgt_command::laws::encodings_give_commands();
    match view_command(word) {
        Some(command) => sent_for_c(sender.send_command(&command, out)),
        None => NO_SUCH_COMMAND,
    }
}

/// Lights these LEDs.
pub(crate) fn send_leds<S: Sender>(sender: &mut S, leds: &[u8], out: &mut [u8]) -> DgtSent
    ensures sends { length leds.now ≤ MAX_LED_BYTES →
        SendsReported
        (record { kind = None; bytes = S.bytes sender.old (CommandContent.Leds leds.now) })
        (S.host sender.old) (S.host sender.new) out.old out.new result }
    ensures refused { MAX_LED_BYTES < length leds.now →
        RefusesCommand (S.host sender.old) (S.host sender.new) out.old out.new result }
    ensures keeps { S.keeps sender.old sender.new }
{
    match LedBytes::new(leds) {
        Ok(leds) => sent_for_c(sender.send_command(&Command::Leds(leds), out)),
        Err(_) => NO_SUCH_COMMAND,
    }
}

/// Fills the slice with the clock message of this id with this payload.
pub(crate) fn put_clock(id: u8, payload: &[u8], out: &mut [u8])
    requires short { length payload.now ≤ MAX_PAYLOAD }
    requires fits { length out.old ≡ length payload.now + 5 }
    ensures { out.new ≡ command_encoding
        (CommandContent.ClockMessage (record { id = id; payload = payload.now })) }
{
    let (head, tail) = out.split_at_mut(4);
    head.copy_from_slice(&[0x2b, payload.len() as u8 + 3, 0x03, id]);
    let (body, end) = tail.split_at_mut(payload.len());
    body.copy_from_slice(payload);
    end.copy_from_slice(&[0x00]);
}

/// Sends the clock message of this id with this payload.
pub(crate) fn send_clock<S: Sender>(
    sender: &mut S,
    id: u8,
    payload: &[u8],
    out: &mut [u8],
) -> DgtSent
    ensures sends { length payload.now ≤ MAX_PAYLOAD →
        SendsClock (S.bytes sender.old) (record { id = id; payload = payload.now })
        (S.host sender.old) (S.host sender.new) out.old out.new result }
    ensures refused { MAX_PAYLOAD < length payload.now →
        RefusesCommand (S.host sender.old) (S.host sender.new) out.old out.new result }
    ensures keeps { S.keeps sender.old sender.new }
{
    if payload.len() > MAX_PAYLOAD {
        return NO_SUCH_COMMAND;
    }
    let mut room = [0; MAX_WORD];
    let word = &mut room[..payload.len() + 5];
    put_clock(id, payload, word);
    send_word(sender, word, out)
}

/// Sends this message to the clock.
pub(crate) fn send_message<S: Sender>(
    sender: &mut S,
    message: ClockCommand<'_>,
    out: &mut [u8],
) -> DgtSent
    ensures sends { SendsMessage (S.bytes sender.old) message.entry
        (S.host sender.old) (S.host sender.new) out.old out.new result }
    ensures keeps { S.keeps sender.old sender.new }
{
    sent_for_c(sender.send_command(&Command::ClockMessage(message), out))
}

/// Shows these six characters on the clock's display, if each of them has segments.
pub(crate) fn send_display<S: Sender>(
    sender: &mut S,
    text: &[u8; 6],
    dots: u8,
    beep: u8,
    out: &mut [u8],
) -> DgtSent
    ensures sends { SendsDisplay (S.bytes sender.old) text.now dots beep
        (S.host sender.old) (S.host sender.new) out.old out.new result }
    ensures keeps { S.keeps sender.old sender.new }
{
    let [a, b, c, d, e, f] = *text;
    let text = [
        a as char, b as char, c as char, d as char, e as char, f as char,
    ];
    match display(text, dots, beep) {
        Ok(message) => send_message(sender, message, out),
        Err(_) => NO_SUCH_COMMAND,
    }
}
