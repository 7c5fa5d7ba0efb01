//! C calls by which a host and a follower send commands.

ghost use Rattle.std.specs.Prelude.{◌≡◌, ◌≢◌, ◌≤◌, ◌<◌, ◌∷◌, [], Some, None, length};
ghost use Rattle.dgt_command.specs.Content.{CommandContent, requested_kind, known_clock};
ghost use Rattle.dgt_command.specs.Encoding.{command_encoding};
ghost use Rattle.dgt_command.specs.declared.carried.TheConstants.{MAX_LED_BYTES, MAX_PAYLOAD};
ghost use Rattle.dgt_values.specs.declared.kinds.Kind.TheVariants as kind;
ghost use Rattle.dgt_host.specs.Host.{follow_bytes, restart_bytes};
ghost use Rattle.dgt_follow.specs.Pace.{sent_bytes};
ghost use Rattle.dgt_c.specs.Sent.{RefusesCommand, SendsReported, sent_reported};
ghost use Rattle.dgt_command.specs.declared.clock.ClockCommand.TheVariants as clock;
ghost use Rattle.dgt_command.specs.declared.ids.KnownId.{KnownId};
ghost use Rattle.dgt_c.specs.ClockSending.{SendsClock, SendsDisplay, SendsMessage};

use crate::handles::{DgtFollower, DgtHost};
use crate::header::{DONE, DgtSent, NO_ROOM, TOO_MANY_AWAITED};
use crate::sender::{send_clock, send_display, send_leds, send_message, send_word};
use dgt_command::{ClockCommand, KnownId};
use dgt_host::SendFault;

pub(crate) fn sent_for_c(outcome: Result<usize, SendFault>) -> DgtSent
    ensures { result ≡ sent_reported outcome }
{
    let (status, bytes) = match outcome {
        Ok(bytes) => (DONE, bytes),
        Err(SendFault::TooMany) => (TOO_MANY_AWAITED, 0),
        Err(SendFault::NoRoom { need }) => (NO_ROOM, need),
    };
    DgtSent { status, bytes }
}

/// Requests all squares, and each change from then on.
#[unsafe(no_mangle)]
pub extern "C" fn dgt_host_follow(host: &mut DgtHost, out: &mut [u8]) -> DgtSent
    ensures place { host.new.at ≡ host.old.at }
    ensures sends { SendsReported (record { kind = Some kind.Dump; bytes = follow_bytes })
        host.old.inside host.new.inside out.old out.new result }
{
    sent_for_c(host.get().follow(out))
}

/// The same, after zeros that complete any unfinished command of the board.
#[unsafe(no_mangle)]
pub extern "C" fn dgt_host_restart(host: &mut DgtHost, out: &mut [u8]) -> DgtSent
    ensures place { host.new.at ≡ host.old.at }
    ensures sends { SendsReported (record { kind = Some kind.Dump; bytes = restart_bytes })
        host.old.inside host.new.inside out.old out.new result }
{
    sent_for_c(host.get().restart(out))
}

/// Sends the command of one byte that is this byte, if there is one.
#[unsafe(no_mangle)]
pub extern "C" fn dgt_host_send(host: &mut DgtHost, code: u8, out: &mut [u8]) -> DgtSent
    ensures place { host.new.at ≡ host.old.at }
    ensures sends { (said : CommandContent) → code ∷ [] ≡ command_encoding said →
        SendsReported (record { kind = requested_kind said; bytes = code ∷ [] })
        host.old.inside host.new.inside out.old out.new result }
    ensures refused { ((said : CommandContent) → code ∷ [] ≢ command_encoding said) →
        RefusesCommand host.old.inside host.new.inside out.old out.new result }
{
    send_word(host.get(), &[code], out)
}

/// Lights these LEDs.
#[unsafe(no_mangle)]
pub extern "C" fn dgt_host_send_leds(host: &mut DgtHost, leds: &[u8], out: &mut [u8]) -> DgtSent
    ensures place { host.new.at ≡ host.old.at }
    ensures sends { length leds.now ≤ MAX_LED_BYTES →
        SendsReported
        (record { kind = None; bytes = command_encoding (CommandContent.Leds leds.now) })
        host.old.inside host.new.inside out.old out.new result }
    ensures refused { MAX_LED_BYTES < length leds.now →
        RefusesCommand host.old.inside host.new.inside out.old out.new result }
{
    send_leds(host.get(), leds, out)
}

/// Sends the clock message of this id with this payload.
#[unsafe(no_mangle)]
pub extern "C" fn dgt_host_send_clock(
    host: &mut DgtHost,
    id: u8,
    payload: &[u8],
    out: &mut [u8],
) -> DgtSent
    ensures place { host.new.at ≡ host.old.at }
    ensures sends { length payload.now ≤ MAX_PAYLOAD →
        SendsClock command_encoding (record { id = id; payload = payload.now })
        host.old.inside host.new.inside out.old out.new result }
    ensures refused { MAX_PAYLOAD < length payload.now →
        RefusesCommand host.old.inside host.new.inside out.old out.new result }
{
    send_clock(host.get(), id, payload, out)
}

/// Sends the command of one byte that is this byte, if there is one.
#[unsafe(no_mangle)]
pub extern "C" fn dgt_follower_send(follower: &mut DgtFollower, code: u8, out: &mut [u8]) -> DgtSent
    ensures place { follower.new.at ≡ follower.old.at }
    ensures sends { (said : CommandContent) → code ∷ [] ≡ command_encoding said →
        SendsReported (record { kind = requested_kind said; bytes = code ∷ [] })
        follower.old.inside.host follower.new.inside.host out.old out.new result }
    ensures refused { ((said : CommandContent) → code ∷ [] ≢ command_encoding said) →
        RefusesCommand follower.old.inside.host follower.new.inside.host out.old out.new result }
    ensures pace { follower.new.inside.pace ≡ follower.old.inside.pace }
{
    dgt_follow::laws::what_follows_a_command();
    send_word(follower.get(), &[code], out)
}

/// Lights these LEDs.
#[unsafe(no_mangle)]
pub extern "C" fn dgt_follower_send_leds(
    follower: &mut DgtFollower,
    leds: &[u8],
    out: &mut [u8],
) -> DgtSent
    ensures place { follower.new.at ≡ follower.old.at }
    ensures sends { length leds.now ≤ MAX_LED_BYTES →
        SendsReported
        (record {
          kind = None;
          bytes = sent_bytes follower.old.inside.pace.mode (CommandContent.Leds leds.now);
        })
        follower.old.inside.host follower.new.inside.host out.old out.new result }
    ensures refused { MAX_LED_BYTES < length leds.now →
        RefusesCommand follower.old.inside.host follower.new.inside.host out.old out.new result }
    ensures pace { follower.new.inside.pace ≡ follower.old.inside.pace }
{
    send_leds(follower.get(), leds, out)
}

/// Sends the clock message of this id with this payload.
#[unsafe(no_mangle)]
pub extern "C" fn dgt_follower_send_clock(
    follower: &mut DgtFollower,
    id: u8,
    payload: &[u8],
    out: &mut [u8],
) -> DgtSent
    ensures place { follower.new.at ≡ follower.old.at }
    ensures sends { length payload.now ≤ MAX_PAYLOAD →
        SendsClock (sent_bytes follower.old.inside.pace.mode)
        (record { id = id; payload = payload.now })
        follower.old.inside.host follower.new.inside.host out.old out.new result }
    ensures refused { MAX_PAYLOAD < length payload.now →
        RefusesCommand follower.old.inside.host follower.new.inside.host out.old out.new result }
    ensures pace { follower.new.inside.pace ≡ follower.old.inside.pace }
{
    send_clock(follower.get(), id, payload, out)
}

/// Shows six digits, spaces and hyphens on the display, from left to right.
#[unsafe(no_mangle)]
pub extern "C" fn dgt_host_send_display(
    host: &mut DgtHost,
    text: &[u8; 6],
    dots: u8,
    beep: u8,
    out: &mut [u8],
) -> DgtSent
    ensures place { host.new.at ≡ host.old.at }
    ensures sends { SendsDisplay command_encoding text.now dots beep
        host.old.inside host.new.inside out.old out.new result }
{
    send_display(host.get(), text, dots, beep, out)
}

/// Shows eight characters, from left to right.
#[unsafe(no_mangle)]
pub extern "C" fn dgt_host_send_text(
    host: &mut DgtHost,
    text: &[u8; 8],
    beep: u8,
    out: &mut [u8],
) -> DgtSent
    ensures place { host.new.at ≡ host.old.at }
    ensures sends { SendsMessage command_encoding (clock.Text text.now beep)
        host.old.inside host.new.inside out.old out.new result }
{
    send_message(
        host.get(),
        ClockCommand::Text {
            letters: *text,
            beep,
        },
        out,
    )
}

/// Beeps for this duration.
#[unsafe(no_mangle)]
pub extern "C" fn dgt_host_send_beep(host: &mut DgtHost, duration: u8, out: &mut [u8]) -> DgtSent
    ensures place { host.new.at ≡ host.old.at }
    ensures sends { SendsMessage command_encoding (clock.Beep duration)
        host.old.inside host.new.inside out.old out.new result }
{
    send_message(host.get(), ClockCommand::Beep(duration), out)
}

/// Sets the times of both sides, in hours, minutes and seconds. The clock interprets `control`.
#[unsafe(no_mangle)]
pub extern "C" fn dgt_host_send_set_and_run(
    host: &mut DgtHost,
    left: &[u8; 3],
    right: &[u8; 3],
    control: u8,
    out: &mut [u8],
) -> DgtSent
    ensures place { host.new.at ≡ host.old.at }
    ensures sends { SendsMessage command_encoding (clock.SetAndRun left.now right.now control)
        host.old.inside host.new.inside out.old out.new result }
{
    let (left, right) = (*left, *right);
    let message = ClockCommand::SetAndRun {
        left,
        right,
        control,
    };
    send_message(host.get(), message, out)
}

/// Shows the icons of these bytes.
#[unsafe(no_mangle)]
pub extern "C" fn dgt_host_send_icons(host: &mut DgtHost, icons: &[u8], out: &mut [u8]) -> DgtSent
    ensures place { host.new.at ≡ host.old.at }
    ensures sends { length icons.now ≤ MAX_PAYLOAD →
        SendsClock command_encoding (known_clock KnownId.Icons icons.now)
        host.old.inside host.new.inside out.old out.new result }
    ensures refused { MAX_PAYLOAD < length icons.now →
        RefusesCommand host.old.inside host.new.inside out.old out.new result }
{
    send_clock(host.get(), KnownId::Icons.number(), icons, out)
}

/// Ends the display of a text, icons or segments: the clock shows the times again.
#[unsafe(no_mangle)]
pub extern "C" fn dgt_host_send_end(host: &mut DgtHost, out: &mut [u8]) -> DgtSent
    ensures place { host.new.at ≡ host.old.at }
    ensures sends { SendsMessage command_encoding clock.End
        host.old.inside host.new.inside out.old out.new result }
{
    send_message(host.get(), ClockCommand::End, out)
}

/// Requests the state of the clock's buttons.
#[unsafe(no_mangle)]
pub extern "C" fn dgt_host_send_button(host: &mut DgtHost, out: &mut [u8]) -> DgtSent
    ensures place { host.new.at ≡ host.old.at }
    ensures sends { SendsMessage command_encoding clock.Button
        host.old.inside host.new.inside out.old out.new result }
{
    send_message(host.get(), ClockCommand::Button, out)
}

/// Requests the version of the clock.
#[unsafe(no_mangle)]
pub extern "C" fn dgt_host_send_clock_version(host: &mut DgtHost, out: &mut [u8]) -> DgtSent
    ensures place { host.new.at ≡ host.old.at }
    ensures sends { SendsMessage command_encoding clock.Version
        host.old.inside host.new.inside out.old out.new result }
{
    send_message(host.get(), ClockCommand::Version, out)
}

/// Shows six digits, spaces and hyphens on the display, from left to right.
#[unsafe(no_mangle)]
pub extern "C" fn dgt_follower_send_display(
    follower: &mut DgtFollower,
    text: &[u8; 6],
    dots: u8,
    beep: u8,
    out: &mut [u8],
) -> DgtSent
    ensures place { follower.new.at ≡ follower.old.at }
    ensures sends { SendsDisplay (sent_bytes follower.old.inside.pace.mode)
        text.now dots beep
        follower.old.inside.host follower.new.inside.host out.old out.new result }
    ensures pace { follower.new.inside.pace ≡ follower.old.inside.pace }
{
    send_display(follower.get(), text, dots, beep, out)
}

/// Shows eight characters, from left to right.
#[unsafe(no_mangle)]
pub extern "C" fn dgt_follower_send_text(
    follower: &mut DgtFollower,
    text: &[u8; 8],
    beep: u8,
    out: &mut [u8],
) -> DgtSent
    ensures place { follower.new.at ≡ follower.old.at }
    ensures sends { SendsMessage (sent_bytes follower.old.inside.pace.mode)
        (clock.Text text.now beep)
        follower.old.inside.host follower.new.inside.host out.old out.new result }
    ensures pace { follower.new.inside.pace ≡ follower.old.inside.pace }
{
    send_message(
        follower.get(),
        ClockCommand::Text {
            letters: *text,
            beep,
        },
        out,
    )
}

/// Beeps for this duration.
#[unsafe(no_mangle)]
pub extern "C" fn dgt_follower_send_beep(
    follower: &mut DgtFollower,
    duration: u8,
    out: &mut [u8],
) -> DgtSent
    ensures place { follower.new.at ≡ follower.old.at }
    ensures sends { SendsMessage (sent_bytes follower.old.inside.pace.mode)
        (clock.Beep duration)
        follower.old.inside.host follower.new.inside.host out.old out.new result }
    ensures pace { follower.new.inside.pace ≡ follower.old.inside.pace }
{
    send_message(follower.get(), ClockCommand::Beep(duration), out)
}

/// Sets the times of both sides, in hours, minutes and seconds. The clock interprets `control`.
#[unsafe(no_mangle)]
pub extern "C" fn dgt_follower_send_set_and_run(
    follower: &mut DgtFollower,
    left: &[u8; 3],
    right: &[u8; 3],
    control: u8,
    out: &mut [u8],
) -> DgtSent
    ensures place { follower.new.at ≡ follower.old.at }
    ensures sends { SendsMessage (sent_bytes follower.old.inside.pace.mode)
        (clock.SetAndRun left.now right.now control)
        follower.old.inside.host follower.new.inside.host out.old out.new result }
    ensures pace { follower.new.inside.pace ≡ follower.old.inside.pace }
{
    let (left, right) = (*left, *right);
    let message = ClockCommand::SetAndRun {
        left,
        right,
        control,
    };
    send_message(follower.get(), message, out)
}

/// Shows the icons of these bytes.
#[unsafe(no_mangle)]
pub extern "C" fn dgt_follower_send_icons(
    follower: &mut DgtFollower,
    icons: &[u8],
    out: &mut [u8],
) -> DgtSent
    ensures place { follower.new.at ≡ follower.old.at }
    ensures sends { length icons.now ≤ MAX_PAYLOAD →
        SendsClock (sent_bytes follower.old.inside.pace.mode)
        (known_clock KnownId.Icons icons.now)
        follower.old.inside.host follower.new.inside.host out.old out.new result }
    ensures refused { MAX_PAYLOAD < length icons.now →
        RefusesCommand follower.old.inside.host follower.new.inside.host out.old out.new result }
    ensures pace { follower.new.inside.pace ≡ follower.old.inside.pace }
{
    send_clock(follower.get(), KnownId::Icons.number(), icons, out)
}

/// Ends the display of a text, icons or segments: the clock shows the times again.
#[unsafe(no_mangle)]
pub extern "C" fn dgt_follower_send_end(follower: &mut DgtFollower, out: &mut [u8]) -> DgtSent
    ensures place { follower.new.at ≡ follower.old.at }
    ensures sends { SendsMessage (sent_bytes follower.old.inside.pace.mode)
        clock.End
        follower.old.inside.host follower.new.inside.host out.old out.new result }
    ensures pace { follower.new.inside.pace ≡ follower.old.inside.pace }
{
    send_message(follower.get(), ClockCommand::End, out)
}

/// Requests the state of the clock's buttons.
#[unsafe(no_mangle)]
pub extern "C" fn dgt_follower_send_button(follower: &mut DgtFollower, out: &mut [u8]) -> DgtSent
    ensures place { follower.new.at ≡ follower.old.at }
    ensures sends { SendsMessage (sent_bytes follower.old.inside.pace.mode)
        clock.Button
        follower.old.inside.host follower.new.inside.host out.old out.new result }
    ensures pace { follower.new.inside.pace ≡ follower.old.inside.pace }
{
    send_message(follower.get(), ClockCommand::Button, out)
}

/// Requests the version of the clock.
#[unsafe(no_mangle)]
pub extern "C" fn dgt_follower_send_clock_version(
    follower: &mut DgtFollower,
    out: &mut [u8],
) -> DgtSent
    ensures place { follower.new.at ≡ follower.old.at }
    ensures sends { SendsMessage (sent_bytes follower.old.inside.pace.mode)
        clock.Version
        follower.old.inside.host follower.new.inside.host out.old out.new result }
    ensures pace { follower.new.inside.pace ≡ follower.old.inside.pace }
{
    send_message(follower.get(), ClockCommand::Version, out)
}
