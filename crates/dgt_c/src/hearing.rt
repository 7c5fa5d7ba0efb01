//! C calls by which a host and decoders read bytes.

ghost use Rattle.std.specs.Prelude.{◌≡◌, ◌≤◌, ◌<◌, length, take, ◌++◌, []};
ghost use Rattle.dgt_decode.specs.Feeding.{event_content_if_any};
ghost use Rattle.dgt_decode.specs.Grammar.{unfinished_message};
ghost use Rattle.dgt_host.specs.Host.{host_after, new_host, without_awaited};
ghost use Rattle.dgt_c.specs.Hearing.{HearsReported, flag, Feeds};
ghost use Rattle.dgt_c.specs.Reported.{reported_at};
ghost use Rattle.dgt_command.specs.Words.{IsPartial};
ghost use Rattle.dgt_c.specs.Reading.{FeedsWords};

use crate::commands::report_command;
use crate::copying::overwrite;
use crate::events::{body_of, report_at};
use crate::handles::{DgtCommandDecoder, DgtDecoder, DgtHost};
use crate::header::{DgtCommand, DgtEvent};
use dgt_command::MAX_WORD;
use dgt_decode::{Event, MAX_TOTAL};

/// 1 for true and 0 for false.
pub(crate) fn flag_for_c(said: bool) -> u8
    ensures { result ≡ flag said }
{
    if said { 1 } else { 0 }
}

/// Writes an event to the struct, with its place and whether it is unasked.
#[inline(always)]
pub(crate) fn report_heard(
    event: &Option<Event<'_>>,
    unasked: bool,
    place: usize,
    out: &mut DgtEvent,
)
    ensures { out.new ≡
        record (reported_at place (event_content_if_any event.now)) { unasked = flag unasked } }
{
    report_at(event, place, out);
    out.unasked = flag_for_c(unasked);
}

/// Uses the bytes up to and including the first that completes an event, or all of them, and
/// returns how many. Reports the event, and copies as much of its body as fits.
#[unsafe(no_mangle)]
pub extern "C" fn dgt_host_hear(
    host: &mut DgtHost,
    bytes: &[u8],
    event: &mut DgtEvent,
    body: &mut [u8],
) -> usize
    ensures place { host.new.at ≡ host.old.at }
    ensures after { host.new.inside ≡ host_after host.old.inside (take result bytes.now) }
    ensures within { result ≤ length bytes.now }
    ensures hears { HearsReported host.old.inside bytes.now result
        (record { event = event.new; old = body.old; new = body.new }) }
    ensures progress { 0 < length bytes.now → 0 < result }
{
    let heard = host.get().hear(bytes);
    report_heard(&heard.event, heard.unasked, heard.used, event);
    overwrite(body_of(&heard.event), body);
    heard.used
}

/// Reports that the line was lost: the host is as new.
#[unsafe(no_mangle)]
pub extern "C" fn dgt_host_line_lost(host: &mut DgtHost)
    ensures place { host.new.at ≡ host.old.at }
    ensures new { host.new.inside ≡ new_host }
{
    host.get().line_lost();
}

/// Removes all awaited replies from the list, and returns how many there were. Nothing else
/// changes.
#[unsafe(no_mangle)]
pub extern "C" fn dgt_host_give_up_awaited(host: &mut DgtHost) -> usize
    ensures place { host.new.at ≡ host.old.at }
    ensures gives_up { host.new.inside ≡ without_awaited host.old.inside }
    ensures count { result ≡ length host.old.inside.awaited }
{
    host.get().give_up_awaited()
}

/// Uses the bytes up to and including the first that completes an event, or all of them, and
/// returns how many. Reports the event, and copies as much of its body as fits.
#[unsafe(no_mangle)]
pub extern "C" fn dgt_decoder_feed(
    decoder: &mut DgtDecoder,
    bytes: &[u8],
    event: &mut DgtEvent,
    body: &mut [u8],
) -> usize
    ensures place { decoder.new.at ≡ decoder.old.at }
    ensures after { decoder.new.inside
        ≡ unfinished_message (decoder.old.inside ++ take result bytes.now) }
    ensures within { result ≤ length bytes.now }
    ensures feeds { Feeds decoder.old.inside bytes.now result
        (record { event = event.new; old = body.old; new = body.new }) }
    ensures progress { 0 < length bytes.now → 0 < result }
{
    let fed = decoder.get().feed(bytes);
    report_at(&fed.event, fed.used, event);
    overwrite(body_of(&fed.event), body);
    fed.used
}

/// How many bytes of an unfinished message were received.
#[unsafe(no_mangle)]
pub extern "C" fn dgt_decoder_unread(decoder: &mut DgtDecoder) -> usize
    ensures place { decoder.new.at ≡ decoder.old.at }
    ensures same { decoder.new.inside ≡ decoder.old.inside }
    ensures length { result ≡ length decoder.old.inside }
    ensures unfinished { unfinished_message decoder.old.inside ≡ decoder.old.inside }
    ensures limit { result < MAX_TOTAL }
{
    decoder.get().rest()
}

/// How many bytes of an unfinished message were received, or 0. Resets the decoder.
#[unsafe(no_mangle)]
pub extern "C" fn dgt_decoder_finish(decoder: &mut DgtDecoder) -> usize
    ensures place { decoder.new.at ≡ decoder.old.at }
    ensures new { decoder.new.inside ≡ [] }
    ensures length { result ≡ length decoder.old.inside }
{
    match decoder.get().finish() {
        Some(unfinished) => unfinished.have,
        None => 0,
    }
}

/// Returns the decoder to its initial state.
#[unsafe(no_mangle)]
pub extern "C" fn dgt_decoder_reset(decoder: &mut DgtDecoder)
    ensures place { decoder.new.at ≡ decoder.old.at }
    ensures new { decoder.new.inside ≡ [] }
{
    decoder.get().reset();
}

/// Uses the bytes up to and including the first that completes a command or a fault, or all of
/// them, and returns how many. Reports the command or fault, and copies as many of the command's
/// bytes as fit.
#[unsafe(no_mangle)]
pub extern "C" fn dgt_command_decoder_feed(
    command_decoder: &mut DgtCommandDecoder,
    bytes: &[u8],
    command: &mut DgtCommand,
    word: &mut [u8],
) -> usize
    ensures place { command_decoder.new.at ≡ command_decoder.old.at }
    ensures within { result ≤ length bytes.now }
    ensures reads { FeedsWords command_decoder.old.inside bytes.now result
        (record { command = command.new; old = word.old; new = word.new })
        command_decoder.new.inside }
    ensures progress { 0 < length bytes.now → 0 < result }
{
    let fed = command_decoder.get().feed(bytes);
    *command = report_command(&fed.event, word);
    fed.used
}

/// How many bytes of an unfinished command are held.
#[unsafe(no_mangle)]
pub extern "C" fn dgt_command_decoder_unread(command_decoder: &mut DgtCommandDecoder) -> usize
    ensures place { command_decoder.new.at ≡ command_decoder.old.at }
    ensures same { command_decoder.new.inside ≡ command_decoder.old.inside }
    ensures length { result ≡ length command_decoder.old.inside }
    ensures unfinished { IsPartial command_decoder.old.inside }
    ensures limit { result < MAX_WORD }
{
    command_decoder.get().partial()
}

/// How many bytes of an unfinished command were held, or 0. Resets the decoder.
#[unsafe(no_mangle)]
pub extern "C" fn dgt_command_decoder_finish(command_decoder: &mut DgtCommandDecoder) -> usize
    ensures place { command_decoder.new.at ≡ command_decoder.old.at }
    ensures new { command_decoder.new.inside ≡ [] }
    ensures length { result ≡ length command_decoder.old.inside }
{
    let reader = command_decoder.get();
    let have = reader.partial();
    reader.reset();
    have
}

/// Returns the decoder to its initial state.
#[unsafe(no_mangle)]
pub extern "C" fn dgt_command_decoder_reset(command_decoder: &mut DgtCommandDecoder)
    ensures place { command_decoder.new.at ≡ command_decoder.old.at }
    ensures new { command_decoder.new.inside ≡ [] }
{
    command_decoder.get().reset();
}
