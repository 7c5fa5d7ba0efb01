//! C calls by which a host or a decoder reads a whole chunk.

ghost use Rattle.std.specs.Prelude.{◌≡◌, ◌<◌, ◌++◌, ◌↔◌, IsTrue, length, take, drop};
ghost use Rattle.dgt_decode.specs.Grammar.{unfinished_message};
ghost use Rattle.dgt_host.specs.Host.{host_after};
ghost use Rattle.dgt_c.specs.Chunks.{ReportsEach, UsesUpTo, bodies, each_reported, events_up_to};
ghost use Rattle.dgt_c.specs.Slices.{overwritten};

use crate::copying::overwrite;
use crate::events::{body_of, report_at};
use crate::handles::{DgtDecoder, DgtHost};
use crate::header::{DgtEvent, DgtTold};
use crate::hearing::report_heard;
use dgt_decode::{Decoder, laws};
use dgt_host::Host;

// Whether to read more of a chunk. An event with a body is the last: the slice can hold the body of
// one.
#[inline(always)]
fn goes_on(used: usize, chunk: &[u8], count: usize, reported: &[DgtEvent], body_len: usize) -> bool
    ensures { IsTrue result
        ↔ (used < length chunk.now) × (count < length reported.now) × (body_len ≡ 0) }
{
    used < chunk.len() && count < reported.len() && body_len == 0
}

fn hear_each(host: &mut Host, chunk: &[u8], reported: &mut [DgtEvent], body: &mut [u8]) -> DgtTold
    ensures after { host.new ≡ host_after host.old (take result.used chunk.now) }
    ensures uses { UsesUpTo host.old.unread chunk.now (length reported.old) result.used }
    ensures reports { let made = events_up_to host.old.unread chunk.now result.used in
        ReportsEach (length host.old.unread) host.old made (take result.count reported.new) }
    ensures count { result.count
        ≡ length (events_up_to host.old.unread chunk.now result.used) }
    ensures rest { drop result.count reported.new ≡ drop result.count reported.old }
    ensures body { let made = events_up_to host.old.unread chunk.now result.used in
        body.new ≡ overwritten body.old (bodies made) }
    ensures progress { 0 < length chunk.now → 0 < length reported.old → 0 < result.used }
{
    laws::events_append();
    laws::unfinished_is_part();
    laws::unfinished_is_quiet();
    dgt_host::laws::heard_in_chunks();
    dgt_host::laws::nothing_heard();
    let _ = host.unread(); // Its contract says that the unread bytes complete no event.
    let (mut used, mut count, mut body_len) = (0, 0, 0);
    while goes_on(used, chunk, count, reported, body_len) {
        let heard = host.hear(&chunk[used..]);
        used += heard.used;
        if heard.event.is_some() {
            report_heard(&heard.event, heard.unasked, used, &mut reported[count]);
            let said = body_of(&heard.event);
            overwrite(said, body);
            body_len = said.len();
            count += 1;
        }
    }
    DgtTold { used, count }
}

/// Hears a chunk up to and including the event that fills the array or has a body, or all of it.
/// The events are written to the array in order. As much of the last one's body is copied as fits.
#[unsafe(no_mangle)]
pub extern "C" fn dgt_host_hear_many(
    host: &mut DgtHost,
    chunk: &[u8],
    reported: &mut [DgtEvent],
    body: &mut [u8],
) -> DgtTold
    ensures place { host.new.at ≡ host.old.at }
    ensures after { host.new.inside ≡ host_after host.old.inside (take result.used chunk.now) }
    ensures uses { UsesUpTo host.old.inside.unread chunk.now (length reported.old) result.used }
    ensures reports { let made = events_up_to host.old.inside.unread chunk.now result.used in
        ReportsEach (length host.old.inside.unread) host.old.inside made
        (take result.count reported.new) }
    ensures count { result.count
        ≡ length (events_up_to host.old.inside.unread chunk.now result.used) }
    ensures rest { drop result.count reported.new ≡ drop result.count reported.old }
    ensures body { let made = events_up_to host.old.inside.unread chunk.now result.used in
        body.new ≡ overwritten body.old (bodies made) }
    ensures progress { 0 < length chunk.now → 0 < length reported.old → 0 < result.used }
{
    hear_each(host.get(), chunk, reported, body)
}

fn feed_each(
    decoder: &mut Decoder,
    chunk: &[u8],
    reported: &mut [DgtEvent],
    body: &mut [u8],
) -> DgtTold
    ensures after { decoder.new ≡ unfinished_message (decoder.old ++ take result.used chunk.now) }
    ensures uses { UsesUpTo decoder.old chunk.now (length reported.old) result.used }
    ensures reports { take result.count reported.new
        ≡ each_reported (length decoder.old) (events_up_to decoder.old chunk.now result.used) }
    ensures count { result.count ≡ length (events_up_to decoder.old chunk.now result.used) }
    ensures rest { drop result.count reported.new ≡ drop result.count reported.old }
    ensures body { let made = events_up_to decoder.old chunk.now result.used in
        body.new ≡ overwritten body.old (bodies made) }
    ensures progress { 0 < length chunk.now → 0 < length reported.old → 0 < result.used }
{
    laws::events_append();
    laws::unfinished_append();
    laws::unfinished_is_part();
    laws::unfinished_is_quiet();
    let _ = decoder.rest(); // Its contract says that the bytes held complete no event.
    let (mut used, mut count, mut body_len) = (0, 0, 0);
    while goes_on(used, chunk, count, reported, body_len) {
        let fed = decoder.feed(&chunk[used..]);
        used += fed.used;
        if fed.event.is_some() {
            report_at(&fed.event, used, &mut reported[count]);
            let said = body_of(&fed.event);
            overwrite(said, body);
            body_len = said.len();
            count += 1;
        }
    }
    DgtTold { used, count }
}

/// Reads a chunk up to and including the event that fills the array or has a body, or all of it.
/// The events are written to the array in order. As much of the last one's body is copied as fits.
#[unsafe(no_mangle)]
pub extern "C" fn dgt_decoder_feed_many(
    decoder: &mut DgtDecoder,
    chunk: &[u8],
    reported: &mut [DgtEvent],
    body: &mut [u8],
) -> DgtTold
    ensures place { decoder.new.at ≡ decoder.old.at }
    ensures after { decoder.new.inside
        ≡ unfinished_message (decoder.old.inside ++ take result.used chunk.now) }
    ensures uses { UsesUpTo decoder.old.inside chunk.now (length reported.old) result.used }
    ensures reports { take result.count reported.new
        ≡ each_reported (length decoder.old.inside)
        (events_up_to decoder.old.inside chunk.now result.used) }
    ensures count { result.count
        ≡ length (events_up_to decoder.old.inside chunk.now result.used) }
    ensures rest { drop result.count reported.new ≡ drop result.count reported.old }
    ensures body { let made = events_up_to decoder.old.inside chunk.now result.used in
        body.new ≡ overwritten body.old (bodies made) }
    ensures progress { 0 < length chunk.now → 0 < length reported.old → 0 < result.used }
{
    feed_each(decoder.get(), chunk, reported, body)
}
