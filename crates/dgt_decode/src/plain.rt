//! All events of a list of bytes, computed simply and slowly: the list is cut before each byte with
//! a set top bit, and each part is judged as a whole. A [`Decoder`](crate::Decoder) reports the
//! same events without keeping the list.

ghost use Rattle.std.specs.Prelude.{◌≡◌, ◌≤◌, ◌<◌, ◌+◌, ◌^◌, [], ◌++◌, length, map, take, if◌then◌else◌, IfOk, IfSome, OnOk, option_map};
ghost use Rattle.dgt_decode.specs.Grammar.{cut_of, events, shifted, lead, segment_events, strays, unfinished_part, verdict};
ghost use Rattle.dgt_decode.specs.Laws.{IsSegment};
ghost use Rattle.dgt_decode.specs.Taking.{placed_content};

use crate::event::Event;
use crate::framer::whole_message;
use crate::header::{HEADER, TOP_BIT};
use std::alloc::{AllocError, Global};

/// An event, and the number of bytes up to and including its last one.
pub type Reported<'a> = (usize, Event<'a>);

// How many bytes precede the first with a set top bit.
fn lead_length(bytes: &[u8]) -> usize
    ensures within { result ≤ length bytes.now }
    ensures is_lead { take result bytes.now ≡ lead bytes.now }
{
    for (index, byte) in bytes.iter().enumerate() {
        if *byte >= TOP_BIT {
            return index;
        }
    }
    bytes.len()
}

// The event of a segment's message, if there is one, with its place in the segment.
fn segment_verdict(segment: &[u8]) -> Option<Reported<'_>>
    requires { IsSegment segment.now }
    ensures value { option_map placed_content result ≡ verdict segment.now }
    ensures within { IfSome result (λ reported. reported.0 ≤ length segment.now) }
{
    if segment.len() < HEADER {
        return None;
    }
    let total = 128 * usize::from(segment[1]) + usize::from(segment[2]);
    if total < HEADER {
        return Some((HEADER, Event::BadLength));
    }
    if segment.len() < total {
        return None;
    }
    Some((total, whole_message(&segment[..total])))
}

// Appends a Stray for each of the bytes, of which the first has this offset.
fn push_strays(
    reported: &mut Vec<Reported<'_>>,
    before: usize,
    bytes: &[u8],
) -> Result<(), AllocError>
    requires { before + length bytes.now < 2 ^ 64 }
    ensures { OnOk result (map placed_content reported.new.items
        ≡ map placed_content reported.old.items ++ shifted before (strays bytes.now)) }
{
    for (index, byte) in bytes.iter().enumerate() {
        reported.push((before + index + 1, Event::Stray(*byte)))?;
    }
    Ok(())
}

// Appends the events of a segment at this offset, and the Cut if another segment follows.
fn push_segment<'a>(
    reported: &mut Vec<Reported<'a>>,
    before: usize,
    segment: &'a [u8],
    is_last: bool,
) -> Result<(), AllocError>
    requires is_segment { IsSegment segment.now }
    requires fits { before + length segment.now + 1 < 2 ^ 64 }
    ensures { OnOk result (map placed_content reported.new.items
        ≡ map placed_content reported.old.items
        ++ shifted before (segment_events (verdict segment.now) segment.now
        ++ shifted (length segment.now) (if is_last then []
        else cut_of (unfinished_part (verdict segment.now) segment.now)))) }
{
    match segment_verdict(segment) {
        Some((place, event)) => {
            reported.push((before + place, event))?;
            push_strays(reported, before + place, &segment[place..])?;
        }
        None if is_last => {}
        None => {
            let have = segment.len();
            reported.push((before + have + 1, Event::Cut { have }))?;
        }
    }
    Ok(())
}

/// All events of the bytes, in order, each with the number of bytes up to and including its last
/// one. Returns `AllocError` if memory is refused.
pub fn events_of(alloc: Global, bytes: &[u8]) -> Result<Vec<Reported<'_>>, AllocError>
    ensures { IfOk result (λ reported. map placed_content reported.items ≡ events bytes.now) }
{
    let mut reported = Vec::new(alloc);
    let mut start = lead_length(bytes);
    push_strays(&mut reported, 0, &bytes[..start])?;
    while start < bytes.len() {
        let end = start + 1 + lead_length(&bytes[start + 1..]);
        push_segment(&mut reported, start, &bytes[start..end], end == bytes.len())?;
        start = end;
    }
    Ok(reported)
}
