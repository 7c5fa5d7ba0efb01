//! The names of the bytes that a board's messages carry.

ghost use Rattle.std.specs.Prelude.{◌≡◌, ◌≢◌, ◌+◌, ◌*◌, ◌≤◌, ◌<◌, ℕ, List, [], ◌++◌, ◌∷◌, Option, Some, None, codes, decimal, false, length, OnErr, OnOk};
ghost use Rattle.dgt_message.specs.Content.{content, status_code, time_seen, times_seen};
ghost use Rattle.dgt_decode.specs.Grammar.{Message as MessageEvent};
ghost use Rattle.dgt_decode.specs.Feeding.{event_content};
ghost use Rattle.dgt_names.specs.Names.{IsBattery, IsSignal};
ghost use Rattle.dgt_lines.specs.Clocks.{flags_text};
ghost use Rattle.dgt_lines.specs.Lines.{padded_decimal};
ghost use Rattle.dgt_lines.specs.NamedLines.{IsOwnText, IsTextOf, battery_text, button_word, id_word, left_text, lever_text, name_text, percent_text, signal_text, span_text, times_name};
ghost use Rattle.dgt_lines.specs.Printing.{GathersOne, IsNameText};
ghost use Rattle.dgt_lines.specs.Writing.{Gathers};

use crate::clocks::{push_flags, push_if};
use crate::faults::RunFault;
use crate::gathering::Outgoing;
use crate::streams::Sink;
use dgt_command::KnownId;
use dgt_decode::Event;
use dgt_message::{Message, Reading, Status, Times, serial_bytes};
use dgt_names::{BatteryState, Button, Signal, is_text};

// Room for a name, other than a text that the board sent.
const NAME_ROOM: usize = 256;

/// Gathers a colon, a space and the name of an event, if it has one.
pub(crate) fn put_name<W: Sink, const ROOM: usize>(
    outgoing: &mut Outgoing<ROOM>,
    writer: &mut W,
    event: &Event<'_>,
) -> Result<(), RunFault>
    ensures output { GathersOne W.Sink (outgoing.old, outgoing.new) writer.old writer.new
        result (IsNameText (event_content event.now)) }
    ensures dropped { OnErr result (outgoing.new ≡ []) }
    ensures no_flush { W.flushed writer.old ≡ false → W.flushed writer.new ≡ false }
{
    match event {
        Event::Message(message) => put_message_name(outgoing, writer, message),
        _ => put_if_any(outgoing, writer, None),
    }
}

fn put_message_name<W: Sink, const ROOM: usize>(
    outgoing: &mut Outgoing<ROOM>,
    writer: &mut W,
    message: &Message<'_>,
) -> Result<(), RunFault>
    ensures output { GathersOne W.Sink (outgoing.old, outgoing.new) writer.old writer.new
        result (IsNameText (MessageEvent (content message.now))) }
    ensures dropped { OnErr result (outgoing.new ≡ []) }
    ensures no_flush { W.flushed writer.old ≡ false → W.flushed writer.new ≡ false }
{
    match message {
        Message::Times(times) => put_if_any(outgoing, writer, Some(name_times(*times))),
        Message::Ack(answer) => put_if_any(outgoing, writer, name_signal(answer.ack)),
        Message::Battery(body) => put_if_any(outgoing, writer, name_battery(body.bytes())),
        Message::Serial(digits) => put_own_text(outgoing, writer, &serial_bytes(digits)),
        Message::Trademark(body) => put_own_text(outgoing, writer, body.bytes()),
        Message::LongSerial(body) => put_own_text(outgoing, writer, body.bytes()),
        _ => put_if_any(outgoing, writer, None),
    }
}

// A colon, a space and the name, if there is one.
fn put_if_any<W: Sink, const ROOM: usize>(
    outgoing: &mut Outgoing<ROOM>,
    writer: &mut W,
    name: Option<Outgoing<NAME_ROOM>>,
) -> Result<(), RunFault>
    ensures output { Gathers W.Sink (outgoing.old, outgoing.new) writer.old writer.new
        result (name_text name) }
    ensures dropped { OnErr result (outgoing.new ≡ []) }
    ensures no_flush { W.flushed writer.old ≡ false → W.flushed writer.new ≡ false }
{
    match name {
        Some(text) => put_after_colon(outgoing, writer, text.bytes()),
        None => outgoing.make_room(writer, 0),
    }
}

// A colon, a space and these bytes, if they are a text.
fn put_own_text<W: Sink, const ROOM: usize>(
    outgoing: &mut Outgoing<ROOM>,
    writer: &mut W,
    bytes: &[u8],
) -> Result<(), RunFault>
    ensures output { GathersOne W.Sink (outgoing.old, outgoing.new) writer.old writer.new
        result (λ text. (name : Option (List ℕ)) × IsOwnText bytes.now name
        × (text ≡ name_text name)) }
    ensures dropped { OnErr result (outgoing.new ≡ []) }
    ensures no_flush { W.flushed writer.old ≡ false → W.flushed writer.new ≡ false }
{
    if is_text(bytes) {
        put_after_colon(outgoing, writer, bytes)
    } else {
        outgoing.make_room(writer, 0)
    }
}

fn put_after_colon<W: Sink, const ROOM: usize>(
    outgoing: &mut Outgoing<ROOM>,
    writer: &mut W,
    name: &[u8],
) -> Result<(), RunFault>
    ensures output { Gathers W.Sink (outgoing.old, outgoing.new) writer.old writer.new
        result (codes ": " ++ name.now) }
    ensures dropped { OnErr result (outgoing.new ≡ []) }
    ensures no_flush { W.flushed writer.old ≡ false → W.flushed writer.new ≡ false }
{
    outgoing.add(writer, b": ")?;
    outgoing.add(writer, name)
}

fn name_signal(ack: [u8; 4]) -> Option<Outgoing<NAME_ROOM>>
    ensures { IsTextOf (IsSignal ack) signal_text result }
{
    match Signal::of(ack) {
        Some(signal) => Some(form_signal(signal)),
        None => None,
    }
}

#[tactic(auto, unfolding(crate::specs::NamedLines::signal_text))]
fn form_signal(signal: Signal) -> Outgoing<NAME_ROOM>
    ensures { result ≡ signal_text signal }
{
    let mut text = Outgoing::new();
    match signal {
        Signal::Done(id) => {
            push_id(&mut text, id);
            text.push(b" done");
        }
        Signal::Version { main, sub } => {
            text.push(b"version ");
            push_number(&mut text, main);
            text.push(b".");
            push_number(&mut text, sub);
        }
        Signal::Pressed(button) => {
            push_button(&mut text, button);
            text.push(b" pressed");
        }
        Signal::Off => text.push(b"switched off"),
        Signal::Ready => text.push(b"ready"),
    }
    text
}

fn push_id(text: &mut Outgoing<NAME_ROOM>, id: KnownId)
    requires { length text.old + 12 ≤ NAME_ROOM }
    ensures text { text.new ≡ text.old ++ id_word id }
    ensures len { length text.new ≤ length text.old + 12 }
{
    match id {
        KnownId::Display => text.push(b"display"),
        KnownId::Icons => text.push(b"icons"),
        KnownId::End => text.push(b"end"),
        KnownId::Button => text.push(b"button"),
        KnownId::Version => text.push(b"clockversion"),
        KnownId::SetAndRun => text.push(b"setandrun"),
        KnownId::Beep => text.push(b"beep"),
        KnownId::Text => text.push(b"text"),
    }
}

fn push_button(text: &mut Outgoing<NAME_ROOM>, button: Button)
    requires { length text.old + 5 ≤ NAME_ROOM }
    ensures text { text.new ≡ text.old ++ button_word button }
    ensures len { length text.new ≤ length text.old + 5 }
{
    match button {
        Button::Back => text.push(b"back"),
        Button::Plus => text.push(b"plus"),
        Button::Run => text.push(b"run"),
        Button::Minus => text.push(b"minus"),
        Button::Ok => text.push(b"ok"),
    }
}

fn name_times(times: Times) -> Outgoing<NAME_ROOM>
    ensures { result ≡ times_name (times_seen times) }
{
    let mut text = Outgoing::new();
    push_lever(&mut text, times.status());
    push_time_flags(&mut text, b", first ", times.first());
    push_time_flags(&mut text, b", second ", times.second());
    text
}

fn push_lever(text: &mut Outgoing<NAME_ROOM>, status: Status)
    requires { length text.old + 16 ≤ NAME_ROOM }
    ensures text { text.new ≡ text.old ++ lever_text (status_code status) }
    ensures len { length text.new ≤ length text.old + 16 }
{
    if status.lever() {
        text.push(b"lever left down");
    } else {
        text.push(b"lever right down");
    }
}

fn push_time_flags(text: &mut Outgoing<NAME_ROOM>, side: &[u8], reading: Reading)
    requires { length text.old + 3 * length side.now + 26 ≤ NAME_ROOM }
    ensures text { text.new ≡ text.old
        ++ flags_text side.now (codes "per move") (codes "flag fallen") (time_seen reading).flags }
    ensures len { length text.new ≤ length text.old + 3 * length side.now + 26 }
{
    push_flags(text, side, b"per move", b"flag fallen", reading.flags());
}

fn name_battery(body: &[u8]) -> Option<Outgoing<NAME_ROOM>>
    ensures { IsTextOf (IsBattery body.now) battery_text result }
{
    match BatteryState::of(body) {
        Some(state) => Some(form_battery(state)),
        None => None,
    }
}

#[tactic(auto, unfolding(crate::specs::NamedLines::battery_text))]
fn form_battery(state: BatteryState) -> Outgoing<NAME_ROOM>
    ensures { result ≡ battery_text state }
{
    let mut text = Outgoing::new();
    push_percent(&mut text, state.percent);
    push_left(&mut text, state.hours_left, state.minutes_left);
    text.push(b"on ");
    push_span(&mut text, state.hours_on, state.minutes_on);
    text.push(b", rested ");
    push_number(&mut text, state.days_resting);
    text.push(b" days ");
    push_span(&mut text, state.hours_resting, state.minutes_resting);
    push_if(&mut text, state.charging, b", ", b"charging");
    push_if(&mut text, state.discharging, b", ", b"discharging");
    text
}

fn push_percent(text: &mut Outgoing<NAME_ROOM>, percent: Option<u8>)
    requires { length text.old + 30 ≤ NAME_ROOM }
    ensures text { text.new ≡ text.old ++ percent_text percent }
    ensures len { length text.new ≤ length text.old + 30 }
{
    if let Some(percent) = percent {
        push_number(text, percent);
        text.push(b" percent, ");
    }
}

fn push_left(text: &mut Outgoing<NAME_ROOM>, hours: Option<u8>, minutes: Option<u8>)
    requires { length text.old + 48 ≤ NAME_ROOM }
    ensures text { text.new ≡ text.old ++ left_text hours minutes }
    ensures len { length text.new ≤ length text.old + 48 }
{
    if let (Some(hours), Some(minutes)) = (hours, minutes) {
        push_span(text, hours, minutes);
        text.push(b" left, ");
    }
}

// Hours and minutes.
fn push_span(text: &mut Outgoing<NAME_ROOM>, hours: u8, minutes: u8)
    requires { length text.old + 41 ≤ NAME_ROOM }
    ensures text { text.new ≡ text.old ++ span_text hours minutes }
    ensures len { length text.new ≤ length text.old + 41 }
{
    push_number(text, hours);
    text.push(b":");
    text.push_decimal(minutes as u64, 2);
}

fn push_number(text: &mut Outgoing<NAME_ROOM>, number: u8)
    requires { length text.old + 20 ≤ NAME_ROOM }
    ensures text { text.new ≡ text.old ++ decimal number }
    ensures len { length text.new ≤ length text.old + 20 }
{
    text.push_decimal(number as u64, 1);
}
