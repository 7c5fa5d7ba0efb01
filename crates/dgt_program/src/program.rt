//! Runs the program with any task and streams.

ghost use Rattle.std.specs.Prelude.{◌≡◌, ◌≢◌, ◌<◌, ◌≤◌, ◌%◌, ◌⊎◌, IsErr, MatchResult, Ok, Result, length};
ghost use Rattle.hex.specs.Hex.{decode_of};
ghost use Rattle.dgt_values.specs.Board.{pieces_of};
ghost use Rattle.dgt_board.specs.Simulated.{simulated_identity, simulated_times};
ghost use Rattle.dgt_link.specs.View.{new_world};
ghost use Rattle.dgt_lines.specs.Commanding.{IsListed};
ghost use Rattle.dgt_lines.specs.Device.{IsNewDevice};
ghost use Rattle.dgt_lines.specs.Logging.{IsLogged};
ghost use Rattle.dgt_lines.specs.Monitoring.{IsMonitored};
ghost use Rattle.dgt_lines.specs.NamedLines.{AreMonitored};
ghost use Rattle.dgt_lines.specs.Picturing.{IsPictured};
ghost use Rattle.dgt_lines.specs.Turns.{Change, change};
ghost use Rattle.dgt_text.specs.Simulating.{ShowsHealed, ShowsPicture, faulty_rules, plain_rules};
ghost use Rattle.dgt_program.specs.Faults.{IsOfWords, fault_status};
ghost use Rattle.dgt_program.specs.Tasks.{AnswersFor, Does, InWorld, IsPrintedWith, OnBoard, PlaysScript, PlaysWith, Prints, Refuses, Runs, ShowsWord};
ghost use Rattle.dgt_program.specs.declared.fault.Fault.{Fault as AnyFault};

use crate::fault::Fault;
use dgt_ask::{BadArguments, Task};
use dgt_board::{Board, Identity, simulated_clock};
use dgt_lines::laws::writes_in_a_row;
use dgt_lines::{flush, put};
use dgt_link::{World, WorldFault};
use dgt_text::{
    Bytes, Device, Shown, Sink, Source, commands, log, monitor, monitor_names, picture, serve,
    simulate, simulate_faults,
};
use dgt_values::Position;
use hex::FromHexError;
use std::alloc::Global;
use std::io::{Read, Write};

/// The limit of reads of an engine of the program.
pub const MOST_TURNS: u32 = u32::MAX;

/// Runs the program with the task that its words ask for, and returns the exit status.
///
/// It reads from `input`, writes to `output`, and writes the text of a fault to `errors`. All
/// memory is allocated before the first read and the first write.
///
/// It does the same as [`run`] over a new [`Device`] of each stream. The contract states the status
/// of such a run, but not what it leaves in the streams, since they are dropped at the end.
pub fn run_to_status<I: Read + Drop, O: Write + Drop, E: Write + Drop>(
    alloc: Global,
    task: Result<Task<'_>, BadArguments>,
    input: I,
    output: O,
    errors: E,
) -> u8
    ensures status { MatchResult task.entry
        (λ task. (source : Change (Device I)) × (sink : Change (Device O))
        × (done : Result (Unit {0}) AnyFault) × IsNewDevice source.old input
        × IsNewDevice sink.old output
        × Does ⟦<Device<I> as Source>⟧ ⟦<Device<O> as Sink>⟧ task source sink done
        × MatchResult done (λ _. result ≡ 0) (λ fault. result ≡ fault_status fault))
        (λ bad. (fault : AnyFault) × IsOfWords bad fault × (result ≡ fault_status fault)) }
    ensures bound { result ≤ 3 }
{
    let (mut input, mut output) = (Device::new(input), Device::new(output));
    match run(alloc, task, &mut input, &mut output) {
        Ok(()) => 0,
        Err(fault) => fault.report(&mut Device::new(errors)),
    }
}

/// Does the task that the words ask for, as [`run_task`] does. If they are not a valid command
/// line, it returns that fault, and reads and writes nothing.
pub fn run<R: Source, W: Sink>(
    alloc: Global,
    task: Result<Task<'_>, BadArguments>,
    input: &mut R,
    output: &mut W,
) -> Result<(), Fault>
    ensures { MatchResult task.entry
        (λ task. Does R.Source W.Sink task (change input.old input.new)
        (change output.old output.new) result)
        (λ bad. (fault : AnyFault) × IsOfWords bad fault
        × Refuses (change input.old input.new) (change output.old output.new) result fault) }
{
    run_task(alloc, &task?, input, output)
}

/// Does a task.
///
/// Faults of a hexadecimal word or a placement are reported first, then those of making a world,
/// both before the first read and the first write. Faults of the run follow.
pub fn run_task<R: Source, W: Sink>(
    alloc: Global,
    task: &Task<'_>,
    input: &mut R,
    output: &mut W,
) -> Result<(), Fault>
    ensures { Does R.Source W.Sink task.now (change input.old input.new)
        (change output.old output.new) result }
{
    match task {
        Task::Help { text } => write_bytes(text.as_bytes(), output),
        Task::Show { word, names } => show(alloc, word, *names, output),
        Task::Monitor { names } => show_messages(*names, input, output),
        Task::Picture { doubt, clock } => show_picture(*doubt, *clock, input, output),
        Task::Log => show_log(input, output),
        Task::Commands => show_commands(input, output),
        Task::Ask { bytes } => write_bytes(bytes.as_slice(), output),
        Task::Board { placement } => answer(placement, input, output),
        Task::Simulate {
            placement,
            up,
            down,
            faults,
        } => play(alloc, placement, *up, *down, *faults, input, output),
    }
}

// The functions below are not inlined, so that only one of them at a time takes room on the stack.
// Together they need more than a process has at its start. With a limited address space, a stack
// that can't grow ends the process by a signal.

#[inline(never)]
fn show<W: Sink>(alloc: Global, word: &str, names: bool, output: &mut W) -> Result<(), Fault>
    ensures { ShowsWord W.Sink (change output.old output.new) result (IsPrintedWith names)
        word.now }
{
    let bytes = decode(alloc, word)?;
    let mut shown = Bytes::new(bytes.as_slice());
    show_messages(names, &mut shown, output)
}

fn show_messages<R: Source, W: Sink>(
    names: bool,
    input: &mut R,
    output: &mut W,
) -> Result<(), Fault>
    ensures { Runs R.Source W.Sink (change input.old input.new) (change output.old output.new)
        result (IsPrintedWith names) }
{
    if names {
        show_named(input, output)
    } else {
        show_unnamed(input, output)
    }
}

#[inline(never)]
fn show_unnamed<R: Source, W: Sink>(input: &mut R, output: &mut W) -> Result<(), Fault>
    ensures { Runs R.Source W.Sink (change input.old input.new) (change output.old output.new)
        result IsMonitored }
{
    Ok(monitor(input, output, MOST_TURNS)?)
}

#[inline(never)]
fn show_named<R: Source, W: Sink>(input: &mut R, output: &mut W) -> Result<(), Fault>
    ensures { Runs R.Source W.Sink (change input.old input.new) (change output.old output.new)
        result AreMonitored }
{
    Ok(monitor_names(input, output, MOST_TURNS)?)
}

#[inline(never)]
fn show_commands<R: Source, W: Sink>(input: &mut R, output: &mut W) -> Result<(), Fault>
    ensures { Runs R.Source W.Sink (change input.old input.new) (change output.old output.new)
        result IsListed }
{
    Ok(commands(input, output, MOST_TURNS)?)
}

#[inline(never)]
fn show_log<R: Source, W: Sink>(input: &mut R, output: &mut W) -> Result<(), Fault>
    ensures { Runs R.Source W.Sink (change input.old input.new) (change output.old output.new)
        result IsLogged }
{
    Ok(log(input, output, MOST_TURNS)?)
}

#[inline(never)]
fn show_picture<R: Source, W: Sink>(
    doubts: bool,
    clock: bool,
    input: &mut R,
    output: &mut W,
) -> Result<(), Fault>
    ensures { Runs R.Source W.Sink (change input.old input.new) (change output.old output.new)
        result (IsPictured doubts clock) }
{
    let shown = Shown { doubts, clock };
    Ok(picture(shown, input, output, MOST_TURNS)?)
}

#[inline(never)]
fn answer<R: Source, W: Sink>(placement: &str, input: &mut R, output: &mut W) -> Result<(), Fault>
    ensures { OnBoard (change input.old input.new) (change output.old output.new) result
        placement.now (AnswersFor R.Source W.Sink (change input.old input.new)
        (change output.old output.new) result) }
{
    let position = Position::parse_placement(placement)?;
    let mut board = Board::new(position, simulated_clock(), Identity::simulated());
    Ok(serve(&mut board, input, output, MOST_TURNS)?)
}

#[inline(never)]
fn play<R: Source, W: Sink>(
    alloc: Global,
    placement: &str,
    up: u16,
    down: u16,
    faults: bool,
    input: &mut R,
    output: &mut W,
) -> Result<(), Fault>
    ensures { OnBoard (change input.old input.new) (change output.old output.new) result
        placement.now (InWorld (change input.old input.new) (change output.old output.new) result
        up down (PlaysWith faults R.Source W.Sink (change input.old input.new)
        (change output.old output.new) result)) }
{
    let position = Position::parse_placement(placement)?;
    let world = make_world(alloc, position, up, down)?;
    if faults {
        play_at_fault(world, input, output)
    } else {
        play_unharmed(world, input, output)
    }
}

// The world is a parameter, so that the stack holds only one kind of world while it is made. That
// takes the most room.
#[inline(never)]
fn play_at_fault<R: Source, W: Sink>(
    world: World,
    input: &mut R,
    output: &mut W,
) -> Result<(), Fault>
    ensures { PlaysScript R.Source W.Sink (change input.old input.new)
        (change output.old output.new) result faulty_rules ShowsHealed world }
{
    let mut world = world.at_fault();
    Ok(simulate_faults(&mut world, input, output, MOST_TURNS)?)
}

#[inline(never)]
fn play_unharmed<R: Source, W: Sink>(
    mut world: World,
    input: &mut R,
    output: &mut W,
) -> Result<(), Fault>
    ensures { PlaysScript R.Source W.Sink (change input.old input.new)
        (change output.old output.new) result plain_rules ShowsPicture world }
{
    Ok(simulate(&mut world, input, output, MOST_TURNS)?)
}

fn decode(alloc: Global, word: &str) -> Result<Vec<u8>, Fault>
    ensures { MatchResult result (λ bytes. decode_of word.now ≡ Ok bytes.items)
        (λ fault. ((fault ≡ Fault.BadHex) × IsErr (decode_of word.now))
        ⊎ ((fault ≡ Fault.OutOfMemory) × (length word.now % 2 ≢ 1))) }
{
    match hex::decode(alloc, word) {
        Ok(bytes) => Ok(bytes),
        Err(FromHexError::OutOfMemory) => Err(Fault::OutOfMemory),
        Err(_) => Err(Fault::BadHex),
    }
}

// The fault stays one of dgt_link: to convert it here would take room for a second world.
#[inline(never)]
fn make_world(alloc: Global, position: Position, up: u16, down: u16) -> Result<World, WorldFault>
    ensures { MatchResult result
        (λ world. (67 ≤ up) × (257 ≤ down) × (world
        ≡ new_world (pieces_of position) simulated_times simulated_identity up down))
        (λ fault. (((up < 67) ⊎ (down < 257)) × (fault ≡ WorldFault.LineTooSmall))
        ⊎ ((67 ≤ up) × (257 ≤ down) × (fault ≡ WorldFault.OutOfMemory))) }
{
    let (clock, identity) = (simulated_clock(), Identity::simulated());
    let (up, down) = (usize::from(up), usize::from(down));
    World::new(alloc, position, clock, identity, up, down)
}

// Writes bytes, and flushes.
fn write_bytes<W: Sink>(bytes: &[u8], output: &mut W) -> Result<(), Fault>
    ensures { Prints W.Sink (change output.old output.new) result bytes.now }
{
    writes_in_a_row::<W>();
    put(output, bytes)?;
    Ok(flush(output)?)
}
