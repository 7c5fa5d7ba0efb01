//! Facts about the program's limits, its faults and the ends of its tasks. Nothing here runs: the
//! contract of each function states a fact.

ghost use Rattle.std.specs.Prelude.{◌≡◌, ◌↔◌, ℕ, List, String, codes, map, string_bytes, All, Ok, true, false};
ghost use Rattle.std.specs.declared.alloc.Global.{Global};
ghost use Rattle.dgt_command.specs.Content.{CommandContent};
ghost use Rattle.dgt_command.specs.Encoding.{AreBytes, EncodesCommand, command_encoding};
ghost use Rattle.dgt_lines.specs.CommandWords.{command_text};
ghost use Rattle.dgt_lines.specs.Lines.{monitor_text};
ghost use Rattle.dgt_lines.specs.Monitoring.{IsMonitored};
ghost use Rattle.dgt_lines.specs.NamedLines.{AreMonitored};
ghost use Rattle.dgt_ask.specs.Asks.{AskInOrder, Asks};
ghost use Rattle.dgt_ask.specs.declared.tasks.BadArguments.{BadArguments as Bad};
ghost use Rattle.dgt_link.specs.declared.world.WorldFault.{WorldFault};
ghost use Rattle.dgt_lines.specs.declared.faults.RunFault.{RunFault};
ghost use Rattle.dgt_text.specs.Simulating.{ShowsHealed, ShowsPicture, faulty_rules, plain_rules};
ghost use Rattle.dgt_program.specs.Ends.{AllIsMonitored, AllIsShown, FaultsComeFirst, IsBeforeRuns, OddWordsAreRefused, PlacementsAreRefused, PlaysAll, PositionsArePlaced, ShowsAll, ShowsNothing, SmallLinesAreRefused, TextsAreFlushed, WordsAreDecoded, WorldsAreLarge};
ghost use Rattle.dgt_program.specs.Faults.{IsOfWords, IsOfWorld, fault_lines, fault_status};
ghost use Rattle.dgt_program.specs.declared.fault.Fault.{Fault as AnyFault};

use crate::MOST_TURNS;
use dgt_text::{Sink, Source};

/// The limit of reads of an engine of the program.
pub fn limits()
    ensures turns { MOST_TURNS ≡ 4294967295 }
{}

/// Given the text that `dgt commands` prints for a command, as one word, `dgt ask` writes that
/// command. So the texts of several commands, a word each, give back their bytes
/// (`dgt_ask::asked_bytes`).
pub fn commands_are_asked_back()
    ensures each { (command : CommandContent) (bytes : List ℕ) → EncodesCommand command bytes →
        Asks (command_text command) command }
    ensures in_order { (commands : List CommandContent) →
        All (λ command. AreBytes (command_encoding command)) commands →
        AskInOrder (map command_text commands) (map command_encoding commands) }
{}

/// Wrong words end the program with status 2, and refused memory with 3. They have no other fault.
/// A world that is not made ends the program with the same statuses. A fault is reported by a line,
/// and wrong words by whole lines of their own.
pub fn faults()
    ensures words { (text : String Global) (fault : AnyFault) →
        IsOfWords (Bad.Refused text) fault ↔ (fault ≡ AnyFault.CommandLine text) }
    ensures lines { (text : String Global) →
        fault_lines (AnyFault.CommandLine text) ≡ string_bytes text }
    ensures line { fault_lines AnyFault.BadHex ≡ codes "dgt: bad hex\n" }
    ensures status { (text : String Global) → fault_status (AnyFault.CommandLine text) ≡ 2 }
    ensures refused { (fault : AnyFault) → IsOfWords Bad.OutOfMemory fault ↔
        (fault_status fault ≡ 3) }
    ensures small { (fault : AnyFault) → IsOfWorld WorldFault.LineTooSmall fault →
        fault_status fault ≡ 2 }
    ensures memory { (fault : AnyFault) → IsOfWorld WorldFault.OutOfMemory fault →
        fault_status fault ≡ 3 }
    ensures early { (text : String Global) → IsBeforeRuns (AnyFault.CommandLine text) }
{}

/// If a task ends with a fault that is not of a run, no bytes were read or written.
pub fn faults_come_first<R: Source, W: Sink>()
    ensures { FaultsComeFirst R.Source W.Sink }
{}

/// What was read and written if a task succeeds.
pub fn tasks_end_well<R: Source, W: Sink>()
    ensures flushed { TextsAreFlushed W.Sink }
    ensures shown { AllIsShown W.Sink IsMonitored }
    ensures shown_with_names { AllIsShown W.Sink AreMonitored }
    ensures monitored { AllIsMonitored R.Source W.Sink false
        (λ bytes out. out ≡ monitor_text bytes) }
    ensures monitored_with_names { AllIsMonitored R.Source W.Sink true
        (AreMonitored {A = Unit {0}} (Ok tt)) }
    ensures played { PlaysAll R.Source W.Sink false plain_rules ShowsPicture }
    ensures played_with_faults { PlaysAll R.Source W.Sink true faulty_rules ShowsHealed }
{}

/// All bytes of a hexadecimal word are printed, unless a write is refused.
pub fn words_are_shown<W: Sink>()
    ensures decoded { WordsAreDecoded W.Sink }
    ensures odd { OddWordsAreRefused W.Sink }
    ensures all { ShowsAll }
    ensures nothing { ShowsNothing }
{}

/// A placement becomes the board's position or is refused. The capacities of a world's lines are
/// large enough or are refused.
pub fn worlds_are_as_said<R: Source, W: Sink>()
    ensures placed { PositionsArePlaced R.Source W.Sink }
    ensures refused { PlacementsAreRefused R.Source W.Sink }
    ensures large { WorldsAreLarge R.Source W.Sink }
    ensures small { SmallLinesAreRefused R.Source W.Sink }
{}
