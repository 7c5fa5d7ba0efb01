//! Reads the words of the command line with `clap`.
use crate::help::{
    ASK_NOTES, BOARD_NOTES, COMMANDS_NOTES, LOG_NOTES, MONITOR_NOTES, PICTURE_NOTES, PROGRAM_NOTES,
    SHOW_NOTES, SIMULATE_NOTES,
};
use clap::error::ErrorKind;
use clap::{Arg, ArgAction, ArgMatches, Command, value_parser};
use dgt_ask::{BadArguments, BadAsk, Task, WORDS, asked_bytes};
use dgt_board::MAX_SENT;
use dgt_command::MAX_WORD;
use std::alloc::{AllocError, Global};
use std::io;
use strsim::jaro;

// What each command does.
const SHOW: &str = "Prints the messages in bytes given as hexadecimal digits";

const MONITOR: &str = "Prints the messages in a board's bytes, as they arrive";

const PICTURE: &str = "Prints the position after each change, from a board's bytes";

const LOG: &str = "Prints what a board stored while no program was reading it";

const ASK: &str = "Writes the bytes of named commands, to send to a board";

const COMMANDS: &str = "Prints the commands in a host's bytes, as they arrive";

const BOARD: &str = "Simulates a board that replies to the commands it reads";

const SIMULATE: &str = "Runs a script with a simulated board, host and serial line";

/// What `--version` prints, after the name.
const VERSION: &str = "1.0.0";

/// The starting position.
const START: &str = "rnbqkbnr/pppppppp/8/8/8/8/PPPPPPPP/RNBQKBNR";

/// The default capacity of a line in bytes.
const LINE_BYTES: &str = "1024";

fn position<'a>(alloc: Global) -> Arg<'a> {
    Arg::new(alloc, "position")
        .long("position")
        .value_name("P")
        .default_value(START)
        .hide_default_value(true)
        .help("The position, as in a FEN [default: the start of a game]")
}

// The capacity of a line in bytes, from `least` on.
fn line_bytes<'a>(alloc: Global, name: &'a str, least: i64, help: &'a str) -> Arg<'a> {
    Arg::new(alloc, name)
        .long(name)
        .value_name("N")
        .value_parser(value_parser!(u16).range(least..=65535))
        .default_value(LINE_BYTES)
        .help(help)
}

// A command of the program, what it does, and the notes of its help.
fn subcommand<'a>(alloc: Global, name: &'a str, about: &'a str, notes: &'a str) -> Command<'a> {
    Command::new(alloc, name).about(about).after_help(notes)
}

// An option that is given or not.
fn flag<'a>(alloc: Global, name: &'a str, help: &'a str) -> Arg<'a> {
    Arg::new(alloc, name)
        .long(name)
        .action(ArgAction::SetTrue)
        .help(help)
}

fn names<'a>(alloc: Global) -> Arg<'a> {
    flag(
        alloc,
        "names",
        "Also names clock buttons, flags, charges and texts",
    )
}

fn show<'a>(alloc: Global) -> Result<Command<'a>, AllocError> {
    let show = subcommand(alloc, "show", SHOW, SHOW_NOTES).arg(names(alloc))?;
    show.arg(
        Arg::new(alloc, "hex")
            .value_name("HEX")
            .required(true)
            .help("The bytes that a board sent, two hexadecimal digits each"),
    )
}

fn monitor<'a>(alloc: Global) -> Result<Command<'a>, AllocError> {
    subcommand(alloc, "monitor", MONITOR, MONITOR_NOTES).arg(names(alloc))
}

fn picture<'a>(alloc: Global) -> Result<Command<'a>, AllocError> {
    subcommand(alloc, "picture", PICTURE, PICTURE_NOTES)
        .arg(flag(
            alloc,
            "doubt",
            "Also reports when the position may be wrong",
        ))?
        .arg(flag(alloc, "clock", "Also prints the clock after each change"))
}

fn ask<'a>(alloc: Global) -> Result<Command<'a>, AllocError> {
    let words = Arg::new(alloc, "word")
        .value_name("WORD")
        .num_args(1..)
        .required(true)
        .allow_hyphen_values(true)
        .help("The commands by name, in order, with their operands");
    subcommand(alloc, "ask", ASK, ASK_NOTES).arg(words)
}

fn board<'a>(alloc: Global) -> Result<Command<'a>, AllocError> {
    subcommand(alloc, "board", BOARD, BOARD_NOTES).arg(position(alloc))
}

fn simulate<'a>(alloc: Global) -> Result<Command<'a>, AllocError> {
    subcommand(alloc, "simulate", SIMULATE, SIMULATE_NOTES)
        .arg(position(alloc))?
        .arg(line_bytes(
            alloc,
            "up",
            MAX_SENT as i64,
            "Capacity to the host, 67 to 65535 bytes",
        ))?
        .arg(line_bytes(
            alloc,
            "down",
            MAX_WORD as i64,
            "Capacity to the board, 257 to 65535 bytes",
        ))?
        .arg(flag(
            alloc,
            "faults",
            "Allows garbleup, garbledown, boardlost, restart, giveup",
        ))
}

// Adds a subcommand, unless an allocation was refused for either.
fn with<'a>(
    program: Result<Command<'a>, AllocError>,
    command: Result<Command<'a>, AllocError>,
) -> Result<Command<'a>, AllocError> {
    program?.subcommand(command?)
}

// Without `?`: one for each subcommand made the proof of this function take 66 seconds.
fn command<'a>(alloc: Global) -> Result<Command<'a>, AllocError> {
    let program = Command::new(alloc, "dgt")
        .version(VERSION)
        .about("Reads and simulates DGT electronic chess boards")
        .after_help(PROGRAM_NOTES)
        .subcommand_required(true);
    let program = with(Ok(program), show(alloc));
    let program = with(program, monitor(alloc));
    let program = with(program, picture(alloc));
    let program = with(program, Ok(subcommand(alloc, "log", LOG, LOG_NOTES)));
    let program = with(program, ask(alloc));
    let program = with(
        program,
        Ok(subcommand(alloc, "commands", COMMANDS, COMMANDS_NOTES)),
    );
    let program = with(program, board(alloc));
    with(program, simulate(alloc))
}

/// The task of the words, of which the first is the program's name.
///
/// `Refused` is returned if they are not a valid command line, and `OutOfMemory` if an allocation
/// is refused.
///
/// It is not inlined, so that the stack of `clap` is free again before the task begins.
#[inline(never)]
pub fn read<'a>(alloc: Global, words: &'a [String]) -> Result<Task<'a>, BadArguments> {
    match command(alloc)?.try_get_matches_from(words) {
        Ok(matches) => match requested(alloc, &matches)? {
            Some(task) => Ok(task),
            None => Err(without_task(alloc)?),
        },
        Err(error) => match help_text(alloc, &error)? {
            Some(text) => Ok(Task::Help { text }),
            None => Err(unmatched(alloc, words)?),
        },
    }
}

// The text of help or of the version, if it was asked for.
fn help_text(alloc: Global, error: &clap::Error) -> Result<Option<String>, BadArguments> {
    match error.kind() {
        ErrorKind::DisplayHelp | ErrorKind::DisplayVersion => Ok(Some(error.to_string(alloc)?)),
        ErrorKind::OutOfMemory => Err(BadArguments::OutOfMemory),
        _ => Ok(None),
    }
}

// The error if clap refuses the words. Its text quotes them with control characters escaped, since
// a terminal would obey these.
fn unmatched(alloc: Global, words: &[String]) -> Result<BadArguments, BadArguments> {
    let words: Vec<String> = words
        .iter()
        .map(|word| word.escape_debug().to_string(alloc))
        .try_collect(alloc)?;
    let text = match command(alloc)?.try_get_matches_from(words.as_slice()) {
        Ok(_) => return without_task(alloc),
        Err(error) => match error.kind() {
            ErrorKind::OutOfMemory => return Err(BadArguments::OutOfMemory),
            _ => error.to_string(alloc)?,
        },
    };
    let file = extra_file(words.as_slice(), text.as_str());
    let text = match (file, text.split_once("\n\n")) {
        (Some((command, file)), Some((first, rest))) => {
            format!(in alloc;
                "{first}\n\n  tip: {command} reads standard input: dgt {command} <{file}\n\n{rest}"
            )?
        }
        _ => text,
    };
    Ok(BadArguments::Refused { text })
}

// The command that reads standard input, and the file name that it was given instead, if that is
// the error in clap's text.
fn extra_file<'w>(words: &'w [String], text: &str) -> Option<(&'w str, &'w str)> {
    let (file, _) = text
        .strip_prefix("error: unexpected argument '")?
        .split_once("' found")?;
    let command = words.get(1)?.as_str();
    let reads = ["monitor", "picture", "log", "commands", "board", "simulate"];
    if file.starts_with('-') || !reads.contains(&command) {
        return None;
    }
    let file = words.iter().find(|word| word.as_str() == file)?;
    Some((command, file.as_str()))
}

// The task of a subcommand with its options.
fn requested<'a>(
    alloc: Global,
    matches: &ArgMatches<'a>,
) -> Result<Option<Task<'a>>, BadArguments> {
    match matches.subcommand() {
        Some(("ask", ask)) => Ok(Some(asked(alloc, ask.get_strs("word").unwrap_or(&[]))?)),
        Some((name, options)) => Ok(task_named(name, options)),
        None => Ok(None),
    }
}

fn task_named<'a>(name: &str, options: &ArgMatches<'a>) -> Option<Task<'a>> {
    let task = match name {
        "show" => Task::Show {
            word: options.get_str("hex")?,
            names: options.get_flag("names"),
        },
        "monitor" => Task::Monitor {
            names: options.get_flag("names"),
        },
        "picture" => Task::Picture {
            doubt: options.get_flag("doubt"),
            clock: options.get_flag("clock"),
        },
        "log" => Task::Log,
        "commands" => Task::Commands,
        "board" => Task::Board {
            placement: options.get_str("position")?,
        },
        "simulate" => Task::Simulate {
            placement: options.get_str("position")?,
            up: options.get_one("up")?,
            down: options.get_one("down")?,
            faults: options.get_flag("faults"),
        },
        _ => return None,
    };
    Some(task)
}

// The task of the words of `ask`.
fn asked<'a>(alloc: Global, words: &[&str]) -> Result<Task<'a>, BadArguments> {
    let text = match asked_bytes(alloc, words) {
        Ok(bytes) => return Ok(Task::Ask { bytes }),
        Err(BadAsk::Help) => return help_of_ask(alloc),
        Err(BadAsk::Unknown(word)) => unknown_word(alloc, word)?,
        Err(BadAsk::Missing(detail)) => detail.form().to_string(alloc)?,
        Err(BadAsk::Unfit { detail, given }) => {
            let (form, given) = (detail.form(), given.escape_debug());
            format!(in alloc; "{form},\n  not '{given}'")?
        }
        Err(BadAsk::Known { id, word }) => {
            format!(in alloc; "for id {id} with this number of bytes, use the word '{word}'")?
        }
        Err(BadAsk::OutOfMemory) => return Err(BadArguments::OutOfMemory),
    };
    let mut ask = ask(alloc)?.bin_name("dgt ask")?;
    Err(refused(alloc, &ask.error(ErrorKind::InvalidValue, text.as_str())?)?)
}

// The error for an unknown word of `ask`: it lists all words, and suggests the most similar one.
fn unknown_word(alloc: Global, word: &str) -> Result<String, AllocError> {
    let given = word.escape_debug();
    let mut text = format!(in alloc; "'{given}' is not a command. The commands are:")?;
    for line in WORDS.split('\n') {
        write!(text, "\n  {line}")?;
    }
    if let Some(similar) = similar_word(alloc, word)? {
        write!(text, "\n\n  tip: a similar word exists: '{similar}'")?;
    }
    Ok(text)
}

// The most similar word, if one is similar, found as clap finds a similar subcommand.
fn similar_word(alloc: Global, word: &str) -> Result<Option<&'static str>, AllocError> {
    let (mut most, mut similar) = (0.7, None);
    for known in WORDS.split(',') {
        let name = known.trim_start().split(' ').next().unwrap_or(known);
        let likeness = jaro(alloc, word, name)?;
        if likeness > most {
            (most, similar) = (likeness, Some(name));
        }
    }
    Ok(similar)
}

// The help of `ask`, which one of its words asks for.
fn help_of_ask<'a>(alloc: Global) -> Result<Task<'a>, BadArguments> {
    if let Err(error) = command(alloc)?.try_get_matches_from(&["dgt", "help", "ask"]) {
        if let Some(text) = help_text(alloc, &error)? {
            return Ok(Task::Help { text });
        }
    }
    Err(without_task(alloc)?)
}

/// The error if the system's arguments can't be read as text.
pub fn refuse_arguments(alloc: Global, error: &io::Error) -> BadArguments {
    if error.kind() == io::ErrorKind::OutOfMemory {
        return BadArguments::OutOfMemory;
    }
    let kind = ErrorKind::InvalidValue;
    refusal(alloc, kind, "an argument is not UTF-8 text").unwrap_or(BadArguments::OutOfMemory)
}

// The error if a subcommand has no task here.
fn without_task(alloc: Global) -> Result<BadArguments, BadArguments> {
    refusal(
        alloc,
        ErrorKind::InvalidSubcommand,
        "a subcommand has no task",
    )
}

// An error with a text of this program.
fn refusal(alloc: Global, kind: ErrorKind, text: &str) -> Result<BadArguments, BadArguments> {
    refused(alloc, &command(alloc)?.error(kind, text)?)
}

// An error with the text of clap.
fn refused(alloc: Global, error: &clap::Error) -> Result<BadArguments, BadArguments> {
    Ok(BadArguments::Refused {
        text: error.to_string(alloc)?,
    })
}
