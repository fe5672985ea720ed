//! What the words after the name of the program `pinball_live` ask for.

ghost use Rattle.std.specs.Prelude.{◌≡◌, ℕ, Bool, List, [], ◌∷◌, Some, false, IfOk, IfErr, IsSome, string_bytes};
ghost use Rattle.clap.specs.Words.{app_of, first_of, found_of, rows_of, rule_of, with_rule};
ghost use Rattle.command_line.specs.CommandLine.{IsNoFlag, given_text, given_words, path_rule};
ghost use Rattle.command_line.specs.LiveCommand.{live_app, live_program_app, flag_rule, view_of, is_true, run};
ghost use Rattle.command_line.specs.LiveCommand.{asked_in, asked_of, live_asked_at, IsLiveAsked, AsksLive};

use crate::ask::{AskFault, VERSION, fault_of, not_understood, path_argument};
use clap::{Arg, ArgAction, ArgMatches, Command};
use std::alloc::{AllocError, Global};

/// What the help of the program ends with.
const STATUSES_AND_EXAMPLE: &str = "\
It reads lines of a log from standard input, and answers each before it reads the next.

Exit status:
  0  every line was played, or the work bound was printed
  1  the configuration, its work bound or a line was refused
  2  the words are not understood, or ask for help or for the version
  3  the machine could not go on: standard error says why

Example:
  pinball_live my_machine  runs the machine in the folder my_machine";

/// What is asked for.
#[derive(Debug, Drop)]
pub enum LiveAsk {
    /// To run a machine.
    Run {
        /// The folder of its configuration.
        folder: String,
        /// Whether it runs whatever its work bound is.
        any_work: bool,
    },
    /// To print the work bound.
    Work {
        /// The folder of the configuration.
        folder: String,
    },
}

impl LiveAsk {
    ghost use Rattle.std.specs.Prelude.{◌≡◌, string_bytes};
    ghost use Rattle.command_line.specs.LiveCommand.{view_of, folder_of_view};

    /// The folder of the configuration.
    pub fn folder(&self) -> &str
        ensures { result.now ≡ folder_of_view (view_of self.now) }
    {
        match self {
            LiveAsk::Run { folder, .. } => folder.as_str(),
            LiveAsk::Work { folder } => folder.as_str(),
        }
    }
}

/// What the words after the program's name ask for. They are a folder, and before or after it
/// `--any-work`, or `--work`, which goes before the other.
///
/// # Errors
///
/// - `Usage`: the words are not these, or ask for help or for the version.
/// - `NoMemory`: memory ran out.
pub fn live_command(alloc: Global, words: Vec<String>) -> Result<LiveAsk, AskFault>
    ensures asks { IfOk result (IsLiveAsked (live_asked_at (given_words words.items))) }
    ensures runs { (folder : List ℕ) → IsNoFlag folder → given_words words.items ≡ folder ∷ []
        → AsksLive (run folder false) result }
    ensures fails { IfErr result (λ fault. IsSome (live_asked_at (given_words words.items))
        → fault ≡ AskFault.NoMemory) }
{
    read_live(alloc, &words)
}

/// What the words ask for. Words that ask for something fail only by memory.
fn read_live(alloc: Global, words: &[String]) -> Result<LiveAsk, AskFault>
    ensures asks { IfOk result (IsLiveAsked (live_asked_at (given_words words.now))) }
    ensures fails { IfErr result (λ fault. IsSome (live_asked_at (given_words words.now)) → fault ≡ AskFault.NoMemory) }
{
    match pinball_live(alloc)?.try_get_matches_from(words) {
        Ok(matches) => asked_of(alloc, &matches),
        Err(error) => Err(fault_of(alloc, &error)),
    }
}

/// The command line of `pinball_live`.
fn pinball_live<'a>(alloc: Global) -> Result<Command<'a>, AllocError>
    ensures { IfOk result (λ command. app_of command ≡ live_app) }
{
    let folder = path_argument(alloc, "DIR", "The folder of the machine");
    let with_folder = with(live_program(alloc)?, folder)?;
    let work = flag(
        alloc,
        "work",
        "Prints the work bound: the most that one change or alarm can cause",
    );
    let with_work = with(with_folder, work)?;
    let any_work = flag(
        alloc,
        "any-work",
        "Runs the machine even if its work bound is above 1000000",
    );
    with(with_work, any_work)
}

/// The command with this argument too.
fn with<'a>(command: Command<'a>, arg: Arg<'a>) -> Result<Command<'a>, AllocError>
    requires local { arg.global ≡ false }
    ensures { IfOk result (λ made. app_of made ≡ with_rule (app_of command.entry) (rule_of arg.entry)) }
{
    command.arg(arg)
}

/// A flag of this name.
fn flag<'a>(alloc: Global, name: &'a str, help: &'a str) -> Arg<'a>
    ensures rule { rule_of result ≡ flag_rule name.entry.now }
    ensures local { result.global ≡ false }
{
    Arg::new(alloc, name)
        .long(name)
        .help(help)
        .action(ArgAction::SetTrue)
}

/// The program itself, without its arguments.
fn live_program<'a>(alloc: Global) -> Result<Command<'a>, AllocError>
    ensures { IfOk result (λ command. app_of command ≡ live_program_app) }
{
    Command::new(alloc, "pinball_live")
        .about("Runs a pinball machine live, on lines of a log from standard input")
        .version(VERSION)
        .after_help(STATUSES_AND_EXAMPLE)
        .no_binary_name(true)
        .bin_name("pinball_live")
}

fn asked_of(alloc: Global, matches: &ArgMatches<'_>) -> Result<LiveAsk, AskFault>
    ensures asks { IfOk result (IsLiveAsked (asked_in (rows_of (found_of matches.now)))) }
    ensures fails { IfErr result (λ fault. IsSome (asked_in (rows_of (found_of matches.now)))
        → fault ≡ AskFault.NoMemory) }
{
    let work = is_true(value_of(matches, "work"));
    let any_work = is_true(value_of(matches, "any-work"));
    ask_by(alloc, value_of(matches, "path"), work, any_work)
}

/// The value that was found for the argument of this name.
fn value_of<'a>(matches: &'a ArgMatches<'_>, name: &str) -> Option<&'a str>
    ensures { given_text result ≡ first_of name.now (rows_of (found_of matches.now)) }
{
    matches.get_str(name)
}

/// Whether the value of a flag says that the flag was given.
fn is_true(value: Option<&str>) -> bool
    ensures { result ≡ is_true (given_text value.entry) }
{
    match value {
        Some(text) => text == "true",
        None => false,
    }
}

/// What a folder, if there is one, and the two flags ask for.
fn ask_by(
    alloc: Global,
    folder: Option<&str>,
    work: bool,
    any_work: bool,
) -> Result<LiveAsk, AskFault>
    ensures asks { IfOk result (IsLiveAsked (asked_of (given_text folder.entry) work any_work)) }
    ensures fails { IfErr result (λ fault. IsSome (asked_of (given_text folder.entry) work any_work)
        → fault ≡ AskFault.NoMemory) }
{
    match folder {
        Some(folder) => {
            let folder = String::from_str(alloc, folder)?;
            if work {
                Ok(LiveAsk::Work { folder })
            } else {
                Ok(LiveAsk::Run { folder, any_work })
            }
        }
        None => Err(not_understood(alloc)),
    }
}
