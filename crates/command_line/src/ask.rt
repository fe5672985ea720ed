//! What the words after the program's name ask for.

ghost use Rattle.std.specs.Prelude.{◌≡◌, ℕ, List, [], ◌∷◌, Some, true, false, IfOk, IfErr, IsSome, option_map, None};
ghost use Rattle.std.specs.Prelude.{codes, string_bytes};
ghost use Rattle.clap.specs.declared.builder.command.Command.{out-Command};
ghost use Rattle.clap.specs.Words.{app_of, kind_of, new_app, rule_of, subcommand_rows_of};
ghost use Rattle.command_line.specs.CommandLine.{path_rule, folder_rule, check_app, path_app, program_app, pinball_app};
ghost use Rattle.command_line.specs.CommandLine.{check, verify, play, asked_by, asked_of, asked_at, IsNoFlag};
ghost use Rattle.command_line.specs.CommandLine.{given_words, given_text, IsAsked, Asks};
ghost use Rattle.command_line.specs.declared.ask.AskFault.TheVariants.{NoMemory};

use clap::error::ErrorKind;
use clap::{Arg, ArgAction, ArgMatches, Command, Error};
use std::alloc::{AllocError, Global};

/// What `--version` shows after the name of the program.
pub(crate) const VERSION: &str = "1.0.0";
/// What the help of the program ends with.
const STATUSES_AND_EXAMPLES: &str = "\
Exit status:
  0  yes, or every line of the log was played
  1  the configuration, its certificate, or a line of the log was refused
  2  the words are not a command, or ask for help or for the version
  3  the command could not finish: standard error says why

Examples:
  pinball check .                 checks the machine in this folder
  pinball play my.log my_machine  plays the log my.log on the machine in the folder my_machine";

/// What is asked for.
#[derive(Debug, Drop)]
pub enum Ask {
    /// To check the configuration.
    Check {
        /// The folder of the configuration. None if the bundle is on standard input.
        folder: Option<String>,
    },
    /// To verify the certificate of this path on the configuration.
    Verify {
        /// The path of the certificate.
        certificate: String,
        /// The folder of the configuration, as of `Check`.
        folder: Option<String>,
    },
    /// To play the log of this path on the configuration.
    Play {
        /// The path of the log.
        log: String,
        /// The folder of the configuration, as of `Check`.
        folder: Option<String>,
    },
}

/// Why the words ask for nothing that can be done.
#[derive(Debug, Drop, thiserror::Error)]
pub enum AskFault {
    /// Memory ran out.
    #[error("NoMemory")]
    NoMemory,
    /// The words are not a command, or ask for help or for the version. This is the text to show.
    #[error("{0}")]
    Usage(String),
}

impl From<AllocError> for AskFault {
    ghost from_gives = { λ _ e. e ≡ NoMemory };

    fn from(_e: AllocError) -> AskFault {
        AskFault::NoMemory
    }
}

/// What the words after the program's name ask for: `check`, `verify CERT` or `play LOG`, each of
/// which may be followed by the folder of a configuration.
///
/// # Errors
///
/// - `Usage`: the words are not one of these, or ask for help or for the version.
/// - `NoMemory`: memory ran out.
pub fn command(alloc: Global, words: Vec<String>) -> Result<Ask, AskFault>
    ensures asks { IfOk result (IsAsked (asked_at (given_words words.items))) }
    ensures checks { given_words words.items ≡ codes "check" ∷ [] → Asks (check None) result }
    ensures checks_folder { (folder : List ℕ) → IsNoFlag folder → given_words words.items ≡ codes "check" ∷ folder ∷ []
        → Asks (check (Some folder)) result }
    ensures verifies { (path : List ℕ) → IsNoFlag path → given_words words.items ≡ codes "verify" ∷ path ∷ []
        → Asks (verify path None) result }
    ensures verifies_folder { (path folder : List ℕ) → IsNoFlag path → IsNoFlag folder
        → given_words words.items ≡ codes "verify" ∷ path ∷ folder ∷ [] → Asks (verify path (Some folder)) result }
    ensures plays { (log : List ℕ) → IsNoFlag log → given_words words.items ≡ codes "play" ∷ log ∷ []
        → Asks (play log None) result }
    ensures plays_folder { (log folder : List ℕ) → IsNoFlag log → IsNoFlag folder
        → given_words words.items ≡ codes "play" ∷ log ∷ folder ∷ [] → Asks (play log (Some folder)) result }
    ensures fails { IfErr result (λ fault. IsSome (asked_at (given_words words.items)) → fault ≡ AskFault.NoMemory) }
{
    read_words(alloc, &words)
}

/// What the words ask for. Words that ask for something fail only by memory.
fn read_words(alloc: Global, words: &[String]) -> Result<Ask, AskFault>
    ensures asks { IfOk result (IsAsked (asked_at (given_words words.now))) }
    ensures fails { IfErr result (λ fault. IsSome (asked_at (given_words words.now)) → fault ≡ AskFault.NoMemory) }
{
    match pinball(alloc)?.try_get_matches_from(words) {
        Ok(matches) => ask_of(alloc, &matches),
        Err(error) => Err(fault_of(alloc, &error)),
    }
}

/// The program's command line.
fn pinball<'a>(alloc: Global) -> Result<Command<'a>, AllocError>
    ensures { IfOk result (λ command. app_of command ≡ pinball_app) }
{
    let check = check_command(alloc)?;
    let top = program(alloc)?;
    let command = top.subcommand(check)?;
    let verify = path_command(
        alloc,
        "verify",
        "Verifies a certificate of a configuration",
        path_argument(alloc, "CERT", "The file with the certificate"),
    )?;
    let command = command.subcommand(verify)?;
    let play = path_command(
        alloc,
        "play",
        "Plays a log on a configuration",
        path_argument(alloc, "LOG", "The file with the log of the switches"),
    )?;
    command.subcommand(play)
}

/// What stands above the subcommands. By `bin_name` their usage lines begin with the program's name.
fn program<'a>(alloc: Global) -> Result<Command<'a>, AllocError>
    ensures { IfOk result (λ command. app_of command ≡ program_app) }
{
    Command::new(alloc, "pinball")
        .about("Checks and plays configurations of pinball machines")
        .version(VERSION)
        .after_help(STATUSES_AND_EXAMPLES)
        .no_binary_name(true)
        .subcommand_required(true)
        .bin_name("pinball")
}

fn check_command<'a>(alloc: Global) -> Result<Command<'a>, AllocError>
    ensures shape { IfOk result (λ command. app_of command ≡ check_app) }
    ensures local { IfOk result (λ command. (out-Command command).has_globals ≡ false) }
{
    Command::new(alloc, "check")
        .about("Checks a configuration")
        .arg(folder_argument(alloc))
}

/// A subcommand with a path, and then a folder.
fn path_command<'a>(
    alloc: Global,
    name: &'a str,
    about: &'a str,
    path: Arg<'a>,
) -> Result<Command<'a>, AllocError>
    requires rule { rule_of path ≡ path_rule }
    requires local { path.global ≡ false }
    ensures shape { IfOk result (λ command. app_of command ≡ path_app (new_app name.now)) }
    ensures local { IfOk result (λ command. (out-Command command).has_globals ≡ false) }
{
    Command::new(alloc, name)
        .about(about)
        .arg(path)?
        .arg(folder_argument(alloc))
}

fn folder_argument<'a>(alloc: Global) -> Arg<'a>
    ensures rule { rule_of result ≡ folder_rule }
    ensures local { result.global ≡ false }
{
    Arg::new(alloc, "folder")
        .help("The folder of the machine; without DIR, a bundle is read from standard input")
        .value_name("DIR")
        .action(ArgAction::Set)
}

pub(crate) fn path_argument<'a>(alloc: Global, value_name: &'a str, help: &'a str) -> Arg<'a>
    ensures rule { rule_of result ≡ path_rule }
    ensures local { result.global ≡ false }
{
    Arg::new(alloc, "path")
        .help(help)
        .value_name(value_name)
        .required(true)
        .action(ArgAction::Set)
}

fn ask_of(alloc: Global, matches: &ArgMatches<'_>) -> Result<Ask, AskFault>
    ensures asks { IfOk result (IsAsked (asked_of (subcommand_rows_of matches.now))) }
    ensures fails { IfErr result (λ fault. IsSome (asked_of (subcommand_rows_of matches.now))
        → fault ≡ AskFault.NoMemory) }
{
    match matches.subcommand() {
        Some((name, found)) => {
            let path = found.get_str("path");
            let folder = found.get_str("folder");
            ask_by(alloc, name, path, folder)
        }
        None => Err(not_understood(alloc)),
    }
}

/// What a subcommand's name, and the values of its path and its folder, ask for.
fn ask_by(
    alloc: Global,
    name: &str,
    path: Option<&str>,
    folder: Option<&str>,
) -> Result<Ask, AskFault>
    ensures asks { IfOk result (IsAsked (asked_by name.now (given_text path.entry) (given_text folder.entry))) }
    ensures fails { IfErr result (λ fault. IsSome (asked_by name.now (given_text path.entry) (given_text folder.entry))
        → fault ≡ AskFault.NoMemory) }
{
    let folder = copy_of(alloc, folder)?;
    if name == "check" {
        return Ok(Ask::Check { folder });
    }
    match path {
        Some(path) if name == "verify" => Ok(Ask::Verify {
            certificate: String::from_str(alloc, path)?,
            folder,
        }),
        Some(path) if name == "play" => Ok(Ask::Play {
            log: String::from_str(alloc, path)?,
            folder,
        }),
        _ => Err(not_understood(alloc)),
    }
}

fn copy_of(alloc: Global, text: Option<&str>) -> Result<Option<String>, AllocError>
    ensures { IfOk result (λ copy. option_map string_bytes copy ≡ given_text text.entry) }
{
    match text {
        Some(text) => Ok(Some(String::from_str(alloc, text)?)),
        None => Ok(None),
    }
}

pub(crate) fn not_understood(alloc: Global) -> AskFault {
    match String::from_str(alloc, "error: the words are not understood\n") {
        Ok(text) => AskFault::Usage(text),
        Err(_) => AskFault::NoMemory,
    }
}

pub(crate) fn fault_of(alloc: Global, error: &Error) -> AskFault
    ensures { kind_of error.now ≡ ErrorKind.OutOfMemory → result ≡ AskFault.NoMemory }
{
    if error.kind() == ErrorKind::OutOfMemory {
        return AskFault::NoMemory;
    }
    match error.to_string(alloc) {
        Ok(text) => AskFault::Usage(text),
        Err(_) => AskFault::NoMemory,
    }
}
