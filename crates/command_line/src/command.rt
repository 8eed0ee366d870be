//! The words of the program.

ghost use Rattle.std.specs.Prelude.{◌≡◌, ◌∷◌, [], ℕ, Some, Err, IfOk, codes, is_some, true, false};
ghost use Rattle.std.specs.Borrow.{Bor};
ghost use Rattle.std.specs.Option.{IfSome};
ghost use Rattle.clap.specs.Words.{App, Text, app_of, fault_of, found_of, new_app, rows_of, subcommand_of, subcommand_rows_of, with_subcommand};
ghost use Rattle.clap.specs.declared.builder.command.Command.TheViews.{out-Command};
ghost use Rattle.command_line.specs.Words.{Asks, HasValues, IsCount, IsNumberText, IsTableText, IsUnhyphened, IsWord, Refuses, counting, given_lines, importing, program, texts, wanting, word_of};

use clap::error::ErrorKind;
use clap::{Arg, ArgAction, ArgMatches, Command as ClapCommand, value_parser};
use std::alloc::{AllocError, Global};
use thiserror::Error;

/// What the program is to do.
#[derive(Clone, Copy)]
pub enum Command<'a> {
    /// Answers each request line.
    Run,
    /// Reads each request line, and says whether it is spelt right.
    Check,
    /// Puts the records of a CSV file into the table of this name, which may be any text.
    Import(&'a str),
    /// Writes the generated script of the number.
    Make(u32),
    /// Runs that script on a new site in memory, and writes what its run comes to.
    Bench(u32),
}

/// Why the words name no command.
#[derive(Clone, Copy, Debug, PartialEq, Eq, Error)]
pub enum CommandError {
    /// `clap` refuses the words: they name no command or another one, have more words, or ask for help.
    #[error("the words aren't those of a command")]
    Refused,
    /// Memory was wanting.
    #[error("out of memory")]
    Memory,
}

/// The command that the words name, behind the program's name.
///
/// `Refused` exactly where `clap` refuses the words for another cause than memory.
pub fn read_command<'a>(alloc: Global, words: &'a [&'a str]) -> Result<Command<'a>, CommandError>
    ensures asks { IfOk result (Asks (texts words.entry.now)) }
    ensures refused { result ≡ Err CommandError.Refused → Refuses (texts words.entry.now) }
{
    match parse_words(alloc, words) {
        Ok(matches) => Ok(named_command(&matches)),
        Err(error) => Err(error),
    }
}

/// What `clap` makes of the words.
fn parse_words<'a>(alloc: Global, words: &'a [&'a str]) -> Result<ArgMatches<'a>, CommandError>
    ensures accepted { IfOk result (λ m. fault_of program (texts words.entry.now) ≡ []) }
    ensures named { IfOk result (λ m. subcommand_rows_of m ≡ subcommand_of program (texts words.entry.now)) }
    ensures wanted { IfOk result (λ m. is_some (subcommand_rows_of m) ≡ true) }
    ensures refused { result ≡ Err CommandError.Refused → Refuses (texts words.entry.now) }
{
    let Ok(command) = command_line(alloc) else {
        return Err(CommandError::Memory);
    };
    match command.try_get_matches_from(words) {
        Ok(matches) => Ok(matches),
        Err(error) => match error.kind() {
            ErrorKind::OutOfMemory => Err(CommandError::Memory),
            _ => Err(CommandError::Refused),
        },
    }
}

/// The command line as `clap` is told it.
fn command_line<'a>(alloc: Global) -> Result<ClapCommand<'a>, AllocError>
    ensures app { IfOk result (λ c. app_of c ≡ program) }
    ensures required { IfOk result (λ c. (out-Command c).subcommand_required ≡ true) }
    ensures local { IfOk result (λ c. (out-Command c).has_globals ≡ false) }
{
    let command = given_lines(alloc)?;
    let command = with_count(alloc, command, "make")?;
    with_count(alloc, command, "bench")
}

/// The part of the command line whose commands read what is given to the program.
fn given_lines<'a>(alloc: Global) -> Result<ClapCommand<'a>, AllocError>
    ensures app { IfOk result (λ c. app_of c ≡ given_lines) }
    ensures local { IfOk result (λ c. (out-Command c).has_globals ≡ false) }
{
    let command = with_word(wanting(alloc), ClapCommand::new(alloc, "run"))?;
    let command = with_word(command, ClapCommand::new(alloc, "check"))?;
    with_word(command, importing(alloc)?)
}

/// The program's name alone, behind which a command must stand.
fn wanting<'a>(alloc: Global) -> ClapCommand<'a>
    ensures app { app_of result ≡ wanting (new_app (codes "ttcache")) }
    ensures local { (out-Command result).has_globals ≡ false }
{
    ClapCommand::new(alloc, "ttcache")
        .subcommand_required(true)
        .disable_help_subcommand(true)
}

/// One more command.
fn with_word<'a>(
    command: ClapCommand<'a>,
    word: ClapCommand<'a>,
) -> Result<ClapCommand<'a>, AllocError>
    requires plain { (out-Command command).has_globals ≡ false }
    requires word { (out-Command word).has_globals ≡ false }
    ensures app { IfOk result (λ c. app_of c ≡ with_subcommand (app_of command.entry) (app_of word.entry).top) }
    ensures local { IfOk result (λ c. (out-Command c).has_globals ≡ false) }
{
    command.subcommand(word)
}

/// One more command, with a number behind its word.
fn with_count<'a>(
    alloc: Global,
    command: ClapCommand<'a>,
    word: &'a str,
) -> Result<ClapCommand<'a>, AllocError>
    requires plain { (out-Command command).has_globals ≡ false }
    ensures app { IfOk result (λ c. app_of c ≡ with_subcommand (app_of command.entry) (counting word.entry.now).top) }
    ensures local { IfOk result (λ c. (out-Command c).has_globals ≡ false) }
{
    with_word(command, counting(alloc, word)?)
}

/// A command with a number behind its word.
fn counting<'a>(alloc: Global, word: &'a str) -> Result<ClapCommand<'a>, AllocError>
    ensures app { IfOk result (λ c. app_of c ≡ counting word.entry.now) }
    ensures local { IfOk result (λ c. (out-Command c).has_globals ≡ false) }
{
    let number = Arg::new(alloc, "N")
        .required(true)
        .action(ArgAction::Set)
        .value_parser(value_parser!(u32).range(0..=1_000_000));
    ClapCommand::new(alloc, word).arg(number)
}

/// The command with the name of a table behind its word.
fn importing<'a>(alloc: Global) -> Result<ClapCommand<'a>, AllocError>
    ensures app { IfOk result (λ c. app_of c ≡ importing) }
    ensures local { IfOk result (λ c. (out-Command c).has_globals ≡ false) }
{
    let table = Arg::new(alloc, "TABLE")
        .required(true)
        .action(ArgAction::Set);
    ClapCommand::new(alloc, "import").arg(table)
}

/// The command that is named.
fn named_command<'a>(matches: &ArgMatches<'a>) -> Command<'a>
    ensures named { IfSome (subcommand_rows_of matches.now) (λ named. IsWord named.0 → word_of result ≡ named.0) }
    ensures values { IfSome (subcommand_rows_of matches.now) (λ named. HasValues result named.1) }
{
    match matches.subcommand() {
        Some((name, values)) => command_of(name, values),
        None => Command::Run,
    }
}

/// The command of a word, with what stands behind it.
fn command_of<'a>(word: &str, values: &ArgMatches<'a>) -> Command<'a>
    ensures named { IsWord word.now → word_of result ≡ word.now }
    ensures values { HasValues result (rows_of (found_of values.now)) }
{
    if word == "check" {
        return Command::Check;
    }
    if word == "import" {
        return Command::Import(table_in(values));
    }
    if word == "make" {
        return Command::Make(count_in(values));
    }
    if word == "bench" {
        return Command::Bench(count_in(values));
    }
    Command::Run
}

/// The number behind the word.
fn count_in(values: &ArgMatches<'_>) -> u32
    ensures { IsCount (rows_of (found_of values.now)) result }
{
    values.get_one("N").unwrap_or(0)
}

/// The name behind the word.
fn table_in<'a>(values: &ArgMatches<'a>) -> &'a str
    ensures { IsTableText (rows_of (found_of values.now)) result.now }
{
    values.get_str("TABLE").unwrap_or("")
}

/// The program's name, the word of a command and what stands behind it are taken, and name that command.
pub fn forms_law()
    ensures run { (name : Text) → Asks (name ∷ codes "run" ∷ []) Command.Run }
    ensures check { (name : Text) → Asks (name ∷ codes "check" ∷ []) Command.Check }
    ensures import { (name : Text) (table : Bor Text) → IsUnhyphened table.now
        → Asks (name ∷ codes "import" ∷ table.now ∷ []) (Command.Import table) }
    ensures make { (name number : Text) (n : ℕ) → IsNumberText number n
        → Asks (name ∷ codes "make" ∷ number ∷ []) (Command.Make n) }
    ensures bench { (name number : Text) (n : ℕ) → IsNumberText number n
        → Asks (name ∷ codes "bench" ∷ number ∷ []) (Command.Bench n) }
{}
