//! The command line, as clap reads it.
ghost use Rattle.std.specs.Prelude.{IfOk, ◌≡◌, codes, map, option_map};
ghost use Rattle.clap.specs.Words.{app_of, found_of, kind_of, one_text, rows_of, rule_of};
ghost use Rattle.clap.specs.declared.error.kind.ErrorKind.TheVariants.{ArgumentConflict};
ghost use Rattle.ets_script.specs.CommandLine as spec;
ghost use Rattle.ets_script.specs.CommandLine.{AreSettings, Settles, ParsesOptions, IsDecimal, TakesNames};
ghost use Rattle.ets_script.specs.inside.Options.{Parses, excludes, HasNumber};

use crate::options::{Options, Settings};
use clap::error::ErrorKind;
use clap::{Arg, ArgAction, ArgMatches, Command, Error, value_parser};
use std::alloc::{AllocError, Global};
use std::convert::AsStr;
use std::io;

/// The version that `--version` prints.
const VERSION: &str = "0.1.0";

/// The first line of the help.
const ABOUT: &str =
    "Runs a script of calls on an in-memory store of Erlang terms, and prints the reply to each line.";

/// The usage in the help and in refusals.
const USAGE: &str = "ets_script [OPTIONS] < SCRIPT";

/// The example that ends the help.
const EXAMPLE: &str = "Example:
  printf 'spawn p\\np new(t,[named_table])\\np insert(t,{a,1})\\np lookup(t,a)\\n' | ets_script
  <0.0.0>
  t
  true
  [{a,1}]";

/// The hashes that `--hash` names.
const HASHES: [&str; 2] = ["fnv", "same"];

/// Parses a command line, whose first word is the program's name, into settings. Refuses words that the program does
/// not know, with clap's text. `--help` returns the help as an error too.
pub fn settings<S: AsStr>(alloc: Global, words: &[S]) -> Result<Settings, Error>
    ensures { Settles (map S.text words.entry.now) result }
{
    let matches = settings_command(alloc)?.try_get_matches_from(words)?;
    Ok(settings_of(&matches))
}

/// Parses a command line as `settings` does, with more options: the limits of processes and of tables,
/// `--why`, `--external`, `--max-packet`, `--seed` and `--version`. Refuses `--why` together with `--threads`, and `--external` together with
/// either or with `--hash same`.
pub fn parse_options<S: AsStr>(alloc: Global, words: &[S]) -> Result<Options, Error>
    ensures { ParsesOptions (map S.text words.entry.now) result }
{
    let options = parse_words(alloc, words)?;
    if is_conflict(&options) {
        return Err(conflict(alloc, conflict_words(&options))?);
    }
    Ok(options)
}

/// Checks whether two of the options exclude each other.
fn is_conflict(options: &Options) -> bool
    ensures { result ≡ excludes options.now }
{
    if options.external {
        options.why || options.settings.threads || options.settings.same
    } else {
        options.why && options.settings.threads
    }
}

/// Returns the text of a refusal, which names two options that exclude each other. It is called only if some do.
fn conflict_words(options: &Options) -> &'static str {
    if !options.external {
        "the argument '--threads' cannot be used with '--why'"
    } else if options.settings.threads {
        "the argument '--external' cannot be used with '--threads'"
    } else if options.why {
        "the argument '--external' cannot be used with '--why'"
    } else {
        "the argument '--external' cannot be used with '--hash same'"
    }
}

/// Parses a command line as `parse_options` does, but does not check whether options exclude each other.
fn parse_words<S: AsStr>(alloc: Global, words: &[S]) -> Result<Options, Error>
    ensures { Parses (map S.text words.entry.now) result }
{
    let processes = number_option(
        alloc,
        "max-processes",
        "4096",
        "Limit the processes ever spawned",
    );
    let tables = number_option(alloc, "max-tables", "65536", "Limit the tables ever made");
    let why = flag_option(
        alloc,
        "why",
        "Print on standard error why lines were refused",
    );
    let external = flag_option(
        alloc,
        "external",
        "Answer packets of Erlang's External Term Format",
    );
    let packet = number_option(
        alloc,
        "max-packet",
        "16777216",
        "Limit the bytes of one packet",
    );
    let seed = number_option(
        alloc,
        "seed",
        "0",
        "Hash keys by this seed; 0 is no seed, or with --external a random one",
    );
    let command = settings_command(alloc)?
        .arg(processes)?
        .arg(tables)?
        .arg(why)?
        .arg(external)?
        .arg(packet)?
        .arg(seed)?
        .version(VERSION);
    let matches = command.try_get_matches_from(words)?;
    Ok(Options {
        settings: settings_of(&matches),
        processes: matched_number(&matches, "max-processes"),
        tables: matched_number(&matches, "max-tables"),
        why: is_named("true", matches.get_str("why")),
        external: is_named("true", matches.get_str("external")),
        max_packet: matched_number(&matches, "max-packet"),
        seed: matched_number(&matches, "seed") as u64,
    })
}

/// Returns the refusal of two options that exclude each other, with these words, in the form of clap's errors.
fn conflict(alloc: Global, words: &str) -> Result<Error, AllocError>
    ensures { IfOk result (λ error. kind_of error ≡ ArgumentConflict) }
{
    settings_command(alloc)?.error(ErrorKind::ArgumentConflict, words)
}

/// Returns the parser of the command line with the options of `Settings`.
fn settings_command<'a>(alloc: Global) -> Result<Command<'a>, AllocError>
    ensures { (hashes : _) × TakesNames spec.hash_names hashes
        × IfOk result (λ command. app_of command ≡ spec.command_line hashes) }
{
    let hash = hash_option(alloc);
    let objects = number_option(
        alloc,
        "max-objects",
        "1000000",
        "Limit the objects in one table",
    );
    with_help(Command::new(alloc, "ets_script"))
        .arg(flag_option(alloc, "threads", "Run each process in its own thread"))?
        .arg(hash)?
        .arg(objects)
}

/// Adds the texts of the help to a parser. They change nothing in what it parses.
fn with_help<'a>(command: Command<'a>) -> Command<'a>
    ensures { app_of result ≡ app_of command.entry }
{
    command
        .about(ABOUT)
        .override_usage(USAGE)
        .after_help(EXAMPLE)
}

/// Returns the option of this name, which takes no value.
fn flag_option<'a>(alloc: Global, name: &'a str, help: &'a str) -> Arg<'a>
    ensures { rule_of result ≡ spec.flag_option name.entry.now }
{
    Arg::new(alloc, name)
        .long(name)
        .help(help)
        .action(ArgAction::SetTrue)
}

/// Returns the option `--hash`.
fn hash_option<'a>(alloc: Global) -> Arg<'a>
    ensures { (hashes : _) × TakesNames spec.hash_names hashes
        × (rule_of result ≡ spec.hash_option hashes) }
{
    Arg::new(alloc, "hash")
        .long("hash")
        .help("Hash keys by FNV-1a, or to one hash for all keys (for testing)")
        .action(ArgAction::Set)
        .value_parser(HASHES.as_slice())
        .default_value("fnv")
}

/// Returns the option of this name, whose value is a number below 2^32, with the value that it has by default.
fn number_option<'a>(alloc: Global, name: &'a str, default: &'a str, help: &'a str) -> Arg<'a>
    ensures { rule_of result ≡ spec.number_option name.entry.now default.entry.now }
{
    Arg::new(alloc, name)
        .long(name)
        .help(help)
        .action(ArgAction::Set)
        .value_parser(value_parser!(u32))
        .default_value(default)
}

/// Returns the settings of the matched options, which include a number of objects.
fn settings_of(matches: &ArgMatches) -> Settings
    ensures { HasNumber (found_of matches.now) (codes "max-objects")
        → AreSettings (rows_of (found_of matches.now)) result }
{
    Settings {
        threads: is_named("true", matches.get_str("threads")),
        same: is_named("same", matches.get_str("hash")),
        objects: matched_number(matches, "max-objects"),
    }
}

/// Returns the number that was matched for the option of this name. Each such option has a default, so the 0 for an
/// option without a number is not used.
fn matched_number(matches: &ArgMatches, name: &str) -> u32
    ensures { HasNumber (found_of matches.now) name.now
        → IsDecimal (one_text (found_of matches.now) name.now) result }
{
    matches.get_one(name).unwrap_or(0)
}

/// Checks whether there is a value, and it is this name. The value of a flag that was passed is `true`.
fn is_named(name: &str, value: Option<&str>) -> bool
    ensures { result ≡ spec.is_named name.now (option_map (λ text. text.now) value.entry) }
{
    match value {
        Some(text) => text == name,
        None => false,
    }
}

/// Prints the text of the parser's error, and returns the program's status. It is 0 after the help or the version, 2 if
/// the command line was refused, and 1 if memory ran out.
pub fn refuse<R: Print + Eprint>(rt: &R, error: &Error) -> io::Result<u8>
    ensures { IfOk result (λ status. status ≡ spec.refused_status (kind_of error.now)) }
{
    match error.kind() {
        ErrorKind::OutOfMemory => {
            eprintln!(rt; "** nomem")?;
            Ok(1)
        }
        ErrorKind::DisplayHelp | ErrorKind::DisplayVersion => {
            error.print(rt)?;
            Ok(0)
        }
        _ => {
            error.print(rt)?;
            Ok(2)
        }
    }
}
