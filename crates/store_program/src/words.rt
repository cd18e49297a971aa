//! The program's words: a mode and four options, read by `clap`.

ghost use Rattle.std.specs.Prelude.{◌≡◌, ◌≤◌, false, IfOk, map};
ghost use Rattle.std.specs.Option.{IfSome};
ghost use Rattle.std.specs.String.{string_bytes};
ghost use Rattle.clap.specs.Words.{app_of, rule_of, found_of, first_value, kind_of};
ghost use Rattle.store_program.specs.Words.{option_rule, bare_app, store_app, number_from_to, request_in, asked_for, request_of, HasMembers};

use clap::error::ErrorKind;
use clap::{Arg, ArgMatches, Command};
use op_base::NoMemory;
use script_lang::read_number;
use std::alloc::{AllocError, Global};

/// What the program's words ask for.
#[derive(Clone, Copy, Debug, PartialEq, Eq)]
pub enum Request {
    /// The transcript of the script that the input is.
    Script,
    /// The text of a run of the live input that the input is.
    Live,
    /// The summary of a script that is made and of its transcript: of this seed, so many lines that are drawn, `n` members and
    /// a window of `w`.
    Make { seed: u32, count: u32, n: u8, w: u8 },
}

/// An option with a text, which is this one where the words don't have the option.
fn option<'a>(alloc: Global, name: &'a str, usual: &'a str) -> Arg<'a>
    ensures rule { rule_of result ≡ option_rule name.now usual.now }
    ensures local { result.global ≡ false }
{
    Arg::new(alloc, name).long(name).default_value(usual)
}

/// A command with neither help nor version.
fn bare<'a>(alloc: Global) -> Command<'a>
    ensures { app_of result ≡ bare_app }
{
    Command::new(alloc, "store_program")
        .disable_help_flag(true)
        .disable_version_flag(true)
}

/// The program's command.
fn command<'a>(alloc: Global) -> Result<Command<'a>, AllocError>
    ensures { IfOk result (λ command. app_of command ≡ store_app) }
{
    bare(alloc)
        .arg(Arg::new(alloc, "mode").required(true))?
        .arg(option(alloc, "seed", "1"))?
        .arg(option(alloc, "count", "1000"))?
        .arg(option(alloc, "members", "3"))?
        .arg(option(alloc, "window", "4"))
}

/// The number that an option's text is, where it is one from the one to the other.
fn number_from_to(matches: &ArgMatches<'_>, name: &str, least: u32, most: u32) -> Option<u32>
    ensures number { result ≡ number_from_to least most (first_value (found_of matches.now) name.now) }
    ensures within { IfSome result (λ number. (least ≤ number) × (number ≤ most)) }
{
    let number = read_number(matches.get_str(name)?.as_bytes())?;
    if number >= least && number <= most {
        Some(number)
    } else {
        None
    }
}

/// The run that a mode asks for, where there is one.
fn request_in(seed: u32, count: u32, n: u8, w: u8, mode: &str) -> Option<Request>
    requires { 1 ≤ n }
    ensures request { result ≡ request_in seed count n w mode.now }
    ensures members { IfSome result HasMembers }
{
    match mode {
        "script" => Some(Request::Script),
        "live" => Some(Request::Live),
        "make" => Some(Request::Make { seed, count, n, w }),
        _ => None,
    }
}

/// The run that the arguments ask for, with numbers in range.
fn asked_for(matches: &ArgMatches<'_>) -> Option<Request>
    ensures request { result ≡ asked_for (first_value (found_of matches.now)) }
    ensures members { IfSome result HasMembers }
{
    let seed = number_from_to(matches, "seed", 0, 2147483647)?;
    let count = number_from_to(matches, "count", 0, 20000)?;
    let n = number_from_to(matches, "members", 1, 16)? as u8;
    let w = number_from_to(matches, "window", 1, 64)? as u8;
    request_in(seed, count, n, w, matches.get_str("mode")?)
}

/// The run that words ask for, the program's own name first: `script`, `live` or `make`, and `--seed`, `--count`, `--members` and
/// `--window` with numbers in range, which `make` alone uses. `None` where they ask for none.
pub fn request_of(alloc: Global, words: &[String]) -> Result<Option<Request>, NoMemory>
    ensures request { IfOk result (λ request. request ≡ request_of (map string_bytes words.now)) }
    ensures members { IfOk result (λ request. IfSome request HasMembers) }
{
    match command(alloc)?.try_get_matches_from(words) {
        Ok(matches) => Ok(asked_for(&matches)),
        Err(error) if error.kind() == ErrorKind::OutOfMemory => Err(NoMemory),
        Err(_) => Ok(None),
    }
}
