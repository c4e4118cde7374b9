// What `clap` makes of words.
ghost use Rattle.std.specs.Prelude.{◌≡◌, ◌≢◌, IfErr, IfOk, IfSome, ◌≤◌, Ok, Err, map, option_map, string_bytes, true, false, codes};
ghost use Rattle.clap.specs.Words.{HasKind, app_of, fault_of, first_of, found_of, is_simple_and_free, kind_of, matches_of, new_app, rows_of, rule_of};
ghost use Rattle.clap.specs.declared.error.kind.ErrorKind.TheVariants as kind;
ghost use Rattle.tb_options.specs.Options.{HasMatches, demo_app, most_of, name_of, option_rule, solve_app, storeys_of_text, value_of_text, word_rule};
ghost use Rattle.tb_options.specs.declared.refusal.WordsRefusal.TheVariants.{NoReading};

use crate::{SolveOption, WordsRefusal};
use clap::error::ErrorKind;
use clap::{Arg, ArgAction, ArgMatches, Command, Error};
use std::alloc::{AllocError, Global};
use tb_numbers::{NumberFault, parse_decimal};

// An option of this name, which takes one value.
fn option<'a>(alloc: Global, name: &'a str) -> Arg<'a>
    ensures rule { rule_of result ≡ option_rule name.entry.now }
    ensures local { result.global ≡ false }
{
    Arg::new(alloc, name).long(name).action(ArgAction::Set)
}

/// The command `solve` with its options.
pub(crate) fn solve_command<'a>(alloc: Global) -> Result<Command<'a>, AllocError>
    ensures { IfOk result (λ c. app_of c ≡ solve_app) }
{
    let bare = Command::new(alloc, "solve");
    let width = bare.arg(option(alloc, "width"))?;
    let grade = width.arg(option(alloc, "grade"))?;
    let halve = grade.arg(option(alloc, "halve"))?;
    halve.arg(option(alloc, "sweeps"))
}

/// The command `demo` with its word.
pub(crate) fn demo_command<'a>(alloc: Global) -> Result<Command<'a>, AllocError>
    ensures { IfOk result (λ c. app_of c ≡ demo_app) }
{
    Command::new(alloc, "demo").arg(word(alloc, "storeys"))
}

// A word of this name, which must be there.
fn word<'a>(alloc: Global, name: &'a str) -> Arg<'a>
    ensures rule { rule_of result ≡ word_rule name.entry.now }
    ensures local { result.global ≡ false }
{
    Arg::new(alloc, name).required(true).action(ArgAction::Set)
}

// Why there are no matches.
fn refusal(error: &Error) -> WordsRefusal
    ensures { result ≡ NoReading → kind_of error.now ≢ kind.OutOfMemory }
{
    if error.kind() == ErrorKind::OutOfMemory {
        WordsRefusal::NoMemory
    } else {
        WordsRefusal::NoReading
    }
}

/// The matches of words by a command. The first word is the command's own, which isn't looked at.
pub(crate) fn matches_of<'a>(
    command: Command<'a>,
    words: &'a [String],
) -> Result<ArgMatches<'a>, WordsRefusal>
    requires { is_simple_and_free (app_of command) ≡ true }
    ensures matches { IfOk result (λ _. HasMatches (app_of command.entry) (map string_bytes words.entry.now)) }
    ensures rows { IfOk result (λ m. rows_of (found_of m) ≡ matches_of (app_of command.entry) (map string_bytes words.entry.now)) }
    ensures no_matches { IfErr result (λ why. why ≡ NoReading
        → ¬ HasMatches (app_of command.entry) (map string_bytes words.entry.now)) }
{
    match command.try_get_matches_from(words) {
        Ok(matches) => Ok(matches),
        Err(error) => Err(refusal(&error)),
    }
}

// The value of an option by its text.
fn value_of_text(option: SolveOption, text: Option<&str>) -> Result<Option<u32>, NumberFault>
    ensures value { result ≡ value_of_text option (option_map (λ t. t.now) text.entry) }
    ensures within { IfOk result (λ value. IfSome value (λ n. n ≤ most_of option)) }
{
    match text {
        None => Ok(None),
        Some(text) => match parse_decimal(text.as_bytes(), 0, option.least(), option.most()) {
            Ok(value) => Ok(Some(value as u32)),
            Err(fault) => Err(fault),
        },
    }
}

// The number of storeys by its text.
fn storeys_of_text(text: Option<&str>) -> Result<u8, NumberFault>
    ensures value { result ≡ storeys_of_text (option_map (λ t. t.now) text.entry) }
    ensures within { IfOk result (λ n. (1 ≤ n) × (n ≤ 16)) }
{
    match text {
        None => Err(NumberFault::BadNumber),
        Some(text) => match parse_decimal(text.as_bytes(), 0, 1, 16) {
            Ok(value) => Ok(value as u8),
            Err(fault) => Err(fault),
        },
    }
}

/// The number of storeys among matches.
#[tactic(auto, using(crate::proofs::Readings::looked_up))]
pub(crate) fn storeys_of(matches: &ArgMatches<'_>) -> Result<u8, NumberFault>
    ensures value { result ≡ storeys_of_text (first_of (codes "storeys") (rows_of (found_of matches.now))) }
    ensures within { IfOk result (λ n. (1 ≤ n) × (n ≤ 16)) }
{
    storeys_of_text(matches.get_str("storeys"))
}

/// The value of an option among matches.
#[tactic(auto, using(crate::proofs::Readings::looked_up))]
pub(crate) fn value_of(
    matches: &ArgMatches<'_>,
    option: SolveOption,
) -> Result<Option<u32>, NumberFault>
    ensures value { result ≡ value_of_text option (first_of (name_of option) (rows_of (found_of matches.now))) }
    ensures within { IfOk result (λ value. IfSome value (λ n. n ≤ most_of option)) }
{
    value_of_text(option, matches.get_str(option.name()))
}
