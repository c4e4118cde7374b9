// The words of a command.
ghost use Rattle.std.specs.Prelude.{◌≡◌, ◌≤◌, ℕ, IfErr, IfOk, IfSome, Ok, map, string_bytes};
ghost use Rattle.clap.specs.Words.{found_of, new_app, rows_of};
ghost use Rattle.tb_options.specs.declared.SolveOptions.{SolveOptions};
ghost use Rattle.tb_options.specs.declared.refusal.WordsRefusal.TheVariants.{NoReading};
ghost use Rattle.tb_options.specs.Options.{AreWithin, GivesOptions, HasMatches, IsReading, IsStoreyReading};

use crate::matches::{demo_command, matches_of, solve_command, storeys_of, value_of};
use crate::{SolveOption, SolveOptions, WordsRefusal};
use clap::{ArgMatches, Command};
use std::alloc::Global;
use tb_numbers::NumberFault;

/// The options that the words of `solve` give, of which the first is the command's own: each as `--name value` or
/// `--name=value`, at most once, in any order.
pub fn read_options(alloc: Global, words: &[String]) -> Result<SolveOptions, WordsRefusal>
    ensures reading { IfOk result (IsReading (map string_bytes words.now)) }
    ensures within { IfOk result AreWithin }
    ensures no_reading { IfErr result (λ why. why ≡ NoReading → (o : SolveOptions) → ¬ IsReading (map string_bytes words.now) o) }
{
    let matches = matches_of(solve_command(alloc)?, words)?;
    match options_of(&matches) {
        Ok(options) => Ok(options),
        Err(_) => Err(WordsRefusal::NoReading),
    }
}

/// The number of storeys that the words of `demo` give, of which the first is the command's own: one word, a whole number
/// from 1 to 16.
pub fn read_storeys(alloc: Global, words: &[String]) -> Result<u8, WordsRefusal>
    ensures reading { IfOk result (IsStoreyReading (map string_bytes words.now)) }
    ensures within { IfOk result (λ n. (1 ≤ n) × (n ≤ 16)) }
    ensures no_reading { IfErr result (λ why. why ≡ NoReading → (n : ℕ) → ¬ IsStoreyReading (map string_bytes words.now) n) }
{
    let matches = matches_of(demo_command(alloc)?, words)?;
    match storeys_of(&matches) {
        Ok(storeys) => Ok(storeys),
        Err(_) => Err(WordsRefusal::NoReading),
    }
}

/// Reads the words of a command of this name that takes nothing. The first is the command's own.
pub fn read_without_options(alloc: Global, name: &str, words: &[String]) -> Result<(), WordsRefusal>
    ensures reading { IfOk result (λ _. HasMatches (new_app name.now) (map string_bytes words.now)) }
    ensures no_reading { IfErr result (λ why. why ≡ NoReading → ¬ HasMatches (new_app name.now) (map string_bytes words.now)) }
{
    matches_of(Command::new(alloc, name), words)?;
    Ok(())
}

// The options that matches give.
fn options_of(matches: &ArgMatches<'_>) -> Result<SolveOptions, NumberFault>
    ensures gives { IfOk result (GivesOptions (rows_of (found_of matches.now))) }
    ensures gives_none { IfErr result (λ _. (o : SolveOptions) → ¬ GivesOptions (rows_of (found_of matches.now)) o) }
{
    let width = value_of(matches, SolveOption::Width)?;
    let grade = value_of(matches, SolveOption::Grade)?;
    let halve = value_of(matches, SolveOption::Halve)?;
    let sweeps = value_of(matches, SolveOption::Sweeps)?;
    Ok(SolveOptions {
        width,
        grade: byte(grade),
        halve: byte(halve),
        sweeps: short(sweeps),
    })
}

// A value of 8 bits.
fn byte(value: Option<u32>) -> Option<u8>
    requires { IfSome value (λ n. n ≤ 255) }
    ensures { result ≡ value }
{
    match value {
        Some(value) => Some(value as u8),
        None => None,
    }
}

// A value of 16 bits.
fn short(value: Option<u32>) -> Option<u16>
    requires { IfSome value (λ n. n ≤ 65535) }
    ensures { result ≡ value }
{
    match value {
        Some(value) => Some(value as u16),
        None => None,
    }
}
