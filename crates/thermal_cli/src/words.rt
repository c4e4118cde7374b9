// The words of a run.
ghost use Rattle.std.specs.Prelude.{◌≡◌, IfErr, IfOk, Some, map, slice_get, string_bytes};
ghost use Rattle.tb_options.specs.declared.refusal.WordsRefusal.TheVariants.{NoReading};
ghost use Rattle.thermal_cli.specs.Words.{HasReading, HasRanges, Names, reads_input};

use std::alloc::Global;
use tb_options::{SolveOptions, WordsRefusal, read_options, read_storeys, read_without_options};

/// A command of the program.
#[derive(Clone, Copy, Debug, PartialEq, Eq)]
pub enum Command {
    /// Reads a bundle, and writes the interval that it certifies.
    Check,
    /// Reads a bundle, and writes the figures that it certifies.
    Report,
    /// Reads a detail, and writes the bundle that certifies an interval of each of its cases.
    Solve(SolveOptions),
    /// Reads a detail, and writes the U-values of its parts.
    UValue,
    /// Reads nothing, and writes the interval of a section through so many storeys, 1 to 16.
    Demo(u8),
}

impl Command {
    /// Whether it reads its input: whether it is another than `demo`.
    pub fn reads_input(self) -> bool
        ensures { result ≡ reads_input self }
    {
        match self {
            Command::Demo(_) => false,
            _ => true,
        }
    }
}

/// The command that these words name: its word, behind `solve` its options, and behind `demo` a number. `NoReading` where
/// they name none.
pub fn command_of(alloc: Global, words: &[String]) -> Result<Command, WordsRefusal>
    ensures names { IfOk result (Names (map string_bytes words.now)) }
    ensures no_reading { IfErr result (λ why. why ≡ NoReading → ¬ HasReading (map string_bytes words.now)) }
    ensures ranges { IfOk result HasRanges }
{
    match words {
        [word, ..] => command_with(alloc, word.as_str(), words),
        _ => Err(WordsRefusal::NoReading),
    }
}

// The command of these words, of which this is the first.
fn command_with(alloc: Global, word: &str, words: &[String]) -> Result<Command, WordsRefusal>
    requires first { slice_get (map string_bytes words.now) 0 ≡ Some word.now }
    ensures names { IfOk result (Names (map string_bytes words.now)) }
    ensures no_reading { IfErr result (λ why. why ≡ NoReading → ¬ HasReading (map string_bytes words.now)) }
    ensures ranges { IfOk result HasRanges }
{
    if word == "solve" {
        return Ok(Command::Solve(read_options(alloc, words)?));
    }
    if word == "check" {
        read_without_options(alloc, "check", words)?;
        return Ok(Command::Check);
    }
    if word == "report" {
        read_without_options(alloc, "report", words)?;
        return Ok(Command::Report);
    }
    if word == "uvalue" {
        read_without_options(alloc, "uvalue", words)?;
        return Ok(Command::UValue);
    }
    if word == "demo" {
        return Ok(Command::Demo(read_storeys(alloc, words)?));
    }
    Err(WordsRefusal::NoReading)
}
