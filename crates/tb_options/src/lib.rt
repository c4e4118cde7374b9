//! The words of a command, read by `clap`: the options of the command `solve`, what holds where an option isn't given,
//! the one word of the command `demo`, and the words of a command that takes none.
#![tactic(auto)]

ghost use Rattle.std.specs.Prelude.{◌≡◌, codes, unwrap_or};
ghost use Rattle.tb_options.specs.Options.{least_of, most_of, name_of, usual_grade, usual_halve};

mod matches;
mod refusal;
#[cfg(test)]
mod tests;
mod words;

pub use refusal::WordsRefusal;
pub use words::{read_options, read_storeys, read_without_options};

/// An option of `solve`.
#[derive(Clone, Copy, Debug, PartialEq, Eq)]
pub enum SolveOption {
    /// `--width`: how wide an interval may be, in µW/K, at most 10⁹.
    Width,
    /// `--grade`: how often each interval of the base grid is cut towards its ends, at most 12 times.
    Grade,
    /// `--halve`: how often each interval is halved after that, at most 6 times.
    Halve,
    /// `--sweeps`: how many plain passes a case may take, 1 to 10,000.
    Sweeps,
}

impl SolveOption {
    // Its name, which stands behind two hyphens.
    fn name(self) -> &'static str
        ensures { result.now ≡ name_of self }
    {
        match self {
            SolveOption::Width => "width",
            SolveOption::Grade => "grade",
            SolveOption::Halve => "halve",
            SolveOption::Sweeps => "sweeps",
        }
    }

    // Its least value.
    fn least(self) -> u64
        ensures { result ≡ least_of self }
    {
        match self {
            SolveOption::Sweeps => 1,
            _ => 0,
        }
    }

    // Its greatest value.
    fn most(self) -> u64
        ensures { result ≡ most_of self }
    {
        match self {
            SolveOption::Width => 1_000_000_000,
            SolveOption::Grade => 12,
            SolveOption::Halve => 6,
            SolveOption::Sweeps => 10_000,
        }
    }
}

/// The options that are given. See [`SolveOption`].
#[derive(Clone, Copy, Debug, PartialEq, Eq)]
pub struct SolveOptions {
    pub width: Option<u32>,
    pub grade: Option<u8>,
    pub halve: Option<u8>,
    pub sweeps: Option<u16>,
}

impl SolveOptions {
    /// How wide an interval may be, in µW/K: 10,000 where it isn't given.
    pub fn width(self) -> u64
        ensures { result ≡ unwrap_or self.width 10000 }
    {
        u64::from(self.width.unwrap_or(10_000))
    }

    /// The grade of the level grid: where it isn't given, 4 in dimension 2 and 2 in dimension 3.
    pub fn grade(self, dimension: u8) -> u8
        ensures { result ≡ unwrap_or self.grade (usual_grade dimension) }
    {
        self.grade.unwrap_or(if dimension == 2 { 4 } else { 2 })
    }

    /// How often the intervals are halved: where it isn't given, once in dimension 2, and never in dimension 3.
    pub fn halve(self, dimension: u8) -> u8
        ensures { result ≡ unwrap_or self.halve (usual_halve dimension) }
    {
        self.halve.unwrap_or(if dimension == 2 { 1 } else { 0 })
    }

    /// How many plain passes a case may take: 200 where it isn't given.
    pub fn sweeps(self) -> u32
        ensures { result ≡ unwrap_or self.sweeps 200 }
    {
        u32::from(self.sweeps.unwrap_or(200))
    }
}
