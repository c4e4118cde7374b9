// The top call.
ghost use Rattle.std.specs.Prelude.{◌≡◌, ◌⊎◌, ◌+◌, ◌<◌, ◌≤◌, ℕ, IfSome, None, Some, codes, length, map, string_bytes};
ghost use Rattle.tb_options.specs.declared.SolveOptions.{SolveOptions};
ghost use Rattle.tb_outside.specs.Faults.{Rose, Stands};
ghost use Rattle.tb_outside.specs.Limits.{most_input_bytes};
ghost use Rattle.tb_outside.specs.Outside.{Adds, TakesExactly};
ghost use Rattle.thermal_cli.specs.Outcome.{IsAnswered, IsInterrupted, IsOutcome, Runs, TellsAccepted, TellsDemo, TellsFrom, TellsOf, TellsReport, TellsSolved, WritesCertifiedFront, WritesFrontOfOne};
ghost use Rattle.thermal_cli.specs.Words.{HasRanges, HasReading, Names, NamesDemo, NamesReader, NamesSolve};
ghost use Rattle.thermal_cli.specs.declared.words.Command.{Command};

use crate::Status;
use crate::answer::answer_to;
use crate::told::{Told, tell};
use crate::words::{Command, command_of};
use std::alloc::Global;
use tb_options::WordsRefusal;
use tb_outside::{InFault, Sink, Source, read_all};
use tb_records::NoMemory;

/// How many bytes an input may have.
const INPUT_LIMIT: usize = 268_435_456;

// What is told of the bytes that a command read.
fn told_from(alloc: Global, command: Command, bytes: &[u8]) -> Told
    requires input { length bytes.now ≤ most_input_bytes }
    requires ranges { HasRanges command }
    ensures { TellsFrom command bytes.now result }
{
    match answer_to(alloc, command, bytes) {
        Ok(answer) => Told::Answered(answer),
        Err(NoMemory) => Told::NoMemory,
    }
}

// The work of a run, before anything is written.
fn work<S: Source>(alloc: Global, words: &[String], source: &mut S) -> Told
    ensures { IsOutcome S.left S.faults (map string_bytes words.now) source.old source.new result }
{
    let command = match command_of(alloc, words) {
        Ok(command) => command,
        Err(WordsRefusal::NoReading) => return Told::Usage,
        Err(WordsRefusal::NoMemory) => return Told::NoMemory,
    };
    if !command.reads_input() {
        return told_from(alloc, command, b"");
    }
    match read_all(alloc, source, INPUT_LIMIT) {
        Ok(bytes) => told_from(alloc, command, bytes.as_slice()),
        Err(InFault::SourceFault) => Told::SourceFault,
        Err(InFault::TooLong) => Told::TooLong,
        Err(InFault::NoMemory) => Told::NoMemory,
    }
}

/// Runs the program on these words, which don't begin with the program's name.
///
/// `check` reads a bundle from the source, and writes the intervals that it certifies. `report` reads a bundle too,
/// and writes the figures that follow from them: coupling coefficients, U-values, Ψ and χ. `solve` reads a detail and
/// writes the bundle that certifies an interval of each case, or tells its first fault, that of its body, or why its
/// level grid is too large. `uvalue` reads a detail, and writes the U-values of its parts. `demo` reads nothing: it
/// makes a section through storeys with balcony slabs, solves it, and writes its interval. `check`, `report` and
/// `uvalue` take nothing; behind `solve` stand its options, each at most once, as `--width 5` or `--width=5`:
/// `--width`, `--grade`, `--halve`, `--sweeps`; behind `demo` stands the number of storeys, 1 to 16. Where the input
/// is refused, one line says why (`docs/FORMATS.md`). All memory is taken before the first byte is written.
pub fn run<S: Source, K: Sink>(
    alloc: Global,
    words: &[String],
    source: &mut S,
    sink: &mut K,
) -> Status
    // The status and the bytes written belong to the words and to what the source gave. All that follows is part of this.
    ensures outcome { Runs S.left S.faults K.holds K.faults (map string_bytes words.now) source.old source.new sink.old sink.new result }

    // Usage comes exactly where the words name no command, unless memory runs out while they are read; the source is
    // untouched.
    ensures usage { result ≡ Status.Usage → ¬ HasReading (map string_bytes words.now) }
    ensures no_reading { (¬ HasReading (map string_bytes words.now))
        → ((result ≡ Status.Usage) ⊎ ((result ≡ Status.NoMemory) ⊎ (result ≡ Status.SinkFault))) × (source.new ≡ source.old) }

    // SourceFault comes only if a read failed, so never of `demo`; SinkFault only if a write failed.
    ensures source_fault { result ≡ Status.SourceFault → NamesReader (map string_bytes words.now)
        × Rose (S.faults source.old) (S.faults source.new)
        × Adds (K.holds sink.old) (K.holds sink.new) (codes "refused,SourceFault\n") }
    ensures sink_fault { result ≡ Status.SinkFault → Rose (K.faults sink.old) (K.faults sink.new)
        × WritesFrontOfOne S.left S.faults (map string_bytes words.now) source.old source.new (K.holds sink.old) (K.holds sink.new) }

    // A fault isn't passed over: where the count of faults doesn't stand, it is told.
    ensures source_faults_told { (Stands (S.faults source.old) (S.faults source.new))
        ⊎ ((result ≡ Status.SourceFault) ⊎ (result ≡ Status.SinkFault)) }
    ensures sink_faults_told { (Stands (K.faults sink.old) (K.faults sink.new)) ⊎ (result ≡ Status.SinkFault) }

    // Memory may run out before anything is written.
    ensures no_memory { result ≡ Status.NoMemory → Adds (K.holds sink.old) (K.holds sink.new) (codes "refused,NoMemory\n") }

    // TooLong comes exactly where a command reads, and the source holds more bytes than the limit; it takes one more.
    ensures refused { result ≡ Status.Refused → (NamesReader (map string_bytes words.now)
        × TakesExactly (S.left source.old) (S.left source.new) (most_input_bytes + 1)
        × Adds (K.holds sink.old) (K.holds sink.new) (codes "refused,TooLong\n"))
        ⊎ IsAnswered S.left (map string_bytes words.now) source.old source.new (K.holds sink.old) (K.holds sink.new) Status.Refused }
    ensures too_long { IfSome (S.left source.old) (λ bytes. NamesReader (map string_bytes words.now)
        → most_input_bytes < length bytes → IsInterrupted result
        ⊎ ((result ≡ Status.Refused) × Adds (K.holds sink.old) (K.holds sink.new) (codes "refused,TooLong\n"))) }

    // Any other input is read to its end, but of `demo`, and gets exactly what the command answers to its bytes.
    ensures answered { IfSome (S.left source.old) (λ bytes. (c : Command) → Names (map string_bytes words.now) c
        → length bytes ≤ most_input_bytes → IsInterrupted result ⊎ TellsOf c bytes (K.holds sink.old) (K.holds sink.new) result) }
    ensures fine { result ≡ Status.Fine
        → IsAnswered S.left (map string_bytes words.now) source.old source.new (K.holds sink.old) (K.holds sink.new) Status.Fine }

    // The intervals that are written of a bundle that `check` accepts are those of its fields and its balanced fluxes, and
    // each is sound on every refinement of the body.
    ensures certified { result ≡ Status.Fine → Names (map string_bytes words.now) Command.Check
        → TellsAccepted (S.left source.old) (S.left source.new) (K.holds sink.old) (K.holds sink.new) }

    // So are those of a report; the coupling coefficients, Ψ and χ that are made of them are sound too, and the interval of each
    // U-value holds the transmittance by ISO 6946.
    ensures reported { result ≡ Status.Fine → Names (map string_bytes words.now) Command.Report
        → TellsReport (S.left source.old) (S.left source.new) (K.holds sink.old) (K.holds sink.new) }

    // Where the sink fails while `check` tells its answer, a front was written of a line that begins with `refused,`, or of the
    // intervals of a bundle that `check` accepts: each line of them that stands whole tells the interval of a certified case, or
    // ends the list.
    ensures certified_front { result ≡ Status.SinkFault → Names (map string_bytes words.now) Command.Check
        → WritesCertifiedFront (S.left source.old) (S.left source.new) (K.holds sink.old) (K.holds sink.new) }

    // The bundle that `solve` writes is of the detail that was read: all its cases in order, each on the level grid that the
    // options say, with a solution for the width and the passes that they say. Each interval is that of the field and of the
    // balanced flux beside it, and is sound on every refinement of the body. The text has no fault: `check` accepts it as
    // the same bundle. Fine comes where all verdicts are `done`, else WidthNotReached.
    ensures solved { (result ≡ Status.Fine) ⊎ (result ≡ Status.WidthNotReached)
        → (o : SolveOptions) → Names (map string_bytes words.now) (Command.Solve o)
        → TellsSolved o (S.left source.old) (S.left source.new) (K.holds sink.old) (K.holds sink.new) result }

    // `demo` leaves the source as it is, whether it tells its bytes or not. What is told is the line of the interval
    // and the verdict of a solution of the section's case on its level grid, for the demo's width and passes, or that
    // memory ran out: it is written whole, or a front of it where the sink fails. The interval is sound on every
    // refinement of the section. Fine comes where the verdict is `done`, else WidthNotReached.
    ensures demonstrated { (storeys : ℕ) → Names (map string_bytes words.now) (Command.Demo storeys)
        → (source.new ≡ source.old) × TellsDemo K.holds K.faults storeys sink.old sink.new result }

    // WidthNotReached comes only of `solve` and `demo`, and the text was written whole.
    ensures width_not_reached { result ≡ Status.WidthNotReached
        → (NamesSolve (map string_bytes words.now) ⊎ NamesDemo (map string_bytes words.now))
        × IsAnswered S.left (map string_bytes words.now) source.old source.new
        (K.holds sink.old) (K.holds sink.new) Status.WidthNotReached }

    // CertificateRefused comes only of `check` and `report`, and tells the first fault of the bundle.
    ensures certificate_refused { result ≡ Status.CertificateRefused
        → (Names (map string_bytes words.now) Command.Check ⊎ Names (map string_bytes words.now) Command.Report)
        × IsAnswered S.left (map string_bytes words.now) source.old source.new
        (K.holds sink.old) (K.holds sink.new) Status.CertificateRefused }
{
    let told = work(alloc, words, source);
    tell(sink, &told)
}
