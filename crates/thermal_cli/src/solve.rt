// `solve`: the bundle that a detail is solved to.
ghost use Rattle.std.specs.Prelude.{◌≡◌, ◌^◌, ◌≤◌, IfOk, MatchResult, length};
ghost use Rattle.tb_detail.specs.Limits.{InLimits};
ghost use Rattle.tb_geometry.specs.Faults.{IsAccepted};
ghost use Rattle.tb_options.specs.Options.{AreWithin};
ghost use Rattle.tb_outside.specs.Buffers.{Gathers};
ghost use Rattle.tb_outside.specs.Limits.{most_input_bytes};
ghost use Rattle.thermal_cli.specs.Solve.{IsSolvedTo, SolveAnswers, grading_of, letter, solve_status, solve_text, solved_status, target_of, too_large_text};
ghost use Rattle.thermal_cli.specs.Solving.{AnswersAs, RefusesDetail};

use crate::Status;
use itoa::Buffer;
use std::alloc::Global;
use tb_bundle::CaseProof;
use tb_detail::Detail;
use tb_geometry::{Body, BodyFault, BodyRefusal};
use tb_grid::{AxisName, Grading, GridTooLarge, LevelFault};
use tb_options::SolveOptions;
use tb_outside::{OutputBuffer, Sink, Text};
use tb_records::NoMemory;
use tb_solving::{SolvedBundle, Target, solve_cases};
use tb_text::{DetailFault, DetailRefusal, read_detail};

/// What `solve` answers to a detail.
#[derive(Debug, Drop)]
pub enum SolveAnswer {
    /// The detail has this first fault.
    FaultOfDetail(DetailFault),
    /// The body of the detail has this first fault.
    FaultOfBody(BodyFault),
    /// The level grid of the body, by the options, is too large.
    GridTooLarge(GridTooLarge),
    /// The detail was solved to this bundle.
    Solved(SolvedBundle),
}

// Why a detail within limits isn't solved.
#[derive(Clone, Copy, Debug)]
enum Unsolved {
    FaultOfBody(BodyFault),
    GridTooLarge(GridTooLarge),
    NoMemory,
}

/// What `solve` answers with these options to the bytes of a detail, of which there are at most 268,435,456.
pub fn solve(alloc: Global, options: SolveOptions, bytes: &[u8]) -> Result<SolveAnswer, NoMemory>
    requires input { length bytes.now ≤ most_input_bytes }
    requires ranges { AreWithin options }
    ensures { IfOk result (SolveAnswers options bytes.now) }
{
    let detail = match read_detail(alloc, bytes) {
        Ok(detail) => detail,
        Err(DetailRefusal::Fault(fault)) => return Ok(SolveAnswer::FaultOfDetail(fault)),
        Err(DetailRefusal::NoMemory) => return Err(NoMemory),
    };
    match solve_detail(alloc, options, &detail) {
        Ok(cases) => Ok(SolveAnswer::Solved(SolvedBundle::new(detail, cases))),
        Err(why) => {
            drop(detail);
            answer_of(why)
        }
    }
}

// What is answered where a detail isn't solved.
fn answer_of(why: Unsolved) -> Result<SolveAnswer, NoMemory>
    ensures { AnswersAs why result }
{
    match why {
        Unsolved::FaultOfBody(fault) => Ok(SolveAnswer::FaultOfBody(fault)),
        Unsolved::GridTooLarge(why) => Ok(SolveAnswer::GridTooLarge(why)),
        Unsolved::NoMemory => Err(NoMemory),
    }
}

// The solved cases of a detail.
fn solve_detail(
    alloc: Global,
    options: SolveOptions,
    detail: &Detail,
) -> Result<Vec<CaseProof>, Unsolved>
    requires limits { InLimits detail.now }
    requires ranges { AreWithin options }
    ensures { MatchResult result
        (λ cases. IsSolvedTo options detail.now (record { detail = detail.now; cases = cases.items }))
        (RefusesDetail options detail.now) }
{
    let body = match Body::new(alloc, detail) {
        Ok(body) => body,
        Err(BodyRefusal::Fault(fault)) => return Err(Unsolved::FaultOfBody(fault)),
        Err(BodyRefusal::NoMemory) => return Err(Unsolved::NoMemory),
    };
    let cases = solve_body(alloc, options, detail.dimension, &body);
    drop(body);
    cases
}

// The solved cases of a body.
fn solve_body(
    alloc: Global,
    options: SolveOptions,
    dimension: u8,
    body: &Body,
) -> Result<Vec<CaseProof>, Unsolved>
    requires dimension { dimension ≡ body.now.dimension }
    requires ranges { AreWithin options }
    requires accepted { IsAccepted body.now }
    ensures { MatchResult result
        (λ cases. IsSolvedTo options body.now (record { detail = body.now; cases = cases.items }))
        (RefusesDetail options body.now) }
{
    let level = match body.level_grid(alloc, grading(options, dimension)) {
        Ok(level) => level,
        Err(LevelFault::TooLarge(why)) => return Err(Unsolved::GridTooLarge(why)),
        Err(LevelFault::NoMemory) => return Err(Unsolved::NoMemory),
    };
    match solve_cases(alloc, body, &level, target(options)) {
        Ok(cases) => Ok(cases),
        Err(_) => Err(Unsolved::NoMemory),
    }
}

// How the level grid is made by these options in a detail of this dimension.
fn grading(options: SolveOptions, dimension: u8) -> Grading
    requires { AreWithin options }
    ensures grading { result ≡ grading_of options dimension }
    ensures halve { result.halve ≤ 6 }
{
    Grading {
        grade: options.grade(dimension),
        halve: options.halve(dimension),
        dimension,
    }
}

// What these options ask of a search.
fn target(options: SolveOptions) -> Target
    requires { AreWithin options }
    ensures target { result ≡ target_of options }
    ensures width { result.width ≤ 10 ^ 9 }
{
    Target {
        width: options.width(),
        sweeps: options.sweeps(),
    }
}

// ---- its text and its status

fn letter(axis: AxisName) -> &'static [u8]
    ensures { result.now ≡ letter axis }
{
    match axis {
        AxisName::X => b"x",
        AxisName::Y => b"y",
        AxisName::Z => b"z",
    }
}

fn put_lines<K: Sink>(buffer: &mut OutputBuffer, sink: &mut K, axis: AxisName, count: u32)
    ensures { Gathers K.holds K.faults sink.old sink.new buffer.old (too_large_text (GridTooLarge.Lines axis count)) buffer.new }
{
    let mut digits = Buffer::new();
    let count = digits.format(count).as_bytes();
    buffer.put_pieces(
        sink,
        &[
            b"refused,GridTooLarge,lines ",
            letter(axis),
            b" ",
            count,
            b"\n",
        ],
    );
}

fn put_cells<K: Sink>(buffer: &mut OutputBuffer, sink: &mut K, count: u64)
    ensures { Gathers K.holds K.faults sink.old sink.new buffer.old (too_large_text (GridTooLarge.Cells count)) buffer.new }
{
    let mut digits = Buffer::new();
    let count = digits.format(count).as_bytes();
    buffer.put_pieces(sink, &[b"refused,GridTooLarge,cells ", count, b"\n"]);
}

fn put_too_large<K: Sink>(buffer: &mut OutputBuffer, sink: &mut K, why: GridTooLarge)
    ensures { Gathers K.holds K.faults sink.old sink.new buffer.old (too_large_text why) buffer.new }
{
    match why {
        GridTooLarge::Lines(axis, count) => put_lines(buffer, sink, axis, count),
        GridTooLarge::Cells(count) => put_cells(buffer, sink, count),
    }
}

impl Text for SolveAnswer {
    ghost text = { solve_text };

    fn put<K: Sink>(&self, buffer: &mut OutputBuffer, sink: &mut K) {
        match self {
            SolveAnswer::FaultOfDetail(fault) => fault.put(buffer, sink),
            SolveAnswer::FaultOfBody(fault) => fault.put(buffer, sink),
            SolveAnswer::GridTooLarge(why) => put_too_large(buffer, sink, *why),
            SolveAnswer::Solved(bundle) => bundle.put(buffer, sink),
        }
    }
}

impl SolveAnswer {
    /// The status of a run that tells this answer.
    pub fn status(&self) -> Status
        ensures { result ≡ solve_status self.now }
    {
        match self {
            SolveAnswer::FaultOfDetail(_)
            | SolveAnswer::FaultOfBody(_)
            | SolveAnswer::GridTooLarge(_) => Status::Refused,
            SolveAnswer::Solved(bundle) => status_of(bundle),
        }
    }
}

// The status of a run that tells a bundle.
fn status_of(bundle: &SolvedBundle) -> Status
    ensures { result ≡ solved_status bundle.now }
{
    if bundle.is_done() {
        Status::Fine
    } else {
        Status::WidthNotReached
    }
}
