// `demo`: the interval of a section that is made from a number.
ghost use Rattle.std.specs.Prelude.{◌≡◌, ◌≤◌, ◌*◌, IfOk};
ghost use Rattle.tb_demo.specs.Line.{demo_grading};
ghost use Rattle.tb_demo.specs.Section.{section};
ghost use Rattle.tb_detail.specs.Limits.{InLimits};
ghost use Rattle.tb_geometry.specs.Base.{base_axes};
ghost use Rattle.tb_geometry.specs.Faults.{IsAccepted};
ghost use Rattle.tb_geometry.specs.Grids.{CarriesBody};
ghost use Rattle.tb_grid.specs.Grid.{counts_of};
ghost use Rattle.tb_grid.specs.Levels.{IsLevelOf};
ghost use Rattle.tb_outside.specs.Buffers.{Gathers};
ghost use Rattle.tb_places.specs.Places.{cell_count};
ghost use Rattle.thermal_cli.specs.Demo.{DemoAnswers, demo_status, demo_text};

use crate::Status;
use crate::report::body_of;
use itoa::Buffer;
use std::alloc::Global;
use tb_bundle::Verdict;
use tb_bundle_text::verdict_word;
use tb_demo::{demo_detail, demo_level, demo_sweeps, demo_width};
use tb_detail::Detail;
use tb_driver::solve;
use tb_geometry::{Body, Case};
use tb_grid::Grid;
use tb_numbers::fixed;
use tb_outside::{OutputBuffer, Sink, Text};
use tb_records::NoMemory;
use tb_terms::Interval;

/// The case of the demo: inside is at 1, outside at 0.
const INSIDE: Case = Case { mask: 1 };

/// What `demo` answers.
#[derive(Clone, Copy, Debug, PartialEq, Eq)]
pub struct DemoAnswer {
    /// How many storeys the section has.
    pub storeys: u8,
    /// How many cells its level grid has.
    pub cells: u32,
    /// The two ends of its case in fW/K.
    pub interval: Interval,
    /// How the search ended.
    pub verdict: Verdict,
}

/// What `demo` answers to a number of storeys, 1 to 16.
pub fn demo(alloc: Global, storeys: u8) -> Result<DemoAnswer, NoMemory>
    requires some { 1 ≤ storeys }
    requires few { storeys ≤ 16 }
    ensures { IfOk result (DemoAnswers storeys) }
{
    match demo_detail(alloc, storeys) {
        Ok(detail) => {
            let answer = demo_of(alloc, storeys, &detail);
            drop(detail);
            answer
        }
        Err(_) => Err(NoMemory),
    }
}

// What is answered to the section of so many storeys.
fn demo_of(alloc: Global, storeys: u8, detail: &Detail) -> Result<DemoAnswer, NoMemory>
    requires some { 1 ≤ storeys }
    requires few { storeys ≤ 16 }
    requires detail { detail.now ≡ section storeys }
    requires limits { InLimits detail.now }
    requires accepted { IsAccepted detail.now }
    ensures { IfOk result (DemoAnswers storeys) }
{
    let body = body_of(alloc, detail)?;
    let answer = demo_on(alloc, storeys, &body);
    drop(body);
    answer
}

// What is answered to its body.
fn demo_on(alloc: Global, storeys: u8, body: &Body) -> Result<DemoAnswer, NoMemory>
    requires some { 1 ≤ storeys }
    requires few { storeys ≤ 16 }
    requires body { body.now ≡ section storeys }
    requires limits { InLimits body.now }
    ensures { IfOk result (DemoAnswers storeys) }
{
    match demo_level(alloc, storeys, body) {
        Ok(level) => search(alloc, storeys, body, &level),
        Err(_) => Err(NoMemory),
    }
}

// What is answered on its level grid.
fn search(alloc: Global, storeys: u8, body: &Body, level: &Grid) -> Result<DemoAnswer, NoMemory>
    requires few { storeys ≤ 16 }
    requires body { body.now ≡ section storeys }
    requires limits { InLimits body.now }
    requires level { IsLevelOf demo_grading (base_axes (section storeys).boxes) level.now }
    requires counted { cell_count (counts_of level.now) ≡ 240 * storeys }
    requires carries { CarriesBody level.now body.now }
    ensures { IfOk result (DemoAnswers storeys) }
{
    let cells = level.cells();
    match solve(
        alloc,
        body,
        level,
        INSIDE,
        demo_width(storeys),
        demo_sweeps(),
    ) {
        Ok(found) => Ok(DemoAnswer {
            storeys,
            cells,
            interval: found.interval,
            verdict: found.verdict,
        }),
        Err(_) => Err(NoMemory),
    }
}

// ---- its text and its status

impl Text for DemoAnswer {
    ghost text = { demo_text };

    fn put<K: Sink>(&self, buffer: &mut OutputBuffer, sink: &mut K) {
        put_line(buffer, sink, *self);
    }
}

fn put_line<K: Sink>(buffer: &mut OutputBuffer, sink: &mut K, answer: DemoAnswer)
    ensures { Gathers K.holds K.faults sink.old sink.new buffer.old (demo_text answer) buffer.new }
{
    let (mut storeys_digits, mut cells_digits) = (Buffer::new(), Buffer::new());
    let storeys = storeys_digits.format(answer.storeys).as_bytes();
    let cells = cells_digits.format(answer.cells).as_bytes();
    let (lo, hi) = (fixed(answer.interval.lo, 0), fixed(answer.interval.hi, 0));
    buffer.put_pieces(
        sink,
        &[
            b"demo,",
            storeys,
            b",",
            cells,
            b",",
            lo.as_bytes(),
            b",",
            hi.as_bytes(),
            b",",
            verdict_word(answer.verdict),
            b"\nend\n",
        ],
    );
}

impl DemoAnswer {
    /// The status of a run that tells this answer.
    pub fn status(&self) -> Status
        ensures { result ≡ demo_status self.now }
    {
        if self.verdict == Verdict::Done {
            Status::Fine
        } else {
            Status::WidthNotReached
        }
    }
}
