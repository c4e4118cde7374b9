// The records of a case.
ghost use Rattle.std.specs.Prelude.{◌≡◌, ◌++◌, ◌∷◌, ◌*◌, ◌+◌, [], ◌≤◌, ◌<◌, ◌^◌, IfOk, length};
ghost use Rattle.tb_grid.specs.Axis.{IsAxis, interval_count, most_lines};
ghost use Rattle.tb_grid.specs.Grid.{IsGrid};
ghost use Rattle.tb_case_records.specs.Cases.{AreAxes, AreValues, ReadsCase, axes_in, form_of, head_table};
ghost use Rattle.tb_case_records.specs.Table.{Taken, face_rows, node_rows};

use crate::axis::{AxisForm, take_axis};
use crate::ends::{CaseEnd, Verdict, take_end};
use crate::fault::BundleRefusal;
use crate::reader::RecordReader;
use crate::values::{take_faces, take_nodes};
use crate::words::take_words;
use std::alloc::Global;
use tb_field::Field;
use tb_flux::Flux;
use tb_geometry::Case;
use tb_grid::{Axis, CellCounts, Grid};
use tb_places::AxisName;
use tb_terms::Interval;

/// What a bundle claims of a case: an interval, and what proves it.
#[derive(Debug, Drop, PartialEq)]
pub struct CaseProof {
    /// The environments that are at 1.
    pub case: Case,
    pub grid: Grid,
    pub field: Field,
    pub flux: Flux,
    /// The two ends in fW/K.
    pub interval: Interval,
    pub verdict: Verdict,
    /// The width that was wanted, in µW/K.
    pub width: u64,
}

/// What a case is in its bundle: its number, its environments, the fields of its first record, and the base lines of
/// its body.
#[derive(Clone, Copy)]
pub struct CaseShape<'a> {
    pub number: u8,
    pub case: Case,
    pub words: &'a [&'a [u8]],
    pub x: &'a [u32],
    pub y: &'a [u32],
    pub z: &'a [u32],
}

// The lines of the three axes.
#[derive(Drop)]
struct AxesLines {
    x: Vec<u32>,
    y: Vec<u32>,
    z: Vec<u32>,
}

// The first record of a case, and those of its axes.
fn take_lines(
    reader: &mut RecordReader,
    alloc: Global,
    shape: CaseShape,
) -> Result<AxesLines, BundleRefusal>
    ensures taken { Taken (head_table (form_of shape.entry) reader.old.ahead) reader.old reader.new result }
    ensures read { IfOk result (λ axes. AreAxes axes.x.items axes.y.items axes.z.items reader.old.ahead) }
{
    if let Err(refusal) = take_words(reader, shape.words) {
        return Err(refusal);
    }
    let form = AxisForm {
        case: shape.number,
        axis: AxisName::X,
        bases: shape.x,
        cells: 0,
    };
    let x = match take_axis(reader, alloc, form) {
        Ok(x) => x,
        Err(refusal) => return Err(refusal),
    };
    let form = AxisForm {
        case: shape.number,
        axis: AxisName::Y,
        bases: shape.y,
        cells: 0,
    };
    let y = match take_axis(reader, alloc, form) {
        Ok(y) => y,
        Err(refusal) => return Err(refusal),
    };
    let form = AxisForm {
        case: shape.number,
        axis: AxisName::Z,
        bases: shape.z,
        cells: (x.len() as u64 - 1) * (y.len() as u64 - 1),
    };
    match take_axis(reader, alloc, form) {
        Ok(z) => Ok(AxesLines { x, y, z }),
        Err(refusal) => Err(refusal),
    }
}

fn axis_of(lines: Vec<u32>) -> Axis
    requires { IsAxis lines.items }
    ensures { result ≡ lines.items }
{
    match Axis::new(lines) {
        Ok(axis) => axis,
        Err(_) => unreachable!(),
    }
}

fn grid_of(lines: AxesLines) -> Grid
    requires { IsGrid (record { x = lines.x.items; y = lines.y.items; z = lines.z.items }) }
    ensures { result ≡ record { x = lines.x.items; y = lines.y.items; z = lines.z.items } }
{
    match Grid::new(axis_of(lines.x), axis_of(lines.y), axis_of(lines.z)) {
        Ok(grid) => grid,
        Err(_) => unreachable!(),
    }
}

// The grid of a case, behind its first record.
fn take_grid(
    reader: &mut RecordReader,
    alloc: Global,
    shape: CaseShape,
) -> Result<Grid, BundleRefusal>
    ensures taken { Taken (head_table (form_of shape.entry) reader.old.ahead) reader.old reader.new result }
    ensures read { IfOk result (λ grid. grid ≡ axes_in reader.old.ahead) }
{
    match take_lines(reader, alloc, shape) {
        Ok(lines) => Ok(grid_of(lines)),
        Err(refusal) => Err(refusal),
    }
}

/// How many cells there are along each axis: fewer than lines, of which there are 1,024 at most.
pub fn counts_of(grid: &Grid) -> CellCounts
    ensures x { result.x ≡ interval_count grid.now.x }
    ensures y { result.y ≡ interval_count grid.now.y }
    ensures z { result.z ≡ interval_count grid.now.z }
    ensures few { (result.x < most_lines) × ((result.y < most_lines) × (result.z < most_lines)) }
{
    grid.counts()
}

// The values of a case on its grid.
#[derive(Drop)]
struct CaseValues {
    field: Vec<i64>,
    flux: Vec<i64>,
}

// The node rows and the face rows of a grid.
fn take_values(
    reader: &mut RecordReader,
    alloc: Global,
    counts: CellCounts,
) -> Result<CaseValues, BundleRefusal>
    requires few { (counts.x < most_lines) × ((counts.y < most_lines) × (counts.z < most_lines)) }
    ensures taken { Taken (node_rows counts.x counts.y counts.z ++ face_rows counts.x counts.y counts.z) reader.old reader.new result }
    ensures read { IfOk result (λ values. AreValues counts.x counts.y counts.z values.field.items values.flux.items reader.old.ahead) }
{
    let Ok(mut field) = Vec::with_capacity(alloc, counts.nodes() as usize) else {
        return Err(BundleRefusal::NoMemory);
    };
    if let Err(refusal) = take_nodes(reader, counts.x, counts.y, counts.z, &mut field) {
        return Err(refusal);
    }
    let Ok(mut flux) = Vec::with_capacity(alloc, counts.faces() as usize) else {
        return Err(BundleRefusal::NoMemory);
    };
    match take_faces(reader, counts.x, counts.y, counts.z, &mut flux) {
        Ok(()) => Ok(CaseValues { field, flux }),
        Err(refusal) => Err(refusal),
    }
}

fn case_proof(case: Case, grid: Grid, values: CaseValues, last: CaseEnd) -> CaseProof
    ensures { result ≡ record {
      case = case;
      grid = grid;
      field = values.field.items;
      flux = values.flux.items;
      interval = last.interval;
      verdict = last.verdict;
      width = last.width;
    } }
{
    CaseProof {
        case,
        grid,
        field: Field::from_values(values.field),
        flux: Flux::from_values(values.flux),
        interval: last.interval,
        verdict: last.verdict,
        width: last.width,
    }
}

/// The next records are those of a case.
pub fn read_case(
    reader: &mut RecordReader,
    alloc: Global,
    shape: CaseShape,
) -> Result<CaseProof, BundleRefusal>
    ensures { ReadsCase (form_of shape.entry) reader.old reader.new result }
{
    let grid = match take_grid(reader, alloc, shape) {
        Ok(grid) => grid,
        Err(refusal) => return Err(refusal),
    };
    let counts = counts_of(&grid);
    let values = match take_values(reader, alloc, counts) {
        Ok(values) => values,
        Err(refusal) => return Err(refusal),
    };
    match take_end(reader) {
        Ok(last) => Ok(case_proof(shape.case, grid, values, last)),
        Err(refusal) => Err(refusal),
    }
}
